//! Checks a module, runs a method of it or calls it as a contract, and writes what it is or how that ended.
//!
//! The words are `check CONFIG FILE`, `run CONFIG FILE METHOD GAS`, `trap CONFIG FILE METHOD GAS`, `call CONFIG FILE
//! METHOD ARGS GAS` or the same with DEPOSIT behind it, `list FILE`, `text FILE`, `help` or `version`, where CONFIG is
//! `free` or the name of a file. The exit status is 0 after `ok`, `end BURNT`, the lines of a call that came to its
//! end, the lines or the text of a module and what `help` and `version` write, and 20 after each other line; 1 where
//! the words are no command, 2 where CONFIG is no configuration, 5 where a file could not be read, 6 where the line
//! could not be written, and 7 where memory ran out. For those a line on standard error has the status, with its
//! numbers. Beside `ok` the line `make 21` stands there where the module is valid, but an element or a segment doesn't
//! fit, so that no method can run.
#![tactic(auto)]

use nr_bytes::{FileShelf, StdoutSink, words_of};
use nr_module::{Status, check_module};
use std::alloc::Global;
use std::io;
use std::process::ExitCode;
use std::rt::{Env, Files};

/// The answer where the words could not be had: one that isn't UTF-8 makes no command.
fn refused(error: &io::Error) -> Status {
    if error.kind() == io::ErrorKind::OutOfMemory {
        Status::NoMemory
    } else {
        Status::Usage
    }
}

/// Runs the command of the words over the process's files and output.
fn run<R: Env + Files + Print + AllocGlobal>(rt: &R, alloc: Global) -> Status {
    match words_of(rt, alloc) {
        Ok(words) => {
            let mut shelf = FileShelf::new(rt);
            let mut sink = StdoutSink::new(rt);
            check_module(alloc, &words, &mut shelf, &mut sink)
        }
        Err(error) => refused(&error),
    }
}

fn main(rt: HostRuntime) -> ExitCode {
    let status = run(&rt, rt.alloc());
    if status != Status::Sound && status != Status::Faulty {
        // A line that can't be printed changes no status.
        let _ = rt.eprintln(status);
    }
    ExitCode::from(status.exit_status())
}
