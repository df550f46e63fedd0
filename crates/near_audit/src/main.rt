//! Runs a chain once, and writes an archive that has for each of its chunks all that it is run again from, and its
//! lines.
//!
//! The words are `gather CONFIG GENESIS BLOCKS`, `help` or `version`, where CONFIG is `free` or the name of a file. The
//! exit status is that of the answer: 0 where all was written, 1 where the words are no command, 2, 3 and 4 where the
//! configuration, the genesis or the blocks are refused, 5 where a file could not be read, 6 where not all could be
//! written, and 7 where memory ran out. For one above 0 a line on standard error has it, with its numbers.
#![tactic(auto)]

use nr_audit::{Status, audit};
use nr_bytes::{FileShelf, StdoutSink, words_of};
use std::alloc::Global;
use std::io;
use std::process::ExitCode;
use std::rt::{Env, Files};

/// The answer where the words could not be had: one that isn't UTF-8 makes no command.
fn refused(error: &io::Error) -> Status {
    if error.kind() == io::ErrorKind::OutOfMemory {
        Status::NoMemory
    } else {
        Status::Usage
    }
}

/// Runs the command of the words over the process's files and output.
fn run<R: Env + Files + Print + AllocGlobal>(rt: &R, alloc: Global) -> Status {
    match words_of(rt, alloc) {
        Ok(words) => {
            let mut shelf = FileShelf::new(rt);
            let mut sink = StdoutSink::new(rt);
            audit(alloc, &words, &mut shelf, &mut sink)
        }
        Err(error) => refused(&error),
    }
}

fn main(rt: HostRuntime) -> ExitCode {
    let status = run(&rt, rt.alloc());
    let number = status.exit_status();
    if number > 0 {
        // A line that can't be printed changes no status.
        let _ = rt.eprintln(status);
    }
    ExitCode::from(number)
}
