//! Writes the genesis or the blocks of a chain from a JSON text, the report of a chain that two JSON texts describe, a
//! JSON text of these files, of a report, of a part of a state, of a proof or of a gathered chunk, the bytes of a file
//! in hexadecimal, and what a line says that a program wrote.
//!
//! The words are `genesis CONFIG JSON`, `blocks JSON`, `replay CONFIG GENESIS.json BLOCKS.json`,
//! `check CONFIG GENESIS.json BLOCKS.json SCHEDULE`, `hex FILE`, `show genesis CONFIG FILE`, `show blocks FILE`,
//! `show report FILE`, `show part FILE`, `show proof FILE`, `show gathered FILE`, these with `show --compact` in place
//! of `show`, `explain WORDS..`, `help`, `help COMMAND` or `version`, where CONFIG is `free` or the name of a file. The
//! exit status is 0 where it was written; 1 where the words are no command, 2 where CONFIG is no configuration, 5 where
//! a file could not be read, 6 where the output could not be written, 7 where memory ran out, 20 where a file or a run
//! is refused and 21 where there is no sentence for the words to be explained. On standard error then stand the status
//! with its numbers, for 1 the words of all commands, or for 5, 20 and 21 the words that say what is wrong.
#![tactic(auto)]

use nr_bytes::{FileShelf, StdoutSink, words_of};
use nr_files::Status;
use nr_jsonrun::serve_words;
use std::alloc::Global;
use std::io;
use std::process::ExitCode;
use std::rt::{Env, Files};

/// The answer where the words could not be had: one that isn't UTF-8 makes no command.
fn refused(error: &io::Error) -> Status {
    if error.kind() == io::ErrorKind::OutOfMemory {
        Status::NoMemory
    } else {
        Status::Usage
    }
}

/// Runs the command of the words over the process's files and output.
fn run<R: Env + Files + Print + AllocGlobal>(rt: &R, alloc: Global) -> Status {
    match words_of(rt, alloc) {
        Ok(words) => {
            let mut shelf = FileShelf::new(rt);
            let mut sink = StdoutSink::new(rt);
            serve_words(alloc, &words, &mut shelf, &mut sink)
        }
        Err(error) => refused(&error),
    }
}

fn main(rt: HostRuntime) -> ExitCode {
    let status = run(&rt, rt.alloc());
    let number = status.exit_status();
    if number > 0 {
        // A line that can't be printed changes no status.
        let _ = rt.eprintln(status);
    }
    ExitCode::from(number)
}
