//! Replays the blocks of a file with a thread for each shard, and writes the report that the serial replay writes.
//!
//! The commands are `replay CONFIG GENESIS BLOCKS`, where CONFIG is `free` or the name of a file, and
//! `gen NUMBER SHARDS BLOCKS`. The exit status is that of the answer; for one above 0 a line on standard error has it,
//! with its numbers.
#![tactic(auto)]

use nr_bytes::{FileShelf, StdoutSink, words_of};
use nr_replay::replay;
use nr_top::Status;
use nr_workers::OpenGate;
use std::alloc::Global;
use std::io;
use std::process::ExitCode;
use std::rt::{Env, Files};
use std::sync::Wait;
use std::thread::Threads;

/// The answer where the words could not be had: one that isn't UTF-8 makes no command.
fn refused(error: &io::Error) -> Status {
    if error.kind() == io::ErrorKind::OutOfMemory {
        Status::NoMemory
    } else {
        Status::Usage
    }
}

/// Runs the command of the words over the process's files and output.
fn run<R: Env + Files + Print + AllocGlobal + Threads + Wait + Sync>(
    rt: &R,
    alloc: Global,
) -> Status {
    match words_of(rt, alloc) {
        Ok(words) => {
            let mut shelf = FileShelf::new(rt);
            let mut sink = StdoutSink::new(rt);
            replay(rt, alloc, &words, &mut shelf, &mut sink, &OpenGate)
        }
        Err(error) => refused(&error),
    }
}

fn main(rt: HostRuntime) -> ExitCode {
    let status = run(&rt, rt.alloc());
    let number = status.exit_status();
    if number > 0 {
        // A line that can't be printed changes no status.
        let _ = rt.eprintln(status);
    }
    ExitCode::from(number)
}
