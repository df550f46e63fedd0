//! Replays the blocks of a file, one after another or by the steps of a schedule, and writes the report; or
//! runs a chain that is generated from numbers, and writes its totals and the digest of its report; or writes the
//! roots of a chain's chunks, proves that one of them has an item, or checks such a proof; or cuts a part out of a
//! shard's state, or checks or joins such parts; or gathers a chunk of a chain, or runs such a chunk again.
//!
//! The commands are `run CONFIG GENESIS BLOCKS`, `check CONFIG GENESIS BLOCKS SCHEDULE`,
//! `gen NUMBER SHARDS BLOCKS`, `roots CONFIG GENESIS BLOCKS`,
//! `prove CONFIG GENESIS BLOCKS HEIGHT SHARD KIND PLACE`, `verify ROOT PROOF`,
//! `part CONFIG GENESIS BLOCKS HEIGHT SHARD COUNT NUMBER`, `checkpart ROOT FILE`, `joinparts ROOT COUNT PREFIX`,
//! `gather CONFIG GENESIS BLOCKS HEIGHT SHARD` and `recheck CONFIG FILE`, where CONFIG is `free` or the name of a
//! file. The exit status is that of the answer; for one above 0 a line on standard error has it, with its numbers.
#![tactic(auto)]

use nr_bytes::{FileShelf, StdoutSink, words_of};
use nr_top::{Status, serial};
use std::alloc::Global;
use std::io;
use std::process::ExitCode;
use std::rt::{Env, Files};

/// The answer where the words could not be had: one that isn't UTF-8 makes no command.
fn refused(error: &io::Error) -> Status {
    if error.kind() == io::ErrorKind::OutOfMemory {
        Status::NoMemory
    } else {
        Status::Usage
    }
}

/// Runs the command of the words over the process's files and output.
fn run<R: Env + Files + Print + AllocGlobal>(rt: &R, alloc: Global) -> Status {
    match words_of(rt, alloc) {
        Ok(words) => {
            let mut shelf = FileShelf::new(rt);
            let mut sink = StdoutSink::new(rt);
            serial(alloc, &words, &mut shelf, &mut sink)
        }
        Err(error) => refused(&error),
    }
}

fn main(rt: HostRuntime) -> ExitCode {
    let status = run(&rt, rt.alloc());
    let number = status.exit_status();
    if number > 0 {
        // A line that can't be printed changes no status.
        let _ = rt.eprintln(status);
    }
    ExitCode::from(number)
}
