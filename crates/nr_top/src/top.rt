//! The top call.

ghost use Rattle.std.specs.Prelude.{◌≡◌, ◌≢◌, IfOk, IfSome, option_map};
ghost use Rattle.nr_bytes.specs.Outside.{Rose};
ghost use Rattle.nr_top.specs.Answers.{Serves, stop_status};
ghost use Rattle.nr_top.specs.Plans.{command_plan, plan};
ghost use Rattle.nr_top.specs.Works.{CanWork, IsRight, Runs, work_text};
ghost use Rattle.nr_top.specs.declared.status.Status.TheVariants.{Done, ReadFault, WriteFault};
ghost use Rattle.nr_words.specs.Command.{command};
ghost use Rattle.nr_words.specs.Words.{CanRun, command_in, texts};

use crate::commands::text_of;
use crate::status::Status;
use crate::work::{Work, run_work};
use nr_bytes::{Blob, Shelf, Sink};
use nr_shell::{Stop, write_all};
use nr_words::{Words, serial_command};
use std::alloc::{AllocError, Global};

/// The answer of a command that stopped.
fn stop_status(stop: Stop<Status>) -> Status
    ensures { result ≡ stop_status stop }
{
    match stop {
        Stop::Unread => Status::ReadFault,
        Stop::Memory => Status::NoMemory,
        Stop::Refused(status) => status,
    }
}

/// Does what a command asks for.
fn serve_command<F: Fn(Work) -> Result<Blob, AllocError>, S: Shelf, K: Sink>(
    alloc: Global,
    run: &F,
    command: &Words<'_>,
    shelf: &mut S,
    sink: &mut K,
) -> Status
    requires can_run { CanRun command.now }
    requires can { Runs (F.pre run.now) }
    requires right { IsRight (F.post run.now) }
    ensures serves { Serves result (command_plan (command_in command.now)) (S.held shelf.old)
        (S.asked shelf.old) (S.asked shelf.new) (K.taken sink.old) (K.taken sink.new) }
    ensures untouched { result ≢ Done → result ≢ WriteFault → sink.new ≡ sink.old }
    ensures read_fault { result ≡ ReadFault → Rose (S.faults shelf.old) (S.faults shelf.new) }
    ensures write_fault { result ≡ WriteFault → Rose (K.faults sink.old) (K.faults sink.new) }
{
    match text_of(alloc, run, command, shelf) {
        Ok(text) => match write_all(sink, text.inner()) {
            Ok(()) => Status::Done,
            Err(_) => Status::WriteFault,
        },
        Err(stop) => stop_status(stop),
    }
}

/// Does what a command asks for. The function runs a chain to its end and gives the text that is written of it, or
/// wants memory.
///
/// # Answers
///
/// `Usage` where there is no command, and else as of `serial`.
pub fn serve<F: Fn(Work) -> Result<Blob, AllocError>, S: Shelf, K: Sink>(
    alloc: Global,
    run: &F,
    command: Option<Words<'_>>,
    shelf: &mut S,
    sink: &mut K,
) -> Status
    requires can_run { IfSome command CanRun }
    requires can { Runs (F.pre run.now) }
    requires right { IsRight (F.post run.now) }
    // The answer is right for the command and the files, only files of the command were asked for, in their order, and
    // the sink took what belongs to it.
    ensures serves { Serves result (plan (option_map command_in command.entry)) (S.held shelf.old)
        (S.asked shelf.old) (S.asked shelf.new) (K.taken sink.old) (K.taken sink.new) }
    // Before the writing the sink stays as it is, whatever it tells.
    ensures untouched { result ≢ Done → result ≢ WriteFault → sink.new ≡ sink.old }
    // A fault comes only where a count rose.
    ensures read_fault { result ≡ ReadFault → Rose (S.faults shelf.old) (S.faults shelf.new) }
    ensures write_fault { result ≡ WriteFault → Rose (K.faults sink.old) (K.faults sink.new) }
{
    match command {
        Some(command) => serve_command(alloc, run, &command, shelf, sink),
        None => Status::Usage,
    }
}

/// Does what the words ask for: `run CONFIG GENESIS BLOCKS` replays the blocks of a file over the
/// genesis of another one, and writes the report. `check CONFIG GENESIS BLOCKS SCHEDULE` drives the
/// shards by the lines of a schedule, and writes what each line does and the totals where they lead. Where the blocks
/// file names a height from which there are other boundaries, the run goes on under these from there.
/// CONFIG is `free`, the built-in configuration, or the name of a file. `gen NUMBER SHARDS BLOCKS` runs the
/// chain that these numbers generate, under the built-in configuration for such chains, and writes the
/// numbers, how many chunks were sealed, the SHA-256 digest of the report, and the totals.
///
/// `roots CONFIG GENESIS BLOCKS` runs a chain and writes for each chunk the roots of its outcomes and of its
/// receipts. `prove CONFIG GENESIS BLOCKS HEIGHT SHARD KIND PLACE` runs it and writes the proof that a chunk has
/// an item at a place, where KIND is `outcome` or `receipt`. `verify ROOT PROOF` writes `valid` where the proof of
/// a file is accepted against a root, and else `invalid`.
///
/// `part CONFIG GENESIS BLOCKS HEIGHT SHARD COUNT NUMBER` runs a chain until a chunk is sealed, and writes the file
/// of one of so many parts of the state that its shard then has. `checkpart ROOT FILE` writes the number and the
/// count of the part of a file and how many entries it has, if it is accepted against a root.
/// `joinparts ROOT COUNT PREFIX` writes the root and how many entries all parts have, if the parts of so many files,
/// named by the prefix and the numbers from 0 on, are accepted and together have the root.
///
/// `gather CONFIG GENESIS BLOCKS HEIGHT SHARD` runs a chain up to a chunk, and writes the file of the chunk: all that
/// it takes, and the texts of its state's trie from which it can be run again. `recheck CONFIG FILE` runs the chunk of
/// such a file again, from its texts alone, and writes its lines as `run` does.
///
/// # Answers
///
/// - `Done`: the text was written whole.
/// - `Usage`: the words are none of `run CONFIG GENESIS BLOCKS`, `check CONFIG GENESIS BLOCKS SCHEDULE`,
///   `gen NUMBER SHARDS BLOCKS`, `roots CONFIG GENESIS BLOCKS`,
///   `prove CONFIG GENESIS BLOCKS HEIGHT SHARD KIND PLACE`, `verify ROOT PROOF`,
///   `part CONFIG GENESIS BLOCKS HEIGHT SHARD COUNT NUMBER`, `checkpart ROOT FILE`, `joinparts ROOT COUNT PREFIX`,
///   `gather CONFIG GENESIS BLOCKS HEIGHT SHARD` and `recheck CONFIG FILE`. There no word is empty or begins with `-`,
///   and numbers are decimal without leading zeros: NUMBER of `gen`, HEIGHT and PLACE up to 2^64 - 1, SHARD up to
///   2^32 - 1, SHARDS from 1 to 16 and BLOCKS of `gen` from 1 to 256, COUNT from 1 to 10,000 and NUMBER of `part` below
///   it; the word of ROOT is 64 digits of base 16 in lower case. Nothing was loaded or written.
/// - `Config`: the configuration's file is longer than 1 MiB (kind 0), or its first fault, by the kind
///   and the entry that `nr_config::Config::read` gives. Nothing was written.
/// - `Genesis`: the genesis is longer than 64 MiB (kind 0), or its first fault, by the kind and the
///   numbers that `Status` says; `nr_blocks::read_genesis` gives it. Nothing was written.
/// - `Blocks`: the blocks are longer than 256 MiB (kind 0), or their first fault, by the kind and the
///   number that `Status` says; `nr_reshard::read_chain` gives it. Nothing was written.
/// - `Schedule`: the schedule is longer than 1 MiB (kind 0), or has a line of none of the forms or with
///   a shard that isn't there (kind 1), by the first such line. Nothing was written.
/// - `Proof`: the proof is longer than 256 MiB (kind 0), or has a line that isn't of the form or lacks one
///   (kind 1), by the first such line; `nr_outproof::read_proof` gives it. Nothing was written.
/// - `NoItem`: the chain has no such chunk (count 0), or the chunk has no item of the kind at the place; it has
///   as many as the count. Nothing was written.
/// - `Parts`: the file of a part is longer than 256 MiB (kind 0), or parts are refused, by the first fault and the
///   number that `Status` says; `nr_parts::read_part`, `check_part` and `join_parts` give it. Nothing was written.
/// - `Gathered`: the file of a gathered chunk is longer than 256 MiB (kind 0), or the chunk is refused, by the first
///   fault and the number that `Status` says; `nr_gathered::read_gathered` and `nr_recheck::recheck` give it. Nothing
///   was written.
/// - `ReadFault`: a file could not be read. Nothing was written.
/// - `WriteFault`: the sink failed. A front of the text was written.
/// - `NoMemory`: memory ran out. It counts as that where a total doesn't fit its number of 64 or 128
///   bits. Nothing was written.
///
/// Of several refusals the first in this order comes: `Usage`, `Config`, `Genesis`, `Blocks`, `Schedule`,
/// `Proof`, `NoItem`. Of `joinparts` each file is loaded and read before the next one, then the order of the parts is
/// looked at, then each part by itself, and last the whole. Of `recheck` the configuration comes before the file.
/// A file is loaded after all before it has passed; `gen` loads none. Where the shelf tells its files, the plan has one
/// end (`nr_shell::plan_law`), so the answer is that end's, unless a file is unread, memory runs out or the sink fails.
pub fn serial<S: Shelf, K: Sink>(
    alloc: Global,
    words: &[String],
    shelf: &mut S,
    sink: &mut K,
) -> Status
    // The answer is right for the words and files, only files of the command were asked for, in their order, and the
    // sink took what belongs to it.
    ensures serves { Serves result (plan (command (texts words.now))) (S.held shelf.old)
        (S.asked shelf.old) (S.asked shelf.new) (K.taken sink.old) (K.taken sink.new) }
    // Before the writing the sink stays as it is, whatever it tells.
    ensures untouched { result ≢ Done → result ≢ WriteFault → sink.new ≡ sink.old }
    // A fault comes only where a count rose.
    ensures read_fault { result ≡ ReadFault → Rose (S.faults shelf.old) (S.faults shelf.new) }
    ensures write_fault { result ≡ WriteFault → Rose (K.faults sink.old) (K.faults sink.new) }
{
    let run = |work: Work| -> Result<Blob, AllocError>
        requires { CanWork work }
        ensures { IfOk result (λ text. text ≡ work_text work) }
    { run_work(alloc, work) };
    match serial_command(alloc, words) {
        Ok(command) => serve(alloc, &run, command, shelf, sink),
        Err(_) => Status::NoMemory,
    }
}
