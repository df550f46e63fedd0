//! The top call.

ghost use Rattle.std.specs.Prelude.{◌≡◌, ◌≢◌, IfOk};
ghost use Rattle.nr_bytes.specs.Outside.{Rose};
ghost use Rattle.nr_top.specs.Answers.{Serves};
ghost use Rattle.nr_top.specs.Plans.{plan};
ghost use Rattle.nr_top.specs.Works.{CanWork, work_text};
ghost use Rattle.nr_top.specs.declared.status.Status.TheVariants.{Done, ReadFault, WriteFault};
ghost use Rattle.nr_words.specs.Command.{replay_command};
ghost use Rattle.nr_words.specs.Words.{texts};

use crate::written::text_of;
use nr_bytes::{Blob, Shelf, Sink};
use nr_top::{Status, Work, serve};
use nr_words::replay_command;
use nr_workers::Gate;
use std::alloc::{AllocError, Global};
use std::sync::Wait;
use std::thread::Threads;

/// Does what the words ask for, with a thread for each shard: `replay CONFIG GENESIS BLOCKS` replays the blocks of a
/// file over the genesis of another one, and writes the report. CONFIG is `free`, the built-in configuration, or the
/// name of a file. `gen NUMBER SHARDS BLOCKS` runs the chain that these numbers generate, under the built-in
/// configuration for such chains, and writes the numbers, how many chunks were sealed, the SHA-256 digest of the
/// report, and the totals.
///
/// What is written is what `nr_top::serial` writes for `run` and `gen`, whatever the threads do. Each shard passes the
/// gate at three moments of each of its chunks, with its height in its leg; where boundaries change, the threads of the
/// first leg have ended before those of the second begin. Shards for which no thread can be started are run in turns
/// by the caller. When the call comes back all threads have ended; nothing says that it does.
///
/// # Answers
///
/// As of `nr_top::serial` for these words; all others are `Usage`. More than 100,000 blocks count as want of memory.
pub fn replay<R: Threads + Wait + Sync, S: Shelf, K: Sink, G: Gate + Sync>(
    rt: &R,
    alloc: Global,
    words: &[String],
    shelf: &mut S,
    sink: &mut K,
    gate: &G,
) -> Status
    // The answer is right for the words and files, only files of the command were asked for, in their order, and the
    // sink took what belongs to it.
    ensures serves { Serves result (plan (replay_command (texts words.now))) (S.held shelf.old)
        (S.asked shelf.old) (S.asked shelf.new) (K.taken sink.old) (K.taken sink.new) }
    // Before the writing the sink stays as it is, whatever it tells.
    ensures untouched { result ≢ Done → result ≢ WriteFault → sink.new ≡ sink.old }
    // A fault comes only where a count rose.
    ensures read_fault { result ≡ ReadFault → Rose (S.faults shelf.old) (S.faults shelf.new) }
    ensures write_fault { result ≡ WriteFault → Rose (K.faults sink.old) (K.faults sink.new) }
{
    let run = |work: Work| -> Result<Blob, AllocError>
        requires { CanWork work }
        ensures { IfOk result (λ text. text ≡ work_text work) }
    { text_of(rt, alloc, gate, work) };
    match replay_command(alloc, words) {
        Ok(command) => serve(alloc, &run, command, shelf, sink),
        Err(_) => Status::NoMemory,
    }
}
