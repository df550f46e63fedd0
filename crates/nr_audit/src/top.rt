//! The top call.

ghost use Rattle.std.specs.Prelude.{◌≡◌, ◌≢◌, Some};
ghost use Rattle.nr_bytes.specs.Outside.{Rose};
ghost use Rattle.nr_shell.specs.Answers.{Follows, Makes};
ghost use Rattle.nr_words.specs.Words.{texts};
ghost use Rattle.nr_audit.specs.Answers.{Serves, refuses, stop_status};
ghost use Rattle.nr_audit.specs.Command.{command, command_in};
ghost use Rattle.nr_audit.specs.Plans.{command_plan, plan};
ghost use Rattle.nr_audit.specs.declared.status.Status.TheVariants.{Done, ReadFault, WriteFault};

use crate::command::{Words, command_of};
use crate::gathering::gather_text;
use crate::status::Status;
use nr_bytes::{Blob, Shelf, Sink};
use nr_shell::{Stop, write_all};
use std::alloc::Global;

/// The answer of a command that stopped.
fn stop_status(stop: Stop<Status>) -> Status
    ensures { result ≡ stop_status stop }
{
    match stop {
        Stop::Unread => Status::ReadFault,
        Stop::Memory => Status::NoMemory,
        Stop::Refused(status) => status,
    }
}

/// The text of `help` or `version`.
fn copied(alloc: Global, text: &str) -> Result<Blob, Stop<Status>>
    ensures { Makes result text.now }
{
    match Vec::from_slice(alloc, text.as_bytes()) {
        Ok(bytes) => Ok(Blob::of(bytes)),
        Err(_) => Err(Stop::Memory),
    }
}

/// What a command writes.
fn text_of<S: Shelf>(
    alloc: Global,
    command: &Words<'_>,
    shelf: &mut S,
) -> Result<Blob, Stop<Status>>
    ensures { Follows refuses (λ text. text) (S.held shelf.old) (S.held shelf.new)
        (S.asked shelf.old) (S.asked shelf.new) (S.faults shelf.old) (S.faults shelf.new)
        result (command_plan (command_in command.now)) }
{
    match command {
        Words::Gather(names) => gather_text(alloc, names, shelf),
        Words::Text(text) => copied(alloc, text),
    }
}

/// Does what a command asks for.
fn serve_command<S: Shelf, K: Sink>(
    alloc: Global,
    command: &Words<'_>,
    shelf: &mut S,
    sink: &mut K,
) -> Status
    ensures serves { Serves result (plan (Some (command_in command.now))) (S.held shelf.old)
        (S.asked shelf.old) (S.asked shelf.new) (K.taken sink.old) (K.taken sink.new) }
    ensures untouched { result ≢ Done → result ≢ WriteFault → sink.new ≡ sink.old }
    ensures read_fault { result ≡ ReadFault → Rose (S.faults shelf.old) (S.faults shelf.new) }
    ensures write_fault { result ≡ WriteFault → Rose (K.faults sink.old) (K.faults sink.new) }
{
    match text_of(alloc, command, shelf) {
        Ok(text) => match write_all(sink, text.inner()) {
            Ok(()) => Status::Done,
            Err(_) => Status::WriteFault,
        },
        Err(stop) => stop_status(stop),
    }
}

/// Does what the words ask for: `gather CONFIG GENESIS BLOCKS` runs the chain of three files once, and writes an
/// archive that tar reads. For each chunk that there is it has a file `HEIGHT-SHARD.chunk`, the one that `near_serial
/// gather` writes, and behind it a file `HEIGHT-SHARD.lines`, the lines that `near_serial run` has of the chunk: by
/// height and then shard. CONFIG is `free`, the built-in configuration, or the name of a file. `help` writes the words
/// of the commands, and `version` the program's name and version.
///
/// # Answers
///
/// - `Done`: the archive or the text was written whole.
/// - `Usage`: the words are none of these commands, or one is empty or begins with `-`. Nothing was loaded or written.
/// - `Config`, `Genesis`, `Blocks`: the file is too long (kind 0), or its first fault, by the kind and the numbers that
///   `Status` says. Nothing was written.
/// - `ReadFault`: a file could not be read. Nothing was written.
/// - `WriteFault`: the sink failed. A front of the archive or the text was written.
/// - `NoMemory`: memory ran out. It counts as that where a file of the archive would have 8 GiB or more, and what
///   counts as that in `archive_of`. Nothing was written.
///
/// Of several refusals the first in this order comes, and a file is loaded after all before it has passed. Where the
/// shelf tells its files, the plan has one end (`nr_shell::plan_law`), so the answer is that end's, unless a file is
/// unread, memory runs out or the sink fails.
pub fn audit<S: Shelf, K: Sink>(
    alloc: Global,
    words: &[String],
    shelf: &mut S,
    sink: &mut K,
) -> Status
    // The answer is right for the words and files, only files of the command were asked for, in their order, and the
    // sink took what belongs to it.
    ensures serves { Serves result (plan (command (texts words.now))) (S.held shelf.old)
        (S.asked shelf.old) (S.asked shelf.new) (K.taken sink.old) (K.taken sink.new) }
    // Before the writing the sink stays as it is, whatever it tells.
    ensures untouched { result ≢ Done → result ≢ WriteFault → sink.new ≡ sink.old }
    // A fault comes only where a count rose.
    ensures read_fault { result ≡ ReadFault → Rose (S.faults shelf.old) (S.faults shelf.new) }
    ensures write_fault { result ≡ WriteFault → Rose (K.faults sink.old) (K.faults sink.new) }
{
    match command_of(alloc, words) {
        Ok(Some(command)) => serve_command(alloc, &command, shelf, sink),
        Ok(None) => Status::Usage,
        Err(_) => Status::NoMemory,
    }
}
