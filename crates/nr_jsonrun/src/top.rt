//! The top call.

ghost use Rattle.std.specs.Prelude.{◌≡◌, ◌≢◌, ℕ, List, option_map};
ghost use Rattle.nr_bytes.specs.Outside.{Rose};
ghost use Rattle.nr_files.specs.Answers.{Serves};
ghost use Rattle.nr_files.specs.declared.status.Status.TheVariants.{Done, ReadFault, WriteFault};
ghost use Rattle.nr_jsonrun.specs.Plans.{plan, plan_by, jsonrun_plan};
ghost use Rattle.nr_words.specs.Words.{names_in, texts};

use crate::command::run_names;
use crate::running::output_of;
use nr_bytes::{Shelf, Sink};
use nr_files::{Halt, Status, serve_files, stop_status, tell};
use nr_words::FileNames;
use std::alloc::Global;

/// Does what the files of one of the two commands come to.
fn serve_jsonrun<S: Shelf, K: Sink>(
    alloc: Global,
    names: &FileNames<'_>,
    shelf: &mut S,
    sink: &mut K,
) -> Status
    ensures serves { Serves result (jsonrun_plan (names_in names.now)) (S.held shelf.old)
        (S.asked shelf.old) (S.asked shelf.new) (K.taken sink.old) (K.taken sink.new) }
    ensures untouched { result ≢ Done → result ≢ WriteFault → sink.new ≡ sink.old }
    ensures read_fault { (name : List ℕ) → result ≡ ReadFault name → Rose (S.faults shelf.old) (S.faults shelf.new) }
    ensures write_fault { result ≡ WriteFault → Rose (K.faults sink.old) (K.faults sink.new) }
{
    match output_of(alloc, names, shelf) {
        Ok(output) => tell(alloc, output, sink),
        Err(Halt { stop, file }) => stop_status(alloc, stop, file),
    }
}

/// The same where the words are one of them, and else what `nr_files` makes of the words.
fn serve_found<S: Shelf, K: Sink>(
    alloc: Global,
    words: &[String],
    found: Option<FileNames<'_>>,
    shelf: &mut S,
    sink: &mut K,
) -> Status
    ensures serves { Serves result (plan_by (texts words.now) (option_map names_in found.entry)) (S.held shelf.old)
        (S.asked shelf.old) (S.asked shelf.new) (K.taken sink.old) (K.taken sink.new) }
    ensures untouched { result ≢ Done → result ≢ WriteFault → sink.new ≡ sink.old }
    ensures read_fault { (name : List ℕ) → result ≡ ReadFault name → Rose (S.faults shelf.old) (S.faults shelf.new) }
    ensures write_fault { result ≡ WriteFault → Rose (K.faults sink.old) (K.faults sink.new) }
{
    match found {
        Some(names) => serve_jsonrun(alloc, &names, shelf, sink),
        None => serve_files(alloc, words, shelf, sink),
    }
}

/// Does what the words of `near_files` ask for. `replay CONFIG GENESIS.json BLOCKS.json` makes a genesis and blocks of
/// their JSON texts, runs them, and writes the report with a JSON object for each line;
/// `check CONFIG GENESIS.json BLOCKS.json SCHEDULE` drives them by the lines of a schedule, and writes so what becomes
/// of each. They do what `genesis CONFIG GENESIS.json` and `blocks BLOCKS.json`, then `run` or `check` of `near_serial`
/// and `show report` do one behind another, with their limits; no file stands between them. All other words are those
/// of `nr_files::serve_files`.
///
/// # Answers
///
/// - `Done`: it was written.
/// - `Usage`: the words are no command. Nothing was loaded or written.
/// - `Config`: the configuration is refused. Nothing was written.
/// - `Faulty`: a JSON text is refused, or what was made of it: the name of its file, and the words of `genesis` or
///   `blocks`; the run is refused: the sentence that `explain` has for the line of `near_serial`, or the line where it
///   has none; or `show report` refuses the report, as one longer than 256 MiB. Nothing was written.
/// - `TooLong`, `NoSentence`: as `nr_files::serve_files` answers other words. Nothing was written.
/// - `ReadFault`: the file of this name could not be read. Nothing was written.
/// - `WriteFault`: the sink failed. A front was written.
/// - `NoMemory`: memory ran out, or a total doesn't fit its number. Nothing was written.
///
/// The files are loaded in the order of the words, each after all before it has passed.
pub fn serve_words<S: Shelf, K: Sink>(
    alloc: Global,
    words: &[String],
    shelf: &mut S,
    sink: &mut K,
) -> Status
    // The answer is right for the words and files, only files of the command were asked for, in their order, and the
    // sink took what belongs to it.
    ensures serves { Serves result (plan (texts words.now)) (S.held shelf.old)
        (S.asked shelf.old) (S.asked shelf.new) (K.taken sink.old) (K.taken sink.new) }
    // Before the writing the sink stays as it is, whatever it tells.
    ensures untouched { result ≢ Done → result ≢ WriteFault → sink.new ≡ sink.old }
    // A fault comes only where a count rose.
    ensures read_fault { (name : List ℕ) → result ≡ ReadFault name → Rose (S.faults shelf.old) (S.faults shelf.new) }
    ensures write_fault { result ≡ WriteFault → Rose (K.faults sink.old) (K.faults sink.new) }
{
    match run_names(alloc, words) {
        Ok(found) => serve_found(alloc, words, found, shelf, sink),
        Err(_) => Status::NoMemory,
    }
}
