//! The top call.

ghost use Rattle.std.specs.Prelude.{◌≡◌, ◌≢◌, ℕ, List, Option, Err as Failed};
ghost use Rattle.nr_bytes.specs.Outside.{Rose};
ghost use Rattle.nr_shell.specs.Answers.{Comes, Follows};
ghost use Rattle.nr_shell.specs.Plans.{Answer, Plan};
ghost use Rattle.nr_words.specs.Words.{texts};
ghost use Rattle.nr_files.specs.Answers.{EndsIn, IsStatusOf, NamesLast, Serves, output_in, refuses, stopped};
ghost use Rattle.nr_files.specs.Command.{asked_in, meant, request_in};
ghost use Rattle.nr_files.specs.Due.{Output as Due};
ghost use Rattle.nr_files.specs.Plans.{by_config, plan, request_plan};
ghost use Rattle.nr_files.specs.declared.status.Status.{Status};
ghost use Rattle.nr_shell.specs.declared.stop.Stop.TheVariants.{Unread};
ghost use Rattle.nr_files.specs.declared.status.Status.TheVariants.{Done, ReadFault, WriteFault};

use crate::answer::judged;
use crate::command::{Asked, Request, asked_of};
use crate::halt::Halt;
use crate::output::{Output, bytes_of};
use crate::status::Status;
use nr_bytes::{Shelf, Sink, Text};
use nr_config::Config;
use nr_configfile::config_of;
use nr_shell::{Stop, load, write_all};
use std::alloc::Global;

/// The most bytes of a file, 256 MiB.
pub const FILE_LIMIT: usize = 268_435_456;

/// What was answered or stopped, with the file that was to be loaded last.
///
/// # Errors
///
/// Why it stopped, and this file.
pub fn at_file<'a>(file: &'a str, answer: Result<Output, Stop<Status>>) -> Result<Output, Halt<'a>>
    ensures same { stopped result ≡ answer }
    ensures names { (asks : List (List ℕ)) → (answer ≡ Failed Unread → EndsIn asks file.now) → NamesLast result asks }
{
    match answer {
        Ok(output) => Ok(output),
        Err(stop) => Err(Halt { stop, file }),
    }
}

/// What the file of a request gives under a configuration.
fn loaded<S: Shelf>(
    alloc: Global,
    request: &Request<'_>,
    config: &Config,
    shelf: &mut S,
) -> Result<Output, Stop<Status>>
    ensures { Follows refuses output_in (S.held shelf.old) (S.held shelf.new)
        (S.asked shelf.old) (S.asked shelf.new) (S.faults shelf.old) (S.faults shelf.new)
        result (by_config (request_in request.now) config.now) }
{
    match load(alloc, request.file, FILE_LIMIT, Status::TooLong, shelf) {
        Ok(bytes) => judged(alloc, request, config, &bytes),
        Err(stop) => Err(stop),
    }
}

/// What the file of a request gives under a configuration that is there.
///
/// # Errors
///
/// Why it stops, and at which file.
pub fn with_config<'a, S: Shelf>(
    alloc: Global,
    request: &Request<'a>,
    config: &Config,
    shelf: &mut S,
) -> Result<Output, Halt<'a>>
    ensures follows { Follows refuses output_in (S.held shelf.old) (S.held shelf.new)
        (S.asked shelf.old) (S.asked shelf.new) (S.faults shelf.old) (S.faults shelf.new)
        (stopped result) (by_config (request_in request.now) config.now) }
    ensures names { NamesLast result (S.asked shelf.new) }
{
    at_file(request.file, loaded(alloc, request, config, shelf))
}

/// What the files of a request give.
fn of_request<'a, S: Shelf>(
    alloc: Global,
    request: &Request<'a>,
    shelf: &mut S,
) -> Result<Output, Halt<'a>>
    ensures follows { Follows refuses output_in (S.held shelf.old) (S.held shelf.new)
        (S.asked shelf.old) (S.asked shelf.new) (S.faults shelf.old) (S.faults shelf.new)
        (stopped result) (request_plan (request_in request.now)) }
    ensures names { NamesLast result (S.asked shelf.new) }
{
    match config_of::<Status, S>(alloc, request.config, shelf) {
        Ok(config) => with_config(alloc, request, &config, shelf),
        Err(stop) => Err(Halt {
            stop,
            file: request.config,
        }),
    }
}

/// What is asked for.
fn of_asked<'a, S: Shelf>(
    alloc: Global,
    asked: Asked<'a>,
    shelf: &mut S,
) -> Result<Output, Halt<'a>>
    ensures follows { Follows refuses output_in (S.held shelf.old) (S.held shelf.new)
        (S.asked shelf.old) (S.asked shelf.new) (S.faults shelf.old) (S.faults shelf.new)
        (stopped result) (plan (asked_in asked.entry)) }
    ensures names { NamesLast result (S.asked shelf.new) }
{
    match asked {
        Asked::Nothing => Err(Halt {
            stop: Stop::Refused(Status::Usage),
            file: "",
        }),
        Asked::Unknown => Err(Halt {
            stop: Stop::Refused(Status::NoSentence),
            file: "",
        }),
        Asked::File(request) => of_request(alloc, &request, shelf),
        Asked::Written(text) => Ok(Output::Bytes(text)),
    }
}

/// What the words ask for.
fn output_of<'a, S: Shelf>(
    alloc: Global,
    words: &'a [String],
    shelf: &mut S,
) -> Result<Output, Halt<'a>>
    ensures follows { Follows refuses output_in (S.held shelf.old) (S.held shelf.new)
        (S.asked shelf.old) (S.asked shelf.new) (S.faults shelf.old) (S.faults shelf.new)
        (stopped result) (plan (meant (texts words.now))) }
    ensures names { NamesLast result (S.asked shelf.new) }
{
    match asked_of(alloc, words) {
        Ok(asked) => of_asked(alloc, asked, shelf),
        Err(_) => Err(Halt {
            stop: Stop::Memory,
            file: "",
        }),
    }
}

/// The answer of a command that stopped at a file.
pub fn stop_status(alloc: Global, stop: Stop<Status>, file: &str) -> Status
    ensures { IsStatusOf stop file.now result }
{
    match stop {
        Stop::Unread => match String::from_str(alloc, file) {
            Ok(name) => Status::ReadFault {
                name: Text::of(name),
            },
            Err(_) => Status::NoMemory,
        },
        Stop::Memory => Status::NoMemory,
        Stop::Refused(status) => status,
    }
}

/// Writes an output, where memory suffices for its text, and answers how the command ended that came to it.
pub fn tell<K: Sink>(alloc: Global, output: Output, sink: &mut K) -> Status
    ensures serves { (p : Plan Due Status) (held : List ℕ → Option (List ℕ)) (asked asks : List (List ℕ))
        → Comes held asked asks p (Answer (output_in output))
        → Serves result p held asked asks (K.taken sink.old) (K.taken sink.new) }
    ensures untouched { result ≢ Done → result ≢ WriteFault → sink.new ≡ sink.old }
    ensures no_read_fault { (name : List ℕ) → result ≢ ReadFault name }
    ensures write_fault { result ≡ WriteFault → Rose (K.faults sink.old) (K.faults sink.new) }
{
    let Ok(bytes) = bytes_of(alloc, output) else {
        return Status::NoMemory;
    };
    match write_all(sink, bytes.inner()) {
        Ok(()) => Status::Done,
        Err(_) => Status::WriteFault,
    }
}

/// Does what the words ask for: `blocks JSON` and `genesis CONFIG JSON` write the file that a JSON text
/// describes; `show blocks FILE` and `show genesis CONFIG FILE` write a JSON text of a file, which the
/// first two read back to the same bytes; `show report FILE` writes a JSON object for each line of a
/// report; `show part FILE`, `show proof FILE` and `show gathered FILE` write a JSON text of a part of a
/// state, of a proof or of a gathered chunk, which are read and not checked. CONFIG is `free`, the built-in
/// configuration, or the name of a file; the storage of a genesis is counted by it. An account of a JSON
/// text may leave out `storage_usage` and `code_hash`: they are then what is counted. `hex FILE` writes a
/// JSON text of the bytes of a file. `explain WORDS..` writes what the line of these words says, which a
/// program wrote. `help` writes the words of the commands, `help COMMAND` those of one and what it does, and `version`
/// the program's name and version. Behind `show --compact` a JSON text has no spaces between its parts. Each text that
/// isn't empty ends with a line feed. `replay` and `check`, whose words `help` writes too, are no commands of this
/// call: they are those of `nr_jsonrun`.
///
/// # Answers
///
/// - `Done`: it was written.
/// - `Usage`: the words are no command, or a file's word is empty or begins with `-`. Nothing was loaded or
///   written.
/// - `NoSentence`: there is no sentence for the words that are to be explained. Nothing was loaded or written.
/// - `Config`: the configuration's file is longer than 1 MiB (kind 0), or its first fault, by the kind
///   and the entry that `nr_config::Config::read` gives. Nothing was written.
/// - `TooLong`: the file is longer than 256 MiB. Nothing was written.
/// - `Faulty`: a JSON text is none, or a member of it is faulty, and the line has the path of the first
///   one, as `jq` writes it; the entries of a genesis don't hold together, as `nr_blocks::GenesisFault`
///   says; or a file to be shown can't be read, and the line says which file it is instead, where it ends too
///   early or goes on, or which field, or which line, is wrong and how. Nothing was written.
/// - `ReadFault`: the file of this name could not be read. Nothing was written.
/// - `WriteFault`: the sink failed. A front was written.
/// - `NoMemory`: memory ran out. Nothing was written.
///
/// A file is loaded after all before it has passed. Where the shelf tells its files, the plan has one end
/// (`nr_shell::plan_law`), so the answer is that end's, unless a file is unread, memory runs out or the sink fails.
pub fn serve_files<S: Shelf, K: Sink>(
    alloc: Global,
    words: &[String],
    shelf: &mut S,
    sink: &mut K,
) -> Status
    // The answer is right for the words and files, only files of the command were asked for, in their order, and the
    // sink took what belongs to it.
    ensures serves { Serves result (plan (meant (texts words.now))) (S.held shelf.old)
        (S.asked shelf.old) (S.asked shelf.new) (K.taken sink.old) (K.taken sink.new) }
    // Before the writing the sink stays as it is, whatever it tells.
    ensures untouched { result ≢ Done → result ≢ WriteFault → sink.new ≡ sink.old }
    // A fault comes only where a count rose.
    ensures read_fault { (name : List ℕ) → result ≡ ReadFault name → Rose (S.faults shelf.old) (S.faults shelf.new) }
    ensures write_fault { result ≡ WriteFault → Rose (K.faults sink.old) (K.faults sink.new) }
{
    match output_of(alloc, words, shelf) {
        Ok(output) => tell(alloc, output, sink),
        Err(Halt { stop, file }) => stop_status(alloc, stop, file),
    }
}
