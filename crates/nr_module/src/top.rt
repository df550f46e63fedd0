//! The top call.

ghost use Rattle.std.specs.Prelude.{◌≡◌, ◌≢◌, Some};
ghost use Rattle.nr_bytes.specs.Outside.{Rose};
ghost use Rattle.nr_words.specs.Words.{texts};
ghost use Rattle.nr_module.specs.Answers.{Serves, stop_status};
ghost use Rattle.nr_module.specs.Command.{call_in, command, command_in, names_in};
ghost use Rattle.nr_module.specs.Plans.{call_plan, module_plan, plan, shown_plan};
ghost use Rattle.nr_module.specs.declared.status.Status.TheVariants.{Faulty, ReadFault, Sound, Unfit, WriteFault};

use crate::command::{CallNames, FileNames, View, Words, command_of};
use crate::question::{loaded_of, question_of, shown_of};
use crate::status::Status;
use crate::telling::{call_line, long_line, shown_line, tell, text_line, verdict_line};
use nr_bytes::{Shelf, Sink};
use nr_shell::Stop;
use std::alloc::Global;

/// The answer of a command that stopped.
fn stop_status(stop: Stop<Status>) -> Status
    ensures { result ≡ stop_status stop }
{
    match stop {
        Stop::Unread => Status::ReadFault,
        Stop::Memory => Status::NoMemory,
        Stop::Refused(status) => status,
    }
}

/// Does what a command asks for with a module.
fn serve_names<S: Shelf, K: Sink>(
    alloc: Global,
    names: &FileNames<'_>,
    shelf: &mut S,
    sink: &mut K,
) -> Status
    ensures serves { Serves result (module_plan (names_in names.now)) (S.held shelf.old)
        (S.asked shelf.old) (S.asked shelf.new) (K.taken sink.old) (K.taken sink.new) }
    ensures untouched { result ≢ Sound → result ≢ Unfit → result ≢ Faulty → result ≢ WriteFault → sink.new ≡ sink.old }
    ensures read_fault { result ≡ ReadFault → Rose (S.faults shelf.old) (S.faults shelf.new) }
    ensures write_fault { result ≡ WriteFault → Rose (K.faults sink.old) (K.faults sink.new) }
{
    match question_of(alloc, names, shelf) {
        Ok(question) => tell(verdict_line(alloc, &question), sink),
        Err(Stop::Refused(Status::Faulty)) => tell(long_line(alloc), sink),
        Err(stop) => stop_status(stop),
    }
}

/// Calls a contract.
fn serve_call<S: Shelf, K: Sink>(
    alloc: Global,
    names: &CallNames<'_>,
    shelf: &mut S,
    sink: &mut K,
) -> Status
    ensures serves { Serves result (call_plan (call_in names.now)) (S.held shelf.old)
        (S.asked shelf.old) (S.asked shelf.new) (K.taken sink.old) (K.taken sink.new) }
    ensures untouched { result ≢ Sound → result ≢ Unfit → result ≢ Faulty → result ≢ WriteFault → sink.new ≡ sink.old }
    ensures read_fault { result ≡ ReadFault → Rose (S.faults shelf.old) (S.faults shelf.new) }
    ensures write_fault { result ≡ WriteFault → Rose (K.faults sink.old) (K.faults sink.new) }
{
    match loaded_of(alloc, names, shelf) {
        Ok(loaded) => tell(call_line(alloc, &loaded, names), sink),
        Err(Stop::Refused(Status::Faulty)) => tell(long_line(alloc), sink),
        Err(stop) => stop_status(stop),
    }
}

/// Shows the module of a file.
fn serve_shown<S: Shelf, K: Sink>(
    alloc: Global,
    view: View,
    file: &str,
    shelf: &mut S,
    sink: &mut K,
) -> Status
    ensures serves { Serves result (shown_plan view file.now) (S.held shelf.old)
        (S.asked shelf.old) (S.asked shelf.new) (K.taken sink.old) (K.taken sink.new) }
    ensures untouched { result ≢ Sound → result ≢ Unfit → result ≢ Faulty → result ≢ WriteFault → sink.new ≡ sink.old }
    ensures read_fault { result ≡ ReadFault → Rose (S.faults shelf.old) (S.faults shelf.new) }
    ensures write_fault { result ≡ WriteFault → Rose (K.faults sink.old) (K.faults sink.new) }
{
    match shown_of(alloc, view, file, shelf) {
        Ok(shown) => tell(shown_line(alloc, &shown), sink),
        Err(Stop::Refused(Status::Faulty)) => tell(long_line(alloc), sink),
        Err(stop) => stop_status(stop),
    }
}

/// Does what a command asks for.
fn serve_command<S: Shelf, K: Sink>(
    alloc: Global,
    command: &Words<'_>,
    shelf: &mut S,
    sink: &mut K,
) -> Status
    ensures serves { Serves result (plan (Some (command_in command.now))) (S.held shelf.old)
        (S.asked shelf.old) (S.asked shelf.new) (K.taken sink.old) (K.taken sink.new) }
    ensures untouched { result ≢ Sound → result ≢ Unfit → result ≢ Faulty → result ≢ WriteFault → sink.new ≡ sink.old }
    ensures read_fault { result ≡ ReadFault → Rose (S.faults shelf.old) (S.faults shelf.new) }
    ensures write_fault { result ≡ WriteFault → Rose (K.faults sink.old) (K.faults sink.new) }
{
    match command {
        Words::Module(names) => serve_names(alloc, names, shelf, sink),
        Words::Call(names) => serve_call(alloc, names, shelf, sink),
        Words::Shown(view, file) => serve_shown(alloc, *view, file, shelf, sink),
        Words::Text(text) => tell(text_line(alloc, text), sink),
    }
}

/// Does what the words ask for: `check CONFIG FILE` decodes and validates the module of a file, and
/// writes a line that says what it is; `run CONFIG FILE METHOD GAS` runs a method of it besides, and
/// writes how the run ended; `trap CONFIG FILE METHOD GAS` does the same, and tells where a trap came;
/// `call CONFIG FILE METHOD ARGS GAS`, or the same with DEPOSIT behind it, calls a method of a contract in a state of
/// its account alone, and tells how the call ended; `list FILE` decodes the module of a file and tells what it imports
/// and exports; `text FILE` decodes it and writes it in WebAssembly's text format. CONFIG is `free`, the built-in
/// configuration, or the name of a file. GAS is a decimal number below 2^64 without leading zeros, and DEPOSIT one
/// below 2^128. ARGS is a text, or behind `hex:` two digits for each byte. `help` writes the words of the commands, and
/// `version` the program's name and version.
///
/// The line is `ok`; `decode KIND AT` with the kind of the first fault (1 `Short`, 2 `Leb`,
/// 3 `Section`, 4 `Opcode`, 5 `Float`, 6 `Utf8`, 7 `TooMany`) and its place; `valid KIND FUNC PLACE`
/// with the kind of the first breach (11 `Types`, 12 `Index`, 13 `Label`, 14 `Limit`, 15 `Import`)
/// and where it is; or `long` for a file longer than 64 MiB. For the run of a method it is
/// `end BURNT` with the gas that was burnt; `trap KIND BURNT` with the number of
/// `nr_wasmexec::RunStop::Trap`; `fault 20 BURNT`, for a call of a function of the host, which has
/// none; `gas BURNT` where no gas was left; `method` where no method has the name: a function of the
/// module's own that is exported by it and takes and leaves nothing; or `make 21` where there is such a
/// method, but an element or a segment doesn't fit.
///
/// `trap` writes the line of `run`, and behind `trap KIND BURNT` the line `at FUNC BYTE`: the number of the function,
/// imported ones first, and the place in the file of the opcode of the instruction that trapped. Of more frames or
/// values than there may be it is the instruction that made them so many, and the method's first where the method's own
/// frame does; there is no such line where it has none.
///
/// `call` writes the lines of `nr_onecall::try_call`, or `long`.
///
/// `list` writes a line for each import, with why the host doesn't have it or `ok`, for each export, table and
/// memory, and for the size of the file; `text` writes the module (`nr_wat::write_text`); or they write the line
/// `decode KIND AT` or `long`. They judge by the built-in configuration, which only says how long a file may be.
///
/// # Answers
///
/// - `Sound`: the line `ok` or `end BURNT` was written, the lines of a call that came to its end or of a module, or
///   what `help` or `version` writes. `Unfit`: the line `ok` was written, and no machine can be made of the module,
///   since an element or a segment doesn't fit. `Faulty`: another line was written.
/// - `Usage`: the words are none of these commands, or one is empty or begins with `-`. Nothing was
///   loaded or written.
/// - `Config`: the configuration's file is longer than 1 MiB (kind 0), or its first fault, by the kind
///   and the entry that `nr_config::Config::read` gives. Nothing was written.
/// - `ReadFault`: a file could not be read. Nothing was written.
/// - `WriteFault`: the sink failed. A front of the line was written.
/// - `NoMemory`: memory ran out. Nothing was written.
///
/// A file is loaded after all before it has passed. Where the shelf tells its files, the plan has one end
/// (`nr_shell::plan_law`), so the answer is that end's, unless a file is unread, memory runs out or the sink fails.
pub fn check_module<S: Shelf, K: Sink>(
    alloc: Global,
    words: &[String],
    shelf: &mut S,
    sink: &mut K,
) -> Status
    // The answer is right for the words and files, only files of the command were asked for, in their order, and the
    // sink took what belongs to it.
    ensures serves { Serves result (plan (command (texts words.now))) (S.held shelf.old)
        (S.asked shelf.old) (S.asked shelf.new) (K.taken sink.old) (K.taken sink.new) }
    // Before the writing the sink stays as it is, whatever it tells.
    ensures untouched { result ≢ Sound → result ≢ Unfit → result ≢ Faulty → result ≢ WriteFault → sink.new ≡ sink.old }
    // A fault comes only where a count rose.
    ensures read_fault { result ≡ ReadFault → Rose (S.faults shelf.old) (S.faults shelf.new) }
    ensures write_fault { result ≡ WriteFault → Rose (K.faults sink.old) (K.faults sink.new) }
{
    match command_of(alloc, words) {
        Ok(Some(command)) => serve_command(alloc, &command, shelf, sink),
        Ok(None) => Status::Usage,
        Err(_) => Status::NoMemory,
    }
}
