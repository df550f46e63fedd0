//! The line that tells how a command ended.

ghost use Rattle.std.specs.Prelude.{◌≡◌, ◌≢◌, IfOk, string_bytes};
ghost use Rattle.nr_bytes.specs.Outside.{Rose};
ghost use Rattle.nr_shell.specs.Plans.{Refuse};
ghost use Rattle.nr_onecall.specs.Setting.{called_of, call_request_in};
ghost use Rattle.nr_module.specs.Answers.{TellsEnd, TellsCall, TellsShown, TellsText, TellsVerdict, Told, rated_end};
ghost use Rattle.nr_module.specs.Answers.{view_text};
ghost use Rattle.nr_module.specs.Command.{named_request};
ghost use Rattle.nr_module.specs.Lines.{rated, rated_answer};
ghost use Rattle.nr_module.specs.Plans.{question_in};
ghost use Rattle.nr_module.specs.declared.status.Status.TheVariants.{Faulty, ReadFault, Sound, Unfit, WriteFault};

use crate::command::{CallNames, View};
use crate::judging::judge;
use crate::listing::module_text;
use crate::printed::{decode_text, verdict_text};
use crate::question::{Loaded, Question, Shown};
use crate::status::Status;
use crate::verdict::{Answer, Rating, Verdict};
use nr_bytes::Sink;
use nr_config::Config;
use nr_onecall::{CallRequest, try_call};
use nr_shell::write_all;
use nr_wasmbin::{DecodeFault, decode};
use nr_wasmtypes::Module;
use nr_wat::write_text;
use std::alloc::{AllocError, Global};

/// The line of an end, with its line feed, and how well it is what it tells.
#[derive(Debug, Drop)]
pub(crate) struct Line {
    pub(crate) text: String,
    pub(crate) rating: Rating,
}

fn rated_answer(answer: &Answer) -> Rating
    ensures { result ≡ rated_answer answer.now }
{
    match answer {
        Answer::Good | Answer::Ended { .. } => Rating::Sound,
        Answer::Unfit => Rating::Unfit,
        _ => Rating::Faulty,
    }
}

fn rated(verdict: &Verdict) -> Rating
    ensures { result ≡ rated verdict.now }
{
    match verdict {
        Verdict::Done(answer) => rated_answer(answer),
        _ => Rating::Faulty,
    }
}

/// The line of the verdict on what the files give.
///
/// # Errors
///
/// Where memory runs out.
pub(crate) fn verdict_line(alloc: Global, question: &Question<'_>) -> Result<Line, AllocError>
    ensures { IfOk result (λ line. TellsVerdict (question_in question.now) (string_bytes line.text) line.rating) }
{
    let verdict = judge(alloc, question)?;
    let text = verdict_text(alloc, verdict)?;
    Ok(Line {
        text,
        rating: rated(&verdict),
    })
}

/// What is called, by its names.
fn request_of<'a>(names: &'a CallNames<'_>) -> CallRequest<'a>
    ensures { call_request_in result ≡ named_request names.now }
{
    CallRequest {
        method: names.method,
        args: names.args.inner(),
        gas: names.gas,
        deposit: names.deposit,
    }
}

fn rated_end(ended: bool) -> Rating
    ensures { result ≡ rated_end ended }
{
    if ended { Rating::Sound } else { Rating::Faulty }
}

/// The lines of the call of a contract that is loaded.
///
/// # Errors
///
/// Where memory runs out.
pub(crate) fn call_line(
    alloc: Global,
    loaded: &Loaded,
    names: &CallNames<'_>,
) -> Result<Line, AllocError>
    ensures { IfOk result (λ line.
        TellsCall (called_of loaded.now.config loaded.now.code.items (named_request names.now))
        (string_bytes line.text) line.rating) }
{
    let request = request_of(names);
    let trial = try_call(alloc, &loaded.config, loaded.code.as_slice(), &request)?;
    Ok(Line {
        text: trial.text,
        rating: rated_end(trial.ended),
    })
}

/// What shows a module, whose file has so many bytes.
fn view_text(alloc: Global, view: View, size: usize, module: &Module) -> Result<String, AllocError>
    ensures { IfOk result (λ text. string_bytes text ≡ view_text view size module.now) }
{
    match view {
        View::Brief => module_text(alloc, size, module),
        View::Whole => write_text(alloc, module),
    }
}

/// The lines that show the module of these bytes, or the line of the first fault that they have.
fn bytes_line(alloc: Global, view: View, bytes: &[u8]) -> Result<Line, AllocError>
    ensures { IfOk result (λ line. TellsShown view bytes.now (string_bytes line.text) line.rating) }
{
    match decode(alloc, bytes, &Config::free()) {
        Ok(module) => {
            let text = view_text(alloc, view, bytes.len(), &module)?;
            Ok(Line {
                text,
                rating: Rating::Sound,
            })
        }
        Err(DecodeFault::Memory) => Err(AllocError),
        Err(fault) => {
            let text = decode_text(alloc, fault)?;
            Ok(Line {
                text,
                rating: Rating::Faulty,
            })
        }
    }
}

/// The lines that show the module of a file, or the line of the first fault that it has.
///
/// # Errors
///
/// Where memory runs out.
pub(crate) fn shown_line(alloc: Global, shown: &Shown) -> Result<Line, AllocError>
    ensures { IfOk result (λ line.
        TellsShown shown.now.view shown.now.bytes.items (string_bytes line.text) line.rating) }
{
    bytes_line(alloc, shown.view, shown.bytes.as_slice())
}

/// The line of a module's file that is too long.
///
/// # Errors
///
/// Where memory runs out.
pub(crate) fn long_line(alloc: Global) -> Result<Line, AllocError>
    ensures { IfOk result (λ line. TellsEnd (Refuse Faulty) (string_bytes line.text) line.rating) }
{
    let text = String::from_str(alloc, "long\n")?;
    Ok(Line {
        text,
        rating: Rating::Faulty,
    })
}

/// A text that is written as it is.
///
/// # Errors
///
/// Where memory runs out.
pub(crate) fn text_line(alloc: Global, text: &str) -> Result<Line, AllocError>
    ensures { IfOk result (λ line. TellsText text.now (string_bytes line.text) line.rating) }
{
    let text = String::from_str(alloc, text)?;
    Ok(Line {
        text,
        rating: Rating::Sound,
    })
}

/// Writes a line, where memory sufficed for it, and answers how the command ended.
pub(crate) fn tell<K: Sink>(line: Result<Line, AllocError>, sink: &mut K) -> Status
    ensures told { Told line result (K.taken sink.old) (K.taken sink.new) }
    ensures untouched { result ≢ Sound → result ≢ Unfit → result ≢ Faulty → result ≢ WriteFault → sink.new ≡ sink.old }
    ensures no_read_fault { result ≢ ReadFault }
    ensures write_fault { result ≡ WriteFault → Rose (K.faults sink.old) (K.faults sink.new) }
{
    let Ok(line) = line else {
        return Status::NoMemory;
    };
    match write_all(sink, line.text.as_bytes()) {
        Ok(()) => match line.rating {
            Rating::Sound => Status::Sound,
            Rating::Unfit => Status::Unfit,
            Rating::Faulty => Status::Faulty,
        },
        Err(_) => Status::WriteFault,
    }
}
