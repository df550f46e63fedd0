//! The line of a verdict.

ghost use Rattle.std.specs.Prelude.{◌≡◌, ◌++◌, IfOk, OnOk, string_bytes};
ghost use Rattle.nr_module.specs.Lines.{answer_text, burnt_line, decode_line, decode_text, place_line, stop_line};
ghost use Rattle.nr_module.specs.Lines.{trap_lines, valid_line, valid_text, verdict_text};

use crate::verdict::{Answer, Verdict};
use nr_wasmbin::{DecodeFault, decode_kind, decode_place};
use nr_wasmvalid::{ValidFault, valid_func, valid_kind, valid_place};
use std::alloc::{AllocError, Global};
use std::fmt::Write;

fn decode_line(alloc: Global, kind: u32, at: usize) -> Result<String, AllocError>
    ensures { IfOk result (λ text. string_bytes text ≡ decode_line kind at) }
{
    let mut text = String::new(alloc);
    writeln!(text, "decode {kind} {at}")?;
    Ok(text)
}

pub(crate) fn decode_text(alloc: Global, fault: DecodeFault) -> Result<String, AllocError>
    ensures { IfOk result (λ text. string_bytes text ≡ decode_text fault) }
{
    decode_line(alloc, decode_kind(fault), decode_place(fault))
}

fn valid_line(alloc: Global, kind: u32, func: u32, place: u32) -> Result<String, AllocError>
    ensures { IfOk result (λ text. string_bytes text ≡ valid_line kind func place) }
{
    let mut text = String::new(alloc);
    writeln!(text, "valid {kind} {func} {place}")?;
    Ok(text)
}

fn valid_text(alloc: Global, fault: ValidFault) -> Result<String, AllocError>
    ensures { IfOk result (λ text. string_bytes text ≡ valid_text fault) }
{
    let func = valid_func(fault);
    let place = valid_place(fault);
    valid_line(alloc, valid_kind(fault), func, place)
}

fn burnt_line(alloc: Global, word: &str, burnt: u128) -> Result<String, AllocError>
    ensures { IfOk result (λ text. string_bytes text ≡ burnt_line word.now burnt) }
{
    let mut text = String::new(alloc);
    writeln!(text, "{word} {burnt}")?;
    Ok(text)
}

fn stop_line(alloc: Global, word: &str, kind: u32, burnt: u128) -> Result<String, AllocError>
    ensures { IfOk result (λ text. string_bytes text ≡ stop_line word.now kind burnt) }
{
    let mut text = String::new(alloc);
    writeln!(text, "{word} {kind} {burnt}")?;
    Ok(text)
}

fn print_place(func: u32, at: usize, text: &mut String) -> Result<(), AllocError>
    ensures { OnOk result (string_bytes text.new ≡ string_bytes text.old ++ place_line func at) }
{
    writeln!(text, "at {func} {at}")
}

fn trap_lines(
    alloc: Global,
    kind: u32,
    burnt: u128,
    func: u32,
    at: usize,
) -> Result<String, AllocError>
    ensures { IfOk result (λ text. string_bytes text ≡ trap_lines kind burnt func at) }
{
    let mut text = stop_line(alloc, "trap", kind, burnt)?;
    print_place(func, at, &mut text)?;
    Ok(text)
}

fn answer_text(alloc: Global, answer: Answer) -> Result<String, AllocError>
    ensures { IfOk result (λ text. string_bytes text ≡ answer_text answer) }
{
    match answer {
        Answer::Good | Answer::Unfit => String::from_str(alloc, "ok\n"),
        Answer::Ended { burnt } => burnt_line(alloc, "end", burnt),
        Answer::Trapped { kind, burnt } => stop_line(alloc, "trap", kind, burnt),
        Answer::TrappedAt {
            kind,
            burnt,
            func,
            at,
        } => trap_lines(alloc, kind, burnt, func, at),
        Answer::Failed { kind, burnt } => stop_line(alloc, "fault", kind, burnt),
        Answer::OutOfGas { burnt } => burnt_line(alloc, "gas", burnt),
        Answer::Unmade => String::from_str(alloc, "make 21\n"),
        Answer::NoMethod => String::from_str(alloc, "method\n"),
    }
}

/// The line of a verdict: `ok`, `decode KIND AT`, `valid KIND FUNC PLACE`, or that of a run, behind which that of a
/// trap's place may stand.
pub(crate) fn verdict_text(alloc: Global, verdict: Verdict) -> Result<String, AllocError>
    ensures { IfOk result (λ text. string_bytes text ≡ verdict_text verdict) }
{
    match verdict {
        Verdict::Done(answer) => answer_text(alloc, answer),
        Verdict::Undecoded(fault) => decode_text(alloc, fault),
        Verdict::Invalid(fault) => valid_text(alloc, fault),
    }
}
