//! The programs by their names, and the forms of the lines of each.

ghost use Rattle.std.specs.Prelude.{◌≡◌, option_map};
ghost use Rattle.std.specs.Option.{option_or};
ghost use Rattle.nr_explain.specs.Words.{pieces};
ghost use Rattle.nr_explain.specs.Coded.{form_in};
ghost use Rattle.nr_explain.specs.Programs.{call_form, common_form, chain_form, file_form, report_form, module_form};
ghost use Rattle.nr_explain.specs.Programs.{serial_form, program_of, form_by};

use crate::call_sentences::{call_codes, call_ends, call_faults, call_traps};
use crate::form::{Field, form_of};
use crate::line_sentences::{
    bad_codes, failures, faults, invalid_modules, listings, module_traps, modules, refusals, steps,
    traps,
};
use crate::sentences::{
    chains, configurations, gathered_chunks, geneses, items, programs, proofs, schedules,
    state_parts,
};
use crate::written::{answers, reported};

/// Which program wrote a line.
#[derive(Clone, Copy, Debug)]
pub(crate) enum Program {
    /// That isn't said.
    Any,
    /// `near_serial`.
    Serial,
    /// `near_replay`.
    Replay,
    /// `near_audit`.
    Audit,
    /// `near_module`.
    Module,
    /// `near_files`.
    Files,
}

/// The program of a name.
#[tactic(auto, unfolding(crate::specs::Programs::program_of))]
pub(crate) fn program_of(name: &str) -> Program
    ensures { result ≡ program_of name.now }
{
    match name {
        "near_serial" => Program::Serial,
        "near_replay" => Program::Replay,
        "near_audit" => Program::Audit,
        "near_module" => Program::Module,
        "near_files" => Program::Files,
        _ => Program::Any,
    }
}

/// The one of two forms that is there, or the first.
fn either(
    first: Option<&'static [Field]>,
    second: Option<&'static [Field]>,
) -> Option<&'static [Field]>
    ensures { option_map (λ f. form_in f.now) result ≡ option_or (option_map (λ f. form_in f.now) first.entry)
        (option_map (λ f. form_in f.now) second.entry) }
{
    match first {
        Some(form) => Some(form),
        None => second,
    }
}

/// The form of a status of all programs.
fn common_form(line: &[u8]) -> Option<&'static [Field]>
    ensures { option_map (λ f. form_in f.now) result ≡ common_form (pieces 32 line.now) }
{
    let form = form_of(configurations(), line);
    either(form_of(programs(), line), form)
}

/// The form of a status of the programs that read a chain.
fn chain_form(line: &[u8]) -> Option<&'static [Field]>
    ensures { option_map (λ f. form_in f.now) result ≡ chain_form (pieces 32 line.now) }
{
    let form = form_of(chains(), line);
    let form = either(form_of(geneses(), line), form);
    either(common_form(line), form)
}

/// The form of a status of other files.
fn file_form(line: &[u8]) -> Option<&'static [Field]>
    ensures { option_map (λ f. form_in f.now) result ≡ file_form (pieces 32 line.now) }
{
    let form = form_of(state_parts(), line);
    let form = either(form_of(gathered_chunks(), line), form);
    let form = either(form_of(items(), line), form);
    let form = either(form_of(proofs(), line), form);
    either(form_of(schedules(), line), form)
}

/// The form of a line of a report.
fn report_form(line: &[u8]) -> Option<&'static [Field]>
    ensures { option_map (λ f. form_in f.now) result ≡ report_form (pieces 32 line.now) }
{
    let form = form_of(reported(), line);
    let form = either(form_of(faults(), line), form);
    let form = either(form_of(traps(), line), form);
    let form = either(form_of(bad_codes(), line), form);
    let form = either(form_of(failures(), line), form);
    either(form_of(refusals(), line), form)
}

/// The form of a line that tells of a call.
fn call_form(line: &[u8]) -> Option<&'static [Field]>
    ensures { option_map (λ f. form_in f.now) result ≡ call_form (pieces 32 line.now) }
{
    let form = form_of(call_faults(), line);
    let form = either(form_of(call_traps(), line), form);
    let form = either(form_of(call_codes(), line), form);
    either(form_of(call_ends(), line), form)
}

/// The form of a line that tells of a module.
fn module_form(line: &[u8]) -> Option<&'static [Field]>
    ensures { option_map (λ f. form_in f.now) result ≡ module_form (pieces 32 line.now) }
{
    let form = call_form(line);
    let form = either(form_of(listings(), line), form);
    let form = either(form_of(module_traps(), line), form);
    let form = either(form_of(invalid_modules(), line), form);
    either(form_of(modules(), line), form)
}

/// The form of a line of `near_serial`.
fn serial_form(line: &[u8]) -> Option<&'static [Field]>
    ensures { option_map (λ f. form_in f.now) result ≡ serial_form (pieces 32 line.now) }
{
    let form = report_form(line);
    let form = either(form_of(answers(), line), form);
    let form = either(form_of(steps(), line), form);
    let form = either(file_form(line), form);
    either(chain_form(line), form)
}

/// The form of a line of a program.
#[tactic(auto, unfolding(crate::specs::Programs::form_by))]
pub(crate) fn form_by(program: Program, line: &[u8]) -> Option<&'static [Field]>
    ensures { option_map (λ f. form_in f.now) result ≡ form_by program (pieces 32 line.now) }
{
    match program {
        Program::Any => either(serial_form(line), module_form(line)),
        Program::Serial => serial_form(line),
        Program::Replay => either(chain_form(line), report_form(line)),
        Program::Audit => chain_form(line),
        Program::Module => either(common_form(line), module_form(line)),
        Program::Files => common_form(line),
    }
}
