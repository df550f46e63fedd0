//! Sequences of instructions.

ghost use Rattle.std.specs.Prelude.{◌≡◌, ◌++◌, [], IfOk, OnOk, string_bytes};
ghost use Rattle.nr_wasmtypes.specs.Code.{Code, code_of, put};
ghost use Rattle.nr_wat.specs.Names.{name_of};
ghost use Rattle.nr_wat.specs.Instructions.{code_text, deeper, holding, line, other_text, plain_text, result_text};

use crate::names::{push_name, type_name};
use crate::operands::push_plain;
use nr_wasmtypes::{Instr, Op, Plain, ValType};
use std::alloc::{AllocError, Global};
use std::fmt::Write;

/// Adds the result of a type or a block.
pub(crate) fn push_result(result_type: Option<ValType>, text: &mut String) -> Result<(), AllocError>
    ensures { OnOk result (string_bytes text.new ≡ string_bytes text.old ++ result_text result_type) }
{
    match result_type {
        None => Ok(()),
        Some(kind) => {
            let kind = type_name(kind);
            write!(text, " (result {kind})")
        }
    }
}

/// Begins a line.
fn push_margin(margin: &str, text: &mut String) -> Result<(), AllocError>
    ensures { OnOk result (string_bytes text.new ≡ string_bytes text.old ++ line margin.now []) }
{
    write!(text, "\n{margin}")
}

/// The margin of what an instruction holds.
fn deeper(alloc: Global, margin: &str) -> Result<String, AllocError>
    ensures { IfOk result (λ inner. string_bytes inner ≡ deeper margin.now) }
{
    let mut inner = String::from_str(alloc, margin)?;
    inner.push_str("  ")?;
    Ok(inner)
}

fn print_plain(margin: &str, plain: &Plain, text: &mut String) -> Result<(), AllocError>
    ensures { OnOk result (string_bytes text.new ≡ string_bytes text.old ++ line margin.now (plain_text plain.now)) }
{
    push_margin(margin, text)?;
    push_plain(plain, text)
}

/// The line that begins a block.
fn print_head(
    margin: &str,
    op: Op,
    result_type: Option<ValType>,
    text: &mut String,
) -> Result<(), AllocError>
    ensures { OnOk result (string_bytes text.new
        ≡ string_bytes text.old ++ line margin.now (name_of op ++ result_text result_type)) }
{
    push_margin(margin, text)?;
    push_name(op, text)?;
    push_result(result_type, text)
}

/// The line of an end or an `else`.
fn print_name(margin: &str, op: Op, text: &mut String) -> Result<(), AllocError>
    ensures { OnOk result (string_bytes text.new ≡ string_bytes text.old ++ line margin.now (name_of op)) }
{
    push_margin(margin, text)?;
    push_name(op, text)
}

/// What an instruction holds.
#[cycle(code)]
fn print_inside(
    alloc: Global,
    margin: &str,
    body: &Vec<Instr>,
    text: &mut String,
) -> Result<(), AllocError>
    ensures { OnOk result (string_bytes text.new
        ≡ string_bytes text.old ++ code_text (deeper margin.now) (code_of body.now.items)) }
{
    let margin = deeper(alloc, margin)?;
    print_code(alloc, margin.as_str(), body, text)
}

/// The second side of a choice, where it has one.
#[cycle(code)]
#[tactic(auto, using(std::proofs::lemmas::Grind::common_steps, crate::proofs::Turns::sides))]
fn print_other(
    alloc: Global,
    margin: &str,
    body: &Vec<Instr>,
    text: &mut String,
) -> Result<(), AllocError>
    ensures { OnOk result (string_bytes text.new
        ≡ string_bytes text.old ++ other_text margin.now (code_of body.now.items)) }
{
    if body.is_empty() {
        return Ok(());
    }
    print_name(margin, Op::Else, text)?;
    print_inside(alloc, margin, body, text)
}

/// A block or a loop, with what it holds.
#[cycle(code)]
fn print_block(
    alloc: Global,
    margin: &str,
    op: Op,
    result_type: Option<ValType>,
    body: &Vec<Instr>,
    text: &mut String,
) -> Result<(), AllocError>
    ensures { OnOk result (string_bytes text.new ≡ string_bytes text.old
        ++ holding margin.now op result_type (code_text (deeper margin.now) (code_of body.now.items))) }
{
    print_head(margin, op, result_type, text)?;
    print_inside(alloc, margin, body, text)?;
    print_name(margin, Op::End, text)
}

/// One instruction, with what it holds.
#[cycle(code)]
fn print_instr(
    alloc: Global,
    margin: &str,
    instr: &Instr,
    text: &mut String,
) -> Result<(), AllocError>
    ensures { OnOk result ((rest : Code) → string_bytes text.new ++ code_text margin.now rest
        ≡ string_bytes text.old ++ code_text margin.now (put instr.now rest)) }
{
    match instr {
        Instr::Plain(plain) => print_plain(margin, plain, text),
        Instr::Block(result_type, body) => {
            print_block(alloc, margin, Op::Block, *result_type, body, text)
        }
        Instr::Loop(result_type, body) => {
            print_block(alloc, margin, Op::Loop, *result_type, body, text)
        }
        Instr::If(result_type, arms) => {
            let arms: &(Vec<Instr>, Vec<Instr>) = arms;
            print_head(margin, Op::If, *result_type, text)?;
            print_inside(alloc, margin, &arms.0, text)?;
            print_other(alloc, margin, &arms.1, text)?;
            print_name(margin, Op::End, text)
        }
    }
}

/// A sequence, each line behind a margin.
///
/// # Errors
///
/// Where memory runs out.
#[cycle(code)]
pub(crate) fn print_code(
    alloc: Global,
    margin: &str,
    code: &Vec<Instr>,
    text: &mut String,
) -> Result<(), AllocError>
    ensures { OnOk result (string_bytes text.new
        ≡ string_bytes text.old ++ code_text margin.now (code_of code.now.items)) }
{
    for index in 0..code.len() {
        print_instr(alloc, margin, &code[index], text)?;
    }
    Ok(())
}
