//! Sequences of instructions.

ghost use Rattle.std.specs.Prelude.{◌≡◌, ◌≢◌, ◌+◌, ◌≤◌, ◌<◌, ℕ, Bool, false, OnOk, length};
ghost use Rattle.nr_wasmbin.specs.Expressions.{code_at, instr_at, expression_at, other_side, GivesCode, GivesOther};
ghost use Rattle.nr_wasmbin.specs.Expressions.{StepsOn, GivesExpression, RowGives, PutsCode, is_structured};
ghost use Rattle.nr_wasmtypes.specs.declared.opcode.Op.TheVariants as op;

use crate::cursor::Cursor;
use crate::fault::DecodeFault;
use crate::plain::{open_block, plain_of, read_plain};
use nr_wasmtypes::{Instr, Op};
use std::alloc::Global;

/// Whether it is the opcode of an instruction that holds others, or ends a sequence.
#[inline(always)]
fn is_structured(op: Op) -> bool
    ensures { result ≡ is_structured op }
{
    match op {
        Op::Block => true,
        Op::Loop => true,
        Op::If => true,
        Op::Else => true,
        Op::End => true,
        _ => false,
    }
}

/// Puts the instructions that hold no others behind those that are there. Answers the place of the opcode behind them,
/// and what it stands for. It stays a call, so that a block takes little of the stack.
#[inline(never)]
fn read_row(
    alloc: Global,
    cursor: &mut Cursor<'_>,
    items: &mut Vec<Instr>,
) -> Result<(usize, Op), DecodeFault>
    ensures gives { (turns : ℕ) (depth : ℕ) (may_else : Bool) → length cursor.old.left ≤ turns
        → RowGives result cursor.new items.old.items items.new.items depth may_else
        (code_at turns depth may_else cursor.old) }
    ensures shorter { OnOk result (length cursor.new.left < length cursor.old.left) }
{
    'opcodes: loop {
        let at = cursor.at();
        let op = Op::of(cursor.byte()?);
        if is_structured(op) {
            return Ok((at, op));
        }
        let plain = plain_of(alloc, cursor, at, op)?;
        items.push(Instr::Plain(plain))?;
    }
}

/// Puts the instructions up to an end behind those that are there. Answers whether the end is an `else`.
#[cycle(code)]
fn read_rows(
    alloc: Global,
    cursor: &mut Cursor<'_>,
    stack: &mut Vec<Instr>,
    depth: u32,
    may_else: bool,
) -> Result<bool, DecodeFault>
    requires shallow { depth ≤ 256 }
    ensures gives { (turns : ℕ) → length cursor.old.left ≤ turns
        → PutsCode result cursor.new stack.old.items stack.new.items (code_at turns depth may_else cursor.old) }
    ensures shorter { OnOk result (length cursor.new.left < length cursor.old.left) }
{
    'rows: loop {
        let (at, op) = read_row(alloc, cursor, stack)?;
        match op {
            Op::End => return Ok(false),
            Op::Else => {
                if may_else {
                    return Ok(true);
                }
                return Err(DecodeFault::Opcode { at });
            }
            _ => {
                let instr = read_instr(alloc, cursor, stack, depth, at, op)?;
                stack.push(instr)?;
            }
        }
    }
}

/// The instructions up to an end, in memory for just as many, and whether it is an `else`. On the way they stand on a
/// stack.
#[inline(never)]
#[cycle(code)]
fn read_code(
    alloc: Global,
    cursor: &mut Cursor<'_>,
    stack: &mut Vec<Instr>,
    depth: u32,
    may_else: bool,
) -> Result<(Vec<Instr>, bool), DecodeFault>
    requires shallow { depth ≤ 256 }
    ensures gives { (turns : ℕ) → length cursor.old.left ≤ turns
        → GivesCode result cursor.new (code_at turns depth may_else cursor.old) }
    ensures shorter { OnOk result (length cursor.new.left < length cursor.old.left) }
    ensures held { OnOk result (stack.new.items ≡ stack.old.items) }
{
    let start = stack.len();
    let is_else = read_rows(alloc, cursor, stack, depth, may_else)?;
    let items = stack.split_off(start)?;
    Ok((items, is_else))
}

/// The second side of a choice, where an `else` stands.
#[cycle(code)]
fn read_other(
    alloc: Global,
    cursor: &mut Cursor<'_>,
    stack: &mut Vec<Instr>,
    depth: u32,
    stands: bool,
) -> Result<Vec<Instr>, DecodeFault>
    requires shallow { depth ≤ 256 }
    ensures gives { (turns : ℕ) → length cursor.old.left ≤ turns
        → GivesOther result cursor.new (other_side (code_at turns depth false) stands cursor.old) }
    ensures shorter { OnOk result (length cursor.new.left ≤ length cursor.old.left) }
    ensures held { OnOk result (stack.new.items ≡ stack.old.items) }
{
    if !stands {
        return Ok(Vec::new(alloc));
    }
    let (other, _) = read_code(alloc, cursor, stack, depth, false)?;
    Ok(other)
}

/// One instruction, with what it holds, behind its opcode. Those that hold nothing are read by `read_row` before.
#[cycle(code)]
fn read_instr(
    alloc: Global,
    cursor: &mut Cursor<'_>,
    stack: &mut Vec<Instr>,
    depth: u32,
    at: usize,
    op: Op,
) -> Result<Instr, DecodeFault>
    requires shallow { depth ≤ 256 }
    requires no_end { op ≢ Op.End }
    requires no_else { op ≢ Op.Else }
    ensures gives { (turns : ℕ) (may_else : Bool) → length cursor.old.left ≤ turns
        → StepsOn result cursor.new (code_at turns depth may_else)
        (instr_at (code_at turns) depth may_else at op cursor.old) }
    ensures shorter { OnOk result (length cursor.new.left ≤ length cursor.old.left) }
    ensures held { OnOk result (stack.new.items ≡ stack.old.items) }
{
    match op {
        Op::Block => {
            let ty = open_block(cursor, depth, at)?;
            let (body, _) = read_code(alloc, cursor, stack, depth + 1, false)?;
            Ok(Instr::block(alloc, ty, body)?)
        }
        Op::Loop => {
            let ty = open_block(cursor, depth, at)?;
            let (body, _) = read_code(alloc, cursor, stack, depth + 1, false)?;
            Ok(Instr::repeat(alloc, ty, body)?)
        }
        Op::If => {
            let ty = open_block(cursor, depth, at)?;
            let (one, stands) = read_code(alloc, cursor, stack, depth + 1, true)?;
            let other = read_other(alloc, cursor, stack, depth + 1, stands)?;
            Ok(Instr::choice(alloc, ty, one, other)?)
        }
        _ => Ok(Instr::Plain(read_plain(alloc, cursor, at, op)?)),
    }
}

/// An expression: instructions up to their end. They stand on a stack before they have memory of their own.
pub(crate) fn read_expression(
    alloc: Global,
    cursor: &mut Cursor<'_>,
    stack: &mut Vec<Instr>,
) -> Result<Vec<Instr>, DecodeFault>
    ensures gives { GivesExpression result cursor.new (expression_at cursor.old) }
{
    let (items, _) = read_code(alloc, cursor, stack, 0, false)?;
    Ok(items)
}
