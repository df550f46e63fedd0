//! Where the opcode of an instruction stands.

ghost use Rattle.std.specs.Prelude.{◌≡◌, ◌≤◌, ◌<◌, OnOk, length};
ghost use Rattle.nr_bytes.specs.Answers.{GivesAs};
ghost use Rattle.nr_bytes.specs.Fields.{mapped};
ghost use Rattle.nr_wasmbin.specs.Expressions.{block_type_at, plain_at};
ghost use Rattle.nr_wasmbin.specs.Fields.{Gives, GivesAll};
ghost use Rattle.nr_wasmbin.specs.declared.fault.DecodeFault.TheVariants.{Memory};
ghost use Rattle.nr_trace.specs.Offsets.{body_in, code_section, instruction_at, is_instr, nth_at, opcode_at, opens};
ghost use Rattle.nr_trace.specs.Offsets.{operands_at, passed_at, passed_by, past_body, within_body};

use nr_wasmbin::{
    Cursor, DecodeFault, enter, read_block_type, read_front, read_locals, read_middle, read_plain,
    read_word,
};
use nr_wasmtypes::Op;
use std::alloc::Global;

/// Where an instruction is that is sought.
#[derive(Clone, Copy, Debug, PartialEq, Eq)]
pub(crate) enum Sought {
    /// At this place.
    Here(usize),
    /// Behind so many others.
    Behind(u64),
}

/// `else` and `end` are no instructions.
fn is_instr(op: Op) -> bool
    ensures { result ≡ is_instr op }
{
    match op {
        Op::Else => false,
        Op::End => false,
        _ => true,
    }
}

/// Whether a block begins with it.
fn opens(op: Op) -> bool
    ensures { result ≡ opens op }
{
    match op {
        Op::Block => true,
        Op::Loop => true,
        Op::If => true,
        _ => false,
    }
}

/// Passes over the type of a block.
fn pass_type(cursor: &mut Cursor<'_>) -> Result<(), DecodeFault>
    ensures gives { Gives result cursor.new (mapped (λ t. tt) block_type_at cursor.old) }
    ensures shorter { OnOk result (length cursor.new.left ≤ length cursor.old.left) }
{
    read_block_type(cursor)?;
    Ok(())
}

/// Passes over the operands of an instruction that holds no others.
fn pass_plain(alloc: Global, cursor: &mut Cursor<'_>, at: usize, op: Op) -> Result<(), DecodeFault>
    ensures gives { Gives result cursor.new (mapped (λ p. tt) (plain_at at op) cursor.old) }
    ensures shorter { OnOk result (length cursor.new.left ≤ length cursor.old.left) }
{
    read_plain(alloc, cursor, at, op)?;
    Ok(())
}

/// Passes over what stands behind an instruction's opcode.
fn pass_operands(
    alloc: Global,
    cursor: &mut Cursor<'_>,
    at: usize,
    op: Op,
) -> Result<(), DecodeFault>
    ensures gives { Gives result cursor.new (operands_at at op cursor.old) }
    ensures shorter { OnOk result (length cursor.new.left ≤ length cursor.old.left) }
{
    if opens(op) {
        pass_type(cursor)
    } else {
        pass_plain(alloc, cursor, at, op)
    }
}

/// Passes over an instruction behind its opcode, unless it is the one that is sought.
fn pass_instr(
    alloc: Global,
    cursor: &mut Cursor<'_>,
    number: u64,
    at: usize,
    op: Op,
) -> Result<Sought, DecodeFault>
    ensures gives { Gives result cursor.new (passed_by number at op cursor.old) }
    ensures shorter { OnOk result (length cursor.new.left ≤ length cursor.old.left) }
{
    if number == 0 {
        return Ok(Sought::Here(at));
    }
    pass_operands(alloc, cursor, at, op)?;
    Ok(Sought::Behind(number - 1))
}

/// Passes over one opcode with what belongs to it, unless it is that of the instruction that is sought.
#[tactic(auto, unfolding(crate::specs::Offsets::passed_at))]
fn pass_opcode(alloc: Global, cursor: &mut Cursor<'_>, number: u64) -> Result<Sought, DecodeFault>
    ensures gives { Gives result cursor.new (passed_at number cursor.old) }
    ensures shorter { OnOk result (length cursor.new.left < length cursor.old.left) }
{
    let at = cursor.at();
    let op = Op::of(cursor.byte()?);
    if !is_instr(op) {
        return Ok(Sought::Behind(number));
    }
    pass_instr(alloc, cursor, number, at, op)
}

/// The place of the instruction behind so many others.
fn find_opcode(alloc: Global, cursor: &mut Cursor<'_>, number: u64) -> Result<usize, DecodeFault>
    ensures { GivesAll result (opcode_at number cursor.old) }
{
    let mut left = number;
    'opcodes: loop {
        match pass_opcode(alloc, cursor, left) {
            Ok(Sought::Here(at)) => return Ok(at),
            Ok(Sought::Behind(more)) => left = more,
            Err(fault) => return Err(fault),
        }
    }
}

/// Passes over a body.
fn pass_body(cursor: &mut Cursor<'_>) -> Result<(), DecodeFault>
    ensures { GivesAs Memory (λ u. cursor.new) result (past_body cursor.old) }
{
    cursor.sized()?;
    Ok(())
}

/// The contents of the body behind so many others.
fn enter_nth<'a>(cursor: &mut Cursor<'a>, number: usize) -> Result<Cursor<'a>, DecodeFault>
    ensures { Gives result cursor.new (nth_at number cursor.old) }
{
    for _ in 0..number {
        pass_body(cursor)?;
    }
    cursor.sized()
}

/// The contents of the body with this number.
#[tactic(auto, unfolding(crate::specs::Offsets::body_in))]
fn enter_body<'a>(cursor: &mut Cursor<'a>, number: usize) -> Result<Cursor<'a>, DecodeFault>
    ensures { Gives result cursor.new (body_in number cursor.old) }
{
    cursor.count()?;
    enter_nth(cursor, number)
}

/// The contents of the code section.
#[tactic(auto, unfolding(crate::specs::Offsets::code_section))]
fn enter_code<'a>(alloc: Global, cursor: &mut Cursor<'a>) -> Result<Option<Cursor<'a>>, DecodeFault>
    ensures { Gives result cursor.new (code_section cursor.old) }
{
    read_word(cursor, *b"\x00asm")?;
    read_word(cursor, *b"\x01\x00\x00\x00")?;
    read_front(alloc, cursor)?;
    read_middle(alloc, cursor)?;
    enter(cursor, 10)
}

/// In the contents of the code section the place of an instruction.
#[tactic(auto, unfolding(crate::specs::Offsets::within_body))]
fn find_within(
    alloc: Global,
    cursor: &mut Cursor<'_>,
    body: usize,
    number: u64,
) -> Result<usize, DecodeFault>
    ensures { GivesAll result (within_body body number cursor.old) }
{
    let mut inner = enter_body(cursor, body)?;
    read_locals(alloc, &mut inner)?;
    find_opcode(alloc, &mut inner, number)
}

/// The place of an instruction's opcode in the bytes of a module, counted from 0 as in `DecodeFault`: of the
/// instruction behind `number` others in the body behind `body` others, where `else` and `end` are no instructions.
///
/// # Errors
///
/// The first field on the way that can't be read, as `decode` has it, also where there are not so many bodies. Past
/// the body's end `Short` there. `Section` where the code section should stand. `Memory`.
#[tactic(auto, unfolding(crate::specs::Offsets::instruction_at))]
pub fn find_instruction(
    alloc: Global,
    bytes: &[u8],
    body: usize,
    number: u64,
) -> Result<usize, DecodeFault>
    // The place, or the first fault.
    ensures gives { GivesAll result (instruction_at body number bytes.now) }
{
    let mut cursor = Cursor::new(bytes);
    match enter_code(alloc, &mut cursor)? {
        None => Err(DecodeFault::Section { at: cursor.at() }),
        Some(mut inner) => find_within(alloc, &mut inner, body, number),
    }
}
