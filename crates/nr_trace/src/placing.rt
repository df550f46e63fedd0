//! The place of the instruction that a trail has noted.

ghost use Rattle.std.specs.Prelude.{◌≡◌, ◌+◌, IfOk, MatchOption, cond, drop, sum_by};
ghost use Rattle.nr_wasmtypes.specs.Code.{Code, End, after, code_of, count_of, put};
ghost use Rattle.nr_wasmexec.specs.Functions.{func_at};
ghost use Rattle.nr_trace.specs.Tracing.{IsPlaced};
ghost use Rattle.nr_trace.specs.Trail.{behind, left_in, number_in, place_in, second_of, trail_of};

use crate::count::{count_body, count_code};
use crate::trail::{Level, TraceStop, Trail};
use nr_wasmexec::{Func, Program, after_first, func_at};
use nr_wasmtypes::Instr;
use std::alloc::AllocError;

/// The first instruction of a sequence.
fn first_instr(code: &[Instr]) -> Option<&Instr>
    ensures { MatchOption result (code_of code.now ≡ End)
        (λ i. code_of code.now ≡ put i.now (after (code_of code.now))) }
{
    code.first()
}

/// The instructions of an instruction's second side, beside so many.
fn count_side(instr: &Instr, so_far: u64) -> Result<u64, AllocError>
    ensures { IfOk result (λ count. (rest : Code) → count ≡ so_far + count_of (second_of (put instr.now rest))) }
{
    match instr {
        Instr::Plain(_) => Ok(so_far),
        Instr::Block(_, _) => Ok(so_far),
        Instr::Loop(_, _) => Ok(so_far),
        Instr::If(_, arms) => {
            let arms: &(Vec<Instr>, Vec<Instr>) = arms;
            count_body(&arms.1, so_far)
        }
    }
}

/// Those of the second side of the first instruction, beside so many.
fn count_second(code: &[Instr], so_far: u64) -> Result<u64, AllocError>
    ensures { IfOk result (λ count. count ≡ so_far + count_of (second_of (code_of code.now))) }
{
    match first_instr(code) {
        None => Ok(so_far),
        Some(instr) => count_side(instr, so_far),
    }
}

/// Those of the side that doesn't run but stands behind the one that does, beside so many.
fn count_other(code: &[Instr], second: bool, so_far: u64) -> Result<u64, AllocError>
    ensures { IfOk result (λ count. count ≡ so_far + cond second 0 (count_of (second_of (code_of code.now)))) }
{
    if second {
        return Ok(so_far);
    }
    let count = count_second(code, so_far)?;
    Ok(count)
}

/// Those that stand behind the side of a block that runs, beside so many.
fn count_block(code: &[Instr], second: bool, so_far: u64) -> Result<u64, AllocError>
    ensures { IfOk result (λ count. count ≡ so_far
        + (cond second 0 (count_of (second_of (code_of code.now))) + count_of (after (code_of code.now)))) }
{
    let other = count_other(code, second, so_far)?;
    let count = count_code(after_first(code), other)?;
    Ok(count)
}

/// Those that stand behind what runs in a level, beside so many.
fn count_behind(level: &Level, so_far: u64) -> Result<u64, AllocError>
    ensures { IfOk result (λ count. count ≡ so_far + behind level.now) }
{
    match level {
        Level::Block { at, second } => {
            let count = count_block(at.lent(), *second, so_far)?;
            Ok(count)
        }
        Level::Call { .. } => Ok(so_far),
    }
}

/// Those that stand behind what runs in so many levels, beside so many.
fn count_levels(levels: &[Level], so_far: u64) -> Result<u64, AllocError>
    ensures { IfOk result (λ count. count ≡ so_far + sum_by behind levels.now) }
{
    let mut count = so_far;
    for level in levels {
        count = count_behind(level, count)?;
    }
    Ok(count)
}

/// The levels of the frame that runs.
#[tactic(auto, using(std::proofs::lemmas::List::drop_all))]
fn own_levels<'t, 'a>(trail: &'t Trail<'a>) -> &'t [Level<'a>]
    ensures { result.now ≡ drop trail.now.base trail.now.levels.items }
{
    let levels = trail.levels.as_slice();
    let end = levels.len();
    if trail.base <= end {
        &levels[trail.base..]
    } else {
        &levels[end..]
    }
}

/// The instructions of the function from the noted one on.
fn count_left(trail: &Trail) -> Result<u64, AllocError>
    ensures { IfOk result (λ count. count ≡ left_in (trail_of trail.now)) }
{
    let inner = count_code(trail.at.lent(), 0)?;
    let count = count_levels(own_levels(trail), inner)?;
    Ok(count)
}

/// The number of the noted instruction in its function.
fn number_of(program: &Program, trail: &Trail) -> Result<u64, AllocError>
    ensures { IfOk result (λ number. number ≡ number_in (func_at program.now trail.now.func) (trail_of trail.now)) }
{
    match func_at(program, trail.func) {
        Some(Func::Coded(_, body)) => {
            let all = count_code(body.code(), 0)?;
            let left = count_left(trail)?;
            Ok(all.saturating_sub(left))
        }
        Some(Func::Hosted(_, _)) => Ok(0),
        None => Ok(0),
    }
}

/// The stop at a trap, with its place.
pub fn placed(program: &Program, kind: u32, trail: &Trail) -> TraceStop
    ensures { IsPlaced result kind (place_in program.now (trail_of trail.now)) }
{
    match number_of(program, trail) {
        Ok(place) => TraceStop::Trap {
            kind,
            func: trail.func,
            place,
        },
        Err(_) => TraceStop::Memory,
    }
}
