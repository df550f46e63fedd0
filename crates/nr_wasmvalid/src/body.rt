//! Checking a body block by block.

ghost use Rattle.std.specs.Prelude.{◌≡◌, ◌+◌, ◌<◌, [], OnOk, IfOk, IfErr, None};
ghost use Rattle.nr_wasmvalid.specs.declared.refusal.BodyFault.TheVariants.{Memory};
ghost use Rattle.nr_wasmtypes.specs.Code.{code_of, count_of, put, End};
ghost use Rattle.nr_wasmvalid.specs.Rules.{types, within, ending};
ghost use Rattle.nr_wasmvalid.specs.Shapes.{judged, body_judged, asked_all, ended, fresh, give_all};
ghost use Rattle.nr_wasmvalid.specs.Frames.{SameAround, Leaves, Judges, StepsOn, BodyJudges, in_scope, emptied};

use crate::plain::{Scope, check_plain};
use crate::refusal::{BodyFault, Refusal};
use crate::stacks::Stacks;
use nr_wasmtypes::{Instr, ValType};

/// The end of a block: its result, and no other operand.
#[inline]
#[tactic(auto, unfolding(crate::specs::Shapes::asked_all))]
fn check_end(stacks: &mut Stacks, result_type: Option<ValType>) -> Result<(), Refusal>
    ensures gives { Leaves result (emptied stacks.new) (asked_all (ending result_type) stacks.old.shape) }
    ensures empty { OnOk result (stacks.new.shape.known ≡ []) }
    ensures around { OnOk result (SameAround stacks.old stacks.new) }
{
    stacks.take_some(result_type)?;
    stacks.empty()
}

/// A block's body, in a block of its own. Answers the number of the instruction that comes next.
#[inline(never)]
#[cycle(code)]
fn check_inside(
    scope: &Scope<'_>,
    stacks: &mut Stacks,
    label: Option<ValType>,
    body: &Vec<Instr>,
    result_type: Option<ValType>,
    place: u32,
) -> Result<u32, BodyFault>
    ensures gives { Judges result (emptied stacks.old) (ended (place + count_of (code_of body.now.items)) result_type
        (judged (within label (in_scope scope.now stacks.old.labels)) place (code_of body.now.items) fresh)) }
    ensures next { IfOk result (λ next. next ≡ place + count_of (code_of body.now.items)) }
    ensures same { OnOk result (stacks.new ≡ stacks.old) }
{
    stacks.enter(label)?;
    let next = check_code(scope, stacks, body, place)?;
    if let Err(refusal) = check_end(stacks, result_type) {
        return Err(refusal.at(next));
    }
    stacks.leave();
    Ok(next)
}

/// The operand that a block leaves.
#[inline(always)]
fn give_result(stacks: &mut Stacks, result_type: Option<ValType>) -> Result<(), BodyFault>
    ensures shape { OnOk result (stacks.new.shape ≡ give_all (types result_type) stacks.old.shape) }
    ensures around { OnOk result (SameAround stacks.old stacks.new) }
    ensures memory { IfErr result (λ e. e ≡ Memory) }
{
    stacks
        .give_some(result_type)
        .map_err(|_| BodyFault::Memory)?;
    Ok(())
}

/// The number of the next instruction. A body with 2^32 of them takes more memory than there is.
#[inline(always)]
fn next_place(place: u32) -> Result<u32, BodyFault>
    ensures next { IfOk result (λ next. next ≡ place + 1) }
    ensures memory { IfErr result (λ e. e ≡ Memory) }
{
    place.checked_add(1).ok_or(BodyFault::Memory)
}

/// One instruction, with what it holds. Answers the number of the instruction that comes next.
#[inline(always)]
#[cycle(code)]
fn check_instr(
    scope: &Scope<'_>,
    stacks: &mut Stacks,
    instr: &Instr,
    place: u32,
) -> Result<u32, BodyFault>
    ensures gives { let c = in_scope scope.now stacks.old.labels in
        StepsOn c result stacks.new (λ rest. judged c place (put instr.now rest) stacks.old.shape) }
    ensures next { IfOk result (λ next. next ≡ place + count_of (put instr.now End)) }
    ensures around { OnOk result (SameAround stacks.old stacks.new) }
{
    let inside = next_place(place)?;
    match instr {
        Instr::Plain(plain) => {
            if let Err(refusal) = check_plain(scope, stacks, plain) {
                return Err(refusal.at(place));
            }
            Ok(inside)
        }
        Instr::Block(result_type, body) => {
            let next = check_inside(scope, stacks, *result_type, body, *result_type, inside)?;
            give_result(stacks, *result_type)?;
            Ok(next)
        }
        Instr::Loop(result_type, body) => {
            let next = check_inside(scope, stacks, None, body, *result_type, inside)?;
            give_result(stacks, *result_type)?;
            Ok(next)
        }
        Instr::If(result_type, arms) => {
            let arms: &(Vec<Instr>, Vec<Instr>) = arms;
            if let Err(refusal) = stacks.take(&[ValType::I32]) {
                return Err(refusal.at(place));
            }
            let next = check_inside(scope, stacks, *result_type, &arms.0, *result_type, inside)?;
            let next = check_inside(scope, stacks, *result_type, &arms.1, *result_type, next)?;
            give_result(stacks, *result_type)?;
            Ok(next)
        }
    }
}

/// A sequence whose first instruction has this number. Answers the number of the instruction that comes next.
#[cycle(code)]
fn check_code(
    scope: &Scope<'_>,
    stacks: &mut Stacks,
    code: &Vec<Instr>,
    place: u32,
) -> Result<u32, BodyFault>
    ensures gives { let c = in_scope scope.now stacks.old.labels in
        Judges result stacks.new (judged c place (code_of code.now.items) stacks.old.shape) }
    ensures next { IfOk result (λ next. next ≡ place + count_of (code_of code.now.items)) }
    ensures around { OnOk result (SameAround stacks.old stacks.new) }
{
    let mut next = place;
    for index in 0..code.len() {
        next = check_instr(scope, stacks, &code[index], next)?;
    }
    Ok(next)
}

/// A function's body. The stacks lend their memory.
#[tactic(auto, unfolding(crate::specs::Shapes::body_judged))]
pub(crate) fn check_body(
    scope: &Scope<'_>,
    stacks: &mut Stacks,
    code: &Vec<Instr>,
) -> Result<(), BodyFault>
    ensures { BodyJudges result (body_judged (in_scope scope.now []) (code_of code.now.items)) }
{
    stacks.restart(scope.result);
    let next = check_code(scope, stacks, code, 0)?;
    if let Err(refusal) = check_end(stacks, scope.result) {
        return Err(refusal.at(next));
    }
    Ok(())
}
