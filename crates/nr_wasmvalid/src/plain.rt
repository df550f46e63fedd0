//! Checking the plain instructions, a function for each kind.

ghost use Rattle.std.specs.Prelude.{◌≡◌, ◌∷◌, [], OnOk, slice_get, option_copied, Ok, Err, if◌then◌else◌};
ghost use Rattle.nr_wasmtypes.specs.declared.instr.Plain.TheVariants as op;
ghost use Rattle.nr_wasmvalid.specs.Rules.{func_type, are_labels, is_label, same_types, Take, Give, Leave};
ghost use Rattle.nr_wasmvalid.specs.Shapes.{asked_all};
ghost use Rattle.nr_wasmvalid.specs.Frames.{SameAround, Leaves, left_by};

use crate::locals::LocalTypes;
use crate::refusal::Refusal;
use crate::stacks::Stacks;
use nr_wasmtypes::{FuncType, Labels, Load, Module, Plain, Store, ValType};

/// What the instructions of a function see.
#[derive(Drop)]
pub(crate) struct Scope<'a> {
    pub(crate) module: &'a Module,
    /// The number of each function's type, imported functions first.
    pub(crate) funcs: &'a [u32],
    pub(crate) locals: LocalTypes<'a>,
    pub(crate) result: Option<ValType>,
}

/// What must hold.
#[inline(always)]
fn must(kind: Refusal, holds: bool) -> Result<(), Refusal>
    ensures { result ≡ (if holds then Ok tt else Err kind) }
{
    if holds { Ok(()) } else { Err(kind) }
}

/// A place that is never reached.
#[inline]
#[tactic(auto, unfolding(crate::specs::Shapes::asked_all))]
fn check_unreachable(stacks: &mut Stacks) -> Result<(), Refusal>
    ensures leaves { Leaves result stacks.new (asked_all (Leave ∷ []) stacks.old.shape) }
    ensures around { OnOk result (SameAround stacks.old stacks.new) }
{
    stacks.never_reached();
    Ok(())
}

/// A branch.
#[inline]
#[tactic(auto, unfolding(crate::specs::Shapes::asked_all))]
fn check_br(scope: &Scope<'_>, stacks: &mut Stacks, depth: u32) -> Result<(), Refusal>
    ensures leaves { Leaves result stacks.new (left_by scope.now stacks.old (op.Br depth)) }
    ensures around { OnOk result (SameAround stacks.old stacks.new) }
{
    let label = stacks.label(depth).ok_or(Refusal::Label)?;
    stacks.take_some(label)?;
    stacks.never_reached();
    Ok(())
}

/// A branch on a condition.
#[inline]
#[tactic(auto, unfolding(crate::specs::Shapes::asked_all))]
fn check_br_if(scope: &Scope<'_>, stacks: &mut Stacks, depth: u32) -> Result<(), Refusal>
    ensures leaves { Leaves result stacks.new (left_by scope.now stacks.old (op.BrIf depth)) }
    ensures around { OnOk result (SameAround stacks.old stacks.new) }
{
    stacks.take(&[ValType::I32])?;
    let label = stacks.label(depth).ok_or(Refusal::Label)?;
    stacks.take_some(label)?;
    stacks.give_some(label)
}

/// Each of these labels is there and has this type.
fn has_labels(stacks: &Stacks, label: Option<ValType>, depths: &[u32]) -> bool
    ensures { result ≡ are_labels label stacks.now.labels depths.now }
{
    for depth in depths {
        if !has_label(stacks, label, *depth) {
            return false;
        }
    }
    true
}

fn has_label(stacks: &Stacks, label: Option<ValType>, depth: u32) -> bool
    ensures { result ≡ is_label label (slice_get stacks.now.labels depth) }
{
    match stacks.label(depth) {
        None => false,
        Some(other) => same_types(label, other),
    }
}

pub(crate) fn same_types(one: Option<ValType>, other: Option<ValType>) -> bool
    ensures { result ≡ same_types one other }
{
    match (one, other) {
        (None, None) => true,
        (Some(one), Some(other)) => one == other,
        _ => false,
    }
}

/// A branch by a table.
#[tactic(auto, unfolding(crate::specs::Shapes::asked_all))]
fn check_br_table(scope: &Scope<'_>, stacks: &mut Stacks, table: &Labels) -> Result<(), Refusal>
    ensures leaves { Leaves result stacks.new (left_by scope.now stacks.old (op.BrTable table.now)) }
    ensures around { OnOk result (SameAround stacks.old stacks.new) }
{
    stacks.take(&[ValType::I32])?;
    let label = stacks.label(table.other()).ok_or(Refusal::Label)?;
    stacks.take_some(label)?;
    if !has_labels(stacks, label, table.labels()) {
        return Err(Refusal::Label);
    }
    stacks.never_reached();
    Ok(())
}

/// A return.
#[inline]
#[tactic(auto, unfolding(crate::specs::Shapes::asked_all))]
fn check_return(scope: &Scope<'_>, stacks: &mut Stacks) -> Result<(), Refusal>
    ensures leaves { Leaves result stacks.new (left_by scope.now stacks.old op.Return) }
    ensures around { OnOk result (SameAround stacks.old stacks.new) }
{
    stacks.take_some(scope.result)?;
    stacks.never_reached();
    Ok(())
}

/// The type of a function.
#[inline(always)]
fn func_type<'a>(scope: &Scope<'a>, func: u32) -> Option<&'a FuncType>
    ensures { option_copied result ≡ func_type scope.now.module.now.types scope.now.funcs.now func }
{
    let index = scope.funcs.get(func as usize)?;
    scope.module.types.inner().get(*index as usize)
}

/// A call.
#[inline]
#[tactic(auto, unfolding(crate::specs::Shapes::asked_all))]
fn check_call(scope: &Scope<'_>, stacks: &mut Stacks, func: u32) -> Result<(), Refusal>
    ensures leaves { Leaves result stacks.new (left_by scope.now stacks.old (op.Call func)) }
    ensures around { OnOk result (SameAround stacks.old stacks.new) }
{
    let sig = func_type(scope, func).ok_or(Refusal::Index)?;
    stacks.take_last_first(sig.params.inner())?;
    stacks.give_some(sig.result)
}

/// A call by the table.
#[inline]
#[tactic(auto, unfolding(crate::specs::Shapes::asked_all))]
fn check_call_indirect(scope: &Scope<'_>, stacks: &mut Stacks, index: u32) -> Result<(), Refusal>
    ensures leaves { Leaves result stacks.new (left_by scope.now stacks.old (op.CallIndirect index)) }
    ensures around { OnOk result (SameAround stacks.old stacks.new) }
{
    stacks.take(&[ValType::I32])?;
    let Some(sig) = scope.module.types.inner().get(index as usize) else {
        return Err(Refusal::Index);
    };
    stacks.take_last_first(sig.params.inner())?;
    must(Refusal::Index, !scope.module.tables.inner().is_empty())?;
    stacks.give_some(sig.result)
}

/// A global's value.
#[inline]
#[tactic(auto, unfolding(crate::specs::Shapes::asked_all))]
fn check_global_get(scope: &Scope<'_>, stacks: &mut Stacks, global: u32) -> Result<(), Refusal>
    ensures leaves { Leaves result stacks.new (left_by scope.now stacks.old (op.GlobalGet global)) }
    ensures around { OnOk result (SameAround stacks.old stacks.new) }
{
    let Some(global) = scope.module.globals.inner().get(global as usize) else {
        return Err(Refusal::Index);
    };
    stacks.give(global.kind)
}

/// A global's new value.
#[inline]
#[tactic(auto, unfolding(crate::specs::Shapes::asked_all))]
fn check_global_set(scope: &Scope<'_>, stacks: &mut Stacks, global: u32) -> Result<(), Refusal>
    ensures leaves { Leaves result stacks.new (left_by scope.now stacks.old (op.GlobalSet global)) }
    ensures around { OnOk result (SameAround stacks.old stacks.new) }
{
    let Some(global) = scope.module.globals.inner().get(global as usize) else {
        return Err(Refusal::Index);
    };
    stacks.take(&[global.kind])?;
    must(Refusal::Index, global.mutable)
}

/// A number from memory.
#[inline]
#[tactic(auto, unfolding(crate::specs::Shapes::asked_all))]
fn check_load(scope: &Scope<'_>, stacks: &mut Stacks, what: Load, align: u8) -> Result<(), Refusal>
    ensures leaves { Leaves result stacks.new (left_by scope.now stacks.old (op.Load what align 0)) }
    ensures around { OnOk result (SameAround stacks.old stacks.new) }
{
    stacks.take(&[ValType::I32])?;
    must(Refusal::Index, !scope.module.memories.inner().is_empty())?;
    must(Refusal::Limit, align <= what.align())?;
    stacks.give(what.given())
}

/// A number to memory.
#[inline]
#[tactic(auto, unfolding(crate::specs::Shapes::asked_all))]
fn check_store(
    scope: &Scope<'_>,
    stacks: &mut Stacks,
    what: Store,
    align: u8,
) -> Result<(), Refusal>
    ensures leaves { Leaves result stacks.new (left_by scope.now stacks.old (op.Store what align 0)) }
    ensures around { OnOk result (SameAround stacks.old stacks.new) }
{
    stacks.take(&[what.taken(), ValType::I32])?;
    must(Refusal::Index, !scope.module.memories.inner().is_empty())?;
    must(Refusal::Limit, align <= what.align())
}

/// The memory's size.
#[inline]
#[tactic(auto, unfolding(crate::specs::Shapes::asked_all))]
fn check_memory_size(scope: &Scope<'_>, stacks: &mut Stacks) -> Result<(), Refusal>
    ensures leaves { Leaves result stacks.new (left_by scope.now stacks.old op.MemorySize) }
    ensures around { OnOk result (SameAround stacks.old stacks.new) }
{
    must(Refusal::Index, !scope.module.memories.inner().is_empty())?;
    stacks.give(ValType::I32)
}

/// The memory's growth.
#[inline]
#[tactic(auto, unfolding(crate::specs::Shapes::asked_all))]
fn check_memory_grow(scope: &Scope<'_>, stacks: &mut Stacks) -> Result<(), Refusal>
    ensures leaves { Leaves result stacks.new (left_by scope.now stacks.old op.MemoryGrow) }
    ensures around { OnOk result (SameAround stacks.old stacks.new) }
{
    stacks.take(&[ValType::I32])?;
    must(Refusal::Index, !scope.module.memories.inner().is_empty())?;
    stacks.give(ValType::I32)
}

/// A local's value.
#[inline]
#[tactic(auto, unfolding(crate::specs::Shapes::asked_all))]
fn check_local_get(scope: &Scope<'_>, stacks: &mut Stacks, local: u32) -> Result<(), Refusal>
    ensures leaves { Leaves result stacks.new (left_by scope.now stacks.old (op.LocalGet local)) }
    ensures around { OnOk result (SameAround stacks.old stacks.new) }
{
    let Some(ty) = scope.locals.get(local) else {
        return Err(Refusal::Index);
    };
    stacks.give(ty)
}

/// A local's new value.
#[inline]
#[tactic(auto, unfolding(crate::specs::Shapes::asked_all))]
fn check_local_set(scope: &Scope<'_>, stacks: &mut Stacks, local: u32) -> Result<(), Refusal>
    ensures leaves { Leaves result stacks.new (left_by scope.now stacks.old (op.LocalSet local)) }
    ensures around { OnOk result (SameAround stacks.old stacks.new) }
{
    let Some(ty) = scope.locals.get(local) else {
        return Err(Refusal::Index);
    };
    stacks.take(&[ty])
}

/// A local's new value, which stays.
#[inline]
#[tactic(auto, unfolding(crate::specs::Shapes::asked_all))]
fn check_local_tee(scope: &Scope<'_>, stacks: &mut Stacks, local: u32) -> Result<(), Refusal>
    ensures leaves { Leaves result stacks.new (left_by scope.now stacks.old (op.LocalTee local)) }
    ensures around { OnOk result (SameAround stacks.old stacks.new) }
{
    let Some(ty) = scope.locals.get(local) else {
        return Err(Refusal::Index);
    };
    stacks.take(&[ty])?;
    stacks.give(ty)
}

/// An instruction that takes and gives operands of its own types alone.
#[inline]
#[tactic(auto, unfolding(crate::specs::Shapes::asked_all))]
fn check_operation(stacks: &mut Stacks, taken: &[ValType], given: ValType) -> Result<(), Refusal>
    ensures leaves { Leaves result stacks.new (asked_all (Take taken.now ∷ Give (given ∷ []) ∷ []) stacks.old.shape) }
    ensures around { OnOk result (SameAround stacks.old stacks.new) }
{
    stacks.take(taken)?;
    stacks.give(given)
}

/// A choice between two operands.
#[inline]
#[tactic(auto, unfolding(crate::specs::Shapes::asked_all))]
fn check_select(scope: &Scope<'_>, stacks: &mut Stacks) -> Result<(), Refusal>
    ensures leaves { Leaves result stacks.new (left_by scope.now stacks.old op.Select) }
    ensures around { OnOk result (SameAround stacks.old stacks.new) }
{
    stacks.take(&[ValType::I32])?;
    stacks.alike()
}

/// One instruction that holds no others.
#[inline(always)]
#[tactic(auto, unfolding(crate::specs::Shapes::asked_all))]
pub(crate) fn check_plain(
    scope: &Scope<'_>,
    stacks: &mut Stacks,
    plain: &Plain,
) -> Result<(), Refusal>
    ensures leaves { Leaves result stacks.new (left_by scope.now stacks.old plain.now) }
    ensures around { OnOk result (SameAround stacks.old stacks.new) }
{
    match plain {
        Plain::Unreachable => check_unreachable(stacks),
        Plain::Br(depth) => check_br(scope, stacks, *depth),
        Plain::BrIf(depth) => check_br_if(scope, stacks, *depth),
        Plain::BrTable(table) => check_br_table(scope, stacks, table),
        Plain::Return => check_return(scope, stacks),
        Plain::Call(func) => check_call(scope, stacks, *func),
        Plain::Drop => stacks.take_any(),
        Plain::Select => check_select(scope, stacks),
        Plain::LocalGet(local) => check_local_get(scope, stacks, *local),
        Plain::LocalSet(local) => check_local_set(scope, stacks, *local),
        Plain::LocalTee(local) => check_local_tee(scope, stacks, *local),
        Plain::Const32(_) => stacks.give(ValType::I32),
        Plain::Const64(_) => stacks.give(ValType::I64),
        Plain::IsZero(kind) => check_operation(stacks, &[*kind], ValType::I32),
        Plain::Count(kind, _) => check_operation(stacks, &[*kind], *kind),
        Plain::Compare(kind, _) => check_operation(stacks, &[*kind, *kind], ValType::I32),
        Plain::Arith(kind, _) => check_operation(stacks, &[*kind, *kind], *kind),
        Plain::Convert(how) => check_operation(stacks, &[how.taken()], how.given()),
        Plain::Nop => Ok(()),
        Plain::CallIndirect(index) => check_call_indirect(scope, stacks, *index),
        Plain::GlobalGet(global) => check_global_get(scope, stacks, *global),
        Plain::GlobalSet(global) => check_global_set(scope, stacks, *global),
        Plain::Load(what, align, _) => check_load(scope, stacks, *what, *align),
        Plain::Store(what, align, _) => check_store(scope, stacks, *what, *align),
        Plain::MemorySize => check_memory_size(scope, stacks),
        Plain::MemoryGrow => check_memory_grow(scope, stacks),
    }
}
