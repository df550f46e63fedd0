//! What stands round a sequence of instructions.

ghost use Rattle.std.specs.Prelude.{◌≡◌, ◌+◌, ◌-◌, ◌≤◌, [], ◌∷◌, ◌++◌, drop, take, reverse, replicate, length, OnOk};
ghost use Rattle.std.specs.Prelude.{OnErr};
ghost use Rattle.nr_wasmexec.specs.Thread.{PopsControl, PopsLabel};

use nr_wasmtypes::Instr;
use std::alloc::AllocError;

/// What stands round a sequence of instructions.
#[derive(Clone, Copy)]
pub enum Control<'a> {
    /// A block: where the operands of the sequence round it begin, how many operands a branch to it
    /// keeps, whether it begins again then, and its instruction with those after it.
    Label {
        height: usize,
        arity: usize,
        again: bool,
        at: &'a [Instr],
    },
    /// A function's frame: the same, and where the locals of the calling frame begin.
    Frame {
        height: usize,
        base: usize,
        arity: usize,
        at: &'a [Instr],
    },
}

/// Takes the innermost one.
#[inline(always)]
pub fn pop_control<'a>(controls: &mut Vec<Control<'a>>) -> Option<Control<'a>>
    ensures { PopsControl result (reverse controls.old.items) (reverse controls.new.items) }
{
    controls.pop()
}

/// Takes the innermost one where it is a label, and answers its height.
#[inline(always)]
pub fn pop_label(controls: &mut Vec<Control>) -> Option<usize>
    ensures { PopsLabel result (reverse controls.old.items) (reverse controls.new.items) }
{
    match controls.last() {
        Some(Control::Label { height, .. }) => {
            let height = *height;
            controls.pop();
            Some(height)
        }
        _ => None,
    }
}

/// Moves the topmost values down to a place.
#[inline]
pub fn keep_top(values: &mut Vec<u64>, to: usize, count: usize)
    requires { to + count ≤ length values.old.items }
    ensures { values.new.items ≡ take to values.old.items ++ drop (length values.old.items - count) values.old.items }
{
    let from = values.len() - count;
    values.copy_within(from.., to);
    values.truncate(to + count);
}

/// Adds a frame's locals: the arguments, and so many zeros.
///
/// # Errors
///
/// Where memory ran out. The locals are then no fewer than before.
pub fn add_locals(locals: &mut Vec<u64>, args: &[u64], more: usize) -> Result<(), AllocError>
    ensures ok { OnOk result (locals.new.items ≡ locals.old.items ++ (args.now ++ replicate more 0)) }
    ensures err { OnErr result (length locals.old.items ≤ length locals.new.items) }
{
    locals.extend_from_slice(args)?;
    for _k in 0..more {
        locals.push(0)?;
    }
    Ok(())
}

/// Adds a frame: its locals, and what stands round it.
///
/// # Errors
///
/// Where memory ran out. The locals are then no fewer than before, and what stands round them is as it was.
pub fn add_frame<'a>(
    locals: &mut Vec<u64>,
    controls: &mut Vec<Control<'a>>,
    args: &[u64],
    more: usize,
    control: Control<'a>,
) -> Result<(), AllocError>
    ensures locals { OnOk result (locals.new.items ≡ locals.old.items ++ (args.now ++ replicate more 0)) }
    ensures control { OnOk result (controls.new.items ≡ controls.old.items ++ control.entry ∷ []) }
    ensures longer { OnErr result (length locals.old.items ≤ length locals.new.items) }
    ensures same { OnErr result (controls.new.items ≡ controls.old.items) }
{
    add_locals(locals, args, more)?;
    controls.push(control)?;
    Ok(())
}
