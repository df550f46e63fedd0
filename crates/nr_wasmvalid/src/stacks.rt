//! The operand stack and the control stack of the validation algorithm.

ghost use Rattle.std.specs.Prelude.{◌≡◌, ◌≢◌, [], ◌∷◌, OnOk, None, length, slice_get, reverse};
ghost use Rattle.std.specs.Prelude.{true};
ghost use Rattle.nr_wasmvalid.specs.Rules.{types, Types?, Take, Give, TakeAny, Alike, Empty, Leave};
ghost use Rattle.nr_wasmvalid.specs.Shapes.{asked, fresh, top, take_one, take_all, give_all, alike, on_top};
ghost use Rattle.nr_wasmvalid.specs.Shapes.{can_be, both};
ghost use Rattle.nr_wasmvalid.specs.Frames.{SameAround, Passes, Leaves, entered};

use crate::frame::Frame;
use crate::refusal::Refusal;
use nr_wasmtypes::ValType;
use std::alloc::{AllocError, Global};
use std::marker::Model;

/// The operand stack and the control stack of WebAssembly's validation algorithm. Contracts see the
/// operands of each open block, the innermost first.
#[derive(Drop)]
pub(crate) struct Stacks {
    operands: Vec<Option<ValType>>,
    frame: Frame,
    around: Vec<Frame>,
}

impl Model for Stacks {
    ghost use Rattle.std.specs.Prelude.{◌≤◌, length, reverse};
    ghost use Rattle.nr_wasmvalid.specs.Frames.{Frames, frames_of, IsNested};

    ghost Value = { Frames };

    ghost view = { λ a. frames_of a.operands.items a.frame (reverse a.around.items) };

    ghost invariant = { λ a. (a.frame.height ≤ length a.operands.items)
        × IsNested (reverse a.around.items) a.frame.height };
}

impl Stacks {
    /// One open block and no operands.
    pub(crate) fn new(alloc: Global, label: Option<ValType>) -> Stacks
        ensures { result ≡ record { shape = fresh; labels = label ∷ []; outer = [] } }
    {
        Stacks {
            operands: Vec::new(alloc),
            frame: Frame {
                label,
                height: 0,
                any_below: false,
            },
            around: Vec::new(alloc),
        }
    }

    /// One open block and no operands, in the memory that is there.
    #[inline]
    pub(crate) fn restart(&mut self, label: Option<ValType>)
        ensures { self.new ≡ record { shape = fresh; labels = label ∷ []; outer = [] } }
    {
        self.operands.clear();
        self.around.clear();
        self.frame = Frame {
            label,
            height: 0,
            any_below: false,
        };
    }

    /// An operand on top.
    #[inline(always)]
    fn push(&mut self, operand: Option<ValType>) -> Result<(), AllocError>
        ensures shape { OnOk result (self.new.shape ≡ on_top operand self.old.shape) }
        ensures around { OnOk result (SameAround self.old self.new) }
    {
        self.operands.push(operand)?;
        Ok(())
    }

    /// The topmost operand, of any type.
    #[inline(always)]
    fn pop(&mut self) -> Result<Option<ValType>, Refusal>
        ensures passes { Passes result self.new (top self.old.shape) }
        ensures around { OnOk result (SameAround self.old self.new) }
    {
        if self.operands.len() == self.frame.height {
            if self.frame.any_below {
                return Ok(None);
            }
            return Err(Refusal::Types);
        }
        Ok(self.operands.pop().unwrap())
    }

    /// No operand is left in this block, and any may stand below: whatever is taken, nothing changes.
    #[inline(always)]
    #[tactic(auto, using(crate::proofs::OnStacks::nothing_at))]
    fn gives_any(&self) -> bool
        ensures { result ≡ true → self.now.shape ≡ record { known = []; any_below = true } }
    {
        self.operands.len() == self.frame.height && self.frame.any_below
    }

    /// A block inside.
    #[inline]
    pub(crate) fn enter(&mut self, label: Option<ValType>) -> Result<(), AllocError>
        ensures { OnOk result (self.new ≡ entered label self.old) }
    {
        self.around.push(self.frame)?;
        self.frame = Frame {
            label,
            height: self.operands.len(),
            any_below: false,
        };
        Ok(())
    }

    /// The topmost operand, which can have this type.
    #[inline(always)]
    #[tactic(auto, unfolding(crate::specs::Shapes::take_one))]
    fn take_one(&mut self, wanted: ValType) -> Result<(), Refusal>
        ensures leaves { Leaves result self.new (take_one wanted self.old.shape) }
        ensures around { OnOk result (SameAround self.old self.new) }
    {
        let operand = self.pop()?;
        if !can_be(wanted, operand) {
            return Err(Refusal::Types);
        }
        Ok(())
    }

    /// Operands that can have these types, the first of which stands on top.
    #[inline(always)]
    #[tactic(auto, using(crate::proofs::OnShapes::takes_on, crate::proofs::OnShapes::takes_stop, crate::proofs::OnShapes::takes_end))]
    pub(crate) fn take(&mut self, wanted: &[ValType]) -> Result<(), Refusal>
        ensures leaves { Leaves result self.new (asked (Take wanted.now) self.old.shape) }
        ensures around { OnOk result (SameAround self.old self.new) }
    {
        for one in wanted {
            self.take_one(*one)?;
        }
        Ok(())
    }

    /// The same, where the last one stands on top.
    #[inline]
    #[tactic(auto, using(crate::proofs::OnShapes::takes_back, crate::proofs::OnShapes::takes_back_stop, crate::proofs::OnShapes::takes_back_end), unfolding(crate::specs::Shapes::take_all))]
    pub(crate) fn take_last_first(&mut self, wanted: &[ValType]) -> Result<(), Refusal>
        ensures leaves { Leaves result self.new (asked (Take (reverse wanted.now)) self.old.shape) }
        ensures around { OnOk result (SameAround self.old self.new) }
    {
        let mut left = wanted.len();
        while left > 0 && !self.gives_any() {
            left -= 1;
            self.take_one(wanted[left])?;
        }
        Ok(())
    }

    /// No operand, or one that can have this type.
    #[inline(always)]
    #[tactic(auto, unfolding(crate::specs::Shapes::take_all))]
    pub(crate) fn take_some(&mut self, wanted: Option<ValType>) -> Result<(), Refusal>
        ensures leaves { Leaves result self.new (asked (Take (types wanted)) self.old.shape) }
        ensures around { OnOk result (SameAround self.old self.new) }
    {
        if let Some(one) = wanted {
            self.take_one(one)?;
        }
        Ok(())
    }

    /// An operand of any type.
    #[inline(always)]
    pub(crate) fn take_any(&mut self) -> Result<(), Refusal>
        ensures leaves { Leaves result self.new (asked TakeAny self.old.shape) }
        ensures around { OnOk result (SameAround self.old self.new) }
    {
        let _ = self.pop()?;
        Ok(())
    }

    /// An operand of this type.
    #[inline(always)]
    #[tactic(auto, unfolding(crate::specs::Shapes::give_all))]
    pub(crate) fn give(&mut self, given: ValType) -> Result<(), Refusal>
        ensures leaves { Leaves result self.new (asked (Give (given ∷ [])) self.old.shape) }
        ensures around { OnOk result (SameAround self.old self.new) }
    {
        self.push(Some(given))?;
        Ok(())
    }

    /// No operand, or one of this type.
    #[inline(always)]
    #[tactic(auto, unfolding(crate::specs::Shapes::give_all))]
    pub(crate) fn give_some(&mut self, given: Option<ValType>) -> Result<(), Refusal>
        ensures leaves { Leaves result self.new (asked (Give (types given)) self.old.shape) }
        ensures around { OnOk result (SameAround self.old self.new) }
    {
        if let Some(one) = given {
            self.push(Some(one))?;
        }
        Ok(())
    }

    /// Two operands of one type, of which one stays.
    #[inline]
    #[tactic(auto, unfolding(crate::specs::Shapes::alike))]
    pub(crate) fn alike(&mut self) -> Result<(), Refusal>
        ensures leaves { Leaves result self.new (asked Alike self.old.shape) }
        ensures around { OnOk result (SameAround self.old self.new) }
    {
        let one = self.pop()?;
        let other = self.pop()?;
        let operand = both_of(one, other)?;
        self.push(operand)?;
        Ok(())
    }

    /// No operand is left in this block.
    #[inline]
    pub(crate) fn empty(&self) -> Result<(), Refusal>
        ensures { Leaves result (record self.now { shape = fresh }) (asked Empty self.now.shape) }
    {
        if self.operands.len() == self.frame.height {
            Ok(())
        } else {
            Err(Refusal::Types)
        }
    }

    /// What stands behind is never reached.
    #[inline]
    pub(crate) fn never_reached(&mut self)
        ensures leaves { Leaves (Ok tt) self.new (asked Leave self.old.shape) }
        ensures around { SameAround self.old self.new }
    {
        self.operands.truncate(self.frame.height);
        self.frame.any_below = true;
    }

    /// What a branch out of so many blocks takes.
    #[inline]
    pub(crate) fn label(&self, depth: u32) -> Option<Option<ValType>>
        ensures { result ≡ slice_get self.now.labels depth }
    {
        let depth = depth as usize;
        if depth == 0 {
            return Some(self.frame.label);
        }
        if depth > self.around.len() {
            return None;
        }
        Some(self.around[self.around.len() - depth].label)
    }

    /// Back to the block around. The block that is left has no operands.
    #[inline]
    pub(crate) fn leave(&mut self)
        requires around { self.old.outer ≢ [] }
        requires empty { self.old.shape.known ≡ [] }
        ensures shape { self.new.shape ∷ self.new.outer ≡ self.old.outer }
        ensures labels { (label : Types?) × (self.old.labels ≡ label ∷ self.new.labels) }
    {
        self.frame = self.around.pop().unwrap();
    }
}

#[inline(always)]
fn can_be(wanted: ValType, operand: Option<ValType>) -> bool
    ensures { result ≡ can_be wanted operand }
{
    match operand {
        None => true,
        Some(known) => known == wanted,
    }
}

/// The one type of two operands.
#[inline]
fn both_of(one: Option<ValType>, other: Option<ValType>) -> Result<Option<ValType>, Refusal>
    ensures { result ≡ both one other }
{
    match one {
        None => Ok(other),
        Some(known) => {
            if can_be(known, other) {
                Ok(one)
            } else {
                Err(Refusal::Types)
            }
        }
    }
}
