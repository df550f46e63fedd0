//! The locals of a body.

ghost use Rattle.std.specs.Prelude.{◌≡◌, ◌++◌, [], OnOk, length, replicate, slice_get};

use crate::instr::ValType;
use std::alloc::{AllocError, Global};
use std::marker::Model;

/// Locals of one type: how many there are up to the last of them, and their type.
#[derive(Clone, Copy, Debug)]
struct Run {
    end: u32,
    kind: ValType,
}

/// The types of a body's locals, as runs of one type. Contracts see the type of each.
#[derive(Debug, Drop)]
pub struct Locals {
    runs: Vec<Run>,
    count: u32,
}

impl Model for Locals {
    ghost use Rattle.std.specs.Prelude.{List};
    ghost use Rattle.nr_wasmtypes.specs.declared.instr.ValType.{ValType as Kind};
    ghost use Rattle.nr_wasmtypes.specs.Runs.{spread, Reaches};

    ghost Value = { List Kind };

    ghost view = { λ l. spread 0 l.runs.items };

    ghost invariant = { λ l. Reaches 0 l.runs.items l.count };
}

impl Locals {
    /// No locals.
    pub fn new(alloc: Global) -> Locals
        ensures { result ≡ [] }
    {
        Locals {
            runs: Vec::new(alloc),
            count: 0,
        }
    }

    /// Adds so many locals of one type.
    ///
    /// # Errors
    ///
    /// Where memory ran out, or the locals are 2^32 or more.
    pub fn add(&mut self, count: u32, kind: ValType) -> Result<(), AllocError>
        ensures { OnOk result (self.new ≡ self.old ++ replicate count kind) }
    {
        let Some(end) = self.count.checked_add(count) else {
            return Err(AllocError);
        };
        self.runs.push(Run { end, kind })?;
        self.count = end;
        Ok(())
    }

    /// How many there are.
    pub fn len(&self) -> usize
        ensures { result ≡ length self.now }
    {
        self.count as usize
    }

    /// The type of the local with this number.
    #[inline]
    pub fn get(&self, number: usize) -> Option<ValType>
        ensures { result ≡ slice_get self.now number }
    {
        let place = self.runs.partition_point(|run| run.end as usize <= number);
        if place < self.runs.len() {
            return Some(self.runs[place].kind);
        }
        None
    }
}
