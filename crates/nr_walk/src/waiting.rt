//! Nodes that wait to be looked at.

ghost use Rattle.std.specs.Prelude.{◌≡◌, ◌∷◌, ◌++◌, [], reverse, IfOk, OnOk, MatchOption};

use crate::told::Spot;
use nr_bytes::List;
use std::alloc::{AllocError, Global};
use std::marker::Model;

/// Nodes that wait to be looked at. Contracts see the next one first.
#[derive(Drop)]
pub struct Waiting {
    spots: Vec<Spot>,
}

impl Model for Waiting {
    ghost use Rattle.std.specs.Prelude.{List, reverse};
    ghost use Rattle.nr_walk.specs.declared.told.Spot.{Spot};

    ghost Value = { List Spot };

    ghost view = { λ w. reverse w.spots.items };
}

// Puts these behind the others, the last one first.
fn push_spots(spots: &mut Vec<Spot>, next: List<Spot>) -> Result<(), AllocError>
    ensures { OnOk result (spots.new.items ≡ spots.old.items ++ reverse next) }
{
    let mut left = next.into_inner();
    while let Some(spot) = left.pop() {
        spots.push(spot)?;
    }
    Ok(())
}

impl Waiting {
    /// None that wait.
    pub fn new(alloc: Global) -> Waiting
        ensures { result ≡ [] }
    {
        Waiting {
            spots: Vec::new(alloc),
        }
    }

    /// One that waits.
    ///
    /// # Errors
    ///
    /// Where memory ran out.
    pub fn of(alloc: Global, spot: Spot) -> Result<Waiting, AllocError>
        ensures { IfOk result (λ waiting. waiting ≡ spot ∷ []) }
    {
        let mut spots = Vec::new(alloc);
        spots.push(spot)?;
        Ok(Waiting { spots })
    }

    /// Puts these before the others.
    ///
    /// # Errors
    ///
    /// Where memory ran out.
    pub fn put(&mut self, next: List<Spot>) -> Result<(), AllocError>
        ensures { OnOk result (self.new ≡ next ++ self.old) }
    {
        push_spots(&mut self.spots, next)
    }

    /// Takes the next one.
    pub fn pop(&mut self) -> Option<Spot>
        ensures { MatchOption result (self.old ≡ []) (λ spot. self.old ≡ spot ∷ self.new) }
    {
        self.spots.pop()
    }
}
