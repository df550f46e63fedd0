//! The gas counter: gas burnt and promised, within a limit.

ghost use Rattle.std.specs.Prelude.{◌≡◌, ◌+◌, ◌-◌, ◌≤◌, SomeIff};

use nr_wasmtypes::Exceeded;

/// A count of gas: what was burnt and what was promised to other receipts, together within a limit.
#[derive(Clone, Copy, Debug, PartialEq, Eq)]
pub struct GasCounter {
    /// The gas that is spent.
    pub burnt: u64,
    /// The gas that goes with other receipts.
    pub promised: u64,
    /// What burnt and promised gas are together at most.
    pub limit: u64,
    pub ghost in_limit: { burnt + promised ≤ limit },
}

impl GasCounter {
    ghost use Rattle.nr_fees.specs.Gas.{HasRoom, Burns, Promises};

    /// A counter that has counted nothing.
    pub fn new(limit: u64) -> GasCounter
        ensures burnt { result.burnt ≡ 0 }
        ensures promised { result.promised ≡ 0 }
        ensures limit { result.limit ≡ limit }
    {
        GasCounter {
            burnt: 0,
            promised: 0,
            limit,
        }
    }

    /// The gas, where there is room for it.
    fn room_for(&self, n: u128) -> Option<u64>
        ensures { SomeIff result (HasRoom self.now n) n }
    {
        let left = self.limit - self.burnt - self.promised;
        if n <= u128::from(left) {
            Some(n as u64)
        } else {
            None
        }
    }

    /// Burns all gas that isn't promised.
    fn exceed(&mut self) -> Exceeded
        ensures burnt { self.new.burnt ≡ self.old.limit - self.old.promised }
        ensures promised { self.new.promised ≡ self.old.promised }
        ensures limit { self.new.limit ≡ self.old.limit }
    {
        self.burnt = self.limit - self.promised;
        Exceeded
    }

    /// Burns `n` gas.
    ///
    /// # Errors
    ///
    /// `Exceeded` exactly where burnt gas, promised gas and `n` together pass the limit. Then all
    /// gas that isn't promised is burnt: `burnt` becomes `limit - promised`.
    pub fn burn(&mut self, n: u128) -> Result<(), Exceeded>
        ensures { Burns result self.old self.new n }
    {
        match self.room_for(n) {
            Some(gas) => {
                self.burnt += gas;
                Ok(())
            }
            None => Err(self.exceed()),
        }
    }

    /// Promises `n` gas.
    ///
    /// # Errors
    ///
    /// `Exceeded` exactly where burnt gas, promised gas and `n` together pass the limit. Then all
    /// gas that isn't promised is burnt: `burnt` becomes `limit - promised`.
    pub fn promise(&mut self, n: u128) -> Result<(), Exceeded>
        ensures { Promises result self.old self.new n }
    {
        match self.room_for(n) {
            Some(gas) => {
                self.promised += gas;
                Ok(())
            }
            None => Err(self.exceed()),
        }
    }
}
