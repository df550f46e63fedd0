//! What files are read from: the trait, and why a load fails.

ghost use Rattle.std.specs.Prelude.{◌≡◌, ◌≤◌};
ghost use Rattle.nr_bytes.specs.Outside.{Loads, Asks, Fails};

use std::alloc::Global;

/// Why nothing was loaded.
#[derive(Clone, Copy, Debug, PartialEq, Eq)]
pub enum LoadFault {
    /// The shelf has no such bytes or could not read them; its count of faults rose.
    Failed,
    /// More bytes stand under the name than were wanted.
    TooLong,
    /// Memory ran out.
    Memory,
}

/// Named bytes that a program reads.
pub trait Shelf {
    ghost use Rattle.std.specs.Prelude.{ℕ, List, Option};

    /// The bytes under a name, where it tells them.
    ghost held: { Self → List ℕ → Option (List ℕ) };

    /// How often it failed, from 0 to 2^64 - 1, where it stays.
    ghost faults: { Self → ℕ };

    /// The names that it was asked for, in order.
    ghost asked: { Self → List (List ℕ) };

    /// Appends the bytes under a name to `out`, at most `limit` bytes. After a refusal `out` is as before.
    /// The name is noted as asked for, unless the answer is `Memory`, after which the shelf is as before too.
    ///
    /// # Errors
    ///
    /// `Failed` only where the count of faults rose; `TooLong`, where the shelf tells its bytes, only where more
    /// than `limit` bytes stand under the name; `Memory` where memory ran out.
    fn load(
        &mut self,
        alloc: Global,
        name: &str,
        limit: usize,
        out: &mut Vec<u8>,
    ) -> Result<(), LoadFault>
        ensures loads { Loads result (held self.old name.now) limit out.old.items out.new.items }
        ensures failed { Fails result (faults self.old) (faults self.new) }
        ensures asks { Asks result (asked self.old) (asked self.new) name.now }
        ensures held { (other : List ℕ) → held self.new other ≡ held self.old other }
        ensures rises { faults self.old ≤ faults self.new };
}
