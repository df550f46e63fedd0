//! The children of a node, four bytes each.

ghost use Rattle.std.specs.Prelude.{◌≡◌, ◌<◌, ℕ, Some, length, slice_set};
ghost use Rattle.nr_trienodes.specs.Shape.{child, no_children};
ghost use Rattle.nr_trienodes.specs.Packing.{child_of, none_number, IsPackable};

use std::marker::Model;

/// The children of a node, by their nibbles.
pub(crate) type Row = [Option<u32>; 16];

// The number that means no child.
const NONE: u32 = u32::MAX;

/// A row that takes four bytes for each child, whether it is there or not.
#[derive(Drop)]
pub(crate) struct Packed {
    numbers: [u32; 16],
}

impl Model for Packed {
    ghost use Rattle.std.specs.Prelude.{List, Option, ℕ};

    ghost Value = { List (Option ℕ) };

    ghost use Rattle.nr_trienodes.specs.Packing.{packed_view};

    ghost view = { packed_view };
}

fn number_of(child: Option<u32>) -> u32
    requires { (c : ℕ) → child ≡ Some c → c < none_number }
    ensures { child_of result ≡ child }
{
    match child {
        None => NONE,
        Some(id) => id,
    }
}

fn child_of(number: u32) -> Option<u32>
    ensures { result ≡ child_of number }
{
    if number == NONE {
        return None;
    }
    Some(number)
}

impl Packed {
    /// A row without children.
    pub(crate) fn none() -> Packed
        ensures { result ≡ no_children }
    {
        Packed {
            numbers: [NONE; 16],
        }
    }

    /// A row, packed.
    pub(crate) fn of(row: &Row) -> Packed
        requires { IsPackable row.now }
        ensures { result ≡ row.now }
    {
        let mut numbers = [NONE; 16];
        for x in 0..16 {
            numbers[x] = number_of(row[x]);
        }
        Packed { numbers }
    }

    /// The row.
    pub(crate) fn row(&self) -> Row
        ensures { result ≡ self.now }
    {
        let mut row = [None; 16];
        for x in 0..16 {
            row[x] = child_of(self.numbers[x]);
        }
        row
    }

    /// Puts a child at a nibble, or none.
    pub(crate) fn set(&mut self, nibble: u8, child: Option<u32>)
        requires nibble { nibble < 16 }
        requires child { (c : ℕ) → child ≡ Some c → c < none_number }
        ensures { self.new ≡ slice_set self.old nibble child }
    {
        self.numbers[nibble as usize] = number_of(child);
    }

    /// The row with another child.
    pub(crate) fn with(&self, nibble: u8, child: u32) -> Packed
        requires nibble { nibble < 16 }
        requires child { child < none_number }
        ensures { result ≡ slice_set self.now nibble (Some child) }
    {
        let mut numbers = self.numbers;
        numbers[nibble as usize] = child;
        Packed { numbers }
    }

    /// The child of a nibble.
    pub(crate) fn at(&self, nibble: u8) -> Option<u32>
        requires { nibble < 16 }
        ensures child { result ≡ child self.now nibble }
        ensures sixteen { length self.now ≡ 16 }
    {
        child_of(self.numbers[nibble as usize])
    }
}
