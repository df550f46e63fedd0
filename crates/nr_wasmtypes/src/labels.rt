//! The labels of `br_table`.

ghost use Rattle.std.specs.Prelude.{◌≡◌, IfOk};

use nr_bytes::List;
use std::alloc::{AllocError, Global};
use std::marker::Model;

/// The labels of a branch by a table, and the label for every other number. Contracts see the pair
/// of both.
#[derive(Debug, Drop)]
pub struct Labels {
    inner: Box<(List<u32>, u32)>,
}

impl Model for Labels {
    ghost use Rattle.std.specs.Prelude.{List as Items, ℕ};

    ghost Value = { Items ℕ × ℕ };

    ghost view = { λ l. l.inner.value };
}

impl Labels {
    /// These labels, and the one for every other number.
    ///
    /// # Errors
    ///
    /// Where memory ran out.
    pub fn of(alloc: Global, labels: List<u32>, other: u32) -> Result<Labels, AllocError>
        ensures { IfOk result (λ l. l ≡ (labels, other)) }
    {
        let inner = Box::new(alloc, (labels, other))?;
        Ok(Labels { inner })
    }

    /// The labels.
    pub fn labels(&self) -> &[u32]
        ensures { result.now ≡ self.now.0 }
    {
        self.inner.0.inner()
    }

    /// The label for every other number.
    pub fn other(&self) -> u32
        ensures { result ≡ self.now.1 }
    {
        self.inner.1
    }
}
