//! Boxes of rows that no node needs any more, for other nodes.

ghost use Rattle.std.specs.Prelude.{◌≡◌, IfOk, box_value};

use crate::body::Body;
use crate::packed::Packed;
use std::alloc::{AllocError, Global};

/// Boxes of rows, whatever stands in them.
#[derive(Drop)]
pub(crate) struct Spare {
    boxes: Vec<Box<Packed>>,
}

impl Spare {
    /// None. It takes no memory.
    pub(crate) fn new(alloc: Global) -> Spare {
        Spare {
            boxes: Vec::new(alloc),
        }
    }

    /// A row in a box.
    pub(crate) fn boxed(&mut self, alloc: Global, row: Packed) -> Result<Box<Packed>, AllocError>
        ensures { IfOk result (λ held. box_value held ≡ row) }
    {
        match self.boxes.pop() {
            None => {
                let made = Box::new(alloc, row)?;
                Ok(made)
            }
            Some(mut held) => {
                *held = row;
                Ok(held)
            }
        }
    }

    /// Keeps the box of a node's row, where fewer are held than this.
    pub(crate) fn keep(&mut self, body: Body, most: usize) {
        if self.boxes.len() >= most {
            return;
        }
        if let Body::Children(row) = body {
            let _ = self.boxes.push(row);
        }
    }
}
