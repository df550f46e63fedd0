//! Bytes that nodes hold: a value, or the nibbles of a part.

ghost use Rattle.std.specs.Prelude.{◌≡◌, ◌≤◌, length, IfOk};

use crate::shared_bytes::SharedBytes;
use crate::wide_bytes::WideBytes;
use std::alloc::{AllocError, Global};
use std::marker::Model;
use std::sync::Arc;

// Up to so many bytes take no memory of their own.
const SHORT: usize = 14;

// Bytes that are shared take one piece of memory where they are up to so many,
const FEW: usize = 30;

// or up to so many, and else two.
const WIDE: usize = 94;

#[derive(Drop)]
enum Form {
    Short { count: u8, bytes: [u8; 14] },
    Wide(Arc<WideBytes>),
    Long(Arc<SharedBytes>),
}

/// Bytes that take no memory of their own where they are few, and else share it with their copies.
#[derive(Drop)]
pub(crate) struct NodeBytes {
    form: Form,
}

impl Model for NodeBytes {
    ghost use Rattle.std.specs.Prelude.{List, ℕ};

    ghost Value = { List ℕ };

    ghost use Rattle.nr_trienodes.specs.NodeBytes.{node_bytes_view, AreNodeBytes};

    ghost view = { node_bytes_view };

    ghost invariant = { AreNodeBytes };
}

// Few bytes, in place.
fn short(bytes: &[u8]) -> NodeBytes
    requires { length bytes.now ≤ 14 }
    ensures { result ≡ bytes.now }
{
    let count = bytes.len();
    let mut short = [0; 14];
    for i in 0..count {
        short[i] = bytes[i];
    }
    NodeBytes {
        form: Form::Short {
            count: count as u8,
            bytes: short,
        },
    }
}

impl NodeBytes {
    /// A copy of bytes.
    pub(crate) fn of(alloc: Global, bytes: &[u8]) -> Result<NodeBytes, AllocError>
        ensures { IfOk result (λ copy. copy ≡ bytes.now) }
    {
        if bytes.len() <= SHORT {
            return Ok(short(bytes));
        }
        if bytes.len() > FEW && bytes.len() <= WIDE {
            let wide = Arc::new(alloc, WideBytes::of(bytes))?;
            return Ok(NodeBytes {
                form: Form::Wide(wide),
            });
        }
        let held = SharedBytes::of(alloc, bytes)?;
        let long = Arc::new(alloc, held)?;
        Ok(NodeBytes {
            form: Form::Long(long),
        })
    }

    /// The same bytes.
    pub(crate) fn try_clone(&self) -> Result<NodeBytes, AllocError>
        ensures { IfOk result (λ copy. copy ≡ self.now) }
    {
        match &self.form {
            Form::Short { count, bytes } => Ok(NodeBytes {
                form: Form::Short {
                    count: *count,
                    bytes: *bytes,
                },
            }),
            Form::Wide(bytes) => {
                let other = Arc::try_clone(bytes)?;
                Ok(NodeBytes {
                    form: Form::Wide(other),
                })
            }
            Form::Long(bytes) => {
                let other = Arc::try_clone(bytes)?;
                Ok(NodeBytes {
                    form: Form::Long(other),
                })
            }
        }
    }

    /// The bytes.
    pub(crate) fn as_slice(&self) -> &[u8]
        ensures { result.now ≡ self.now }
    {
        match &self.form {
            Form::Short { count, bytes } => &bytes[..*count as usize],
            Form::Wide(bytes) => bytes.as_slice(),
            Form::Long(bytes) => bytes.as_slice(),
        }
    }
}
