//! An open block of the validation algorithm.

use nr_wasmtypes::ValType;

/// An open block: what a branch to it takes, how many operands stood before it, and whether any may
/// stand below its own.
#[derive(Clone, Copy, Debug)]
pub(crate) struct Frame {
    pub(crate) label: Option<ValType>,
    pub(crate) height: usize,
    pub(crate) any_below: bool,
}
