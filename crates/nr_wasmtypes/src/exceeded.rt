//! The refusal of gas.

/// The refusal of a burn or a promise of gas: it would take the burnt and the promised gas of a
/// call together above the limit of that call.
#[derive(Clone, Copy, Debug, PartialEq, Eq)]
pub struct Exceeded;
