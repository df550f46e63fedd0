//! Why an access or a call of the host fails.

/// A range of bytes isn't inside a memory.
#[derive(Clone, Copy, Debug, PartialEq, Eq)]
pub struct OutOfBounds;

/// Why a call of a host stops its guest: no gas is left, the call has a fault of this number, or memory ran
/// out.
#[derive(Clone, Copy, Debug, PartialEq, Eq)]
pub enum HostStop {
    Gas,
    Fault { kind: u32 },
    Memory,
}
