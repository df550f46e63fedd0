//! What is said of a module's bytes, and whether that is well.

use nr_wasmbin::DecodeFault;
use nr_wasmvalid::ValidFault;

/// What is answered for a valid module.
#[derive(Clone, Copy, Debug)]
pub(crate) enum Answer {
    /// It was checked, and a machine of it can be made.
    Good,
    /// It was checked, and no machine of it can be made: an element or a segment doesn't fit.
    Unfit,
    /// The run of a method came to its end, and burnt so much gas.
    Ended {
        burnt: u128,
    },
    /// The run stopped at a trap.
    Trapped {
        kind: u32,
        burnt: u128,
    },
    /// The same, at the instruction of the function with this number whose opcode has this place in the file.
    TrappedAt {
        kind: u32,
        burnt: u128,
        func: u32,
        at: usize,
    },
    /// The run stopped at a fault of the host.
    Failed {
        kind: u32,
        burnt: u128,
    },
    /// The run stopped because no gas was left for the next instruction.
    OutOfGas {
        burnt: u128,
    },
    /// There is such a method, but no machine could be made: an element or a segment doesn't fit.
    Unmade,
    /// The module has no such method.
    NoMethod,
}

/// What the bytes of a file are.
#[derive(Clone, Copy, Debug)]
pub(crate) enum Verdict {
    /// A module that decodes and is valid, with the answer of what was done with it.
    Done(Answer),
    /// No module, by its first fault.
    Undecoded(DecodeFault),
    /// A module that isn't valid, by its first breach.
    Invalid(ValidFault),
}

/// How well it is what a line tells.
#[derive(Clone, Copy, Debug)]
pub(crate) enum Rating {
    /// A valid module of which a machine can be made, a run that came to its end, or a text.
    Sound,
    /// A valid module of which no machine can be made.
    Unfit,
    /// Anything else.
    Faulty,
}
