//! The trail of a run: which function runs, in which of its blocks, and from where it was called.

use crate::rest::Rest;

/// Where an instruction leads in the code.
#[derive(Clone, Copy, Debug, PartialEq, Eq)]
pub enum Way {
    /// To the one after it.
    On,
    /// Into what it holds: its second side, or all that it has.
    Into { second: bool },
    /// Into the code of the function with this number.
    Call { func: u32 },
    /// Out of a sequence that is over.
    Out,
    /// Out of so many blocks and one more.
    Branch { depth: u32 },
    /// Out of the function.
    Return,
}

/// What stands round the code that runs.
#[derive(Drop)]
pub enum Level<'a> {
    /// A block that is open: its instruction with those after it, and whether its second side runs.
    Block { at: Rest<'a>, second: bool },
    /// A call out of the function with this number, whose own levels begin behind so many.
    Call { func: u32, base: usize },
}

/// Where a run stands, or stood when it made its last step.
#[derive(Drop)]
pub struct Trail<'a> {
    /// The function that runs.
    pub func: u32,
    /// How many levels stand round its frame.
    pub base: usize,
    /// What stands round the code, from the outside in.
    pub levels: Vec<Level<'a>>,
    /// The instruction that was noted, with those after it.
    pub at: Rest<'a>,
    /// Where it leads.
    pub way: Way,
}

/// Why a run that left a trail stopped before its end.
#[derive(Clone, Copy, Debug, PartialEq, Eq)]
pub enum TraceStop {
    /// The kinds of `RunStop::Trap`. `func` is the number of the function whose instruction trapped, imported ones
    /// first, and `place` counts the instructions before it in the function's code, in the order of their opcodes,
    /// `else` and `end` left out. A run that holds more than it may stands at the instruction that made it so; where
    /// the method's own frame does, at the method's first.
    Trap { kind: u32, func: u32, place: u64 },
    /// The gas that is left isn't enough.
    GasExceeded,
    /// A function of the host failed.
    HostFault { kind: u32 },
    Memory,
}
