//! Where a shard stands: heights published, stage, lists taken.

ghost use Rattle.std.specs.Prelude.{◌≡◌};
ghost use Rattle.nr_overlap.specs.Positions.{stage_number};

/// How far a shard is with the chunk after the heights that it has published.
#[derive(Clone, Copy, Debug, PartialEq, Eq)]
pub enum Stage {
    /// It is not begun, or there is none.
    Idle,
    /// It is open, and takes lists.
    Opened,
    /// It is sealed, and not yet published.
    Sealed,
}

impl Stage {
    /// The stage as a number: 0 idle, 1 opened, 2 sealed.
    pub fn number(self) -> u32
        ensures { result ≡ stage_number self }
    {
        match self {
            Stage::Idle => 0,
            Stage::Opened => 1,
            Stage::Sealed => 2,
        }
    }
}

/// Where a shard stands.
#[derive(Clone, Copy, Debug)]
pub struct Position {
    /// How many heights it has published.
    pub number: u64,
    /// Where it stands in its next chunk.
    pub stage: Stage,
    /// How many of the lists that are due to its open chunk it has taken, and else 0.
    pub taken: usize,
}
