//! How a program ends with an answer.

ghost use Rattle.std.specs.Prelude.{◌≡◌, Some};
ghost use Rattle.nr_top.specs.Exit.{status_line, told};

use crate::status::Status;
use std::fmt;

impl Status {
    /// The exit status of a program that ends with this answer: 0 `Done`, 1 `Usage`, 2 `Config`,
    /// 3 `Genesis`, 4 `Blocks`, 5 `ReadFault`, 6 `WriteFault`, 7 `NoMemory`, 8 `Schedule`, 10 `Proof`,
    /// 11 `NoItem`, 12 `Gathered` and 13 `Parts`.
    pub fn exit_status(&self) -> u8
        ensures { result ≡ (told self.now).0 }
    {
        match self {
            Status::Done => 0,
            Status::Usage => 1,
            Status::Config { .. } => 2,
            Status::Genesis { .. } => 3,
            Status::Blocks { .. } => 4,
            Status::ReadFault => 5,
            Status::WriteFault => 6,
            Status::NoMemory => 7,
            Status::Schedule { .. } => 8,
            Status::Proof { .. } => 10,
            Status::NoItem { .. } => 11,
            Status::Gathered { .. } => 12,
            Status::Parts { .. } => 13,
        }
    }
}

/// The line that tells the answer: the exit status and then its numbers, in decimal, parted by single
/// spaces.
impl fmt::Display for Status {
    ghost output = { λ status. Some (status_line status) };

    fn fmt<W: fmt::Write>(&self, f: &mut fmt::Formatter<W>) -> fmt::Result {
        let number = self.exit_status();
        match self {
            Status::Config { kind, entry } => write!(f, "{number} {kind} {entry}"),
            Status::Genesis { kind, a, b, c } => write!(f, "{number} {kind} {a} {b} {c}"),
            Status::Blocks { kind, a } => write!(f, "{number} {kind} {a}"),
            Status::Schedule { kind, line } => write!(f, "{number} {kind} {line}"),
            Status::Proof { kind, line } => write!(f, "{number} {kind} {line}"),
            Status::NoItem { count } => write!(f, "{number} {count}"),
            Status::Gathered { kind, a } => write!(f, "{number} {kind} {a}"),
            Status::Parts { kind, a } => write!(f, "{number} {kind} {a}"),
            Status::Done => write!(f, "{number}"),
            Status::Usage => write!(f, "{number}"),
            Status::ReadFault => write!(f, "{number}"),
            Status::WriteFault => write!(f, "{number}"),
            Status::NoMemory => write!(f, "{number}"),
        }
    }
}
