//! How a program ends with an answer.

ghost use Rattle.std.specs.Prelude.{◌≡◌, Some};
ghost use Rattle.nr_shell.specs.Exit.{told_line};
ghost use Rattle.nr_audit.specs.Exit.{told};

use crate::status::Status;
use std::fmt;

impl Status {
    /// The exit status of a program that ends with this answer: 0 `Done`, 1 `Usage`, 2 `Config`, 3 `Genesis`,
    /// 4 `Blocks`, 5 `ReadFault`, 6 `WriteFault` and 7 `NoMemory`.
    pub fn exit_status(&self) -> u8
        ensures { result ≡ (told self.now).0 }
    {
        match self {
            Status::Done => 0,
            Status::Usage => 1,
            Status::Config { .. } => 2,
            Status::Genesis { .. } => 3,
            Status::Blocks { .. } => 4,
            Status::ReadFault => 5,
            Status::WriteFault => 6,
            Status::NoMemory => 7,
        }
    }
}

/// The line that tells the answer: the exit status and then its numbers, in decimal, parted by single spaces.
impl fmt::Display for Status {
    ghost output = { λ status. Some (told_line (told status)) };

    fn fmt<W: fmt::Write>(&self, f: &mut fmt::Formatter<W>) -> fmt::Result {
        let number = self.exit_status();
        match self {
            Status::Config { kind, entry } => write!(f, "{number} {kind} {entry}"),
            Status::Genesis { kind, a, b, c } => write!(f, "{number} {kind} {a} {b} {c}"),
            Status::Blocks { kind, a } => write!(f, "{number} {kind} {a}"),
            Status::Done => write!(f, "{number}"),
            Status::Usage => write!(f, "{number}"),
            Status::ReadFault => write!(f, "{number}"),
            Status::WriteFault => write!(f, "{number}"),
            Status::NoMemory => write!(f, "{number}"),
        }
    }
}
