//! How a program ends with an answer.

ghost use Rattle.std.specs.Prelude.{◌≡◌, Some};
ghost use Rattle.nr_module.specs.Exit.{note, told};

use crate::status::Status;
use std::fmt;

impl Status {
    /// The exit status of a program that ends with this answer: 0 `Sound` and `Unfit`, 20 `Faulty`, 1 `Usage`,
    /// 2 `Config`, 5 `ReadFault`, 6 `WriteFault` and 7 `NoMemory`.
    pub fn exit_status(&self) -> u8
        ensures { result ≡ (told self.now).0 }
    {
        match self {
            Status::Sound | Status::Unfit => 0,
            Status::Faulty => 20,
            Status::Usage => 1,
            Status::Config { .. } => 2,
            Status::ReadFault => 5,
            Status::WriteFault => 6,
            Status::NoMemory => 7,
        }
    }
}

/// The line that tells the answer: `make 21` for `Unfit`, the answer of each run of a method of such a module; else
/// the exit status, and the kind and the entry of a configuration's fault, in decimal, parted by single spaces.
impl fmt::Display for Status {
    ghost output = { λ status. Some (note status) };

    fn fmt<W: fmt::Write>(&self, f: &mut fmt::Formatter<W>) -> fmt::Result {
        let number = self.exit_status();
        match self {
            Status::Config { kind, entry } => write!(f, "{number} {kind} {entry}"),
            Status::Unfit => write!(f, "make 21"),
            Status::Sound => write!(f, "{number}"),
            Status::Faulty => write!(f, "{number}"),
            Status::Usage => write!(f, "{number}"),
            Status::ReadFault => write!(f, "{number}"),
            Status::WriteFault => write!(f, "{number}"),
            Status::NoMemory => write!(f, "{number}"),
        }
    }
}
