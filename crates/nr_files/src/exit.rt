//! How a program ends with an answer.

ghost use Rattle.std.specs.Prelude.{◌≡◌, Some};
ghost use Rattle.nr_files.specs.Exit.{exit_status, status_line};

use crate::help::help_text;
use crate::status::Status;
use std::fmt;

impl Status {
    /// The exit status of a program that ends with this answer: 0 `Done`, 1 `Usage`, 2 `Config`,
    /// 5 `ReadFault`, 6 `WriteFault`, 7 `NoMemory`, 20 `TooLong` and `Faulty`, 21 `NoSentence`.
    pub fn exit_status(&self) -> u8
        ensures { result ≡ exit_status self.now }
    {
        match self {
            Status::Done => 0,
            Status::Usage => 1,
            Status::NoSentence => 21,
            Status::Config { .. } => 2,
            Status::ReadFault { .. } => 5,
            Status::WriteFault => 6,
            Status::NoMemory => 7,
            Status::TooLong => 20,
            Status::Faulty { .. } => 20,
        }
    }
}

/// What tells the answer: the words of all commands, for words that are none; why a file is refused or that it can't be
/// read, in words, or that there is no sentence for the words to be explained; otherwise the exit status, and the kind
/// and the entry of a configuration's fault, in decimal, parted by single spaces. The last line feed is left out.
impl fmt::Display for Status {
    ghost output = { λ status. Some (status_line status) };

    fn fmt<W: fmt::Write>(&self, f: &mut fmt::Formatter<W>) -> fmt::Result {
        let number = self.exit_status();
        match self {
            Status::Config { kind, entry } => write!(f, "{number} {kind} {entry}"),
            Status::TooLong => f.write_str("the file is longer than 268435456 bytes"),
            Status::Faulty { line } => f.write_str(line.inner()),
            Status::NoSentence => f.write_str("There is no sentence for these words."),
            Status::Done => write!(f, "{number}"),
            Status::Usage => {
                let help = help_text();
                write!(f, "The words are no command. These are:\n{help}")
            }
            Status::ReadFault { name } => {
                let name = name.inner();
                write!(f, "the file {name} can't be read")
            }
            Status::WriteFault => write!(f, "{number}"),
            Status::NoMemory => write!(f, "{number}"),
        }
    }
}
