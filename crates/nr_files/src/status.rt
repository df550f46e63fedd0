//! How a call of `near_files` ends.

use nr_bytes::Text;
use nr_configfile::ConfigRefusal;

/// How a call ended.
#[derive(Debug, Drop)]
pub enum Status {
    /// What was asked for was written.
    Done,
    /// The words are no command.
    Usage,
    /// There is no sentence for the words that are to be explained.
    NoSentence,
    /// The file is no configuration. The kind is 0 where it is longer than 1 MiB, 1 where it is no JSON
    /// object, 2 where an entry is missing, 3 where it is no whole number, and 4 where it is outside
    /// its bounds. The entry counts from 1, and is 0 for the kinds 0 and 1.
    Config { kind: u32, entry: u32 },
    /// The file is longer than 256 MiB.
    TooLong,
    /// The file is refused, and this says why: the path of a member or the place of a byte, and what is wrong. A run
    /// may be refused so too (`nr_jsonrun`).
    Faulty { line: Text },
    /// The file of this name could not be read.
    ReadFault { name: Text },
    /// The output could not be written whole.
    WriteFault,
    /// Memory ran out.
    NoMemory,
}

impl ConfigRefusal for Status {
    ghost use Rattle.nr_files.specs.Answers.{refuses};
    ghost use Rattle.nr_files.specs.declared.status.Status.TheVariants.{Config};

    ghost refuses = { refuses };

    ghost refusal = { λ kind entry. Config kind entry };

    fn of_config(kind: u32, entry: u32) -> Self {
        Status::Config { kind, entry }
    }
}
