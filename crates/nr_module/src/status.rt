//! How a call of `near_module` ends.

use nr_configfile::ConfigRefusal;

/// How a call ended.
#[derive(Clone, Copy, Debug, PartialEq, Eq)]
pub enum Status {
    /// The module is valid or its method's run came to its end, and the line `ok` or `end BURNT` was
    /// written; or the lines of a call that came to its end, the lines or the text of a module, or the text of `help`
    /// or `version`, were.
    Sound,
    /// The module is valid, and the line `ok` was written; but no machine can be made of it, since an element or a
    /// segment doesn't fit.
    Unfit,
    /// The line that says why not was written.
    Faulty,
    /// The words are no command.
    Usage,
    /// The file is no configuration. The kind is 0 where it is longer than 1 MiB, 1 where it is no JSON
    /// object, 2 where an entry is missing, 3 where it is no whole number, and 4 where it is outside
    /// its bounds. The entry counts from 1, and is 0 for the kinds 0 and 1.
    Config { kind: u32, entry: u32 },
    /// A file could not be read.
    ReadFault,
    /// The line could not be written whole.
    WriteFault,
    /// Memory ran out.
    NoMemory,
}

impl ConfigRefusal for Status {
    ghost use Rattle.nr_module.specs.Answers.{refuses};
    ghost use Rattle.nr_module.specs.declared.status.Status.TheVariants.{Config};

    ghost refuses = { refuses };

    ghost refusal = { λ kind entry. Config kind entry };

    fn of_config(kind: u32, entry: u32) -> Self {
        Status::Config { kind, entry }
    }
}
