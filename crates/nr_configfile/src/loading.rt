//! The configuration of a word.

ghost use Rattle.nr_config.specs.declared.fault.ConfigFault.TheVariants as config;
ghost use Rattle.nr_configfile.specs.Plans.{by_config_bytes, config_plan, fault_refusal};
ghost use Rattle.nr_shell.specs.Answers.{Follows, Judges, StopsBy};

use crate::refusal::ConfigRefusal;
use nr_bytes::Shelf;
use nr_config::{Config, ConfigFault};
use nr_shell::{Stop, load};
use nr_words::is_free;
use std::alloc::Global;

/// The most bytes of a configuration, 1 MiB.
const CONFIG_LIMIT: usize = 1_048_576;

/// Why a faulty configuration stops a command.
fn config_stop<E: ConfigRefusal>(fault: ConfigFault) -> Stop<E>
    ensures { StopsBy E.refuses config.Memory (fault_refusal E.refusal) fault result }
{
    match fault {
        ConfigFault::NotJson => Stop::Refused(E::of_config(1, 0)),
        ConfigFault::Missing { entry } => Stop::Refused(E::of_config(2, entry)),
        ConfigFault::NotWhole { entry } => Stop::Refused(E::of_config(3, entry)),
        ConfigFault::OutOfRange { entry } => Stop::Refused(E::of_config(4, entry)),
        ConfigFault::Memory => Stop::Memory,
    }
}

/// The configuration that some bytes spell.
fn config_in<E: ConfigRefusal>(alloc: Global, bytes: &[u8]) -> Result<Config, Stop<E>>
    ensures { Judges E.refuses (λ config. config) result (by_config_bytes E.refusal bytes.now) }
{
    match Config::read(alloc, bytes) {
        Ok(config) => Ok(config),
        Err(fault) => Err(config_stop(fault)),
    }
}

/// The configuration of a word: `free`, which loads nothing, or the name of a file of at most 1 MiB.
///
/// # Errors
///
/// `Refused` where the file is longer, or with its first fault, by the kind and the entry that `Config::read` gives;
/// `Unread` where it could not be read, and `Memory` where memory ran out.
pub fn config_of<E: ConfigRefusal, S: Shelf>(
    alloc: Global,
    word: &str,
    shelf: &mut S,
) -> Result<Config, Stop<E>>
    ensures { Follows E.refuses (λ config. config) (S.held shelf.old) (S.held shelf.new)
        (S.asked shelf.old) (S.asked shelf.new) (S.faults shelf.old) (S.faults shelf.new)
        result (config_plan E.refusal word.now) }
{
    if is_free(word) {
        return Ok(Config::free());
    }
    match load(alloc, word, CONFIG_LIMIT, E::of_config(0, 0), shelf) {
        Ok(bytes) => config_in(alloc, &bytes),
        Err(stop) => Err(stop),
    }
}
