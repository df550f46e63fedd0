//! A configuration.

ghost use Rattle.std.specs.Prelude.{◌≡◌, ◌≤◌};
ghost use Rattle.nr_config.specs.Config.{entry, free, generated, IsValidConfig};
ghost use Rattle.nr_config.specs.Reading.{configuration};
ghost use Rattle.nr_config.specs.declared.fault.ConfigFault.TheVariants.{Memory};
ghost use Rattle.nr_bytes.specs.Answers.{Gives};

use crate::entries::{REWARD_DENOMINATOR, REWARD_NUMERATOR};
use crate::fault::ConfigFault;
use crate::reading::{json_of, numbers_of};
use crate::table::{ENTRIES, free_numbers, generated_numbers, rows};
use std::alloc::Global;
use std::marker::Model;

/// A configuration: 75 numbers, each within the bounds of its entry, and the part of gas that is a
/// reward within the whole.
///
/// The entries count from 1. Those up to 33 are named in `entries`, which also says what each
/// counts. Those from 34 to 75 are the fees, each with `_send_local`, `_send_remote` and `_exec`, in
/// gas, or in gas for one byte where the name ends in `_byte`: `action_receipt`, `data_base`,
/// `data_byte`, `create_account`, `deploy_base`, `deploy_byte`, `call_base`, `call_byte`, `transfer`,
/// `add_full_key`, `add_call_key_base`, `add_call_key_byte`, `delete_key` and `delete_account`.
#[derive(Clone, Copy, Debug, PartialEq, Eq)]
pub struct Config {
    numbers: [u64; ENTRIES],
}

impl Model for Config {
    ghost use Rattle.std.specs.Prelude.{List, ℕ};
    ghost use Rattle.nr_config.specs.Config.{IsValidConfig};

    ghost Value = { List ℕ };

    ghost view = { λ c. c.numbers };

    ghost inverse = { λ c. record { numbers = c } };

    ghost invariant = { λ c. IsValidConfig c.numbers };
}

impl Config {
    /// Reads a configuration from the bytes of a JSON text: an object with a member for each entry,
    /// which is a whole number within the bounds of the entry. Of equal names the last counts, and
    /// names that are no entry's are passed over.
    ///
    /// # Errors
    ///
    /// `NotJson` where the bytes are no JSON text, or its value is no object. Otherwise the first
    /// faulty entry: `Missing` where its name is absent, `NotWhole` where its value is no whole
    /// number from 0 to 2^64 - 1, and `OutOfRange` where it is outside its bounds. Where none is
    /// faulty by itself, `OutOfRange` of `REWARD_NUMERATOR` where that is above `REWARD_DENOMINATOR`.
    /// `Memory`.
    #[tactic(auto, using(crate::proofs::Valid::valid_from_read), unfolding(crate::specs::Reading::configuration))]
    pub fn read(alloc: Global, bytes: &[u8]) -> Result<Config, ConfigFault>
        ensures { Gives Memory result (configuration bytes.now) }
    {
        let value = json_of(alloc, bytes)?;
        let numbers = numbers_of(&value)?;
        let numerator = numbers[REWARD_NUMERATOR as usize - 1];
        let denominator = numbers[REWARD_DENOMINATOR as usize - 1];
        if denominator < numerator {
            return Err(ConfigFault::OutOfRange {
                entry: REWARD_NUMERATOR,
            });
        }
        Ok(Config { numbers })
    }

    /// The built-in configuration whose gas, fees and storage cost nothing.
    #[tactic(auto, using(crate::proofs::Built::free_from_rows, crate::proofs::Built::free_is_valid))]
    pub fn free() -> Config
        ensures { result ≡ free }
    {
        Config {
            numbers: free_numbers(rows()),
        }
    }

    /// The built-in configuration of generated chains.
    #[tactic(auto, using(crate::proofs::Built::generated_from_rows, crate::proofs::Built::generated_is_valid))]
    pub fn generated() -> Config
        ensures { result ≡ generated }
    {
        Config {
            numbers: generated_numbers(rows()),
        }
    }

    /// What the entry with this number holds; the numbers are from 1 to 75.
    pub fn entry(&self, number: u32) -> u64
        requires first { 1 ≤ number }
        requires last { number ≤ 75 }
        ensures value { result ≡ entry self.now number }
        ensures valid { IsValidConfig self.now }
    {
        self.numbers[number as usize - 1]
    }
}
