//! The entries of a configuration.

ghost use Rattle.std.specs.Prelude.{◌≡◌, ◌++◌, Some, map, option_map, is_some, IfOk, OnOk, string_bytes};
ghost use Rattle.nr_explain.specs.Entries.{entries, nth_entry, entry_of, entry_told};
ghost use Rattle.nr_explain.specs.Coded.{bounds_in};

use crate::numbers::number_of;
use std::alloc::{AllocError, Global};
use std::fmt::Write;

/// An entry's name, and its least and greatest number.
pub(crate) struct Bounds {
    pub(crate) name: &'static str,
    pub(crate) least: u64,
    pub(crate) greatest: u64,
}

/// The entries as `name: least, greatest;`, and then the fees, each of which has three.
macro_rules! entries {
    ($($name:literal: $least:literal, $greatest:expr;)* fees $($fee:literal;)*) => {
        [
            $(Bounds { name: $name, least: $least, greatest: $greatest },)*
            $(
                entries!(fee concat!($fee, "_send_local")),
                entries!(fee concat!($fee, "_send_remote")),
                entries!(fee concat!($fee, "_exec")),
            )*
        ]
    };
    (fee $name:expr) => {
        Bounds { name: $name, least: 0, greatest: 1_000_000_000_000_000 }
    };
}

static ENTRIES: [Bounds; 75] = entries! {
    "gas_price": 0, u64::MAX;
    "storage_price": 0, u64::MAX;
    "chunk_gas_limit": 1, 1_000_000_000_000_000_000;
    "regular_op_cost": 1, 1_000_000_000;
    "max_actions": 1, 1000;
    "max_prepaid_gas": 1, 1_000_000_000_000_000_000;
    "account_bytes": 0, 1_000_000;
    "extra_record_bytes": 0, 1_000_000;
    "top_level_min_len": 0, 65;
    "delete_state_limit": 0, 1_000_000_000;
    "reward_numerator": 0, 1_000_000;
    "reward_denominator": 1, 1_000_000;
    "max_code": 1, 100_000_000;
    "max_pages": 1, 2048;
    "max_call_depth": 1, 10_000;
    "max_stack_values": 1, 1_000_000;
    "max_registers": 1, 10_000;
    "max_register_bytes": 1, 100_000_000;
    "max_all_register_bytes": 1, 100_000_000;
    "max_logs": 0, 10_000;
    "max_log_bytes": 0, 1_000_000;
    "max_key_bytes": 1, 65_536;
    "max_value_bytes": 1, 100_000_000;
    "max_return_bytes": 1, 100_000_000;
    "max_promises": 0, 10_000;
    "load_base": 0, 1_000_000_000_000;
    "load_byte": 0, 1_000_000_000_000;
    "host_base": 0, 1_000_000_000_000;
    "host_byte": 0, 1_000_000_000_000;
    "storage_base": 0, 1_000_000_000_000;
    "storage_byte": 0, 1_000_000_000_000;
    "sha_base": 0, 1_000_000_000_000;
    "sha_byte": 0, 1_000_000_000_000;
    fees
    "action_receipt";
    "data_base";
    "data_byte";
    "create_account";
    "deploy_base";
    "deploy_byte";
    "call_base";
    "call_byte";
    "transfer";
    "add_full_key";
    "add_call_key_base";
    "add_call_key_byte";
    "delete_key";
    "delete_account";
};

/// The bounds of all entries, in their order.
#[tactic(auto, unfolding(crate::specs::Entries::entries, nr_config::specs::Table::table))]
fn entries() -> &'static [Bounds; 75]
    ensures { map bounds_in result.now ≡ entries }
{
    &ENTRIES
}

/// The entry of a number, which counts from 1.
fn nth_entry(number: u64) -> Option<&'static Bounds>
    ensures { option_map (λ b. bounds_in b.now) result ≡ nth_entry number }
{
    if number == 0 {
        return None;
    }
    if number <= 75 {
        Some(&entries()[number as usize - 1])
    } else {
        None
    }
}

/// The entry whose number a word spells.
pub(crate) fn entry_of(word: &[u8]) -> Option<&'static Bounds>
    ensures { option_map (λ b. bounds_in b.now) result ≡ entry_of word.now }
{
    let number = number_of(word)?;
    nth_entry(number)
}

/// Whether a word is the number of an entry.
pub(crate) fn is_entry(word: &[u8]) -> bool
    ensures { result ≡ is_some (entry_of word.now) }
{
    match entry_of(word) {
        Some(_) => true,
        None => false,
    }
}

fn bounds_text(alloc: Global, bounds: &Bounds) -> Result<String, AllocError>
    ensures { IfOk result (λ text. string_bytes text ≡ entry_told (Some (bounds_in bounds.now))) }
{
    let name = bounds.name;
    let least = bounds.least;
    let greatest = bounds.greatest;
    let mut text = String::new(alloc);
    write!(text, ", {name} ({least} to {greatest}),")?;
    Ok(text)
}

/// What is said of an entry behind its number.
pub(crate) fn put_entry(alloc: Global, word: &[u8], out: &mut Vec<u8>) -> Result<(), AllocError>
    ensures { OnOk result (out.new.items ≡ out.old.items ++ entry_told (entry_of word.now)) }
{
    match entry_of(word) {
        None => Ok(()),
        Some(bounds) => {
            let text = bounds_text(alloc, bounds)?;
            out.extend_from_slice(text.as_bytes())
        }
    }
}
