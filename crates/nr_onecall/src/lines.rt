//! The lines that tell how a call ended. Want of memory leaves a part of a text to which a call adds.

ghost use Rattle.std.specs.Prelude.{◌≡◌, ◌++◌, IfOk, OnOk, string_bytes};
ghost use Rattle.std.specs.List.{flat_map};
ghost use Rattle.nr_columns.specs.Entries.{pairs_of};
ghost use Rattle.nr_state.specs.declared.calls.Returned.TheVariants.{Promise, Value};
ghost use Rattle.nr_onecall.specs.Texts.{data_prefix, end_line, ended_text, failure_line, stored_text};

use crate::receipts::print_receipts;
use nr_columns::Entry;
use nr_ids::Hash32;
use nr_report::{byte_digits, hash_digits, print_logs};
use nr_state::{CallEnd, Returned};
use std::alloc::{AllocError, Global};
use std::fmt::Write;

fn print_value(alloc: Global, bytes: &[u8], burnt: u64, text: &mut String) -> Result<(), AllocError>
    ensures { OnOk result (string_bytes text.new ≡ string_bytes text.old ++ end_line (Value bytes.now) burnt) }
{
    let bytes = byte_digits(alloc, bytes)?;
    writeln!(text, "value {bytes} {burnt}")
}

fn print_promise(
    alloc: Global,
    id: &Hash32,
    burnt: u64,
    text: &mut String,
) -> Result<(), AllocError>
    ensures { OnOk result (string_bytes text.new ≡ string_bytes text.old ++ end_line (Promise id.now) burnt) }
{
    let id = hash_digits(alloc, id)?;
    writeln!(text, "promise {id} {burnt}")
}

/// What a call returned, and what it burnt.
fn print_end(
    alloc: Global,
    returned: &Returned,
    burnt: u64,
    text: &mut String,
) -> Result<(), AllocError>
    ensures { OnOk result (string_bytes text.new ≡ string_bytes text.old ++ end_line returned.now burnt) }
{
    match returned {
        Returned::Value(bytes) => print_value(alloc, bytes.inner(), burnt, text),
        Returned::Promise(id) => print_promise(alloc, id, burnt, text),
    }
}

/// What the keys of the contract's data begin with in the trie.
fn data_prefix() -> &'static [u8]
    ensures { result.now ≡ data_prefix }
{
    b"\x09contract,"
}

/// The line of an entry that is a datum of the contract.
fn print_stored(alloc: Global, entry: &Entry, text: &mut String) -> Result<(), AllocError>
    ensures { OnOk result (string_bytes text.new
        ≡ string_bytes text.old ++ stored_text (entry.now.key, entry.now.value)) }
{
    match entry.key.inner().strip_prefix(data_prefix()) {
        Some(key) => {
            let key = byte_digits(alloc, key)?;
            let value = byte_digits(alloc, entry.value.inner())?;
            writeln!(text, "store {key} {value}")
        }
        None => Ok(()),
    }
}

fn print_storage(alloc: Global, entries: &[Entry], text: &mut String) -> Result<(), AllocError>
    ensures { OnOk result (string_bytes text.new
        ≡ string_bytes text.old ++ flat_map (λ e. stored_text (e.key, e.value)) entries.now) }
{
    for entry in entries {
        print_stored(alloc, entry, text)?;
    }
    Ok(())
}

/// The lines of a call that came to its end, where these are the entries of its state.
///
/// # Errors
///
/// Where memory runs out.
#[tactic(auto, using(crate::proofs::Stored::stored_texts), unfolding(crate::specs::Texts::ended_text))]
pub(crate) fn ended_text(
    alloc: Global,
    end: &CallEnd,
    entries: &[Entry],
) -> Result<String, AllocError>
    ensures { IfOk result (λ text. string_bytes text ≡ ended_text end.now (pairs_of entries.now)) }
{
    let mut text = String::new(alloc);
    print_end(alloc, &end.returned, end.burnt, &mut text)?;
    print_logs(alloc, end.logs.inner(), &mut text)?;
    print_storage(alloc, entries, &mut text)?;
    print_receipts(alloc, end.made.inner(), &mut text)?;
    Ok(text)
}

/// The line of a call that failed.
///
/// # Errors
///
/// Where memory runs out.
pub(crate) fn failure_text(
    alloc: Global,
    kind: u32,
    part: u32,
    burnt: u64,
) -> Result<String, AllocError>
    ensures { IfOk result (λ text. string_bytes text ≡ failure_line kind part burnt) }
{
    let mut text = String::new(alloc);
    writeln!(text, "failure {kind} {part} {burnt}")?;
    Ok(text)
}
