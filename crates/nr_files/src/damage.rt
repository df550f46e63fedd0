//! What is wrong with the bytes of a file, in words.

ghost use Rattle.std.specs.Prelude.{◌≡◌, ◌-◌, ◌<◌, ◌++◌, [], IfOk, Some, codes, cond, decimal, is_ok, length};
ghost use Rattle.std.specs.Prelude.{option_map, slice_get, string_bytes, take};
ghost use Rattle.nr_blocks.specs.GenesisFiles.{entry_at};
ghost use Rattle.nr_bytes.specs.Answers.{GivesRead};
ghost use Rattle.nr_files.specs.Damage.{begun, blocks_line, byte_line, entries_in, entry_place, entry_rest, field_line};
ghost use Rattle.nr_files.specs.Damage.{flag_line, gathered_damage, genesis_damage, genesis_field, genesis_kinds};
ghost use Rattle.nr_files.specs.Damage.{is_blocks, is_gathered, is_genesis, is_part, kind_line, or_begun, ordinal_line};
ghost use Rattle.nr_files.specs.Damage.{part_damage, place_line, place_of, placed, rest_line, stop_of, word_line};
ghost use Rattle.nr_records.specs.declared.fault.RecordFault.TheVariants.{Memory};

use crate::versions::blocks_read;
use nr_blocks::{GenesisEntry, GenesisFile};
use nr_bytes::Reader;
use nr_gathered::{GatheredFault, read_gathered};
use nr_layout::Layout;
use nr_parts::{PartFault, read_part};
use nr_records::{RecordFault, Spelled, decode};
use std::alloc::{AllocError, Global};
use std::fmt::Write;

/// Which file begins so.
#[tactic(auto, unfolding(crate::specs::Damage::begun))]
fn begun(bytes: &[u8]) -> Option<&'static str>
    ensures { option_map (λ t. t.now) result ≡ begun bytes.now }
{
    if bytes.starts_with(b"NRG1") {
        Some("the file begins with NRG1: it is a genesis file")
    } else if bytes.starts_with(b"NRB1") {
        Some("the file begins with NRB1: it is a blocks file")
    } else if bytes.starts_with(b"NRB2") {
        Some("the file begins with NRB2: it is a blocks file")
    } else if bytes.starts_with(b"NRB3") {
        Some("the file begins with NRB3: it is a blocks file")
    } else if bytes.starts_with(b"NRP1") {
        Some("the file begins with NRP1: it is a part of a state")
    } else if bytes.starts_with(b"NRS1") {
        Some("the file begins with NRS1: it is a gathered chunk")
    } else {
        None
    }
}

/// A line, unless the file begins as one of another kind.
pub(crate) fn or_begun<'a>(bytes: &[u8], line: &'a str) -> &'a str
    ensures { result.now ≡ or_begun bytes.now line.now }
{
    match begun(bytes) {
        Some(told) => told,
        None => line,
    }
}

/// The bytes before a place.
fn front(bytes: &[u8], at: usize) -> &[u8]
    ensures { result.now ≡ take at bytes.now }
{
    if at <= bytes.len() {
        &bytes[..at]
    } else {
        bytes
    }
}

/// How many bytes stand behind a place.
fn count_behind(bytes: &[u8], at: usize) -> usize
    ensures { result ≡ length bytes.now - at }
{
    if at <= bytes.len() {
        bytes.len() - at
    } else {
        0
    }
}

/// The byte at a place.
fn byte_at(bytes: &[u8], at: usize) -> Option<u8>
    ensures { result ≡ slice_get bytes.now at }
{
    bytes.get(at).copied()
}

fn place_of(fault: RecordFault) -> usize
    ensures { result ≡ place_of fault }
{
    match fault {
        RecordFault::Short { at } => at,
        RecordFault::BadByte { at, byte: _ } => at,
        RecordFault::BadUtf8 { at } => at,
        RecordFault::BadOrdinal { at } => at,
        RecordFault::BadAccountId { at } => at,
        RecordFault::Stake { at } => at,
        RecordFault::TooManyBoundaries { at } => at,
        RecordFault::BoundaryOrder { at } => at,
        RecordFault::Memory => 0,
    }
}

pub(crate) fn placed_text(
    alloc: Global,
    before: &str,
    at: usize,
    behind: &str,
) -> Result<String, AllocError>
    ensures { IfOk result (λ text. string_bytes text ≡ placed before.now at behind.now) }
{
    let mut text = String::new(alloc);
    write!(text, "{before}{at}{behind}")?;
    Ok(text)
}

fn counted_text(alloc: Global, count: usize, words: &str) -> Result<String, AllocError>
    ensures { IfOk result (λ text. string_bytes text ≡ decimal count ++ words.now) }
{
    let mut text = String::new(alloc);
    write!(text, "{count}{words}")?;
    Ok(text)
}

fn more_text(alloc: Global, at: usize, count: usize) -> Result<String, AllocError>
    ensures { IfOk result (λ text. string_bytes text
        ≡ decimal count ++ placed (codes " bytes stand after the last field, at byte ") at []) }
{
    let place = placed_text(alloc, " bytes stand after the last field, at byte ", at, "")?;
    counted_text(alloc, count, place.as_str())
}

fn rest_text(alloc: Global, at: usize, count: usize) -> Result<String, AllocError>
    ensures { IfOk result (λ text. string_bytes text ≡ rest_line at count) }
{
    if count == 1 {
        placed_text(
            alloc,
            "1 byte stands after the last field, at byte ",
            at,
            "",
        )
    } else {
        more_text(alloc, at, count)
    }
}

fn flag_text(alloc: Global, at: usize, byte: u8) -> Result<String, AllocError>
    ensures { IfOk result (λ text. string_bytes text ≡ flag_line at byte) }
{
    let mut text = String::new(alloc);
    write!(text, "the field at byte {at} is neither 0 nor 1: {byte}")?;
    Ok(text)
}

fn other_text(alloc: Global, kinds: &str, at: usize, byte: u8) -> Result<String, AllocError>
    ensures { IfOk result (λ text. string_bytes text ≡ kind_line kinds.now at (Some byte)) }
{
    let mut text = String::new(alloc);
    write!(text, "the field at byte {at} is no kind of {kinds}: {byte}")?;
    Ok(text)
}

fn kind_text(alloc: Global, kinds: &str, at: usize, byte: Option<u8>) -> Result<String, AllocError>
    ensures { IfOk result (λ text. string_bytes text ≡ kind_line kinds.now at byte) }
{
    match byte {
        None => placed_text(alloc, "the field at byte ", at, " can't be read"),
        Some(byte) => other_text(alloc, kinds, at, byte),
    }
}

pub(crate) fn begun_text(alloc: Global, bytes: &[u8], line: &str) -> Result<String, AllocError>
    ensures { IfOk result (λ text. string_bytes text ≡ or_begun bytes.now line.now) }
{
    String::from_str(alloc, or_begun(bytes, line))
}

/// What a wrong ordinal is: another word at the front, or none of what may stand there.
fn ordinal_text(
    alloc: Global,
    first: &str,
    kinds: &str,
    bytes: &[u8],
    at: usize,
) -> Result<String, AllocError>
    ensures { IfOk result (λ text. string_bytes text ≡ ordinal_line first.now kinds.now bytes.now at) }
{
    if at == 0 {
        begun_text(alloc, bytes, first)
    } else {
        kind_text(alloc, kinds, at, byte_at(bytes, at))
    }
}

/// What a wrong byte is: one behind the last field, or one that is neither 0 nor 1.
fn byte_text(
    alloc: Global,
    whole: bool,
    bytes: &[u8],
    at: usize,
    byte: u8,
) -> Result<String, AllocError>
    ensures { IfOk result (λ text. string_bytes text ≡ byte_line whole bytes.now at byte) }
{
    if whole {
        rest_text(alloc, at, count_behind(bytes, at))
    } else {
        flag_text(alloc, at, byte)
    }
}

/// What a fault is, by the line of another word at the front, what may stand at a wrong ordinal, and whether
/// the bytes before the fault are a whole file.
#[tactic(auto, unfolding(crate::specs::Damage::field_line))]
fn field_text(
    alloc: Global,
    first: &str,
    kinds: &str,
    whole: bool,
    bytes: &[u8],
    fault: RecordFault,
) -> Result<String, AllocError>
    ensures { IfOk result (λ text. string_bytes text ≡ field_line first.now kinds.now whole bytes.now fault) }
{
    match fault {
        RecordFault::Short { at } => {
            placed_text(alloc, "the file ends inside the field at byte ", at, "")
        }
        RecordFault::BadByte { at, byte } => byte_text(alloc, whole, bytes, at, byte),
        RecordFault::BadUtf8 { at } => {
            placed_text(alloc, "the text at byte ", at, " isn't UTF-8")
        }
        RecordFault::BadOrdinal { at } => ordinal_text(alloc, first, kinds, bytes, at),
        RecordFault::BadAccountId { at } => {
            placed_text(alloc, "the text at byte ", at, " is no account id")
        }
        RecordFault::Stake { at } => {
            placed_text(alloc, "the action at byte ", at, " is one of staking")
        }
        RecordFault::TooManyBoundaries { at } => {
            placed_text(alloc, "the boundaries at byte ", at, " are more than 15")
        }
        RecordFault::BoundaryOrder { at } => placed_text(
            alloc,
            "the boundary at byte ",
            at,
            " isn't above the one before it",
        ),
        RecordFault::Memory => Ok(String::new(alloc)),
    }
}

/// Whether the bytes are a blocks file.
fn is_blocks(alloc: Global, bytes: &[u8]) -> Result<bool, AllocError>
    ensures { IfOk result (λ whole. whole ≡ is_blocks bytes.now) }
{
    match blocks_read(alloc, bytes) {
        Ok(_) => Ok(true),
        Err(RecordFault::Memory) => Err(AllocError),
        Err(_) => Ok(false),
    }
}

/// Whether the bytes are a genesis file.
fn is_genesis(alloc: Global, bytes: &[u8]) -> Result<bool, AllocError>
    ensures { IfOk result (λ whole. whole ≡ is_genesis bytes.now) }
{
    match decode::<GenesisFile>(alloc, bytes) {
        Ok(_) => Ok(true),
        Err(RecordFault::Memory) => Err(AllocError),
        Err(_) => Ok(false),
    }
}

/// Whether the bytes are the file of a part of a state.
fn is_part(alloc: Global, bytes: &[u8]) -> Result<bool, AllocError>
    ensures { IfOk result (λ whole. whole ≡ is_part bytes.now) }
{
    match read_part(alloc, bytes) {
        Ok(_) => Ok(true),
        Err(PartFault::Memory) => Err(AllocError),
        Err(_) => Ok(false),
    }
}

/// Whether the bytes are the file of a gathered chunk.
fn is_gathered(alloc: Global, bytes: &[u8]) -> Result<bool, AllocError>
    ensures { IfOk result (λ whole. whole ≡ is_gathered bytes.now) }
{
    match read_gathered(alloc, bytes) {
        Ok(_) => Ok(true),
        Err(GatheredFault::Memory) => Err(AllocError),
        Err(_) => Ok(false),
    }
}

/// What a fault of a blocks file is.
pub(crate) fn blocks_text(
    alloc: Global,
    bytes: &[u8],
    fault: RecordFault,
) -> Result<String, AllocError>
    ensures { IfOk result (λ text. string_bytes text ≡ blocks_line bytes.now fault) }
{
    let whole = is_blocks(alloc, front(bytes, place_of(fault)))?;
    field_text(
        alloc,
        "the file begins with none of NRB1, NRB2 and NRB3",
        "action, key or permission",
        whole,
        bytes,
        fault,
    )
}

/// Reads up to the first entry of a genesis file: how many there are.
#[tactic(auto, unfolding(crate::specs::Damage::entries_in))]
fn entries_in(alloc: Global, reader: &mut Reader<'_>) -> Result<u32, RecordFault>
    ensures { GivesRead Memory result reader.new (entries_in reader.old) }
{
    reader.fixed::<4>()?;
    Layout::read(alloc, reader)?;
    Ok(reader.u32()?)
}

/// Reads an entry, and says whether there was one.
#[tactic(auto, unfolding(crate::specs::Damage::entry_rest))]
fn pass_entry(alloc: Global, reader: &mut Reader<'_>) -> Result<bool, AllocError>
    ensures more { IfOk result (λ more. more ≡ is_ok (entry_at reader.old)) }
    ensures rest { IfOk result (λ more. reader.new ≡ entry_rest (entry_at reader.old) reader.old) }
{
    match GenesisEntry::read(alloc, reader) {
        Ok(_) => Ok(true),
        Err(RecordFault::Memory) => Err(AllocError),
        Err(_) => Ok(false),
    }
}

/// How many entries are left to be read: none where one couldn't be.
fn entries_left(more: bool, left: u32) -> u32
    ensures value { result ≡ cond more (left - 1) 0 }
    ensures fewer { 0 < left → result < left }
{
    if !more {
        return 0;
    }
    if left > 0 { left - 1 } else { 0 }
}

/// Where the reading of so many entries stops.
fn stop_of(alloc: Global, count: u32, reader: &mut Reader<'_>) -> Result<usize, AllocError>
    ensures { IfOk result (λ at. at ≡ stop_of count reader.old) }
{
    let mut left = count;
    while left > 0 {
        let more = pass_entry(alloc, reader)?;
        left = entries_left(more, left);
    }
    Ok(reader.at())
}

/// The place of the first entry that can't be read.
#[tactic(auto, unfolding(crate::specs::Damage::stop_by))]
fn entry_place(alloc: Global, bytes: &[u8]) -> Result<usize, AllocError>
    ensures { IfOk result (λ at. at ≡ entry_place bytes.now) }
{
    let mut reader = Reader::new(bytes);
    match entries_in(alloc, &mut reader) {
        Ok(count) => stop_of(alloc, count, &mut reader),
        Err(RecordFault::Memory) => Err(AllocError),
        Err(_) => Ok(0),
    }
}

/// What may stand at an ordinal of a genesis file.
fn genesis_kinds(alloc: Global, bytes: &[u8], at: usize) -> Result<&'static str, AllocError>
    ensures { IfOk result (λ kinds. kinds.now ≡ genesis_kinds bytes.now at) }
{
    let place = entry_place(alloc, bytes)?;
    if at == place {
        Ok("entry")
    } else {
        Ok("key or permission")
    }
}

/// What a fault of a genesis file is.
fn genesis_text(alloc: Global, bytes: &[u8], fault: RecordFault) -> Result<String, AllocError>
    ensures { IfOk result (λ text. string_bytes text ≡ genesis_field bytes.now fault) }
{
    let kinds = genesis_kinds(alloc, bytes, place_of(fault))?;
    let whole = is_genesis(alloc, front(bytes, place_of(fault)))?;
    field_text(
        alloc,
        "the file doesn't begin with NRG1",
        kinds,
        whole,
        bytes,
        fault,
    )
}

/// What the faulty field of a genesis file at a place is.
#[tactic(auto, unfolding(crate::specs::Damage::genesis_by))]
pub(crate) fn genesis_damage(alloc: Global, bytes: &[u8], at: usize) -> Result<String, AllocError>
    ensures { IfOk result (λ text. string_bytes text ≡ genesis_damage bytes.now at) }
{
    match decode::<GenesisFile>(alloc, bytes) {
        Ok(_) => placed_text(alloc, "the field at byte ", at, " can't be read"),
        Err(RecordFault::Memory) => Err(AllocError),
        Err(fault) => genesis_text(alloc, bytes, fault),
    }
}

/// What is wrong at the front of a file that doesn't begin with its word.
fn word_text(alloc: Global, first: &str, bytes: &[u8]) -> Result<String, AllocError>
    ensures { IfOk result (λ text. string_bytes text ≡ word_line first.now bytes.now) }
{
    if bytes.len() < 4 {
        placed_text(alloc, "the file ends inside the field at byte ", 0, "")
    } else {
        begun_text(alloc, bytes, first)
    }
}

/// What a fault is of which the place alone is known: bytes behind the last field, another word at the front,
/// or what the line says.
#[tactic(auto, unfolding(crate::specs::Damage::place_line))]
fn place_text(
    alloc: Global,
    first: &str,
    whole: bool,
    bytes: &[u8],
    at: usize,
    line: &str,
) -> Result<String, AllocError>
    ensures { IfOk result (λ text. string_bytes text ≡ place_line first.now whole bytes.now at line.now) }
{
    if whole {
        rest_text(alloc, at, count_behind(bytes, at))
    } else if at == 0 {
        word_text(alloc, first, bytes)
    } else {
        String::from_str(alloc, line)
    }
}

/// What the faulty field of a part of a state at a place is.
pub(crate) fn part_damage(alloc: Global, bytes: &[u8], at: usize) -> Result<String, AllocError>
    ensures { IfOk result (λ text. string_bytes text ≡ part_damage bytes.now at) }
{
    let whole = is_part(alloc, front(bytes, at))?;
    let line = placed_text(alloc, "the file ends inside the field at byte ", at, "")?;
    place_text(
        alloc,
        "the file doesn't begin with NRP1",
        whole,
        bytes,
        at,
        line.as_str(),
    )
}

/// What the faulty field of a gathered chunk at a place is.
pub(crate) fn gathered_damage(alloc: Global, bytes: &[u8], at: usize) -> Result<String, AllocError>
    ensures { IfOk result (λ text. string_bytes text ≡ gathered_damage bytes.now at) }
{
    let whole = is_gathered(alloc, front(bytes, at))?;
    let line = placed_text(alloc, "the field at byte ", at, " can't be read")?;
    place_text(
        alloc,
        "the file doesn't begin with NRS1",
        whole,
        bytes,
        at,
        line.as_str(),
    )
}
