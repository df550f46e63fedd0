//! Why a file is refused, in words.

ghost use Rattle.std.specs.Prelude.{◌≡◌, IfOk, string_bytes};
ghost use Rattle.nr_files.specs.Answers.{Tells, TellsText};
ghost use Rattle.nr_files.specs.Damage.{blocks_line};
ghost use Rattle.nr_files.specs.Lines.{subject, fault_line, gathered_line, entry_line, genesis_line, part_line};
ghost use Rattle.nr_files.specs.Lines.{proof_line, report_line, usage_words};
ghost use Rattle.nr_files.specs.declared.fault.Fault.TheVariants.{Memory};
ghost use Rattle.nr_json.specs.declared.fault.JsonFault.TheVariants as json;
ghost use Rattle.nr_records.specs.declared.fault.RecordFault.TheVariants as record_faults;
ghost use Rattle.nr_blocks.specs.declared.fault.GenesisFault.TheVariants as genesis;
ghost use Rattle.nr_explain.specs.declared.report.ReportFault.TheVariants as report;
ghost use Rattle.nr_outproof.specs.declared.fault.ProofFault.TheVariants as proof;
ghost use Rattle.nr_parts.specs.declared.fault.PartFault.TheVariants as part;
ghost use Rattle.nr_gathered.specs.declared.fault.GatheredFault.TheVariants as gathered;

use crate::damage::{
    begun_text, blocks_text, gathered_damage, genesis_damage, part_damage, placed_text,
};
use crate::fault::Fault;
use nr_blocks::GenesisFault;
use nr_bytes::Text;
use nr_explain::ReportFault;
use nr_gathered::GatheredFault;
use nr_json::{JsonFault, Wrong};
use nr_outproof::ProofFault;
use nr_parts::PartFault;
use nr_records::RecordFault;
use std::alloc::{AllocError, Global};
use std::fmt::Write;

fn told(text: Result<String, AllocError>) -> Fault
    ensures { TellsText result text }
{
    match text {
        Ok(line) => Fault::Words(Text::of(line)),
        Err(_) => Fault::Memory,
    }
}

/// A line of these words.
#[tactic(auto, using(crate::proofs::Steps::tells_text))]
pub(crate) fn faulty(alloc: Global, words: &str) -> Fault
    ensures { Tells result words.now }
{
    told(String::from_str(alloc, words))
}

fn subject(path: &str) -> &str
    ensures { result.now ≡ subject path.now }
{
    if path.is_empty() { "the text" } else { path }
}

fn fault_text(alloc: Global, path: &str, wrong: Wrong) -> Result<String, AllocError>
    ensures { IfOk result (λ text. string_bytes text ≡ fault_line (json.At path.now wrong)) }
{
    let subject = subject(path);
    let words = wrong.words();
    let mut text = String::new(alloc);
    write!(text, "{subject} {words}")?;
    Ok(text)
}

/// The line of a faulty JSON value.
#[tactic(auto, using(crate::proofs::Steps::tells_text))]
pub(crate) fn json_words(alloc: Global, fault: JsonFault) -> Fault
    ensures tells { Tells result (fault_line fault) }
    ensures memory { fault ≡ json.Memory → result ≡ Memory }
{
    match fault {
        JsonFault::At { path, wrong } => told(fault_text(alloc, path.inner(), wrong)),
        JsonFault::Memory => Fault::Memory,
    }
}

/// The line of blocks that can't be read.
#[tactic(auto, using(crate::proofs::Steps::tells_text))]
pub(crate) fn blocks_words(alloc: Global, bytes: &[u8], fault: RecordFault) -> Fault
    ensures tells { Tells result (blocks_line bytes.now fault) }
    ensures memory { fault ≡ record_faults.Memory → result ≡ Memory }
{
    match fault {
        RecordFault::Memory => Fault::Memory,
        _ => told(blocks_text(alloc, bytes, fault)),
    }
}

fn report_text(alloc: Global, bytes: &[u8], line: u64) -> Result<String, AllocError>
    ensures { IfOk result (λ text. string_bytes text ≡ report_line bytes.now (report.NoLine line)) }
{
    let words = placed_text(alloc, "line ", line as usize, " is no line of a report")?;
    begun_text(alloc, bytes, words.as_str())
}

/// The line of a text that is no report.
#[tactic(auto, using(crate::proofs::Steps::tells_text))]
pub(crate) fn report_words(alloc: Global, bytes: &[u8], fault: ReportFault) -> Fault
    ensures tells { Tells result (report_line bytes.now fault) }
    ensures memory { fault ≡ report.Memory → result ≡ Memory }
{
    match fault {
        ReportFault::NoLine { line } => told(report_text(alloc, bytes, line)),
        ReportFault::Memory => Fault::Memory,
    }
}

fn proof_text(alloc: Global, bytes: &[u8], line: u64) -> Result<String, AllocError>
    ensures { IfOk result (λ text. string_bytes text ≡ proof_line bytes.now (proof.Form line)) }
{
    let words = placed_text(
        alloc,
        "line ",
        line as usize,
        " is not what a proof has there",
    )?;
    begun_text(alloc, bytes, words.as_str())
}

/// The line of a text that is no proof.
#[tactic(auto, using(crate::proofs::Steps::tells_text))]
pub(crate) fn proof_words(alloc: Global, bytes: &[u8], fault: ProofFault) -> Fault
    ensures tells { Tells result (proof_line bytes.now fault) }
    ensures memory { fault ≡ proof.Memory → result ≡ Memory }
{
    match fault {
        ProofFault::Form { line } => told(proof_text(alloc, bytes, line)),
        ProofFault::Memory => Fault::Memory,
    }
}

/// The line of a file that is no part of a state. The faults of a part that was read don't come up.
#[tactic(auto, using(crate::proofs::Steps::tells_text))]
pub(crate) fn part_words(alloc: Global, bytes: &[u8], fault: PartFault) -> Fault
    ensures tells { Tells result (part_line bytes.now fault) }
    ensures memory { fault ≡ part.Memory → result ≡ Memory }
{
    match fault {
        PartFault::Spelling { at } => told(part_damage(alloc, bytes, at as usize)),
        PartFault::Numbers { .. }
        | PartFault::Root { .. }
        | PartFault::Missing { .. }
        | PartFault::BadText { .. }
        | PartFault::Entries { .. }
        | PartFault::Order { .. }
        | PartFault::Whole { .. }
        | PartFault::TooMany => faulty(alloc, "the file is no part of a state"),
        PartFault::Memory => Fault::Memory,
    }
}

/// The line of a file that is no gathered chunk.
#[tactic(auto, using(crate::proofs::Steps::tells_text))]
pub(crate) fn gathered_words(alloc: Global, bytes: &[u8], fault: GatheredFault) -> Fault
    ensures tells { Tells result (gathered_line bytes.now fault) }
    ensures memory { fault ≡ gathered.Memory → result ≡ Memory }
{
    match fault {
        GatheredFault::Spelling { at } => told(gathered_damage(alloc, bytes, at as usize)),
        GatheredFault::Stake { at } => told(placed_text(
            alloc,
            "the action at byte ",
            at as usize,
            " is one of staking",
        )),
        GatheredFault::Memory => Fault::Memory,
    }
}

fn entry_text(alloc: Global, index: u64, words: &str) -> Result<String, AllocError>
    ensures { IfOk result (λ text. string_bytes text ≡ entry_line index words.now) }
{
    let mut text = String::new(alloc);
    write!(text, ".entries[{index}]{words}")?;
    Ok(text)
}

fn usage_text(alloc: Global, index: u64, stated: u64, counted: u64) -> Result<String, AllocError>
    ensures { IfOk result (λ text. string_bytes text ≡ entry_line index (usage_words stated counted)) }
{
    let mut text = String::new(alloc);
    write!(
        text,
        ".entries[{index}].storage_usage is {stated}, but {counted} is counted"
    )?;
    Ok(text)
}

/// The line of a genesis that is refused: one that was made of a JSON value, or one that was read.
#[tactic(auto, using(crate::proofs::Steps::tells_text))]
pub(crate) fn genesis_words(alloc: Global, made: bool, bytes: &[u8], fault: GenesisFault) -> Fault
    ensures tells { Tells result (genesis_line made bytes.now fault) }
    ensures memory { fault ≡ genesis.Memory → result ≡ Memory }
{
    match fault {
        GenesisFault::Spelling { at } => if made {
            faulty(
                alloc,
                ".boundaries are more than 15, or one isn't above the one before it",
            )
        } else {
            told(genesis_damage(alloc, bytes, at as usize))
        },
        GenesisFault::Duplicate { index } => told(entry_text(alloc, index, " stands twice")),
        GenesisFault::NoOwner { index } => told(entry_text(
            alloc,
            index,
            ".account_id has no account, or is `system`",
        )),
        GenesisFault::Usage {
            index,
            stated,
            counted,
        } => told(usage_text(alloc, index, stated, counted)),
        GenesisFault::Supply => faulty(alloc, ".entries have more than 2^127 tokens"),
        GenesisFault::CodeHash { index } => told(entry_text(
            alloc,
            index,
            ".code_hash isn't the SHA-256 of the code",
        )),
        GenesisFault::Memory => Fault::Memory,
    }
}
