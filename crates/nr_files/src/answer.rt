//! What a file asks for.

ghost use Rattle.std.specs.Prelude.{◌≡◌, IfOk, OnErr, Err};
ghost use Rattle.serde_json.specs.View.{view};
ghost use Rattle.nr_blocks.specs.Files.{genesis_bytes as file_bytes};
ghost use Rattle.nr_blocks.specs.Judging.{with_fault, genesis_read};
ghost use Rattle.nr_outproof.specs.Texts.{proof_read};
ghost use Rattle.nr_gathered.specs.Files.{gathered_in};
ghost use Rattle.nr_parts.specs.Files.{part_in};
ghost use Rattle.nr_shell.specs.Answers.{Judges};
ghost use Rattle.nr_files.specs.Answers.{AnswersAs, output_in, refuses};
ghost use Rattle.nr_files.specs.Due.{value_in, made_blocks, shown_blocks, judged, made_genesis, made_hex};
ghost use Rattle.nr_files.specs.Due.{shown_genesis, shown_part, shown_proof, shown_gathered, shown_report, of_bytes};
ghost use Rattle.nr_files.specs.Due.{stated_in, without_feed};
ghost use Rattle.nr_files.specs.Command.{request_in};
ghost use Rattle.nr_files.specs.Damage.{blocks_line};
ghost use Rattle.nr_files.specs.Filling.{filled};
ghost use Rattle.nr_files.specs.Lines.{fault_line, gathered_line, genesis_line, part_line, proof_line};
ghost use Rattle.nr_files.specs.Plans.{by_bytes};
ghost use Rattle.nr_files.specs.Versions.{blocks_read, stated_bytes};
ghost use Rattle.nr_files.specs.declared.fault.Fault.TheVariants.{Memory};

use crate::command::{Request, Work};
use crate::damage::or_begun;
use crate::fault::Fault;
use crate::filling::{genesis_bytes, stated};
use crate::output::{Output, laid};
use crate::status::Status;
use crate::telling::{
    blocks_words, faulty, gathered_words, genesis_words, json_words, part_words, proof_words,
    report_words,
};
use crate::versions::{blocks_read, stated_bytes};
use nr_blocks::{Genesis, read_genesis};
use nr_bytes::Blob;
use nr_config::Config;
use nr_explain::show_report;
use nr_gathered::{Gathered, read_gathered};
use nr_json::{Form, StatedBlocks, StatedGenesis};
use nr_jsonstream::{Unread, genesis_in_text};
use nr_outproof::{Proof, read_proof};
use nr_parts::{Part, read_part};
use nr_shell::Stop;
use nr_shown::{gathered_json, part_json, proof_json};
use serde_json::Value;
use std::alloc::Global;

/// The text without a line feed at its end.
fn without_feed(text: &[u8]) -> &[u8]
    ensures { result.now ≡ without_feed text.now }
{
    if text.is_empty() {
        return text;
    }
    let last = text.len() - 1;
    if text[last] == b'\n' {
        &text[..last]
    } else {
        text
    }
}

/// The value of a JSON text.
fn value_in(alloc: Global, text: &[u8]) -> Result<Value, Fault>
    ensures { AnswersAs view result (value_in text.now) }
{
    match Value::from_slice(alloc, without_feed(text)) {
        Ok(value) => Ok(value),
        Err(fault) if fault.is_memory() => Err(Fault::Memory),
        Err(_) => Err(faulty(alloc, or_begun(text, "the text is no JSON"))),
    }
}

/// The record that a JSON value stands for.
fn record_in<T: Form>(alloc: Global, value: &Value) -> Result<T, Fault>
    ensures { AnswersAs (λ x. x) result (with_fault fault_line (T.reading (view value.now))) }
{
    match T::from_json(alloc, value) {
        Ok(found) => Ok(found),
        Err(fault) => Err(json_words(alloc, fault)),
    }
}

/// The blocks that bytes spell.
fn blocks_of(alloc: Global, bytes: &[u8]) -> Result<StatedBlocks, Fault>
    ensures { AnswersAs (λ x. x) result (with_fault (blocks_line bytes.now) (blocks_read bytes.now)) }
{
    match blocks_read(alloc, bytes) {
        Ok(found) => Ok(found),
        Err(fault) => Err(blocks_words(alloc, bytes, fault)),
    }
}

/// The bytes that spell blocks.
fn spelling_of(alloc: Global, file: StatedBlocks) -> Result<Blob, Fault>
    ensures ok { IfOk result (λ bytes. bytes ≡ stated_bytes file) }
    ensures err { OnErr result (result ≡ Err Memory) }
{
    match stated_bytes(alloc, file) {
        Ok(bytes) => Ok(bytes),
        Err(_) => Err(Fault::Memory),
    }
}

/// A record's JSON value.
fn json_of<T: Form>(alloc: Global, value: &T) -> Result<Value, Fault>
    ensures ok { IfOk result (λ json. view json ≡ T.json value.now) }
    ensures err { OnErr result (result ≡ Err Memory) }
{
    match value.to_json(alloc) {
        Ok(json) => Ok(json),
        Err(_) => Err(Fault::Memory),
    }
}

#[tactic(auto, using(crate::proofs::Steps::refuses_on), unfolding(crate::specs::Due::made_blocks))]
fn made_blocks(alloc: Global, text: &[u8]) -> Result<Output, Fault>
    ensures { AnswersAs output_in result (made_blocks text.now) }
{
    let value = value_in(alloc, text)?;
    let file = record_in::<StatedBlocks>(alloc, &value)?;
    let bytes = spelling_of(alloc, file)?;
    Ok(Output::Bytes(bytes))
}

#[tactic(auto, using(crate::proofs::Steps::refuses_on), unfolding(crate::specs::Due::shown_blocks))]
fn shown_blocks(alloc: Global, bytes: &[u8]) -> Result<Output, Fault>
    ensures { AnswersAs output_in result (shown_blocks bytes.now) }
{
    let file = blocks_of(alloc, bytes)?;
    let json = json_of(alloc, &file)?;
    Ok(Output::Json(json))
}

/// The genesis that bytes spell, under a configuration.
fn genesis_in(alloc: Global, config: &Config, made: bool, bytes: &[u8]) -> Result<Genesis, Fault>
    ensures { AnswersAs (λ x. x) result (with_fault (genesis_line made bytes.now) (genesis_read config.now bytes.now)) }
{
    match read_genesis(alloc, bytes, config) {
        Ok(genesis) => Ok(genesis),
        Err(fault) => Err(genesis_words(alloc, made, bytes, fault)),
    }
}

/// Bytes that were made, where they are a genesis under a configuration.
#[tactic(auto, using(crate::proofs::Steps::judged_ok, crate::proofs::Steps::judged_err))]
fn if_sound(alloc: Global, config: &Config, bytes: Blob) -> Result<Output, Fault>
    ensures { AnswersAs output_in result (judged config.now bytes) }
{
    match genesis_in(alloc, config, true, bytes.inner()) {
        Ok(_) => Ok(Output::Bytes(bytes)),
        Err(fault) => Err(fault),
    }
}

/// The genesis that a JSON text states, by the tree of the whole text.
#[tactic(auto, using(crate::proofs::Steps::refuses_on))]
fn stated_by_tree(alloc: Global, text: &[u8]) -> Result<StatedGenesis, Fault>
    ensures { AnswersAs (λ x. x) result (stated_in text.now) }
{
    let value = value_in(alloc, text)?;
    record_in(alloc, &value)
}

/// The genesis that a JSON text states. It is read entry by entry, which takes less memory, or else by its tree.
fn stated_in(alloc: Global, text: &[u8]) -> Result<StatedGenesis, Fault>
    ensures { AnswersAs (λ x. x) result (stated_in text.now) }
{
    match genesis_in_text(alloc, without_feed(text)) {
        Ok(stated) => Ok(stated),
        Err(Unread::Other) => stated_by_tree(alloc, text),
        Err(Unread::Memory) => Err(Fault::Memory),
    }
}

/// The bytes of a stated genesis, with what was left out. The entries are given back.
fn bytes_of_state(alloc: Global, config: &Config, state: StatedGenesis) -> Result<Blob, Fault>
    ensures ok { IfOk result (λ bytes. bytes ≡ file_bytes (filled config.now state)) }
    ensures err { OnErr result (result ≡ Err Memory) }
{
    match genesis_bytes(alloc, config, &state) {
        Ok(bytes) => Ok(bytes),
        Err(_) => Err(Fault::Memory),
    }
}

#[tactic(auto, using(crate::proofs::Steps::refuses_on), unfolding(crate::specs::Due::made_genesis))]
fn made_genesis(alloc: Global, config: &Config, text: &[u8]) -> Result<Output, Fault>
    ensures { AnswersAs output_in result (made_genesis config.now text.now) }
{
    let state = stated_in(alloc, text)?;
    let bytes = bytes_of_state(alloc, config, state)?;
    if_sound(alloc, config, bytes)
}

#[tactic(auto, using(crate::proofs::Steps::refuses_on), unfolding(crate::specs::Due::shown_genesis))]
fn shown_genesis(alloc: Global, config: &Config, bytes: &[u8]) -> Result<Output, Fault>
    ensures { AnswersAs output_in result (shown_genesis config.now bytes.now) }
{
    let genesis = genesis_in(alloc, config, false, bytes)?;
    let Ok(stated) = stated(alloc, genesis) else {
        return Err(Fault::Memory);
    };
    let json = json_of(alloc, &stated)?;
    Ok(Output::Json(json))
}

/// A JSON text of bytes.
fn made_hex(alloc: Global, bytes: &[u8]) -> Result<Output, Fault>
    ensures { AnswersAs output_in result (made_hex bytes.now) }
{
    let Ok(copy) = Vec::from_slice(alloc, bytes) else {
        return Err(Fault::Memory);
    };
    let Ok(json) = json_of(alloc, &Blob::of(copy)) else {
        return Err(Fault::Memory);
    };
    Ok(Output::Json(json))
}

#[tactic(auto, unfolding(crate::specs::Due::shown_report))]
fn shown_report(alloc: Global, bytes: &[u8]) -> Result<Output, Fault>
    ensures { AnswersAs output_in result (shown_report bytes.now) }
{
    match show_report(alloc, bytes) {
        Ok(text) => Ok(Output::Bytes(text)),
        Err(fault) => Err(report_words(alloc, bytes, fault)),
    }
}

/// The part of a file.
fn part_of(alloc: Global, bytes: &[u8]) -> Result<Part, Fault>
    ensures { AnswersAs (λ x. x) result (with_fault (part_line bytes.now) (part_in bytes.now)) }
{
    match read_part(alloc, bytes) {
        Ok(part) => Ok(part),
        Err(fault) => Err(part_words(alloc, bytes, fault)),
    }
}

#[tactic(auto, using(crate::proofs::Steps::refuses_on), unfolding(crate::specs::Due::shown_part))]
fn shown_part(alloc: Global, bytes: &[u8]) -> Result<Output, Fault>
    ensures { AnswersAs output_in result (shown_part bytes.now) }
{
    let part = part_of(alloc, bytes)?;
    let Ok(json) = part_json(alloc, &part) else {
        return Err(Fault::Memory);
    };
    Ok(Output::Json(json))
}

/// The proof of a file.
fn proof_of(alloc: Global, bytes: &[u8]) -> Result<Proof, Fault>
    ensures { AnswersAs (λ x. x) result (with_fault (proof_line bytes.now) (proof_read bytes.now)) }
{
    match read_proof(alloc, bytes) {
        Ok(proof) => Ok(proof),
        Err(fault) => Err(proof_words(alloc, bytes, fault)),
    }
}

#[tactic(auto, using(crate::proofs::Steps::refuses_on), unfolding(crate::specs::Due::shown_proof))]
fn shown_proof(alloc: Global, bytes: &[u8]) -> Result<Output, Fault>
    ensures { AnswersAs output_in result (shown_proof bytes.now) }
{
    let proof = proof_of(alloc, bytes)?;
    let Ok(json) = proof_json(alloc, &proof) else {
        return Err(Fault::Memory);
    };
    Ok(Output::Json(json))
}

/// The gathered chunk of a file.
fn gathered_of(alloc: Global, bytes: &[u8]) -> Result<Gathered, Fault>
    ensures { AnswersAs (λ x. x) result (with_fault (gathered_line bytes.now) (gathered_in bytes.now)) }
{
    match read_gathered(alloc, bytes) {
        Ok(gathered) => Ok(gathered),
        Err(fault) => Err(gathered_words(alloc, bytes, fault)),
    }
}

#[tactic(auto, using(crate::proofs::Steps::refuses_on), unfolding(crate::specs::Due::shown_gathered))]
fn shown_gathered(alloc: Global, bytes: &[u8]) -> Result<Output, Fault>
    ensures { AnswersAs output_in result (shown_gathered bytes.now) }
{
    let gathered = gathered_of(alloc, bytes)?;
    let Ok(json) = gathered_json(alloc, &gathered) else {
        return Err(Fault::Memory);
    };
    Ok(Output::Json(json))
}

/// What some bytes are made into.
fn of_bytes(alloc: Global, work: Work, config: &Config, bytes: &[u8]) -> Result<Output, Fault>
    ensures { AnswersAs output_in result (of_bytes work config.now bytes.now) }
{
    match work {
        Work::MakeBlocks => made_blocks(alloc, bytes),
        Work::MakeGenesis => made_genesis(alloc, config, bytes),
        Work::MakeHex => made_hex(alloc, bytes),
        Work::ShowBlocks => shown_blocks(alloc, bytes),
        Work::ShowGenesis => shown_genesis(alloc, config, bytes),
        Work::ShowReport => shown_report(alloc, bytes),
        Work::ShowPart => shown_part(alloc, bytes),
        Work::ShowProof => shown_proof(alloc, bytes),
        Work::ShowGathered => shown_gathered(alloc, bytes),
    }
}

/// What the bytes of a request's file are made into.
///
/// # Errors
///
/// `Refused` where the bytes are refused, with the words that say why, and `Memory` where memory ran out.
pub fn judged(
    alloc: Global,
    request: &Request<'_>,
    config: &Config,
    bytes: &[u8],
) -> Result<Output, Stop<Status>>
    ensures { Judges refuses output_in result (by_bytes (request_in request.now) config.now bytes.now) }
{
    match of_bytes(alloc, request.work, config, bytes) {
        Ok(output) => Ok(laid(request.compact, output)),
        Err(Fault::Words(line)) => Err(Stop::Refused(Status::Faulty { line })),
        Err(Fault::Memory) => Err(Stop::Memory),
    }
}
