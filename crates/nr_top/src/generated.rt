//! The run of a generated chain, and what is written of it.

ghost use Rattle.std.specs.Prelude.{◌≡◌, ℕ, List, ◌++◌, IfOk};
ghost use Rattle.sha2.specs.Hashers.{Holds256};
ghost use Rattle.sha2.specs.Sha256.{sha256};
ghost use Rattle.nr_chunk.specs.Chain.{rules_of};
ghost use Rattle.nr_chunk.specs.Runs.{chain_in};
ghost use Rattle.nr_overlap.specs.Moment.{report_at};
ghost use Rattle.nr_overlap.specs.Run.{ending};
ghost use Rattle.nr_outcome.specs.Texts.{count_to, heights_text};
ghost use Rattle.nr_top.specs.Generated.{first_lines, generated_chain, generated_text};
ghost use Rattle.nr_words.specs.Words.{CanGenerate};

use crate::chain::supply_of;
use crate::run::run_over;
use nr_bytes::Blob;
use nr_chunk::ChainRun;
use nr_config::Config;
use nr_contract::ContractCaller;
use nr_gen::generate;
use nr_ids::{Hash32, Height};
use nr_outcome::{Outcome, joined};
use nr_overlap::Phases;
use sha2::{Digest, Sha256};
use std::alloc::{AllocError, Global};

/// A generated chain that was run to its end.
fn run_generated(
    alloc: Global,
    start: u64,
    shards: u32,
    blocks: u64,
) -> Result<Outcome<ContractCaller>, AllocError>
    requires { CanGenerate shards blocks }
    ensures { IfOk result (λ outcome. chain_in outcome.chain ≡ generated_chain start shards blocks) }
{
    let (genesis, blocks) = generate(alloc, start, shards, blocks)?;
    let config = Config::generated();
    let supply = supply_of(&config, &genesis);
    let caller = ContractCaller::new(&config);
    let chain = ChainRun::new(config, genesis, blocks, caller);
    run_over(alloc, chain, supply)
}

/// How many chunks there are. A number that doesn't fit counts as want of memory.
fn count_of(outcome: &Outcome<ContractCaller>) -> Result<u64, AllocError>
    ensures { let r = rules_of (chain_in outcome.now.chain)
        in IfOk result (λ count. count ≡ count_to r.shards (report_at r (ending r)) r.heights) }
{
    outcome.chunk_count().ok_or(AllocError)
}

/// Hashes the text of all chunks, height by height.
fn hash_chunks(alloc: Global, outcome: &Outcome<ContractCaller>) -> Result<Sha256, AllocError>
    ensures { let r = rules_of (chain_in outcome.now.chain)
        in IfOk result (λ hasher. Holds256 hasher (heights_text r.shards (report_at r (ending r)) 0 r.heights)) }
{
    let mut hasher = Sha256::new();
    for below in 0..outcome.chain().heights() {
        let text = outcome.text(alloc, Height(below), Height(below + 1))?;
        hasher.update(text.inner());
    }
    Ok(hasher)
}

/// The hash of what is hashed with a text behind it.
fn hash_with(hashed: Sha256, end: &Blob) -> Hash32
    ensures { (text : List ℕ) → Holds256 hashed text → result.0 ≡ sha256 (text ++ end.now) }
{
    let mut hasher = hashed;
    hasher.update(end.inner());
    Hash32(hasher.finalize())
}

/// The lines before the totals: the numbers that generate a chain, how many chunks were sealed, and the digest of the
/// report.
///
/// # Errors
///
/// Where memory runs out.
#[tactic(auto, unfolding(nr_report::specs::Lines::hash_word))]
pub fn first_lines(
    alloc: Global,
    start: u64,
    shards: u32,
    blocks: u64,
    chunks: u64,
    hash: &Hash32,
) -> Result<Blob, AllocError>
    ensures { IfOk result (λ text. text ≡ first_lines start shards blocks chunks hash.now) }
{
    let digits = hex::encode(alloc, hash.0)?;
    let lines = format!(in alloc;
        "gen {start} {shards} {blocks}\nchunks {chunks}\ndigest {digits}\n"
    )?;
    Ok(Blob::of(Vec::from_slice(alloc, lines.as_bytes())?))
}

/// What is written of a generated chain: the numbers that generate it, how many chunks were sealed, the digest
/// of the report that its run has, and the totals. The report is hashed height by height and not kept.
///
/// # Errors
///
/// Where memory runs out. It counts as that where a total doesn't fit its number.
#[inline(never)]
pub(crate) fn generated(
    alloc: Global,
    start: u64,
    shards: u32,
    blocks: u64,
) -> Result<Blob, AllocError>
    requires { CanGenerate shards blocks }
    ensures { IfOk result (λ text. text ≡ generated_text start shards blocks) }
{
    let outcome = run_generated(alloc, start, shards, blocks)?;
    let end = outcome.totals_text(alloc)?;
    let hashed = hash_chunks(alloc, &outcome)?;
    let chunks = count_of(&outcome)?;
    let hash = hash_with(hashed, &end);
    let first = first_lines(alloc, start, shards, blocks, chunks, &hash)?;
    let text = joined(first, &end)?;
    Ok(text)
}
