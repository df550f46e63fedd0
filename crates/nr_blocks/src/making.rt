//! Blocks made of their outlines, the last transaction first. The bytes of each are given back once it is made, a page
//! at least, so that a file and its values never stand both.

ghost use Rattle.std.specs.List.{AllByRecursion, flat_map};
ghost use Rattle.std.specs.Prelude.{◌≡◌, ℕ, ◌++◌, length, drop, List as Items, Ok, Some};
ghost use Rattle.nr_blocks.specs.BlocksFiles.{IsBlock, IsChunk, block_bytes, chunk_bytes};
ghost use Rattle.nr_blocks.specs.Outlines.{AreOutlines, IsFront, Makes, first_of, block_outline, chunk_outline};
ghost use Rattle.nr_blocks.specs.Outlines.{outlines as outlines_of, place as its_place};
ghost use Rattle.nr_blocks.specs.declared.block.Block.{Block as Blocks};
ghost use Rattle.nr_blocks.specs.declared.version.Version.{Version};
ghost use Rattle.nr_bytes.specs.Answers.{Gives};
ghost use Rattle.nr_records.specs.Transactions.{IsTransaction, transaction_at, transaction_bytes};
ghost use Rattle.nr_records.specs.declared.fault.RecordFault.TheVariants.{Memory};

use crate::block::Block;
use crate::outline::Outline;
use nr_bytes::{List, Reader};
use nr_records::{RecordFault, Spelled, Transaction};
use std::alloc::Global;

/// What stands from a place on.
fn dropped(bytes: &[u8], place: usize) -> &[u8]
    ensures { result.now ≡ drop place bytes.now }
{
    if place <= bytes.len() {
        &bytes[place..]
    } else {
        &[]
    }
}

/// The transaction at the front of some bytes.
#[tactic(auto, unfolding(crate::specs::Outlines::first_of))]
fn first_transaction(alloc: Global, bytes: &[u8]) -> Result<Transaction, RecordFault>
    ensures { Gives Memory result (first_of transaction_at bytes.now) }
{
    let mut reader = Reader::new(bytes);
    let transaction = Transaction::read(alloc, &mut reader)?;
    Ok(transaction)
}

/// The transaction that begins at a place.
fn transaction_in(alloc: Global, bytes: &[u8], place: usize) -> Result<Transaction, RecordFault>
    ensures { Gives Memory result (first_of transaction_at (drop place bytes.now)) }
{
    first_transaction(alloc, dropped(bytes, place))
}

// Less than this isn't worth a call.
const PAGE: usize = 4096;

/// Gives the memory back that the bytes don't take, where it is a page or more.
fn give_back(bytes: &mut Vec<u8>)
    ensures { bytes.new.items ≡ bytes.old.items }
{
    if bytes.capacity().saturating_sub(bytes.len()) < PAGE {
        return;
    }
    bytes.shrink_to_fit();
}

/// The transaction that begins at a place. The bytes from there on are given back.
fn make_transaction(
    alloc: Global,
    place: usize,
    bytes: &mut Vec<u8>,
) -> Result<Transaction, RecordFault>
    ensures { Makes (λ made. made) transaction_bytes IsTransaction its_place result place bytes.old.items
        bytes.new.items }
{
    match transaction_in(alloc, bytes.as_slice(), place) {
        Ok(transaction) => {
            bytes.truncate(place);
            give_back(bytes);
            Ok(transaction)
        }
        Err(fault) => Err(fault),
    }
}

fn make_transactions(
    alloc: Global,
    places: List<usize>,
    bytes: &mut Vec<u8>,
) -> Result<Vec<Transaction>, RecordFault>
    ensures { Makes (λ made. made.items) (flat_map transaction_bytes) (AllByRecursion IsTransaction)
        (outlines_of transaction_bytes its_place) result places bytes.old.items bytes.new.items }
{
    let mut left = places.into_inner();
    let mut transactions = Vec::with_capacity(alloc, left.len())?;
    while let Some(place) = left.pop() {
        let transaction = make_transaction(alloc, place, bytes)?;
        transactions.push(transaction)?;
    }
    transactions.reverse();
    Ok(transactions)
}

/// The transactions of a chunk that is there.
fn make_there(
    alloc: Global,
    places: List<usize>,
    bytes: &mut Vec<u8>,
) -> Result<Option<List<Transaction>>, RecordFault>
    ensures { Makes (λ made. made) chunk_bytes IsChunk chunk_outline result (Some places) bytes.old.items
        bytes.new.items }
{
    match make_transactions(alloc, places, bytes) {
        Ok(transactions) => Ok(Some(List::of(transactions))),
        Err(fault) => Err(fault),
    }
}

fn make_chunk(
    alloc: Global,
    places: Option<List<usize>>,
    bytes: &mut Vec<u8>,
) -> Result<Option<List<Transaction>>, RecordFault>
    ensures { Makes (λ made. made) chunk_bytes IsChunk chunk_outline result places bytes.old.items bytes.new.items }
{
    match places {
        None => Ok(None),
        Some(places) => make_there(alloc, places, bytes),
    }
}

fn make_chunks(
    alloc: Global,
    chunks: List<Option<List<usize>>>,
    bytes: &mut Vec<u8>,
) -> Result<Vec<Option<List<Transaction>>>, RecordFault>
    ensures { Makes (λ made. made.items) (flat_map chunk_bytes) (AllByRecursion IsChunk)
        (outlines_of chunk_bytes chunk_outline) result chunks bytes.old.items bytes.new.items }
{
    let mut left = chunks.into_inner();
    let mut made = Vec::with_capacity(alloc, left.len())?;
    while let Some(places) = left.pop() {
        let chunk = make_chunk(alloc, places, bytes)?;
        made.push(chunk)?;
    }
    made.reverse();
    Ok(made)
}

fn make_block(alloc: Global, outline: Outline, bytes: &mut Vec<u8>) -> Result<Block, RecordFault>
    ensures { (version : Version)
        → Makes (λ made. made) block_bytes (IsBlock version) block_outline result outline bytes.old.items
        bytes.new.items }
{
    let Outline {
        height,
        timestamp,
        price,
        chunks,
    } = outline;
    match make_chunks(alloc, chunks, bytes) {
        Ok(chunks) => Ok(Block {
            height,
            timestamp,
            price,
            chunks: List::of(chunks),
        }),
        Err(fault) => Err(fault),
    }
}

fn made_of(
    alloc: Global,
    outlines: List<Outline>,
    bytes: &mut Vec<u8>,
) -> Result<Vec<Block>, RecordFault>
    ensures { (version : Version)
        → Makes (λ made. made.items) (flat_map block_bytes) (AllByRecursion (IsBlock version))
        (outlines_of block_bytes block_outline) result outlines bytes.old.items bytes.new.items }
{
    let mut left = outlines.into_inner();
    let mut blocks = Vec::with_capacity(alloc, left.len())?;
    while let Some(outline) = left.pop() {
        let block = make_block(alloc, outline, bytes)?;
        blocks.push(block)?;
    }
    blocks.reverse();
    Ok(blocks)
}

/// Makes the blocks that these are the outlines of, from the bytes of their file. Bytes are given back from the end
/// while transactions are made.
///
/// # Errors
///
/// `Memory`.
pub fn make_blocks(
    alloc: Global,
    outlines: List<Outline>,
    bytes: Vec<u8>,
) -> Result<List<Block>, RecordFault>
    requires { AreOutlines outlines bytes.items }
    ensures { (version : Version) (front : Items ℕ) (blocks : Items Blocks) → AllByRecursion (IsBlock version) blocks
        → outlines ≡ outlines_of block_bytes block_outline (length front) blocks
        → IsFront (front ++ flat_map block_bytes blocks) bytes.items → Gives Memory result (Ok blocks) }
{
    let mut left = bytes;
    match made_of(alloc, outlines, &mut left) {
        Ok(blocks) => Ok(List::of(blocks)),
        Err(fault) => Err(fault),
    }
}
