//! Numbers at the keys of a store.

ghost use Rattle.std.specs.Prelude.{◌≡◌, IfOk, OnOk, OnErr, Some, option_and_then};
ghost use Rattle.std.specs.FinMap as map;
ghost use Rattle.nr_bytes.specs.Numbers.{little};
ghost use Rattle.nr_columns.specs.View.{queue_of, count_of};
ghost use Rattle.nr_columns.specs.Columns.{queue_bytes};

use nr_bytes::{Blob, Reader, Writer};
use nr_triedef::Store;
use std::alloc::{AllocError, Global};

/// The four bytes of a count.
fn count_text(alloc: Global, count: u32) -> Result<Blob, AllocError>
    ensures { IfOk result (λ text. text ≡ little 4 count) }
{
    let mut writer = Writer::with_room(alloc, 4)?;
    writer.put_u32(count)?;
    Ok(writer.finish())
}

/// The count that the bytes are, if they are four.
#[tactic(auto, unfolding(nr_bytes::specs::Fields::all_of))]
fn count_in(bytes: &[u8]) -> Option<u32>
    ensures { result ≡ count_of bytes.now }
{
    let mut reader = Reader::new(bytes);
    let count = reader.u32().ok()?;
    reader.end().ok()?;
    Some(count)
}

/// The count at a key, if one is spelled there.
pub(crate) fn stored_count<S: Store>(store: &S, key: &[u8]) -> Option<u32>
    ensures { result ≡ option_and_then count_of (map.get (S.contents store.now) key.now) }
{
    count_in(store.get(key)?)
}

/// Writes a count at a key.
#[tactic(auto, using(crate::proofs::ReadBack::count_back))]
pub(crate) fn put_count<S: Store>(
    alloc: Global,
    store: &mut S,
    key: &[u8],
    count: u32,
) -> Result<(), AllocError>
    ensures ok { OnOk result (S.contents store.new ≡ map.insert (S.contents store.old) key.now (little 4 count)) }
    ensures back { count_of (little 4 count) ≡ Some count }
    ensures err { OnErr result (S.contents store.new ≡ S.contents store.old) }
    ensures marks { S.marks store.new ≡ S.marks store.old }
    ensures spare { S.spare store.new ≡ S.spare store.old }
{
    let bytes = count_text(alloc, count)?;
    store.set(key, bytes.inner())?;
    Ok(())
}

/// The sixteen bytes of two numbers.
fn queue_text(alloc: Global, served: u64, next: u64) -> Result<Blob, AllocError>
    ensures { IfOk result (λ text. text ≡ queue_bytes (served, next)) }
{
    let mut writer = Writer::with_room(alloc, 16)?;
    writer.put_u64(served)?;
    writer.put_u64(next)?;
    Ok(writer.finish())
}

/// The two numbers that the bytes are, if they are sixteen.
#[tactic(auto, unfolding(nr_bytes::specs::Fields::all_of))]
fn queue_in(bytes: &[u8]) -> Option<(u64, u64)>
    ensures { result ≡ queue_of bytes.now }
{
    let mut reader = Reader::new(bytes);
    let served = reader.u64().ok()?;
    let next = reader.u64().ok()?;
    reader.end().ok()?;
    Some((served, next))
}

/// The queue's numbers at a key, if two are spelled there.
pub(crate) fn stored_queue<S: Store>(store: &S, key: &[u8]) -> Option<(u64, u64)>
    ensures { result ≡ option_and_then queue_of (map.get (S.contents store.now) key.now) }
{
    queue_in(store.get(key)?)
}

/// Writes the queue's numbers at a key.
#[tactic(auto, using(crate::proofs::ReadBack::queue_back))]
pub(crate) fn put_queue<S: Store>(
    alloc: Global,
    store: &mut S,
    key: &[u8],
    served: u64,
    next: u64,
) -> Result<(), AllocError>
    ensures ok { OnOk result (S.contents store.new
        ≡ map.insert (S.contents store.old) key.now (queue_bytes (served, next))) }
    ensures back { queue_of (queue_bytes (served, next)) ≡ Some (served, next) }
    ensures err { OnErr result (S.contents store.new ≡ S.contents store.old) }
    ensures marks { S.marks store.new ≡ S.marks store.old }
    ensures spare { S.spare store.new ≡ S.spare store.old }
{
    let bytes = queue_text(alloc, served, next)?;
    store.set(key, bytes.inner())?;
    Ok(())
}
