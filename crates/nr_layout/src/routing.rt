//! Shards of ids and receipts, over the boundaries.

ghost use Rattle.std.specs.Prelude.{◌≡◌, ◌+◌, ◌≤◌, ◌<◌, ◌++◌, ◌∷◌, [], length, IfOk, OnOk, slice_set, slice_index_or};
ghost use Rattle.nr_layout.specs.Layout.{shard_of, parts};

use nr_bytes::List;
use nr_ids::AccountId;
use nr_records::Receipt;
use std::alloc::{AllocError, Global};

/// How many boundaries are not greater than the id.
#[tactic(auto, using(crate::proofs::Counting::one_more, crate::proofs::Counting::no_more))]
pub(crate) fn count_up_to(boundaries: &[AccountId], id: &AccountId) -> u32
    requires { length boundaries.now ≤ 15 }
    ensures shard { result ≡ shard_of boundaries.now id.now }
    ensures within { result ≤ length boundaries.now }
{
    let mut shard = 0;
    for boundary in boundaries {
        if id >= boundary {
            shard += 1;
        }
    }
    shard
}

/// As many empty lists as the count says.
#[tactic(auto, using(crate::proofs::Parts::one_more_empty))]
fn empty_lists(alloc: Global, count: usize) -> Result<Vec<List<Receipt>>, AllocError>
    ensures { IfOk result (λ lists. lists.items ≡ parts [] count []) }
{
    let mut lists = Vec::new(alloc);
    for _ in 0..count {
        lists.push(List::of(Vec::new(alloc)))?;
    }
    Ok(lists)
}

/// Appends a receipt to the list of its shard.
fn send(lists: &mut Vec<List<Receipt>>, shard: usize, receipt: Receipt) -> Result<(), AllocError>
    requires { shard < length lists.old.items }
    ensures { OnOk result (lists.new.items ≡ slice_set lists.old.items shard
        (slice_index_or lists.old.items shard [] ++ receipt ∷ [])) }
{
    lists[shard].vec_mut().push(receipt)?;
    Ok(())
}

/// One list for each shard, in the order of the shards, each receipt put to its own.
#[tactic(auto, using(crate::proofs::Parts::within))]
fn spread(
    alloc: Global,
    boundaries: &[AccountId],
    list: Vec<Receipt>,
) -> Result<Vec<List<Receipt>>, AllocError>
    requires { length boundaries.now ≤ 15 }
    ensures { IfOk result (λ lists. lists.items ≡ parts boundaries.now (length boundaries.now + 1) list.items) }
{
    let mut lists = empty_lists(alloc, boundaries.len() + 1)?;
    for receipt in list {
        let shard = count_up_to(boundaries, &receipt.receiver) as usize;
        send(&mut lists, shard, receipt)?;
    }
    Ok(lists)
}

/// The lists of one shard.
fn alone(alloc: Global, list: Vec<Receipt>) -> Result<Vec<List<Receipt>>, AllocError>
    ensures { IfOk result (λ lists. lists.items ≡ list.items ∷ []) }
{
    let mut lists = Vec::with_capacity(alloc, 1)?;
    lists.push(List::of(list))?;
    Ok(lists)
}

/// One list for each shard, in the order of the shards. Where there is one, no receipt moves.
pub(crate) fn routed(
    alloc: Global,
    boundaries: &[AccountId],
    list: Vec<Receipt>,
) -> Result<Vec<List<Receipt>>, AllocError>
    requires { length boundaries.now ≤ 15 }
    ensures { IfOk result (λ lists. lists.items ≡ parts boundaries.now (length boundaries.now + 1) list.items) }
{
    if boundaries.len() == 0 {
        let lists = alone(alloc, list)?;
        return Ok(lists);
    }
    spread(alloc, boundaries, list)
}
