//! The lists that no chunk takes, of all shards in one order.

ghost use Rattle.std.specs.Prelude.{◌≡◌, ◌++◌, ◌<◌, ◌≤◌, ℕ, IfOk, OnOk, vec_len};
ghost use Rattle.std.specs.Option.{option_map, option_to_list};
ghost use Rattle.nr_overlap.specs.Outcome.{left_list, left_by_height, left_by_source, lists_left};
ghost use Rattle.nr_workers.specs.Left.{slot_in};

use crate::left::Left;
use nr_ids::{Height, ShardId};
use nr_overlap::Phases;
use std::alloc::{AllocError, Global};

/// A list with its source, its height and its destination.
type Sent<L> = (ShardId, Height, ShardId, L);

/// Adds a list, if there is one.
fn add<L: Drop>(
    all: &mut Vec<Sent<L>>,
    source: ShardId,
    height: Height,
    dest: ShardId,
    list: Option<L>,
) -> Result<(), AllocError>
    ensures { OnOk result (all.new.items ≡ all.old.items
        ++ option_to_list (option_map (λ l. (source, height, dest, l)) list)) }
{
    if let Some(list) = list {
        all.push((source, height, dest, list))?;
    }
    Ok(())
}

/// Adds the lists of a source at a height, in order of destination. Without a chunk there is none.
fn gather_at<P: Phases>(
    phases: &P,
    source: u32,
    height: u64,
    lefts: &mut Vec<Left<P::Parcel>>,
    all: &mut Vec<Sent<P::Parcel>>,
) -> Result<(), AllocError>
    requires count { vec_len lefts.old ≡ (P.rules phases.now).shards }
    requires lists { (d : ℕ) → d < (P.rules phases.now).shards → slot_in lefts.old.items d source height
        ≡ left_list (P.rules phases.now) source height d }
    ensures count { vec_len lefts.new ≡ vec_len lefts.old }
    ensures others { (d t h : ℕ) → (t ≡ source → h ≡ height → ⊥) → slot_in lefts.new.items d t h
        ≡ slot_in lefts.old.items d t h }
    ensures added { OnOk result (all.new.items ≡ all.old.items ++ left_by_height (P.rules phases.now) source height) }
{
    if !phases.present(ShardId(source), Height(height)) {
        return Ok(());
    }
    for dest in 0..phases.shards() {
        let list = lefts[dest as usize].take(source, height);
        add(all, ShardId(source), Height(height), ShardId(dest), list)?;
    }
    Ok(())
}

/// Adds the lists of a source, in order of height.
fn gather_of<P: Phases>(
    phases: &P,
    source: u32,
    lefts: &mut Vec<Left<P::Parcel>>,
    all: &mut Vec<Sent<P::Parcel>>,
) -> Result<(), AllocError>
    requires count { vec_len lefts.old ≡ (P.rules phases.now).shards }
    requires lists { (d h : ℕ) → d < (P.rules phases.now).shards → h ≤ (P.rules phases.now).heights
        → slot_in lefts.old.items d source h ≡ left_list (P.rules phases.now) source h d }
    ensures count { vec_len lefts.new ≡ vec_len lefts.old }
    ensures others { (d t h : ℕ) → (t ≡ source → ⊥) → slot_in lefts.new.items d t h ≡ slot_in lefts.old.items d t h }
    ensures added { OnOk result (all.new.items ≡ all.old.items ++ left_by_source (P.rules phases.now) source) }
{
    for before in 0..phases.heights() {
        gather_at(phases, source, before + 1, lefts, all)?;
    }
    Ok(())
}

/// All lists, in order of source, then height and then destination.
pub(crate) fn gather<P: Phases>(
    alloc: Global,
    phases: &P,
    lefts: &mut Vec<Left<P::Parcel>>,
) -> Result<Vec<Sent<P::Parcel>>, AllocError>
    requires count { vec_len lefts.old ≡ (P.rules phases.now).shards }
    requires lists { (d t h : ℕ) → d < (P.rules phases.now).shards → t < (P.rules phases.now).shards
        → h ≤ (P.rules phases.now).heights → slot_in lefts.old.items d t h ≡ left_list (P.rules phases.now) t h d }
    ensures { IfOk result (λ all. all.items ≡ lists_left (P.rules phases.now)) }
{
    let mut all = Vec::new(alloc);
    for source in 0..phases.shards() {
        gather_of(phases, source, lefts, &mut all)?;
    }
    Ok(all)
}
