//! The chunks of a chain of amounts.

ghost use Rattle.std.specs.Prelude.{◌≡◌, ◌≤◌, ◌<◌, ◌+◌, List, IfOk, OnOk};
ghost use Rattle.std.specs.Prelude.{fold};
ghost use Rattle.std.specs.Option.{option_copied};
ghost use Rattle.nr_overlap_tests.specs.Small.{out_to, lists_to, chunk_at, chunk_in, spend, took, LIMIT, room};

use crate::bag::Bag;
use crate::small_chain::SmallChain;
use nr_bytes::List;
use nr_ids::{Height, ShardId};
use nr_overlap::Phases;
use std::alloc::{AllocError, Global};

/// A shard between chunks: what it has, and the receipts that wait.
#[derive(Drop)]
pub struct Place {
    pub balance: u64,
    pub waiting: Bag,
}

/// A chunk at work.
#[derive(Drop)]
pub struct Work {
    pub balance: u64,
    pub waiting: Bag,
    pub done: Bag,
    pub outgoing: Bag,
}

/// What a chunk did.
#[derive(Drop)]
pub struct Did {
    pub done: Bag,
    pub sent: Bag,
}

fn entry(chunks: &[Option<Bag>], shard: usize) -> Option<&Bag>
    ensures { option_copied result ≡ chunk_in chunks.now shard }
{
    match chunks.get(shard) {
        Some(Some(bag)) => Some(bag),
        _ => None,
    }
}

fn chunk_at(chain: &SmallChain, shard: u32, height: u64) -> Option<&Bag>
    ensures { option_copied result ≡ chunk_at chain.now shard height }
{
    if height == 0 {
        return None;
    }
    match chain.blocks.get((height - 1) as usize) {
        Some(chunks) => entry(chunks, shard as usize),
        None => None,
    }
}

/// Sends an amount, where there is as much.
fn spend(work: &mut Work, amount: u8) -> Result<(), AllocError>
    ensures { OnOk result (work.new ≡ spend work.old amount) }
{
    let amount_wide = u64::from(amount);
    if amount_wide <= work.balance {
        work.balance -= amount_wide;
        work.outgoing.put(amount)?;
    }
    Ok(())
}

fn spend_all(work: &mut Work, amounts: &[u8]) -> Result<(), AllocError>
    ensures { OnOk result (work.new ≡ fold spend work.old amounts.now) }
{
    for amount in amounts {
        spend(work, *amount)?;
    }
    Ok(())
}

fn take_first(work: &mut Work, list: &[u8]) -> Result<(), AllocError>
    requires { room work.old list.now ≤ LIMIT }
    ensures { OnOk result (work.new ≡ took work.old list.now) }
{
    match list.split_first() {
        Some((first, others)) => {
            work.balance += u64::from(*first);
            work.done.put(*first)?;
            work.waiting.put_all(others)?;
            Ok(())
        }
        None => Ok(()),
    }
}

fn routed(alloc: Global, shards: u32, dest: u32, receipts: &[u8]) -> Result<Bag, AllocError>
    requires { 0 < shards }
    ensures { IfOk result (λ list. list ≡ out_to shards dest receipts.now) }
{
    let mut list = Bag::of(Vec::new(alloc));
    for receipt in receipts {
        if u32::from(*receipt) % shards == dest {
            list.put(*receipt)?;
        }
    }
    Ok(list)
}

#[tactic(auto, using(crate::proofs::Lists::lists_more))]
fn all_routed(alloc: Global, shards: u32, receipts: &[u8]) -> Result<Vec<Bag>, AllocError>
    requires { 0 < shards }
    ensures { IfOk result (λ lists. lists.items ≡ lists_to shards shards receipts.now) }
{
    let mut lists = Vec::new(alloc);
    for dest in 0..shards {
        lists.push(routed(alloc, shards, dest, receipts)?)?;
    }
    Ok(lists)
}

impl Phases for SmallChain {
    ghost use Rattle.nr_overlap_tests.specs.Small.{rules_of, room, LIMIT};
    ghost use Rattle.nr_overlap_tests.specs.SmallLaws.{laws_of};
    ghost use Rattle.std.specs.Prelude.{◌≤◌, ◌<◌};

    ghost is_run = { λ t. t.shards ≤ 16 };

    ghost rules = { rules_of };

    ghost can_open = { λ _ s h w. Unit {0} };

    ghost can_take = { λ t k l. room k l ≤ LIMIT };

    ghost can_seal = { λ t k. 0 < t.shards };

    ghost laws = { laws_of };

    type World = Place;

    type Working = Work;

    type Parcel = Bag;

    type Report = Did;

    fn shards(&self) -> u32 {
        self.shards
    }

    fn heights(&self) -> u64 {
        self.blocks.len() as u64
    }

    fn present(&self, shard: ShardId, height: Height) -> bool {
        chunk_at(self, shard.0, height.0).is_some()
    }

    fn begin(&self, alloc: Global, _shard: ShardId) -> Result<Place, AllocError> {
        Ok(Place {
            balance: 100,
            waiting: Bag::of(Vec::new(alloc)),
        })
    }

    fn open_chunk(
        &self,
        alloc: Global,
        shard: ShardId,
        height: Height,
        world: Place,
    ) -> Result<Work, AllocError> {
        let mut work = Work {
            balance: world.balance,
            waiting: world.waiting,
            done: Bag::of(Vec::new(alloc)),
            outgoing: Bag::of(Vec::new(alloc)),
        };
        if let Some(amounts) = chunk_at(self, shard.0, height.0) {
            spend_all(&mut work, amounts.items())?;
        }
        Ok(work)
    }

    fn take_list(&self, _alloc: Global, working: &mut Work, list: Bag) -> Result<(), AllocError> {
        take_first(working, list.items())
    }

    fn seal_chunk(
        &self,
        alloc: Global,
        working: Work,
    ) -> Result<(Place, Did, List<Bag>), AllocError> {
        let lists = all_routed(alloc, self.shards, working.outgoing.items())?;
        let world = Place {
            balance: working.balance,
            waiting: working.waiting,
        };
        let report = Did {
            done: working.done,
            sent: working.outgoing,
        };
        Ok((world, report, List::of(lists)))
    }
}
