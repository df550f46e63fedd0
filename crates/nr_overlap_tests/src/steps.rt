//! Steps in many orders: answers, what stands, and sums.

ghost use Rattle.std.specs.Prelude.{◌≡◌, ◌<◌, false};

use crate::bag::Bag;
use crate::roll::Roll;
use crate::roll_call::Name;
use crate::rolls::{name, roll};
use crate::small_chain::SmallChain;
use nr_bytes::List;
use nr_ids::{Height, ShardId};
use nr_overlap::{Core, Event, Phases, Stage, StepFault, Why, run_serially, step_all};
use std::alloc::{AllocError, Global};
use std::test::Fail;

const A: ShardId = ShardId(0);

const B: ShardId = ShardId(1);

const MADE: Result<(), StepFault> = Ok(());

const fn no(why: Why) -> Result<(), StepFault> {
    Err(StepFault::NotEnabled(why))
}

// ---- chunks that tell which lists they took

/// Makes a step, and says whether this was the answer.
fn answers(core: &mut Core<Roll>, event: Event, answer: Result<(), StepFault>) -> bool {
    let shards = core.phases().shards();
    event.is_inside(shards) && core.step(event) == answer
}

/// How many of the steps are answered so.
fn right_answers(core: &mut Core<Roll>, steps: &[(Event, Result<(), StepFault>)]) -> usize {
    let mut right = 0usize;
    for (event, answer) in steps {
        if answers(core, *event, *answer) {
            right = right.saturating_add(1);
        }
    }
    right
}

fn two_shards() -> [(Event, Result<(), StepFault>); 13] {
    let first = Event::TakeList(B, A, Height(1));
    [
        (Event::OpenChunk(A), MADE),
        (Event::OpenChunk(B), MADE),
        (Event::SealChunk(B), MADE),
        (Event::PublishLists(B), MADE),
        (Event::OpenChunk(B), MADE),
        (first, no(Why::Published { number: 0 })),
        (Event::SealChunk(A), MADE),
        (first, no(Why::Published { number: 0 })),
        (Event::PublishLists(A), MADE),
        (first, MADE),
        (
            Event::SealChunk(B),
            no(Why::Due {
                height: 1,
                source: 1,
            }),
        ),
        (Event::TakeList(B, B, Height(1)), MADE),
        (Event::SealChunk(B), MADE),
    ]
}

#[test]
fn two_shards_are_skewed(rt: HostRuntime) -> Result<(), Fail> {
    let roll = roll(rt.alloc(), 2, &[&[true, true], &[true, true]], None)?;
    let mut core = Core::new(rt.alloc(), roll)?;
    assert_eq!(rt; right_answers(&mut core, &two_shards()), 13);
    Ok(())
}

#[test]
fn one_shard_in_order(rt: HostRuntime) -> Result<(), Fail> {
    let roll = roll(rt.alloc(), 1, &[&[true], &[true]], None)?;
    let mut core = Core::new(rt.alloc(), roll)?;
    let steps = [
        (Event::SealChunk(A), no(Why::Stage { stage: 0 })),
        (Event::OpenChunk(A), MADE),
        (Event::PublishLists(A), no(Why::Stage { stage: 1 })),
        (Event::SealChunk(A), MADE),
        (Event::PublishLists(A), MADE),
        (Event::OpenChunk(A), MADE),
        (Event::TakeList(A, A, Height(1)), MADE),
    ];
    assert_eq!(rt; right_answers(&mut core, &steps), 7);
    Ok(())
}

/// Whether the report of a chunk tells these names.
fn took(core: &Core<Roll>, shard: ShardId, height: u64, names: &[Name]) -> bool {
    match core.report(shard, Height(height)) {
        Some(report) => report.inner() == names,
        None => false,
    }
}

// Shard 1 has no chunk at heights 2 and 3.
#[test]
fn lists_wait_for_a_missing_chunk(rt: HostRuntime) -> Result<(), Fail> {
    let blocks: [&[bool]; 4] = [&[true, true], &[true, false], &[true, false], &[true, true]];
    let mut core = Core::new(rt.alloc(), roll(rt.alloc(), 2, &blocks, None)?)?;
    run_serially(&mut core)?;
    let all = [name(1, 0), name(1, 1), name(2, 0), name(3, 0)];
    assert!(rt; took(&core, B, 4, &all));
    assert!(rt; took(&core, A, 4, &[name(3, 0)]));
    Ok(())
}

#[test]
fn reports_stay_after_want_of_memory(rt: HostRuntime) -> Result<(), Fail> {
    let blocks: [&[bool]; 2] = [&[true, true], &[true, true]];
    let mut core = Core::new(rt.alloc(), roll(rt.alloc(), 2, &blocks, Some((1, 2)))?)?;
    assert!(rt; run_serially(&mut core).is_err());
    assert!(rt; answers(&mut core, Event::OpenChunk(A), Err(StepFault::Memory)));
    assert!(rt; took(&core, A, 2, &[name(1, 0), name(1, 1)]));
    assert!(rt; core.report(B, Height(2)).is_none());
    Ok(())
}

/// Whether shard 0 is sealed and its list on the way to shard 1, which is open.
fn shows_a_list_on_its_way(core: &Core<Roll>) -> bool
    requires whole { core.now.lost ≡ false }
    requires two { core.now.phases.shards ≡ 2 }
{
    let sealed = core.world(A).is_some_and(|last| last.height == 1);
    let opened = core.working(B).is_some_and(|calling| calling.shard == 1);
    let on_its_way = core.flight(A, Height(1), B) == Some(&name(1, 0));
    sealed && opened && on_its_way && core.next_event() == Some(Event::PublishLists(A))
}

#[test]
fn a_list_is_on_its_way(rt: HostRuntime) -> Result<(), Fail> {
    let mut core = Core::new(rt.alloc(), roll(rt.alloc(), 2, &[&[true, true]], None)?)?;
    let events = [
        Event::OpenChunk(A),
        Event::SealChunk(A),
        Event::OpenChunk(B),
    ];
    step_all(&mut core, &events)?;
    assert!(rt; shows_a_list_on_its_way(&core));
    Ok(())
}

/// Whether a shard stands where it has published so many heights and is at this stage.
fn stands(core: &Core<Roll>, shard: ShardId, number: u64, stage: Stage) -> bool
    requires { shard.0 < core.now.phases.shards }
{
    let position = core.position(shard);
    position.number == number && position.stage == stage
}

#[test]
fn the_first_shard_behind_is_named(rt: HostRuntime) -> Result<(), Fail> {
    let mut core = Core::new(rt.alloc(), roll(rt.alloc(), 2, &[&[true, true]], None)?)?;
    assert!(rt; core.behind() == Some((A, Height(0))));
    step_all(&mut core, &[Event::OpenChunk(A), Event::SealChunk(A)])?;
    assert!(rt; stands(&core, A, 0, Stage::Sealed));
    step_all(&mut core, &[Event::PublishLists(A)])?;
    assert!(rt; stands(&core, A, 1, Stage::Idle));
    assert!(rt; core.behind() == Some((B, Height(0))));
    run_serially(&mut core)?;
    assert!(rt; core.behind().is_none());
    Ok(())
}

// Shard 1 has no chunk at heights 2 and 3.
#[test]
fn what_is_left_has_its_order(rt: HostRuntime) -> Result<(), Fail> {
    let blocks: [&[bool]; 3] = [&[true, true], &[true, false], &[true, false]];
    let mut core = Core::new(rt.alloc(), roll(rt.alloc(), 2, &blocks, None)?)?;
    run_serially(&mut core)?;
    let closed = core.close()?;
    let left = [
        (A, Height(1), B, name(1, 0)),
        (A, Height(2), B, name(2, 0)),
        (A, Height(3), A, name(3, 0)),
        (A, Height(3), B, name(3, 0)),
        (B, Height(1), B, name(1, 1)),
    ];
    assert!(rt; closed.left.inner() == left.as_slice());
    Ok(())
}

/// Whether a shard's reports tell these names.
fn told(reports: &[List<Name>], names: &[&[Name]]) -> bool {
    let mut same = reports.len() == names.len();
    for (report, names) in reports.iter().zip(names) {
        same = same && report.inner() == *names;
    }
    same
}

#[test]
fn reports_and_worlds_are_by_shard(rt: HostRuntime) -> Result<(), Fail> {
    let blocks: [&[bool]; 3] = [&[true, true], &[true, false], &[true, false]];
    let mut core = Core::new(rt.alloc(), roll(rt.alloc(), 2, &blocks, None)?)?;
    run_serially(&mut core)?;
    let closed = core.close()?;
    let first: [&[Name]; 3] = [&[], &[name(1, 0), name(1, 1)], &[name(2, 0)]];
    let reports = closed.reports.inner();
    assert_eq!(rt; reports.len(), 2);
    assert!(rt; reports.first().is_some_and(|row| told(row.inner(), &first)));
    assert!(rt; reports.last().is_some_and(|row| told(row.inner(), &[&[]])));
    let worlds = closed.worlds.inner();
    assert_eq!(rt; worlds.len(), 2);
    assert!(rt; worlds.first().is_some_and(|world| world.height == 3));
    assert!(rt; worlds.last().is_some_and(|world| world.height == 1));
    Ok(())
}

// ---- chunks over small receipts

fn bag(alloc: Global, items: &[u8]) -> Result<Option<Bag>, AllocError> {
    Ok(Some(Bag::of(items.to_vec(alloc)?)))
}

// Three blocks of two shards; shard 1 has no chunk at height 2.
fn small_chain(alloc: Global) -> Result<SmallChain, AllocError> {
    let first = vec![in alloc; bag(alloc, &[2, 3, 5])?, bag(alloc, &[4, 6, 7])?]?;
    let second = vec![in alloc; bag(alloc, &[8, 9])?, None]?;
    let third = vec![in alloc; bag(alloc, &[])?, bag(alloc, &[1])?]?;
    Ok(SmallChain {
        shards: 2,
        blocks: vec![in alloc; first, second, third]?,
    })
}

/// Whether the report of a chunk says that these receipts were paid.
fn paid(core: &Core<SmallChain>, shard: ShardId, height: u64, done: &[u8]) -> bool {
    match core.report(shard, Height(height)) {
        Some(report) => report.done.items() == done,
        None => false,
    }
}

#[test]
fn receipts_are_paid(rt: HostRuntime) -> Result<(), Fail> {
    let mut core = Core::new(rt.alloc(), small_chain(rt.alloc())?)?;
    run_serially(&mut core)?;
    assert!(rt; paid(&core, A, 2, &[2, 4]));
    assert!(rt; paid(&core, B, 3, &[3, 7, 9]));
    assert!(rt; paid(&core, A, 3, &[8]));
    Ok(())
}
