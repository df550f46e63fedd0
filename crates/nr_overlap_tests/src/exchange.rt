//! Asking, publishing, giving up, and a link without room.

ghost use Rattle.std.specs.Prelude.{◌≡◌, ◌+◌, ◌<◌, ◌≤◌, true, IfOk, IfSome};
ghost use Rattle.std.specs.Mem.Slots.{slots_len, IsFull};
ghost use Rattle.nr_exchange.specs.Plan.{plan_of};
ghost use Rattle.nr_exchange.specs.Notes.{link};
ghost use Rattle.nr_exchange.specs.Ports.{IsPortOf};
ghost use Rattle.nr_overlap_tests.specs.Pair.{rules, claimed_by, number_after};

use crate::answer::{Answer, Gave, Round};
use crate::pair::{Chunk, Pair, Sent};
use atomic_table::Closed;
use nr_bytes::List;
use nr_exchange::{Exchange, Full, NotYet, Parcel, Port, Serial, make_exchange};
use nr_ids::{Height, ShardId};
use nr_overlap::Phases;
use std::alloc::{AllocError, Global};
use std::test::Fail;

const A: ShardId = ShardId(0);

const B: ShardId = ShardId(1);

/// Asks for shard 0's list of a height.
#[tactic(auto, using(crate::proofs::Asks::next_chunk, crate::proofs::Asks::still_claimed, crate::proofs::Asks::now_claimed))]
fn ask(exchange: &Exchange<Serial<Pair>>, port: &mut Port<Serial<Pair>>, height: u64) -> Answer
    requires port { IsPortOf (λ _. plan_of rules) exchange.now port.old }
    requires next { height ≡ (link port.old.note 0).claimed + 1 }
    requires last { height ≤ 10 }
    ensures port { IsPortOf (λ _. plan_of rules) exchange.now port.new }
    ensures claimed { (link port.new.note 0).claimed ≡ claimed_by result height (link port.old.note 0).claimed }
    ensures same { (port.new.note.shard ≡ port.old.note.shard) × (port.new.note.number ≡ port.old.note.number) }
{
    match port.try_take(exchange, A, Height(height)) {
        Ok(Parcel::Whole(list)) => Answer::List(list),
        Ok(Parcel::Abandoned { published }) => Answer::GivenUp(published),
        Err(NotYet { published }) => Answer::NotYet(published),
    }
}

/// The lists of shard 0's chunk at a height.
#[tactic(auto, using(crate::proofs::Asks::lists_at))]
fn lists_of(alloc: Global, height: u64) -> Result<List<Sent>, AllocError>
    requires { 0 < height }
    ensures { IfOk result (λ lists. lists ≡ (plan_of rules).lists 0 height) }
{
    let chunk = Pair.open_chunk(alloc, A, Height(height), 0)?;
    let (_, _, lists) = Pair.seal_chunk(alloc, chunk)?;
    Ok(lists)
}

/// Shard 1 asks, shard 0 publishes, shard 1 asks again, shard 0 gives up, and shard 1 asks for the next list.
fn exchanged(
    exchange: &Exchange<Serial<Pair>>,
    giver: &mut Port<Serial<Pair>>,
    taker: &mut Port<Serial<Pair>>,
    lists: List<Sent>,
) -> ([Answer; 3], [bool; 2])
    requires giver { IsPortOf (λ _. plan_of rules) exchange.now giver.old }
    requires first { (giver.old.note.shard ≡ 0) × (giver.old.note.number ≡ 0) }
    requires taker { IsPortOf (λ _. plan_of rules) exchange.now taker.old }
    requires second { (taker.old.note.shard ≡ 1) × (taker.old.note.number ≡ 0) }
    requires none { (link taker.old.note 0).claimed ≡ 0 }
    requires lists { lists ≡ (plan_of rules).lists 0 1 }
{
    let mut answers = [Answer::NotYet(9); 3];
    let mut marks = [true; 2];
    taker.skip(exchange, Height(1));
    marks[0] = taker.has_abandoned(exchange, A);
    answers[0] = ask(exchange, taker, 1);
    if answers[0] == Answer::NotYet(0) && giver.publish(exchange, Height(1), lists).is_ok() {
        answers[1] = ask(exchange, taker, 1);
        giver.abandon(exchange);
        giver.abandon(exchange);
        if let Answer::List(_) = answers[1] {
            answers[2] = ask(exchange, taker, 2);
        }
    }
    marks[1] = taker.has_abandoned(exchange, A);
    (answers, marks)
}

/// The published words of a closed exchange, and the taken words of the links from shard 0.
fn words(mut closed: Closed<Option<Sent>, Global>) -> [u64; 4]
    requires full { IsFull closed.words × IsFull closed.slots }
    requires six { slots_len closed.words ≡ 6 }
{
    let words = [
        closed.word(0),
        closed.word(1),
        closed.word(2),
        closed.word(3),
    ];
    let mut place = 0;
    while place < closed.slot_count() {
        drop(closed.take(place));
        place += 1;
    }
    closed.free();
    words
}

#[test]
fn a_list_comes_once_it_is_published(rt: HostRuntime) -> Result<(), Fail> {
    let alloc = rt.alloc();
    let lists = lists_of(alloc, 1)?;
    let (exchange, mut ports) = make_exchange(alloc, &Serial(Pair))?;
    assert_eq!(rt; ports.len(), 2);
    let (Some(mut taker), Some(mut giver)) = (ports.pop(), ports.pop()) else {
        unreachable!();
    };
    let (answers, marks) = exchanged(&exchange, &mut giver, &mut taker, lists);
    let list = Sent {
        by: Chunk {
            shard: 0,
            height: 1,
        },
        dest: 1,
    };
    assert_eq!(rt;
        answers,
        [Answer::NotYet(0), Answer::List(list), Answer::GivenUp(1)]
    );
    assert_eq!(rt; marks, [false, true]);
    assert_eq!(rt; words(exchange.close()), [1 + (1 << 32), 1, 0, 1]);
    Ok(())
}

/// Shard 0 tries to publish its next height.
#[tactic(auto, using(crate::proofs::Asks::there_at, crate::proofs::Asks::given, crate::proofs::Asks::not_given))]
fn give(
    alloc: Global,
    exchange: &Exchange<Serial<Pair>>,
    giver: &mut Port<Serial<Pair>>,
    height: u64,
) -> Result<Gave, AllocError>
    requires giver { IsPortOf (λ _. plan_of rules) exchange.now giver.old }
    requires first { giver.old.note.shard ≡ 0 }
    requires next { height ≡ giver.old.note.number + 1 }
    requires last { height ≤ 10 }
    ensures giver { IsPortOf (λ _. plan_of rules) exchange.now giver.new }
    ensures first { giver.new.note.shard ≡ 0 }
    ensures number { IfOk result (λ gave. giver.new.note.number ≡ number_after gave giver.old.note.number) }
    ensures claimed { (link giver.new.note 0).claimed ≡ (link giver.old.note 0).claimed }
{
    let lists = lists_of(alloc, height)?;
    match giver.publish(exchange, Height(height), lists) {
        Ok(()) => Ok(Gave::Published),
        Err(
            Full {
                dest,
                taken,
                lists: _,
            },
        ) => Ok(Gave::Full {
            dest: dest.0,
            taken,
        }),
    }
}

/// Shard 0 publishes its first eight heights. The answer is whether there was room for each.
fn give_eight(
    alloc: Global,
    exchange: &Exchange<Serial<Pair>>,
    giver: &mut Port<Serial<Pair>>,
) -> Result<bool, AllocError>
    requires giver { IsPortOf (λ _. plan_of rules) exchange.now giver.old }
    requires first { (giver.old.note.shard ≡ 0) × (giver.old.note.number ≡ 0) }
    ensures giver { IsPortOf (λ _. plan_of rules) exchange.now giver.new }
    ensures first { giver.new.note.shard ≡ 0 }
    ensures number { IfOk result (λ all. all ≡ true → giver.new.note.number ≡ 8) }
    ensures claimed { IfOk result (λ _. (link giver.new.note 0).claimed ≡ (link giver.old.note 0).claimed) }
{
    for height in 1..9u64 {
        if give(alloc, exchange, giver, height)? != Gave::Published {
            return Ok(false);
        }
    }
    Ok(true)
}

/// Shard 0 publishes eight heights, and there is no room for the ninth until both shards have taken the first list.
fn goes_round(
    alloc: Global,
    exchange: &Exchange<Serial<Pair>>,
    giver: &mut Port<Serial<Pair>>,
    taker: &mut Port<Serial<Pair>>,
) -> Result<Option<Round>, AllocError>
    requires giver { IsPortOf (λ _. plan_of rules) exchange.now giver.old }
    requires first { (giver.old.note.shard ≡ 0) × (giver.old.note.number ≡ 0) }
    requires none_own { (link giver.old.note 0).claimed ≡ 0 }
    requires taker { IsPortOf (λ _. plan_of rules) exchange.now taker.old }
    requires none { (link taker.old.note 0).claimed ≡ 0 }
    ensures giver { IsPortOf (λ _. plan_of rules) exchange.now giver.new }
    ensures taker { IsPortOf (λ _. plan_of rules) exchange.now taker.new }
    ensures claimed { IfOk result (λ round. IfSome round (λ _. (link taker.new.note 0).claimed ≡ 1)) }
{
    if !give_eight(alloc, exchange, giver)? {
        return Ok(None);
    }
    let first = give(alloc, exchange, giver, 9)?;
    if first == Gave::Published {
        return Ok(None);
    }
    let own = ask(exchange, giver, 1);
    let second = give(alloc, exchange, giver, 9)?;
    if second == Gave::Published {
        return Ok(None);
    }
    let other = ask(exchange, taker, 1);
    let Answer::List(_) = other else {
        return Ok(None);
    };
    let third = give(alloc, exchange, giver, 9)?;
    Ok(Some(Round {
        first,
        own,
        second,
        other,
        third,
    }))
}

/// Shard 1 takes the lists of heights 2 to 9. The answer is whether each comes from its height.
fn take_eight(exchange: &Exchange<Serial<Pair>>, taker: &mut Port<Serial<Pair>>) -> bool
    requires taker { IsPortOf (λ _. plan_of rules) exchange.now taker.old }
    requires one { (link taker.old.note 0).claimed ≡ 1 }
{
    for height in 2..10u64 {
        match ask(exchange, taker, height) {
            Answer::List(list) if list.by.height == height => {}
            _ => return false,
        }
    }
    true
}

#[test]
fn a_ninth_list_waits_for_room(rt: HostRuntime) -> Result<(), Fail> {
    let alloc = rt.alloc();
    let (exchange, mut ports) = make_exchange(alloc, &Serial(Pair))?;
    let (Some(mut taker), Some(mut giver)) = (ports.pop(), ports.pop()) else {
        unreachable!();
    };
    let round = goes_round(alloc, &exchange, &mut giver, &mut taker)?;
    let by = Chunk {
        shard: 0,
        height: 1,
    };
    assert_eq!(rt;
        round,
        Some(Round {
            first: Gave::Full { dest: 0, taken: 0 },
            own: Answer::List(Sent { by, dest: 0 }),
            second: Gave::Full { dest: 1, taken: 0 },
            other: Answer::List(Sent { by, dest: 1 }),
            third: Gave::Published,
        })
    );
    assert!(rt; take_eight(&exchange, &mut taker));
    assert_eq!(rt; words(exchange.close()), [9, 0, 1, 9]);
    Ok(())
}
