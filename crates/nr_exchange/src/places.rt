//! The ring of places of each link, and the words. Nothing else knows where a list lies.
ghost use Rattle.std.specs.Prelude.{◌≡◌, ◌+◌, ◌*◌, ◌<◌, ◌∷◌, Some, length, map, IfOk};
ghost use Rattle.atomic_table.specs.Table.{rest};
ghost use Rattle.nr_exchange.specs.Plan.{chunks_to};
ghost use Rattle.nr_exchange.specs.Notes.{link, gave_back};
ghost use Rattle.nr_exchange.specs.Places.{way, place, taken_word, spaces, carry};
ghost use Rattle.nr_exchange.specs.Ports.{LooksForRoom};
ghost use Rattle.nr_exchange.specs.Steps.{sent};
ghost use Rattle.nr_exchange.specs.Seats.{HasOut};

use crate::exchange::Exchange;
use crate::law::{Ask, GiveBack};
use crate::note::Note;
use crate::planned::Planned;
use atomic_table::Seat;
use nr_bytes::List;
use std::alloc::AllocError;

/// How many lists a link has places for.
const RING: u64 = 8;

/// How many links there are.
///
/// # Errors
///
/// Where they don't fit a number.
fn count_links(shards: u32) -> Result<usize, AllocError>
    ensures { IfOk result (λ n. n ≡ shards * shards) }
{
    (shards as usize)
        .checked_mul(shards as usize)
        .ok_or(AllocError)
}

/// How many places there are.
///
/// # Errors
///
/// Where they don't fit a number.
pub(crate) fn count_places(shards: u32) -> Result<usize, AllocError>
    ensures { IfOk result (λ n. n ≡ shards * shards * 8) }
{
    count_links(shards)?
        .checked_mul(RING as usize)
        .ok_or(AllocError)
}

/// How many words there are.
///
/// # Errors
///
/// Where they don't fit a number.
pub(crate) fn count_words(shards: u32) -> Result<usize, AllocError>
    ensures { IfOk result (λ n. n ≡ shards + shards * shards) }
{
    count_links(shards)?
        .checked_add(shards as usize)
        .ok_or(AllocError)
}

impl<P: Planned> Exchange<P> {
    /// The number of the link from a source to a destination.
    fn way(&self, source: u32, dest: u32) -> usize
        requires source { source < (P.plan self.now.run).shards }
        requires dest { dest < (P.plan self.now.run).shards }
        ensures { result ≡ way (P.plan self.now.run) source dest }
    {
        source as usize * self.shards as usize + dest as usize
    }

    /// The number of the taken word of a link.
    pub(crate) fn taken_word(&self, source: u32, dest: u32) -> usize
        requires source { source < (P.plan self.now.run).shards }
        requires dest { dest < (P.plan self.now.run).shards }
        ensures { result ≡ taken_word (P.plan self.now.run) source dest }
    {
        self.shards as usize + self.way(source, dest)
    }

    /// The place on a link for the list that comes after so many others.
    pub(crate) fn place(&self, source: u32, dest: u32, before: u64) -> usize
        requires source { source < (P.plan self.now.run).shards }
        requires dest { dest < (P.plan self.now.run).shards }
        ensures { result ≡ place (P.plan self.now.run) source dest before }
    {
        let _shards = self.shards;
        self.way(source, dest) * RING as usize + (before % RING) as usize
    }

    /// Takes the list that was claimed last out of its place, and gives the place back.
    pub(crate) fn take_claimed(
        &self,
        seat: &mut Seat<Option<P::Parcel>, Note<P>>,
        source: u32,
        dest: u32,
        before: u64,
    ) -> P::Parcel
        requires name { seat.old.table_id ≡ self.now.name }
        requires run { seat.old.me.0.run ≡ self.now.run }
        requires own { dest ≡ seat.old.me.0.shard }
        requires inside { (source < (P.plan self.now.run).shards) × (dest < (P.plan self.now.run).shards) }
        requires linked { length seat.old.me.0.links ≡ (P.plan self.now.run).shards }
        requires before { before ≡ (link seat.old.me.0 source).given }
        requires claimed { before < chunks_to (P.plan self.now.run) source (link seat.old.me.0 source).claimed }
        requires front { (list : P.Parcel) × (seat.old.me.1
            ≡ (place (P.plan self.now.run) source dest before, Some list) ∷ rest seat.old.me.1) }
        ensures same { (seat.new.table_id ≡ seat.old.table_id) × (seat.new.id ≡ seat.old.id) }
        ensures list { seat.old.me.1 ≡ (place (P.plan self.now.run) source dest before, Some result)
            ∷ rest seat.old.me.1 }
        ensures me { seat.new.me ≡ (gave_back seat.old.me.0 source, rest seat.old.me.1) }
    {
        let words = &self.table.shared;
        let place = self.place(source, dest, before);
        let Some(list) = words.exchange(seat, place, None) else {
            unreachable!();
        };
        let word = self.taken_word(source, dest);
        words.fetch_add::<GiveBack<P>>(seat, word, 1);
        list
    }

    /// Looks whether each link has room for the next list, in order of destination, and takes out its place. The
    /// answer is the first destination whose link has no room, and how many lists it took.
    pub(crate) fn look_for_room(
        &self,
        seat: &mut Seat<Option<P::Parcel>, Note<P>>,
        shard: u32,
        published: u64,
    ) -> Option<(u32, u64)>
        requires name { seat.old.table_id ≡ self.now.name }
        requires run { seat.old.me.0.run ≡ self.now.run }
        requires own { shard ≡ seat.old.me.0.shard }
        requires inside { shard < (P.plan self.now.run).shards }
        requires roomed { length seat.old.me.0.rooms ≡ (P.plan self.now.run).shards }
        requires published { published ≡ sent (P.plan self.now.run) seat.old.me.0 }
        requires held { HasOut (P.plan self.now.run) seat.old.me }
        ensures same { (seat.new.table_id ≡ seat.old.table_id) × (seat.new.id ≡ seat.old.id) }
        ensures room { LooksForRoom (P.plan self.now.run) seat.old.me.0 result seat.new.me.0 }
        ensures held { HasOut (P.plan self.now.run) seat.new.me }
    {
        for dest in 0..self.shards {
            let word = self.taken_word(shard, dest);
            let taken = self.table.shared.load::<Ask<P>>(seat, word);
            if published - taken >= RING {
                return Some((dest, taken));
            }
        }
        None
    }

    /// Puts the lists into the places for them.
    pub(crate) fn put_all(
        &self,
        seat: &mut Seat<Option<P::Parcel>, Note<P>>,
        shard: u32,
        published: u64,
        height: u64,
        lists: List<P::Parcel>,
    )
        requires name { seat.old.table_id ≡ self.now.name }
        requires inside { shard < (P.plan self.now.run).shards }
        requires places { map (λ x. x.0) seat.old.me.1 ≡ spaces (P.plan self.now.run) shard published
            (P.plan self.now.run).shards }
        requires lists { lists ≡ (P.plan self.now.run).lists shard height }
        requires all { length lists ≡ (P.plan self.now.run).shards }
        ensures same { (seat.new.table_id ≡ seat.old.table_id) × (seat.new.id ≡ seat.old.id) }
        ensures me { seat.new.me ≡ (
          seat.old.me.0,
          carry (P.plan self.now.run) shard published height
              (P.plan self.now.run).shards,
        ) }
    {
        let _height = height;
        let mut rest = lists.into_inner();
        let mut dest = self.shards;
        while let Some(list) = rest.pop() {
            dest -= 1;
            let place = self.place(shard, dest, published);
            self.table.shared.exchange(seat, place, Some(list));
            seat.turn();
        }
    }
}
