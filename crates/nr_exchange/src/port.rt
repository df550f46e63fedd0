//! The port of a shard, and what it does on the exchange.
ghost use Rattle.std.specs.Prelude.{◌≡◌, ◌+◌, ◌<◌, ◌≤◌, true, false};
ghost use Rattle.nr_exchange.specs.Plan.{IsNextChunk};
ghost use Rattle.nr_exchange.specs.Notes.{link, passed, gives_up};
ghost use Rattle.nr_exchange.specs.Ports.{IsPortOf, Takes, Marks, Publishes};

use crate::exchange::Exchange;
use crate::law::{GiveBack, GiveUp, Look, Pass, Raise, Try};
use crate::note::Note;
use crate::planned::Planned;
use atomic_table::Seat;
use nr_bytes::List;
use nr_ids::{Height, ShardId};
use std::marker::Model;

/// What `Port::try_take` found.
#[derive(Debug, Drop)]
pub enum Parcel<T> {
    /// The list.
    Whole(T),
    /// The list isn't published, and its source has abandoned the run. It has published so many heights.
    Abandoned { published: u64 },
}

/// The list isn't published yet. Its source has published so many heights.
#[derive(Debug, Drop)]
pub struct NotYet {
    pub published: u64,
}

/// There is no room for the list to a shard, which took so many lists of this source, eight fewer than were published
/// to it. All lists come back.
#[derive(Debug, Drop)]
pub struct Full<T> {
    pub dest: ShardId,
    pub taken: u64,
    pub lists: List<T>,
}

/// What a published word has more where its shard has abandoned the run.
const MARK: u64 = 1 << 32;

/// The port of a shard on the exchange that it was made with. It carries what the shard knows of the others.
///
/// Contracts see the exchange's name, the port's seat there, which it keeps, and a `Note`: what the shard has
/// published, of each source what was claimed, seen and given back, of each destination what was known as taken, and
/// how often the words were loaded.
#[derive(Drop)]
pub struct Port<P: Planned> {
    pub(crate) seat: Seat<Option<P::Parcel>, Note<P>>,
    pub(crate) shard: u32,
    pub(crate) abandoned: bool,
    /// How many lists it has published to each shard.
    pub(crate) sent: u64,
    /// How many lists it has taken of each source.
    pub(crate) taken: Vec<u64>,
}

impl<P: Planned> Model for Port<P> {
    ghost use Rattle.nr_exchange.specs.Views.{PortView};
    ghost use Rattle.nr_exchange.specs.Seats.{IsSeated};

    ghost Value = { PortView P };

    ghost view = { λ p. record { name = p.seat.table_id; seat = p.seat.id; note = p.seat.me.0 } };

    ghost invariant = { λ p. IsSeated (P.plan p.seat.me.0.run) p.seat.me p.shard p.abandoned p.sent p.taken.items };
}

unsafe impl<P: Planned> Send for Port<P> {}

impl<P: Planned> Port<P> {
    /// The shard whose port it is.
    pub fn shard(&self) -> ShardId
        ensures { result.0 ≡ self.now.note.shard }
    {
        ShardId(self.shard)
    }

    /// Tries to take the next list that a source has for this shard, by one load of the source's published word. A
    /// source's lists are taken in order of height, and none is left out. The place of a list that was taken is free
    /// again for its source. It takes no memory and never waits.
    ///
    /// The answer is `Whole` with the serial run's list exactly where the loaded number is at least the height, and
    /// else `Abandoned` exactly where the loaded word has the mark.
    ///
    /// # Errors
    ///
    /// `NotYet` exactly where the loaded number is below the height and the word has no mark.
    pub fn try_take(
        &mut self,
        exchange: &Exchange<P>,
        source: ShardId,
        height: Height,
    ) -> Result<Parcel<P::Parcel>, NotYet>
        requires port { IsPortOf P.plan exchange.now self.old }
        requires inside { source.0 < (P.plan exchange.now.run).shards }
        requires next { IsNextChunk (P.plan exchange.now.run) source.0 (link self.old.note source.0).claimed height.0 }
        ensures port { IsPortOf P.plan exchange.now self.new }
        ensures takes { Takes (P.plan exchange.now.run) source.0 height.0 self.old.note result self.new.note }
    {
        let words = &exchange.table.shared;
        let word = words.load::<Try<P>>(&mut self.seat, source.0 as usize);
        let published = word % MARK;
        if height.0 <= published {
            let before = self.taken[source.0 as usize];
            let list = exchange.take_claimed(&mut self.seat, source.0, self.shard, before);
            self.taken[source.0 as usize] = before + 1;
            Ok(Parcel::Whole(list))
        } else if word >= MARK {
            Ok(Parcel::Abandoned { published })
        } else {
            Err(NotYet { published })
        }
    }

    /// Publishes the lists of the shard's next height, which are the serial run's. It loads the taken word of each link
    /// once, in order of destination, up to the first that has no room. It takes no memory and never waits.
    ///
    /// # Errors
    ///
    /// `Full` exactly where a link has no room: eight lists more were published than its taken word, as loaded in this
    /// call, tells as taken. The lists come back, and nothing is published.
    pub fn publish(
        &mut self,
        exchange: &Exchange<P>,
        height: Height,
        lists: List<P::Parcel>,
    ) -> Result<(), Full<P::Parcel>>
        requires port { IsPortOf P.plan exchange.now self.old }
        requires next { height.0 ≡ self.old.note.number + 1 }
        requires last { height.0 ≤ (P.plan exchange.now.run).heights }
        requires there { (P.plan exchange.now.run).present self.old.note.shard height.0 ≡ true }
        requires lists { lists ≡ (P.plan exchange.now.run).lists self.old.note.shard height.0 }
        ensures port { IsPortOf P.plan exchange.now self.new }
        ensures published { Publishes (P.plan exchange.now.run) lists self.old.note result self.new.note }
    {
        match exchange.look_for_room(&mut self.seat, self.shard, self.sent) {
            Some((dest, taken)) => Err(Full {
                dest: ShardId(dest),
                taken,
                lists,
            }),
            None => {
                exchange.put_all(&mut self.seat, self.shard, self.sent, height.0, lists);
                let words = &exchange.table.shared;
                words.fetch_add::<Raise<P>>(&mut self.seat, self.shard as usize, 1);
                self.sent += 1;
                Ok(())
            }
        }
    }

    /// Goes past the shard's next height, whose chunk is missing.
    pub fn skip(&mut self, exchange: &Exchange<P>, height: Height)
        requires port { IsPortOf P.plan exchange.now self.old }
        requires next { height.0 ≡ self.old.note.number + 1 }
        requires last { height.0 ≤ (P.plan exchange.now.run).heights }
        requires missing { (P.plan exchange.now.run).present self.old.note.shard height.0 ≡ false }
        ensures port { IsPortOf P.plan exchange.now self.new }
        ensures passed { self.new.note ≡ passed self.old.note }
    {
        exchange
            .table
            .shared
            .fetch_add::<Pass<P>>(&mut self.seat, self.shard as usize, 1);
    }

    /// Marks the run as abandoned by this shard. A port that has done so does nothing.
    pub fn abandon(&mut self, exchange: &Exchange<P>)
        requires port { IsPortOf P.plan exchange.now self.old }
        ensures port { IsPortOf P.plan exchange.now self.new }
        ensures marked { self.new.note ≡ gives_up self.old.note }
    {
        if !self.abandoned {
            exchange
                .table
                .shared
                .fetch_add::<GiveUp<P>>(&mut self.seat, self.shard as usize, MARK);
            self.abandoned = true;
        }
    }

    /// Whether a shard has abandoned the run, by one load of its published word.
    pub fn has_abandoned(&mut self, exchange: &Exchange<P>, shard: ShardId) -> bool
        requires port { IsPortOf P.plan exchange.now self.old }
        requires inside { shard.0 < (P.plan exchange.now.run).shards }
        ensures port { IsPortOf P.plan exchange.now self.new }
        ensures marks { Marks shard.0 self.old.note result self.new.note }
    {
        exchange
            .table
            .shared
            .load::<Look<P>>(&mut self.seat, shard.0 as usize)
            >= MARK
    }
}
