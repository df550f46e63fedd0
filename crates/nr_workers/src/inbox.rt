//! The lists that a shard takes, in order of height and then source.

ghost use Rattle.std.specs.Prelude.{◌≡◌, ◌≤◌, ◌<◌, ◌+◌, ◌^◌, IfOk};
ghost use Rattle.nr_exchange.specs.Ports.{IsPortOf};
ghost use Rattle.nr_exchange.specs.SerialPlan.{serial_plan};
ghost use Rattle.nr_workers.specs.Taking.{IsInbox, Finds, done_after, source_after};

use nr_exchange::{Exchange, Parcel, Port, Serial};
use nr_ids::{Height, ShardId};
use nr_overlap::Phases;
use std::alloc::AllocError;

/// The port of a shard, with the list that it takes next: all lists of the first `done` heights are taken, and of the
/// height after them those of the sources before `source`.
#[derive(Drop)]
pub(crate) struct Inbox<P: Phases> {
    pub port: Port<Serial<P>>,
    pub done: u64,
    pub source: u32,
}

/// What `Inbox::take_next` found.
#[derive(Drop)]
pub(crate) enum Found<L> {
    /// The list of the next source, or nothing where it has no chunk.
    Passed(Option<L>),
    /// The list isn't published yet.
    Waits,
    /// All lists up to the height are taken.
    All,
}

impl<P: Phases> Inbox<P> {
    /// Goes on to the next source, and behind the last one to the next height.
    fn pass(&mut self, shards: u32)
        requires source { self.old.source < shards }
        requires done { self.old.done + 1 < 2 ^ 64 }
        ensures port { self.new.port ≡ self.old.port }
        ensures done { self.new.done ≡ done_after shards self.old.done self.old.source }
        ensures source { self.new.source ≡ source_after shards self.old.source }
    {
        if self.source + 1 < shards {
            self.source += 1;
        } else {
            self.source = 0;
            self.done += 1;
        }
    }

    /// Tries to take the next list of the heights up to `last`. A run that a source has abandoned is as good as want
    /// of memory.
    pub(crate) fn take_next(
        &mut self,
        phases: &P,
        exchange: &Exchange<Serial<P>>,
        last: u64,
    ) -> Result<Found<P::Parcel>, AllocError>
        requires run { phases.now ≡ exchange.now.run.0 }
        requires inbox { IsInbox P.rules exchange.now self.old }
        requires last { last ≤ (P.rules exchange.now.run.0).heights }
        ensures port { IsPortOf (serial_plan P.rules) exchange.now self.new.port }
        ensures inbox { IfOk result (λ found. IsInbox P.rules exchange.now self.new) }
        ensures shard { IfOk result (λ found. self.new.port.note.shard ≡ self.old.port.note.shard) }
        ensures number { IfOk result (λ found. self.new.port.note.number ≡ self.old.port.note.number) }
        ensures found { IfOk result (λ found. Finds (P.rules exchange.now.run.0) self.old.port.note.shard last
            self.old.done self.old.source found self.new.done self.new.source) }
    {
        if self.done >= last {
            return Ok(Found::All);
        }
        let shards = phases.shards();
        let source = ShardId(self.source);
        let height = Height(self.done + 1);
        if !phases.present(source, height) {
            self.pass(shards);
            return Ok(Found::Passed(None));
        }
        match self.port.try_take(exchange, source, height) {
            Ok(Parcel::Whole(list)) => {
                self.pass(shards);
                Ok(Found::Passed(Some(list)))
            }
            Ok(Parcel::Abandoned { published: _ }) => Err(AllocError),
            Err(_) => Ok(Found::Waits),
        }
    }
}
