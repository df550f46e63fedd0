//! The core: shards at different heights and stages, by single steps.

ghost use Rattle.std.specs.Prelude.{◌≡◌, ◌<◌, false, IfOk, None};
ghost use Rattle.std.specs.Option.{option_copied};
ghost use Rattle.nr_overlap.specs.Moment.{world_at, working_at, report_at, flight_at};
ghost use Rattle.nr_overlap.specs.Positions.{at};
ghost use Rattle.nr_overlap.specs.Outcome.{behind, last_worlds, lists_left, reports_by_shard};
ghost use Rattle.nr_overlap.specs.Run.{Steps, ending, opening, opened};
ghost use Rattle.nr_overlap.specs.Inside.{IsInside};
ghost use Rattle.nr_overlap.specs.Held.{IsSerial, IsKept};
ghost use Rattle.nr_overlap.specs.Balance.{AllAddsUp};
ghost use Rattle.nr_overlap.specs.Next.{IsNextOf};

use crate::closing::{close_held, close_rows};
use crate::event::{Event, StepFault};
use crate::next::{behind_of, next_of};
use crate::phases::Phases;
use crate::position::{Position, Stage};
use crate::reads::{report_in_rows, slot_of, working_of, world_of};
use crate::refusal::refusal;
use crate::shards::{Held, Shards};
use crate::steps::happen;
use nr_bytes::List;
use nr_ids::{Height, ShardId};
use std::alloc::{AllocError, Global};
use std::marker::Model;

/// Shards that stand at different heights and stages, over phases.
///
/// Contracts see the phases, where each shard stands (its `Position`), and whether a step met want of memory. What the
/// shards hold is at every moment what the serial run has at their positions: `world`, `working`, `report` and
/// `flight` say so.
#[derive(Drop)]
pub struct Core<P: Phases> {
    alloc: Global,
    phases: P,
    shards: Shards<P::World, P::Working, P::Parcel, P::Report>,
    lost: bool,
}

impl<P: Phases> Model for Core<P> {
    ghost use Rattle.std.specs.Prelude.{◌≡◌, false};
    ghost use Rattle.nr_overlap.specs.CoreView.{CoreView, core_code};
    ghost use Rattle.nr_overlap.specs.Held.{IsSerial, IsKept};

    ghost Value = { CoreView P };

    ghost coded = { core_code P.code };

    ghost view = { λ c. record { phases = c.phases; positions = c.shards.positions.items; lost = c.lost } };

    ghost invariant = { λ c. (IsKept (P.rules c.phases) c.shards) × (P.is_run c.phases)
        × (c.lost ≡ false → IsSerial (P.rules c.phases) c.shards) };
}

/// A core whose run is over, taken apart: all that the serial run comes to.
#[derive(Drop)]
pub struct Closed<P: Phases> {
    pub phases: P,
    /// For each shard, in order of number, the reports of its chunks, in order of height.
    pub reports: List<List<P::Report>>,
    /// The last world of each shard, in order of number.
    pub worlds: List<P::World>,
    /// Each list that no chunk takes, with its source, its height and its destination, in order of these three.
    pub left: List<(ShardId, Height, ShardId, P::Parcel)>,
}

/// All shards before their first chunk.
fn first_shards<P: Phases>(
    alloc: Global,
    phases: &P,
) -> Result<Shards<P::World, P::Working, P::Parcel, P::Report>, AllocError>
    ensures serial { IfOk result (λ shards. IsSerial (P.rules phases.now) shards) }
    ensures run { IfOk result (λ _. P.is_run phases.now) }
    ensures opening { IfOk result (λ shards. shards.positions.items ≡ opening (P.rules phases.now)) }
{
    let mut shards = Shards {
        positions: Vec::new(alloc),
        held: Vec::new(alloc),
        dues: Vec::new(alloc),
        rows: Vec::new(alloc),
    };
    for shard in 0..phases.shards() {
        let world = phases.begin(alloc, ShardId(shard))?;
        let mut row = Vec::new(alloc);
        row.push(None)?;
        shards.held.push(Held::World(world))?;
        shards.dues.push(Vec::new(alloc))?;
        shards.rows.push(row)?;
        shards.positions.push(Position {
            number: 0,
            stage: Stage::Idle,
            taken: 0,
        })?;
    }
    Ok(shards)
}

impl<P: Phases + Drop> Core<P> {
    /// A core with all shards before their first chunk.
    ///
    /// # Errors
    ///
    /// Where there is no memory for it. The phases are let go.
    pub fn new(alloc: Global, phases: P) -> Result<Core<P>, AllocError>
        ensures { IfOk result (λ core. core ≡ opened (P.rules phases) phases) }
    {
        let shards = first_shards(alloc, &phases)?;
        Ok(Core {
            alloc,
            phases,
            shards,
            lost: false,
        })
    }

    /// Takes a core apart whose run is over: `behind` gives none.
    ///
    /// # Errors
    ///
    /// Where there is no memory for it, or a step met want of memory before. The phases are let go.
    pub fn close(self) -> Result<Closed<P>, AllocError>
        requires { self.positions ≡ ending (P.rules self.phases) }
        ensures phases { IfOk result (λ closed. closed.phases ≡ self.phases) }
        ensures reports { IfOk result (λ closed. closed.reports ≡ reports_by_shard (P.rules self.phases)) }
        ensures worlds { IfOk result (λ closed. closed.worlds ≡ last_worlds (P.rules self.phases)) }
        ensures left { IfOk result (λ closed. closed.left ≡ lists_left (P.rules self.phases)) }
    {
        let Core {
            alloc,
            phases,
            shards,
            lost,
        } = self;
        if lost {
            return Err(AllocError);
        }
        let Shards {
            positions: _,
            held,
            dues: _,
            rows,
        } = shards;
        let worlds = close_held(alloc, &phases, held)?;
        let mut left = Vec::new(alloc);
        let reports = close_rows(alloc, &phases, rows, &mut left)?;
        Ok(Closed {
            phases,
            reports,
            worlds,
            left: List::of(left),
        })
    }
}

impl<P: Phases> Core<P> {
    /// The phases that it was made with.
    pub fn phases(&self) -> &P
        ensures { result.now ≡ self.now.phases }
    {
        &self.phases
    }

    /// The world of a shard. It is the serial run's, and `None` exactly where the shard is at stage 1.
    pub fn world(&self, shard: ShardId) -> Option<&P::World>
        requires inside { shard.0 < (P.rules self.now.phases).shards }
        requires whole { self.now.lost ≡ false }
        ensures { option_copied result ≡ world_at (P.rules self.now.phases) shard.0 (at self.now.positions shard.0) }
    {
        world_of(&self.shards.held[shard.0 as usize])
    }

    /// The working state of a shard. It is the serial run's, and `None` exactly where the shard is not at stage 1.
    pub fn working(&self, shard: ShardId) -> Option<&P::Working>
        requires inside { shard.0 < (P.rules self.now.phases).shards }
        requires whole { self.now.lost ≡ false }
        ensures { option_copied result ≡ working_at (P.rules self.now.phases) shard.0 (at self.now.positions shard.0) }
    {
        working_of(&self.shards.held[shard.0 as usize])
    }

    /// The report of a chunk. It is the serial run's, and `None` exactly where that chunk has not been sealed. It stays
    /// where a step met want of memory.
    pub fn report(&self, shard: ShardId, height: Height) -> Option<&P::Report>
        ensures { option_copied result ≡ report_at (P.rules self.now.phases) self.now.positions shard.0 height.0 }
    {
        report_in_rows(&self.shards.rows, shard.0 as usize, height.0 as usize)
    }

    /// The list of a source's chunk to a shard. It is the serial run's, and `None` exactly where that chunk has not
    /// been sealed or the list was taken.
    pub fn flight(&self, source: ShardId, height: Height, dest: ShardId) -> Option<&P::Parcel>
        requires source { source.0 < (P.rules self.now.phases).shards }
        requires dest { dest.0 < (P.rules self.now.phases).shards }
        requires whole { self.now.lost ≡ false }
        ensures { option_copied result ≡ flight_at (P.rules self.now.phases) self.now.positions source.0 height.0
            dest.0 }
    {
        let row = &self.shards.rows[source.0 as usize];
        slot_of(row, height.0 as usize, dest.0 as usize)
    }

    /// Where a shard stands. It stays where a step met want of memory.
    pub fn position(&self, shard: ShardId) -> Position
        requires inside { shard.0 < (P.rules self.now.phases).shards }
        ensures { result ≡ at self.now.positions shard.0 }
    {
        self.shards.positions[shard.0 as usize]
    }

    /// Makes a step, where it is enabled.
    ///
    /// # Errors
    ///
    /// `NotEnabled` with the first of the reasons of `Why`. Nothing is changed. `Memory` where the step is enabled and
    /// there was none for it: positions and reports stay, and each later step answers `Memory` too.
    pub fn step(&mut self, event: Event) -> Result<(), StepFault>
        requires inside { IsInside (P.rules self.old.phases).shards event }
        ensures { Steps (P.rules self.old.phases) self.old event result self.new }
    {
        if self.lost {
            return Err(StepFault::Memory);
        }
        if let Some(why) = refusal(&self.phases, &self.shards, event) {
            return Err(StepFault::NotEnabled(why));
        }
        self.lost = true;
        match happen(self.alloc, &self.phases, &mut self.shards, event) {
            Ok(()) => {
                self.lost = false;
                Ok(())
            }
            Err(_) => Err(StepFault::Memory),
        }
    }

    /// A step that is enabled and leads on to the end: that of the first shard among those with the least published
    /// number. At stage 0 it is Open where the next chunk is there and else Publish, at stage 1 the Take of the next
    /// due list or else Seal, at stage 2 Publish. `None` exactly where every shard has published all heights. It
    /// takes no memory.
    pub fn next_event(&self) -> Option<Event>
        requires { self.now.lost ≡ false }
        ensures { IsNextOf (P.rules self.now.phases) self.now.positions result }
    {
        next_of(&self.phases, &self.shards)
    }

    /// The first shard whose published number isn't the last height, with that number; `None` exactly where there is no
    /// such shard, and so all shards have published all heights. So it is also where a step met want of memory.
    pub fn behind(&self) -> Option<(ShardId, Height)>
        ensures is { result ≡ behind (P.rules self.now.phases) self.now.positions }
        ensures over { result ≡ None → self.now.positions ≡ ending (P.rules self.now.phases) }
    {
        behind_of(&self.phases, &self.shards.positions)
    }

    /// Each amount that chunks keep adds up, at whatever heights and stages the shards stand: what worlds, working
    /// states, reports and lists in flight hold is what the first worlds held and what was made. It is a law, and does
    /// nothing when it runs.
    pub fn adds_up(&self)
        ensures { AllAddsUp (P.rules self.now.phases) self.now.positions }
    {
        let _lost = self.lost;
    }
}
