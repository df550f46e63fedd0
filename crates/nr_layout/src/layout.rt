//! The boundaries between shards: reading them, the shard of an id, and routing.

ghost use Rattle.std.specs.Prelude.{◌≡◌, ◌+◌, ◌≤◌, length, IfOk, OnErr};
ghost use Rattle.nr_bytes.specs.Answers.{GivesRead};
ghost use Rattle.nr_layout.specs.Layout.{shard_of, parts, IsLayout};
ghost use Rattle.nr_layout.specs.Reading.{layout_at, layout_bytes, FitsLayout};
ghost use Rattle.nr_layout.specs.LayoutLaw.{layout_law};
ghost use Rattle.nr_records.specs.declared.fault.RecordFault.TheVariants.{Memory};

use crate::reading::boundaries_of;
use crate::routing::{count_up_to, routed};
use nr_bytes::{List, Reader, Writer};
use nr_ids::{AccountId, ShardId};
use nr_records::{Receipt, RecordFault, Spelled};
use std::alloc::{AllocError, Global};
use std::marker::Model;

/// Which shard an account lives in. Contracts see the boundaries: at most 15 account ids, each above
/// the one before it in byte order. They make one shard more than they are.
#[derive(Debug, PartialEq, Eq, Drop)]
pub struct Layout {
    boundaries: List<AccountId>,
}

impl Model for Layout {
    ghost use Rattle.std.specs.Prelude.{List, ℕ};
    ghost use Rattle.nr_layout.specs.Layout.{IsLayout};

    ghost Value = { List (List ℕ) };

    ghost view = { λ a. a.boundaries };

    ghost invariant = { λ a. IsLayout a.boundaries };

    ghost inverse = { λ v. record { boundaries = v } };
}

impl Layout {
    /// Reads the boundaries: their count, 4 bytes, and that many account ids.
    ///
    /// # Errors
    ///
    /// `TooManyBoundaries` with the place of the count, where it is above 15; no boundary is then
    /// read. `BoundaryOrder` with the place of the first boundary that is not above the one before
    /// it. Otherwise the fault of the first field that can't be read: `Short`, `BadUtf8` or
    /// `BadAccountId`. Of these the first one in reading order comes. `Memory` where memory ran out.
    /// The reader then stands where it stood.
    #[tactic(auto, using(crate::proofs::Boundaries::layout_is_read), unfolding(crate::specs::Reading::layout_at))]
    pub fn read(alloc: Global, reader: &mut Reader<'_>) -> Result<Layout, RecordFault>
        ensures gives { GivesRead Memory result reader.new (layout_at reader.old) }
        ensures refused { OnErr result (reader.new ≡ reader.old) }
        ensures layout { IfOk result IsLayout }
    {
        let at = reader.at();
        let mut ahead = reader.fork();
        let count = ahead.count()?;
        if count > 15 {
            return Err(RecordFault::TooManyBoundaries { at });
        }
        let boundaries = boundaries_of(alloc, count, &mut ahead)?;
        *reader = ahead;
        Ok(Layout {
            boundaries: List::of(boundaries),
        })
    }

    /// The boundaries: at most 15 ids, each above the one before it in byte order.
    pub fn boundaries(&self) -> &[AccountId]
        ensures boundaries { result.now ≡ self.now }
        ensures layout { IsLayout self.now }
    {
        self.boundaries.inner()
    }

    /// How many shards there are, 1 to 16.
    pub fn shards(&self) -> u32
        ensures count { result ≡ length self.now + 1 }
        ensures few { result ≤ 16 }
    {
        self.boundaries().len() as u32 + 1
    }

    /// The shard of an account, from 0: the count of boundaries that are not greater than its id in
    /// byte order.
    pub fn shard_of(&self, id: &AccountId) -> ShardId
        ensures shard { result.0 ≡ shard_of self.now id.now }
        ensures within { result.0 ≤ length self.now }
    {
        ShardId(count_up_to(self.boundaries(), id))
    }

    /// One list for each shard, in the order of the shards: the receipts whose receiver lives in it,
    /// in the order of the input.
    ///
    /// # Errors
    ///
    /// Where there is no memory for the lists.
    pub fn route(
        &self,
        alloc: Global,
        list: List<Receipt>,
    ) -> Result<List<List<Receipt>>, AllocError>
        ensures { IfOk result (λ lists. lists ≡ parts self.now (length self.now + 1) list) }
    {
        let lists = routed(alloc, self.boundaries(), list.into_inner())?;
        Ok(List::of(lists))
    }
}

impl Spelled for Layout {
    ghost spelling = { layout_bytes };

    ghost fits = { FitsLayout };

    ghost reading = { layout_at };

    ghost law = { layout_law };

    fn read(alloc: Global, reader: &mut Reader<'_>) -> Result<Layout, RecordFault> {
        Layout::read(alloc, reader)
    }

    fn write(&self, writer: &mut Writer) -> Result<(), AllocError> {
        let _boundaries = self.boundaries();
        self.boundaries.write(writer)
    }

    fn duplicate(&self, alloc: Global) -> Result<Layout, AllocError> {
        Ok(Layout {
            boundaries: self.boundaries.duplicate(alloc)?,
        })
    }
}
