//! Entries of a valid world.

ghost use Rattle.std.specs.Prelude.{◌≡◌, IfOk, Some};
ghost use Rattle.nr_bytes.specs.Answers.{Gives};
ghost use Rattle.nr_worlds.specs.Answers.{memory_fault, world_checked};
ghost use Rattle.nr_worlds.specs.Judging.{is_world};
ghost use Rattle.nr_entries.specs.Told.{AreBytes};
ghost use Rattle.nr_worlds.specs.Tests.{StandsFor, passes};

use crate::accounts::accounts_fit;
use crate::fault::WorldFault;
use crate::queue::delayed_of;
use crate::tokens::tokens_fit;
use crate::told::columns_of;
use crate::waiting::waiting_fit;
use nr_bytes::List;
use nr_columns::{Columns, Entry};
use nr_config::Config;
use nr_entries::bytes_law;
use nr_triedef::Store;
use std::alloc::{AllocError, Global};

/// Whether the columns that entries stand for are those of a valid world.
#[tactic(auto, using(crate::proofs::WorldTold::postponed_named), unfolding(crate::specs::Tests::passes))]
fn passes<S: Store>(
    alloc: Global,
    config: &Config,
    columns: &Columns<S>,
    entries: &[Entry],
) -> Result<bool, AllocError>
    requires bytes { AreBytes entries.now }
    requires told { StandsFor entries.now (Some columns.now) }
    ensures { IfOk result (λ does. does ≡ passes config.now columns.now.columns entries.now) }
{
    let Some(delayed) = delayed_of(alloc, columns, entries)? else {
        return Ok(false);
    };
    let postponed = columns.postponed_receipts()?;
    let accounts = columns.accounts()?;
    Ok(
        waiting_fit(alloc, columns, entries, postponed.inner())?
            && accounts_fit(alloc, config, columns, entries)?
            && tokens_fit(config, accounts.inner(), postponed.inner(), delayed.inner()),
    )
}

/// Whether entries are those of a valid world.
#[tactic(auto, using(crate::proofs::WorldTold::passes_as, crate::proofs::WorldTold::untold_is))]
fn is_world(alloc: Global, entries: &List<Entry>, config: &Config) -> Result<bool, AllocError>
    ensures { IfOk result (λ is. is ≡ is_world config.now entries.now) }
{
    bytes_law(entries.inner());
    match columns_of(alloc, entries)? {
        Some(columns) => passes(alloc, config, &columns, entries.inner()),
        None => Ok(false),
    }
}

/// Whether the entries are the trie entries of a world that is valid under the configuration.
///
/// # Errors
///
/// `NotWorld` exactly where they are those of no such world; `Memory` where memory ran out.
pub fn check_world(alloc: Global, entries: &List<Entry>, config: &Config) -> Result<(), WorldFault>
    ensures { Gives memory_fault result (world_checked config.now entries.now) }
{
    if !is_world(alloc, entries, config)? {
        return Err(WorldFault::NotWorld);
    }
    Ok(())
}
