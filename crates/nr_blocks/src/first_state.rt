//! The first world of a shard.

ghost use Rattle.std.specs.Prelude.{◌≡◌, [], true, IfOk, OnOk};
ghost use Rattle.std.specs.FinMap as map;
ghost use Rattle.nr_state.specs.Valid.{IsValidWorld};
ghost use Rattle.nr_state.specs.View.{with_world};
ghost use Rattle.nr_blocks.specs.Filling.{laid, with_entry};
ghost use Rattle.nr_blocks.specs.Genesis.{AreSoundEntries, entries_of, genesis_world, lives_in};

use crate::genesis::Genesis;
use crate::genesis_entry::GenesisEntry;
use crate::owners::owner_of;
use nr_config::Config;
use nr_ids::ShardId;
use nr_layout::Layout;
use nr_state::ShardState;
use nr_triedef::Store;
use std::alloc::{AllocError, Global};

/// Writes an entry as it is: an account states what all its entries are counted as.
#[tactic(auto, unfolding(crate::specs::Filling::with_entry))]
fn put_entry<S: Store>(state: &mut ShardState<S>, entry: &GenesisEntry) -> Result<(), AllocError>
    requires { state.old.whole ≡ true }
    ensures { OnOk result (state.new ≡ with_world state.old (with_entry state.old.world entry.now)) }
{
    match entry {
        GenesisEntry::Account(id, account) => state.set_account(id, account),
        GenesisEntry::Code(id, code) => state.put_code(id, code.inner()),
        GenesisEntry::Key(id, key, access) => state.put_key(id, key, access),
        GenesisEntry::Datum(id, key, value) => state.put_datum(id, key.inner(), value.inner()),
    }
}

fn lives_in(layout: &Layout, shard: ShardId, entry: &GenesisEntry) -> bool
    ensures { result ≡ lives_in layout.now shard.0 entry.now }
{
    layout.shard_of(owner_of(entry)).0 == shard.0
}

fn fill_entries<S: Store>(
    state: &mut ShardState<S>,
    genesis: &Genesis,
    shard: ShardId,
) -> Result<(), AllocError>
    requires { state.old.whole ≡ true }
    ensures { OnOk result (state.new ≡ with_world state.old
        (laid with_entry state.old.world (entries_of genesis.now.layout shard.0 genesis.now.entries))) }
{
    let entries = genesis.entries.inner();
    let mut left = entries.len();
    while left > 0 {
        left -= 1;
        if lives_in(&genesis.layout, shard, &entries[left]) {
            put_entry(state, &entries[left])?;
        }
    }
    Ok(())
}

/// The state of a shard before the first block: the accounts of the genesis that live in it, with
/// their keys, code and data. The genesis's `supply` is not looked at.
///
/// # Errors
///
/// Where memory runs out.
pub fn fill<S: Store + Drop>(
    alloc: Global,
    genesis: &Genesis,
    shard: ShardId,
    store: S,
    config: &Config,
) -> Result<ShardState<S>, AllocError>
    requires sound { AreSoundEntries config.now genesis.now.entries }
    requires empty { S.contents store ≡ map.empty }
    requires marks { S.marks store ≡ [] }
    ensures world { IfOk result (λ state. state.world
        ≡ genesis_world (entries_of genesis.now.layout shard.0 genesis.now.entries)) }
    ensures valid { IfOk result (λ state. IsValidWorld config.now state.world) }
    ensures marks { IfOk result (λ state. state.marks ≡ []) }
    ensures spare { IfOk result (λ state. state.spare ≡ S.spare store) }
    ensures config { IfOk result (λ state. state.config ≡ config.now) }
    ensures whole { IfOk result (λ state. state.whole ≡ true) }
{
    let mut state = ShardState::new(alloc, store, config);
    fill_entries(&mut state, genesis, shard)?;
    Ok(state)
}
