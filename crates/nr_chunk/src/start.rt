//! From what a chain starts.

ghost use Rattle.std.specs.Prelude.{◌≡◌, ◌<◌, [], true, IfOk};
ghost use Rattle.nr_blocks.specs.Genesis.{IsSoundGenesis};
ghost use Rattle.nr_chunk.specs.Start.{IsStart, genesis_start, shards_in, start_list, start_world};
ghost use Rattle.nr_chunk.specs.Starts.{IsSoundStart, start_of};
ghost use Rattle.nr_chunk.specs.declared.start.FirstState.TheVariants as first;

use crate::state::{ChunkStore, State};
use nr_blocks::{Genesis, fill};
use nr_bytes::List;
use nr_config::Config;
use nr_ids::ShardId;
use nr_layout::Layout;
use nr_records::{Receipt, Spelled};
use nr_state::{Entry, ShardState};
use std::alloc::{AllocError, Global};
use std::marker::Model;

/// The worlds of shards, and what the first chunk of each takes.
#[derive(Drop)]
pub struct Resumed {
    pub layout: Layout,
    /// How many heights lie below the first block.
    pub below: u64,
    /// The trie entries of each shard's world, in order of number.
    pub worlds: List<List<Entry>>,
    /// What each shard's first chunk takes at the end of its opening, in order of number.
    pub carried: List<List<Receipt>>,
}

/// From what a chain starts.
#[derive(Drop)]
pub enum FirstState {
    Founded(Genesis),
    Resumed(Resumed),
}

/// A configuration, and from what a chain starts under it. Contracts see the start as plain worlds and lists.
#[derive(Drop)]
pub struct Grounds {
    pub(crate) config: Config,
    pub(crate) state: FirstState,
}

impl Model for Grounds {
    ghost use Rattle.nr_chunk.specs.Starts.{GroundsView, grounds_code, start_of, IsSoundStart};

    ghost Value = { GroundsView };

    ghost coded = { grounds_code };

    ghost view = { λ g. record { config = g.config; start = start_of g.state } };

    ghost invariant = { λ g. IsSoundStart g.config g.state };
}

impl FirstState {
    /// The boundaries between the shards.
    fn layout(&self) -> &Layout
        ensures { result.now ≡ (start_of self.now).boundaries }
    {
        match self {
            FirstState::Founded(genesis) => &genesis.layout,
            FirstState::Resumed(resumed) => &resumed.layout,
        }
    }

    /// How many heights lie below the first block.
    fn below(&self) -> u64
        ensures { result ≡ (start_of self.now).below }
    {
        match self {
            FirstState::Founded(_) => 0,
            FirstState::Resumed(resumed) => resumed.below,
        }
    }

    /// The state of a shard before its first chunk.
    fn state(&self, alloc: Global, shard: ShardId, config: &Config) -> Result<State, AllocError>
        requires sound { IsSoundStart config.now self.now }
        requires inside { shard.0 < shards_in (start_of self.now) }
        ensures world { IfOk result (λ state. state.world ≡ start_world (start_of self.now) shard.0) }
        ensures marks { IfOk result (λ state. state.marks ≡ []) }
        ensures config { IfOk result (λ state. state.config ≡ config.now) }
        ensures whole { IfOk result (λ state. state.whole ≡ true) }
    {
        let store = ChunkStore::new(alloc);
        match self {
            FirstState::Founded(genesis) => fill(alloc, genesis, shard, store, config),
            FirstState::Resumed(resumed) => {
                let entries = &resumed.worlds.inner()[shard.0 as usize];
                ShardState::from_entries(alloc, store, config, entries)
            }
        }
    }

    /// What the first chunk of a shard takes at the end of its opening.
    fn list(&self, alloc: Global, shard: ShardId) -> Result<List<Receipt>, AllocError>
        requires inside { shard.0 < shards_in (start_of self.now) }
        ensures { IfOk result (λ list. list ≡ start_list (start_of self.now) shard.0) }
    {
        match self {
            FirstState::Founded(_) => Ok(List::of(Vec::new(alloc))),
            FirstState::Resumed(resumed) => match resumed.carried.inner().get(shard.0 as usize) {
                Some(list) => list.duplicate(alloc),
                None => Ok(List::of(Vec::new(alloc))),
            },
        }
    }
}

impl Grounds {
    /// A sound genesis under a configuration.
    pub(crate) fn founded(config: Config, genesis: Genesis) -> Grounds
        requires sound { IsSoundGenesis config genesis }
        ensures { result ≡ record { config = config; start = genesis_start genesis } }
    {
        Grounds {
            config,
            state: FirstState::Founded(genesis),
        }
    }

    /// Worlds and lists under a configuration.
    pub(crate) fn resumed(config: Config, resumed: Resumed) -> Grounds
        requires sound { IsSoundStart config (first.Resumed resumed) }
        ensures { result ≡ record { config = config; start = start_of (first.Resumed resumed) } }
    {
        Grounds {
            config,
            state: FirstState::Resumed(resumed),
        }
    }

    /// The configuration, under which the start is sound.
    pub(crate) fn config(&self) -> &Config
        ensures config { result.now ≡ self.now.config }
        ensures sound { IsStart self.now.config self.now.start }
    {
        &self.config
    }

    /// The boundaries between the shards.
    pub(crate) fn layout(&self) -> &Layout
        ensures { result.now ≡ self.now.start.boundaries }
    {
        self.state.layout()
    }

    /// How many heights lie below the first block.
    pub(crate) fn below(&self) -> u64
        ensures { result ≡ self.now.start.below }
    {
        self.state.below()
    }

    /// A shard before its first chunk: its state, and what that chunk takes at the end of its opening.
    pub(crate) fn begin(
        &self,
        alloc: Global,
        shard: ShardId,
    ) -> Result<(State, List<Receipt>), AllocError>
        requires inside { shard.0 < shards_in self.now.start }
        ensures world { IfOk result (λ first. first.0.world ≡ start_world self.now.start shard.0) }
        ensures list { IfOk result (λ first. first.1 ≡ start_list self.now.start shard.0) }
        ensures marks { IfOk result (λ first. first.0.marks ≡ []) }
        ensures config { IfOk result (λ first. first.0.config ≡ self.now.config) }
        ensures whole { IfOk result (λ first. first.0.whole ≡ true) }
    {
        let state = self.state.state(alloc, shard, &self.config)?;
        let list = self.state.list(alloc, shard)?;
        Ok((state, list))
    }
}
