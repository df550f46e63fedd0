//! What holds of all entries that hold together.

ghost use Rattle.std.specs.Prelude.{◌≡◌, ℕ, List, []};
ghost use Rattle.nr_config.specs.Config.{Config};
ghost use Rattle.nr_state.specs.Valid.{IsValidWorld};
ghost use Rattle.nr_state.specs.World.{accounts_tokens};
ghost use Rattle.nr_blocks.specs.Genesis.{AreSoundEntries, entries_of, genesis_world, supply};
ghost use Rattle.nr_blocks.specs.declared.genesis_entry.GenesisEntry.{GenesisEntry};

/// What the first worlds of shards hold. It does nothing when it runs.
pub fn first_world_laws()
    // Without boundaries there is one shard, which has all entries and all tokens.
    ensures one { (es : List GenesisEntry) → entries_of [] 0 es ≡ es }
    ensures supply { (c : Config) (es : List GenesisEntry) → AreSoundEntries c es
        → accounts_tokens (genesis_world es) ≡ supply es }
    // The first world of each shard is valid, wherever the boundaries are.
    ensures valid { (c : Config) (es : List GenesisEntry) → AreSoundEntries c es
        → (boundaries : List (List ℕ)) (shard : ℕ)
        → IsValidWorld c (genesis_world (entries_of boundaries shard es)) }
{}
