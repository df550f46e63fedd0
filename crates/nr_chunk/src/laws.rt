//! What holds of every chunk of a run.

ghost use Rattle.std.specs.Prelude.{◌≡◌, List};
ghost use Rattle.std.specs.List.{AllByRecursion};
ghost use Rattle.nr_blocks.specs.Genesis.{AreSoundEntries, supply};
ghost use Rattle.nr_blocks.specs.declared.genesis.Genesis.{Genesis};
ghost use Rattle.nr_chunk.specs.Amounts.{tokens};
ghost use Rattle.nr_chunk.specs.Chain.{AreBounded, Chain, IsChain, rules_of};
ghost use Rattle.nr_chunk.specs.Goodness.{AreGood, IsGood, IsSmall};
ghost use Rattle.nr_chunk.specs.Locality.{IsLocalChunk};
ghost use Rattle.nr_chunk.specs.Start.{IsStart, genesis_start, start_tokens};
ghost use Rattle.nr_config.specs.Config.{Config};
ghost use Rattle.nr_overlap.specs.Balance.{IsKeptBy};
ghost use Rattle.nr_records.specs.Receipts.{IsReceipt};
ghost use Rattle.nr_records.specs.declared.receipt.Receipt.{Receipt};
ghost use Rattle.nr_state.specs.Calls.{Called};
ghost use Rattle.nr_state.specs.Keyed.{IsKeyed};
ghost use Rattle.nr_state.specs.Local.{IsLocal};
ghost use Rattle.nr_state.specs.Valid.{IsBounded, IsValidWorld};
ghost use Rattle.nr_state.specs.World.{World};
ghost use Rattle.nr_state.specs.Worlds.{IsWorld};
ghost use Rattle.nr_state.specs.declared.calls.CallContext.{CallContext};

/// The chunks of a run keep tokens: what a chunk's world and the lists that it takes hold is in the world behind it, in
/// the lists that it sends, or burnt. It does nothing when it runs.
pub fn chunk_laws()
    ensures tokens { (x : Chain) → IsChain x → IsKeptBy (rules_of x) (tokens x) }
{}

/// A sound genesis is a start, and all that this start has in tokens is its supply: what its accounts have together. It
/// does nothing when it runs.
pub fn genesis_laws()
    ensures start { (c : Config) (g : Genesis) → AreSoundEntries c g.entries → IsStart c (genesis_start g) }
    ensures supply { (c : Config) (g : Genesis) → AreSoundEntries c g.entries
        → start_tokens c (genesis_start g) ≡ supply g.entries }
{}

/// A chunk on the part of a world that it touches comes to what it comes to on the whole world.
pub fn locality_laws()
    // Where calls look at nothing but the current account.
    ensures local { (c : Config) (call : World → CallContext → Called) → IsLocal call → IsLocalChunk c call }
    // In a valid world each postponed receipt is kept under its receiver.
    ensures keyed { (c : Config) (w : World) → IsValidWorld c w → IsKeyed w }
{}

/// Records that fit their fields have no gas above 64 bits.
pub fn small_laws()
    // None of the receipts that wait in a world whose records fit has any.
    ensures world { (w : World) → IsWorld w → IsSmall w }
    // A receipt that fits is good once its gas price and its prepaid gas fit in 64 bits, and so is each of a list.
    ensures receipt { (c : Config) (r : Receipt) → IsReceipt r → IsBounded c r → IsGood c r }
    ensures list { (c : Config) (list : List Receipt) → AllByRecursion IsReceipt list → AreBounded c list
        → AreGood c list }
{}
