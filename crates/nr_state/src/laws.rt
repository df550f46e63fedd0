//! What holds of every world. Each function here does nothing when it runs: its contract is the law.

ghost use Rattle.std.specs.Prelude.{◌≡◌, ◌≤◌, ℕ, Bool, List, [], Option, Some, None, true, false, nat_lt};
ghost use Rattle.std.specs.FinMap as map;
ghost use Rattle.std.specs.List.{AllByRecursion, list_any};
ghost use Rattle.nr_columns.specs.Entries.{contents_of, pairs_of};
ghost use Rattle.nr_columns.specs.declared.entry.Entry.{Entry};
ghost use Rattle.nr_config.specs.Config.{Config};
ghost use Rattle.nr_ids.specs.declared.key.Hash32.{Hash32};
ghost use Rattle.nr_ids.specs.declared.key.PublicKey.{PublicKey};
ghost use Rattle.nr_records.specs.declared.access_key.AccessKey.{AccessKey};
ghost use Rattle.nr_records.specs.declared.access_key.CallPermission.{CallPermission};
ghost use Rattle.nr_records.specs.declared.access_key.Permission.TheVariants.{Call};
ghost use Rattle.nr_records.specs.declared.account.Account.{Account};
ghost use Rattle.nr_records.specs.declared.receipt.Receipt.{Receipt};
ghost use Rattle.nr_state.specs.Calls.{ChangesOnly};
ghost use Rattle.nr_state.specs.Changes.{set_datum, removed_datum, with_received};
ghost use Rattle.nr_state.specs.Entries.{IsReadBack, is_of};
ghost use Rattle.nr_state.specs.FromEntries.{AreWholeEntries, world_from};
ghost use Rattle.nr_state.specs.Flat.{flat, inputs_of, is_missing, missing_inputs};
ghost use Rattle.nr_state.specs.Keeping.{HasOwnInputs, IsKept, MovesReceipts, MovesTokens, OwnsApart};
ghost use Rattle.nr_state.specs.Keyed.{IsKeyed};
ghost use Rattle.nr_state.specs.Queues.{awaited_by, has_awaited};
ghost use Rattle.nr_state.specs.Scopes.{all_of, over, over_map, part_of};
ghost use Rattle.nr_state.specs.Usage.{key_usage};
ghost use Rattle.nr_state.specs.Valid.{IsValidWorld, Waits};
ghost use Rattle.nr_state.specs.View.{ArePostponed, IsTold, repeats_input};
ghost use Rattle.nr_state.specs.World.{World, no_world, with_account};
ghost use Rattle.nr_state.specs.Worlds.{IsWorld};

use crate::state::ShardState;
use nr_columns::laws::laid_laws;
use nr_triedef::Store;

/// What a state shows, where no change was left in the middle, and what its checkpoints show.
pub fn shown_world_laws<S: Store>(state: &ShardState<S>)
    // Names are account ids, hashes have 32 bytes, and records fit their fields.
    ensures here { state.now.whole ≡ true → IsWorld state.now.world }
    ensures marks { AllByRecursion IsWorld state.now.marks }
    // No two worlds have the same trie entries.
    ensures told { state.now.whole ≡ true → IsTold state.now.world }
    ensures marks_told { AllByRecursion IsTold state.now.marks }
{
    laid_laws(&state.columns);
}

/// Which changes keep a valid world valid.
pub fn valid_world_laws()
    // The empty world is valid.
    ensures empty { (c : Config) → IsValidWorld c no_world }
    // Writes and removals keep a valid world valid.
    ensures kept { (c : Config) (w : World) → IsValidWorld c w → IsKept c w }
{}

/// What changes do to the tokens of a world.
pub fn token_laws()
    ensures { (c : Config) (w : World) → MovesTokens c w }
{}

/// What changes do to any amount that receipts have, summed over those that wait.
pub fn receipt_laws()
    ensures sums { (amount : Receipt → ℕ) (w : World) → MovesReceipts amount w }
    // What accounts own changes nothing of what waits.
    ensures apart { (c : Config) (w : World) → OwnsApart c w }
{}

/// When a key costs its owner what it cost before.
pub fn key_cost_laws()
    // With another nonce.
    ensures nonce { (c : Config) (key : PublicKey) (access : AccessKey) (nonce : ℕ)
        → key_usage c key (record access { nonce = nonce }) ≡ key_usage c key access }
    // With more or less left of its allowance.
    ensures allowance { (c : Config) (key : PublicKey) (access : AccessKey) (call : CallPermission) (before after : ℕ)
        → access.permission ≡ Call call → call.allowance ≡ Some before
        → key_usage c key (record access { permission = Call (record call { allowance = Some after }) })
        ≡ key_usage c key access }
{}

/// What receipts wait for.
pub fn waiting_laws()
    // A receipt has inputs of its own exactly where they are distinct and none is awaited.
    ensures unawaited { (w : World) (r : Receipt) → ArePostponed w → HasOwnInputs w r → has_awaited w r ≡ false }
    ensures own { (w : World) (r : Receipt) → ArePostponed w → repeats_input r ≡ false → has_awaited w r ≡ false
        → HasOwnInputs w r }
    // A receipt waits exactly where it lacks an input.
    ensures lacking { (w : World) (r : Receipt)
        → nat_lt 0 (missing_inputs w r) ≡ list_any (is_missing w r.receiver) (inputs_of r.body) }
    // Each receipt still waits once a datum has come, where the one that has it as an input lacks two.
    ensures still { (w : World) (receiver : List ℕ) (id : Hash32) (bytes : Option (List ℕ)) → ArePostponed w
        → map.get w.received (receiver, id.0) ≡ None
        → ((k : List ℕ × List ℕ) (r : Receipt) → map.get w.postponed k ≡ Some r → Waits w r)
        → ((by : Hash32) (r : Receipt) → awaited_by w receiver id ≡ Some by
        → map.get w.postponed (receiver, by.0) ≡ Some r → 2 ≤ missing_inputs w r)
        → (k : List ℕ × List ℕ) (r : Receipt) → map.get w.postponed k ≡ Some r
        → Waits (with_received w receiver id bytes) r }
{}

/// What a contract may change without a receipt.
pub fn own_change_laws()
    // Nothing, or one change after the other.
    ensures same { (id : List ℕ) (w : World) → ChangesOnly id w w }
    ensures chained { (id : List ℕ) (w v after : World) → ChangesOnly id w v → ChangesOnly id v after
        → ChangesOnly id w after }
    // The account's balance and its data.
    ensures balance { (id : List ℕ) (w : World) (account : Account) (amount : ℕ)
        → map.get w.accounts id ≡ Some account
        → ChangesOnly id w (with_account w id (record account { amount = amount })) }
    ensures datum_set { (c : Config) (id key value : List ℕ) (w : World)
        → ChangesOnly id w (set_datum c w id key value) }
    ensures datum_removed { (c : Config) (id key : List ℕ) (w : World)
        → ChangesOnly id w (removed_datum c w id key) }
{}

/// What some accounts have of a world, with its delayed queue.
pub fn part_laws()
    // Of a valid world it is valid.
    ensures valid { (c : Config) (x : List ℕ → Bool) (w : World) → IsValidWorld c w → IsValidWorld c (part_of x w) }
    // Where its names are ids and its records fit their fields, so it is of the part.
    ensures fits { (x : List ℕ → Bool) (w : World) → IsWorld w → IsWorld (part_of x w) }
    // Its trie entries are those of these accounts and of the queue.
    ensures entries { (x : List ℕ → Bool) (w : World) → IsKeyed w → IsReadBack w
        → flat (part_of x w) ≡ map.retain_keys (flat w) (is_of x) }
    // With another part its trie entries are the part's, and elsewhere as they were.
    ensures changed { (x : List ℕ → Bool) (u w : World) → IsKeyed u → IsKeyed w → IsReadBack u → IsReadBack w
        → flat (over (all_of x) u w) ≡ over_map (is_of x) (flat u) (flat w) }
    ensures read { (x : List ℕ → Bool) (w : World) → IsKeyed w → IsReadBack w → IsReadBack (part_of x w) }
    // A world whose names are ids and whose records fit their fields is read back from its trie entries.
    ensures told { (w : World) → IsWorld w → ArePostponed w → IsReadBack w }
{}

/// Which trie entries stand for a world.
pub fn entry_laws()
    // Those of a world whose names are ids and whose records fit their fields, and the world can be made of them again.
    ensures whole { (w : World) (es : List Entry) → IsWorld w → ArePostponed w → pairs_of es ≡ map.entries (flat w)
        → AreWholeEntries es }
    ensures again { (w : World) (es : List Entry) → IsWorld w → ArePostponed w → pairs_of es ≡ map.entries (flat w)
        → world_from es ≡ w }
    // Whole entries stand for such a world, are its trie entries, and are read back.
    ensures fits { (es : List Entry) → AreWholeEntries es → IsWorld (world_from es) }
    ensures postponed { (es : List Entry) → AreWholeEntries es → ArePostponed (world_from es) }
    ensures contents { (es : List Entry) → AreWholeEntries es → flat (world_from es) ≡ contents_of es }
    ensures pairs { (es : List Entry) → AreWholeEntries es → map.entries (flat (world_from es)) ≡ pairs_of es }
    ensures read { (es : List Entry) → AreWholeEntries es → IsReadBack (world_from es) }
    // No entries stand for the world without anything.
    ensures none { AreWholeEntries [] }
    ensures empty { world_from [] ≡ no_world }
{}
