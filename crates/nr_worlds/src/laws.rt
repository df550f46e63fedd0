//! What holds of entries that pass. Each function here does nothing when it runs: its contract is the law.

ghost use Rattle.std.specs.Prelude.{◌≡◌, List, true};
ghost use Rattle.std.specs.FinMap as map;
ghost use Rattle.nr_columns.specs.Entries.{pairs_of};
ghost use Rattle.nr_columns.specs.declared.entry.Entry.{Entry};
ghost use Rattle.nr_config.specs.Config.{Config};
ghost use Rattle.nr_entries.specs.Told.{AreBytes};
ghost use Rattle.nr_state.specs.Flat.{flat};
ghost use Rattle.nr_state.specs.FromEntries.{world_from};
ghost use Rattle.nr_state.specs.Valid.{IsValidWorld};
ghost use Rattle.nr_state.specs.World.{World};
ghost use Rattle.nr_state.specs.Worlds.{IsWorld};
ghost use Rattle.nr_worlds.specs.Judging.{is_queue, is_world, queue_of};
ghost use Rattle.nr_worlds.specs.Laws.{AreOfQueue, AreOfWorld};

/// Which entries are those of a valid world.
pub fn world_laws()
    // Those that pass are.
    ensures sound { (c : Config) (es : List Entry) → AreBytes es → is_world c es ≡ true → AreOfWorld c es }
    // Those of a valid world pass, and the world can be told from them.
    ensures passes { (c : Config) (es : List Entry) (w : World) → IsWorld w → IsValidWorld c w
        → pairs_of es ≡ map.entries (flat w) → is_world c es ≡ true }
    ensures told { (c : Config) (es : List Entry) (w : World) → IsWorld w → IsValidWorld c w
        → pairs_of es ≡ map.entries (flat w) → world_from es ≡ w }
{}

/// Which entries are those of a delayed queue and of nothing else.
pub fn queue_laws()
    // Those that pass are.
    ensures sound { (es : List Entry) → AreBytes es → is_queue es ≡ true → AreOfQueue es }
    // Those of such a world pass, and the world can be told from them.
    ensures passes { (es : List Entry) (w : World) → IsWorld w → queue_of w ≡ w
        → pairs_of es ≡ map.entries (flat w) → is_queue es ≡ true }
    ensures told { (es : List Entry) (w : World) → IsWorld w → queue_of w ≡ w
        → pairs_of es ≡ map.entries (flat w) → world_from es ≡ w }
{}
