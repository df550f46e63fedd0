//! What holds of every part.

ghost use Rattle.std.specs.Prelude.{◌≡◌, ◌<◌, ℕ, true, Ok, List as Items};
ghost use Rattle.std.specs.List.{AllByRecursion, flat_map, range_with_len};
ghost use Rattle.nr_bytes.specs.Numbers.{IsBytes};
ghost use Rattle.nr_columns.specs.declared.entry.Entry.{Entry as Entries};
ghost use Rattle.nr_parts.specs.Offsets.{part_of_entries, meets, Meets};
ghost use Rattle.nr_parts.specs.declared.share.Share.{Share as Shares};
ghost use Rattle.nr_columns.specs.Entries.{pairs_of};
ghost use Rattle.nr_parts.specs.Cutting.{InOrder};
ghost use Rattle.nr_ids.specs.declared.key.Hash32.{Hash32 as Hashes};
ghost use Rattle.nr_parts.specs.declared.part.Part.{Part as Parts};
ghost use Rattle.nr_triedef.specs.Root.{Contents};
ghost use Rattle.nr_parts.specs.Checking.{checked};
ghost use Rattle.nr_parts.specs.Agreeing.{IsPartOfEach, IsCutAccepted, AreCutsJoined};

/// Does nothing. A part that is accepted has the entries of its number in every map with its root
/// that a store can hold and that agrees with its texts and values.
pub fn accepted_parts()
    ensures { (root : Hashes) (part : Parts) → checked root part ≡ Ok tt → IsPartOfEach root part }
{}

/// Does nothing. The parts of all numbers, one after the other, are the entries that were cut.
pub fn parts_in_turn()
    ensures { (entries : Items Entries) (count : ℕ) → InOrder entries
        → AllByRecursion (λ (e : Entries). IsBytes e.key) entries → 0 < count
        → flat_map (λ number. part_of_entries (pairs_of entries) count number) (range_with_len 0 count) ≡ entries }
{}

/// Does nothing. The part that is cut out of a map that a store can hold is accepted, if the map
/// agrees with its texts.
pub fn cut_parts_pass()
    ensures { (m : Contents) (count number : ℕ) → IsCutAccepted m count number }
{}

/// Does nothing. All parts that are cut out of a map that a store can hold are joined to its
/// entries, if the map agrees with the texts of each.
pub fn cut_parts_join()
    ensures { (m : Contents) (count : ℕ) → AreCutsJoined m count }
{}

/// Does nothing. Offsets meet the part's exactly where one of them is one of the part's.
pub fn meeting_offsets()
    ensures some { (share : Shares) (at usage : ℕ) → 0 < share.whole → 0 < share.count → meets share at usage ≡ true
        → Meets share at usage }
    ensures only { (share : Shares) (at usage : ℕ) → 0 < share.whole → 0 < share.count → Meets share at usage
        → meets share at usage ≡ true }
{}
