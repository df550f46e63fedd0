//! What looking at the nodes of a map's trie gives.

ghost use Rattle.std.specs.Prelude.{◌≡◌, ◌≤◌, ℕ, List, length, Some, Ok};
ghost use Rattle.std.specs.FinMap as map;
ghost use Rattle.nr_ids.specs.declared.key.Hash32.{Hash32};
ghost use Rattle.nr_triedef.specs.Node.{digest, node_text};
ghost use Rattle.nr_triedef.specs.Root.{Contents, Paths, paths};
ghost use Rattle.nr_walk.specs.Looking.{looked_at};
ghost use Rattle.nr_walk.specs.Shown.{IsOf, behind_all};
ghost use Rattle.nr_walk.specs.Told.{spot};
ghost use Rattle.nr_walk.specs.Tries.{IsBelow, top_of};

/// Does nothing. A node of a map that a store can hold and that agrees with the texts passes every
/// check where its own text is held, whichever of its children's texts are held.
pub fn passing_law()
    ensures { (texts : Contents) (root : Hash32) (m : Contents) (place : List ℕ) (ps : Paths) → IsOf texts root m
        → IsBelow (paths (map.entries m)) ps → 1 ≤ length ps → behind_all place (paths (map.entries m)) ≡ ps
        → map.get texts (digest (node_text (top_of ps))).0 ≡ Some (node_text (top_of ps))
        → looked_at texts (spot place (digest (node_text (top_of ps)))) ≡ Ok (top_of ps) }
{}

ghost use Rattle.nr_walk.specs.declared.searched.Searched.{Searched};
ghost use Rattle.nr_walk.specs.declared.walking.Gain.{Gain};
ghost use Rattle.nr_walk.specs.Looked.{Holds};
ghost use Rattle.nr_walk.specs.Shown.{walk_of};

/// Does nothing. Where the texts of all nodes that are looked at and of all searched values are held,
/// and a map that a store can hold agrees with the texts, the walk has no fault.
pub fn completing_law()
    ensures { (texts : Contents) (searched : List Searched) (root : Hash32) (m : Contents) → IsOf texts root m
        → Holds texts searched (paths (map.entries m)) → (gains : List Gain)
        × (walk_of texts searched root ≡ Ok gains) }
{}
