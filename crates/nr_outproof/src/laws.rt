//! What holds of every tree and of every item.

ghost use Rattle.std.specs.Prelude.{◌≡◌, ◌∷◌, [], ◌<◌, ◌≤◌, ◌*◌, ◌^◌, List, ℕ, Ok, length, take, drop};
ghost use Rattle.nr_records.specs.declared.chunk_result.ChunkLine.{ChunkLine};
ghost use Rattle.nr_outproof.specs.Fitting.{FitsLine};
ghost use Rattle.nr_outproof.specs.Items.{is_sent, line_item};
ghost use Rattle.nr_outproof.specs.Texts.{FitsProof, proof_read, proof_text};
ghost use Rattle.nr_outproof.specs.declared.proof.Proof.{Proof};
ghost use Rattle.nr_outproof.specs.Tree.{leaf_top, leaf_tops, no_top, pair_top, top_of};

/// What holds of every tree. It does nothing when it runs.
#[tactic(auto, using(crate::proofs::Tops::top_none, crate::proofs::Tops::top_one, crate::proofs::Tops::tree_more))]
pub fn tree_laws()
    // The top of no item, and of one.
    ensures none { top_of (leaf_tops []) ≡ no_top }
    ensures one { (item : List ℕ) → top_of (leaf_tops (item ∷ [])) ≡ leaf_top item }
    // The top of more is that of the first items and of the rest, cut at the greatest power of two below their number.
    ensures more { (items : List (List ℕ)) (h : ℕ) → 2 ^ h < length items → length items ≤ 2 * 2 ^ h
        → top_of (leaf_tops items) ≡ pair_top (top_of (leaf_tops (take (2 ^ h) items)))
        (top_of (leaf_tops (drop (2 ^ h) items))) }
{}

/// What holds of every item. It does nothing when it runs.
#[tactic(auto, using(crate::proofs::ItemLaws::lines_are))]
pub fn item_laws()
    // Of two lines of a kind that have the same bytes, both are the same.
    ensures { (l m : ChunkLine) → FitsLine l → FitsLine m → is_sent l ≡ is_sent m → line_item l ≡ line_item m → l ≡ m }
{}

/// What holds of the text of every proof. It does nothing when it runs.
#[tactic(auto, using(crate::proofs::RoundTrip::proof_back, crate::proofs::OnlyText::only_text))]
pub fn text_laws()
    // It is read back as the proof.
    ensures back { (p : Proof) → FitsProof p → proof_read (proof_text p) ≡ Ok p }
    // Bytes that are read as a proof are its text.
    ensures only { (bytes : List ℕ) (p : Proof) → proof_read bytes ≡ Ok p → bytes ≡ proof_text p }
{}
