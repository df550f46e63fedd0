//! What each call of a chunk keeps: tokens, with what was burnt, and receipts over their places. It is so on every
//! world and working state that meets the conditions of the call, whether a run comes to it or not.

ghost use Rattle.std.specs.Prelude.{ℕ, List};
ghost use Rattle.nr_call_laws.specs.Keeping.{CanTakeAll, KeepsOpened, KeepsSealed, KeepsTaken, KeepsTokens, chunk_of};
ghost use Rattle.nr_chunk.specs.Chain.{CanOpen, CanTake, Chain, IsChain, opened};
ghost use Rattle.nr_chunk.specs.Views.{Kept, Working};
ghost use Rattle.nr_records.specs.declared.receipt.Receipt.{Receipt};

/// Opening a chunk, taking a list and sealing each keep tokens and whatever receipts have, and so a whole chunk keeps
/// tokens. It does nothing when it runs.
pub fn call_laws()
    ensures opens { (x : Chain) → IsChain x → (s h : ℕ) (w : Kept) → CanOpen x s h w → KeepsOpened x s h w }
    // Postponed and executed receipts are terms of their own, and late ones are receipts of the list: so what was
    // postponed and is no more, since a datum of any shard set it free, is executed in this call, once.
    ensures takes { (x : Chain) → IsChain x → (k : Working) (list : List Receipt) → CanTake x k list
        → KeepsTaken x k list }
    // Of each working state.
    ensures seals { (x : Chain) (k : Working) → KeepsSealed x k }
    // Opened, given lists in turn, and sealed: before + taken = after + sent + burnt.
    ensures chunk { (x : Chain) → IsChain x → (s h : ℕ) (w : Kept) (lists : List (List Receipt)) → CanOpen x s h w
        → CanTakeAll x (opened x s h w) lists → KeepsTokens x w lists (chunk_of x s h w lists) }
{}
