//! The kinds of a chunk's items.

ghost use Rattle.std.specs.Prelude.{◌≡◌};
ghost use Rattle.nr_words.specs.Kinds.{kind_word};

/// Which lines of a chunk's result are items.
#[derive(Clone, Copy, Debug, PartialEq, Eq)]
pub enum ProofKind {
    /// Every line but those of receipts that left.
    Outcome,
    /// The lines of receipts that left.
    Receipt,
}

impl ProofKind {
    /// The word for the kind: `outcome` or `receipt`.
    pub fn word(self) -> &'static str
        ensures { result.now ≡ kind_word self }
    {
        match self {
            ProofKind::Outcome => "outcome",
            ProofKind::Receipt => "receipt",
        }
    }
}
