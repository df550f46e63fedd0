//! What holds of every file of a gathered chunk.

ghost use Rattle.std.specs.Prelude.{◌≡◌, ℕ, List as Items, Ok};
ghost use Rattle.nr_bytes.specs.Numbers.{IsBytes};
ghost use Rattle.nr_gathered.specs.Files.{gathered_bytes, gathered_in, FitsGathered};
ghost use Rattle.nr_gathered.specs.declared.gathered.Gathered.{Gathered as AnyGathered};

/// Does nothing. What fits its fields is read back from its file, and what is read of bytes fits
/// its fields and has these bytes as its file.
pub fn gathered_laws()
    ensures back { (gathered : AnyGathered) → FitsGathered gathered → gathered_in (gathered_bytes gathered)
        ≡ Ok gathered }
    ensures only { (bytes : Items ℕ) (gathered : AnyGathered) → IsBytes bytes → gathered_in bytes ≡ Ok gathered
        → FitsGathered gathered × (bytes ≡ gathered_bytes gathered) }
{}
