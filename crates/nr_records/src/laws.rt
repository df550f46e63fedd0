//! What holds of every record's spelling.

ghost use Rattle.std.specs.Prelude.{◌≡◌, ◌++◌, List, ℕ, []};
ghost use Rattle.nr_bytes.specs.Numbers.{IsBytes};
ghost use Rattle.nr_bytes.specs.Reading.{Input};
ghost use Rattle.nr_bytes.specs.Spelling.{before, behind, Takes};
ghost use Rattle.nr_records.specs.Reading.{all_of};

use crate::spelled::Spelled;

/// What holds of the spellings of a type. It does nothing when it runs.
pub fn spelling_laws<T: Spelled>()
    // What is read fits and is spelled so, and nothing behind it is taken.
    ensures taken { (s : Input) (v : T) (t : Input) → IsBytes s.left → T.reading s ≡ Ok (v, t)
        → T.fits v × Takes s (T.spelling v) t }
    // What fits is read from its spelling, whatever follows.
    ensures again { (v : T) (at : ℕ) (rest : List ℕ) → T.fits v
        → T.reading (before (T.spelling v) at rest) ≡ Ok (v, behind (T.spelling v) at rest) }
    // All of the spelling is read as the value.
    ensures back { (v : T) → T.fits v → all_of T.reading (T.spelling v) ≡ Ok v }
    // No spelling is a proper front of another one.
    ensures no_front { (v w : T) (rest : List ℕ) → T.fits v → T.fits w → T.spelling w ≡ T.spelling v ++ rest
        → (w ≡ v) × (rest ≡ []) }
{}
