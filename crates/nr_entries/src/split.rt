//! Keys in two parts.

ghost use Rattle.std.specs.Prelude.{◌≡◌, ◌==◌};
ghost use Rattle.std.specs.List.{position};
ghost use Rattle.std.specs.Option.{option_map};
ghost use Rattle.nr_columns.specs.View.{at_first};

/// The place of the first byte of a kind.
fn place_of(bytes: &[u8], mark: u8) -> Option<usize>
    ensures { result ≡ position (λ b. b == mark) bytes.now }
{
    bytes.iter().position(|byte| *byte == mark)
}

/// The parts before and after the first byte of a kind; `None` where there is none.
#[tactic(auto, using(crate::proofs::Splitting::split_there, crate::proofs::Splitting::not_split))]
pub fn split_at_first(bytes: &[u8], mark: u8) -> Option<(&[u8], &[u8])>
    ensures { option_map (λ parts. (parts.0.now, parts.1.now)) result ≡ at_first mark bytes.now }
{
    let at = place_of(bytes, mark)?;
    Some((&bytes[..at], &bytes[at + 1..]))
}
