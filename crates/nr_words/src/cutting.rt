//! Pieces between separators.

ghost use Rattle.std.specs.Prelude.{◌≡◌, ◌∷◌, [], ◌<◌, ◌==◌, IfSome, MatchOption, length, position};
ghost use Rattle.nr_words.specs.Pieces.{pieces};

fn place_of(bytes: &[u8], separator: u8) -> Option<usize>
    ensures { result ≡ position (λ b. b == separator) bytes.now }
{
    bytes.iter().position(|byte| *byte == separator)
}

/// What stands before the first separator and behind it, where there is one.
pub fn cut(bytes: &[u8], separator: u8) -> Option<(&[u8], &[u8])>
    ensures pieces { MatchOption result (pieces separator bytes.now ≡ bytes.now ∷ [])
        (λ parts. pieces separator bytes.now ≡ parts.0.now ∷ pieces separator parts.1.now) }
    ensures shorter { IfSome result (λ parts. length parts.1.now < length bytes.now) }
{
    match place_of(bytes, separator) {
        Some(at) => Some((&bytes[..at], &bytes[at + 1..])),
        None => None,
    }
}
