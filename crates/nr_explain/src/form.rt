//! Forms of lines.

ghost use Rattle.std.specs.Prelude.{◌≡◌, [], ◌∷◌, map, option_map};
ghost use Rattle.nr_explain.specs.Words.{pieces};
ghost use Rattle.nr_explain.specs.Forms.{is_of, fits, form_of};
ghost use Rattle.nr_explain.specs.Coded.{kind_of, form_in};

use crate::entries::is_entry;
use crate::numbers::{amount_of, are_bytes, is_name, number_of};
use nr_words::{cut, is_digest};

/// What a word of a line may be.
#[derive(Clone, Copy, Debug)]
pub(crate) enum Kind {
    /// This word.
    Word(&'static str),
    /// This number.
    Figure(&'static str),
    /// A number of 64 bits.
    Number,
    /// A number of 128 bits.
    Amount,
    /// 32 bytes in hexadecimal.
    Hash,
    /// Bytes in hexadecimal, and a dash for none.
    Bytes,
    /// The number of an entry of a configuration.
    Entry,
    /// A name in visible characters, without quotes.
    Name,
}

/// What a word may be, and a text that goes with it.
#[derive(Clone, Copy, Debug)]
pub(crate) struct Field {
    pub(crate) kind: Kind,
    pub(crate) text: &'static str,
}

/// A form, as `Word("chunk"): "line", Number: "height"`.
macro_rules! fields {
    ($($kind:ident $(($word:literal))?: $text:literal),*) => {
        &[$(Field { kind: Kind::$kind $(($word))?, text: $text }),*]
    };
}

pub(crate) use fields;

fn is_of(kind: &Kind, word: &[u8]) -> bool
    ensures { result ≡ is_of (kind_of kind.now) word.now }
{
    match kind {
        Kind::Word(text) => word == text.as_bytes(),
        Kind::Figure(text) => word == text.as_bytes(),
        Kind::Number => number_of(word).is_some(),
        Kind::Amount => amount_of(word).is_some(),
        Kind::Hash => is_digest(word),
        Kind::Bytes => are_bytes(word),
        Kind::Entry => is_entry(word),
        Kind::Name => is_name(word),
    }
}

/// Whether the line has a word for each field, and no other.
fn fits(form: &[Field], line: &[u8]) -> bool
    ensures { result ≡ fits (form_in form.now) (pieces 32 line.now) }
{
    match form {
        [] => false,
        [field, fields @ ..] => match cut(line, b' ') {
            Some((word, words)) => is_of(&field.kind, word) && fits(fields, words),
            None => fields.is_empty() && is_of(&field.kind, line),
        },
    }
}

/// The first form that the line fits.
pub(crate) fn form_of(forms: &[&'static [Field]], line: &[u8]) -> Option<&'static [Field]>
    ensures { option_map (λ f. form_in f.now) result ≡ form_of (map (λ f. form_in f.now) forms.now)
        (pieces 32 line.now) }
{
    for form in forms {
        if fits(form, line) {
            return Some(form);
        }
    }
    None
}
