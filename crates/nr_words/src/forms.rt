//! Commands by a table of forms, and what their words are.

ghost use Rattle.std.specs.Prelude.{◌≡◌, option_map, position};
ghost use Rattle.std.specs.List.{list_all};
ghost use Rattle.std.specs.Str.{bytes_eq};
ghost use Rattle.nr_words.specs.Forms.{is_digest, is_hex_digit, name_of, place_value};
ghost use Rattle.nr_words.specs.Words.{place_in, value_in};

use crate::numbers::{is_digit, number_of};

/// A place of a form: what its word has to be, and the name by which it is known.
#[derive(Clone, Copy, Debug)]
pub enum Place {
    /// the name of a file, or another word without a rule of its own
    File(&'static str),
    /// a number in decimal digits without leading zeros, from `least` to `most`
    Number {
        /// the name of the place
        name: &'static str,
        /// the least number that may stand there
        least: u64,
        /// the greatest
        most: u64,
    },
    /// 64 digits of base 16, in lower case
    Digits(&'static str),
    /// one of these words
    OneOf {
        /// the name of the place
        name: &'static str,
        /// the words that may stand there
        words: &'static [&'static str],
    },
}

/// The form of a command: its verb, and the places behind it.
#[derive(Clone, Copy, Debug)]
pub struct Form {
    /// The word that the form begins with.
    pub verb: &'static str,
    /// What has to stand behind it, in order.
    pub places: &'static [Place],
}

/// What a word is at its place.
#[derive(Clone, Copy, Debug)]
pub enum Value<'a> {
    /// the word of a file
    Text(&'a str),
    /// a number within the bounds of its place
    Number(u64),
    /// 64 digits of base 16, in lower case
    Digits(&'a str),
    /// the number of the word among the words of its place, from 0
    Choice(usize),
}

/// The verb of a form, and what the words at its places are.
#[derive(Debug, Drop)]
pub struct Found<'a> {
    /// The verb of the form.
    pub verb: &'static str,
    /// What stands at its places, in order.
    pub values: Vec<Value<'a>>,
}

/// The name of a place.
pub(crate) fn name_of(place: &Place) -> &'static str
    ensures { result.now ≡ name_of (place_in place.now) }
{
    match place {
        Place::File(name) => name,
        Place::Number { name, .. } => name,
        Place::Digits(name) => name,
        Place::OneOf { name, .. } => name,
    }
}

/// Whether a byte is a digit of base 16, in lower case.
fn is_hex_digit(byte: u8) -> bool
    ensures { result ≡ is_hex_digit byte }
{
    is_digit(byte) || (97 <= byte && byte <= 102)
}

/// Whether a word is nothing but digits of base 16, in lower case. The empty one is.
pub fn all_hex_digits(word: &[u8]) -> bool
    ensures { result ≡ list_all is_hex_digit word.now }
{
    word.iter().all(|byte| is_hex_digit(*byte))
}

/// Whether a word is 64 digits of base 16, in lower case, as 32 bytes are spelled.
pub fn is_digest(word: &[u8]) -> bool
    ensures { result ≡ is_digest word.now }
{
    word.len() == 64 && all_hex_digits(word)
}

/// The number of a word among some words.
fn chosen(words: &[&str], word: &str) -> Option<usize>
    ensures { result ≡ position (λ known. bytes_eq known.now word.now) words.now }
{
    words.iter().position(|known| *known == word)
}

/// What a word is at a place, where it may stand there.
pub(crate) fn value_at<'a>(place: &Place, word: &'a str) -> Option<Value<'a>>
    ensures { option_map value_in result ≡ place_value (place_in place.now) word.now }
{
    match place {
        Place::File(_) => Some(Value::Text(word)),
        Place::Number { least, most, .. } => match number_of(*least, *most, word) {
            Some(number) => Some(Value::Number(number)),
            None => None,
        },
        Place::Digits(_) => {
            if is_digest(word.as_bytes()) {
                Some(Value::Digits(word))
            } else {
                None
            }
        }
        Place::OneOf { words, .. } => match chosen(words, word) {
            Some(number) => Some(Value::Choice(number)),
            None => None,
        },
    }
}
