//! A UTF-8 text that contracts see as a list of bytes.

ghost use Rattle.std.specs.Prelude.{IfOk, ◌≡◌, string_bytes};

use std::alloc::{AllocError, Global};
use std::marker::Model;

/// A UTF-8 text, over a string. Contracts see the list of its bytes.
#[derive(Debug, Drop)]
pub struct Text {
    text: String,
}

impl Model for Text {
    ghost use Rattle.std.specs.Prelude.{List, ℕ, string_bytes};

    ghost Value = { List ℕ };

    ghost view = { λ a. string_bytes a.text };
}

impl Text {
    /// The text of a string.
    pub fn of(text: String) -> Text
        ensures { result ≡ string_bytes text }
    {
        Text { text }
    }

    /// Gives the string back.
    pub fn into_inner(self) -> String
        ensures { string_bytes result ≡ self }
    {
        self.text
    }

    /// Lends the text.
    pub fn inner(&self) -> &str
        ensures { result.now ≡ self.now }
    {
        self.text.as_str()
    }

    /// The same text once more.
    ///
    /// # Errors
    ///
    /// Where memory ran out.
    pub fn duplicate(&self, alloc: Global) -> Result<Text, AllocError>
        ensures { IfOk result (λ other. other ≡ self.now) }
    {
        let text = String::from_str(alloc, self.text.as_str())?;
        Ok(Text { text })
    }
}
