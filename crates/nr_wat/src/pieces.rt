//! Numbers and strings.

ghost use Rattle.std.specs.Prelude.{◌≡◌, ◌<◌, ◌++◌, OnOk, string_bytes, true};
ghost use Rattle.std.specs.List.{flat_map};
ghost use Rattle.nr_wat.specs.Pieces.{byte_text, is_shown, numbers_text, signed_text, spaced, string_text, type_use};

use std::alloc::{AllocError, Global};
use std::fmt::Write;

/// Adds a number behind a space.
pub(crate) fn push_number(number: u32, text: &mut String) -> Result<(), AllocError>
    ensures { OnOk result (string_bytes text.new ≡ string_bytes text.old ++ spaced number) }
{
    write!(text, " {number}")
}

/// Adds a type by its number.
pub(crate) fn push_type_use(number: u32, text: &mut String) -> Result<(), AllocError>
    ensures { OnOk result (string_bytes text.new ≡ string_bytes text.old ++ type_use number) }
{
    write!(text, " (type {number})")
}

/// Adds numbers, each behind a space.
pub(crate) fn push_numbers(numbers: &[u32], text: &mut String) -> Result<(), AllocError>
    ensures { OnOk result (string_bytes text.new ≡ string_bytes text.old ++ numbers_text numbers.now) }
{
    for number in numbers {
        push_number(*number, text)?;
    }
    Ok(())
}

/// Adds a number of 32 bits as a signed one.
pub(crate) fn push_signed32(number: u32, text: &mut String) -> Result<(), AllocError>
    ensures { OnOk result (string_bytes text.new ≡ string_bytes text.old ++ signed_text 2147483648 number) }
{
    if number < 2_147_483_648 {
        write!(text, "{number}")
    } else {
        let below = 4_294_967_296 - u64::from(number);
        write!(text, "-{below}")
    }
}

/// Adds a number of 64 bits as a signed one.
pub(crate) fn push_signed64(number: u64, text: &mut String) -> Result<(), AllocError>
    ensures { OnOk result (string_bytes text.new ≡ string_bytes text.old ++ signed_text 9223372036854775808 number) }
{
    if number < 9_223_372_036_854_775_808 {
        write!(text, "{number}")
    } else {
        let below = 18_446_744_073_709_551_616 - u128::from(number);
        write!(text, "-{below}")
    }
}

// ---- strings

/// A character of ASCII or the space, but a quote and a backslash.
fn is_shown(byte: u8) -> bool
    ensures shown { result ≡ is_shown byte }
    ensures ascii { result ≡ true → byte < 128 }
{
    32 <= byte && byte <= 126 && byte != 34 && byte != 92
}

/// Adds a byte of a string: itself, or a backslash and two digits.
fn push_byte(alloc: Global, byte: u8, text: &mut String) -> Result<(), AllocError>
    ensures { OnOk result (string_bytes text.new ≡ string_bytes text.old ++ byte_text byte) }
{
    if is_shown(byte) {
        text.push(char::from(byte))
    } else {
        let digits = hex::encode(alloc, [byte])?;
        write!(text, "\\{digits}")
    }
}

fn push_bytes(alloc: Global, bytes: &[u8], text: &mut String) -> Result<(), AllocError>
    ensures { OnOk result (string_bytes text.new ≡ string_bytes text.old ++ flat_map byte_text bytes.now) }
{
    for byte in bytes {
        push_byte(alloc, *byte, text)?;
    }
    Ok(())
}

/// Adds bytes as a string in quotes.
#[tactic(auto, unfolding(crate::specs::Pieces::string_text))]
pub(crate) fn push_string(alloc: Global, bytes: &[u8], text: &mut String) -> Result<(), AllocError>
    ensures { OnOk result (string_bytes text.new ≡ string_bytes text.old ++ string_text bytes.now) }
{
    text.push_str("\"")?;
    push_bytes(alloc, bytes, text)?;
    text.push_str("\"")
}
