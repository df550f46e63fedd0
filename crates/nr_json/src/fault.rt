//! Why a JSON value stands for no record.

ghost use Rattle.std.specs.Prelude.{◌≡◌, ◌≢◌, ◌++◌, IfOk};
ghost use Rattle.nr_json.specs.Faults.{fault, member_step, item_step, under};
ghost use Rattle.nr_json.specs.Words.{words};
ghost use Rattle.nr_json.specs.declared.fault.JsonFault.TheVariants.{Memory};

use nr_bytes::Text;
use std::alloc::{AllocError, AllocFailed, Global};
use std::fmt::Write;

/// What is wrong with a value.
#[derive(Clone, Copy, Debug, PartialEq, Eq)]
pub enum Wrong {
    /// An object has no member of this name.
    Missing,
    /// It is no object.
    NoObject,
    /// It is no list.
    NoList,
    /// It is no text.
    NoText,
    /// It is no whole number from 0 to 2^64 - 1.
    NoNumber,
    /// It is no text of decimal digits for a number up to 2^128 - 1.
    NoAmount,
    /// It is no text of pairs of hexadecimal digits.
    NoBytes,
    /// It is no text of 64 hexadecimal digits.
    NoHash,
    /// It is no text of `ed25519:` and 64 hexadecimal digits or 32 bytes in base 58, or of `secp256k1:` and 128
    /// hexadecimal digits.
    NoKey,
    /// It is no account id.
    NoAccountId,
    /// It has a number with a fraction or an exponent, or one of more than 64 bits.
    NoWhole,
    /// It is no action: one of the names of actions, with its members.
    NoAction,
    /// It is no permission: `FullAccess`, or `FunctionCall` with its members.
    NoPermission,
    /// It is no kind of entry: `account`, `code`, `key` or `datum`.
    NoKind,
    /// It is no version of a blocks file: 1, 2 or 3.
    NoVersion,
    /// It is the price of a block, and blocks of version 1 have none.
    NoPrice,
    /// It tells other boundaries, and a file of version 1 or 2 has none.
    NoReshard,
    /// It is no list of at most 15 account ids, each above the one before it in byte order.
    NoBoundaries,
}

impl Wrong {
    /// What is wrong, in words that follow the path of the value.
    pub fn words(self) -> &'static str
        ensures { result.now ≡ words self }
    {
        match self {
            Wrong::Missing => "is missing",
            Wrong::NoObject => "is no object",
            Wrong::NoList => "is no list",
            Wrong::NoText => "is no text",
            Wrong::NoNumber => "is no whole number from 0 to 18446744073709551615",
            Wrong::NoAmount => {
                "is no amount: a text of decimal digits, at most 340282366920938463463374607431768211455"
            }
            Wrong::NoBytes => "is no text of pairs of hexadecimal digits",
            Wrong::NoHash => "is no text of 64 hexadecimal digits",
            Wrong::NoKey => {
                "is no key: `ed25519:` and 64 hexadecimal digits or 32 bytes in base 58, or `secp256k1:` \
                and 128 hexadecimal digits"
            }
            Wrong::NoAccountId => {
                "is no account id: 2 to 64 characters, of `a` to `z` and `0` to `9`, and single `-`, \
                `_` or `.` between these"
            }
            Wrong::NoWhole => {
                "has a number that is no whole one of 64 bits: it may stand in a `text`"
            }
            Wrong::NoAction => {
                "is no action: `CreateAccount`, `DeployContract`, `FunctionCall`, `Transfer`, `AddKey`, \
                `DeleteKey` or `DeleteAccount`"
            }
            Wrong::NoPermission => "is no permission: `FullAccess` or `FunctionCall`",
            Wrong::NoKind => "is no kind of entry: `account`, `code`, `key` or `datum`",
            Wrong::NoVersion => "is no version: 1, 2 or 3",
            Wrong::NoPrice => "is in no block of version 1",
            Wrong::NoReshard => "is in no file of version 1 or 2",
            Wrong::NoBoundaries => "are more than 15, or one isn't above the one before it",
        }
    }
}

/// Why a JSON value stands for no record.
#[derive(Debug, Drop)]
pub enum JsonFault {
    /// The value at this path is wrong. The path has a step for each member, a dot and its name, and
    /// for each item of a list, its number from 0 in brackets; the whole value has the empty path.
    At { path: Text, wrong: Wrong },
    /// Memory ran out.
    Memory,
}

impl JsonFault {
    /// The whole value is wrong.
    pub(crate) fn whole(alloc: Global, wrong: Wrong) -> JsonFault
        ensures { result ≡ fault wrong }
    {
        JsonFault::At {
            path: Text::of(String::new(alloc)),
            wrong,
        }
    }

    /// The same fault, of a value that is this member.
    pub(crate) fn in_member(self, alloc: Global, name: &str) -> JsonFault
        ensures { result ≢ Memory → result ≡ under (member_step name.now) self }
    {
        match self {
            JsonFault::At { path, wrong } => match member_path(alloc, name, path.inner()) {
                Ok(path) => JsonFault::At { path, wrong },
                Err(AllocError) => JsonFault::Memory,
            },
            JsonFault::Memory => JsonFault::Memory,
        }
    }

    /// The same fault, of a value that is the item of this number.
    pub(crate) fn in_item(self, alloc: Global, number: usize) -> JsonFault
        ensures { result ≢ Memory → result ≡ under (item_step number) self }
    {
        match self {
            JsonFault::At { path, wrong } => match item_path(alloc, number, path.inner()) {
                Ok(path) => JsonFault::At { path, wrong },
                Err(AllocError) => JsonFault::Memory,
            },
            JsonFault::Memory => JsonFault::Memory,
        }
    }
}

fn member_path(alloc: Global, name: &str, path: &str) -> Result<Text, AllocError>
    ensures { IfOk result (λ text. text ≡ member_step name.now ++ path.now) }
{
    let mut text = String::new(alloc);
    write!(text, ".{name}{path}")?;
    Ok(Text::of(text))
}

fn item_path(alloc: Global, number: usize, path: &str) -> Result<Text, AllocError>
    ensures { IfOk result (λ text. text ≡ item_step number ++ path.now) }
{
    let mut text = String::new(alloc);
    write!(text, "[{number}]{path}")?;
    Ok(Text::of(text))
}

impl From<AllocError> for JsonFault {
    ghost from_gives = { λ _ e. e ≡ Memory };

    fn from(_fault: AllocError) -> JsonFault {
        JsonFault::Memory
    }
}

impl<T: Drop> From<AllocFailed<T>> for JsonFault {
    ghost from_gives = { λ _ e. e ≡ Memory };

    fn from(_fault: AllocFailed<T>) -> JsonFault {
        JsonFault::Memory
    }
}
