//! The genesis of a text.

ghost use Rattle.std.specs.Prelude.{◌≡◌, ◌<◌, ◌∷◌, Some, Ok as Good, length, IfOk, IsUtf8, OnOk};
ghost use Rattle.json.specs.Json.{Json, Members as Pairs, members, value};
ghost use Rattle.json.specs.Token.{begin_object};
ghost use Rattle.serde_json.specs.Data.{Data, Members, no_members, put};
ghost use Rattle.serde_json.specs.Read.{of_json, of_members, read as read_text};
ghost use Rattle.nr_json.specs.Genesis.{genesis_of};
ghost use Rattle.nr_jsonstream.specs.Stream.{Holds, IsNamed, IsRead};

use crate::list::{read_list, read_record};
use crate::unread::Unread;
use crate::value::read;
use json::{Reader, Scratch, Token};
use nr_bytes::List;
use nr_ids::AccountId;
use nr_json::{StatedEntry, StatedGenesis};
use std::alloc::Global;

/// How deep the members of a text's object may nest.
const DEPTH: usize = 126;

/// What a member of a text's object is for.
#[derive(Clone, Copy)]
enum Member {
    Boundaries,
    Entries,
    /// Nothing: it is passed over.
    Other,
}

/// The members of a genesis, so far as they were read.
#[derive(Drop)]
struct Found {
    boundaries: Option<List<AccountId>>,
    entries: Option<List<StatedEntry>>,
}

/// What the member of this name is for.
fn member_named(name: &str) -> Member
    ensures { IsNamed result name.now }
{
    if name == "boundaries" {
        Member::Boundaries
    } else if name == "entries" {
        Member::Entries
    } else {
        Member::Other
    }
}

/// What was found, with the member of this name, whose value is next.
fn with_member(
    alloc: Global,
    reader: &mut Reader<'_>,
    name: &str,
    found: Found,
) -> Result<Found, Unread>
    ensures ok { IfOk result (λ more. (j : Json) × (d : Data) × (value 126 reader.old ≡ Some (j, reader.new))
        × (of_json j ≡ Some d) × ((ms : Members) → Holds found ms → Holds more (put name.now d ms))) }
    ensures shorter { OnOk result (length reader.new < length reader.old) }
{
    let Found {
        boundaries,
        entries,
    } = found;
    match member_named(name) {
        Member::Boundaries => {
            let ids = read_record(alloc, reader, DEPTH)?;
            Ok(Found {
                boundaries: Some(ids),
                entries,
            })
        }
        Member::Entries => {
            let all = read_list(alloc, reader, DEPTH)?;
            Ok(Found {
                boundaries,
                entries: Some(all),
            })
        }
        Member::Other => {
            let passed = read(alloc, reader, DEPTH)?;
            drop(passed);
            Ok(Found {
                boundaries,
                entries,
            })
        }
    }
}

/// The members up to the end of the object.
fn read_members(alloc: Global, reader: &mut Reader<'_>) -> Result<Found, Unread>
    ensures { IfOk result (λ found. (js : Pairs) × (ms : Members)
        × (members (value 126) (length reader.old) reader.old ≡ Some (js, reader.new))
        × (of_members js no_members ≡ Some ms) × Holds found ms) }
{
    let mut found = Found {
        boundaries: None,
        entries: None,
    };
    'members: while let Some(name) = reader.next_key()? {
        let more = with_member(alloc, reader, name, found)?;
        found = more;
    }
    Ok(found)
}

/// Passes the brace that opens an object.
fn open_object(reader: &mut Reader<'_>) -> Result<(), Unread>
    ensures { OnOk result (reader.old ≡ begin_object ∷ reader.new) }
{
    let token = reader.next().ok_or(Unread::Other)?;
    match token {
        Token::BeginObject => Ok(()),
        _ => Err(Unread::Other),
    }
}

/// The genesis that the next value is.
fn read_genesis(alloc: Global, reader: &mut Reader<'_>) -> Result<StatedGenesis, Unread>
    ensures { IfOk result (IsRead genesis_of 127 reader.old reader.new) }
{
    open_object(reader)?;
    let found = read_members(alloc, reader)?;
    let Found {
        boundaries,
        entries,
    } = found;
    let ids = boundaries.ok_or(Unread::Other)?;
    let all = entries.ok_or(Unread::Other)?;
    Ok(StatedGenesis {
        boundaries: ids,
        entries: all,
    })
}

/// The genesis that a JSON text states. Beside the text it holds the entries that were read, the trees of the next one
/// and as many bytes as the text has.
///
/// # Errors
///
/// `Other` where the text is no JSON, its value or one of several members of a name is faulty, or it has a number that
/// is no whole one from 0 to 2^64 - 1; `Memory` where memory runs out.
pub fn genesis_in_text(alloc: Global, text: &[u8]) -> Result<StatedGenesis, Unread>
    ensures { IfOk result (λ genesis. IsUtf8 text.now
        × (d : Data) × (read_text text.now ≡ Some d) × (genesis_of d ≡ Good genesis)) }
{
    let Ok(checked) = std::str::from_utf8(text) else {
        return Err(Unread::Other);
    };
    let mut scratch = Scratch::new(alloc);
    let mut reader = Reader::new(checked, &mut scratch)?;
    let genesis = read_genesis(alloc, &mut reader)?;
    if reader.next().is_some() {
        return Err(Unread::Other);
    }
    Ok(genesis)
}
