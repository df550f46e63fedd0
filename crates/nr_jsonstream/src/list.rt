//! Values that are made into records as they are read.

ghost use Rattle.std.specs.Prelude.{◌≡◌, ◌<◌, ◌∷◌, length, IfOk, OnOk};
ghost use Rattle.json.specs.Token.{begin_array};
ghost use Rattle.nr_json.specs.Lists.{list_of};
ghost use Rattle.nr_jsonstream.specs.Stream.{AreRead, IsRead};

use crate::unread::Unread;
use crate::value::read;
use json::{Reader, Token};
use nr_bytes::List;
use nr_json::{Form, JsonFault};
use std::alloc::Global;

/// The record of the next value. Lists and objects may nest `depth` deep.
pub(crate) fn read_record<T: Form>(
    alloc: Global,
    reader: &mut Reader<'_>,
    depth: usize,
) -> Result<T, Unread>
    ensures ok { IfOk result (IsRead T.reading depth reader.old reader.new) }
    ensures shorter { OnOk result (length reader.new < length reader.old) }
{
    let value = read(alloc, reader, depth)?;
    match T::from_json(alloc, &value) {
        Ok(found) => Ok(found),
        Err(JsonFault::Memory) => Err(Unread::Memory),
        Err(_) => Err(Unread::Other),
    }
}

/// The records up to the end of the list.
fn read_items<T: Form>(
    alloc: Global,
    reader: &mut Reader<'_>,
    depth: usize,
) -> Result<Vec<T>, Unread>
    ensures ok { IfOk result (λ found. AreRead T.reading depth reader.old reader.new found.items) }
    ensures shorter { OnOk result (length reader.new < length reader.old) }
{
    let mut found = Vec::new(alloc);
    'items: while !reader.take_end_array() {
        let item = read_record(alloc, reader, depth)?;
        found.push(item)?;
    }
    Ok(found)
}

/// Passes the bracket that opens a list.
fn open_list(reader: &mut Reader<'_>) -> Result<(), Unread>
    ensures { OnOk result (reader.old ≡ begin_array ∷ reader.new) }
{
    let token = reader.next().ok_or(Unread::Other)?;
    match token {
        Token::BeginArray => Ok(()),
        _ => Err(Unread::Other),
    }
}

/// The records of the list that is the next value. Lists and objects may nest `depth` deep, with this list.
pub(crate) fn read_list<T: Form>(
    alloc: Global,
    reader: &mut Reader<'_>,
    depth: usize,
) -> Result<List<T>, Unread>
    ensures ok { IfOk result (IsRead (list_of T.reading) depth reader.old reader.new) }
    ensures shorter { OnOk result (length reader.new < length reader.old) }
{
    if depth == 0 {
        return Err(Unread::Other);
    }
    open_list(reader)?;
    let items = read_items(alloc, reader, depth - 1)?;
    Ok(List::of(items))
}
