//! The next value of a text, as a tree over the text and then as a value that owns what it has.

ghost use Rattle.std.specs.Prelude.{◌≡◌, ◌<◌, ◌==◌, Some, length, option_map, slice_index, IfOk, IfSome, OnOk};
ghost use Rattle.json.specs.Json.{Json, value};
ghost use Rattle.json.specs.Value.{value_view, items_view as trees_view, members_view as pairs_view};
ghost use Rattle.serde_json.specs.Data.{no_members, number, unsigned};
ghost use Rattle.serde_json.specs.Read.{number_of, of_items, of_json, of_members};
ghost use Rattle.serde_json.specs.View.{items_view, members_view, view};

use crate::unread::Unread;
use fast_float::Numeral;
use json::{Error, Reader, Value as Tree};
use serde_json::{Map, Value};
use std::alloc::Global;

fn is_negative(bytes: &[u8]) -> bool
    ensures { result ≡ (slice_index bytes.now 0 == 45) }
{
    !bytes.is_empty() && bytes[0] == b'-'
}

/// The whole number from 0 to 2^64 - 1 that a JSON number is.
#[tactic(auto, using(crate::proofs::Numbers::number_is))]
fn unsigned_in(text: &str) -> Option<u64>
    ensures { IfSome result (λ n. number_of text.now ≡ Some (unsigned n)) }
{
    let bytes = text.as_bytes();
    if is_negative(bytes) {
        return None;
    }
    Numeral::scan(bytes).to_u64()
}

/// Such a number as a value.
fn number_in(text: &str) -> Result<Value, Unread>
    ensures { IfOk result (λ v. option_map number (number_of text.now) ≡ Some (view v)) }
{
    match unsigned_in(text) {
        Some(whole) => Ok(Value::from(whole)),
        None => Err(Unread::Other),
    }
}

/// The value that a tree is.
#[cycle(value_of)]
fn value_of(alloc: Global, tree: &Tree<'_>) -> Result<Value, Unread>
    ensures { IfOk result (λ v. of_json (value_view tree.now) ≡ Some (view v)) }
{
    match tree {
        Tree::Null => Ok(Value::Null),
        Tree::Bool(flag) => Ok(Value::Bool(*flag)),
        Tree::Number(text) => Ok(number_in(text)?),
        Tree::String(text) => Ok(Value::try_from_str(alloc, text)?),
        Tree::Array(items) => Ok(Value::Array(list_in(alloc, items)?)),
        Tree::Object(members) => Ok(Value::Object(object_in(alloc, members)?)),
    }
}

#[cycle(value_of)]
fn list_in(alloc: Global, items: &Vec<Tree<'_>>) -> Result<Vec<Value>, Unread>
    ensures { IfOk result (λ v. of_items (trees_view items.now.items) ≡ Some (items_view v.items)) }
{
    let mut found = Vec::new(alloc);
    for item in items {
        let owned = value_of(alloc, item)?;
        found.push(owned)?;
    }
    Ok(found)
}

#[cycle(value_of)]
fn object_in(alloc: Global, members: &Vec<(&str, Tree<'_>)>) -> Result<Map<String, Value>, Unread>
    ensures { IfOk result (λ m. of_members (pairs_view members.now.items) no_members
        ≡ Some (members_view m.entries)) }
{
    let mut found = Map::new(alloc);
    for member in members {
        let owned = value_of(alloc, &member.1)?;
        serde_json::put(&mut found, alloc, member.0, owned)?;
    }
    Ok(found)
}

/// The tree of the next value. Lists and objects may nest `depth` deep.
fn tree_in<'a>(alloc: Global, reader: &mut Reader<'a>, depth: usize) -> Result<Tree<'a>, Unread>
    ensures ok { IfOk result (λ tree. value depth reader.old ≡ Some (value_view tree, reader.new)) }
    ensures shorter { OnOk result (length reader.new < length reader.old) }
{
    match Tree::read(alloc, reader, depth) {
        Ok(tree) => Ok(tree),
        Err(Error::OutOfMemory) => Err(Unread::Memory),
        Err(_) => Err(Unread::Other),
    }
}

/// The next value. Lists and objects may nest `depth` deep.
pub(crate) fn read(alloc: Global, reader: &mut Reader<'_>, depth: usize) -> Result<Value, Unread>
    ensures ok { IfOk result (λ v. (j : Json) × (value depth reader.old ≡ Some (j, reader.new))
        × (of_json j ≡ Some (view v))) }
    ensures shorter { OnOk result (length reader.new < length reader.old) }
{
    let tree = tree_in(alloc, reader, depth)?;
    let owned = value_of(alloc, &tree)?;
    Ok(owned)
}
