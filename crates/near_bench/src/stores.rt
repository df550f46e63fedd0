//! Operations of a store, done many times.

ghost use Rattle.std.specs.Prelude.{◌≡◌, ◌<◌, [], OnOk};

use nr_store::PlainStore;
use nr_triedef::{Steps, Store};
use nr_trieupdate::TrieStore;
use std::alloc::{AllocError, Global};
use std::marker::Brand;
use std::sync::ledger::{Blank, Ledger};

/// Which store is measured.
#[derive(Clone, Copy, Debug)]
enum Kind {
    Plain,
    Trie,
}

/// What is measured.
#[derive(Clone, Copy, Debug)]
enum Operation {
    /// The filling alone.
    Fill,
    /// A look-up.
    Get,
    /// Another value at a key that stands.
    Set,
    /// A key taken out and put in again.
    Remove,
    /// A checkpoint, one change, and the checkpoint dropped.
    Keep,
    /// A checkpoint, one change, and the change taken back.
    Back,
    /// The root.
    Root,
    /// One change, and the root.
    Change,
    /// Another value at a thousand keys, spread evenly, and the root.
    Working,
    /// A checkpoint, fifty thousand values set at keys in turn, and the changes taken back.
    Behind,
    /// The root of keys that each begin with all shorter ones.
    Nested,
}

/// What is to be done.
#[derive(Clone, Copy, Debug)]
pub struct Task {
    kind: Kind,
    operation: Operation,
    keys: u32,
    /// How many times.
    pub turns: u32,
}

fn kind_of(word: &str) -> Option<Kind> {
    match word {
        "plain" => Some(Kind::Plain),
        "trie" => Some(Kind::Trie),
        _ => None,
    }
}

fn operation_of(word: &str) -> Option<Operation> {
    match word {
        "fill" => Some(Operation::Fill),
        "get" => Some(Operation::Get),
        "set" => Some(Operation::Set),
        "remove" => Some(Operation::Remove),
        "keep" => Some(Operation::Keep),
        "back" => Some(Operation::Back),
        "root" => Some(Operation::Root),
        "change" => Some(Operation::Change),
        "working" => Some(Operation::Working),
        "behind" => Some(Operation::Behind),
        "nested" => Some(Operation::Nested),
        _ => None,
    }
}

/// A key, spread over the order of all keys.
fn key_of(number: u32) -> [u8; 4] {
    number.wrapping_mul(2_654_435_769).to_be_bytes()
}

fn fill<S: Store>(store: &mut S, keys: u32) -> Result<(), AllocError>
    ensures { S.marks store.new ≡ S.marks store.old }
{
    for number in 0..keys {
        store.set(&key_of(number), b"value")?;
    }
    Ok(())
}

/// Fills with the keys `a`, `aa` and so on.
fn fill_nested<S: Store>(store: &mut S, alloc: Global, keys: u32) -> Result<(), AllocError>
    ensures { S.marks store.new ≡ S.marks store.old }
{
    let mut key = Vec::new(alloc);
    for _turn in 0..keys {
        key.push(b'a')?;
        store.set(key.as_slice(), b"v")?;
    }
    Ok(())
}

fn counted_root<S: Store, L: Ledger>(store: &mut S, blank: Blank) -> Result<(), AllocError>
    requires name { blank.name ≡ L.name }
    requires parts { blank.parts ≡ L.parts }
    requires whole { 0 < blank.parts }
    ensures marks { S.marks store.new ≡ S.marks store.old }
{
    let mut steps = Steps::<L>::new(blank);
    store.root(&mut steps)?;
    Ok(())
}

fn root<S: Store>(store: &mut S) -> Result<(), AllocError>
    ensures marks { S.marks store.new ≡ S.marks store.old }
{
    counted_root::<S, Brand>(store, Blank::new(1))
}

/// Sets the value at so many keys that follow one another in the order of their making.
fn set_many<S: Store>(
    store: &mut S,
    first: u32,
    many: u32,
    keys: u32,
    value: &[u8],
) -> Result<(), AllocError>
    requires { 0 < keys }
    ensures { S.marks store.new ≡ S.marks store.old }
{
    for number in 0..many {
        store.set(&key_of(first.wrapping_add(number) % keys), value)?;
    }
    Ok(())
}

/// Sets the value at a thousand keys, and computes the root.
fn work<S: Store>(store: &mut S, number: u32, keys: u32, value: &[u8]) -> Result<(), AllocError>
    requires { 0 < keys }
    ensures { S.marks store.new ≡ S.marks store.old }
{
    set_many(store, number.wrapping_mul(1_000), 1_000, keys, value)?;
    root(store)
}

/// Sets fifty thousand values at keys in turn behind a checkpoint, and takes the changes back.
fn set_behind<S: Store>(
    store: &mut S,
    number: u32,
    keys: u32,
    value: &[u8],
) -> Result<(), AllocError>
    requires some { 0 < keys }
    requires empty { S.marks store.old ≡ [] }
    ensures { OnOk result (S.marks store.new ≡ []) }
{
    store.reserve_marks(1)?;
    store.mark();
    set_many(store, number.wrapping_mul(50_000), 50_000, keys, value)?;
    store.back();
    Ok(())
}

fn turn<S: Store>(
    store: &mut S,
    operation: Operation,
    key: &[u8],
    value: &[u8],
) -> Result<(), AllocError>
    requires { S.marks store.old ≡ [] }
    ensures { OnOk result (S.marks store.new ≡ []) }
{
    match operation {
        Operation::Fill | Operation::Working | Operation::Behind => {}
        Operation::Get => {
            let _ = store.get(key);
        }
        Operation::Set => store.set(key, value)?,
        Operation::Remove => {
            store.remove(key)?;
            store.set(key, value)?;
        }
        Operation::Keep => {
            store.reserve_marks(1)?;
            store.mark();
            store.set(key, value)?;
            store.keep();
        }
        Operation::Back => {
            store.reserve_marks(1)?;
            store.mark();
            store.set(key, value)?;
            store.back();
        }
        Operation::Change => {
            store.set(key, value)?;
            root(store)?;
        }
        Operation::Root | Operation::Nested => root(store)?,
    }
    Ok(())
}

fn turns_of<S: Store>(
    store: &mut S,
    operation: Operation,
    keys: u32,
    turns: u32,
) -> Result<(), AllocError>
    requires empty { S.marks store.old ≡ [] }
    requires some { 0 < keys }
{
    for number in 0..turns {
        let value = number.to_be_bytes();
        match operation {
            Operation::Working => work(store, number, keys, &value)?,
            Operation::Behind => set_behind(store, number, keys, &value)?,
            _ => turn(store, operation, &key_of(number % keys), &value)?,
        }
    }
    Ok(())
}

fn do_all<S: Store>(store: &mut S, alloc: Global, task: Task) -> Result<(), AllocError>
    requires empty { S.marks store.old ≡ [] }
{
    match task.operation {
        Operation::Nested => fill_nested(store, alloc, task.keys)?,
        _ => fill(store, task.keys)?,
    }
    match task.operation {
        Operation::Fill => {}
        _ => root(store)?,
    }
    if task.keys > 0 {
        turns_of(store, task.operation, task.keys, task.turns)?;
    }
    Ok(())
}

/// Fills a store, computes its root for each operation but the filling alone, and does the operation
/// on it.
///
/// # Errors
///
/// Where memory ran out.
pub fn run(alloc: Global, task: Task) -> Result<(), AllocError> {
    match task.kind {
        Kind::Plain => do_all(&mut PlainStore::new(alloc), alloc, task),
        Kind::Trie => do_all(&mut TrieStore::new(alloc), alloc, task),
    }
}

/// What the words ask for: the store, the operation, the keys and the turns.
pub fn task_of(words: &[String]) -> Option<Task> {
    match words {
        [kind, operation, keys, turns] => Some(Task {
            kind: kind_of(kind.as_str())?,
            operation: operation_of(operation.as_str())?,
            keys: keys.parse::<u32>().ok()?,
            turns: turns.parse::<u32>().ok()?,
        }),
        _ => None,
    }
}
