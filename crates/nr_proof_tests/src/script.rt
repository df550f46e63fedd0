//! Tables of walks. A line tells a root, a text that is held or a new entry, or asks for a walk for
//! some accounts, for one without the text of a number, or for the root with the new entries. The
//! lines behind a question are its answer: the entries found, the fault with its hash, or the root.

use nr_bytes::{Blob, List};
use nr_columns::Entry;
use nr_ids::{AccountId, Hash32};
use nr_stateless::Partial;
use nr_walk::{Texts, WalkFault};
use std::alloc::{AllocError, Global};
use std::test::Fail;

/// What a table has told so far.
#[derive(Drop)]
struct Told {
    root: Hash32,
    texts: Vec<Vec<u8>>,
    new: Vec<Entry>,
}

/// Bytes by their digits; `-` stands for none.
fn bytes_of(alloc: Global, word: &str) -> Result<Vec<u8>, Fail> {
    if word == "-" {
        return Ok(Vec::new(alloc));
    }
    Ok(hex::decode(alloc, word)?)
}

fn digits_of(alloc: Global, bytes: &[u8]) -> Result<String, AllocError> {
    if bytes.is_empty() {
        return String::from_str(alloc, "-");
    }
    hex::encode(alloc, bytes)
}

fn hash_of(word: &str) -> Result<Hash32, Fail> {
    let mut hash = [0; 32];
    hex::decode_to_slice(word, &mut hash)?;
    Ok(Hash32(hash))
}

fn words_of<'a>(alloc: Global, line: &'a str) -> Result<Vec<&'a str>, AllocError> {
    let mut words = Vec::new(alloc);
    for word in line.split(' ') {
        words.push(word)?;
    }
    Ok(words)
}

fn accounts_of(alloc: Global, words: &[&str]) -> Result<List<AccountId>, Fail> {
    let mut accounts = Vec::new(alloc);
    for word in words {
        accounts.push(AccountId::parse(alloc, word.as_bytes())?)?;
    }
    Ok(List::of(accounts))
}

/// All texts but the one with a number.
fn texts_of(alloc: Global, texts: &[Vec<u8>], without: usize) -> Result<Texts, AllocError> {
    let mut list = Vec::new(alloc);
    for i in 0..texts.len() {
        if i != without {
            list.push(Blob::of(Vec::from_slice(alloc, &texts[i])?))?;
        }
    }
    Texts::new(alloc, &List::of(list))
}

fn write_found(alloc: Global, found: &[Entry], out: &mut String) -> Result<(), Fail> {
    if found.is_empty() {
        out.push_str("none\n")?;
    }
    for entry in found {
        let key = digits_of(alloc, entry.key.inner())?;
        let value = digits_of(alloc, entry.value.inner())?;
        out.push_str(&format!(in alloc; "found {key} {value}\n")?)?;
    }
    Ok(())
}

fn write_fault(alloc: Global, fault: WalkFault, out: &mut String) -> Result<(), Fail> {
    match fault {
        WalkFault::Missing { hash } => {
            let hash = digits_of(alloc, &hash.0)?;
            out.push_str(&format!(in alloc; "missing {hash}\n")?)?;
        }
        WalkFault::BadText { hash } => {
            let hash = digits_of(alloc, &hash.0)?;
            out.push_str(&format!(in alloc; "bad {hash}\n")?)?;
        }
        WalkFault::TooMany => out.push_str("many\n")?,
        WalkFault::Memory => out.push_str("memory\n")?,
    }
    Ok(())
}

fn write_walk(
    alloc: Global,
    told: &Told,
    without: usize,
    accounts: &[&str],
    out: &mut String,
) -> Result<(), Fail> {
    let texts = texts_of(alloc, &told.texts, without)?;
    let accounts = accounts_of(alloc, accounts)?;
    match Partial::walk(alloc, &texts, &told.root, &accounts) {
        Ok((_, found)) => write_found(alloc, found.inner(), out),
        Err(fault) => write_fault(alloc, fault, out),
    }
}

fn write_change(
    alloc: Global,
    told: &mut Told,
    accounts: &[&str],
    out: &mut String,
) -> Result<(), Fail> {
    let texts = texts_of(alloc, &told.texts, usize::MAX)?;
    let accounts = accounts_of(alloc, accounts)?;
    let new = List::of(std::mem::replace(&mut told.new, Vec::new(alloc)));
    let (partial, _) = Partial::walk(alloc, &texts, &told.root, &accounts)?;
    let hash = partial.change(&new)?;
    let hash = digits_of(alloc, &hash.0)?;
    out.push_str(&format!(in alloc; "is {hash}\n")?)?;
    Ok(())
}

/// Does what a line says, and writes the answer where it asks.
fn obey(alloc: Global, told: &mut Told, line: &str, out: &mut String) -> Result<(), Fail> {
    let words = words_of(alloc, line)?;
    match words.as_slice() {
        ["root", hash] => {
            told.root = hash_of(hash)?;
            told.texts.clear();
        }
        ["text", text] => told.texts.push(bytes_of(alloc, text)?)?,
        ["walk", accounts @ ..] => write_walk(alloc, told, usize::MAX, accounts, out)?,
        ["without", at, accounts @ ..] => write_walk(alloc, told, at.parse()?, accounts, out)?,
        ["new", key, value] => {
            let key = Blob::of(bytes_of(alloc, key)?);
            let value = Blob::of(bytes_of(alloc, value)?);
            told.new.push(Entry { key, value })?;
        }
        ["change", accounts @ ..] => write_change(alloc, told, accounts, out)?,
        _ => {}
    }
    Ok(())
}

fn is_answer(line: &str) -> bool {
    [
        "found ", "none", "missing ", "bad ", "many", "memory", "is ",
    ]
    .iter()
    .any(|word| line.starts_with(word))
}

/// The lines of a table, with the answers that come now.
pub(crate) fn replayed(alloc: Global, table: &str) -> Result<String, Fail> {
    let mut told = Told {
        root: Hash32([0; 32]),
        texts: Vec::new(alloc),
        new: Vec::new(alloc),
    };
    let mut out = String::new(alloc);
    for line in table.split('\n') {
        if !line.is_empty() && !is_answer(line) {
            out.push_str(line)?;
            out.push_str("\n")?;
            obey(alloc, &mut told, line, &mut out)?;
        }
    }
    Ok(out)
}
