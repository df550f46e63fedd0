//! A shelf in memory, whose loads fail where they shall.

ghost use Rattle.std.specs.Prelude.{◌≡◌, ◌≤◌, ℕ, List, option_copied, [], OnOk, OnErr, ◌++◌, ◌∷◌};
ghost use Rattle.nr_bytes.specs.Memory.{held_in, asked_of, found_at, PutsFound, Finds};
ghost use Rattle.nr_bytes.specs.Outside.{Loads, Fails, Asks};

use crate::shelf::{LoadFault, Shelf};
use std::alloc::{AllocError, Global};
use std::marker::Model;

/// A shelf in memory. It fails at the loads whose numbers, from 1, are listed, and where it has no file of the
/// name. Its two counts stay at 2^64 - 1. A load that ran out of memory is not counted.
#[derive(Debug, Drop)]
pub struct MemoryShelf {
    files: Vec<(String, Vec<u8>)>,
    fail: Vec<u64>,
    calls: u64,
    faults: u64,
    asked: Option<Vec<String>>,
}

impl Model for MemoryShelf {
    ghost use Rattle.nr_bytes.specs.Memory.{ShelfInMemory, asked_of};

    ghost Value = { ShelfInMemory };

    ghost view = { λ a. record {
      files = a.files.items;
      fail = a.fail.items;
      calls = a.calls;
      faults = a.faults;
      asked = asked_of a.asked;
    } };
}

/// The bytes of the first file with a name.
fn find<'a>(files: &'a [(String, Vec<u8>)], name: &str) -> Option<&'a [u8]>
    ensures { option_copied result ≡ held_in files.now name.now }
{
    for file in files {
        if file.0.as_str() == name {
            return Some(&file.1);
        }
    }
    None
}

/// The bytes that the load of this number finds.
fn find_at<'a>(
    fail: &[u64],
    files: &'a [(String, Vec<u8>)],
    call: u64,
    name: &str,
) -> Option<&'a [u8]>
    ensures { option_copied result ≡ found_at fail.now files.now call name.now }
{
    if fail.contains(&call) {
        return None;
    }
    find(files, name)
}

/// Appends the bytes that were found, at most `limit`.
fn put_found(found: Option<&[u8]>, limit: usize, out: &mut Vec<u8>) -> Result<(), LoadFault>
    ensures { PutsFound result (option_copied found.entry) limit out.old.items out.new.items }
{
    let bytes = found.ok_or(LoadFault::Failed)?;
    if bytes.len() > limit {
        return Err(LoadFault::TooLong);
    }
    out.extend_from_slice(bytes).map_err(|_| LoadFault::Memory)
}

/// Puts a name at the end of a list that is made here if there is none.
pub(crate) fn note(
    alloc: Global,
    asked: &mut Option<Vec<String>>,
    name: &str,
) -> Result<(), AllocError>
    ensures ok { OnOk result (asked_of asked.new ≡ asked_of asked.old ++ name.now ∷ []) }
    ensures err { OnErr result (asked_of asked.new ≡ asked_of asked.old) }
{
    let text = String::from_str(alloc, name)?;
    match asked {
        Some(names) => names.push(text)?,
        None => {
            let mut names = Vec::new(alloc);
            names.push(text)?;
            *asked = Some(names);
        }
    }
    Ok(())
}

impl MemoryShelf {
    /// A shelf of these files, that was asked for nothing. Of two files with one name the first counts.
    pub fn new(files: Vec<(String, Vec<u8>)>, fail: Vec<u64>) -> MemoryShelf
        ensures value { result ≡ record { files = files.items; fail = fail.items; calls = 0; faults = 0; asked = [] } }
        ensures faults { ⟦<MemoryShelf as Shelf>⟧.faults result ≡ 0 }
        ensures asked { ⟦<MemoryShelf as Shelf>⟧.asked result ≡ [] }
        ensures held { ⟦<MemoryShelf as Shelf>⟧.held result ≡ held_in files.items }
    {
        MemoryShelf {
            files,
            fail,
            calls: 0,
            faults: 0,
            asked: None,
        }
    }
}

impl Shelf for MemoryShelf {
    ghost held = { λ s. held_in s.files };

    ghost faults = { λ s. s.faults };

    ghost asked = { λ s. s.asked };

    fn load(
        &mut self,
        alloc: Global,
        name: &str,
        limit: usize,
        out: &mut Vec<u8>,
    ) -> Result<(), LoadFault>
        ensures loads { Loads result (held_in self.old.files name.now) limit out.old.items out.new.items }
        ensures failed { Fails result self.old.faults self.new.faults }
        ensures asks { Asks result self.old.asked self.new.asked name.now }
        ensures held { (other : List ℕ) → held_in self.new.files other ≡ held_in self.old.files other }
        ensures rises { self.old.faults ≤ self.new.faults }
        ensures exactly { Finds result self.old self.new name.now }
    {
        let call = self.calls.saturating_add(1);
        let found = find_at(&self.fail, &self.files, call, name);
        let start = out.len();
        let answer = put_found(found, limit, out);
        if answer == Err(LoadFault::Memory) {
            return answer;
        }
        if note(alloc, &mut self.asked, name).is_err() {
            out.truncate(start);
            return Err(LoadFault::Memory);
        }
        self.calls = call;
        if answer == Err(LoadFault::Failed) {
            self.faults = self.faults.saturating_add(1);
        }
        answer
    }
}
