//! A shelf of the process's files.

ghost use Rattle.std.specs.Prelude.{◌≡◌, ◌≤◌, ◌+◌, [], length, OnOk, OnErr};
ghost use Rattle.std.specs.Io.{StartsWith};
ghost use Rattle.nr_bytes.specs.Outside.{Loads};
ghost use Rattle.nr_bytes.specs.Files.{Passes};

use crate::memory_shelf::note;
use crate::shelf::{LoadFault, Shelf};
use std::alloc::Global;
use std::fs::{self, OpenFile};
use std::io::Read;
use std::rt::Files;

/// How many bytes are asked of a file at once.
const PIECE: usize = 4096;

/// The files of the process, by path. It tells nothing of what they hold.
#[derive(Drop)]
pub struct FileShelf<'a, R: Files> {
    rt: &'a R,
    faults: u64,
    asked: Option<Vec<String>>,
}

impl<'a, R: Files> FileShelf<'a, R> {
    /// A shelf that has not failed and was asked for nothing.
    pub fn new(rt: &'a R) -> FileShelf<'a, R>
        ensures faults { ⟦<FileShelf<'a, R> as Shelf>⟧.faults result ≡ 0 }
        ensures asked { ⟦<FileShelf<'a, R> as Shelf>⟧.asked result ≡ [] }
    {
        FileShelf {
            rt,
            faults: 0,
            asked: None,
        }
    }
}

/// Reads once, and appends what came, of which at most `limit` bytes are wanted. It answers how many bytes came,
/// 0 only at the end.
fn append_piece<F: Read>(file: &mut F, limit: usize, out: &mut Vec<u8>) -> Result<usize, LoadFault>
    ensures { Passes result (F.remaining file.old) (F.remaining file.new) limit out.old.items out.new.items }
{
    let mut piece = [0u8; PIECE];
    let n = file.read(&mut piece).map_err(|_| LoadFault::Failed)?;
    if n > limit {
        return Err(LoadFault::TooLong);
    }
    out.extend_from_slice(&piece[..n])
        .map_err(|_| LoadFault::Memory)?;
    Ok(n)
}

/// Appends what a reader has left, at most `limit` bytes.
///
/// # Errors
///
/// `Failed` where a read failed, `TooLong` where the reader has more bytes than `limit`, and `Memory`. After each of
/// them `out` is as before.
pub fn append_rest<F: Read>(file: &mut F, limit: usize, out: &mut Vec<u8>) -> Result<(), LoadFault>
    ensures loads { Loads result (F.remaining file.old) limit out.old.items out.new.items }
    ensures front { StartsWith out.new.items out.old.items }
    ensures within { OnOk result (length out.new.items ≤ length out.old.items + limit) }
{
    let start = out.len();
    let mut left = limit;
    for _ in 0..u64::MAX {
        match append_piece(file, left, out) {
            Ok(0) => return Ok(()),
            Ok(n) => left -= n,
            Err(fault) => {
                out.truncate(start);
                return Err(fault);
            }
        }
    }
    out.truncate(start);
    Err(LoadFault::Failed)
}

/// Appends what a file has, at most `limit` bytes. It makes room for as many bytes as the system tells of, so
/// that the vector does not grow by doubling. After a refusal `out` is as before.
fn append_file<R: Files>(
    rt: &R,
    name: &str,
    limit: usize,
    out: &mut Vec<u8>,
) -> Result<(), LoadFault>
    ensures refused { OnErr result (out.new.items ≡ out.old.items) }
    ensures front { StartsWith out.new.items out.old.items }
    ensures within { OnOk result (length out.new.items ≤ length out.old.items + limit) }
{
    let mut file = fs::open(rt, name).map_err(|_| LoadFault::Failed)?;
    let told = file.metadata().map_err(|_| LoadFault::Failed)?.len();
    let room = usize::try_from(told).unwrap_or(limit).min(limit);
    out.reserve_exact(room).map_err(|_| LoadFault::Memory)?;
    append_rest(&mut file, limit, out)
}

impl<'a, R: Files> Shelf for FileShelf<'a, R> {
    ghost use Rattle.std.specs.Prelude.{None};
    ghost use Rattle.nr_bytes.specs.Memory.{asked_of};

    ghost held = { λ _ _. None };

    ghost faults = { λ s. s.faults };

    ghost asked = { λ s. asked_of s.asked };

    fn load(
        &mut self,
        alloc: Global,
        name: &str,
        limit: usize,
        out: &mut Vec<u8>,
    ) -> Result<(), LoadFault> {
        let start = out.len();
        let answer = append_file(self.rt, name, limit, out);
        if answer == Err(LoadFault::Memory) {
            return answer;
        }
        if note(alloc, &mut self.asked, name).is_err() {
            out.truncate(start);
            return Err(LoadFault::Memory);
        }
        if answer == Err(LoadFault::Failed) {
            self.faults = self.faults.saturating_add(1);
        }
        answer
    }
}
