//! What the calls answer, as plain values.

use nr_bytes::Blob;
use nr_ids::Hash32;
use nr_parts::{Part, PartFault, check_part, read_part, write_part};
use std::alloc::{AllocError, Global};

/// The first four bytes of a hash as a number, the first one high.
fn start_of(hash: &Hash32) -> u64 {
    let bytes = &hash.0;
    u64::from(u32::from_be_bytes([bytes[0], bytes[1], bytes[2], bytes[3]]))
}

/// The number of a fault, with what tells it.
pub(crate) fn told(fault: &PartFault) -> (u32, u64) {
    match fault {
        PartFault::Spelling { at } => (1, *at),
        PartFault::Numbers { count, number } => {
            (2, u64::from(*count) * 100_000 + u64::from(*number))
        }
        PartFault::Root { found } => (3, start_of(found)),
        PartFault::Missing { hash } => (4, start_of(hash)),
        PartFault::BadText { hash } => (5, start_of(hash)),
        PartFault::Entries { index } => (6, *index),
        PartFault::Order { number } => (7, u64::from(*number)),
        PartFault::Whole { found } => (8, start_of(found)),
        PartFault::TooMany => (9, 0),
        PartFault::Memory => (10, 0),
    }
}

/// The fault of the part of a file against its own root, or against this one; zeros where it is
/// accepted.
pub(crate) fn judged(alloc: Global, file: &[u8], root: Option<&Hash32>) -> (u32, u64) {
    match read_part(alloc, file) {
        Ok(part) => {
            let own = part.root;
            match check_part(alloc, root.unwrap_or(&own), &part) {
                Ok(()) => (0, 0),
                Err(fault) => told(&fault),
            }
        }
        Err(fault) => told(&fault),
    }
}

/// The place of the first field that can't be read; none where the file is read.
pub(crate) fn unread(alloc: Global, file: &[u8]) -> Option<u64> {
    match read_part(alloc, file) {
        Ok(_) => None,
        Err(fault) => Some(told(&fault).1),
    }
}

/// Whether the file of a part is read back as a part with the same file.
pub(crate) fn is_read_back(alloc: Global, part: &Part) -> Result<bool, AllocError> {
    let mut file = Blob::of(Vec::new(alloc));
    write_part(alloc, part, &mut file)?;
    match read_part(alloc, file.inner()) {
        Ok(back) => {
            let mut again = Blob::of(Vec::new(alloc));
            write_part(alloc, &back, &mut again)?;
            Ok(again.inner() == file.inner())
        }
        Err(_) => Ok(false),
    }
}
