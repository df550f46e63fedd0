//! Files that end too early or go on.

use crate::setting::run_files;
use crate::{contracts, worked};
use nr_top::Status;
use std::alloc::Global;
use std::test::Fail;

/// How many of a file's last bytes are cut off, one after the other.
const CUTS: usize = 40;

/// A file in hexadecimal, and where its last fields begin, by hand from the form; the last number is its length.
struct Whole {
    text: &'static str,
    fields: &'static [usize],
}

/// Geneses, each with the blocks of its chain.
const GENESES: [(Whole, &str); 3] = [
    (
        Whole {
            text: worked::GENESIS,
            fields: &[185, 217, 225, 226],
        },
        worked::TRANSFER,
    ),
    (
        Whole {
            text: contracts::LATE_DATA_GENESIS,
            fields: &[1283, 1315, 1323, 1324],
        },
        contracts::LATE_DATA_BLOCKS,
    ),
    (
        Whole {
            text: contracts::REWARD_OF_DELETED_GENESIS,
            fields: &[235, 267, 275, 276],
        },
        contracts::REWARD_OF_DELETED_BLOCKS,
    ),
];

/// Blocks, each with the genesis of its chain.
const BLOCKS: [(Whole, &str); 3] = [
    (
        Whole {
            text: worked::TRANSFER,
            fields: &[127, 143, 151, 159, 163, 164, 168],
        },
        worked::GENESIS,
    ),
    (
        Whole {
            text: contracts::LATE_DATA_BLOCKS,
            fields: &[395, 396, 400, 408, 416, 420, 421, 425, 426, 430, 431, 435],
        },
        contracts::LATE_DATA_GENESIS,
    ),
    (
        Whole {
            text: contracts::REWARD_OF_DELETED_BLOCKS,
            fields: &[143, 159, 160, 167, 175, 183, 187, 188, 192],
        },
        contracts::REWARD_OF_DELETED_GENESIS,
    ),
];

impl Whole {
    /// The file's length.
    fn length(&self) -> usize {
        self.fields.last().copied().unwrap_or(0)
    }

    /// The file with a zero behind it, cut to a length.
    fn cut(&self, alloc: Global, length: usize) -> Result<Vec<u8>, Fail> {
        let mut bytes = hex::decode(alloc, self.text)?;
        bytes.push(0)?;
        bytes.truncate(length);
        Ok(bytes)
    }

    /// Where the field begins that a file of this length ends in; of a longer file, where it should end.
    fn place(&self, length: usize) -> u64 {
        let mut place = 0;
        for start in self.fields {
            if *start <= length {
                place = *start;
            }
        }
        place as u64
    }
}

/// Whether a genesis of another length is refused at the field in which it ends, and its blocks aren't asked for.
fn genesis_refused(
    alloc: Global,
    whole: &Whole,
    blocks: &str,
    length: usize,
) -> Result<bool, Fail> {
    let genesis = whole.cut(alloc, length)?;
    let ended = run_files(alloc, genesis, hex::decode(alloc, blocks)?)?;
    let a = whole.place(length);
    let refused = ended.status
        == Status::Genesis {
            kind: 1,
            a,
            b: 0,
            c: 0,
        };
    Ok(refused && ended.wrote_nothing(alloc, "Some([\"G\"])")?)
}

/// Whether blocks of another length are refused at the field in which they end.
fn blocks_refused(
    alloc: Global,
    whole: &Whole,
    genesis: &str,
    length: usize,
) -> Result<bool, Fail> {
    let blocks = whole.cut(alloc, length)?;
    let ended = run_files(alloc, hex::decode(alloc, genesis)?, blocks)?;
    let a = whole.place(length);
    let refused = ended.status == Status::Blocks { kind: 1, a };
    Ok(refused && ended.wrote_nothing(alloc, "Some([\"G\", \"B\"])")?)
}

#[test]
fn geneses_of_another_length_are_refused(rt: HostRuntime) -> Result<(), Fail> {
    for (whole, blocks) in &GENESES {
        let length = whole.length();
        for cut in length.saturating_sub(CUTS)..length {
            assert!(rt; genesis_refused(rt.alloc(), whole, blocks, cut)?, "{cut}");
        }
        assert!(rt; genesis_refused(rt.alloc(), whole, blocks, length.saturating_add(1))?);
    }
    Ok(())
}

#[test]
fn blocks_of_another_length_are_refused(rt: HostRuntime) -> Result<(), Fail> {
    for (whole, genesis) in &BLOCKS {
        let length = whole.length();
        for cut in length.saturating_sub(CUTS)..length {
            assert!(rt; blocks_refused(rt.alloc(), whole, genesis, cut)?, "{cut}");
        }
        assert!(rt; blocks_refused(rt.alloc(), whole, genesis, length.saturating_add(1))?);
    }
    Ok(())
}
