//! Files that are refused.

use crate::pieces::{
    ALICE, ALICE_CODE, ALICE_KEY, BOB, BY_ALICE, CAROL_KEY, FIFTEEN, FIVE, HASHED, LOCKED_1, MOST,
    NO_BOUNDARIES, ONE, ONE_CHUNK, SYSTEM, TO_BOB, USES_100, USES_185,
};
use crate::setting::{run, text_of};
use crate::{resharded, worked};
use nr_top::Status;
use std::test::Fail;

/// A file as pieces in hexadecimal.
type Pieces = &'static [&'static str];

/// What the shelf tells where the genesis alone was asked for.
const GENESIS: &str = "Some([\"G\"])";

/// What the shelf tells where both files were asked for.
const BOTH: &str = "Some([\"G\", \"B\"])";

/// Geneses with a fault, and the numbers of the status.
const FAULTY_GENESES: [(Pieces, u32, u64, u64, u64); 14] = [
    // The magic word is another, the count of entries is cut, a byte stands behind the entries.
    (&["4e524231", "00000000", "00000000"], 1, 0, 0, 0),
    (&[NO_BOUNDARIES, "0000"], 1, 8, 0, 0),
    (&[NO_BOUNDARIES, "00000000", "00"], 1, 12, 0, 0),
    // Boundaries that fall, and sixteen.
    (
        &[
            "4e524731",
            "02000000",
            "020000006262",
            "020000006161",
            "00000000",
        ],
        1,
        14,
        0,
        0,
    ),
    (
        &["4e524731", "10000000", FIFTEEN, "020000006170", "00000000"],
        1,
        4,
        0,
        0,
    ),
    // Each other fault, and behind it those that count less.
    (
        &[
            NO_BOUNDARIES,
            "06000000",
            CAROL_KEY,
            ALICE,
            MOST,
            USES_100,
            BOB,
            ONE,
            USES_100,
            ALICE_KEY,
            ALICE_CODE,
            BOB,
            MOST,
            USES_100,
        ],
        2,
        5,
        0,
        0,
    ),
    (
        &[
            NO_BOUNDARIES,
            "05000000",
            CAROL_KEY,
            ALICE,
            MOST,
            USES_100,
            BOB,
            ONE,
            USES_100,
            ALICE_KEY,
            ALICE_CODE,
        ],
        3,
        0,
        0,
        0,
    ),
    (
        &[
            NO_BOUNDARIES,
            "04000000",
            BOB,
            ONE,
            USES_100,
            ALICE,
            MOST,
            USES_100,
            ALICE_KEY,
            ALICE_CODE,
        ],
        4,
        1,
        100,
        185,
    ),
    (
        &[
            NO_BOUNDARIES,
            "04000000",
            BOB,
            ONE,
            USES_100,
            ALICE,
            MOST,
            USES_185,
            ALICE_KEY,
            ALICE_CODE,
        ],
        5,
        0,
        0,
        0,
    ),
    (
        &[
            NO_BOUNDARIES,
            "04000000",
            BOB,
            ONE,
            USES_100,
            ALICE,
            ONE,
            USES_185,
            ALICE_KEY,
            ALICE_CODE,
        ],
        6,
        1,
        0,
        0,
    ),
    // An account `system`, a locked amount above the supply, a code's hash without code.
    (
        &[NO_BOUNDARIES, "01000000", SYSTEM, ONE, USES_100],
        3,
        0,
        0,
        0,
    ),
    (
        &[NO_BOUNDARIES, "01000000", ALICE, MOST, LOCKED_1],
        5,
        0,
        0,
        0,
    ),
    (&[NO_BOUNDARIES, "01000000", ALICE, ONE, HASHED], 6, 0, 0, 0),
    // A fault beside a boundary.
    (
        &[
            "4e524731",
            "01000000",
            "020000006d6d",
            "02000000",
            ALICE,
            ONE,
            USES_100,
            ALICE,
            ONE,
            USES_100,
        ],
        2,
        1,
        0,
        0,
    ),
];

#[test]
fn faulty_geneses_are_refused(rt: HostRuntime) -> Result<(), Fail> {
    for (pieces, kind, a, b, c) in FAULTY_GENESES {
        let genesis = text_of(rt.alloc(), pieces)?;
        let ended = run(rt.alloc(), genesis.as_str(), "")?;
        assert_eq!(rt; ended.status, Status::Genesis { kind, a, b, c });
        assert!(rt; ended.wrote_nothing(rt.alloc(), GENESIS)?);
    }
    Ok(())
}

/// Blocks with a fault, and the numbers of the status.
const FAULTY_BLOCKS: [(Pieces, u32, u64); 9] = [
    // The magic word is another, the count of blocks is cut, a byte stands behind the blocks.
    (&["4e524731", "00000000"], 1, 0),
    (&["4e52423100"], 1, 4),
    (&[worked::TRANSFER, "00"], 1, 168),
    // The second block has two chunks, and then only another height; the first chunk is missing.
    (
        &[
            "4e524231",
            "02000000",
            "01000000000000000000000000000000",
            "0100000000",
            "07000000000000000000000000000000",
            "02000000",
            "0000",
        ],
        2,
        7,
    ),
    (
        &[
            "4e524231",
            "02000000",
            "01000000000000000000000000000000",
            "0100000000",
            "07000000000000000000000000000000",
            "0100000000",
        ],
        3,
        7,
    ),
    // The first block has height 2.
    (
        &[
            "4e524231",
            "01000000",
            "02000000000000000000000000000000",
            "0100000000",
        ],
        3,
        2,
    ),
    // The second action is one of staking.
    (
        &[
            ONE_CHUNK, "01000000", BY_ALICE, TO_BOB, "02000000", FIVE, "04",
        ],
        5,
        143,
    ),
    // The boundaries change at the first height: it hasn't a chunk for each shard then, or the one that it has is
    // missing.
    (&[resharded::AT_ONE], 2, 1),
    (&[resharded::AT_ONE_MISSING], 6, 1),
];

#[test]
fn faulty_blocks_are_refused(rt: HostRuntime) -> Result<(), Fail> {
    for (pieces, kind, a) in FAULTY_BLOCKS {
        let blocks = text_of(rt.alloc(), pieces)?;
        let ended = run(rt.alloc(), worked::GENESIS_OF_ALL_KINDS, blocks.as_str())?;
        assert_eq!(rt; ended.status, Status::Blocks { kind, a });
        assert!(rt; ended.wrote_nothing(rt.alloc(), BOTH)?);
    }
    Ok(())
}
