//! Roots, proofs of items, and the judgement of proofs, over worked chains. Roots and proofs are those of an
//! independent program.

use crate::setting::{Ended, end_of, shelf_of, shelf_of_all};
use crate::{sharded, worked};
use nr_top::Status;
use std::alloc::Global;
use std::test::Fail;

/// Alice sends 1 to Bob five times in block 1; block 2 is empty.
const FIVE_TRANSFERS: &str =
    "4e524231020000000100000000000000000000000000000001000000010500000005000000616c696365\
     000101010101010101010101010101010101010101010101010101010101010101010000000000000003\
     000000626f62000000000000000000000000000000000000000000000000000000000000000001000000\
     030100000000000000000000000000000005000000616c69636500010101010101010101010101010101\
     0101010101010101010101010101010101020000000000000003000000626f6200000000000000000000\
     000000000000000000000000000000000000000000000100000003010000000000000000000000000000\
     0005000000616c6963650001010101010101010101010101010101010101010101010101010101010101\
     01030000000000000003000000626f620000000000000000000000000000000000000000000000000000\
     00000000000001000000030100000000000000000000000000000005000000616c696365000101010101\
     010101010101010101010101010101010101010101010101010101040000000000000003000000626f62\
     000000000000000000000000000000000000000000000000000000000000000001000000030100000000\
     000000000000000000000005000000616c69636500010101010101010101010101010101010101010101\
     0101010101010101010101050000000000000003000000626f6200000000000000000000000000000000\
     000000000000000000000000000000000100000003010000000000000000000000000000000200000000\
     0000000000000000000000010000000100000000";

/// The roots of the chunks of one transfer.
const ROOTS: &str =
    "roots 1 0 254ac20e6f70b839de105d19cb59ce4706273fd07fd4393dc4e4030e04fea820 24fce4e93a8e49381c92be4f8651e896340e37107be601a68d589d7bdafada6d\n\
     roots 2 0 bd40c5d7ced3715f7bd4504bb3ea9c4c0a1a44b57ff62570d4d73a912f08edb8 b66679466933fc339a8e22e35a0f89fe356ddd87f0543c225dd8c1ecd359bece\n";

/// The root of the receipts of its first chunk.
const ROOT: &str = "24fce4e93a8e49381c92be4f8651e896340e37107be601a68d589d7bdafada6d";

/// The root of the outcomes of five transfers.
const ROOT_OF_FIVE: &str = "fd2aaf9b7d2b6eb7c189f1f3d7a4dfccaf1747890b0105e73e995a8049de6fc9";

/// The proof of the one receipt.
const PROOF: &str = "proof receipt 1 0 0 1\n\
     item 000000001db49a92f6565af840d649a74ad2eacfc1d2c593723750fc7a83746f38e0c950cc4b3fa3598b60d747c37afc920f1c9ef7456e774c36c53fca5ca167ca6df6e0\n";

/// The same with another last digit.
const BENT: &str = "proof receipt 1 0 0 1\n\
     item 000000001db49a92f6565af840d649a74ad2eacfc1d2c593723750fc7a83746f38e0c950cc4b3fa3598b60d747c37afc920f1c9ef7456e774c36c53fca5ca167ca6df6e1\n";

/// The places of five outcomes with their proofs; the last one's way is shorter.
const FIVE: [(&str, &str); 5] = [
    (
        "0",
        "proof outcome 1 0 0 5\n\
     item 00d208e5ee21ab44c19467cc418b196d78f3229cabd6477b77a5d36265fb17c13100f183d40ae5ce5d891c8039a907fb9db9efa1c0bc5e5c6b1db36b0132941b9f\n\
     path 15da24edcd72d0058b581625acb409211af0b043b8e3b845308d9799fde3b6f6\n\
     path 72c8bf462775d34e150b93eb4ad032802572f5433ab899cd05131362386840f9\n\
     path 32e5f1fb30eaafa876d78018ee29b2c2b851808f150f26dc8e1e8f7cfb05e622\n",
    ),
    (
        "1",
        "proof outcome 1 0 1 5\n\
     item 004a3ee8260d4b4ff4552b506e3c850ce1dcc2cb037dd03903ab28ffe96f7a7af362b7a3be681eae66f6d32740d4a74828d4bbe257718a309f0ed2f5b926935bf3\n\
     path 7fca05439ea4e3d780f5d0b815a2d8e54f484e6b1abce1a8916c608c6562076e\n\
     path 72c8bf462775d34e150b93eb4ad032802572f5433ab899cd05131362386840f9\n\
     path 32e5f1fb30eaafa876d78018ee29b2c2b851808f150f26dc8e1e8f7cfb05e622\n",
    ),
    (
        "2",
        "proof outcome 1 0 2 5\n\
     item 0013290925872318074a571b10924629565a12abcbacd51f8bd90ae3bc1f5353eb30640ec9db65749f38b29953244a4eca0887cf83d8270cb9aabb4c913ac946d1\n\
     path 2aee7f2c799a90fe4ead0fbf0bd7f6e60dc22fad5ac064653c72189b158f7a05\n\
     path 4a1f559537a91c9b6c379c23d06e15225b1d63fa9612c9f61d4a229ca6f39db3\n\
     path 32e5f1fb30eaafa876d78018ee29b2c2b851808f150f26dc8e1e8f7cfb05e622\n",
    ),
    (
        "3",
        "proof outcome 1 0 3 5\n\
     item 006aae407f593ea91eae94ccc3fc1ce727cd426450e16eff92e0ee78f1217e6d32e77ec86c9fc3a9f638ca63ce25864437268f5a2b4868a85b0635890a35e8ad86\n\
     path 3b513f39254b52043b2a071bf44f8eb182a32282436ad52932036600ac8b1093\n\
     path 4a1f559537a91c9b6c379c23d06e15225b1d63fa9612c9f61d4a229ca6f39db3\n\
     path 32e5f1fb30eaafa876d78018ee29b2c2b851808f150f26dc8e1e8f7cfb05e622\n",
    ),
    (
        "4",
        "proof outcome 1 0 4 5\n\
     item 00b33eab1d59af236c95918de6f2511abcd86568bb27776213a10a9ef4ec6f57b17895548666a4d2bb1965053af3ad2adc14d099d52581636229eaac6d43d83540\n\
     path aeb72bb1112532357ea8a96b138b39aeea5bf6dd65a98dc97e0688c4f8398dcb\n",
    ),
];

/// A root that is no chunk's.
const OTHER_ROOT: &str = "0000000000000000000000000000000000000000000000000000000000000000";

/// What the shelf tells where a chain was asked for.
const CHAIN: &str = "Some([\"G\", \"B\"])";

/// What the shelf tells where the one proof was asked for.
const ALONE: &str = "Some([\"P\"])";

/// How words over Alice's accounts, some blocks and a proof end.
fn ended_by(alloc: Global, words: &[&str], blocks: &str, proof: &str) -> Result<Ended, Fail> {
    let shelf = shelf_of_all(
        alloc,
        worked::GENESIS,
        blocks,
        &[("P", proof.as_bytes())],
        &[],
    )?;
    end_of(alloc, words, shelf)
}

#[test]
fn chunks_have_roots_and_proofs(rt: HostRuntime) -> Result<(), Fail> {
    let rows: [(&[&str], &str); 2] = [
        (&["roots", "free", "G", "B"], ROOTS),
        (
            &["prove", "free", "G", "B", "1", "0", "receipt", "0"],
            PROOF,
        ),
    ];
    for (words, text) in rows {
        let ended = ended_by(rt.alloc(), words, worked::TRANSFER, "")?;
        assert_eq!(rt; ended.status, Status::Done);
        assert!(rt; ended.asked(rt.alloc(), CHAIN)?);
        assert_eq!(rt; ended.sink.bytes(), text.as_bytes());
    }
    Ok(())
}

#[test]
fn each_of_five_outcomes_has_its_way(rt: HostRuntime) -> Result<(), Fail> {
    for (place, proof) in FIVE {
        let words = ["prove", "free", "G", "B", "1", "0", "outcome", place];
        let ended = ended_by(rt.alloc(), &words, FIVE_TRANSFERS, "")?;
        assert_eq!(rt; ended.status, Status::Done);
        assert_eq!(rt; ended.sink.bytes(), proof.as_bytes());
    }
    Ok(())
}

#[test]
fn proofs_are_judged(rt: HostRuntime) -> Result<(), Fail> {
    let rows = [
        (ROOT, PROOF, "valid\n"),
        (ROOT, BENT, "invalid\n"),
        (OTHER_ROOT, PROOF, "invalid\n"),
        (ROOT_OF_FIVE, FIVE[0].1, "valid\n"),
        (ROOT_OF_FIVE, FIVE[4].1, "valid\n"),
        (ROOT_OF_FIVE, PROOF, "invalid\n"),
    ];
    for (root, proof, text) in rows {
        let ended = ended_by(rt.alloc(), &["verify", root, "P"], "", proof)?;
        assert_eq!(rt; ended.status, Status::Done);
        assert!(rt; ended.asked(rt.alloc(), ALONE)?);
        assert_eq!(rt; ended.sink.bytes(), text.as_bytes());
    }
    Ok(())
}

#[test]
fn faulty_proofs_are_refused_by_their_line(rt: HostRuntime) -> Result<(), Fail> {
    let rows = [
        ("", 1),
        ("proof receipt 1 0 0 1", 1),
        ("proof receipt +1 0 0 1\nitem -\n", 1),
        ("proof receipt 1 0 0 1\n", 2),
        ("proof receipt 1 0 0 1\nitem \n", 2),
        ("proof receipt 1 0 0 1\nitem 0A\n", 2),
        ("proof receipt 1 0 0 1\nitem 0a\npath 00\n", 3),
        ("proof receipt 1 0 0 1\nitem 0a\n\n", 3),
    ];
    for (proof, line) in rows {
        let ended = ended_by(rt.alloc(), &["verify", ROOT, "P"], "", proof)?;
        assert_eq!(rt; ended.status, Status::Proof { kind: 1, line });
        assert!(rt; ended.wrote_nothing(rt.alloc(), ALONE)?);
    }
    Ok(())
}

#[test]
fn absent_items_are_refused_with_their_count(rt: HostRuntime) -> Result<(), Fail> {
    let most = "18446744073709551615";
    let rows = [
        ("0", "0", "outcome", "0", 0),
        ("3", "0", "outcome", "0", 0),
        (most, "0", "outcome", "0", 0),
        ("1", "1", "outcome", "0", 0),
        ("1", "4294967295", "outcome", "0", 0),
        ("2", "0", "receipt", "0", 0),
        ("1", "0", "receipt", "1", 1),
        ("1", "0", "outcome", most, 1),
    ];
    for (height, shard, kind, place, count) in rows {
        let words = ["prove", "free", "G", "B", height, shard, kind, place];
        let ended = ended_by(rt.alloc(), &words, worked::TRANSFER, "")?;
        assert_eq!(rt; ended.status, Status::NoItem { count });
        assert!(rt; ended.wrote_nothing(rt.alloc(), CHAIN)?);
    }
    Ok(())
}

/// Shard 1 has no chunk at the heights 2, 3 and 4, and that of height 5 has two outcomes.
#[test]
fn missing_chunks_have_no_items(rt: HostRuntime) -> Result<(), Fail> {
    let rows = [("2", "0", 0), ("4", "0", 0), ("5", "2", 2)];
    for (height, place, count) in rows {
        let shelf = shelf_of(
            rt.alloc(),
            sharded::MISSING_GENESIS,
            sharded::MISSING_BLOCKS,
            &[],
        )?;
        let words = ["prove", "free", "G", "B", height, "1", "outcome", place];
        let ended = end_of(rt.alloc(), &words, shelf)?;
        assert_eq!(rt; ended.status, Status::NoItem { count });
    }
    Ok(())
}

/// The files are refused before the item, which isn't there either.
#[test]
fn files_are_refused_before_items(rt: HostRuntime) -> Result<(), Fail> {
    let words = ["prove", "free", "B", "G", "9", "0", "outcome", "0"];
    let ended = ended_by(rt.alloc(), &words, worked::TRANSFER, "")?;
    assert_eq!(rt;
        ended.status,
        Status::Genesis {
            kind: 1,
            a: 0,
            b: 0,
            c: 0
        }
    );
    assert!(rt; ended.wrote_nothing(rt.alloc(), "Some([\"B\"])")?);
    Ok(())
}
