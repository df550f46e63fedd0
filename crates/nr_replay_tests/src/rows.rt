//! Runs of two shards, by words and files.

use crate::gates::{AheadOfBarrier, TwoAtOpen};
use crate::setting::{shelf_of, words_of};
use nr_bytes::{MemoryShelf, MemorySink};
use nr_replay::replay;
use nr_top::{Status, serial};
use nr_workers::{Gate, OpenGate};
use std::alloc::Global;
use std::sync::Wait;
use std::sync::atomic::{AtomicBool, Ordering};
use std::test::Fail;
use std::thread::Threads;

/// A genesis of two shards without entries, in hexadecimal.
pub(crate) const GENESIS: &str = "4e52473101000000020000006d6d00000000";

/// Two blocks, each with an empty chunk of both shards.
const BOTH: &str = "4e52423102000000010000000000000000000000000000000200000001000000000100000000\
                    020000000000000000000000000000000200000001000000000100000000";

/// Two blocks without a chunk.
const NONE: &str = "4e5242310200000001000000000000000000000000000000020000000000\
                    02000000000000000000000000000000020000000000";

/// The report of `BOTH`.
const CHUNKS: &str =
    "chunk 1 0 0000000000000000000000000000000000000000000000000000000000000000 0 0\n\
                      chunk 1 1 0000000000000000000000000000000000000000000000000000000000000000 0 0\n\
                      chunk 2 0 0000000000000000000000000000000000000000000000000000000000000000 0 0\n\
                      chunk 2 1 0000000000000000000000000000000000000000000000000000000000000000 0 0\n\
                      total supply 0\ntotal accounts 0\ntotal receipts 0\ntotal burnt 0\n\
                      total places 0 0 0 0 0\n";

/// The report of `NONE`.
const TOTALS: &str = "total supply 0\ntotal accounts 0\ntotal receipts 0\ntotal burnt 0\n\
                      total places 0 0 0 0 0\n";

/// A genesis of one shard with `aa`, who has a key, and `zz`.
pub(crate) const BOTH_ACCOUNTS: &str =
    "4e5247310000000003000000000200000061616400000000000000000000000000000000000000000000\
     0000000000000000000000000000000000000000000000000000000000000000000000000000000000b6\
     0000000000000000020000007a7a14000000000000000000000000000000000000000000000000000000\
     000000000000000000000000000000000000000000000000000000000000000000000000640000000000\
     000002020000006161000101010101010101010101010101010101010101010101010101010101010101\
     000000000000000001";

/// Two blocks, with the boundary `mm` from the second on. In the first `aa` sends 5 to `zz`.
pub(crate) const RESHARDED: &str =
    "4e52423301020000000000000001000000020000006d6d02000000010000000000000000000000000000\
     000000000000000000010000000101000000020000006161000101010101010101010101010101010101\
     0101010101010101010101010101010100000000000000020000007a7a00000000000000000000000000\
     000000000000000000000000000000000000000100000003050000000000000000000000000000000200\
     000000000000000000000000000000000000000000000200000001000000000100000000";

/// The report of `RESHARDED`, as an independent program has it.
const RESHARDED_REPORT: &str =
    "chunk 1 0 7757743af9852ef5e2f4552a5c1e3a235e2cee28f01b976a9f3cae12fac9314a 0 0\n\
     tx 68ba1b92cfc77daf015212a50bbe064742146c91f6794aabc05f12e46e67c808 ok c2d22bdf02078d767c38be7392e2ecedb8f563b9364388a4772a04cf76425e1f\n\
     out 0 c2d22bdf02078d767c38be7392e2ecedb8f563b9364388a4772a04cf76425e1f e4f5b20417e49d09c23379c016b1365b1b791630557da21028132b012c67500b\n\
     chunk 2 0 496f3edddc3cf5abb17cb1a8dc4c244678caebdc891b1be78bb80ad7c43ff2f3 0 0\n\
     chunk 2 1 15b163b25276c7daa508b4f99c2b8aae11c51d9d8cb0f86a4c72696459992e88 0 0\n\
     run c2d22bdf02078d767c38be7392e2ecedb8f563b9364388a4772a04cf76425e1f value - 0 0\n\
     total supply 120\n\
     total accounts 120\n\
     total receipts 0\n\
     total burnt 0\n\
     total places 1 1 0 0 0\n";

/// A replay of `B` over `G`.
const REPLAY: [&str; 4] = ["replay", "free", "G", "B"];

/// A generated chain of two shards and two blocks.
const GENERATED: [&str; 4] = ["gen", "4", "2", "2"];

/// What is written of `GENERATED`.
const SUMMARY: &str = "gen 4 2 2\n\
                       chunks 4\n\
                       digest 42902f6b814ea90e4c60d5847e8d9bb35df443706cfe8325d5433602e6281465\n\
                       total supply 18000000000000000000000000\n\
                       total accounts 17999999999999998407163183\n\
                       total receipts 1575662417\n\
                       total burnt 17174400\n\
                       total places 44 16 0 0 28\n";

/// A shelf with the genesis `G` and blocks `B`, given in hexadecimal.
pub(crate) fn chain_of(alloc: Global, genesis: &str, blocks: &str) -> Result<MemoryShelf, Fail> {
    let genesis = hex::decode(alloc, genesis)?;
    let blocks = hex::decode(alloc, blocks)?;
    Ok(shelf_of(
        alloc,
        &[("G", genesis.as_slice()), ("B", blocks.as_slice())],
    )?)
}

/// Whether the words over these files, through a gate, write just this text.
fn writes<R: Threads + Wait + Sync, G: Gate + Sync>(
    rt: &R,
    alloc: Global,
    words: &[&str; 4],
    (genesis, blocks): (&str, &str),
    gate: &G,
    text: &str,
) -> Result<bool, Fail> {
    let words = words_of(alloc, words)?;
    let mut shelf = chain_of(alloc, genesis, blocks)?;
    let mut sink = MemorySink::new(alloc, 64, Vec::new(alloc), 4096)?;
    let status = replay(rt, alloc, &words, &mut shelf, &mut sink, gate);
    Ok(status == Status::Done && sink.bytes() == text.as_bytes())
}

#[test]
fn two_at_open(rt: HostRuntime) -> Result<(), Fail> {
    let gate = TwoAtOpen {
        there: [AtomicBool::new(false), AtomicBool::new(false)],
        alone: AtomicBool::new(false),
    };
    let files = (GENESIS, BOTH);
    assert!(rt; writes(&rt, rt.alloc(), &REPLAY, files, &gate, CHUNKS)?);
    assert!(rt; !gate.alone.load(Ordering::SeqCst));
    Ok(())
}

#[test]
fn ahead_of_barrier(rt: HostRuntime) -> Result<(), Fail> {
    let gate = AheadOfBarrier {
        ahead: AtomicBool::new(false),
        alone: AtomicBool::new(false),
    };
    let files = (GENESIS, BOTH);
    assert!(rt; writes(&rt, rt.alloc(), &REPLAY, files, &gate, CHUNKS)?);
    assert!(rt; !gate.alone.load(Ordering::SeqCst));
    Ok(())
}

/// Two blocks without a chunk, boundaries that change where all threads have ended, and a generated chain.
#[test]
fn runs_by_threads_are_written(rt: HostRuntime) -> Result<(), Fail> {
    let rows: [(&[&str; 4], (&str, &str), &str); 3] = [
        (&REPLAY, (GENESIS, NONE), TOTALS),
        (&REPLAY, (BOTH_ACCOUNTS, RESHARDED), RESHARDED_REPORT),
        (&GENERATED, (GENESIS, NONE), SUMMARY),
    ];
    for (words, files, text) in rows {
        assert!(rt;
            writes(&rt, rt.alloc(), words, files, &OpenGate, text)?,
            "{text}"
        );
    }
    Ok(())
}

#[test]
fn the_serial_call_knows_no_replay(rt: HostRuntime) -> Result<(), Fail> {
    let alloc = rt.alloc();
    let words = words_of(alloc, &REPLAY)?;
    let mut shelf = chain_of(alloc, GENESIS, BOTH)?;
    let mut sink = MemorySink::new(alloc, 64, Vec::new(alloc), 4096)?;
    let status = serial(alloc, &words, &mut shelf, &mut sink);
    assert!(rt; status == Status::Usage);
    assert!(rt; sink.bytes().is_empty());
    Ok(())
}
