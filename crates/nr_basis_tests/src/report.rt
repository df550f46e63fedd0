//! Each form of line, written out by hand.

use nr_bytes::{Blob, List};
use nr_ids::{Hash32, Height, ShardId};
use nr_records::{ChunkLine, ChunkResult, Outcome, RunStatus};
use nr_report::{Totals, write_chunk, write_totals};
use std::alloc::Global;
use std::test::Fail;

const HEAD: &str =
    "chunk 7 3 fefefefefefefefefefefefefefefefefefefefefefefefefefefefefefefefe 18446744073709551615 340282366920938463463374607431768211455\n";

fn id(byte: u8) -> Hash32 {
    Hash32([byte; 32])
}

// Whether a chunk with this one line has this text behind its own line.
fn reads(alloc: Global, line: ChunkLine, text: &str) -> Result<bool, Fail> {
    let mut lines = Vec::new(alloc);
    lines.push(line)?;
    let chunk = ChunkResult {
        height: Height(7),
        shard: ShardId(3),
        root: id(0xfe),
        gas: u64::MAX,
        burnt: u128::MAX,
        local: 9,
        lines: List::of(lines),
    };
    let mut out = Blob::of(Vec::new(alloc));
    write_chunk(alloc, &chunk, &mut out)?;
    Ok(out.inner().strip_prefix(HEAD.as_bytes()) == Some(text.as_bytes()))
}

fn run(status: RunStatus, logs: Vec<Blob>) -> ChunkLine {
    ChunkLine::Run(Outcome {
        receipt_id: id(0xa1),
        status,
        gas: 12,
        burnt: 34,
        logs: List::of(logs),
    })
}

#[test]
fn transactions_are_written(rt: HostRuntime) -> Result<(), Fail> {
    let accepted = ChunkLine::TxOk {
        hash: id(0x0b),
        receipt_id: id(0xa1),
    };
    let text =
        "tx 0b0b0b0b0b0b0b0b0b0b0b0b0b0b0b0b0b0b0b0b0b0b0b0b0b0b0b0b0b0b0b0b ok a1a1a1a1a1a1a1a1a1a1a1a1a1a1a1a1a1a1a1a1a1a1a1a1a1a1a1a1a1a1a1a1\n";
    assert!(rt; reads(rt.alloc(), accepted, text)?);
    let refused = ChunkLine::TxRefused {
        hash: id(0x0b),
        number: 9,
        first: 100,
        second: u128::MAX,
    };
    let text =
        "tx 0b0b0b0b0b0b0b0b0b0b0b0b0b0b0b0b0b0b0b0b0b0b0b0b0b0b0b0b0b0b0b0b refused 9 100 340282366920938463463374607431768211455\n";
    assert!(rt; reads(rt.alloc(), refused, text)?);
    Ok(())
}

#[test]
fn runs_are_written_with_their_logs(rt: HostRuntime) -> Result<(), Fail> {
    let bytes = Blob::of(Vec::from_slice(rt.alloc(), &[0x00, 0xff, 0x0a])?);
    let mut logs = Vec::new(rt.alloc());
    logs.push(Blob::of(Vec::from_slice(rt.alloc(), b"hi")?))?;
    logs.push(Blob::of(Vec::new(rt.alloc())))?;
    let text =
        "run a1a1a1a1a1a1a1a1a1a1a1a1a1a1a1a1a1a1a1a1a1a1a1a1a1a1a1a1a1a1a1a1 value 00ff0a 12 34\nlog 6869\nlog -\n";
    assert!(rt; reads(rt.alloc(), run(RunStatus::Value(bytes), logs), text)?);
    let none = RunStatus::Value(Blob::of(Vec::new(rt.alloc())));
    let text =
        "run a1a1a1a1a1a1a1a1a1a1a1a1a1a1a1a1a1a1a1a1a1a1a1a1a1a1a1a1a1a1a1a1 value - 12 34\n";
    assert!(rt; reads(rt.alloc(), run(none, Vec::new(rt.alloc())), text)?);
    Ok(())
}

#[test]
fn other_ends_are_written(rt: HostRuntime) -> Result<(), Fail> {
    let promise = run(RunStatus::Promise(id(0x0c)), Vec::new(rt.alloc()));
    let text =
        "run a1a1a1a1a1a1a1a1a1a1a1a1a1a1a1a1a1a1a1a1a1a1a1a1a1a1a1a1a1a1a1a1 promise 0c0c0c0c0c0c0c0c0c0c0c0c0c0c0c0c0c0c0c0c0c0c0c0c0c0c0c0c0c0c0c0c 12 34\n";
    assert!(rt; reads(rt.alloc(), promise, text)?);
    let status = RunStatus::Failure {
        index: 1,
        kind: 13,
        part: 5,
    };
    let text =
        "run a1a1a1a1a1a1a1a1a1a1a1a1a1a1a1a1a1a1a1a1a1a1a1a1a1a1a1a1a1a1a1a1 failure 1 13 5 12 34\n";
    assert!(rt; reads(rt.alloc(), run(status, Vec::new(rt.alloc())), text)?);
    let text = "run a1a1a1a1a1a1a1a1a1a1a1a1a1a1a1a1a1a1a1a1a1a1a1a1a1a1a1a1a1a1a1a1 clash 0 34\n";
    assert!(rt;
        reads(
            rt.alloc(),
            run(RunStatus::Clash, Vec::new(rt.alloc())),
            text
        )?
    );
    Ok(())
}

#[test]
fn failed_runs_have_no_log_lines(rt: HostRuntime) -> Result<(), Fail> {
    let mut logs = Vec::new(rt.alloc());
    logs.push(Blob::of(Vec::from_slice(rt.alloc(), b"hi")?))?;
    let status = RunStatus::Failure {
        index: 0,
        kind: 4,
        part: 1,
    };
    let text =
        "run a1a1a1a1a1a1a1a1a1a1a1a1a1a1a1a1a1a1a1a1a1a1a1a1a1a1a1a1a1a1a1a1 failure 0 4 1 12 34\n";
    assert!(rt; reads(rt.alloc(), run(status, logs), text)?);
    Ok(())
}

#[test]
fn receipts_are_written(rt: HostRuntime) -> Result<(), Fail> {
    let text = "post a1a1a1a1a1a1a1a1a1a1a1a1a1a1a1a1a1a1a1a1a1a1a1a1a1a1a1a1a1a1a1a1\n";
    assert!(rt; reads(rt.alloc(), ChunkLine::Postponed(id(0xa1)), text)?);
    let text = "data a1a1a1a1a1a1a1a1a1a1a1a1a1a1a1a1a1a1a1a1a1a1a1a1a1a1a1a1a1a1a1a1\n";
    assert!(rt; reads(rt.alloc(), ChunkLine::Received(id(0xa1)), text)?);
    let text = "lost a1a1a1a1a1a1a1a1a1a1a1a1a1a1a1a1a1a1a1a1a1a1a1a1a1a1a1a1a1a1a1a1\n";
    assert!(rt; reads(rt.alloc(), ChunkLine::Lost(id(0xa1)), text)?);
    let text = "late a1a1a1a1a1a1a1a1a1a1a1a1a1a1a1a1a1a1a1a1a1a1a1a1a1a1a1a1a1a1a1a1\n";
    assert!(rt; reads(rt.alloc(), ChunkLine::Late(id(0xa1)), text)?);
    let sent = ChunkLine::Sent {
        dest: ShardId(15),
        receipt_id: id(0xa1),
        hash: id(0x0d),
    };
    let text =
        "out 15 a1a1a1a1a1a1a1a1a1a1a1a1a1a1a1a1a1a1a1a1a1a1a1a1a1a1a1a1a1a1a1a1 0d0d0d0d0d0d0d0d0d0d0d0d0d0d0d0d0d0d0d0d0d0d0d0d0d0d0d0d0d0d0d0d\n";
    assert!(rt; reads(rt.alloc(), sent, text)?);
    Ok(())
}

#[test]
fn lines_follow_what_was_written_in_order(rt: HostRuntime) -> Result<(), Fail> {
    let mut lines = Vec::new(rt.alloc());
    lines.push(ChunkLine::Late(id(0x0c)))?;
    lines.push(ChunkLine::Postponed(id(0xa1)))?;
    let chunk = ChunkResult {
        height: Height(1),
        shard: ShardId(0),
        root: id(0x0d),
        gas: 2,
        burnt: 3,
        local: 4,
        lines: List::of(lines),
    };
    let mut out = Blob::of(Vec::from_slice(rt.alloc(), b"front\n")?);
    write_chunk(rt.alloc(), &chunk, &mut out)?;
    let text =
        b"front\nchunk 1 0 0d0d0d0d0d0d0d0d0d0d0d0d0d0d0d0d0d0d0d0d0d0d0d0d0d0d0d0d0d0d0d0d 2 3\n\
        late 0c0c0c0c0c0c0c0c0c0c0c0c0c0c0c0c0c0c0c0c0c0c0c0c0c0c0c0c0c0c0c0c\n\
        post a1a1a1a1a1a1a1a1a1a1a1a1a1a1a1a1a1a1a1a1a1a1a1a1a1a1a1a1a1a1a1a1\n";
    assert_eq!(rt; out.inner(), text.as_slice());
    Ok(())
}

#[test]
fn totals_are_written(rt: HostRuntime) -> Result<(), Fail> {
    let totals = Totals {
        supply: 120,
        accounts: 117,
        receipts: 0,
        burnt: 3,
        places: [1, 2, 3, 4, u64::MAX],
    };
    let mut out = Blob::of(Vec::from_slice(rt.alloc(), b"front\n")?);
    write_totals(rt.alloc(), &totals, &mut out)?;
    let text = b"front\ntotal supply 120\ntotal accounts 117\ntotal receipts 0\ntotal burnt 3\n\
        total places 1 2 3 4 18446744073709551615\n";
    assert_eq!(rt; out.inner(), text.as_slice());
    Ok(())
}
