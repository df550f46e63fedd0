//! Archives in memory, with ample memory. What is wanted comes from GNU tar 1.34 over files whose lines are those of an
//! independent program.

use crate::rows::{BOTH_ACCOUNTS, RESHARDED, chain_of};
use crate::setting::words_of;
use nr_audit::{Status, audit};
use nr_bytes::MemorySink;
use nr_ids::Hash32;
use nr_triedef::value_hash;
use std::alloc::Global;
use std::test::Fail;

/// The SHA-256 of the archive of both legs: three chunks, two files each.
const DIGEST: [u8; 32] = *b"\
    \x55\xaf\x49\x97\xef\xbb\xf0\x73\x7e\x5c\x2b\xff\x94\x86\x7f\xc2\
    \xa5\xa2\xd8\xaa\x39\x78\x62\xb6\x36\x62\x78\x95\x8a\x56\x27\x23\
";

/// How these words are answered where some writes fail, of at most 1,024 bytes each, and what was then taken. There
/// are a chain `G`, of one shard, and `B`, of two blocks; from the second on there are two shards, and the second takes
/// what the first one sent.
fn answered(alloc: Global, words: &[&str], failing: &[u64]) -> Result<(Status, Vec<u8>), Fail> {
    let words = words_of(alloc, words)?;
    let mut shelf = chain_of(alloc, BOTH_ACCOUNTS, RESHARDED)?;
    let failing = Vec::from_slice(alloc, failing)?;
    let mut sink = MemorySink::new(alloc, 1024, failing, 10_000)?;
    let status = audit(alloc, &words, &mut shelf, &mut sink);
    Ok((status, Vec::from_slice(alloc, sink.bytes())?))
}

const GATHER: [&str; 4] = ["gather", "free", "G", "B"];

#[test]
fn two_legs_are_one_archive(rt: HostRuntime) -> Result<(), Fail> {
    let (status, archive) = answered(rt.alloc(), &GATHER, &[])?;
    assert!(rt; status == Status::Done);
    assert!(rt; archive.len() == 7680);
    assert!(rt; value_hash(&archive) == Hash32(DIGEST));
    Ok(())
}

#[test]
fn a_failed_write_leaves_a_front(rt: HostRuntime) -> Result<(), Fail> {
    let (status, archive) = answered(rt.alloc(), &GATHER, &[3])?;
    assert!(rt; status == Status::WriteFault);
    assert!(rt; archive.len() < 7680);
    assert!(rt; archive.starts_with(b"1-0.chunk\0"));
    Ok(())
}

#[test]
fn files_are_refused_in_their_order(rt: HostRuntime) -> Result<(), Fail> {
    let alloc = rt.alloc();
    let (status, text) = answered(alloc, &["gather", "G", "N", "N"], &[])?;
    assert!(rt; status == Status::Config { kind: 1, entry: 0 });
    assert!(rt; text.is_empty());
    let (status, _) = answered(alloc, &["gather", "free", "B", "N"], &[])?;
    assert!(rt;
        status
            == Status::Genesis {
                kind: 1,
                a: 0,
                b: 0,
                c: 0
            }
    );
    let (status, _) = answered(alloc, &["gather", "free", "G", "G"], &[])?;
    assert!(rt; status == Status::Blocks { kind: 1, a: 0 });
    let (status, _) = answered(alloc, &["gather", "free", "G", "N"], &[])?;
    assert!(rt; status == Status::ReadFault);
    Ok(())
}

#[test]
fn help_and_version_load_nothing(rt: HostRuntime) -> Result<(), Fail> {
    let alloc = rt.alloc();
    let help = b"near_audit gather CONFIG GENESIS BLOCKS\n\
    near_audit help\n\
    near_audit version\n\
    CONFIG is free or the name of a file.\n";
    let (status, text) = answered(alloc, &["help"], &[])?;
    assert!(rt; status == Status::Done && text.as_slice() == help.as_slice());
    let (status, text) = answered(alloc, &["version"], &[])?;
    assert!(rt; status == Status::Done && text.as_slice() == b"near_audit 0.1.0\n".as_slice());
    let (status, text) = answered(alloc, &["gather", "free", "G"], &[])?;
    assert!(rt; status == Status::Usage && text.is_empty());
    Ok(())
}
