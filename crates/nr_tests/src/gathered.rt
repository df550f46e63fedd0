//! A chunk that is gathered, and run again from its file alone. Files and lines are those of an independent program.

use crate::setting::{Ended, end_of, shelf_of, shelf_of_all, text_of};
use crate::worked;
use nr_top::Status;
use std::alloc::Global;
use std::test::Fail;

/// The file of the second chunk of one transfer, up to its texts.
const HEAD: &str =
    "4e525331fe170e308d93871477cdecdbb8010805a138e10446ccaab0ce64313b79886e32000000000200\
     00000000000000000000000000000000000000000000000100000005000000616c69636503000000626f\
     621db49a92f6565af840d649a74ad2eacfc1d2c593723750fc7a83746f38e0c9500005000000616c6963\
     650001010101010101010101010101010101010101010101010101010101010101010000000000000000\
     00000000000000000000000000000000010000000305000000000000000000000000000000";

/// That there are eight texts, and the first of them.
const FIRST_OF_EIGHT: &str = "08000000\
     2e00000001010000001021624133993cbf4bcdbbe1c375eca74bc0a18abf522310b05d161bd3\
     0a615b6af102000000000000";

/// That there are seven.
const OF_SEVEN: &str = "07000000";

/// The other texts.
const OTHERS: &str =
    "4b000000020500be4f8d7a05fc4600d617f838cff5bcf00fcee4957416817037ba91f4d2ffa4545908d0\
     03363427b943fc5975a6e8667534ea8313d2c184305b3941d7f8e90212bd020000000000002e00000001\
     0100000016e212fec75edc7562084e6e8f5e2259e9c62836d4cca485f67bde678ca5490ff5ce01000000\
     0000004b000000020600e26d38eb8459ad666d03091f71a207f49c91cffd1b4afec1ff70d9b3c54621fa\
     5c1ee924f627b51eb219caa5666a3c0a81a147735b62f475a4454311037f3b659a010000000000003600\
     00000005000000206c69636548000000ab9896811a457c606f74c209b748282cf3e078ef687d7dda325e\
     9f1683f9ae1eb600000000000000340000000003000000206f6248000000c6c19693bfbaebb92fef2cdd\
     ba57782be42e0792eb20b054bde3c166c4bae439b2000000000000004800000014000000000000000000\
     000000000000000000000000000000000000000000000000000000000000000000000000000000000000\
     000000000000000000000000640000000000000059000000002800000020616c69636502000101010101\
     01010101010101010101010101010101010101010101010101010109000000f52f3a746c2545658e1c6a\
     dd32e5410365553ebaaa0433f5f8bd90c6f85fd6e2bd00000000000000";

/// What the chunk writes.
const LINES: &str =
    "chunk 2 0 92320917050449af130cdb3b2e0fd713aae8154575253e0513b30f32d6d5fa43 0 0\n\
     run 1db49a92f6565af840d649a74ad2eacfc1d2c593723750fc7a83746f38e0c950 value - 0 0\n";

/// The bytes of a file that is put together of pieces.
fn file_of(alloc: Global, pieces: &[&str]) -> Result<Vec<u8>, Fail> {
    let text = text_of(alloc, pieces)?;
    Ok(hex::decode(alloc, &text)?)
}

/// How a chunk is run again from a file.
fn recheck(alloc: Global, file: &[u8]) -> Result<Ended, Fail> {
    let shelf = shelf_of_all(alloc, "", "", &[("W", file)], &[])?;
    end_of(alloc, &["recheck", "free", "W"], shelf)
}

/// A file that is refused, with the kind and the place.
fn is_refused(alloc: Global, file: &[u8], kind: u32, a: u64) -> Result<bool, Fail> {
    let ended = recheck(alloc, file)?;
    Ok(ended.status == Status::Gathered { kind, a } && ended.wrote_nothing(alloc, "Some([\"W\"])")?)
}

#[test]
fn a_chunk_is_gathered(rt: HostRuntime) -> Result<(), Fail> {
    let shelf = shelf_of(rt.alloc(), worked::GENESIS, worked::TRANSFER, &[])?;
    let ended = end_of(rt.alloc(), &["gather", "free", "G", "B", "2", "0"], shelf)?;
    let file = file_of(rt.alloc(), &[HEAD, FIRST_OF_EIGHT, OTHERS])?;
    assert_eq!(rt; ended.status, Status::Done);
    assert!(rt; ended.asked(rt.alloc(), "Some([\"G\", \"B\"])")?);
    assert_eq!(rt; ended.sink.bytes(), file.as_slice());
    Ok(())
}

#[test]
fn it_is_run_again(rt: HostRuntime) -> Result<(), Fail> {
    let file = file_of(rt.alloc(), &[HEAD, FIRST_OF_EIGHT, OTHERS])?;
    let ended = recheck(rt.alloc(), &file)?;
    assert_eq!(rt; ended.status, Status::Done);
    assert!(rt; ended.asked(rt.alloc(), "Some([\"W\"])")?);
    assert_eq!(rt; ended.sink.bytes(), LINES.as_bytes());
    Ok(())
}

#[test]
fn faulty_files_are_refused(rt: HostRuntime) -> Result<(), Fail> {
    let without_first = file_of(rt.alloc(), &[HEAD, OF_SEVEN, OTHERS])?;
    assert!(rt; is_refused(rt.alloc(), &without_first, 2, 0)?);
    let mut file = file_of(rt.alloc(), &[HEAD, FIRST_OF_EIGHT, OTHERS])?;
    file.pop();
    assert!(rt; is_refused(rt.alloc(), &file, 1, 657)?);
    Ok(())
}
