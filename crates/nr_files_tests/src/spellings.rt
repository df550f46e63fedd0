//! Both files, read, written back and copied.

use crate::reading::GENESIS;
use nr_blocks::{BlocksFile, GenesisFile};
use nr_records::{Spelled, decode, encode};
use std::test::Fail;

/// Alice sends 5 to Bob with nonce 7 and then with nonce 8; block 2 is empty.
const TWO_TRANSFERS: &str =
    "4e524231020000000100000000000000000000000000000001000000010200000005000000616c696365\
     000101010101010101010101010101010101010101010101010101010101010101070000000000000003\
     000000626f62000000000000000000000000000000000000000000000000000000000000000001000000\
     030500000000000000000000000000000005000000616c69636500010101010101010101010101010101\
     0101010101010101010101010101010101080000000000000003000000626f6200000000000000000000\
     000000000000000000000000000000000000000000000100000003050000000000000000000000000000\
     0002000000000000000000000000000000010000000100000000";

#[test]
fn genesis_files_are_written_back_alike(rt: HostRuntime) -> Result<(), Fail> {
    let bytes = GENESIS.as_slice();
    let file: GenesisFile = decode(rt.alloc(), bytes)?;
    assert_eq!(rt; file.layout.shards(), 1);
    assert_eq!(rt; file.entries.inner().len(), 3);
    assert_eq!(rt; encode(rt.alloc(), &file)?.inner(), bytes);
    assert_eq!(rt; file.duplicate(rt.alloc())?, file);
    Ok(())
}

#[test]
fn blocks_files_are_written_back_alike(rt: HostRuntime) -> Result<(), Fail> {
    let bytes = hex::decode(rt.alloc(), TWO_TRANSFERS)?;
    let file: BlocksFile = decode(rt.alloc(), &bytes)?;
    assert_eq!(rt; file.blocks.inner().len(), 2);
    assert_eq!(rt; encode(rt.alloc(), &file)?.inner(), bytes.as_slice());
    assert_eq!(rt; file.duplicate(rt.alloc())?, file);
    Ok(())
}
