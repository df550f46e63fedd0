//! Decoding faults at the head of a module.

use nr_config::Config;
use nr_wasmbin::{DecodeFault, decode};
use std::alloc::{AllocError, Global};

fn fault_of(alloc: Global, bytes: &[u8]) -> Option<DecodeFault> {
    match decode(alloc, bytes, &Config::free()) {
        Ok(_) => None,
        Err(fault) => Some(fault),
    }
}

#[test]
fn magic_version_and_counts(rt: HostRuntime) {
    let alloc = rt.alloc();
    assert!(rt; fault_of(alloc, b"\x00asm\x01\x00\x00\x00") == None);
    assert!(rt; fault_of(alloc, b"\x00asm\x01\x00\x00") == Some(DecodeFault::Short { at: 4 }));
    assert!(rt;
        fault_of(alloc, b"\x00asm\x01\x00\x00\x00\x01\x80\x80\x80\x80\x10")
            == Some(DecodeFault::Leb { at: 9 })
    );
    assert!(rt;
        fault_of(
            alloc,
            b"\x00asm\x01\x00\x00\x00\x01\x80\x80\x80\x80\x80\x00"
        ) == Some(DecodeFault::Leb { at: 9 })
    );
    assert!(rt;
        fault_of(alloc, b"\x00asm\x01\x00\x00\x00\x01\x03\xd1\x86\x03")
            == Some(DecodeFault::TooMany { at: 10 })
    );
}

/// What stands before the blocks of a body with 256 of them: a function that takes and leaves nothing.
const BEFORE_256: &[u8] =
    b"\x00asm\x01\x00\x00\x00\x01\x04\x01\x60\x00\x00\x03\x02\x01\x00\x0a\x85\x06\x01\x82\x06\x00";

/// The same of a body with 257.
const BEFORE_257: &[u8] =
    b"\x00asm\x01\x00\x00\x00\x01\x04\x01\x60\x00\x00\x03\x02\x01\x00\x0a\x88\x06\x01\x85\x06\x00";

/// A module with a body of so many blocks, each in the one before.
fn nested(alloc: Global, before: &[u8], blocks: u32) -> Result<Vec<u8>, AllocError> {
    let mut bytes = Vec::from_slice(alloc, before)?;
    for _ in 0..blocks {
        bytes.extend_from_slice(b"\x02\x40".as_slice())?;
    }
    for _ in 0..blocks {
        bytes.push(0x0b)?;
    }
    bytes.push(0x0b)?;
    Ok(bytes)
}

#[test]
fn blocks_stand_in_one_another_256_deep(rt: HostRuntime) -> Result<(), AllocError> {
    let alloc = rt.alloc();
    let deepest = nested(alloc, BEFORE_256, 256)?;
    assert_eq!(rt; fault_of(alloc, &deepest), None);
    let deeper = nested(alloc, BEFORE_257, 257)?;
    assert_eq!(rt;
        fault_of(alloc, &deeper),
        Some(DecodeFault::TooMany { at: 537 })
    );
    Ok(())
}
