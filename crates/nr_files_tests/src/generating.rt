//! Generated chains by the SHA-256 of their files, and that these files are read.

use nr_blocks::{BlocksFile, GenesisFile, Version, read_blocks, read_genesis};
use nr_config::Config;
use nr_gen::generate;
use nr_ids::Hash32;
use nr_records::{encode, hash_of};
use std::alloc::{AllocError, Global};

/// The hashes of the genesis file and of the blocks file of a chain.
fn hashes(
    alloc: Global,
    start: u64,
    shards: u32,
    blocks: u64,
) -> Result<(Hash32, Hash32), AllocError> {
    if shards < 1 || shards > 16 || blocks < 1 || blocks > 256 {
        return Err(AllocError);
    }
    let (genesis, blocks) = generate(alloc, start, shards, blocks)?;
    let file = GenesisFile {
        layout: genesis.layout,
        entries: genesis.entries,
    };
    let first = hash_of(alloc, &file)?;
    let version = Version::One;
    let second = hash_of(alloc, &BlocksFile { version, blocks })?;
    Ok((first, second))
}

fn has_hashes(alloc: Global, start: u64, shards: u32, blocks: u64, want: (Hash32, Hash32)) -> bool {
    match hashes(alloc, start, shards, blocks) {
        Ok(hashes) => hashes == want,
        Err(_) => false,
    }
}

const FOUNDED_1: Hash32 = Hash32(
    *b"\
    \x3a\xbf\xce\x6d\x53\xbf\x1e\x6d\x9f\x80\x08\x53\xb7\xe3\x1a\xd5\
    \xd1\xcb\x41\xeb\x0d\xd9\xc1\x18\x66\x32\xe2\x14\xf8\x20\x3d\x52\
",
);

const FOUNDED_2: Hash32 = Hash32(
    *b"\
    \x8a\x87\x6e\x5d\x23\x30\x4e\x83\xdd\xec\x7e\xb9\xa9\xdf\x81\x9d\
    \xde\xde\x56\x61\x73\xc0\x69\xc5\x42\x12\xe3\xd3\x2e\xf4\x50\x74\
",
);

const FOUNDED_16: Hash32 = Hash32(
    *b"\
    \xf5\x66\x8a\xb1\x0c\xab\x6a\x68\x8b\x7f\x18\x86\x93\xd0\xfb\x4e\
    \x04\xe7\xd5\xe3\x31\x3b\x6b\xcc\x59\x14\x7a\xad\x47\x96\xed\xb6\
",
);

const BLOCKS_0_1_40: Hash32 = Hash32(
    *b"\
    \x01\xc3\xaa\x5c\x1c\xab\xd4\x74\xa2\x6b\xd4\xd3\x72\x25\x62\x73\
    \x73\x54\x70\x1a\xb1\x02\x09\xe9\xab\xaf\x9f\x3e\x70\x58\xbd\x2f\
",
);

const BLOCKS_LAST_2_30: Hash32 = Hash32(
    *b"\
    \x13\x63\xba\x89\x11\xac\xdb\xf2\xe2\x04\x32\x68\x75\x93\x70\x9b\
    \x05\x8f\x75\x7b\xd6\x6e\x1d\x58\x87\x18\xed\xc5\xc6\x93\x96\x10\
",
);

const BLOCKS_9_16_256: Hash32 = Hash32(
    *b"\
    \x7f\xd8\xe5\x3b\xe6\x37\x30\xae\xa4\xb5\x8b\x50\x60\xed\x7f\xfd\
    \xcb\x1a\x05\xc3\x39\xb0\x92\xad\x07\x49\x08\x76\x2c\x42\xdd\xbd\
",
);

#[test]
fn generated_files_are_those_of_another_program(rt: HostRuntime) {
    let alloc = rt.alloc();
    assert!(rt; has_hashes(alloc, 0, 1, 40, (FOUNDED_1, BLOCKS_0_1_40)));
    assert!(rt; has_hashes(alloc, u64::MAX, 2, 30, (FOUNDED_2, BLOCKS_LAST_2_30)));
    assert!(rt; has_hashes(alloc, 9, 16, 256, (FOUNDED_16, BLOCKS_9_16_256)));
}

/// Whether the files of a chain are read without fault, as chains of so many shards.
fn is_read(alloc: Global, shards: u32) -> Result<bool, AllocError> {
    if shards < 1 || shards > 16 {
        return Err(AllocError);
    }
    let (genesis, blocks) = generate(alloc, 7, shards, 20)?;
    let file = GenesisFile {
        layout: genesis.layout,
        entries: genesis.entries,
    };
    let genesis = encode(alloc, &file)?;
    let version = Version::One;
    let blocks = encode(alloc, &BlocksFile { version, blocks })?;
    let founded = read_genesis(alloc, genesis.inner(), &Config::generated());
    let ordered = read_blocks(alloc, blocks.into_inner(), shards);
    Ok(founded.is_ok() && ordered.is_ok())
}

#[test]
fn generated_files_are_read(rt: HostRuntime) {
    assert!(rt; matches!(is_read(rt.alloc(), 1), Ok(true)));
    assert!(rt; matches!(is_read(rt.alloc(), 3), Ok(true)));
}
