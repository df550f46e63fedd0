//! The file of a chunk that takes one transfer was written by a program of another hand.

use nr_bytes::Blob;
use nr_gathered::{GatheredFault, read_gathered, write_gathered};
use std::alloc::{AllocError, Global};
use std::test::Fail;

/// The chunk at height 2 of a chain of one shard: the receipt of a transfer, which it takes, and eight texts.
pub(crate) const FILE: &[u8] = b"\
    NRS1\xfe\x17\x0e0\x8d\x93\x87\x14w\xcd\xec\xdb\xb8\x01\x08\x05\xa18\xe1\x04F\xcc\xaa\xb0\xce\
    d1;y\x88n2\0\0\0\0\x02\0\0\0\0\0\0\0\0\0\0\0\0\0\0\0\0\0\0\0\0\0\0\0\0\x01\0\0\0\x05\0\0\0al\
    ice\x03\0\0\0bob\x1d\xb4\x9a\x92\xf6VZ\xf8@\xd6I\xa7J\xd2\xea\xcf\xc1\xd2\xc5\x93r7P\xfcz\
    \x83to8\xe0\xc9P\0\x05\0\0\0alice\0\x01\x01\x01\x01\x01\x01\x01\x01\x01\x01\x01\x01\x01\x01\
    \x01\x01\x01\x01\x01\x01\x01\x01\x01\x01\x01\x01\x01\x01\x01\x01\x01\x01\0\0\0\0\0\0\0\0\0\0\
    \0\0\0\0\0\0\0\0\0\0\0\0\0\0\x01\0\0\0\x03\x05\0\0\0\0\0\0\0\0\0\0\0\0\0\0\0\x08\0\0\0.\0\0\
    \0\x01\x01\0\0\0\x10!bA3\x99<\xbfK\xcd\xbb\xe1\xc3u\xec\xa7K\xc0\xa1\x8a\xbfR#\x10\xb0]\x16\
    \x1b\xd3\x0aa[j\xf1\x02\0\0\0\0\0\0K\0\0\0\x02\x05\0\xbeO\x8dz\x05\xfcF\0\xd6\x17\xf88\xcf\
    \xf5\xbc\xf0\x0f\xce\xe4\x95t\x16\x81p7\xba\x91\xf4\xd2\xff\xa4TY\x08\xd0\x0364'\xb9C\xfcYu\
    \xa6\xe8fu4\xea\x83\x13\xd2\xc1\x840[9A\xd7\xf8\xe9\x02\x12\xbd\x02\0\0\0\0\0\0.\0\0\0\x01\
    \x01\0\0\0\x16\xe2\x12\xfe\xc7^\xdcub\x08Nn\x8f^\x22Y\xe9\xc6(6\xd4\xcc\xa4\x85\xf6{\xdeg\
    \x8c\xa5I\x0f\xf5\xce\x01\0\0\0\0\0\0K\0\0\0\x02\x06\0\xe2m8\xeb\x84Y\xadfm\x03\x09\x1fq\xa2\
    \x07\xf4\x9c\x91\xcf\xfd\x1bJ\xfe\xc1\xffp\xd9\xb3\xc5F!\xfa\x5c\x1e\xe9$\xf6'\xb5\x1e\xb2\
    \x19\xca\xa5fj<\x0a\x81\xa1Gs[b\xf4u\xa4EC\x11\x03\x7f;e\x9a\x01\0\0\0\0\0\06\0\0\0\0\x05\0\
    \0\0 liceH\0\0\0\xab\x98\x96\x81\x1aE|`ot\xc2\x09\xb7H(,\xf3\xe0x\xefh}}\xda2^\x9f\x16\x83\
    \xf9\xae\x1e\xb6\0\0\0\0\0\0\04\0\0\0\0\x03\0\0\0 obH\0\0\0\xc6\xc1\x96\x93\xbf\xba\xeb\xb9/\
    \xef,\xdd\xbaWx+\xe4.\x07\x92\xeb \xb0T\xbd\xe3\xc1f\xc4\xba\xe49\xb2\0\0\0\0\0\0\0H\0\0\0\
    \x14\0\0\0\0\0\0\0\0\0\0\0\0\0\0\0\0\0\0\0\0\0\0\0\0\0\0\0\0\0\0\0\0\0\0\0\0\0\0\0\0\0\0\0\0\
    \0\0\0\0\0\0\0\0\0\0\0\0\0\0\0\0\0\0\0d\0\0\0\0\0\0\0Y\0\0\0\0(\0\0\0 alice\x02\0\x01\x01\
    \x01\x01\x01\x01\x01\x01\x01\x01\x01\x01\x01\x01\x01\x01\x01\x01\x01\x01\x01\x01\x01\x01\x01\
    \x01\x01\x01\x01\x01\x01\x01\x09\0\0\0\xf5/:tl%Ee\x8e\x1cj\xdd2\xe5A\x03eU>\xba\xaa\x043\xf5\
    \xf8\xbd\x90\xc6\xf8_\xd6\xe2\xbd\0\0\0\0\0\0\0\
";

/// The height, the shard, and how many transactions, receipts and texts there are.
type Counts = (u64, u32, usize, usize, usize);

fn counted(alloc: Global, bytes: &[u8]) -> Result<Counts, GatheredFault> {
    let gathered = read_gathered(alloc, bytes)?;
    Ok((
        gathered.height.0,
        gathered.shard.0,
        gathered.transactions.inner().len(),
        gathered.taken.inner().len(),
        gathered.texts.inner().len(),
    ))
}

fn written(alloc: Global, bytes: &[u8]) -> Result<Blob, GatheredFault> {
    let gathered = read_gathered(alloc, bytes)?;
    let mut text = Blob::of(Vec::new(alloc));
    match write_gathered(alloc, &gathered, &mut text) {
        Ok(()) => Ok(text),
        Err(_) => Err(GatheredFault::Memory),
    }
}

// The file with another byte at a place.
fn changed(alloc: Global, place: usize, byte: u8) -> Result<Vec<u8>, AllocError> {
    let mut bytes = Vec::from_slice(alloc, FILE)?;
    if let Some(old) = bytes.get_mut(place) {
        *old = byte;
    }
    Ok(bytes)
}

fn fault_of(alloc: Global, bytes: &[u8]) -> Option<GatheredFault> {
    match read_gathered(alloc, bytes) {
        Ok(_) => None,
        Err(fault) => Some(fault),
    }
}

#[test]
fn a_file_is_read_and_written_back(rt: HostRuntime) -> Result<(), Fail> {
    let alloc = rt.alloc();
    assert_eq!(rt; counted(alloc, FILE)?, (2, 0, 0, 1, 8));
    assert_eq!(rt; written(alloc, FILE)?.inner(), FILE);
    Ok(())
}

#[test]
fn the_first_field_that_cant_be_read_is_told(rt: HostRuntime) -> Result<(), Fail> {
    let alloc = rt.alloc();
    let spelled = |at| Some(GatheredFault::Spelling { at });
    assert_eq!(rt; fault_of(alloc, &FILE[..749]), spelled(657));
    assert_eq!(rt; fault_of(alloc, &FILE[..3]), spelled(0));
    assert_eq!(rt; fault_of(alloc, &changed(alloc, 3, b'2')?), spelled(0));
    assert_eq!(rt; fault_of(alloc, &changed(alloc, 56, 2)?), spelled(56));
    // the kind of the one action of the receipt: 3 is a transfer, 4 is staking
    assert_eq!(rt;
        fault_of(alloc, &changed(alloc, 188, 4)?),
        Some(GatheredFault::Stake { at: 188 })
    );
    Ok(())
}
