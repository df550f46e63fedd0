//! One chunk with a transfer, run again from its file.

use crate::gathered::FILE;
use crate::rechecking::text_of;
use nr_config::Config;
use nr_gathered::{Gathered, read_gathered};
use nr_ids::{Height, ShardId};
use nr_recheck::RecheckFault;
use std::alloc::{AllocError, Global};
use std::test::Fail;

/// What a run of the whole chain writes of that chunk.
const TEXT: &str = "\
    chunk 2 0 92320917050449af130cdb3b2e0fd713aae8154575253e0513b30f32d6d5fa43 0 0\n\
    run 1db49a92f6565af840d649a74ad2eacfc1d2c593723750fc7a83746f38e0c950 value - 0 0\n\
";

fn file(alloc: Global) -> Result<Gathered, AllocError> {
    read_gathered(alloc, FILE).map_err(|_| AllocError)
}

#[test]
fn one_transfer_is_run_again(rt: HostRuntime) -> Result<(), Fail> {
    let alloc = rt.alloc();
    let text = text_of(alloc, Config::free(), file(alloc)?)?;
    assert_eq!(rt; text.inner(), TEXT.as_bytes());
    Ok(())
}

/// The fault of a file, where it isn't run again.
fn fault_of(alloc: Global, gathered: Gathered) -> Option<RecheckFault> {
    text_of(alloc, Config::free(), gathered).err()
}

#[test]
fn a_chunk_that_stands_nowhere_is_refused(rt: HostRuntime) -> Result<(), Fail> {
    let alloc = rt.alloc();
    let low = Gathered {
        height: Height(0),
        ..file(alloc)?
    };
    assert_eq!(rt; fault_of(alloc, low), Some(RecheckFault::Place));
    let far = Gathered {
        shard: ShardId(1),
        ..file(alloc)?
    };
    assert_eq!(rt; fault_of(alloc, far), Some(RecheckFault::Place));
    Ok(())
}

#[test]
fn a_text_that_is_left_out_is_missed(rt: HostRuntime) -> Result<(), Fail> {
    let alloc = rt.alloc();
    let mut gathered = file(alloc)?;
    let mut texts = gathered.texts.into_inner();
    let _ = texts.pop();
    gathered.texts = nr_bytes::List::of(texts);
    assert_eq!(rt; fault_of(alloc, gathered), Some(RecheckFault::Missing));
    Ok(())
}
