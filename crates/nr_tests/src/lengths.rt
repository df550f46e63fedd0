//! Files by their lengths.

use crate::setting::run_files;
use nr_top::Status;
use std::test::Fail;

/// The most bytes of a genesis.
const GENESIS_LIMIT: usize = 67_108_864;

#[test]
fn geneses_have_a_greatest_length(rt: HostRuntime) -> Result<(), Fail> {
    let genesis = vec![in rt.alloc(); 0; GENESIS_LIMIT + 1]?;
    let ended = run_files(rt.alloc(), genesis, Vec::new(rt.alloc()))?;
    assert_eq!(rt;
        ended.status,
        Status::Genesis {
            kind: 0,
            a: 0,
            b: 0,
            c: 0
        }
    );
    assert!(rt; ended.wrote_nothing(rt.alloc(), "Some([\"G\"])")?);
    Ok(())
}
