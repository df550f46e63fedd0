//! The gas counter, and sums of what actions attach.

use nr_bytes::{Blob, List, Text};
use nr_fees::{GasCounter, attached_gas, deposits};
use nr_records::Action;
use nr_wasmtypes::Exceeded;
use std::alloc::Global;
use std::test::Fail;

/// A call without a name.
fn call(alloc: Global, gas: u64, deposit: u128) -> Action {
    Action::FunctionCall {
        method: Text::of(String::new(alloc)),
        args: Blob::of(Vec::new(alloc)),
        gas,
        deposit,
    }
}

#[test]
fn all_that_is_not_promised_is_burnt(rt: HostRuntime) {
    let mut counter = GasCounter::new(10);
    assert_eq!(rt; counter.burn(7), Ok(()));
    assert_eq!(rt; counter.promise(2), Ok(()));
    assert_eq!(rt; counter.burn(2), Err(Exceeded));
    assert_eq!(rt;
        (counter.burnt, counter.promised, counter.limit),
        (8, 2, 10)
    );
    assert_eq!(rt; counter.promise(0), Ok(()));
    assert_eq!(rt; counter.promise(u128::MAX), Err(Exceeded));
    assert_eq!(rt;
        (counter.burnt, counter.promised, counter.limit),
        (8, 2, 10)
    );
}

#[test]
fn sums_stop_at_their_type(rt: HostRuntime) -> Result<(), Fail> {
    let alloc = rt.alloc();
    let half = 1 << 63;
    let most = vec![in alloc; call(alloc, half, u128::MAX - 1), call(alloc, half - 1, 1)]?;
    let most = List::of(most);
    assert_eq!(rt; attached_gas(&most), Some(u64::MAX));
    assert_eq!(rt; deposits(&most), Some(u128::MAX));
    let past = vec![in alloc; call(alloc, half, u128::MAX), call(alloc, half, 1)]?;
    let past = List::of(past);
    assert_eq!(rt; attached_gas(&past), None);
    assert_eq!(rt; deposits(&past), None);
    Ok(())
}
