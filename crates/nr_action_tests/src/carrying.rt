//! Receipts that go to the shards of a layout, and receipts by a layout of two shards, parted at `kk`,
//! that are carried to other shards. The expected lists of these are those of a program apart, which
//! finds a shard by bisection.

use nr_bytes::List;
use nr_cut::carry;
use nr_ids::{AccountId, Hash32};
use nr_layout::Layout;
use nr_records::{Body, DataReceipt, Receipt, decode};
use std::alloc::Global;
use std::process::Abort;
use std::test::Fail;

/// One shard.
const ONE: &[u8] = b"\0\0\0\0";

/// Three shards, parted at `bb` and `mm`.
const THREE: &[u8] = b"\x02\0\0\0\x02\0\0\0bb\x02\0\0\0mm";

/// Five shards, parted at `aa`, `kj`, `kk` and `zz`.
const FIVE: &[u8] = b"\x04\0\0\0\x02\0\0\0aa\x02\0\0\0kj\x02\0\0\0kk\x02\0\0\0zz";

fn id(alloc: Global, name: &str) -> Result<AccountId, Fail> {
    Ok(AccountId::parse(alloc, name.as_bytes())?)
}

/// A receipt of no result, with the number as its id.
fn receipt(alloc: Global, receiver: &str, number: u8) -> Result<Receipt, Fail> {
    let datum = DataReceipt {
        data_id: Hash32([0; 32]),
        bytes: None,
    };
    Ok(Receipt {
        predecessor: id(alloc, "zz")?,
        receiver: id(alloc, receiver)?,
        receipt_id: Hash32([number; 32]),
        body: Body::Datum(datum),
    })
}

fn list(alloc: Global, receipts: &[(&str, u8)]) -> Result<List<Receipt>, Fail> {
    let mut list = Vec::new(alloc);
    for (receiver, number) in receipts {
        list.push(receipt(alloc, receiver, *number)?)?;
    }
    Ok(List::of(list))
}

/// The numbers of the receipts in a list.
fn numbers(alloc: Global, list: &List<Receipt>) -> Result<Vec<u8>, Fail> {
    let mut numbers = Vec::new(alloc);
    for receipt in list.inner() {
        numbers.push(receipt.receipt_id.0[0])?;
    }
    Ok(numbers)
}

/// Three shards, parted at `hh` and `pp`.
const ROUTED: &[u8] = b"\x02\0\0\0\x02\0\0\0hh\x02\0\0\0pp";

#[test]
fn receipts_go_to_the_shard_of_their_receiver(rt: HostRuntime) -> Result<(), Fail> {
    let alloc = rt.alloc();
    let layout = decode::<Layout>(alloc, ROUTED)?;
    let rows: [(&str, u8); 5] = [("pp", 1), ("aa", 2), ("po", 3), ("zz", 4), ("hh", 5)];
    let lists = layout.route(alloc, list(alloc, &rows)?)?;
    let [first, second, third] = lists.inner() else {
        return Err(Fail::new("not three lists"));
    };
    assert_eq!(rt; numbers(alloc, first)?.as_slice(), [2].as_slice());
    assert_eq!(rt; numbers(alloc, second)?.as_slice(), [3, 5].as_slice());
    assert_eq!(rt; numbers(alloc, third)?.as_slice(), [1, 4].as_slice());
    Ok(())
}

/// What two shards sent to themselves and to each other, by source and then by destination.
fn sent(alloc: Global) -> Result<List<List<Receipt>>, Fail> {
    let mut lists = Vec::new(alloc);
    lists.push(list(alloc, &[("aa", 1), ("kj", 2), ("bb", 3)])?)?;
    lists.push(list(alloc, &[("kk", 4), ("zz", 5), ("mm", 6)])?)?;
    lists.push(list(alloc, &[("aa", 7), ("bb", 8)])?)?;
    lists.push(list(alloc, &[("ml", 9), ("mm", 10), ("zz", 11)])?)?;
    Ok(List::of(lists))
}

/// Carries lists to the shards of a layout, each of which gets the receipts of these numbers.
fn check(
    rt: &impl Abort,
    alloc: Global,
    left: List<List<Receipt>>,
    layout: &[u8],
    want: &[&[u8]],
) -> Result<(), Fail> {
    let layout = decode::<Layout>(alloc, layout)?;
    let lists = carry(alloc, left, &layout)?;
    assert_eq!(rt; lists.inner().len(), want.len());
    for (list, want) in lists.inner().iter().zip(want) {
        assert_eq!(rt; numbers(alloc, list)?.as_slice(), *want);
    }
    Ok(())
}

#[test]
fn each_shard_gets_its_receipts_in_order(rt: HostRuntime) -> Result<(), Fail> {
    let alloc = rt.alloc();
    let want: [&[u8]; 3] = [&[1, 7], &[2, 3, 4, 8, 9], &[5, 6, 10, 11]];
    check(&rt, alloc, sent(alloc)?, THREE, &want)
}

#[test]
fn a_receiver_at_a_boundary_lives_behind_it(rt: HostRuntime) -> Result<(), Fail> {
    let alloc = rt.alloc();
    let want: [&[u8]; 5] = [&[], &[1, 3, 7, 8], &[2], &[4, 6, 9, 10], &[5, 11]];
    check(&rt, alloc, sent(alloc)?, FIVE, &want)
}

#[test]
fn one_shard_gets_all_by_source_and_destination(rt: HostRuntime) -> Result<(), Fail> {
    let alloc = rt.alloc();
    let want: [&[u8]; 1] = [&[1, 2, 3, 4, 5, 6, 7, 8, 9, 10, 11]];
    check(&rt, alloc, sent(alloc)?, ONE, &want)
}

#[test]
fn of_no_lists_each_shard_gets_an_empty_one(rt: HostRuntime) -> Result<(), Fail> {
    let alloc = rt.alloc();
    check(
        &rt,
        alloc,
        List::of(Vec::new(alloc)),
        THREE,
        &[&[], &[], &[]],
    )
}
