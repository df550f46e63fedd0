//! Slots without a value, which no public call tells of.

ghost use Rattle.std.specs.Prelude.{◌≡◌, [], OnOk};

use crate::PlainStore;
use nr_triedef::Store;
use std::alloc::AllocError;
use std::test::Fail;

fn set_three<S: Store>(store: &mut S) -> Result<(), AllocError>
    ensures marks { S.marks store.new ≡ S.marks store.old }
{
    store.set(b"ab", b"abc")?;
    store.set(b"a", b"abc")?;
    store.set(b"b1", b"abc")?;
    Ok(())
}

/// Makes a checkpoint, takes `a` out and sets `c` twice, and goes back. Tells whether the changes
/// could be seen.
fn change_and_back<S: Store>(store: &mut S) -> Result<bool, AllocError>
    requires { S.marks store.old ≡ [] }
    ensures marks { OnOk result (S.marks store.new ≡ []) }
{
    store.reserve_marks(1)?;
    store.mark();
    let mut done = store.remove(b"a")?;
    store.set(b"c", b"x")?;
    store.set(b"c", b"y")?;
    done = done && store.get(b"a").is_none() && store.get(b"c") == Some(b"y");
    store.back();
    Ok(done)
}

/// Under a checkpoint takes `a` out, sets `c` and takes it out; then drops the checkpoint.
fn leave_empty_slots<S: Store>(store: &mut S) -> Result<(), AllocError>
    requires { S.marks store.old ≡ [] }
{
    store.reserve_marks(1)?;
    store.mark();
    store.remove(b"a")?;
    store.set(b"c", b"x")?;
    store.remove(b"c")?;
    store.keep();
    Ok(())
}

#[test]
fn no_slot_stays_empty(rt: HostRuntime) -> Result<(), Fail> {
    let mut store = PlainStore::new(rt.alloc());
    set_three(&mut store)?;
    change_and_back(&mut store)?;
    assert_eq!(rt; store.count_of_slots(), 3);
    leave_empty_slots(&mut store)?;
    assert_eq!(rt; store.count_of_slots(), 2);
    Ok(())
}
