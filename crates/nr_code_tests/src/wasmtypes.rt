//! The sizes of instructions.

use nr_wasmtypes::{Instr, Plain};
use std::mem::size_of;
use std::test::Fail;

#[test]
fn an_instruction_is_small(rt: HostRuntime) -> Result<(), Fail> {
    assert_eq!(rt; size_of::<Plain>(), 16);
    assert_eq!(rt; size_of::<Instr>(), 24);
    Ok(())
}
