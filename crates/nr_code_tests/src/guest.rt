//! Registers, and the arguments of bindings.

use nr_config::Config;
use nr_guest::{GuestFault, Registers, argument, argument_size};
use nr_wasmmem::Memory;
use std::test::Fail;

#[test]
fn a_register_keeps_its_limits(rt: HostRuntime) -> Result<(), Fail> {
    let alloc = rt.alloc();
    let numbers = Config::free();
    let mut registers = Registers::new(alloc, &numbers);
    let great = vec![in alloc; 1; 4_194_304]?;
    for id in 0..4 {
        assert_eq!(rt; registers.set(id, &great), Ok(()));
    }
    assert_eq!(rt; registers.set(4, b"a"), Err(GuestFault::RegisterLimit));
    assert_eq!(rt; registers.set(3, b"abc"), Ok(()));
    assert_eq!(rt; registers.set(u64::MAX, b"a"), Ok(()));
    assert_eq!(rt; registers.length(3), 3);
    assert_eq!(rt; registers.length(4), u64::MAX);
    let greater = vec![in alloc; 1; 4_194_305]?;
    assert_eq!(rt; registers.set(3, &greater), Err(GuestFault::RegisterLimit));
    assert_eq!(rt; registers.get(3), Some(b"abc".as_slice()));
    for id in 100..195 {
        assert_eq!(rt; registers.set(id, b""), Ok(()));
    }
    assert_eq!(rt; registers.set(195, b""), Err(GuestFault::RegisterLimit));
    assert_eq!(rt; registers.set(194, b"z"), Ok(()));
    assert_eq!(rt; registers.get(195), None);
    Ok(())
}

fn reads(registers: &Registers, memory: &Memory, len: u64, ptr: u64, bytes: &[u8]) -> bool {
    match argument(registers, memory, len, ptr) {
        Ok(found) => found == bytes,
        Err(_) => false,
    }
}

fn fault_of(registers: &Registers, memory: &Memory, len: u64, ptr: u64) -> Option<GuestFault> {
    match argument(registers, memory, len, ptr) {
        Ok(_) => None,
        Err(fault) => Some(fault),
    }
}

#[test]
fn an_argument_is_a_register_or_a_range(rt: HostRuntime) -> Result<(), Fail> {
    let alloc = rt.alloc();
    let mut memory = Memory::new(alloc, 1, 1)?;
    assert_eq!(rt; memory.put(65530, b"abcdef"), Ok(()));
    let mut registers = Registers::new(alloc, &Config::free());
    assert_eq!(rt; registers.set(7, b"xyz"), Ok(()));
    assert!(rt; reads(&registers, &memory, 3, 65531, b"bcd"));
    assert!(rt; reads(&registers, &memory, u64::MAX, 7, b"xyz"));
    assert!(rt; reads(&registers, &memory, 0, 65536, b""));
    let absent = fault_of(&registers, &memory, u64::MAX, 6);
    assert_eq!(rt; absent, Some(GuestFault::BadRegister));
    let outside = fault_of(&registers, &memory, 7, 65530);
    assert_eq!(rt; outside, Some(GuestFault::OutOfBounds));
    assert_eq!(rt; argument_size(&registers, u64::MAX, 7), Ok(3));
    assert_eq!(rt;
        argument_size(&registers, u64::MAX, 6),
        Err(GuestFault::BadRegister)
    );
    assert_eq!(rt; argument_size(&registers, 70000, 0), Ok(70000));
    Ok(())
}
