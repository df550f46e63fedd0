//! Values from outside, and a host that only counts gas.

ghost use Rattle.std.specs.Prelude.{refl};

use nr_bytes::List;
use nr_wasmmem::{Guest, Host, HostStop, Memory, OutOfBounds};
use nr_wasmtypes::{Exceeded, HostFn};
use std::alloc::Global;
use std::test::Fail;

#[test]
fn a_number_has_its_lowest_byte_first(rt: HostRuntime) -> Result<(), Fail> {
    let mut memory = Memory::new(rt.alloc(), 1, 2)?;
    assert_eq!(rt; memory.store(65528, 8, 0xfedc_ba98_7654_3210), Ok(()));
    assert_eq!(rt; memory.store(65532, 2, 0x1_0203), Ok(()));
    assert_eq!(rt; memory.load(65528, 8), Ok(0xfedc_0203_7654_3210));
    assert_eq!(rt; memory.load(65529, 4), Ok(0x0376_5432));
    assert_eq!(rt; memory.load(65533, 1), Ok(2));
    assert_eq!(rt; memory.range(65532, 2), Ok(b"\x03\x02".as_slice()));
    Ok(())
}

#[test]
fn a_range_stays_inside(rt: HostRuntime) -> Result<(), Fail> {
    let mut memory = Memory::new(rt.alloc(), 1, 2)?;
    assert_eq!(rt; memory.load(65533, 4), Err(OutOfBounds));
    assert_eq!(rt; memory.store(u64::MAX, 1, 0), Err(OutOfBounds));
    assert_eq!(rt; memory.range(u64::MAX, u64::MAX).is_err(), true);
    assert_eq!(rt; memory.range(65536, 0).is_ok(), true);
    assert_eq!(rt; memory.range(65537, 0).is_ok(), false);
    assert_eq!(rt; memory.put(65534, b"ab"), Ok(()));
    assert_eq!(rt; memory.put(65535, b"ab"), Err(OutOfBounds));
    assert_eq!(rt; memory.load(65534, 2), Ok(0x6261));
    Ok(())
}

#[test]
fn a_memory_grows_up_to_its_most(rt: HostRuntime) -> Result<(), Fail> {
    let mut memory = Memory::new(rt.alloc(), 1, 3)?;
    assert_eq!(rt; memory.grow(3)?, None);
    assert_eq!(rt; memory.grow(u32::MAX)?, None);
    assert_eq!(rt; memory.grow(2)?, Some(1));
    assert_eq!(rt; memory.grow(0)?, Some(3));
    assert_eq!(rt; memory.bytes().len(), 196_608);
    assert_eq!(rt; memory.load(196_600, 8), Ok(0));
    Ok(())
}

/// A host that counts gas. Each call of it is a fault.
#[derive(Drop)]
struct Meter {
    gas: u64,
}

impl Host for Meter {
    ghost use Rattle.std.proofs.Common.{arith};
    ghost use Rattle.nr_wasmmem.specs.Meaning.{Fails};

    type State = u64;

    ghost state = { λ m. m.gas };

    ghost meaning = { record {
      gas = λ s. s;
      with_gas = λ s n. n;
      call = λ s f args. record { store = s; answer = Fails 20 };
    } };

    ghost keeps = { λ _ _. Unit {0} };

    fn burn(&mut self, n: u128) -> Result<(), Exceeded> {
        if n <= u128::from(self.gas) {
            self.gas -= n as u64;
            Ok(())
        } else {
            self.gas = 0;
            Err(Exceeded)
        }
    }

    fn call(
        &mut self,
        _f: HostFn,
        _args: &[u64],
        _memory: &mut Memory,
    ) -> Result<Option<u64>, HostStop> {
        Err(HostStop::Fault { kind: 20 })
    }

    ghost law = { record {
      gas_is = λ s n h. refl;
      gas_over = λ s n k. refl;
      no_more_gas = λ s f args. omega arith;
      result = λ s f args. tt;
      size = λ s f args. refl;
    } };

    ghost keeps_here = { λ _. tt };

    ghost keeps_on = { λ _ _ _ _ _. tt };
}

fn burn_twice<H: Host>(host: &mut H, n: u128) -> Result<(), Exceeded> {
    host.burn(n)?;
    host.burn(n)?;
    Ok(())
}

#[test]
fn a_meter_counts_down(rt: HostRuntime) -> Result<(), Fail> {
    let mut meter = Meter { gas: 10 };
    assert_eq!(rt; burn_twice(&mut meter, 5), Ok(()));
    assert_eq!(rt; meter.gas, 0);
    meter.gas = 10;
    assert_eq!(rt; burn_twice(&mut meter, 6), Err(Exceeded));
    assert_eq!(rt; meter.gas, 0);
    Ok(())
}

#[test]
fn a_guest_without_memory_has_no_pages(rt: HostRuntime) -> Result<(), Fail> {
    let globals = List::of(Vec::new(rt.alloc()));
    let table = List::of(Vec::new(rt.alloc()));
    let mut guest = Guest {
        memory: Memory::empty(rt.alloc()),
        globals,
        table,
    };
    assert_eq!(rt; guest.memory.grow(1)?, None);
    assert_eq!(rt; guest.memory.pages(), 0);
    let mut meter = Meter { gas: 10 };
    let end = meter.call(HostFn::UsedGas, &[], &mut guest.memory);
    assert_eq!(rt; end, Err(HostStop::Fault { kind: 20 }));
    Ok(())
}
