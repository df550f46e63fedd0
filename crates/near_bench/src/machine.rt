//! A method of a module, run many times.

use crate::module::bytes_of;
use nr_config::Config;
use nr_wasmbin::decode;
use nr_wasmexec::{Gauge, Machine};
use nr_wasmvalid::validate;
use std::alloc::Global;
use std::rt::Files;

/// The gas of one run.
const GAS: u128 = 1 << 64;

/// The instructions of one run from the module's first state; `None` where it has no such method,
/// or the run doesn't come to its end.
fn instructions(alloc: Global, bytes: &[u8], config: &Config, method: &str) -> Option<u128> {
    let module = decode(alloc, bytes, config).ok()?;
    let valid = validate(alloc, module, config).ok()?;
    let mut machine = Machine::new(alloc, valid, config).ok()?;
    let func = machine.method(method.as_bytes())?;
    let mut host = Gauge { gas: GAS };
    machine.run(&mut host, func).ok()?;
    Some(GAS.wrapping_sub(host.gas))
}

/// How many instructions the turns ran together, each of which costs one gas; `None` where there is
/// no such file or method, or a run doesn't come to its end.
pub fn run<R: Files>(rt: &R, alloc: Global, name: &str, method: &str, turns: u32) -> Option<u128> {
    let bytes = bytes_of(rt, alloc, name)?;
    let config = Config::free();
    let mut all = 0u128;
    for _turn in 0..turns {
        all = all.wrapping_add(instructions(alloc, &bytes, &config, method)?);
    }
    Some(all)
}
