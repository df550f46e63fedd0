//! Modules with as many blocks in one another as may stand there, and with one more. The bytes are the standard's.

use nr_config::Config;
use nr_wasmbin::{DecodeFault, decode};
use nr_wasmexec::{Gauge, Machine, RunStop};
use nr_wasmtypes::Module;
use nr_wasmvalid::validate;
use std::alloc::{AllocError, Global};

/// A module's first bytes, up to the size of its code section. It has one function `f`, which takes and leaves nothing.
const FRONT: [u8; 26] = [
    0, 97, 115, 109, 1, 0, 0, 0, 1, 4, 1, 96, 0, 0, 3, 2, 1, 0, 7, 5, 1, 1, 102, 0, 0, 10,
];

/// Adds a size below 2^14, in two bytes.
fn push_size(bytes: &mut Vec<u8>, size: usize) -> Result<(), AllocError> {
    bytes.push((size % 128) as u8 | 128)?;
    bytes.push((size / 128 % 128) as u8)?;
    Ok(())
}

/// A module whose `f` is so many blocks in one another, each opened by these bytes. They begin at 32.
fn nested(alloc: Global, opening: &[u8], depth: usize) -> Result<Vec<u8>, AllocError> {
    let mut body = vec![in alloc; 0]?;
    for _ in 0..depth {
        body.extend_from_slice(opening)?;
    }
    for _ in 0..depth {
        body.push(0x0b)?;
    }
    body.push(0x0b)?;
    let mut bytes = Vec::from_slice(alloc, &FRONT)?;
    push_size(&mut bytes, body.len() + 3)?;
    bytes.push(1)?;
    push_size(&mut bytes, body.len())?;
    bytes.extend_from_slice(&body)?;
    Ok(bytes)
}

/// How the run of `f` ends, and the gas that it burnt.
fn end_of(alloc: Global, module: Module) -> Option<(Result<(), RunStop>, u128)> {
    let config = Config::free();
    let valid = validate(alloc, module, &config).ok()?;
    let mut machine = Machine::new(alloc, valid, &config).ok()?;
    let func = machine.method(b"f")?;
    let mut host = Gauge { gas: 1000 };
    let end = machine.run(&mut host, func);
    Some((end, 1000u128.wrapping_sub(host.gas)))
}

/// Whether 256 of these blocks run and burn so much, and the 257th is refused at this place.
fn nests(alloc: Global, opening: &[u8], burnt: u128, at: usize) -> Result<bool, AllocError> {
    let config = Config::free();
    let ran = match decode(alloc, &nested(alloc, opening, 256)?, &config) {
        Ok(decoded) => end_of(alloc, decoded) == Some((Ok(()), burnt)),
        Err(_) => false,
    };
    let refused = match decode(alloc, &nested(alloc, opening, 257)?, &config) {
        Ok(_) => false,
        Err(fault) => fault == DecodeFault::TooMany { at },
    };
    Ok(ran && refused)
}

/// Blocks, loops, choices whose first side is taken, and choices of which each stands on the other's second side.
#[test]
fn blocks_stand_256_deep(rt: HostRuntime) -> Result<(), AllocError> {
    let alloc = rt.alloc();
    assert!(rt; nests(alloc, &[2, 64], 256, 544)?);
    assert!(rt; nests(alloc, &[3, 64], 256, 544)?);
    assert!(rt; nests(alloc, &[65, 1, 4, 64], 512, 1058)?);
    assert!(rt; nests(alloc, &[65, 0, 4, 64, 5], 512, 1314)?);
    Ok(())
}
