//! Modules, decoded and validated many times.

use nr_bytes::{FileShelf, Shelf};
use nr_config::Config;
use nr_wasmbin::decode;
use nr_wasmvalid::validate;
use std::alloc::Global;
use std::rt::Files;

/// The most bytes that a file may have.
const LIMIT: usize = 1 << 26;

fn is_valid(alloc: Global, bytes: &[u8], config: &Config) -> bool {
    match decode(alloc, bytes, config) {
        Ok(module) => validate(alloc, module, config).is_ok(),
        Err(_) => false,
    }
}

/// The bytes of a file; `None` where there is no such file.
pub fn bytes_of<R: Files>(rt: &R, alloc: Global, name: &str) -> Option<Vec<u8>> {
    let mut shelf = FileShelf::new(rt);
    let mut bytes = Vec::new(alloc);
    shelf.load(alloc, name, LIMIT, &mut bytes).ok()?;
    Some(bytes)
}

/// Whether the module in a file was valid in each of the turns; `None` where there is no such file.
pub fn check<R: Files>(rt: &R, alloc: Global, name: &str, turns: u32) -> Option<bool> {
    let bytes = bytes_of(rt, alloc, name)?;
    let config = Config::free();
    let mut all = true;
    for _turn in 0..turns {
        all = all && is_valid(alloc, &bytes, &config);
    }
    Some(all)
}
