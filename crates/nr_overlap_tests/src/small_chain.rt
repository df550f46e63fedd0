//! A chain of amounts for the tests.

ghost use Rattle.std.specs.Prelude.{◌≤◌};

use crate::bag::Bag;

/// A chain: for each block its chunks, each with the amounts that it sends.
#[derive(Drop)]
pub struct SmallChain {
    pub shards: u32,
    pub blocks: Vec<Vec<Option<Bag>>>,
    ghost few: { shards ≤ 16 },
}
