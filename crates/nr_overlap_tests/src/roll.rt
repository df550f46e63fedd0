//! A chain whose chunks send their names.

/// A chain whose chunks send their names: for each block whether it has a chunk of each shard.
#[derive(Drop)]
pub struct Roll {
    pub shards: u32,
    pub blocks: Vec<Vec<bool>>,
    /// The chunk whose opening finds no memory, by shard and height.
    pub refused: Option<(u32, u64)>,
}
