//! The blocks of a chain with the change of its boundaries.

use crate::reshard::Reshard;
use nr_blocks::Block;
use nr_bytes::List;

/// The blocks of a chain, and the height from which it has other boundaries, if there is one.
#[derive(Debug, PartialEq, Eq, Drop)]
pub struct ChainFile {
    /// None in the first two versions of a blocks file.
    pub reshard: Option<Reshard>,
    pub blocks: List<Block>,
}
