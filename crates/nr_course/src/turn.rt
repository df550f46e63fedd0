//! Where the boundaries of a chain change.

ghost use Rattle.std.specs.Prelude.{◌≡◌, IfOk, drop, take};
ghost use Rattle.nr_course.specs.Course.{blocks_before, turn_of};

use nr_blocks::Block;
use nr_bytes::List;
use nr_layout::Layout;
use nr_reshard::{ChainFile, Reshard};
use std::alloc::AllocError;

/// What follows where the boundaries change.
#[derive(Debug, PartialEq, Eq, Drop)]
pub struct Turn {
    /// The boundaries from there on.
    pub layout: Layout,
    /// The blocks from there on.
    pub blocks: List<Block>,
}

/// The first blocks, so many of them, and the others.
fn split(blocks: List<Block>, count: u64) -> Result<(List<Block>, List<Block>), AllocError>
    ensures first { IfOk result (λ parts. parts.0 ≡ take count blocks) }
    ensures rest { IfOk result (λ parts. parts.1 ≡ drop count blocks) }
{
    let mut first = blocks.into_inner();
    let at = count.min(first.len() as u64) as usize;
    let rest = first.split_off(at)?;
    Ok((List::of(first), List::of(rest)))
}

/// The blocks below the height from which a chain has other boundaries, and what follows. All blocks and nothing, where
/// the boundaries stay.
///
/// # Errors
///
/// Where memory runs out.
pub fn parted(file: ChainFile) -> Result<(List<Block>, Option<Turn>), AllocError>
    ensures blocks { IfOk result (λ parts. parts.0 ≡ blocks_before file) }
    ensures turn { IfOk result (λ parts. parts.1 ≡ turn_of file) }
{
    let ChainFile { reshard, blocks } = file;
    match reshard {
        Some(Reshard { height, layout }) => {
            let (first, rest) = split(blocks, height.0.saturating_sub(1))?;
            let turn = Turn {
                layout,
                blocks: rest,
            };
            Ok((first, Some(turn)))
        }
        None => Ok((blocks, None)),
    }
}
