//! The levels of a tree: in each, neighbours are paired from the front, and a last one without a
//! neighbour goes on as it is.

ghost use Rattle.std.specs.Prelude.{◌≡◌, ◌<◌, ◌≤◌, ◌++◌, length, IfOk, OnOk};
ghost use Rattle.std.specs.Option.{option_copied, option_to_list};
ghost use Rattle.nr_outproof.specs.Levels.{beside, paired, side_of};
ghost use Rattle.nr_outproof.specs.Tree.{climb, path_of, top_of, way_of};

use crate::hashing::{joined, pair_top};
use nr_ids::Hash32;
use std::alloc::{AllocError, Global};

/// On which side of a pair a way goes on.
#[derive(Clone, Copy, Debug, PartialEq, Eq)]
pub(crate) enum Side {
    Left,
    Right,
}

/// The next level: the tops of pairs.
#[tactic(auto, unfolding(crate::specs::Levels::paired))]
fn paired(alloc: Global, tops: &[Hash32]) -> Result<Vec<Hash32>, AllocError>
    ensures { IfOk result (λ next. next.items ≡ paired tops.now) }
{
    let mut next = Vec::new(alloc);
    let mut rest = tops;
    'pairs: while let [left, right, more @ ..] = rest {
        next.push(pair_top(left, right))?;
        rest = more;
    }
    next.extend_from_slice(rest)?;
    Ok(next)
}

/// The side of a place among so many, where it has a neighbour.
fn side_of(count: u64, place: u64) -> Option<Side>
    requires { place < count }
    ensures { result ≡ side_of count place }
{
    if place % 2 == 1 {
        Some(Side::Right)
    } else if place + 1 < count {
        Some(Side::Left)
    } else {
        None
    }
}

/// The neighbour of a place.
fn beside(tops: &[Hash32], place: usize) -> Option<&Hash32>
    requires { place < length tops.now }
    ensures { option_copied result ≡ beside tops.now place }
{
    if place % 2 == 1 {
        tops.get(place - 1)
    } else {
        tops.get(place + 1)
    }
}

/// The top of one, or of none.
fn only_top(tops: &[Hash32]) -> Hash32
    requires { length tops.now ≤ 1 }
    ensures { result ≡ top_of tops.now }
{
    match tops {
        [] => Hash32([0; 32]),
        [top, ..] => *top,
    }
}

/// The top of all.
///
/// # Errors
///
/// Where there is no memory for a level.
#[tactic(auto, using(crate::proofs::Tops::top_step, crate::proofs::Tops::paired_long))]
pub(crate) fn top_of(alloc: Global, tops: &[Hash32]) -> Result<Hash32, AllocError>
    ensures { IfOk result (λ top. top ≡ top_of tops.now) }
{
    let mut level = Vec::from_slice(alloc, tops)?;
    'levels: while level.len() > 1 {
        level = paired(alloc, &level)?;
    }
    Ok(only_top(&level))
}

/// Adds the neighbour of a place, where it has one.
fn add_beside(tops: &[Hash32], place: usize, path: &mut Vec<Hash32>) -> Result<(), AllocError>
    requires { place < length tops.now }
    ensures { OnOk result (path.new.items ≡ path.old.items ++ option_to_list (beside tops.now place)) }
{
    match beside(tops, place) {
        Some(top) => Ok(path.push(*top)?),
        None => Ok(()),
    }
}

/// The tops beside the way of a place, the lowest first.
///
/// # Errors
///
/// Where there is no memory for them or a level.
pub(crate) fn path_of(
    alloc: Global,
    tops: &[Hash32],
    place: usize,
) -> Result<Vec<Hash32>, AllocError>
    requires { place < length tops.now }
    ensures { IfOk result (λ path. path.items ≡ path_of tops.now place) }
{
    let mut path = Vec::new(alloc);
    let mut level = Vec::from_slice(alloc, tops)?;
    let mut at = place;
    'levels: while level.len() > 1 {
        add_beside(&level, at, &mut path)?;
        level = paired(alloc, &level)?;
        at /= 2;
    }
    Ok(path)
}

/// Adds the side of a place among so many, where it has a neighbour.
fn add_side(count: u64, place: u64, way: &mut Vec<Side>) -> Result<(), AllocError>
    requires { place < count }
    ensures { OnOk result (way.new.items ≡ way.old.items ++ option_to_list (side_of count place)) }
{
    match side_of(count, place) {
        Some(side) => Ok(way.push(side)?),
        None => Ok(()),
    }
}

/// The sides of the way of a place among so many, the lowest first. There are at most 64.
///
/// # Errors
///
/// Where there is no memory for them.
pub(crate) fn way_of(alloc: Global, count: u64, place: u64) -> Result<Vec<Side>, AllocError>
    requires { place < count }
    ensures { IfOk result (λ way. way.items ≡ way_of count place) }
{
    let mut way = Vec::new(alloc);
    let mut count = count;
    let mut place = place;
    'levels: while count > 1 {
        add_side(count, place, &mut way)?;
        count = count / 2 + count % 2;
        place /= 2;
    }
    Ok(way)
}

/// The top that hashing up a way leads to.
#[tactic(auto, unfolding(crate::specs::Tree::climb))]
pub(crate) fn climb(sides: &[Side], leaf: &Hash32, path: &[Hash32]) -> Hash32
    ensures { result ≡ climb sides.now leaf.now path.now }
{
    let mut top = *leaf;
    let mut sides = sides;
    let mut path = path;
    'sides: while let [side, more_sides @ ..] = sides {
        let [beside, more_path @ ..] = path else {
            return top;
        };
        top = joined(*side, &top, beside);
        sides = more_sides;
        path = more_path;
    }
    top
}
