//! Where a key goes at a node, and the way down along it.

ghost use Rattle.std.specs.Prelude.{◌≡◌, ◌<◌, ◌≤◌, ◌+◌, ◌∷◌, [], length, MatchOption, IfOk, OnOk};
ghost use Rattle.nr_triedef.specs.Node.{IsNibbles, nibbles};
ghost use Rattle.nr_trienodes.specs.Shape.{shape_at};
ghost use Rattle.nr_trienodes.specs.Views.{Sound};
ghost use Rattle.nr_trienodes.specs.Turns.{left, IsNext, Matches, StopsSo, TurnsSo, Leads, AreSteps};

use crate::nodes::Nodes;
use std::alloc::{AllocError, Global};
use std::marker::Model;

/// The nibble of a key at a place, the high one of each byte first.
#[tactic(auto, using(crate::proofs::Keys::next_high, crate::proofs::Keys::next_low, crate::proofs::Keys::left_end))]
pub(crate) fn nibble_at(key: &[u8], at: usize) -> Option<u8>
    ensures { MatchOption result (left key.now at ≡ []) (λ x. IsNext key.now at x) }
{
    if at / 2 >= key.len() {
        return None;
    }
    let byte = key[at / 2];
    if at % 2 == 0 {
        Some(byte / 16)
    } else {
        Some(byte % 16)
    }
}

/// The nibbles of a key from a place on, in memory that is used again.
pub(crate) fn rest_in(rest: &mut Vec<u8>, key: &[u8], at: usize) -> Result<(), AllocError>
    ensures value { OnOk result (rest.new.items ≡ left key.now at) }
    ensures small { OnOk result (IsNibbles rest.new.items) }
{
    rest.clear();
    let mut at = at;
    'on: while let Some(nibble) = nibble_at(key, at) {
        rest.push(nibble)?;
        at += 1;
    }
    Ok(())
}

/// The nibbles of a key from a place on.
pub(crate) fn rest_of(alloc: Global, key: &[u8], at: usize) -> Result<Vec<u8>, AllocError>
    ensures value { IfOk result (λ rest. rest.items ≡ left key.now at) }
    ensures small { IfOk result (λ rest. IsNibbles rest.items) }
{
    let mut rest = Vec::with_capacity(alloc, key.len().saturating_mul(2).saturating_sub(at))?;
    rest_in(&mut rest, key, at)?;
    Ok(rest)
}

/// How many nibbles of a part are those of the key from a place on.
#[tactic(auto, using(crate::proofs::Keys::matches_none, crate::proofs::Keys::matches_off, crate::proofs::Keys::matches_all))]
pub(crate) fn matched(part: &[u8], key: &[u8], at: usize) -> usize
    ensures { Matches part.now key.now at result }
{
    let mut place = at;
    for n in 0..part.len() {
        let Some(nibble) = nibble_at(key, place) else {
            return n;
        };
        if nibble != part[n] {
            return n;
        }
        place += 1;
    }
    part.len()
}

/// Where a way down ends.
#[derive(Clone, Copy, Debug)]
pub(crate) enum Stop {
    /// The key ends behind the node's part.
    Here,
    /// It goes on by a nibble that has no child. What is left of it is from `next` on.
    Sprout { nibble: u8, next: usize },
    /// It leaves the part after `shared` nibbles.
    Apart { shared: usize },
}

/// Where a key goes at a node.
#[derive(Clone, Copy, Debug)]
pub(crate) enum Turn {
    /// To a child. What is left of the key is from `next` on.
    Down { nibble: u8, next: usize, child: u32 },
    /// No further.
    Stops(Stop),
}

/// Where what is left of a key from a place on goes at a node.
#[tactic(auto, using(crate::proofs::Keys::goes_by, crate::proofs::Keys::ends_here))]
pub(crate) fn find_turn(nodes: &Nodes, id: u32, key: &[u8], at: usize) -> Turn
    requires { id < length nodes.now }
    ensures { TurnsSo id (shape_at nodes.now id) key.now at result }
{
    let part = nodes.part(id);
    let shared = matched(part, key, at);
    if shared < part.len() {
        return Turn::Stops(Stop::Apart { shared });
    }
    let place = at + shared;
    let Some(nibble) = nibble_at(key, place) else {
        return Turn::Stops(Stop::Here);
    };
    let next = place + 1;
    match nodes.child(id, nibble) {
        None => Turn::Stops(Stop::Sprout { nibble, next }),
        Some(child) => Turn::Down {
            nibble,
            next,
            child,
        },
    }
}

/// A node that was left by a nibble.
#[derive(Clone, Copy, Debug)]
pub(crate) struct Step {
    pub(crate) node: u32,
    pub(crate) nibble: u8,
}

/// Steps, of which contracts see the last one first.
#[derive(Drop)]
pub(crate) struct Way {
    steps: Vec<Step>,
}

impl Model for Way {
    ghost use Rattle.std.specs.Prelude.{List, reverse};
    ghost use Rattle.nr_trienodes.specs.declared.turn.Step.{Step};

    ghost Value = { List Step };

    ghost view = { λ w. reverse w.steps.items };
}

impl Way {
    pub(crate) fn new(alloc: Global) -> Way
        ensures { result ≡ [] }
    {
        Way {
            steps: Vec::new(alloc),
        }
    }

    pub(crate) fn push(&mut self, step: Step) -> Result<(), AllocError>
        ensures { OnOk result (self.new ≡ step ∷ self.old) }
    {
        self.steps.push(step)?;
        Ok(())
    }

    pub(crate) fn pop(&mut self) -> Option<Step>
        ensures { MatchOption result (self.old ≡ []) (λ step. self.old ≡ step ∷ self.new) }
    {
        self.steps.pop()
    }
}

/// The last node of the way along a key, from where the key goes no further.
#[derive(Drop)]
pub(crate) struct End {
    pub(crate) way: Way,
    pub(crate) node: u32,
    pub(crate) at: usize,
    pub(crate) stop: Stop,
}

/// The way down along a key as far as there are nodes.
#[tactic(auto, using(crate::proofs::Keys::left_less, crate::proofs::Keys::takes))]
pub(crate) fn walk(nodes: &Nodes, root: u32, key: &[u8]) -> Result<End, AllocError>
    requires { root < length nodes.now }
    ensures there { IfOk result (λ e. e.node < length nodes.now) }
    ensures steps { IfOk result (λ e. AreSteps nodes.now e.way) }
    ensures leads { IfOk result (λ e. Leads nodes.now root (nibbles key.now) e.way e.node (left key.now e.at)) }
    ensures short { IfOk result (λ e. length e.way + length (left key.now e.at) ≤ length (nibbles key.now)) }
    ensures stops { IfOk result (λ e. StopsSo (shape_at nodes.now e.node) key.now e.at e.stop) }
    ensures sound { Sound nodes.now }
{
    let mut way = Way::new(nodes.allocator());
    let mut node = root;
    let mut at = 0;
    'down: loop {
        match find_turn(nodes, node, key, at) {
            Turn::Stops(stop) => {
                return Ok(End {
                    way,
                    node,
                    at,
                    stop,
                });
            }
            Turn::Down {
                nibble,
                next,
                child,
            } => {
                way.push(Step { node, nibble })?;
                node = child;
                at = next;
            }
        }
    }
}
