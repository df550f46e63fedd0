//! Values taken out at keys.

ghost use Rattle.std.specs.Prelude.{◌≡◌, ◌<◌, ◌≤◌, ◌+◌, ◌*◌, length, Some, None, IfOk, OnErr};
ghost use Rattle.std.specs.FinMap as map;
ghost use Rattle.nr_triedef.specs.Node.{nibbles};
ghost use Rattle.nr_trienodes.specs.Views.{Sound};
ghost use Rattle.nr_trienodes.specs.Turns.{Extends, Changes};
ghost use Rattle.nr_trienodes.specs.Roots.{IsRoot, IsChanged, contents, name_in, Keeps, FullsSo};

use crate::fault::NodesFault;
use crate::nodes::{NodeId, Nodes};
use crate::putting::room_for;
use crate::settling::{climb, replace_value};
use crate::turn::{Stop, walk};
use std::alloc::AllocError;

// The root of the map below a node without a key.
#[tactic(auto, using(crate::proofs::Sets::extends_refl, crate::proofs::Sets::extends_trans, crate::proofs::Climbing::steps_more))]
fn cut_below(nodes: &mut Nodes, root: u32, key: &[u8]) -> Result<Option<u32>, AllocError>
    requires { root < length nodes.old }
    ensures few { length nodes.new ≤ length nodes.old + length (nibbles key.now) + 1 }
    ensures grows { Extends nodes.old nodes.new }
    ensures cut { IfOk result (λ id. Changes nodes.old nodes.new (Some root) id (nibbles key.now) None
        (2 * length (nibbles key.now) + 3)) }
{
    let end = walk(nodes, root, key)?;
    match end.stop {
        Stop::Here => {
            if nodes.value(end.node).is_none() {
                return Ok(Some(root));
            }
            let below = replace_value(nodes, end.node, None)?;
            let id = climb(nodes, end.way, below)?;
            Ok(id)
        }
        Stop::Sprout { nibble: _, next: _ } => Ok(Some(root)),
        Stop::Apart { shared: _ } => Ok(Some(root)),
    }
}

// The same, from a root or none.
#[tactic(auto, using(crate::proofs::Puts::put_some, crate::proofs::Cuts::cut_nothing, crate::proofs::Sets::extends_refl))]
fn cut_from(nodes: &mut Nodes, root: Option<NodeId>, key: &[u8]) -> Result<Option<u32>, AllocError>
    requires { IsRoot nodes.old root }
    ensures few { length nodes.new ≤ length nodes.old + length (nibbles key.now) + 1 }
    ensures grows { Extends nodes.old nodes.new }
    ensures cut { IfOk result (λ id. Changes nodes.old nodes.new (name_in root) id (nibbles key.now) None
        (2 * length (nibbles key.now) + 3)) }
    ensures sound { Sound nodes.new }
{
    let changed = match root {
        Some(root) => cut_below(nodes, root.0, key),
        None => Ok(None),
    };
    let _count = nodes.count();
    changed
}

fn named(id: Option<u32>) -> Option<NodeId>
    ensures { name_in result ≡ id }
{
    match id {
        None => None,
        Some(id) => Some(NodeId(id)),
    }
}

impl Nodes {
    /// The root of a map without a key. Old roots stay.
    ///
    /// # Errors
    ///
    /// As those of `put`.
    #[tactic(auto, using(crate::proofs::Changed::keeps_extends, crate::proofs::Changed::cut_back))]
    pub fn cut(&mut self, root: Option<NodeId>, key: &[u8]) -> Result<Option<NodeId>, NodesFault>
        requires { IsRoot self.old root }
        ensures cut { IfOk result (λ after. IsChanged self.old self.new root after
            (map.remove (contents self.old root) key.now) (2 * length (nibbles key.now) + 3)) }
        ensures kept { Keeps self.old self.new }
        ensures few { length self.new ≤ length self.old + 2 * length (nibbles key.now) + 3 }
        ensures err { OnErr result (self.new ≡ self.old) }
        ensures full { FullsSo (length self.old) (length (nibbles key.now)) result }
    {
        room_for(self, key)?;
        let before = self.len();
        match cut_from(self, root, key) {
            Ok(id) => Ok(named(id)),
            Err(_) => {
                self.truncate(before);
                Err(NodesFault::Memory)
            }
        }
    }
}
