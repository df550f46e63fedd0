//! The value at a key, and the usage of a root.

ghost use Rattle.std.specs.Prelude.{◌≡◌, ◌<◌, length};
ghost use Rattle.std.specs.Option.{option_copied};
ghost use Rattle.std.specs.FinMap as map;
ghost use Rattle.nr_triedef.specs.Node.{nibbles};
ghost use Rattle.nr_triedef.specs.Root.{root_of};
ghost use Rattle.nr_trienodes.specs.Tries.{found};
ghost use Rattle.nr_trienodes.specs.Views.{Sound};
ghost use Rattle.nr_trienodes.specs.Roots.{IsRoot, contents};

use crate::nodes::{NodeId, Nodes};
use crate::turn::{Stop, Turn, find_turn};

// The value at a key below a node.
#[tactic(auto, using(crate::proofs::Founds::found_here, crate::proofs::Founds::found_down, crate::proofs::Founds::found_sprout, crate::proofs::Founds::found_apart))]
fn find_below<'a>(nodes: &'a Nodes, root: u32, key: &[u8]) -> Option<&'a [u8]>
    requires { root < length nodes.now }
    ensures value { option_copied result ≡ found nodes.now root (nibbles key.now) }
    ensures sound { Sound nodes.now }
{
    let _count = nodes.count();
    let mut node = root;
    let mut at = 0;
    'down: loop {
        match find_turn(nodes, node, key, at) {
            Turn::Stops(Stop::Here) => return nodes.value(node),
            Turn::Stops(_) => return None,
            Turn::Down {
                nibble: _,
                next,
                child,
            } => {
                node = child;
                at = next;
            }
        }
    }
}

impl Nodes {
    /// The value at a key in the map of a root; `None` exactly where there is none. It takes no
    /// memory, and goes over the nodes of the key's path.
    pub fn find(&self, root: Option<NodeId>, key: &[u8]) -> Option<&[u8]>
        requires { IsRoot self.now root }
        ensures { option_copied result ≡ map.get (contents self.now root) key.now }
    {
        match root {
            None => None,
            Some(root) => find_below(self, root.0, key),
        }
    }

    /// The memory usage of the trie of a root's map, in bytes. It is kept, so no node is looked at
    /// but the root's.
    pub fn usage(&self, root: Option<NodeId>) -> u64
        requires { IsRoot self.now root }
        ensures { result ≡ (root_of (contents self.now root)).usage }
    {
        let _count = self.count();
        match root {
            None => 0,
            Some(root) => self.usage_at(root.0),
        }
    }
}
