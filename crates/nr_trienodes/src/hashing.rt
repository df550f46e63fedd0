//! Hashes of roots.

ghost use Rattle.std.specs.Prelude.{◌≡◌, ◌<◌, ◌≤◌, ◌+◌, ◌++◌, ◌∷◌, [], ℕ, true, length, sum_by, slice_index, IfOk};
ghost use Rattle.std.specs.Prelude.{OnOk};
ghost use Rattle.nr_triedef.specs.Root.{root_of};
ghost use Rattle.nr_trienodes.specs.Shape.{shape_at};
ghost use Rattle.nr_trienodes.specs.Tries.{summary_at, cost_at};
ghost use Rattle.nr_trienodes.specs.Views.{IsIn};
ghost use Rattle.nr_trienodes.specs.Roots.{IsRoot, contents, cost, Keeps};
ghost use Rattle.nr_trienodes.specs.Hashing.{cold, is_hashed, weight_at, IsQueue, Gathering, Gathers, Warms};

use crate::making::summary_of;
use crate::nodes::{NodeId, Nodes};
use nr_triedef::{NodeHash, Scratch, Steps, empty_root};
use std::alloc::AllocError;
use std::sync::ledger::Ledger;

// A child whose hash isn't kept.
#[tactic(auto, using(crate::proofs::Queues::cold_absent, crate::proofs::Queues::cold_kept, crate::proofs::Queues::cold_new, crate::proofs::Queues::in_arena))]
fn push_child(nodes: &Nodes, queue: &mut Vec<u32>, child: Option<u32>) -> Result<(), AllocError>
    requires { IsIn (length nodes.now) child }
    ensures { OnOk result (queue.new.items ≡ queue.old.items ++ cold nodes.now (child ∷ [])) }
{
    match child {
        None => Ok(()),
        Some(id) => match nodes.hash_at(id) {
            Some(_) => Ok(()),
            None => {
                queue.push(id)?;
                Ok(())
            }
        },
    }
}

// The children whose hashes aren't kept.
#[tactic(auto, using(crate::proofs::Queues::pushed_first, crate::proofs::Queues::pushed_more, crate::proofs::Queues::pushed_all))]
fn push_cold(nodes: &Nodes, queue: &mut Vec<u32>, id: u32) -> Result<(), AllocError>
    requires { id < length nodes.now }
    ensures { OnOk result (queue.new.items ≡ queue.old.items ++ cold nodes.now (shape_at nodes.now id).below) }
{
    let _count = nodes.count();
    if !nodes.is_inner(id) {
        return Ok(());
    }
    let row = nodes.row(id);
    for i in 0..16 {
        push_child(nodes, queue, row[i])?;
    }
    Ok(())
}

// The root, where its hash isn't kept.
#[tactic(auto, using(crate::proofs::Queues::gathering_none, crate::proofs::Queues::gathering_one))]
fn first_cold(nodes: &Nodes, root: u32) -> Result<Vec<u32>, AllocError>
    requires { root < length nodes.now }
    ensures { IfOk result (λ queue. Gathering nodes.now root queue.items 0) }
{
    let mut queue = Vec::new(nodes.allocator());
    match nodes.hash_at(root) {
        Some(_) => Ok(queue),
        None => {
            queue.push(root)?;
            Ok(queue)
        }
    }
}

// The nodes at and below a root whose hashes aren't kept, each before those below it.
#[tactic(auto, using(crate::proofs::Queues::gathering_next, crate::proofs::Queues::gathered, crate::proofs::Queues::gathering_falls))]
fn gather(nodes: &Nodes, root: u32) -> Result<Vec<u32>, AllocError>
    requires { root < length nodes.now }
    ensures { IfOk result (λ queue. Gathers nodes.now root queue.items) }
{
    let _count = nodes.count();
    let mut queue = first_cold(nodes, root)?;
    let mut next = 0;
    'on: while next < queue.len() {
        let id = queue[next];
        push_cold(nodes, &mut queue, id)?;
        next += 1;
    }
    Ok(queue)
}

// Keeps the hashes of nodes, the last one first.
fn warm<L: Ledger>(
    nodes: &mut Nodes,
    queue: Vec<u32>,
    steps: &mut Steps<L>,
) -> Result<(), AllocError>
    requires { IsQueue nodes.old queue.items }
    ensures warms { Warms nodes.old nodes.new }
    ensures steps { steps.new ≤ steps.old + sum_by (weight_at nodes.old) queue.items }
    ensures all { OnOk result ((j : ℕ) → j < length queue.items → is_hashed nodes.new (slice_index queue.items j)
        ≡ true) }
{
    let _count = nodes.count();
    let mut queue = queue;
    let mut scratch = Scratch::new(nodes.allocator())?;
    'up: while let Some(id) = queue.pop() {
        let made = summary_of(nodes, id, &mut scratch, steps)?;
        nodes.keep_hash(id, made.hash);
    }
    Ok(())
}

// The hash of a node, which is kept from then on.
#[tactic(auto, using(crate::proofs::Hashed::kept_absurd, crate::proofs::Queues::root_warm))]
fn hash_below<L: Ledger>(
    nodes: &mut Nodes,
    root: u32,
    steps: &mut Steps<L>,
) -> Result<NodeHash, AllocError>
    requires { root < length nodes.old }
    ensures hash { IfOk result (λ hash. hash ≡ (summary_at nodes.old root).hash) }
    ensures warms { Warms nodes.old nodes.new }
    ensures steps { steps.new ≤ steps.old + cost_at nodes.old root }
    ensures kept { OnOk result (is_hashed nodes.new root ≡ true) }
{
    let _count = nodes.count();
    let queue = gather(nodes, root)?;
    warm(nodes, queue, steps)?;
    match nodes.hash_at(root) {
        None => unreachable!(),
        Some(hash) => Ok(hash),
    }
}

impl Nodes {
    /// The hash of the trie of a root's map: 32 zero bytes where there is none. Each node that is
    /// hashed is one of the `steps`; a node's hash is kept, so it is made once.
    ///
    /// # Errors
    ///
    /// Where memory ran out. Hashes that were made are kept then too.
    pub fn hash<L: Ledger>(
        &mut self,
        root: Option<NodeId>,
        steps: &mut Steps<L>,
    ) -> Result<NodeHash, AllocError>
        requires { IsRoot self.old root }
        ensures hash { IfOk result (λ hash. hash ≡ (root_of (contents self.old root)).hash) }
        ensures steps { steps.new ≤ steps.old + cost self.old root }
        ensures known { OnOk result (cost self.new root ≡ 0) }
        ensures kept { Keeps self.old self.new }
        ensures len { length self.new ≡ length self.old }
    {
        let _count = self.count();
        match root {
            None => Ok(empty_root()),
            Some(root) => {
                let hash = hash_below(self, root.0, steps)?;
                Ok(hash)
            }
        }
    }
}
