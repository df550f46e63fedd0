//! Nodes that no root needs, dropped.

ghost use Rattle.std.specs.Prelude.{◌≡◌, ◌<◌, ◌≤◌, ◌+◌, ◌*◌, length, map, sum_by, OnOk, OnErr};
ghost use Rattle.std.specs.List.{AllByRecursion};
ghost use Rattle.std.specs.FinMap as map_of;
ghost use Rattle.nr_trienodes.specs.Shape.{shape_at};
ghost use Rattle.nr_trienodes.specs.Views.{IsIn};
ghost use Rattle.nr_trienodes.specs.Roots.{IsRoot, Renames, OldestStay, AreOldestKept, contents, name_in, root_count};
ghost use Rattle.nr_trienodes.specs.Roots.{young_count};
ghost use Rattle.nr_trienodes.specs.Naming.{marked, new_root, AreOldest, HasName, RowMarked, BelowMarked, RootsMarked};

use crate::names::Names;
use crate::nodes::{NodeId, Nodes};
use std::alloc::AllocError;

fn mark(names: &mut Names, id: Option<u32>)
    requires { IsIn (length names.old) id }
    ensures { names.new ≡ marked names.old id }
{
    if let Some(id) = id {
        names.keep(id);
    }
}

// Keeps the children of a node.
fn mark_row(nodes: &Nodes, names: &mut Names, id: u32)
    requires there { id < length nodes.now }
    requires names { length names.old ≡ length nodes.now }
    ensures { RowMarked (shape_at nodes.now id).below names.old names.new id }
{
    let _sound = nodes.count();
    if !nodes.is_inner(id) {
        return;
    }
    for x in 0..16u8 {
        mark(names, nodes.child(id, x));
    }
}

// Keeps the children of each kept node from the oldest ones on, and so all below.
fn mark_below(nodes: &Nodes, names: &mut Names, oldest: u32)
    requires names { length names.old ≡ length nodes.now }
    requires there { oldest ≤ length nodes.now }
    ensures { BelowMarked nodes.now oldest names.old names.new oldest }
{
    let mut left = nodes.count();
    'down: while left > oldest {
        left -= 1;
        if names.is_kept(left) {
            mark_row(nodes, names, left);
        }
    }
}

fn number_of(root: Option<NodeId>) -> Option<u32>
    ensures { result ≡ name_in root }
{
    match root {
        None => None,
        Some(id) => Some(id.0),
    }
}

// Keeps the nodes of the roots.
fn mark_roots(nodes: &Nodes, names: &mut Names, roots: &[Option<NodeId>])
    requires names { length names.old ≡ length nodes.now }
    requires roots { AllByRecursion (IsRoot nodes.now) roots.now }
    ensures { RootsMarked nodes.now roots.now names.old names.new }
{
    for root in roots {
        mark(names, number_of(*root));
    }
}

fn renamed(names: &Names, root: Option<NodeId>) -> Option<NodeId>
    requires { HasName names.now root }
    ensures { result ≡ new_root names.now root }
{
    match root {
        None => None,
        Some(id) => match names.get(id.0) {
            None => None,
            Some(name) => Some(NodeId(name)),
        },
    }
}

fn rename_roots(names: &Names, roots: &mut [Option<NodeId>])
    requires { AllByRecursion (HasName names.now) roots.old }
    ensures { roots.new ≡ map (new_root names.now) roots.old }
{
    for root in roots.iter_mut() {
        *root = renamed(names, *root);
    }
}

// Drops the nodes that no root needs, except the oldest ones, and gives the roots their new names.
fn trim_to(nodes: &mut Nodes, names: &mut Names, oldest: usize, roots: &mut [Option<NodeId>])
    requires there { oldest ≤ length nodes.old }
    requires names { AreOldest names.old oldest (length nodes.old) }
    requires roots { AllByRecursion (IsRoot nodes.old) roots.old }
    ensures ok { Renames nodes.old nodes.new roots.old roots.new }
    ensures same { OldestStay oldest roots.old roots.new }
    ensures oldest { AreOldestKept nodes.old nodes.new oldest }
    ensures few { length nodes.new ≤ oldest + sum_by (young_count nodes.old oldest) roots.old }
    ensures less { length nodes.new ≤ length nodes.old }
{
    let _count = nodes.count();
    mark_roots(nodes, names, roots);
    mark_below(nodes, names, oldest as u32);
    nodes.slide(names, oldest);
    rename_roots(names, roots);
}

impl Nodes {
    /// Drops the nodes that no named root needs, and gives the roots their new names; none stays none.
    /// All other names mean nothing afterwards.
    ///
    /// # Errors
    ///
    /// Where memory ran out. The nodes and the names are then as they were.
    pub fn trim(&mut self, roots: &mut [Option<NodeId>]) -> Result<(), AllocError>
        requires { AllByRecursion (IsRoot self.old) roots.old }
        ensures ok { OnOk result (Renames self.old self.new roots.old roots.new) }
        ensures none { OnOk result (OldestStay 0 roots.old roots.new) }
        ensures tries { OnOk result (length self.new ≤ sum_by (root_count self.old) roots.old) }
        ensures few { OnOk result (length self.new
            ≤ sum_by (λ r. 2 * length (map_of.entries (contents self.new r))) roots.new) }
        ensures err { OnErr result (self.new ≡ self.old) }
        ensures names { OnErr result (roots.new ≡ roots.old) }
    {
        let _count = self.count();
        self.trim_young(0, roots)?;
        Ok(())
    }

    /// Drops the nodes that no named root needs, except the oldest ones, so many of them as given, and
    /// gives the roots their new names. The oldest ones stay as they are under their names, and a root
    /// that names one of them keeps that name; the work and the memory that it takes grow with the
    /// younger ones and the roots alone. The names of other nodes mean nothing afterwards.
    ///
    /// # Errors
    ///
    /// Where memory ran out. The nodes and the names are then as they were.
    pub fn trim_young(
        &mut self,
        oldest: usize,
        roots: &mut [Option<NodeId>],
    ) -> Result<(), AllocError>
        requires { AllByRecursion (IsRoot self.old) roots.old }
        ensures ok { OnOk result (Renames self.old self.new roots.old roots.new) }
        ensures same { OnOk result (OldestStay oldest roots.old roots.new) }
        ensures oldest { OnOk result (AreOldestKept self.old self.new oldest) }
        ensures few { OnOk result (length self.new ≤ oldest + sum_by (young_count self.old oldest) roots.old) }
        ensures less { length self.new ≤ length self.old }
        ensures err { OnErr result (self.new ≡ self.old) }
        ensures names { OnErr result (roots.new ≡ roots.old) }
    {
        let oldest = oldest.min(self.len());
        let mut names = self.take_names(oldest)?;
        trim_to(self, &mut names, oldest, roots);
        self.keep_names(names);
        Ok(())
    }
}
