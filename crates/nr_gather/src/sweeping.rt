//! Going over all nodes of a trie, depth first: the texts at which a walk looks.

ghost use Rattle.std.specs.Prelude.{◌≡◌, ◌≤◌, ◌++◌, ◌∷◌, [], List as Items, IfOk, OnOk};
ghost use Rattle.std.specs.List.{AllByRecursion};
ghost use Rattle.nr_triedef.specs.Node.{IsNode};
ghost use Rattle.nr_triedef.specs.Root.{paths};
ghost use Rattle.nr_triedef.specs.declared.node.Node.{Node as Nodes};
ghost use Rattle.nr_columns.specs.Entries.{pairs_of};
ghost use Rattle.nr_gather.specs.Sweeping.{count_of, value_text, paths_behind, swept};

use nr_bytes::{Blob, List};
use nr_triedef::{Node, nibbles, node_text};
use nr_walk::{Entry, Searched, Sought, Spot, Waiting, has_value, spots_of};
use std::alloc::{AllocError, Global};

// How many children a node has.
fn count_of(node: &Node) -> u128
    ensures value { result ≡ count_of node.now }
    ensures few { result ≤ 16 }
{
    match node {
        Node::Leaf { .. } => 0,
        Node::Extension { .. } => 1,
        Node::Branch { children, .. } => {
            let count = children.iter().filter(|child| child.is_some()).count();
            count as u128
        }
    }
}

// The entries behind that of a node, which is the first.
fn behind<'a>(node: &Node, entries: &'a [Entry]) -> &'a [Entry]
    ensures { paths (pairs_of result.now) ≡ paths_behind node.now (paths (pairs_of entries.now)) }
{
    if !has_value(node) {
        return entries;
    }
    match entries {
        [] => entries,
        [_, rest @ ..] => rest,
    }
}

// Lists the value of a node, whose entry is the first, where its key is searched.
fn add_value(
    alloc: Global,
    texts: &mut Vec<Blob>,
    sought: &Sought<'_>,
    entries: &[Entry],
    node: &Node,
) -> Result<(), AllocError>
    ensures { OnOk result (texts.new.items ≡ texts.old.items ++ value_text sought.now node.now
        (paths (pairs_of entries.now))) }
{
    if !has_value(node) {
        return Ok(());
    }
    if let Some(entry) = entries.first() {
        let key = nibbles(alloc, entry.key.inner())?;
        if sought.finds(key.inner()) {
            texts.push(Blob::of(Vec::from_slice(alloc, entry.value.inner())?))?;
        }
    }
    Ok(())
}

// Looks at the node of a spot. Its children wait, or it gives how many of them are passed by.
fn look(
    alloc: Global,
    texts: &mut Vec<Blob>,
    waiting: &mut Waiting,
    sought: &mut Sought<'_>,
    entries: &[Entry],
    spot: &Spot,
    node: &Node,
) -> Result<u128, AllocError>
    requires { IsNode node.now }
    ensures few { IfOk result (λ passed. passed ≤ 16) }
    ensures same { sought.new ≡ sought.old }
    ensures value { IfOk result (λ passed. (more : Items Nodes)
        → texts.new.items ++ swept sought.old passed waiting.new more
        (paths_behind node.now (paths (pairs_of entries.now)))
        ≡ texts.old.items ++ swept sought.old 0 (spot.now ∷ waiting.old) (node.now ∷ more)
        (paths (pairs_of entries.now))) }
{
    texts.push(node_text(alloc, node)?)?;
    let place = spot.place.inner();
    if !sought.looks(place)? {
        return Ok(count_of(node));
    }
    add_value(alloc, texts, sought, entries, node)?;
    waiting.put(List::of(spots_of(alloc, place, node)?))?;
    Ok(0)
}

/// The texts at which a walk looks that begins at this spot, by all nodes, depth first, and the
/// entries in the order of their keys.
pub(crate) fn looked_texts(
    alloc: Global,
    searched: &[Searched],
    entries: &[Entry],
    nodes: &[Node],
    top: Spot,
) -> Result<List<Blob>, AllocError>
    requires { AllByRecursion IsNode nodes.now }
    ensures { IfOk result (λ texts. texts ≡ swept searched.now 0 (top ∷ []) nodes.now (paths (pairs_of entries.now))) }
{
    let mut texts = Vec::new(alloc);
    let mut waiting = Waiting::of(alloc, top)?;
    let mut sought = Sought::of(alloc, searched)?;
    let mut rest = entries;
    let mut passed: u128 = 0;
    for node in nodes {
        if passed > 0 {
            passed = passed - 1 + count_of(node);
        } else {
            match waiting.pop() {
                None => return Ok(List::of(texts)),
                Some(spot) => {
                    passed = look(
                        alloc,
                        &mut texts,
                        &mut waiting,
                        &mut sought,
                        rest,
                        &spot,
                        node,
                    )?;
                }
            }
        }
        rest = behind(node, rest);
    }
    Ok(List::of(texts))
}
