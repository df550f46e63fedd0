//! What is left of paths, with what is known at their ends.

ghost use Rattle.std.specs.Prelude.{◌≡◌, ◌≤◌, ◌<◌, ◌+◌, None, Some, length, drop, IfOk, MatchOption};
ghost use Rattle.nr_triedef.specs.Root.{common, front, behind, value_here, under};
ghost use Rattle.nr_remake.specs.Marks.{mark};
ghost use Rattle.nr_remake.specs.Merging.{marks_of};

use nr_walk::{Kept, Known};
use std::alloc::{AllocError, Global};
use std::marker::Model;

/// What is left of a path, and what is known at its end. Contracts see the latter as a mark.
#[derive(Drop)]
pub(crate) struct Rest<'a> {
    pub(crate) path: &'a [u8],
    pub(crate) known: &'a Known,
}

impl<'a> Model for Rest<'a> {
    ghost use Rattle.std.specs.Prelude.{List, ℕ};
    ghost use Rattle.nr_remake.specs.Marks.{mark};

    ghost Value = { List ℕ × List ℕ };

    ghost view = { λ r. (r.path.now, mark r.known.now) };
}

impl<'a> Rest<'a> {
    /// What is kept, as a mark.
    fn of(kept: &'a Kept) -> Rest<'a>
        ensures { result ≡ (kept.now.path, mark kept.now.known) }
    {
        Rest {
            path: kept.path.inner(),
            known: &kept.known,
        }
    }

    /// The same without the first n nibbles.
    fn behind(&self, n: usize) -> Rest<'a>
        ensures { result ≡ (drop n self.now.0, self.now.1) }
    {
        Rest {
            path: dropped(self.path, n),
            known: self.known,
        }
    }

    /// What is left of the path.
    pub(crate) fn path(&self) -> &'a [u8]
        ensures { result.now ≡ self.now.0 }
    {
        self.path
    }

    /// What is known at its end.
    pub(crate) fn known(&self) -> &'a Known
        ensures { mark result.now ≡ self.now.1 }
    {
        self.known
    }
}

fn dropped(path: &[u8], n: usize) -> &[u8]
    ensures { result.now ≡ drop n path.now }
{
    if n <= path.len() { &path[n..] } else { &[] }
}

/// Whether one path stands before another.
fn is_before(one: &[u8], other: &[u8]) -> bool
    ensures { result ≡ is_before one.now other.now }
{
    let mut path = one;
    let mut end = other;
    while let [y, after @ ..] = end {
        match path {
            [] => return true,
            [x, rest @ ..] => {
                if *x < *y {
                    return true;
                }
                if *x != *y {
                    return false;
                }
                path = rest;
            }
        }
        end = after;
    }
    false
}

ghost use Rattle.nr_remake.specs.Merging.{is_before, lower, upper, merge};
ghost use Rattle.std.specs.Prelude.{◌++◌, OnOk};

// Lists those that stand before a path, and gives the others.
fn push_lower<'a>(
    list: &mut Vec<Rest<'a>>,
    new: &'a [Kept],
    path: &[u8],
) -> Result<&'a [Kept], AllocError>
    ensures listed { OnOk result (list.new.items ≡ list.old.items ++ lower path.now (marks_of new.now)) }
    ensures others { IfOk result (λ others. marks_of others.now ≡ upper path.now (marks_of new.now)) }
{
    let mut others = new;
    while let [first, after @ ..] = others {
        if !is_before(first.path.inner(), path) {
            return Ok(others);
        }
        list.push(Rest::of(first))?;
        others = after;
    }
    Ok(others)
}

fn push_all<'a>(list: &mut Vec<Rest<'a>>, new: &'a [Kept]) -> Result<(), AllocError>
    ensures { OnOk result (list.new.items ≡ list.old.items ++ marks_of new.now) }
{
    for one in new {
        list.push(Rest::of(one))?;
    }
    Ok(())
}

/// What is kept and what is new, in the order of their paths.
pub(crate) fn merged<'a>(
    alloc: Global,
    kept: &'a [Kept],
    new: &'a [Kept],
) -> Result<Vec<Rest<'a>>, AllocError>
    ensures { IfOk result (λ list. list.items ≡ merge (marks_of kept.now) (marks_of new.now)) }
{
    let mut list = Vec::new(alloc);
    let mut others = new;
    for one in kept {
        others = push_lower(&mut list, others, one.path.inner())?;
        list.push(Rest::of(one))?;
    }
    push_all(&mut list, others)?;
    Ok(list)
}

// How many nibbles two paths share from the front on.
fn shared_len(one: &[u8], other: &[u8]) -> usize
    ensures value { result ≡ length (common one.now other.now) }
    ensures within { result ≤ length one.now }
{
    let mut n = 0;
    while n < one.len() && n < other.len() && one[n] == other[n] {
        n += 1;
    }
    n
}

#[tactic(auto, using(nr_store::proofs::Orders::common_taken))]
fn common<'a>(one: &'a [u8], other: &[u8]) -> &'a [u8]
    ensures { result.now ≡ common one.now other.now }
{
    let n = shared_len(one, other);
    &one[..n]
}

/// The longest front of all of them, of which there is one.
pub(crate) fn front<'a>(rests: &[Rest<'a>]) -> &'a [u8]
    requires { 0 < length rests.now }
    ensures { result.now ≡ front rests.now }
{
    let mut shared = rests[0].path();
    for one in rests {
        shared = common(shared, one.path());
    }
    shared
}

/// The same without the first n nibbles of each.
pub(crate) fn behind<'a>(
    alloc: Global,
    rests: &[Rest<'a>],
    n: usize,
) -> Result<Vec<Rest<'a>>, AllocError>
    ensures { IfOk result (λ list. list.items ≡ behind n rests.now) }
{
    let mut list = Vec::new(alloc);
    for one in rests {
        list.push(one.behind(n))?;
    }
    Ok(list)
}

// What is left behind a nibble, where the path goes on with it.
fn behind_nibble<'a>(one: &Rest<'a>, nibble: u8) -> Option<Rest<'a>>
    ensures { option_list result ≡ under nibble (one.now ∷ []) }
{
    match one.path {
        [] => None,
        [first, path @ ..] => {
            if *first == nibble {
                Some(Rest {
                    path,
                    known: one.known,
                })
            } else {
                None
            }
        }
    }
}

ghost use Rattle.std.specs.Prelude.{◌∷◌, []};
ghost use Rattle.nr_walk.specs.Told.{option_list};

/// Those that go on with the nibble, without it.
pub(crate) fn under<'a>(
    alloc: Global,
    rests: &[Rest<'a>],
    nibble: u8,
) -> Result<Vec<Rest<'a>>, AllocError>
    ensures { IfOk result (λ list. list.items ≡ under nibble rests.now) }
{
    let mut list = Vec::new(alloc);
    for one in rests {
        if let Some(rest) = behind_nibble(one, nibble) {
            list.push(rest)?;
        }
    }
    Ok(list)
}

/// What is known at the first path that ends here.
pub(crate) fn here<'a>(rests: &[Rest<'a>]) -> Option<&'a Known>
    ensures { MatchOption result (value_here rests.now ≡ None) (λ known. value_here rests.now ≡ Some (mark known.now)) }
{
    for one in rests {
        if one.path().is_empty() {
            return Some(one.known());
        }
    }
    None
}
