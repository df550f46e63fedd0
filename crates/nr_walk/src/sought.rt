//! What a walk searches, narrowed on its way to what is met there.

ghost use Rattle.std.specs.Prelude.{◌≡◌, ◌==◌, ◌+◌, ◌++◌, ◌∷◌, [], true, filter, vec_len, List as Items, IfOk, IfSome};
ghost use Rattle.std.specs.Prelude.{MatchOption, OnOk};
ghost use Rattle.std.specs.List.{starts_with};
ghost use Rattle.nr_walk.specs.Searched.{is_met, is_found, looks, finds};
ghost use Rattle.nr_walk.specs.Sought.{AreSteps, Decides, IsStep, covers};
ghost use Rattle.nr_walk.specs.declared.searched.Searched.{Searched as OneSearched};

use crate::searched::{Searched, is_found, is_met};
use nr_bytes::Blob;
use std::alloc::{AllocError, Global};
use std::marker::Model;

/// One of what is searched. Contracts see that itself.
#[derive(Drop)]
struct Met<'a> {
    one: &'a Searched,
}

impl<'a> Model for Met<'a> {
    ghost use Rattle.nr_walk.specs.declared.searched.Searched.{Searched};

    ghost Value = { Searched };

    ghost view = { λ m. m.one.now };
}

impl<'a> Met<'a> {
    fn inner(&self) -> &'a Searched
        ensures { result.now ≡ self.now }
    {
        self.one
    }
}

/// A place on the way, and those that decide from there on.
#[derive(Drop)]
struct Step<'a> {
    place: Blob,
    met: Vec<Met<'a>>,
}

// ---- those that are met

fn all_met<'a>(alloc: Global, searched: &'a [Searched]) -> Result<Vec<Met<'a>>, AllocError>
    ensures { IfOk result (λ list. list.items ≡ searched.now) }
{
    let mut list = Vec::new(alloc);
    for one in searched {
        list.push(Met { one })?;
    }
    Ok(list)
}

// Whether all below a place is searched.
fn covers(one: &Searched, place: &[u8]) -> bool
    ensures { result ≡ covers place.now one.now }
{
    one.below && place.starts_with(one.path.inner())
}

// Lists one, where it is met at a place.
fn push_met<'a>(list: &mut Vec<Met<'a>>, one: &'a Searched, place: &[u8]) -> Result<(), AllocError>
    ensures { OnOk result (list.new.items ≡ list.old.items ++ filter (is_met place.now) (one.now ∷ [])) }
{
    if !is_met(one, place) {
        return Ok(());
    }
    list.push(Met { one })?;
    Ok(())
}

fn filtered<'a>(alloc: Global, met: &[Met<'a>], place: &[u8]) -> Result<Vec<Met<'a>>, AllocError>
    ensures { IfOk result (λ list. list.items ≡ filter (is_met place.now) met.now) }
{
    let mut list = Vec::new(alloc);
    for one in met {
        push_met(&mut list, one.inner(), place)?;
    }
    Ok(list)
}

fn only<'a>(alloc: Global, one: &'a Searched) -> Result<Vec<Met<'a>>, AllocError>
    ensures { IfOk result (λ list. list.items ≡ one.now ∷ []) }
{
    let mut list = Vec::new(alloc);
    list.push(Met { one })?;
    Ok(list)
}

// Those that are met at a place; one alone, where all below it is searched for that one.
fn narrowed<'a>(alloc: Global, met: &[Met<'a>], place: &[u8]) -> Result<Vec<Met<'a>>, AllocError>
    ensures { IfOk result (λ list. Decides met.now place.now list.items) }
{
    for other in met {
        let one = other.inner();
        if covers(one, place) {
            let list = only(alloc, one)?;
            return Ok(list);
        }
    }
    let list = filtered(alloc, met, place)?;
    Ok(list)
}

fn is_met_there(met: &Met<'_>, place: &[u8]) -> bool
    ensures { result ≡ is_met place.now met.now }
{
    is_met(met.inner(), place)
}

#[tactic(auto, unfolding(crate::specs::Searched::looks))]
fn looks_met(met: &[Met<'_>], place: &[u8]) -> bool
    ensures { result ≡ looks met.now place.now }
{
    met.iter().any(|one| is_met_there(one, place))
}

fn is_one_found(met: &Met<'_>, key: &[u8]) -> bool
    ensures { result ≡ is_found key.now met.now }
{
    is_found(met.inner(), key)
}

#[tactic(auto, unfolding(crate::specs::Searched::finds))]
fn finds_met(met: &[Met<'_>], key: &[u8]) -> bool
    ensures { result ≡ finds met.now key.now }
{
    met.iter().any(|one| is_one_found(one, key))
}

// ---- a step

// Whether a step leads to a place.
fn leads(step: &Step<'_>, place: &[u8]) -> bool
    ensures { result ≡ starts_with ◌==◌ place.now step.now.place }
{
    place.starts_with(step.place.inner())
}

// Those that decide from a place on, to which a step leads.
fn met_behind<'a>(alloc: Global, step: &Step<'a>, place: &[u8]) -> Result<Vec<Met<'a>>, AllocError>
    requires { starts_with ◌==◌ place.now step.now.place ≡ true }
    ensures { (searched : Items OneSearched) → IsStep searched step.now
        → IfOk result (λ met. Decides searched place.now met.items) }
{
    let met = narrowed(alloc, &step.met, place)?;
    Ok(met)
}

// Whether the entry of a key is found.
fn found_behind(all: &[Met<'_>], step: &Step<'_>, key: &[u8]) -> bool
    requires { IsStep all.now step.now }
    ensures { result ≡ finds all.now key.now }
{
    if leads(step, key) {
        finds_met(&step.met, key)
    } else {
        finds_met(all, key)
    }
}

// ---- the way

fn pop_step<'a>(steps: &mut Vec<Step<'a>>) -> Option<Step<'a>>
    ensures steps { (searched : Items OneSearched) → AreSteps searched steps.old.items
        → AreSteps searched steps.new.items }
    ensures step { (searched : Items OneSearched) → AreSteps searched steps.old.items
        → IfSome result (λ step. IsStep searched step) }
    ensures count { MatchOption result ((vec_len steps.old ≡ 0) × (vec_len steps.new ≡ 0))
        (λ _. vec_len steps.new + 1 ≡ vec_len steps.old) }
{
    steps.pop()
}

fn push_step<'a>(steps: &mut Vec<Step<'a>>, step: Step<'a>) -> Result<(), AllocError>
    ensures { (searched : Items OneSearched) → IsStep searched step.entry → AreSteps searched steps.old.items
        → AreSteps searched steps.new.items }
{
    steps.push(step)?;
    Ok(())
}

// Those that decide from a place on, out of those at the last step that leads there. The steps behind
// it are given up.
fn met_at<'a>(
    alloc: Global,
    all: &[Met<'a>],
    steps: &mut Vec<Step<'a>>,
    place: &[u8],
) -> Result<Vec<Met<'a>>, AllocError>
    requires { AreSteps all.now steps.old.items }
    ensures met { IfOk result (λ met. Decides all.now place.now met.items) }
    ensures steps { AreSteps all.now steps.new.items }
{
    while let Some(step) = pop_step(steps) {
        if leads(&step, place) {
            let met = met_behind(alloc, &step, place)?;
            push_step(steps, step)?;
            return Ok(met);
        }
    }
    narrowed(alloc, all, place)
}

fn copied(alloc: Global, place: &[u8]) -> Result<Blob, AllocError>
    ensures { IfOk result (λ blob. blob ≡ place.now) }
{
    Ok(Blob::of(Vec::from_slice(alloc, place)?))
}

fn step_to<'a>(alloc: Global, place: &[u8], met: Vec<Met<'a>>) -> Result<Step<'a>, AllocError>
    ensures { (searched : Items OneSearched) → Decides searched place.now met.entry.items
        → IfOk result (λ step. IsStep searched step) }
{
    let place = copied(alloc, place)?;
    Ok(Step { place, met })
}

// Goes to a place, and tells whether it is looked at.
fn go_to<'a>(
    alloc: Global,
    all: &[Met<'a>],
    steps: &mut Vec<Step<'a>>,
    place: &[u8],
) -> Result<bool, AllocError>
    requires { AreSteps all.now steps.old.items }
    ensures value { IfOk result (λ looked. looked ≡ looks all.now place.now) }
    ensures steps { AreSteps all.now steps.new.items }
{
    let met = met_at(alloc, all, steps, place)?;
    let looked = looks_met(&met, place);
    let step = step_to(alloc, place, met)?;
    push_step(steps, step)?;
    Ok(looked)
}

// Whether the entry of a key is found.
fn found_from(all: &[Met<'_>], steps: &[Step<'_>], key: &[u8]) -> bool
    requires { AreSteps all.now steps.now }
    ensures { result ≡ finds all.now key.now }
{
    match steps.last() {
        Some(step) => found_behind(all, step, key),
        None => finds_met(all, key),
    }
}

/// What a walk searches. A place is looked up among what is met at the last place before it on its way, so a walk that
/// goes depth first passes over what lies elsewhere. Contracts see all that is searched.
#[derive(Drop)]
pub struct Sought<'a> {
    alloc: Global,
    all: Vec<Met<'a>>,
    steps: Vec<Step<'a>>,
}

impl<'a> Model for Sought<'a> {
    ghost use Rattle.std.specs.Prelude.{List};
    ghost use Rattle.nr_walk.specs.declared.searched.Searched.{Searched};

    ghost Value = { List Searched };

    ghost use Rattle.nr_walk.specs.Sought.{AreSteps};

    ghost view = { λ s. s.all.items };

    ghost invariant = { λ s. AreSteps s.all.items s.steps.items };
}

impl<'a> Sought<'a> {
    /// All of this is searched.
    ///
    /// # Errors
    ///
    /// Where memory ran out.
    pub fn of(alloc: Global, searched: &'a [Searched]) -> Result<Sought<'a>, AllocError>
        ensures { IfOk result (λ sought. sought ≡ searched.now) }
    {
        let all = all_met(alloc, searched)?;
        Ok(Sought {
            alloc,
            all,
            steps: Vec::new(alloc),
        })
    }

    /// Whether a node at a place is looked at for itself, as [`looks`](crate::looks) tells. The way then leads there.
    ///
    /// # Errors
    ///
    /// Where memory ran out.
    pub fn looks(&mut self, place: &[u8]) -> Result<bool, AllocError>
        ensures same { self.new ≡ self.old }
        ensures value { IfOk result (λ looked. looked ≡ looks self.old place.now) }
    {
        let looked = go_to(self.alloc, &self.all, &mut self.steps, place)?;
        Ok(looked)
    }

    /// Whether the entry of a key is found, as [`finds`](crate::finds) tells.
    pub fn finds(&self, key: &[u8]) -> bool
        ensures { result ≡ finds self.now key.now }
    {
        found_from(&self.all, &self.steps, key)
    }
}
