//! The leg of a run that has a height.

ghost use Rattle.std.specs.Prelude.{◌≡◌, ◌+◌, nat_lt, Some, IfOk};
ghost use Rattle.nr_blocks.specs.Genesis.{IsSoundGenesis};
ghost use Rattle.nr_chunk.specs.Chain.{rules_of};
ghost use Rattle.nr_chunk.specs.Runs.{chain_in};
ghost use Rattle.nr_chunk.specs.Start.{start_tokens};
ghost use Rattle.nr_course.specs.Course.{CanRun, CanTurn, height_in, leg_at, leg_by, second};
ghost use Rattle.nr_course.specs.declared.turn.Turn.{Turn as Turned};
ghost use Rattle.nr_overlap.specs.Run.{opening};
ghost use Rattle.nr_top.specs.Moments.{IsMoment, chain_of};
ghost use Rattle.nr_top.specs.Run.{loaded};

use crate::chain::{Begun, begin};
use crate::run::{Run, opened, run_over};
use nr_chainfiles::ChainFiles;
use nr_chunk::ChainRun;
use nr_contract::ContractCaller;
use nr_course::{Turn, cross};
use nr_ids::Height;
use nr_outcome::Outcome;
use nr_overlap::Phases;
use std::alloc::{AllocError, Global};

/// A leg before its first chunk, with all tokens that it starts with.
type Leg = (ChainRun<ContractCaller>, u128);

/// Whether a height lies behind a chain.
fn is_behind(chain: &ChainRun<ContractCaller>, height: u64) -> bool
    ensures { let x = chain_in chain.now in result ≡ nat_lt (x.start.below + (rules_of x).heights) height }
{
    let last = chain.place(Height(chain.heights()));
    last.height.0 < height
}

/// The second leg, for which the first one is run to its end.
#[inline(never)]
fn second_leg(
    alloc: Global,
    chain: ChainRun<ContractCaller>,
    turn: Turn,
    supply: u128,
) -> Result<Leg, AllocError>
    requires can { CanTurn (chain_in chain) turn }
    requires supply { supply ≡ start_tokens chain.config chain.grounds.start }
    ensures leg { IfOk result (λ leg. chain_in leg.0 ≡ second (chain_in chain) turn) }
    ensures supply { IfOk result (λ leg. leg.1 ≡ start_tokens leg.0.config leg.0.grounds.start) }
{
    let outcome = run_over(alloc, chain, supply)?;
    let crossed = cross(alloc, outcome, turn)?;
    Ok((crossed.chain, crossed.supply))
}

/// Of a chain and what follows it the leg that has a height.
fn later_leg(
    alloc: Global,
    chain: ChainRun<ContractCaller>,
    turn: Turn,
    supply: u128,
    height: u64,
) -> Result<Leg, AllocError>
    requires can { CanTurn (chain_in chain) turn }
    requires supply { supply ≡ start_tokens chain.config chain.grounds.start }
    ensures leg { IfOk result (λ leg. chain_in leg.0 ≡ leg_by (chain_in chain) height (Some turn)) }
    ensures supply { IfOk result (λ leg. leg.1 ≡ start_tokens leg.0.config leg.0.grounds.start) }
{
    if is_behind(&chain, height) {
        second_leg(alloc, chain, turn, supply)
    } else {
        Ok((chain, supply))
    }
}

/// The leg of a run that has a height, where this is its first leg.
fn leg_of(alloc: Global, begun: Begun, height: u64) -> Result<Leg, AllocError>
    requires can { (t : Turned) → begun.turn ≡ Some t → CanTurn (chain_in begun.chain) t }
    requires supply { begun.supply ≡ start_tokens begun.chain.config begun.chain.grounds.start }
    ensures leg { IfOk result (λ leg. chain_in leg.0 ≡ leg_by (chain_in begun.chain) height begun.turn) }
    ensures supply { IfOk result (λ leg. leg.1 ≡ start_tokens leg.0.config leg.0.grounds.start) }
{
    let Begun {
        chain,
        turn,
        supply,
    } = begun;
    match turn {
        None => Ok((chain, supply)),
        Some(turn) => later_leg(alloc, chain, turn, supply, height),
    }
}

#[inline(never)]
fn leg_at(alloc: Global, files: ChainFiles, height: u64) -> Result<Leg, AllocError>
    requires sound { IsSoundGenesis files.config files.genesis }
    requires can { CanRun (loaded files) }
    ensures leg { IfOk result (λ leg. chain_in leg.0 ≡ leg_at (loaded files) height) }
    ensures supply { IfOk result (λ leg. leg.1 ≡ start_tokens leg.0.config leg.0.grounds.start) }
{
    let begun = begin(files)?;
    let leg = leg_of(alloc, begun, height)?;
    Ok(leg)
}

/// A height as it counts in a leg.
fn height_in(chain: &ChainRun<ContractCaller>, height: u64) -> u64
    ensures { result ≡ height_in (chain_in chain.now) height }
{
    height.saturating_sub(chain.place(Height(0)).height.0)
}

/// The leg of a run that has a height, before its first chunk, and the height as it counts there.
///
/// # Errors
///
/// Where memory runs out.
pub(crate) fn leg_before(
    alloc: Global,
    files: ChainFiles,
    height: u64,
) -> Result<(Run, u64), AllocError>
    requires sound { IsSoundGenesis files.config files.genesis }
    requires can { CanRun (loaded files) }
    ensures chain { IfOk result (λ leg. chain_of leg.0 ≡ leg_at (loaded files) height) }
    ensures height { IfOk result (λ leg. leg.1 ≡ height_in (leg_at (loaded files) height) height) }
    ensures moment { IfOk result (λ leg. IsMoment leg.0) }
    ensures first { IfOk result (λ leg. leg.0.positions ≡ opening (rules_of (chain_of leg.0))) }
{
    let (chain, _) = leg_at(alloc, files, height)?;
    let within = height_in(&chain, height);
    let core = opened(alloc, chain)?;
    Ok((core, within))
}

/// The same leg, run to its end, and the height as it counts there.
///
/// # Errors
///
/// Where memory runs out.
pub(crate) fn leg_over(
    alloc: Global,
    files: ChainFiles,
    height: u64,
) -> Result<(Outcome<ContractCaller>, u64), AllocError>
    requires sound { IsSoundGenesis files.config files.genesis }
    requires can { CanRun (loaded files) }
    ensures chain { IfOk result (λ leg. chain_in leg.0.chain ≡ leg_at (loaded files) height) }
    ensures height { IfOk result (λ leg. leg.1 ≡ height_in (leg_at (loaded files) height) height) }
{
    let (chain, supply) = leg_at(alloc, files, height)?;
    let within = height_in(&chain, height);
    let outcome = run_over(alloc, chain, supply)?;
    Ok((outcome, within))
}
