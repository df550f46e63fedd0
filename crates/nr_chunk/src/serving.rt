//! Receipts that a chunk serves: offered to the state while there is gas, and else delayed.

ghost use Rattle.std.specs.Prelude.{◌≡◌, ◌∷◌, [], IfOk, OnOk, slice_get};
ghost use Rattle.nr_chunk.specs.Chunk.{offered_to, told, late, has_gas, serve, serve_all, serve_delayed};
ghost use Rattle.nr_chunk.specs.Chunk.{without_front};
ghost use Rattle.nr_chunk.specs.Serving.{CanServe, datum_of};
ghost use Rattle.nr_chunk.specs.Works.{working_of, IsReady};
ghost use Rattle.nr_join.specs.Offering.{offer};
ghost use Rattle.nr_records.specs.declared.receipt.Receipt.{Receipt as Receipts};

use crate::chain::ChainRun;
use crate::executing::{clash, run};
use crate::lines::tell;
use crate::state::ChunkStore;
use crate::work::Work;
use nr_bytes::List;
use nr_config::entries::CHUNK_GAS_LIMIT;
use nr_ids::Hash32;
use nr_join::{Offered, delay, next_delayed, offer};
use nr_records::{Body, ChunkLine, Receipt};
use nr_state::Caller;
use std::alloc::{AllocError, Global};

/// Whether the chunk has burnt less than its gas limit.
fn has_gas<C: Caller<ChunkStore>>(work: &Work, chain: &ChainRun<C>) -> bool
    ensures { result ≡ has_gas chain.now.config (working_of work.now) }
{
    work.gas < chain.config.entry(CHUNK_GAS_LIMIT)
}

/// Puts a receipt behind the delayed ones.
fn put_off(alloc: Global, work: &mut Work, receipt: Receipt) -> Result<(), AllocError>
    requires ready { IsReady work.old }
    ensures late { OnOk result (working_of work.new ≡ late (working_of work.old) receipt) }
    ensures ready { OnOk result (IsReady work.new) }
{
    let id = receipt.receipt_id;
    delay(alloc, &mut work.state, receipt)?;
    tell(work, ChunkLine::Late(id))
}

/// Tells of a datum that sets a receipt free.
fn tell_datum(work: &mut Work, datum: Option<Hash32>) -> Result<(), AllocError>
    ensures told { (r : Receipts) → datum ≡ datum_of r r.body
        → OnOk result (working_of work.new ≡ told (working_of work.old) r r.body) }
    ensures state { work.new.state ≡ work.old.state }
{
    if let Some(id) = datum {
        tell(work, ChunkLine::Received(id))?;
    }
    Ok(())
}

/// The id of a datum.
fn datum_of(receipt: &Receipt) -> Option<Hash32>
    ensures { result ≡ datum_of receipt.now receipt.now.body }
{
    match &receipt.body {
        Body::Act(_) => None,
        Body::Datum(_) => Some(receipt.receipt_id),
    }
}

/// Offers a receipt to the state, and does what becomes of it.
fn offer_to<C: Caller<ChunkStore>>(
    alloc: Global,
    work: &mut Work,
    chain: &ChainRun<C>,
    receipt: Receipt,
) -> Result<(), AllocError>
    requires ready { IsReady work.old }
    requires can { CanServe chain.now.config (working_of work.old) (receipt ∷ []) }
    ensures offered { OnOk result (working_of work.new ≡ offered_to chain.now.config (C.meaning chain.now.caller)
        (working_of work.old) receipt (offer work.old.state.world receipt)) }
    ensures ready { OnOk result (IsReady work.new) }
{
    chain.promise();
    let datum = datum_of(&receipt);
    match offer(alloc, &mut work.state, receipt)? {
        Offered::Run { receipt, inputs } => {
            tell_datum(work, datum)?;
            run(alloc, work, chain, receipt, inputs)
        }
        Offered::Postponed(id) => tell(work, ChunkLine::Postponed(id)),
        Offered::Stored(id) => tell(work, ChunkLine::Received(id)),
        Offered::Clash { receipt, .. } => clash(alloc, work, chain, receipt),
    }
}

/// Serves a receipt: offers it where the chunk has gas left, and else puts it behind the delayed ones.
#[tactic(auto, unfolding(crate::specs::Chunk::serve))]
fn serve<C: Caller<ChunkStore>>(
    alloc: Global,
    work: &mut Work,
    chain: &ChainRun<C>,
    receipt: Receipt,
) -> Result<(), AllocError>
    requires ready { IsReady work.old }
    requires can { CanServe chain.now.config (working_of work.old) (receipt ∷ []) }
    ensures served { OnOk result (working_of work.new ≡ serve chain.now.config (C.meaning chain.now.caller)
        (working_of work.old) receipt) }
    ensures ready { OnOk result (IsReady work.new) }
{
    if has_gas(work, chain) {
        offer_to(alloc, work, chain, receipt)
    } else {
        put_off(alloc, work, receipt)
    }
}

/// Serves receipts in order.
pub(crate) fn serve_all<C: Caller<ChunkStore>>(
    alloc: Global,
    work: &mut Work,
    chain: &ChainRun<C>,
    list: List<Receipt>,
) -> Result<(), AllocError>
    requires ready { IsReady work.old }
    requires can { CanServe chain.now.config (working_of work.old) list }
    ensures served { OnOk result (working_of work.new ≡ serve_all chain.now.config (C.meaning chain.now.caller)
        (working_of work.old) list) }
    ensures can { OnOk result (CanServe chain.now.config (working_of work.new) []) }
    ensures ready { OnOk result (IsReady work.new) }
{
    chain.promise();
    for receipt in list.into_inner() {
        serve(alloc, work, chain, receipt)?;
    }
    Ok(())
}

/// Takes the oldest delayed receipt out.
fn take_front(alloc: Global, work: &mut Work) -> Result<Option<Receipt>, AllocError>
    requires ready { IsReady work.old }
    ensures found { IfOk result (λ found. found ≡ slice_get work.old.state.world.delayed 0) }
    ensures taken { OnOk result (working_of work.new
        ≡ without_front (working_of work.old) work.old.state.world.delayed) }
    ensures ready { OnOk result (IsReady work.new) }
{
    let front = next_delayed(alloc, &mut work.state)?;
    Ok(front)
}

/// Serves the delayed receipts, the oldest first, until none is left or the gas is used up.
pub(crate) fn serve_delayed<C: Caller<ChunkStore>>(
    alloc: Global,
    work: &mut Work,
    chain: &ChainRun<C>,
) -> Result<(), AllocError>
    requires ready { IsReady work.old }
    requires can { CanServe chain.now.config (working_of work.old) [] }
    ensures served { OnOk result (working_of work.new ≡ serve_delayed chain.now.config (C.meaning chain.now.caller)
        (working_of work.old)) }
    ensures ready { OnOk result (IsReady work.new) }
{
    chain.promise();
    while has_gas(work, chain) {
        let Some(receipt) = take_front(alloc, work)? else {
            break;
        };
        serve(alloc, work, chain, receipt)?;
    }
    Ok(())
}
