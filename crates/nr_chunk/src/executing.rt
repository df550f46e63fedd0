//! A receipt of actions in a chunk: executed, or settled where it clashes.

ghost use Rattle.std.specs.Prelude.{◌≡◌, ◌+◌, ◌<◌, ◌^◌, ◌∷◌, [], true, OnOk};
ghost use Rattle.nr_chunk.specs.Chunk.{spent, with_executed, run, clashed};
ghost use Rattle.nr_chunk.specs.Serving.{CanServe};
ghost use Rattle.nr_chunk.specs.Works.{working_of, IsReady};
ghost use Rattle.nr_state.specs.Queues.{is_act};

use crate::chain::ChainRun;
use crate::lines::tell;
use crate::state::ChunkStore;
use crate::work::Work;
use nr_bytes::{Blob, List};
use nr_receipt::{Executed, execute, settle_clash};
use nr_records::{Body, ChunkLine, Receipt};
use nr_state::Caller;
use std::alloc::{AllocError, Global};

/// Gas stays at 2^64 - 1 where it would be more.
pub(crate) fn spend(work: &mut Work, gas: u64)
    ensures { work.new ≡ record work.old { gas = spent work.old.gas gas } }
{
    work.gas = work.gas.saturating_add(gas);
}

/// Notes what a receipt did, and puts what it made to what goes out.
fn note(work: &mut Work, executed: Executed) -> Result<(), AllocError>
    requires { work.old.burnt + executed.outcome.burnt < 2 ^ 128 }
    ensures noted { OnOk result (working_of work.new
        ≡ with_executed (working_of work.old) work.old.state.world executed) }
    ensures state { work.new.state ≡ work.old.state }
{
    spend(work, executed.outcome.gas);
    work.burnt += executed.outcome.burnt;
    work.outgoing.append(&mut executed.made.into_inner())?;
    work.lines.push(ChunkLine::Run(executed.outcome))?;
    Ok(())
}

/// Executes a receipt of actions that has its data.
pub(crate) fn run<C: Caller<ChunkStore>>(
    alloc: Global,
    work: &mut Work,
    chain: &ChainRun<C>,
    receipt: Receipt,
    inputs: List<Option<Blob>>,
) -> Result<(), AllocError>
    requires ready { IsReady work.old }
    requires action { is_act receipt.body ≡ true }
    requires can { CanServe chain.now.config (working_of work.old) (receipt ∷ []) }
    ensures run { OnOk result (working_of work.new ≡ run chain.now.config (C.meaning chain.now.caller)
        (working_of work.old) receipt receipt.body inputs) }
    ensures ready { OnOk result (IsReady work.new) }
{
    chain.promise();
    let executed = execute(
        alloc,
        &mut work.state,
        &chain.config,
        receipt,
        inputs,
        &work.place,
        &chain.caller,
    )?;
    note(work, executed)
}

/// Settles a receipt of actions that clashes, and loses a datum that does.
pub(crate) fn clash<C: Caller<ChunkStore>>(
    alloc: Global,
    work: &mut Work,
    chain: &ChainRun<C>,
    receipt: Receipt,
) -> Result<(), AllocError>
    requires ready { IsReady work.old }
    requires can { CanServe chain.now.config (working_of work.old) (receipt ∷ []) }
    ensures clashed { OnOk result (working_of work.new
        ≡ clashed chain.now.config (working_of work.old) receipt receipt.body) }
    ensures ready { OnOk result (IsReady work.new) }
{
    if let Body::Datum(_) = &receipt.body {
        return tell(work, ChunkLine::Lost(receipt.receipt_id));
    }
    chain.promise();
    let executed = settle_clash(alloc, &mut work.state, &chain.config, receipt, &work.place)?;
    note(work, executed)
}
