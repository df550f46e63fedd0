//! Opening a chunk: its transactions, the receipts for their own signers, and the delayed queue.

ghost use Rattle.std.specs.Prelude.{◌≡◌, ◌≢◌, ◌+◌, ◌<◌, ◌^◌, [], true, IfOk, OnOk, length};
ghost use Rattle.nr_chunk.specs.Chunk.{begun, with_line, put_aside, is_local, with_converted, convert_next};
ghost use Rattle.nr_chunk.specs.Chunk.{convert_all, open_chunk};
ghost use Rattle.nr_chunk.specs.Refused.{refused};
ghost use Rattle.nr_chunk.specs.Serving.{CanServe};
ghost use Rattle.nr_chunk.specs.Works.{kept_of, working_of, IsReady};
ghost use Rattle.nr_txconvert.specs.Conversion.{transaction_hash};
ghost use Rattle.nr_txconvert.specs.declared.fault.TxFault.TheVariants.{Memory};

use crate::chain::ChainRun;
use crate::executing::spend;
use crate::lines::tell;
use crate::refused::line;
use crate::serving::{serve_all, serve_delayed};
use crate::state::{ChunkStore, State};
use crate::work::Work;
use nr_bytes::{List, Writer};
use nr_ids::{Hash32, ShardId};
use nr_records::{ChunkLine, Receipt, Transaction, hash_in};
use nr_state::{Caller, Place};
use nr_txconvert::{Converted, TxFault, convert_hashed};
use std::alloc::{AllocError, Global};

// Most transactions take fewer bytes.
const ROOM: usize = 256;

fn begin(alloc: Global, state: State, shard: ShardId, place: Place) -> Work
    ensures begun { working_of result ≡ begun (kept_of state) shard place }
    ensures state { result.state ≡ state }
{
    Work {
        state,
        shard,
        place,
        gas: 0,
        burnt: 0,
        local: 0,
        outgoing: Vec::new(alloc),
        lines: Vec::new(alloc),
    }
}

/// Puts a receipt to those for its own signer, or to those that go out.
fn put_aside(
    work: &mut Work,
    is_local: bool,
    local: &mut Vec<Receipt>,
    receipt: Receipt,
) -> Result<(), AllocError>
    requires { work.old.local ≡ length local.old.items }
    ensures aside { OnOk result (record { working = working_of work.new; local = local.new.items }
        ≡ put_aside is_local (working_of work.old) local.old.items receipt) }
    ensures count { OnOk result (work.new.local ≡ length local.new.items) }
    ensures state { work.new.state ≡ work.old.state }
{
    if is_local {
        local.push(receipt)?;
        work.local = local.len() as u64;
    } else {
        work.outgoing.push(receipt)?;
    }
    Ok(())
}

/// Adds the line of a refused transaction.
fn refuse(work: &mut Work, hash: Hash32, fault: TxFault) -> Result<(), AllocError>
    ensures refused { OnOk result (working_of work.new ≡ with_line (working_of work.old) (refused hash fault)) }
    ensures fault { OnOk result (fault ≢ Memory) }
    ensures state { work.new.state ≡ work.old.state }
{
    match fault {
        TxFault::Memory => Err(AllocError),
        fault => tell(work, line(hash, fault)),
    }
}

/// Notes a transaction that became a receipt.
fn note_converted(
    work: &mut Work,
    local: &mut Vec<Receipt>,
    tx: &Transaction,
    hash: Hash32,
    made: Converted,
) -> Result<(), AllocError>
    requires hash { hash ≡ transaction_hash tx.now }
    requires count { work.old.local ≡ length local.old.items }
    requires burnt { work.old.burnt + made.burnt < 2 ^ 128 }
    ensures noted { OnOk result (record { working = working_of work.new; local = local.new.items }
        ≡ put_aside (is_local tx.now) (with_converted (working_of work.old) tx.now work.old.state.world made)
        local.old.items made.receipt) }
    ensures count { OnOk result (work.new.local ≡ length local.new.items) }
    ensures state { work.new.state ≡ work.old.state }
{
    let receipt_id = made.receipt.receipt_id;
    spend(work, made.gas);
    work.burnt += made.burnt;
    tell(work, ChunkLine::TxOk { hash, receipt_id })?;
    put_aside(work, tx.signer == tx.receiver, local, made.receipt)
}

/// Converts a transaction. It is spelled in a writer that is used again.
fn convert_next<C: Caller<ChunkStore>>(
    alloc: Global,
    work: &mut Work,
    chain: &ChainRun<C>,
    local: &mut Vec<Receipt>,
    spelled: &mut Writer,
    tx: &Transaction,
) -> Result<(), AllocError>
    requires ready { IsReady work.old }
    requires count { work.old.local ≡ length local.old.items }
    requires can { CanServe chain.now.config (working_of work.old) local.old.items }
    ensures converted { OnOk result (record { working = working_of work.new; local = local.new.items }
        ≡ convert_next chain.now.config (record { working = working_of work.old; local = local.old.items }) tx.now) }
    ensures count { OnOk result (work.new.local ≡ length local.new.items) }
    ensures ready { OnOk result (IsReady work.new) }
{
    chain.pays();
    let hash = hash_in(spelled, tx)?;
    match convert_hashed(
        alloc,
        &mut work.state,
        &chain.config,
        tx,
        &hash,
        &work.place,
    ) {
        Ok(made) => note_converted(work, local, tx, hash, made)?,
        Err(fault) => refuse(work, hash, fault)?,
    }
    Ok(())
}

/// Converts the transactions in order, and gives the receipts for their own signers.
fn convert_all<C: Caller<ChunkStore>>(
    alloc: Global,
    work: &mut Work,
    chain: &ChainRun<C>,
    txs: &[Transaction],
) -> Result<Vec<Receipt>, AllocError>
    requires ready { IsReady work.old }
    requires fresh { work.old.local ≡ 0 }
    requires can { CanServe chain.now.config (working_of work.old) [] }
    requires price { work.old.place.price < 2 ^ 64 }
    ensures converted { IfOk result (λ local. record { working = working_of work.new; local = local.items }
        ≡ convert_all chain.now.config (working_of work.old) txs.now) }
    ensures can { IfOk result (λ local. CanServe chain.now.config (working_of work.new) local.items) }
    ensures ready { OnOk result (IsReady work.new) }
{
    chain.pays();
    let mut local = Vec::new(alloc);
    let mut spelled = Writer::with_room(alloc, txs.len().min(1) * ROOM)?;
    for tx in txs {
        convert_next(alloc, work, chain, &mut local, &mut spelled, tx)?;
    }
    Ok(local)
}

/// Opens a chunk on a state.
///
/// # Errors
///
/// Where there is no memory.
pub(crate) fn open<C: Caller<ChunkStore>>(
    alloc: Global,
    chain: &ChainRun<C>,
    state: State,
    shard: ShardId,
    place: Place,
    txs: &[Transaction],
) -> Result<Work, AllocError>
    requires whole { state.whole ≡ true }
    requires marks { state.marks ≡ [] }
    requires can { CanServe chain.now.config (begun (kept_of state) shard place) [] }
    ensures opened { IfOk result (λ work. working_of work
        ≡ open_chunk chain.now.config (C.meaning chain.now.caller) (begun (kept_of state) shard place) txs.now) }
    ensures ready { IfOk result IsReady }
{
    chain.promise();
    let mut work = begin(alloc, state, shard, place);
    let local = convert_all(alloc, &mut work, chain, txs)?;
    serve_all(alloc, &mut work, chain, List::of(local))?;
    serve_delayed(alloc, &mut work, chain)?;
    Ok(work)
}
