//! Sealing a chunk: its root, its result, and a list for each shard.

ghost use Rattle.std.specs.Prelude.{◌≡◌, ◌++◌, true, IfOk, map, length, ◌+◌};
ghost use Rattle.nr_chunk.specs.Chunk.{sent, result_of};
ghost use Rattle.nr_chunk.specs.Works.{working_of};
ghost use Rattle.nr_layout.specs.Layout.{parts};

use crate::root::root_of;
use crate::state::State;
use crate::work::Work;
use nr_bytes::{List, Writer};
use nr_layout::Layout;
use nr_records::{ChunkLine, ChunkResult, Receipt, hash_in};
use std::alloc::{AllocError, Global};

// Most receipts take fewer bytes.
const ROOM: usize = 256;

/// What a seal leaves.
#[derive(Drop)]
pub(crate) struct Sealed {
    pub(crate) state: State,
    pub(crate) result: ChunkResult,
    /// The receipts for each shard, in order.
    pub(crate) lists: List<List<Receipt>>,
}

#[tactic(auto, unfolding(crate::specs::Chunk::sent))]
fn sent_line(
    spelled: &mut Writer,
    layout: &Layout,
    receipt: &Receipt,
) -> Result<ChunkLine, AllocError>
    ensures { IfOk result (λ line. line ≡ sent layout.now receipt.now) }
{
    Ok(ChunkLine::Sent {
        dest: layout.shard_of(&receipt.receiver),
        receipt_id: receipt.receipt_id,
        hash: hash_in(spelled, receipt)?,
    })
}

/// The lines, and then one for each receipt that goes out. Each is spelled in the same memory.
fn with_sent(
    alloc: Global,
    layout: &Layout,
    lines: Vec<ChunkLine>,
    outgoing: &[Receipt],
) -> Result<Vec<ChunkLine>, AllocError>
    ensures { IfOk result (λ all. all.items ≡ lines.items ++ map (sent layout.now) outgoing.now) }
{
    let mut all = lines;
    let mut spelled = Writer::with_room(alloc, outgoing.len().min(1) * ROOM)?;
    for receipt in outgoing {
        all.push(sent_line(&mut spelled, layout, receipt)?)?;
    }
    Ok(all)
}

/// Seals a chunk.
///
/// # Errors
///
/// Where there is no memory.
pub(crate) fn seal(alloc: Global, layout: &Layout, work: Work) -> Result<Sealed, AllocError>
    requires whole { work.state.whole ≡ true }
    ensures result { IfOk result (λ sealed. sealed.result ≡ result_of layout.now (working_of work)) }
    ensures state { IfOk result (λ sealed. sealed.state ≡ work.state) }
    ensures lists { IfOk result (λ sealed. sealed.lists
        ≡ parts layout.now (length layout.now + 1) work.outgoing.items) }
{
    let mut state = work.state;
    let root = root_of(&mut state)?;
    let lines = with_sent(alloc, layout, work.lines, &work.outgoing)?;
    let result = ChunkResult {
        height: work.place.height,
        shard: work.shard,
        root,
        gas: work.gas,
        burnt: work.burnt,
        local: work.local,
        lines: List::of(lines),
    };
    let lists = layout.route(alloc, List::of(work.outgoing))?;
    Ok(Sealed {
        state,
        result,
        lists,
    })
}
