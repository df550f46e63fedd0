//! A chain of one shard that is cut in two by hand.

ghost use Rattle.std.specs.Prelude.{◌≡◌, ◌+◌, [], ◌∷◌, length, IfOk};
ghost use Rattle.nr_chunk.specs.Starts.{IsSoundStart};
ghost use Rattle.nr_chunk.specs.declared.start.FirstState.TheVariants as first;
ghost use Rattle.nr_state.specs.FromEntries.{AreWholeEntries, world_from};
ghost use Rattle.nr_state.specs.World.{no_world};

use crate::setting::id_of;
use crate::splitting::genesis;
use nr_actions::deposit_refund;
use nr_blocks::{Block, Genesis, read_blocks};
use nr_bytes::List;
use nr_chunk::{ChainRun, ChunkStore, Resumed};
use nr_config::Config;
use nr_contract::ContractCaller;
use nr_ids::{Hash32, Height, ShardId};
use nr_layout::Layout;
use nr_overlap::{Core, run_serially};
use nr_records::{ChunkLine, ChunkResult, Outcome, Receipt, RunStatus};
use nr_state::{Entry, ShardState};
use std::alloc::{AllocError, Global};
use std::test::Fail;

type Run = Core<ChainRun<ContractCaller>>;

/// An account x.alice that has 1, with a full key.
const GENESIS: [u8; 150] = *b"\
    NRG1\0\0\0\0\x02\0\0\0\0\x07\0\0\0x.alice\x01\0\0\0\0\0\0\0\0\0\0\0\0\0\0\0\0\0\0\0\0\0\
    \0\0\0\0\0\0\0\0\0\0\0\0\0\0\0\0\0\0\0\0\0\0\0\0\0\0\0\0\0\0\0\0\0\0\0\0\0\0\0\0\0\0\xb6\
    \0\0\0\0\0\0\0\x02\x07\0\0\0x.alice\0\xb2\xb2\xb2\xb2\xb2\xb2\xb2\xb2\xb2\xb2\xb2\xb2\
    \xb2\xb2\xb2\xb2\xb2\xb2\xb2\xb2\xb2\xb2\xb2\xb2\xb2\xb2\xb2\xb2\xb2\xb2\xb2\xb2\0\0\0\0\
    \0\0\0\0\x01\
";

/// In block 1 she deletes it, and what it had goes to bob, who isn't there. Block 2 has an empty chunk.
const BLOCKS: [u8; 165] = *b"\
    NRB1\x02\0\0\0\x01\0\0\0\0\0\0\0\0\0\0\0\0\0\0\0\x01\0\0\0\x01\x01\0\0\0\x07\0\0\0x.alic\
    e\0\xb2\xb2\xb2\xb2\xb2\xb2\xb2\xb2\xb2\xb2\xb2\xb2\xb2\xb2\xb2\xb2\xb2\xb2\xb2\xb2\xb2\
    \xb2\xb2\xb2\xb2\xb2\xb2\xb2\xb2\xb2\xb2\xb2\x01\0\0\0\0\0\0\0\x07\0\0\0x.alice\0\0\0\0\
    \0\0\0\0\0\0\0\0\0\0\0\0\0\0\0\0\0\0\0\0\0\0\0\0\0\0\0\0\x01\0\0\0\x07\x03\0\0\0bob\x02\
    \0\0\0\0\0\0\0\0\0\0\0\0\0\0\0\x01\0\0\0\x01\0\0\0\0\
";

/// A block with an empty chunk.
const LAST: [u8; 33] = *b"\
    NRB1\x01\0\0\0\x01\0\0\0\0\0\0\0\0\0\0\0\0\0\0\0\x01\0\0\0\x01\0\0\0\0\
";

fn blocks_of(alloc: Global, bytes: &[u8]) -> Result<List<Block>, AllocError> {
    let bytes = Vec::from_slice(alloc, bytes)?;
    read_blocks(alloc, bytes, 1).map_err(|_| AllocError)
}

/// A chain that is run to its end.
fn ended(alloc: Global, chain: ChainRun<ContractCaller>) -> Result<Run, AllocError> {
    let mut core = Core::new(alloc, chain)?;
    run_serially(&mut core)?;
    Ok(core)
}

/// Both blocks over the genesis.
fn whole(alloc: Global) -> Result<Run, AllocError> {
    let config = Config::free();
    let genesis = genesis(alloc, &config, &GENESIS)?;
    let caller = ContractCaller::new(&config);
    let blocks = blocks_of(alloc, &BLOCKS)?;
    ended(alloc, ChainRun::new(config, genesis, blocks, caller))
}

/// The receipt that the first chunk sent last.
fn sent_last(run: &Run) -> Option<Hash32> {
    match run.report(ShardId(0), Height(1))?.lines.inner().last() {
        Some(ChunkLine::Sent { receipt_id, .. }) => Some(*receipt_id),
        _ => None,
    }
}

/// No boundaries.
fn one_shard(alloc: Global, config: &Config) -> Result<Layout, AllocError>
    ensures { IfOk result (λ layout. length layout + 1 ≡ 1) }
{
    let Genesis { layout, .. } = genesis(alloc, config, &GENESIS)?;
    if layout.shards() != 1 {
        return Err(AllocError);
    }
    Ok(layout)
}

/// The trie entries of a world without accounts.
fn no_entries(alloc: Global, config: &Config) -> Result<List<Entry>, AllocError>
    ensures whole { IfOk result AreWholeEntries }
    ensures world { IfOk result (λ entries. world_from entries ≡ no_world) }
{
    let state = ShardState::new(alloc, ChunkStore::new(alloc), config);
    state.entries()
}

/// The worlds of one shard.
fn worlds_of(alloc: Global, entries: List<Entry>) -> Result<List<List<Entry>>, AllocError>
    ensures { IfOk result (λ worlds. worlds ≡ entries ∷ []) }
{
    Ok(List::of(vec![in alloc; entries]?))
}

/// One shard carries one receipt.
fn carried_of(alloc: Global, receipt: Receipt) -> Result<List<List<Receipt>>, AllocError>
    ensures { IfOk result (λ carried. carried ≡ (receipt ∷ []) ∷ []) }
{
    let list = List::of(vec![in alloc; receipt]?);
    Ok(List::of(vec![in alloc; list]?))
}

/// One shard without accounts, whose next chunk takes a refund of 1 with this id.
fn cut(alloc: Global, config: &Config, id: Hash32) -> Result<Resumed, AllocError>
    ensures sound { IfOk result (λ cut. IsSoundStart config.now (first.Resumed cut)) }
    ensures below { IfOk result (λ cut. cut.below ≡ 1) }
{
    let layout = one_shard(alloc, config)?;
    let entries = no_entries(alloc, config)?;
    let bob = id_of(alloc, b"bob")?;
    let refund = deposit_refund(alloc, bob, id, 1)?;
    let worlds = worlds_of(alloc, entries)?;
    let carried = carried_of(alloc, refund)?;
    Ok(Resumed {
        layout,
        below: 1,
        worlds,
        carried,
    })
}

/// The second block, over what the first one leaves.
fn rest(alloc: Global, id: Hash32) -> Result<Run, AllocError> {
    let config = Config::free();
    let caller = ContractCaller::new(&config);
    let blocks = blocks_of(alloc, &LAST)?;
    let cut = cut(alloc, &config, id)?;
    ended(alloc, ChainRun::resume((config, caller), cut, blocks))
}

/// What the second chunk reports: the refund finds no account, and what it brings is burnt.
fn wanted(alloc: Global, id: Hash32) -> Result<ChunkResult, AllocError> {
    let outcome = Outcome {
        receipt_id: id,
        status: RunStatus::Failure {
            index: 0,
            kind: 2,
            part: 0,
        },
        gas: 0,
        burnt: 1,
        logs: List::of(Vec::new(alloc)),
    };
    Ok(ChunkResult {
        height: Height(2),
        shard: ShardId(0),
        root: Hash32([0; 32]),
        gas: 0,
        burnt: 1,
        local: 0,
        lines: List::of(vec![in alloc; ChunkLine::Run(outcome)]?),
    })
}

/// Whether a run has this report of a chunk.
fn reports(run: &Run, height: Height, wanted: &ChunkResult) -> bool {
    match run.report(ShardId(0), height) {
        Some(report) => report == wanted,
        None => false,
    }
}

/// Whether the second chunk is the same in the whole run and behind the cut.
fn is_same(alloc: Global) -> Result<[bool; 2], AllocError> {
    let whole = whole(alloc)?;
    let Some(id) = sent_last(&whole) else {
        return Ok([false; 2]);
    };
    let wanted = wanted(alloc, id)?;
    let rest = rest(alloc, id)?;
    Ok([
        reports(&whole, Height(2), &wanted),
        reports(&rest, Height(1), &wanted),
    ])
}

#[test]
fn a_chain_goes_on_where_it_was_cut(rt: HostRuntime) -> Result<(), Fail> {
    assert_eq!(rt; is_same(rt.alloc())?, [true; 2]);
    Ok(())
}
