//! What a chunk did: its lines, and how its receipts ended.

use nr_bytes::{Blob, List};
use nr_ids::{Hash32, Height, ShardId};

/// How an action receipt ended.
#[derive(Debug, PartialEq, Eq, Drop)]
pub enum RunStatus {
    /// It succeeded with these bytes, which may be none.
    Value(Blob),
    /// It succeeded, and the receipt with this id gives the result in its place.
    Promise(Hash32),
    /// Its action with this index, from 0, failed with the failure of this number. The part says
    /// more where that failure has parts, and is 0 where it has none.
    Failure { index: u32, kind: u32, part: u32 },
    /// It was not run, since another one stands that has its receiver and its id or an input of its.
    Clash,
}

/// What an action receipt did.
#[derive(Debug, PartialEq, Eq, Drop)]
pub struct Outcome {
    pub receipt_id: Hash32,
    pub status: RunStatus,
    /// The gas that was burnt.
    pub gas: u64,
    /// What was burnt of the ledger's supply, in its smallest unit.
    pub burnt: u128,
    /// What its calls logged, in order. A receipt that failed has none.
    pub logs: List<Blob>,
}

/// One thing that happened in a chunk. Receipts go by their id.
#[derive(Debug, PartialEq, Eq, Drop)]
pub enum ChunkLine {
    /// The transaction with this hash became the receipt with this id.
    TxOk {
        hash: Hash32,
        receipt_id: Hash32,
    },
    /// The transaction with this hash was refused, by the refusal of this number. Then come the
    /// refusal's numbers in order, and 0 for each that it lacks.
    TxRefused {
        hash: Hash32,
        number: u32,
        first: u128,
        second: u128,
    },
    /// An action receipt ran, or clashed.
    Run(Outcome),
    /// This action receipt waits for data.
    Postponed(Hash32),
    /// The datum of this receipt was stored, or used at once.
    Received(Hash32),
    /// The datum of this receipt clashed with one that stands.
    Lost(Hash32),
    /// The chunk had no gas left for this receipt, which joined the queue of delayed ones.
    Late(Hash32),
    /// This receipt left for the shard `dest`. The hash is the SHA-256 of its spelling.
    Sent {
        dest: ShardId,
        receipt_id: Hash32,
        hash: Hash32,
    },
}

/// What a chunk did.
#[derive(Debug, PartialEq, Eq, Drop)]
pub struct ChunkResult {
    pub height: Height,
    pub shard: ShardId,
    /// The root of the shard's state behind the chunk.
    pub root: Hash32,
    /// The gas that was burnt, or 2^64 - 1 where it was more.
    pub gas: u64,
    /// What was burnt of the ledger's supply, in its smallest unit.
    pub burnt: u128,
    /// How many of its transactions became a receipt whose signer is its receiver, which no line
    /// tells.
    pub local: u64,
    /// What happened, in order.
    pub lines: List<ChunkLine>,
}
