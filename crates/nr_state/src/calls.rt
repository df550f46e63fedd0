//! Calls of contracts.

ghost use Rattle.std.specs.Prelude.{◌≡◌, ◌≤◌, true, length};

use crate::state::ShardState;
use nr_bytes::{Blob, List, Text};
use nr_ids::{AccountId, Hash32, Height, PublicKey};
use nr_records::{DataReceiver, Receipt};
use nr_triedef::Store;
use std::alloc::Global;

/// What a contract is called with.
#[derive(Debug, PartialEq, Eq, Drop)]
pub struct CallContext {
    /// The account whose contract runs.
    pub current: AccountId,
    /// The account that made the receipt.
    pub predecessor: AccountId,
    /// The account whose transaction the receipt goes back to.
    pub signer: AccountId,
    /// The key that signed that transaction.
    pub signer_key: PublicKey,
    /// The name of the function.
    pub method: Text,
    pub args: Blob,
    /// Tokens that came with the call. The current account has them already.
    pub deposit: u128,
    /// The gas that the call can burn or promise.
    pub gas: u64,
    /// Tokens for a unit of gas.
    pub gas_price: u128,
    /// The data that the receipt waited for, in order; `None` for a receipt that failed.
    pub inputs: List<Option<Blob>>,
    /// Who gets the result, in order.
    pub outputs: List<DataReceiver>,
    pub receipt_id: Hash32,
    /// The number of the next id that is drawn from `receipt_id`.
    pub next_ordinal: u64,
    /// The height of the block, from 1.
    pub height: Height,
    /// The time of the block, in nanoseconds.
    pub timestamp: u64,
}

/// How a call ended.
#[derive(Debug, PartialEq, Eq, Drop)]
pub struct CallEnd {
    pub burnt: u64,
    /// The prepaid gas of the receipts made.
    pub promised: u64,
    pub returned: Returned,
    /// The receipts made, in order.
    pub made: List<Receipt>,
    /// The number of the next id that is drawn from the receipt's id.
    pub next_ordinal: u64,
    /// The texts that the contract logged, in order.
    pub logs: List<Blob>,
}

/// What a call returned.
#[derive(Debug, PartialEq, Eq, Drop)]
pub enum Returned {
    /// Bytes; empty where it returned nothing.
    Value(Blob),
    /// The result of a receipt made, by that receipt's id.
    Promise(Hash32),
}

/// Why a call stopped.
#[derive(Clone, Copy, Debug, PartialEq, Eq)]
pub enum CallStop {
    /// It failed: the number of the failure, its part (0 where it has none), and the gas burnt.
    Failed { kind: u32, part: u32, burnt: u64 },
    /// There was no memory for it.
    Memory,
}

/// Runs contracts, under one configuration.
pub trait Caller<S: Store> {
    ghost use Rattle.nr_config.specs.Config.{Config};
    ghost use Rattle.nr_state.specs.Calls.{Called, CanCall, Answers, Leaves, IsCaller};
    ghost use Rattle.nr_state.specs.Local.{IsLocal};
    ghost use Rattle.nr_state.specs.World.{World};
    ghost use Rattle.nr_state.specs.declared.calls.CallContext.{CallContext};

    /// The configuration that it was made for.
    ghost config: { Self → Config };

    /// What a call comes to in a world.
    ghost meaning: { Self → World → CallContext → Called };

    /// Runs the code of the current account.
    ///
    /// # Errors
    ///
    /// Where the call fails: the world is then as it was. Where memory runs out: of the state
    /// nothing is said then.
    fn call(
        &self,
        alloc: Global,
        state: &mut ShardState<S>,
        context: &CallContext,
    ) -> Result<CallEnd, CallStop>
        requires whole { state.old.whole ≡ true }
        requires config { state.old.config ≡ config self.now }
        requires callable { CanCall state.old.world context.now }
        requires marks { length state.old.marks ≤ 7 }
        ensures answers { Answers result state.old state.new (meaning self.now state.old.world context.now) }
        ensures leaves { Leaves result state.old state.new };

    /// What every caller promises.
    ghost law: { (caller : Self) → IsCaller (config caller) (meaning caller) };

    /// A call looks at nothing but the current account, its code and its data, and changes nothing else.
    ghost local: { (caller : Self) → IsLocal (meaning caller) };
}
