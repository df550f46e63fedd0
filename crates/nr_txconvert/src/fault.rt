//! The ten refusals of a transaction.

ghost use Rattle.std.specs.Prelude.{◌≡◌};
ghost use Rattle.nr_txconvert.specs.declared.fault.TxFault.TheVariants.{Memory};

use std::alloc::AllocError;
use thiserror::Error;

/// Why a transaction becomes no receipt. The refusals are tried in this order. Tokens are in the
/// ledger's smallest unit.
#[derive(Clone, Copy, Debug, PartialEq, Eq, Error)]
pub enum TxFault {
    /// The signer has no account here.
    #[error("the signer has no account")]
    NoSigner,
    /// The signer has no such key.
    #[error("the signer has no such key")]
    NoKey,
    /// The transaction's nonce is at most the key's.
    #[error("the nonce {tx} is at most the key's, {key}")]
    Nonce { key: u64, tx: u64 },
    /// There are more actions than the configuration allows.
    #[error("there are too many actions")]
    TooManyActions,
    /// The gas attached to calls is more than the configuration allows.
    #[error("the attached gas is too large")]
    GasTooLarge,
    /// A key for calls forbids it. Part 1: the actions aren't one call and nothing else. Part 2: the
    /// call has a deposit. Part 3: the receiver is another one than the key's. Part 4: the key names
    /// methods, and this is none of them.
    #[error("the key forbids it, part {part}")]
    KeyForbids { part: u32 },
    /// The gas doesn't fit in 64 bits, or the whole cost in 128.
    #[error("the cost is too large")]
    CostOverflow,
    /// The key's allowance is below the cost of the gas.
    #[error("the allowance {has} is below the cost of the gas, {needs}")]
    Allowance { has: u128, needs: u128 },
    /// The signer has less than the whole cost.
    #[error("the balance {has} is below the cost, {needs}")]
    Balance { has: u128, needs: u128 },
    /// What the signer would be left with, locked tokens included, is less than its storage asks for.
    #[error("what is left, {has}, is below what the storage asks for, {needs}")]
    StorageStake { has: u128, needs: u128 },
    /// Memory ran out.
    #[error("memory ran out")]
    Memory,
}

impl From<AllocError> for TxFault {
    ghost from_gives = { λ _ e. e ≡ Memory };

    fn from(_fault: AllocError) -> TxFault {
        TxFault::Memory
    }
}
