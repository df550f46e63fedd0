//! The numbers of the entries that are no fee, and of the first fee.

/// Tokens for one gas, where nothing else sets the price.
pub const GAS_PRICE: u32 = 1;

/// Tokens that an account holds for each byte of its storage.
pub const STORAGE_PRICE: u32 = 2;

/// The burnt gas at which a chunk begins no further receipt.
pub const CHUNK_GAS_LIMIT: u32 = 3;

/// Gas for one instruction of a contract.
pub const REGULAR_OP_COST: u32 = 4;

/// The most actions in a transaction.
pub const MAX_ACTIONS: u32 = 5;

/// The most gas that a transaction attaches to its calls.
pub const MAX_PREPAID_GAS: u32 = 6;

/// Bytes that an account is counted as by itself.
pub const ACCOUNT_BYTES: u32 = 7;

/// Bytes that an access key or a datum is counted as beside its own.
pub const EXTRA_RECORD_BYTES: u32 = 8;

/// Bytes: `registrar` alone makes an account whose id has no dot and is shorter.
pub const TOP_LEVEL_MIN_LEN: u32 = 9;

/// Bytes of storage, code left out, up to which an account may be deleted.
pub const DELETE_STATE_LIMIT: u32 = 10;

/// The part of the gas burnt by calls that is a reward, over `REWARD_DENOMINATOR`.
pub const REWARD_NUMERATOR: u32 = 11;

/// The whole of which `REWARD_NUMERATOR` is a part.
pub const REWARD_DENOMINATOR: u32 = 12;

/// The most bytes of a contract.
pub const MAX_CODE: u32 = 13;

/// The most pages of a contract's memory, 65,536 bytes each.
pub const MAX_PAGES: u32 = 14;

/// The most frames of a running contract.
pub const MAX_CALL_DEPTH: u32 = 15;

/// The most operands and locals of a running contract.
pub const MAX_STACK_VALUES: u32 = 16;

/// The most registers of a call.
pub const MAX_REGISTERS: u32 = 17;

/// The most bytes of one register.
pub const MAX_REGISTER_BYTES: u32 = 18;

/// The most bytes of all registers of a call.
pub const MAX_ALL_REGISTER_BYTES: u32 = 19;

/// The most texts that a call logs.
pub const MAX_LOGS: u32 = 20;

/// The most bytes of all texts that a call logs.
pub const MAX_LOG_BYTES: u32 = 21;

/// The most bytes of a datum's key.
pub const MAX_KEY_BYTES: u32 = 22;

/// The most bytes of a datum's value.
pub const MAX_VALUE_BYTES: u32 = 23;

/// The most bytes that a call returns.
pub const MAX_RETURN_BYTES: u32 = 24;

/// The most promises of a call.
pub const MAX_PROMISES: u32 = 25;

/// Gas for loading a contract.
pub const LOAD_BASE: u32 = 26;

/// Gas for each byte of a contract that is loaded.
pub const LOAD_BYTE: u32 = 27;

/// Gas for each call of a host function.
pub const HOST_BASE: u32 = 28;

/// Gas for each byte that passes between a contract and its host.
pub const HOST_BYTE: u32 = 29;

/// Gas for each use of storage.
pub const STORAGE_BASE: u32 = 30;

/// Gas for each byte of a key or a value in storage.
pub const STORAGE_BYTE: u32 = 31;

/// Gas for a SHA-256.
pub const SHA_BASE: u32 = 32;

/// Gas for each byte of which the SHA-256 is taken.
pub const SHA_BYTE: u32 = 33;

/// The first fee. Each of the 14 fees has three entries: for sending to oneself, for sending to
/// another, and for executing.
pub const FIRST_FEE: u32 = 34;
