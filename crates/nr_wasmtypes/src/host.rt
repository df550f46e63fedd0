//! The functions of the host, which a module imports from `env`.

ghost use Rattle.std.specs.Prelude.{◌≡◌, ◌≢◌, length, replicate, IfSome, None};
ghost use Rattle.nr_wasmtypes.specs.Host.{host_name, host_type, host_named, host_functions};

use crate::instr::ValType;

/// A function of the host, after the Nomicon's bindings. `name` is how a module imports it.
#[derive(Clone, Copy, Debug, PartialEq, Eq)]
pub enum HostFn {
    ReadRegister,
    RegisterLen,
    WriteRegister,
    CurrentAccountId,
    SignerAccountId,
    PredecessorAccountId,
    SignerAccountPk,
    Input,
    BlockIndex,
    BlockTimestamp,
    StorageUsage,
    PrepaidGas,
    UsedGas,
    AccountBalance,
    AccountLockedBalance,
    AttachedDeposit,
    Sha256,
    ValueReturn,
    PanicUtf8,
    LogUtf8,
    Abort,
    StorageWrite,
    StorageRead,
    StorageRemove,
    StorageHasKey,
    PromiseBatchCreate,
    PromiseBatchThen,
    PromiseAnd,
    PromiseCreate,
    PromiseThen,
    PromiseBatchActionCreateAccount,
    PromiseBatchActionDeployContract,
    PromiseBatchActionFunctionCall,
    PromiseBatchActionTransfer,
    PromiseBatchActionAddKeyWithFullAccess,
    PromiseBatchActionAddKeyWithFunctionCall,
    PromiseBatchActionDeleteKey,
    PromiseBatchActionDeleteAccount,
    PromiseResultsCount,
    PromiseResult,
    PromiseReturn,
}

static HOST_FUNCTIONS: [HostFn; 41] = [
    HostFn::ReadRegister,
    HostFn::RegisterLen,
    HostFn::WriteRegister,
    HostFn::CurrentAccountId,
    HostFn::SignerAccountId,
    HostFn::PredecessorAccountId,
    HostFn::SignerAccountPk,
    HostFn::Input,
    HostFn::BlockIndex,
    HostFn::BlockTimestamp,
    HostFn::StorageUsage,
    HostFn::PrepaidGas,
    HostFn::UsedGas,
    HostFn::AccountBalance,
    HostFn::AccountLockedBalance,
    HostFn::AttachedDeposit,
    HostFn::Sha256,
    HostFn::ValueReturn,
    HostFn::PanicUtf8,
    HostFn::LogUtf8,
    HostFn::Abort,
    HostFn::StorageWrite,
    HostFn::StorageRead,
    HostFn::StorageRemove,
    HostFn::StorageHasKey,
    HostFn::PromiseBatchCreate,
    HostFn::PromiseBatchThen,
    HostFn::PromiseAnd,
    HostFn::PromiseCreate,
    HostFn::PromiseThen,
    HostFn::PromiseBatchActionCreateAccount,
    HostFn::PromiseBatchActionDeployContract,
    HostFn::PromiseBatchActionFunctionCall,
    HostFn::PromiseBatchActionTransfer,
    HostFn::PromiseBatchActionAddKeyWithFullAccess,
    HostFn::PromiseBatchActionAddKeyWithFunctionCall,
    HostFn::PromiseBatchActionDeleteKey,
    HostFn::PromiseBatchActionDeleteAccount,
    HostFn::PromiseResultsCount,
    HostFn::PromiseResult,
    HostFn::PromiseReturn,
];

/// All of them.
fn host_functions() -> &'static [HostFn; 41]
    ensures { result.now ≡ host_functions }
{
    &HOST_FUNCTIONS
}

impl HostFn {
    /// The function of this name, if there is one.
    pub fn of_name(name: &[u8]) -> Option<HostFn>
        ensures named { result ≡ host_named name.now }
        ensures found { IfSome result (λ f. host_name f ≡ name.now) }
        ensures unknown { result ≡ None → (f : HostFn) → host_name f ≢ name.now }
    {
        for f in host_functions() {
            if f.name().as_bytes() == name {
                return Some(*f);
            }
        }
        None
    }

    /// The name by which it is imported.
    pub fn name(&self) -> &'static str
        ensures { result.now ≡ host_name self.now }
    {
        match *self {
            HostFn::ReadRegister => "read_register",
            HostFn::RegisterLen => "register_len",
            HostFn::WriteRegister => "write_register",
            HostFn::CurrentAccountId => "current_account_id",
            HostFn::SignerAccountId => "signer_account_id",
            HostFn::PredecessorAccountId => "predecessor_account_id",
            HostFn::SignerAccountPk => "signer_account_pk",
            HostFn::Input => "input",
            HostFn::BlockIndex => "block_index",
            HostFn::BlockTimestamp => "block_timestamp",
            HostFn::StorageUsage => "storage_usage",
            HostFn::PrepaidGas => "prepaid_gas",
            HostFn::UsedGas => "used_gas",
            HostFn::AccountBalance => "account_balance",
            HostFn::AccountLockedBalance => "account_locked_balance",
            HostFn::AttachedDeposit => "attached_deposit",
            HostFn::Sha256 => "sha256",
            HostFn::ValueReturn => "value_return",
            HostFn::PanicUtf8 => "panic_utf8",
            HostFn::LogUtf8 => "log_utf8",
            HostFn::Abort => "abort",
            HostFn::StorageWrite => "storage_write",
            HostFn::StorageRead => "storage_read",
            HostFn::StorageRemove => "storage_remove",
            HostFn::StorageHasKey => "storage_has_key",
            HostFn::PromiseBatchCreate => "promise_batch_create",
            HostFn::PromiseBatchThen => "promise_batch_then",
            HostFn::PromiseAnd => "promise_and",
            HostFn::PromiseCreate => "promise_create",
            HostFn::PromiseThen => "promise_then",
            HostFn::PromiseBatchActionCreateAccount => "promise_batch_action_create_account",
            HostFn::PromiseBatchActionDeployContract => "promise_batch_action_deploy_contract",
            HostFn::PromiseBatchActionFunctionCall => "promise_batch_action_function_call",
            HostFn::PromiseBatchActionTransfer => "promise_batch_action_transfer",
            HostFn::PromiseBatchActionAddKeyWithFullAccess =>
                "promise_batch_action_add_key_with_full_access",
            HostFn::PromiseBatchActionAddKeyWithFunctionCall =>
                "promise_batch_action_add_key_with_function_call",
            HostFn::PromiseBatchActionDeleteKey => "promise_batch_action_delete_key",
            HostFn::PromiseBatchActionDeleteAccount => "promise_batch_action_delete_account",
            HostFn::PromiseResultsCount => "promise_results_count",
            HostFn::PromiseResult => "promise_result",
            HostFn::PromiseReturn => "promise_return",
        }
    }

    /// How many parameters it has.
    pub fn params(&self) -> usize
        ensures { result ≡ length (host_type self.now).params }
    {
        match *self {
            HostFn::BlockIndex
            | HostFn::BlockTimestamp
            | HostFn::StorageUsage
            | HostFn::PrepaidGas
            | HostFn::UsedGas
            | HostFn::PromiseResultsCount => 0,
            HostFn::RegisterLen
            | HostFn::CurrentAccountId
            | HostFn::SignerAccountId
            | HostFn::PredecessorAccountId
            | HostFn::SignerAccountPk
            | HostFn::Input
            | HostFn::AccountBalance
            | HostFn::AccountLockedBalance
            | HostFn::AttachedDeposit
            | HostFn::PromiseBatchActionCreateAccount
            | HostFn::PromiseReturn => 1,
            HostFn::ReadRegister
            | HostFn::ValueReturn
            | HostFn::PanicUtf8
            | HostFn::LogUtf8
            | HostFn::StorageHasKey
            | HostFn::PromiseBatchCreate
            | HostFn::PromiseAnd
            | HostFn::PromiseBatchActionTransfer
            | HostFn::PromiseResult => 2,
            HostFn::WriteRegister
            | HostFn::Sha256
            | HostFn::StorageRead
            | HostFn::StorageRemove
            | HostFn::PromiseBatchThen
            | HostFn::PromiseBatchActionDeployContract
            | HostFn::PromiseBatchActionDeleteKey
            | HostFn::PromiseBatchActionDeleteAccount => 3,
            HostFn::Abort | HostFn::PromiseBatchActionAddKeyWithFullAccess => 4,
            HostFn::StorageWrite => 5,
            HostFn::PromiseBatchActionFunctionCall => 7,
            HostFn::PromiseCreate => 8,
            HostFn::PromiseThen | HostFn::PromiseBatchActionAddKeyWithFunctionCall => 9,
        }
    }

    /// The type of each of its parameters.
    pub fn param(&self) -> ValType
        ensures { (host_type self.now).params ≡ replicate (length (host_type self.now).params) result }
    {
        match *self {
            HostFn::Abort => ValType::I32,
            _ => ValType::I64,
        }
    }

    /// The type of its result, if it has one.
    pub fn result(&self) -> Option<ValType>
        ensures { result ≡ (host_type self.now).result }
    {
        match *self {
            HostFn::RegisterLen
            | HostFn::BlockIndex
            | HostFn::BlockTimestamp
            | HostFn::StorageUsage
            | HostFn::PrepaidGas
            | HostFn::UsedGas
            | HostFn::StorageWrite
            | HostFn::StorageRead
            | HostFn::StorageRemove
            | HostFn::StorageHasKey
            | HostFn::PromiseBatchCreate
            | HostFn::PromiseBatchThen
            | HostFn::PromiseAnd
            | HostFn::PromiseCreate
            | HostFn::PromiseThen
            | HostFn::PromiseResultsCount
            | HostFn::PromiseResult => Some(ValType::I64),
            _ => None,
        }
    }
}
