//! The bindings by their names.

ghost use Rattle.std.specs.Prelude.{◌≡◌, length};
ghost use Rattle.nr_wasmtypes.specs.Host.{host_type};
ghost use Rattle.nr_hostctx.specs.Acts.{Does};
ghost use Rattle.nr_hostctx.specs.Rows as row;
ghost use Rattle.nr_hostctx.specs.State.{Keeps};

use crate::context::HostContext;
use nr_triedef::Store;
use nr_wasmmem::HostStop;
use nr_wasmtypes::HostFn;

fn none(done: Result<(), HostStop>) -> Result<Option<u64>, HostStop>
    ensures { row.NoNumber done result }
{
    match done {
        Ok(()) => Ok(None),
        Err(stop) => Err(stop),
    }
}

fn some(done: Result<u64, HostStop>) -> Result<Option<u64>, HostStop>
    ensures { row.Number done result }
{
    match done {
        Ok(n) => Ok(Some(n)),
        Err(stop) => Err(stop),
    }
}

impl<'a, S: Store> HostContext<'a, S> {
    /// Answers a call of a binding.
    #[tactic(auto, unfolding(crate::specs::Rows::row))]
    pub(crate) fn answer(&mut self, f: HostFn, args: &[u64]) -> Result<Option<u64>, HostStop>
        requires { length args.now ≡ length (host_type f).params }
        ensures does { Does result self.old self.new (row.row f args.now) }
        ensures keeps { Keeps self.old self.new }
    {
        match f {
            HostFn::ReadRegister => none(self.read_register(args[0], args[1])),
            HostFn::RegisterLen => some(self.register_len(args[0])),
            HostFn::WriteRegister => none(self.write_register(args[0], args[1], args[2])),
            HostFn::CurrentAccountId => none(self.current_account_id(args[0])),
            HostFn::SignerAccountId => none(self.signer_account_id(args[0])),
            HostFn::PredecessorAccountId => none(self.predecessor_account_id(args[0])),
            HostFn::SignerAccountPk => none(self.signer_account_pk(args[0])),
            HostFn::Input => none(self.input(args[0])),
            HostFn::BlockIndex => some(self.block_index()),
            HostFn::BlockTimestamp => some(self.block_timestamp()),
            HostFn::StorageUsage => some(self.storage_usage()),
            HostFn::PrepaidGas => some(self.prepaid_gas()),
            HostFn::UsedGas => some(self.used_gas()),
            HostFn::AccountBalance => none(self.account_balance(args[0])),
            HostFn::AccountLockedBalance => none(self.account_locked_balance(args[0])),
            HostFn::AttachedDeposit => none(self.attached_deposit(args[0])),
            HostFn::Sha256 => none(self.sha256(args[0], args[1], args[2])),
            HostFn::ValueReturn => none(self.value_return(args[0], args[1])),
            HostFn::PanicUtf8 => none(self.panic_utf8(args[0], args[1])),
            HostFn::LogUtf8 => none(self.log_utf8(args[0], args[1])),
            HostFn::Abort => none(self.abort()),
            HostFn::StorageWrite => some(self.storage_write(
                args[0], args[1], args[2], args[3], args[4],
            )),
            HostFn::StorageRead => some(self.storage_read(args[0], args[1], args[2])),
            HostFn::StorageRemove => some(self.storage_remove(args[0], args[1], args[2])),
            HostFn::StorageHasKey => some(self.storage_has_key(args[0], args[1])),
            HostFn::PromiseBatchCreate => some(self.promise_batch_create(args[0], args[1])),
            HostFn::PromiseBatchThen => some(self.promise_batch_then(args[0], args[1], args[2])),
            HostFn::PromiseAnd => some(self.promise_and(args[0], args[1])),
            HostFn::PromiseCreate => some(self.promise_create(
                args[0], args[1], args[2], args[3], args[4], args[5], args[6], args[7],
            )),
            HostFn::PromiseThen => some(self.promise_then(
                args[0], args[1], args[2], args[3], args[4], args[5], args[6], args[7], args[8],
            )),
            HostFn::PromiseBatchActionCreateAccount => none(
                self.promise_batch_action_create_account(args[0]),
            ),
            HostFn::PromiseBatchActionDeployContract => none(
                self.promise_batch_action_deploy_contract(args[0], args[1], args[2]),
            ),
            HostFn::PromiseBatchActionFunctionCall => none(
                self.promise_batch_action_function_call(
                    args[0], args[1], args[2], args[3], args[4], args[5], args[6],
                ),
            ),
            HostFn::PromiseBatchActionTransfer => none(self.promise_batch_action_transfer(
                args[0], args[1],
            )),
            HostFn::PromiseBatchActionAddKeyWithFullAccess => none(
                self.promise_batch_action_add_key_with_full_access(
                    args[0], args[1], args[2], args[3],
                ),
            ),
            HostFn::PromiseBatchActionAddKeyWithFunctionCall => none(
                self.promise_batch_action_add_key_with_function_call(
                    args[0], args[1], args[2], args[3], args[4], args[5], args[6], args[7], args[8],
                ),
            ),
            HostFn::PromiseBatchActionDeleteKey => none(self.promise_batch_action_delete_key(
                args[0], args[1], args[2],
            )),
            HostFn::PromiseBatchActionDeleteAccount => none(
                self.promise_batch_action_delete_account(args[0], args[1], args[2]),
            ),
            HostFn::PromiseResultsCount => some(self.promise_results_count()),
            HostFn::PromiseResult => some(self.promise_result(args[0], args[1])),
            HostFn::PromiseReturn => none(self.promise_return(args[0])),
        }
    }
}
