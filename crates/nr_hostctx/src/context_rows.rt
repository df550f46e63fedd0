//! The bindings of the context.

ghost use Rattle.std.specs.Prelude.{◌≡◌, ◌+◌};
ghost use Rattle.nr_ids.specs.Keys.{key_bytes};
ghost use Rattle.nr_hostctx.specs.Accounts.{account_of};
ghost use Rattle.nr_hostctx.specs.Acts as act;
ghost use Rattle.nr_hostctx.specs.Acts.{Does};
ghost use Rattle.nr_hostctx.specs.Context as row;
ghost use Rattle.nr_hostctx.specs.State.{Keeps};

use crate::arguments::amount_bytes;
use crate::context::HostContext;
use nr_bytes::Blob;
use nr_fees::GasCounter;
use nr_records::{Account, encode};
use nr_triedef::Store;
use nr_wasmmem::HostStop;

/// The gas that is burnt or promised.
fn used(counter: &GasCounter) -> u64
    ensures { result ≡ counter.now.burnt + counter.now.promised }
{
    let GasCounter {
        burnt,
        promised,
        limit: _,
    } = *counter;
    burnt + promised
}

impl<'a, S: Store> HostContext<'a, S> {
    fn account(&self) -> Result<Account, HostStop>
        ensures { Does result self.now self.now (act.look account_of) }
    {
        match self.callee.account() {
            Ok(account) => Ok(account),
            Err(_) => Err(HostStop::Memory),
        }
    }

    fn signer_key(&self) -> Result<Blob, HostStop>
        ensures { Does result self.now self.now (act.look (λ s. key_bytes s.context.signer_key)) }
    {
        match encode(self.alloc, &self.callee.context.signer_key) {
            Ok(bytes) => Ok(bytes),
            Err(_) => Err(HostStop::Memory),
        }
    }

    #[tactic(auto, unfolding(crate::specs::Context::current_account_id))]
    pub(crate) fn current_account_id(&mut self, reg: u64) -> Result<(), HostStop>
        ensures does { Does result self.old self.new (row.current_account_id reg) }
        ensures keeps { Keeps self.old self.new }
    {
        self.begin()?;
        let context = self.callee.context;
        self.to_register(reg, context.current.bytes())?;
        Ok(())
    }

    #[tactic(auto, unfolding(crate::specs::Context::signer_account_id))]
    pub(crate) fn signer_account_id(&mut self, reg: u64) -> Result<(), HostStop>
        ensures does { Does result self.old self.new (row.signer_account_id reg) }
        ensures keeps { Keeps self.old self.new }
    {
        self.begin()?;
        let context = self.callee.context;
        self.to_register(reg, context.signer.bytes())?;
        Ok(())
    }

    #[tactic(auto, unfolding(crate::specs::Context::predecessor_account_id))]
    pub(crate) fn predecessor_account_id(&mut self, reg: u64) -> Result<(), HostStop>
        ensures does { Does result self.old self.new (row.predecessor_account_id reg) }
        ensures keeps { Keeps self.old self.new }
    {
        self.begin()?;
        let context = self.callee.context;
        self.to_register(reg, context.predecessor.bytes())?;
        Ok(())
    }

    #[tactic(auto, unfolding(crate::specs::Context::signer_account_pk))]
    pub(crate) fn signer_account_pk(&mut self, reg: u64) -> Result<(), HostStop>
        ensures does { Does result self.old self.new (row.signer_account_pk reg) }
        ensures keeps { Keeps self.old self.new }
    {
        self.begin()?;
        let key = self.signer_key()?;
        self.to_register(reg, key.inner())?;
        Ok(())
    }

    #[tactic(auto, unfolding(crate::specs::Context::input))]
    pub(crate) fn input(&mut self, reg: u64) -> Result<(), HostStop>
        ensures does { Does result self.old self.new (row.input reg) }
        ensures keeps { Keeps self.old self.new }
    {
        self.begin()?;
        let context = self.callee.context;
        self.to_register(reg, context.args.inner())?;
        Ok(())
    }

    #[tactic(auto, unfolding(crate::specs::Context::block_index))]
    pub(crate) fn block_index(&mut self) -> Result<u64, HostStop>
        ensures does { Does result self.old self.new row.block_index }
        ensures keeps { Keeps self.old self.new }
    {
        self.begin()?;
        Ok(self.callee.context.height.0)
    }

    #[tactic(auto, unfolding(crate::specs::Context::block_timestamp))]
    pub(crate) fn block_timestamp(&mut self) -> Result<u64, HostStop>
        ensures does { Does result self.old self.new row.block_timestamp }
        ensures keeps { Keeps self.old self.new }
    {
        self.begin()?;
        Ok(self.callee.context.timestamp)
    }

    #[tactic(auto, unfolding(crate::specs::Context::storage_usage))]
    pub(crate) fn storage_usage(&mut self) -> Result<u64, HostStop>
        ensures does { Does result self.old self.new row.storage_usage }
        ensures keeps { Keeps self.old self.new }
    {
        self.begin()?;
        let account = self.account()?;
        Ok(account.storage_usage)
    }

    #[tactic(auto, unfolding(crate::specs::Context::prepaid_gas))]
    pub(crate) fn prepaid_gas(&mut self) -> Result<u64, HostStop>
        ensures does { Does result self.old self.new row.prepaid_gas }
        ensures keeps { Keeps self.old self.new }
    {
        self.begin()?;
        Ok(self.counter.limit)
    }

    #[tactic(auto, unfolding(crate::specs::Context::used_gas))]
    pub(crate) fn used_gas(&mut self) -> Result<u64, HostStop>
        ensures does { Does result self.old self.new row.used_gas }
        ensures keeps { Keeps self.old self.new }
    {
        self.begin()?;
        Ok(used(&self.counter))
    }

    #[tactic(auto, unfolding(crate::specs::Context::account_balance))]
    pub(crate) fn account_balance(&mut self, ptr: u64) -> Result<(), HostStop>
        ensures does { Does result self.old self.new (row.account_balance ptr) }
        ensures keeps { Keeps self.old self.new }
    {
        self.begin()?;
        let account = self.account()?;
        self.to_guest(ptr, &amount_bytes(account.amount))?;
        Ok(())
    }

    #[tactic(auto, unfolding(crate::specs::Context::account_locked_balance))]
    pub(crate) fn account_locked_balance(&mut self, ptr: u64) -> Result<(), HostStop>
        ensures does { Does result self.old self.new (row.account_locked_balance ptr) }
        ensures keeps { Keeps self.old self.new }
    {
        self.begin()?;
        let account = self.account()?;
        self.to_guest(ptr, &amount_bytes(account.locked))?;
        Ok(())
    }

    #[tactic(auto, unfolding(crate::specs::Context::attached_deposit))]
    pub(crate) fn attached_deposit(&mut self, ptr: u64) -> Result<(), HostStop>
        ensures does { Does result self.old self.new (row.attached_deposit ptr) }
        ensures keeps { Keeps self.old self.new }
    {
        self.begin()?;
        let deposit = amount_bytes(self.callee.context.deposit);
        self.to_guest(ptr, &deposit)?;
        Ok(())
    }
}
