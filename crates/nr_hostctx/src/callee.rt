//! The account whose contract runs.

ghost use Rattle.std.specs.Prelude.{◌≡◌, IfOk, OnOk, IsSome, true, false};
ghost use Rattle.std.specs.FinMap.{get};
ghost use Rattle.std.specs.Option.{option_copied};
ghost use Rattle.nr_state.specs.Changes as change;
ghost use Rattle.nr_state.specs.View.{with_world};
ghost use Rattle.nr_state.specs.World.{with_account};
ghost use Rattle.nr_hostctx.specs.Ready.{account_in, IsReady, Spends};

use nr_config::Config;
use nr_records::Account;
use nr_state::{CallContext, ShardState};
use nr_triedef::Store;
use std::alloc::AllocError;

/// The account whose contract runs: the context of the call, its configuration, and the state of its shard.
#[derive(Drop)]
pub(crate) struct Callee<'a, S: Store> {
    pub(crate) state: &'a mut ShardState<S>,
    pub(crate) context: &'a CallContext,
    pub(crate) config: &'a Config,
    // No change was left in the middle.
    pub(crate) whole: bool,
    ghost ready: { whole ≡ true → IsReady state.now config.now context.now.current },
}

impl<'a, S: Store> Callee<'a, S> {
    /// The account stands.
    pub(crate) fn new(
        state: &'a mut ShardState<S>,
        context: &'a CallContext,
        config: &'a Config,
    ) -> Callee<'a, S>
        requires whole { state.old.whole ≡ true }
        requires config { state.old.config ≡ config.now }
        requires stands { IsSome (get state.old.world.accounts context.now.current) }
        ensures state { result.state.now ≡ state.old }
        ensures holds { result.state.ghost_name ≡ state.entry.ghost_name }
        ensures whole { result.whole ≡ true }
        ensures context { result.context.now ≡ context.now }
        ensures config { result.config.now ≡ config.now }
    {
        Callee {
            state,
            context,
            config,
            whole: true,
        }
    }

    /// Whether no change was left in the middle.
    pub(crate) fn whole(&self) -> bool
        ensures { result ≡ self.now.whole }
    {
        self.whole
    }

    /// After this it can't be changed again.
    pub(crate) fn give_up(&mut self)
        ensures whole { self.new.whole ≡ false }
        ensures holds { self.new.state.ghost_name ≡ self.old.state.ghost_name }
    {
        self.whole = false;
    }

    pub(crate) fn account(&self) -> Result<Account, AllocError>
        ensures { IfOk result (λ account. account ≡ account_in self.now.state.now.world self.now.context.now.current) }
    {
        match self.state.account(&self.context.current)? {
            Some(account) => Ok(account),
            None => Err(AllocError),
        }
    }

    /// A datum of the account.
    pub(crate) fn datum(&self, key: &[u8]) -> Result<Option<&[u8]>, AllocError>
        ensures { IfOk result (λ found. option_copied found
            ≡ get self.now.state.now.world.data_of (self.now.context.now.current, key.now)) }
    {
        self.state.datum(&self.context.current, key)
    }

    /// Writes a datum of the account. After want of memory it can't be changed again.
    #[tactic(auto, using(crate::proofs::Standing::with_datum))]
    pub(crate) fn set_datum(&mut self, key: &[u8], value: &[u8]) -> Result<(), AllocError>
        ensures does { OnOk result (self.new.state.now
            ≡ with_world self.old.state.now (change.set_datum self.old.config.now self.old.state.now.world
            self.old.context.now.current key.now value.now)) }
        ensures context { self.new.context.now ≡ self.old.context.now }
        ensures config { self.new.config.now ≡ self.old.config.now }
        ensures holds { self.new.state.ghost_name ≡ self.old.state.ghost_name }
    {
        if !self.whole {
            return Err(AllocError);
        }
        self.whole = false;
        self.state.set_datum(&self.context.current, key, value)?;
        self.whole = true;
        Ok(())
    }

    /// Takes a datum of the account out. After want of memory it can't be changed again.
    #[tactic(auto, using(crate::proofs::Standing::without_datum))]
    pub(crate) fn remove_datum(&mut self, key: &[u8]) -> Result<(), AllocError>
        ensures does { OnOk result (self.new.state.now
            ≡ with_world self.old.state.now (change.removed_datum self.old.config.now self.old.state.now.world
            self.old.context.now.current key.now)) }
        ensures context { self.new.context.now ≡ self.old.context.now }
        ensures config { self.new.config.now ≡ self.old.config.now }
        ensures holds { self.new.state.ghost_name ≡ self.old.state.ghost_name }
    {
        if !self.whole {
            return Err(AllocError);
        }
        self.whole = false;
        self.state.remove_datum(&self.context.current, key)?;
        self.whole = true;
        Ok(())
    }

    #[tactic(auto, using(crate::proofs::Standing::with_itself))]
    fn set_account(&mut self, account: &Account) -> Result<(), AllocError>
        ensures does { OnOk result (self.new.state.now
            ≡ with_world self.old.state.now (with_account self.old.state.now.world self.old.context.now.current
            account.now)) }
        ensures context { self.new.context.now ≡ self.old.context.now }
        ensures config { self.new.config.now ≡ self.old.config.now }
        ensures holds { self.new.state.ghost_name ≡ self.old.state.ghost_name }
    {
        if !self.whole {
            return Err(AllocError);
        }
        self.state.set_account(&self.context.current, account)
    }

    /// Takes tokens from the account; `false` where it hasn't as many. After want of memory it can't be changed
    /// again.
    pub(crate) fn spend(&mut self, tokens: u128) -> Result<bool, AllocError>
        ensures does { Spends result tokens self.old.context.now.current self.old.state.now self.new.state.now }
        ensures context { self.new.context.now ≡ self.old.context.now }
        ensures config { self.new.config.now ≡ self.old.config.now }
        ensures holds { self.new.state.ghost_name ≡ self.old.state.ghost_name }
    {
        let mut account = self.account()?;
        if account.amount < tokens {
            return Ok(false);
        }
        account.amount -= tokens;
        self.set_account(&account)?;
        Ok(true)
    }
}
