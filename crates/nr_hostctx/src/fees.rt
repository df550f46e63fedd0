//! What a call pays for what it sends.

ghost use Rattle.std.specs.Prelude.{◌≡◌, ◌*◌};
ghost use Rattle.nr_fees.specs.Fees.{FitsIn, fee};
ghost use Rattle.nr_hostctx.specs.Costs.{is_local, sending, both_fees};
ghost use Rattle.nr_hostctx.specs.Logs.{output_cost, outputs_cost};
ghost use Rattle.nr_hostctx.specs.State.{state_of};

use crate::context::HostContext;
use nr_config::Config;
use nr_config::entries::HOST_BASE;
use nr_fees::{Fee, Payment, fee_of};
use nr_ids::AccountId;
use nr_records::DataReceiver;
use nr_triedef::Store;

/// What is paid for sending, to oneself or to another.
pub(crate) fn sending(local: bool) -> Payment
    ensures { result ≡ sending local }
{
    if local {
        Payment::SendLocal
    } else {
        Payment::SendRemote
    }
}

/// A fee for sending and for executing.
pub(crate) fn both_fees(config: &Config, local: bool, which: Fee) -> u64
    ensures { result ≡ both_fees config.now local which }
{
    let _cost = config.entry(HOST_BASE);
    fee_of(config, sending(local), which) + fee_of(config, Payment::Execute, which)
}

/// What so many bytes cost for one output of the receipt.
#[tactic(auto, unfolding(crate::specs::Logs::output_cost))]
fn output_cost(config: &Config, current: &AccountId, output: &DataReceiver, count: u64) -> u128
    ensures { result ≡ output_cost config.now current.now count output.now }
{
    let each = both_fees(config, &output.receiver == current, Fee::DataByte);
    u128::from(each) * u128::from(count)
}

/// What so many bytes cost for all outputs of the receipt; `None` where that is 2^128 or more.
pub(crate) fn outputs_cost(
    config: &Config,
    current: &AccountId,
    outputs: &[DataReceiver],
    count: u64,
) -> Option<u128>
    ensures { FitsIn 128 result (outputs_cost config.now current.now outputs.now count) }
{
    let mut sum: u128 = 0;
    for output in outputs {
        sum = sum.checked_add(output_cost(config, current, output, count))?;
    }
    Some(sum)
}

impl<'a, S: Store> HostContext<'a, S> {
    /// Whether an account is the one whose contract runs.
    pub(crate) fn is_local(&self, receiver: &AccountId) -> bool
        ensures { result ≡ is_local (state_of self.now) receiver.now }
    {
        receiver == &self.callee.context.current
    }

    pub(crate) fn fee(&self, payment: Payment, which: Fee) -> u64
        ensures { result ≡ fee (state_of self.now).config payment which }
    {
        fee_of(self.callee.config, payment, which)
    }
}
