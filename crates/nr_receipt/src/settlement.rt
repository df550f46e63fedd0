//! How a receipt of actions is settled that clashes.

ghost use Rattle.std.specs.Prelude.{◌≡◌, ◌<◌, ◌≤◌, ◌^◌, true, IfOk};
ghost use Rattle.nr_fees.specs.Fees.{deposits, receipt_tokens};
ghost use Rattle.nr_receipt.specs.Execution.{OfActions, settled, settle_clash};
ghost use Rattle.nr_receipt.specs.Frames.{prepaid};
ghost use Rattle.nr_state.specs.Queues.{is_act};
ghost use Rattle.nr_state.specs.Valid.{IsBounded};

use crate::drawing::deposits_lost;
use crate::executed::Executed;
use crate::execution::{executed_as, refund_gas};
use crate::frames::first_frame;
use crate::results::give_up;
use nr_actions::Frame;
use nr_bytes::List;
use nr_config::Config;
use nr_records::{Receipt, RunStatus};
use nr_state::{Place, ShardState};
use nr_triedef::Store;
use std::alloc::{AllocError, Global};

/// Settles a receipt from its first frame on.
fn settle(alloc: Global, config: &Config, mut frame: Frame) -> Result<Executed, AllocError>
    requires price { frame.act.gas_price < 2 ^ 64 }
    requires prepaid { prepaid config.now frame < 2 ^ 64 }
    requires deposits { deposits frame.act.actions < 2 ^ 128 }
    ensures { IfOk result (λ done. done ≡ settled config.now frame) }
{
    let lost = deposits_lost(&frame);
    give_up(alloc, &mut frame)?;
    refund_gas(alloc, config, &mut frame, 0)?;
    Ok(executed_as(frame, RunStatus::Clash, 0, lost))
}

/// Settles a receipt of actions that clashes: as one that failed and burnt no gas. The outputs get
/// none, and deposits and all gas go back. The state isn't changed.
///
/// # Errors
///
/// Where memory runs out.
pub fn settle_clash<S: Store>(
    alloc: Global,
    state: &mut ShardState<S>,
    config: &Config,
    receipt: Receipt,
    place: &Place,
) -> Result<Executed, AllocError>
    requires actions { is_act receipt.body ≡ true }
    requires bounded { IsBounded config.now receipt }
    requires tokens { receipt_tokens config.now receipt ≤ 2 ^ 127 }
    ensures settled { IfOk result (λ done. OfActions receipt.body
        (λ act. done ≡ settle_clash config.now receipt act place.now)) }
    ensures same { state.new ≡ state.old }
{
    let inputs = List::of(Vec::new(alloc));
    let frame = first_frame(alloc, receipt, inputs, place)?;
    settle(alloc, config, frame)
}
