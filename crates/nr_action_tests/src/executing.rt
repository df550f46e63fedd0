//! Receipts that are executed or settled.

ghost use Rattle.nr_action_tests.specs.Sound.{IsSmall, IsSound};
ghost use Rattle.std.specs.Prelude.{◌≡◌, true};

use crate::burner::Burner;
use crate::receipt_setting::{ID, Sent, config_of, receipt_of, state_with};
use crate::setting::{Ask, PLACE, State, id_of};
use nr_bytes::List;
use nr_config::Config;
use nr_fees::receipt_tokens;
use nr_ids::{AccountId, derive};
use nr_receipt::{Executed, execute, settle_clash};
use nr_records::{Action, ActionReceipt, Body, Receipt, RunStatus};
use nr_state::Place;
use std::alloc::{AllocError, Global};

/// What is seen of a receipt.
#[derive(Clone, Copy, Debug, PartialEq, Eq)]
struct Seen {
    /// How it ended: 0 with a value, 1 with a promise, 2 by a failure, 3 as a clash; and the failure's
    /// index, number and part.
    status: [u32; 4],
    gas: u64,
    burnt: u128,
    logs: usize,
    /// The first three receipts made: a deposit refund (1), a gas refund (2), a datum with a value (3)
    /// or without (4), and other actions (5), with the amount, the bytes or the outputs.
    made: [(u8, u128); 3],
    /// Whether their ids are the first ones drawn.
    in_order: bool,
    /// The receiver's amount.
    amount: Option<u128>,
}

/// Where memory runs out.
const NO_MEMORY: Seen = Seen {
    status: [9, 0, 0, 0],
    gas: 0,
    burnt: 0,
    logs: 0,
    made: [(0, 0); 3],
    in_order: false,
    amount: None,
};

fn status_of(status: &RunStatus) -> [u32; 4] {
    match status {
        RunStatus::Value(_) => [0, 0, 0, 0],
        RunStatus::Promise(_) => [1, 0, 0, 0],
        RunStatus::Failure { index, kind, part } => [2, *index, *kind, *part],
        RunStatus::Clash => [3, 0, 0, 0],
    }
}

fn given(refund: bool, act: &ActionReceipt) -> (u8, u128) {
    match act.actions.inner() {
        [Action::Transfer { deposit }] if refund && act.signer.is_system() => (1, *deposit),
        [Action::Transfer { deposit }] if refund => (2, *deposit),
        _ => (5, act.outputs.inner().len() as u128),
    }
}

fn kind_of(receipt: &Receipt) -> (u8, u128) {
    match &receipt.body {
        Body::Act(act) => given(receipt.predecessor.is_system(), act),
        Body::Datum(datum) => match &datum.bytes {
            Some(bytes) => (3, bytes.inner().len() as u128),
            None => (4, 0),
        },
    }
}

fn kind_at(made: &[Receipt], index: usize) -> (u8, u128) {
    match made.get(index) {
        Some(receipt) => kind_of(receipt),
        None => (0, 0),
    }
}

fn are_in_order(made: &[Receipt]) -> bool {
    let mut ordinal: u64 = 0;
    for receipt in made {
        if receipt.receipt_id != derive(&ID, PLACE.height, ordinal) {
            return false;
        }
        ordinal = ordinal.saturating_add(1);
    }
    true
}

fn amount_of(state: &State, id: &AccountId) -> Result<Option<u128>, AllocError> {
    match state.account(id)? {
        Some(account) => Ok(Some(account.amount)),
        None => Ok(None),
    }
}

fn look(done: &Executed, amount: Option<u128>) -> Seen {
    let made = done.made.inner();
    Seen {
        status: status_of(&done.outcome.status),
        gas: done.outcome.gas,
        burnt: done.outcome.burnt,
        logs: done.outcome.logs.inner().len(),
        made: [kind_at(made, 0), kind_at(made, 1), kind_at(made, 2)],
        in_order: are_in_order(made),
        amount,
    }
}

/// Whether a receipt is within its bounds.
fn is_small(config: &Config, receipt: &Receipt) -> bool
    ensures { result ≡ true → IsSmall config.now receipt.now }
{
    match receipt_tokens(config, receipt) {
        Some(tokens) => tokens < 1 << 100,
        None => false,
    }
}

fn execute_in(
    alloc: Global,
    state: &mut State,
    caller: &Burner,
    sent: Sent,
    price: u64,
) -> Result<Executed, AllocError>
    requires { IsSound caller.now.config state.old }
{
    let receipt = receipt_of(alloc, sent)?;
    if !is_small(&caller.config, &receipt) {
        return Err(AllocError);
    }
    execute(
        alloc,
        state,
        &caller.config,
        receipt,
        List::of(Vec::new(alloc)),
        &Place { price, ..PLACE },
        caller,
    )
}

fn see_executed(
    alloc: Global,
    state: &mut State,
    caller: &Burner,
    sent: Sent,
    price: u64,
) -> Result<Seen, AllocError>
    requires { IsSound caller.now.config state.old }
{
    let id = id_of(alloc, sent.receiver)?;
    let done = execute_in(alloc, state, caller, sent, price)?;
    Ok(look(&done, amount_of(state, &id)?))
}

/// Executes in a state where `con` has code and so much to spend, in a block of this price.
fn try_executed(
    alloc: Global,
    reward: &str,
    burnt: u64,
    amount: u64,
    sent: Sent,
    price: u64,
) -> Result<Seen, AllocError> {
    let caller = Burner {
        config: config_of(alloc, reward)?,
        burnt,
    };
    let con = id_of(alloc, b"con")?;
    let mut state = state_with(alloc, &caller.config, &con, amount)?;
    see_executed(alloc, &mut state, &caller, sent, price)
}

/// What is seen of a receipt that is executed with this reward, in hundredths, where each call burns
/// so much gas and `con` has so much to spend.
fn executed(alloc: Global, reward: &str, burnt: u64, amount: u64, sent: Sent) -> Seen {
    try_executed(alloc, reward, burnt, amount, sent, 1).unwrap_or(NO_MEMORY)
}

/// What is seen of a receipt whose gas was bought at 5, in a block of this price, where the reward is
/// 30 hundredths, each call burns 10 and `con` has 1000 to spend.
fn bought_at_5(alloc: Global, sent: Sent, price: u64) -> Seen {
    try_executed(alloc, "30", 10, 1000, Sent { bought: 5, ..sent }, price).unwrap_or(NO_MEMORY)
}

/// Settles in a state where `con` has 1000 to spend.
fn settle_in(
    alloc: Global,
    config: &Config,
    state: &mut State,
    sent: Sent,
) -> Result<Executed, AllocError> {
    let receipt = receipt_of(alloc, sent)?;
    if !is_small(config, &receipt) {
        return Err(AllocError);
    }
    settle_clash(alloc, state, config, receipt, &PLACE)
}

fn try_settled(alloc: Global, sent: Sent) -> Result<Seen, AllocError> {
    let config = config_of(alloc, "30")?;
    let con = id_of(alloc, b"con")?;
    let mut state = state_with(alloc, &config, &con, 1000)?;
    let done = settle_in(alloc, &config, &mut state, sent)?;
    Ok(look(&done, amount_of(&state, &con)?))
}

/// What is seen of a receipt to `con` that clashes.
fn settled(alloc: Global, sent: Sent) -> Seen {
    try_settled(alloc, sent).unwrap_or(NO_MEMORY)
}

/// A transfer to an account that doesn't stand.
fn to_nobody(predecessor: &'static [u8]) -> Sent {
    Sent {
        predecessor,
        receiver: b"nobody",
        bought: 1,
        asks: &[Ask::Transfer(5)],
        awaited: false,
    }
}

/// What alice or another sends to `con`.
fn to_con(predecessor: &'static [u8], asks: &'static [Ask], awaited: bool) -> Sent {
    Sent {
        predecessor,
        receiver: b"con",
        bought: 1,
        asks,
        awaited,
    }
}

/// What is seen of a receipt whose ids are the first ones drawn.
fn shown(
    status: [u32; 4],
    gas: u64,
    burnt: u128,
    logs: usize,
    made: [(u8, u128); 3],
    amount: Option<u128>,
) -> Seen {
    Seen {
        status,
        gas,
        burnt,
        logs,
        made,
        in_order: true,
        amount,
    }
}

#[test]
fn a_transfer_to_nobody_goes_back(rt: HostRuntime) {
    let alloc = rt.alloc();
    assert_eq!(rt;
        executed(alloc, "0", 0, 1000, to_nobody(b"alice")),
        shown([2, 0, 2, 0], 2, 2, 0, [(1, 5), (0, 0), (0, 0)], None)
    );
    assert_eq!(rt;
        executed(alloc, "0", 0, 1000, to_nobody(b"system")),
        shown([2, 0, 2, 0], 0, 5, 0, [(0, 0); 3], None)
    );
}

#[test]
fn a_failure_drops_what_was_made_and_promised(rt: HostRuntime) {
    let alloc = rt.alloc();
    let trapped = to_con(b"alice", &[Ask::Call("trap", 90, 7)], false);
    assert_eq!(rt;
        executed(alloc, "0", 11, 1000, trapped),
        shown(
            [2, 0, 15, 1],
            17,
            17,
            0,
            [(1, 7), (2, 79), (0, 0)],
            Some(1000)
        )
    );
    let asked = to_con(
        b"alice",
        &[
            Ask::Call("ask", 90, 0),
            Ask::Call("trap", 90, 0),
            Ask::Transfer(0),
        ],
        false,
    );
    assert_eq!(rt;
        executed(alloc, "0", 11, 1000, asked),
        shown(
            [2, 1, 15, 1],
            32,
            32,
            0,
            [(2, 158), (0, 0), (0, 0)],
            Some(1000)
        )
    );
}

#[test]
fn rewards_are_rounded_once(rt: HostRuntime) {
    let alloc = rt.alloc();
    let twice = to_con(
        b"alice",
        &[Ask::Call("go", 90, 0), Ask::Call("go", 90, 0)],
        false,
    );
    assert_eq!(rt;
        executed(alloc, "30", 5, 1000, twice),
        shown(
            [0, 0, 0, 0],
            20,
            17,
            2,
            [(2, 170), (0, 0), (0, 0)],
            Some(1003)
        )
    );
    let trapped = to_con(b"alice", &[Ask::Call("trap", 90, 0)], false);
    assert_eq!(rt;
        executed(alloc, "30", 10, 1000, trapped),
        shown(
            [2, 0, 15, 1],
            16,
            13,
            0,
            [(2, 80), (0, 0), (0, 0)],
            Some(1003)
        )
    );
    let gone = to_con(b"con", &[Ask::Call("go", 90, 0), Ask::Delete], false);
    assert_eq!(rt;
        executed(alloc, "30", 10, 1000, gone),
        shown([0, 0, 0, 0], 16, 16, 1, [(1, 1000), (2, 80), (0, 0)], None)
    );
}

#[test]
fn outputs_get_the_result(rt: HostRuntime) {
    let alloc = rt.alloc();
    let value = to_con(b"alice", &[Ask::Call("go", 90, 0)], true);
    assert_eq!(rt;
        executed(alloc, "0", 10, 1000, value),
        shown(
            [0, 0, 0, 0],
            16,
            16,
            1,
            [(3, 1), (2, 80), (0, 0)],
            Some(1000)
        )
    );
    let promise = to_con(b"alice", &[Ask::Call("ask", 90, 0)], true);
    assert_eq!(rt;
        executed(alloc, "0", 10, 1000, promise),
        shown(
            [1, 0, 0, 0],
            16,
            16,
            0,
            [(5, 1), (2, 78), (0, 0)],
            Some(1000)
        )
    );
    let none = to_con(b"alice", &[Ask::Call("trap", 90, 7)], true);
    assert_eq!(rt;
        executed(alloc, "0", 10, 1000, none),
        shown(
            [2, 0, 15, 1],
            16,
            16,
            0,
            [(4, 0), (1, 7), (2, 80)],
            Some(1000)
        )
    );
}

#[test]
fn storage_is_checked_but_for_the_system(rt: HostRuntime) {
    let alloc = rt.alloc();
    let from_alice = to_con(b"alice", &[Ask::Transfer(5)], false);
    let from_system = to_con(b"system", &[Ask::Transfer(5)], false);
    assert_eq!(rt;
        executed(alloc, "0", 0, 50, from_alice),
        shown([2, 1, 10, 0], 2, 2, 0, [(1, 5), (0, 0), (0, 0)], Some(50))
    );
    assert_eq!(rt;
        executed(alloc, "0", 0, 50, from_system),
        shown([0, 0, 0, 0], 0, 0, 0, [(0, 0); 3], Some(55))
    );
}

#[test]
fn a_clash_gives_all_back(rt: HostRuntime) {
    let alloc = rt.alloc();
    let from_alice = to_con(b"alice", &[Ask::Call("go", 90, 7)], true);
    let from_system = to_con(b"system", &[Ask::Call("go", 90, 7)], true);
    assert_eq!(rt;
        settled(alloc, from_alice),
        shown([3, 0, 0, 0], 0, 0, 0, [(4, 0), (1, 7), (2, 96)], Some(1000))
    );
    assert_eq!(rt;
        settled(alloc, from_system),
        shown([3, 0, 0, 0], 0, 7, 0, [(4, 0), (0, 0), (0, 0)], Some(1000))
    );
}

#[test]
fn gas_is_burnt_at_the_lesser_price(rt: HostRuntime) {
    let alloc = rt.alloc();
    let plain = to_con(b"alice", &[Ask::Call("go", 90, 0)], false);
    assert_eq!(rt;
        bought_at_5(alloc, plain, 3),
        shown(
            [0, 0, 0, 0],
            16,
            39,
            1,
            [(2, 432), (0, 0), (0, 0)],
            Some(1009)
        )
    );
    assert_eq!(rt;
        bought_at_5(alloc, plain, 9),
        shown(
            [0, 0, 0, 0],
            16,
            65,
            1,
            [(2, 400), (0, 0), (0, 0)],
            Some(1015)
        )
    );
    assert_eq!(rt;
        bought_at_5(alloc, plain, 0),
        shown(
            [0, 0, 0, 0],
            16,
            0,
            1,
            [(2, 480), (0, 0), (0, 0)],
            Some(1000)
        )
    );
    let from_system = to_con(b"system", &[Ask::Call("go", 90, 0)], false);
    assert_eq!(rt;
        bought_at_5(alloc, from_system, 3),
        shown([0, 0, 0, 0], 0, 0, 1, [(0, 0); 3], Some(1000))
    );
}

#[test]
fn promised_gas_stays_at_the_price_of_its_receipt(rt: HostRuntime) {
    let alloc = rt.alloc();
    let asked = to_con(b"alice", &[Ask::Call("ask", 90, 0)], false);
    assert_eq!(rt;
        bought_at_5(alloc, asked, 3),
        shown(
            [1, 0, 0, 0],
            16,
            39,
            0,
            [(5, 0), (2, 422), (0, 0)],
            Some(1009)
        )
    );
    assert_eq!(rt;
        bought_at_5(alloc, asked, 9),
        shown(
            [1, 0, 0, 0],
            16,
            65,
            0,
            [(5, 0), (2, 390), (0, 0)],
            Some(1015)
        )
    );
}

#[test]
fn a_failure_gives_the_difference_back(rt: HostRuntime) {
    let alloc = rt.alloc();
    let trapped = to_con(b"alice", &[Ask::Call("trap", 90, 7)], false);
    assert_eq!(rt;
        bought_at_5(alloc, trapped, 3),
        shown(
            [2, 0, 15, 1],
            16,
            39,
            0,
            [(1, 7), (2, 432), (0, 0)],
            Some(1009)
        )
    );
    assert_eq!(rt;
        bought_at_5(alloc, trapped, 9),
        shown(
            [2, 0, 15, 1],
            16,
            65,
            0,
            [(1, 7), (2, 400), (0, 0)],
            Some(1015)
        )
    );
}
