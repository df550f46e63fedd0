//! What one action costs.

ghost use Rattle.std.specs.Prelude.{◌≡◌};
ghost use Rattle.nr_config.specs.Config.{entry};
ghost use Rattle.nr_fees.specs.Fees.{FitsIn, fee, with_bytes, method_bytes, key_fee, action_fee};

use crate::table::{Fee, Payment, column_of, number_of};
use nr_bytes::Text;
use nr_config::Config;
use nr_config::entries::FIRST_FEE;
use nr_records::{Action, Permission};

/// A fee, in gas: the entry of the configuration that it stands in.
pub fn fee_of(config: &Config, payment: Payment, which: Fee) -> u64
    ensures { result ≡ fee config.now payment which }
{
    config.entry(FIRST_FEE + 3 * number_of(which) + column_of(payment))
}

/// A fee, and another one for each of `count` bytes.
fn with_bytes(config: &Config, payment: Payment, base: Fee, byte: Fee, count: u128) -> Option<u64>
    ensures { FitsIn 64 result (with_bytes config.now payment base byte count) }
{
    let bytes = u128::from(fee_of(config, payment, byte)).checked_mul(count)?;
    let whole = bytes.checked_add(u128::from(fee_of(config, payment, base)))?;
    u64::try_from(whole).ok()
}

/// The bytes that a key's methods are paid for: of each its name, and one more.
fn method_bytes(methods: &[Text]) -> u128
    ensures { result ≡ method_bytes methods.now }
{
    let mut bytes = 0;
    for method in methods {
        bytes += method.inner().len() as u128 + 1;
    }
    bytes
}

fn key_fee(config: &Config, payment: Payment, permission: &Permission) -> Option<u64>
    ensures { FitsIn 64 result (key_fee config.now payment permission.now) }
{
    match permission {
        Permission::Call(call) => with_bytes(
            config,
            payment,
            Fee::AddCallKeyBase,
            Fee::AddCallKeyByte,
            method_bytes(call.methods.inner()),
        ),
        Permission::Full => Some(fee_of(config, payment, Fee::AddFullKey)),
    }
}

/// What an action costs, in gas. Code, a method's name and its arguments are paid for by the byte;
/// so are the methods of a key for calls, where each has one byte more than its name.
///
/// `None` exactly where that is 2^64 or more.
pub fn action_fee(config: &Config, payment: Payment, action: &Action) -> Option<u64>
    ensures { FitsIn 64 result (action_fee config.now payment action.now) }
{
    match action {
        Action::CreateAccount => Some(fee_of(config, payment, Fee::CreateAccount)),
        Action::DeployContract { code } => {
            let bytes = code.inner().len() as u128;
            with_bytes(config, payment, Fee::DeployBase, Fee::DeployByte, bytes)
        }
        Action::FunctionCall { method, args, .. } => {
            let bytes = method.inner().len() as u128 + args.inner().len() as u128;
            with_bytes(config, payment, Fee::CallBase, Fee::CallByte, bytes)
        }
        Action::Transfer { .. } => Some(fee_of(config, payment, Fee::Transfer)),
        Action::AddKey { access_key, .. } => key_fee(config, payment, &access_key.permission),
        Action::DeleteKey { .. } => Some(fee_of(config, payment, Fee::DeleteKey)),
        Action::DeleteAccount { .. } => Some(fee_of(config, payment, Fee::DeleteAccount)),
    }
}
