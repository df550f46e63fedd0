//! What actions cost, what receipts hold, and the count of the gas that a receipt burns.
#![tactic(auto)]

mod gas;
mod pricing;
mod sums;
mod table;
mod tokens;

pub use gas::GasCounter;
pub use pricing::{action_fee, fee_of};
pub use sums::{
    attached_gas, attached_to, deposit_in, deposits, exec_gas, exec_gas_of, prepaid_gas, send_gas,
};
pub use table::{Fee, Payment};
pub use tokens::receipt_tokens;
