//! What each action of a receipt does.
#![tactic(auto)]

mod accounts;
mod action;
mod calling;
mod creation;
mod deletion;
mod drawing;
mod effect;
mod failure;
mod fault;
mod frame;
pub mod laws;
mod ownership;
mod refunds;
mod threads;
mod transfer;

pub use action::apply;
pub use drawing::{draw, next_id};
pub use failure::Failure;
pub use fault::ActionFault;
pub use frame::Frame;
pub use refunds::{deposit_refund, refund};
