//! Promises that a contract makes.
#![tactic(auto)]

mod acting;
mod contents;
mod fault;
mod joining;
pub mod laws;
mod making;
mod promise_book;
mod threads;

pub use fault::PromiseFault;
pub use promise_book::PromiseBook;
