//! What the definition of a contract's call rests on, said by the grammar, by typing and without a number of steps.
#![tactic(auto)]

pub mod laws;
