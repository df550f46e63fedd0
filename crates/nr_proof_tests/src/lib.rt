//! Tests of what is known of a state without the whole of it: walks over held texts and what is gathered for them,
//! roots after changes, a state in parts, and chunks that are run again.
#![tactic(auto)]

#[cfg(test)]
mod cutting;
#[cfg(test)]
mod faults;
#[cfg(test)]
mod gather;
#[cfg(test)]
mod gathered;
#[cfg(test)]
mod judging;
#[cfg(test)]
mod late_data;
#[cfg(test)]
mod maps;
#[cfg(test)]
mod one_transfer;
#[cfg(test)]
mod outside;
#[cfg(test)]
mod rechecking;
#[cfg(test)]
mod refusing;
#[cfg(test)]
mod rooms;
#[cfg(test)]
mod script;
#[cfg(test)]
mod states;
#[cfg(test)]
mod table;
#[cfg(test)]
mod walking;
