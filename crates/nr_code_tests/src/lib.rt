//! Tests of what runs a contract: modules that are decoded, validated and run, numbers, memory, instructions,
//! arguments, promises, calls, modules as text, and near_module.
#![tactic(auto)]

#[cfg(test)]
mod answering;
#[cfg(test)]
mod contract;
#[cfg(test)]
mod decoding;
#[cfg(test)]
mod guest;
#[cfg(test)]
mod module;
#[cfg(test)]
mod nesting;
#[cfg(test)]
mod onecall;
#[cfg(test)]
mod promises;
#[cfg(test)]
mod running;
#[cfg(test)]
mod validating;
#[cfg(test)]
mod wasmmem;
#[cfg(test)]
mod wasmnum;
#[cfg(test)]
mod wasmtypes;
#[cfg(test)]
mod wat;
