//! Tests of conversion, of actions, of joining and of execution over the store in memory, and of chains that go on from
//! worlds and lists, which other boundaries may lay out anew.
#![tactic(auto)]

#[cfg(test)]
mod burner;
#[cfg(test)]
mod calling;
#[cfg(test)]
mod carrying;
#[cfg(test)]
mod conversions;
#[cfg(test)]
mod deleting;
#[cfg(test)]
mod doing;
#[cfg(test)]
mod executing;
#[cfg(test)]
mod failing;
#[cfg(test)]
mod frames;
#[cfg(test)]
mod going_on;
#[cfg(test)]
mod joining;
#[cfg(test)]
mod paying;
#[cfg(test)]
mod receipt_setting;
#[cfg(test)]
mod refuser;
#[cfg(test)]
mod refusing;
#[cfg(test)]
mod setting;
#[cfg(test)]
mod spelling;
#[cfg(test)]
mod splitting;
