//! Worked examples of whole runs, as tests of the top call.
#![tactic(auto)]

#[cfg(test)]
mod by_config;
#[cfg(test)]
mod checked;
#[cfg(test)]
mod config_text;
#[cfg(test)]
mod contracts;
#[cfg(test)]
mod cutting;
#[cfg(test)]
mod ends;
#[cfg(test)]
mod faulty;
#[cfg(test)]
mod four_parts;
#[cfg(test)]
mod gathered;
#[cfg(test)]
mod generated;
#[cfg(test)]
mod lengths;
#[cfg(test)]
mod parts;
#[cfg(test)]
mod pieces;
#[cfg(test)]
mod proving;
#[cfg(test)]
mod refused;
#[cfg(test)]
mod resharded;
#[cfg(test)]
mod rows;
#[cfg(test)]
mod schedules;
#[cfg(test)]
mod setting;
#[cfg(test)]
mod sharded;
#[cfg(test)]
mod worked;
