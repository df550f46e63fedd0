//! Whole runs by threads and of JSON texts, and audits of runs, each as tests of a top call.
#![tactic(auto)]

#[cfg(test)]
mod archives;
#[cfg(test)]
mod chains;
#[cfg(test)]
mod gates;
#[cfg(test)]
mod long;
#[cfg(test)]
mod refusals;
#[cfg(test)]
mod rows;
#[cfg(test)]
mod runs;
#[cfg(test)]
mod setting;
