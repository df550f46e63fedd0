//! Tests of fields and of what is read and written outside, of ids, records, configurations, fees, trie nodes, entries'
//! keys, layouts, reports, proofs of items, archives and words, each by the public calls of its crate.
#![tactic(auto)]

#[cfg(test)]
mod columns;
#[cfg(test)]
mod config_entries;
#[cfg(test)]
mod fees;
#[cfg(test)]
mod fees_config;
#[cfg(test)]
mod fields;
#[cfg(test)]
mod ids;
#[cfg(test)]
mod layout;
#[cfg(test)]
mod proof_chunks;
#[cfg(test)]
mod proof_judging;
#[cfg(test)]
mod proof_refusing;
#[cfg(test)]
mod proof_texts;
#[cfg(test)]
mod proving;
#[cfg(test)]
mod report;
#[cfg(test)]
mod spelling;
#[cfg(test)]
mod tar;
#[cfg(test)]
mod triedef;
#[cfg(test)]
mod words;
