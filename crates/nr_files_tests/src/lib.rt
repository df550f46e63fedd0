//! Worked examples of the files of a chain, read and generated, of JSON texts, of the files that are made of them, and
//! of what is told to people.
#![tactic(auto)]

#[cfg(test)]
mod damaged;
#[cfg(test)]
mod files;
#[cfg(test)]
mod gathered;
#[cfg(test)]
mod generating;
#[cfg(test)]
mod members;
#[cfg(test)]
mod people;
#[cfg(test)]
mod prices;
#[cfg(test)]
mod reading;
#[cfg(test)]
mod reshard;
#[cfg(test)]
mod sentences;
#[cfg(test)]
mod spelled;
#[cfg(test)]
mod spellings;
#[cfg(test)]
mod texts;
#[cfg(test)]
mod words;
