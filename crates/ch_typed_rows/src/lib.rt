//! Rows of single calls of ch_typed, with values from outside, and a type of a program's own.
#![tactic(auto)]

mod tally;

pub use tally::Tally;

#[cfg(test)]
mod fixtures;
#[cfg(test)]
mod ports;
#[cfg(test)]
mod refusals;
#[cfg(test)]
mod values;
