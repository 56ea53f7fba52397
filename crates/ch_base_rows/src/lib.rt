//! Rows of single calls of ch_base: what a call answers, with values from outside.
#![tactic(auto)]

#[cfg(test)]
mod base;
