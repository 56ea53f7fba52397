//! Rows of single calls of the leaf crates: what a call answers, with values from outside.
#![tactic(auto)]

#[cfg(test)]
mod light;
#[cfg(test)]
mod link;
