//! Rows of the upper crates: what a call answers, with values from outside.
#![tactic(auto)]

#[cfg(test)]
mod many_nodes;
#[cfg(test)]
mod replay;
