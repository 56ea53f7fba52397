//! Rows of single calls of ch_wire and ch_reader: what a call answers, with values from outside.
#![tactic(auto)]

#[cfg(test)]
mod reader;
#[cfg(test)]
mod wire;
