//! Rows of single calls of ch_ident: what a call answers, with values from outside.
#![tactic(auto)]

#[cfg(test)]
mod ident;
