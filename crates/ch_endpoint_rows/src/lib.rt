//! Rows of single calls of a host, and one run of two hosts, with values from outside.
#![tactic(auto)]

#[cfg(test)]
mod calls;
#[cfg(test)]
mod run;
