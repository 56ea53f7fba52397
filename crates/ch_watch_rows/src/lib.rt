//! Rows of single calls of ch_watch, with values from outside.
#![tactic(auto)]

#[cfg(test)]
mod calls;
#[cfg(test)]
mod endings;
#[cfg(test)]
mod fixtures;
#[cfg(test)]
mod lives;
