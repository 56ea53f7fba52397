//! The text of every entry of a log, one call after another.
#![tactic(auto)]

#[cfg(test)]
mod entries;
