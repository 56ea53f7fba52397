//! Rows of single calls of ch_mail, with values from outside.
#![tactic(auto)]

#[cfg(test)]
mod calls;
#[cfg(test)]
mod lives;
