//! Rows of single calls of ch_static, with values from outside, and an actor and a program that keep the laws.
#![tactic(auto)]

mod ender;

pub use ender::{Ender, Enders};

#[cfg(test)]
mod commands;
#[cfg(test)]
mod labels;
#[cfg(test)]
mod programs;
