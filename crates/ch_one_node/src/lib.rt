//! The model of one node whose processes send, take and end, without sockets: the part of the whole
//! model that the program is built on so far.
//!
//! `ch_model` stands below, with the lines and entries that the definitions here speak of. `ch_node`
//! and `ch_replay` meet these definitions, and `ch_laws_one_node` shows what they say of the whole
//! model.
#![tactic(auto)]

mod command;
mod note;

pub use command::{Command, CommandError};
pub use note::Note;
