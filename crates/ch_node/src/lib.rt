//! A node: its processes and their mailboxes, the messages that they say, the connections on which
//! those go, and what arrives.
//!
//! Mailboxes, watches and labels stand below, and the model that says what each call does. The hosts'
//! cells stand above.
#![tactic(auto)]

mod acts;
mod arrivals;
mod arrived;
mod asks;
mod commands;
mod connections;
mod directed;
mod ends;
mod events;
mod halt;
mod ids;
mod incoming;
mod kept;
mod key;
mod lives;
mod messages;
mod node;
mod pairs;
mod requests;
mod room;
mod same;
mod sends;
mod spelled;
mod state;
mod watches;

pub use halt::Halt;
pub use node::Node;
