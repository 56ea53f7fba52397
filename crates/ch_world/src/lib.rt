//! The world of a journal, line by line: its names, its hosts with their nodes, and the sockets between them.
//!
//! Cells, names and sockets stand below, and the model that says what a line does. What reads a journal and
//! writes its log stands above.
#![tactic(auto)]

mod address;
mod answer;
mod declare;
mod happenings;
mod heard;
mod held;
mod hosted;
mod lines;
mod realm;
mod steps;
mod world;

pub use ch_model::{Declared, End, Entry, Handed, Line, SockName, Verdict, What};
pub use lines::{is_declaration, is_settle};
pub use realm::Realm;
pub use world::{World, is_event};
