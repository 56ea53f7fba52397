//! The replay of a journal: its text is read, its lines are run, and the text of their log is
//! written.
//!
//! The world of a journal and the texts of lines and entries stand below; the program stands above.
#![tactic(auto)]

mod intake;
mod output;
mod replay;
mod running;
mod top;

pub use ch_journal::Status;
pub use top::replay_top;
