//! The texts of journals and logs: lines and entries are written, each as its one text. Statuses, what a
//! program tells whoever started it, stand here too, and the reader of lines is passed on.
//!
//! Below stand the lines and entries as types, and the reader. The top calls and the programs stand
//! above.
#![tactic(auto)]

mod entry_text;
mod law;
mod line_text;
mod shape;
mod status;
mod text;
mod writing;

pub use ch_lines::{Grammar, JournalError, Reading, split_at_byte};
pub use law::canonical_line_reads_back;
pub use status::Status;
pub use writing::{put_entry, put_line};
