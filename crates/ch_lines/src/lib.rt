//! The lines of a journal, read: what each word says, and what the lines before have told.
//!
//! Below stand the readers of fields, and lines as types with the grammar that contracts cite. The writing of lines, and the top
//! calls, stand above.
#![tactic(auto)]

mod acting;
mod declared;
mod declaring;
mod grammar;
mod happening;
mod known;
mod line;
mod reading;
mod watching;

pub use ch_fields::split_at_byte;
pub use grammar::Grammar;
pub use reading::{JournalError, Reading};
