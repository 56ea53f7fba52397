//! What a node waits for, what it keeps for others, and its names.
//!
//! It stands on the identifiers of `ch_ident` alone. A node opens a number here for each monitor, link,
//! spawn and question, keeps here who watches its own processes, and registers its names here.
#![tactic(auto)]

mod ending;
mod error;
mod name_table;
mod named;
mod open_numbers;
mod same;
mod waiting;
mod watched;
mod watches;

pub use ending::{Ending, Names, Refs};
pub use error::WatchError;
pub use waiting::{Kind, Waiting};
pub use watches::Watches;
