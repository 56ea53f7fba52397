//! A cell: a host with its nodes, and what they make of each local event.
//!
//! A host's calls and a node's stand below, and the model that says how they work together. The world of a
//! journal and running hosts stand above.
#![tactic(auto)]

mod cell;
mod seat;
mod site;
mod told;

pub use cell::Cell;
pub use ch_model::{Happened, History, LocalEntries, LocalEntry, LocalEvent, LocalList, Verdict};
pub use site::{Opening, Site};
