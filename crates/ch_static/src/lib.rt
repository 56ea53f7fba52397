//! What a process may be told to do, as values: commands and their targets, labels with their table,
//! and the actors and programs that choose the commands.
//!
//! It stands on the identifiers of `ch_ident` alone. Nodes and the loops that run actors stand above.
#![tactic(auto)]

mod actor;
mod closure;
mod command;
mod table;
mod target;

pub use actor::{Actor, Program, Reply, Turn};
pub use closure::{Closure, Unlabelled};
pub use command::Command;
pub use table::Table;
pub use target::Target;
