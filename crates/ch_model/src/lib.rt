//! What a reader of the runtime has to believe: lines, entries, steps and notes as plain types, and
//! in `specs/` the model of the runtime on lists and what a lawful log is.
//!
//! The leaf crates (texts, identifiers, the wire, links, mail, watches) stand below, whose definitions
//! the model is built from. The code that meets the model and the laws about it stand above.
#![tactic(auto)]

mod act;
mod command;
mod entry;
mod handed;
mod line;
mod local;
mod name;
mod note;
mod refusal;
mod step;

pub use act::Act;
pub use command::CommandError;
pub use entry::{Entry, Verdict};
pub use handed::Handed;
pub use line::{Declared, Line, What};
pub use local::{Happened, History, LocalEntries, LocalEntry, LocalEvent, LocalList};
pub use name::{End, ProcName, RefName, SockName, TargetName};
pub use note::{Note, Origin};
pub use refusal::{BadKind, LineFault};
pub use step::{EndError, Place, SocketEvent, Step, Weight};
