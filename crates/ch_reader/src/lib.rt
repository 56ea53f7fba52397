//! The reader of one direction of a socket: bytes in any pieces go in, items come out.
//!
//! The layouts of the items stand below, in `ch_wire`; hosts stand above. A peer can send anything:
//! the reader never holds more than one item, never looks back, and refuses at the earliest byte
//! that can be wrong.
#![tactic(auto)]

mod body;
mod glance;
mod item;
mod law;
mod reader;
mod stream;
mod words;

pub use item::{Expected, Front, Item, ReaderError, Role};
pub use law::{runs_are_streams, streams_are_one};
pub use reader::{MOST_HELD_BYTES, Reader};
pub use stream::{Decoded, decode};
