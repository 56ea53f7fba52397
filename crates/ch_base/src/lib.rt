//! What every layer of the runtime names: texts, addresses, the events of an endpoint, and the
//! outside world as two traits, a source of bytes and a sink for them.
//!
//! Nothing stands below. The wire, the identifiers, hosts, nodes and programs stand above.
#![tactic(auto)]

mod address;
mod event;
mod memory;
mod number;
mod sink;
mod source;
mod text;

pub use address::{Address, AddressError};
pub use event::{Event, Room, Why};
pub use memory::{Failed, OutOfMemory, Stop};
pub use number::read_number;
pub use sink::{BytesSink, FailingSink, Sink, WriterSink};
pub use source::{BytesSource, FailingSource, ReaderSource, Source};
pub use text::Text;
