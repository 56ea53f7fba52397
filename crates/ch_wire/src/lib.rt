//! The bytes of the wire: handshakes and frames, each with one spelling.
//!
//! Addresses and texts stand below; the reader of a stream and the hosts stand above. A word is
//! four bytes, the most significant first.
#![tactic(auto)]

mod answer;
mod frame;
mod law;
mod request;
mod word;

pub use answer::{Answer, answer_bytes, answer_of};
pub use frame::{Frame, Head, head_of, put_frame};
pub use law::spellings_stand_apart;
pub use request::{Request, put_request};

/// The first number that may be a connection's identifier. Lower first words are controls.
pub const FIRST_ID: u32 = 1024;

/// The most bytes of a frame's payload.
pub const MOST_PAYLOAD_BYTES: u32 = 65_536;

/// The most bytes of a request's address.
pub const MOST_ADDRESS_BYTES: u32 = 80;
