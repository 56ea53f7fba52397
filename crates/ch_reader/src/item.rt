//! What a reader hands out, and why it refuses.

use ch_wire::{Answer, Frame, Request};
use thiserror::Error;

/// Whose end of the socket reads.
#[derive(Clone, Copy, Debug, PartialEq, Eq)]
pub enum Role {
    /// The end that wrote the request: it reads an answer, then frames.
    Opener,
    /// The end that was asked: it reads a request, then frames.
    Target,
}

/// One item of a stream.
#[derive(Debug, Drop)]
pub enum Item {
    /// The first item that a target reads.
    Request(Request),
    /// The first item that an opener reads.
    Answer(Answer),
    /// Each later item.
    Frame(Frame),
}

/// Why a stream is refused, and at which byte.
#[derive(Clone, Copy, Debug, PartialEq, Eq, Error)]
pub enum ReaderError {
    /// A frame's first word is 2 or 6 to 1023; at the word's fourth byte.
    #[error("unknown control")]
    UnknownControl,
    /// A payload's length is over 65,536; at the length's fourth byte.
    #[error("payload too long")]
    PayloadLong,
    /// The length of a request's address is over 80; at the length's fourth byte.
    #[error("address too long")]
    AddressLong,
    /// A request's address is no address; at its last byte, or at the length's fourth byte where
    /// the length is 0.
    #[error("bad address")]
    BadAddress,
    /// An answer's word is over 3; at the word's fourth byte.
    #[error("bad answer")]
    BadAnswer,
}

/// What the next item is.
#[derive(Clone, Copy, Debug, PartialEq, Eq)]
pub enum Expected {
    /// A request, of a target's end.
    Request,
    /// An answer, of an opener's end.
    Answer,
    /// A frame.
    Frame,
}

/// What stands at the front of the bytes since the last item.
#[derive(Debug, Drop)]
pub enum Front {
    /// Less than a whole item.
    Unfinished,
    /// An item.
    Whole(Item),
    /// Bytes that no item begins with.
    Refused(ReaderError),
}
