//! Frames: what the two ends of a socket send each other after the handshake.

ghost use Rattle.std.specs.Prelude.{◌≡◌, ◌++◌, OnOk, OnErr};
ghost use Rattle.ch_wire.specs.Words.{word_value};
ghost use Rattle.ch_wire.specs.Spelling.{IsFrame, frame_spelling, head_numbered};

use crate::FIRST_ID;
use crate::word::{put_counted, put_word, put_words};
use ch_base::{OutOfMemory, Text};

/// One frame.
#[derive(Debug, Drop)]
pub enum Frame {
    /// The connection of this identifier was opened.
    Created(u32),
    /// The connection of this identifier was closed.
    Closed(u32),
    /// The endpoint was closed.
    EndClosed,
    /// The other end is asked whether it still holds the socket.
    Probe,
    /// It does.
    ProbeAck,
    /// A payload on the connection of this identifier.
    Data(u32, Text),
}

/// What a frame's first word begins.
#[derive(Clone, Copy, Debug, PartialEq, Eq)]
pub enum Head {
    /// A connection's opening; its identifier follows.
    Created,
    /// A connection's closing; its identifier follows.
    Closed,
    /// The endpoint's closing, whole.
    EndClosed,
    /// A probe, whole.
    Probe,
    /// A probe's answer, whole.
    ProbeAck,
    /// A payload on this connection; its length and its bytes follow.
    Data(u32),
    /// No frame begins so.
    Unknown,
}

const CREATED: u32 = 0;

const CLOSED: u32 = 1;

const END_CLOSED: u32 = 3;

const PROBE: u32 = 4;

const PROBE_ACK: u32 = 5;

/// Appends the spelling of a frame: its number as a word and, where it has one, its identifier as a
/// word; of a payload the identifier, the length as a word, and the bytes. Without memory the vector
/// stays as it was.
pub fn put_frame(frame: &Frame, out: &mut Vec<u8>) -> Result<(), OutOfMemory>
    requires { IsFrame frame.now }
    ensures ok { OnOk result (out.new.items ≡ out.old.items ++ frame_spelling frame.now) }
    ensures err { OnErr result (out.new.items ≡ out.old.items) }
{
    match frame {
        Frame::Created(id) => put_words(CREATED, *id, out),
        Frame::Closed(id) => put_words(CLOSED, *id, out),
        Frame::EndClosed => put_word(END_CLOSED, out),
        Frame::Probe => put_word(PROBE, out),
        Frame::ProbeAck => put_word(PROBE_ACK, out),
        Frame::Data(id, payload) => put_counted(*id, payload.as_slice(), out),
    }
}

/// What a word begins where a frame is to come: `Unknown` exactly for 2 and for 6 to 1023. It takes
/// no memory.
pub fn head_of(word: [u8; 4]) -> Head
    ensures { result ≡ head_numbered (word_value word) }
{
    match u32::from_be_bytes(word) {
        CREATED => Head::Created,
        CLOSED => Head::Closed,
        END_CLOSED => Head::EndClosed,
        PROBE => Head::Probe,
        PROBE_ACK => Head::ProbeAck,
        id if id >= FIRST_ID => Head::Data(id),
        _ => Head::Unknown,
    }
}
