//! What the words of an item tell.
//!
//! The words that have come stand below, in `words`; the reader stands above.

ghost use Rattle.std.specs.Prelude.{◌≡◌, ◌≤◌, length, take, drop, IsOk};
ghost use Rattle.ch_wire.specs.Words.{word_value};
ghost use Rattle.ch_reader.specs.Reading.{frame_header_size as frame_header_size_of, header_size as header_size_of, counted_body as counted_body_of, frame_glance as frame_glance_of, answer_glance, words_glance as words_glance_of, glance_at};
ghost use Rattle.ch_wire.specs.Spelling.{answer_numbered};
ghost use Rattle.ch_reader.specs.Streams.{first_word, second_word};

use crate::item::{Expected, Front, Item, ReaderError};
use ch_wire::{Frame, Head, MOST_ADDRESS_BYTES, MOST_PAYLOAD_BYTES, answer_of, head_of};

/// An item whose words are whole and whose counted bytes are to come.
#[derive(Clone, Copy, Debug, PartialEq, Eq)]
pub(crate) enum Opened {
    /// The address of a request to this target.
    Request(u32),
    /// The payload of a frame on this connection.
    Data(u32),
}

/// What an item's words tell.
#[derive(Debug, Drop)]
pub(crate) enum Glance {
    /// All that will be known: a word is missing, or no bytes follow the words.
    Settled(Front),
    /// So many bytes follow.
    Body(Opened, usize),
}

/// The word at the front.
fn word(bytes: &[u8]) -> [u8; 4]
    requires { 4 ≤ length bytes.now }
    ensures { result ≡ take 4 bytes.now }
{
    [bytes[0], bytes[1], bytes[2], bytes[3]]
}

/// The number of the second word.
fn second(bytes: &[u8]) -> u32
    requires { 8 ≤ length bytes.now }
    ensures { result ≡ second_word bytes.now }
{
    u32::from_be_bytes(word(&bytes[4..]))
}

/// How many bytes of words the item at the front has, as far as its first word tells.
pub(crate) fn header_size(expected: Expected, bytes: &[u8]) -> usize
    ensures { result ≡ header_size_of expected bytes.now }
{
    match expected {
        Expected::Request => 8,
        Expected::Answer => 4,
        Expected::Frame => {
            if bytes.len() < 4 {
                4
            } else {
                frame_header_size(head_of(word(bytes)))
            }
        }
    }
}

fn frame_header_size(head: Head) -> usize
    ensures { result ≡ frame_header_size_of head }
{
    match head {
        Head::Created | Head::Closed | Head::Data(_) => 8,
        Head::EndClosed | Head::Probe | Head::ProbeAck | Head::Unknown => 4,
    }
}

/// What the words at the front tell.
pub(crate) fn look_at(expected: Expected, bytes: &[u8]) -> Glance
    ensures { result ≡ glance_at expected bytes.now }
{
    if bytes.len() < header_size(expected, bytes) {
        Glance::Settled(Front::Unfinished)
    } else {
        words_glance(expected, bytes)
    }
}

fn words_glance(expected: Expected, bytes: &[u8]) -> Glance
    requires { header_size_of expected bytes.now ≤ length bytes.now }
    ensures { result ≡ words_glance_of expected bytes.now }
{
    match expected {
        Expected::Request => counted_body(
            Opened::Request(u32::from_be_bytes(word(bytes))),
            MOST_ADDRESS_BYTES,
            ReaderError::AddressLong,
            second(bytes),
        ),
        Expected::Answer => match answer_of(word(bytes)) {
            Some(answer) => Glance::Settled(Front::Whole(Item::Answer(answer))),
            None => Glance::Settled(Front::Refused(ReaderError::BadAnswer)),
        },
        Expected::Frame => frame_glance(head_of(word(bytes)), bytes),
    }
}

fn frame_glance(head: Head, bytes: &[u8]) -> Glance
    requires { frame_header_size_of head ≤ length bytes.now }
    ensures { result ≡ frame_glance_of head (second_word bytes.now) }
{
    match head {
        Head::Created => whole_frame(Frame::Created(second(bytes))),
        Head::Closed => whole_frame(Frame::Closed(second(bytes))),
        Head::EndClosed => whole_frame(Frame::EndClosed),
        Head::Probe => whole_frame(Frame::Probe),
        Head::ProbeAck => whole_frame(Frame::ProbeAck),
        Head::Data(id) => counted_body(
            Opened::Data(id),
            MOST_PAYLOAD_BYTES,
            ReaderError::PayloadLong,
            second(bytes),
        ),
        Head::Unknown => Glance::Settled(Front::Refused(ReaderError::UnknownControl)),
    }
}

fn whole_frame(frame: Frame) -> Glance
    ensures { result ≡ Glance.Settled (Front.Whole (Item.Frame frame)) }
{
    Glance::Settled(Front::Whole(Item::Frame(frame)))
}

fn counted_body(opened: Opened, most: u32, error: ReaderError, count: u32) -> Glance
    ensures { result ≡ counted_body_of opened most error count }
{
    if count > most {
        Glance::Settled(Front::Refused(error))
    } else {
        Glance::Body(opened, count as usize)
    }
}
