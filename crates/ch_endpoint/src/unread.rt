//! The bytes of a socket that are fed and not read, and what stands at their front.
//!
//! The reader of items stands below. A socket keeps these, and its host takes the item at the front.

ghost use Rattle.std.specs.Prelude.{◌≡◌, ◌≤◌, ℕ, true, List, [], ◌++◌, length, drop, IfOk, OnOk};
ghost use Rattle.ch_reader.specs.Reading.{reading};
ghost use Rattle.ch_reader.specs.States.{Waits, taken as taken_of};
ghost use Rattle.ch_reader.specs.declared.item.Front.TheVariants.{Unfinished};
ghost use Rattle.ch_model.specs.Host.{is_ready_front};
ghost use Rattle.ch_endpoint.specs.Readers.{handed, HasRead, ReadsOn, is_whole, past};

use crate::front::reader_of;
use ch_base::OutOfMemory;
use ch_reader::{Expected, Front, Reader};
use std::alloc::Global;
use std::marker::Model;
use std::mem;

/// Bytes that are fed and not read. Contracts see which item is read next, and the bytes since the last item.
///
/// Each byte is kept here until its item is handed out, and goes to the reader once. So to feed bytes and to take
/// an item costs the bytes fed and those of the item, however many are kept.
#[derive(Drop)]
pub(crate) struct Unread {
    expected: Expected,
    bytes: Vec<u8>,
    /// How many of the bytes are of items that were handed out.
    read: usize,
    /// It has read to what stands at the front. There is none before the first byte.
    reader: Option<Reader>,
    front: Front,
    /// How many bytes are of what stands at the front.
    count: usize,
}

impl Model for Unread {
    ghost use Rattle.ch_endpoint.specs.Unread.{Unread as UnreadValue};

    ghost Value = { UnreadValue };

    ghost use Rattle.std.specs.Prelude.{drop};
    ghost use Rattle.ch_endpoint.specs.Readers.{KnowsFront};

    ghost view = { λ u. record { expected = u.expected; since = drop u.read u.bytes.items } };

    ghost invariant = { λ u. KnowsFront u.expected u.bytes.items u.read u.reader u.front u.count };
}

/// The reader that has read so far: the one that is held, or a new one.
fn reader_so_far(
    alloc: Global,
    expected: Expected,
    held: Option<Reader>,
) -> Result<Reader, OutOfMemory>
    ensures { IfOk result (λ reader. (since : List ℕ) → HasRead expected since Unfinished held → reader ≡ Waits expected since) }
{
    match held {
        Some(reader) => Ok(reader),
        None => reader_of(alloc, expected),
    }
}

/// What a reader hands out.
fn handed_out(reader: &mut Reader) -> Front
    ensures front { result ≡ handed (taken_of reader.old).0 }
    ensures reader { reader.new ≡ (taken_of reader.old).1 }
{
    match reader.take() {
        Ok(None) => Front::Unfinished,
        Ok(Some(item)) => Front::Whole(item),
        Err(error) => Front::Refused(error),
    }
}

/// What stands at the front once these bytes follow those that were read, which are unfinished, and how many of
/// them are of it.
fn read_on(
    alloc: Global,
    expected: Expected,
    held: Option<Reader>,
    piece: &[u8],
) -> Result<(Reader, Front, usize), OutOfMemory>
    ensures on { IfOk result (λ r. (since : List ℕ) → HasRead expected since Unfinished held → ReadsOn expected since piece.now r.0 r.1 r.2) }
    ensures within { IfOk result (λ r. r.2 ≤ length piece.now) }
{
    let mut reader = reader_so_far(alloc, expected, held)?;
    let count = reader.feed(piece)?;
    let front = handed_out(&mut reader);
    Ok((reader, front, count))
}

/// The bytes from a place on.
fn from_place(bytes: &[u8], place: usize) -> &[u8]
    requires { place ≤ length bytes.now }
    ensures { result.now ≡ drop place bytes.now }
{
    &bytes[place..]
}

impl Unread {
    /// No byte was fed.
    pub(crate) fn new(alloc: Global, expected: Expected) -> Unread
        ensures { result ≡ record { expected = expected; since = [] } }
    {
        Unread {
            expected,
            bytes: Vec::new(alloc),
            read: 0,
            reader: None,
            front: Front::Unfinished,
            count: 0,
        }
    }

    /// Whether an item or a refusal stands at the front.
    pub(crate) fn is_ready(&self) -> bool
        ensures { result ≡ is_ready_front (reading self.now.expected self.now.since).0 }
    {
        match self.front {
            Front::Unfinished => false,
            _ => true,
        }
    }

    /// All bytes are dropped.
    pub(crate) fn clear(&mut self)
        ensures { self.new ≡ record self.old { since = [] } }
    {
        self.bytes = Vec::new(*self.bytes.allocator());
        self.read = 0;
        self.reader = None;
        self.front = Front::Unfinished;
        self.count = 0;
    }

    /// Bytes that are read leave their memory once they are more than those that aren't, so that each byte is
    /// moved about once.
    fn trim(&mut self)
        ensures { self.new ≡ self.old }
    {
        if self.read > self.bytes.len() / 2 {
            self.bytes.drain(..self.read);
            self.read = 0;
        }
    }

    /// Bytes are kept behind those that are.
    pub(crate) fn feed(&mut self, piece: &[u8]) -> Result<(), OutOfMemory>
        ensures { OnOk result (self.new ≡ record self.old { since = self.old.since ++ piece.now }) }
    {
        self.trim();
        match self.front {
            Front::Unfinished => self.feed_reader(piece),
            _ => self.feed_behind(piece),
        }
    }

    /// Bytes are kept behind an item or a refusal.
    fn feed_behind(&mut self, piece: &[u8]) -> Result<(), OutOfMemory>
        requires { is_ready_front (reading self.old.expected self.old.since).0 ≡ true }
        ensures { OnOk result (self.new ≡ record self.old { since = self.old.since ++ piece.now }) }
    {
        self.bytes.extend_from_slice(piece)?;
        Ok(())
    }

    /// Bytes follow what is unfinished. Without memory all are dropped.
    fn feed_reader(&mut self, piece: &[u8]) -> Result<(), OutOfMemory>
        requires { (reading self.old.expected self.old.since).0 ≡ Unfinished }
        ensures { OnOk result (self.new ≡ record self.old { since = self.old.since ++ piece.now }) }
    {
        self.bytes.extend_from_slice(piece)?;
        let held = mem::replace(&mut self.reader, None);
        match read_on(*self.bytes.allocator(), self.expected, held, piece) {
            Ok((reader, front, count)) => {
                self.reader = Some(reader);
                self.front = front;
                self.count += count;
                Ok(())
            }
            Err(e) => {
                self.bytes.clear();
                self.read = 0;
                self.front = Front::Unfinished;
                self.count = 0;
                Err(e)
            }
        }
    }

    /// What stands at the front; an item is handed out, and the next begins behind it.
    pub(crate) fn take(&mut self) -> Result<Front, OutOfMemory>
        ensures front { IfOk result (λ front. front ≡ (reading self.old.expected self.old.since).0) }
        ensures left { OnOk result (self.new ≡ past (reading self.old.expected self.old.since).0 (reading self.old.expected self.old.since).1 self.old) }
    {
        match self.front {
            Front::Unfinished => Ok(Front::Unfinished),
            Front::Refused(error) => Ok(Front::Refused(error)),
            Front::Whole(_) => self.pass(),
        }
    }

    /// The item at the front is handed out. Without memory all bytes are dropped.
    fn pass(&mut self) -> Result<Front, OutOfMemory>
        requires { is_whole (reading self.old.expected self.old.since).0 ≡ true }
        ensures front { IfOk result (λ front. front ≡ (reading self.old.expected self.old.since).0) }
        ensures left { OnOk result (self.new ≡ past (reading self.old.expected self.old.since).0 (reading self.old.expected self.old.since).1 self.old) }
    {
        let read = self.read + self.count;
        let held = mem::replace(&mut self.reader, None);
        let rest = from_place(self.bytes.as_slice(), read);
        match read_on(*self.bytes.allocator(), Expected::Frame, held, rest) {
            Ok((reader, front, count)) => {
                self.expected = Expected::Frame;
                self.read = read;
                self.reader = Some(reader);
                self.count = count;
                Ok(mem::replace(&mut self.front, front))
            }
            Err(e) => {
                self.bytes.clear();
                self.read = 0;
                self.front = Front::Unfinished;
                self.count = 0;
                Err(e)
            }
        }
    }
}
