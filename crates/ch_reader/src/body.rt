//! The counted bytes behind an item's words.
//!
//! What the words tell stands below, in `glance`; the reader stands above.

ghost use Rattle.std.specs.Prelude.{◌≡◌, ◌≤◌, ◌+◌, ◌++◌, length, IfOk, OnErr};
ghost use Rattle.ch_base.specs.Addresses.{read_address};
ghost use Rattle.ch_reader.specs.Reading.{rest_reading, body_front, request_front as request_front_of, glance_at};
ghost use Rattle.ch_reader.specs.Keeping.{Continues, HasRoom, KeepsMissing};

use crate::glance::{Glance, Opened, look_at};
use crate::item::{Expected, Front, Item, ReaderError};
use ch_base::{Address, AddressError, OutOfMemory, Text};
use ch_wire::{Frame, Request};
use std::alloc::Global;
use std::mem;

/// What stands at the front once these bytes follow the words and the body so far, and how many of
/// them are of the item. Without memory the body stays as it was.
pub(crate) fn continued(
    expected: Expected,
    words: &[u8],
    body: &mut Vec<u8>,
    rest: &[u8],
) -> Result<(Front, usize), OutOfMemory>
    requires { HasRoom (glance_at expected words.now) body.old.items }
    ensures ok { IfOk result (λ r. Continues (glance_at expected words.now) body.old.items rest.now r.0 r.1 body.new.items) }
    ensures err { OnErr result (body.new.items ≡ body.old.items) }
{
    match look_at(expected, words) {
        Glance::Settled(front) => Ok((front, 0)),
        Glance::Body(opened, count) => filled(opened, count, body, rest),
    }
}

/// How many bytes of the body are to come, as far as the words tell.
pub(crate) fn missing(expected: Expected, words: &[u8], body: &[u8]) -> usize
    ensures { KeepsMissing expected words.now body.now result }
{
    match look_at(expected, words) {
        Glance::Settled(_) => 0,
        Glance::Body(_, count) => count.saturating_sub(body.len()),
    }
}

/// The same of a body of so many bytes. Its memory is asked for once, with the first of them.
fn filled(
    opened: Opened,
    count: usize,
    body: &mut Vec<u8>,
    rest: &[u8],
) -> Result<(Front, usize), OutOfMemory>
    requires { length body.old.items ≤ count }
    ensures ok { IfOk result (λ r. Continues (Glance.Body opened count) body.old.items rest.now r.0 r.1 body.new.items) }
    ensures err { OnErr result (body.new.items ≡ body.old.items) }
{
    let missing = count - body.len();
    body.reserve_exact(missing)?;
    if rest.len() < missing {
        body.extend_from_slice(rest)?;
        Ok((Front::Unfinished, rest.len()))
    } else {
        let front = ended(opened, body, &rest[..missing])?;
        Ok((front, missing))
    }
}

/// What a body and its last bytes end. Without memory the body stays as it was.
fn ended(opened: Opened, body: &mut Vec<u8>, last: &[u8]) -> Result<Front, OutOfMemory>
    ensures ok { IfOk result (λ f. f ≡ body_front opened (body.old.items ++ last.now)) }
    ensures err { OnErr result (body.new.items ≡ body.old.items) }
{
    let had = body.len();
    body.extend_from_slice(last)?;
    match opened {
        Opened::Data(id) => Ok(payload_front(id, body)),
        Opened::Request(target) => match request_front(*body.allocator(), target, body.as_slice()) {
            Ok(front) => Ok(front),
            Err(e) => {
                body.truncate(had);
                Err(e)
            }
        },
    }
}

/// The frame whose payload is this body, which is given up.
fn payload_front(id: u32, body: &mut Vec<u8>) -> Front
    ensures { result ≡ Front.Whole (Item.Frame (Frame.Data id body.old.items)) }
{
    let none = Vec::new(*body.allocator());
    let payload = mem::replace(body, none);
    Front::Whole(Item::Frame(Frame::Data(id, Text::from_vec(payload))))
}

/// The request of this target, where its address may be read.
fn request_front(alloc: Global, target: u32, text: &[u8]) -> Result<Front, OutOfMemory>
    ensures { IfOk result (λ f. f ≡ request_front_of target (read_address text.now)) }
{
    match Address::read(alloc, text) {
        Ok(from) => Ok(Front::Whole(Item::Request(Request { target, from }))),
        Err(AddressError::OutOfMemory) => Err(OutOfMemory),
        Err(_) => Ok(Front::Refused(ReaderError::BadAddress)),
    }
}
