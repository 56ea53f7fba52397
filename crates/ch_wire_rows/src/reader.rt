//! Streams by hand: their items, in any pieces, and each refusal with its place.

ghost use Rattle.std.specs.Prelude.{◌<◌};

use ch_base::Text;
use ch_reader::{Decoded, Item, Reader, ReaderError, Role, decode};
use ch_wire::{Answer, Frame};
use std::alloc::Global;
use std::process::Abort;
use std::test::Fail;

/// The opening of a connection from a process of `h:1:0` to one of `i:1:0`.
const OPENING: &[u8] = b"\0\x01\x05h:1:0\0\0\0\x07\0\0\0\0\x01\x05i:1:0\0\0\0\x09\0\0\0\0";

/// What `h:1:0` writes to `i:1:0`: its request, the connection, its opening, one message.
const TO_TARGET: &[u8] = b"\0\0\0\0\0\0\0\x05h:1:0\
    \0\0\0\0\0\0\x04\0\
    \0\0\x04\0\0\0\0\x1f\0\x01\x05h:1:0\0\0\0\x07\0\0\0\0\x01\x05i:1:0\0\0\0\x09\0\0\0\0\
    \0\0\x04\0\0\0\0\x04\x01thi";

/// An answer, and one frame of each other kind.
const TO_OPENER: &[u8] = b"\0\0\0\0\
    \0\0\0\x04\0\0\0\x05\0\0\x04\0\0\0\0\0\0\0\0\x01\0\0\x04\0\0\0\0\x03";

/// An item, by what a test can write down.
enum Want {
    Request(u32, &'static [u8]),
    Answer(Answer),
    Created(u32),
    Closed(u32),
    EndClosed,
    Probe,
    ProbeAck,
    Data(u32, &'static [u8]),
}

fn is_wanted(item: &Item, want: &Want) -> Result<bool, Fail> {
    let same = match (item, want) {
        (Item::Request(found), Want::Request(target, from)) => {
            let text = found.from.text()?;
            found.target == *target && text.as_slice() == *from
        }
        (Item::Answer(found), Want::Answer(answer)) => *found == *answer,
        (Item::Frame(frame), want) => is_wanted_frame(frame, want),
        _ => false,
    };
    Ok(same)
}

fn is_wanted_frame(frame: &Frame, want: &Want) -> bool {
    match (frame, want) {
        (Frame::Created(found), Want::Created(id)) => *found == *id,
        (Frame::Closed(found), Want::Closed(id)) => *found == *id,
        (Frame::EndClosed, Want::EndClosed) => true,
        (Frame::Probe, Want::Probe) => true,
        (Frame::ProbeAck, Want::ProbeAck) => true,
        (Frame::Data(found, payload), Want::Data(id, bytes)) => {
            *found == *id && payload.as_slice() == *bytes
        }
        _ => false,
    }
}

const TARGET_WANTS: [Want; 4] = [
    Want::Request(0, b"h:1:0"),
    Want::Created(1024),
    Want::Data(1024, OPENING),
    Want::Data(1024, b"\x01thi"),
];

const OPENER_WANTS: [Want; 6] = [
    Want::Answer(Answer::Accepted),
    Want::Probe,
    Want::ProbeAck,
    Want::Data(1024, b""),
    Want::Closed(1024),
    Want::EndClosed,
];

/// These items are handed out, and nothing is refused.
fn expect_items(rt: &impl Abort, found: &Decoded, wants: &[Want]) -> Result<(), Fail> {
    assert_eq!(rt; found.refusal, None);
    assert_eq!(rt; found.items.len(), wants.len());
    for (item, want) in found.items.iter().zip(wants.iter()) {
        assert!(rt; is_wanted(item, want)?, "{item:?}");
    }
    Ok(())
}

/// The stream in pieces of this size.
fn pieces(alloc: Global, bytes: &[u8], size: usize) -> Result<Vec<Text>, Fail>
    requires { 0 < size }
{
    let mut all = Vec::new(alloc);
    for piece in bytes.chunks(size) {
        all.push(Text::of(alloc, piece)?)?;
    }
    Ok(all)
}

#[test]
fn hands_out_the_same_in_any_pieces(rt: HostRuntime) -> Result<(), Fail> {
    for size in [1, 2, 3, 7, 59] {
        assert!(rt; size > 0);
        let cut = pieces(rt.alloc(), TO_TARGET, size)?;
        expect_items(
            &rt,
            &decode(rt.alloc(), Role::Target, cut.as_slice())?,
            &TARGET_WANTS,
        )?;
        let cut = pieces(rt.alloc(), TO_OPENER, size)?;
        expect_items(
            &rt,
            &decode(rt.alloc(), Role::Opener, cut.as_slice())?,
            &OPENER_WANTS,
        )?;
    }
    Ok(())
}

/// The stream in two pieces, cut at each of its bytes.
fn expect_any_cut(
    rt: &impl Abort,
    alloc: Global,
    role: Role,
    bytes: &[u8],
    wants: &[Want],
) -> Result<(), Fail> {
    for at in 0..bytes.len() {
        let mut cut = Vec::new(alloc);
        cut.push(Text::of(alloc, &bytes[..at])?)?;
        cut.push(Text::of(alloc, &bytes[at..])?)?;
        expect_items(rt, &decode(alloc, role, cut.as_slice())?, wants)?;
    }
    Ok(())
}

#[test]
fn hands_out_the_same_at_any_cut(rt: HostRuntime) -> Result<(), Fail> {
    expect_any_cut(&rt, rt.alloc(), Role::Target, TO_TARGET, &TARGET_WANTS)?;
    expect_any_cut(&rt, rt.alloc(), Role::Opener, TO_OPENER, &OPENER_WANTS)
}

/// Feeds and takes until nothing more is taken, and answers how many bytes were taken.
fn taken(reader: &mut Reader, bytes: &[u8]) -> Result<usize, Fail> {
    let mut done = 0;
    for _ in 0..bytes.len() {
        done += reader.feed(&bytes[done..])?;
        match reader.take() {
            Ok(_) => {}
            Err(_) => return Ok(done),
        }
    }
    Ok(done)
}

/// Each refusal, with the role, the bytes, and the place of the last byte that is taken.
const REFUSED: [(Role, &[u8], usize, ReaderError); 14] = [
    (Role::Opener, b"\0\0\0\x04\0", 4, ReaderError::BadAnswer),
    (Role::Opener, b"\xff\0\0\0\0", 4, ReaderError::BadAnswer),
    (
        Role::Opener,
        b"\0\0\0\0\0\0\0\x02\0",
        8,
        ReaderError::UnknownControl,
    ),
    (
        Role::Opener,
        b"\0\0\0\0\0\0\0\x06\0",
        8,
        ReaderError::UnknownControl,
    ),
    (
        Role::Opener,
        b"\0\0\0\0\0\0\x03\xff\0",
        8,
        ReaderError::UnknownControl,
    ),
    (
        Role::Opener,
        b"\0\0\0\0\0\0\0\x04\0\0\0\x02\0",
        12,
        ReaderError::UnknownControl,
    ),
    (
        Role::Opener,
        b"\0\0\0\0\0\0\x04\0\0\x01\0\x01\0",
        12,
        ReaderError::PayloadLong,
    ),
    (
        Role::Target,
        b"\0\0\0\0\0\0\0\0h",
        8,
        ReaderError::BadAddress,
    ),
    (
        Role::Target,
        b"\0\0\0\0\0\0\0\x51h",
        8,
        ReaderError::AddressLong,
    ),
    (
        Role::Target,
        b"\0\0\0\0\x01\0\0\x05h",
        8,
        ReaderError::AddressLong,
    ),
    (
        Role::Target,
        b"\0\0\0\0\0\0\0\x05h:0:0:",
        13,
        ReaderError::BadAddress,
    ),
    (
        Role::Target,
        b"\0\0\0\0\0\0\0\x06h:1:00:",
        14,
        ReaderError::BadAddress,
    ),
    (
        Role::Target,
        b"\0\0\0\0\0\0\0\x01:\0",
        9,
        ReaderError::BadAddress,
    ),
    (
        Role::Target,
        b"\0\0\0\0\0\0\0\x05h:1:0\0\0\0\0\0\0\0\0\0\0\0\x07\0",
        25,
        ReaderError::UnknownControl,
    ),
];

/// A refusal stands at its byte, however the stream comes, and for good.
#[test]
fn refuses_at_the_first_wrong_byte(rt: HostRuntime) -> Result<(), Fail> {
    for (role, bytes, place, error) in REFUSED {
        let mut reader = Reader::new(rt.alloc(), role)?;
        assert_eq!(rt; taken(&mut reader, bytes)?, place, "of {bytes:?}");
        assert!(rt;
            matches!(reader.take(), Err(found) if found == error),
            "of {bytes:?}"
        );
        assert_eq!(rt; reader.feed(bytes)?, 0, "of {bytes:?}");
        assert!(rt;
            matches!(reader.take(), Err(found) if found == error),
            "of {bytes:?}"
        );
        let single = decode(rt.alloc(), role, pieces(rt.alloc(), bytes, 1)?.as_slice())?;
        assert_eq!(rt; single.refusal, Some(error), "of {bytes:?}");
    }
    Ok(())
}

/// An item waits until it is taken, and nothing else is taken meanwhile.
#[test]
fn waits_with_an_item(rt: HostRuntime) -> Result<(), Fail> {
    let mut reader = Reader::new(rt.alloc(), Role::Opener)?;
    assert!(rt; matches!(reader.take(), Ok(None)));
    assert_eq!(rt; reader.feed(b"\0\0\0\0\0\0")?, 4);
    assert_eq!(rt; reader.feed(b"\0\0")?, 0);
    assert!(rt; matches!(reader.take(), Ok(Some(Item::Answer(Answer::Accepted)))));
    assert!(rt; matches!(reader.take(), Ok(None)));
    assert_eq!(rt; reader.feed(b"\0\0")?, 2);
    assert!(rt; matches!(reader.take(), Ok(None)));
    Ok(())
}

const LONGEST: [u8; 65536] = [7; 65536];

/// The longest payload, in two pieces.
#[test]
fn takes_the_longest_payload(rt: HostRuntime) -> Result<(), Fail> {
    let mut reader = Reader::new(rt.alloc(), Role::Opener)?;
    assert_eq!(rt; reader.feed(b"\0\0\0\x03")?, 4);
    assert!(rt; matches!(reader.take(), Ok(Some(Item::Answer(Answer::Mismatch)))));
    assert_eq!(rt; reader.feed(b"\0\0\x04\0\0\x01\0\0")?, 8);
    assert_eq!(rt; reader.feed(&LONGEST[..65535])?, 65535);
    assert!(rt; matches!(reader.take(), Ok(None)));
    assert_eq!(rt; reader.feed(&LONGEST)?, 1);
    match reader.take() {
        Ok(Some(Item::Frame(Frame::Data(1024, payload)))) => {
            assert_eq!(rt; payload.as_slice(), LONGEST.as_slice());
        }
        _ => assert!(rt; false, "no payload"),
    }
    Ok(())
}
