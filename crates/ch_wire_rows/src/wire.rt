//! The bytes of handshakes and frames, by hand, with the least and the greatest of each field.

ghost use Rattle.ch_wire.specs.Spelling.{IsFrame};

use ch_base::{Address, Text};
use ch_wire::{
    Answer, Frame, Head, Request, answer_bytes, answer_of, head_of, put_frame, put_request,
};
use std::alloc::Global;
use std::process::Abort;
use std::test::Fail;

const GREATEST_ADDRESS: &[u8] =
    b"aaaaaaaaaaaaaaaaaaaaaaaaaaaaaaaaaaaaaaaaaaaaaaaaaaaaaaaaaaaaaaa:65535:4294967295";

const LONGEST_PAYLOAD: [u8; 65536] = [7; 65536];

/// The bytes that a request appends to one byte.
fn requested(alloc: Global, target: u32, from: &[u8]) -> Result<Vec<u8>, Fail> {
    let from = Address::read(alloc, from)?;
    let mut out = Vec::new(alloc);
    out.push(0xaa)?;
    put_request(&Request { target, from }, &mut out)?;
    Ok(out)
}

#[test]
fn spells_requests(rt: HostRuntime) -> Result<(), Fail> {
    let least = requested(rt.alloc(), 0, b"h:1:0")?;
    assert_eq!(rt; least.as_slice(), b"\xaa\0\0\0\0\0\0\0\x05h:1:0".as_slice());
    let greatest = requested(rt.alloc(), 4_294_967_295, GREATEST_ADDRESS)?;
    assert_eq!(rt; greatest.len(), 89);
    assert_eq!(rt;
        &greatest.as_slice()[..9],
        b"\xaa\xff\xff\xff\xff\0\0\0\x50".as_slice()
    );
    assert_eq!(rt; &greatest.as_slice()[9..], GREATEST_ADDRESS);
    Ok(())
}

/// The frame appends these bytes to one byte.
fn spells(rt: &impl Abort, alloc: Global, frame: &Frame, want: &[u8]) -> Result<(), Fail>
    requires { IsFrame frame.now }
{
    let mut out = Vec::new(alloc);
    out.push(0xaa)?;
    put_frame(frame, &mut out)?;
    let end = out.len();
    assert!(rt; end >= 1);
    assert_eq!(rt; &out.as_slice()[1..], want);
    Ok(())
}

#[test]
fn spells_frames(rt: HostRuntime) -> Result<(), Fail> {
    let alloc = rt.alloc();
    spells(&rt, alloc, &Frame::Created(1024), b"\0\0\0\0\0\0\x04\0")?;
    spells(
        &rt,
        alloc,
        &Frame::Closed(4_294_967_295),
        b"\0\0\0\x01\xff\xff\xff\xff",
    )?;
    spells(&rt, alloc, &Frame::EndClosed, b"\0\0\0\x03")?;
    spells(&rt, alloc, &Frame::Probe, b"\0\0\0\x04")?;
    spells(&rt, alloc, &Frame::ProbeAck, b"\0\0\0\x05")?;
    spells(
        &rt,
        alloc,
        &Frame::Data(1024, Text::new(alloc)),
        b"\0\0\x04\0\0\0\0\0",
    )?;
    let hi = Text::of(alloc, b"\x01thi")?;
    spells(
        &rt,
        alloc,
        &Frame::Data(1025, hi),
        b"\0\0\x04\x01\0\0\0\x04\x01thi",
    )?;
    Ok(())
}

#[test]
fn spells_the_longest_payload(rt: HostRuntime) -> Result<(), Fail> {
    let payload = Text::of(rt.alloc(), &LONGEST_PAYLOAD)?;
    let mut out = Vec::new(rt.alloc());
    put_frame(&Frame::Data(66_559, payload), &mut out)?;
    assert_eq!(rt; out.len(), 65_544);
    assert_eq!(rt;
        &out.as_slice()[..9],
        b"\0\x01\x03\xff\0\x01\0\0\x07".as_slice()
    );
    Ok(())
}

#[test]
fn knows_answers(rt: HostRuntime) {
    let rows = [
        (Answer::Accepted, [0, 0, 0, 0]),
        (Answer::Invalid, [0, 0, 0, 1]),
        (Answer::Crossed, [0, 0, 0, 2]),
        (Answer::Mismatch, [0, 0, 0, 3]),
    ];
    for (answer, word) in rows {
        assert_eq!(rt; answer_bytes(answer), word, "of {answer:?}");
        assert_eq!(rt; answer_of(word), Some(answer), "of {word:?}");
    }
    for word in [[0, 0, 0, 4], [1, 0, 0, 0], [255, 255, 255, 255]] {
        assert_eq!(rt; answer_of(word), None, "of {word:?}");
    }
}

#[test]
fn knows_heads(rt: HostRuntime) {
    let rows = [
        ([0, 0, 0, 0], Head::Created),
        ([0, 0, 0, 1], Head::Closed),
        ([0, 0, 0, 2], Head::Unknown),
        ([0, 0, 0, 3], Head::EndClosed),
        ([0, 0, 0, 4], Head::Probe),
        ([0, 0, 0, 5], Head::ProbeAck),
        ([0, 0, 0, 6], Head::Unknown),
        ([0, 0, 3, 255], Head::Unknown),
        ([0, 0, 4, 0], Head::Data(1024)),
        ([255, 255, 255, 255], Head::Data(4_294_967_295)),
    ];
    for (word, head) in rows {
        assert_eq!(rt; head_of(word), head, "of {word:?}");
    }
}
