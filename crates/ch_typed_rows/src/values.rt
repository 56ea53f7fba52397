//! Values packed and read.

use crate::fixtures::{PROCESS, own};
use crate::tally::Tally;
use ch_base::Text;
use ch_ident::Message;
use ch_mail::Mail;
use ch_typed::{ReceivePort, SendPort, Typed, channel, pack, unpack};
use std::alloc::Global;
use std::process::Abort;
use std::test::Fail;

fn is_message(rt: &impl Abort, packed: &Message, mark: &[u8], body: &[u8]) {
    assert_eq!(rt; packed.mark.bytes.as_slice(), mark);
    assert_eq!(rt; packed.body.as_slice(), body);
}

/// A value is packed in these bytes, and what is read from them is packed in them again.
fn both_ways<T: Typed + Drop>(
    rt: &impl Abort,
    alloc: Global,
    value: &T,
    mark: &[u8],
    body: &[u8],
) -> Result<(), Fail> {
    let packed = pack(alloc, value)?;
    is_message(rt, &packed, mark, body);
    let read: T = unpack(alloc, &packed)?;
    let again = pack(alloc, &read)?;
    is_message(rt, &again, mark, body);
    Ok(())
}

#[test]
fn a_type_of_a_program(rt: HostRuntime) -> Result<(), Fail> {
    let tally = Tally { count: 258 };
    both_ways(&rt, rt.alloc(), &tally, b"t", b"\0\0\x01\x02")
}

#[test]
fn a_word(rt: HostRuntime) -> Result<(), Fail> {
    both_ways(
        &rt,
        rt.alloc(),
        &0x0102_0304u32,
        b"u32",
        b"\x01\x02\x03\x04",
    )
}

#[test]
fn a_long_number(rt: HostRuntime) -> Result<(), Fail> {
    both_ways(&rt, rt.alloc(), &258u64, b"u64", b"\0\0\0\0\0\0\x01\x02")
}

#[test]
fn a_text(rt: HostRuntime) -> Result<(), Fail> {
    let text = Text::of(rt.alloc(), b"hi")?;
    both_ways(&rt, rt.alloc(), &text, b"text", b"hi")
}

#[test]
fn a_process(rt: HostRuntime) -> Result<(), Fail> {
    let process = own(rt.alloc(), 2)?;
    both_ways(&rt, rt.alloc(), &process, b"process", PROCESS)
}

#[test]
fn a_pair(rt: HostRuntime) -> Result<(), Fail> {
    let text = Text::of(rt.alloc(), b"hi")?;
    let pair = (text, 1u32);
    both_ways(
        &rt,
        rt.alloc(),
        &pair,
        b"pair",
        b"\0\0\0\0\0\0\0\x02hi\0\0\0\x01",
    )
}

#[test]
fn a_send_port(rt: HostRuntime) -> Result<(), Fail> {
    let mut mail = Mail::new(rt.alloc());
    mail.make()?;
    let own = own(rt.alloc(), 0)?;
    let (send, _receive): (SendPort<u32>, ReceivePort<u32>) = channel(rt.alloc(), &mut mail, &own)?;
    both_ways(
        &rt,
        rt.alloc(),
        &send,
        b"sendport",
        b"\x02\x05h:1:0\0\0\0\x07\0\0\0\0\0\0\0\0",
    )
}

#[test]
fn marks_are_those_of_the_types(rt: HostRuntime) {
    assert_eq!(rt; Tally::MARK, b"t".as_slice());
    assert_eq!(rt; u32::MARK, b"u32".as_slice());
    assert_eq!(rt; <(u32, u64)>::MARK, b"pair".as_slice());
    assert_eq!(rt; SendPort::<u32>::MARK, b"sendport".as_slice());
}
