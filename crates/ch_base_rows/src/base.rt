//! Addresses: texts that are read, with their parts; texts that are refused, with the first fault;
//! the order of addresses. Numbers, and copies of events.

use ch_base::{Address, AddressError, Event, Text, Why, read_number};
use std::cmp::Ordering;
use std::process::Abort;
use std::test::Fail;

/// Texts, and why each is no address.
const REFUSED: [(&[u8], AddressError); 24] = [
    (b"", AddressError::NoHost),
    (b"h", AddressError::NoHost),
    (b":1:0", AddressError::NoHost),
    (b"h_:1:0", AddressError::NoHost),
    (b"h :1:0", AddressError::NoHost),
    (b"\xff:1:0", AddressError::NoHost),
    (b"h:", AddressError::BadPort),
    (b"h:1", AddressError::BadPort),
    (b"h::0", AddressError::BadPort),
    (b"h:0:0", AddressError::BadPort),
    (b"h:01:0", AddressError::BadPort),
    (b"h:65536:0", AddressError::BadPort),
    (b"h:4294967297:0", AddressError::BadPort),
    (b"h:x:0", AddressError::BadPort),
    (b"h:+1:0", AddressError::BadPort),
    (b"h:1:", AddressError::BadId),
    (b"h:1:00", AddressError::BadId),
    (b"h:1:4294967296", AddressError::BadId),
    (b"h:1:18446744073709551616", AddressError::BadId),
    (b"h:1:0:", AddressError::BadId),
    (b"h:1:x", AddressError::BadId),
    (b"h:1: 0", AddressError::BadId),
    (b"h:1:-1", AddressError::BadId),
    (b"h:1:0\n", AddressError::BadId),
];

/// Texts, and the parts of each.
const ACCEPTED: [(&[u8], &[u8], u16, u32); 5] = [
    (b"h:1:0", b"h", 1, 0),
    (b"h:65535:4294967295", b"h", 65535, 4294967295),
    (b"10.0.0.1:9000:10", b"10.0.0.1", 9000, 10),
    (b"-:1:1", b"-", 1, 1),
    (b"A.b-9:10:0", b"A.b-9", 10, 0),
];

#[test]
fn refused_addresses(rt: HostRuntime) {
    for (text, fault) in REFUSED {
        assert_eq!(rt; Address::read(rt.alloc(), text).err(), Some(fault));
    }
}

/// The greatest length, and one more.
#[test]
fn lengths_of_addresses(rt: HostRuntime) -> Result<(), Fail> {
    let mut text = Vec::new(rt.alloc());
    for _ in 0..76 {
        text.push(b'h')?;
    }
    text.extend_from_slice(b":1:0")?;
    assert!(rt; Address::read(rt.alloc(), text.as_slice()).is_ok());
    text.push(b'0')?;
    let read = Address::read(rt.alloc(), text.as_slice());
    assert_eq!(rt; read.err(), Some(AddressError::TooLong));
    Ok(())
}

#[test]
fn accepted_addresses(rt: HostRuntime) -> Result<(), Fail> {
    for (text, host, port, id) in ACCEPTED {
        let address = Address::read(rt.alloc(), text)?;
        assert_eq!(rt; address.host.as_slice(), host);
        assert_eq!(rt; address.port, port);
        assert_eq!(rt; address.id, id);
        assert_eq!(rt; address.text()?.as_slice(), text);
        let copy = address.copy()?;
        assert_eq!(rt; copy.compare(&address), Ordering::Equal);
    }
    Ok(())
}

/// The order is that of the texts: `9` is greater than `1`, and `:` than any digit.
#[test]
fn order_of_addresses(rt: HostRuntime) -> Result<(), Fail> {
    let rows = [
        (b"h:9:0".as_slice(), b"h:10:0".as_slice(), Ordering::Greater),
        (b"h:1:0", b"h:1:1", Ordering::Less),
        (b"h:1:0", b"h1:1:0", Ordering::Greater),
        (b"h.a:1:0", b"h:1:0", Ordering::Less),
        (b"i:1:0", b"h:1:0", Ordering::Greater),
        (b"h:1:0", b"h:1:0", Ordering::Equal),
    ];
    for (left, right, order) in rows {
        let left = Address::read(rt.alloc(), left)?;
        let right = Address::read(rt.alloc(), right)?;
        assert_eq!(rt; left.compare(&right), order);
    }
    Ok(())
}

#[test]
fn numbers(rt: HostRuntime) {
    let rows = [
        (b"0".as_slice(), 9, Some(0)),
        (b"9", 9, Some(9)),
        (b"10", 9, None),
        (b"4294967295", u32::MAX, Some(u32::MAX)),
        (b"4294967296", u32::MAX, None),
        (b"99999999999999999999", u32::MAX, None),
        (b"", 9, None),
        (b"00", 9, None),
        (b"01", 9, None),
        (b" 1", 9, None),
        (b"1a", 9, None),
    ];
    for (text, most, number) in rows {
        assert_eq!(rt; read_number(text, most), number);
    }
}

#[test]
fn copies_of_events(rt: HostRuntime) -> Result<(), Fail> {
    let payload = Text::from_vec(Vec::from_slice(rt.alloc(), b"hi")?);
    let event = Event::Received { conn: 7, payload };
    let copied = event.copy()?;
    match &copied {
        Event::Received { conn, payload } => {
            assert_eq!(rt; *conn, 7);
            assert_eq!(rt; payload.as_slice(), b"hi".as_slice());
        }
        _ => assert!(rt; false),
    }
    let peer = Address::read(rt.alloc(), b"h:1:0")?;
    let why = Why::NodeDown;
    let event = Event::ConnectionLost { peer, why };
    let copied = event.copy()?;
    match &copied {
        Event::ConnectionLost { peer, why } => {
            assert_eq!(rt; peer.port, 1);
            assert_eq!(rt; *why, Why::NodeDown);
        }
        _ => assert!(rt; false),
    }
    Ok(())
}
