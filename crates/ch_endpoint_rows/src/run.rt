//! Two hosts whose bytes are handed from one to the other.

use crate::calls::host_at;
use ch_base::{Address, Event, Text};
use ch_endpoint::{Host, SocketEvent, Step, Weight};
use std::alloc::Global;
use std::test::Fail;

/// All bytes that these steps write.
fn written(alloc: Global, steps: &[Step]) -> Result<Vec<u8>, Fail> {
    let mut all = Vec::new(alloc);
    for step in steps {
        match step {
            Step::Write { bytes, .. } => all.extend_from_slice(bytes.as_slice())?,
            _ => {}
        }
    }
    Ok(all)
}

/// The steps of the next item, or none.
fn next_of(alloc: Global, host: &mut Host) -> Result<Vec<Step>, Fail> {
    match host.next()? {
        None => Ok(Vec::new(alloc)),
        Some(steps) => Ok(steps),
    }
}

fn feed(alloc: Global, host: &mut Host, sock: u64, bytes: &[u8]) -> Result<(), Fail> {
    let bytes = Text::of(alloc, bytes)?;
    host.on(SocketEvent::Fed { sock, bytes })?;
    Ok(())
}

/// The opener's host asks, the other accepts, and a payload that comes byte by byte is told once it is whole.
#[test]
fn a_payload_comes_byte_by_byte(rt: HostRuntime) -> Result<(), Fail> {
    let alloc = rt.alloc();
    let mut one = host_at(alloc, 1)?;
    let mut two = host_at(alloc, 2)?;
    let peer = Address::read(alloc, b"h:2:0")?;
    let payload = Vec::from_elem(alloc, 7u8, 65_536)?;
    assert!(rt; one.open(0)?);
    assert!(rt; two.open(0)?);
    assert_eq!(rt; one.connect(0, &peer, 0)?.len(), 1);
    assert_eq!(rt; one.send(0, 0, payload.as_slice(), Weight::Free)?.len(), 0);

    let asked = one.on(SocketEvent::Joined { sock: 0 })?;
    let peer_host = Text::of(alloc, b"h")?;
    two.on(SocketEvent::Came { sock: 1, peer_host })?;
    feed(
        alloc,
        &mut two,
        1,
        written(alloc, asked.as_slice())?.as_slice(),
    )?;
    let accepted = next_of(alloc, &mut two)?;
    assert_eq!(rt; accepted.len(), 3);

    feed(
        alloc,
        &mut one,
        0,
        written(alloc, accepted.as_slice())?.as_slice(),
    )?;
    let flushed = next_of(alloc, &mut one)?;
    assert_eq!(rt; flushed.len(), 4);

    let bytes = written(alloc, flushed.as_slice())?;
    assert_eq!(rt; bytes.len(), 65_552);
    for byte in bytes.iter().take(65_551) {
        feed(alloc, &mut two, 1, &[*byte])?;
    }
    assert_eq!(rt; next_of(alloc, &mut two)?.len(), 2);
    assert_eq!(rt; next_of(alloc, &mut two)?.len(), 0);
    feed(alloc, &mut two, 1, &bytes[65_551..])?;
    let told = next_of(alloc, &mut two)?;
    assert_eq!(rt; told.len(), 2);
    match &told[1] {
        Step::Post { event, .. } => match event {
            Event::Received { payload, .. } => assert_eq!(rt; payload.as_slice().len(), 65_536),
            _ => assert!(rt; false),
        },
        _ => assert!(rt; false),
    }
    Ok(())
}
