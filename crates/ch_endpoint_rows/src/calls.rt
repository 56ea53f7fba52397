//! What single calls of a host answer.

use ch_base::{Address, Text};
use ch_endpoint::{EndError, Host, Weight};
use std::alloc::Global;
use std::test::Fail;

/// A host that takes peers of its own host text.
pub fn host_at(alloc: Global, port: u16) -> Result<Host, Fail> {
    let mut circle = Vec::new(alloc);
    circle.push(Text::of(alloc, b"h")?)?;
    Ok(Host::new(alloc, b"h", port, circle.as_slice())?)
}

#[test]
fn opens_a_number_once(rt: HostRuntime) -> Result<(), Fail> {
    let mut host = host_at(rt.alloc(), 1)?;
    assert_eq!(rt; host.open(0)?, true);
    assert_eq!(rt; host.open(0)?, false);
    Ok(())
}

#[test]
fn connects_at_an_open_endpoint(rt: HostRuntime) -> Result<(), Fail> {
    let mut host = host_at(rt.alloc(), 1)?;
    let peer = Address::read(rt.alloc(), b"h:2:0")?;
    assert_eq!(rt; host.connect(9, &peer, 0).err(), Some(EndError::NoEndPoint));
    Ok(())
}

#[test]
fn sends_what_is_short_on_what_is_open(rt: HostRuntime) -> Result<(), Fail> {
    let mut host = host_at(rt.alloc(), 1)?;
    let peer = Address::read(rt.alloc(), b"h:2:0")?;
    let long = Vec::from_elem(rt.alloc(), 0u8, 65_537)?;
    assert_eq!(rt; host.open(0)?, true);
    assert_eq!(rt;
        host.send(0, 0, b"", Weight::Free).err(),
        Some(EndError::NoConnection)
    );
    assert!(rt; host.connect(0, &peer, 0).is_ok());
    assert_eq!(rt;
        host.send(0, 0, long.as_slice(), Weight::Free).err(),
        Some(EndError::PayloadLong)
    );
    assert!(rt; host.send(0, 0, &long[1..], Weight::Free).is_ok());
    Ok(())
}

#[test]
fn closes_what_was_opened(rt: HostRuntime) -> Result<(), Fail> {
    let mut host = host_at(rt.alloc(), 1)?;
    assert_eq!(rt; host.open(0)?, true);
    assert_eq!(rt; host.close(0, 0).err(), Some(EndError::NoConnection));
    assert_eq!(rt; host.close_endpoint(9).err(), Some(EndError::NoEndPoint));
    assert_eq!(rt; host.close_endpoint(0)?.len(), 1);
    assert_eq!(rt; host.close_endpoint(0).err(), Some(EndError::NoEndPoint));
    Ok(())
}
