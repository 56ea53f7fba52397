//! Messages of another mark, and bodies that are no value's spelling.

use crate::fixtures::{PROCESS, message};
use crate::tally::Tally;
use ch_base::Text;
use ch_ident::ProcessId;
use ch_typed::{SendPort, Typed, TypedError, unpack};
use std::alloc::Global;
use std::test::Fail;

#[test]
fn another_mark_is_refused_with_both(rt: HostRuntime) -> Result<(), Fail> {
    let other = message(rt.alloc(), b"s", b"\0\0\0\x01")?;
    match unpack::<Tally>(rt.alloc(), &other) {
        Err(TypedError::WrongMark { wanted, found }) => {
            assert_eq!(rt; wanted.bytes.as_slice(), b"t".as_slice());
            assert_eq!(rt; found.bytes.as_slice(), b"s".as_slice());
        }
        _ => panic!(rt; "the mark is another"),
    }
    Ok(())
}

fn is_bad<T: Typed + Drop>(alloc: Global, body: &[u8]) -> bool {
    matches!(T::take(alloc, body), Err(TypedError::BadBody))
}

#[test]
fn numbers_of_another_length(rt: HostRuntime) {
    assert!(rt; is_bad::<Tally>(rt.alloc(), b""));
    assert!(rt; is_bad::<u32>(rt.alloc(), b"\0\0\0"));
    assert!(rt; is_bad::<u32>(rt.alloc(), b"\0\0\0\0\0"));
    assert!(rt; is_bad::<u64>(rt.alloc(), b"\0\0\0\0\0\0\0\0\0"));
}

/// A node is no process, nor is a process a port.
#[test]
fn identifiers_of_another_kind(rt: HostRuntime) {
    assert!(rt; is_bad::<ProcessId>(rt.alloc(), b"\0\x05h:1:0"));
    assert!(rt; is_bad::<SendPort<u32>>(rt.alloc(), PROCESS));
}

/// The length of the first part passes what is there, or leaves the second too short.
#[test]
fn pairs_that_are_cut(rt: HostRuntime) {
    assert!(rt; is_bad::<(u32, u32)>(rt.alloc(), b"\0\0\0\0\0\0\0\x04\0\0\0\x01\0\0\0"));
    assert!(rt; is_bad::<(u32, Text)>(rt.alloc(), b"\0\0\0\0\0\0\0\x05\0\0\0\x01"));
}
