//! The ids of the connections on one socket: the first, the last, and those that are refused.

use ch_light::{Incoming, LightError, Outgoing};

/// The 65,536th id is the last.
#[test]
fn gives_ids_to_the_last(rt: HostRuntime) {
    let mut out = Outgoing::new(rt.alloc());
    for conn in 0..65_535u64 {
        assert!(rt; out.give(conn).is_ok());
    }
    assert_eq!(rt; out.given(), 65_535);
    assert_eq!(rt; out.give(65_535), Ok(66_559));
    assert_eq!(rt; out.give(65_536), Err(LightError::Spent));
    assert_eq!(rt; out.given(), 65_536);
}

/// A connection has its id while it is open, and a new one when it is opened again.
#[test]
fn closes_given_ids(rt: HostRuntime) {
    let mut out = Outgoing::new(rt.alloc());
    assert_eq!(rt; out.close(8), Err(LightError::NotOpen));
    assert_eq!(rt; out.give(8), Ok(1024));
    assert_eq!(rt; out.give(10), Ok(1025));
    assert_eq!(rt; out.id_of(10), Some(1025));
    assert_eq!(rt; out.close(8), Ok(1024));
    assert_eq!(rt; out.id_of(8), None);
    assert_eq!(rt; out.close(8), Err(LightError::NotOpen));
    assert_eq!(rt; out.give(8), Ok(1026));
    assert_eq!(rt; out.id_of(8), Some(1026));
    assert_eq!(rt; out.given(), 3);
}

/// Ids come one after another, from 1024, and a closed one isn't found.
#[test]
#[tactic(auto, unfolding(ch_light::specs::Ids::id_of, ch_light::specs::Ids::created_of))]
fn created_ids(rt: HostRuntime) {
    let mut came = Incoming::new(rt.alloc());
    assert_eq!(rt; came.created(1025, 7), Err(LightError::NotNext));
    assert_eq!(rt; came.closed(1024), Err(LightError::NotOpen));
    assert_eq!(rt; came.conn_of(0), Err(LightError::NotOpen));
    assert_eq!(rt; came.created(1024, 7), Ok(()));
    assert_eq!(rt; came.conn_of(1024), Ok(7));
    assert_eq!(rt; came.conn_of(1025), Err(LightError::NotOpen));
    assert_eq!(rt; came.closed(1024), Ok(7));
    assert_eq!(rt; came.conn_of(1024), Err(LightError::NotOpen));
    assert_eq!(rt; came.closed(1024), Err(LightError::NotOpen));
}
