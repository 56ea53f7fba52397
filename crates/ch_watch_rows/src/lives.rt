//! Numbers told, taken back, ended and lost in turn; watches kept and forgotten; names.

use crate::calls::{Answer, Call, answer_to};
use crate::fixtures::{At, Target};
use ch_watch::{Kind, WatchError, Watches};
use std::test::Fail;

const NO_REF: Answer = Answer::Refused(WatchError::NoRef);

/// Process 0 monitors a far process and links a near port, process 1 spawns on the far node and asks it for
/// a name, process 2 monitors a process of another endpoint of the far host.
const NUMBERS: &[(Call, Answer)] = &[
    (
        Call::Watch(0, Kind::Monitor, Target::Process(At::Far)),
        Answer::Number(0),
    ),
    (
        Call::Watch(0, Kind::Link, Target::Port(At::Near)),
        Answer::Number(1),
    ),
    (
        Call::Watch(1, Kind::Spawn, Target::Node(At::Far)),
        Answer::Number(2),
    ),
    (
        Call::Watch(1, Kind::Ask, Target::Node(At::Far)),
        Answer::Number(3),
    ),
    (
        Call::Watch(2, Kind::Monitor, Target::Process(At::FarBeside)),
        Answer::Number(4),
    ),
    (Call::Waiting(0, 0), Answer::Number(0)),
    (Call::Waiting(1, 0), Answer::Nothing),
    (Call::Waiting(1, 2), Answer::Nothing),
    (Call::Waiting(0, 5), Answer::Nothing),
    (Call::Unwatch(1, 0), NO_REF),
    (Call::Unwatch(1, 2), NO_REF),
    (Call::Unwatch(0, 0), Answer::Number(0)),
    (Call::Unwatch(0, 0), NO_REF),
    (Call::Waiting(0, 0), Answer::Nothing),
    (Call::Told(0), NO_REF),
    (Call::Told(2), Answer::Number(2)),
    (Call::Told(2), NO_REF),
    (
        Call::Watch(0, Kind::Monitor, Target::Process(At::Far)),
        Answer::Number(5),
    ),
    (Call::Lost(At::Far), Answer::Lost(2)),
    (Call::Lost(At::Far), Answer::Lost(0)),
    (Call::Told(3), NO_REF),
    (Call::Unwatch(0, 5), NO_REF),
    (Call::Waiting(2, 4), Answer::Number(4)),
    (Call::Ended(0), Answer::Ending(0, 0)),
    (Call::Told(1), NO_REF),
    (Call::Told(4), Answer::Number(4)),
    (
        Call::Watch(1, Kind::Ask, Target::Node(At::Near)),
        Answer::Number(6),
    ),
];

/// Watches on processes 0 and 1 arrive from both nodes, one of them twice.
const WATCHED: &[(Call, Answer)] = &[
    (Call::Forget(At::Far, 9), Answer::Did(false)),
    (Call::Arrive(0, At::Far, 9), Answer::Done),
    (Call::Arrive(0, At::Near, 9), Answer::Done),
    (Call::Arrive(1, At::Far, 4), Answer::Done),
    (Call::Arrive(1, At::FarBeside, 4), Answer::Done),
    (Call::Forget(At::Far, 8), Answer::Did(false)),
    (Call::Forget(At::Near, 9), Answer::Did(true)),
    (Call::Forget(At::Near, 9), Answer::Did(false)),
    (Call::Ended(0), Answer::Ending(0, 1)),
    (Call::Ended(0), Answer::Ending(0, 0)),
    (Call::Forget(At::Far, 9), Answer::Did(false)),
    (Call::Lost(At::Far), Answer::Lost(0)),
    (Call::Forget(At::Far, 4), Answer::Did(false)),
    (Call::Ended(1), Answer::Ending(0, 1)),
];

const NAMES: &[(Call, Answer)] = &[
    (Call::Find(b"log"), Answer::Nothing),
    (
        Call::Unregister(b"log"),
        Answer::Refused(WatchError::NoName),
    ),
    (Call::Register(b"log", 3), Answer::Done),
    (
        Call::Register(b"log", 4),
        Answer::Refused(WatchError::Taken),
    ),
    (
        Call::Register(b"log", 3),
        Answer::Refused(WatchError::Taken),
    ),
    (Call::Register(b"logs", 4), Answer::Done),
    (Call::Register(b"out", 3), Answer::Done),
    (Call::Find(b"log"), Answer::Number(3)),
    (Call::Find(b"logs"), Answer::Number(4)),
    (Call::Unregister(b"log"), Answer::Number(3)),
    (
        Call::Unregister(b"log"),
        Answer::Refused(WatchError::NoName),
    ),
    (Call::Find(b"log"), Answer::Nothing),
    (Call::Register(b"log", 4), Answer::Done),
    (Call::Find(b"log"), Answer::Number(4)),
    (Call::Ended(4), Answer::Ending(2, 0)),
    (Call::Find(b"log"), Answer::Nothing),
    (Call::Find(b"logs"), Answer::Nothing),
    (Call::Find(b"out"), Answer::Number(3)),
];

#[test]
fn numbers_are_opened_and_closed(rt: HostRuntime) -> Result<(), Fail> {
    let mut watches = Watches::new(rt.alloc());
    for (call, wanted) in NUMBERS {
        let told = answer_to(rt.alloc(), &mut watches, call)?;
        assert_eq!(rt; told, *wanted, "at {call:?}");
    }
    Ok(())
}

#[test]
fn watches_are_kept_and_forgotten(rt: HostRuntime) -> Result<(), Fail> {
    let mut watches = Watches::new(rt.alloc());
    for (call, wanted) in WATCHED {
        let told = answer_to(rt.alloc(), &mut watches, call)?;
        assert_eq!(rt; told, *wanted, "at {call:?}");
    }
    Ok(())
}

#[test]
fn names_stand_once(rt: HostRuntime) -> Result<(), Fail> {
    let mut watches = Watches::new(rt.alloc());
    for (call, wanted) in NAMES {
        let told = answer_to(rt.alloc(), &mut watches, call)?;
        assert_eq!(rt; told, *wanted, "at {call:?}");
    }
    Ok(())
}
