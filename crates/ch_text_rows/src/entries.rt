//! The texts of entries.

use ch_base::{Text, Why};
use ch_ident::{IdentError, Name, Reason};
use ch_journal::put_entry;
use ch_model::{End, Entry, ProcName, RefName, SockName, TargetName, Verdict};
use ch_watch::Kind;
use std::alloc::{AllocError, Global};
use std::process::Abort;
use std::test::Fail;

fn text(alloc: Global, bytes: &[u8]) -> Result<Text, AllocError> {
    Ok(Text::from_vec(Vec::from_slice(alloc, bytes)?))
}

fn process(alloc: Global, counter: u32) -> Result<ProcName, AllocError> {
    Ok(ProcName {
        node: text(alloc, b"a")?,
        counter,
    })
}

fn target(alloc: Global, counter: u32) -> Result<TargetName, AllocError> {
    Ok(TargetName::Process {
        process: process(alloc, counter)?,
    })
}

fn reference(alloc: Global, number: u32) -> Result<RefName, AllocError> {
    Ok(RefName {
        node: text(alloc, b"a")?,
        number,
    })
}

fn sock(alloc: Global, number: u32) -> Result<SockName, AllocError> {
    Ok(SockName {
        from: text(alloc, b"a")?,
        to: text(alloc, b"b")?,
        number,
    })
}

fn name(alloc: Global) -> Result<Name, IdentError> {
    Name::new(alloc, b"t")
}

/// The text that is appended for an entry.
fn is_spelled(rt: &impl Abort, alloc: Global, entry: &Entry, wanted: &[u8]) -> Result<(), Fail> {
    let mut out = Vec::new(alloc);
    assert!(rt; put_entry(entry, &mut out).is_ok());
    assert_eq!(rt; out.as_slice(), wanted);
    Ok(())
}

/// Each answer to a line.
#[test]
fn answers(rt: HostRuntime) -> Result<(), Fail> {
    let alloc = rt.alloc();
    is_spelled(
        &rt,
        alloc,
        &Entry::Line {
            number: 4294967295,
            answer: Verdict::Ok,
        },
        b"line 4294967295 ok\n",
    )?;
    is_spelled(
        &rt,
        alloc,
        &Entry::Line {
            number: 3,
            answer: Verdict::Unknown,
        },
        b"line 3 unknown\n",
    )?;
    is_spelled(
        &rt,
        alloc,
        &Entry::Line {
            number: 10,
            answer: Verdict::Dead,
        },
        b"line 10 dead\n",
    )?;
    is_spelled(
        &rt,
        alloc,
        &Entry::Line {
            number: 6,
            answer: Verdict::Empty,
        },
        b"line 6 empty\n",
    )?;
    is_spelled(
        &rt,
        alloc,
        &Entry::Line {
            number: 7,
            answer: Verdict::Hale,
        },
        b"line 7 hale\n",
    )?;
    is_spelled(
        &rt,
        alloc,
        &Entry::Line {
            number: 7,
            answer: Verdict::Taken,
        },
        b"line 7 taken\n",
    )?;
    is_spelled(
        &rt,
        alloc,
        &Entry::Line {
            number: 7,
            answer: Verdict::NoName,
        },
        b"line 7 noname\n",
    )?;
    is_spelled(
        &rt,
        alloc,
        &Entry::Line {
            number: 7,
            answer: Verdict::NoRef,
        },
        b"line 7 noref\n",
    )?;
    is_spelled(
        &rt,
        alloc,
        &Entry::Line {
            number: 7,
            answer: Verdict::Long,
        },
        b"line 7 long\n",
    )?;
    is_spelled(
        &rt,
        alloc,
        &Entry::Line {
            number: 7,
            answer: Verdict::Full,
        },
        b"line 7 full\n",
    )?;
    is_spelled(
        &rt,
        alloc,
        &Entry::Line {
            number: 7,
            answer: Verdict::Spent,
        },
        b"line 7 spent\n",
    )?;
    is_spelled(
        &rt,
        alloc,
        &Entry::Line {
            number: 7,
            answer: Verdict::Nothing,
        },
        b"line 7 none\n",
    )?;
    Ok(())
}

/// What is said, got and taken.
#[test]
fn messages(rt: HostRuntime) -> Result<(), Fail> {
    let alloc = rt.alloc();
    is_spelled(
        &rt,
        alloc,
        &Entry::Said {
            by: process(alloc, 0)?,
            to: target(alloc, 1)?,
            epoch: 0,
            index: 18446744073709551615,
            mark: name(alloc)?,
            body: text(alloc, b"\x01\xff")?,
        },
        b"said a.0 a.1 0 18446744073709551615 t 01ff\n",
    )?;
    is_spelled(
        &rt,
        alloc,
        &Entry::Said {
            by: process(alloc, 0)?,
            to: TargetName::Named {
                node: text(alloc, b"b")?,
                name: name(alloc)?,
            },
            epoch: 1,
            index: 0,
            mark: name(alloc)?,
            body: text(alloc, b"")?,
        },
        b"said a.0 b:t 1 0 t -\n",
    )?;
    is_spelled(
        &rt,
        alloc,
        &Entry::Again {
            by: process(alloc, 0)?,
            to: TargetName::Port {
                process: process(alloc, 1)?,
                port: 2,
            },
            epoch: 3,
        },
        b"again a.0 a.1/2 3\n",
    )?;
    is_spelled(
        &rt,
        alloc,
        &Entry::Got {
            by: process(alloc, 0)?,
            to: target(alloc, 1)?,
            epoch: 2,
            index: 10,
            receiver: Some(process(alloc, 1)?),
        },
        b"got a.0 a.1 2 10 a.1\n",
    )?;
    is_spelled(
        &rt,
        alloc,
        &Entry::Got {
            by: process(alloc, 0)?,
            to: target(alloc, 1)?,
            epoch: 0,
            index: 0,
            receiver: None,
        },
        b"got a.0 a.1 0 0 -\n",
    )?;
    is_spelled(
        &rt,
        alloc,
        &Entry::Took {
            by: process(alloc, 1)?,
            port: None,
            mark: name(alloc)?,
            body: text(alloc, b"")?,
        },
        b"took a.1 t -\n",
    )?;
    is_spelled(
        &rt,
        alloc,
        &Entry::Took {
            by: process(alloc, 1)?,
            port: Some(4),
            mark: name(alloc)?,
            body: text(alloc, b"\x0a")?,
        },
        b"took a.1/4 t 0a\n",
    )?;
    Ok(())
}

/// What becomes of processes.
#[test]
fn lives(rt: HostRuntime) -> Result<(), Fail> {
    let alloc = rt.alloc();
    is_spelled(
        &rt,
        alloc,
        &Entry::Made {
            process: process(alloc, 0)?,
            spawn: None,
            label: None,
        },
        b"made a.0 - -\n",
    )?;
    is_spelled(
        &rt,
        alloc,
        &Entry::Made {
            process: process(alloc, 0)?,
            spawn: Some(reference(alloc, 1)?),
            label: Some(name(alloc)?),
        },
        b"made a.0 a!1 t\n",
    )?;
    is_spelled(
        &rt,
        alloc,
        &Entry::Port {
            process: process(alloc, 0)?,
            port: 1,
        },
        b"port a.0/1\n",
    )?;
    is_spelled(
        &rt,
        alloc,
        &Entry::Over {
            process: process(alloc, 1)?,
            reason: Reason::Normal,
        },
        b"over a.1 normal\n",
    )?;
    is_spelled(
        &rt,
        alloc,
        &Entry::Over {
            process: process(alloc, 1)?,
            reason: Reason::Exception(text(alloc, b"odd")?),
        },
        b"over a.1 exception odd\n",
    )?;
    is_spelled(
        &rt,
        alloc,
        &Entry::Doom {
            process: process(alloc, 1)?,
            text: text(alloc, b"exit two words")?,
        },
        b"doom a.1 exit two words\n",
    )?;
    is_spelled(
        &rt,
        alloc,
        &Entry::Shut {
            node: text(alloc, b"a")?,
        },
        b"shut a\n",
    )?;
    Ok(())
}

/// Watches, questions and names.
#[test]
fn watches(rt: HostRuntime) -> Result<(), Fail> {
    let alloc = rt.alloc();
    is_spelled(
        &rt,
        alloc,
        &Entry::Watch {
            watch: reference(alloc, 0)?,
            by: process(alloc, 0)?,
            target: process(alloc, 1)?,
            kind: Kind::Monitor,
        },
        b"watch a!0 a.0 a.1 monitor\n",
    )?;
    is_spelled(
        &rt,
        alloc,
        &Entry::Watch {
            watch: reference(alloc, 0)?,
            by: process(alloc, 0)?,
            target: process(alloc, 1)?,
            kind: Kind::Link,
        },
        b"watch a!0 a.0 a.1 link\n",
    )?;
    is_spelled(
        &rt,
        alloc,
        &Entry::Unwatch {
            watch: reference(alloc, 0)?,
        },
        b"unwatch a!0\n",
    )?;
    is_spelled(
        &rt,
        alloc,
        &Entry::Absent {
            watch: reference(alloc, 0)?,
        },
        b"absent a!0\n",
    )?;
    is_spelled(
        &rt,
        alloc,
        &Entry::Told {
            watch: reference(alloc, 0)?,
            reason: Reason::NodeDown,
        },
        b"told a!0 nodedown\n",
    )?;
    is_spelled(
        &rt,
        alloc,
        &Entry::Told {
            watch: reference(alloc, 0)?,
            reason: Reason::Disconnect,
        },
        b"told a!0 disconnect\n",
    )?;
    is_spelled(
        &rt,
        alloc,
        &Entry::Told {
            watch: reference(alloc, 0)?,
            reason: Reason::UnknownId,
        },
        b"told a!0 unknownid\n",
    )?;
    is_spelled(
        &rt,
        alloc,
        &Entry::Asked {
            question: reference(alloc, 0)?,
            by: process(alloc, 0)?,
            at: text(alloc, b"b")?,
        },
        b"asked a!0 a.0 b\n",
    )?;
    is_spelled(
        &rt,
        alloc,
        &Entry::Spawned {
            question: reference(alloc, 0)?,
            process: process(alloc, 1)?,
        },
        b"spawned a!0 a.1\n",
    )?;
    is_spelled(
        &rt,
        alloc,
        &Entry::Isat {
            question: reference(alloc, 0)?,
            found: None,
        },
        b"isat a!0 -\n",
    )?;
    is_spelled(
        &rt,
        alloc,
        &Entry::Isat {
            question: reference(alloc, 0)?,
            found: Some(process(alloc, 1)?),
        },
        b"isat a!0 a.1\n",
    )?;
    is_spelled(
        &rt,
        alloc,
        &Entry::Named {
            node: text(alloc, b"a")?,
            name: name(alloc)?,
            process: Some(process(alloc, 1)?),
        },
        b"named a t a.1\n",
    )?;
    is_spelled(
        &rt,
        alloc,
        &Entry::Named {
            node: text(alloc, b"a")?,
            name: name(alloc)?,
            process: None,
        },
        b"named a t -\n",
    )?;
    Ok(())
}

/// What becomes of sockets.
#[test]
fn sockets(rt: HostRuntime) -> Result<(), Fail> {
    let alloc = rt.alloc();
    is_spelled(
        &rt,
        alloc,
        &Entry::Dial {
            sock: sock(alloc, 0)?,
        },
        b"dial a>b.0\n",
    )?;
    is_spelled(
        &rt,
        alloc,
        &Entry::Knocked {
            sock: sock(alloc, 0)?,
        },
        b"knocked a>b.0\n",
    )?;
    is_spelled(
        &rt,
        alloc,
        &Entry::Poked {
            sock: sock(alloc, 0)?,
            bytes: text(alloc, b"\xab")?,
        },
        b"poked a>b.0 ab\n",
    )?;
    is_spelled(
        &rt,
        alloc,
        &Entry::Quitted {
            sock: sock(alloc, 0)?,
        },
        b"quitted a>b.0\n",
    )?;
    is_spelled(
        &rt,
        alloc,
        &Entry::Joined {
            sock: sock(alloc, 0)?,
        },
        b"joined a>b.0\n",
    )?;
    is_spelled(
        &rt,
        alloc,
        &Entry::Came {
            sock: sock(alloc, 0)?,
        },
        b"came a>b.0\n",
    )?;
    is_spelled(
        &rt,
        alloc,
        &Entry::Refused {
            sock: sock(alloc, 0)?,
        },
        b"refused a>b.0\n",
    )?;
    Ok(())
}

/// What becomes of the ends of a socket.
#[test]
fn ends(rt: HostRuntime) -> Result<(), Fail> {
    let alloc = rt.alloc();
    is_spelled(
        &rt,
        alloc,
        &Entry::Cut {
            sock: sock(alloc, 0)?,
            end: End::O,
        },
        b"cut a>b.0 o\n",
    )?;
    is_spelled(
        &rt,
        alloc,
        &Entry::Lost {
            sock: sock(alloc, 0)?,
            end: End::T,
        },
        b"lost a>b.0 t\n",
    )?;
    is_spelled(
        &rt,
        alloc,
        &Entry::Timed {
            node: text(alloc, b"a")?,
            peer: text(alloc, b"b")?,
        },
        b"timed a b\n",
    )?;
    is_spelled(
        &rt,
        alloc,
        &Entry::Fed {
            sock: sock(alloc, 0)?,
            end: End::T,
            count: 0,
        },
        b"fed a>b.0 t 0\n",
    )?;
    is_spelled(
        &rt,
        alloc,
        &Entry::Wrote {
            sock: sock(alloc, 0)?,
            end: End::O,
            bytes: text(alloc, b"\x00\x01")?,
        },
        b"wrote a>b.0 o 0001\n",
    )?;
    is_spelled(
        &rt,
        alloc,
        &Entry::Up {
            sock: sock(alloc, 0)?,
            end: End::T,
        },
        b"up a>b.0 t\n",
    )?;
    is_spelled(
        &rt,
        alloc,
        &Entry::Down {
            sock: sock(alloc, 0)?,
            end: End::T,
        },
        b"down a>b.0 t\n",
    )?;
    is_spelled(
        &rt,
        alloc,
        &Entry::Left {
            sock: sock(alloc, 0)?,
            end: End::O,
        },
        b"left a>b.0 o\n",
    )?;
    is_spelled(
        &rt,
        alloc,
        &Entry::Broke {
            node: text(alloc, b"a")?,
            peer: text(alloc, b"b")?,
            why: Why::NodeDown,
        },
        b"broke a b nodedown\n",
    )?;
    is_spelled(
        &rt,
        alloc,
        &Entry::Broke {
            node: text(alloc, b"a")?,
            peer: text(alloc, b"b")?,
            why: Why::Disconnect,
        },
        b"broke a b disconnect\n",
    )?;
    is_spelled(&rt, alloc, &Entry::Settled, b"settled\n")?;
    Ok(())
}
