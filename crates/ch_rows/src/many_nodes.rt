//! Journals of two nodes that hand each other their bytes line by line, with the log of each.

use crate::replay::{replay, source};
use ch_base::BytesSink;
use ch_journal::Status;
use ch_model::BadKind;
use itoa::Buffer;
use std::alloc::{AllocError, Global};
use std::test::Fail;

/// Two nodes with a process each, before the lines of most rows.
const HEAD: [&[u8]; 5] = [
    b"chjournal 1",
    b"node a h:1:0 7",
    b"node b i:1:0 9",
    b"proc a",
    b"proc b",
];

const HEAD_LOG: [&[u8]; 4] = [b"line 4 ok", b"made a.0 - -", b"line 5 ok", b"made b.0 - -"];

/// A message from one node to the other.
const MESSAGE: [&[u8]; 6] = [
    b"send a.0 b.0 t 6869",
    b"join a>b.0",
    b"come a>b.0",
    b"feed a>b.0 t 13",
    b"feed a>b.0 o 4",
    b"feed a>b.0 t 59",
];

const MESSAGE_LOG: [&[u8]; 21] = [
    b"line 6 ok",
    b"said a.0 b.0 0 0 t 6869",
    b"dial a>b.0",
    b"line 7 ok",
    b"joined a>b.0",
    b"wrote a>b.0 o 0000000000000005683a313a30",
    b"line 8 ok",
    b"came a>b.0",
    b"line 9 ok",
    b"fed a>b.0 t 13",
    b"up a>b.0 t",
    b"wrote a>b.0 t 00000000",
    b"line 10 ok",
    b"fed a>b.0 o 4",
    b"up a>b.0 o",
    b"wrote a>b.0 o 0000000000000400",
    b"wrote a>b.0 o 000004000000001f000105683a313a3000000007000000000105693a313a300000000900000000",
    b"wrote a>b.0 o 000004000000000401746869",
    b"line 11 ok",
    b"fed a>b.0 t 59",
    b"got a.0 b.0 0 0 b.0",
];

/// A message without a body.
const EMPTY: [&[u8]; 6] = [
    b"send a.0 b.0 t -",
    b"join a>b.0",
    b"come a>b.0",
    b"feed a>b.0 t 13",
    b"feed a>b.0 o 4",
    b"feed a>b.0 t 57",
];

const EMPTY_LOG: [&[u8]; 21] = [
    b"line 6 ok",
    b"said a.0 b.0 0 0 t -",
    b"dial a>b.0",
    b"line 7 ok",
    b"joined a>b.0",
    b"wrote a>b.0 o 0000000000000005683a313a30",
    b"line 8 ok",
    b"came a>b.0",
    b"line 9 ok",
    b"fed a>b.0 t 13",
    b"up a>b.0 t",
    b"wrote a>b.0 t 00000000",
    b"line 10 ok",
    b"fed a>b.0 o 4",
    b"up a>b.0 o",
    b"wrote a>b.0 o 0000000000000400",
    b"wrote a>b.0 o 000004000000001f000105683a313a3000000007000000000105693a313a300000000900000000",
    b"wrote a>b.0 o 00000400000000020174",
    b"line 11 ok",
    b"fed a>b.0 t 57",
    b"got a.0 b.0 0 0 b.0",
];

/// Several messages that wait for the link.
const WAITING: [&[u8]; 9] = [
    b"send a.0 b.0 t 01",
    b"send a.0 b.0 t 01",
    b"send a.0 b.0 t 01",
    b"send a.0 b.0 t 01",
    b"join a>b.0",
    b"come a>b.0",
    b"feed a>b.0 t 13",
    b"feed a>b.0 o 4",
    b"feed a>b.0 t 91",
];

const WAITING_LOG: [&[u8]; 33] = [
    b"line 6 ok",
    b"said a.0 b.0 0 0 t 01",
    b"dial a>b.0",
    b"line 7 ok",
    b"said a.0 b.0 0 1 t 01",
    b"line 8 ok",
    b"said a.0 b.0 0 2 t 01",
    b"line 9 ok",
    b"said a.0 b.0 0 3 t 01",
    b"line 10 ok",
    b"joined a>b.0",
    b"wrote a>b.0 o 0000000000000005683a313a30",
    b"line 11 ok",
    b"came a>b.0",
    b"line 12 ok",
    b"fed a>b.0 t 13",
    b"up a>b.0 t",
    b"wrote a>b.0 t 00000000",
    b"line 13 ok",
    b"fed a>b.0 o 4",
    b"up a>b.0 o",
    b"wrote a>b.0 o 0000000000000400",
    b"wrote a>b.0 o 000004000000001f000105683a313a3000000007000000000105693a313a300000000900000000",
    b"wrote a>b.0 o 0000040000000003017401",
    b"wrote a>b.0 o 0000040000000003017401",
    b"wrote a>b.0 o 0000040000000003017401",
    b"wrote a>b.0 o 0000040000000003017401",
    b"line 14 ok",
    b"fed a>b.0 t 91",
    b"got a.0 b.0 0 0 b.0",
    b"got a.0 b.0 0 1 b.0",
    b"got a.0 b.0 0 2 b.0",
    b"got a.0 b.0 0 3 b.0",
];

/// Requests that cross: that of the greater address is taken.
const CROSSED: [&[u8]; 10] = [
    b"send a.0 b.0 t 01",
    b"send b.0 a.0 t 02",
    b"join a>b.0",
    b"join b>a.0",
    b"come a>b.0",
    b"come b>a.0",
    b"feed b>a.0 t 13",
    b"feed a>b.0 t 13",
    b"feed b>a.0 o 62",
    b"feed b>a.0 t 58",
];

const CROSSED_LOG: [&[u8]; 38] = [
    b"line 6 ok",
    b"said a.0 b.0 0 0 t 01",
    b"dial a>b.0",
    b"line 7 ok",
    b"said b.0 a.0 0 0 t 02",
    b"dial b>a.0",
    b"line 8 ok",
    b"joined a>b.0",
    b"wrote a>b.0 o 0000000000000005683a313a30",
    b"line 9 ok",
    b"joined b>a.0",
    b"wrote b>a.0 o 0000000000000005693a313a30",
    b"line 10 ok",
    b"came a>b.0",
    b"line 11 ok",
    b"came b>a.0",
    b"line 12 ok",
    b"fed b>a.0 t 13",
    b"left a>b.0 o",
    b"up b>a.0 t",
    b"wrote b>a.0 t 00000000",
    b"wrote b>a.0 t 0000000000000400",
    b"wrote b>a.0 t 000004000000001f000105683a313a3000000007000000000105693a313a300000000900000000",
    b"wrote b>a.0 t 0000040000000003017401",
    b"line 13 ok",
    b"fed a>b.0 t 13",
    b"wrote a>b.0 t 00000002",
    b"left a>b.0 t",
    b"line 14 ok",
    b"fed b>a.0 o 62",
    b"up b>a.0 o",
    b"wrote b>a.0 o 0000000000000400",
    b"wrote b>a.0 o 000004000000001f000105693a313a3000000009000000000105683a313a300000000700000000",
    b"wrote b>a.0 o 0000040000000003017402",
    b"got a.0 b.0 0 0 b.0",
    b"line 15 ok",
    b"fed b>a.0 t 58",
    b"got b.0 a.0 0 0 a.0",
];

/// A crossed dial that is answered, and left, before the other request is read.
const STALE: [&[u8]; 11] = [
    b"send a.0 b.0 t 01",
    b"send b.0 a.0 t 02",
    b"join a>b.0",
    b"join b>a.0",
    b"come a>b.0",
    b"come b>a.0",
    b"feed a>b.0 t 13",
    b"feed a>b.0 o 4",
    b"feed b>a.0 t 13",
    b"feed b>a.0 o 62",
    b"feed b>a.0 t 58",
];

const STALE_LOG: [&[u8]; 40] = [
    b"line 6 ok",
    b"said a.0 b.0 0 0 t 01",
    b"dial a>b.0",
    b"line 7 ok",
    b"said b.0 a.0 0 0 t 02",
    b"dial b>a.0",
    b"line 8 ok",
    b"joined a>b.0",
    b"wrote a>b.0 o 0000000000000005683a313a30",
    b"line 9 ok",
    b"joined b>a.0",
    b"wrote b>a.0 o 0000000000000005693a313a30",
    b"line 10 ok",
    b"came a>b.0",
    b"line 11 ok",
    b"came b>a.0",
    b"line 12 ok",
    b"fed a>b.0 t 13",
    b"wrote a>b.0 t 00000002",
    b"left a>b.0 t",
    b"line 13 ok",
    b"fed a>b.0 o 4",
    b"left a>b.0 o",
    b"line 14 ok",
    b"fed b>a.0 t 13",
    b"up b>a.0 t",
    b"wrote b>a.0 t 00000000",
    b"wrote b>a.0 t 0000000000000400",
    b"wrote b>a.0 t 000004000000001f000105683a313a3000000007000000000105693a313a300000000900000000",
    b"wrote b>a.0 t 0000040000000003017401",
    b"line 15 ok",
    b"fed b>a.0 o 62",
    b"up b>a.0 o",
    b"wrote b>a.0 o 0000000000000400",
    b"wrote b>a.0 o 000004000000001f000105693a313a3000000009000000000105683a313a300000000700000000",
    b"wrote b>a.0 o 0000040000000003017402",
    b"got a.0 b.0 0 0 b.0",
    b"line 16 ok",
    b"fed b>a.0 t 58",
    b"got b.0 a.0 0 0 a.0",
];

/// A crossed dial that is left before it was joined.
const UNJOINED: [&[u8]; 8] = [
    b"send a.0 b.0 t 01",
    b"send b.0 a.0 t 02",
    b"join b>a.0",
    b"come b>a.0",
    b"feed b>a.0 t 13",
    b"join a>b.0",
    b"come a>b.0",
    b"feed a>b.0 t 1",
];

const UNJOINED_LOG: [&[u8]; 25] = [
    b"line 6 ok",
    b"said a.0 b.0 0 0 t 01",
    b"dial a>b.0",
    b"line 7 ok",
    b"said b.0 a.0 0 0 t 02",
    b"dial b>a.0",
    b"line 8 ok",
    b"joined b>a.0",
    b"wrote b>a.0 o 0000000000000005693a313a30",
    b"line 9 ok",
    b"came b>a.0",
    b"line 10 ok",
    b"fed b>a.0 t 13",
    b"left a>b.0 o",
    b"up b>a.0 t",
    b"wrote b>a.0 t 00000000",
    b"wrote b>a.0 t 0000000000000400",
    b"wrote b>a.0 t 000004000000001f000105683a313a3000000007000000000105693a313a300000000900000000",
    b"wrote b>a.0 t 0000040000000003017401",
    b"line 11 none",
    b"line 12 ok",
    b"came a>b.0",
    b"line 13 ok",
    b"fed a>b.0 t 0",
    b"left a>b.0 t",
];
/// A line of the text, with its newline.
fn put_line(text: &mut Vec<u8>, line: &[u8]) -> Result<(), AllocError> {
    text.extend_from_slice(line)?;
    text.push(b'\n')?;
    Ok(())
}

/// These lines and those, each with its newline.
fn text_of(alloc: Global, first: &[&[u8]], others: &[&[u8]]) -> Result<Vec<u8>, AllocError> {
    let mut text = Vec::new(alloc);
    for line in first {
        put_line(&mut text, line)?;
    }
    for line in others {
        put_line(&mut text, line)?;
    }
    Ok(text)
}

fn put_number(text: &mut Vec<u8>, number: usize) -> Result<(), AllocError> {
    let mut buffer = Buffer::new();
    text.extend_from_slice(buffer.format(number).as_bytes())?;
    Ok(())
}

/// The lines after the head, with the entries after its own.
#[test]
fn logs_two_nodes(rt: HostRuntime) -> Result<(), Fail> {
    let alloc = rt.alloc();
    let rows = [
        (MESSAGE.as_slice(), MESSAGE_LOG.as_slice()),
        (EMPTY.as_slice(), EMPTY_LOG.as_slice()),
        (WAITING.as_slice(), WAITING_LOG.as_slice()),
        (CROSSED.as_slice(), CROSSED_LOG.as_slice()),
        (STALE.as_slice(), STALE_LOG.as_slice()),
        (UNJOINED.as_slice(), UNJOINED_LOG.as_slice()),
    ];
    for (lines, log) in rows {
        let journal = text_of(alloc, HEAD.as_slice(), lines)?;
        let logged = text_of(alloc, HEAD_LOG.as_slice(), log)?;
        let mut from = source(alloc, journal.as_slice(), 4096)?;
        let mut to = BytesSink::new(Vec::new(alloc), 4096);
        assert_eq!(rt; replay(alloc, &mut from, &mut to)?, Status::Done);
        assert_eq!(rt; to.as_slice(), logged.as_slice());
    }
    Ok(())
}

/// A line after the head, and the kind of its refusal. The entries of the head are written.
#[test]
fn refuses_lines_of_two_nodes(rt: HostRuntime) -> Result<(), Fail> {
    let alloc = rt.alloc();
    let rows = [
        (b"feed a>b.0 t 01".as_slice(), BadKind::Number),
        (b"send a.0 q.0 t 01", BadKind::Undeclared),
        (b"node c k:1:0 1", BadKind::Late),
        (b"hello", BadKind::Form),
        (b"settle", BadKind::Form),
    ];
    let logged = text_of(alloc, HEAD_LOG.as_slice(), &[])?;
    for (line, kind) in rows {
        let journal = text_of(alloc, HEAD.as_slice(), &[line])?;
        let mut from = source(alloc, journal.as_slice(), 4096)?;
        let mut to = BytesSink::new(Vec::new(alloc), 4096);
        assert_eq!(rt;
            replay(alloc, &mut from, &mut to)?,
            Status::BadLine { line: 6, kind }
        );
        assert_eq!(rt; to.as_slice(), logged.as_slice());
    }
    Ok(())
}

/// 4,096 messages wait for a link that isn't up, and one more finds it full.
#[test]
fn a_link_is_full(rt: HostRuntime) -> Result<(), Fail> {
    let alloc = rt.alloc();
    let mut journal = text_of(alloc, HEAD.as_slice(), &[])?;
    for _ in 0..4097 {
        put_line(&mut journal, b"send a.0 b.0 t 01")?;
    }
    let first: [&[u8]; 3] = [b"line 6 ok", b"said a.0 b.0 0 0 t 01", b"dial a>b.0"];
    let mut logged = text_of(alloc, HEAD_LOG.as_slice(), first.as_slice())?;
    for index in 1usize..4096 {
        logged.extend_from_slice(b"line ")?;
        put_number(&mut logged, index + 6)?;
        logged.extend_from_slice(b" ok\nsaid a.0 b.0 0 ")?;
        put_number(&mut logged, index)?;
        put_line(&mut logged, b" t 01")?;
    }
    put_line(&mut logged, b"line 4102 full")?;
    let mut from = source(alloc, journal.as_slice(), 4096)?;
    let mut to = BytesSink::new(Vec::new(alloc), 4096);
    assert_eq!(rt; replay(alloc, &mut from, &mut to)?, Status::Done);
    assert_eq!(rt; to.as_slice(), logged.as_slice());
    Ok(())
}
