//! Whole runs over memory: journals with the status and the log of each, and every read and every
//! write failing in turn.

use ch_base::{BytesSink, BytesSource, FailingSink, FailingSource, Sink, Source};
use ch_journal::Status;
use ch_model::BadKind;
use ch_replay::replay_top;
use std::alloc::{AllocError, Global};
use std::process::Abort;
use std::test::Fail;

/// Two processes and three messages.
const TALK: &[u8] =
    b"chjournal 1\nnode a h:1:0 7\nproc a\nproc a\nsend a.0 a.1 t 01\nsend a.0 a.1 t 02\nsend a.0 a.1 t 03\n";

const TALK_LOG: &[u8] =
    b"line 3 ok\nmade a.0 - -\nline 4 ok\nmade a.1 - -\nline 5 ok\nsaid a.0 a.1 0 0 t 01\ngot a.0 a.1 0 0 a.1\nline 6 ok\nsaid a.0 a.1 0 1 t 02\ngot a.0 a.1 0 1 a.1\nline 7 ok\nsaid a.0 a.1 0 2 t 03\ngot a.0 a.1 0 2 a.1\n";

/// Messages that are taken, and a process that ends; the last line lacks its newline.
const ENDS: &[u8] =
    b"chjournal 1\nnode a h:1:0 7\nproc a\nproc a\nsend a.0 a.1 t 01\nrecv a.1 s\nrecv a.1 t\nend a.1\nsend a.0 a.1 t 02\nrecv a.1 t\nsend a.0 a.2 t 03";

const ENDS_LOG: &[u8] =
    b"line 3 ok\nmade a.0 - -\nline 4 ok\nmade a.1 - -\nline 5 ok\nsaid a.0 a.1 0 0 t 01\ngot a.0 a.1 0 0 a.1\nline 6 empty\nline 7 ok\ntook a.1 t 01\nline 8 ok\nover a.1 normal\nline 9 ok\nsaid a.0 a.1 0 1 t 02\nline 10 dead\nline 11 unknown\n";

/// A refused line, after which nothing is read.
const REFUSED: &[u8] = b"chjournal 1\nnode a h:1:0 7\nproc a\nsend a.0 a.00 t 01\nproc a\n";

const MADE_LOG: &[u8] = b"line 3 ok\nmade a.0 - -\n";

fn words(alloc: Global, word: &str) -> Result<Vec<String>, AllocError> {
    let mut words = Vec::new(alloc);
    words.push(String::from_str(alloc, word)?)?;
    Ok(words)
}

/// Replays a journal by the word `run`.
pub(crate) fn replay<S: Source, K: Sink>(
    alloc: Global,
    source: &mut S,
    sink: &mut K,
) -> Result<Status, AllocError> {
    let words = words(alloc, "run")?;
    Ok(replay_top(alloc, words.as_slice(), source, sink))
}

/// A source of these bytes, which gives so many at most at a time.
pub(crate) fn source(
    alloc: Global,
    journal: &[u8],
    most: usize,
) -> Result<BytesSource, AllocError> {
    Ok(BytesSource::new(Vec::from_slice(alloc, journal)?, most))
}

/// A journal, the bytes of a read and of a write, the status and the log.
#[test]
fn runs(rt: HostRuntime) -> Result<(), Fail> {
    let alloc = rt.alloc();
    let bad = |line, kind| Status::BadLine { line, kind };
    let rows = [
        (b"".as_slice(), bad(1, BadKind::Form), b"".as_slice()),
        (b"chjournal 1\n", Status::Done, b""),
        (TALK, Status::Done, TALK_LOG),
        (ENDS, Status::Done, ENDS_LOG),
        (REFUSED, bad(4, BadKind::Number), MADE_LOG),
        (
            b"chjournal 1\nnode a h:1:0 7\nproc a\nsend a.0 q.0 t 01\n",
            bad(4, BadKind::Undeclared),
            MADE_LOG,
        ),
        (
            b"chjournal 1\nnode a h:1:0 7\nproc a\nhello",
            bad(4, BadKind::Form),
            MADE_LOG,
        ),
    ];
    for (journal, status, log) in rows {
        for most in [1usize, 7, 4096] {
            let mut from = source(alloc, journal, most)?;
            let mut to = BytesSink::new(Vec::new(alloc), most);
            assert_eq!(rt; replay(alloc, &mut from, &mut to)?, status);
            assert_eq!(rt; to.as_slice(), log);
        }
    }
    Ok(())
}

/// A line of 8,192 bytes is read, and one of 8,193 isn't, nor is a journal of one byte too many.
#[test]
fn lengths(rt: HostRuntime) -> Result<(), Fail> {
    let alloc = rt.alloc();
    let head = b"chjournal 1\nnode a h:1:0 7\nproc a\n".as_slice();
    let longest = b"send a.0 a.0 tt ".as_slice();
    let mut journal = Vec::from_slice(alloc, head)?;
    journal.extend_from_slice(longest)?;
    for _ in 0..8176 {
        journal.push(b'0')?;
    }
    let mut from = source(alloc, journal.as_slice(), 4096)?;
    let mut to = BytesSink::new(Vec::new(alloc), 4096);
    assert_eq!(rt; replay(alloc, &mut from, &mut to)?, Status::Done);
    journal.push(b'0')?;
    let mut from = source(alloc, journal.as_slice(), 4096)?;
    let mut to = BytesSink::new(Vec::new(alloc), 4096);
    assert_eq!(rt;
        replay(alloc, &mut from, &mut to)?,
        Status::TooLong { line: 4 }
    );
    assert_eq!(rt; to.as_slice(), MADE_LOG);
    Ok(())
}

/// Each read fails in turn, and then each write. A fault is told, and what was written is a front
/// of the log.
#[test]
fn faults(rt: HostRuntime) -> Result<(), Fail> {
    let alloc = rt.alloc();
    // 95 bytes in pieces of 20, and the end: 6 reads; 202 bytes in pieces of 40: 6 writes
    for call in 0..9u64 {
        let mut from = FailingSource::new(source(alloc, TALK, 20)?, one(alloc, call)?);
        let mut to = BytesSink::new(Vec::new(alloc), 4096);
        let status = replay(alloc, &mut from, &mut to)?;
        if status == Status::ReadFault {
            assert!(rt; call < 6);
            assert_eq!(rt; to.as_slice(), b"".as_slice());
        } else {
            assert!(rt; call >= 6);
            assert_eq!(rt; status, Status::Done);
            assert_eq!(rt; to.as_slice(), TALK_LOG);
        }
        let mut from = source(alloc, TALK, 4096)?;
        let mut to = FailingSink::new(BytesSink::new(Vec::new(alloc), 40), one(alloc, call)?);
        let status = replay(alloc, &mut from, &mut to)?;
        if status == Status::WriteFault {
            assert!(rt; call < 6);
            assert!(rt; TALK_LOG.starts_with(to.inner().as_slice()));
        } else {
            assert!(rt; call >= 6);
            assert_eq!(rt; status, Status::Done);
            assert_eq!(rt; to.inner().as_slice(), TALK_LOG);
        }
    }
    Ok(())
}

fn one(alloc: Global, call: u64) -> Result<Vec<u64>, AllocError> {
    let mut calls = Vec::new(alloc);
    calls.push(call)?;
    Ok(calls)
}

/// Every other word than `run` is a usage error, and nothing is read or written.
#[test]
fn usage(rt: HostRuntime) -> Result<(), Fail> {
    let alloc = rt.alloc();
    for word in ["", "print", "Run", "-run", "runs"] {
        let words = words(alloc, word)?;
        let mut from = source(alloc, TALK, 4096)?;
        let mut to = BytesSink::new(Vec::new(alloc), 4096);
        assert_eq!(rt;
            replay_top(alloc, words.as_slice(), &mut from, &mut to),
            Status::Usage
        );
        assert_eq!(rt; to.as_slice(), b"".as_slice());
    }
    let none = Vec::new(alloc);
    let mut from = source(alloc, TALK, 4096)?;
    let mut to = BytesSink::new(Vec::new(alloc), 4096);
    assert_eq!(rt;
        replay_top(alloc, none.as_slice(), &mut from, &mut to),
        Status::Usage
    );
    Ok(())
}
