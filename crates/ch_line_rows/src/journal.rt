//! Lines that are refused, with their kind and place; the texts of statuses.

use ch_journal::{Grammar, JournalError, Reading, Status};
use ch_model::BadKind;
use std::alloc::Global;
use std::process::Abort;

/// Where line 2 comes next.
const HEADER: [&[u8]; 1] = [b"chjournal 1"];

/// Where line 4 comes next.
const NODE: [&[u8]; 3] = [b"chjournal 1", b"node a h:1:0 7", b"proc a"];

/// Refused as the first line.
const NO_HEADER: [(&[u8], BadKind); 6] = [
    (b"", BadKind::Form),
    (b"; a comment", BadKind::Form),
    (b"chjournal 2", BadKind::Form),
    (b"chjournal 1 ", BadKind::Form),
    (b"Chjournal 1", BadKind::Form),
    (b"proc a", BadKind::Form),
];

/// Refused where no node is declared.
const NO_NODE: [(&[u8], BadKind); 16] = [
    (b"node a h:1:0", BadKind::Form),
    (b"node a h:1:0 7 8", BadKind::Form),
    (b"node A h:1:0 7", BadKind::Form),
    (b"node a h 7", BadKind::Form),
    (b"node a :1:0 7", BadKind::Form),
    (b"node a h:0:0 7", BadKind::Form),
    (b"node a h:65536:0 7", BadKind::Form),
    (b"node a h:1:00 7", BadKind::Form),
    (b"node a h:1:0 x", BadKind::Form),
    (b"node a h:01:0 07", BadKind::Form),
    (b"node a h:1:0 07", BadKind::Number),
    (b"node a h:1:0 4294967296", BadKind::Number),
    (b"proc A", BadKind::Form),
    (b"proc a", BadKind::Undeclared),
    (b"send a.0 a.1 t 01", BadKind::Undeclared),
    (b"chjournal 1", BadKind::Form),
];

/// Refused where the node `a` is declared: of the wrong form.
const NO_FORM: [(&[u8], BadKind); 42] = [
    (b"", BadKind::Form),
    (b"; a comment", BadKind::Form),
    (b"bad", BadKind::Form),
    (b"Proc a", BadKind::Form),
    (b" proc a", BadKind::Form),
    (b" ", BadKind::Form),
    (b"proc", BadKind::Form),
    (b"proc ", BadKind::Form),
    (b"proc  a", BadKind::Form),
    (b"proc a ", BadKind::Form),
    (b"proc a b", BadKind::Form),
    (b"proc 1a", BadKind::Form),
    (b"proc a-b", BadKind::Form),
    (b"proc abcdefghijklmnopq", BadKind::Form),
    (b"node b h:2:0 8", BadKind::Form),
    (b"node a h:1:0 7", BadKind::Form),
    (b"send a.0 a.1 t", BadKind::Form),
    (b"send a.0 a.1 t 01 02", BadKind::Form),
    (b"send a a.1 t 01", BadKind::Form),
    (b"send a. a.1 t 01", BadKind::Form),
    (b"send .0 a.1 t 01", BadKind::Form),
    (b"send a.0 a.x t 01", BadKind::Form),
    (b"send a.-1 a.1 t 01", BadKind::Form),
    (b"send a.+1 a.1 t 01", BadKind::Form),
    (b"send a.0 a.1/0 t 01", BadKind::Form),
    (b"send a.0 a.1 $t 01", BadKind::Form),
    (b"send a.0 a.1  01", BadKind::Form),
    (
        b"send a.0 a.1 tttttttttttttttttttttttttttttttttttttttttttttttttttttttttttttttt 01",
        BadKind::Form,
    ),
    (b"send a.0 a.1 t\x7f 01", BadKind::Form),
    (b"send a.0 a.1 t 0", BadKind::Form),
    (b"send a.0 a.1 t 0g", BadKind::Form),
    (b"send a.0 a.1 t --", BadKind::Form),
    (b"send a.0 a.1 t ", BadKind::Form),
    (b"send b.01 a.0 $t 01", BadKind::Form),
    (b"recv a.0", BadKind::Form),
    (b"recv a.0 t t", BadKind::Form),
    (b"recv a.0 ", BadKind::Form),
    (b"recv a.0.0 t", BadKind::Form),
    (b"end", BadKind::Form),
    (b"end a", BadKind::Form),
    (b"end a.0 ", BadKind::Form),
    (b"nsend a.0 a:t t 01", BadKind::Form),
];

/// Refused where the node `a` is declared: a number out of its rule, or another name.
const NO_NUMBER_OR_NAME: [(&[u8], BadKind); 14] = [
    (b"send a.00 a.1 t 01", BadKind::Number),
    (b"send a.0 a.01 t 01", BadKind::Number),
    (b"send a.4294967296 a.1 t 01", BadKind::Number),
    (b"send b.0 a.01 t 01", BadKind::Number),
    (b"recv a.00 t", BadKind::Number),
    (b"end a.4294967296", BadKind::Number),
    (b"end a.99999999999999999999999", BadKind::Number),
    (b"end b.01", BadKind::Number),
    (b"proc b", BadKind::Undeclared),
    (b"send b.0 a.0 t 01", BadKind::Undeclared),
    (b"send a.0 b.0 t 01", BadKind::Undeclared),
    (b"recv b.0 t", BadKind::Undeclared),
    (b"end b.0", BadKind::Undeclared),
    (b"end aa.0", BadKind::Undeclared),
];

/// Why the next line is refused, if it is. The reading is lent: to drop one in several places is dear to prove.
fn refusal(reading: &mut Reading, text: &[u8]) -> Option<JournalError> {
    reading.line(text).err()
}

/// Reads these lines. A refusal would be the answer to each line after it.
fn read_all(reading: &mut Reading, lines: &[&[u8]]) {
    for line in lines {
        let _ = refusal(reading, *line);
    }
}

/// Why a line is refused that comes after these, if it is.
fn refusal_after(alloc: Global, before: &[&[u8]], text: &[u8]) -> Option<JournalError> {
    let mut reading = Reading::new(alloc, Grammar::OneNode);
    read_all(&mut reading, before);
    refusal(&mut reading, text)
}

/// Each line is refused after these lines, at its place.
fn refuses(
    rt: &impl Abort,
    alloc: Global,
    before: &[&[u8]],
    place: u32,
    rows: &[(&[u8], BadKind)],
) {
    for (text, kind) in rows {
        assert_eq!(rt;
            refusal_after(alloc, before, *text),
            Some(JournalError::BadLine {
                line: place,
                kind: *kind,
            }),
            "at {text:?}"
        );
    }
}

#[test]
fn refused_lines(rt: HostRuntime) {
    refuses(&rt, rt.alloc(), &[], 1, &NO_HEADER);
    refuses(&rt, rt.alloc(), &HEADER, 2, &NO_NODE);
    refuses(&rt, rt.alloc(), &NODE, 4, &NO_FORM);
    refuses(&rt, rt.alloc(), &NODE, 4, &NO_NUMBER_OR_NAME);
}

/// A refused line is the answer for good, and isn't counted.
#[test]
fn a_refusal_stays(rt: HostRuntime) {
    let refused = Some(JournalError::BadLine {
        line: 3,
        kind: BadKind::Undeclared,
    });
    let mut reading = Reading::new(rt.alloc(), Grammar::OneNode);
    assert_eq!(rt; reading.line(b"chjournal 1").err(), None);
    assert_eq!(rt; reading.line(b"node a h:1:0 7").err(), None);
    assert_eq!(rt; reading.line(b"proc b").err(), refused);
    assert_eq!(rt; reading.line(b"proc a").err(), refused);
    assert_eq!(rt; reading.line(b"bad").err(), refused);
    assert_eq!(rt; reading.lines_read(), 2);
}

/// The exit numbers and the texts on standard error.
#[test]
fn statuses(rt: HostRuntime) {
    let bad = Status::BadLine {
        line: 4294967295,
        kind: BadKind::Undeclared,
    };
    let rows = [
        (Status::Usage, 2, b"usage".as_slice()),
        (Status::ReadFault, 3, b"read fault".as_slice()),
        (Status::WriteFault, 4, b"write fault".as_slice()),
        (bad, 5, b"line 4294967295: undeclared".as_slice()),
        (
            Status::TooLong { line: 2 },
            6,
            b"line 2: too long".as_slice(),
        ),
        (Status::OutOfMemory, 7, b"out of memory".as_slice()),
        (Status::Worn, 10, b"counts worn".as_slice()),
    ];
    for (status, code, wanted) in rows {
        assert_eq!(rt; status.code(), code);
        match status.message() {
            None => assert!(rt; false),
            Some(text) => assert_eq!(rt; text.as_slice(), wanted),
        }
    }
    assert_eq!(rt; Status::Done.code(), 0);
    assert!(rt; Status::Done.message().is_none());
    let kinds = [
        (BadKind::Form, b"line 1: form".as_slice()),
        (BadKind::Number, b"line 1: number".as_slice()),
        (BadKind::Undeclared, b"line 1: undeclared".as_slice()),
        (BadKind::Repeated, b"line 1: repeated".as_slice()),
        (BadKind::Late, b"line 1: late".as_slice()),
    ];
    for (kind, wanted) in kinds {
        match (Status::BadLine { line: 1, kind }).message() {
            None => assert!(rt; false),
            Some(text) => assert_eq!(rt; text.as_slice(), wanted),
        }
    }
}
