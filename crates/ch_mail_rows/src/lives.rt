//! The lives of two processes: marks mixed, ports, dooms and ends.

use crate::calls::{Answer, Call, answer_to};
use ch_ident::Reason;
use ch_mail::{Life, Mail, MailError};
use std::test::Fail;

/// Each call with its answer, and how many messages wait for process 0 afterwards.
const LIFE: &[(Call, Answer, usize)] = &[
    (
        Call::Put(0, None, b"t", 1),
        Answer::Refused(MailError::NotLive),
        0,
    ),
    (Call::Make, Answer::Number(0), 0),
    (Call::Make, Answer::Number(1), 0),
    (Call::Take(0, b"t"), Answer::Refused(MailError::Empty), 0),
    (Call::Put(0, None, b"t", 1), Answer::Done, 1),
    (Call::Put(0, None, b"s", 2), Answer::Done, 2),
    (Call::Put(0, None, b"t", 3), Answer::Done, 3),
    (Call::Put(0, None, b"s", 4), Answer::Done, 4),
    (Call::Take(0, b"s"), Answer::Got(2), 3),
    (Call::Take(0, b"t"), Answer::Got(1), 2),
    (Call::Take(0, b"t"), Answer::Got(3), 1),
    (Call::Take(0, b"t"), Answer::Refused(MailError::Empty), 1),
    (Call::Open(0), Answer::Number(0), 1),
    (Call::Open(0), Answer::Number(1), 1),
    (Call::Put(0, Some(1), b"t", 5), Answer::Done, 2),
    (
        Call::Put(0, Some(2), b"t", 6),
        Answer::Refused(MailError::NotLive),
        2,
    ),
    (Call::Put(0, Some(1), b"u", 7), Answer::Done, 3),
    (Call::TakePort(0, 0), Answer::Refused(MailError::Empty), 3),
    (Call::TakePort(0, 2), Answer::Refused(MailError::Empty), 3),
    (Call::Take(0, b"u"), Answer::Refused(MailError::Empty), 3),
    (Call::TakePort(0, 1), Answer::Got(5), 2),
    (Call::Doom(0, b"exit bye"), Answer::Did(true), 2),
    (Call::Doom(0, b"kill now"), Answer::Did(false), 2),
    (Call::Take(0, b"s"), Answer::Refused(MailError::NotLive), 2),
    (Call::TakePort(0, 1), Answer::Refused(MailError::NotLive), 2),
    (Call::Open(0), Answer::Refused(MailError::NotLive), 2),
    (Call::Put(0, None, b"t", 8), Answer::Done, 3),
    (Call::End(0), Answer::Done, 3),
    (Call::End(0), Answer::Refused(MailError::NotLive), 3),
    (
        Call::Put(0, None, b"t", 9),
        Answer::Refused(MailError::NotLive),
        3,
    ),
    (Call::Doom(0, b"exit late"), Answer::Did(false), 3),
    (Call::Take(1, b"t"), Answer::Refused(MailError::Empty), 3),
    (Call::End(1), Answer::Done, 3),
    (Call::End(2), Answer::Refused(MailError::NotLive), 3),
    (Call::Doom(2, b"exit none"), Answer::Did(false), 3),
    (Call::Open(2), Answer::Refused(MailError::NotLive), 3),
    (Call::TakePort(2, 0), Answer::Refused(MailError::NotLive), 3),
];

#[test]
fn a_mailbox_lives(rt: HostRuntime) -> Result<(), Fail> {
    let mut mail = Mail::new(rt.alloc());
    for (call, wanted, waiting) in LIFE {
        let told = answer_to(rt.alloc(), &mut mail, call)?;
        assert_eq!(rt; told, *wanted, "at {call:?}");
        assert_eq!(rt; mail.waiting(0), *waiting, "after {call:?}");
    }
    Ok(())
}

#[test]
fn a_process_is_live_once_it_is_made(rt: HostRuntime) -> Result<(), Fail> {
    let mut mail = Mail::new(rt.alloc());
    assert!(rt; mail.life(0).is_none());
    mail.make()?;
    assert!(rt; matches!(mail.life(0), Some(Life::Live)));
    assert!(rt; mail.life(1).is_none());
    Ok(())
}

#[test]
fn the_first_doom_counts(rt: HostRuntime) -> Result<(), Fail> {
    let mut mail = Mail::new(rt.alloc());
    mail.make()?;
    mail.doom(0, b"exit bye")?;
    mail.doom(0, b"kill now")?;
    match mail.life(0) {
        Some(Life::Doomed(text)) => assert_eq!(rt; text.as_slice(), b"exit bye".as_slice()),
        _ => panic!(rt; "it is doomed"),
    }
    Ok(())
}

#[test]
fn an_end_has_its_reason(rt: HostRuntime) -> Result<(), Fail> {
    let mut mail = Mail::new(rt.alloc());
    mail.make()?;
    mail.end(0, Reason::NodeDown)?;
    assert!(rt; matches!(mail.life(0), Some(Life::Over(Reason::NodeDown))));
    Ok(())
}
