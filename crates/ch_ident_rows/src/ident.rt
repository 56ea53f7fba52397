//! Identifiers, node messages and user messages: their bytes by hand, both ways, and the faults.
//! Each message stands with its least and its greatest fields.

ghost use Rattle.std.specs.List.{list_all};
ghost use Rattle.std.specs.Prelude.{◌≡◌, IsTrue};
ghost use Rattle.ch_ident.specs.Fits.{FitsMessage};
ghost use Rattle.ch_ident.specs.Names.{is_printable as is_printable_of, is_text as is_text_of};

use ch_base::{Address, Text};
use ch_ident::{
    IdentError, Identifier, Message, Name, NodeMessage, ProcessId, Reason, Ref, SendPortId,
    put_identifier, put_message, put_user, take_identifier, take_message, take_user,
};
use std::alloc::{AllocError, Global};
use std::process::Abort;
use std::test::Fail;

const LEAST: &[u8] = b"a:1:0";

const GREATEST: &[u8] =
    b"aaaaaaaaaaaaaaaaaaaaaaaaaaaaaaaaaaaaaaaaaaaaaaaaaaaaaaaaaaaaaaa:65535:4294967295";

const LEAST_NODE: &[u8] = b"\x05a:1:0";

const GREATEST_NODE: &[u8] =
    b"\x50aaaaaaaaaaaaaaaaaaaaaaaaaaaaaaaaaaaaaaaaaaaaaaaaaaaaaaaaaaaaaaa:65535:4294967295";

const LEAST_REF: &[u8] = b"\x05a:1:0\0\0\0\0";

const GREATEST_REF: &[u8] =
    b"\x50aaaaaaaaaaaaaaaaaaaaaaaaaaaaaaaaaaaaaaaaaaaaaaaaaaaaaaaaaaaaaaa:65535:4294967295\xff\xff\xff\xff";

const LEAST_PROCESS: &[u8] = b"\x05a:1:0\0\0\0\0\0\0\0\0";

const GREATEST_PROCESS: &[u8] =
    b"\x50aaaaaaaaaaaaaaaaaaaaaaaaaaaaaaaaaaaaaaaaaaaaaaaaaaaaaaaaaaaaaaa:65535:4294967295\xff\xff\xff\xff\xff\xff\xff\xfe";

const LEAST_NAME: &[u8] = b"\x01!";

const GREATEST_NAME: &[u8] = b"\x3f~~~~~~~~~~~~~~~~~~~~~~~~~~~~~~~~~~~~~~~~~~~~~~~~~~~~~~~~~~~~~~~";

const LONG_NAME: [u8; 63] = [b'~'; 63];

const LONG_TEXT: [u8; 255] = [b' '; 255];

const LONG_BODY: [u8; 65281] = [0xff; 65281];

fn process(alloc: Global, node: &[u8], unique: u32, counter: u32) -> Result<ProcessId, Fail> {
    Ok(ProcessId {
        node: Address::read(alloc, node)?,
        unique,
        counter,
    })
}

fn reference(alloc: Global, node: &[u8], number: u32) -> Result<Ref, Fail> {
    Ok(Ref {
        node: Address::read(alloc, node)?,
        number,
    })
}

fn least_process(alloc: Global) -> Result<ProcessId, Fail> {
    process(alloc, LEAST, 0, 0)
}

fn greatest_process(alloc: Global) -> Result<ProcessId, Fail> {
    process(alloc, GREATEST, 0xffff_ffff, 0xffff_fffe)
}

fn least_ref(alloc: Global) -> Result<Ref, Fail> {
    reference(alloc, LEAST, 0)
}

fn greatest_ref(alloc: Global) -> Result<Ref, Fail> {
    reference(alloc, GREATEST, 0xffff_ffff)
}

fn joined(alloc: Global, parts: &[&[u8]]) -> Result<Vec<u8>, AllocError> {
    let mut bytes = Vec::new(alloc);
    for part in parts {
        bytes.extend_from_slice(part)?;
    }
    Ok(bytes)
}

fn is_printable(b: u8) -> bool
    ensures { result ≡ is_printable_of b }
{
    b >= 0x20 && b <= 0x7e
}

fn all_printable(bytes: &[u8]) -> bool
    ensures { result ≡ list_all is_printable_of bytes.now }
{
    bytes.iter().all(|b| is_printable(*b))
}

fn is_text(bytes: &[u8]) -> bool
    ensures { result ≡ is_text_of bytes.now }
{
    bytes.len() <= 255 && all_printable(bytes)
}

fn fits(message: &NodeMessage) -> bool
    ensures { IsTrue result → FitsMessage message.now }
{
    match message {
        NodeMessage::Spawn { args, .. } => args.len() <= 0xffff_ffff,
        NodeMessage::NamedSend { body, .. } => body.len() <= 0xffff_ffff,
        NodeMessage::Died {
            reason: Reason::Exception(text),
            ..
        } => is_text(text.as_slice()),
        NodeMessage::Exit { text, .. } => is_text(text.as_slice()),
        NodeMessage::Kill { text, .. } => is_text(text.as_slice()),
        _ => true,
    }
}

/// The message is spelled by these parts in order, behind what the vector held, and is read from
/// them. Every proper prefix ends inside a field, and one byte more is too many.
fn both_ways(
    rt: &impl Abort,
    alloc: Global,
    message: &NodeMessage,
    parts: &[&[u8]],
) -> Result<(), Fail> {
    let mut bytes = joined(alloc, parts)?;
    let mut out = Vec::new(alloc);
    assert!(rt; fits(message));
    put_message(message, &mut out)?;
    assert_eq!(rt; out.as_slice(), bytes.as_slice());
    put_message(message, &mut out)?;
    assert_eq!(rt; out.len(), 2 * bytes.len());
    let shown = format!(in alloc; "{message:?}")?;
    let read = take_message(alloc, &bytes)?;
    assert_eq!(rt; format!(in alloc; "{read:?}")?, shown);
    let copy = message.copy()?;
    assert_eq!(rt; format!(in alloc; "{copy:?}")?, shown);
    for n in 0..bytes.len() {
        assert_eq!(rt;
            take_message(alloc, &bytes[..n]).err(),
            Some(IdentError::Short),
            "{n} bytes of {shown}"
        );
    }
    bytes.push(0)?;
    assert_eq!(rt;
        take_message(alloc, &bytes).err(),
        Some(IdentError::Extra),
        "{shown}"
    );
    Ok(())
}

#[test]
fn spells_openings_and_watches(rt: HostRuntime) -> Result<(), Fail> {
    let alloc = rt.alloc();
    both_ways(
        &rt,
        alloc,
        &NodeMessage::Opening {
            from: Identifier::Node(Address::read(alloc, LEAST)?),
            to: Identifier::Node(Address::read(alloc, LEAST)?),
        },
        &[b"\x00\x00", LEAST_NODE, b"\x00", LEAST_NODE],
    )?;
    both_ways(
        &rt,
        alloc,
        &NodeMessage::Opening {
            from: Identifier::Process(greatest_process(alloc)?),
            to: Identifier::Port(SendPortId {
                process: greatest_process(alloc)?,
                port: 0xffff_fffd,
            }),
        },
        &[
            b"\x00\x01",
            GREATEST_PROCESS,
            b"\x02",
            GREATEST_PROCESS,
            b"\xff\xff\xff\xfd",
        ],
    )?;
    both_ways(
        &rt,
        alloc,
        &NodeMessage::Monitor {
            watch: least_ref(alloc)?,
            target: least_process(alloc)?,
        },
        &[b"\x01", LEAST_REF, LEAST_PROCESS],
    )?;
    both_ways(
        &rt,
        alloc,
        &NodeMessage::Monitor {
            watch: greatest_ref(alloc)?,
            target: greatest_process(alloc)?,
        },
        &[b"\x01", GREATEST_REF, GREATEST_PROCESS],
    )?;
    both_ways(
        &rt,
        alloc,
        &NodeMessage::Link {
            watch: least_ref(alloc)?,
            target: least_process(alloc)?,
        },
        &[b"\x03", LEAST_REF, LEAST_PROCESS],
    )?;
    both_ways(
        &rt,
        alloc,
        &NodeMessage::Link {
            watch: greatest_ref(alloc)?,
            target: greatest_process(alloc)?,
        },
        &[b"\x03", GREATEST_REF, GREATEST_PROCESS],
    )?;
    both_ways(
        &rt,
        alloc,
        &NodeMessage::Unmonitor {
            watch: least_ref(alloc)?,
        },
        &[b"\x02", LEAST_REF],
    )?;
    both_ways(
        &rt,
        alloc,
        &NodeMessage::Unmonitor {
            watch: greatest_ref(alloc)?,
        },
        &[b"\x02", GREATEST_REF],
    )?;
    both_ways(
        &rt,
        alloc,
        &NodeMessage::Unlink {
            watch: least_ref(alloc)?,
        },
        &[b"\x04", LEAST_REF],
    )?;
    both_ways(
        &rt,
        alloc,
        &NodeMessage::Unlink {
            watch: greatest_ref(alloc)?,
        },
        &[b"\x04", GREATEST_REF],
    )?;
    Ok(())
}

#[test]
fn spells_questions_and_answers(rt: HostRuntime) -> Result<(), Fail> {
    let alloc = rt.alloc();
    both_ways(
        &rt,
        alloc,
        &NodeMessage::Spawn {
            question: least_ref(alloc)?,
            label: Name::new(alloc, b"!")?,
            args: Text::new(alloc),
        },
        &[b"\x05", LEAST_REF, LEAST_NAME, b"\0\0\0\0"],
    )?;
    both_ways(
        &rt,
        alloc,
        &NodeMessage::Spawn {
            question: greatest_ref(alloc)?,
            label: Name::new(alloc, &LONG_NAME)?,
            args: Text::of(alloc, &LONG_BODY)?,
        },
        &[
            b"\x05",
            GREATEST_REF,
            GREATEST_NAME,
            b"\x00\x00\xff\x01",
            &LONG_BODY,
        ],
    )?;
    both_ways(
        &rt,
        alloc,
        &NodeMessage::DidSpawn {
            question: least_ref(alloc)?,
            process: least_process(alloc)?,
        },
        &[b"\x06", LEAST_REF, LEAST_PROCESS],
    )?;
    both_ways(
        &rt,
        alloc,
        &NodeMessage::DidSpawn {
            question: greatest_ref(alloc)?,
            process: greatest_process(alloc)?,
        },
        &[b"\x06", GREATEST_REF, GREATEST_PROCESS],
    )?;
    both_ways(
        &rt,
        alloc,
        &NodeMessage::WhereIs {
            question: least_ref(alloc)?,
            name: Name::new(alloc, b"!")?,
        },
        &[b"\x08", LEAST_REF, LEAST_NAME],
    )?;
    both_ways(
        &rt,
        alloc,
        &NodeMessage::WhereIs {
            question: greatest_ref(alloc)?,
            name: Name::new(alloc, &LONG_NAME)?,
        },
        &[b"\x08", GREATEST_REF, GREATEST_NAME],
    )?;
    both_ways(
        &rt,
        alloc,
        &NodeMessage::IsAt {
            question: least_ref(alloc)?,
            found: None,
        },
        &[b"\x09", LEAST_REF, b"\x00"],
    )?;
    both_ways(
        &rt,
        alloc,
        &NodeMessage::IsAt {
            question: greatest_ref(alloc)?,
            found: Some(greatest_process(alloc)?),
        },
        &[b"\x09", GREATEST_REF, b"\x01", GREATEST_PROCESS],
    )?;
    Ok(())
}

#[test]
fn spells_ends_and_named_sends(rt: HostRuntime) -> Result<(), Fail> {
    let alloc = rt.alloc();
    both_ways(
        &rt,
        alloc,
        &NodeMessage::Died {
            watch: least_ref(alloc)?,
            reason: Reason::Normal,
        },
        &[b"\x07", LEAST_REF, b"\x00"],
    )?;
    both_ways(
        &rt,
        alloc,
        &NodeMessage::Died {
            watch: least_ref(alloc)?,
            reason: Reason::Exception(Text::new(alloc)),
        },
        &[b"\x07", LEAST_REF, b"\x01\x00"],
    )?;
    both_ways(
        &rt,
        alloc,
        &NodeMessage::Died {
            watch: greatest_ref(alloc)?,
            reason: Reason::Exception(Text::of(alloc, &LONG_TEXT)?),
        },
        &[b"\x07", GREATEST_REF, b"\x01\xff", &LONG_TEXT],
    )?;
    both_ways(
        &rt,
        alloc,
        &NodeMessage::Died {
            watch: least_ref(alloc)?,
            reason: Reason::Disconnect,
        },
        &[b"\x07", LEAST_REF, b"\x02"],
    )?;
    both_ways(
        &rt,
        alloc,
        &NodeMessage::Died {
            watch: least_ref(alloc)?,
            reason: Reason::NodeDown,
        },
        &[b"\x07", LEAST_REF, b"\x03"],
    )?;
    both_ways(
        &rt,
        alloc,
        &NodeMessage::Died {
            watch: least_ref(alloc)?,
            reason: Reason::UnknownId,
        },
        &[b"\x07", LEAST_REF, b"\x04"],
    )?;
    both_ways(
        &rt,
        alloc,
        &NodeMessage::NamedSend {
            name: Name::new(alloc, b"!")?,
            mark: Name::new(alloc, b"t")?,
            body: Text::new(alloc),
        },
        &[b"\x0a", LEAST_NAME, b"\x01t", b"\0\0\0\0"],
    )?;
    both_ways(
        &rt,
        alloc,
        &NodeMessage::NamedSend {
            name: Name::new(alloc, &LONG_NAME)?,
            mark: Name::new(alloc, &LONG_NAME)?,
            body: Text::of(alloc, &LONG_BODY)?,
        },
        &[
            b"\x0a",
            GREATEST_NAME,
            GREATEST_NAME,
            b"\x00\x00\xff\x01",
            &LONG_BODY,
        ],
    )?;
    both_ways(
        &rt,
        alloc,
        &NodeMessage::Exit {
            target: least_process(alloc)?,
            text: Text::new(alloc),
        },
        &[b"\x0b", LEAST_PROCESS, b"\x00"],
    )?;
    both_ways(
        &rt,
        alloc,
        &NodeMessage::Exit {
            target: greatest_process(alloc)?,
            text: Text::of(alloc, &LONG_TEXT)?,
        },
        &[b"\x0b", GREATEST_PROCESS, b"\xff", &LONG_TEXT],
    )?;
    both_ways(
        &rt,
        alloc,
        &NodeMessage::Kill {
            target: least_process(alloc)?,
            text: Text::new(alloc),
        },
        &[b"\x0c", LEAST_PROCESS, b"\x00"],
    )?;
    both_ways(
        &rt,
        alloc,
        &NodeMessage::Kill {
            target: greatest_process(alloc)?,
            text: Text::of(alloc, &LONG_TEXT)?,
        },
        &[b"\x0c", GREATEST_PROCESS, b"\xff", &LONG_TEXT],
    )?;
    Ok(())
}

/// As `both_ways`, for an identifier.
fn identifier_both_ways(
    rt: &impl Abort,
    alloc: Global,
    id: &Identifier,
    parts: &[&[u8]],
) -> Result<(), Fail> {
    let mut bytes = joined(alloc, parts)?;
    let mut out = Vec::new(alloc);
    put_identifier(id, &mut out)?;
    assert_eq!(rt; out.as_slice(), bytes.as_slice());
    let shown = format!(in alloc; "{id:?}")?;
    let read = take_identifier(alloc, &bytes)?;
    assert_eq!(rt; format!(in alloc; "{read:?}")?, shown);
    for n in 0..bytes.len() {
        assert_eq!(rt;
            take_identifier(alloc, &bytes[..n]).err(),
            Some(IdentError::Short),
            "{n} bytes of {shown}"
        );
    }
    bytes.push(0)?;
    assert_eq!(rt;
        take_identifier(alloc, &bytes).err(),
        Some(IdentError::Extra),
        "{shown}"
    );
    Ok(())
}

#[test]
fn spells_identifiers(rt: HostRuntime) -> Result<(), Fail> {
    let alloc = rt.alloc();
    let node = Identifier::Node(Address::read(alloc, GREATEST)?);
    identifier_both_ways(&rt, alloc, &node, &[b"\x00", GREATEST_NODE])?;
    let process = Identifier::Process(least_process(alloc)?);
    identifier_both_ways(&rt, alloc, &process, &[b"\x01", LEAST_PROCESS])?;
    let port = Identifier::Port(SendPortId {
        process: greatest_process(alloc)?,
        port: 1,
    });
    identifier_both_ways(
        &rt,
        alloc,
        &port.copy()?,
        &[b"\x02", GREATEST_PROCESS, b"\0\0\0\x01"],
    )?;
    assert_eq!(rt;
        take_identifier(alloc, b"\x03").err(),
        Some(IdentError::BadTag)
    );
    Ok(())
}

/// As `both_ways`, for a user's message, whose body ends with the bytes.
fn user_both_ways(
    rt: &impl Abort,
    alloc: Global,
    mark: &[u8],
    body: &[u8],
    parts: &[&[u8]],
) -> Result<(), Fail> {
    let bytes = joined(alloc, parts)?;
    let message = Message {
        mark: Name::new(alloc, mark)?,
        body: Text::of(alloc, body)?,
    };
    let mut out = Vec::new(alloc);
    put_user(&message.copy()?, &mut out)?;
    assert_eq!(rt; out.as_slice(), bytes.as_slice());
    let read = take_user(alloc, &bytes)?;
    assert_eq!(rt;
        format!(in alloc; "{read:?}")?,
        format!(in alloc; "{message:?}")?
    );
    Ok(())
}

#[test]
fn names_and_user_messages(rt: HostRuntime) -> Result<(), Fail> {
    let alloc = rt.alloc();
    let refused: [&[u8]; 5] = [&[b'a'; 64], b"", b"a b", b"\x7f", b"a\xff"];
    for bytes in refused {
        assert_eq!(rt; Name::new(alloc, bytes).err(), Some(IdentError::BadText));
    }
    user_both_ways(&rt, alloc, b"!", b"", &[LEAST_NAME])?;
    user_both_ways(&rt, alloc, b"t", b"hi", &[b"\x01thi"])?;
    user_both_ways(
        &rt,
        alloc,
        &LONG_NAME,
        &LONG_BODY,
        &[GREATEST_NAME, &LONG_BODY],
    )?;
    let faults: [(&[u8], IdentError); 9] = [
        (b"", IdentError::Short),
        (b"\x00", IdentError::BadText),
        (b"\x40", IdentError::BadText),
        (b"\xff", IdentError::BadText),
        (b"\x02", IdentError::Short),
        (b"\x02t", IdentError::Short),
        (b"\x03t ", IdentError::BadText),
        (b"\x3f\x7f", IdentError::BadText),
        (b"\x01\x20", IdentError::BadText),
    ];
    for (bytes, fault) in faults {
        assert_eq!(rt; take_user(alloc, bytes).err(), Some(fault), "{bytes:?}");
    }
    Ok(())
}

#[test]
fn refuses_the_first_fault(rt: HostRuntime) -> Result<(), Fail> {
    let alloc = rt.alloc();
    for tag in 13..=255u8 {
        assert_eq!(rt;
            take_message(alloc, &[tag]).err(),
            Some(IdentError::BadTag),
            "{tag}"
        );
        assert_eq!(rt;
            take_message(alloc, &[tag, 5, b'a']).err(),
            Some(IdentError::BadTag),
            "{tag}"
        );
    }
    let faults: [(&[&[u8]], IdentError); 20] = [
        (&[b"\x02\x05h:1:0\0\0\0\0\0"], IdentError::Extra),
        (&[b"\x0d"], IdentError::BadTag),
        // an address: its length, its end, its text
        (&[b"\x02\x00"], IdentError::BadText),
        (&[b"\x02\x51"], IdentError::BadText),
        (&[b"\x02\x05h:0:"], IdentError::Short),
        (&[b"\x02\x05h:0:0"], IdentError::BadText),
        (&[b"\x02\x05h:1:x"], IdentError::BadText),
        (&[b"\x02\x06h:1:00"], IdentError::BadText),
        (&[b"\x02\x03h:1"], IdentError::BadText),
        // the tags and flags inside
        (&[b"\x00\x03"], IdentError::BadTag),
        (&[b"\x00\x00", LEAST_NODE, b"\xff"], IdentError::BadTag),
        (&[b"\x07", LEAST_REF, b"\x05"], IdentError::BadTag),
        (&[b"\x09", LEAST_REF, b"\x02"], IdentError::BadTag),
        // names, texts and bytes
        (&[b"\x08", LEAST_REF, b"\x00"], IdentError::BadText),
        (&[b"\x08", LEAST_REF, b"\x40"], IdentError::BadText),
        (&[b"\x08", LEAST_REF, b"\x03a "], IdentError::BadText),
        (&[b"\x07", LEAST_REF, b"\x01\x05a\x1f"], IdentError::BadText),
        (&[b"\x0b", LEAST_PROCESS, b"\x02a\x7f"], IdentError::BadText),
        (&[b"\x0c", LEAST_PROCESS, b"\x02\x80"], IdentError::BadText),
        (
            &[b"\x0a", LEAST_NAME, LEAST_NAME, b"\xff\xff\xff\xff\x00"],
            IdentError::Short,
        ),
    ];
    for (parts, fault) in faults {
        let bytes = joined(alloc, parts)?;
        assert_eq!(rt; take_message(alloc, &bytes).err(), Some(fault), "{bytes:?}");
    }
    Ok(())
}
