//! A process with a port for numbers and one for texts.

use crate::fixtures::{bring, message, own};
use ch_base::Text;
use ch_mail::Mail;
use ch_typed::{ReceivePort, SendPort, TypedError, channel, expect, pack, unpack};
use std::alloc::Global;
use std::test::Fail;

/// A process, with the ends of its two ports.
#[derive(Drop)]
struct TwoPorts {
    mail: Mail,
    numbers: SendPort<u32>,
    from_numbers: ReceivePort<u32>,
    from_texts: ReceivePort<Text>,
}

fn two_ports(alloc: Global) -> Result<TwoPorts, Fail> {
    let mut mail = Mail::new(alloc);
    mail.make()?;
    let own = own(alloc, 0)?;
    let (numbers, from_numbers) = channel::<u32>(alloc, &mut mail, &own)?;
    let (_texts, from_texts) = channel::<Text>(alloc, &mut mail, &own)?;
    Ok(TwoPorts {
        mail,
        numbers,
        from_numbers,
        from_texts,
    })
}

#[test]
fn the_first_port_is_0(rt: HostRuntime) -> Result<(), Fail> {
    let ports = two_ports(rt.alloc())?;
    assert_eq!(rt; ports.numbers.id().port, 0);
    assert_eq!(rt; ports.numbers.id().process.counter, 0);
    Ok(())
}

#[test]
fn a_port_is_empty_at_first(rt: HostRuntime) -> Result<(), Fail> {
    let mut ports = two_ports(rt.alloc())?;
    let taken = ports.from_numbers.receive(&mut ports.mail);
    assert!(rt; matches!(taken, Err(TypedError::Empty)));
    Ok(())
}

#[test]
fn nothing_is_to_be_expected_at_first(rt: HostRuntime) -> Result<(), Fail> {
    let mut ports = two_ports(rt.alloc())?;
    let taken = expect::<u32>(rt.alloc(), &mut ports.mail, 0);
    assert!(rt; matches!(taken, Err(TypedError::Empty)));
    let unmade = expect::<u32>(rt.alloc(), &mut ports.mail, 1);
    assert!(rt; matches!(unmade, Err(TypedError::NotLive)));
    Ok(())
}

#[test]
fn no_port_is_opened_for_what_was_not_made(rt: HostRuntime) -> Result<(), Fail> {
    let mut mail = Mail::new(rt.alloc());
    let own = own(rt.alloc(), 0)?;
    let ends = channel::<u32>(rt.alloc(), &mut mail, &own);
    assert!(rt; matches!(ends, Err(TypedError::NotLive)));
    Ok(())
}

/// The end that a message carried is that of the same port.
#[test]
fn a_send_port_is_sent(rt: HostRuntime) -> Result<(), Fail> {
    let ports = two_ports(rt.alloc())?;
    let packed = pack(rt.alloc(), &ports.numbers)?;
    let sent: SendPort<u32> = unpack(rt.alloc(), &packed)?;
    assert_eq!(rt; sent.id().port, 0);
    assert_eq!(rt; sent.id().process.unique, 7);
    Ok(())
}

#[test]
fn a_port_gives_values_in_order(rt: HostRuntime) -> Result<(), Fail> {
    let mut ports = two_ports(rt.alloc())?;
    bring(rt.alloc(), &mut ports.mail, Some(0), &5u32)?;
    bring(rt.alloc(), &mut ports.mail, Some(0), &6u32)?;
    assert_eq!(rt; ports.from_numbers.receive(&mut ports.mail)?, 5);
    assert_eq!(rt; ports.from_numbers.receive(&mut ports.mail)?, 6);
    Ok(())
}

/// A value of another type is refused, and is gone then.
#[test]
fn a_port_refuses_another_type(rt: HostRuntime) -> Result<(), Fail> {
    let mut ports = two_ports(rt.alloc())?;
    let text = Text::of(rt.alloc(), b"hi")?;
    bring(rt.alloc(), &mut ports.mail, Some(1), &7u32)?;
    bring(rt.alloc(), &mut ports.mail, Some(1), &text)?;
    let other = ports.from_texts.receive(&mut ports.mail);
    assert!(rt; matches!(other, Err(TypedError::WrongMark { .. })));
    let taken = ports.from_texts.receive(&mut ports.mail)?;
    assert_eq!(rt; taken.as_slice(), b"hi".as_slice());
    Ok(())
}

/// A body that is no value's spelling is refused, and is gone then.
#[test]
fn a_bad_body_is_taken(rt: HostRuntime) -> Result<(), Fail> {
    let mut ports = two_ports(rt.alloc())?;
    let bad = message(rt.alloc(), b"u32", b"\0")?;
    ports.mail.put(0, None, bad)?;
    bring(rt.alloc(), &mut ports.mail, None, &8u32)?;
    let refused = expect::<u32>(rt.alloc(), &mut ports.mail, 0);
    assert!(rt; matches!(refused, Err(TypedError::BadBody)));
    assert_eq!(rt; expect::<u32>(rt.alloc(), &mut ports.mail, 0)?, 8);
    assert_eq!(rt; ports.mail.waiting(0), 0);
    Ok(())
}
