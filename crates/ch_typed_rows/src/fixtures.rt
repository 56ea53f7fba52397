//! A process and a message.

use ch_base::{Address, Text};
use ch_ident::{Message, Name, ProcessId};
use ch_mail::Mail;
use ch_typed::{Typed, pack};
use std::alloc::Global;
use std::test::Fail;

/// The spelling of the process `own(alloc, 2)`.
pub const PROCESS: &[u8] = b"\x01\x05h:1:0\0\0\0\x07\0\0\0\x02";

pub fn own(alloc: Global, counter: u32) -> Result<ProcessId, Fail> {
    let node = Address::read(alloc, b"h:1:0")?;
    Ok(ProcessId {
        node,
        unique: 7,
        counter,
    })
}

pub fn message(alloc: Global, mark: &[u8], body: &[u8]) -> Result<Message, Fail> {
    let mark = Name::new(alloc, mark)?;
    let body = Text::of(alloc, body)?;
    Ok(Message { mark, body })
}

/// A value comes to process 0, into its mailbox or a port.
pub fn bring<T: Typed>(
    alloc: Global,
    mail: &mut Mail,
    port: Option<u32>,
    value: &T,
) -> Result<(), Fail> {
    let message = pack(alloc, value)?;
    mail.put(0, port, message)?;
    Ok(())
}
