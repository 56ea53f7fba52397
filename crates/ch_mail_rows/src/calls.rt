//! The calls of a row, and what they answer.

use ch_base::{Stop, Text};
use ch_ident::{Message, Name, Reason};
use ch_mail::{Mail, MailError};
use std::alloc::Global;
use std::test::Fail;

/// A call, with the process that it names.
#[derive(Debug)]
pub enum Call {
    Make,
    Open(u32),
    /// A message of a mark, with a body of one byte, to the mailbox or a port.
    Put(u32, Option<u32>, &'static [u8], u8),
    Take(u32, &'static [u8]),
    TakePort(u32, u32),
    Doom(u32, &'static [u8]),
    End(u32),
}

#[derive(Clone, Copy, Debug, PartialEq, Eq)]
pub enum Answer {
    Number(u32),
    Done,
    Did(bool),
    /// The message with this body.
    Got(u8),
    Worn,
    Refused(MailError),
}

pub fn message(alloc: Global, mark: &[u8], body: u8) -> Result<Message, Fail> {
    Ok(Message {
        mark: Name::new(alloc, mark)?,
        body: Text::of(alloc, &[body])?,
    })
}

fn made(process: Result<u32, Stop>) -> Answer {
    match process {
        Ok(number) => Answer::Number(number),
        Err(_) => Answer::Worn,
    }
}

fn opened(port: Result<u32, MailError>) -> Answer {
    match port {
        Ok(number) => Answer::Number(number),
        Err(e) => Answer::Refused(e),
    }
}

fn done(call: Result<(), MailError>) -> Answer {
    match call {
        Ok(()) => Answer::Done,
        Err(e) => Answer::Refused(e),
    }
}

fn body_of(message: Message) -> Answer {
    match message.body.as_slice().first() {
        Some(body) => Answer::Got(*body),
        None => Answer::Done,
    }
}

fn got(taken: Result<Message, MailError>) -> Answer {
    match taken {
        Ok(message) => body_of(message),
        Err(e) => Answer::Refused(e),
    }
}

fn put(
    alloc: Global,
    mail: &mut Mail,
    process: u32,
    port: Option<u32>,
    mark: &[u8],
    body: u8,
) -> Result<Answer, Fail> {
    let message = message(alloc, mark, body)?;
    Ok(done(mail.put(process, port, message)))
}

fn take(alloc: Global, mail: &mut Mail, process: u32, mark: &[u8]) -> Result<Answer, Fail> {
    let mark = Name::new(alloc, mark)?;
    Ok(got(mail.take(process, &mark)))
}

fn doom(mail: &mut Mail, process: u32, text: &[u8]) -> Result<Answer, Fail> {
    let did = mail.doom(process, text)?;
    Ok(Answer::Did(did))
}

/// Makes the call.
pub fn answer_to(alloc: Global, mail: &mut Mail, call: &Call) -> Result<Answer, Fail> {
    match call {
        Call::Make => Ok(made(mail.make())),
        Call::Open(process) => Ok(opened(mail.open_port(*process))),
        Call::Put(process, port, mark, body) => put(alloc, mail, *process, *port, mark, *body),
        Call::Take(process, mark) => take(alloc, mail, *process, mark),
        Call::TakePort(process, port) => Ok(got(mail.take_port(*process, *port))),
        Call::Doom(process, text) => doom(mail, *process, text),
        Call::End(process) => Ok(done(mail.end(*process, Reason::Normal))),
    }
}
