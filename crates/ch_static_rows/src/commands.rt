//! Copies of commands, with targets of each kind.

use ch_base::{Address, Text};
use ch_ident::{Message, Name, ProcessId};
use ch_static::{Closure, Command, Target};
use std::alloc::Global;
use std::process::Abort;
use std::test::Fail;

fn node(alloc: Global) -> Result<Address, Fail> {
    let node = Address::read(alloc, b"h:1:0")?;
    Ok(node)
}

fn process(alloc: Global) -> Result<ProcessId, Fail> {
    let node = node(alloc)?;
    Ok(ProcessId {
        node,
        unique: 7,
        counter: 2,
    })
}

fn name(alloc: Global) -> Result<Name, Fail> {
    let name = Name::new(alloc, b"log")?;
    Ok(name)
}

fn text(alloc: Global) -> Result<Text, Fail> {
    let text = Text::of(alloc, b"bye")?;
    Ok(text)
}

fn spelled(alloc: Global, command: &Command) -> Result<String, Fail> {
    let text = format!(in alloc; "{command:?}")?;
    Ok(text)
}

fn copied(alloc: Global, command: &Command) -> Result<String, Fail> {
    let copy = command.copy()?;
    spelled(alloc, &copy)
}

fn is_copied(rt: &impl Abort, alloc: Global, command: &Command) -> Result<(), Fail> {
    let copied = copied(alloc, command)?;
    let wanted = spelled(alloc, command)?;
    assert_eq!(rt; copied, wanted);
    Ok(())
}

#[test]
fn a_send_is_copied(rt: HostRuntime) -> Result<(), Fail> {
    let to = Target::Process(process(rt.alloc())?);
    let mark = name(rt.alloc())?;
    let body = text(rt.alloc())?;
    let message = Message { mark, body };
    is_copied(&rt, rt.alloc(), &Command::Send { to, message })
}

#[test]
fn an_again_is_copied(rt: HostRuntime) -> Result<(), Fail> {
    let at = node(rt.alloc())?;
    let name = name(rt.alloc())?;
    let to = Target::Named { at, name };
    is_copied(&rt, rt.alloc(), &Command::Again { to })
}

#[test]
fn a_take_is_copied(rt: HostRuntime) -> Result<(), Fail> {
    is_copied(&rt, rt.alloc(), &Command::Take { port: 3 })
}

#[test]
fn a_kill_is_copied(rt: HostRuntime) -> Result<(), Fail> {
    let target = process(rt.alloc())?;
    let text = text(rt.alloc())?;
    is_copied(&rt, rt.alloc(), &Command::Kill { target, text })
}

#[test]
fn a_spawn_is_copied(rt: HostRuntime) -> Result<(), Fail> {
    let at = node(rt.alloc())?;
    let label = name(rt.alloc())?;
    let args = text(rt.alloc())?;
    let closure = Closure { label, args };
    is_copied(&rt, rt.alloc(), &Command::Spawn { at, closure })
}

#[test]
fn a_question_is_copied(rt: HostRuntime) -> Result<(), Fail> {
    let at = node(rt.alloc())?;
    let name = name(rt.alloc())?;
    is_copied(&rt, rt.alloc(), &Command::WhereIs { at, name })
}
