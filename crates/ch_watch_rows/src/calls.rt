//! The calls of a row, and what they answer.

use crate::fixtures::{At, Target, identifier, node, reference};
use ch_base::Stop;
use ch_ident::Name;
use ch_watch::{Kind, Waiting, WatchError, Watches};
use std::alloc::Global;
use std::test::Fail;

#[derive(Debug)]
pub enum Call {
    Watch(u32, Kind, Target),
    Unwatch(u32, u32),
    Told(u32),
    Waiting(u32, u32),
    Arrive(u32, At, u32),
    Forget(At, u32),
    Ended(u32),
    Lost(At),
    Register(&'static [u8], u32),
    Unregister(&'static [u8]),
    Find(&'static [u8]),
}

#[derive(Clone, Copy, Debug, PartialEq, Eq)]
pub enum Answer {
    Number(u32),
    Done,
    Did(bool),
    Nothing,
    /// So many numbers were lost.
    Lost(usize),
    /// So many names and watches go with the process.
    Ending(usize, usize),
    Worn,
    Refused(WatchError),
}

fn opened(number: Result<u32, Stop>) -> Answer {
    match number {
        Ok(number) => Answer::Number(number),
        Err(_) => Answer::Worn,
    }
}

fn closed(waiting: Result<Waiting, WatchError>) -> Answer {
    match waiting {
        Ok(waiting) => Answer::Number(waiting.number),
        Err(e) => Answer::Refused(e),
    }
}

fn lent(waiting: Option<&Waiting>) -> Answer {
    match waiting {
        Some(waiting) => Answer::Number(waiting.number),
        None => Answer::Nothing,
    }
}

fn registered(call: Result<(), WatchError>) -> Answer {
    match call {
        Ok(()) => Answer::Done,
        Err(e) => Answer::Refused(e),
    }
}

fn unregistered(process: Result<u32, WatchError>) -> Answer {
    match process {
        Ok(process) => Answer::Number(process),
        Err(e) => Answer::Refused(e),
    }
}

fn found(process: Option<u32>) -> Answer {
    match process {
        Some(process) => Answer::Number(process),
        None => Answer::Nothing,
    }
}

fn watch(
    alloc: Global,
    watches: &mut Watches,
    owner: u32,
    kind: Kind,
    target: Target,
) -> Result<Answer, Fail> {
    let target = identifier(alloc, target)?;
    Ok(opened(watches.watch(owner, kind, &target)))
}

fn arrive(
    alloc: Global,
    watches: &mut Watches,
    process: u32,
    at: At,
    number: u32,
) -> Result<Answer, Fail> {
    let watch = reference(alloc, at, number)?;
    watches.arrive(process, &watch)?;
    Ok(Answer::Done)
}

fn forget(alloc: Global, watches: &mut Watches, at: At, number: u32) -> Result<Answer, Fail> {
    let watch = reference(alloc, at, number)?;
    Ok(Answer::Did(watches.forget(&watch)))
}

fn ended(watches: &mut Watches, process: u32) -> Result<Answer, Fail> {
    let ending = watches.ended(process)?;
    Ok(Answer::Ending(ending.names.items.len(), ending.watches.items.len()))
}

fn lost(alloc: Global, watches: &mut Watches, at: At) -> Result<Answer, Fail> {
    let peer = node(alloc, at)?;
    let lost = watches.lost(&peer)?;
    Ok(Answer::Lost(lost.len()))
}

fn register(
    alloc: Global,
    watches: &mut Watches,
    name: &[u8],
    process: u32,
) -> Result<Answer, Fail> {
    let name = Name::new(alloc, name)?;
    Ok(registered(watches.register(&name, process)))
}

fn unregister(alloc: Global, watches: &mut Watches, name: &[u8]) -> Result<Answer, Fail> {
    let name = Name::new(alloc, name)?;
    Ok(unregistered(watches.unregister(&name)))
}

fn find(alloc: Global, watches: &Watches, name: &[u8]) -> Result<Answer, Fail> {
    let name = Name::new(alloc, name)?;
    Ok(found(watches.find(&name)))
}

/// Makes the call.
pub fn answer_to(alloc: Global, watches: &mut Watches, call: &Call) -> Result<Answer, Fail> {
    match call {
        Call::Watch(owner, kind, target) => watch(alloc, watches, *owner, *kind, *target),
        Call::Unwatch(owner, number) => Ok(closed(watches.unwatch(*owner, *number))),
        Call::Told(number) => Ok(closed(watches.told(*number))),
        Call::Waiting(owner, number) => Ok(lent(watches.waiting(*owner, *number))),
        Call::Arrive(process, at, number) => arrive(alloc, watches, *process, *at, *number),
        Call::Forget(at, number) => forget(alloc, watches, *at, *number),
        Call::Ended(process) => ended(watches, *process),
        Call::Lost(at) => lost(alloc, watches, *at),
        Call::Register(name, process) => register(alloc, watches, name, *process),
        Call::Unregister(name) => unregister(alloc, watches, name),
        Call::Find(name) => find(alloc, watches, name),
    }
}
