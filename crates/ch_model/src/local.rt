//! What happens at one host, and what it made of it.

ghost use Rattle.std.specs.Prelude.{◌≡◌, IfOk};

use crate::entry::Verdict;
use crate::note::Note;
use crate::step::{SocketEvent, Step};
use ch_base::{OutOfMemory, Text};
use ch_static::Command;
use std::alloc::Global;
use std::marker::Model;

/// One local event of a host. A node is named by the number of its endpoint.
#[derive(Debug, Drop)]
pub enum LocalEvent {
    /// A process of the node is made.
    Make {
        node: u32,
    },
    /// A process asks something of its node.
    Command {
        node: u32,
        by: u32,
        command: Command,
    },
    /// The node is shut.
    Shut {
        node: u32,
    },
    /// A socket was accepted, with the mark that its opener sent ahead of it: 0 for a stranger's.
    Came {
        mark: u64,
        sock: u64,
        peer_host: Text,
    },
    /// Anything else that happens to a socket or a timer.
    Socket(SocketEvent),
}

impl LocalEvent {
    /// An equal event.
    pub fn copy(&self) -> Result<LocalEvent, OutOfMemory>
        ensures { IfOk result (λ event. event ≡ self.now) }
    {
        Ok(match self {
            LocalEvent::Make { node } => LocalEvent::Make { node: *node },
            LocalEvent::Command { node, by, command } => LocalEvent::Command {
                node: *node,
                by: *by,
                command: command.copy()?,
            },
            LocalEvent::Shut { node } => LocalEvent::Shut { node: *node },
            LocalEvent::Came {
                mark,
                sock,
                peer_host,
            } => LocalEvent::Came {
                mark: *mark,
                sock: *sock,
                peer_host: peer_host.copy()?,
            },
            LocalEvent::Socket(event) => LocalEvent::Socket(event.copy()?),
        })
    }
}

/// One thing that followed from a local event: a step of the host, or a note of a node.
#[derive(Debug, Drop)]
pub enum LocalEntry {
    Step(Step),
    Note(Note),
}

impl LocalEntry {
    /// An equal entry.
    pub fn copy(&self) -> Result<LocalEntry, OutOfMemory>
        ensures { IfOk result (λ entry. entry ≡ self.now) }
    {
        Ok(match self {
            LocalEntry::Step(step) => LocalEntry::Step(step.copy()?),
            LocalEntry::Note(note) => LocalEntry::Note(note.copy()?),
        })
    }
}

/// Local entries in order. Contracts see a list.
#[derive(Debug, Drop)]
pub struct LocalList {
    pub items: Vec<LocalEntry>,
}

impl Model for LocalList {
    ghost use Rattle.std.specs.Prelude.{List};
    ghost use Rattle.ch_model.specs.declared.local.LocalEntry.{LocalEntry};

    ghost Value = { List LocalEntry };

    ghost view = { λ list. list.items.items };
}

impl LocalList {
    /// Equal entries.
    pub fn copy(&self) -> Result<LocalList, OutOfMemory>
        ensures { IfOk result (λ list. list ≡ self.now) }
    {
        Ok(LocalList {
            items: entries_copied(*self.items.allocator(), self.items.as_slice())?,
        })
    }
}

fn entries_copied(alloc: Global, entries: &[LocalEntry]) -> Result<Vec<LocalEntry>, OutOfMemory>
    ensures { IfOk result (λ own. own.items ≡ entries.now) }
{
    let mut own = Vec::new(alloc);
    for entry in entries {
        own.push(entry.copy()?)?;
    }
    Ok(own)
}

/// The answer to a local event, and what followed, in order.
#[derive(Debug, Drop)]
pub struct LocalEntries {
    pub verdict: Verdict,
    pub entries: LocalList,
}

impl LocalEntries {
    /// An equal answer with equal entries.
    pub fn copy(&self) -> Result<LocalEntries, OutOfMemory>
        ensures { IfOk result (λ made. made ≡ self.now) }
    {
        Ok(LocalEntries {
            verdict: self.verdict,
            entries: self.entries.copy()?,
        })
    }
}

/// One local event and what the host made of it.
#[derive(Debug, Drop)]
pub struct Happened {
    pub event: LocalEvent,
    pub made: LocalEntries,
}

impl Happened {
    /// An equal event with what the host made of it.
    pub fn copy(&self) -> Result<Happened, OutOfMemory>
        ensures { IfOk result (λ happened. happened ≡ self.now) }
    {
        Ok(Happened {
            event: self.event.copy()?,
            made: self.made.copy()?,
        })
    }
}

/// All that has happened at a host, in order. Contracts see a list.
#[derive(Debug, Drop)]
pub struct History {
    pub events: Vec<Happened>,
}

impl Model for History {
    ghost use Rattle.std.specs.Prelude.{List};
    ghost use Rattle.ch_model.specs.declared.local.Happened.{Happened};

    ghost Value = { List Happened };

    ghost view = { λ history. history.events.items };
}

impl History {
    /// An equal history.
    pub fn copy(&self) -> Result<History, OutOfMemory>
        ensures { IfOk result (λ history. history ≡ self.now) }
    {
        Ok(History {
            events: events_copied(*self.events.allocator(), self.events.as_slice())?,
        })
    }
}

fn events_copied(alloc: Global, events: &[Happened]) -> Result<Vec<Happened>, OutOfMemory>
    ensures { IfOk result (λ own. own.items ≡ events.now) }
{
    let mut own = Vec::new(alloc);
    for happened in events {
        own.push(happened.copy()?)?;
    }
    Ok(own)
}
