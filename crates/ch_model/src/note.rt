//! What a node tells of its own doing. A log's entries stand for notes, with names in place of
//! addresses.

ghost use Rattle.std.specs.Prelude.{◌≡◌, IfOk};

use ch_base::{Address, OutOfMemory, Text};
use ch_ident::{Message, Name, ProcessId, Reason, Ref, SendPortId};
use ch_static::Target;
use ch_watch::Kind;

/// The spawn that made a process: its reference and its label.
#[derive(Debug, Drop)]
pub struct Origin {
    pub spawn: Ref,
    pub label: Name,
}

impl Origin {
    /// An equal origin.
    pub fn copy(&self) -> Result<Origin, OutOfMemory>
        ensures { IfOk result (λ origin. origin ≡ self.now) }
    {
        Ok(Origin {
            spawn: self.spawn.copy()?,
            label: self.label.copy()?,
        })
    }
}

/// One thing that a node did.
#[derive(Debug, Drop)]
pub enum Note {
    /// A process was made, by a spawn or by a line.
    Made {
        process: ProcessId,
        origin: Option<Origin>,
    },
    /// A message was said, as the next of its pair and epoch.
    Said {
        by: ProcessId,
        to: Target,
        epoch: u64,
        index: u64,
        message: Message,
    },
    /// A pair was reconnected, and this is its new epoch.
    Again {
        by: ProcessId,
        to: Target,
        epoch: u64,
    },
    /// A message of this pair was got; by nobody, where its name stands for none.
    Got {
        by: ProcessId,
        to: Target,
        receiver: Option<ProcessId>,
    },
    /// A message was taken from a mailbox or a port.
    Took {
        by: ProcessId,
        port: Option<u32>,
        message: Message,
    },
    /// A port was opened.
    Port {
        port: SendPortId,
    },
    /// A process is over.
    Over {
        process: ProcessId,
        reason: Reason,
    },
    /// A process is doomed.
    Doom {
        process: ProcessId,
        text: Text,
    },
    /// A monitor or a link was opened.
    Watch {
        watch: Ref,
        by: ProcessId,
        target: ProcessId,
        kind: Kind,
    },
    /// A monitor or a link was taken back.
    Unwatch {
        watch: Ref,
    },
    /// A watch's target isn't there, or is over.
    Absent {
        watch: Ref,
    },
    /// A watch was told, and is open no more.
    Told {
        watch: Ref,
        reason: Reason,
    },
    /// A spawn or a question for a name was asked of another node.
    Asked {
        question: Ref,
        by: ProcessId,
        at: Address,
    },
    /// The process that a spawn made is known.
    Spawned {
        question: Ref,
        process: ProcessId,
    },
    /// For which process a name stands is known.
    IsAt {
        question: Ref,
        found: Option<ProcessId>,
    },
    /// A name of the node stands for this process, or fell away.
    Named {
        node: Address,
        name: Name,
        process: Option<ProcessId>,
    },
    /// The node was shut.
    Shut {
        node: Address,
    },
}

impl Note {
    /// An equal note.
    pub fn copy(&self) -> Result<Note, OutOfMemory>
        ensures { IfOk result (λ note. note ≡ self.now) }
    {
        Ok(match self {
            Note::Made { process, origin } => Note::Made {
                process: process.copy()?,
                origin: copy_origin(origin)?,
            },
            Note::Said {
                by,
                to,
                epoch,
                index,
                message,
            } => Note::Said {
                by: by.copy()?,
                to: to.copy()?,
                epoch: *epoch,
                index: *index,
                message: message.copy()?,
            },
            Note::Again { by, to, epoch } => Note::Again {
                by: by.copy()?,
                to: to.copy()?,
                epoch: *epoch,
            },
            Note::Got { by, to, receiver } => Note::Got {
                by: by.copy()?,
                to: to.copy()?,
                receiver: copy_found(receiver)?,
            },
            Note::Took { by, port, message } => Note::Took {
                by: by.copy()?,
                port: *port,
                message: message.copy()?,
            },
            Note::Port { port } => Note::Port { port: port.copy()? },
            Note::Over { process, reason } => Note::Over {
                process: process.copy()?,
                reason: reason.copy()?,
            },
            Note::Doom { process, text } => Note::Doom {
                process: process.copy()?,
                text: text.copy()?,
            },
            Note::Watch {
                watch,
                by,
                target,
                kind,
            } => Note::Watch {
                watch: watch.copy()?,
                by: by.copy()?,
                target: target.copy()?,
                kind: *kind,
            },
            Note::Unwatch { watch } => Note::Unwatch {
                watch: watch.copy()?,
            },
            Note::Absent { watch } => Note::Absent {
                watch: watch.copy()?,
            },
            Note::Told { watch, reason } => Note::Told {
                watch: watch.copy()?,
                reason: reason.copy()?,
            },
            Note::Asked { question, by, at } => Note::Asked {
                question: question.copy()?,
                by: by.copy()?,
                at: at.copy()?,
            },
            Note::Spawned { question, process } => Note::Spawned {
                question: question.copy()?,
                process: process.copy()?,
            },
            Note::IsAt { question, found } => Note::IsAt {
                question: question.copy()?,
                found: copy_found(found)?,
            },
            Note::Named {
                node,
                name,
                process,
            } => Note::Named {
                node: node.copy()?,
                name: name.copy()?,
                process: copy_found(process)?,
            },
            Note::Shut { node } => Note::Shut { node: node.copy()? },
        })
    }
}

fn copy_origin(origin: &Option<Origin>) -> Result<Option<Origin>, OutOfMemory>
    ensures { IfOk result (λ copied. copied ≡ origin.now) }
{
    match origin {
        None => Ok(None),
        Some(spawned) => Ok(Some(spawned.copy()?)),
    }
}

fn copy_found(found: &Option<ProcessId>) -> Result<Option<ProcessId>, OutOfMemory>
    ensures { IfOk result (λ copied. copied ≡ found.now) }
{
    match found {
        None => Ok(None),
        Some(process) => Ok(Some(process.copy()?)),
    }
}
