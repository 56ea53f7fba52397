//! The messages from node to node, and the one that opens a connection.
//! Below are identifiers, names and reasons; a node writes and handles these.

ghost use Rattle.std.specs.Prelude.{◌≡◌, IfOk};

use crate::identifier::{Identifier, ProcessId, Ref};
use crate::name::Name;
use crate::reason::Reason;
use ch_base::{OutOfMemory, Text};

/// What a node says to a node.
#[derive(Debug, Drop)]
pub enum NodeMessage {
    /// The first payload of a connection: who sends on it, and to whom.
    Opening {
        from: Identifier,
        to: Identifier,
    },
    /// Tell me of this process's end.
    Monitor {
        watch: Ref,
        target: ProcessId,
    },
    /// Don't tell me any more.
    Unmonitor {
        watch: Ref,
    },
    /// As `Monitor`, for a process that is to fall with its target.
    Link {
        watch: Ref,
        target: ProcessId,
    },
    /// As `Unmonitor`, for a link.
    Unlink {
        watch: Ref,
    },
    /// Make a process that runs what stands under this label.
    Spawn {
        question: Ref,
        label: Name,
        args: Text,
    },
    /// The process that was made for this question.
    DidSpawn {
        question: Ref,
        process: ProcessId,
    },
    /// The watched process is over.
    Died {
        watch: Ref,
        reason: Reason,
    },
    /// Which process stands under this name?
    WhereIs {
        question: Ref,
        name: Name,
    },
    /// The process that stands under the name asked for, if any.
    IsAt {
        question: Ref,
        found: Option<ProcessId>,
    },
    /// A message for whoever stands under this name.
    NamedSend {
        name: Name,
        mark: Name,
        body: Text,
    },
    /// The target is to end with this text.
    Exit {
        target: ProcessId,
        text: Text,
    },
    /// The target is to end with this text, whatever it does.
    Kill {
        target: ProcessId,
        text: Text,
    },
}

impl NodeMessage {
    /// An equal message.
    pub fn copy(&self) -> Result<NodeMessage, OutOfMemory>
        ensures { IfOk result (λ m. m ≡ self.now) }
    {
        match self {
            NodeMessage::Opening { from, to } => Ok(NodeMessage::Opening {
                from: from.copy()?,
                to: to.copy()?,
            }),
            NodeMessage::Monitor { watch, target } => Ok(NodeMessage::Monitor {
                watch: watch.copy()?,
                target: target.copy()?,
            }),
            NodeMessage::Unmonitor { watch } => Ok(NodeMessage::Unmonitor {
                watch: watch.copy()?,
            }),
            NodeMessage::Link { watch, target } => Ok(NodeMessage::Link {
                watch: watch.copy()?,
                target: target.copy()?,
            }),
            NodeMessage::Unlink { watch } => Ok(NodeMessage::Unlink {
                watch: watch.copy()?,
            }),
            NodeMessage::Spawn {
                question,
                label,
                args,
            } => Ok(NodeMessage::Spawn {
                question: question.copy()?,
                label: label.copy()?,
                args: args.copy()?,
            }),
            NodeMessage::DidSpawn { question, process } => Ok(NodeMessage::DidSpawn {
                question: question.copy()?,
                process: process.copy()?,
            }),
            NodeMessage::Died { watch, reason } => Ok(NodeMessage::Died {
                watch: watch.copy()?,
                reason: reason.copy()?,
            }),
            NodeMessage::WhereIs { question, name } => Ok(NodeMessage::WhereIs {
                question: question.copy()?,
                name: name.copy()?,
            }),
            NodeMessage::IsAt { question, found } => Ok(NodeMessage::IsAt {
                question: question.copy()?,
                found: copy_found(found)?,
            }),
            NodeMessage::NamedSend { name, mark, body } => Ok(NodeMessage::NamedSend {
                name: name.copy()?,
                mark: mark.copy()?,
                body: body.copy()?,
            }),
            NodeMessage::Exit { target, text } => Ok(NodeMessage::Exit {
                target: target.copy()?,
                text: text.copy()?,
            }),
            NodeMessage::Kill { target, text } => Ok(NodeMessage::Kill {
                target: target.copy()?,
                text: text.copy()?,
            }),
        }
    }
}

fn copy_found(found: &Option<ProcessId>) -> Result<Option<ProcessId>, OutOfMemory>
    ensures { IfOk result (λ f. f ≡ found.now) }
{
    match found {
        None => Ok(None),
        Some(process) => Ok(Some(process.copy()?)),
    }
}
