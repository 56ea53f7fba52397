//! What a node tells of its own doing. A log's entries stand for notes, with names in place of
//! addresses.

ghost use Rattle.std.specs.Prelude.{◌≡◌, IfOk};

use ch_base::OutOfMemory;
use ch_ident::{Message, ProcessId, Reason};

/// One thing that a node did.
#[derive(Debug, Drop)]
pub enum Note {
    /// A process was made.
    Made {
        process: ProcessId,
    },
    /// A message was said, as the next of its pair and epoch.
    Said {
        by: ProcessId,
        to: ProcessId,
        epoch: u64,
        index: u64,
        message: Message,
    },
    /// A message of this pair was got.
    Got {
        by: ProcessId,
        to: ProcessId,
        receiver: ProcessId,
    },
    /// A message was taken from a mailbox.
    Took {
        by: ProcessId,
        message: Message,
    },
    /// A process is over.
    Over {
        process: ProcessId,
        reason: Reason,
    },
}

impl Note {
    /// An equal note.
    pub fn copy(&self) -> Result<Note, OutOfMemory>
        ensures { IfOk result (λ note. note ≡ self.now) }
    {
        Ok(match self {
            Note::Made { process } => Note::Made {
                process: process.copy()?,
            },
            Note::Said {
                by,
                to,
                epoch,
                index,
                message,
            } => Note::Said {
                by: by.copy()?,
                to: to.copy()?,
                epoch: *epoch,
                index: *index,
                message: message.copy()?,
            },
            Note::Got { by, to, receiver } => Note::Got {
                by: by.copy()?,
                to: to.copy()?,
                receiver: receiver.copy()?,
            },
            Note::Took { by, message } => Note::Took {
                by: by.copy()?,
                message: message.copy()?,
            },
            Note::Over { process, reason } => Note::Over {
                process: process.copy()?,
                reason: reason.copy()?,
            },
        })
    }
}
