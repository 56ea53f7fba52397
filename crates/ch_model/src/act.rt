//! What a node does in answer to a command or an event.

ghost use Rattle.std.specs.Prelude.{◌≡◌, IfOk};

use crate::note::Note;
use crate::step::Weight;
use ch_base::{Address, OutOfMemory, Text};

/// One act of a node. It asks its host for the last three.
#[derive(Debug, Drop)]
pub enum Act {
    /// It tells of its own doing.
    Note(Note),
    /// A connection to the peer is opened, under a number that the node has drawn.
    Open {
        conn: u64,
        peer: Address,
    },
    /// A payload is sent on it.
    Put {
        conn: u64,
        payload: Text,
        weight: Weight,
    },
    /// It is closed.
    Close {
        conn: u64,
    },
}

impl Act {
    /// An equal act.
    pub fn copy(&self) -> Result<Act, OutOfMemory>
        ensures { IfOk result (λ act. act ≡ self.now) }
    {
        Ok(match self {
            Act::Note(note) => Act::Note(note.copy()?),
            Act::Open { conn, peer } => Act::Open {
                conn: *conn,
                peer: peer.copy()?,
            },
            Act::Put {
                conn,
                payload,
                weight,
            } => Act::Put {
                conn: *conn,
                payload: payload.copy()?,
                weight: *weight,
            },
            Act::Close { conn } => Act::Close { conn: *conn },
        })
    }
}
