//! What a socket hands to an end, and what a journal declares.

ghost use Rattle.std.specs.Prelude.{◌≡◌, IfOk};

use ch_base::{OutOfMemory, Text};

/// What is there to be handed to an end of a socket.
#[derive(Debug, Drop)]
pub enum Handed {
    /// Nothing is unread, and more may come.
    Nothing,
    /// The end of input.
    End,
    /// All that is unread.
    Bytes(Text),
    /// The mark ahead of a socket's stream.
    Mark(u64),
}

impl Handed {
    /// An equal value.
    pub fn copy(&self) -> Result<Handed, OutOfMemory>
        ensures { IfOk result (λ handed. handed ≡ self.now) }
    {
        Ok(match self {
            Handed::Nothing => Handed::Nothing,
            Handed::End => Handed::End,
            Handed::Bytes(bytes) => Handed::Bytes(bytes.copy()?),
            Handed::Mark(mark) => Handed::Mark(*mark),
        })
    }
}
