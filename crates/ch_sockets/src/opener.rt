//! Who opens a socket.

ghost use Rattle.std.specs.Prelude.{◌≡◌};
ghost use Rattle.ch_sockets.specs.Ends.{opener_key};

/// Who opens a socket.
#[derive(Clone, Copy, Debug, PartialEq, Eq)]
pub enum Opener {
    /// The host at this place among the journal's, under its own number for the socket. Its end is pending.
    Dialing { cell: usize, number: u64 },
    /// No host of the journal. Its end is open from the start.
    Stranger,
}

impl Opener {
    /// The place of its host and its number there, where it is a host's.
    pub(crate) fn key(self) -> Option<(usize, u64)>
        ensures { result ≡ opener_key self }
    {
        match self {
            Opener::Dialing { cell, number } => Some((cell, number)),
            Opener::Stranger => None,
        }
    }
}
