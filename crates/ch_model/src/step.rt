//! What an endpoint's host does, and what its sockets bring.

ghost use Rattle.std.specs.Prelude.{◌≡◌, IfOk};

use ch_base::{Address, Event, OutOfMemory, Text, Why};

/// The place of a message among those of its pair.
#[derive(Clone, Copy, Debug, PartialEq, Eq)]
pub struct Place {
    pub epoch: u64,
    pub index: u64,
}

/// How a payload waits for a link that isn't up. The place of a said message rides along, so that
/// what is written and got can be told by it; it decides nothing.
#[derive(Clone, Copy, Debug, PartialEq, Eq)]
pub enum Weight {
    /// At most 4,096 such payloads wait.
    Counted { said: Option<Place> },
    /// Any number of such payloads wait.
    Free,
}

/// One step of a host.
#[derive(Debug, Drop)]
pub enum Step {
    /// A socket is to be opened to the peer's host, for an endpoint.
    Dial {
        sock: u64,
        end: u32,
        peer: Address,
    },
    /// One item of the socket is handled; what follows, up to the next, is its doing.
    Read {
        sock: u64,
    },
    /// The bytes of one item are written, with the place of the message that they carry, if of one.
    Write {
        sock: u64,
        bytes: Text,
        said: Option<Place>,
    },
    /// A link came up on the socket.
    Up {
        sock: u64,
    },
    /// The end, which was up, is closed.
    Down {
        sock: u64,
    },
    /// The end, which wasn't up, is closed.
    Left {
        sock: u64,
    },
    /// The endpoint's link with the peer has failed.
    Broke {
        end: u32,
        peer: Address,
        why: Why,
    },
    /// The endpoint's node is told.
    Post {
        end: u32,
        event: Event,
    },
}

impl Step {
    /// An equal step.
    pub fn copy(&self) -> Result<Step, OutOfMemory>
        ensures { IfOk result (λ step. step ≡ self.now) }
    {
        Ok(match self {
            Step::Dial { sock, end, peer } => Step::Dial {
                sock: *sock,
                end: *end,
                peer: peer.copy()?,
            },
            Step::Read { sock } => Step::Read { sock: *sock },
            Step::Write { sock, bytes, said } => Step::Write {
                sock: *sock,
                bytes: bytes.copy()?,
                said: *said,
            },
            Step::Up { sock } => Step::Up { sock: *sock },
            Step::Down { sock } => Step::Down { sock: *sock },
            Step::Left { sock } => Step::Left { sock: *sock },
            Step::Broke { end, peer, why } => Step::Broke {
                end: *end,
                peer: peer.copy()?,
                why: *why,
            },
            Step::Post { end, event } => Step::Post {
                end: *end,
                event: event.copy()?,
            },
        })
    }
}

/// What happens to a host's sockets and timers.
#[derive(Debug, Drop)]
pub enum SocketEvent {
    /// The opener's end is open.
    Joined { sock: u64 },
    /// An accepted socket, with the host text of the peer that opened it.
    Came { sock: u64, peer_host: Text },
    /// The dial has failed.
    Refused { sock: u64 },
    /// Bytes arrived, at least one.
    Fed { sock: u64, bytes: Text },
    /// The other end is closed, and all that it wrote was read.
    Ended { sock: u64 },
    /// The socket is lost.
    Lost { sock: u64 },
    /// The timer of the endpoint's link with the peer is due.
    Late { end: u32, peer: Address },
}

impl SocketEvent {
    /// An equal event.
    pub fn copy(&self) -> Result<SocketEvent, OutOfMemory>
        ensures { IfOk result (λ event. event ≡ self.now) }
    {
        Ok(match self {
            SocketEvent::Joined { sock } => SocketEvent::Joined { sock: *sock },
            SocketEvent::Came { sock, peer_host } => SocketEvent::Came {
                sock: *sock,
                peer_host: peer_host.copy()?,
            },
            SocketEvent::Refused { sock } => SocketEvent::Refused { sock: *sock },
            SocketEvent::Fed { sock, bytes } => SocketEvent::Fed {
                sock: *sock,
                bytes: bytes.copy()?,
            },
            SocketEvent::Ended { sock } => SocketEvent::Ended { sock: *sock },
            SocketEvent::Lost { sock } => SocketEvent::Lost { sock: *sock },
            SocketEvent::Late { end, peer } => SocketEvent::Late {
                end: *end,
                peer: peer.copy()?,
            },
        })
    }
}

/// Why a host doesn't do what an endpoint asks.
#[derive(Clone, Copy, Debug, PartialEq, Eq)]
pub enum EndError {
    /// The endpoint wasn't opened, or is closed.
    NoEndPoint,
    /// The connection wasn't opened by that endpoint, or is closed, or its link has failed.
    NoConnection,
    /// The link isn't up, and 4,096 counted payloads wait for it.
    QueueFull,
    /// A payload has more than 65,536 bytes.
    PayloadLong,
    /// All ids of the socket that is up or awaited were given.
    Spent,
    /// No memory was to be had.
    OutOfMemory,
    /// A count that the call would raise stands at its type's last value.
    Worn,
}
