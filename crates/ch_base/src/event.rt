//! What an endpoint tells its node, and what a node may ask about a link.

ghost use Rattle.std.specs.Prelude.{◌≡◌, IfOk};

use crate::address::Address;
use crate::memory::OutOfMemory;
use crate::text::Text;

/// Why a link failed.
#[derive(Clone, Copy, Debug, PartialEq, Eq)]
pub enum Why {
    /// The socket was refused, lost or ended, or a bad item was read on it.
    Disconnect,
    /// The peer's endpoint is closed, or was never there.
    NodeDown,
}

/// One event of an endpoint. Connections are numbered per endpoint.
#[derive(Drop, Debug)]
pub enum Event {
    /// A peer opened a lightweight connection.
    ConnectionOpened { conn: u64, peer: Address },
    /// A payload came on it.
    Received { conn: u64, payload: Text },
    /// The peer closed it.
    ConnectionClosed { conn: u64 },
    /// The endpoint was closed.
    EndPointClosed,
    /// The link to this peer failed, and all its connections with it.
    ConnectionLost { peer: Address, why: Why },
}

impl Event {
    /// An equal event.
    pub fn copy(&self) -> Result<Event, OutOfMemory>
        ensures { IfOk result (λ event. event ≡ self.now) }
    {
        Ok(match self {
            Event::ConnectionOpened { conn, peer } => Event::ConnectionOpened {
                conn: *conn,
                peer: peer.copy()?,
            },
            Event::Received { conn, payload } => Event::Received {
                conn: *conn,
                payload: payload.copy()?,
            },
            Event::ConnectionClosed { conn } => Event::ConnectionClosed { conn: *conn },
            Event::EndPointClosed => Event::EndPointClosed,
            Event::ConnectionLost { peer, why } => Event::ConnectionLost {
                peer: peer.copy()?,
                why: *why,
            },
        })
    }
}

/// How a link to a peer stands, for a node that is about to send on it.
#[derive(Clone, Copy, Debug, PartialEq, Eq)]
pub struct Room {
    /// Whether the link is up.
    pub up: bool,
    /// How many counted payloads wait for it.
    pub waits: u32,
    /// How many connection ids were given on it.
    pub given: u32,
}
