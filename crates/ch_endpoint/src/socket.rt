//! A host's end of a socket.

ghost use Rattle.std.specs.Prelude.{◌≡◌, [], ◌++◌, None, Some, IfOk, OnOk};
ghost use Rattle.ch_endpoint.specs.Taking.{passed, comes_from as comes_from_of};
ghost use Rattle.ch_model.specs.HostLinks.{dialed};
ghost use Rattle.ch_model.specs.Stages.{Open, is_open as is_open_of, is_pending as is_pending_of};
ghost use Rattle.ch_model.specs.Host.{accepted, front_of, is_ready as is_ready_of};
ghost use Rattle.ch_endpoint.specs.Ends.{ended};

use crate::unread::Unread;
use ch_base::{Address, OutOfMemory, Text};
use ch_reader::{Expected, Front};
use std::alloc::Global;
use std::marker::Model;

/// How an end stands.
#[derive(Clone, Copy, Debug, PartialEq, Eq)]
pub(crate) enum Standing {
    /// It is dialed and not open yet.
    Pending,
    Open,
    Ended,
}

/// A host's end of a socket. Contracts see how it stands, for whom, and what was fed and not read.
#[derive(Drop)]
pub(crate) struct Socket {
    pub(crate) number: u64,
    pub(crate) peer_host: Option<Text>,
    pub(crate) standing: Standing,
    pub(crate) user: Option<(u32, Address)>,
    pub(crate) unread: Unread,
}

impl Model for Socket {
    ghost use Rattle.ch_model.specs.HostState.{Socket as SocketValue};

    ghost Value = { SocketValue };

    ghost use Rattle.ch_endpoint.specs.Stages.{stage_of};

    ghost view = { λ s. record { number = s.number; peer_host = s.peer_host; stage = stage_of s.standing; user = s.user; expected = s.unread.expected; since = s.unread.since } };
}

impl Socket {
    /// A socket that an endpoint dials for its link.
    pub(crate) fn dialed(alloc: Global, sock: u64, end: u32, peer: Address) -> Socket
        ensures { result ≡ dialed sock end peer }
    {
        Socket {
            number: sock,
            peer_host: None,
            standing: Standing::Pending,
            user: Some((end, peer)),
            unread: Unread::new(alloc, Expected::Answer),
        }
    }

    /// It is ended, and what was read of it is dropped.
    pub(crate) fn end(&mut self)
        ensures { self.new ≡ ended self.old }
    {
        self.standing = Standing::Ended;
        self.unread.clear();
    }

    /// A socket that was accepted.
    pub(crate) fn accepted(alloc: Global, sock: u64, peer_host: Text) -> Socket
        ensures { result ≡ accepted sock peer_host }
    {
        Socket {
            number: sock,
            peer_host: Some(peer_host),
            standing: Standing::Open,
            user: None,
            unread: Unread::new(alloc, Expected::Request),
        }
    }

    /// The endpoint and the peer for whom it stands.
    pub(crate) fn user(&self) -> Result<Option<(u32, Address)>, OutOfMemory>
        ensures { IfOk result (λ user. user ≡ self.now.user) }
    {
        match &self.user {
            None => Ok(None),
            Some((end, peer)) => Ok(Some((*end, peer.copy()?))),
        }
    }

    /// It stands for this link from now on.
    pub(crate) fn use_for(&mut self, end: u32, peer: Address)
        ensures { self.new ≡ record self.old { user = Some (end, peer) } }
    {
        self.user = Some((end, peer));
    }

    /// Whether it was accepted from a peer of this host text.
    pub(crate) fn comes_from(&self, host: &[u8]) -> bool
        ensures { result ≡ comes_from_of self.now.peer_host host.now }
    {
        match &self.peer_host {
            None => false,
            Some(peer_host) => host == peer_host.as_slice(),
        }
    }

    /// Whether it is open.
    pub(crate) fn is_open(&self) -> bool
        ensures { result ≡ is_open_of self.now.stage }
    {
        match self.standing {
            Standing::Open => true,
            _ => false,
        }
    }

    /// Whether it is dialed and not open yet.
    pub(crate) fn is_pending(&self) -> bool
        ensures { result ≡ is_pending_of self.now.stage }
    {
        match self.standing {
            Standing::Pending => true,
            _ => false,
        }
    }

    /// It is open.
    pub(crate) fn open(&mut self)
        ensures { self.new ≡ record self.old { stage = Open } }
    {
        self.standing = Standing::Open;
    }

    /// Whether it is open, and an item or a refusal stands at the front of its bytes.
    pub(crate) fn is_ready(&self) -> bool
        ensures { result ≡ is_ready_of self.now }
    {
        self.is_open() && self.unread.is_ready()
    }

    /// What stands at the front of its bytes; an item is taken.
    pub(crate) fn take(&mut self) -> Result<Front, OutOfMemory>
        ensures front { IfOk result (λ front. front ≡ (front_of self.old).0) }
        ensures left { OnOk result (self.new ≡ passed (front_of self.old).0 (front_of self.old).1 self.old) }
        ensures number { self.new.number ≡ self.old.number }
    {
        self.unread.take()
    }

    /// Bytes are kept behind those that are.
    pub(crate) fn feed(&mut self, bytes: &[u8]) -> Result<(), OutOfMemory>
        ensures fed { OnOk result (self.new ≡ record self.old { since = self.old.since ++ bytes.now }) }
        ensures number { self.new.number ≡ self.old.number }
    {
        self.unread.feed(bytes)
    }
}
