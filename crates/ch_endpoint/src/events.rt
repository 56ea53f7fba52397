//! What happens to a host's sockets and timers.

ghost use Rattle.std.specs.Prelude.{◌≡◌, ◌++◌, ◌∷◌, [], true, false, drop, length, find, Some, None, Ok, Err, IfOk, OnOk};
ghost use Rattle.std.specs.Int.{w32, to_be_bytes};
ghost use Rattle.ch_base.specs.Addresses.{address_text};
ghost use Rattle.ch_link.specs.Sockets.{names as names_of};
ghost use Rattle.ch_wire.specs.Spelling.{request_spelling};
ghost use Rattle.ch_wire.specs.Words.{counted as counted_bytes};
ghost use Rattle.ch_model.specs.Stages.{is_open as is_open_stage, is_pending as is_pending_stage};
ghost use Rattle.ch_model.specs.HostState.{Socket};
ghost use Rattle.ch_model.specs.HostSteps.{is_socket, link_with, own_address};
ghost use Rattle.ch_model.specs.HostItems.{gone_from as gone_from_of, is_gone as is_gone_of};
ghost use Rattle.ch_model.specs.Host.{host_on, joins as joins_of};
ghost use Rattle.ch_model.specs.Cell.{is_heard};
ghost use Rattle.ch_endpoint.specs.Asks.{asks as asks_of};
ghost use Rattle.ch_model.specs.declared.step.SocketEvent.TheVariants as events;
ghost use Rattle.ch_endpoint.specs.Users.{user_of as user_of_socket, stands as stands_of};

use crate::acts::one;
use crate::socket::Socket;
use crate::state::State;
use ch_base::{Address, OutOfMemory, Text};
use ch_link::{LinkIn, LinkState};
use ch_model::{SocketEvent, Step};
use std::alloc::Global;

/// A link's state names this socket.
fn names(state: LinkState, sock: u64) -> bool
    ensures { result ≡ names_of state sock }
{
    match state {
        LinkState::Dialing { sock: own } => sock == own,
        LinkState::Up { sock: up, .. } => sock == up,
        _ => false,
    }
}

/// A number as a word, and a word with the count of these bytes, and the bytes.
fn counted(alloc: Global, first: u32, bytes: &[u8]) -> Result<Text, OutOfMemory>
    ensures { IfOk result (λ text. text ≡ counted_bytes first bytes.now) }
{
    let count = (bytes.len() as u64).to_be_bytes();
    let mut text = Vec::from_slice(alloc, &first.to_be_bytes())?;
    text.extend_from_slice(&count[4..])?;
    text.extend_from_slice(bytes)?;
    Ok(Text::from_vec(text))
}

impl State {
    /// The endpoint and the peer for whom a socket stands.
    pub(crate) fn user_of(&self, sock: u64) -> Result<Option<(u32, Address)>, OutOfMemory>
        ensures { IfOk result (λ user. user ≡ user_of_socket (find (is_socket sock) self.now.sockets)) }
    {
        match self.sockets.get(sock) {
            None => Ok(None),
            Some(socket) => socket.user(),
        }
    }

    /// Whether the end of a socket is open.
    pub(crate) fn stands_open(&self, sock: u64) -> bool
        ensures { result ≡ stands_of is_open_stage (find (is_socket sock) self.now.sockets) }
    {
        match self.sockets.get(sock) {
            None => false,
            Some(socket) => socket.is_open(),
        }
    }

    /// Whether the end of a socket is dialed and not open yet.
    fn stands_pending(&self, sock: u64) -> bool
        ensures { result ≡ stands_of is_pending_stage (find (is_socket sock) self.now.sockets) }
    {
        match self.sockets.get(sock) {
            None => false,
            Some(socket) => socket.is_pending(),
        }
    }

    /// Whether an event of a socket or a timer is heard here: the end of the socket stands as the event asks, or
    /// the timer runs.
    pub(crate) fn would_hear(&self, event: &SocketEvent) -> bool
        ensures { result ≡ is_heard self.now event.now }
    {
        match event {
            SocketEvent::Joined { sock } => self.stands_pending(*sock),
            SocketEvent::Came { .. } => true,
            SocketEvent::Refused { sock } => self.stands_pending(*sock),
            SocketEvent::Fed { sock, .. } => self.stands_open(*sock),
            SocketEvent::Ended { sock } => self.stands_open(*sock),
            SocketEvent::Lost { sock } => self.stands_open(*sock),
            SocketEvent::Late { end, peer } => self.timer_runs(*end, peer),
        }
    }

    /// The link hears that its socket is gone, where it names that socket; else the end is closed, and nothing else.
    fn gone_from(&mut self, sock: u64, end: u32, peer: &Address) -> Result<Vec<Step>, OutOfMemory>
        ensures { IfOk result (λ steps. gone_from_of sock (link_with self.old end peer.now) self.old ≡ Ok (steps.items, self.new)) }
    {
        if names(self.state_with(end, peer), sock) {
            self.hears(end, peer, LinkIn::Gone)
        } else {
            self.leaves(sock)
        }
    }

    /// A socket was refused, lost or ended, or a bad item was read on it.
    #[tactic(auto, using(crate::proofs::Ended::gone_unused, crate::proofs::Ended::gone_used))]
    pub(crate) fn is_gone(&mut self, sock: u64) -> Result<Vec<Step>, OutOfMemory>
        ensures { (socket : Socket) → find (is_socket sock) self.old.sockets ≡ Some socket → IfOk result (λ steps. is_gone_of socket self.old ≡ Ok (steps.items, self.new)) }
    {
        match self.user_of(sock)? {
            None => self.leaves(sock),
            Some((end, peer)) => self.gone_from(sock, end, &peer),
        }
    }

    /// An end that was open is lost, or its other end is closed.
    #[tactic(auto, using(crate::proofs::Ended::on_still, crate::proofs::Ended::on_gone), unfolding(ch_model::specs::Host::host_on))]
    fn ends(&mut self, sock: u64) -> Result<Vec<Step>, OutOfMemory>
        ensures ended { IfOk result (λ steps. host_on self.old (events.Ended sock) ≡ Ok (steps.items, self.new)) }
        ensures lost { IfOk result (λ steps. host_on self.old (events.Lost sock) ≡ Ok (steps.items, self.new)) }
    {
        if self.stands_open(sock) {
            self.is_gone(sock)
        } else {
            Ok(Vec::new(self.alloc()))
        }
    }

    /// A dial has failed.
    #[tactic(auto, using(crate::proofs::Ended::on_still, crate::proofs::Ended::on_gone), unfolding(ch_model::specs::Host::host_on))]
    fn refused(&mut self, sock: u64) -> Result<Vec<Step>, OutOfMemory>
        ensures { IfOk result (λ steps. host_on self.old (events.Refused sock) ≡ Ok (steps.items, self.new)) }
    {
        if self.stands_pending(sock) {
            self.is_gone(sock)
        } else {
            Ok(Vec::new(self.alloc()))
        }
    }

    /// A socket was accepted.
    #[tactic(auto, unfolding(ch_model::specs::Host::host_on))]
    fn comes(&mut self, sock: u64, peer_host: Text) -> Result<Vec<Step>, OutOfMemory>
        ensures { IfOk result (λ steps. host_on self.old (events.Came sock peer_host) ≡ Ok (steps.items, self.new)) }
    {
        let socket = Socket::accepted(self.alloc(), sock, peer_host);
        self.sockets.keep(socket)?;
        Ok(Vec::new(self.alloc()))
    }

    /// The timer of the endpoint's link with the peer is due.
    #[tactic(auto, unfolding(ch_model::specs::Host::host_on, ch_model::specs::HostCalls::host_timer_runs))]
    fn late(&mut self, end: u32, peer: &Address) -> Result<Vec<Step>, OutOfMemory>
        ensures { IfOk result (λ steps. host_on self.old (events.Late end peer.now) ≡ Ok (steps.items, self.new)) }
    {
        if self.timer_runs(end, peer) {
            self.hears(end, peer, LinkIn::Late)
        } else {
            Ok(Vec::new(self.alloc()))
        }
    }

    /// The opener's end is open, and its request is written.
    #[tactic(auto, using(crate::proofs::Ended::joins_unused, crate::proofs::Ended::joins_used))]
    fn joins(&mut self, sock: u64) -> Result<Vec<Step>, OutOfMemory>
        ensures { (socket : Socket) → find (is_socket sock) self.old.sockets ≡ Some socket → IfOk result (λ steps. joins_of socket self.old ≡ Ok (steps.items, self.new)) }
    {
        match self.user_of(sock)? {
            None => Ok(Vec::new(self.alloc())),
            Some((end, peer)) => self.asks(sock, end, &peer),
        }
    }

    /// The opener's end is open, and the request of this endpoint to its peer is written.
    fn asks(&mut self, sock: u64, end: u32, peer: &Address) -> Result<Vec<Step>, OutOfMemory>
        ensures { IfOk result (λ steps. asks_of sock end peer.now self.old ≡ Ok (steps.items, self.new)) }
    {
        let own = self.own_text(end)?;
        let bytes = counted(self.alloc(), peer.id, own.as_slice())?;
        self.sockets.open(sock)?;
        one(
            self.alloc(),
            Step::Write {
                sock,
                bytes,
                said: None,
            },
        )
    }

    /// The opener's end is open, where it was dialed.
    #[tactic(auto, using(crate::proofs::Ended::on_still, crate::proofs::Ended::on_joined), unfolding(ch_model::specs::Host::host_on))]
    fn joined(&mut self, sock: u64) -> Result<Vec<Step>, OutOfMemory>
        ensures { IfOk result (λ steps. host_on self.old (events.Joined sock) ≡ Ok (steps.items, self.new)) }
    {
        if self.stands_pending(sock) {
            self.joins(sock)
        } else {
            Ok(Vec::new(self.alloc()))
        }
    }

    /// Bytes that arrive are kept until they are read, where the end is open.
    #[tactic(auto, using(crate::proofs::Ended::on_still, crate::proofs::Ended::on_fed), unfolding(ch_model::specs::Host::host_on))]
    fn fed(&mut self, sock: u64, bytes: Text) -> Result<Vec<Step>, OutOfMemory>
        ensures { IfOk result (λ steps. host_on self.old (events.Fed sock bytes) ≡ Ok (steps.items, self.new)) }
    {
        if self.stands_open(sock) {
            self.sockets.feed(sock, bytes.as_slice())?;
        }
        Ok(Vec::new(self.alloc()))
    }

    /// What happens to a socket or a timer.
    pub(crate) fn on(&mut self, event: SocketEvent) -> Result<Vec<Step>, OutOfMemory>
        ensures { IfOk result (λ steps. host_on self.old event ≡ Ok (steps.items, self.new)) }
    {
        match event {
            SocketEvent::Joined { sock } => self.joined(sock),
            SocketEvent::Came { sock, peer_host } => self.comes(sock, peer_host),
            SocketEvent::Refused { sock } => self.refused(sock),
            SocketEvent::Fed { sock, bytes } => self.fed(sock, bytes),
            SocketEvent::Ended { sock } | SocketEvent::Lost { sock } => self.ends(sock),
            SocketEvent::Late { end, peer } => self.late(end, &peer),
        }
    }
}
