//! What a host does at each call, as steps on its endpoints, links and sockets.

ghost use Rattle.std.specs.Prelude.{◌≡◌, ◌<◌, ◌&&◌, ◌++◌, ◌∷◌, [], true, false, find, map, length, nat_le, Ok, Err, MatchResult, IfOk, IfErr, OnOk, OnErr};
ghost use Rattle.std.specs.List.{list_any};
ghost use Rattle.ch_model.specs.HostSteps.{is_endpoint as is_endpoint_of, is_open_endpoint, link_with};
ghost use Rattle.ch_model.specs.HostWrites.{is_up as is_up_of, is_counted, counted_in, puts as puts_of};
ghost use Rattle.ch_model.specs.HostLinks.{most_dials};
ghost use Rattle.ch_model.specs.HostCalls.{host_new, host_open, host_room, host_timer_runs, host_connect, wants as wants_of, puts_and_wants as puts_and_wants_of};
ghost use Rattle.ch_endpoint.specs.Calls.{Fails, KeepsBut};
ghost use Rattle.ch_endpoint.specs.Opens.{opened_of};
ghost use Rattle.ch_link.specs.declared.LinkState.TheVariants.{Idle};
ghost use Rattle.ch_endpoint.specs.Places.{is_idle as is_idle_of};

use crate::acts::{followed, one};
use crate::endpoint::Endpoint;
use crate::link::{Waiting, frame_step};
use crate::links::Links;
use crate::socket::Socket;
use crate::sockets::Sockets;
use ch_base::{Address, OutOfMemory, Room, Text};
use ch_link::LinkState;
use ch_model::{EndError, Step, Weight};
use ch_wire::Frame;
use std::alloc::Global;
use std::marker::Model;

/// How often a host may dial: its sockets' numbers are even, and numbers of 64 bits.
const MOST_DIALS: u64 = 9_223_372_036_854_775_808;

/// A host's endpoints, links and sockets.
#[derive(Drop)]
pub(crate) struct State {
    pub(crate) host: Text,
    pub(crate) port: u16,
    pub(crate) circle: Vec<Text>,
    pub(crate) ends: Vec<Endpoint>,
    pub(crate) links: Links,
    pub(crate) sockets: Sockets,
    pub(crate) dials: u64,
}

impl Model for State {
    ghost use Rattle.ch_model.specs.HostState.{HostState};

    ghost Value = { HostState };

    ghost view = { λ h. record { host = h.host; port = h.port; circle = h.circle.items; ends = h.ends.items; links = h.links; sockets = h.sockets; dials = h.dials } };
}

/// Copies of texts.
fn copies(alloc: Global, texts: &[Text]) -> Result<Vec<Text>, OutOfMemory>
    ensures { IfOk result (λ own. own.items ≡ texts.now) }
{
    let mut own = Vec::new(alloc);
    for text in texts {
        own.push(text.copy()?)?;
    }
    Ok(own)
}

impl State {
    /// A host that has done nothing.
    pub(crate) fn new(
        alloc: Global,
        host: &[u8],
        port: u16,
        circle: &[Text],
    ) -> Result<State, OutOfMemory>
        ensures { IfOk result (λ h. h ≡ host_new host.now port circle.now) }
    {
        Ok(State {
            host: Text::of(alloc, host)?,
            port,
            circle: copies(alloc, circle)?,
            ends: Vec::new(alloc),
            links: Links::new(alloc),
            sockets: Sockets::new(alloc),
            dials: 0,
        })
    }

    fn was_opened(&self, end: u32) -> bool
        ensures { result ≡ list_any (is_endpoint_of end) self.now.ends }
    {
        self.ends.iter().any(|endpoint| endpoint.number == end)
    }

    pub(crate) fn is_open(&self, end: u32) -> bool
        ensures { result ≡ list_any (is_open_endpoint end) self.now.ends }
    {
        self.ends
            .iter()
            .any(|endpoint| endpoint.number == end && endpoint.is_open)
    }

    /// An endpoint is opened, once for each number.
    #[tactic(auto, unfolding(ch_model::specs::HostCalls::host_open))]
    pub(crate) fn open(&mut self, end: u32) -> Result<bool, OutOfMemory>
        ensures does { IfOk result (λ did. host_open self.old end ≡ (did, self.new)) }
        ensures err { OnErr result (self.new ≡ self.old) }
    {
        if self.was_opened(end) {
            return Ok(false);
        }
        self.ends.push(Endpoint {
            number: end,
            is_open: true,
            arrived: 0,
        })?;
        Ok(true)
    }

    /// How the link of an endpoint with a peer stands.
    pub(crate) fn state_with(&self, end: u32, peer: &Address) -> LinkState
        ensures { result ≡ (link_with self.now end peer.now).state }
    {
        match self.links.get(end, peer) {
            None => LinkState::Idle,
            Some(link) => link.state(),
        }
    }

    /// Whether a timer runs for the link of an endpoint with a peer.
    #[tactic(auto, unfolding(ch_model::specs::HostCalls::host_timer_runs))]
    pub(crate) fn timer_runs(&self, end: u32, peer: &Address) -> bool
        ensures { result ≡ host_timer_runs self.now end peer.now }
    {
        match self.state_with(end, peer) {
            LinkState::Idle => false,
            LinkState::Dialing { .. } | LinkState::AwaitOther => true,
            LinkState::Up { probed, .. } => probed,
        }
    }

    /// How the link of an endpoint with a peer stands, for a node that is about to send on it.
    #[tactic(auto, unfolding(ch_model::specs::HostCalls::host_room))]
    pub(crate) fn room(&self, end: u32, peer: &Address) -> Room
        ensures { result ≡ host_room self.now end peer.now }
    {
        match self.links.get(end, peer) {
            None => Room {
                up: false,
                waits: 0,
                given: 0,
            },
            Some(link) => Room {
                up: is_up(link.state()),
                waits: link.counted(),
                given: link.given(),
            },
        }
    }

    /// Whether all ids of the link of an endpoint with a peer were given.
    fn is_spent(&self, end: u32, peer: &Address) -> bool
        ensures { result ≡ nat_le 65536 (length (link_with self.now end peer.now).given) }
    {
        match self.links.get(end, peer) {
            None => false,
            Some(link) => link.given() >= 65_536,
        }
    }

    /// Whether the link would dial and the count of dials can't grow.
    pub(crate) fn is_worn(&self, end: u32, peer: &Address) -> bool
        ensures { result ≡ (is_idle_of (link_with self.now end peer.now).state && nat_le most_dials self.now.dials) }
    {
        is_idle(self.state_with(end, peer)) && self.dials >= MOST_DIALS
    }

    /// The next socket is dialed for a link that is idle.
    fn dial(&mut self, end: u32, peer: &Address) -> Result<Step, OutOfMemory>
        requires idle { (link_with self.old end peer.now).state ≡ Idle }
        requires room { self.old.dials < most_dials }
        ensures { IfOk result (λ step. wants_of end peer.now self.old ≡ Ok (step ∷ [], self.new)) }
    {
        let sock = 2 * self.dials;
        let socket = Socket::dialed(self.host.allocator(), sock, end, peer.copy()?);
        self.links
            .set_state(end, peer, LinkState::Dialing { sock })?;
        self.sockets.keep(socket)?;
        self.dials += 1;
        Ok(Step::Dial {
            sock,
            end,
            peer: peer.copy()?,
        })
    }

    /// The link of an endpoint with a peer wants a socket, where it has none.
    #[tactic(auto, using(crate::proofs::Sends::wants_still))]
    fn wants(&mut self, end: u32, peer: &Address) -> Result<Vec<Step>, OutOfMemory>
        requires { (is_idle_of (link_with self.old end peer.now).state && nat_le most_dials self.old.dials) ≡ false }
        ensures { IfOk result (λ steps. wants_of end peer.now self.old ≡ Ok (steps.items, self.new)) }
    {
        if is_idle(self.state_with(end, peer)) {
            let step = self.dial(end, peer)?;
            one(self.alloc(), step)
        } else {
            Ok(Vec::new(self.alloc()))
        }
    }

    /// An item of the link is written at once where the link is up, and else waits.
    #[tactic(auto, using(crate::proofs::Sends::puts_up))]
    pub(crate) fn puts(
        &mut self,
        end: u32,
        peer: &Address,
        item: Waiting,
    ) -> Result<Vec<Step>, OutOfMemory>
        requires { is_counted item.1 ≡ true → is_up_of (link_with self.old end peer.now).state ≡ false → counted_in (link_with self.old end peer.now) < 4096 }
        ensures does { IfOk result (λ steps. puts_of item (link_with self.old end peer.now) self.old ≡ Ok (steps.items, self.new)) }
        ensures state { OnOk result ((link_with self.new end peer.now).state ≡ (link_with self.old end peer.now).state) }
        ensures dials { OnOk result (self.new.dials ≡ self.old.dials) }
    {
        match self.state_with(end, peer) {
            LinkState::Up { sock, .. } => {
                let step = frame_step(self.alloc(), sock, &item)?;
                one(self.alloc(), step)
            }
            LinkState::Idle | LinkState::Dialing { .. } | LinkState::AwaitOther => {
                self.waits(end, peer, item)
            }
        }
    }

    /// An item waits for a link that isn't up.
    #[tactic(auto, using(crate::proofs::Sends::puts_wait))]
    fn waits(&mut self, end: u32, peer: &Address, item: Waiting) -> Result<Vec<Step>, OutOfMemory>
        requires up { is_up_of (link_with self.old end peer.now).state ≡ false }
        requires room { is_counted item.1 ≡ true → counted_in (link_with self.old end peer.now) < 4096 }
        ensures does { IfOk result (λ steps. puts_of item (link_with self.old end peer.now) self.old ≡ Ok (steps.items, self.new)) }
        ensures state { OnOk result ((link_with self.new end peer.now).state ≡ (link_with self.old end peer.now).state) }
        ensures dials { OnOk result (self.new.dials ≡ self.old.dials) }
    {
        self.links.wait(end, peer, item)?;
        Ok(Vec::new(self.alloc()))
    }

    /// An item of a link is put, and the link wants a socket.
    pub(crate) fn puts_and_wants(
        &mut self,
        end: u32,
        peer: &Address,
        item: Waiting,
    ) -> Result<Vec<Step>, OutOfMemory>
        requires room { is_counted item.1 ≡ true → is_up_of (link_with self.old end peer.now).state ≡ false → counted_in (link_with self.old end peer.now) < 4096 }
        requires worn { (is_idle_of (link_with self.old end peer.now).state && nat_le most_dials self.old.dials) ≡ false }
        ensures { IfOk result (λ steps. puts_and_wants_of item (link_with self.old end peer.now) self.old ≡ Ok (steps.items, self.new)) }
    {
        let first = self.puts(end, peer, item)?;
        let more = self.wants(end, peer)?;
        let steps = followed(first, more)?;
        Ok(steps)
    }

    /// An endpoint opens a connection to a peer.
    pub(crate) fn connect(
        &mut self,
        end: u32,
        peer: &Address,
        conn: u64,
    ) -> Result<Vec<Step>, EndError>
        ensures does { MatchResult result (λ steps. host_connect self.old end peer.now conn ≡ Ok (steps.items, self.new)) (λ e. Fails e (host_connect self.old end peer.now conn)) }
        ensures err { IfErr result (λ e. KeepsBut self.old self.new e) }
    {
        if !self.is_open(end) {
            return Err(EndError::NoEndPoint);
        }
        if self.is_spent(end, peer) {
            return Err(EndError::Spent);
        }
        if self.is_worn(end, peer) {
            return Err(EndError::Worn);
        }
        match self.opens(end, peer, conn) {
            Ok(steps) => Ok(steps),
            Err(_) => Err(EndError::OutOfMemory),
        }
    }

    /// A connection gets the next id of a link, and that is put.
    fn opens(&mut self, end: u32, peer: &Address, conn: u64) -> Result<Vec<Step>, OutOfMemory>
        requires room { nat_le 65536 (length (link_with self.old end peer.now).given) ≡ false }
        requires worn { (is_idle_of (link_with self.old end peer.now).state && nat_le most_dials self.old.dials) ≡ false }
        ensures { IfOk result (λ steps. opened_of (link_with self.old end peer.now) conn self.old ≡ Ok (steps.items, self.new)) }
    {
        let id = self.links.give(end, peer, conn)?;
        let item = Waiting {
            frame: Frame::Created(id),
            weight: Weight::Free,
        };
        let steps = self.puts_and_wants(end, peer, item)?;
        Ok(steps)
    }
}

fn is_idle(state: LinkState) -> bool
    ensures { result ≡ is_idle_of state }
{
    match state {
        LinkState::Idle => true,
        _ => false,
    }
}

pub(crate) fn is_up(state: LinkState) -> bool
    ensures { result ≡ is_up_of state }
{
    match state {
        LinkState::Up { .. } => true,
        _ => false,
    }
}
