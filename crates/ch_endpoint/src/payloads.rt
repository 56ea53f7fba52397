//! Payloads that are sent on connections.

ghost use Rattle.std.specs.Prelude.{◌≡◌, ◌<◌, ◌≤◌, ◌&&◌, not, true, false, find, length, nat_le, Ok, Err, None, Some, MatchResult, MatchOption, IfOk, IfErr, IfSome};
ghost use Rattle.ch_wire.specs.declared.frame.Frame.TheVariants as frames;
ghost use Rattle.ch_light.specs.Ids.{id_of as id_of_connection};
ghost use Rattle.ch_model.specs.HostSteps.{link_with};
ghost use Rattle.ch_model.specs.HostWrites.{is_up as is_up_of, is_counted as is_counted_of, counted_in, puts as puts_of};
ghost use Rattle.ch_model.specs.HostCalls.{host_send, host_close, carries, stepped, puts_and_wants as puts_and_wants_of};
ghost use Rattle.ch_model.specs.HostLinks.{most_dials};
ghost use Rattle.ch_endpoint.specs.Places.{is_idle as is_idle_of};
ghost use Rattle.ch_model.specs.declared.step.Weight.TheVariants.{Free};
ghost use Rattle.ch_endpoint.specs.Waits.{closing};
ghost use Rattle.ch_endpoint.specs.Calls.{Fails, KeepsBut};

use crate::link::{Waiting, is_counted};
use crate::state::{State, is_up};
use ch_base::{Address, OutOfMemory, Text};
use ch_model::{EndError, Step, Weight};
use ch_wire::Frame;

impl State {
    /// The peer of the link on which an endpoint has this connection open.
    pub(crate) fn carrier(&self, end: u32, conn: u64) -> Result<Option<Address>, OutOfMemory>
        ensures { IfOk result (λ found. MatchOption found (find (carries end conn) self.now.links ≡ None) (λ peer. find (carries end conn) self.now.links ≡ Some (link_with self.now end peer))) }
    {
        match self.links.carrier(end, conn) {
            None => Ok(None),
            Some(peer) => Ok(Some(peer.copy()?)),
        }
    }

    /// Whether a payload has to wait for the link, and may not.
    fn is_full(&self, end: u32, peer: &Address, weight: Weight) -> bool
        ensures { result ≡ (is_counted_of weight && (not (is_up_of (link_with self.now end peer.now).state) && nat_le 4096 (counted_in (link_with self.now end peer.now)))) }
    {
        match self.links.get(end, peer) {
            None => false,
            Some(link) => is_counted(weight) && !is_up(link.state()) && link.counted() >= 4096,
        }
    }

    /// The id of a connection that is open on a link.
    #[tactic(auto, unfolding(ch_light::specs::Ids::id_of))]
    fn id_of(&self, end: u32, peer: &Address, conn: u64) -> Option<u32>
        ensures value { result ≡ id_of_connection (link_with self.now end peer.now).given conn }
        ensures least { IfSome result (λ id. 1024 ≤ id) }
    {
        match self.links.get(end, peer) {
            None => None,
            Some(link) => link.id_of(conn),
        }
    }

    /// A payload is put on a link, and the link wants a socket.
    fn sends(
        &mut self,
        end: u32,
        peer: &Address,
        id: u32,
        payload: &[u8],
        weight: Weight,
    ) -> Result<Vec<Step>, OutOfMemory>
        requires id { 1024 ≤ id }
        requires short { length payload.now ≤ 65536 }
        requires room { is_counted_of weight ≡ true → is_up_of (link_with self.old end peer.now).state ≡ false → counted_in (link_with self.old end peer.now) < 4096 }
        requires worn { (is_idle_of (link_with self.old end peer.now).state && nat_le most_dials self.old.dials) ≡ false }
        ensures { IfOk result (λ steps. puts_and_wants_of (frames.Data id payload.now, weight) (link_with self.old end peer.now) self.old ≡ Ok (steps.items, self.new)) }
    {
        let payload = Text::of(self.alloc(), payload)?;
        let item = Waiting {
            frame: Frame::Data(id, payload),
            weight,
        };
        self.puts_and_wants(end, peer, item)
    }

    /// A payload is sent on a connection.
    pub(crate) fn send(
        &mut self,
        end: u32,
        conn: u64,
        payload: &[u8],
        weight: Weight,
    ) -> Result<Vec<Step>, EndError>
        ensures does { MatchResult result (λ steps. host_send self.old end conn payload.now weight ≡ Ok (steps.items, self.new)) (λ e. Fails e (host_send self.old end conn payload.now weight)) }
        ensures err { IfErr result (λ e. KeepsBut self.old self.new e) }
    {
        match self.carrier(end, conn) {
            Ok(found) => self.sends_on(end, conn, found, payload, weight),
            Err(_) => Err(EndError::OutOfMemory),
        }
    }

    /// A payload is sent on a connection, which is open on the link with this peer, or on none.
    #[tactic(auto, using(crate::proofs::Sending::send_none))]
    fn sends_on(
        &mut self,
        end: u32,
        conn: u64,
        found: Option<Address>,
        payload: &[u8],
        weight: Weight,
    ) -> Result<Vec<Step>, EndError>
        requires { MatchOption found (find (carries end conn) self.old.links ≡ None) (λ peer. find (carries end conn) self.old.links ≡ Some (link_with self.old end peer)) }
        ensures does { MatchResult result (λ steps. host_send self.old end conn payload.now weight ≡ Ok (steps.items, self.new)) (λ e. Fails e (host_send self.old end conn payload.now weight)) }
        ensures err { IfErr result (λ e. KeepsBut self.old self.new e) }
    {
        match found {
            None => Err(EndError::NoConnection),
            Some(peer) => self.sends_to(end, conn, &peer, payload, weight),
        }
    }

    /// A payload is sent on a connection that is open on the link with this peer.
    fn sends_to(
        &mut self,
        end: u32,
        conn: u64,
        peer: &Address,
        payload: &[u8],
        weight: Weight,
    ) -> Result<Vec<Step>, EndError>
        requires { find (carries end conn) self.old.links ≡ Some (link_with self.old end peer.now) }
        ensures does { MatchResult result (λ steps. host_send self.old end conn payload.now weight ≡ Ok (steps.items, self.new)) (λ e. Fails e (host_send self.old end conn payload.now weight)) }
        ensures err { IfErr result (λ e. KeepsBut self.old self.new e) }
    {
        if payload.len() > 65_536 {
            return Err(EndError::PayloadLong);
        }
        if self.is_full(end, peer, weight) {
            return Err(EndError::QueueFull);
        }
        match self.id_of(end, peer, conn) {
            None => Err(EndError::NoConnection),
            Some(id) => self.sends_as(end, conn, peer, id, payload, weight),
        }
    }

    /// A payload is sent on a connection that has this id on the link with this peer.
    fn sends_as(
        &mut self,
        end: u32,
        conn: u64,
        peer: &Address,
        id: u32,
        payload: &[u8],
        weight: Weight,
    ) -> Result<Vec<Step>, EndError>
        requires carrier { find (carries end conn) self.old.links ≡ Some (link_with self.old end peer.now) }
        requires least { 1024 ≤ id }
        requires short { length payload.now ≤ 65536 }
        requires room { (is_counted_of weight && (not (is_up_of (link_with self.old end peer.now).state) && nat_le 4096 (counted_in (link_with self.old end peer.now)))) ≡ false }
        requires id { id_of_connection (link_with self.old end peer.now).given conn ≡ Some id }
        ensures does { MatchResult result (λ steps. host_send self.old end conn payload.now weight ≡ Ok (steps.items, self.new)) (λ e. Fails e (host_send self.old end conn payload.now weight)) }
        ensures err { IfErr result (λ e. KeepsBut self.old self.new e) }
    {
        if self.is_worn(end, peer) {
            return Err(EndError::Worn);
        }
        match self.sends(end, peer, id, payload, weight) {
            Ok(steps) => Ok(steps),
            Err(_) => Err(EndError::OutOfMemory),
        }
    }

    /// A connection is closed.
    pub(crate) fn close(&mut self, end: u32, conn: u64) -> Result<Vec<Step>, EndError>
        ensures does { MatchResult result (λ steps. host_close self.old end conn ≡ Ok (steps.items, self.new)) (λ e. Fails e (host_close self.old end conn)) }
        ensures err { IfErr result (λ e. KeepsBut self.old self.new e) }
    {
        match self.carrier(end, conn) {
            Ok(found) => self.closes_on(end, conn, found),
            Err(_) => Err(EndError::OutOfMemory),
        }
    }

    /// A connection is closed, which is open on the link with this peer, or on none.
    #[tactic(auto, using(crate::proofs::Sending::close_none))]
    fn closes_on(
        &mut self,
        end: u32,
        conn: u64,
        found: Option<Address>,
    ) -> Result<Vec<Step>, EndError>
        requires { MatchOption found (find (carries end conn) self.old.links ≡ None) (λ peer. find (carries end conn) self.old.links ≡ Some (link_with self.old end peer)) }
        ensures does { MatchResult result (λ steps. host_close self.old end conn ≡ Ok (steps.items, self.new)) (λ e. Fails e (host_close self.old end conn)) }
        ensures err { IfErr result (λ e. KeepsBut self.old self.new e) }
    {
        match found {
            None => Err(EndError::NoConnection),
            Some(peer) => self.closes_at(end, conn, &peer),
        }
    }

    /// A connection is closed that is open on the link with this peer.
    fn closes_at(&mut self, end: u32, conn: u64, peer: &Address) -> Result<Vec<Step>, EndError>
        requires { find (carries end conn) self.old.links ≡ Some (link_with self.old end peer.now) }
        ensures does { MatchResult result (λ steps. host_close self.old end conn ≡ Ok (steps.items, self.new)) (λ e. Fails e (host_close self.old end conn)) }
        ensures err { IfErr result (λ e. KeepsBut self.old self.new e) }
    {
        let id = match self.id_of(end, peer, conn) {
            None => return Err(EndError::NoConnection),
            Some(id) => id,
        };
        match self.closes(end, conn, peer, id) {
            Ok(steps) => Ok(steps),
            Err(_) => Err(EndError::OutOfMemory),
        }
    }

    /// A connection that has this id on the link is closed, and that is put.
    fn closes(
        &mut self,
        end: u32,
        conn: u64,
        peer: &Address,
        id: u32,
    ) -> Result<Vec<Step>, OutOfMemory>
        ensures { IfOk result (λ steps. puts_of (frames.Closed id, Free) (closing conn (link_with self.old end peer.now)) self.old ≡ Ok (steps.items, self.new)) }
    {
        self.links.close(end, peer, conn)?;
        let item = Waiting {
            frame: Frame::Closed(id),
            weight: Weight::Free,
        };
        let steps = self.puts(end, peer, item)?;
        Ok(steps)
    }
}
