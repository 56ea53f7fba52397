//! Connections that a peer opens, closes and sends on.

ghost use Rattle.std.specs.Prelude.{◌≡◌, ◌<◌, ◌++◌, ◌∷◌, [], true, false, find, position, length, Some, None, Ok, Err, MatchResult, IfOk, IfSome, OnOk};
ghost use Rattle.ch_base.specs.declared.memory.Stop.TheVariants as stops;
ghost use Rattle.ch_wire.specs.declared.frame.Frame.TheVariants as frames;
ghost use Rattle.ch_light.specs.Ids.{conn_of as conn_of_id};
ghost use Rattle.ch_model.specs.HostState.{Socket};
ghost use Rattle.ch_model.specs.HostSteps.{is_socket, is_endpoint, link_with};
ghost use Rattle.ch_model.specs.HostLinks.{hears as hears_of};
ghost use Rattle.ch_model.specs.HostItems.{posts, most_arrived, is_gone as is_gone_of, arrived_at, with_arrival, next_arrival as next_arrival_of, reads_frame as reads_frame_of};
ghost use Rattle.ch_endpoint.specs.Calls.{Stops};
ghost use Rattle.ch_endpoint.specs.Dialing.{is_want_in};
ghost use Rattle.ch_endpoint.specs.Arrivals.{may_create as may_create_of, number_of, next_number, arrives_as, departs_as};

use crate::acts::one;
use crate::state::State;
use ch_base::{Address, Event, OutOfMemory, Stop, Text};
use ch_link::LinkIn;
use ch_model::Step;
use ch_wire::Frame;

impl State {
    /// Whether the other end of a link may create this id now.
    fn may_create(&self, end: u32, peer: &Address, id: u32) -> bool
        ensures { result ≡ may_create_of id (link_with self.now end peer.now).created }
    {
        match self.links.get(end, peer) {
            None => id == 1024,
            Some(link) => link.may_create(id),
        }
    }

    /// The connection that an id stands for on a link.
    #[tactic(auto, unfolding(ch_light::specs::Ids::conn_of))]
    fn conn_of(&self, end: u32, peer: &Address, id: u32) -> Option<u64>
        ensures { result ≡ number_of (conn_of_id (link_with self.now end peer.now).created id) }
    {
        match self.links.get(end, peer) {
            None => None,
            Some(link) => link.conn_of(id),
        }
    }

    /// The number of the next connection that arrives at an endpoint, where one is left.
    fn next_arrival(&self, end: u32) -> Option<u64>
        ensures { result ≡ next_number (arrived_at self.now end) }
    {
        match self.end_place(end) {
            None => Some(1),
            Some(place) => self.ends[place].next_arrival(),
        }
    }

    /// One more connection has arrived at an endpoint.
    fn counts_arrival(&mut self, end: u32)
        requires { arrived_at self.old end < most_arrived }
        ensures { self.new ≡ with_arrival end self.old }
    {
        match self.end_place(end) {
            None => {}
            Some(place) => self.ends[place].arrive(),
        }
    }

    /// A connection arrives on a link, under the next id.
    fn arrives(
        &mut self,
        end: u32,
        peer: &Address,
        id: u32,
        conn: u64,
    ) -> Result<Vec<Step>, OutOfMemory>
        requires next { may_create_of id (link_with self.old end peer.now).created ≡ true }
        requires number { next_number (arrived_at self.old end) ≡ Some conn }
        ensures { IfOk result (λ steps. arrives_as conn (link_with self.old end peer.now) self.old ≡ Ok (steps.items, self.new)) }
    {
        self.links.create(end, peer, id, conn)?;
        self.counts_arrival(end);
        let event = Event::ConnectionOpened {
            conn,
            peer: peer.copy()?,
        };
        one(self.alloc(), Step::Post { end, event })
    }

    /// A connection that has this id on a link is closed.
    fn departs(
        &mut self,
        end: u32,
        peer: &Address,
        id: u32,
        conn: u64,
    ) -> Result<Vec<Step>, OutOfMemory>
        ensures { IfOk result (λ steps. departs_as id conn (link_with self.old end peer.now) self.old ≡ Ok (steps.items, self.new)) }
    {
        self.links.close_id(end, peer, id)?;
        let event = Event::ConnectionClosed { conn };
        one(self.alloc(), Step::Post { end, event })
    }

    /// A bad item was read on a socket.
    pub(crate) fn fails_at(&mut self, sock: u64) -> Result<Vec<Step>, Stop>
        ensures { (socket : Socket) → find (is_socket sock) self.old.sockets ≡ Some socket → MatchResult result (λ steps. is_gone_of socket self.old ≡ Ok (steps.items, self.new)) (λ e. e ≡ stops.OutOfMemory) }
    {
        match self.is_gone(sock) {
            Ok(steps) => Ok(steps),
            Err(_) => Err(Stop::OutOfMemory),
        }
    }

    /// The link of an endpoint with a peer hears what was read.
    pub(crate) fn hears_read(
        &mut self,
        end: u32,
        peer: &Address,
        input: LinkIn,
    ) -> Result<Vec<Step>, Stop>
        requires { is_want_in input ≡ false }
        ensures { MatchResult result (λ steps. hears_of input (link_with self.old end peer.now) self.old ≡ Ok (steps.items, self.new)) (λ e. e ≡ stops.OutOfMemory) }
    {
        match self.hears(end, peer, input) {
            Ok(steps) => Ok(steps),
            Err(_) => Err(Stop::OutOfMemory),
        }
    }

    /// The peer has opened a connection. It is refused with `Worn` where the endpoint's connections can't be
    /// numbered any more.
    fn reads_created(
        &mut self,
        sock: u64,
        end: u32,
        peer: &Address,
        id: u32,
    ) -> Result<Vec<Step>, Stop>
        ensures { (socket : Socket) → find (is_socket sock) self.old.sockets ≡ Some socket → MatchResult result (λ steps. reads_frame_of socket (link_with self.old end peer.now) (frames.Created id) self.old ≡ Ok (steps.items, self.new)) (λ e. Stops e (reads_frame_of socket (link_with self.old end peer.now) (frames.Created id) self.old)) }
    {
        if !self.may_create(end, peer, id) {
            return self.fails_at(sock);
        }
        match self.next_arrival(end) {
            None => Err(Stop::Worn),
            Some(conn) => match self.arrives(end, peer, id, conn) {
                Ok(steps) => Ok(steps),
                Err(_) => Err(Stop::OutOfMemory),
            },
        }
    }

    /// The peer has closed a connection.
    fn reads_closed(
        &mut self,
        sock: u64,
        end: u32,
        peer: &Address,
        id: u32,
    ) -> Result<Vec<Step>, Stop>
        ensures { (socket : Socket) → find (is_socket sock) self.old.sockets ≡ Some socket → MatchResult result (λ steps. reads_frame_of socket (link_with self.old end peer.now) (frames.Closed id) self.old ≡ Ok (steps.items, self.new)) (λ e. Stops e (reads_frame_of socket (link_with self.old end peer.now) (frames.Closed id) self.old)) }
    {
        match self.conn_of(end, peer, id) {
            None => self.fails_at(sock),
            Some(conn) => match self.departs(end, peer, id, conn) {
                Ok(steps) => Ok(steps),
                Err(_) => Err(Stop::OutOfMemory),
            },
        }
    }

    /// A payload came on a connection.
    fn reads_data(
        &mut self,
        sock: u64,
        end: u32,
        peer: &Address,
        id: u32,
        payload: Text,
    ) -> Result<Vec<Step>, Stop>
        ensures { (socket : Socket) → find (is_socket sock) self.old.sockets ≡ Some socket → MatchResult result (λ steps. reads_frame_of socket (link_with self.old end peer.now) (frames.Data id payload) self.old ≡ Ok (steps.items, self.new)) (λ e. Stops e (reads_frame_of socket (link_with self.old end peer.now) (frames.Data id payload) self.old)) }
    {
        match self.conn_of(end, peer, id) {
            None => self.fails_at(sock),
            Some(conn) => self.receives(end, conn, payload),
        }
    }

    /// The node is told of a payload.
    fn receives(&self, end: u32, conn: u64, payload: Text) -> Result<Vec<Step>, Stop>
        ensures { MatchResult result (λ steps. posts end (Event.Received conn payload) self.now ≡ Ok (steps.items, self.now)) (λ e. e ≡ stops.OutOfMemory) }
    {
        let event = Event::Received { conn, payload };
        match one(self.alloc(), Step::Post { end, event }) {
            Ok(steps) => Ok(steps),
            Err(_) => Err(Stop::OutOfMemory),
        }
    }

    /// A frame was read on a socket of the link of an endpoint with a peer. It is refused with `Worn` where a
    /// count can't grow.
    pub(crate) fn reads_frame(
        &mut self,
        sock: u64,
        end: u32,
        peer: &Address,
        frame: Frame,
    ) -> Result<Vec<Step>, Stop>
        ensures { (socket : Socket) → find (is_socket sock) self.old.sockets ≡ Some socket → MatchResult result (λ steps. reads_frame_of socket (link_with self.old end peer.now) frame self.old ≡ Ok (steps.items, self.new)) (λ e. Stops e (reads_frame_of socket (link_with self.old end peer.now) frame self.old)) }
    {
        match frame {
            Frame::Created(id) => self.reads_created(sock, end, peer, id),
            Frame::Closed(id) => self.reads_closed(sock, end, peer, id),
            Frame::Data(id, payload) => self.reads_data(sock, end, peer, id, payload),
            Frame::EndClosed => self.hears_read(end, peer, LinkIn::EndClosed),
            Frame::Probe => self.hears_read(end, peer, LinkIn::Probe),
            Frame::ProbeAck => self.hears_read(end, peer, LinkIn::Ack),
        }
    }
}
