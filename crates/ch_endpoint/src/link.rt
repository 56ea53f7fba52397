//! The link of an endpoint with a peer.

ghost use Rattle.std.specs.Prelude.{◌≡◌, ◌<◌, ◌≤◌, ◌+◌, ◌++◌, ◌∷◌, [], true, length, map, IfOk, OnOk, OnErr, IfSome};
ghost use Rattle.ch_watch.specs.Same.{same_node as same_node_of};
ghost use Rattle.ch_model.specs.HostSteps.{is_link, new_link};
ghost use Rattle.ch_model.specs.HostWrites.{is_counted as is_counted_of, counted_in, said_of, forgotten, frame_step as frame_step_of};
ghost use Rattle.ch_light.specs.Ids.{opened, id_of, conn_of as conn_of_id};
ghost use Rattle.ch_model.specs.HostCalls.{carries};
ghost use Rattle.ch_endpoint.specs.Waits.{closing};
ghost use Rattle.ch_endpoint.specs.Arrivals.{may_create as may_create_of, creating, closing_id, number_of};

use ch_base::{Address, OutOfMemory, Text};
use ch_light::{Incoming, Outgoing};
use ch_link::LinkState;
use ch_model::{Place, Step, Weight};
use ch_wire::{Frame, put_frame};
use std::alloc::Global;
use std::marker::Model;
use std::mem;

/// A frame that waits for a link to be up. Contracts see it with its weight.
#[derive(Drop)]
pub(crate) struct Waiting {
    pub(crate) frame: Frame,
    pub(crate) weight: Weight,
}

impl Model for Waiting {
    ghost use Rattle.ch_wire.specs.declared.frame.Frame.{Frame};
    ghost use Rattle.ch_model.specs.declared.step.Weight.{Weight};

    ghost Value = { Frame × Weight };

    ghost use Rattle.ch_wire.specs.Spelling.{IsFrame};

    ghost view = { λ w. (w.frame, w.weight) };

    ghost invariant = { λ w. IsFrame w.frame };
}

/// The link of an endpoint with a peer. Contracts see its state, what waits, and its connections.
#[derive(Drop)]
pub(crate) struct Link {
    pub(crate) end: u32,
    pub(crate) peer: Address,
    pub(crate) state: LinkState,
    pub(crate) waits: Vec<Waiting>,
    pub(crate) given: Outgoing,
    pub(crate) created: Incoming,
    /// How many counted payloads wait.
    pub(crate) counted: u32,
    /// How many ids the other end has created.
    pub(crate) arrived: u32,
}

impl Model for Link {
    ghost use Rattle.ch_model.specs.HostState.{Link as LinkValue};

    ghost Value = { LinkValue };

    ghost use Rattle.std.specs.Prelude.{◌≡◌, ◌≤◌, length};
    ghost use Rattle.ch_endpoint.specs.Waits.{counted_of};

    ghost view = { λ l. record { end = l.end; peer = l.peer; state = l.state; waits = l.waits.items; given = l.given; created = l.created } };

    ghost invariant = { λ l. (l.counted ≡ counted_of l.waits.items) × (l.counted ≤ 4096) × (l.arrived ≡ length l.created) };
}

#[tactic(auto, unfolding(ch_watch::specs::Same::same_node))]
pub(crate) fn same_node(a: &Address, b: &Address) -> bool
    ensures { result ≡ same_node_of a.now b.now }
{
    a.host.as_slice() == b.host.as_slice() && a.port == b.port && a.id == b.id
}

impl Link {
    /// A link that wasn't used before.
    pub(crate) fn new(alloc: Global, end: u32, peer: Address) -> Link
        ensures { result ≡ new_link end peer }
    {
        Link {
            end,
            peer,
            state: LinkState::Idle,
            waits: Vec::new(alloc),
            given: Outgoing::new(alloc),
            created: Incoming::new(alloc),
            counted: 0,
            arrived: 0,
        }
    }

    /// Whether it is that of this endpoint and this peer.
    pub(crate) fn is_for(&self, end: u32, peer: &Address) -> bool
        ensures { result ≡ is_link end peer.now self.now }
    {
        self.end == end && same_node(&self.peer, peer)
    }

    pub(crate) fn state(&self) -> LinkState
        ensures { result ≡ self.now.state }
    {
        self.state
    }

    pub(crate) fn set_state(&mut self, state: LinkState)
        ensures { self.new ≡ record self.old { state = state } }
    {
        self.state = state;
    }

    /// Whether the connection is open on it, for this endpoint.
    pub(crate) fn carries(&self, end: u32, conn: u64) -> bool
        ensures { result ≡ carries end conn self.now }
    {
        self.end == end && self.given.id_of(conn).is_some()
    }

    /// The id of a connection that is open on it.
    #[tactic(auto, using(crate::proofs::Sending::id_least))]
    pub(crate) fn id_of(&self, conn: u64) -> Option<u32>
        ensures value { result ≡ id_of self.now.given conn }
        ensures least { IfSome result (λ id. 1024 ≤ id) }
    {
        self.given.id_of(conn)
    }

    /// How many counted payloads wait.
    pub(crate) fn counted(&self) -> u32
        ensures value { result ≡ counted_in self.now }
        ensures bound { result ≤ 4096 }
    {
        self.counted
    }

    /// How many ids were given.
    pub(crate) fn given(&self) -> u32
        ensures { result ≡ length self.now.given }
    {
        self.given.given()
    }

    /// The connection gets the next id.
    #[tactic(auto, unfolding(ch_light::specs::Ids::give_of))]
    pub(crate) fn give(&mut self, conn: u64) -> Result<u32, OutOfMemory>
        requires room { length self.old.given < 65536 }
        ensures id { IfOk result (λ id. id ≡ 1024 + length self.old.given) }
        ensures ok { OnOk result (self.new ≡ record self.old { given = self.old.given ++ opened conn ∷ [] }) }
        ensures err { OnErr result (self.new ≡ self.old) }
    {
        match self.given.give(conn) {
            Ok(id) => Ok(id),
            Err(_) => Err(OutOfMemory),
        }
    }

    /// A connection is closed, where it is open.
    pub(crate) fn close(&mut self, conn: u64)
        ensures { self.new ≡ closing conn self.old }
    {
        match self.given.close(conn) {
            Ok(_) => {}
            Err(_) => {}
        }
    }

    /// Whether the other end may create this id now.
    pub(crate) fn may_create(&self, id: u32) -> bool
        ensures { result ≡ may_create_of id self.now.created }
    {
        self.arrived < 65_536 && id == 1024 + self.arrived
    }

    /// The other end has created its next id, for this connection.
    #[tactic(auto, using(crate::proofs::Arriving::created_next))]
    pub(crate) fn create(&mut self, id: u32, conn: u64) -> Result<(), OutOfMemory>
        requires { may_create_of id self.old.created ≡ true }
        ensures ok { OnOk result (self.new ≡ creating conn self.old) }
        ensures err { OnErr result (self.new ≡ self.old) }
    {
        match self.created.created(id, conn) {
            Ok(()) => {
                self.arrived += 1;
                Ok(())
            }
            Err(_) => Err(OutOfMemory),
        }
    }

    /// The connection that an id of the other end stands for.
    pub(crate) fn conn_of(&self, id: u32) -> Option<u64>
        ensures { result ≡ number_of (conn_of_id self.now.created id) }
    {
        match self.created.conn_of(id) {
            Ok(conn) => Some(conn),
            Err(_) => None,
        }
    }

    /// The other end has closed an id, where it is open.
    pub(crate) fn close_id(&mut self, id: u32)
        ensures { self.new ≡ closing_id id self.old }
    {
        match self.created.closed(id) {
            Ok(_) => {}
            Err(_) => {}
        }
    }

    /// A frame waits behind those that wait.
    pub(crate) fn wait(&mut self, item: Waiting) -> Result<(), OutOfMemory>
        requires { is_counted_of item.1 ≡ true → counted_in self.old < 4096 }
        ensures ok { OnOk result (self.new ≡ record self.old { waits = self.old.waits ++ item ∷ [] }) }
        ensures err { OnErr result (self.new ≡ self.old) }
    {
        let counted = is_counted(item.weight);
        self.waits.push(item)?;
        if counted {
            self.counted += 1;
        }
        Ok(())
    }

    /// What waits is taken out.
    pub(crate) fn take_waits(&mut self) -> Vec<Waiting>
        ensures taken { result.items ≡ self.old.waits }
        ensures left { self.new ≡ record self.old { waits = [] } }
    {
        let alloc = *self.waits.allocator();
        self.counted = 0;
        mem::replace(&mut self.waits, Vec::new(alloc))
    }

    /// What waits and all connections are forgotten, and the state stands.
    pub(crate) fn forget(&mut self)
        ensures { self.new ≡ forgotten self.old self.old.state }
    {
        let alloc = *self.waits.allocator();
        self.waits.clear();
        self.counted = 0;
        self.given = Outgoing::new(alloc);
        self.created = Incoming::new(alloc);
        self.arrived = 0;
    }
}

pub(crate) fn is_counted(weight: Weight) -> bool
    ensures { result ≡ is_counted_of weight }
{
    match weight {
        Weight::Counted { .. } => true,
        Weight::Free => false,
    }
}

/// The place of the message that a payload carries.
pub(crate) fn said(weight: Weight) -> Option<Place>
    ensures { result ≡ said_of weight }
{
    match weight {
        Weight::Counted { said } => said,
        Weight::Free => None,
    }
}

/// A frame of a link, as it is written on a socket.
pub(crate) fn frame_step(alloc: Global, sock: u64, item: &Waiting) -> Result<Step, OutOfMemory>
    ensures { IfOk result (λ step. step ≡ frame_step_of sock item.now) }
{
    let mut bytes = Vec::new(alloc);
    put_frame(&item.frame, &mut bytes)?;
    Ok(Step::Write {
        sock,
        bytes: Text::from_vec(bytes),
        said: said(item.weight),
    })
}

/// Frames of a link, as they are written on a socket.
pub(crate) fn frame_steps(
    alloc: Global,
    sock: u64,
    items: &[Waiting],
) -> Result<Vec<Step>, OutOfMemory>
    ensures { IfOk result (λ steps. steps.items ≡ map (frame_step_of sock) items.now) }
{
    let mut steps = Vec::new(alloc);
    for item in items {
        steps.push(frame_step(alloc, sock, item)?)?;
    }
    Ok(steps)
}
