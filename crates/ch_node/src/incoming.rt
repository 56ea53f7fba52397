//! The connections that arrived at a node, in order.

ghost use Rattle.std.specs.Prelude.{◌≡◌, ◌<◌, ◌==◌, true, not, map, filter, find, position, length, [], ◌∷◌, ◌++◌, IfOk, OnOk, IfSome, Some, None};
ghost use Rattle.std.specs.Option.{option_copied};
ghost use Rattle.ch_watch.specs.Same.{same_node as same_node_of};
ghost use Rattle.ch_model.specs.NodeArrivals.{rebound as rebound_of};
ghost use Rattle.ch_model.specs.NodeState.{Unread};
ghost use Rattle.ch_node.specs.Bindings.{bound_of};
ghost use Rattle.ch_node.specs.Incoming.{Rises};

use crate::arrived::{Arrived, Binding};
use crate::same::same_node;
use ch_base::{Address, OutOfMemory};
use std::alloc::Global;
use std::marker::Model;

/// Connections that arrived. Contracts see the list of them, in order of arrival. While their numbers
/// rise, as a host gives them, one is found by halving, and else by a walk.
#[derive(Drop)]
pub(crate) struct Incoming {
    rows: Vec<Arrived>,
    /// Whether the numbers rise.
    rises: bool,
    /// Where they rise, all are below this.
    bound: u64,
}

impl Model for Incoming {
    ghost use Rattle.std.specs.Prelude.{◌≡◌, List, true};
    ghost use Rattle.ch_model.specs.NodeState.{Arrived as ArrivedValue};
    ghost use Rattle.ch_node.specs.Incoming.{Rises};

    ghost Value = { List ArrivedValue };

    ghost view = { λ i. i.rows.items };

    ghost invariant = { λ i. i.rises ≡ true → Rises 0 i.rows.items i.bound };
}

/// The place of a connection among those whose numbers rise.
fn risen_place(rows: &[Arrived], conn: u64, bound: u64) -> Option<usize>
    requires { Rises 0 rows.now bound }
    ensures place { result ≡ position (λ arrived. arrived.conn == conn) rows.now }
    ensures within { IfSome result (λ i. i < length rows.now) }
{
    let place = rows.partition_point(|arrived| arrived.conn < conn);
    if place >= rows.len() {
        return None;
    }
    let arrived = &rows[place];
    if arrived.conn == conn {
        Some(place)
    } else {
        None
    }
}

/// The place of the first connection of that number.
fn walked_place(rows: &[Arrived], conn: u64) -> Option<usize>
    ensures place { result ≡ position (λ arrived. arrived.conn == conn) rows.now }
    ensures within { IfSome result (λ i. i < length rows.now) }
{
    rows.iter().position(|arrived| arrived.conn == conn)
}

impl Incoming {
    /// None has arrived.
    pub(crate) fn new(alloc: Global) -> Incoming
        ensures { result ≡ [] }
    {
        Incoming {
            rows: Vec::new(alloc),
            rises: true,
            bound: 0,
        }
    }

    fn place(&self, conn: u64) -> Option<usize>
        ensures place { result ≡ position (λ arrived. arrived.conn == conn) self.now }
        ensures within { IfSome result (λ i. i < length self.now) }
    {
        if self.rises {
            risen_place(self.rows.as_slice(), conn, self.bound)
        } else {
            walked_place(self.rows.as_slice(), conn)
        }
    }

    /// The connection of that number.
    pub(crate) fn on(&self, conn: u64) -> Option<&Arrived>
        ensures { option_copied result ≡ find (λ arrived. arrived.conn == conn) self.now }
    {
        match self.place(conn) {
            None => None,
            Some(place) => Some(&self.rows[place]),
        }
    }

    /// One more arrives, for what isn't told yet. After `OutOfMemory` nothing is changed.
    pub(crate) fn add(&mut self, conn: u64, peer: Address) -> Result<(), OutOfMemory>
        ensures { OnOk result (self.new ≡ self.old ++ record { conn = conn; peer = peer; bound = Unread } ∷ []) }
    {
        self.rows.push(Arrived {
            conn,
            peer,
            binding: Binding::Unread,
        })?;
        if self.rises && self.bound <= conn && conn < u64::MAX {
            self.bound = conn + 1;
        } else {
            self.rises = false;
        }
        Ok(())
    }

    /// The connections of that number are bound so. It walks them.
    pub(crate) fn bind(&mut self, conn: u64, binding: &Binding) -> Result<(), OutOfMemory>
        ensures { OnOk result (self.new ≡ map (rebound_of conn (bound_of binding.now)) self.old) }
    {
        bind_all(&mut self.rows, conn, binding)
    }

    /// The connections of that number are gone. It walks them.
    pub(crate) fn drop_conn(&mut self, conn: u64)
        ensures { self.new ≡ filter (λ arrived. not (arrived.conn == conn)) self.old }
    {
        self.rows.retain(|arrived| arrived.conn != conn);
    }

    /// The connections of a peer are gone. It walks them.
    pub(crate) fn drop_peer(&mut self, peer: &Address)
        ensures { self.new ≡ filter (λ arrived. not (same_node_of arrived.peer peer.now)) self.old }
    {
        self.rows.retain(|arrived| !same_node(&arrived.peer, peer));
    }
}

/// The connections of that number are bound so.
fn bind_all(rows: &mut [Arrived], conn: u64, binding: &Binding) -> Result<(), OutOfMemory>
    ensures ok { OnOk result (rows.new ≡ map (rebound_of conn (bound_of binding.now)) rows.old) }
    ensures numbers { map (λ arrived. arrived.conn) rows.new ≡ map (λ arrived. arrived.conn) rows.old }
{
    for row in rows.iter_mut() {
        row.rebind(conn, binding)?;
    }
    Ok(())
}
