//! The hosts of a world, each with its nodes.

ghost use Rattle.std.specs.Prelude.{◌≡◌, ◌<◌, length, position, slice_get, IfOk, IfSome};
ghost use Rattle.ch_model.specs.HostCalls.{host_timer_runs};
ghost use Rattle.ch_model.specs.WorldSockets.{is_host_of as is_host_of_address};
ghost use Rattle.ch_world.specs.Hosts.{host_at, timer_of};

use ch_base::{Address, OutOfMemory, Text};
use ch_cell::Site;
use std::marker::Model;

/// A host with its nodes, and how many sockets it has accepted. Contracts see a pair.
#[derive(Drop)]
pub(crate) struct Hosted {
    pub(crate) site: Site,
    pub(crate) accepted: u64,
}

impl Model for Hosted {
    ghost use Rattle.std.specs.Prelude.{ℕ};
    ghost use Rattle.ch_model.specs.WorldState.{Cell};

    ghost Value = { Cell × ℕ };

    ghost view = { λ h. (h.site, h.accepted) };
}

/// Where a host stands among those of a journal: its place, from 0 in order of declaration, its host text and its port.
#[derive(Debug, Drop)]
pub(crate) struct HostAt {
    pub(crate) place: usize,
    pub(crate) text: Text,
    pub(crate) port: u16,
}

impl Hosted {
    /// Where this host stands, which has this place.
    pub(crate) fn at(&self, place: usize) -> Result<HostAt, OutOfMemory>
        ensures { IfOk result (λ at. at ≡ host_at place self.now.0) }
    {
        Ok(HostAt {
            place,
            text: self.site.text().copy()?,
            port: self.site.port(),
        })
    }

    /// Whether the timer of an endpoint's link with a peer runs.
    fn timer_runs(&self, end: u32, peer: &Address) -> bool
        ensures { result ≡ host_timer_runs self.now.0.host end peer.now }
    {
        self.site.timer_runs(end, peer)
    }

    /// Whether an address is at this host and port.
    fn has(&self, address: &Address) -> bool
        ensures { result ≡ is_host_of_address address.now self.now }
    {
        self.site.text().as_slice() == address.host.as_slice() && self.site.port() == address.port
    }
}

/// The place of the host that an address is at.
pub(crate) fn place_of(cells: &[Hosted], address: &Address) -> Option<usize>
    ensures place { result ≡ position (is_host_of_address address.now) cells.now }
    ensures within { IfSome result (λ place. place < length cells.now) }
{
    cells.iter().position(|cell| cell.has(address))
}

/// Whether the timer of an endpoint's link with a peer runs, at the host at a place.
pub(crate) fn timer_among(cells: &[Hosted], place: usize, end: u32, peer: &Address) -> bool
    ensures { result ≡ timer_of end peer.now (slice_get cells.now place) }
{
    match cells.get(place) {
        None => false,
        Some(cell) => cell.timer_runs(end, peer),
    }
}
