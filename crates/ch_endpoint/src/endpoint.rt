//! An endpoint of a host.

ghost use Rattle.std.specs.Prelude.{◌≡◌, ◌<◌, ◌+◌, false};
ghost use Rattle.ch_model.specs.HostItems.{most_arrived};
ghost use Rattle.ch_endpoint.specs.Arrivals.{next_number};

use std::marker::Model;

/// How many connections may arrive at an endpoint: their numbers are odd, and numbers of 64 bits.
const MOST_ARRIVED: u64 = 9_223_372_036_854_775_808;

/// An endpoint: its number, whether it is open, and how many connections have arrived at it.
#[derive(Drop)]
pub(crate) struct Endpoint {
    pub(crate) number: u32,
    pub(crate) is_open: bool,
    pub(crate) arrived: u64,
}

impl Model for Endpoint {
    ghost use Rattle.ch_model.specs.HostState.{Endpoint as EndpointValue};

    ghost Value = { EndpointValue };

    ghost view = { λ e. record { number = e.number; is_open = e.is_open; arrived = e.arrived } };
}

impl Endpoint {
    /// It is closed.
    pub(crate) fn close(&mut self)
        ensures { self.new ≡ record self.old { is_open = false } }
    {
        self.is_open = false;
    }

    /// The number of the next connection that arrives, where one is left.
    pub(crate) fn next_arrival(&self) -> Option<u64>
        ensures { result ≡ next_number self.now.arrived }
    {
        if self.arrived < MOST_ARRIVED {
            Some(2 * self.arrived + 1)
        } else {
            None
        }
    }

    /// One more connection has arrived.
    pub(crate) fn arrive(&mut self)
        requires { self.old.arrived < most_arrived }
        ensures { self.new ≡ record self.old { arrived = self.old.arrived + 1 } }
    {
        self.arrived += 1;
    }
}
