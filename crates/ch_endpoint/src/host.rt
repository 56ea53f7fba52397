//! The host's calls.

ghost use Rattle.std.specs.Prelude.{◌≡◌, true, false, option_map, IfOk, IfErr, IsErr, IsErrOf, OnErr, MatchResult, Ok, Err};
ghost use Rattle.ch_model.specs.HostCalls.{host_new, host_open, host_connect, host_send, host_close, host_close_endpoint, host_room, host_timer_runs};
ghost use Rattle.ch_base.specs.declared.memory.Stop.TheVariants as stops;
ghost use Rattle.ch_model.specs.declared.step.EndError.TheVariants as errors;
ghost use Rattle.ch_model.specs.HostSteps.{link_with};
ghost use Rattle.ch_model.specs.Cell.{is_heard};
ghost use Rattle.ch_model.specs.Host.{host_on, host_next};
ghost use Rattle.ch_endpoint.specs.Calls.{Fails, Stops, Leaves, is_want_of};

use crate::state::State;
use ch_base::{Address, OutOfMemory, Room, Stop, Text};
use ch_model::{EndError, SocketEvent, Step, Weight};
use std::alloc::Global;
use std::marker::Model;

/// A host. Contracts see what it keeps, and whether it has run out of memory.
#[derive(Drop)]
pub struct Host {
    state: State,
    failed: bool,
}

impl Model for Host {
    ghost use Rattle.ch_endpoint.specs.Kept.{Kept};

    ghost Value = { Kept };

    ghost view = { λ h. record { failed = h.failed; state = h.state } };
}

/// Whether memory was wanting.
fn is_want(done: &Result<Vec<Step>, EndError>) -> bool
    ensures { result ≡ is_want_of done.now }
{
    match done {
        Err(EndError::OutOfMemory) => true,
        _ => false,
    }
}

impl Host {
    /// A host of this host text and port, that takes peers of these host texts. No endpoint is open.
    pub fn new(alloc: Global, host: &[u8], port: u16, circle: &[Text]) -> Result<Host, OutOfMemory>
        ensures fresh { IfOk result (λ h. h.failed ≡ false) }
        ensures state { IfOk result (λ h. h.state ≡ host_new host.now port circle.now) }
    {
        Ok(Host {
            state: State::new(alloc, host, port, circle)?,
            failed: false,
        })
    }

    /// Opens an endpoint. It is false exactly where the number was opened before, and then nothing
    /// is changed. After `OutOfMemory` the host answers that for good.
    pub fn open(&mut self, end: u32) -> Result<bool, OutOfMemory>
        ensures does { IfOk result (λ did. host_open self.old.state end ≡ (did, self.new.state)) }
        ensures err { OnErr result (self.new.failed ≡ true) }
        ensures spent { self.old.failed ≡ true → IsErr result }
    {
        if self.failed {
            return Err(OutOfMemory);
        }
        let done = self.state.open(end);
        self.failed = done.is_err();
        done
    }

    /// Opens a connection to a peer: it gets the link's next id, and that is written or waits; a link that is idle
    /// dials. It is refused, in this order, with `NoEndPoint` where the endpoint isn't open, `Spent` where all
    /// ids were given, `Worn` where the count of dials can't grow; these leave the host unchanged. After
    /// `OutOfMemory` the host answers that for good.
    pub fn connect(&mut self, end: u32, peer: &Address, conn: u64) -> Result<Vec<Step>, EndError>
        ensures does { MatchResult result (λ steps. host_connect self.old.state end peer.now conn ≡ Ok (steps.items, self.new.state)) (λ e. Fails e (host_connect self.old.state end peer.now conn)) }
        ensures err { IfErr result (λ e. Leaves self.old self.new e) }
        ensures spent { self.old.failed ≡ true → IsErrOf result errors.OutOfMemory }
    {
        if self.failed {
            return Err(EndError::OutOfMemory);
        }
        let done = self.state.connect(end, peer, conn);
        self.failed = is_want(&done);
        done
    }

    /// Sends a payload on a connection: it is written where the link is up, and else waits; a link that is idle
    /// dials. It is refused, in this order, with `NoConnection` where the endpoint has no such connection open,
    /// `PayloadLong` where it has more than 65,536 bytes, `QueueFull` where it is counted, the link isn't up, and
    /// 4,096 counted payloads wait, `Worn` where the count of dials can't grow; these leave the host unchanged.
    /// After `OutOfMemory` the host answers that for good.
    pub fn send(
        &mut self,
        end: u32,
        conn: u64,
        payload: &[u8],
        weight: Weight,
    ) -> Result<Vec<Step>, EndError>
        ensures does { MatchResult result (λ steps. host_send self.old.state end conn payload.now weight ≡ Ok (steps.items, self.new.state)) (λ e. Fails e (host_send self.old.state end conn payload.now weight)) }
        ensures err { IfErr result (λ e. Leaves self.old self.new e) }
        ensures spent { self.old.failed ≡ true → IsErrOf result errors.OutOfMemory }
    {
        if self.failed {
            return Err(EndError::OutOfMemory);
        }
        let done = self.state.send(end, conn, payload, weight);
        self.failed = is_want(&done);
        done
    }

    /// Closes a connection: that is written, or waits behind what the connection has waiting. It is refused with
    /// `NoConnection` where the endpoint has no such connection open, which leaves the host unchanged. After
    /// `OutOfMemory` the host answers that for good.
    pub fn close(&mut self, end: u32, conn: u64) -> Result<Vec<Step>, EndError>
        ensures does { MatchResult result (λ steps. host_close self.old.state end conn ≡ Ok (steps.items, self.new.state)) (λ e. Fails e (host_close self.old.state end conn)) }
        ensures err { IfErr result (λ e. Leaves self.old self.new e) }
        ensures spent { self.old.failed ≡ true → IsErrOf result errors.OutOfMemory }
    {
        if self.failed {
            return Err(EndError::OutOfMemory);
        }
        let done = self.state.close(end, conn);
        self.failed = is_want(&done);
        done
    }

    /// Closes an endpoint: its links are shut, and its node is told last. It is refused with `NoEndPoint` where the
    /// endpoint isn't open, which leaves the host unchanged. After `OutOfMemory` the host answers that for good.
    pub fn close_endpoint(&mut self, end: u32) -> Result<Vec<Step>, EndError>
        ensures does { MatchResult result (λ steps. host_close_endpoint self.old.state end ≡ Ok (steps.items, self.new.state)) (λ e. Fails e (host_close_endpoint self.old.state end)) }
        ensures err { IfErr result (λ e. Leaves self.old self.new e) }
        ensures spent { self.old.failed ≡ true → IsErrOf result errors.OutOfMemory }
    {
        if self.failed {
            return Err(EndError::OutOfMemory);
        }
        let done = self.state.close_endpoint(end);
        self.failed = is_want(&done);
        done
    }

    /// What happens to a socket or a timer. Bytes that are fed are kept for `next`. After `OutOfMemory` the host
    /// answers that for good.
    pub fn on(&mut self, event: SocketEvent) -> Result<Vec<Step>, Stop>
        ensures does { MatchResult result (λ steps. host_on self.old.state event ≡ Ok (steps.items, self.new.state)) (λ e. Stops e (host_on self.old.state event)) }
        ensures err { OnErr result (self.new.failed ≡ true) }
        ensures spent { self.old.failed ≡ true → IsErrOf result stops.OutOfMemory }
    {
        if self.failed {
            return Err(Stop::OutOfMemory);
        }
        match self.state.on(event) {
            Ok(steps) => Ok(steps),
            Err(_) => {
                self.failed = true;
                Err(Stop::OutOfMemory)
            }
        }
    }

    /// Handles one item, of the socket with the lowest number that has one, with all that follows at this host:
    /// requests are answered, links come up and fail, and nodes are told. None comes exactly where no whole item
    /// and no refusal is left in the bytes that were fed. It is refused with `Worn` where a count can't grow.
    /// After either refusal the host answers `OutOfMemory` for good.
    ///
    /// It costs the item's bytes, what it writes, and the logarithm of how many sockets have an item; the sockets
    /// and what else is kept unread aren't walked.
    pub fn next(&mut self) -> Result<Option<Vec<Step>>, Stop>
        ensures does { MatchResult result (λ next. host_next self.old.state ≡ Ok (option_map (λ steps. steps.items) next, self.new.state)) (λ e. Stops e (host_next self.old.state)) }
        ensures err { OnErr result (self.new.failed ≡ true) }
        ensures spent { self.old.failed ≡ true → IsErrOf result stops.OutOfMemory }
    {
        if self.failed {
            return Err(Stop::OutOfMemory);
        }
        match self.state.next() {
            Ok(next) => Ok(next),
            Err(e) => {
                self.failed = true;
                Err(e)
            }
        }
    }

    /// Whether an event of a socket or a timer is heard: the end of its socket is pending, for `Joined` and `Refused`,
    /// or open, for `Fed`, `Ended` and `Lost`, or its timer runs; `Came` always is. An event that isn't heard changes
    /// nothing. It takes no memory.
    pub fn hears(&self, event: &SocketEvent) -> bool
        ensures { result ≡ is_heard self.now.state event.now }
    {
        self.state.would_hear(event)
    }

    /// The host text. It takes no memory.
    pub fn text(&self) -> &Text
        ensures { result.now ≡ self.now.state.host }
    {
        &self.state.host
    }

    /// The port. It takes no memory.
    pub fn port(&self) -> u16
        ensures { result ≡ self.now.state.port }
    {
        self.state.port
    }

    /// Whether a timer runs for the link of an endpoint with a peer. It takes no memory.
    pub fn timer_runs(&self, end: u32, peer: &Address) -> bool
        ensures { result ≡ host_timer_runs self.now.state end peer.now }
    {
        self.state.timer_runs(end, peer)
    }

    /// How the link of an endpoint with a peer stands, for a node that is about to send on it. It takes no
    /// memory.
    pub fn room(&self, end: u32, peer: &Address) -> Room
        ensures { result ≡ host_room self.now.state end peer.now }
    {
        self.state.room(end, peer)
    }
}
