//! The end of an endpoint.

ghost use Rattle.std.specs.Prelude.{◌≡◌, ◌<◌, Ok, Err, find, position, length, MatchResult, IfOk, IfErr, IfSome, OnOk};
ghost use Rattle.ch_model.specs.HostSteps.{is_endpoint, link_with};
ghost use Rattle.ch_model.specs.HostCalls.{host_close_endpoint, shuts_links, closes_endpoint};
ghost use Rattle.ch_endpoint.specs.Calls.{Fails, KeepsBut};
ghost use Rattle.ch_endpoint.specs.Shuts.{shuts_peers as shuts_peers_of, closes_all as closes_all_of};

use crate::acts::{followed, one};
use crate::state::State;
use ch_base::{Address, Event, OutOfMemory};
use ch_link::LinkIn;
use ch_model::{EndError, Step};

impl State {
    /// The link of an endpoint with each of these peers is shut, in order.
    #[tactic(auto, using(crate::proofs::Shutting::none_before, crate::proofs::Shutting::one_more))]
    fn shuts_peers(&mut self, end: u32, peers: &[Address]) -> Result<Vec<Step>, OutOfMemory>
        ensures { IfOk result (λ steps. shuts_peers_of end peers.now self.old ≡ Ok (steps.items, self.new)) }
    {
        let mut steps = Vec::new(self.alloc());
        for peer in peers {
            let mut more = self.hears(end, peer, LinkIn::Shut)?;
            steps.append(&mut more)?;
        }
        Ok(steps)
    }

    /// Each link of an endpoint is shut, in order of first use.
    #[tactic(auto, using(crate::proofs::Shutting::shuts_are))]
    fn shuts_all(&mut self, end: u32) -> Result<Vec<Step>, OutOfMemory>
        ensures { IfOk result (λ steps. shuts_links end self.old.links self.old ≡ Ok (steps.items, self.new)) }
    {
        let peers = self.links.peers_of(end)?;
        let steps = self.shuts_peers(end, peers.as_slice())?;
        Ok(steps)
    }

    pub(crate) fn end_place(&self, end: u32) -> Option<usize>
        ensures place { result ≡ position (is_endpoint end) self.now.ends }
        ensures within { IfSome result (λ place. place < length self.now.ends) }
    {
        self.ends.iter().position(|endpoint| endpoint.number == end)
    }

    /// An endpoint is closed, where it was opened.
    fn closes_end(&mut self, end: u32)
        ensures { self.new ≡ closes_endpoint (find (is_endpoint end) self.old.ends) self.old }
    {
        match self.end_place(end) {
            None => {}
            Some(place) => self.ends[place].close(),
        }
    }

    /// The links of an endpoint are shut, it is closed, and its node is told last.
    #[tactic(auto, using(crate::proofs::Shutting::closes_done))]
    fn closes_all(&mut self, end: u32) -> Result<Vec<Step>, OutOfMemory>
        ensures { IfOk result (λ steps. closes_all_of end self.old ≡ Ok (steps.items, self.new)) }
    {
        let first = self.shuts_all(end)?;
        self.closes_end(end);
        let told = one(
            self.alloc(),
            Step::Post {
                end,
                event: Event::EndPointClosed,
            },
        )?;
        let steps = followed(first, told)?;
        Ok(steps)
    }

    /// An endpoint is closed.
    pub(crate) fn close_endpoint(&mut self, end: u32) -> Result<Vec<Step>, EndError>
        ensures does { MatchResult result (λ steps. host_close_endpoint self.old end ≡ Ok (steps.items, self.new)) (λ e. Fails e (host_close_endpoint self.old end)) }
        ensures err { IfErr result (λ e. KeepsBut self.old self.new e) }
    {
        if !self.is_open(end) {
            return Err(EndError::NoEndPoint);
        }
        match self.closes_all(end) {
            Ok(steps) => Ok(steps),
            Err(_) => Err(EndError::OutOfMemory),
        }
    }
}
