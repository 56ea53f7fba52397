//! The items that are read on a host's sockets, one at a time.

ghost use Rattle.std.specs.Prelude.{◌≡◌, ◌++◌, ◌∷◌, [], true, false, find, option_map, Some, None, Ok, Err, MatchResult, MatchOption, IfOk, OnOk};
ghost use Rattle.std.specs.List.{list_any};
ghost use Rattle.std.specs.Str.{bytes_eq};
ghost use Rattle.ch_base.specs.declared.memory.Stop.TheVariants as stops;
ghost use Rattle.ch_watch.specs.Same.{same_node as same_node_of};
ghost use Rattle.ch_model.specs.HostState.{Socket};
ghost use Rattle.ch_model.specs.HostSteps.{is_socket, link_with, own_address, after_steps};
ghost use Rattle.ch_model.specs.HostItems.{is_mismatch, refusal_of, asks_link as asks_link_of, reads_request as reads_request_of, heard_answer, reads_on as reads_on_of, reads_other as reads_other_of, reads as reads_of};
ghost use Rattle.ch_model.specs.Host.{front_of, handles as handles_of, host_next};
ghost use Rattle.ch_endpoint.specs.Calls.{Stops};
ghost use Rattle.ch_endpoint.specs.Taking.{peer_host_of, handled};
ghost use Rattle.ch_endpoint.specs.ReadySets.{ready_in};

use crate::acts::{followed, one};
use crate::state::State;
use ch_base::{Address, OutOfMemory, Stop};
use ch_link::{LinkAnswer, LinkIn};
use ch_model::Step;
use ch_reader::{Front, Item};
use ch_wire::{Answer, Request};
use std::alloc::Global;

/// An answer as a link hears it.
fn heard(answer: Answer) -> LinkAnswer
    ensures { result ≡ heard_answer answer }
{
    match answer {
        Answer::Accepted => LinkAnswer::Accepted,
        Answer::Invalid => LinkAnswer::Invalid,
        Answer::Crossed => LinkAnswer::Crossed,
        Answer::Mismatch => LinkAnswer::Mismatch,
    }
}

impl State {
    /// Whether peers of this host text are taken here.
    fn takes_host(&self, host: &[u8]) -> bool
        ensures { result ≡ list_any (λ own. bytes_eq host.now own) self.now.circle }
    {
        self.circle.iter().any(|own| host == own.as_slice())
    }

    /// Whether this is the address of the host's own endpoint of this number.
    #[tactic(auto, unfolding(ch_watch::specs::Same::same_node))]
    fn is_own(&self, peer: &Address, end: u32) -> bool
        ensures { result ≡ same_node_of peer.now (own_address self.now end) }
    {
        peer.host.as_slice() == self.host.as_slice() && peer.port == self.port && peer.id == end
    }

    /// Whether the host texts of a request differ, or the peer's isn't taken here, or the address is the
    /// target's own.
    fn is_mismatch(&self, sock: u64, target: u32, peer: &Address) -> bool
        ensures { result ≡ is_mismatch self.now (peer_host_of (find (is_socket sock) self.now.sockets)) target peer.now }
    {
        match self.sockets.get(sock) {
            None => true,
            Some(socket) => {
                !socket.comes_from(peer.host.as_slice())
                    || !self.takes_host(peer.host.as_slice())
                    || self.is_own(peer, target)
            }
        }
    }

    /// The answer to a request that the checks ahead of the link table give.
    fn refusal(&self, sock: u64, target: u32, peer: &Address) -> Option<Answer>
        ensures { (socket : Socket) → find (is_socket sock) self.now.sockets ≡ Some socket → result ≡ refusal_of self.now socket target peer.now }
    {
        if self.is_mismatch(sock, target, peer) {
            Some(Answer::Mismatch)
        } else if self.is_open(target) {
            None
        } else {
            Some(Answer::Invalid)
        }
    }

    /// The link table decides, and the socket is for that link.
    fn asks_link(
        &mut self,
        sock: u64,
        target: u32,
        peer: &Address,
    ) -> Result<Vec<Step>, OutOfMemory>
        ensures { (socket : Socket) → find (is_socket sock) self.old.sockets ≡ Some socket → IfOk result (λ steps. asks_link_of socket target peer.now self.old ≡ Ok (steps.items, self.new)) }
    {
        let user = peer.copy()?;
        self.sockets.use_for(sock, target, user);
        self.hears(target, peer, LinkIn::Asked { sock })
    }

    /// A request is answered, or the link table decides.
    fn decides(&mut self, sock: u64, target: u32, peer: &Address) -> Result<Vec<Step>, OutOfMemory>
        ensures { (socket : Socket) → find (is_socket sock) self.old.sockets ≡ Some socket → IfOk result (λ steps. reads_request_of socket (record { target = target; from = peer.now }) self.old ≡ Ok (steps.items, self.new)) }
    {
        match self.refusal(sock, target, peer) {
            Some(answer) => self.answers_and_leaves(sock, answer),
            None => self.asks_link(sock, target, peer),
        }
    }

    /// A request was read.
    fn reads_request(&mut self, sock: u64, request: &Request) -> Result<Vec<Step>, Stop>
        ensures { (socket : Socket) → find (is_socket sock) self.old.sockets ≡ Some socket → MatchResult result (λ steps. reads_request_of socket request.now self.old ≡ Ok (steps.items, self.new)) (λ e. Stops e (reads_request_of socket request.now self.old)) }
    {
        match self.decides(sock, request.target, &request.from) {
            Ok(steps) => Ok(steps),
            Err(_) => Err(Stop::OutOfMemory),
        }
    }

    /// An item was read on a socket of the link of an endpoint with a peer.
    fn reads_on(
        &mut self,
        sock: u64,
        end: u32,
        peer: &Address,
        item: Item,
    ) -> Result<Vec<Step>, Stop>
        ensures { (socket : Socket) → find (is_socket sock) self.old.sockets ≡ Some socket → MatchResult result (λ steps. reads_on_of socket (link_with self.old end peer.now) item self.old ≡ Ok (steps.items, self.new)) (λ e. Stops e (reads_on_of socket (link_with self.old end peer.now) item self.old)) }
    {
        match item {
            Item::Request(_) => Ok(Vec::new(self.alloc())),
            Item::Answer(answer) => self.hears_read(end, peer, LinkIn::Answered(heard(answer))),
            Item::Frame(frame) => self.reads_frame(sock, end, peer, frame),
        }
    }

    /// An item that isn't a request was read on a socket.
    #[tactic(auto, using(crate::proofs::ItemsRead::other_unused, crate::proofs::ItemsRead::other_used))]
    fn reads_other(&mut self, sock: u64, item: Item) -> Result<Vec<Step>, Stop>
        ensures { (socket : Socket) → find (is_socket sock) self.old.sockets ≡ Some socket → MatchResult result (λ steps. reads_other_of socket item self.old ≡ Ok (steps.items, self.new)) (λ e. Stops e (reads_other_of socket item self.old)) }
    {
        match self.user_of(sock) {
            Err(_) => Err(Stop::OutOfMemory),
            Ok(None) => Ok(Vec::new(self.alloc())),
            Ok(Some((end, peer))) => self.reads_on(sock, end, &peer, item),
        }
    }

    /// An item was read on a socket.
    fn reads(&mut self, sock: u64, item: Item) -> Result<Vec<Step>, Stop>
        ensures { (socket : Socket) → find (is_socket sock) self.old.sockets ≡ Some socket → MatchResult result (λ steps. reads_of socket item self.old ≡ Ok (steps.items, self.new)) (λ e. Stops e (reads_of socket item self.old)) }
    {
        match item {
            Item::Request(request) => self.reads_request(sock, &request),
            Item::Answer(answer) => self.reads_other(sock, Item::Answer(answer)),
            Item::Frame(frame) => self.reads_other(sock, Item::Frame(frame)),
        }
    }

    /// An item was taken from a socket's bytes: that is told, and the item is read.
    fn takes(&mut self, sock: u64, item: Item) -> Result<Vec<Step>, Stop>
        ensures { (socket : Socket) → find (is_socket sock) self.old.sockets ≡ Some socket → MatchResult result (λ steps. after_steps (Step.Read sock ∷ []) (reads_of socket item self.old) ≡ Ok (steps.items, self.new)) (λ e. Stops e (after_steps (Step.Read sock ∷ []) (reads_of socket item self.old))) }
    {
        match self.reads(sock, item) {
            Ok(more) => match told_first(self.alloc(), sock, more) {
                Ok(steps) => Ok(steps),
                Err(_) => Err(Stop::OutOfMemory),
            },
            Err(e) => Err(e),
        }
    }

    /// What stands at the front of a socket's bytes is handled, with all that follows.
    fn handles(&mut self, sock: u64) -> Result<Vec<Step>, Stop>
        requires { ready_in (find (is_socket sock) self.old.sockets) ≡ true }
        ensures { (socket : Socket) → find (is_socket sock) self.old.sockets ≡ Some socket → MatchResult result (λ steps. handles_of socket (front_of socket) self.old ≡ Ok (steps.items, self.new)) (λ e. Stops e (handles_of socket (front_of socket) self.old)) }
    {
        match self.sockets.take(sock) {
            Err(_) => Err(Stop::OutOfMemory),
            Ok(front) => self.handles_front(sock, front),
        }
    }

    /// What was taken from the front of a socket's bytes is handled.
    fn handles_front(&mut self, sock: u64, front: Front) -> Result<Vec<Step>, Stop>
        ensures { (socket : Socket) → find (is_socket sock) self.old.sockets ≡ Some socket → MatchResult result (λ steps. handled front socket self.old ≡ Ok (steps.items, self.new)) (λ e. Stops e (handled front socket self.old)) }
    {
        match front {
            Front::Unfinished => Ok(Vec::new(self.alloc())),
            Front::Refused(_) => self.fails_at(sock),
            Front::Whole(item) => self.takes(sock, item),
        }
    }

    /// One item is handled, of the socket with the lowest number that has one.
    pub(crate) fn next(&mut self) -> Result<Option<Vec<Step>>, Stop>
        ensures { MatchResult result (λ next. host_next self.old ≡ Ok (option_map (λ steps. steps.items) next, self.new)) (λ e. Stops e (host_next self.old)) }
    {
        match self.sockets.first_ready() {
            None => Ok(None),
            Some(sock) => match self.handles(sock) {
                Ok(steps) => Ok(Some(steps)),
                Err(e) => Err(e),
            },
        }
    }
}

/// The step that tells of an item that is handled, and the steps that follow.
fn told_first(alloc: Global, sock: u64, more: Vec<Step>) -> Result<Vec<Step>, OutOfMemory>
    ensures { IfOk result (λ steps. steps.items ≡ Step.Read sock ∷ more.items) }
{
    followed(one(alloc, Step::Read { sock })?, more)
}
