//! What a host does for the acts of the link table.

ghost use Rattle.std.specs.Prelude.{◌≡◌, ◌++◌, ◌∷◌, [], true, false, map, find, Some, None, Ok, Err, IfOk, OnOk};
ghost use Rattle.ch_wire.specs.Spelling.{answer_spelling};
ghost use Rattle.ch_base.specs.declared.event.Event.TheVariants as events;
ghost use Rattle.ch_model.specs.declared.step.Step.TheVariants as steps;
ghost use Rattle.ch_base.specs.Addresses.{address_text};
ghost use Rattle.ch_link.specs.declared.LinkAct.TheVariants as acts;
ghost use Rattle.ch_model.specs.Greater.{is_greater as is_greater_of};
ghost use Rattle.ch_model.specs.HostSteps.{link_with, own_address};
ghost use Rattle.ch_endpoint.specs.Dialing.{dials, is_want_in};
ghost use Rattle.ch_model.specs.HostWrites.{end_socket as end_socket_of, leaves as leaves_of, goes_down as goes_down_of, answers_and_leaves as answers_and_leaves_of, flushes_to as flushes_to_of, frame_step as frame_step_of, leaves_off as leaves_off_of};
ghost use Rattle.ch_model.specs.HostLinks.{accepts_on as accepts_on_of, says_closed as says_closed_of, raised as raised_of, acknowledged as acknowledged_of, asked_on as asked_on_of, does_act as does_act_of, hears as hears_of};

use crate::link::{Waiting, frame_step, frame_steps};
use crate::state::State;
use ch_base::{Address, Event, OutOfMemory, Text, Why};
use ch_link::{LinkAct, LinkIn, LinkState, step};
use ch_model::{Step, Weight};
use ch_wire::{Answer, Frame, answer_bytes};
use itoa::Buffer;
use std::alloc::Global;

/// One step alone.
pub(crate) fn one(alloc: Global, step: Step) -> Result<Vec<Step>, OutOfMemory>
    ensures { IfOk result (λ steps. steps.items ≡ step ∷ []) }
{
    let mut steps = Vec::new(alloc);
    steps.push(step)?;
    Ok(steps)
}

/// Two steps.
fn two(alloc: Global, first: Step, second: Step) -> Result<Vec<Step>, OutOfMemory>
    ensures { IfOk result (λ steps. steps.items ≡ first ∷ second ∷ []) }
{
    let mut steps = Vec::new(alloc);
    steps.push(first)?;
    steps.push(second)?;
    Ok(steps)
}

/// Some steps, and then others.
pub(crate) fn followed(first: Vec<Step>, second: Vec<Step>) -> Result<Vec<Step>, OutOfMemory>
    ensures { IfOk result (λ steps. steps.items ≡ first.items ++ second.items) }
{
    let mut steps = first;
    let mut second = second;
    steps.append(&mut second)?;
    Ok(steps)
}

/// An answer, as it is written on a socket.
fn answer_step(alloc: Global, sock: u64, answer: Answer) -> Result<Step, OutOfMemory>
    ensures { IfOk result (λ step. step ≡ steps.Write sock (answer_spelling answer) None) }
{
    let bytes = answer_bytes(answer);
    Ok(Step::Write {
        sock,
        bytes: Text::of(alloc, &bytes)?,
        said: None,
    })
}

/// A frame that carries no payload, as it is written on a socket.
fn bare_step(alloc: Global, sock: u64, item: Waiting) -> Result<Vec<Step>, OutOfMemory>
    ensures { IfOk result (λ steps. steps.items ≡ frame_step_of sock item ∷ []) }
{
    one(alloc, frame_step(alloc, sock, &item)?)
}

/// The socket that an input asks on.
fn asked_on(input: LinkIn) -> u64
    ensures { result ≡ asked_on_of input }
{
    match input {
        LinkIn::Asked { sock } => sock,
        _ => 0,
    }
}

impl State {
    pub(crate) fn alloc(&self) -> Global {
        self.host.allocator()
    }

    /// An end that wasn't up is closed.
    pub(crate) fn leaves(&mut self, sock: u64) -> Result<Vec<Step>, OutOfMemory>
        ensures does { IfOk result (λ steps. leaves_of sock self.old ≡ Ok (steps.items, self.new)) }
        ensures links { OnOk result (self.new.links ≡ self.old.links) }
    {
        self.sockets.end(sock);
        one(self.alloc(), Step::Left { sock })
    }

    /// An end that was up is closed.
    fn goes_down(&mut self, sock: u64) -> Result<Vec<Step>, OutOfMemory>
        ensures does { IfOk result (λ steps. goes_down_of sock self.old ≡ Ok (steps.items, self.new)) }
        ensures links { OnOk result (self.new.links ≡ self.old.links) }
    {
        self.sockets.end(sock);
        one(self.alloc(), Step::Down { sock })
    }

    /// A request is answered, and its socket is closed.
    pub(crate) fn answers_and_leaves(
        &mut self,
        sock: u64,
        answer: Answer,
    ) -> Result<Vec<Step>, OutOfMemory>
        ensures { IfOk result (λ steps. answers_and_leaves_of sock answer self.old ≡ Ok (steps.items, self.new)) }
    {
        let written = answer_step(self.alloc(), sock, answer)?;
        self.sockets.end(sock);
        two(self.alloc(), written, Step::Left { sock })
    }

    /// What waits on a link is written on its socket, and waits no more.
    fn flushes_to(&mut self, sock: u64, end: u32, peer: &Address) -> Result<Vec<Step>, OutOfMemory>
        ensures { IfOk result (λ steps. flushes_to_of sock (link_with self.old end peer.now) self.old ≡ Ok (steps.items, self.new)) }
    {
        let items = self.links.take_waits(end, peer)?;
        frame_steps(self.alloc(), sock, items.as_slice())
    }

    /// The link came up on a socket where it was asked.
    fn accepts_on(&mut self, sock: u64, end: u32, peer: &Address) -> Result<Vec<Step>, OutOfMemory>
        ensures { IfOk result (λ steps. accepts_on_of sock (link_with self.old end peer.now) self.old ≡ Ok (steps.items, self.new)) }
    {
        let answer = answer_step(self.alloc(), sock, Answer::Accepted)?;
        let first = two(self.alloc(), Step::Up { sock }, answer)?;
        followed(first, self.flushes_to(sock, end, peer)?)
    }

    /// The node is told that its link with the peer has failed.
    fn fails_with(&self, end: u32, peer: &Address, why: Why) -> Result<Vec<Step>, OutOfMemory>
        ensures { IfOk result (λ told. told.items ≡ steps.Broke end peer.now why ∷ steps.Post end (events.ConnectionLost peer.now why) ∷ []) }
    {
        let broke = Step::Broke {
            end,
            peer: peer.copy()?,
            why,
        };
        let event = Event::ConnectionLost {
            peer: peer.copy()?,
            why,
        };
        two(self.alloc(), broke, Step::Post { end, event })
    }

    /// EndClosed is written on the socket that the link was up on.
    fn says_closed(&self, old: LinkState) -> Result<Vec<Step>, OutOfMemory>
        ensures { IfOk result (λ steps. says_closed_of old self.now ≡ Ok (steps.items, self.now)) }
    {
        match old {
            LinkState::Up { sock, .. } => {
                let item = Waiting {
                    frame: Frame::EndClosed,
                    weight: Weight::Free,
                };
                bare_step(self.alloc(), sock, item)
            }
            _ => Ok(Vec::new(self.alloc())),
        }
    }

    /// A probe is acknowledged on the socket that the link is up on.
    fn acknowledged(&self, state: LinkState) -> Result<Vec<Step>, OutOfMemory>
        ensures { IfOk result (λ steps. acknowledged_of state self.now ≡ Ok (steps.items, self.now)) }
    {
        match state {
            LinkState::Up { sock, .. } => {
                let item = Waiting {
                    frame: Frame::ProbeAck,
                    weight: Weight::Free,
                };
                bare_step(self.alloc(), sock, item)
            }
            _ => Ok(Vec::new(self.alloc())),
        }
    }

    /// The socket that the link was up on goes down, and one that it was dialing is left.
    fn leaves_off(&mut self, old: LinkState) -> Result<Vec<Step>, OutOfMemory>
        ensures does { IfOk result (λ steps. leaves_off_of old self.old ≡ Ok (steps.items, self.new)) }
        ensures links { OnOk result (self.new.links ≡ self.old.links) }
    {
        match old {
            LinkState::Up { sock, .. } => self.goes_down(sock),
            LinkState::Dialing { sock } => self.leaves(sock),
            _ => Ok(Vec::new(self.alloc())),
        }
    }

    /// The dialed socket is up.
    fn raised(
        &mut self,
        state: LinkState,
        end: u32,
        peer: &Address,
    ) -> Result<Vec<Step>, OutOfMemory>
        ensures { IfOk result (λ steps. raised_of state (link_with self.old end peer.now) self.old ≡ Ok (steps.items, self.new)) }
    {
        match state {
            LinkState::Up { sock, .. } => {
                let up = one(self.alloc(), Step::Up { sock })?;
                followed(up, self.flushes_to(sock, end, peer)?)
            }
            _ => Ok(Vec::new(self.alloc())),
        }
    }

    /// A link that has failed: its socket is left, what it kept is forgotten, and the node is told.
    fn fails(
        &mut self,
        end: u32,
        peer: &Address,
        old: LinkState,
        why: Why,
        input: LinkIn,
    ) -> Result<Vec<Step>, OutOfMemory>
        ensures { IfOk result (λ steps. does_act_of (acts.Fail why) old input (link_with self.old end peer.now) self.old ≡ Ok (steps.items, self.new)) }
    {
        let first = self.leaves_off(old)?;
        self.links.forget(end, peer)?;
        let told = self.fails_with(end, peer, why)?;
        let steps = followed(first, told)?;
        Ok(steps)
    }

    /// A link that is shut: that is said on the socket that it was up on, its socket is left, and what it kept
    /// is forgotten.
    fn shuts(
        &mut self,
        end: u32,
        peer: &Address,
        old: LinkState,
        input: LinkIn,
    ) -> Result<Vec<Step>, OutOfMemory>
        ensures { IfOk result (λ steps. does_act_of acts.Close old input (link_with self.old end peer.now) self.old ≡ Ok (steps.items, self.new)) }
    {
        let said = self.says_closed(old)?;
        let left = self.leaves_off(old)?;
        self.links.forget(end, peer)?;
        let steps = followed(said, left)?;
        Ok(steps)
    }

    /// The link leaves its own socket, and takes the one that asks.
    fn leaves_and_accepts(
        &mut self,
        end: u32,
        peer: &Address,
        own: u64,
        old: LinkState,
        input: LinkIn,
    ) -> Result<Vec<Step>, OutOfMemory>
        ensures { IfOk result (λ steps. does_act_of (acts.LeaveAndAccept own) old input (link_with self.old end peer.now) self.old ≡ Ok (steps.items, self.new)) }
    {
        let first = self.leaves(own)?;
        let more = self.accepts_on(asked_on(input), end, peer)?;
        let steps = followed(first, more)?;
        Ok(steps)
    }

    /// The socket that asks is crossed, and the old one is probed.
    fn crosses_and_probes(
        &mut self,
        end: u32,
        peer: &Address,
        up: u64,
        old: LinkState,
        input: LinkIn,
    ) -> Result<Vec<Step>, OutOfMemory>
        ensures { IfOk result (λ steps. does_act_of (acts.CrossAndProbe up) old input (link_with self.old end peer.now) self.old ≡ Ok (steps.items, self.new)) }
    {
        let first = self.answers_and_leaves(asked_on(input), Answer::Crossed)?;
        let item = Waiting {
            frame: Frame::Probe,
            weight: Weight::Free,
        };
        followed(first, bare_step(self.alloc(), up, item)?)
    }

    /// The act of the table, of a link that is in its new state already, and was in that old one.
    fn does_act(
        &mut self,
        end: u32,
        peer: &Address,
        act: LinkAct,
        old: LinkState,
        input: LinkIn,
    ) -> Result<Vec<Step>, OutOfMemory>
        requires { dials act ≡ false }
        ensures { IfOk result (λ steps. does_act_of act old input (link_with self.old end peer.now) self.old ≡ Ok (steps.items, self.new)) }
    {
        match act {
            LinkAct::Nothing | LinkAct::Dial => Ok(Vec::new(self.alloc())),
            LinkAct::Accept => self.accepts_on(asked_on(input), end, peer),
            LinkAct::Cross => self.answers_and_leaves(asked_on(input), Answer::Crossed),
            LinkAct::LeaveAndAccept { own } => self.leaves_and_accepts(end, peer, own, old, input),
            LinkAct::CrossAndProbe { old: up } => self.crosses_and_probes(
                end, peer, up, old, input,
            ),
            LinkAct::Raise => self.raised(self.state_with(end, peer), end, peer),
            LinkAct::Leave { own } => self.leaves(own),
            LinkAct::Fail(why) => self.fails(end, peer, old, why, input),
            LinkAct::Acknowledge => self.acknowledged(self.state_with(end, peer)),
            LinkAct::Close => self.shuts(end, peer, old, input),
        }
    }

    /// The text of the address of an endpoint.
    pub(crate) fn own_text(&self, end: u32) -> Result<Vec<u8>, OutOfMemory>
        ensures { IfOk result (λ text. text.items ≡ address_text (own_address self.now end)) }
    {
        let mut digits = Buffer::new();
        let mut text = Vec::from_slice(self.alloc(), self.host.as_slice())?;
        text.push(b':')?;
        text.extend_from_slice(digits.format(self.port).as_bytes())?;
        text.push(b':')?;
        text.extend_from_slice(digits.format(end).as_bytes())?;
        Ok(text)
    }

    /// Whether the address of an endpoint is greater than its peer's.
    fn is_greater(&self, end: u32, peer: &Address) -> Result<bool, OutOfMemory>
        ensures { IfOk result (λ greater. greater ≡ is_greater_of (own_address self.now end) peer.now) }
    {
        let own = self.own_text(end)?;
        let text = peer.text()?;
        Ok(own.as_slice().cmp(text.as_slice()).is_gt())
    }

    /// The link of an endpoint with a peer hears an input: the table gives its new state and the act.
    pub(crate) fn hears(
        &mut self,
        end: u32,
        peer: &Address,
        input: LinkIn,
    ) -> Result<Vec<Step>, OutOfMemory>
        requires { is_want_in input ≡ false }
        ensures { IfOk result (λ steps. hears_of input (link_with self.old end peer.now) self.old ≡ Ok (steps.items, self.new)) }
    {
        let old = self.state_with(end, peer);
        let greater = self.is_greater(end, peer)?;
        let (now, act) = step(old, input, greater);
        self.links.set_state(end, peer, now)?;
        let steps = self.does_act(end, peer, act, old, input)?;
        Ok(steps)
    }
}
