//! What a node makes of a message from node to node, and how a command sends one.

ghost use Rattle.std.specs.Prelude.{◌≡◌, ◌++◌, codes, is_some, MatchResult, IfOk, Ok};
ghost use Rattle.ch_static.specs.Labels.{place_of};
ghost use Rattle.ch_ident.specs.declared.reason.Reason.TheVariants.{Exception};
ghost use Rattle.ch_model.specs.NodeEnds.{over as over_of};
ghost use Rattle.ch_model.specs.NodeLives.{exit_text as exit_text_of, kill_text as kill_text_of};
ghost use Rattle.ch_model.specs.NodeMessages.{handle as handle_of, is_for_peer as is_for_peer_of, ask as ask_of};
ghost use Rattle.ch_model.specs.NodeAsks.{fail_unlabelled as fail_unlabelled_of, spawn_arrives as spawn_arrives_of};
ghost use Rattle.ch_model.specs.NodeArrivals.{from_node as from_node_of};
ghost use Rattle.ch_ident.specs.Reading.{message_of};
ghost use Rattle.ch_node.specs.Calls.{Halts};

use crate::acts::{Outcome, joined, noted};
use crate::halt::Halt;
use crate::same::same_node;
use crate::state::State;
use ch_base::{Address, OutOfMemory, Text};
use ch_ident::{IdentError, Name, NodeMessage, Reason, Ref, take_message};
use ch_model::{Note, Origin, Weight};
use ch_static::Closure;
use std::alloc::Global;

fn with_front(alloc: Global, front: &[u8], text: &Text) -> Result<Text, OutOfMemory>
    ensures { IfOk result (λ whole. whole ≡ front.now ++ text.now) }
{
    let mut whole = Vec::from_slice(alloc, front)?;
    whole.extend_from_slice(text.as_slice())?;
    Ok(Text::from_vec(whole))
}

/// The text that dooms a process that is asked to exit.
fn exit_text(alloc: Global, text: &Text) -> Result<Text, OutOfMemory>
    ensures { IfOk result (λ whole. whole ≡ exit_text_of text.now) }
{
    with_front(alloc, b"exit ", text)
}

/// The text that dooms a process that is killed.
fn kill_text(alloc: Global, text: &Text) -> Result<Text, OutOfMemory>
    ensures { IfOk result (λ whole. whole ≡ kill_text_of text.now) }
{
    with_front(alloc, b"kill ", text)
}

/// The text of the exception by which a process is over whose label is unknown.
fn unknown_label(alloc: Global) -> Result<Text, OutOfMemory>
    ensures { IfOk result (λ text. text ≡ codes "unknown label") }
{
    Text::of(alloc, b"unknown label")
}

/// Whether a peer may ask this.
#[tactic(auto, unfolding(ch_model::specs::NodeMessages::is_for_peer))]
fn is_for_peer(peer: &Address, message: &NodeMessage) -> bool
    ensures { result ≡ is_for_peer_of peer.now message.now }
{
    match message {
        NodeMessage::Monitor { watch, .. } => same_node(&watch.node, peer),
        NodeMessage::Unmonitor { watch } => same_node(&watch.node, peer),
        NodeMessage::Link { watch, .. } => same_node(&watch.node, peer),
        NodeMessage::Unlink { watch } => same_node(&watch.node, peer),
        NodeMessage::Spawn { question, .. } => same_node(&question.node, peer),
        NodeMessage::WhereIs { question, .. } => same_node(&question.node, peer),
        _ => true,
    }
}

impl State {
    /// Whether the node's table has a label.
    fn is_labelled(&self, label: &Name) -> Result<bool, OutOfMemory>
        ensures { IfOk result (λ is. is ≡ is_some (place_of self.now.labels label.now)) }
    {
        let closure = Closure {
            label: label.copy()?,
            args: Text::new(self.alloc()),
        };
        Ok(self.labels.resolve(&closure).is_ok())
    }

    /// A process is over, as its label is unknown.
    fn over_unlabelled(&mut self, number: u32) -> Result<Outcome, Halt>
        ensures { MatchResult result (λ acts. over_of self.old number (Exception (codes "unknown label")) ≡ Ok (acts.items, self.new)) (λ e. Halts e (over_of self.old number (Exception (codes "unknown label")))) }
    {
        let text = unknown_label(self.alloc())?;
        self.over(number, &Reason::Exception(text))
    }

    /// A new process is over at once where the node's table lacks its label.
    #[tactic(auto, unfolding(ch_model::specs::NodeAsks::fail_unlabelled))]
    fn fail_unlabelled(&mut self, label: &Name, number: u32) -> Result<Outcome, Halt>
        ensures { MatchResult result (λ acts. fail_unlabelled_of self.old label.now number ≡ Ok (acts.items, self.new)) (λ e. Halts e (fail_unlabelled_of self.old label.now number)) }
    {
        if self.is_labelled(label)? {
            return Ok(Vec::new(self.alloc()));
        }
        self.over_unlabelled(number)
    }

    /// A node does what a message asks, or takes the answer that it is.
    #[tactic(auto, unfolding(ch_model::specs::NodeMessages::handle))]
    pub(crate) fn handle(&mut self, message: NodeMessage) -> Result<Outcome, Halt>
        ensures { MatchResult result (λ acts. handle_of self.old message ≡ Ok (acts.items, self.new)) (λ e. Halts e (handle_of self.old message)) }
    {
        match message {
            NodeMessage::Monitor { watch, target } => self.watch_arrives(&watch, &target),
            NodeMessage::Unmonitor { watch } => Ok(self.watch_leaves(&watch)),
            NodeMessage::Link { watch, target } => self.watch_arrives(&watch, &target),
            NodeMessage::Unlink { watch } => Ok(self.watch_leaves(&watch)),
            NodeMessage::Spawn {
                question,
                label,
                args,
            } => self.spawn_arrives(&question, &label, args),
            NodeMessage::DidSpawn { question, process } => self.spawned(&question, &process),
            NodeMessage::Died { watch, reason } => self.told(&watch, &reason),
            NodeMessage::WhereIs { question, name } => self.question_arrives(&question, &name),
            NodeMessage::IsAt { question, found } => self.found(&question, found),
            NodeMessage::Exit { target, text } => {
                let whole = exit_text(self.alloc(), &text)?;
                self.doom_arrives(&target, &text, whole)
            }
            NodeMessage::Kill { target, text } => {
                let whole = kill_text(self.alloc(), &text)?;
                self.doom_arrives(&target, &text, whole)
            }
            NodeMessage::Opening { .. } => Ok(Vec::new(self.alloc())),
            NodeMessage::NamedSend { .. } => Ok(Vec::new(self.alloc())),
        }
    }

    /// A process is made for a spawn.
    #[tactic(auto, unfolding(ch_model::specs::NodeAsks::spawn_arrives))]
    fn spawn_arrives(&mut self, question: &Ref, label: &Name, args: Text) -> Result<Outcome, Halt>
        ensures { MatchResult result (λ acts. spawn_arrives_of self.old question.now label.now args ≡ Ok (acts.items, self.new)) (λ e. Halts e (spawn_arrives_of self.old question.now label.now args)) }
    {
        let counter = self.mail.make()?;
        self.args.push(args)?;
        let process = self.id(counter)?;
        let origin = Origin {
            spawn: question.copy()?,
            label: label.copy()?,
        };
        let made = noted(
            self.alloc(),
            Note::Made {
                process,
                origin: Some(origin),
            },
        )?;
        let failed = self.fail_unlabelled(label, counter)?;
        let process = self.id(counter)?;
        let told = self.tell_spawned(question, &process)?;
        Ok(joined(joined(made, failed)?, told)?)
    }

    /// A message of a command goes to another node, or is done at once where it is for this one.
    #[tactic(auto, unfolding(ch_model::specs::NodeMessages::ask))]
    pub(crate) fn ask(&mut self, at: &Address, asked: NodeMessage) -> Result<Outcome, Halt>
        ensures { MatchResult result (λ acts. ask_of self.old at.now asked ≡ Ok (acts.items, self.new)) (λ e. Halts e (ask_of self.old at.now asked)) }
    {
        if self.is_here(at) {
            self.handle(asked)
        } else {
            self.tell_node(at, &asked, Weight::Counted { said: None })
        }
    }

    /// A message of a peer's node.
    pub(crate) fn from_node(&mut self, peer: &Address, payload: &[u8]) -> Result<Outcome, Halt>
        ensures { MatchResult result (λ acts. from_node_of self.old peer.now (message_of payload.now) ≡ Ok (acts.items, self.new)) (λ e. Halts e (from_node_of self.old peer.now (message_of payload.now))) }
    {
        match take_message(self.alloc(), payload) {
            Ok(asked) => {
                if is_for_peer(peer, &asked) {
                    self.handle(asked)
                } else {
                    Ok(Vec::new(self.alloc()))
                }
            }
            Err(IdentError::OutOfMemory) => Err(Halt::OutOfMemory),
            Err(_) => Ok(Vec::new(self.alloc())),
        }
    }
}
