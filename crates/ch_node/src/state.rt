//! What a node keeps.

ghost use Rattle.std.specs.Prelude.{◌≡◌, ◌<◌, ◌+◌, ◌^◌, MatchResult, IfOk, Ok, Err, Some, None};
ghost use Rattle.std.specs.Option.{option_copied};
ghost use Rattle.ch_mail.specs.Mail.{life_of, waiting_of};
ghost use Rattle.ch_model.specs.Node.{node_new, node_life, node_waiting, node_args};
ghost use Rattle.ch_model.specs.NodeActs.{growing as growing_of};
ghost use Rattle.ch_model.specs.NodeLives.{make as make_of};
ghost use Rattle.ch_node.specs.Calls.{Halts};

use crate::acts::{Outcome, noted};
use crate::halt::Halt;
use crate::incoming::Incoming;
use crate::pairs::Pairs;
use ch_base::{Address, Text};
use ch_mail::{Life, Mail};
use ch_model::{Note, Origin};
use ch_static::Table;
use ch_watch::Watches;
use std::alloc::Global;
use std::marker::Model;

/// A node's processes, what they have said and where, and what arrives. Contracts see the model's
/// node.
#[derive(Drop)]
pub(crate) struct State {
    pub(crate) own: Address,
    pub(crate) unique: u32,
    pub(crate) labels: Table,
    pub(crate) is_shut: bool,
    pub(crate) mail: Mail,
    pub(crate) args: Vec<Text>,
    pub(crate) watches: Watches,
    pub(crate) pairs: Pairs,
    pub(crate) opened: u64,
    pub(crate) to_nodes: Vec<(Address, u64)>,
    pub(crate) arrived: Incoming,
}

impl Model for State {
    ghost use Rattle.ch_model.specs.NodeState.{NodeState};

    ghost Value = { NodeState };

    ghost view = { λ n. record { own = n.own; unique = n.unique; labels = n.labels; is_shut = n.is_shut; mail = n.mail; args = n.args.items; watches = n.watches; pairs = n.pairs; opened = n.opened; to_nodes = n.to_nodes.items; arrived = n.arrived } };
}

/// A count that isn't its type's last.
#[tactic(auto, unfolding(ch_model::specs::NodeActs::growing))]
pub(crate) fn growing(count: u64) -> Result<u64, Halt>
    ensures is { MatchResult result (λ n. growing_of count ≡ Ok n) (λ e. Halts e (growing_of count)) }
    ensures same { IfOk result (λ n. n ≡ count) }
    ensures small { IfOk result (λ n. n + 1 < 2 ^ 64) }
{
    if count < u64::MAX {
        Ok(count)
    } else {
        Err(Halt::Worn)
    }
}

impl State {
    /// A node that has made no process. It takes no memory.
    #[tactic(auto, unfolding(ch_model::specs::Node::node_new))]
    pub(crate) fn new(alloc: Global, own: Address, unique: u32, labels: Table) -> State
        ensures { result ≡ node_new own unique labels }
    {
        State {
            own,
            unique,
            labels,
            is_shut: false,
            mail: Mail::new(alloc),
            args: Vec::new(alloc),
            watches: Watches::new(alloc),
            pairs: Pairs::new(alloc),
            opened: 0,
            to_nodes: Vec::new(alloc),
            arrived: Incoming::new(alloc),
        }
    }

    /// Where the node's memory is from.
    pub(crate) fn alloc(&self) -> Global {
        self.own.host.allocator()
    }

    /// The life of a process, where it was made.
    #[tactic(auto, unfolding(ch_model::specs::Node::node_life))]
    pub(crate) fn life(&self, process: u32) -> Option<&Life>
        ensures { option_copied result ≡ node_life self.now process }
    {
        self.mail.life(process)
    }

    /// How many messages wait for a process.
    #[tactic(auto, unfolding(ch_model::specs::Node::node_waiting))]
    pub(crate) fn waiting(&self, process: u32) -> usize
        ensures { result ≡ node_waiting self.now process }
    {
        self.mail.waiting(process)
    }

    /// What a process was given when it was spawned.
    #[tactic(auto, unfolding(ch_model::specs::Node::node_args))]
    pub(crate) fn args(&self, process: u32) -> &[u8]
        ensures { result.now ≡ node_args self.now process }
    {
        match self.args.get(process as usize) {
            None => &[],
            Some(args) => args.as_slice(),
        }
    }

    /// A process is made, by a spawn or by none.
    #[tactic(auto, unfolding(ch_model::specs::NodeLives::make))]
    pub(crate) fn make(&mut self, origin: Option<Origin>, args: Text) -> Result<Outcome, Halt>
        ensures { MatchResult result (λ acts. make_of self.old origin args ≡ Ok (acts.items, self.new)) (λ e. Halts e (make_of self.old origin args)) }
    {
        let counter = self.mail.make()?;
        self.args.push(args)?;
        let process = self.id(counter)?;
        Ok(noted(self.alloc(), Note::Made { process, origin })?)
    }
}
