//! A pair of a sending process and a target.

ghost use Rattle.std.specs.Prelude.{◌≡◌, IfOk, MatchResult, Ok};
ghost use Rattle.ch_model.specs.NodePairs.{is_pair as is_pair_of, new_pair, conn_by as conn_by_of, closed_by as closed_by_of, next_epoch as next_epoch_of, broken as broken_of, lost_pair as lost_pair_of};
ghost use Rattle.ch_model.specs.NodeRoom.{is_broken};
ghost use Rattle.ch_node.specs.Calls.{Halts};
ghost use Rattle.ch_node.specs.Stages.{mark_of};

use crate::halt::Halt;
use crate::ids::target_at;
use crate::same::{same_node, same_target};
use crate::state::growing;
use ch_base::{Address, OutOfMemory};
use ch_static::Target;
use std::marker::Model;

/// What becomes of a pair's messages.
#[derive(Clone, Copy, Debug, PartialEq, Eq)]
pub enum Stage {
    /// No connection is opened.
    Unopened,
    /// They go on this connection.
    Opened { conn: u64 },
    /// The link broke, and they go nowhere until the pair reconnects.
    Broken,
}

/// A sending process and a target. Contracts see the model's pair.
#[derive(Debug, Drop)]
pub struct Pair {
    /// The process, by its number.
    pub by: u32,
    pub to: Target,
    pub epoch: u64,
    /// The index of the next message in the epoch.
    pub index: u64,
    pub stage: Stage,
}

impl Model for Pair {
    ghost use Rattle.ch_model.specs.NodeState.{Pair as PairValue};
    ghost use Rattle.ch_node.specs.Stages.{mark_of};

    ghost Value = { PairValue };

    ghost view = { λ p. record { by = p.by; to = p.to; epoch = p.epoch; index = p.index; mark = mark_of p.stage } };
}

impl Pair {
    /// A pair that has said nothing.
    pub fn new(by: u32, to: Target) -> Pair
        ensures { result ≡ new_pair by to }
    {
        Pair {
            by,
            to,
            epoch: 0,
            index: 0,
            stage: Stage::Unopened,
        }
    }

    /// An equal pair.
    pub fn copy(&self) -> Result<Pair, OutOfMemory>
        ensures { IfOk result (λ pair. pair ≡ self.now) }
    {
        Ok(Pair {
            by: self.by,
            to: self.to.copy()?,
            epoch: self.epoch,
            index: self.index,
            stage: self.stage,
        })
    }

    /// Whether its messages go nowhere.
    pub fn is_broken(&self) -> bool
        ensures { result ≡ is_broken self.now.mark }
    {
        match self.stage {
            Stage::Broken => true,
            Stage::Unopened => false,
            Stage::Opened { .. } => false,
        }
    }

    /// Whether it is the pair of this process and this target.
    #[tactic(auto, unfolding(ch_model::specs::NodePairs::is_pair))]
    pub fn is_of(&self, by: u32, to: &Target) -> bool
        ensures { result ≡ is_pair_of by to.now self.now }
    {
        self.by == by && same_target(&self.to, to)
    }

    /// Its connection, where it is of this process and has one.
    pub fn conn_by(&self, by: u32) -> Option<u64>
        ensures { result ≡ conn_by_of by self.now }
    {
        if self.by != by {
            return None;
        }
        match self.stage {
            Stage::Opened { conn } => Some(conn),
            Stage::Unopened => None,
            Stage::Broken => None,
        }
    }

    /// All connections of a process are closed.
    pub fn close_by(&mut self, by: u32)
        ensures { self.new ≡ closed_by_of by self.old }
    {
        if self.by != by {
            return;
        }
        match self.stage {
            Stage::Opened { .. } => self.stage = Stage::Unopened,
            Stage::Unopened => {}
            Stage::Broken => {}
        }
    }

    /// The pair in its next epoch, without a connection.
    #[tactic(auto, unfolding(ch_model::specs::NodePairs::next_epoch))]
    pub fn next_epoch(&self) -> Result<Pair, Halt>
        ensures { MatchResult result (λ next. next_epoch_of self.now ≡ Ok next) (λ e. Halts e (next_epoch_of self.now)) }
    {
        let epoch = growing(self.epoch)?;
        Ok(Pair {
            by: self.by,
            to: self.to.copy()?,
            epoch: epoch + 1,
            index: 0,
            stage: Stage::Unopened,
        })
    }

    /// Its next epoch begins, without a connection.
    #[tactic(auto, unfolding(ch_model::specs::NodePairs::next_epoch))]
    fn renew(&mut self) -> Result<(), Halt>
        ensures lost { MatchResult result (λ _. next_epoch_of self.old ≡ Ok self.new) (λ e. Halts e (next_epoch_of self.old)) }
        ensures key { (self.new.by ≡ self.old.by) × (self.new.to ≡ self.old.to) }
    {
        self.epoch = growing(self.epoch)? + 1;
        self.index = 0;
        self.stage = Stage::Unopened;
        Ok(())
    }

    /// The link of its open connection failed: it is broken, and where it goes to a name its next
    /// epoch begins.
    fn fail(&mut self) -> Result<(), Halt>
        ensures lost { MatchResult result (λ _. broken_of self.old self.old.to ≡ Ok self.new) (λ e. Halts e (broken_of self.old self.old.to)) }
        ensures key { (self.new.by ≡ self.old.by) × (self.new.to ≡ self.old.to) }
    {
        match &self.to {
            Target::Named { .. } => self.renew(),
            Target::Process(_) => {
                self.stage = Stage::Broken;
                Ok(())
            }
            Target::Port(_) => {
                self.stage = Stage::Broken;
                Ok(())
            }
        }
    }

    /// The link with a peer failed. It takes no memory.
    #[tactic(auto, unfolding(ch_model::specs::NodePairs::lost_pair))]
    pub fn lose(&mut self, peer: &Address) -> Result<(), Halt>
        ensures lost { MatchResult result (λ _. lost_pair_of peer.now self.old ≡ Ok self.new) (λ e. Halts e (lost_pair_of peer.now self.old)) }
        ensures key { (self.new.by ≡ self.old.by) × (self.new.to ≡ self.old.to) }
    {
        if !same_node(target_at(&self.to), peer) {
            return Ok(());
        }
        match self.stage {
            Stage::Opened { .. } => self.fail(),
            Stage::Unopened => Ok(()),
            Stage::Broken => Ok(()),
        }
    }
}
