//! How a process of a node is over, and what goes with it.

ghost use Rattle.std.specs.Prelude.{◌≡◌, map, MatchResult, IfOk, Ok};
ghost use Rattle.ch_model.specs.declared.act.Act.TheVariants.{Close as CloseAct};
ghost use Rattle.ch_mail.specs.Mail.{end_of};
ghost use Rattle.ch_model.specs.NodeActs.{after, each_in_turn, or_unchanged};
ghost use Rattle.ch_model.specs.NodePairs.{closed_pairs};
ghost use Rattle.ch_model.specs.NodeEnds.{fallen as fallen_of, farewell as farewell_of, over as over_of};
ghost use Rattle.ch_model.specs.NodeWatches.{tell_end as tell_end_of};
ghost use Rattle.ch_node.specs.Calls.{Halts};

use crate::acts::{Outcome, joined, noted};
use crate::halt::Halt;
use crate::state::State;
use ch_base::OutOfMemory;
use ch_ident::{Name, Reason, Ref};
use ch_mail::MailError;
use ch_model::{Act, Note};
use ch_watch::Ending;
use std::alloc::Global;

/// These connections are closed.
fn closing_acts(alloc: Global, conns: &[u64]) -> Result<Outcome, OutOfMemory>
    ensures { IfOk result (λ acts. acts.items ≡ map (λ conn. CloseAct conn) conns.now) }
{
    let mut acts = Vec::new(alloc);
    for conn in conns {
        acts.push(Act::Close { conn: *conn })?;
    }
    Ok(acts)
}

impl State {
    fn name_falls(&self, name: &Name) -> Result<Act, OutOfMemory>
        ensures { IfOk result (λ act. act ≡ fallen_of self.now name.now) }
    {
        Ok(Act::Note(Note::Named {
            node: self.own.copy()?,
            name: name.copy()?,
            process: None,
        }))
    }

    /// These names of the node fall away.
    fn names_fall(&self, names: &[Name]) -> Result<Outcome, OutOfMemory>
        ensures { IfOk result (λ acts. acts.items ≡ map (fallen_of self.now) names.now) }
    {
        let mut acts = Vec::new(self.alloc());
        for name in names {
            acts.push(self.name_falls(name)?)?;
        }
        Ok(acts)
    }

    /// What is told of a process that is over and of its names, and which connections are closed.
    #[tactic(auto, unfolding(ch_model::specs::NodeEnds::farewell))]
    fn farewell(&self, number: u32, reason: &Reason, names: &[Name]) -> Result<Outcome, OutOfMemory>
        ensures { IfOk result (λ acts. acts.items ≡ farewell_of self.now number reason.now names.now) }
    {
        let process = self.id(number)?;
        let over = noted(
            self.alloc(),
            Note::Over {
                process,
                reason: reason.copy()?,
            },
        )?;
        let fallen = self.names_fall(names)?;
        let conns = self.pairs.conns_by(self.alloc(), number)?;
        let closed = closing_acts(self.alloc(), &conns)?;
        joined(over, joined(fallen, closed)?)
    }

    /// Its watchers are told of an end, in order.
    fn tell_ends(&mut self, watches: &[Ref], reason: &Reason) -> Result<Outcome, Halt>
        ensures { MatchResult result (λ acts. each_in_turn (λ watch m. tell_end_of m watch reason.now) watches.now self.old ≡ Ok (acts.items, self.new)) (λ e. Halts e (each_in_turn (λ watch m. tell_end_of m watch reason.now) watches.now self.old)) }
    {
        let mut acts = Vec::new(self.alloc());
        for watch in watches {
            let mut told = self.tell_end(watch, reason)?;
            acts.append(&mut told)?;
        }
        Ok(acts)
    }

    fn end_mail(&mut self, number: u32, reason: Reason) -> Result<(), Halt>
        ensures { MatchResult result (λ _. (or_unchanged self.old.mail (end_of self.old.mail number reason) ≡ Ok self.new.mail) × (self.new ≡ record self.old { mail = self.new.mail })) (λ e. Halts e (or_unchanged self.old.mail (end_of self.old.mail number reason))) }
    {
        match self.mail.end(number, reason) {
            Ok(()) => Ok(()),
            Err(MailError::NotLive) => Ok(()),
            Err(MailError::Empty) => Ok(()),
            Err(MailError::OutOfMemory) => Err(Halt::OutOfMemory),
            Err(MailError::Worn) => Err(Halt::Worn),
        }
    }

    /// What is told of a process that is over, and to its watchers in order of arrival; its connections
    /// are closed.
    fn end_told(&mut self, number: u32, reason: &Reason, ending: &Ending) -> Result<Outcome, Halt>
        ensures { MatchResult result (λ acts. after (farewell_of self.old number reason.now ending.now.names) (each_in_turn (λ watch m. tell_end_of m watch reason.now) ending.now.watches (record self.old { pairs = closed_pairs self.old.pairs number })) ≡ Ok (acts.items, self.new)) (λ e. Halts e (after (farewell_of self.old number reason.now ending.now.names) (each_in_turn (λ watch m. tell_end_of m watch reason.now) ending.now.watches (record self.old { pairs = closed_pairs self.old.pairs number })))) }
    {
        let names = ending.names.items.as_slice();
        let acts = self.farewell(number, reason, names)?;
        self.pairs.close_by(number);
        let watches = ending.watches.items.as_slice();
        let told = self.tell_ends(watches, reason)?;
        Ok(joined(acts, told)?)
    }

    /// A process is over, for this reason: its names fall, its connections are closed, and its
    /// watchers are told in order of arrival.
    #[tactic(auto, unfolding(ch_model::specs::NodeEnds::over))]
    pub(crate) fn over(&mut self, number: u32, reason: &Reason) -> Result<Outcome, Halt>
        ensures { MatchResult result (λ acts. over_of self.old number reason.now ≡ Ok (acts.items, self.new)) (λ e. Halts e (over_of self.old number reason.now)) }
    {
        self.end_mail(number, reason.copy()?)?;
        let ending = self.watches.ended(number)?;
        self.end_told(number, reason, &ending)
    }
}
