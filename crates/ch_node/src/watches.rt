//! Which monitors and links are open, and how they are told.

ghost use Rattle.std.specs.Prelude.{◌≡◌, ◌∷◌, [], IfOk, MatchResult, MatchOption, IfNone, Ok, Err, Some, None};
ghost use Rattle.ch_model.specs.declared.act.Act.TheVariants.{Note as NoteAct};
ghost use Rattle.ch_model.specs.declared.note.Note.TheVariants.{Told};
ghost use Rattle.ch_model.specs.NodeWatches.{answers as answers_of, is_awaited as is_awaited_of, closing as closing_of, monitor_told as monitor_told_of, link_told as link_told_of, told_as as told_as_of, told as told_of, tell_end as tell_end_of};
ghost use Rattle.ch_node.specs.Calls.{Halts};

use crate::acts::{Outcome, joined, noted};
use crate::halt::Halt;
use crate::lives::link_text;
use crate::spelled::{died_body, own_mark};
use crate::state::State;
use ch_base::OutOfMemory;
use ch_ident::{NodeMessage, Reason, Ref};
use ch_model::{Note, Weight};
use ch_watch::{Kind, Waiting};

/// Whether an answer for a number of the first kind is one for the second.
fn answers(asked: Kind, kind: Kind) -> bool
    ensures { result ≡ answers_of asked kind }
{
    match asked {
        Kind::Spawn => match kind {
            Kind::Spawn => true,
            _ => false,
        },
        Kind::Ask => match kind {
            Kind::Ask => true,
            _ => false,
        },
        Kind::Monitor => match kind {
            Kind::Monitor | Kind::Link => true,
            Kind::Spawn | Kind::Ask => false,
        },
        Kind::Link => match kind {
            Kind::Monitor | Kind::Link => true,
            Kind::Spawn | Kind::Ask => false,
        },
    }
}

impl State {
    #[tactic(auto, unfolding(ch_model::specs::NodeWatches::is_awaited))]
    fn is_awaited(&self, kind: Kind, number: u32) -> bool
        ensures { result ≡ is_awaited_of self.now.watches kind number }
    {
        match self.watches.open(number) {
            None => false,
            Some(waiting) => answers(kind, waiting.kind),
        }
    }

    /// An answer closes the number of this node that it is for, where that is open and of its kind.
    #[tactic(auto, unfolding(ch_model::specs::NodeWatches::closing))]
    pub(crate) fn closing(&mut self, kind: Kind, asked: &Ref) -> Option<Waiting>
        ensures closed { MatchOption result (closing_of self.old kind asked.now ≡ None) (λ closed. closing_of self.old kind asked.now ≡ Some (closed, self.new)) }
        ensures left { IfNone result (self.new ≡ self.old) }
    {
        if !self.is_here(&asked.node) || !self.is_awaited(kind, asked.number) {
            return None;
        }
        match self.watches.told(asked.number) {
            Err(_) => None,
            Ok(closed) => Some(closed),
        }
    }

    fn note_told(&self, watch: &Ref, reason: &Reason) -> Result<Outcome, OutOfMemory>
        ensures { IfOk result (λ acts. acts.items ≡ NoteAct (Told watch.now reason.now) ∷ []) }
    {
        noted(
            self.alloc(),
            Note::Told {
                watch: watch.copy()?,
                reason: reason.copy()?,
            },
        )
    }

    /// The owner of a monitor gets a message.
    #[tactic(auto, unfolding(ch_model::specs::NodeWatches::monitor_told))]
    fn monitor_told(&mut self, watch: &Ref, reason: &Reason, owner: u32) -> Result<Outcome, Halt>
        ensures { MatchResult result (λ acts. monitor_told_of self.old watch.now reason.now owner ≡ Ok (acts.items, self.new)) (λ e. Halts e (monitor_told_of self.old watch.now reason.now owner)) }
    {
        let alloc = self.alloc();
        let mark = own_mark(alloc, b"$died")?;
        let body = died_body(alloc, watch, reason)?;
        self.mail_to(owner, mark, body)?;
        Ok(self.note_told(watch, reason)?)
    }

    /// The owner of a link is doomed.
    #[tactic(auto, unfolding(ch_model::specs::NodeWatches::link_told))]
    fn link_told(&mut self, watch: &Ref, reason: &Reason, owner: u32) -> Result<Outcome, Halt>
        ensures { MatchResult result (λ acts. link_told_of self.old watch.now reason.now owner ≡ Ok (acts.items, self.new)) (λ e. Halts e (link_told_of self.old watch.now reason.now owner)) }
    {
        let acts = self.note_told(watch, reason)?;
        let text = link_text(self.alloc(), reason)?;
        let doomed = self.doom(owner, text)?;
        Ok(joined(acts, doomed)?)
    }

    /// A watch that is closed is told, by its kind.
    pub(crate) fn told_as(
        &mut self,
        kind: Kind,
        watch: &Ref,
        reason: &Reason,
        owner: u32,
    ) -> Result<Outcome, Halt>
        ensures { MatchResult result (λ acts. told_as_of kind self.old watch.now reason.now owner ≡ Ok (acts.items, self.new)) (λ e. Halts e (told_as_of kind self.old watch.now reason.now owner)) }
    {
        match kind {
            Kind::Monitor => self.monitor_told(watch, reason, owner),
            Kind::Link => self.link_told(watch, reason, owner),
            Kind::Spawn => Ok(Vec::new(self.alloc())),
            Kind::Ask => Ok(Vec::new(self.alloc())),
        }
    }

    /// The end of its target closes a watch of this node and is told to its owner.
    #[tactic(auto, unfolding(ch_model::specs::NodeWatches::told))]
    pub(crate) fn told(&mut self, watch: &Ref, reason: &Reason) -> Result<Outcome, Halt>
        ensures { MatchResult result (λ acts. told_of self.old watch.now reason.now ≡ Ok (acts.items, self.new)) (λ e. Halts e (told_of self.old watch.now reason.now)) }
    {
        match self.closing(Kind::Monitor, watch) {
            None => Ok(Vec::new(self.alloc())),
            Some(closed) => self.told_as(closed.kind, watch, reason, closed.owner),
        }
    }

    /// The watcher's node is told of an end, be it this one or another.
    #[tactic(auto, unfolding(ch_model::specs::NodeWatches::tell_end))]
    pub(crate) fn tell_end(&mut self, watch: &Ref, reason: &Reason) -> Result<Outcome, Halt>
        ensures { MatchResult result (λ acts. tell_end_of self.old watch.now reason.now ≡ Ok (acts.items, self.new)) (λ e. Halts e (tell_end_of self.old watch.now reason.now)) }
    {
        if self.is_here(&watch.node) {
            self.told(watch, reason)
        } else {
            let said = NodeMessage::Died {
                watch: watch.copy()?,
                reason: reason.copy()?,
            };
            self.tell_node(&watch.node, &said, Weight::Free)
        }
    }
}
