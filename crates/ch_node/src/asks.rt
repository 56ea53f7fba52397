//! What a node does that another, or one of its own processes, asks for, and what it makes of the
//! answers.

ghost use Rattle.std.specs.Prelude.{◌≡◌, MatchResult, Ok};
ghost use Rattle.ch_model.specs.NodeAsks.{spawned as spawned_of, tell_spawned as tell_spawned_of, found as found_of, tell_found as tell_found_of, question_arrives as question_arrives_of, doom_arrives as doom_arrives_of};
ghost use Rattle.ch_model.specs.NodeWatches.{absent as absent_of, watch_arrives as watch_arrives_of, watch_leaves as watch_leaves_of};
ghost use Rattle.ch_node.specs.Calls.{Halts};

use crate::acts::{Outcome, joined, noted};
use crate::halt::Halt;
use crate::spelled::{found_body, own_mark, spawned_body};
use crate::state::State;
use ch_base::Text;
use ch_ident::{Name, NodeMessage, ProcessId, Reason, Ref};
use ch_model::{Note, Weight};
use ch_watch::Kind;

impl State {
    /// The target of a watch isn't there.
    #[tactic(auto, unfolding(ch_model::specs::NodeWatches::absent))]
    fn absent(&mut self, watch: &Ref) -> Result<Outcome, Halt>
        ensures { MatchResult result (λ acts. absent_of self.old watch.now ≡ Ok (acts.items, self.new)) (λ e. Halts e (absent_of self.old watch.now)) }
    {
        let acts = noted(
            self.alloc(),
            Note::Absent {
                watch: watch.copy()?,
            },
        )?;
        let told = self.tell_end(watch, &Reason::UnknownId)?;
        Ok(joined(acts, told)?)
    }

    /// A watch is kept where its target was made and isn't over.
    #[tactic(auto, unfolding(ch_model::specs::NodeWatches::watch_arrives))]
    pub(crate) fn watch_arrives(&mut self, watch: &Ref, target: &ProcessId) -> Result<Outcome, Halt>
        ensures { MatchResult result (λ acts. watch_arrives_of self.old watch.now target.now ≡ Ok (acts.items, self.new)) (λ e. Halts e (watch_arrives_of self.old watch.now target.now)) }
    {
        if self.is_living(target) {
            self.watches.arrive(target.counter, watch)?;
            Ok(Vec::new(self.alloc()))
        } else {
            self.absent(watch)
        }
    }

    /// A watch is taken back.
    #[tactic(auto, unfolding(ch_model::specs::NodeWatches::watch_leaves))]
    pub(crate) fn watch_leaves(&mut self, watch: &Ref) -> Outcome
        ensures { watch_leaves_of self.old watch.now ≡ Ok (result.items, self.new) }
    {
        self.watches.forget(watch);
        Vec::new(self.alloc())
    }

    /// The answer to a spawn arrives.
    #[tactic(auto, unfolding(ch_model::specs::NodeAsks::spawned))]
    pub(crate) fn spawned(&mut self, question: &Ref, process: &ProcessId) -> Result<Outcome, Halt>
        ensures { MatchResult result (λ acts. spawned_of self.old question.now process.now ≡ Ok (acts.items, self.new)) (λ e. Halts e (spawned_of self.old question.now process.now)) }
    {
        match self.closing(Kind::Spawn, question) {
            None => Ok(Vec::new(self.alloc())),
            Some(closed) => {
                let alloc = self.alloc();
                let mark = own_mark(alloc, b"$spawned")?;
                let body = spawned_body(alloc, question, process)?;
                self.mail_to(closed.owner, mark, body)?;
                Ok(noted(
                    alloc,
                    Note::Spawned {
                        question: question.copy()?,
                        process: process.copy()?,
                    },
                )?)
            }
        }
    }

    /// The asking node is told the new id.
    #[tactic(auto, unfolding(ch_model::specs::NodeAsks::tell_spawned))]
    pub(crate) fn tell_spawned(
        &mut self,
        question: &Ref,
        process: &ProcessId,
    ) -> Result<Outcome, Halt>
        ensures { MatchResult result (λ acts. tell_spawned_of self.old question.now process.now ≡ Ok (acts.items, self.new)) (λ e. Halts e (tell_spawned_of self.old question.now process.now)) }
    {
        if self.is_here(&question.node) {
            self.spawned(question, process)
        } else {
            let said = NodeMessage::DidSpawn {
                question: question.copy()?,
                process: process.copy()?,
            };
            self.tell_node(&question.node, &said, Weight::Free)
        }
    }

    /// The answer to a question for a name arrives.
    #[tactic(auto, unfolding(ch_model::specs::NodeAsks::found))]
    pub(crate) fn found(&mut self, question: &Ref, at: Option<ProcessId>) -> Result<Outcome, Halt>
        ensures { MatchResult result (λ acts. found_of self.old question.now at ≡ Ok (acts.items, self.new)) (λ e. Halts e (found_of self.old question.now at)) }
    {
        match self.closing(Kind::Ask, question) {
            None => Ok(Vec::new(self.alloc())),
            Some(closed) => {
                let alloc = self.alloc();
                let mark = own_mark(alloc, b"$isat")?;
                let body = found_body(alloc, question, &at)?;
                self.mail_to(closed.owner, mark, body)?;
                Ok(noted(
                    alloc,
                    Note::IsAt {
                        question: question.copy()?,
                        found: at,
                    },
                )?)
            }
        }
    }

    /// The asking node is told what was found.
    #[tactic(auto, unfolding(ch_model::specs::NodeAsks::tell_found))]
    fn tell_found(&mut self, question: &Ref, at: Option<ProcessId>) -> Result<Outcome, Halt>
        ensures { MatchResult result (λ acts. tell_found_of self.old question.now at ≡ Ok (acts.items, self.new)) (λ e. Halts e (tell_found_of self.old question.now at)) }
    {
        if self.is_here(&question.node) {
            self.found(question, at)
        } else {
            let said = NodeMessage::IsAt {
                question: question.copy()?,
                found: at,
            };
            self.tell_node(&question.node, &said, Weight::Free)
        }
    }

    /// A name is looked up.
    #[tactic(auto, unfolding(ch_model::specs::NodeAsks::question_arrives))]
    pub(crate) fn question_arrives(&mut self, question: &Ref, name: &Name) -> Result<Outcome, Halt>
        ensures { MatchResult result (λ acts. question_arrives_of self.old question.now name.now ≡ Ok (acts.items, self.new)) (λ e. Halts e (question_arrives_of self.old question.now name.now)) }
    {
        let at = self.standing(name)?;
        self.tell_found(question, at)
    }

    /// A process of this node is doomed, by a text that may.
    #[tactic(auto, unfolding(ch_model::specs::NodeAsks::doom_arrives))]
    pub(crate) fn doom_arrives(
        &mut self,
        target: &ProcessId,
        given: &Text,
        text: Text,
    ) -> Result<Outcome, Halt>
        ensures { MatchResult result (λ acts. doom_arrives_of self.old target.now given.now text ≡ Ok (acts.items, self.new)) (λ e. Halts e (doom_arrives_of self.old target.now given.now text)) }
    {
        if self.is_own(target) && 1 <= given.len() && given.len() <= 200 {
            self.doom(target.counter, text)
        } else {
            Ok(Vec::new(self.alloc()))
        }
    }
}
