//! The lines by which a process acts on another process or asks a node: watches, exits, kills, spawns
//! and questions.
//!
//! Fields and what the lines have told stand below; the words of lines stand above.

ghost use Rattle.std.specs.Prelude.{◌≡◌};
ghost use Rattle.std.specs.Option.{option_map};
ghost use Rattle.ch_model.specs.LinesOfPeers.{process_and_peer, process_peer_and_text, monitor_line, link_line, unwatch_line, exit_line, kill_line, spawn_line, whereis_line};
ghost use Rattle.ch_fields.specs.Outcome.{Gives};

use crate::known::Known;
use ch_base::Text;
use ch_fields::{
    Fault, bytes, field, last, node_name, numbered, numbered_reference, process, reference, text,
    word,
};
use ch_model::{ProcName, What};
use std::alloc::Global;

impl Known {
    /// A process of a node, and a process that it acts upon.
    #[tactic(auto, unfolding(ch_model::specs::LinesOfPeers::process_and_peer))]
    fn process_and_peer(
        &self,
        alloc: Global,
        rest: Option<&[u8]>,
    ) -> Result<(ProcName, ProcName), Fault>
        ensures { Gives (λ x. x) result (process_and_peer self.now (option_map (λ r. r.now) rest.entry)) }
    {
        let (by, rest) = field(rest)?;
        let (on, rest) = field(rest)?;
        last(rest)?;
        let (actor, actor_digits) = process(by)?;
        let (target, target_digits) = process(on)?;
        let by = numbered(alloc, actor, actor_digits)?;
        let target = numbered(alloc, target, target_digits)?;
        self.declared(by.node.as_slice())?;
        self.peer(target.node.as_slice())?;
        Ok((by, target))
    }

    /// A process of a node, a process that it acts upon, and a text.
    #[tactic(auto, unfolding(ch_model::specs::LinesOfPeers::process_peer_and_text))]
    fn process_peer_and_text(
        &self,
        alloc: Global,
        rest: Option<&[u8]>,
    ) -> Result<(ProcName, ProcName, Text), Fault>
        ensures { Gives (λ x. x) result (process_peer_and_text self.now (option_map (λ r. r.now) rest.entry)) }
    {
        let (by, rest) = field(rest)?;
        let (on, rest) = field(rest)?;
        let (actor, actor_digits) = process(by)?;
        let (target, target_digits) = process(on)?;
        let why = text(rest)?;
        let by = numbered(alloc, actor, actor_digits)?;
        let target = numbered(alloc, target, target_digits)?;
        self.declared(by.node.as_slice())?;
        self.peer(target.node.as_slice())?;
        Ok((by, target, Text::of(alloc, why)?))
    }

    /// `monitor P P`.
    #[tactic(auto, unfolding(ch_model::specs::LinesOfPeers::monitor_line))]
    pub(crate) fn monitor_line(&self, alloc: Global, rest: Option<&[u8]>) -> Result<What, Fault>
        ensures { Gives (λ x. x) result (monitor_line self.now (option_map (λ r. r.now) rest.entry)) }
    {
        let (by, target) = self.process_and_peer(alloc, rest)?;
        Ok(What::Monitor { by, target })
    }

    /// `link P P`.
    #[tactic(auto, unfolding(ch_model::specs::LinesOfPeers::link_line))]
    pub(crate) fn link_line(&self, alloc: Global, rest: Option<&[u8]>) -> Result<What, Fault>
        ensures { Gives (λ x. x) result (link_line self.now (option_map (λ r. r.now) rest.entry)) }
    {
        let (by, target) = self.process_and_peer(alloc, rest)?;
        Ok(What::Link { by, target })
    }

    /// `unwatch P R`.
    #[tactic(auto, unfolding(ch_model::specs::LinesOfPeers::unwatch_line))]
    pub(crate) fn unwatch_line(&self, alloc: Global, rest: Option<&[u8]>) -> Result<What, Fault>
        ensures { Gives (λ x. x) result (unwatch_line self.now (option_map (λ r. r.now) rest.entry)) }
    {
        let (by, rest) = field(rest)?;
        let (watch, rest) = field(rest)?;
        last(rest)?;
        let (actor, actor_digits) = process(by)?;
        let (giver, watch_digits) = reference(watch)?;
        let by = numbered(alloc, actor, actor_digits)?;
        let watch = numbered_reference(alloc, giver, watch_digits)?;
        self.declared(by.node.as_slice())?;
        self.peer(watch.node.as_slice())?;
        Ok(What::Unwatch { by, watch })
    }

    /// `exit P P text`.
    #[tactic(auto, unfolding(ch_model::specs::LinesOfPeers::exit_line))]
    pub(crate) fn exit_line(&self, alloc: Global, rest: Option<&[u8]>) -> Result<What, Fault>
        ensures { Gives (λ x. x) result (exit_line self.now (option_map (λ r. r.now) rest.entry)) }
    {
        let (by, target, text) = self.process_peer_and_text(alloc, rest)?;
        Ok(What::Exit { by, target, text })
    }

    /// `kill P P text`.
    #[tactic(auto, unfolding(ch_model::specs::LinesOfPeers::kill_line))]
    pub(crate) fn kill_line(&self, alloc: Global, rest: Option<&[u8]>) -> Result<What, Fault>
        ensures { Gives (λ x. x) result (kill_line self.now (option_map (λ r. r.now) rest.entry)) }
    {
        let (by, target, text) = self.process_peer_and_text(alloc, rest)?;
        Ok(What::Kill { by, target, text })
    }

    /// `spawn P N word hex`.
    #[tactic(auto, unfolding(ch_model::specs::LinesOfPeers::spawn_line))]
    pub(crate) fn spawn_line(&self, alloc: Global, rest: Option<&[u8]>) -> Result<What, Fault>
        ensures { Gives (λ x. x) result (spawn_line self.now (option_map (λ r. r.now) rest.entry)) }
    {
        let (by, rest) = field(rest)?;
        let (at, rest) = field(rest)?;
        let (label, rest) = field(rest)?;
        let (args, rest) = field(rest)?;
        last(rest)?;
        let (actor, digits) = process(by)?;
        let at = node_name(at)?;
        let label = word(alloc, label)?;
        let args = bytes(alloc, args)?;
        let by = numbered(alloc, actor, digits)?;
        self.declared(by.node.as_slice())?;
        let at = self.peer(at)?;
        Ok(What::Spawn {
            by,
            at: Text::of(alloc, at)?,
            label,
            args,
        })
    }

    /// `whereis P N word`.
    #[tactic(auto, unfolding(ch_model::specs::LinesOfPeers::whereis_line))]
    pub(crate) fn whereis_line(&self, alloc: Global, rest: Option<&[u8]>) -> Result<What, Fault>
        ensures { Gives (λ x. x) result (whereis_line self.now (option_map (λ r. r.now) rest.entry)) }
    {
        let (by, rest) = field(rest)?;
        let (at, rest) = field(rest)?;
        let (name, rest) = field(rest)?;
        last(rest)?;
        let (actor, digits) = process(by)?;
        let at = node_name(at)?;
        let name = word(alloc, name)?;
        let by = numbered(alloc, actor, digits)?;
        self.declared(by.node.as_slice())?;
        let at = self.peer(at)?;
        Ok(What::Whereis {
            by,
            at: Text::of(alloc, at)?,
            name,
        })
    }
}
