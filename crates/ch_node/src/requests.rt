//! What a process's commands on other processes and on names do.

ghost use Rattle.std.specs.Prelude.{◌≡◌, [], ◌∷◌, MatchResult, IfErr, IfOk, Ok};
ghost use Rattle.ch_model.specs.declared.act.Act.TheVariants.{Note as NoteAct};
ghost use Rattle.ch_model.specs.declared.note.Note.TheVariants.{Watch as WatchNote, Unwatch as UnwatchNote, Named as NamedNote};
ghost use Rattle.ch_ident.specs.declared.node_message.NodeMessage.TheVariants.{Spawn as SpawnMessage, WhereIs as WhereIsMessage};
ghost use Rattle.ch_watch.specs.declared.waiting.Kind.TheVariants as kinds;
ghost use Rattle.ch_watch.specs.Same.{node_of as node_of_identifier};
ghost use Rattle.ch_model.specs.NodeActs.{of_watch_error, noting, ◌and_then◌};
ghost use Rattle.ch_model.specs.NodeIds.{process_id, reference_to};
ghost use Rattle.ch_model.specs.NodeMessages.{ask as ask_of};
ghost use Rattle.ch_model.specs.NodeWatches.{watch_under as watch_under_of};
ghost use Rattle.ch_model.specs.NodeRequests.{watch_message as watch_message_of, unwatch_message as unwatch_message_of, watch as watch_of, watch_by as watch_by_of, unwatch_by as unwatch_by_of, doom_by as doom_by_of, asked_note as asked_note_of, question as question_of, spawn_by as spawn_by_of, whereis_by as whereis_by_of, register_by as register_by_of, unregister_by as unregister_by_of};
ghost use Rattle.ch_ident.specs.Spelling.{message as message_spelling};
ghost use Rattle.ch_model.specs.Node.{node_watched};
ghost use Rattle.ch_model.specs.NodeRoom.{fitting as fitting_of};
ghost use Rattle.ch_node.specs.Calls.{Fails, Gives, Halts, KeepsBut};

use crate::acts::{Outcome, joined, noted};
use crate::halt::Halt;
use crate::same::node_of;
use crate::spelled::spelled;
use crate::state::State;
use ch_base::{Address, OutOfMemory, Room, Text};
use ch_ident::{Identifier, Name, NodeMessage, ProcessId, Ref};
use ch_model::{CommandError, Note};
use ch_static::Closure;
use ch_watch::{Kind, Waiting, WatchError};
use ch_wire::MOST_PAYLOAD_BYTES;

/// How a refusal of the watches and names is told to the process that asked.
fn told_error(e: WatchError) -> CommandError
    ensures { result ≡ of_watch_error e }
{
    match e {
        WatchError::Taken => CommandError::Taken,
        WatchError::NoName => CommandError::NoName,
        WatchError::NoRef => CommandError::NoRef,
        WatchError::OutOfMemory => CommandError::OutOfMemory,
    }
}

/// What asks a node for a watch of this kind.
fn watch_message(kind: Kind, watch: Ref, target: ProcessId) -> NodeMessage
    ensures { result ≡ watch_message_of kind watch target }
{
    match kind {
        Kind::Link => NodeMessage::Link { watch, target },
        Kind::Monitor => NodeMessage::Monitor { watch, target },
        Kind::Spawn => NodeMessage::Monitor { watch, target },
        Kind::Ask => NodeMessage::Monitor { watch, target },
    }
}

/// What takes a watch of this kind back.
fn unwatch_message(kind: Kind, watch: Ref) -> NodeMessage
    ensures { result ≡ unwatch_message_of kind watch }
{
    match kind {
        Kind::Link => NodeMessage::Unlink { watch },
        Kind::Monitor => NodeMessage::Unmonitor { watch },
        Kind::Spawn => NodeMessage::Unmonitor { watch },
        Kind::Ask => NodeMessage::Unmonitor { watch },
    }
}

impl State {
    fn note_watch(
        &self,
        by: u32,
        kind: Kind,
        number: u32,
        target: &ProcessId,
    ) -> Result<Outcome, OutOfMemory>
        ensures { IfOk result (λ acts. acts.items ≡ NoteAct (WatchNote (reference_to self.now number) (process_id self.now by) target.now kind) ∷ []) }
    {
        let watch = self.reference(number)?;
        let by = self.id(by)?;
        let target = target.copy()?;
        noted(
            self.alloc(),
            Note::Watch {
                watch,
                by,
                target,
                kind,
            },
        )
    }

    /// A watch is opened, and its target's node is asked.
    #[tactic(auto, unfolding(ch_model::specs::NodeRequests::watch))]
    fn watch(&mut self, by: u32, kind: Kind, target: &ProcessId) -> Result<Outcome, Halt>
        ensures { MatchResult result (λ acts. watch_of self.old by kind target.now ≡ Ok (acts.items, self.new)) (λ e. Halts e (watch_of self.old by kind target.now)) }
    {
        let end = Identifier::Process(target.copy()?);
        let number = self.watches.watch(by, kind, &end)?;
        let acts = self.note_watch(by, kind, number, target)?;
        let message = watch_message(kind, self.reference(number)?, target.copy()?);
        let asked = self.ask(&target.node, message)?;
        Ok(joined(acts, asked)?)
    }

    /// A process monitors another, or links itself to it.
    #[tactic(auto, unfolding(ch_model::specs::NodeRequests::watch_by))]
    pub(crate) fn watch_by(
        &mut self,
        by: u32,
        kind: Kind,
        target: &ProcessId,
        room: Room,
    ) -> Result<Outcome, CommandError>
        ensures does { MatchResult result (λ acts. watch_by_of self.old by kind target.now room ≡ Ok (acts.items, self.new)) (λ e. Fails e (watch_by_of self.old by kind target.now room)) }
        ensures err { IfErr result (λ e. KeepsBut self.old self.new e) }
    {
        self.acting(by)?;
        self.not_full(&target.node, room)?;
        Ok(self.watch(by, kind, target)?)
    }

    /// The monitor or link of a process that is open under a reference.
    #[tactic(auto, unfolding(ch_model::specs::NodeWatches::watch_under))]
    pub(crate) fn watch_under(&self, by: u32, watch: &Ref) -> Result<Option<Waiting>, OutOfMemory>
        ensures { IfOk result (λ waiting. waiting ≡ watch_under_of self.now by watch.now) }
    {
        if !self.is_here(&watch.node) {
            return Ok(None);
        }
        match self.watches.waiting(by, watch.number) {
            None => Ok(None),
            Some(waiting) => Ok(Some(waiting.copy()?)),
        }
    }

    /// A watch that is open is taken back, and its target's node is asked to forget it.
    fn unwatched(&mut self, given: &Ref, waiting: &Waiting) -> Result<Outcome, Halt>
        ensures { MatchResult result (λ acts. noting (UnwatchNote given.now) self.old and_then (λ n. ask_of n (node_of_identifier waiting.now.target) (unwatch_message_of waiting.now.kind given.now)) ≡ Ok (acts.items, self.new)) (λ e. Halts e (noting (UnwatchNote given.now) self.old and_then (λ n. ask_of n (node_of_identifier waiting.now.target) (unwatch_message_of waiting.now.kind given.now)))) }
    {
        let acts = noted(
            self.alloc(),
            Note::Unwatch {
                watch: given.copy()?,
            },
        )?;
        let message = unwatch_message(waiting.kind, given.copy()?);
        let asked = self.ask(node_of(&waiting.target), message)?;
        Ok(joined(acts, asked)?)
    }

    /// A process takes a monitor or a link back.
    #[tactic(auto, unfolding(ch_model::specs::NodeRequests::unwatch_by))]
    pub(crate) fn unwatch_by(
        &mut self,
        by: u32,
        given: &Ref,
        room: Room,
    ) -> Result<Outcome, CommandError>
        ensures does { MatchResult result (λ acts. unwatch_by_of self.old by given.now room ≡ Ok (acts.items, self.new)) (λ e. Fails e (unwatch_by_of self.old by given.now room)) }
        ensures err { IfErr result (λ e. KeepsBut self.old self.new e) }
    {
        self.acting(by)?;
        let waiting = match self.watch_under(by, given)? {
            None => return Err(CommandError::NoRef),
            Some(waiting) => waiting,
        };
        self.not_full(node_of(&waiting.target), room)?;
        match self.watches.unwatch(by, given.number) {
            Err(e) => Err(told_error(e)),
            Ok(_) => Ok(self.unwatched(given, &waiting)?),
        }
    }

    /// A process asks for another's doom.
    #[tactic(auto, unfolding(ch_model::specs::NodeRequests::doom_by))]
    pub(crate) fn doom_by(
        &mut self,
        by: u32,
        at: &Address,
        asked: NodeMessage,
        room: Room,
    ) -> Result<Outcome, CommandError>
        ensures does { MatchResult result (λ acts. doom_by_of self.old by at.now asked room ≡ Ok (acts.items, self.new)) (λ e. Fails e (doom_by_of self.old by at.now asked room)) }
        ensures err { IfErr result (λ e. KeepsBut self.old self.new e) }
    {
        self.acting(by)?;
        self.not_full(at, room)?;
        Ok(self.ask(at, asked)?)
    }

    /// A question to another node is told.
    fn asked_note(&self, by: u32, at: &Address, number: u32) -> Result<Outcome, OutOfMemory>
        ensures { IfOk result (λ acts. acts.items ≡ asked_note_of self.now by at.now (reference_to self.now number)) }
    {
        if self.is_here(at) {
            return Ok(Vec::new(self.alloc()));
        }
        let question = self.reference(number)?;
        let by = self.id(by)?;
        let at = at.copy()?;
        noted(self.alloc(), Note::Asked { question, by, at })
    }

    /// A node is asked for which process a name stands.
    #[tactic(auto, unfolding(ch_model::specs::NodeRequests::question))]
    fn ask_name(&mut self, by: u32, at: &Address, name: Name) -> Result<Outcome, Halt>
        ensures { MatchResult result (λ acts. question_of self.old by kinds.Ask at.now (λ asked. WhereIsMessage asked name) ≡ Ok (acts.items, self.new)) (λ e. Halts e (question_of self.old by kinds.Ask at.now (λ asked. WhereIsMessage asked name))) }
    {
        let end = Identifier::Node(at.copy()?);
        let number = self.watches.watch(by, Kind::Ask, &end)?;
        let acts = self.asked_note(by, at, number)?;
        let question = self.reference(number)?;
        let asked = self.ask(at, NodeMessage::WhereIs { question, name })?;
        Ok(joined(acts, asked)?)
    }

    /// A process asks a node for which process a name stands.
    #[tactic(auto, unfolding(ch_model::specs::NodeRequests::whereis_by))]
    pub(crate) fn whereis_by(
        &mut self,
        by: u32,
        at: &Address,
        name: Name,
        room: Room,
    ) -> Result<Outcome, CommandError>
        ensures does { MatchResult result (λ acts. whereis_by_of self.old by at.now name room ≡ Ok (acts.items, self.new)) (λ e. Fails e (whereis_by_of self.old by at.now name room)) }
        ensures err { IfErr result (λ e. KeepsBut self.old self.new e) }
    {
        self.acting(by)?;
        self.not_full(at, room)?;
        Ok(self.ask_name(by, at, name)?)
    }

    fn note_named(&self, name: Name, process: Option<ProcessId>) -> Result<Outcome, OutOfMemory>
        ensures { IfOk result (λ acts. acts.items ≡ NoteAct (NamedNote self.now.own name process) ∷ []) }
    {
        noted(
            self.alloc(),
            Note::Named {
                node: self.own.copy()?,
                name,
                process,
            },
        )
    }

    /// A process registers a name of its node for itself.
    #[tactic(auto, unfolding(ch_model::specs::NodeRequests::register_by))]
    pub(crate) fn register_by(&mut self, by: u32, name: Name) -> Result<Outcome, CommandError>
        ensures does { MatchResult result (λ acts. register_by_of self.old by name ≡ Ok (acts.items, self.new)) (λ e. Fails e (register_by_of self.old by name)) }
        ensures err { IfErr result (λ e. KeepsBut self.old self.new e) }
    {
        self.acting(by)?;
        match self.watches.register(&name, by) {
            Err(e) => Err(told_error(e)),
            Ok(()) => {
                let process = self.id(by)?;
                Ok(self.note_named(name, Some(process))?)
            }
        }
    }

    /// A process takes a name of its node away.
    #[tactic(auto, unfolding(ch_model::specs::NodeRequests::unregister_by))]
    pub(crate) fn unregister_by(&mut self, by: u32, name: Name) -> Result<Outcome, CommandError>
        ensures does { MatchResult result (λ acts. unregister_by_of self.old by name ≡ Ok (acts.items, self.new)) (λ e. Fails e (unregister_by_of self.old by name)) }
        ensures err { IfErr result (λ e. KeepsBut self.old self.new e) }
    {
        self.acting(by)?;
        match self.watches.unregister(&name) {
            Err(e) => Err(told_error(e)),
            Ok(_) => Ok(self.note_named(name, None)?),
        }
    }

    /// The one spelling of what would ask for a spawn next.
    fn spawn_payload(&self, closure: &Closure) -> Result<Text, OutOfMemory>
        ensures { IfOk result (λ text. text ≡ message_spelling (SpawnMessage (reference_to self.now self.now.watches.next) closure.now.label closure.now.args)) }
    {
        let said = NodeMessage::Spawn {
            question: self.reference(self.watches.next())?,
            label: closure.label.copy()?,
            args: closure.args.copy()?,
        };
        spelled(self.alloc(), &said)
    }

    /// What asks for a spawn fits in one frame.
    #[tactic(auto, unfolding(ch_model::specs::NodeRoom::fitting))]
    fn spawn_fits(&self, closure: &Closure) -> Result<(), CommandError>
        ensures { Gives (λ _. tt) result (fitting_of (message_spelling (SpawnMessage (reference_to self.now self.now.watches.next) closure.now.label closure.now.args))) }
    {
        let payload = self.spawn_payload(closure)?;
        if payload.len() > MOST_PAYLOAD_BYTES as usize {
            return Err(CommandError::Long);
        }
        Ok(())
    }

    /// A node is asked for a process.
    #[tactic(auto, unfolding(ch_model::specs::NodeRequests::question))]
    fn ask_spawn(&mut self, by: u32, at: &Address, closure: Closure) -> Result<Outcome, Halt>
        ensures { MatchResult result (λ acts. question_of self.old by kinds.Spawn at.now (λ asked. SpawnMessage asked closure.label closure.args) ≡ Ok (acts.items, self.new)) (λ e. Halts e (question_of self.old by kinds.Spawn at.now (λ asked. SpawnMessage asked closure.label closure.args))) }
    {
        let end = Identifier::Node(at.copy()?);
        let number = self.watches.watch(by, Kind::Spawn, &end)?;
        let acts = self.asked_note(by, at, number)?;
        let question = self.reference(number)?;
        let Closure { label, args } = closure;
        let message = NodeMessage::Spawn {
            question,
            label,
            args,
        };
        let asked = self.ask(at, message)?;
        Ok(joined(acts, asked)?)
    }

    /// A process has another made at a node.
    #[tactic(auto, unfolding(ch_model::specs::NodeRequests::spawn_by))]
    pub(crate) fn spawn_by(
        &mut self,
        by: u32,
        at: &Address,
        closure: Closure,
        room: Room,
    ) -> Result<Outcome, CommandError>
        ensures does { MatchResult result (λ acts. spawn_by_of self.old by at.now closure room ≡ Ok (acts.items, self.new)) (λ e. Fails e (spawn_by_of self.old by at.now closure room)) }
        ensures err { IfErr result (λ e. KeepsBut self.old self.new e) }
    {
        self.acting(by)?;
        self.spawn_fits(&closure)?;
        self.not_full(at, room)?;
        Ok(self.ask_spawn(by, at, closure)?)
    }

    /// The node of the target of a process's monitor or link, where that is open under a reference.
    #[tactic(auto, unfolding(ch_model::specs::Node::node_watched))]
    pub(crate) fn watched(&self, by: u32, watch: &Ref) -> Result<Option<Address>, OutOfMemory>
        ensures { IfOk result (λ at. at ≡ node_watched self.now by watch.now) }
    {
        match self.watch_under(by, watch)? {
            None => Ok(None),
            Some(waiting) => Ok(Some(node_of(&waiting.target).copy()?)),
        }
    }
}
