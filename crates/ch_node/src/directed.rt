//! What a node makes of each command of its processes.

ghost use Rattle.std.specs.Prelude.{◌≡◌, MatchResult, IfErr, IfOk, Ok};
ghost use Rattle.ch_ident.specs.declared.node_message.NodeMessage.TheVariants.{Exit as ExitMessage, Kill as KillMessage};
ghost use Rattle.ch_model.specs.Node.{node_command, target_node as target_node_of};
ghost use Rattle.ch_model.specs.NodeRequests.{doom_by};
ghost use Rattle.ch_node.specs.Calls.{Fails, KeepsBut};

use crate::acts::Outcome;
use crate::ids::target_at;
use crate::state::State;
use ch_base::{Address, OutOfMemory, Room, Text};
use ch_ident::{NodeMessage, ProcessId, Reason};
use ch_model::CommandError;
use ch_static::Command;
use ch_watch::Kind;

impl State {
    /// A process asks for another to exit.
    fn exit(
        &mut self,
        by: u32,
        target: ProcessId,
        text: Text,
        room: Room,
    ) -> Result<Outcome, CommandError>
        ensures does { MatchResult result (λ acts. doom_by self.old by target.node (ExitMessage target text) room ≡ Ok (acts.items, self.new)) (λ e. Fails e (doom_by self.old by target.node (ExitMessage target text) room)) }
        ensures err { IfErr result (λ e. KeepsBut self.old self.new e) }
    {
        let at = target.node.copy()?;
        self.doom_by(by, &at, NodeMessage::Exit { target, text }, room)
    }

    /// A process asks for another to be killed.
    fn kill(
        &mut self,
        by: u32,
        target: ProcessId,
        text: Text,
        room: Room,
    ) -> Result<Outcome, CommandError>
        ensures does { MatchResult result (λ acts. doom_by self.old by target.node (KillMessage target text) room ≡ Ok (acts.items, self.new)) (λ e. Fails e (doom_by self.old by target.node (KillMessage target text) room)) }
        ensures err { IfErr result (λ e. KeepsBut self.old self.new e) }
    {
        let at = target.node.copy()?;
        self.doom_by(by, &at, NodeMessage::Kill { target, text }, room)
    }

    /// What a command does, where the link to the node that it is directed to has this room.
    #[tactic(auto, unfolding(ch_model::specs::Node::node_command))]
    pub(crate) fn command(
        &mut self,
        by: u32,
        command: Command,
        room: Room,
    ) -> Result<Outcome, CommandError>
        ensures does { MatchResult result (λ acts. node_command self.old by command room ≡ Ok (acts.items, self.new)) (λ e. Fails e (node_command self.old by command room)) }
        ensures err { IfErr result (λ e. KeepsBut self.old self.new e) }
    {
        match command {
            Command::Send { to, message } => self.send(by, &to, message, room),
            Command::Again { to } => self.again(by, &to),
            Command::Receive { mark } => self.receive(by, &mark),
            Command::OpenPort => self.open_port(by),
            Command::Take { port } => self.take_port(by, port),
            Command::End => self.finish(by, &Reason::Normal),
            Command::Fail { text } => self.finish(by, &Reason::Exception(text)),
            Command::Fall => self.fall(by),
            Command::Monitor { target } => self.watch_by(by, Kind::Monitor, &target, room),
            Command::Link { target } => self.watch_by(by, Kind::Link, &target, room),
            Command::Unwatch { watch } => self.unwatch_by(by, &watch, room),
            Command::Exit { target, text } => self.exit(by, target, text, room),
            Command::Kill { target, text } => self.kill(by, target, text, room),
            Command::Spawn { at, closure } => self.spawn_by(by, &at, closure, room),
            Command::Register { name } => self.register_by(by, name),
            Command::Unregister { name } => self.unregister_by(by, name),
            Command::WhereIs { at, name } => self.whereis_by(by, &at, name, room),
        }
    }

    /// The node whose room a command needs: the one that it is directed to, if to any.
    #[tactic(auto, unfolding(ch_model::specs::Node::target_node))]
    pub(crate) fn target_node(
        &self,
        by: u32,
        command: &Command,
    ) -> Result<Option<Address>, OutOfMemory>
        ensures { IfOk result (λ at. at ≡ target_node_of self.now by command.now) }
    {
        match command {
            Command::Send { to, .. } => Ok(Some(target_at(to).copy()?)),
            Command::Monitor { target } => Ok(Some(target.node.copy()?)),
            Command::Link { target } => Ok(Some(target.node.copy()?)),
            Command::Unwatch { watch } => self.watched(by, watch),
            Command::Exit { target, .. } => Ok(Some(target.node.copy()?)),
            Command::Kill { target, .. } => Ok(Some(target.node.copy()?)),
            Command::Spawn { at, .. } => Ok(Some(at.copy()?)),
            Command::WhereIs { at, .. } => Ok(Some(at.copy()?)),
            _ => Ok(None),
        }
    }
}
