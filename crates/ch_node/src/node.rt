//! The node's calls.

ghost use Rattle.std.specs.Prelude.{◌≡◌, true, false, IfOk, IfErr, IsErrOf, MatchResult, Ok, Err};
ghost use Rattle.std.specs.Option.{option_copied};
ghost use Rattle.ch_model.specs.Node.{node_new, node_make, node_shut, node_command, node_event, node_watched, target_node as target_node_of, node_life, node_waiting, node_args};
ghost use Rattle.ch_model.specs.declared.command.CommandError.TheVariants as errors;
ghost use Rattle.ch_model.specs.NodeActs.{stopping};
ghost use Rattle.ch_model.specs.NodeIds.{process_id};
ghost use Rattle.ch_node.specs.Calls.{Fails, Leaves, is_stop_of};

use crate::acts::Outcome;
use crate::state::State;
use ch_base::{Address, Event, OutOfMemory, Room};
use ch_ident::{ProcessId, Ref};
use ch_mail::Life;
use ch_model::CommandError;
use ch_static::{Command, Table};
use std::alloc::Global;
use std::marker::Model;

/// A node with its processes, which have numbers in order of making, from 0. Contracts see what it
/// keeps of them, and whether a call of it has stopped.
#[derive(Drop)]
pub struct Node {
    state: State,
    failed: bool,
}

impl Model for Node {
    ghost use Rattle.ch_node.specs.Kept.{Kept};

    ghost Value = { Kept };

    ghost view = { λ n. record { failed = n.failed; state = n.state } };
}

/// Whether a call was stopped.
fn is_stop(done: &Result<Outcome, CommandError>) -> bool
    ensures { result ≡ is_stop_of done.now }
{
    match done {
        Err(CommandError::OutOfMemory) => true,
        Err(CommandError::Worn) => true,
        _ => false,
    }
}

impl Node {
    /// The node at an address, with the unique number of this run of it and its labels. It has made
    /// no process. It takes no memory.
    pub fn new(alloc: Global, own: Address, unique: u32, labels: Table) -> Node
        ensures fresh { result.failed ≡ false }
        ensures state { result.state ≡ node_new own unique labels }
    {
        Node {
            state: State::new(alloc, own, unique, labels),
            failed: false,
        }
    }

    /// A process asks for something, where the link to the node that it is directed to has this room.
    /// In this order, it is refused
    ///
    /// - with `Unknown` where the process wasn't made;
    /// - with `Dead` where it acts no more, be it doomed or over; where it would fall, with `Hale` where
    ///   it isn't doomed and `Dead` where it is over;
    /// - with `Unknown` where it sends to a process or port of this node that wasn't made;
    /// - with `Long` where the payload of its message, or of what asks for its spawn, has more than
    ///   65,536 bytes;
    /// - with `NoRef` where it takes back a watch that it hasn't open;
    /// - with `Full` where what it sends is for another node, whose link isn't up and has 4,096 payloads
    ///   waiting; a message on a broken pair, which goes nowhere, needs no room;
    /// - with `Spent` where its message wants a new connection, and 65,535 were opened on the socket
    ///   besides the node's own;
    /// - with `Empty` where it takes a message and none of that mark, or in that port, waits;
    /// - with `Taken` where it registers a name that stands, and `NoName` where it takes away one that
    ///   doesn't;
    /// - with `Worn` where a count can't grow.
    ///
    /// After a stop, `OutOfMemory` or `Worn`, the node answers `OutOfMemory` for good; any other refusal
    /// changes nothing. What has no spelling in a message to another node is told as want of memory: a
    /// text of an exit or a kill, or one with which a watched process fails, of more than 255 bytes or
    /// with a byte that isn't from 0x20 to 0x7e.
    ///
    /// Cost: a message's pair is looked up by key, and the node's own connection to a peer by a walk over
    /// the peers. The end of a process walks the pairs, the open numbers, the watches kept and the names;
    /// to take a watch back walks the watches kept at its target's node.
    pub fn command(
        &mut self,
        by: u32,
        command: Command,
        room: Room,
    ) -> Result<Outcome, CommandError>
        ensures does { MatchResult result (λ acts. node_command self.old.state by command room ≡ Ok (acts.items, self.new.state)) (λ e. Fails e (node_command self.old.state by command room)) }
        ensures err { IfErr result (λ e. Leaves self.old self.new e) }
        ensures spent { self.old.failed ≡ true → IsErrOf result errors.OutOfMemory }
    {
        if self.failed {
            return Err(CommandError::OutOfMemory);
        }
        let done = self.state.command(by, command, room);
        self.failed = is_stop(&done);
        done
    }

    /// What the node makes of an event of its endpoint: a connection that a peer opens or closes, a
    /// payload on it, or the loss of the link with a peer; the close of its own endpoint changes nothing.
    /// The first payload of a connection says what that is for; a later one that isn't read, or that its
    /// connection isn't for, changes nothing. It stops with `Worn` exactly where a count that it would
    /// raise can't grow. After a stop the node answers `OutOfMemory` for good. What has no spelling in an
    /// answer to another node is told as want of memory, as in `command`.
    ///
    /// Cost: a message finds its connection by halving while the numbers of those that arrived rise, as
    /// a host gives them, and else by a walk. The first payload of a connection and its closing walk the
    /// connections that arrived; a failed link walks these, the pairs, the open numbers and the watches
    /// kept.
    pub fn event(&mut self, event: Event) -> Result<Outcome, CommandError>
        ensures does { MatchResult result (λ acts. stopping (node_event self.old.state event) ≡ Ok (acts.items, self.new.state)) (λ e. Fails e (stopping (node_event self.old.state event))) }
        ensures err { IfErr result (λ e. Leaves self.old self.new e) }
        ensures spent { self.old.failed ≡ true → IsErrOf result errors.OutOfMemory }
    {
        if self.failed {
            return Err(CommandError::OutOfMemory);
        }
        let done = self.state.event_told(event);
        self.failed = is_stop(&done);
        done
    }

    /// A process is made that no spawn asked for, with the number of those made before. It is
    /// refused with `Dead` exactly where the node is shut, and then with `Worn` exactly where that
    /// number can't grow. After a stop the node answers `OutOfMemory` for good.
    pub fn make(&mut self) -> Result<Outcome, CommandError>
        ensures does { MatchResult result (λ acts. node_make self.old.state ≡ Ok (acts.items, self.new.state)) (λ e. Fails e (node_make self.old.state)) }
        ensures err { IfErr result (λ e. Leaves self.old self.new e) }
        ensures spent { self.old.failed ≡ true → IsErrOf result errors.OutOfMemory }
    {
        if self.failed {
            return Err(CommandError::OutOfMemory);
        }
        let done = self.state.make_asked();
        self.failed = is_stop(&done);
        done
    }

    /// The node is shut, for good: each of its processes that isn't over is over, with no note of its
    /// own, and no number is open, no watch kept and no name stands any more. It is refused with `Dead`
    /// exactly where the node is shut already. After `OutOfMemory` the node answers that for good.
    pub fn shut(&mut self) -> Result<Outcome, CommandError>
        ensures does { MatchResult result (λ acts. node_shut self.old.state ≡ Ok (acts.items, self.new.state)) (λ e. Fails e (node_shut self.old.state)) }
        ensures err { IfErr result (λ e. Leaves self.old self.new e) }
        ensures spent { self.old.failed ≡ true → IsErrOf result errors.OutOfMemory }
    {
        if self.failed {
            return Err(CommandError::OutOfMemory);
        }
        let done = self.state.shut();
        self.failed = is_stop(&done);
        done
    }

    /// The id of the process with this number, be it made or not.
    pub fn id(&self, counter: u32) -> Result<ProcessId, OutOfMemory>
        ensures { IfOk result (λ p. p ≡ process_id self.now.state counter) }
    {
        self.state.id(counter)
    }

    /// The life of a process. None exactly where it wasn't made. It takes no memory.
    pub fn life(&self, process: u32) -> Option<&Life>
        ensures { option_copied result ≡ node_life self.now.state process }
    {
        self.state.life(process)
    }

    /// The node of the target of a process's monitor or link. None exactly where none of that process is
    /// open under the reference.
    pub fn watched(&self, by: u32, watch: &Ref) -> Result<Option<Address>, OutOfMemory>
        ensures { IfOk result (λ at. at ≡ node_watched self.now.state by watch.now) }
    {
        self.state.watched(by, watch)
    }

    /// The node whose room a command needs: the one that it is directed to. None exactly where it sends
    /// to none, or reconnects, or takes back a watch that it hasn't open.
    pub fn target_node(&self, by: u32, command: &Command) -> Result<Option<Address>, OutOfMemory>
        ensures { IfOk result (λ at. at ≡ target_node_of self.now.state by command.now) }
    {
        self.state.target_node(by, command)
    }

    /// How many messages wait for a process, 0 where it wasn't made. It takes no memory.
    pub fn waiting(&self, process: u32) -> usize
        ensures { result ≡ node_waiting self.now.state process }
    {
        self.state.waiting(process)
    }

    /// What a process was given when it was spawned, nothing where it wasn't. It takes no memory.
    pub fn args(&self, process: u32) -> &[u8]
        ensures { result.now ≡ node_args self.now.state process }
    {
        self.state.args(process)
    }
}
