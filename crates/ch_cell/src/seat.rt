//! The nodes of a host, each at its endpoint.

ghost use Rattle.std.specs.Prelude.{◌≡◌, ◌<◌, ◌++◌, ◌∷◌, [], length, position, find, IfOk, IfSome};
ghost use Rattle.std.specs.Option.{option_map};
ghost use Rattle.ch_model.specs.CellSteps.{is_at};
ghost use Rattle.ch_model.specs.Node.{node_new, node_make, node_command, node_event, node_shut, node_life, node_waiting, node_args, target_node as target_node_of};
ghost use Rattle.ch_model.specs.NodeActs.{stopping};
ghost use Rattle.ch_cell.specs.Seats.{seat_asked, node_at, directed_from, directed_of, Answers, acts_in};

use ch_base::{Address, Event, OutOfMemory, Room};
use ch_model::{Act, CommandError};
use ch_node::Node;
use ch_static::{Command, Table};
use std::alloc::Global;
use std::marker::Model;

/// A node at an endpoint. Contracts see the endpoint's number and what the node keeps.
#[derive(Drop)]
struct Seat {
    end: u32,
    node: Node,
}

impl Model for Seat {
    ghost use Rattle.std.specs.Prelude.{ℕ};
    ghost use Rattle.ch_model.specs.NodeState.{NodeState};

    ghost Value = { ℕ × NodeState };

    ghost view = { λ s. (s.end, s.node.state) };
}

/// Where a command comes from, and the node that it is directed to, if to any.
#[derive(Drop)]
pub(crate) struct Directed {
    pub(crate) own: Address,
    pub(crate) peer: Option<Address>,
}

impl Model for Directed {
    ghost use Rattle.ch_cell.specs.Seats.{Whither};

    ghost Value = { Whither };

    ghost view = { λ d. record { own = d.own; peer = d.peer } };
}

/// The nodes of a host, in order of their endpoints' opening. Contracts see a list.
#[derive(Drop)]
pub(crate) struct Seats {
    seats: Vec<Seat>,
}

impl Model for Seats {
    ghost use Rattle.std.specs.Prelude.{ℕ, List};
    ghost use Rattle.ch_model.specs.NodeState.{NodeState};

    ghost Value = { List (ℕ × NodeState) };

    ghost view = { λ s. s.seats.items };
}

/// Where a command of a process of a node is directed.
fn whither(node: &Node, by: u32, command: &Command) -> Result<Directed, OutOfMemory>
    ensures { IfOk result (λ directed. directed ≡ directed_from by command.now node.now.state) }
{
    Ok(Directed {
        own: node.id(0)?.node,
        peer: node.target_node(by, command)?,
    })
}

impl Seats {
    /// No node.
    pub(crate) fn new(alloc: Global) -> Seats
        ensures { result ≡ [] }
    {
        Seats {
            seats: Vec::new(alloc),
        }
    }

    /// One more node, where nothing has happened.
    pub(crate) fn add(
        &mut self,
        end: u32,
        own: Address,
        unique: u32,
        labels: Table,
    ) -> Result<(), OutOfMemory>
        ensures { IfOk result (λ _. self.new ≡ self.old ++ (end, node_new own unique labels) ∷ []) }
    {
        let node = Node::new(self.alloc(), own, unique, labels);
        self.seats.push(Seat { end, node })?;
        Ok(())
    }

    /// Where its memory is from.
    pub(crate) fn alloc(&self) -> Global {
        *self.seats.allocator()
    }

    /// The place of the node at an endpoint.
    fn place(&self, end: u32) -> Option<usize>
        ensures place { result ≡ position (is_at end) self.now }
        ensures bound { IfSome result (λ place. place < length self.now) }
    {
        self.seats.iter().position(|seat| seat.end == end)
    }

    /// The node at an endpoint. It takes no memory.
    pub(crate) fn at(&self, end: u32) -> Option<&Node>
        ensures { option_map (λ node. node.now.state) result ≡ node_at end self.now }
    {
        match self.place(end) {
            None => None,
            Some(place) => Some(&self.seats[place].node),
        }
    }

    /// The node at an endpoint makes a process.
    pub(crate) fn make(&mut self, end: u32) -> Option<Result<Vec<Act>, CommandError>>
        ensures { Answers (seat_asked end node_make self.old) (option_map (acts_in (λ acts. acts.items)) result) self.old self.new }
    {
        match self.place(end) {
            None => None,
            Some(place) => Some(self.seats[place].node.make()),
        }
    }

    /// A process of the node at an endpoint asks something, where the link has this room.
    pub(crate) fn command(
        &mut self,
        end: u32,
        by: u32,
        command: Command,
        room: Room,
    ) -> Option<Result<Vec<Act>, CommandError>>
        ensures { Answers (seat_asked end (λ node. node_command node by command room) self.old) (option_map (acts_in (λ acts. acts.items)) result) self.old self.new }
    {
        match self.place(end) {
            None => None,
            Some(place) => Some(self.seats[place].node.command(by, command, room)),
        }
    }

    /// The node at an endpoint hears an event.
    pub(crate) fn event(&mut self, end: u32, event: Event) -> Option<Result<Vec<Act>, CommandError>>
        ensures { Answers (seat_asked end (λ node. stopping (node_event node event)) self.old) (option_map (acts_in (λ acts. acts.items)) result) self.old self.new }
    {
        match self.place(end) {
            None => None,
            Some(place) => Some(self.seats[place].node.event(event)),
        }
    }

    /// Where a command of a process of the node at an endpoint is directed.
    pub(crate) fn directed(
        &self,
        end: u32,
        by: u32,
        command: &Command,
    ) -> Result<Option<Directed>, OutOfMemory>
        ensures { IfOk result (λ directed. directed ≡ directed_of by command.now (find (is_at end) self.now)) }
    {
        match self.place(end) {
            None => Ok(None),
            Some(place) => Ok(Some(whither(&self.seats[place].node, by, command)?)),
        }
    }

    /// The node at an endpoint is shut.
    pub(crate) fn shut(&mut self, end: u32) -> Option<Result<Vec<Act>, CommandError>>
        ensures { Answers (seat_asked end node_shut self.old) (option_map (acts_in (λ acts. acts.items)) result) self.old self.new }
    {
        match self.place(end) {
            None => None,
            Some(place) => Some(self.seats[place].node.shut()),
        }
    }
}
