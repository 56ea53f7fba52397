//! The laws of the lives of processes: which processes of a node there are and which are over, that what a node tells says
//! so, and that the log of a journal of many nodes does.
//!
//! No code: laws as clauses of empty functions, over the model and the laws of many nodes below.
#![tactic(auto)]

ghost use Rattle.std.specs.Prelude.{◌≡◌, ℕ, List, [], Ok, IsTrue};
ghost use Rattle.ch_base.specs.declared.event.Event.{Event};
ghost use Rattle.ch_base.specs.declared.event.Room.{Room};
ghost use Rattle.ch_static.specs.declared.command.Command.{Command};
ghost use Rattle.ch_model.specs.declared.act.Act.{Act};
ghost use Rattle.ch_model.specs.declared.entry.Entry.{Entry};
ghost use Rattle.ch_model.specs.declared.entry.Verdict.{Verdict};
ghost use Rattle.ch_model.specs.declared.local.LocalEntry.{LocalEntry};
ghost use Rattle.ch_model.specs.declared.local.LocalEvent.{LocalEvent};
ghost use Rattle.ch_model.specs.Cell.{cell_new, cell_step};
ghost use Rattle.ch_model.specs.Journal.{journal_of};
ghost use Rattle.ch_model.specs.LifeRules.{is_numbered, ends_once, concerns_no_dead};
ghost use Rattle.ch_model.specs.LinesBuilt.{many_nodes};
ghost use Rattle.ch_model.specs.Logs.{each};
ghost use Rattle.ch_model.specs.Node.{node_make, node_command, node_event, node_shut};
ghost use Rattle.ch_model.specs.NodeState.{NodeState};
ghost use Rattle.ch_model.specs.World.{log_of};
ghost use Rattle.ch_model.specs.WorldState.{Cell};
ghost use Rattle.ch_laws_lives.specs.Rolls.{IsReached, LivesOn};
ghost use Rattle.ch_laws_lives.specs.Cells.{AllReached, CellLivesOn};
ghost use Rattle.ch_laws_lives.specs.Logs.{AreAllowed};

/// Whatever a node does, by a process's command, by an event, in making a process or in being shut: what it tells is what
/// its processes permit. A process that it makes has the number of those that it made before, and isn't over; one that it
/// tells over was made and wasn't over, and is from then on; its shutting ends all; and nothing else changes which there are
/// and which are over. Who says, reconnects, takes, opens a port, watches, asks, gets a name, or is doomed was made by
/// this node and isn't over at that moment; nor is who gets a message, at this node's address.
///
/// So it is where each connection that arrived leads, if to a process or port, to one at the node's own address, and that
/// stays so.
pub fn nodes_tell_lives()
    ensures make { (node after : NodeState) (done : List Act) → IsReached node → node_make node ≡ Ok (done, after) → LivesOn node done after }
    ensures command { (node after : NodeState) (by : ℕ) (command : Command) (room : Room) (done : List Act) → IsReached node → node_command node by command room ≡ Ok (done, after) → LivesOn node done after }
    ensures event { (node after : NodeState) (event : Event) (done : List Act) → IsReached node → node_event node event ≡ Ok (done, after) → LivesOn node done after }
    ensures shut { (node after : NodeState) (done : List Act) → IsReached node → node_shut node ≡ Ok (done, after) → LivesOn node done after }
{}

/// All that follows an event at a cell: each note is told by the node at some endpoint, as the lives of its processes
/// permit at that moment, and after all of it each node's processes are there and over just as the notes tell, in their order.
/// So it is for each cell whose arrived connections lead to its own nodes, as they do in a new cell and after each event.
pub fn cells_tell_lives()
    ensures step { (cell after : Cell) (event : LocalEvent) (verdict : Verdict) (told : List LocalEntry) → AllReached cell.nodes → cell_step cell event ≡ Ok ((verdict, told), after) → CellLivesOn cell told after }
    ensures new { (host : List ℕ) (port : ℕ) (circle : List (List ℕ)) (nodes : List (ℕ × ℕ × List (List ℕ))) → AllReached (cell_new host port circle nodes).nodes }
{}

/// In the log of a journal that the grammar of many nodes reads, a process has the number of those of its node that were
/// made before; each that ends was made and wasn't over; and no process that is over acts or receives.
///
/// More is said by what the log tells of each node, process by process: whoever ends, is doomed, says, reconnects, takes,
/// watches or gets a message was made by the log before, and isn't over by it.
pub fn log_tells_lives()
    ensures allowed { (bytes : List ℕ) (log : List Entry) → log_of (journal_of many_nodes bytes) ≡ Ok log → AreAllowed [] log }
    ensures numbered { (bytes : List ℕ) (log : List Entry) → log_of (journal_of many_nodes bytes) ≡ Ok log → IsTrue (each is_numbered log) }
    ensures over_once { (bytes : List ℕ) (log : List Entry) → log_of (journal_of many_nodes bytes) ≡ Ok log → IsTrue (each ends_once log) }
    ensures dead_rest { (bytes : List ℕ) (log : List Entry) → log_of (journal_of many_nodes bytes) ≡ Ok log → IsTrue (each concerns_no_dead log) }
{}
