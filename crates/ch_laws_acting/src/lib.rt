//! The laws of who may act: which processes of a node act no more, as they are doomed or over, that what a node tells says
//! so, and that the log of a journal of many nodes does.
//!
//! No code: laws as clauses of empty functions, over the model, the laws of many nodes and those of lives below.
#![tactic(auto)]

ghost use Rattle.std.specs.Prelude.{◌≡◌, ℕ, List, Ok, IsTrue};
ghost use Rattle.ch_base.specs.declared.event.Event.{Event};
ghost use Rattle.ch_base.specs.declared.event.Room.{Room};
ghost use Rattle.ch_static.specs.declared.command.Command.{Command};
ghost use Rattle.ch_model.specs.declared.act.Act.{Act};
ghost use Rattle.ch_model.specs.declared.entry.Entry.{Entry};
ghost use Rattle.ch_model.specs.declared.entry.Verdict.{Verdict};
ghost use Rattle.ch_model.specs.declared.local.LocalEntry.{LocalEntry};
ghost use Rattle.ch_model.specs.declared.local.LocalEvent.{LocalEvent};
ghost use Rattle.ch_model.specs.Cell.{cell_step};
ghost use Rattle.ch_model.specs.Journal.{journal_of};
ghost use Rattle.ch_model.specs.LinesBuilt.{many_nodes};
ghost use Rattle.ch_model.specs.Logs.{each};
ghost use Rattle.ch_model.specs.Node.{node_make, node_command, node_event, node_shut};
ghost use Rattle.ch_model.specs.NodeState.{NodeState};
ghost use Rattle.ch_model.specs.World.{log_of};
ghost use Rattle.ch_model.specs.WorldState.{Cell};
ghost use Rattle.ch_laws_lives.specs.Cells.{AllReached};
ghost use Rattle.ch_laws_lives.specs.Rolls.{IsReached};
ghost use Rattle.ch_laws_acting.specs.Cells.{CellRestsOn};
ghost use Rattle.ch_laws_acting.specs.Logs.{is_answered_by_lives};
ghost use Rattle.ch_laws_acting.specs.Rolls.{RestsOn};

/// Whatever a node does, by a process's command, by an event, in making a process or in being shut: a process acts from when
/// the node tells that it is made, until it tells that it is doomed or over, or that the node is shut; and nothing else
/// changes who acts. Beside it stands what the lives of its processes permit.
pub fn nodes_tell_rests()
    ensures make { (node after : NodeState) (done : List Act) → IsReached node → node_make node ≡ Ok (done, after) → RestsOn node done after }
    ensures command { (node after : NodeState) (by : ℕ) (command : Command) (room : Room) (done : List Act) → IsReached node → node_command node by command room ≡ Ok (done, after) → RestsOn node done after }
    ensures event { (node after : NodeState) (event : Event) (done : List Act) → IsReached node → node_event node event ≡ Ok (done, after) → RestsOn node done after }
    ensures shut { (node after : NodeState) (done : List Act) → IsReached node → node_shut node ≡ Ok (done, after) → RestsOn node done after }
{}

/// All that follows an event at a cell: each note is told by the node at some endpoint, as its roll permits at that moment,
/// and after all of it the processes of each node act or don't just as the notes tell, in their order. So it is for each
/// cell whose arrived connections lead to its own nodes, as they do in a new cell and after each event.
pub fn cells_tell_rests()
    ensures { (cell after : Cell) (event : LocalEvent) (verdict : Verdict) (told : List LocalEntry) → AllReached cell.nodes → cell_step cell event ≡ Ok ((verdict, told), after) → CellRestsOn cell told after }
{}

/// In the log of a journal that the grammar of many nodes reads, each line by which a process ends is answered as the log
/// before it shows: unknown where the process wasn't made, dead where it was doomed or is over, and ok else. So is each line
/// by which a process sends to one of its own node: it is answered unknown also where the receiver wasn't made, and long
/// where the message fits in no frame. So is a line by which a process sends to another node, or takes, where by that log it
/// wasn't made, or was doomed or is over.
pub fn lines_of_lives_answer()
    ensures { (bytes : List ℕ) (log : List Entry) → log_of (journal_of many_nodes bytes) ≡ Ok log → IsTrue (each (is_answered_by_lives (journal_of many_nodes bytes)) log) }
{}
