//! The laws of epochs and indexes: the messages of each pair of processes are numbered as they come.
//!
//! No code: laws as clauses of empty functions, over the model below.
#![tactic(auto)]

ghost use Rattle.std.specs.Prelude.{◌≡◌, ℕ, List, Ok};
ghost use Rattle.ch_base.specs.declared.address.Address.{Address};
ghost use Rattle.ch_base.specs.declared.event.Event.{Event};
ghost use Rattle.ch_base.specs.declared.event.Room.{Room};
ghost use Rattle.ch_ident.specs.declared.identifier.ProcessId.{ProcessId};
ghost use Rattle.ch_static.specs.declared.command.Command.{Command};
ghost use Rattle.ch_model.specs.declared.act.Act.{Act};
ghost use Rattle.ch_model.specs.NodeState.{NodeState};
ghost use Rattle.ch_model.specs.Node.{node_new, node_make, node_command, node_event, node_shut};
ghost use Rattle.ch_model.specs.declared.entry.Entry.{Entry};
ghost use Rattle.ch_model.specs.declared.entry.Verdict.{Verdict};
ghost use Rattle.ch_model.specs.declared.local.LocalEntry.{LocalEntry};
ghost use Rattle.ch_model.specs.declared.local.LocalEvent.{LocalEvent};
ghost use Rattle.ch_model.specs.Cell.{cell_step, cell_new};
ghost use Rattle.ch_model.specs.Epochs.{FollowsEpochs};
ghost use Rattle.ch_model.specs.Journal.{journal_of};
ghost use Rattle.ch_model.specs.LinesBuilt.{many_nodes};
ghost use Rattle.ch_model.specs.World.{log_of};
ghost use Rattle.ch_model.specs.WorldState.{Cell};
ghost use Rattle.ch_laws_epochs.specs.Numbers.{stands, stands_at, AreSeated, notes_of, notes_in, Numbers};

/// Whatever a node does, for a process, of itself or of an event, each message of a pair of processes is told with the
/// epoch and the index where the pair stood, and each reconnect with the next epoch; and the pair then stands where
/// these led it, and nowhere else: also where a link fails, and where a process is over. At a new node none is used.
pub fn nodes_number()
    ensures new { (own : Address) (unique : ℕ) (labels : List (List ℕ)) (by to : ProcessId) → stands (node_new own unique labels) by to ≡ (0, 0) }
    ensures make { (node after : NodeState) (acts : List Act) (by to : ProcessId) → node_make node ≡ Ok (acts, after) → Numbers by to (notes_of acts) (stands node by to) (stands after by to) }
    ensures command { (node after : NodeState) (n : ℕ) (command : Command) (room : Room) (acts : List Act) (by to : ProcessId) → node_command node n command room ≡ Ok (acts, after) → Numbers by to (notes_of acts) (stands node by to) (stands after by to) }
    ensures event { (node after : NodeState) (event : Event) (acts : List Act) (by to : ProcessId) → node_event node event ≡ Ok (acts, after) → Numbers by to (notes_of acts) (stands node by to) (stands after by to) }
    ensures shut { (node after : NodeState) (acts : List Act) (by to : ProcessId) → node_shut node ≡ Ok (acts, after) → Numbers by to (notes_of acts) (stands node by to) (stands after by to) }
{}

/// So it is at a cell, with all that follows an event there: of each node of the cell, at the endpoint that its address
/// numbers, whatever the others tell. A new cell is so numbered, and each is after what happens where it was before.
pub fn cells_number()
    ensures new { (host : List ℕ) (port : ℕ) (circle : List (List ℕ)) (nodes : List (ℕ × ℕ × List (List ℕ))) → AreSeated (cell_new host port circle nodes) }
    ensures seated { (cell after : Cell) (event : LocalEvent) (verdict : Verdict) (told : List LocalEntry) → AreSeated cell → cell_step cell event ≡ Ok ((verdict, told), after) → AreSeated after }
    ensures numbers { (cell after : Cell) (event : LocalEvent) (verdict : Verdict) (told : List LocalEntry) (by to : ProcessId) → AreSeated cell → cell_step cell event ≡ Ok ((verdict, told), after) → Numbers by to (notes_in told) (stands_at cell by to) (stands_at after by to) }
{}

/// Messages are numbered as they come, in the log of each journal that the grammar of many nodes reads: each stands in its
/// pair's epoch, with the epoch's next index. No line of such a journal reconnects, so that each pair stays in its first.
pub fn messages_numbered()
    ensures { (bytes : List ℕ) (log : List Entry) → log_of (journal_of many_nodes bytes) ≡ Ok log → FollowsEpochs log }
{}
