//! The laws of how processes end: by a command of their own, told first, or at once, where they were made for a spawn and
//! their node hasn't the label; and that in the log of a journal of many nodes each end has its cause.
//!
//! No code: laws as clauses of empty functions, over the model and the laws of many nodes below.
#![tactic(auto)]

ghost use Rattle.std.specs.Prelude.{◌≡◌, ℕ, List, ◌++◌, None, Ok, IsTrue};
ghost use Rattle.ch_base.specs.declared.event.Event.{Event};
ghost use Rattle.ch_base.specs.declared.event.Room.{Room};
ghost use Rattle.ch_static.specs.declared.command.Command.{Command};
ghost use Rattle.ch_model.specs.declared.act.Act.{Act};
ghost use Rattle.ch_model.specs.declared.entry.Entry.{Entry};
ghost use Rattle.ch_model.specs.declared.entry.Verdict.{Verdict};
ghost use Rattle.ch_model.specs.declared.line.Line.{Line};
ghost use Rattle.ch_model.specs.declared.local.LocalEntry.{LocalEntry};
ghost use Rattle.ch_model.specs.declared.local.LocalEvent.{LocalEvent};
ghost use Rattle.ch_model.specs.Cell.{cell_step};
ghost use Rattle.ch_model.specs.Journal.{journal_of};
ghost use Rattle.ch_model.specs.LifeRules.{ends_with_cause};
ghost use Rattle.ch_model.specs.LinesBuilt.{many_nodes};
ghost use Rattle.ch_model.specs.Logs.{each};
ghost use Rattle.ch_model.specs.Node.{node_make, node_command, node_event, node_shut};
ghost use Rattle.ch_model.specs.NodeState.{NodeState};
ghost use Rattle.ch_model.specs.World.{world_new, log_from, log_of};
ghost use Rattle.ch_model.specs.WorldState.{Cell, World};
ghost use Rattle.ch_laws_endings.specs.Causes.{AreCaused, AreAsked};
ghost use Rattle.ch_laws_endings.specs.Told.{AllCaused, EndsNobody};

/// Whatever a node does: by a command a process tells its own end first, if that is what it commands, and then for the reason
/// that it gives or fell by; and each other process that the node tells over, by whatever command or event, is the one that it
/// told made directly before, for a spawn, and is over as its label isn't known.
pub fn nodes_end_with_cause()
    ensures make { (node after : NodeState) (done : List Act) → node_make node ≡ Ok (done, after) → AreCaused None done }
    ensures command { (node after : NodeState) (by : ℕ) (command : Command) (room : Room) (done : List Act) → node_command node by command room ≡ Ok (done, after) → AreAsked node by command done }
    ensures event { (node after : NodeState) (event : Event) (done : List Act) → node_event node event ≡ Ok (done, after) → AreCaused None done }
    ensures shut { (node after : NodeState) (done : List Act) → node_shut node ≡ Ok (done, after) → AreCaused None done }
{}

/// All that follows an event at a cell, where that is no command by which a process ends, fails or falls: each process that is
/// told over is the one told made directly before, for a spawn, and is over as its label isn't known.
pub fn cells_end_with_cause()
    ensures { (cell after : Cell) (event : LocalEvent) (verdict : Verdict) (told : List LocalEntry) → EndsNobody event → cell_step cell event ≡ Ok ((verdict, told), after) → AllCaused None told }
{}

/// In the log of a journal that the grammar of many nodes reads, each end of a process is by its line, which was done directly
/// before, or of a process whose label its node hasn't, made directly before. So it is after any first lines of it.
pub fn ends_have_causes()
    ensures log { (bytes : List ℕ) (log : List Entry) → log_of (journal_of many_nodes bytes) ≡ Ok log → IsTrue (each (ends_with_cause (journal_of many_nodes bytes)) log) }
    ensures fronts { (bytes : List ℕ) (front rest : List Line) → front ++ rest ≡ journal_of many_nodes bytes → (log : List Entry) (world : World) → log_from (world_new (journal_of many_nodes bytes)) front ≡ Ok (log, world)
        → IsTrue (each (ends_with_cause (journal_of many_nodes bytes)) log) }
{}
