//! The laws of what plain nodes ask: a node's own turn leaves a plain world, and dials another node of the journal if it dials at all.
//!
//! In a journal of many nodes a process sends to processes, takes its messages and ends. For a message to a process of another
//! node its node opens a connection, tells at once between which processes it goes, and sends the message on it. All of that
//! goes on the one link with that node; so one socket is dialed at most, and that where the link is idle. Here that is proved
//! turn by turn, for the worlds that are plain; what hosts read is proved beside.
//!
//! No code: definitions, and laws as clauses of empty functions, over the model below.

ghost use Rattle.std.specs.Prelude.{◌≡◌, ◌≤◌, ℕ, List, ◌++◌, length, find, slice_get, Some, Ok};
ghost use Rattle.ch_base.specs.Addresses.{IsAddress};
ghost use Rattle.ch_ident.specs.declared.identifier.ProcessId.{ProcessId};
ghost use Rattle.ch_ident.specs.declared.identifier.Identifier.TheVariants.{Process};
ghost use Rattle.ch_ident.specs.declared.node_message.NodeMessage.TheVariants.{Opening};
ghost use Rattle.ch_ident.specs.Spelling.{message};
ghost use Rattle.ch_static.specs.declared.command.Command.{Command};
ghost use Rattle.ch_wire.specs.declared.TheConstants.{MOST_PAYLOAD_BYTES};
ghost use Rattle.ch_model.specs.declared.act.Act.{Act};
ghost use Rattle.ch_model.specs.declared.entry.Entry.{Entry};
ghost use Rattle.ch_model.specs.declared.line.Line.{Line};
ghost use Rattle.ch_model.specs.declared.line.What.{What};
ghost use Rattle.ch_model.specs.declared.local.LocalEntry.{LocalEntry};
ghost use Rattle.ch_model.specs.declared.name.ProcName.{ProcName};
ghost use Rattle.ch_model.specs.Cell.{room_for};
ghost use Rattle.ch_model.specs.CellSteps.{is_at, with_node, acts_on};
ghost use Rattle.ch_model.specs.Node.{node_make, node_command, target_node};
ghost use Rattle.ch_model.specs.NodeState.{NodeState};
ghost use Rattle.ch_model.specs.World.{names_of};
ghost use Rattle.ch_model.specs.WorldState.{Cell, World};
ghost use Rattle.ch_laws_bytes.specs.Streams.{AreAddresses};
ghost use Rattle.ch_laws_calls.specs.Calls.{Anything};
ghost use Rattle.ch_laws_calls.specs.Peers.{Peers};
ghost use Rattle.ch_laws_calls.specs.Sound.{Sound};
ghost use Rattle.ch_laws_connections.specs.Fits.{CellHolds};
ghost use Rattle.ch_laws_log.specs.HostEnds.{steps_in};
ghost use Rattle.ch_laws_many.proofs.Reached.{IsJournal};
ghost use Rattle.ch_laws_plain.specs.Plain.{WorldIsPlain};
ghost use Rattle.ch_laws_plain.specs.AsksAsks.{goes_to, DialsOnce};
ghost use Rattle.ch_laws_plain.specs.AsksGiven.{Given, EndsDialNone, ItemsDialNone};
ghost use Rattle.ch_laws_calls.specs.Turns.{told_on, IsAsked, end_in, KeepsTurns};

/// The message that opens a connection between two processes fits in a frame, where the addresses of their nodes may be spelled.
pub fn openings_fit_in_frames()
    ensures { (from to : ProcessId) → IsAddress from.node → IsAddress to.node → length (message (Opening (Process from) (Process to))) ≤ MOST_PAYLOAD_BYTES }
{}

/// What a process asks of its node, by a line of a journal of many nodes, dials nothing, or one socket alone: for the link of its own
/// endpoint with the node where the message goes, which is another.
pub fn node_turns_dial_once()
    ensures { (journal : List Line) → AreAddresses (names_of journal) → (log : List Entry) (world : World) (what : What) (by : ProcName) (command : Command) (place : ℕ) (cell : Cell × ℕ) (number : ℕ) (node : NodeState) (acts : List Act) (next : NodeState) (told : List LocalEntry) (after : Cell) → IsAsked journal world what by command place
        → slice_get world.cells place ≡ Some cell → find (is_at (end_in world by)) cell.0.nodes ≡ Some (number, node) → node_command node by.counter command (room_for cell.0.host (end_in world by) node.own (target_node node by.counter command)) ≡ Ok (acts, next)
        → acts_on (end_in world by) acts (with_node (end_in world by) next cell.0) ≡ Ok (told, after) → Sound journal log world → CellHolds cell.0 → WorldIsPlain journal world → DialsOnce node.own (end_in world by) (goes_to node.own command) (steps_in told) after.host }
{}

/// In a plain world, where hosts and world agree and each node agrees with its host on the connections that it has open, a node that
/// makes a process, or does what a process asks of it, with all its acts, leaves the world plain.
pub fn node_turns_stay_plain()
    ensures made { (journal : List Line) (log : List Entry) (world : World) (place : ℕ) (cell : Cell × ℕ) (end number : ℕ) (node : NodeState) (acts : List Act) (next : NodeState) (told : List LocalEntry) (after : Cell) → slice_get world.cells place ≡ Some cell → find (is_at end) cell.0.nodes ≡ Some (number, node) → node_make node ≡ Ok (acts, next)
        → acts_on end acts (with_node end next cell.0) ≡ Ok (told, after) → Sound journal log world → CellHolds cell.0 → WorldIsPlain journal world → WorldIsPlain journal (told_on place cell after told world).1 }
    ensures asked { (journal : List Line) → AreAddresses (names_of journal) → (log : List Entry) (world : World) (what : What) (by : ProcName) (command : Command) (place : ℕ) (cell : Cell × ℕ) (number : ℕ) (node : NodeState) (acts : List Act) (next : NodeState) (told : List LocalEntry) (after : Cell) → IsAsked journal world what by command place
        → slice_get world.cells place ≡ Some cell → find (is_at (end_in world by)) cell.0.nodes ≡ Some (number, node) → node_command node by.counter command (room_for cell.0.host (end_in world by) node.own (target_node node by.counter command)) ≡ Ok (acts, next)
        → acts_on (end_in world by) acts (with_node (end_in world by) next cell.0) ≡ Ok (told, after) → Sound journal log world → CellHolds cell.0 → WorldIsPlain journal world → WorldIsPlain journal (told_on place cell after told world).1 }
{}

/// Such a turn dials between two nodes of the journal, if it dials. So each dial of a log is between two nodes of the journal, turn
/// by turn, as long as no host dials where it reads an item or is handed the end of a socket's input: which is so of plain worlds.
pub fn dials_are_between_peers()
    ensures made { (journal : List Line) (log : List Entry) (world : World) (place : ℕ) (cell : Cell × ℕ) (end number : ℕ) (node : NodeState) (acts : List Act) (next : NodeState) (told : List LocalEntry) (after : Cell) → slice_get world.cells place ≡ Some cell → find (is_at end) cell.0.nodes ≡ Some (number, node) → node_make node ≡ Ok (acts, next)
        → acts_on end acts (with_node end next cell.0) ≡ Ok (told, after) → Sound journal log world → CellHolds cell.0 → WorldIsPlain journal world → Peers journal log world → Peers journal (log ++ (told_on place cell after told world).0) (told_on place cell after told world).1 }
    ensures asked { (journal : List Line) → IsJournal journal → AreAddresses (names_of journal) → (log : List Entry) (world : World) (what : What) (by : ProcName) (command : Command) (place : ℕ) (cell : Cell × ℕ) (number : ℕ) (node : NodeState) (acts : List Act) (next : NodeState) (told : List LocalEntry) (after : Cell) → IsAsked journal world what by command place
        → slice_get world.cells place ≡ Some cell → find (is_at (end_in world by)) cell.0.nodes ≡ Some (number, node) → node_command node by.counter command (room_for cell.0.host (end_in world by) node.own (target_node node by.counter command)) ≡ Ok (acts, next)
        → acts_on (end_in world by) acts (with_node (end_in world by) next cell.0) ≡ Ok (told, after) → Sound journal log world → CellHolds cell.0 → WorldIsPlain journal world → Peers journal log world → Peers journal (log ++ (told_on place cell after told world).0) (told_on place cell after told world).1 }
    ensures kept { (journal : List Line) → IsJournal journal → AreAddresses (names_of journal) → EndsDialNone (Given journal) → ItemsDialNone (Given journal) → KeepsTurns journal (Given journal) Anything (Peers journal) }
{}
