//! What a node has said to another is carried, in order, by what it has written for it and what it keeps until their link is up.
//!
//! The claim is `AllSay` of `ch_laws_peers`: each turn of a journal of many nodes keeps it, and so it holds after any lines. A turn in
//! which a node says nothing to the other, and no payload goes, leaves it; so does one in which a message is said and goes on its
//! pair's connection, behind the opening of that where it is new. How a turn of a host goes on in the streams of each two nodes is
//! shown of whatever it puts on its links (`proofs/Turned.antt`, `proofs/Turn.antt`), and what a host puts there for a message, act by
//! act (`proofs/Acts.antt`). Nodes that hear what their host has read only note it, and say nothing. An opening tells its pair, and an
//! id that isn't given yet has carried nothing.
//!
//! No code: definitions, and laws as clauses of empty functions, over the model below.

ghost use Rattle.std.specs.Prelude.{◌≡◌, ◌≤◌, ◌+◌, ◌*◌, ℕ, true, List, [], ◌∷◌, ◌++◌, length, find, slice_get, Some, None, Ok};
ghost use Rattle.ch_base.specs.declared.event.Room.{Room};
ghost use Rattle.ch_ident.specs.declared.identifier.ProcessId.{ProcessId};
ghost use Rattle.ch_ident.specs.declared.message.Message.{Message};
ghost use Rattle.ch_light.specs.declared.TheConstants.{FIRST_ID};
ghost use Rattle.ch_static.specs.declared.command.Command.{Command};
ghost use Rattle.ch_static.specs.declared.command.Command.TheVariants.{Receive};
ghost use Rattle.ch_model.specs.declared.act.Act.{Act};
ghost use Rattle.ch_model.specs.declared.entry.Entry.{Entry};
ghost use Rattle.ch_model.specs.declared.entry.Entry.TheVariants as entries;
ghost use Rattle.ch_model.specs.declared.entry.Verdict.{Verdict};
ghost use Rattle.ch_model.specs.declared.line.Line.{Line};
ghost use Rattle.ch_model.specs.declared.line.What.{What};
ghost use Rattle.ch_model.specs.declared.local.LocalEntry.{LocalEntry};
ghost use Rattle.ch_model.specs.declared.name.End.{End};
ghost use Rattle.ch_model.specs.declared.name.ProcName.{ProcName};
ghost use Rattle.ch_model.specs.declared.name.TargetName.TheVariants as names;
ghost use Rattle.ch_model.specs.declared.step.SocketEvent.TheVariants.{Came, Ended, Fed};
ghost use Rattle.ch_model.specs.declared.step.Step.{Step};
ghost use Rattle.ch_model.specs.AccountsFrames.{pair_opening};
ghost use Rattle.ch_model.specs.AccountsItems.{first_payload};
ghost use Rattle.ch_model.specs.Cell.{room_for};
ghost use Rattle.ch_model.specs.CellSteps.{is_at, with_node, acts_on, steps_on};
ghost use Rattle.ch_model.specs.Host.{host_on, host_next};
ghost use Rattle.ch_model.specs.HostState.{HostState};
ghost use Rattle.ch_model.specs.Node.{node_make, node_command, target_node};
ghost use Rattle.ch_model.specs.NodeState.{NodeState};
ghost use Rattle.ch_model.specs.Journal.{journal_of};
ghost use Rattle.ch_model.specs.LinesBuilt.{many_nodes};
ghost use Rattle.ch_model.specs.World.{world_new, log_from};
ghost use Rattle.ch_model.specs.WorldLines.{can_come};
ghost use Rattle.ch_model.specs.WorldState.{Cell, WorldSocket, World};
ghost use Rattle.ch_race.specs.Pair.{Side};
ghost use Rattle.ch_laws_log.specs.HostEnds.{steps_in};
ghost use Rattle.ch_laws_race.specs.Chains.{unposted};
ghost use Rattle.ch_laws_race.specs.Scene.{Party};
ghost use Rattle.ch_laws_calls.specs.Calls.{done_at, with_host, IsCalled, IsIn, come_in, fed_in};
ghost use Rattle.ch_laws_calls.specs.Tables.{Table, frames_on};
ghost use Rattle.ch_laws_ids.specs.Runs.{AllRun};
ghost use Rattle.ch_laws_plain_logs.specs.Plain.{IsPlain};
ghost use Rattle.ch_laws_calls.specs.Turns.{KeepsTurns, IsAsked, end_in, told_on};
ghost use Rattle.ch_laws_spelled.specs.Spelled as spelled;
ghost use Rattle.ch_laws_peers.specs.Words.{Placed, words_in, datas_in, sayings, opens_one};
ghost use Rattle.ch_laws_peers.specs.Says.{Says, AllSay, has_said};
ghost use Rattle.ch_laws_peers.specs.Standing.{IsOfNodes, Standing};
ghost use Rattle.ch_laws_messages.specs.SaidGiven.{SaidGiven};
ghost use Rattle.ch_laws_messages.specs.SaidGoes.{bare, Stays, Sent, SaysWell, AreWell};
ghost use Rattle.ch_laws_messages.specs.SaidSends.{Went};

/// Where nothing has happened, nothing was said, and all of it is carried.
pub fn nothing_was_said()
    ensures { (journal : List Line) → IsOfNodes journal → AllSay journal [] (world_new journal) }
{}

/// What a node has said to another is carried still after a turn in which it says nothing to it and no payload goes; and so it
/// is with one message more, which goes on the connection of its pair: on one that was opened for it, or on a new one, whose
/// opening goes first.
pub fn what_is_said_is_carried_on()
    ensures stays { (journal : List Line) (log : List Entry) (world : World) (party : Side → Party) (x : Side) (after_log : List Entry) (after : World) → Says journal log world party x → Stays party x log world after_log after → Says journal after_log after party x }
    ensures sends { (journal : List Line) (log : List Entry) (world : World) (party : Side → Party) (x : Side) (after_log : List Entry) (after : World) → Says journal log world party x → Sent journal party x log world after_log after → Says journal after_log after party x }
{}

/// So it is in the turns in which a line's answer is told, and in which a process is made.
pub fn answers_and_makings_say_nothing()
    ensures marked { (journal : List Line) (log : List Entry) (world : World) (number : ℕ) (answer : Verdict) → Standing journal log world → AllSay journal log world → AllSay journal (log ++ entries.Line number answer ∷ []) world }
    ensures made { (journal : List Line) (log : List Entry) (world : World) (place : ℕ) (cell : Cell × ℕ) (end number : ℕ) (node : NodeState) (done : List Act) (next : NodeState) (told : List LocalEntry) (after : Cell) → slice_get world.cells place ≡ Some cell → find (is_at end) cell.0.nodes ≡ Some (number, node) → node_make node ≡ Ok (done, next)
        → acts_on end done (with_node end next cell.0) ≡ Ok (told, after) → Standing journal log world → AllSay journal log world → let all = told_on place cell after told world in AllSay journal (log ++ all.0) all.1 }
{}

/// And in the turns in which a process takes a message from its mailbox, a target's end has come, or an end is handed bytes.
pub fn what_comes_and_is_taken_says_nothing()
    ensures taken { (journal : List Line) (log : List Entry) (world : World) (place : ℕ) (cell : Cell × ℕ) (end number : ℕ) (node : NodeState) (by : ℕ) (mark : List ℕ) (room : Room) (done : List Act) (next : NodeState) (told : List LocalEntry) (after : Cell) → slice_get world.cells place ≡ Some cell → find (is_at end) cell.0.nodes ≡ Some (number, node)
        → node_command node by (Receive mark) room ≡ Ok (done, next) → acts_on end done (with_node end next cell.0) ≡ Ok (told, after) → Standing journal log world → AllSay journal log world → let all = told_on place cell after told world in AllSay journal (log ++ all.0) all.1 }
    ensures came { (journal : List Line) (log : List Entry) (world : World) (socket : WorldSocket) (place : ℕ) (cell : Cell × ℕ) (steps : List Step) (host : HostState) → IsIn socket world → can_come socket ≡ true → socket.t.cell ≡ Some place → IsCalled world place cell (Came (2 * cell.1 + 1) socket.from_host) steps host → Standing journal log world → AllSay journal log world
        → let done = done_at place (cell.0, cell.1 + 1) steps host (come_in place cell socket world) in AllSay journal (log ++ entries.Came socket.name ∷ done.0) done.1 }
    ensures fed { (journal : List Line) (log : List Entry) (world : World) (socket : WorldSocket) (which : End) (count b : ℕ) (bytes : List ℕ) (place n : ℕ) (cell : Cell × ℕ) (steps : List Step) (host : HostState) → IsIn socket world → IsCalled world place cell (Fed n (b ∷ bytes)) steps host → Standing journal log world → AllSay journal log world
        → let done = done_at place cell steps host (fed_in which count socket world) in AllSay journal (log ++ entries.Fed socket.name which (length (b ∷ bytes)) ∷ done.0) done.1 }
{}

/// And in a turn in which a process says a message to a process of another node, and its host puts that on the link with the node:
/// for each two nodes, both ways.
pub fn messages_to_other_nodes_are_carried()
    ensures { (journal : List Line) (log : List Entry) (world : World) (place : ℕ) (cell : Cell × ℕ) (end number : ℕ) (node next : NodeState) (by : ℕ) (to : ProcessId) (epoch index : ℕ) (said : Message) (told : List LocalEntry) (after : Cell) → slice_get world.cells place ≡ Some cell → find (is_at end) cell.0.nodes ≡ Some (number, node)
        → Went journal world cell.0 end node next by to epoch index said told after → Standing journal log world → AllRun log world → SaysWell journal log → AllSay journal log world → let all = told_on place cell after told world in AllSay journal (log ++ all.0) all.1 }
{}

/// So it is, then, in each turn in which a process asks something of its node by a line of the journal: it sends to a process of
/// another node, or of its own; it takes a message; or it ends, and its connections are closed.
pub fn what_is_asked_is_carried_on()
    ensures { (journal : List Line) → IsOfNodes journal → (log : List Entry) (world : World) (what : What) (by : ProcName) (command : Command) (place : ℕ) (cell : Cell × ℕ) (number : ℕ) (node : NodeState) (done : List Act) (next : NodeState) (told : List LocalEntry) (after : Cell) → IsAsked journal world what by command place
        → slice_get world.cells place ≡ Some cell → find (is_at (end_in world by)) cell.0.nodes ≡ Some (number, node) → node_command node by.counter command (room_for cell.0.host (end_in world by) node.own (target_node node by.counter command)) ≡ Ok (done, next)
        → acts_on (end_in world by) done (with_node (end_in world by) next cell.0) ≡ Ok (told, after) → Standing journal log world → AllRun log world → AllSay journal log world
        → let all = told_on place cell after told world in SaysWell journal (log ++ all.0) → AllSay journal (log ++ all.0) all.1 }
{}

/// In a plain log whose sayings are of processes with ids in their rule, what opens the connection of a pair is the opening of no
/// other pair of the two nodes: if some pair that has said something is opened so, it is this one.
pub fn openings_tell_their_pair()
    ensures { (journal : List Line) (x y : List ℕ) (log : List Entry) (p q : ProcName) (opening : List ℕ) → IsPlain log → SaysWell journal log → p.node ≡ x → q.node ≡ y → AreWell journal p q → pair_opening journal p (names.Process q) ≡ Some opening → opens_one journal (sayings x y log) opening ≡ true
        → has_said p q (sayings x y log) ≡ true }
{}

/// Where frames lead to a table of ids, no payload among them goes under the next id, nor under any later one.
pub fn next_ids_are_new()
    ensures { (all : List Placed) (table last : Table) (id : ℕ) → frames_on (bare all) table ≡ Some last → FIRST_ID + length last ≤ id → first_payload id (datas_in (words_in all)) ≡ None }
{}

/// Where a host reads an item, or hears that the input of a socket has ended, and tells its nodes so, these only note it: all steps that
/// are told are those of the host, but for those that post, and the host is as they left it.
pub fn nodes_only_note_what_they_hear()
    ensures item { (journal : List Line) → IsOfNodes journal → (log : List Entry) (world : World) (place : ℕ) (cell : Cell × ℕ) (steps : List Step) (host : HostState) (told : List LocalEntry) (after : Cell) → slice_get world.cells place ≡ Some cell → host_next cell.0.host ≡ Ok (Some steps, host) → steps_on steps (with_host cell host) ≡ Ok (told, after)
        → Standing journal log world → (steps_in told ≡ unposted steps) × (after.host ≡ host) }
    ensures ended { (journal : List Line) → IsOfNodes journal → (log : List Entry) (world : World) (place : ℕ) (cell : Cell × ℕ) (sock : ℕ) (steps : List Step) (host : HostState) (told : List LocalEntry) (after : Cell) → slice_get world.cells place ≡ Some cell → host_on cell.0.host (Ended sock) ≡ Ok (steps, host) → steps_on steps (with_host cell host) ≡ Ok (told, after)
        → Standing journal log world → (steps_in told ≡ unposted steps) × (after.host ≡ host) }
{}

/// So each turn of a journal of many nodes keeps it, and so it begins: all that a node has said to another is carried, in order, by what
/// it has written for it and what it keeps. Given is what stands whatever happens, that each end's frames lead to the ids that its
/// host has given there, and that what is said is by and to processes with ids in their rule.
pub fn all_that_is_said_is_carried()
    ensures kept { (journal : List Line) → IsOfNodes journal → KeepsTurns journal (SaidGiven journal) (SaidGiven journal) (AllSay journal) }
    ensures fresh { (journal : List Line) → IsOfNodes journal → AllSay journal [] (world_new journal) }
{}

/// Where all that a log says is spelled as the grammar of a journal allows, it is by and to processes with ids in their rule.
pub fn what_is_spelled_has_ids()
    ensures { (journal : List Line) (log : List Entry) → spelled.SaysWell journal log → SaysWell journal log }
{}

/// So it is after any first lines of such a journal whose log is well so far; and after any first lines of a journal that the grammar
/// of many nodes reads, of whatever bytes.
pub fn all_is_carried_after_any_lines()
    ensures lines { (journal : List Line) → IsOfNodes journal → (front rest : List Line) → front ++ rest ≡ journal → (log : List Entry) (world : World) → log_from (world_new journal) front ≡ Ok (log, world) → SaysWell journal log → AllSay journal log world }
    ensures many { (bytes : List ℕ) (front rest : List Line) → front ++ rest ≡ journal_of many_nodes bytes → (log : List Entry) (world : World) → log_from (world_new (journal_of many_nodes bytes)) front ≡ Ok (log, world) → AllSay (journal_of many_nodes bytes) log world }
{}
