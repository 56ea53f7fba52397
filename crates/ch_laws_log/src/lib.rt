//! The laws of the log of a whole world, for the journals of many nodes: what holds of each line and of each socket.
//!
//! No code: laws as clauses of empty functions, over the model below. The laws of one node's log, and of items at a
//! host, stand beside.
#![tactic(auto)]

ghost use Rattle.std.specs.Prelude.{◌≡◌, ℕ, List, true, false, find, is_some, Some, Ok, IsTrue};
ghost use Rattle.std.specs.List.{list_any};
ghost use Rattle.ch_base.specs.declared.address.Address.{Address};
ghost use Rattle.ch_model.specs.declared.entry.Entry.{Entry};
ghost use Rattle.ch_model.specs.declared.entry.Verdict.{Verdict};
ghost use Rattle.ch_model.specs.declared.entry.Verdict.TheVariants as verdicts;
ghost use Rattle.ch_model.specs.declared.line.Line.{Line};
ghost use Rattle.ch_model.specs.declared.line.What.TheVariants as events;
ghost use Rattle.ch_model.specs.declared.local.LocalEntry.{LocalEntry};
ghost use Rattle.ch_model.specs.declared.local.LocalEvent.{LocalEvent};
ghost use Rattle.ch_model.specs.declared.name.End.{End};
ghost use Rattle.ch_model.specs.declared.name.End.TheVariants.{O, T};
ghost use Rattle.ch_model.specs.declared.name.SockName.{SockName};
ghost use Rattle.ch_model.specs.declared.step.SocketEvent.{SocketEvent};
ghost use Rattle.ch_model.specs.declared.step.SocketEvent.TheVariants as sockets;
ghost use Rattle.ch_model.specs.declared.step.Step.{Step};
ghost use Rattle.ch_model.specs.declared.step.Weight.{Weight};
ghost use Rattle.ch_model.specs.AccountsBytes.{feeds_the_unread, feeds_the_end};
ghost use Rattle.ch_model.specs.Answers.{answer_to, ok_where};
ghost use Rattle.ch_model.specs.AnswersEntries.{refuses};
ghost use Rattle.ch_model.specs.Cell.{cell_step};
ghost use Rattle.ch_model.specs.HasAnswers.{marks_all, is_of_done, has_own_first};
ghost use Rattle.ch_model.specs.Host.{host_on, host_next};
ghost use Rattle.ch_model.specs.HostCalls.{host_new, host_connect, host_send, host_close, host_close_endpoint};
ghost use Rattle.ch_model.specs.HostState.{HostState};
ghost use Rattle.ch_model.specs.AnswersOwn.{is_own};
ghost use Rattle.ch_model.specs.Logs.{each, each_between, next_is, some_and};
ghost use Rattle.ch_model.specs.Sockets.{is_opening};
ghost use Rattle.ch_model.specs.Stages.{Pending, Open};
ghost use Rattle.ch_model.specs.World.{names_of, world_new, log_from, log_of};
ghost use Rattle.ch_model.specs.WorldLines.{can_join, can_come, can_feed, line_done};
ghost use Rattle.ch_model.specs.WorldSockets.{is_socket_named};
ghost use Rattle.ch_model.specs.WorldState.{Cell, WorldSocket, World};
ghost use Rattle.ch_model.specs.WorldSteps.{all_told};
ghost use Rattle.ch_laws_log.specs.Agrees.{IsPlaced, IsOwned, AllPlaced, IsAsTold, is_refusal};
ghost use Rattle.ch_laws_log.specs.Declared.{AreApart, begins_own};
ghost use Rattle.ch_laws_log.specs.HostEnds.{stage_at, IsSound, Tells, AllTold, opens_nothing, opens_no_end, steps_in, AreNewTo, stage_after_all};
ghost use Rattle.ch_laws_log.specs.Lines.{AllLines, AreNumbered, is_of_no_end, is_of_network, feeds_some, is_without_refusal};
ghost use Rattle.ch_laws_log.specs.Scenes.{sends_to_another};
ghost use Rattle.ch_laws_log.specs.WorldEnds.{stage_held, stage_there};

/// The log of a journal marks each of its event lines once, in order, and no other line: whatever lines it has, in a
/// settle too. Declarations have no mark.
pub fn marked_once()
    ensures { (journal : List Line) (log : List Entry) → log_of journal ≡ Ok log → IsTrue (marks_all journal log) }
{}

/// Where an event line isn't done, nothing follows its mark: each other entry stands after a line that was done. So it
/// is for journals whose lines have rising numbers and don't join, refuse, feed or lose.
pub fn done_lines_alone()
    ensures { (least : ℕ) (journal : List Line) (log : List Entry) → AreNumbered least journal → AllLines is_of_no_end journal → log_of journal ≡ Ok log → IsTrue (each (is_of_done journal) log) }
{}

/// A line that is done has its own entry first, for journals of rising numbers whose lines happen to sockets and
/// timers: those that join, come, refuse, cut, lose, poke and quit, timers that are due, and settling, which has none.
pub fn own_entry_first()
    ensures { (least : ℕ) (journal : List Line) (log : List Entry) → AreNumbered least journal → AllLines is_of_network journal → log_of journal ≡ Ok log → IsTrue (each_between (has_own_first journal) log) }
{}

/// So does each line that a declared node hears: one that makes a process or shuts the node, and one by which a process
/// sends, reconnects, receives, opens a port, takes from it, watches or takes a watch back, registers or unregisters a name,
/// spawns, ends, fails or falls, or asks another node for a name. An exit or kill at another node has none. So it is for
/// journals of rising numbers with such lines and those above, where no two names are declared at one address, and where the
/// nodes of the lines and of what they send to, watch, spawn at or ask are declared. A journal of two nodes is such.
pub fn own_entry_of_nodes_first()
    ensures law { (least : ℕ) (journal : List Line) (log : List Entry) → AreNumbered least journal → AreApart (names_of journal) → AllLines (begins_own (names_of journal)) journal → log_of journal ≡ Ok log → IsTrue (each_between (has_own_first journal) log) }
    ensures such { AreNumbered 0 sends_to_another × AreApart (names_of sends_to_another) × AllLines (begins_own (names_of sends_to_another)) sends_to_another }
{}

/// After some lines, of whatever kind and settling included, the world has the sockets that the log opened, under
/// the same names. Each end stands as the log tells, is cut where the log cuts it, and has unread just the bytes that
/// the log wrote towards it and didn't feed.
///
/// Of an opener's end that is so until its dial is refused: the log ends it with that entry, the world when its host
/// leaves it. Of a target's end it is so where the end is of a cell exactly if the socket's name leads to a host.
pub fn sockets_as_told()
    ensures sockets { (journal lines : List Line) (log : List Entry) (world : World) (s : SockName) → log_from (world_new journal) lines ≡ Ok (log, world) → list_any (is_opening s) log ≡ is_some (find (is_socket_named s) world.sockets) }
    ensures openers { (journal lines : List Line) (log : List Entry) (world : World) (s : SockName) (socket : WorldSocket) → log_from (world_new journal) lines ≡ Ok (log, world) → find (is_socket_named s) world.sockets ≡ Some socket → list_any (refuses s) log ≡ false → IsAsTold journal log s O socket.o }
    ensures targets { (journal lines : List Line) (log : List Entry) (world : World) (s : SockName) (socket : WorldSocket) → log_from (world_new journal) lines ≡ Ok (log, world) → find (is_socket_named s) world.sockets ≡ Some socket → IsPlaced journal socket → IsAsTold journal log s T socket.t }
{}

/// No more bytes are fed to an end than were unread there by the log, and what is fed is their front, since bytes are
/// unread in the order in which they were written. The end of input is fed only where nothing is unread, and the
/// other end has ended or this one was cut, if each line that feeds asks for a byte at least. So it is after any lines,
/// where each target's end is of a cell exactly if its name leads to a host, and no dial was refused.
pub fn fed_was_unread()
    ensures unread_alone { (journal lines : List Line) (log : List Entry) (world : World) → log_from (world_new journal) lines ≡ Ok (log, world) → AllPlaced journal world → list_any is_refusal log ≡ false → IsTrue (each (feeds_the_unread journal) log) }
    ensures true_ends { (journal lines : List Line) (log : List Entry) (world : World) → AllLines feeds_some lines → log_from (world_new journal) lines ≡ Ok (log, world) → AllPlaced journal world → list_any is_refusal log ≡ false → IsTrue (each (feeds_the_end journal) log) }
{}

/// A line that feeds, where it is done, has its own entry first: so many bytes as it asks for, and no more than were unread
/// by the log. So it is after any lines, where each target's end is of a cell exactly if its name leads to a host, and
/// this dial wasn't refused.
pub fn fed_entry_first()
    ensures { (journal lines : List Line) (log : List Entry) (world : World) (s : SockName) (e : End) (count : ℕ) (told : List Entry) (after : World) → log_from (world_new journal) lines ≡ Ok (log, world) → AllPlaced journal world → list_any (refuses s) log ≡ false
        → line_done (events.Feed s e count) world ≡ Ok ((verdicts.Ok, told), after) → IsTrue (next_is (is_own journal log (events.Feed s e count)) told) }
{}

/// No dial is refused where no line refuses one or settles.
pub fn none_refused_without()
    ensures { (journal lines : List Line) (log : List Entry) (world : World) → AllLines is_without_refusal lines → log_from (world_new journal) lines ≡ Ok (log, world) → list_any is_refusal log ≡ false }
{}

/// After any lines the log shows of joining, coming and feeding just what the world's own test of the socket says: the
/// line happens where the socket was opened, and its end stands, as the line asks. A line that comes is answered so.
/// The others are answered by the end's host, which hears them.
pub fn tests_as_told()
    ensures join { (journal lines : List Line) (log : List Entry) (world : World) (s : SockName) → log_from (world_new journal) lines ≡ Ok (log, world) → AllPlaced journal world → list_any (refuses s) log ≡ false → answer_to journal log (events.Join s) ≡ ok_where (some_and can_join (find (is_socket_named s) world.sockets)) }
    ensures come { (journal lines : List Line) (log : List Entry) (world : World) (s : SockName) → log_from (world_new journal) lines ≡ Ok (log, world) → AllPlaced journal world → answer_to journal log (events.Come s) ≡ ok_where (some_and can_come (find (is_socket_named s) world.sockets)) }
    ensures feed { (journal lines : List Line) (log : List Entry) (world : World) (s : SockName) (e : End) (count : ℕ) → log_from (world_new journal) lines ≡ Ok (log, world) → AllPlaced journal world → ((socket : WorldSocket) → find (is_socket_named s) world.sockets ≡ Some socket → IsOwned journal socket) → list_any (refuses s) log ≡ false
        → answer_to journal log (events.Feed s e count) ≡ ok_where (some_and (can_feed e) (find (is_socket_named s) world.sockets)) }
    ensures came { (journal lines : List Line) (log : List Entry) (world : World) (s : SockName) (verdict : Verdict) (told : List Entry) (after : World) → log_from (world_new journal) lines ≡ Ok (log, world) → AllPlaced journal world → line_done (events.Come s) world ≡ Ok ((verdict, told), after) → verdict ≡ answer_to journal log (events.Come s) }
{}

/// The steps that a host tells say how its ends of sockets stand: each end stands after them as they say, dials are of
/// new sockets with even numbers, and a sound host stays so. So it is of what happens to a
/// socket or a timer, but for an end that opens, of each item that is handled, and of all that an endpoint asks. An end
/// that was pending and is joined is open. A host is sound whose sockets' numbers differ, whose next dials' numbers are free, and whose pending
/// sockets are each of a link; a new one is.
pub fn hosts_tell_ends()
    ensures fresh { (host : List ℕ) (port : ℕ) (circle : List (List ℕ)) → IsSound (host_new host port circle) }
    ensures on { (host : HostState) (event : SocketEvent) → opens_nothing event ≡ true → AllTold host (host_on host event) }
    ensures joined { (host after : HostState) (sock : ℕ) (told : List Step) → IsSound host → host_on host (sockets.Joined sock) ≡ Ok (told, after) → stage_at host sock ≡ Some Pending → stage_at after sock ≡ Some Open }
    ensures next { (host after : HostState) (told : List Step) → IsSound host → host_next host ≡ Ok (Some told, after) → Tells host told after }
    ensures connect { (host : HostState) (end : ℕ) (peer : Address) (conn : ℕ) → AllTold host (host_connect host end peer conn) }
    ensures send { (host : HostState) (end conn : ℕ) (payload : List ℕ) (weight : Weight) → AllTold host (host_send host end conn payload weight) }
    ensures close { (host : HostState) (end conn : ℕ) → AllTold host (host_close host end conn) }
    ensures close_endpoint { (host : HostState) (end : ℕ) → AllTold host (host_close_endpoint host end) }
{}

/// So it is of a cell, a host with its nodes: of all that followed on an event that opens no end of the host, the steps,
/// in the order in which they were told, say how the ends stand after it.
pub fn cells_tell_ends()
    ensures { (cell after : Cell) (event : LocalEvent) (verdict : Verdict) (told : List LocalEntry) → opens_no_end event ≡ true → IsSound cell.host → cell_step cell event ≡ Ok ((verdict, told), after) → Tells cell.host (steps_in told) after.host }
{}

/// The world's ends follow what a cell tells: of the cell at this place, the end under each number stands as the steps
/// that were told say, and no end of another cell has changed. So it is in a world after any lines, where what is dialed
/// is new to the cell.
pub fn worlds_follow_cells()
    ensures { (journal lines : List Line) (log : List Entry) (world : World) (place : ℕ) (cell : Cell) (told : List LocalEntry) → log_from (world_new journal) lines ≡ Ok (log, world) → ((m : ℕ) → AreNewTo m (steps_in told) (stage_held place m world.sockets)) → (p n : ℕ)
        → stage_held p n (all_told place cell told world).1.sockets ≡ stage_there place p (stage_after_all n (steps_in told) (stage_held p n world.sockets)) (stage_held p n world.sockets) }
{}
