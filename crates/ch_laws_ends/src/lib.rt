//! The laws of the ends of sockets: the hosts and the world agree on how each end stands.
//!
//! No code: laws as clauses of empty functions, over the model below. What a host tells of its ends, and that the world
//! follows it, are laws of the crate below.
#![tactic(auto)]

ghost use Rattle.std.specs.Prelude.{◌≡◌, ℕ, Bool, List, true, find, slice_get, Some, Ok, IsTrue};
ghost use Rattle.ch_model.specs.declared.entry.Entry.{Entry};
ghost use Rattle.ch_model.specs.declared.entry.Verdict.{Verdict};
ghost use Rattle.ch_model.specs.declared.entry.Verdict.TheVariants as verdicts;
ghost use Rattle.ch_model.specs.declared.line.Line.{Line};
ghost use Rattle.ch_model.specs.declared.line.What.TheVariants as events;
ghost use Rattle.ch_model.specs.declared.name.End.{End};
ghost use Rattle.ch_model.specs.declared.name.End.TheVariants.{O};
ghost use Rattle.ch_model.specs.declared.name.SockName.{SockName};
ghost use Rattle.ch_model.specs.AccountsBytes.{feeds_the_unread, feeds_the_end};
ghost use Rattle.ch_model.specs.Answers.{answer_to, ok_where};
ghost use Rattle.ch_model.specs.AnswersOwn.{is_own};
ghost use Rattle.ch_model.specs.Cell.{stands};
ghost use Rattle.ch_model.specs.HasAnswers.{is_of_done};
ghost use Rattle.ch_model.specs.Logs.{each, each_between, next_is, some_and};
ghost use Rattle.ch_model.specs.Stages.{Stage};
ghost use Rattle.ch_model.specs.World.{world_new, log_from, log_of};
ghost use Rattle.ch_model.specs.WorldLines.{can_join, can_refuse, can_feed, is_at_work, line_done};
ghost use Rattle.ch_model.specs.WorldSockets.{end_of, is_socket_named, is_end_of};
ghost use Rattle.ch_model.specs.WorldState.{Cell, WorldSocket, World};
ghost use Rattle.ch_laws_log.specs.Agrees.{IsOwned, AllPlaced, IsAsTold};
ghost use Rattle.ch_laws_log.specs.Lines.{AllLines, AreNumbered, feeds_some};
ghost use Rattle.ch_laws_ends.specs.Agree.{AgreesOnEnds, AreApart};
ghost use Rattle.ch_laws_ends.specs.Lines.{AllOwned, is_answered_at_sockets, has_own_at_sockets};
ghost use Rattle.ch_laws_ends.specs.Scenes.{refuses_and_knocks, IsMet};

/// After any lines of any journal, settling included, the hosts and the world agree: each host has under each number an
/// end that stands just as the world's end of it does.
pub fn hosts_agree()
    ensures { (journal lines : List Line) (log : List Entry) (world : World) → log_from (world_new journal) lines ≡ Ok (log, world) → AgreesOnEnds world }
{}

/// Nor do two sockets then have one name, or two ends one number at a host.
pub fn ends_apart()
    ensures { (journal lines : List Line) (log : List Entry) (world : World) → log_from (world_new journal) lines ≡ Ok (log, world) → AreApart world.sockets }
{}

/// So an end's host hears what happens to it, after any lines: each test of how the end stands is the same there and in the
/// world. A line that joins, refuses, feeds or loses is answered ok exactly where the world's own test of the socket
/// passes, and else none.
pub fn ends_are_heard()
    ensures stands { (journal lines : List Line) (log : List Entry) (world : World) (s : SockName) (socket : WorldSocket) (e : End) (place number : ℕ) (cell : Cell × ℕ) (test : Stage → Bool) → log_from (world_new journal) lines ≡ Ok (log, world)
        → find (is_socket_named s) world.sockets ≡ Some socket → is_end_of place number (end_of e socket) ≡ true → slice_get world.cells place ≡ Some cell → stands test number cell.0.host ≡ test (end_of e socket).stage }
    ensures join { (journal lines : List Line) (log : List Entry) (world : World) (s : SockName) (verdict : Verdict) (told : List Entry) (after : World) → log_from (world_new journal) lines ≡ Ok (log, world)
        → line_done (events.Join s) world ≡ Ok ((verdict, told), after) → verdict ≡ ok_where (some_and can_join (find (is_socket_named s) world.sockets)) }
    ensures refuse { (journal lines : List Line) (log : List Entry) (world : World) (s : SockName) (verdict : Verdict) (told : List Entry) (after : World) → log_from (world_new journal) lines ≡ Ok (log, world)
        → line_done (events.Refuse s) world ≡ Ok ((verdict, told), after) → verdict ≡ ok_where (some_and can_refuse (find (is_socket_named s) world.sockets)) }
    ensures feed { (journal lines : List Line) (log : List Entry) (world : World) (s : SockName) (e : End) (count : ℕ) (verdict : Verdict) (told : List Entry) (after : World) → log_from (world_new journal) lines ≡ Ok (log, world)
        → line_done (events.Feed s e count) world ≡ Ok ((verdict, told), after) → verdict ≡ ok_where (some_and (can_feed e) (find (is_socket_named s) world.sockets)) }
    ensures lose { (journal lines : List Line) (log : List Entry) (world : World) (s : SockName) (e : End) (verdict : Verdict) (told : List Entry) (after : World) → log_from (world_new journal) lines ≡ Ok (log, world)
        → line_done (events.Lose s e) world ≡ Ok ((verdict, told), after) → verdict ≡ ok_where (some_and (is_at_work e) (find (is_socket_named s) world.sockets)) }
{}

/// Where an event line isn't done, nothing follows its mark, in journals whose lines have rising numbers, whatever the
/// lines are.
pub fn done_lines_alone()
    ensures { (least : ℕ) (journal : List Line) (log : List Entry) → AreNumbered least journal → log_of journal ≡ Ok log → IsTrue (each (is_of_done journal) log) }
{}

/// An opener's end stands as the log tells, is cut where the log cuts it and has unread what the log wrote towards it and
/// didn't feed, after any lines: also where its dial was refused, which the log ends at once and the world when the host
/// has left it, before anything else happens.
pub fn openers_as_told()
    ensures { (journal lines : List Line) (log : List Entry) (world : World) (s : SockName) (socket : WorldSocket) → log_from (world_new journal) lines ≡ Ok (log, world) → find (is_socket_named s) world.sockets ≡ Some socket → IsAsTold journal log s O socket.o }
{}

/// A line that joins, comes, refuses, feeds or loses is answered as the log before it shows, after any lines. But for
/// refusing each target's end has to be of a cell exactly if its name leads to a host; for feeding and losing the opener's
/// end has to be of a host exactly if its name is no stranger's.
pub fn answers_as_told()
    ensures join { (journal lines : List Line) (log : List Entry) (world : World) (s : SockName) (verdict : Verdict) (told : List Entry) (after : World) → log_from (world_new journal) lines ≡ Ok (log, world) → AllPlaced journal world
        → line_done (events.Join s) world ≡ Ok ((verdict, told), after) → verdict ≡ answer_to journal log (events.Join s) }
    ensures come { (journal lines : List Line) (log : List Entry) (world : World) (s : SockName) (verdict : Verdict) (told : List Entry) (after : World) → log_from (world_new journal) lines ≡ Ok (log, world) → AllPlaced journal world
        → line_done (events.Come s) world ≡ Ok ((verdict, told), after) → verdict ≡ answer_to journal log (events.Come s) }
    ensures refuse { (journal lines : List Line) (log : List Entry) (world : World) (s : SockName) (verdict : Verdict) (told : List Entry) (after : World) → log_from (world_new journal) lines ≡ Ok (log, world)
        → line_done (events.Refuse s) world ≡ Ok ((verdict, told), after) → verdict ≡ answer_to journal log (events.Refuse s) }
    ensures feed { (journal lines : List Line) (log : List Entry) (world : World) (s : SockName) (e : End) (count : ℕ) (verdict : Verdict) (told : List Entry) (after : World) → log_from (world_new journal) lines ≡ Ok (log, world) → AllPlaced journal world
        → ((socket : WorldSocket) → find (is_socket_named s) world.sockets ≡ Some socket → IsOwned journal socket)
        → line_done (events.Feed s e count) world ≡ Ok ((verdict, told), after) → verdict ≡ answer_to journal log (events.Feed s e count) }
    ensures lose { (journal lines : List Line) (log : List Entry) (world : World) (s : SockName) (e : End) (verdict : Verdict) (told : List Entry) (after : World) → log_from (world_new journal) lines ≡ Ok (log, world) → AllPlaced journal world
        → ((socket : WorldSocket) → find (is_socket_named s) world.sockets ≡ Some socket → IsOwned journal socket)
        → line_done (events.Lose s e) world ≡ Ok ((verdict, told), after) → verdict ≡ answer_to journal log (events.Lose s e) }
{}

/// A line that feeds, where it is done, has its own entry first: so many bytes as it asks for, and no more than were unread
/// by the log. So it is after any lines, where each target's end is of a cell exactly if its name leads to a host.
pub fn fed_entry_first()
    ensures { (journal lines : List Line) (log : List Entry) (world : World) (s : SockName) (e : End) (count : ℕ) (told : List Entry) (after : World) → log_from (world_new journal) lines ≡ Ok (log, world) → AllPlaced journal world
        → line_done (events.Feed s e count) world ≡ Ok ((verdicts.Ok, told), after) → IsTrue (next_is (is_own journal log (events.Feed s e count)) told) }
{}

/// So in the log of a journal of rising numbers, of whatever lines, each line that joins, comes, refuses, feeds, cuts, loses,
/// knocks or settles has its answer, and each that pokes or quits a stranger's socket: where in its last world each target's
/// end is of a cell exactly if its name leads to a host, and each opener's exactly if its name is no stranger's. A journal of
/// two nodes and a stranger is such.
pub fn socket_lines_answered()
    ensures law { (least : ℕ) (journal : List Line) (log : List Entry) (world : World) → AreNumbered least journal → log_from (world_new journal) journal ≡ Ok (log, world) → AllPlaced journal world → AllOwned journal world → IsTrue (each (is_answered_at_sockets journal) log) }
    ensures such { AreNumbered 0 refuses_and_knocks × IsMet refuses_and_knocks (log_from (world_new refuses_and_knocks) refuses_and_knocks) }
{}

/// And each line that joins, comes, refuses, feeds, cuts, loses, pokes or quits, and each timer that is due, has its own entry
/// first where it is done, in the log of a journal of rising numbers, of whatever lines: where in its last world each
/// target's end is of a cell exactly if its name leads to a host.
pub fn socket_lines_begin_own()
    ensures { (least : ℕ) (journal : List Line) (log : List Entry) (world : World) → AreNumbered least journal → log_from (world_new journal) journal ≡ Ok (log, world) → AllPlaced journal world → IsTrue (each_between (has_own_at_sockets journal) log) }
{}

/// No more bytes are fed to an end than were unread there by the log. The end of input is fed only where nothing is unread
/// and the other end has ended or this one was cut, if each line that feeds asks for a byte at least. So it is after any
/// lines, settling and refused dials included, where each target's end is of a cell exactly if its name leads to a host.
pub fn fed_was_unread()
    ensures unread_alone { (journal lines : List Line) (log : List Entry) (world : World) → log_from (world_new journal) lines ≡ Ok (log, world) → AllPlaced journal world → IsTrue (each (feeds_the_unread journal) log) }
    ensures true_ends { (journal lines : List Line) (log : List Entry) (world : World) → AllLines feeds_some lines → log_from (world_new journal) lines ≡ Ok (log, world) → AllPlaced journal world → IsTrue (each (feeds_the_end journal) log) }
{}
