//! The laws of nodes that meet their hosts turn by turn, and of what plain hosts read: between nodes of a journal it begins a plain stream.
//!
//! No code: definitions, and laws as clauses of empty functions, over the model below.

ghost use Rattle.std.specs.Prelude.{◌≡◌, ℕ, List, [], find, slice_get, Some};
ghost use Rattle.ch_model.specs.declared.entry.Entry.{Entry};
ghost use Rattle.ch_model.specs.declared.line.Line.{Line};
ghost use Rattle.ch_model.specs.declared.name.SockName.{SockName};
ghost use Rattle.ch_model.specs.World.{names_of, world_new};
ghost use Rattle.ch_model.specs.WorldSockets.{is_socket_named};
ghost use Rattle.ch_model.specs.WorldState.{Cell, WorldSocket, World};
ghost use Rattle.ch_laws_bytes.specs.Streams.{AreAddresses};
ghost use Rattle.ch_laws_calls.specs.Calls.{Anything};
ghost use Rattle.ch_laws_calls.specs.Peers.{Peers};
ghost use Rattle.ch_laws_calls.specs.Sound.{Sound};
ghost use Rattle.ch_laws_calls.specs.Users.{AllUsed};
ghost use Rattle.ch_laws_calls.specs.FitsFit.{MayAskWell};
ghost use Rattle.ch_laws_many.proofs.Reached.{IsJournal};
ghost use Rattle.ch_laws_plain.specs.Plain.{WorldIsPlain};
ghost use Rattle.ch_laws_plain.specs.MeetsMeets.{AllMeet};
ghost use Rattle.ch_laws_plain.specs.MeetsReads.{ReadsPlain};
ghost use Rattle.ch_laws_calls.specs.ScenesKnocks.{Unknocked};
ghost use Rattle.ch_laws_calls.specs.Turns.{KeepsTurns};

/// The nodes of each cell agree with its host on the connections that they have open, and on those that have arrived at them: where
/// nothing has happened, and after each turn, whatever else is so. A turn is a node's call with all its acts, an end that joins, comes,
/// is handed bytes or the end of its input, or an item that a host reads, each with all that its posts bring.
pub fn nodes_meet_hosts()
    ensures turns { (journal : List Line) → KeepsTurns journal Anything Anything AllMeet }
    ensures fresh { (journal : List Line) → AllMeet [] (world_new journal) }
{}

/// In a journal of many nodes, whose addresses may be spelled, where each dial so far is between two of its nodes and no stranger has
/// knocked: each socket is opened by a host, and each request that may be asked under its name may be read.
pub fn peers_may_ask()
    ensures { (journal : List Line) → IsJournal journal → AreAddresses (names_of journal) → (log : List Entry) (world : World) → Sound journal log world → Unknocked log → Peers journal log world → (s : SockName) (socket : WorldSocket) → find (is_socket_named s) world.sockets ≡ Some socket → MayAskWell journal world socket }
{}

/// In a plain world, where what may be asked under the name of each socket may be read, the items that stand whole at the front of
/// what a host has at an end, as many as are read there, are the beginning of a plain stream, behind a connection that was created and
/// isn't opened yet, if there is one. So it is in a journal of many nodes where each dial so far is between two of them.
pub fn what_is_read_is_plain()
    ensures asked { (journal : List Line) (log : List Entry) (world : World) → Sound journal log world → AllUsed journal log world → ((s : SockName) (socket : WorldSocket) → find (is_socket_named s) world.sockets ≡ Some socket → MayAskWell journal world socket) → WorldIsPlain journal world
        → (place : ℕ) (cell : Cell × ℕ) → slice_get world.cells place ≡ Some cell → ReadsPlain cell.0 }
    ensures peers { (journal : List Line) → IsJournal journal → AreAddresses (names_of journal) → (log : List Entry) (world : World) → Sound journal log world → AllUsed journal log world → Unknocked log → Peers journal log world → WorldIsPlain journal world
        → (place : ℕ) (cell : Cell × ℕ) → slice_get world.cells place ≡ Some cell → ReadsPlain cell.0 }
{}
