//! What happens to the sockets of a journal, as moves of the pair that two of its nodes are: a socket is joined, comes, is fed
//! bytes, or the end of its input.
//!
//! No code: laws as clauses of empty functions. What happens is cut as in ch_laws_calls; what is so of the two nodes at any
//! moment is given, and ch_laws_calls::scenes has it. The moves are those of ch_race's pair, seen as in ch_laws_race.

ghost use Rattle.std.specs.Prelude.{◌≡◌, ◌+◌, ◌*◌, ℕ, true, List, [], take, Some};
ghost use Rattle.ch_model.specs.declared.entry.Entry.{Entry};
ghost use Rattle.ch_model.specs.declared.line.Line.{Line};
ghost use Rattle.ch_model.specs.declared.name.End.{End};
ghost use Rattle.ch_model.specs.declared.step.SocketEvent.TheVariants as sockets;
ghost use Rattle.ch_model.specs.declared.step.Step.{Step};
ghost use Rattle.ch_model.specs.HostState.{HostState};
ghost use Rattle.ch_model.specs.WorldLines.{can_join, can_come, can_feed};
ghost use Rattle.ch_model.specs.WorldSockets.{end_of};
ghost use Rattle.ch_model.specs.WorldState.{Cell, WorldSocket, World};
ghost use Rattle.ch_race.specs.Pair.{Side};
ghost use Rattle.ch_laws_race.specs.Scene.{Party};
ghost use Rattle.ch_laws_calls.specs.Calls.{IsIn, IsHeldBy, IsCalled, AllRead, done_at, joined_in, come_in, fed_in};
ghost use Rattle.ch_laws_calls.specs.Scenes.{SceneFacts, IsMoved};
ghost use Rattle.ch_laws_calls.specs.Sound.{Sound};

/// Of each two nodes of a journal, in a world that is sound: where an opener's end is joined, or a target's has come, of a
/// socket between the two or of any other, what is seen of the two then is some moves of their pair, each of which may
/// happen; none where the socket is of others. So it is where an end is handed bytes, or the end of its input: that is a
/// move where no host has a whole item left to read.
pub fn happenings_are_moves()
    ensures joined { (journal : List Line) (log : List Entry) (world : World) → Sound journal log world → (party : Side → Party) → SceneFacts party world → (socket : WorldSocket) (place n : ℕ) (cell : Cell × ℕ) (steps : List Step) (host : HostState) → IsIn socket world → can_join socket ≡ true → IsHeldBy place n socket.o
        → IsCalled world place cell (sockets.Joined n) steps host → IsMoved party world (done_at place cell steps host (joined_in socket world)).1 }
    ensures came { (journal : List Line) (log : List Entry) (world : World) → Sound journal log world → (party : Side → Party) → SceneFacts party world → (socket : WorldSocket) (place : ℕ) (cell : Cell × ℕ) (steps : List Step) (host : HostState) → IsIn socket world → can_come socket ≡ true → socket.t.cell ≡ Some place
        → IsCalled world place cell (sockets.Came (2 * cell.1 + 1) socket.from_host) steps host → IsMoved party world (done_at place (cell.0, cell.1 + 1) steps host (come_in place cell socket world)).1 }
    ensures fed { (world : World) (party : Side → Party) → SceneFacts party world → (socket : WorldSocket) (e : End) (count : ℕ) (bytes : List ℕ) (place n : ℕ) (cell : Cell × ℕ) (steps : List Step) (host : HostState) → IsIn socket world → can_feed e socket ≡ true → take count (end_of e socket).unread ≡ bytes → IsHeldBy place n (end_of e socket)
        → IsCalled world place cell (sockets.Fed n bytes) steps host → IsMoved party world (done_at place cell steps host (fed_in e count socket world)).1 }
    ensures ended { (journal : List Line) (log : List Entry) (world : World) → Sound journal log world → (party : Side → Party) → SceneFacts party world → (socket : WorldSocket) (e : End) (place n : ℕ) (cell : Cell × ℕ) (steps : List Step) (host : HostState) → IsIn socket world → can_feed e socket ≡ true → (end_of e socket).unread ≡ [] → IsHeldBy place n (end_of e socket)
        → IsCalled world place cell (sockets.Ended n) steps host → AllRead world → IsMoved party world (done_at place cell steps host world).1 }
{}
