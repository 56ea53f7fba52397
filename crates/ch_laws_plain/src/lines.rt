//! Laws of plain worlds, line by line: an end that is joined, one that comes, and one that is handed bytes.
//!
//! What is unread between plain nodes is a plain stream, as the crates below say. A line of a journal that joins an end has its
//! request written, which holds no frame; one that lets an end come, or hands it bytes, only moves what is unread to its host.
//!
//! No code: definitions, and laws as clauses of empty functions, over the model below.

ghost use Rattle.std.specs.Prelude.{◌≡◌, ◌+◌, ◌*◌, ℕ, true, List, ◌∷◌, take, Some};
ghost use Rattle.ch_base.specs.declared.address.Address.{Address};
ghost use Rattle.ch_model.specs.declared.entry.Entry.{Entry};
ghost use Rattle.ch_model.specs.declared.line.Line.{Line};
ghost use Rattle.ch_model.specs.declared.name.End.{End};
ghost use Rattle.ch_model.specs.declared.step.SocketEvent.TheVariants.{Joined, Came, Fed};
ghost use Rattle.ch_model.specs.declared.step.Step.{Step};
ghost use Rattle.ch_model.specs.Host.{host_on};
ghost use Rattle.ch_model.specs.HostState.{HostState};
ghost use Rattle.ch_model.specs.WorldLines.{can_join, can_come, can_feed};
ghost use Rattle.ch_model.specs.WorldSockets.{end_of};
ghost use Rattle.ch_model.specs.WorldState.{Cell, WorldSocket, World};
ghost use Rattle.ch_laws_calls.specs.Calls.{with_host, done_at, IsCalled, IsHeldBy, IsIn, AllRead, joined_in, come_in, fed_in};
ghost use Rattle.ch_laws_calls.specs.Sound.{Sound};
ghost use Rattle.ch_laws_plain.specs.Plain.{WorldIsPlain};
ghost use Rattle.ch_laws_plain.specs.Turns.{CellCarries};
ghost use Rattle.ch_laws_plain.specs.LinesRests.{Rests, AllRest};
ghost use Rattle.ch_laws_writes.specs.Orderly.{IsOrderly};

/// A sound world that is plain stays so when an opener's end is joined, when a target's end comes to its host, and when bytes are
/// handed to an end, of whatever journal.
pub fn lines_keep_plain()
    ensures joined { (journal : List Line) (log : List Entry) (world : World) (socket : WorldSocket) (place n : ℕ) (cell : Cell × ℕ) (steps : List Step) (host : HostState) → IsIn socket world → can_join socket ≡ true → IsHeldBy place n socket.o → IsCalled world place cell (Joined n) steps host → AllRead world → Sound journal log world
        → WorldIsPlain journal world → WorldIsPlain journal (done_at place cell steps host (joined_in socket world)).1 }
    ensures came { (journal : List Line) (log : List Entry) (world : World) (socket : WorldSocket) (place : ℕ) (cell : Cell × ℕ) (steps : List Step) (host : HostState) → IsIn socket world → can_come socket ≡ true → socket.t.cell ≡ Some place → IsCalled world place cell (Came (2 * cell.1 + 1) socket.from_host) steps host → AllRead world
        → Sound journal log world → WorldIsPlain journal world → WorldIsPlain journal (done_at place (cell.0, cell.1 + 1) steps host (come_in place cell socket world)).1 }
    ensures fed { (journal : List Line) (log : List Entry) (world : World) (socket : WorldSocket) (which : End) (count b : ℕ) (bytes : List ℕ) (place n : ℕ) (cell : Cell × ℕ) (steps : List Step) (host : HostState) → IsIn socket world → can_feed which socket ≡ true → take count (end_of which socket).unread ≡ b ∷ bytes
        → IsHeldBy place n (end_of which socket) → IsCalled world place cell (Fed n (b ∷ bytes)) steps host → AllRead world → Sound journal log world → WorldIsPlain journal world → WorldIsPlain journal (done_at place cell steps host (fed_in which count socket world)).1 }
{}

/// A host of which no link is another, and of whose sockets the same is read on for the same links, carries on the streams at their
/// ends. So goes on one whose end is joined.
pub fn resting_hosts_carry_on()
    ensures carries { (own : ℕ → Address) (cell : Cell × ℕ) (told : List Step) (host : HostState) → Rests own cell.0.host told host → CellCarries own cell.0 told (with_host cell host) }
    ensures joined { (own : ℕ → Address) (host : HostState) (sock : ℕ) → IsOrderly own host → AllRest own host (host_on host (Joined sock)) }
{}
