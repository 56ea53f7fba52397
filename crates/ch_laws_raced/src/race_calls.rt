//! The laws of calls in the race: what an endpoint calls, at any cell of a world, is seen of each two nodes as moves that may
//! happen.
//!
//! No code: laws as clauses of empty functions. What is so of a world and of the scenes of its nodes is given; that it is so
//! whatever happens is shown in ch_laws_calls.

ghost use Rattle.std.specs.Prelude.{◌≡◌, ℕ, List, [], ◌∷◌, ◌++◌, slice_get, Some, Ok};
ghost use Rattle.ch_base.specs.declared.address.Address.{Address};
ghost use Rattle.ch_model.specs.declared.entry.Entry.{Entry};
ghost use Rattle.ch_model.specs.declared.entry.Entry.TheVariants as entries;
ghost use Rattle.ch_model.specs.declared.entry.Verdict.{Verdict};
ghost use Rattle.ch_model.specs.declared.line.Line.{Line};
ghost use Rattle.ch_model.specs.declared.note.Note.{Note};
ghost use Rattle.ch_model.specs.declared.step.Step.{Step};
ghost use Rattle.ch_model.specs.declared.step.Weight.{Weight};
ghost use Rattle.ch_model.specs.HostCalls.{host_connect, host_send, host_close};
ghost use Rattle.ch_model.specs.HostState.{HostState};
ghost use Rattle.ch_model.specs.NodeState.{NodeState};
ghost use Rattle.ch_model.specs.World.{world_new};
ghost use Rattle.ch_model.specs.WorldHappenings.{with_cell};
ghost use Rattle.ch_model.specs.WorldState.{Cell, World};
ghost use Rattle.ch_model.specs.WorldSteps.{note_entry, place_after};
ghost use Rattle.ch_race.specs.Pair.{Side};
ghost use Rattle.ch_laws_many.proofs.Reached.{IsJournal};
ghost use Rattle.ch_laws_race.specs.Scene.{Party};
ghost use Rattle.ch_laws_calls.specs.Calls.{Anything, done_at, KeepsCalls};
ghost use Rattle.ch_laws_calls.specs.Scenes.{SceneFacts, IsMoved, Shown, Raced};
ghost use Rattle.ch_laws_calls.specs.Sound.{Sound};
ghost use Rattle.ch_laws_raced.specs.RaceCallsUnshut.{IsUnshut, AllUnshut};

/// What an endpoint calls, at the cell at any place, is seen of two nodes as moves that may happen: a connection is opened, a
/// payload sent, a connection closed. Where it is for the link of the two, one of them says a payload, or wants the world's
/// next socket, or nothing is seen; and nothing is where it is for another link, of the same host or of a third.
/// A payload that is sent on the link of the two while that is idle dials, so their endpoints are to be open: a host asks that
/// of a connection that is opened, and not of a payload.
pub fn calls_are_moves()
    ensures connect { (journal : List Line) (log : List Entry) (world : World) → Sound journal log world → (party : Side → Party) → SceneFacts party world → (place : ℕ) (cell : Cell × ℕ) (end : ℕ) (peer : Address) (conn : ℕ) (steps : List Step) (host : HostState) → slice_get world.cells place ≡ Some cell
        → host_connect cell.0.host end peer conn ≡ Ok (steps, host) → IsMoved party world (done_at place cell steps host world).1 }
    ensures send { (journal : List Line) (log : List Entry) (world : World) → Sound journal log world → (party : Side → Party) → SceneFacts party world → IsUnshut party world → (place : ℕ) (cell : Cell × ℕ) (end conn : ℕ) (payload : List ℕ) (weight : Weight) (steps : List Step) (host : HostState) → slice_get world.cells place ≡ Some cell
        → host_send cell.0.host end conn payload weight ≡ Ok (steps, host) → IsMoved party world (done_at place cell steps host world).1 }
    ensures close { (journal : List Line) (log : List Entry) (world : World) → Sound journal log world → (party : Side → Party) → SceneFacts party world → (place : ℕ) (cell : Cell × ℕ) (end conn : ℕ) (steps : List Step) (host : HostState) → slice_get world.cells place ≡ Some cell
        → host_close cell.0.host end conn ≡ Ok (steps, host) → IsMoved party world (done_at place cell steps host world).1 }
{}

/// So each two nodes of a journal that are seen as a pair that comes about by moves that may happen are seen so still, once an
/// endpoint has called; and once an answer or a note is told, or the nodes of a cell are others, at which nothing is seen.
pub fn races_go_on()
    ensures marked { (journal : List Line) (log : List Entry) (world : World) (number : ℕ) (answer : Verdict) → Raced journal log world → Raced journal (log ++ entries.Line number answer ∷ []) world }
    ensures noted { (journal : List Line) (log : List Entry) (world : World) (note : Note) → Raced journal log world → Raced journal (log ++ note_entry world.names world.last note ∷ []) (record world { last = place_after world.last note }) }
    ensures seated { (journal : List Line) (log : List Entry) (world : World) (place : ℕ) (cell : Cell × ℕ) (nodes : List (ℕ × NodeState)) → slice_get world.cells place ≡ Some cell → Raced journal log world
        → Raced journal log (with_cell place (record (cell.0) { nodes = nodes }, cell.1) world) }
    ensures connected { (journal : List Line) (log : List Entry) (world : World) (place : ℕ) (cell : Cell × ℕ) (end : ℕ) (peer : Address) (conn : ℕ) (steps : List Step) (host : HostState) → slice_get world.cells place ≡ Some cell → host_connect cell.0.host end peer conn ≡ Ok (steps, host)
        → Sound journal log world → Shown journal log world → Raced journal log world → Raced journal (log ++ (done_at place cell steps host world).0) (done_at place cell steps host world).1 }
    ensures sent { (journal : List Line) (log : List Entry) (world : World) (place : ℕ) (cell : Cell × ℕ) (end conn : ℕ) (payload : List ℕ) (weight : Weight) (steps : List Step) (host : HostState) → slice_get world.cells place ≡ Some cell → host_send cell.0.host end conn payload weight ≡ Ok (steps, host)
        → Sound journal log world → Shown journal log world → AllUnshut journal log world → Raced journal log world → Raced journal (log ++ (done_at place cell steps host world).0) (done_at place cell steps host world).1 }
    ensures closed { (journal : List Line) (log : List Entry) (world : World) (place : ℕ) (cell : Cell × ℕ) (end conn : ℕ) (steps : List Step) (host : HostState) → slice_get world.cells place ≡ Some cell → host_close cell.0.host end conn ≡ Ok (steps, host)
        → Sound journal log world → Shown journal log world → Raced journal log world → Raced journal (log ++ (done_at place cell steps host world).0) (done_at place cell steps host world).1 }
{}

/// The endpoints of each two nodes of a journal of many nodes are open at the start, and stay so whatever happens: none is closed.
pub fn endpoints_stay_open()
    ensures fresh { (journal : List Line) → IsJournal journal → AllUnshut journal [] (world_new journal) }
    ensures kept { (journal : List Line) → KeepsCalls journal Anything Anything (AllUnshut journal) }
{}
