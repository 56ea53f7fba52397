//! Each item that a host reads is seen of each two nodes of a journal as moves of ch_race's pair.
//!
//! No code: laws as clauses of empty functions, over the definitions of ch_laws_calls and the laws of ch_laws_race, which say it of each
//! kind of item apart.

ghost use Rattle.std.specs.Prelude.{◌≡◌, ℕ, List, ◌++◌, slice_get, Some, Ok};
ghost use Rattle.ch_model.specs.declared.entry.Entry.{Entry};
ghost use Rattle.ch_model.specs.declared.line.Line.{Line};
ghost use Rattle.ch_model.specs.declared.step.Step.{Step};
ghost use Rattle.ch_model.specs.Host.{host_next};
ghost use Rattle.ch_model.specs.HostState.{HostState};
ghost use Rattle.ch_model.specs.WorldState.{Cell, World};
ghost use Rattle.ch_race.specs.Pair.{Side};
ghost use Rattle.ch_laws_race.specs.Scene.{Party};
ghost use Rattle.ch_laws_calls.specs.Calls.{done_at};
ghost use Rattle.ch_laws_calls.specs.Fits.{FramesFit, AllFit};
ghost use Rattle.ch_laws_calls.specs.Scenes.{SceneFacts, IsMoved, Shown, Raced};
ghost use Rattle.ch_laws_calls.specs.Sound.{Sound};

/// An item that a host reads, at any cell of a world, is seen of two nodes as moves that may happen: those of its reading, where the
/// socket is between the two, and else none. It is asked that log and world are sound, what is so of a scene, and that the frames
/// which are unread fit their reader's connections.
pub fn an_item_is_moves()
    ensures { (journal : List Line) (log : List Entry) (world : World) → Sound journal log world → (party : Side → Party) → SceneFacts party world → FramesFit party world → (place : ℕ) (cell : Cell × ℕ) (told : List Step) (after : HostState)
        → slice_get world.cells place ≡ Some cell → host_next cell.0.host ≡ Ok (Some told, after) → IsMoved party world (done_at place cell told after world).1 }
{}

/// So each two nodes of a journal that were seen as a pair which moves lead to are so once an item is read, in whatever journal.
pub fn items_keep_pairs_reached()
    ensures { (journal : List Line) (log : List Entry) (world : World) (place : ℕ) (cell : Cell × ℕ) (told : List Step) (after : HostState) → slice_get world.cells place ≡ Some cell → host_next cell.0.host ≡ Ok (Some told, after)
        → Sound journal log world → Shown journal log world → AllFit journal log world → Raced journal log world → Raced journal (log ++ (done_at place cell told after world).0) (done_at place cell told after world).1 }
{}
