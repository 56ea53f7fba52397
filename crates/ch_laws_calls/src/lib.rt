//! What happens in a journal of many nodes, as calls of hosts one after another.
//!
//! A line of a journal may do much: a node's acts, a host's steps, and items read one after another. Here it is cut into the
//! small things that happen: a mark or a note is told, nodes of a cell go on, a host is called once. What each of these keeps
//! of the log and the world, `KeepsCalls`, holds after any first lines. Between lines no host has a whole item to read.
//!
//! What each keeps is in modules: of ends and bytes (`sound`), of links (`standing`), of targets' ends (`users`), of frames (`fits`), and
//! of the scene of two nodes (`scenes`). `turns` cuts the same into greater steps.
//!
//! No code: definitions, and laws as clauses of empty functions. How claims that are kept are put together is in
//! `proofs/Together.antt`.
#![tactic(auto)]

pub mod fits;
pub mod scenes;
pub mod sound;
pub mod standing;
pub mod turns;
pub mod users;

ghost use Rattle.std.specs.Prelude.{◌≡◌, ℕ, Bool, true, ◌==◌, List, [], ◌∷◌, ◌++◌, length, Ok};
ghost use Rattle.ch_model.specs.declared.entry.Entry.{Entry};
ghost use Rattle.ch_model.specs.declared.line.Line.{Line};
ghost use Rattle.ch_model.specs.Journal.{journal_of};
ghost use Rattle.ch_model.specs.LinesBuilt.{many_nodes};
ghost use Rattle.ch_model.specs.World.{world_new, log_from};
ghost use Rattle.ch_model.specs.WorldState.{World};
ghost use Rattle.ch_laws_calls.specs.Calls.{Anything, AllRead, KeepsCalls};
ghost use Rattle.ch_laws_calls.specs.Fed.{in_part, as_whole, kept_in};

/// A test of the log and the world that each thing that happens keeps is passed after any first lines of a journal of many
/// nodes, of whatever bytes, where the start passes it. It may be kept where something is so of the log before and after, if
/// that was so of all that a log begins with: then it is passed where that is so in the end.
/// Such a test is that there are so many hosts.
pub fn happens_by_calls()
    ensures law { (bytes : List ℕ) (test : List Entry → World → Bool) → KeepsCalls (journal_of many_nodes bytes) Anything Anything (λ log world. test log world ≡ true) → test [] (world_new (journal_of many_nodes bytes)) ≡ true
        → (front rest : List Line) → front ++ rest ≡ journal_of many_nodes bytes → (log : List Entry) (world : World) → log_from (world_new (journal_of many_nodes bytes)) front ≡ Ok (log, world) → test log world ≡ true }
    ensures given { (bytes : List ℕ) (so : List Entry → Bool) (test : List Entry → World → Bool) → ((one two : List Entry) → so (one ++ two) ≡ true → so one ≡ true)
        → KeepsCalls (journal_of many_nodes bytes) (λ log world. so log ≡ true) (λ log world. so log ≡ true) (λ log world. test log world ≡ true) → test [] (world_new (journal_of many_nodes bytes)) ≡ true
        → (front rest : List Line) → front ++ rest ≡ journal_of many_nodes bytes → (log : List Entry) (world : World) → log_from (world_new (journal_of many_nodes bytes)) front ≡ Ok (log, world) → so log ≡ true → test log world ≡ true }
    ensures such { (bytes : List ℕ) (count : ℕ) → KeepsCalls (journal_of many_nodes bytes) Anything Anything (λ log world. (length world.cells == count) ≡ true) }
{}

/// After any first lines of a journal of many nodes, of whatever bytes, no host has a whole item to read: all items that a line
/// brings are read before the next. A part of one may be kept: in the scene five bytes of a request are, until the rest comes.
pub fn all_is_read()
    ensures law { (bytes : List ℕ) (front rest : List Line) → front ++ rest ≡ journal_of many_nodes bytes → (log : List Entry) (world : World) → log_from (world_new (journal_of many_nodes bytes)) front ≡ Ok (log, world) → AllRead world }
    ensures part { kept_in (log_from (world_new in_part) in_part) ≡ 0 ∷ 5 ∷ [] }
    ensures whole { kept_in (log_from (world_new as_whole) as_whole) ≡ 0 ∷ 0 ∷ [] }
{}
