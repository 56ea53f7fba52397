//! What happens in a journal of many nodes, as turns one after another.
//!
//! The crate's root cuts what happens into single calls of hosts. But what is so of nodes, or of a node and its host together,
//! holds only once all acts of the node are done. So here the steps are greater: a turn is a node's call with all its acts, or
//! an item that a host reads, with all that its posts bring. What each turn keeps of the log and the world,
//! `KeepsTurns`, holds after any first lines; what each call keeps is so at each moment, and may be given before and after a turn.
//!
//! No code: definitions, and laws as clauses of empty functions. How claims that are kept are put together is in
//! `proofs/Together.antt`.

ghost use Rattle.std.specs.Prelude.{◌≡◌, ℕ, Bool, true, ◌==◌, List, [], ◌++◌, length, Ok};
ghost use Rattle.ch_model.specs.declared.entry.Entry.{Entry};
ghost use Rattle.ch_model.specs.declared.line.Line.{Line};
ghost use Rattle.ch_model.specs.Journal.{journal_of};
ghost use Rattle.ch_model.specs.LinesBuilt.{many_nodes};
ghost use Rattle.ch_model.specs.World.{world_new, log_from};
ghost use Rattle.ch_model.specs.WorldState.{World};
ghost use Rattle.ch_laws_calls.specs.Calls.{Anything, Both, KeepsCalls};
ghost use Rattle.ch_laws_calls.specs.Turns.{KeepsTurns};

/// A test of the log and the world that each turn keeps is passed after any first lines of a journal of many nodes, of whatever
/// bytes, where the start passes it. It may be kept where another test is passed before the turn and after it, which each call
/// keeps and the start passes too. And both may be kept where something is so of the log before and after, if that was so of all
/// that a log begins with: then they are passed where that is so in the end.
pub fn happens_by_turns()
    ensures law { (bytes : List ℕ) (sure test : List Entry → World → Bool) → KeepsCalls (journal_of many_nodes bytes) Anything Anything (λ log world. sure log world ≡ true) → sure [] (world_new (journal_of many_nodes bytes)) ≡ true
        → KeepsTurns (journal_of many_nodes bytes) (λ log world. sure log world ≡ true) (λ log world. sure log world ≡ true) (λ log world. test log world ≡ true) → test [] (world_new (journal_of many_nodes bytes)) ≡ true
        → (front rest : List Line) → front ++ rest ≡ journal_of many_nodes bytes → (log : List Entry) (world : World) → log_from (world_new (journal_of many_nodes bytes)) front ≡ Ok (log, world) → test log world ≡ true }
    ensures given { (bytes : List ℕ) (so : List Entry → Bool) (sure test : List Entry → World → Bool) → ((one two : List Entry) → so (one ++ two) ≡ true → so one ≡ true)
        → KeepsCalls (journal_of many_nodes bytes) (λ log world. so log ≡ true) (λ log world. so log ≡ true) (λ log world. sure log world ≡ true) → sure [] (world_new (journal_of many_nodes bytes)) ≡ true
        → KeepsTurns (journal_of many_nodes bytes) (Both (λ log world. sure log world ≡ true) (λ log world. so log ≡ true)) (Both (λ log world. sure log world ≡ true) (λ log world. so log ≡ true)) (λ log world. test log world ≡ true)
        → test [] (world_new (journal_of many_nodes bytes)) ≡ true
        → (front rest : List Line) → front ++ rest ≡ journal_of many_nodes bytes → (log : List Entry) (world : World) → log_from (world_new (journal_of many_nodes bytes)) front ≡ Ok (log, world) → so log ≡ true → test log world ≡ true }
{}

/// A turn is of calls: a test that each call keeps is kept by each turn. Such a test is that there are so many hosts.
pub fn turns_are_of_calls()
    ensures law { (bytes : List ℕ) (test : List Entry → World → Bool) → KeepsCalls (journal_of many_nodes bytes) Anything Anything (λ log world. test log world ≡ true) → KeepsTurns (journal_of many_nodes bytes) Anything Anything (λ log world. test log world ≡ true) }
    ensures such { (bytes : List ℕ) (count : ℕ) → KeepsTurns (journal_of many_nodes bytes) Anything Anything (λ log world. (length world.cells == count) ≡ true) }
{}
