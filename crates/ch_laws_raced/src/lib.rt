//! The race in whole journals: each two nodes of a journal of many nodes are, after any of its lines, a pair that comes about by
//! moves of ch_race's machine.
//!
//! No code: laws as clauses of empty functions. What happens is cut into calls in ch_laws_calls, where each call keeps what
//! is so of hosts, sockets and frames. That it is moves of each pair is shown in modules: of what endpoints call (`race_calls`), of items
//! that are read (`race_items`), and of what happens to sockets (`race_lines`).
#![tactic(auto)]

pub mod once;
pub mod race_calls;
pub mod race_items;
pub mod race_lines;
pub mod unbroken;

ghost use Rattle.std.specs.Prelude.{◌≡◌, ◌++◌, ℕ, true, List, Ok};
ghost use Rattle.ch_model.specs.declared.entry.Entry.{Entry};
ghost use Rattle.ch_model.specs.declared.line.Line.{Line};
ghost use Rattle.ch_model.specs.Journal.{journal_of};
ghost use Rattle.ch_model.specs.LinesBuilt.{many_nodes};
ghost use Rattle.ch_model.specs.World.{names_of, world_new, log_from};
ghost use Rattle.ch_model.specs.WorldState.{World};
ghost use Rattle.ch_race.specs.Naming.{OneLive, Bundle};
ghost use Rattle.ch_race.specs.Pair.{Side};
ghost use Rattle.ch_race.specs.Quiet.{Quiet};
ghost use Rattle.ch_laws_race.specs.Scene.{Party};
ghost use Rattle.ch_laws_race.specs.View.{view};
ghost use Rattle.ch_laws_calls.specs.Calls.{KeepsCalls, Anything};
ghost use Rattle.ch_laws_calls.specs.Peers.{Peers};
ghost use Rattle.ch_laws_calls.specs.Scenes.{IsPairOf, scene_of, Raced};
ghost use Rattle.ch_laws_live.specs.Lives.{HasOneLive};
ghost use Rattle.ch_laws_raced.specs.Given.{Given, All};

/// Whatever happens in such a journal, each call of a host keeps each two nodes a pair that moves lead to, where hosts and world
/// agree, the scenes of two nodes are as they should be, no endpoint is closed, and what is unread fits.
pub fn each_call_is_moves()
    ensures { (journal : List Line) → KeepsCalls journal (Given journal) Anything (Raced journal) }
{}

/// So in a journal that the grammar of many nodes reads, of whatever bytes, after any of its lines: where all dials so far are
/// between two of its nodes, each two of its nodes are seen as a pair that the machine reaches by moves that may happen. All that is
/// asked of hosts and world is so whatever is dialed.
pub fn pairs_race()
    ensures all { (bytes : List ℕ) (front rest : List Line) → front ++ rest ≡ journal_of many_nodes bytes → (log : List Entry) (world : World) → log_from (world_new (journal_of many_nodes bytes)) front ≡ Ok (log, world)
        → Peers (journal_of many_nodes bytes) log world → All (journal_of many_nodes bytes) log world }
    ensures raced { (bytes : List ℕ) (front rest : List Line) → front ++ rest ≡ journal_of many_nodes bytes → (log : List Entry) (world : World) → log_from (world_new (journal_of many_nodes bytes)) front ≡ Ok (log, world)
        → Peers (journal_of many_nodes bytes) log world → Raced (journal_of many_nodes bytes) log world }
{}

/// Hence at most one socket of the two is live, beside it no node of them is up on another or dials, and nothing of them breaks: no
/// end is cut, no socket is up at one end and ended at the other, and only the lesser node ever awaits the other.
pub fn one_socket_is_live()
    ensures one { (bytes : List ℕ) (front rest : List Line) → front ++ rest ≡ journal_of many_nodes bytes → (log : List Entry) (world : World) → log_from (world_new (journal_of many_nodes bytes)) front ≡ Ok (log, world)
        → Peers (journal_of many_nodes bytes) log world → (party : Side → Party) → IsPairOf (journal_of many_nodes bytes) party → OneLive (view (scene_of party world)) }
    ensures bundle { (bytes : List ℕ) (front rest : List Line) → front ++ rest ≡ journal_of many_nodes bytes → (log : List Entry) (world : World) → log_from (world_new (journal_of many_nodes bytes)) front ≡ Ok (log, world)
        → Peers (journal_of many_nodes bytes) log world → (party : Side → Party) → IsPairOf (journal_of many_nodes bytes) party → Bundle (view (scene_of party world)) }
    ensures quiet { (bytes : List ℕ) (front rest : List Line) → front ++ rest ≡ journal_of many_nodes bytes → (log : List Entry) (world : World) → log_from (world_new (journal_of many_nodes bytes)) front ≡ Ok (log, world)
        → Peers (journal_of many_nodes bytes) log world → (party : Side → Party) → IsPairOf (journal_of many_nodes bytes) party → Quiet (view (scene_of party world)) }
{}

/// And so the log tells, of the front that led to it: at each moment at most one socket of each pair of nodes is live, no link is
/// accepted while one of the two is up on another socket, unless the opener has left, a node comes up on a socket while it is up on no
/// other of the pair, and dials a peer that it isn't up with.
pub fn logs_tell_one_live_socket()
    ensures { (bytes : List ℕ) (front rest : List Line) → front ++ rest ≡ journal_of many_nodes bytes → (log : List Entry) (world : World) → log_from (world_new (journal_of many_nodes bytes)) front ≡ Ok (log, world)
        → Peers (journal_of many_nodes bytes) log world → HasOneLive log }
{}
