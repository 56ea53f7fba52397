//! The laws of sound ends: hosts and world agree on the ends and the bytes of sockets, call by call, whatever happens.
//!
//! No code: laws as clauses of empty functions, over the model below. What agrees between the lines of a journal is law in
//! `ch_laws_ends` and `ch_laws_bytes`; here it is kept by each call of a host, within a line.

ghost use Rattle.std.specs.Prelude.{ℕ, List, []};
ghost use Rattle.ch_model.specs.Journal.{journal_of};
ghost use Rattle.ch_model.specs.LinesBuilt.{many_nodes};
ghost use Rattle.ch_model.specs.World.{world_new};
ghost use Rattle.ch_laws_calls.specs.Calls.{Anything, KeepsCalls};
ghost use Rattle.ch_laws_calls.specs.Sound.{SoundEnds};

/// Of a journal that the grammar of many nodes reads, of whatever bytes: each thing that happens, down to one call of a host or
/// one item that it reads, keeps this of the log and the world, and nothing else is asked of them. The hosts and the world agree
/// on how each end stands, and the log tells that; the world has the journal's names, each host its place, and each socket leads
/// to the hosts of its names; and what is unread at an end is what its host reads next, behind which the other's writes next.
/// So it is at the start, where nothing has happened.
pub fn ends_stay_sound()
    ensures kept { (bytes : List ℕ) → KeepsCalls (journal_of many_nodes bytes) Anything Anything (SoundEnds (journal_of many_nodes bytes)) }
    ensures fresh { (bytes : List ℕ) → SoundEnds (journal_of many_nodes bytes) [] (world_new (journal_of many_nodes bytes)) }
{}
