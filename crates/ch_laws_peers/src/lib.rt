//! The laws of peers: in a journal of many nodes each dial is between two of its nodes, and so all holds that was proved as long as
//! that is so.
//!
//! What hosts and nodes do is put together turn by turn: hosts and world agree, nodes agree with their hosts, all dials are between
//! two nodes, and streams are plain, each because the others were so before. Then each two nodes race as ch_race's machine allows,
//! nothing breaks, and the log has none but plain entries.
//!
//! No code: laws as clauses of empty functions, over the model below.
#![tactic(auto)]

ghost use Rattle.std.specs.Prelude.{◌≡◌, ◌++◌, ℕ, List, [], Ok};
ghost use Rattle.ch_model.specs.declared.entry.Entry.{Entry};
ghost use Rattle.ch_model.specs.declared.line.Line.{Line};
ghost use Rattle.ch_model.specs.Journal.{journal_of};
ghost use Rattle.ch_model.specs.LinesBuilt.{many_nodes};
ghost use Rattle.ch_model.specs.World.{world_new, log_from, log_of};
ghost use Rattle.ch_model.specs.WorldState.{World};
ghost use Rattle.ch_laws_calls.specs.Calls.{Anything};
ghost use Rattle.ch_laws_calls.specs.Peers.{Peers};
ghost use Rattle.ch_laws_plain_logs.specs.Plain.{IsPlain};
ghost use Rattle.ch_laws_calls.specs.Turns.{KeepsTurns};
ghost use Rattle.ch_laws_raced.specs.UnbrokenBreaks.{NoBreaks};
ghost use Rattle.ch_laws_peers.specs.Standing.{IsOfNodes, Standing};
ghost use Rattle.ch_laws_peers.specs.Fair.{IsFair};

/// In a journal of many nodes each turn keeps all of this: hosts and world agree, and nodes with their hosts; all dials are between
/// two nodes, each two nodes are a pair of the race, of which at most one socket is live, nothing breaks, and who dials a peer does so
/// once; streams are plain, and
/// so are all entries. So it is where nothing has happened, and after any first lines of a journal that the grammar of many nodes
/// reads, of whatever bytes.
pub fn all_stands_in_journals()
    ensures kept { (journal : List Line) → IsOfNodes journal → KeepsTurns journal Anything Anything (Standing journal) }
    ensures fresh { (journal : List Line) → IsOfNodes journal → Standing journal [] (world_new journal) }
    ensures many { (bytes : List ℕ) → IsOfNodes (journal_of many_nodes bytes) }
    ensures fronts { (bytes : List ℕ) (front rest : List Line) → front ++ rest ≡ journal_of many_nodes bytes → (log : List Entry) (world : World) → log_from (world_new (journal_of many_nodes bytes)) front ≡ Ok (log, world) → Standing (journal_of many_nodes bytes) log world }
{}

/// So each dial of such a log is between two nodes of its journal; no link breaks, and no end that was up is closed; and all its
/// entries are plain.
pub fn all_dials_are_of_peers()
    ensures peers { (bytes : List ℕ) (front rest : List Line) → front ++ rest ≡ journal_of many_nodes bytes → (log : List Entry) (world : World) → log_from (world_new (journal_of many_nodes bytes)) front ≡ Ok (log, world) → Peers (journal_of many_nodes bytes) log world }
    ensures unbroken { (bytes : List ℕ) (log : List Entry) → log_of (journal_of many_nodes bytes) ≡ Ok log → NoBreaks log }
    ensures plain { (bytes : List ℕ) (log : List Entry) → log_of (journal_of many_nodes bytes) ≡ Ok log → IsPlain log }
{}

/// Such a log is fair, after any of its lines: at most one socket of each two nodes is live, and no link is accepted over one that is
/// up; nodes come up and dial where they are down, and dial a peer once; and breaks, notices, references, names, dooms, ports and what is settled follow
/// their rules.
pub fn logs_are_fair()
    ensures whole { (bytes : List ℕ) (log : List Entry) → log_of (journal_of many_nodes bytes) ≡ Ok log → IsFair (journal_of many_nodes bytes) log }
    ensures fronts { (bytes : List ℕ) (front rest : List Line) → front ++ rest ≡ journal_of many_nodes bytes → (log : List Entry) (world : World) → log_from (world_new (journal_of many_nodes bytes)) front ≡ Ok (log, world) → IsFair (journal_of many_nodes bytes) log }
{}
