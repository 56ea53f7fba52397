//! The laws of ids: in the logs of many nodes connections are created in the order of their ids, and what is sent on or closed is
//! open, as each log alone tells.
//!
//! A host keeps a table of the ids that a link has given. Here it is shown of each small thing that happens (ch_laws_calls) that
//! the frames which an end wrote lead from no ids to those of that table: a link that comes up writes what waited for it, which
//! gives just the ids that were given before; and what is written then goes on from there.
//!
//! No code: laws as clauses of empty functions, over the model below.
#![tactic(auto)]

ghost use Rattle.std.specs.Prelude.{◌≡◌, ℕ, true, false, List, [], ◌++◌, Ok, IsTrue};
ghost use Rattle.ch_model.specs.declared.entry.Entry.{Entry};
ghost use Rattle.ch_model.specs.declared.line.Line.{Line};
ghost use Rattle.ch_model.specs.AccountsBytes.{writes_fit_ids};
ghost use Rattle.ch_model.specs.Journal.{journal_of};
ghost use Rattle.ch_model.specs.LinesBuilt.{many_nodes};
ghost use Rattle.ch_model.specs.Logs.{each};
ghost use Rattle.ch_model.specs.World.{world_new, log_from, log_of};
ghost use Rattle.ch_model.specs.WorldState.{World};
ghost use Rattle.ch_laws_calls.specs.Calls.{KeepsCalls};
ghost use Rattle.ch_laws_calls.specs.Sound.{Sound};
ghost use Rattle.ch_laws_ids.specs.Runs.{AllRun};
ghost use Rattle.ch_laws_ids.specs.Logs.{in_order, out_of_order, closed_first, closed_twice};

/// In the log of each journal that the grammar of many nodes reads, each end creates connections in the order of their ids, from
/// the first one on, and sends on and closes only such as are open: that it created, and hasn't closed.
///
/// The test isn't empty: a log of an end that creates two connections, sends on one and closes it passes it; one that begins with
/// the second id doesn't, nor does one that sends on a closed connection, or closes it twice.
pub fn ids_are_fit()
    ensures law { (bytes : List ℕ) (log : List Entry) → log_of (journal_of many_nodes bytes) ≡ Ok log → IsTrue (each writes_fit_ids log) }
    ensures passed { each writes_fit_ids in_order ≡ true }
    ensures order { each writes_fit_ids out_of_order ≡ false }
    ensures sent { each writes_fit_ids closed_first ≡ false }
    ensures twice { each writes_fit_ids closed_twice ≡ false }
{}

/// In any journal each thing that happens keeps the following, where the world is sound before and after it; and so it is after any
/// first lines of a journal of many nodes, of whatever bytes. In each host only frames of connections wait for a link, and while it
/// isn't up they give just the ids that it has given. What an end wrote fits what is due there next; and its frames lead from no ids
/// to those that its host has given there, or just somewhere, once the end has ended. Nothing is written of a socket that isn't
/// there, nor by a stranger's end, nor by one that hasn't come.
pub fn frames_lead_to_tables()
    ensures kept { (journal : List Line) → KeepsCalls journal (Sound journal) (Sound journal) AllRun }
    ensures fresh { (journal : List Line) → AllRun [] (world_new journal) }
    ensures after { (bytes : List ℕ) (front rest : List Line) → front ++ rest ≡ journal_of many_nodes bytes → (log : List Entry) (world : World) → log_from (world_new (journal_of many_nodes bytes)) front ≡ Ok (log, world) → AllRun log world }
{}
