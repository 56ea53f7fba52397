//! The laws of how what is said is spelled: all that a log of many nodes says was sent by a line of its journal, so that each mark
//! is a name, and each process is of a declared node, under numbers of four bytes.
//!
//! No code: laws as clauses of empty functions, over the model and the laws of many nodes below.
#![tactic(auto)]

ghost use Rattle.std.specs.Prelude.{◌≡◌, ℕ, List, ◌++◌, filter_map, slice_get, Some, Ok};
ghost use Rattle.std.specs.List.{AllByRecursion};
ghost use Rattle.ch_model.specs.declared.entry.Entry.{Entry};
ghost use Rattle.ch_model.specs.declared.line.Line.{Line};
ghost use Rattle.ch_model.specs.AccountsFrames.{Saying};
ghost use Rattle.ch_model.specs.Epochs.{FollowsEpochs};
ghost use Rattle.ch_model.specs.Journal.{journal_of};
ghost use Rattle.ch_model.specs.LinesBuilt.{many_nodes};
ghost use Rattle.ch_model.specs.World.{world_new, log_from, log_of};
ghost use Rattle.ch_model.specs.WorldState.{World};
ghost use Rattle.ch_laws_plain_logs.specs.Plain.{said_by};
ghost use Rattle.ch_laws_spelled.specs.Sayings.{IsWellSaid, IsCounted};
ghost use Rattle.ch_laws_spelled.specs.Spelled.{AllWell, SaysWell};

/// Each line that the grammar of many nodes reads and that sends has a name as its mark, and goes from a process to a process, each
/// of a declared node whose address may be spelled, under numbers of four bytes.
pub fn lines_well()
    ensures { (bytes : List ℕ) → AllWell (journal_of many_nodes bytes) }
{}

/// So is each message that is said in the log of such a journal, and in the log after any first lines of it.
pub fn says_well()
    ensures log { (bytes : List ℕ) (log : List Entry) → log_of (journal_of many_nodes bytes) ≡ Ok log → SaysWell (journal_of many_nodes bytes) log }
    ensures fronts { (bytes : List ℕ) (front rest : List Line) → front ++ rest ≡ journal_of many_nodes bytes → (log : List Entry) (world : World) → log_from (world_new (journal_of many_nodes bytes)) front ≡ Ok (log, world) → SaysWell (journal_of many_nodes bytes) log }
{}

/// What a node says to another in a log whose messages are spelled so: each saying is under a mark that is a name, from a process to
/// a process, to each of which the journal gives an id that is in its rule, and its payload is read back as its mark and its body.
/// So are the counters of all that is said, and the first entries of such a log are such a log.
pub fn sayings_well()
    ensures said { (journal : List Line) (x y : List ℕ) (log : List Entry) → SaysWell journal log → (i : ℕ) (s : Saying) → slice_get (filter_map (said_by x y) log) i ≡ Some s → IsWellSaid journal s }
    ensures counted { (journal : List Line) (log : List Entry) → SaysWell journal log → AllByRecursion IsCounted log }
    ensures first { (journal : List Line) (one two : List Entry) → SaysWell journal (one ++ two) → SaysWell journal one }
{}

/// Messages are numbered as they come in the log after any first lines of a journal that the grammar of many nodes reads: each
/// stands in its pair's epoch, with the epoch's next index. And so they are in the first entries of each log where they are so.
pub fn fronts_follow()
    ensures fronts { (bytes : List ℕ) (front rest : List Line) → front ++ rest ≡ journal_of many_nodes bytes → (log : List Entry) (world : World) → log_from (world_new (journal_of many_nodes bytes)) front ≡ Ok (log, world) → FollowsEpochs log }
    ensures first { (one two : List Entry) → FollowsEpochs (one ++ two) → FollowsEpochs one }
{}
