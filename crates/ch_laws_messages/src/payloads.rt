//! Each payload that a node writes for another is one that the log tells of: it opens the connection of a pair, or carries what was said next.
//!
//! Said of a log and its world, wherever what was said is carried by what is written and what waits (`AllSay` of
//! `ch_laws_peers`), and is said before it is written (`AllInTime`, module `carried`). Of openings the like is asked by
//! `AllOpenInTime`: what is written first on a connection opens that of a pair which has said something by then.
//!
//! No code: definitions, and laws as clauses of empty functions, over the model below.

ghost use Rattle.std.specs.Prelude.{List, [], IsTrue};
ghost use Rattle.ch_model.specs.declared.entry.Entry.{Entry};
ghost use Rattle.ch_model.specs.declared.line.Line.{Line};
ghost use Rattle.ch_model.specs.Accounts.{IsBroughtAbout};
ghost use Rattle.ch_model.specs.AccountsMessages.{writes_true_data};
ghost use Rattle.ch_model.specs.Logs.{each};
ghost use Rattle.ch_model.specs.World.{world_new};
ghost use Rattle.ch_model.specs.WorldState.{World};
ghost use Rattle.ch_laws_calls.specs.Calls.{Both};
ghost use Rattle.ch_laws_calls.specs.Turns.{KeepsTurns};
ghost use Rattle.ch_laws_plain_logs.specs.Plain.{WritesNoNodes};
ghost use Rattle.ch_laws_peers.specs.Says.{AllSay};
ghost use Rattle.ch_laws_peers.specs.Standing.{IsOfNodes, Standing};
ghost use Rattle.ch_laws_messages.specs.CarriedInTime.{AllInTime};
ghost use Rattle.ch_laws_messages.specs.PayloadsOpens.{AllOpenInTime};

/// Each payload that is written opens the connection of a pair that has said something before, or carries what was said next, on a
/// connection that was opened for its pair. That is so where all that was said is carried, where as many messages were said before
/// each writing as are carried up to it, and where each opening was written after its pair had said something.
pub fn written_payloads_are_true()
    ensures { (journal : List Line) → IsOfNodes journal → (log : List Entry) (world : World) → Standing journal log world → AllSay journal log world → AllInTime journal log world → AllOpenInTime journal log world → IsTrue (each (writes_true_data journal) log) }
{}

/// Where all that was said is carried, no payload that is written opens a connection from node to node; so all that such connections
/// bring about has its cause: nothing is brought about so.
pub fn nothing_is_written_of_nodes()
    ensures written { (journal : List Line) → IsOfNodes journal → (log : List Entry) (world : World) → Standing journal log world → AllSay journal log world → WritesNoNodes journal log }
    ensures brought { (journal : List Line) → IsOfNodes journal → (log : List Entry) (world : World) → Standing journal log world → AllSay journal log world → IsBroughtAbout journal log }
{}

/// What is written first on a connection opens that of a pair which has said something by then: so it is where nothing has happened, and
/// each turn keeps it, where all that was said is carried before and after it.
pub fn openings_are_in_time()
    ensures fresh { (journal : List Line) → AllOpenInTime journal [] (world_new journal) }
    ensures kept { (journal : List Line) → KeepsTurns journal (Both (Standing journal) (AllSay journal)) (Both (Standing journal) (AllSay journal)) (AllOpenInTime journal) }
{}
