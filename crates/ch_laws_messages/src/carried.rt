//! What a node has written for another carries what it has said to it, in order, as the log's own definitions say.
//!
//! `ch_laws_peers` says of a log and its world that what was written and what waits carry all that was said (`AllSay`). The log's own
//! definitions count otherwise: an item carries what is said next *by then*, after as many as were carried before it. So it
//! is shown that a node writes nothing that it hasn't said before: this is kept by each turn, since what is said is told
//! before the host writes, and nothing is said in any other turn. From it follows what the log's definitions give of what was
//! written: the first of the sayings, as many as there are payloads that are no openings; and of each end, one item after
//! another.
//!
//! No code: definitions, and laws as clauses of empty functions, over the model below.

ghost use Rattle.std.specs.Prelude.{List, []};
ghost use Rattle.ch_model.specs.declared.entry.Entry.{Entry};
ghost use Rattle.ch_model.specs.declared.line.Line.{Line};
ghost use Rattle.ch_model.specs.World.{world_new};
ghost use Rattle.ch_model.specs.WorldState.{World};
ghost use Rattle.ch_laws_calls.specs.Calls.{Both};
ghost use Rattle.ch_laws_calls.specs.Turns.{KeepsTurns};
ghost use Rattle.ch_laws_peers.specs.Says.{AllSay};
ghost use Rattle.ch_laws_peers.specs.Standing.{IsOfNodes, Standing};
ghost use Rattle.ch_laws_messages.specs.CarriedInTime.{AllInTime};
ghost use Rattle.ch_laws_messages.specs.CarriedWritten.{AllWritten};

/// Of each two nodes: at each writing of an end of the one towards the other, as many messages were said before it as are
/// carried up to it. Each turn keeps this, where all that is said is carried before the turn and after it; and it is so where
/// nothing has happened.
pub fn what_is_written_is_said_before()
    ensures kept { (journal : List Line) → KeepsTurns journal (Both (Standing journal) (AllSay journal)) (Both (Standing journal) (AllSay journal)) (AllInTime journal) }
    ensures fresh { (journal : List Line) → AllInTime journal [] (world_new journal) }
{}

/// Then, at any moment of a journal of many nodes, the log's own definitions say of each two nodes, both ways: all that was said
/// goes; what was written carries the first of the sayings, as many as its payloads that aren't the first under their ids; and
/// the items that were written towards an end carry them one after another.
pub fn frames_carry_what_was_said()
    ensures { (journal : List Line) → IsOfNodes journal → (log : List Entry) (world : World) → Standing journal log world → AllSay journal log world → AllInTime journal log world → AllWritten journal log world }
{}
