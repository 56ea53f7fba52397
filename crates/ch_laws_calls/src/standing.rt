//! The laws of links as calls happen one after another: whatever happens leaves links and ends naming each other, the log
//! telling how ends stand, and the users of openers' ends called as their sockets.
//!
//! No code: laws as clauses of empty functions, over the definitions of calls. That what a cell makes of a whole line
//! does so, are laws of `ch_laws_links` and `ch_laws_pairs`; here it is said of each call of a host, and of each item that it reads.

ghost use Rattle.std.specs.Prelude.{List, []};
ghost use Rattle.ch_model.specs.declared.line.Line.{Line};
ghost use Rattle.ch_model.specs.World.{world_new};
ghost use Rattle.ch_laws_calls.specs.Calls.{KeepsCalls};
ghost use Rattle.ch_laws_calls.specs.Sound.{SoundEnds, SoundLinks};

/// In any journal each thing that happens keeps links sound, where hosts and world agree on the ends before it: a line's answer
/// and a node's note are told; nodes of a cell are others, in their seats; a host is called by an endpoint; an end is joined, comes, or is
/// handed bytes or the end of its input; a host reads an item. At the start, where nothing has happened, links are sound.
///
/// Links are sound where three things are so. In each host, links and ends name each other, and the numbers of the next
/// sockets are free. The log tells how each end stands at its host, and each of its entries was one that may be told. And the user of each
/// opener's end is an endpoint whose own address is called as the opener in the socket's name, with a peer that is called as the target.
pub fn links_stay_sound()
    ensures kept { (journal : List Line) → KeepsCalls journal (SoundEnds journal) (SoundEnds journal) (SoundLinks journal) }
    ensures fresh { (journal : List Line) → SoundLinks journal [] (world_new journal) }
{}
