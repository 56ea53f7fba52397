//! The laws of frames: what is unread between two nodes fits the connections that its reader has open.
//!
//! No code: definitions, and laws as clauses of empty functions. What happens in a journal, as calls of hosts, is the crate's
//! root's; the scenes of two nodes are defined there too. That hosts and world agree, and what links and sockets say of each other, is given here.

ghost use Rattle.std.specs.Prelude.{◌≡◌, List, [], true};
ghost use Rattle.ch_model.specs.declared.entry.Entry.{Entry};
ghost use Rattle.ch_model.specs.declared.line.Line.{Line};
ghost use Rattle.ch_model.specs.AccountsBytes.{writes_fit_ids};
ghost use Rattle.ch_model.specs.Logs.{each};
ghost use Rattle.ch_model.specs.World.{names_of, world_new};
ghost use Rattle.ch_model.specs.WorldState.{World};
ghost use Rattle.ch_laws_bytes.specs.Streams.{AreAddresses};
ghost use Rattle.ch_laws_calls.specs.Calls.{KeepsCalls};
ghost use Rattle.ch_laws_calls.specs.Fits.{AllFit};
ghost use Rattle.ch_laws_calls.specs.Scenes.{Shown};
ghost use Rattle.ch_laws_calls.specs.Sound.{Sound};
ghost use Rattle.ch_laws_calls.specs.Users.{AllUsed};
ghost use Rattle.ch_laws_calls.specs.FitsFit.{Fit, AllWriteFit};

/// The frames that are unread at an end lead from the ids that its reader's link has there to those that its writer's link has
/// given there; where the writer has ended its end they are still fit, one after another. While a link is up on no socket, none of
/// its ids is created, and what waits gives just its ids. So it is where nothing has happened, and whatever happens in a sound
/// world keeps it, be the sockets of whatever nodes, and be links broken or not.
///
/// Hence the frames between each two nodes of a journal fit the connections that their reader has open.
pub fn frames_fit()
    ensures fresh { (journal : List Line) → Fit journal [] (world_new journal) }
    ensures kept { (journal : List Line) → KeepsCalls journal (Sound journal) (Sound journal) (Fit journal) }
    ensures gives { (journal : List Line) → AreAddresses (names_of journal) → (log : List Entry) (world : World) → Sound journal log world → AllUsed journal log world → Shown journal log world → Fit journal log world → AllFit journal log world }
{}

/// Where the frames that each end writes in a log are fit, one after another from no ids on, each frame has an id that the accounts
/// of the log allow it: what is created has the next id, and what is sent on or closed is open.
pub fn fit_frames_have_fit_ids()
    ensures { (log : List Entry) → AllWriteFit log → each writes_fit_ids log ≡ true }
{}
