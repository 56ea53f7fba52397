//! A host with its nodes and the history of what they made of each event.

ghost use Rattle.std.specs.Prelude.{◌≡◌, ◌++◌, ◌∷◌, [], true, false, MatchResult, OnOk, OnErr, IsErrOf, Ok, Err, is_err};
ghost use Rattle.ch_base.specs.declared.memory.Stop.TheVariants as stops;
ghost use Rattle.ch_model.specs.Cell.{cell_step};
ghost use Rattle.ch_cell.specs.Stops.{Stops};
ghost use Rattle.ch_cell.specs.Replay.{Answers, Told};

use crate::site::Site;
use ch_base::{OutOfMemory, Stop};
use ch_model::{Happened, History, LocalEntries, LocalEvent};
use std::alloc::Global;
use std::marker::Model;
use std::snapshot::Snapshot;

/// A cell. Contracts see its host and nodes as they were opened and as they are, its history, and whether a call has
/// stopped. The history is that of the opening state, replayed, and leads to the state.
#[derive(Drop)]
pub struct Cell {
    site: Site,
    opening: Snapshot<Site>,
    history: History,
    failed: bool,
}

impl Model for Cell {
    ghost use Rattle.ch_cell.specs.Kept.{Kept};
    ghost use Rattle.ch_cell.specs.Replay.{IsReplayed};

    ghost Value = { Kept };

    ghost view = { λ c. record { failed = c.failed; opening = c.opening.value; state = c.site; history = c.history } };

    ghost invariant = { λ c. IsReplayed c.failed c.opening.value c.site c.history };
}

/// What a site makes of an event, appended to the history.
#[tactic(auto, unfolding(crate::specs::Replay::Answers, crate::specs::Replay::Told))]
fn recorded(site: &mut Site, history: &mut History, event: LocalEvent) -> Result<LocalEntries, Stop>
    ensures does { Answers site.old event result site.new }
    ensures told { Told history.old event result history.new }
{
    let happened = event.copy()?;
    let made = site.step(event)?;
    note(history, happened, &made)?;
    Ok(made)
}

/// An event, and what was made of it, appended to the history.
fn note(history: &mut History, event: LocalEvent, made: &LocalEntries) -> Result<(), OutOfMemory>
    ensures ok { OnOk result (history.new ≡ history.old ++ record { event = event; made = made.now } ∷ []) }
    ensures err { OnErr result (history.new ≡ history.old) }
{
    let made = made.copy()?;
    history.events.push(Happened { event, made })?;
    Ok(())
}

/// What a site makes of an event, appended to the history, and whether it has stopped.
fn stepped(
    site: &mut Site,
    history: &mut History,
    failed: &mut bool,
    event: LocalEvent,
) -> Result<LocalEntries, Stop>
    ensures does { Answers site.old event result site.new }
    ensures told { Told history.old event result history.new }
    ensures flag { failed.new ≡ is_err result }
{
    let done = recorded(site, history, event);
    *failed = done.is_err();
    done
}

/// The answer to an event after a stop.
fn refused(event: LocalEvent) -> Result<LocalEntries, Stop>
    ensures { result ≡ Err stops.OutOfMemory }
{
    let _event = event;
    Err(Stop::OutOfMemory)
}

/// What a site makes of an event, appended to the history, unless a call has stopped before.
fn answered(
    site: &mut Site,
    history: &mut History,
    failed: &mut bool,
    event: LocalEvent,
) -> Result<LocalEntries, Stop>
    ensures does { Answers site.old event result site.new }
    ensures told { Told history.old event result history.new }
    ensures flag { failed.new ≡ is_err result }
    ensures spent { failed.old ≡ true → IsErrOf result stops.OutOfMemory }
{
    if *failed {
        refused(event)
    } else {
        stepped(site, history, failed, event)
    }
}

impl Cell {
    /// A cell of a host with its nodes, where nothing has happened.
    pub fn new(alloc: Global, site: Site) -> Cell
        ensures { result ≡ record { failed = false; opening = site; state = site; history = [] } }
    {
        Cell {
            opening: Snapshot::of(&site),
            site,
            history: History {
                events: Vec::new(alloc),
            },
            failed: false,
        }
    }

    /// What the host and its nodes make of a local event: the answer, and all that followed, which are appended to
    /// the history. It stops with `Worn` exactly where a count can't grow, and then, as after `OutOfMemory`, the
    /// history stands as it was, and the cell answers `OutOfMemory` for good.
    pub fn step(&mut self, event: LocalEvent) -> Result<LocalEntries, Stop>
        ensures does { MatchResult result (λ made. cell_step self.old.state event ≡ Ok ((made.verdict, made.entries), self.new.state)) (λ e. Stops e (cell_step self.old.state event)) }
        ensures told { MatchResult result (λ made. self.new.history ≡ self.old.history ++ record { event = event; made = made } ∷ []) (λ _. self.new.history ≡ self.old.history) }
        ensures opening { self.new.opening ≡ self.old.opening }
        ensures err { OnErr result (self.new.failed ≡ true) }
        ensures spent { self.old.failed ≡ true → IsErrOf result stops.OutOfMemory }
    {
        answered(&mut self.site, &mut self.history, &mut self.failed, event)
    }

    /// The host and its nodes, for what is read of them. It takes no memory.
    pub fn site(&self) -> &Site
        ensures { result.now ≡ self.now.state }
    {
        &self.site
    }

    /// All that has happened, in order. It takes no memory.
    pub fn history(&self) -> &History
        ensures { result.now ≡ self.now.history }
    {
        &self.history
    }

    /// The history. It takes no memory.
    pub fn into_history(self) -> History
        ensures { result ≡ self.history }
    {
        self.history
    }
}
