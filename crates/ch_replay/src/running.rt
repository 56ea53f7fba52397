//! How far a journal has run: its declarations, and from the first event line on the world that they
//! made.
//!
//! The world stands below. The walk over the lines stands above.

ghost use Rattle.std.specs.Prelude.{◌≡◌, false, OnOk, Ok, MatchResult};
ghost use Rattle.ch_replay.specs.Replayed.{Stops};
ghost use Rattle.ch_replay.specs.Running.{unbegun};
ghost use Rattle.ch_replay.specs.Steps.{with_declared, declaration_on, begun, event_on, run_step};
ghost use Rattle.ch_world.specs.Lines.{is_settle};

use ch_base::{OutOfMemory, Stop};
use ch_model::{Declared, Entry, Line};
use ch_world::{Realm, is_declaration};
use std::alloc::Global;
use std::marker::Model;

/// The declarations so far and, once an event line came, the world that they made.
#[derive(Drop)]
pub(crate) struct Running {
    declared: Declared,
    realm: Option<Realm>,
}

impl Model for Running {
    ghost use Rattle.ch_replay.specs.Running.{Running as RunningState};

    ghost Value = { RunningState };

    ghost view = { λ r. record { declared = r.declared; world = r.realm } };
}

impl Running {
    /// A run before its first line. It takes no memory.
    pub(crate) fn new(alloc: Global) -> Running
        ensures { result ≡ unbegun }
    {
        Running {
            declared: Declared {
                lines: Vec::new(alloc),
            },
            realm: None,
        }
    }

    /// Keeps a line.
    fn keep(&mut self, line: &Line) -> Result<(), OutOfMemory>
        ensures { OnOk result (self.new ≡ with_declared line.now self.old) }
    {
        let line = line.copy()?;
        self.declared.lines.push(line)?;
        Ok(())
    }

    /// Keeps a declaration, which tells nothing.
    fn declare(&mut self, alloc: Global, line: &Line) -> Result<Vec<Entry>, Stop>
        ensures { MatchResult result (λ entries. declaration_on self.old line.now ≡ Ok (entries.items, self.new)) (λ e. Stops e (declaration_on self.old line.now)) }
    {
        self.keep(line)?;
        Ok(Vec::new(alloc))
    }

    /// Makes the world of the declarations, where there is none yet.
    fn begin(&mut self, alloc: Global) -> Result<(), OutOfMemory>
        ensures { OnOk result (self.new ≡ begun self.old) }
    {
        if self.realm.is_none() {
            self.realm = Some(Realm::new(alloc, &self.declared)?);
        }
        Ok(())
    }

    /// What an event line does in the world; nothing where there is none.
    fn in_world(&mut self, alloc: Global, line: &Line) -> Result<Vec<Entry>, Stop>
        requires { is_settle line.now.what ≡ false }
        ensures { MatchResult result (λ entries. event_on self.old line.now ≡ Ok (entries.items, self.new)) (λ e. Stops e (event_on self.old line.now)) }
    {
        match &mut self.realm {
            Some(realm) => realm.step(line),
            None => Ok(Vec::new(alloc)),
        }
    }

    /// What an event line does, in the world that is there or that it is the first of.
    fn event(&mut self, alloc: Global, line: &Line) -> Result<Vec<Entry>, Stop>
        requires { is_settle line.now.what ≡ false }
        ensures { MatchResult result (λ entries. event_on (begun self.old) line.now ≡ Ok (entries.items, self.new)) (λ e. Stops e (event_on (begun self.old) line.now)) }
    {
        self.begin(alloc)?;
        self.in_world(alloc, line)
    }

    /// What a line does: a declaration is kept, and an event line is a step of the world. After a stop
    /// nothing is known of the run.
    #[tactic(auto, unfolding(crate::specs::Steps::run_step))]
    fn read(&mut self, alloc: Global, line: &Line) -> Result<Vec<Entry>, Stop>
        requires { is_settle line.now.what ≡ false }
        ensures { MatchResult result (λ entries. run_step self.old line.now ≡ Ok (entries.items, self.new)) (λ e. Stops e (run_step self.old line.now)) }
    {
        if is_declaration(&line.what) {
            self.declare(alloc, line)
        } else {
            self.event(alloc, line)
        }
    }

    /// The same of a line that is let go after it: in a vector, whose drop is one call.
    pub(crate) fn step(&mut self, alloc: Global, line: Line) -> Result<Vec<Entry>, Stop>
        requires { is_settle line.what ≡ false }
        ensures { MatchResult result (λ entries. run_step self.old line ≡ Ok (entries.items, self.new)) (λ e. Stops e (run_step self.old line)) }
    {
        let mut said = Vec::new(alloc);
        said.push(line)?;
        self.read(alloc, &said[0])
    }
}
