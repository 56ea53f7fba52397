//! A world with its journal and its log.

ghost use Rattle.std.specs.Prelude.{◌≡◌, ◌∷◌, [], true, false, MatchResult, IfOk, OnOk, OnErr, IsErrOf, Ok};
ghost use Rattle.ch_base.specs.declared.memory.Stop.TheVariants as stops;
ghost use Rattle.ch_cell.specs.Stops.{Stops};
ghost use Rattle.ch_model.specs.World.{world_new, log_of};
ghost use Rattle.ch_sockets.specs.Handing.{handed_among};
ghost use Rattle.ch_world.specs.Histories.{all_declare, is_event as is_event_of, told_step};

use crate::lines::{is_declaration, is_settle};
use crate::realm::Realm;
use ch_base::{OutOfMemory, Stop};
use ch_model::{Declared, End, Entry, Handed, Line, SockName, What};
use std::alloc::Global;
use std::marker::Model;

/// A world with its journal and its log. Contracts see both, the model's world after them, and whether a call was
/// refused, after which each line is. Where none was, the log is the one of the journal.
#[derive(Drop)]
pub struct World {
    realm: Realm,
    journal: Vec<Line>,
    log: Vec<Entry>,
    failed: bool,
}

impl Model for World {
    ghost use Rattle.std.specs.Prelude.{◌≡◌, false, Ok};
    ghost use Rattle.ch_model.specs.World.{world_new, log_from};
    ghost use Rattle.ch_world.specs.Histories.{Told};

    ghost Value = { Told };

    ghost view = { λ w. record { journal = w.journal.items; log = w.log.items; state = w.realm; failed = w.failed } };

    ghost invariant = { λ w. w.failed ≡ false → log_from (world_new w.journal.items) w.journal.items ≡ Ok (w.log.items, w.realm) };
}

/// Whether a line is an event that isn't `settle`.
pub fn is_event(what: &What) -> bool
    ensures { result ≡ is_event_of what.now }
{
    !is_declaration(what) && !is_settle(what)
}

impl World {
    /// The world that these declarations make, where nothing has happened. They begin its journal; its log is empty.
    pub fn new(alloc: Global, declared: &Declared) -> Result<World, OutOfMemory>
        requires { all_declare declared.now ≡ true }
        ensures { IfOk result (λ world. world ≡ record { journal = declared.now; log = []; state = world_new declared.now; failed = false }) }
    {
        let realm = Realm::new(alloc, declared)?;
        let Declared { lines } = declared.copy()?;
        Ok(World {
            realm,
            journal: lines,
            log: Vec::new(alloc),
            failed: false,
        })
    }

    /// One more line of the journal. Its entries come last in the log, and how many they are is answered. It stops
    /// with `Worn` exactly where a count can't grow. After a refusal journal and log stand as they were, and each
    /// further line is refused with `OutOfMemory`.
    pub fn step(&mut self, line: Line) -> Result<usize, Stop>
        requires { is_event_of line.what ≡ true }
        ensures does { MatchResult result (λ count. told_step line self.old ≡ Ok (count, self.new)) (λ e. Stops e (told_step line self.old)) }
        ensures law { OnOk result (log_of self.new.journal ≡ Ok self.new.log) }
        ensures err { OnErr result ((self.new.journal ≡ self.old.journal) × (self.new.log ≡ self.old.log) × (self.new.failed ≡ true)) }
        ensures spent { self.old.failed ≡ true → IsErrOf result stops.OutOfMemory }
    {
        if self.failed {
            return Err(Stop::OutOfMemory);
        }
        self.failed = true;
        let entries = self.realm.step(&line)?;
        let count = entries.len();
        self.journal.reserve(1)?;
        let mut last = entries;
        self.log.append(&mut last)?;
        self.journal.push_reserved(line);
        self.failed = false;
        Ok(count)
    }

    /// The lines so far. It takes no memory.
    pub fn journal(&self) -> &[Line]
        ensures { result.now ≡ self.now.journal }
    {
        self.journal.as_slice()
    }

    /// The entries of these lines. It takes no memory.
    pub fn log(&self) -> &[Entry]
        ensures log { result.now ≡ self.now.log }
        ensures law { self.now.failed ≡ false → log_of self.now.journal ≡ Ok self.now.log }
    {
        self.log.as_slice()
    }

    /// Whether a call was refused. It takes no memory.
    pub fn has_failed(&self) -> bool
        ensures { result ≡ self.now.failed }
    {
        self.failed
    }

    /// What is there to be handed to an end of a socket: all that is unread, else the end of its input, else nothing;
    /// nothing where no socket has the name.
    pub fn unread(&self, sock: &SockName, end: End) -> Result<Handed, OutOfMemory>
        ensures { IfOk result (λ handed. handed ≡ handed_among sock.now end self.now.state.sockets) }
    {
        self.realm.unread(sock, end)
    }
}
