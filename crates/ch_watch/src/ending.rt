//! What the end of a process leaves to be told.

ghost use Rattle.std.specs.Prelude.{◌≡◌, IfOk};

use crate::name_table::NameTable;
use crate::watched::{Watched, watches_on};
use ch_base::OutOfMemory;
use ch_ident::{Name, Ref};
use std::alloc::Global;
use std::marker::Model;

/// The names and the watches that go with a process.
#[derive(Debug, Drop)]
pub struct Ending {
    /// Its names, in order of registering.
    pub names: Names,
    /// The watches on it, in order of arrival.
    pub watches: Refs,
}

/// Names, in order.
#[derive(Debug, Drop)]
pub struct Names {
    pub items: Vec<Name>,
}

/// References, in order.
#[derive(Debug, Drop)]
pub struct Refs {
    pub items: Vec<Ref>,
}

impl Model for Names {
    ghost use Rattle.std.specs.Prelude.{List, ℕ};

    ghost Value = { List (List ℕ) };

    ghost view = { λ names. names.items.items };
}

impl Model for Refs {
    ghost use Rattle.std.specs.Prelude.{List};
    ghost use Rattle.ch_ident.specs.declared.identifier.Ref.{Ref};

    ghost Value = { List Ref };

    ghost view = { λ refs. refs.items.items };
}

impl Ending {
    ghost use Rattle.ch_watch.specs.Watches.{ending_of};

    /// What goes with a process.
    #[tactic(auto, unfolding(crate::specs::Watches::ending_of))]
    pub fn of(
        alloc: Global,
        names: &NameTable,
        watched: &[Watched],
        process: u32,
    ) -> Result<Ending, OutOfMemory>
        ensures { IfOk result (λ ending. ending ≡ ending_of names.now watched.now process) }
    {
        let names = names.names_of(alloc, process)?;
        let watches = watches_on(alloc, watched, process)?;
        Ok(Ending { names, watches })
    }
}
