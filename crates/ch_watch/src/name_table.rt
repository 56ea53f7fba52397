//! The names of a node, in a table by name that keeps the order of registering.

ghost use Rattle.std.specs.Prelude.{◌≡◌, ◌==◌, ◌++◌, ◌∷◌, [], false, not, map, find, filter, Some, None, IfOk, OnOk, OnErr, IfNone, MatchOption};
ghost use Rattle.std.specs.List.{list_any};
ghost use Rattle.std.specs.Option.{option_map};
ghost use Rattle.ch_watch.specs.Firsts.{first_that};
ghost use Rattle.ch_watch.specs.Names.{has_name};

use crate::ending::Names;
use crate::named::Named;
use ch_base::OutOfMemory;
use ch_ident::Name;
use indexmap::IndexMap;
use std::alloc::Global;
use std::marker::Model;

/// Names, each under its own bytes. Contracts see the list of them in order of registering. A call looks
/// a name up by key; taking one away also moves those that were registered after it, to keep the order.
#[derive(Debug, Drop)]
pub struct NameTable {
    table: IndexMap<Vec<u8>, Named>,
}

impl Model for NameTable {
    ghost use Rattle.std.specs.Prelude.{List};
    ghost use Rattle.std.specs.Map.{values_of};
    ghost use Rattle.ch_watch.specs.declared.named.Named.{Named};
    ghost use Rattle.ch_watch.specs.Tables.{UnderNames};

    ghost Value = { List Named };

    ghost view = { λ names. values_of names.table.entries };

    ghost invariant = { λ names. UnderNames (λ key. key.items) names.table.entries };
}

impl NameTable {
    /// No name stands.
    pub fn new(alloc: Global) -> NameTable
        ensures { result ≡ [] }
    {
        NameTable {
            table: IndexMap::new(alloc),
        }
    }

    /// Whether a name stands.
    pub fn has(&self, name: &Name) -> bool
        ensures { result ≡ list_any (has_name name.now) self.now }
    {
        self.table.contains_key(name.bytes.as_slice())
    }

    /// The process for which a name stands.
    pub fn process_of(&self, name: &Name) -> Option<u32>
        ensures { result ≡ option_map (λ named. named.process) (find (has_name name.now) self.now) }
    {
        match self.table.get(name.bytes.as_slice()) {
            None => None,
            Some(named) => Some(named.process),
        }
    }

    /// Adds a name that doesn't stand. After `OutOfMemory` nothing is changed.
    pub fn add(&mut self, name: &Name, process: u32) -> Result<(), OutOfMemory>
        requires { list_any (has_name name.now) self.old ≡ false }
        ensures ok { OnOk result (self.new ≡ self.old ++ record { name = name.now; process = process } ∷ []) }
        ensures err { OnErr result (self.new ≡ self.old) }
    {
        let key = name.bytes.copy()?.into_vec();
        let name = name.copy()?;
        self.table.insert(key, Named { name, process })?;
        Ok(())
    }

    /// Takes a name away.
    pub fn take(&mut self, name: &Name) -> Option<Named>
        ensures taken { MatchOption result (first_that (has_name name.now) self.old ≡ None) (λ named. first_that (has_name name.now) self.old ≡ Some (named, self.new)) }
        ensures left { IfNone result (self.new ≡ self.old) }
    {
        self.table.shift_remove(name.bytes.as_slice())
    }

    /// Drops every name.
    pub fn clear(&mut self)
        ensures { self.new ≡ [] }
    {
        self.table.clear();
    }

    /// Drops the names of a process. It walks all names.
    pub fn drop_process(&mut self, process: u32)
        ensures { self.new ≡ filter (λ named. not (named.process == process)) self.old }
    {
        self.table.retain(
            |_key: &Vec<u8>, named: &mut Named| -> bool
                ensures { (result ≡ not (named.old.process == process)) × (named.new ≡ named.old) }
            { named.process != process },
        );
    }

    /// The names of a process, in order. It walks all names.
    pub fn names_of(&self, alloc: Global, process: u32) -> Result<Names, OutOfMemory>
        ensures { IfOk result (λ own. own ≡ map (λ named. named.name) (filter (λ named. named.process == process) self.now)) }
    {
        let mut items = Vec::new(alloc);
        for named in self.table.values() {
            if named.process == process {
                items.push(named.name.copy()?)?;
            }
        }
        Ok(Names { items })
    }
}
