//! The labels that a node knows.

ghost use Rattle.std.specs.Prelude.{◌≡◌, [], IfOk, OnErr, MatchResult, Some, None};
ghost use Rattle.std.specs.Str.{bytes_eq};

use crate::closure::{Closure, Unlabelled};
use ch_base::OutOfMemory;
use ch_ident::Name;
use std::alloc::Global;
use std::marker::Model;

/// Labels, in order of adding, each once.
#[derive(Debug, Drop)]
pub struct Table {
    labels: Vec<Name>,
}

impl Model for Table {
    ghost use Rattle.std.specs.Prelude.{List, ℕ};

    ghost Value = { List (List ℕ) };

    ghost view = { λ table. table.labels.items };
}

impl Table {
    ghost use Rattle.ch_static.specs.Labels.{place_of, add_of};

    /// A table without labels.
    pub fn new(alloc: Global) -> Table
        ensures { result ≡ [] }
    {
        Table {
            labels: Vec::new(alloc),
        }
    }

    /// Adds a label at the end. It is false exactly where the label stands already, and then, as after
    /// `OutOfMemory`, the table is unchanged.
    #[tactic(auto, unfolding(crate::specs::Labels::add_of))]
    pub fn add(&mut self, label: &Name) -> Result<bool, OutOfMemory>
        ensures does { IfOk result (λ added. (added, self.new) ≡ add_of self.old label.now) }
        ensures err { OnErr result (self.new ≡ self.old) }
    {
        if self.place(label).is_some() {
            return Ok(false);
        }
        let label = label.copy()?;
        self.labels.push(label)?;
        Ok(true)
    }

    /// The place of the closure's label, from 0, in order of adding. It is refused exactly where the
    /// label isn't there.
    pub fn resolve(&self, closure: &Closure) -> Result<usize, Unlabelled>
        ensures { MatchResult result (λ place. place_of self.now closure.now.label ≡ Some place) (λ _. place_of self.now closure.now.label ≡ None) }
    {
        match self.place(&closure.label) {
            Some(place) => Ok(place),
            None => Err(Unlabelled),
        }
    }

    #[tactic(auto, unfolding(crate::specs::Labels::place_of))]
    fn place(&self, label: &Name) -> Option<usize>
        ensures { result ≡ place_of self.now label.now }
    {
        self.labels.iter().position(|own| is_same(own, label))
    }
}

fn is_same(a: &Name, b: &Name) -> bool
    ensures { result ≡ bytes_eq a.now b.now }
{
    a.bytes.as_slice() == b.bytes.as_slice()
}
