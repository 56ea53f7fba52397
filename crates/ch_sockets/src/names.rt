//! The names of sockets, in tables.
//!
//! Nothing stands below, and all sockets above.

ghost use Rattle.std.specs.Prelude.{◌≡◌, ◌<◌, ◌+◌, [], ◌∷◌, ◌++◌, length, position, count_by, None, IfSome, IfOk, OnOk, OnErr};
ghost use Rattle.ch_model.specs.Same.{same_socket};
ghost use Rattle.ch_model.specs.Naming.{same_ends};
ghost use Rattle.ch_sockets.specs.Names.{or_zero};

use ch_base::{OutOfMemory, Text};
use ch_model::SockName;
use indexmap::{IndexMap, IndexSet};
use std::alloc::Global;
use std::marker::Model;

/// The names of sockets in order of opening. Contracts see the list of them. The place of a name, and how many
/// there are of an opener and a target, are looked up by key.
#[derive(Drop)]
pub(crate) struct Names {
    /// The names of openers and targets.
    texts: IndexSet<Vec<u8>>,
    /// For each socket, in order, the places of its opener's and its target's name, and its number.
    keys: IndexSet<(usize, usize, u32)>,
    /// How many sockets there are of an opener and a target, by the places of their names.
    counts: IndexMap<(usize, usize), u32>,
}

impl Model for Names {
    ghost use Rattle.std.specs.Prelude.{List};
    ghost use Rattle.ch_model.specs.declared.name.SockName.{SockName};
    ghost use Rattle.ch_sockets.specs.Names.{names_at, AreKeys, AreCounts};

    ghost Value = { List SockName };

    ghost view = { λ names. names_at (λ text. text.items) names.texts.keys names.keys.keys };

    ghost invariant = { λ names. AreKeys (λ text. text.items) names.texts.keys names.keys.keys × AreCounts names.counts.entries names.keys.keys };
}

/// A count, or zero where none is known.
fn known_or_zero(count: Option<u32>) -> u32
    ensures { result ≡ or_zero count }
{
    match count {
        None => 0,
        Some(count) => count,
    }
}

/// One more than a count. It is want of memory at the last value of the type.
fn one_more(count: u32) -> Result<u32, OutOfMemory>
    ensures { IfOk result (λ more. more ≡ count + 1) }
{
    if count < u32::MAX {
        Ok(count + 1)
    } else {
        Err(OutOfMemory)
    }
}

impl Names {
    /// No socket was opened.
    pub(crate) fn new(alloc: Global) -> Names
        ensures { result ≡ [] }
    {
        Names {
            texts: IndexSet::new(alloc),
            keys: IndexSet::new(alloc),
            counts: IndexMap::new(alloc),
        }
    }

    /// The place of a name.
    pub(crate) fn place(&self, name: &SockName) -> Option<usize>
        ensures place { result ≡ position (λ known. same_socket known name.now) self.now }
        ensures within { IfSome result (λ place. place < length self.now) }
    {
        match self.texts.get_index_of(name.from.as_slice()) {
            None => None,
            Some(from) => match self.texts.get_index_of(name.to.as_slice()) {
                None => None,
                Some(to) => self.keys.get_index_of(&(from, to, name.number)),
            },
        }
    }

    /// How many names there are of an opener and a target.
    pub(crate) fn count(&self, from: &Text, to: &Text) -> u32
        ensures { result ≡ count_by (same_ends from.now to.now) self.now }
    {
        match self.texts.get_index_of(from.as_slice()) {
            None => 0,
            Some(from) => match self.texts.get_index_of(to.as_slice()) {
                None => 0,
                Some(to) => known_or_zero(self.counts.get(&(from, to)).copied()),
            },
        }
    }

    /// A name comes behind the others: the next of its opener and its target.
    pub(crate) fn add(&mut self, name: &SockName) -> Result<(), OutOfMemory>
        requires next { name.now.number ≡ count_by (same_ends name.now.from name.now.to) self.old }
        requires fresh { position (λ known. same_socket known name.now) self.old ≡ None }
        ensures ok { OnOk result (self.new ≡ self.old ++ name.now ∷ []) }
        ensures err { OnErr result (self.new ≡ self.old) }
    {
        let alloc = name.from.allocator();
        let count = one_more(name.number)?;
        let opener = Vec::from_slice(alloc, name.from.as_slice())?;
        let target = Vec::from_slice(alloc, name.to.as_slice())?;
        let (from, _) = self.texts.insert_full(opener)?;
        let (to, _) = self.texts.insert_full(target)?;
        let place = self.keys.len();
        self.keys.insert((from, to, name.number))?;
        match self.counts.insert((from, to), count) {
            Ok(_) => Ok(()),
            Err(_) => {
                self.keys.truncate(place);
                Err(OutOfMemory)
            }
        }
    }
}
