//! The declared names, and what stands for what.

ghost use Rattle.std.specs.Prelude.{◌≡◌, ◌<◌, ◌++◌, ◌∷◌, [], find, IfOk, OnOk};
ghost use Rattle.std.specs.Option.{option_copied};
ghost use Rattle.ch_model.specs.Naming.{is_named, called, address_as, process_as, target_as, reference_as, process_called, target_called, reference_called, maybe_called};
ghost use Rattle.indexmap.specs.IndexMap.{spare};
ghost use Rattle.ch_names.specs.Tables.{address_of, is_at, first_entry};

use crate::known::Known;
use crate::spot::Spot;
use ch_base::{Address, OutOfMemory, Text};
use ch_ident::{ProcessId, Ref, SendPortId};
use ch_model::{ProcName, RefName, TargetName};
use ch_static::Target;
use indexmap::IndexMap;
use std::alloc::Global;
use std::hash::Hash;
use std::marker::Model;

/// Names in order of declaration. Contracts see the list of them. Of two that are called alike, or stand
/// for one address, the first counts.
///
/// The only refusal of a call is `OutOfMemory`. What turns a name into an address also refuses so a name
/// that isn't declared: the model lets it stand for an empty host, and no `Address` has one.
#[derive(Debug, Drop)]
pub struct Names {
    rows: Vec<Known>,
    /// For each name, the place of the first that is called so.
    by_name: IndexMap<Vec<u8>, usize>,
    /// For each address, the place of the first that stands for it.
    by_address: IndexMap<Spot, usize>,
}

impl Model for Names {
    ghost use Rattle.std.specs.Prelude.{List};
    ghost use Rattle.ch_model.specs.WorldState.{Named};

    ghost Value = { List Named };

    ghost use Rattle.ch_names.specs.Tables.{AreTables};

    ghost view = { λ names. names.rows.items };

    ghost invariant = { λ names. AreTables (λ name. name.items) names.by_name.entries names.by_address.entries names.rows.items };
}

impl Names {
    /// No name is declared. It takes no memory.
    pub fn new(alloc: Global) -> Names
        ensures { result ≡ [] }
    {
        Names {
            rows: Vec::new(alloc),
            by_name: IndexMap::new(alloc),
            by_address: IndexMap::new(alloc),
        }
    }

    /// One more name, after the others.
    pub fn add(
        &mut self,
        name: Text,
        address: Address,
        unique: u32,
        is_node: bool,
    ) -> Result<(), OutOfMemory>
        ensures { OnOk result (self.new ≡ self.old ++ record { name = name; address = address; unique = unique; is_node = is_node } ∷ []) }
    {
        let key = name.copy()?.into_vec();
        let spot = Spot::of(&address)?;
        self.by_name.reserve(1)?;
        self.by_address.reserve(1)?;
        let place = self.rows.len();
        self.rows.push(Known {
            name,
            address,
            unique,
            is_node,
        })?;
        put_first(&mut self.by_name, key, place);
        put_first(&mut self.by_address, spot, place);
        Ok(())
    }

    fn alloc(&self) -> Global {
        *self.rows.allocator()
    }

    /// The first of this name.
    fn named(&self, name: &Text) -> Option<&Known>
        ensures { option_copied result ≡ find (is_named name.now) self.now }
    {
        match self.by_name.get(name.as_slice()) {
            None => None,
            Some(place) => self.rows.get(*place),
        }
    }

    /// The first that stands for the address of a key.
    fn at(&self, spot: &Spot) -> Option<&Known>
        ensures { option_copied result ≡ find (is_at (address_of spot.now)) self.now }
    {
        match self.by_address.get(spot) {
            None => None,
            Some(place) => self.rows.get(*place),
        }
    }

    /// What an address is called; the empty text where no name stands for it.
    pub fn called(&self, address: &Address) -> Result<Text, OutOfMemory>
        ensures { IfOk result (λ t. t ≡ called self.now address.now) }
    {
        let spot = Spot::of(address)?;
        match self.at(&spot) {
            None => Ok(Text::new(self.alloc())),
            Some(known) => known.name.copy(),
        }
    }

    /// The address that a name stands for.
    pub fn address_as(&self, name: &Text) -> Result<Address, OutOfMemory>
        ensures { IfOk result (λ a. a ≡ address_as self.now name.now) }
    {
        match self.named(name) {
            None => Err(OutOfMemory),
            Some(known) => known.address.copy(),
        }
    }

    /// The process of a name's address and unique number.
    pub fn process_as(&self, process: &ProcName) -> Result<ProcessId, OutOfMemory>
        ensures { IfOk result (λ id. id ≡ process_as self.now process.now) }
    {
        match self.named(&process.node) {
            None => Err(OutOfMemory),
            Some(known) => Ok(ProcessId {
                node: known.address.copy()?,
                unique: known.unique,
                counter: process.counter,
            }),
        }
    }

    /// The target, in addresses.
    pub fn target_as(&self, target: &TargetName) -> Result<Target, OutOfMemory>
        ensures { IfOk result (λ to. to ≡ target_as self.now target.now) }
    {
        match target {
            TargetName::Process { process } => Ok(Target::Process(self.process_as(process)?)),
            TargetName::Port { process, port } => Ok(Target::Port(SendPortId {
                process: self.process_as(process)?,
                port: *port,
            })),
            TargetName::Named { node, name } => Ok(Target::Named {
                at: self.address_as(node)?,
                name: name.copy()?,
            }),
        }
    }

    /// The reference, in addresses.
    pub fn reference_as(&self, reference: &RefName) -> Result<Ref, OutOfMemory>
        ensures { IfOk result (λ r. r ≡ reference_as self.now reference.now) }
    {
        Ok(Ref {
            node: self.address_as(&reference.node)?,
            number: reference.number,
        })
    }

    /// What a process is called.
    pub fn process_called(&self, process: &ProcessId) -> Result<ProcName, OutOfMemory>
        ensures { IfOk result (λ name. name ≡ process_called self.now process.now) }
    {
        Ok(ProcName {
            node: self.called(&process.node)?,
            counter: process.counter,
        })
    }

    /// What a target is called.
    pub fn target_called(&self, target: &Target) -> Result<TargetName, OutOfMemory>
        ensures { IfOk result (λ name. name ≡ target_called self.now target.now) }
    {
        match target {
            Target::Process(process) => Ok(TargetName::Process {
                process: self.process_called(process)?,
            }),
            Target::Port(port) => Ok(TargetName::Port {
                process: self.process_called(&port.process)?,
                port: port.port,
            }),
            Target::Named { at, name } => Ok(TargetName::Named {
                node: self.called(at)?,
                name: name.copy()?,
            }),
        }
    }

    /// What a reference is called.
    pub fn reference_called(&self, reference: &Ref) -> Result<RefName, OutOfMemory>
        ensures { IfOk result (λ name. name ≡ reference_called self.now reference.now) }
    {
        Ok(RefName {
            node: self.called(&reference.node)?,
            number: reference.number,
        })
    }

    /// What a process is called, where there is one.
    pub fn maybe_called(&self, found: &Option<ProcessId>) -> Result<Option<ProcName>, OutOfMemory>
        ensures { IfOk result (λ name. name ≡ maybe_called self.now found.now) }
    {
        match found {
            None => Ok(None),
            Some(process) => Ok(Some(self.process_called(process)?)),
        }
    }
}

/// Puts a place under a key into a table that has room for one, where none stands under it.
fn put_first<K: Eq + Hash + Drop>(table: &mut IndexMap<K, usize>, key: K, place: usize)
    requires { 0 < spare table.old }
    ensures { table.new.entries ≡ first_entry K.eq table.old.entries key place }
{
    if table.contains_key(&key) {
        return;
    }
    match table.insert(key, place) {
        Ok(_) => {}
        Err(_) => unreachable!(),
    }
}
