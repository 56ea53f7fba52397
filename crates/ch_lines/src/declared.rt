//! The declarations so far, in their order, with a table by key for each thing that a line may ask of
//! them.
//!
//! What is asked costs one look-up, whatever was declared. Above stands what the lines have told.

ghost use Rattle.std.specs.Prelude.{◌≡◌, ◌||◌, ◌<◌, ◌++◌, ◌∷◌, [], IfOk, OnOk, OnErr};
ghost use Rattle.std.specs.List.{list_any};
ghost use Rattle.ch_model.specs.declared.line.What.TheVariants as lines;
ghost use Rattle.ch_model.specs.LinesTold.{declares_node, declares_away, declares_stranger, declares_name, declares_label, takes_address, takes_host};
ghost use Rattle.ch_model.specs.LinesBuilt.{is_bare as is_bare_of};
ghost use Rattle.indexmap.specs.IndexSet.{insert_key, spare};
ghost use Rattle.ch_lines.specs.Tables.{declared_after, declares_address, declares_guest};

use ch_base::{Address, OutOfMemory, Text};
use ch_ident::Name;
use ch_model::What;
use indexmap::IndexSet;
use std::alloc::Global;
use std::hash::Hash;
use std::marker::Model;

/// An address as a key: its host, its port and its number.
type AddressKey = (Vec<u8>, (u16, u32));

/// A label as a key: its node and its bytes.
type LabelKey = (Vec<u8>, Vec<u8>);

/// Declarations. Contracts see the list of them.
#[derive(Debug, Drop)]
pub(crate) struct Declared {
    declarations: Vec<What>,
    /// The names of nodes.
    nodes: IndexSet<Vec<u8>>,
    /// The names of addresses that are no node's.
    aways: IndexSet<Vec<u8>>,
    /// The names of strangers.
    strangers: IndexSet<Vec<u8>>,
    /// The hosts of addresses.
    hosts: IndexSet<Vec<u8>>,
    /// The hosts of strangers.
    guests: IndexSet<Vec<u8>>,
    addresses: IndexSet<AddressKey>,
    labels: IndexSet<LabelKey>,
}

impl Model for Declared {
    ghost use Rattle.std.specs.Prelude.{List};
    ghost use Rattle.ch_model.specs.declared.line.What.{What};
    ghost use Rattle.ch_lines.specs.Tables.{AreTables};

    ghost Value = { List What };

    ghost view = { λ d. d.declarations.items };

    ghost invariant = { λ d. AreTables (λ k. k.items) (λ k. record { host = k.0.items; port = k.1.0; id = k.1.1 }) (λ k. (k.0.items, k.1.items)) d.nodes.keys d.aways.keys d.strangers.keys d.hosts.keys d.guests.keys d.addresses.keys d.labels.keys d.declarations.items };
}

impl Declared {
    /// No declaration. It takes no memory.
    pub(crate) fn nothing(alloc: Global) -> Declared
        ensures { result ≡ [] }
    {
        Declared {
            declarations: Vec::new(alloc),
            nodes: IndexSet::new(alloc),
            aways: IndexSet::new(alloc),
            strangers: IndexSet::new(alloc),
            hosts: IndexSet::new(alloc),
            guests: IndexSet::new(alloc),
            addresses: IndexSet::new(alloc),
            labels: IndexSet::new(alloc),
        }
    }

    /// Whether there is none.
    pub(crate) fn is_empty(&self) -> bool
        ensures { result ≡ is_bare_of self.now }
    {
        self.declarations.is_empty()
    }

    /// Whether a node has this name.
    pub(crate) fn has_node(&self, name: &[u8]) -> bool
        ensures { result ≡ list_any (declares_node name.now) self.now }
    {
        self.nodes.contains(name)
    }

    /// Whether an address that is no node's has this name.
    pub(crate) fn has_away(&self, name: &[u8]) -> bool
        ensures { result ≡ list_any (declares_away name.now) self.now }
    {
        self.aways.contains(name)
    }

    /// Whether a stranger has this name.
    pub(crate) fn has_stranger(&self, name: &[u8]) -> bool
        ensures { result ≡ list_any (declares_stranger name.now) self.now }
    {
        self.strangers.contains(name)
    }

    /// Whether an address has this host.
    pub(crate) fn has_host(&self, host: &[u8]) -> bool
        ensures { result ≡ list_any (takes_host host.now) self.now }
    {
        self.hosts.contains(host)
    }

    /// Whether a stranger has this host.
    pub(crate) fn has_guest(&self, host: &[u8]) -> bool
        ensures { result ≡ list_any (declares_guest host.now) self.now }
    {
        self.guests.contains(host)
    }

    /// Whether a name has this address.
    pub(crate) fn has_address(&self, address: &Address) -> Result<bool, OutOfMemory>
        ensures { IfOk result (λ has. has ≡ list_any (declares_address address.now) self.now) }
    {
        let key = address_key(address)?;
        Ok(self.addresses.contains(&key))
    }

    /// Whether a node has this label.
    pub(crate) fn has_label(&self, node: &[u8], label: &[u8]) -> Result<bool, OutOfMemory>
        ensures { IfOk result (λ has. has ≡ list_any (declares_label node.now label.now) self.now) }
    {
        let key = label_key(*self.declarations.allocator(), node, label)?;
        Ok(self.labels.contains(&key))
    }

    /// Whether a node or another address has this name.
    pub(crate) fn has_peer(&self, name: &[u8]) -> bool
        ensures { result ≡ list_any (λ what. declares_node name.now what || declares_away name.now what) self.now }
    {
        self.has_node(name) || self.has_away(name)
    }

    /// Whether one who opens sockets has this name: a node or a stranger.
    pub(crate) fn has_opener(&self, name: &[u8]) -> bool
        ensures { result ≡ list_any (λ what. declares_node name.now what || declares_stranger name.now what) self.now }
    {
        self.has_node(name) || self.has_stranger(name)
    }

    /// Whether anyone has this name.
    #[tactic(auto, using(crate::proofs::Either::any_name))]
    pub(crate) fn has_name(&self, name: &[u8]) -> bool
        ensures { result ≡ list_any (declares_name name.now) self.now }
    {
        self.has_peer(name) || self.has_stranger(name)
    }

    /// Whether a name has this address, or a stranger its host.
    pub(crate) fn takes_address(&self, address: &Address) -> Result<bool, OutOfMemory>
        ensures { IfOk result (λ takes. takes ≡ list_any (takes_address address.now) self.now) }
    {
        let own = self.has_address(address)?;
        Ok(own || self.has_guest(address.host.as_slice()))
    }

    /// Keeps a line that declares. After `OutOfMemory` nothing is changed.
    pub(crate) fn add(&mut self, what: &What) -> Result<(), OutOfMemory>
        ensures done { OnOk result (self.new ≡ declared_after self.old what.now) }
        ensures kept { OnErr result (self.new ≡ self.old) }
    {
        match what {
            What::Node {
                name,
                address,
                unique,
            } => self.add_node(name, address, *unique),
            What::Away {
                name,
                address,
                unique,
            } => self.add_away(name, address, *unique),
            What::Label { node, label } => self.add_label(node, label),
            What::Stranger { name, host } => self.add_stranger(name, host),
            _ => Ok(()),
        }
    }

    fn add_node(&mut self, name: &Text, address: &Address, unique: u32) -> Result<(), OutOfMemory>
        ensures done { OnOk result (self.new ≡ self.old ++ lines.Node name.now address.now unique ∷ []) }
        ensures kept { OnErr result (self.new ≡ self.old) }
    {
        let key = name.copy()?.into_vec();
        let host = address.host.copy()?.into_vec();
        let place = address_key(address)?;
        let name = name.copy()?;
        let address = address.copy()?;
        self.nodes.reserve(1)?;
        self.hosts.reserve(1)?;
        self.addresses.reserve(1)?;
        self.declarations.push(What::Node {
            name,
            address,
            unique,
        })?;
        put_key(&mut self.nodes, key);
        put_key(&mut self.hosts, host);
        put_key(&mut self.addresses, place);
        Ok(())
    }

    fn add_away(&mut self, name: &Text, address: &Address, unique: u32) -> Result<(), OutOfMemory>
        ensures done { OnOk result (self.new ≡ self.old ++ lines.Away name.now address.now unique ∷ []) }
        ensures kept { OnErr result (self.new ≡ self.old) }
    {
        let key = name.copy()?.into_vec();
        let host = address.host.copy()?.into_vec();
        let place = address_key(address)?;
        let name = name.copy()?;
        let address = address.copy()?;
        self.aways.reserve(1)?;
        self.hosts.reserve(1)?;
        self.addresses.reserve(1)?;
        self.declarations.push(What::Away {
            name,
            address,
            unique,
        })?;
        put_key(&mut self.aways, key);
        put_key(&mut self.hosts, host);
        put_key(&mut self.addresses, place);
        Ok(())
    }

    fn add_label(&mut self, node: &Text, label: &Name) -> Result<(), OutOfMemory>
        ensures done { OnOk result (self.new ≡ self.old ++ lines.Label node.now label.now ∷ []) }
        ensures kept { OnErr result (self.new ≡ self.old) }
    {
        let key = label_key(node.allocator(), node.as_slice(), label.bytes.as_slice())?;
        let node = node.copy()?;
        let label = label.copy()?;
        self.labels.reserve(1)?;
        self.declarations.push(What::Label { node, label })?;
        put_key(&mut self.labels, key);
        Ok(())
    }

    fn add_stranger(&mut self, name: &Text, host: &Text) -> Result<(), OutOfMemory>
        ensures done { OnOk result (self.new ≡ self.old ++ lines.Stranger name.now host.now ∷ []) }
        ensures kept { OnErr result (self.new ≡ self.old) }
    {
        let key = name.copy()?.into_vec();
        let guest = host.copy()?.into_vec();
        let name = name.copy()?;
        let host = host.copy()?;
        self.strangers.reserve(1)?;
        self.guests.reserve(1)?;
        self.declarations.push(What::Stranger { name, host })?;
        put_key(&mut self.strangers, key);
        put_key(&mut self.guests, guest);
        Ok(())
    }
}

/// The key of an address.
fn address_key(address: &Address) -> Result<AddressKey, OutOfMemory>
    ensures { IfOk result (λ key. record { host = key.0.items; port = key.1.0; id = key.1.1 } ≡ address.now) }
{
    let host = address.host.copy()?.into_vec();
    Ok((host, (address.port, address.id)))
}

/// The key of a node's label.
fn label_key(alloc: Global, node: &[u8], label: &[u8]) -> Result<LabelKey, OutOfMemory>
    ensures node { IfOk result (λ key. key.0.items ≡ node.now) }
    ensures label { IfOk result (λ key. key.1.items ≡ label.now) }
{
    let node = Vec::from_slice(alloc, node)?;
    let label = Vec::from_slice(alloc, label)?;
    Ok((node, label))
}

/// Puts a key into a table that has room for one.
fn put_key<K: Eq + Hash + Drop>(table: &mut IndexSet<K>, key: K)
    requires { 0 < spare table.old }
    ensures { table.new.keys ≡ insert_key K.eq table.old.keys key }
{
    match table.insert(key) {
        Ok(_) => {}
        Err(_) => unreachable!(),
    }
}
