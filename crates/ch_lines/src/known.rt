//! What the lines so far have told, and what the next may ask of it.
//!
//! Below stand the tables of declarations; the lines stand above.

ghost use Rattle.std.specs.Prelude.{◌≡◌, OnErr, OnOk, IfOk, true};
ghost use Rattle.std.specs.List.{list_any};
ghost use Rattle.ch_model.specs.declared.refusal.BadKind.TheVariants.{Form};
ghost use Rattle.ch_model.specs.Fields.{need};
ghost use Rattle.ch_model.specs.LinesTold.{untold, is_declaration as is_declaration_of, told_after, declares_node, declares_away, declares_stranger, declares_name as declares_name_of, takes_address as takes_address_of, early_in, declared_in, peer_in, stranger_in, opener_in, new_name as new_name_in, new_address as new_address_in, new_host as new_host_in, new_label as new_label_in};
ghost use Rattle.ch_model.specs.LinesBuilt.{is_bare as is_bare_of};
ghost use Rattle.ch_fields.specs.Outcome.{Gives};

use crate::declared::Declared;
use ch_base::{Address, OutOfMemory};
use ch_fields::Fault;
use ch_ident::Name;
use ch_model::{BadKind, What};
use std::alloc::Global;
use std::marker::Model;

/// What the lines so far have told: the header, the declarations in their order, and whether an event
/// line came. What it is asked costs a look-up by key.
#[derive(Debug, Drop)]
pub(crate) struct Known {
    pub(crate) header: bool,
    declared: Declared,
    started: bool,
}

impl Model for Known {
    ghost use Rattle.ch_model.specs.LinesTold.{Told};

    ghost Value = { Told };

    ghost view = { λ k. record { header = k.header; declarations = k.declared; started = k.started } };
}

impl Known {
    /// Before the first line. It takes no memory.
    pub(crate) fn nothing(alloc: Global) -> Known
        ensures { result ≡ untold }
    {
        Known {
            header: false,
            declared: Declared::nothing(alloc),
            started: false,
        }
    }

    /// No event line came.
    #[tactic(auto, unfolding(ch_model::specs::LinesTold::early_in))]
    pub(crate) fn early(&self) -> Result<bool, Fault>
        ensures { Gives (λ x. x) result (early_in self.now) }
    {
        if !self.started {
            Ok(true)
        } else {
            Err(Fault::Bad(BadKind::Late))
        }
    }

    /// Nothing was declared.
    pub(crate) fn bare(&self) -> Result<bool, Fault>
        ensures { Gives (λ x. x) result (need Form (is_bare_of self.now.declarations) true) }
    {
        if self.declared.is_empty() {
            Ok(true)
        } else {
            Err(Fault::Bad(BadKind::Form))
        }
    }

    /// The name, where a `node` line declared it.
    #[tactic(auto, unfolding(ch_model::specs::LinesTold::declared_in))]
    pub(crate) fn declared<'a>(&self, name: &'a [u8]) -> Result<&'a [u8], Fault>
        ensures { Gives (λ x. x.now) result (declared_in self.now name.now) }
    {
        if self.declared.has_node(name) {
            Ok(name)
        } else {
            Err(Fault::Bad(BadKind::Undeclared))
        }
    }

    /// The name, where a node or another address has it.
    #[tactic(auto, unfolding(ch_model::specs::LinesTold::peer_in))]
    pub(crate) fn peer<'a>(&self, name: &'a [u8]) -> Result<&'a [u8], Fault>
        ensures { Gives (λ x. x.now) result (peer_in self.now name.now) }
    {
        if self.declared.has_peer(name) {
            Ok(name)
        } else {
            Err(Fault::Bad(BadKind::Undeclared))
        }
    }

    /// The name, where a stranger has it.
    #[tactic(auto, unfolding(ch_model::specs::LinesTold::stranger_in))]
    pub(crate) fn stranger<'a>(&self, name: &'a [u8]) -> Result<&'a [u8], Fault>
        ensures { Gives (λ x. x.now) result (stranger_in self.now name.now) }
    {
        if self.declared.has_stranger(name) {
            Ok(name)
        } else {
            Err(Fault::Bad(BadKind::Undeclared))
        }
    }

    /// The name, where one who opens sockets has it: a node or a stranger.
    #[tactic(auto, unfolding(ch_model::specs::LinesTold::opener_in))]
    pub(crate) fn opener<'a>(&self, name: &'a [u8]) -> Result<&'a [u8], Fault>
        ensures { Gives (λ x. x.now) result (opener_in self.now name.now) }
    {
        if self.declared.has_opener(name) {
            Ok(name)
        } else {
            Err(Fault::Bad(BadKind::Undeclared))
        }
    }

    /// The name, where it wasn't declared.
    #[tactic(auto, unfolding(ch_model::specs::LinesTold::new_name))]
    pub(crate) fn new_name<'a>(&self, name: &'a [u8]) -> Result<&'a [u8], Fault>
        ensures { Gives (λ x. x.now) result (new_name_in self.now name.now) }
    {
        if !self.declared.has_name(name) {
            Ok(name)
        } else {
            Err(Fault::Bad(BadKind::Repeated))
        }
    }

    /// The address, where it wasn't declared and its host is no stranger's.
    #[tactic(auto, unfolding(ch_model::specs::LinesTold::new_address))]
    pub(crate) fn new_address(&self, address: Address) -> Result<Address, Fault>
        ensures { Gives (λ x. x) result (new_address_in self.now address) }
    {
        if !self.declared.takes_address(&address)? {
            Ok(address)
        } else {
            Err(Fault::Bad(BadKind::Repeated))
        }
    }

    /// A stranger's host, where it is no address's.
    #[tactic(auto, unfolding(ch_model::specs::LinesTold::new_host))]
    pub(crate) fn new_host<'a>(&self, host: &'a [u8]) -> Result<&'a [u8], Fault>
        ensures { Gives (λ x. x.now) result (new_host_in self.now host.now) }
    {
        if !self.declared.has_host(host) {
            Ok(host)
        } else {
            Err(Fault::Bad(BadKind::Repeated))
        }
    }

    /// The label, where the node doesn't have it.
    #[tactic(auto, unfolding(ch_model::specs::LinesTold::new_label))]
    pub(crate) fn new_label(&self, node: &[u8], label: Name) -> Result<Name, Fault>
        ensures { Gives (λ x. x) result (new_label_in self.now node.now label) }
    {
        if !self.declared.has_label(node, label.bytes.as_slice())? {
            Ok(label)
        } else {
            Err(Fault::Bad(BadKind::Repeated))
        }
    }

    /// Keeps what the line tells those that follow.
    pub(crate) fn learn(&mut self, what: &What) -> Result<(), OutOfMemory>
        ensures done { OnOk result (self.new ≡ told_after self.old what.now) }
        ensures kept { OnErr result (self.new ≡ self.old) }
    {
        if is_declaration(what) {
            self.declared.add(what)?;
        } else {
            self.started = true;
        }
        Ok(())
    }
}

/// Whether a line declares, and is no event.
fn is_declaration(what: &What) -> bool
    ensures { result ≡ is_declaration_of what.now }
{
    match what {
        What::Node { .. } => true,
        What::Away { .. } => true,
        What::Label { .. } => true,
        What::Stranger { .. } => true,
        _ => false,
    }
}
