//! Which processes, ports and references are the node's own, and whether they are there.

ghost use Rattle.std.specs.Prelude.{◌≡◌, IfOk};
ghost use Rattle.std.specs.Option.{option_copied};
ghost use Rattle.ch_model.specs.NodeIds.{process_id, reference_to, is_here as is_here_of, is_own as is_own_of, life_here as life_here_of, is_living as is_living_of, is_port_here as is_port_here_of, target_at as target_at_of, opened_to as opened_to_of};

use crate::same::same_node;
use crate::state::State;
use ch_base::{Address, OutOfMemory};
use ch_ident::{Identifier, ProcessId, Ref, SendPortId};
use ch_mail::Life;
use ch_static::Target;

/// The node of a target.
pub(crate) fn target_at(to: &Target) -> &Address
    ensures { result.now ≡ target_at_of to.now }
{
    match to {
        Target::Process(process) => &process.node,
        Target::Port(port) => &port.process.node,
        Target::Named { at, .. } => at,
    }
}

/// What the connection to a target is opened to.
pub(crate) fn opened_to(to: &Target) -> Result<Identifier, OutOfMemory>
    ensures { IfOk result (λ end. end ≡ opened_to_of to.now) }
{
    match to {
        Target::Process(process) => Ok(Identifier::Process(process.copy()?)),
        Target::Port(port) => Ok(Identifier::Port(port.copy()?)),
        Target::Named { at, .. } => Ok(Identifier::Node(at.copy()?)),
    }
}

impl State {
    /// The id of the process with this number.
    pub(crate) fn id(&self, counter: u32) -> Result<ProcessId, OutOfMemory>
        ensures { IfOk result (λ p. p ≡ process_id self.now counter) }
    {
        Ok(ProcessId {
            node: self.own.copy()?,
            unique: self.unique,
            counter,
        })
    }

    /// The node's reference of a number.
    pub(crate) fn reference(&self, number: u32) -> Result<Ref, OutOfMemory>
        ensures { IfOk result (λ reference. reference ≡ reference_to self.now number) }
    {
        Ok(Ref {
            node: self.own.copy()?,
            number,
        })
    }

    /// Whether an address is the node's own.
    pub(crate) fn is_here(&self, address: &Address) -> bool
        ensures { result ≡ is_here_of self.now address.now }
    {
        same_node(address, &self.own)
    }

    #[tactic(auto, unfolding(ch_model::specs::NodeIds::is_own))]
    pub(crate) fn is_own(&self, process: &ProcessId) -> bool
        ensures { result ≡ is_own_of self.now process.now }
    {
        self.is_here(&process.node) && process.unique == self.unique
    }

    /// The life of a process, where it is the node's and was made.
    #[tactic(auto, unfolding(ch_model::specs::NodeIds::life_here))]
    pub(crate) fn life_here(&self, process: &ProcessId) -> Option<&Life>
        ensures { option_copied result ≡ life_here_of self.now process.now }
    {
        if self.is_own(process) {
            self.mail.life(process.counter)
        } else {
            None
        }
    }

    /// Whether a process was made here, and isn't over.
    #[tactic(auto, unfolding(ch_model::specs::NodeIds::is_living))]
    pub(crate) fn is_living(&self, process: &ProcessId) -> bool
        ensures { result ≡ is_living_of self.now process.now }
    {
        match self.life_here(process) {
            None => false,
            Some(life) => !life.is_over(),
        }
    }

    /// Whether a port was opened here.
    #[tactic(auto, unfolding(ch_model::specs::NodeIds::is_port_here, ch_model::specs::NodeIds::has_port))]
    pub(crate) fn is_port_here(&self, port: &SendPortId) -> bool
        ensures { result ≡ is_port_here_of self.now port.now }
    {
        self.is_own(&port.process) && self.mail.has_port(port.process.counter, port.port)
    }
}
