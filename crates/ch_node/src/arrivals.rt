//! Connections that arrive: what each is bound to by its opening message, and what comes on it.

ghost use Rattle.std.specs.Prelude.{◌≡◌, ◌==◌, find, MatchResult, OnOk, IfOk, Ok};
ghost use Rattle.ch_ident.specs.declared.identifier.Identifier.TheVariants.{Process as EndProcess, Port as EndPort};
ghost use Rattle.ch_ident.specs.Reading.{message_of, user_of};
ghost use Rattle.ch_model.specs.NodeArrivals.{bound_between as bound_between_of, bound_by as bound_by_of, bind as bind_of, to_name as to_name_of, to_target as to_target_of, arrives as arrives_of, departs as departs_of, received_as as received_as_of, received as received_of};
ghost use Rattle.ch_node.specs.Bindings.{bound_of};
ghost use Rattle.ch_node.specs.Calls.{Halts};

use crate::acts::Outcome;
use crate::arrived::{Arrived, Binding};
use crate::halt::Halt;
use crate::same::{node_of, same_node};
use crate::state::State;
use ch_base::{Address, OutOfMemory};
use ch_ident::{
    IdentError, Identifier, Message, NodeMessage, ProcessId, SendPortId, take_message, take_user,
};
use ch_static::Target;

impl State {
    #[tactic(auto, unfolding(ch_model::specs::NodeArrivals::bound_between))]
    fn bound_to_process(&self, from: &ProcessId, to: &ProcessId) -> Result<Binding, OutOfMemory>
        ensures { IfOk result (λ b. bound_of b ≡ bound_between_of self.now (EndProcess from.now) (EndProcess to.now)) }
    {
        if self.is_living(to) {
            Ok(Binding::ToTarget {
                from: from.copy()?,
                to: Target::Process(to.copy()?),
            })
        } else {
            Ok(Binding::Void)
        }
    }

    #[tactic(auto, unfolding(ch_model::specs::NodeArrivals::bound_between))]
    fn bound_to_port(&self, from: &ProcessId, to: &SendPortId) -> Result<Binding, OutOfMemory>
        ensures { IfOk result (λ b. bound_of b ≡ bound_between_of self.now (EndProcess from.now) (EndPort to.now)) }
    {
        if self.is_living(&to.process) && self.is_port_here(to) {
            Ok(Binding::ToTarget {
                from: from.copy()?,
                to: Target::Port(to.copy()?),
            })
        } else {
            Ok(Binding::Void)
        }
    }

    /// What goes from the one to the other.
    #[tactic(auto, unfolding(ch_model::specs::NodeArrivals::bound_between))]
    fn bound_between(&self, from: &Identifier, to: &Identifier) -> Result<Binding, OutOfMemory>
        ensures { IfOk result (λ b. bound_of b ≡ bound_between_of self.now from.now to.now) }
    {
        match from {
            Identifier::Node(_) => match to {
                Identifier::Node(_) => Ok(Binding::FromNode),
                _ => Ok(Binding::Void),
            },
            Identifier::Process(from) => match to {
                Identifier::Node(_) => Ok(Binding::ToNames { from: from.copy()? }),
                Identifier::Process(to) => self.bound_to_process(from, to),
                Identifier::Port(to) => self.bound_to_port(from, to),
            },
            Identifier::Port(_) => Ok(Binding::Void),
        }
    }

    /// What a connection of a peer is for by its first payload.
    fn bound_by(&self, peer: &Address, payload: &[u8]) -> Result<Binding, OutOfMemory>
        ensures { IfOk result (λ b. bound_of b ≡ bound_by_of self.now peer.now (message_of payload.now)) }
    {
        match take_message(self.alloc(), payload) {
            Ok(NodeMessage::Opening { from, to }) => {
                if same_node(node_of(&from), peer) && self.is_here(node_of(&to)) {
                    self.bound_between(&from, &to)
                } else {
                    Ok(Binding::Void)
                }
            }
            Ok(_) => Ok(Binding::Void),
            Err(IdentError::OutOfMemory) => Err(OutOfMemory),
            Err(_) => Ok(Binding::Void),
        }
    }

    /// A message to a name.
    fn to_name(&mut self, from: &ProcessId, payload: &[u8]) -> Result<Outcome, Halt>
        ensures { MatchResult result (λ acts. to_name_of self.old from.now (message_of payload.now) ≡ Ok (acts.items, self.new)) (λ e. Halts e (to_name_of self.old from.now (message_of payload.now))) }
    {
        match take_message(self.alloc(), payload) {
            Ok(NodeMessage::NamedSend { name, mark, body }) => {
                let to = Target::Named {
                    at: self.own.copy()?,
                    name,
                };
                self.deliver(from, &to, Message { mark, body })
            }
            Ok(_) => Ok(Vec::new(self.alloc())),
            Err(IdentError::OutOfMemory) => Err(Halt::OutOfMemory),
            Err(_) => Ok(Vec::new(self.alloc())),
        }
    }

    /// A message to a process or port.
    fn to_target(&mut self, from: &ProcessId, to: &Target, payload: &[u8]) -> Result<Outcome, Halt>
        ensures { MatchResult result (λ acts. to_target_of self.old from.now to.now (user_of payload.now) ≡ Ok (acts.items, self.new)) (λ e. Halts e (to_target_of self.old from.now to.now (user_of payload.now))) }
    {
        match take_user(self.alloc(), payload) {
            Ok(message) => self.deliver(from, to, message),
            Err(IdentError::OutOfMemory) => Err(Halt::OutOfMemory),
            Err(_) => Ok(Vec::new(self.alloc())),
        }
    }

    /// A peer has opened a connection.
    #[tactic(auto, unfolding(ch_model::specs::NodeArrivals::arrives))]
    pub(crate) fn arrives(&mut self, conn: u64, peer: Address) -> Result<(), OutOfMemory>
        ensures { OnOk result (self.new ≡ arrives_of self.old conn peer) }
    {
        self.arrived.add(conn, peer)
    }

    /// A peer has closed a connection.
    #[tactic(auto, unfolding(ch_model::specs::NodeArrivals::departs))]
    pub(crate) fn departs(&mut self, conn: u64)
        ensures { self.new ≡ departs_of self.old conn }
    {
        self.arrived.drop_conn(conn);
    }

    /// A connection is bound so.
    #[tactic(auto, unfolding(ch_model::specs::NodeArrivals::bind))]
    fn bind(&mut self, conn: u64, binding: &Binding) -> Result<(), OutOfMemory>
        ensures { OnOk result (self.new ≡ bind_of self.old conn (bound_of binding.now)) }
    {
        self.arrived.bind(conn, binding)
    }

    /// A payload on a connection, by what that is for.
    fn received_as(&mut self, arrived: &Arrived, payload: &[u8]) -> Result<Outcome, Halt>
        ensures { MatchResult result (λ acts. received_as_of self.old arrived.now payload.now arrived.now.bound ≡ Ok (acts.items, self.new)) (λ e. Halts e (received_as_of self.old arrived.now payload.now arrived.now.bound)) }
    {
        match &arrived.binding {
            Binding::Unread => {
                let binding = self.bound_by(&arrived.peer, payload)?;
                self.bind(arrived.conn, &binding)?;
                Ok(Vec::new(self.alloc()))
            }
            Binding::Void => Ok(Vec::new(self.alloc())),
            Binding::FromNode => self.from_node(&arrived.peer, payload),
            Binding::ToNames { from } => self.to_name(from, payload),
            Binding::ToTarget { from, to } => self.to_target(from, to, payload),
        }
    }

    fn arrived_on(&self, conn: u64) -> Result<Option<Arrived>, OutOfMemory>
        ensures { IfOk result (λ a. a ≡ find (λ arrived. arrived.conn == conn) self.now.arrived) }
    {
        match self.arrived.on(conn) {
            None => Ok(None),
            Some(arrived) => Ok(Some(arrived.copy()?)),
        }
    }

    /// A payload has come on a connection.
    #[tactic(auto, unfolding(ch_model::specs::NodeArrivals::received))]
    pub(crate) fn received(&mut self, conn: u64, payload: &[u8]) -> Result<Outcome, Halt>
        ensures { MatchResult result (λ acts. received_of self.old conn payload.now ≡ Ok (acts.items, self.new)) (λ e. Halts e (received_of self.old conn payload.now)) }
    {
        match self.arrived_on(conn)? {
            None => Ok(Vec::new(self.alloc())),
            Some(arrived) => self.received_as(&arrived, payload),
        }
    }
}
