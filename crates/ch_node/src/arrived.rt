//! A connection that arrived.

ghost use Rattle.std.specs.Prelude.{◌≡◌, IfOk, OnOk};
ghost use Rattle.ch_model.specs.NodeArrivals.{rebound as rebound_of};
ghost use Rattle.ch_node.specs.Bindings.{bound_of};

use ch_base::{Address, OutOfMemory};
use ch_ident::ProcessId;
use ch_static::Target;
use std::marker::Model;

/// What a connection that arrived is for, by its opening message.
#[derive(Debug, Drop)]
pub enum Binding {
    /// That isn't told yet.
    Unread,
    /// Nothing, and all on it is dropped.
    Void,
    /// Messages of the peer's node.
    FromNode,
    /// Messages of a process to names.
    ToNames { from: ProcessId },
    /// Messages of a process to a process or port.
    ToTarget { from: ProcessId, to: Target },
}

/// A connection that arrived. Contracts see the model's.
#[derive(Debug, Drop)]
pub struct Arrived {
    pub conn: u64,
    pub peer: Address,
    pub binding: Binding,
}

impl Model for Arrived {
    ghost use Rattle.ch_model.specs.NodeState.{Arrived as ArrivedValue};
    ghost use Rattle.ch_node.specs.Bindings.{bound_of};

    ghost Value = { ArrivedValue };

    ghost view = { λ a. record { conn = a.conn; peer = a.peer; bound = bound_of a.binding } };
}

impl Binding {
    /// An equal binding.
    pub fn copy(&self) -> Result<Binding, OutOfMemory>
        ensures { IfOk result (λ b. b ≡ self.now) }
    {
        match self {
            Binding::Unread => Ok(Binding::Unread),
            Binding::Void => Ok(Binding::Void),
            Binding::FromNode => Ok(Binding::FromNode),
            Binding::ToNames { from } => Ok(Binding::ToNames { from: from.copy()? }),
            Binding::ToTarget { from, to } => Ok(Binding::ToTarget {
                from: from.copy()?,
                to: to.copy()?,
            }),
        }
    }
}

impl Arrived {
    /// An equal connection.
    pub fn copy(&self) -> Result<Arrived, OutOfMemory>
        ensures { IfOk result (λ a. a ≡ self.now) }
    {
        Ok(Arrived {
            conn: self.conn,
            peer: self.peer.copy()?,
            binding: self.binding.copy()?,
        })
    }

    /// It is bound so where it has that number.
    pub fn rebind(&mut self, conn: u64, binding: &Binding) -> Result<(), OutOfMemory>
        ensures ok { OnOk result (self.new ≡ rebound_of conn (bound_of binding.now) self.old) }
        ensures number { self.new.conn ≡ self.old.conn }
    {
        if self.conn == conn {
            self.binding = binding.copy()?;
        }
        Ok(())
    }
}
