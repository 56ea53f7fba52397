//! Nodes, processes, sockets and references as a journal and its log name them.

ghost use Rattle.std.specs.Prelude.{◌≡◌, IfOk};

use ch_base::{OutOfMemory, Text};
use ch_ident::Name;

/// A process: the journal's name of its node, and its number in it, from 0.
#[derive(Debug, Drop)]
pub struct ProcName {
    pub node: Text,
    pub counter: u32,
}

impl ProcName {
    /// An equal process.
    pub fn copy(&self) -> Result<ProcName, OutOfMemory>
        ensures { IfOk result (λ process. process ≡ self.now) }
    {
        Ok(ProcName {
            node: self.node.copy()?,
            counter: self.counter,
        })
    }
}

/// A reference: the journal's name of the node that gave it, and its number there, from 0.
#[derive(Debug, Drop)]
pub struct RefName {
    pub node: Text,
    pub number: u32,
}

impl RefName {
    /// An equal reference.
    pub fn copy(&self) -> Result<RefName, OutOfMemory>
        ensures { IfOk result (λ reference. reference ≡ self.now) }
    {
        Ok(RefName {
            node: self.node.copy()?,
            number: self.number,
        })
    }
}

/// Where a message may be sent to.
#[derive(Debug, Drop)]
pub enum TargetName {
    /// A process.
    Process { process: ProcName },
    /// A port of a process, by its number there, from 0.
    Port { process: ProcName, port: u32 },
    /// Whichever process stands for a name at a node.
    Named { node: Text, name: Name },
}

impl TargetName {
    /// An equal target.
    pub fn copy(&self) -> Result<TargetName, OutOfMemory>
        ensures { IfOk result (λ target. target ≡ self.now) }
    {
        Ok(match self {
            TargetName::Process { process } => TargetName::Process {
                process: process.copy()?,
            },
            TargetName::Port { process, port } => TargetName::Port {
                process: process.copy()?,
                port: *port,
            },
            TargetName::Named { node, name } => TargetName::Named {
                node: node.copy()?,
                name: name.copy()?,
            },
        })
    }
}

/// A socket: the dialing node or knocking stranger, the node that is dialed, and how many such sockets
/// were opened before.
#[derive(Debug, Drop)]
pub struct SockName {
    pub from: Text,
    pub to: Text,
    pub number: u32,
}

impl SockName {
    /// An equal socket.
    pub fn copy(&self) -> Result<SockName, OutOfMemory>
        ensures { IfOk result (λ socket. socket ≡ self.now) }
    {
        Ok(SockName {
            from: self.from.copy()?,
            to: self.to.copy()?,
            number: self.number,
        })
    }
}

/// An end of a socket.
#[derive(Clone, Copy, Debug, PartialEq, Eq)]
pub enum End {
    /// The opener's.
    O,
    /// The target's.
    T,
}
