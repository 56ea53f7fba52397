//! To whom a message goes.

ghost use Rattle.std.specs.Prelude.{◌≡◌, IfOk};

use ch_base::{Address, OutOfMemory};
use ch_ident::{Name, ProcessId, SendPortId};

/// A receiver of messages.
#[derive(Debug, Drop)]
pub enum Target {
    /// A process's mailbox.
    Process(ProcessId),
    /// A port of a process.
    Port(SendPortId),
    /// The process for which a name stands at a node, at the time when the message is got.
    Named { at: Address, name: Name },
}

impl Target {
    /// An equal target.
    pub fn copy(&self) -> Result<Target, OutOfMemory>
        ensures { IfOk result (λ target. target ≡ self.now) }
    {
        match self {
            Target::Process(process) => Ok(Target::Process(process.copy()?)),
            Target::Port(port) => Ok(Target::Port(port.copy()?)),
            Target::Named { at, name } => Ok(Target::Named {
                at: at.copy()?,
                name: name.copy()?,
            }),
        }
    }
}
