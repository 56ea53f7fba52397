//! What a process may do in one turn.

ghost use Rattle.std.specs.Prelude.{◌≡◌, IfOk};

use crate::closure::Closure;
use crate::target::Target;
use ch_base::{Address, OutOfMemory, Text};
use ch_ident::{Message, Name, ProcessId, Ref};

/// A command of a process to its node.
#[derive(Debug, Drop)]
pub enum Command {
    /// Sends a message.
    Send { to: Target, message: Message },
    /// Reconnects to a target.
    Again { to: Target },
    /// Takes the first message of a mark from the mailbox.
    Receive { mark: Name },
    /// Opens the next port.
    OpenPort,
    /// Takes a port's first message.
    Take { port: u32 },
    /// Is over, normally.
    End,
    /// Is over, with this exception.
    Fail { text: Text },
    /// Is over, by what doomed it.
    Fall,
    /// Asks for a message when the target is over.
    Monitor { target: ProcessId },
    /// Asks to be doomed when the target is over.
    Link { target: ProcessId },
    /// Takes a monitor or a link back.
    Unwatch { watch: Ref },
    /// Dooms the target, by `exit` and this text.
    Exit { target: ProcessId, text: Text },
    /// Dooms the target, by `kill` and this text.
    Kill { target: ProcessId, text: Text },
    /// Has a process made at a node.
    Spawn { at: Address, closure: Closure },
    /// Registers a name of the own node for itself.
    Register { name: Name },
    /// Takes a name of the own node away.
    Unregister { name: Name },
    /// Asks a node for which process a name stands.
    WhereIs { at: Address, name: Name },
}

impl Command {
    /// An equal command.
    pub fn copy(&self) -> Result<Command, OutOfMemory>
        ensures { IfOk result (λ command. command ≡ self.now) }
    {
        match self {
            Command::Send { to, message } => Ok(Command::Send {
                to: to.copy()?,
                message: message.copy()?,
            }),
            Command::Again { to } => Ok(Command::Again { to: to.copy()? }),
            Command::Receive { mark } => Ok(Command::Receive { mark: mark.copy()? }),
            Command::OpenPort => Ok(Command::OpenPort),
            Command::Take { port } => Ok(Command::Take { port: *port }),
            Command::End => Ok(Command::End),
            Command::Fail { text } => Ok(Command::Fail { text: text.copy()? }),
            Command::Fall => Ok(Command::Fall),
            Command::Monitor { target } => Ok(Command::Monitor {
                target: target.copy()?,
            }),
            Command::Link { target } => Ok(Command::Link {
                target: target.copy()?,
            }),
            Command::Unwatch { watch } => Ok(Command::Unwatch {
                watch: watch.copy()?,
            }),
            Command::Exit { target, text } => Ok(Command::Exit {
                target: target.copy()?,
                text: text.copy()?,
            }),
            Command::Kill { target, text } => Ok(Command::Kill {
                target: target.copy()?,
                text: text.copy()?,
            }),
            Command::Spawn { at, closure } => Ok(Command::Spawn {
                at: at.copy()?,
                closure: closure.copy()?,
            }),
            Command::Register { name } => Ok(Command::Register { name: name.copy()? }),
            Command::Unregister { name } => Ok(Command::Unregister { name: name.copy()? }),
            Command::WhereIs { at, name } => Ok(Command::WhereIs {
                at: at.copy()?,
                name: name.copy()?,
            }),
        }
    }
}
