//! What a line asks of a process's node, in addresses.

ghost use Rattle.std.specs.Prelude.{◌≡◌, IfOk, Some, None};
ghost use Rattle.std.specs.Option.{option_map};
ghost use Rattle.ch_static.specs.declared.command.Command.{Command};
ghost use Rattle.ch_static.specs.declared.command.Command.TheVariants as commands;
ghost use Rattle.ch_model.specs.declared.name.ProcName.{ProcName};
ghost use Rattle.ch_model.specs.Naming.{address_as, process_as, target_as, reference_as};
ghost use Rattle.ch_model.specs.WorldLines.{command_as};

use crate::names::Names;
use ch_base::{OutOfMemory, Text};
use ch_ident::{Message, Name};
use ch_model::{ProcName, RefName, TargetName, What};
use ch_static::{Closure, Command};

/// The process that acts in a line, and its command.
#[derive(Debug, Drop)]
pub struct Asked {
    pub by: ProcName,
    pub command: Command,
}

/// What this process asks.
fn asking(by: &ProcName, command: Command) -> Result<Option<Asked>, OutOfMemory>
    ensures { IfOk result (λ asked. option_map {U = ProcName × Command} (λ a. (a.by, a.command)) asked ≡ Some (by.now, command)) }
{
    Ok(Some(Asked {
        by: by.copy()?,
        command,
    }))
}

fn receive(mark: &Name) -> Result<Command, OutOfMemory>
    ensures { IfOk result (λ command. command ≡ commands.Receive mark.now) }
{
    Ok(Command::Receive { mark: mark.copy()? })
}

fn fail(text: &Text) -> Result<Command, OutOfMemory>
    ensures { IfOk result (λ command. command ≡ commands.Fail text.now) }
{
    Ok(Command::Fail { text: text.copy()? })
}

fn register(name: &Name) -> Result<Command, OutOfMemory>
    ensures { IfOk result (λ command. command ≡ commands.Register name.now) }
{
    Ok(Command::Register { name: name.copy()? })
}

fn unregister(name: &Name) -> Result<Command, OutOfMemory>
    ensures { IfOk result (λ command. command ≡ commands.Unregister name.now) }
{
    Ok(Command::Unregister { name: name.copy()? })
}

impl Names {
    /// The process that acts in a line, and its command; nothing for a line that is no command.
    pub fn command_as(&self, what: &What) -> Result<Option<Asked>, OutOfMemory>
        ensures { IfOk result (λ asked. option_map {U = ProcName × Command} (λ a. (a.by, a.command)) asked ≡ command_as self.now what.now) }
    {
        match what {
            What::Send { by, to, mark, body } => asking(by, self.send(to, mark, body)?),
            What::Nsend { by, to, mark, body } => asking(by, self.send(to, mark, body)?),
            What::Again { by, to } => asking(by, self.again_to(to)?),
            What::Recv { by, mark } => asking(by, receive(mark)?),
            What::Port { by } => asking(by, Command::OpenPort),
            What::Take { by, port } => asking(by, Command::Take { port: *port }),
            What::End { by } => asking(by, Command::End),
            What::Fail { by, text } => asking(by, fail(text)?),
            What::Fall { by } => asking(by, Command::Fall),
            What::Monitor { by, target } => asking(by, self.monitor(target)?),
            What::Link { by, target } => asking(by, self.link(target)?),
            What::Unwatch { by, watch } => asking(by, self.unwatch(watch)?),
            What::Exit { by, target, text } => asking(by, self.exit(target, text)?),
            What::Kill { by, target, text } => asking(by, self.kill(target, text)?),
            What::Spawn {
                by,
                at,
                label,
                args,
            } => asking(by, self.spawn(at, label, args)?),
            What::Register { by, name } => asking(by, register(name)?),
            What::Unregister { by, name } => asking(by, unregister(name)?),
            What::Whereis { by, at, name } => asking(by, self.where_is(at, name)?),
            _ => Ok(None),
        }
    }

    fn send(&self, to: &TargetName, mark: &Name, body: &Text) -> Result<Command, OutOfMemory>
        ensures { IfOk result (λ command. command ≡ commands.Send (target_as self.now to.now) (record { mark = mark.now; body = body.now })) }
    {
        Ok(Command::Send {
            to: self.target_as(to)?,
            message: Message {
                mark: mark.copy()?,
                body: body.copy()?,
            },
        })
    }

    fn again_to(&self, to: &TargetName) -> Result<Command, OutOfMemory>
        ensures { IfOk result (λ command. command ≡ commands.Again (target_as self.now to.now)) }
    {
        Ok(Command::Again {
            to: self.target_as(to)?,
        })
    }

    fn monitor(&self, target: &ProcName) -> Result<Command, OutOfMemory>
        ensures { IfOk result (λ command. command ≡ commands.Monitor (process_as self.now target.now)) }
    {
        Ok(Command::Monitor {
            target: self.process_as(target)?,
        })
    }

    fn link(&self, target: &ProcName) -> Result<Command, OutOfMemory>
        ensures { IfOk result (λ command. command ≡ commands.Link (process_as self.now target.now)) }
    {
        Ok(Command::Link {
            target: self.process_as(target)?,
        })
    }

    fn unwatch(&self, watch: &RefName) -> Result<Command, OutOfMemory>
        ensures { IfOk result (λ command. command ≡ commands.Unwatch (reference_as self.now watch.now)) }
    {
        Ok(Command::Unwatch {
            watch: self.reference_as(watch)?,
        })
    }

    fn exit(&self, target: &ProcName, text: &Text) -> Result<Command, OutOfMemory>
        ensures { IfOk result (λ command. command ≡ commands.Exit (process_as self.now target.now) text.now) }
    {
        Ok(Command::Exit {
            target: self.process_as(target)?,
            text: text.copy()?,
        })
    }

    fn kill(&self, target: &ProcName, text: &Text) -> Result<Command, OutOfMemory>
        ensures { IfOk result (λ command. command ≡ commands.Kill (process_as self.now target.now) text.now) }
    {
        Ok(Command::Kill {
            target: self.process_as(target)?,
            text: text.copy()?,
        })
    }

    fn spawn(&self, at: &Text, label: &Name, args: &Text) -> Result<Command, OutOfMemory>
        ensures { IfOk result (λ command. command ≡ commands.Spawn (address_as self.now at.now) (record { label = label.now; args = args.now })) }
    {
        Ok(Command::Spawn {
            at: self.address_as(at)?,
            closure: Closure {
                label: label.copy()?,
                args: args.copy()?,
            },
        })
    }

    fn where_is(&self, at: &Text, name: &Name) -> Result<Command, OutOfMemory>
        ensures { IfOk result (λ command. command ≡ commands.WhereIs (address_as self.now at.now) name.now) }
    {
        Ok(Command::WhereIs {
            at: self.address_as(at)?,
            name: name.copy()?,
        })
    }
}
