//! What a process asks of its node, and how that is refused.

ghost use Rattle.std.specs.Prelude.{◌≡◌, IfOk};
ghost use Rattle.ch_one_node.specs.declared.command.CommandError.TheVariants as errors;
ghost use Rattle.ch_one_node.specs.Node.{of_mail_error, of_stop};

use ch_base::{OutOfMemory, Stop};
use ch_ident::{Message, Name, ProcessId};
use ch_mail::MailError;
use std::alloc::{AllocError, AllocFailed};

/// One thing that a process asks for.
#[derive(Debug, Drop)]
pub enum Command {
    /// A message is to go to a process.
    Send { to: ProcessId, message: Message },
    /// The first message of this mark is to be taken from the mailbox.
    Receive { mark: Name },
    /// The process ends by itself.
    End,
}

impl Command {
    /// An equal command.
    pub fn copy(&self) -> Result<Command, OutOfMemory>
        ensures { IfOk result (λ command. command ≡ self.now) }
    {
        Ok(match self {
            Command::Send { to, message } => Command::Send {
                to: to.copy()?,
                message: message.copy()?,
            },
            Command::Receive { mark } => Command::Receive { mark: mark.copy()? },
            Command::End => Command::End,
        })
    }
}

/// Why a command wasn't done.
#[derive(Clone, Copy, Debug, PartialEq, Eq)]
pub enum CommandError {
    /// The acting process, or the one sent to, wasn't made.
    Unknown,
    /// The acting process acts no more.
    Dead,
    /// No such message waits.
    Empty,
    /// No memory was to be had.
    OutOfMemory,
    /// A count that the command would raise stands at its type's last value.
    Worn,
}

impl From<OutOfMemory> for CommandError {
    ghost from_gives = { λ _ e. e ≡ errors.OutOfMemory };

    fn from(_e: OutOfMemory) -> CommandError {
        CommandError::OutOfMemory
    }
}

impl From<AllocError> for CommandError {
    ghost from_gives = { λ _ e. e ≡ errors.OutOfMemory };

    fn from(_e: AllocError) -> CommandError {
        CommandError::OutOfMemory
    }
}

impl<T: Drop> From<AllocFailed<T>> for CommandError {
    ghost from_gives = { λ _ e. e ≡ errors.OutOfMemory };

    fn from(_e: AllocFailed<T>) -> CommandError {
        CommandError::OutOfMemory
    }
}

impl From<MailError> for CommandError {
    ghost from_gives = { λ error e. e ≡ of_mail_error error };

    fn from(error: MailError) -> CommandError {
        match error {
            MailError::NotLive => CommandError::Dead,
            MailError::Empty => CommandError::Empty,
            MailError::OutOfMemory => CommandError::OutOfMemory,
            MailError::Worn => CommandError::Worn,
        }
    }
}

impl From<Stop> for CommandError {
    ghost from_gives = { λ stop e. e ≡ of_stop stop };

    fn from(stop: Stop) -> CommandError {
        match stop {
            Stop::OutOfMemory => CommandError::OutOfMemory,
            Stop::Worn => CommandError::Worn,
        }
    }
}
