//! How what a process asks of its node is refused.

ghost use Rattle.std.specs.Prelude.{◌≡◌};
ghost use Rattle.ch_model.specs.declared.command.CommandError.TheVariants as errors;
ghost use Rattle.ch_model.specs.Refusals.{of_mail_error, of_stop};

use ch_base::{OutOfMemory, Stop};
use ch_mail::MailError;
use std::alloc::{AllocError, AllocFailed};

/// Why a command wasn't done. Where several hold, the first of the order in which a node tries them
/// is told.
#[derive(Clone, Copy, Debug, PartialEq, Eq)]
pub enum CommandError {
    /// The acting process, or the process or port of the same node that is sent to, wasn't made.
    Unknown,
    /// The acting process acts no more, or the node is shut.
    Dead,
    /// The payload would have more than 65,536 bytes.
    Long,
    /// The link isn't up, and 4,096 counted payloads wait for it.
    Full,
    /// 65,535 connections were opened on the socket that is up or awaited, besides the one from node
    /// to node.
    Spent,
    /// The name stands already.
    Taken,
    /// The name doesn't stand.
    NoName,
    /// No watch of the process is open under the reference.
    NoRef,
    /// No such message waits.
    Empty,
    /// A process that isn't doomed can't fall.
    Hale,
    /// No memory was to be had.
    OutOfMemory,
    /// A count that the command would raise stands at its type's last value.
    Worn,
}

impl From<OutOfMemory> for CommandError {
    ghost from_gives = { λ _ e. e ≡ errors.OutOfMemory };

    fn from(_e: OutOfMemory) -> CommandError {
        CommandError::OutOfMemory
    }
}

impl From<AllocError> for CommandError {
    ghost from_gives = { λ _ e. e ≡ errors.OutOfMemory };

    fn from(_e: AllocError) -> CommandError {
        CommandError::OutOfMemory
    }
}

impl<T: Drop> From<AllocFailed<T>> for CommandError {
    ghost from_gives = { λ _ e. e ≡ errors.OutOfMemory };

    fn from(_e: AllocFailed<T>) -> CommandError {
        CommandError::OutOfMemory
    }
}

impl From<MailError> for CommandError {
    ghost from_gives = { λ error e. e ≡ of_mail_error error };

    fn from(error: MailError) -> CommandError {
        match error {
            MailError::NotLive => CommandError::Dead,
            MailError::Empty => CommandError::Empty,
            MailError::OutOfMemory => CommandError::OutOfMemory,
            MailError::Worn => CommandError::Worn,
        }
    }
}

impl From<Stop> for CommandError {
    ghost from_gives = { λ stop e. e ≡ of_stop stop };

    fn from(stop: Stop) -> CommandError {
        match stop {
            Stop::OutOfMemory => CommandError::OutOfMemory,
            Stop::Worn => CommandError::Worn,
        }
    }
}
