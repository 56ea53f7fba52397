//! Why a process is over, or why its watcher is told so, with its reader and its writer.
//! Below are single fields; node messages and mailboxes carry reasons.

ghost use Rattle.std.specs.Prelude.{◌≡◌, ◌++◌, IfOk, OnOk};
ghost use Rattle.ch_ident.specs.Fits.{FitsReason};
ghost use Rattle.ch_ident.specs.Outcome.{GivesBy};
ghost use Rattle.ch_ident.specs.Reading.{reason_at};
ghost use Rattle.ch_ident.specs.Spelling.{reason};

use crate::error::IdentError;
use crate::field::{read_text, write_text};
use ch_base::{OutOfMemory, Text};
use std::alloc::Global;

/// Why a process is over, as its watchers are told.
#[derive(Debug, Drop)]
pub enum Reason {
    /// It ended by itself.
    Normal,
    /// It failed with this text.
    Exception(Text),
    /// The link to its node was lost.
    Disconnect,
    /// Its node was shut, or isn't there.
    NodeDown,
    /// It was never made, or was over before the watch began.
    UnknownId,
}

impl Reason {
    /// An equal reason.
    pub fn copy(&self) -> Result<Reason, OutOfMemory>
        ensures { IfOk result (λ r. r ≡ self.now) }
    {
        match self {
            Reason::Normal => Ok(Reason::Normal),
            Reason::Exception(text) => Ok(Reason::Exception(text.copy()?)),
            Reason::Disconnect => Ok(Reason::Disconnect),
            Reason::NodeDown => Ok(Reason::NodeDown),
            Reason::UnknownId => Ok(Reason::UnknownId),
        }
    }
}

#[tactic(auto, unfolding(crate::specs::Reading::reason_at))]
pub(crate) fn read_reason(alloc: Global, bytes: &[u8]) -> Result<(Reason, &[u8]), IdentError>
    ensures { GivesBy (λ x. (x.0, x.1.now)) result (reason_at bytes.now) }
{
    match bytes {
        [] => Err(IdentError::Short),
        [0, rest @ ..] => Ok((Reason::Normal, rest)),
        [1, rest @ ..] => {
            let (text, rest) = read_text(alloc, rest)?;
            Ok((Reason::Exception(text), rest))
        }
        [2, rest @ ..] => Ok((Reason::Disconnect, rest)),
        [3, rest @ ..] => Ok((Reason::NodeDown, rest)),
        [4, rest @ ..] => Ok((Reason::UnknownId, rest)),
        [_, ..] => Err(IdentError::BadTag),
    }
}

pub(crate) fn write_reason(why: &Reason, out: &mut Vec<u8>) -> Result<(), OutOfMemory>
    requires { FitsReason why.now }
    ensures { OnOk result (out.new.items ≡ out.old.items ++ reason why.now) }
{
    match why {
        Reason::Normal => out.push(0)?,
        Reason::Exception(text) => {
            out.push(1)?;
            write_text(text, out)?;
        }
        Reason::Disconnect => out.push(2)?,
        Reason::NodeDown => out.push(3)?,
        Reason::UnknownId => out.push(4)?,
    }
    Ok(())
}
