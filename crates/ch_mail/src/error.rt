//! Why a call on a node's mail is refused.

ghost use Rattle.std.specs.Prelude.{◌≡◌};
ghost use Rattle.ch_mail.specs.declared.error.MailError.TheVariants.{OutOfMemory as mail_out_of_memory};

use ch_base::OutOfMemory;
use std::alloc::AllocFailed;

/// Why a call is refused.
#[derive(Clone, Copy, Debug, PartialEq, Eq)]
pub enum MailError {
    /// The process wasn't made, or its life forbids the call, or the port to put to isn't there.
    NotLive,
    /// No such message waits.
    Empty,
    /// There was no memory for it.
    OutOfMemory,
    /// A count stands at its type's last value, and the call would raise it.
    Worn,
}

impl From<OutOfMemory> for MailError {
    ghost from_gives = { λ _ e. e ≡ mail_out_of_memory };

    fn from(_e: OutOfMemory) -> MailError {
        MailError::OutOfMemory
    }
}

impl<T: Drop> From<AllocFailed<T>> for MailError {
    ghost from_gives = { λ _ e. e ≡ mail_out_of_memory };

    fn from(_e: AllocFailed<T>) -> MailError {
        MailError::OutOfMemory
    }
}
