//! Why no value was had.

ghost use Rattle.std.specs.Prelude.{◌≡◌};
ghost use Rattle.ch_typed.specs.Outcomes.{of_mail};
ghost use Rattle.ch_typed.specs.declared.error.TypedError.TheVariants.{OutOfMemory as typed_out_of_memory};

use ch_base::OutOfMemory;
use ch_ident::Name;
use ch_mail::MailError;

/// Why no value was had.
#[derive(Debug, Drop)]
pub enum TypedError {
    /// The message is of another mark than the one that was wanted.
    WrongMark { wanted: Name, found: Name },
    /// The bytes are no value's spelling.
    BadBody,
    /// No such message waits.
    Empty,
    /// The process isn't live, or wasn't made.
    NotLive,
    /// There was no memory for it.
    OutOfMemory,
    /// A count stands at its type's last value, and the call would raise it.
    Worn,
}

impl From<OutOfMemory> for TypedError {
    ghost from_gives = { λ _ e. e ≡ typed_out_of_memory };

    fn from(_e: OutOfMemory) -> TypedError {
        TypedError::OutOfMemory
    }
}

impl From<MailError> for TypedError {
    ghost from_gives = { λ refusal e. e ≡ of_mail refusal };

    fn from(refusal: MailError) -> TypedError {
        match refusal {
            MailError::NotLive => TypedError::NotLive,
            MailError::Empty => TypedError::Empty,
            MailError::OutOfMemory => TypedError::OutOfMemory,
            MailError::Worn => TypedError::Worn,
        }
    }
}
