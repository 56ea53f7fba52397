//! Why a line wasn't read, below the count of lines.

ghost use Rattle.std.specs.Prelude.{◌≡◌};
ghost use Rattle.ch_fields.specs.declared.fault.Fault.TheVariants as faults;
ghost use Rattle.ch_fields.specs.Outcome.{of_address_error, of_hex_error, of_ident_error};

use ch_base::{AddressError, OutOfMemory};
use ch_ident::IdentError;
use ch_model::BadKind;
use hex::FromHexError;

/// Why a line or a field of it wasn't read.
#[derive(Debug, Drop)]
pub enum Fault {
    /// The line is refused.
    Bad(BadKind),
    /// No memory was to be had.
    OutOfMemory,
}

impl From<OutOfMemory> for Fault {
    ghost from_gives = { λ _ e. e ≡ faults.OutOfMemory };

    fn from(_e: OutOfMemory) -> Fault {
        Fault::OutOfMemory
    }
}

impl From<AddressError> for Fault {
    ghost from_gives = { λ error e. e ≡ of_address_error error };

    fn from(error: AddressError) -> Fault {
        match error {
            AddressError::OutOfMemory => Fault::OutOfMemory,
            _ => Fault::Bad(BadKind::Form),
        }
    }
}

impl From<IdentError> for Fault {
    ghost from_gives = { λ error e. e ≡ of_ident_error error };

    fn from(error: IdentError) -> Fault {
        match error {
            IdentError::OutOfMemory => Fault::OutOfMemory,
            _ => Fault::Bad(BadKind::Form),
        }
    }
}

impl From<FromHexError> for Fault {
    ghost from_gives = { λ error e. e ≡ of_hex_error error };

    fn from(error: FromHexError) -> Fault {
        match error {
            FromHexError::OutOfMemory => Fault::OutOfMemory,
            _ => Fault::Bad(BadKind::Form),
        }
    }
}
