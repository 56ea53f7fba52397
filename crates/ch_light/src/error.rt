//! Why a call on the connections of a socket is refused.
//!
//! Each call's docs say which of these it answers, and when.

ghost use Rattle.std.specs.Prelude.{◌≡◌};
ghost use Rattle.ch_light.specs.declared.error.LightError.TheVariants.{OutOfMemory};

use ch_base::OutOfMemory as NoMemory;
use std::alloc::AllocFailed;
use std::convert::From;

/// Why a call is refused.
#[derive(Clone, Copy, Debug, PartialEq, Eq)]
pub enum LightError {
    /// All 65,536 ids of the direction were used.
    Spent,
    /// The id isn't the next one.
    NotNext,
    /// No open connection has the id, or the connection has none.
    NotOpen,
    /// There was no memory.
    OutOfMemory,
}

impl<T: Drop> From<AllocFailed<T>> for LightError {
    ghost from_gives = { λ _ e. e ≡ OutOfMemory };

    fn from(_: AllocFailed<T>) -> Self {
        LightError::OutOfMemory
    }
}

impl From<NoMemory> for LightError {
    ghost from_gives = { λ _ e. e ≡ OutOfMemory };

    fn from(_: NoMemory) -> Self {
        LightError::OutOfMemory
    }
}
