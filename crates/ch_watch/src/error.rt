//! Why a call on a node's watches is refused.

ghost use Rattle.std.specs.Prelude.{◌≡◌};
ghost use Rattle.ch_watch.specs.declared.error.WatchError.TheVariants.{OutOfMemory as watch_out_of_memory};

use ch_base::OutOfMemory;
use std::alloc::AllocFailed;

/// Why a call is refused.
#[derive(Clone, Copy, Debug, PartialEq, Eq)]
pub enum WatchError {
    /// The name stands already.
    Taken,
    /// No such name stands.
    NoName,
    /// No such number is open.
    NoRef,
    /// There was no memory for it.
    OutOfMemory,
}

impl From<OutOfMemory> for WatchError {
    ghost from_gives = { λ _ e. e ≡ watch_out_of_memory };

    fn from(_e: OutOfMemory) -> WatchError {
        WatchError::OutOfMemory
    }
}

impl<T: Drop> From<AllocFailed<T>> for WatchError {
    ghost from_gives = { λ _ e. e ≡ watch_out_of_memory };

    fn from(_e: AllocFailed<T>) -> WatchError {
        WatchError::OutOfMemory
    }
}
