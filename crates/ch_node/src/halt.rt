//! How a step of a node stops.

ghost use Rattle.std.specs.Prelude.{◌≡◌};
ghost use Rattle.ch_node.specs.declared.halt.Halt.TheVariants as halts;
ghost use Rattle.ch_node.specs.Calls.{of_halt, of_stop};

use ch_base::{OutOfMemory, Stop};
use ch_model::CommandError;
use std::alloc::{AllocError, AllocFailed};

/// Why a step of a node wasn't made.
#[derive(Clone, Copy, Debug, PartialEq, Eq)]
pub enum Halt {
    /// No memory was to be had.
    OutOfMemory,
    /// A count that the step would raise stands at its type's last value.
    Worn,
}

impl From<OutOfMemory> for Halt {
    ghost from_gives = { λ _ e. e ≡ halts.OutOfMemory };

    fn from(_e: OutOfMemory) -> Halt {
        Halt::OutOfMemory
    }
}

impl From<AllocError> for Halt {
    ghost from_gives = { λ _ e. e ≡ halts.OutOfMemory };

    fn from(_e: AllocError) -> Halt {
        Halt::OutOfMemory
    }
}

impl<T: Drop> From<AllocFailed<T>> for Halt {
    ghost from_gives = { λ _ e. e ≡ halts.OutOfMemory };

    fn from(_e: AllocFailed<T>) -> Halt {
        Halt::OutOfMemory
    }
}

impl From<Stop> for Halt {
    ghost from_gives = { λ stop e. e ≡ of_stop stop };

    fn from(stop: Stop) -> Halt {
        match stop {
            Stop::OutOfMemory => Halt::OutOfMemory,
            Stop::Worn => Halt::Worn,
        }
    }
}

impl From<Halt> for CommandError {
    ghost from_gives = { λ halt e. e ≡ of_halt halt };

    fn from(halt: Halt) -> CommandError {
        match halt {
            Halt::OutOfMemory => CommandError::OutOfMemory,
            Halt::Worn => CommandError::Worn,
        }
    }
}
