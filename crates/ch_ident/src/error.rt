//! Why bytes were refused. Every reader and constructor of this crate answers it;
//! it stands on ch_base's want of memory alone.

ghost use Rattle.std.specs.Prelude.{◌≡◌};
ghost use Rattle.ch_ident.specs.declared.error.IdentError.TheVariants as errors;

use ch_base::OutOfMemory;
use std::alloc::{AllocError, AllocFailed};
use thiserror::Error;

/// What is wrong with the bytes: the first fault from the front.
#[derive(Clone, Copy, Debug, PartialEq, Eq, Error)]
pub enum IdentError {
    /// The bytes end inside a field.
    #[error("the bytes end inside a field")]
    Short,
    /// A tag or a flag byte isn't in its table.
    #[error("a tag is not in its table")]
    BadTag,
    /// A field's length or its bytes are out of its rule.
    #[error("a text is out of its rule")]
    BadText,
    /// Bytes follow the last field.
    #[error("bytes follow the last field")]
    Extra,
    /// An allocation failed.
    #[error("out of memory")]
    OutOfMemory,
}

impl From<OutOfMemory> for IdentError {
    ghost from_gives = { λ _ e. e ≡ errors.OutOfMemory };

    fn from(_e: OutOfMemory) -> IdentError {
        IdentError::OutOfMemory
    }
}

impl From<AllocError> for IdentError {
    ghost from_gives = { λ _ e. e ≡ errors.OutOfMemory };

    fn from(_e: AllocError) -> IdentError {
        IdentError::OutOfMemory
    }
}

impl<T: Drop> From<AllocFailed<T>> for IdentError {
    ghost from_gives = { λ _ e. e ≡ errors.OutOfMemory };

    fn from(_e: AllocFailed<T>) -> IdentError {
        IdentError::OutOfMemory
    }
}
