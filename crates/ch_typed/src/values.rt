//! Numbers and texts as values.

use crate::error::TypedError;
use crate::typed::Typed;
use ch_base::{OutOfMemory, Text};
use std::alloc::Global;

impl Typed for u32 {
    ghost use Rattle.std.specs.Prelude.{◌<◌, ◌^◌, codes, refl};
    ghost use Rattle.std.specs.Int.{w32, to_be_bytes};
    ghost use Rattle.ch_typed.specs.Values.{word_read};
    ghost use Rattle.ch_typed.specs.ValueLaws.{word_again, word_exact};

    ghost mark = { codes "u32" };

    ghost fits = { λ n. n < 2 ^ 32 };

    ghost spelling = { to_be_bytes w32 };

    ghost read = { word_read };

    const MARK: &'static [u8] = b"u32";

    fn mark_bytes() -> &'static [u8] {
        Self::MARK
    }

    /// Four bytes, the highest first.
    fn put(&self, out: &mut Vec<u8>) -> Result<(), OutOfMemory> {
        out.extend_from_slice(&self.to_be_bytes())?;
        Ok(())
    }

    #[tactic(auto, unfolding(crate::specs::Values::word_read))]
    fn take(_alloc: Global, bytes: &[u8]) -> Result<u32, TypedError> {
        if bytes.len() != 4 {
            return Err(TypedError::BadBody);
        }
        let (word, _) = bytes.split_at(4);
        Ok(u32::from_be_bytes([word[0], word[1], word[2], word[3]]))
    }

    ghost is_mark = { refl };

    ghost again = { word_again };

    ghost exact = { word_exact };
}

impl Typed for u64 {
    ghost use Rattle.std.specs.Prelude.{◌<◌, ◌^◌, codes, refl};
    ghost use Rattle.std.specs.Int.{w64, to_be_bytes};
    ghost use Rattle.ch_typed.specs.Values.{long_read};
    ghost use Rattle.ch_typed.specs.ValueLaws.{long_again, long_exact};

    ghost mark = { codes "u64" };

    ghost fits = { λ n. n < 2 ^ 64 };

    ghost spelling = { to_be_bytes w64 };

    ghost read = { long_read };

    const MARK: &'static [u8] = b"u64";

    fn mark_bytes() -> &'static [u8] {
        Self::MARK
    }

    /// Eight bytes, the highest first.
    fn put(&self, out: &mut Vec<u8>) -> Result<(), OutOfMemory> {
        out.extend_from_slice(&self.to_be_bytes())?;
        Ok(())
    }

    #[tactic(auto, unfolding(crate::specs::Values::long_read))]
    fn take(_alloc: Global, bytes: &[u8]) -> Result<u64, TypedError> {
        if bytes.len() != 8 {
            return Err(TypedError::BadBody);
        }
        let (long, _) = bytes.split_at(8);
        Ok(u64::from_be_bytes([
            long[0], long[1], long[2], long[3], long[4], long[5], long[6], long[7],
        ]))
    }

    ghost is_mark = { refl };

    ghost again = { long_again };

    ghost exact = { long_exact };
}

impl Typed for Text {
    ghost use Rattle.std.specs.Prelude.{codes, refl};
    ghost use Rattle.ch_typed.specs.Values.{text_read};

    ghost mark = { codes "text" };

    ghost fits = { λ _. Unit {0} };

    ghost spelling = { λ text. text };

    ghost read = { text_read };

    const MARK: &'static [u8] = b"text";

    fn mark_bytes() -> &'static [u8] {
        Self::MARK
    }

    /// The text's own bytes.
    fn put(&self, out: &mut Vec<u8>) -> Result<(), OutOfMemory> {
        out.extend_from_slice(self.as_slice())?;
        Ok(())
    }

    fn take(alloc: Global, bytes: &[u8]) -> Result<Text, TypedError> {
        Ok(Text::of(alloc, bytes)?)
    }

    ghost is_mark = { refl };

    ghost again = { λ text fits. refl };

    ghost exact = { λ bytes text are e. (tt, Prim.cc) };
}
