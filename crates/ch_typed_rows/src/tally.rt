//! A type of a program's own that can be sent: it has its own mark, and the spelling of a number.

use ch_base::OutOfMemory;
use ch_typed::{Typed, TypedError};
use std::alloc::Global;
use std::marker::Model;

/// A count, in messages of the mark `t`. Contracts see the number.
#[derive(Debug, Drop)]
pub struct Tally {
    pub count: u32,
}

impl Model for Tally {
    ghost use Rattle.std.specs.Prelude.{ℕ};

    ghost Value = { ℕ };

    ghost view = { λ tally. tally.count };
}

impl Typed for Tally {
    ghost use Rattle.std.specs.Prelude.{◌<◌, ◌^◌, codes, refl};
    ghost use Rattle.std.specs.Int.{w32, to_be_bytes};
    ghost use Rattle.ch_typed.specs.Values.{word_read};
    ghost use Rattle.ch_typed.specs.ValueLaws.{word_again, word_exact};

    ghost mark = { codes "t" };

    ghost fits = { λ n. n < 2 ^ 32 };

    ghost spelling = { to_be_bytes w32 };

    ghost read = { word_read };

    const MARK: &'static [u8] = b"t";

    fn mark_bytes() -> &'static [u8] {
        Self::MARK
    }

    fn put(&self, out: &mut Vec<u8>) -> Result<(), OutOfMemory> {
        self.count.put(out)
    }

    fn take(alloc: Global, bytes: &[u8]) -> Result<Tally, TypedError> {
        let count = u32::take(alloc, bytes)?;
        Ok(Tally { count })
    }

    ghost is_mark = { refl };

    ghost again = { word_again };

    ghost exact = { word_exact };
}
