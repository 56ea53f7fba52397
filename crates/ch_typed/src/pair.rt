//! Pairs of values as values.

use crate::error::TypedError;
use crate::typed::Typed;
use ch_base::OutOfMemory;
use std::alloc::Global;

/// The mark of pairs.
const PAIR: &'static [u8] = b"pair";

impl<A: Typed + Drop, B: Typed> Typed for (A, B) {
    ghost use Rattle.std.specs.Prelude.{codes, refl};
    ghost use Rattle.ch_typed.specs.Pairs.{PairFits, pair_spelling, pair_read};
    ghost use Rattle.ch_typed.specs.PairLaws.{pair_again, pair_exact};

    ghost mark = { codes "pair" };

    ghost fits = { PairFits A.fits B.fits A.spelling };

    ghost spelling = { pair_spelling A.spelling B.spelling };

    ghost read = { pair_read A.read B.read };

    const MARK: &'static [u8] = PAIR;

    fn mark_bytes() -> &'static [u8] {
        PAIR
    }

    /// The length of the first spelling in eight bytes, and both spellings.
    fn put(&self, out: &mut Vec<u8>) -> Result<(), OutOfMemory> {
        let mut first = Vec::new(*out.allocator());
        self.0.put(&mut first)?;
        let mut spelled = Vec::new(*out.allocator());
        spelled.extend_from_slice(&(first.len() as u64).to_be_bytes())?;
        spelled.extend_from_slice(&first)?;
        self.1.put(&mut spelled)?;
        out.extend_from_slice(&spelled)?;
        Ok(())
    }

    #[tactic(auto, using(crate::specs::PairLaws::refused), unfolding(crate::specs::Pairs::pair_read, crate::specs::Pairs::length_at))]
    fn take(alloc: Global, bytes: &[u8]) -> Result<(A, B), TypedError> {
        if bytes.len() < 8 {
            return Err(TypedError::BadBody);
        }
        let (long, parts) = bytes.split_at(8);
        let len = u64::from_be_bytes([
            long[0], long[1], long[2], long[3], long[4], long[5], long[6], long[7],
        ]) as usize;
        if parts.len() < len {
            return Err(TypedError::BadBody);
        }
        let (first, second) = parts.split_at(len);
        let a = A::take(alloc, first)?;
        let b = B::take(alloc, second)?;
        Ok((a, b))
    }

    ghost is_mark = { refl };

    ghost again = { pair_again A.fits B.fits A.spelling B.spelling A.read B.read A.again B.again };

    ghost exact = { pair_exact A.fits B.fits A.spelling B.spelling A.read B.read A.exact B.exact };
}
