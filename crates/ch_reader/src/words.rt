//! The words at an item's front that have come.

ghost use Rattle.std.specs.Prelude.{◌≡◌, ◌≤◌, ◌-◌, ◌++◌, [], length, take, min};
ghost use Rattle.ch_reader.specs.Keeping.{Completes};
ghost use Rattle.ch_reader.specs.Reading.{header_size as header_size_of};

use crate::glance::header_size;
use crate::item::Expected;
use std::marker::Model;

/// At most two words, of which the last may lack bytes. Contracts see the bytes.
#[derive(Debug, Drop)]
pub(crate) struct Words {
    bytes: [u8; 8],
    len: usize,
}

impl Model for Words {
    ghost use Rattle.std.specs.Prelude.{ℕ, List, take, ◌≤◌};

    ghost Value = { List ℕ };

    ghost view = { λ w. take w.len w.bytes };

    ghost invariant = { λ w. w.len ≤ 8 };
}

impl Words {
    /// No byte.
    pub(crate) fn new() -> Words
        ensures { result ≡ [] }
    {
        Words {
            bytes: [0; 8],
            len: 0,
        }
    }

    /// The bytes that have come.
    pub(crate) fn as_slice(&self) -> &[u8]
        ensures { result.now ≡ self.now }
    {
        &self.bytes[..self.len]
    }

    /// The words with the first bytes of a piece, up to this many in all, and how many were taken.
    fn filled(&self, limit: usize, piece: &[u8]) -> (Words, usize)
        requires { limit ≤ 8 }
        ensures bytes { result.0 ≡ self.now ++ take result.1 piece.now }
        ensures count { result.1 ≡ min (limit - length self.now) (length piece.now) }
    {
        let count = limit.saturating_sub(self.len).min(piece.len());
        let end = self.len + count;
        let mut bytes = self.bytes;
        bytes[self.len..end].copy_from_slice(&piece[..count]);
        (Words { bytes, len: end }, count)
    }

    /// The words with as many of a piece's bytes as are of the item's words, and how many these are.
    pub(crate) fn completed(&self, expected: Expected, piece: &[u8]) -> (Words, usize)
        requires { length self.now ≤ header_size_of expected self.now }
        ensures { Completes expected self.now piece.now result.0 result.1 }
    {
        let (first, count) = self.filled(4, piece);
        let size = header_size(expected, first.as_slice());
        let (words, more) = first.filled(size, &piece[count..]);
        (words, count + more)
    }
}
