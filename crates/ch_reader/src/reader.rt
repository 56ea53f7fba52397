//! The reader: bytes in any pieces go in, items come out.
//!
//! An item's words and its body stand below, in `words` and `body`; hosts stand above.

ghost use Rattle.std.specs.Prelude.{◌≡◌, ◌≤◌, length, IfOk, OnErr, IsOk};
ghost use Rattle.ch_reader.specs.States.{State, start, fed, taken, held};

use crate::body::{continued, missing};
use crate::item::{Expected, Front, Item, ReaderError, Role};
use crate::words::Words;
use ch_base::OutOfMemory;
use std::alloc::Global;
use std::marker::Model;
use std::mem;

/// The most bytes that a reader holds: two words and a payload.
pub const MOST_HELD_BYTES: usize = 65_544;

/// Reads one direction of a socket. Contracts see what it waits for and the bytes since the last
/// item, or the item that waits, or the refusal.
#[derive(Debug, Drop)]
pub struct Reader {
    expected: Expected,
    words: Words,
    body: Vec<u8>,
    /// How many bytes of the body are to come, as far as the words tell.
    missing: usize,
    front: Front,
}

impl Model for Reader {
    ghost use Rattle.ch_reader.specs.States.{State};

    ghost Value = { State };

    ghost use Rattle.std.specs.Prelude.{◌++◌};
    ghost use Rattle.ch_reader.specs.States.{state_of};
    ghost use Rattle.ch_reader.specs.Keeping.{Keeps, KeepsMissing};

    ghost view = { λ r. state_of r.expected (r.words ++ r.body.items) r.front };

    ghost invariant = { λ r. KeepsMissing r.expected r.words r.body.items r.missing × Keeps r.expected r.words r.body.items r.front };
}

impl Reader {
    /// A reader of which no byte was taken, for the end of this role. It takes no memory.
    pub fn new(alloc: Global, role: Role) -> Result<Reader, OutOfMemory>
        ensures ok { IfOk result (λ r. r ≡ start role) }
        ensures succeeds { IsOk result }
    {
        let expected = match role {
            Role::Opener => Expected::Answer,
            Role::Target => Expected::Request,
        };
        Ok(Reader {
            expected,
            words: Words::new(),
            body: Vec::new(alloc),
            missing: 0,
            front: Front::Unfinished,
        })
    }

    /// Takes bytes up to the end of the first item or the place of a refusal, or all, and answers
    /// how many; none while an item or a refusal stands. Without memory the reader is unchanged.
    pub fn feed(&mut self, piece: &[u8]) -> Result<usize, OutOfMemory>
        ensures ok { IfOk result (λ n. (n, self.new) ≡ fed self.old piece.now) }
        ensures within { IfOk result (λ n. n ≤ length piece.now) }
        ensures err { OnErr result (self.new ≡ self.old) }
        ensures bound { held self.new ≤ MOST_HELD_BYTES }
    {
        match self.front {
            Front::Unfinished => {}
            _ => return Ok(0),
        }
        if piece.len() < self.missing {
            self.body.extend_from_slice(piece)?;
            self.missing -= piece.len();
            return Ok(piece.len());
        }
        let (words, count) = self.words.completed(self.expected, piece);
        let (front, more) = continued(
            self.expected,
            words.as_slice(),
            &mut self.body,
            &piece[count..],
        )?;
        self.missing = missing(self.expected, words.as_slice(), self.body.as_slice());
        self.words = words;
        self.front = front;
        Ok(count + more)
    }

    /// Hands out the item that waits. None is answered exactly where the bytes taken since the last
    /// item are unfinished; no bytes are unfinished too. A refusal is answered for good. It takes no
    /// memory.
    pub fn take(&mut self) -> Result<Option<Item>, ReaderError>
        ensures { (result, self.new) ≡ taken self.old }
    {
        if let Front::Unfinished = self.front {
            return Ok(None);
        }
        match mem::replace(&mut self.front, Front::Unfinished) {
            Front::Unfinished => Ok(None),
            Front::Refused(error) => {
                self.front = Front::Refused(error);
                Err(error)
            }
            Front::Whole(item) => {
                self.expected = Expected::Frame;
                self.words = Words::new();
                self.body.clear();
                self.missing = 0;
                Ok(Some(item))
            }
        }
    }
}
