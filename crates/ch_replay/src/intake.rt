//! Taking a journal from its source, up to one byte more than it may have.

ghost use Rattle.std.specs.Prelude.{◌≡◌, ◌+◌, ◌-◌, ◌≤◌, ◌<◌, ◌++◌, length, IfOk, IsErrOf};
ghost use Rattle.ch_base.specs.Outside.{Rose};
ghost use Rattle.ch_replay.specs.Outside.{Taken, IsIntake};
ghost use Rattle.ch_replay.specs.declared.intake.Untaken.TheVariants as untaken;

use ch_base::{Failed, OutOfMemory, Source};
use std::alloc::{AllocError, Global};

/// The most bytes of a journal.
pub(crate) const LONGEST_JOURNAL: usize = 16_777_216;

/// How many bytes are asked for at a time.
const PIECE: usize = 4096;

/// Why a journal wasn't taken.
#[derive(Clone, Copy, Debug, PartialEq, Eq)]
pub(crate) enum Untaken {
    /// The source failed.
    Fault,
    /// No memory was to be had.
    OutOfMemory,
}

impl From<Failed> for Untaken {
    ghost from_gives = { λ _ e. e ≡ untaken.Fault };

    fn from(_e: Failed) -> Untaken {
        Untaken::Fault
    }
}

impl From<AllocError> for Untaken {
    ghost from_gives = { λ _ e. e ≡ untaken.OutOfMemory };

    fn from(_e: AllocError) -> Untaken {
        Untaken::OutOfMemory
    }
}

/// All bytes of the source, or one more than a journal may have.
pub(crate) fn take_journal<S: Source>(alloc: Global, source: &mut S) -> Result<Vec<u8>, Untaken>
    ensures taken { IfOk result (λ v. IsIntake (S.left source.old) (S.left source.new) v.items) }
    ensures small { IfOk result (λ v. length v.items ≤ 16777217) }
    ensures failed { IsErrOf result untaken.Fault → Rose (S.faults source.old) (S.faults source.new) }
    ensures counted { S.faults source.old ≤ S.faults source.new }
{
    let mut journal = Vec::new(alloc);
    let mut piece = [0u8; PIECE];
    'pieces: while journal.len() <= LONGEST_JOURNAL {
        let room = PIECE.min(LONGEST_JOURNAL + 1 - journal.len());
        let n = source.read(&mut piece[..room])?;
        if n == 0 {
            return Ok(journal);
        }
        journal.extend_from_slice(&piece[..n])?;
    }
    Ok(journal)
}
