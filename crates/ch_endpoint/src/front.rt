//! A reader of items that begins with an item of some kind.

ghost use Rattle.std.specs.Prelude.{◌≡◌, [], IfOk};
ghost use Rattle.ch_reader.specs.States.{Waits};

use ch_base::OutOfMemory;
use ch_reader::{Expected, Reader, Role};
use ch_wire::{Answer, answer_bytes};
use std::alloc::Global;

/// A reader that waits for a frame.
fn reader_of_frames(alloc: Global) -> Result<Reader, OutOfMemory>
    ensures { IfOk result (λ reader. reader ≡ Waits Expected.Frame []) }
{
    let mut reader = Reader::new(alloc, Role::Opener)?;
    reader.feed(&answer_bytes(Answer::Accepted))?;
    match reader.take() {
        Ok(_) => {}
        Err(_) => {}
    }
    Ok(reader)
}

/// A reader that waits for an item of this kind.
pub(crate) fn reader_of(alloc: Global, expected: Expected) -> Result<Reader, OutOfMemory>
    ensures { IfOk result (λ reader. reader ≡ Waits expected []) }
{
    match expected {
        Expected::Request => Reader::new(alloc, Role::Target),
        Expected::Answer => Reader::new(alloc, Role::Opener),
        Expected::Frame => reader_of_frames(alloc),
    }
}
