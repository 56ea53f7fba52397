//! Where bytes come from.
//!
//! A source counts its faults, so that whoever reads it can't claim a fault that didn't happen.
//! One over memory tells what is left to read; one over the world tells nothing of content.

ghost use Rattle.std.specs.Prelude.{◌≡◌, ℕ, ◌+◌, ◌<◌, ◌≤◌, ◌^◌, List, length, drop, take, Option, Some, None, IfOk, OnOk, OnErr};
ghost use Rattle.ch_base.specs.Outside.{Rose, Reads};
ghost use Rattle.ch_base.specs.Memory.{bytes_left};

use crate::memory::Failed;
use std::io::Read;

/// Where bytes come from.
pub trait Source {
    /// What is left to read, where the source tells it.
    ghost left: { Self → Option (List ℕ) };

    /// How often it has failed.
    ghost faults: { Self → ℕ };

    /// Reads bytes to the front of `into` and answers how many. 0 for a slice that isn't empty is
    /// the end. Failed is answered only where the count of faults rose in this call, and then
    /// nothing was taken.
    fn read(&mut self, into: &mut [u8]) -> Result<usize, Failed>
        ensures within { IfOk result (λ n. n ≤ length into.old) }
        ensures taken { IfOk result (λ n. Reads (left self.old) (left self.new) n into.new) }
        ensures failed { OnErr result (Rose (faults self.old) (faults self.new)) }
        ensures kept { OnErr result (left self.new ≡ left self.old) }
        ensures counted { faults self.old ≤ faults self.new };
}

/// A source over bytes in memory that never fails. It gives at most `most` bytes a call, or one
/// where `most` is 0.
#[derive(Drop)]
pub struct BytesSource {
    bytes: Vec<u8>,
    at: usize,
    most: usize,
}

impl BytesSource {
    /// All of these bytes are left.
    pub fn new(bytes: Vec<u8>, most: usize) -> BytesSource
        ensures { bytes_left result ≡ bytes.items }
    {
        BytesSource { bytes, at: 0, most }
    }
}

impl Source for BytesSource {
    ghost use Rattle.std.specs.Prelude.{Some, drop};
    ghost use Rattle.ch_base.specs.Memory.{bytes_left};

    ghost left = { λ s. Some (bytes_left s) };

    ghost faults = { λ s. 0 };

    fn read(&mut self, into: &mut [u8]) -> Result<usize, Failed> {
        let start = self.at.min(self.bytes.len());
        let (_, rest) = self.bytes.as_slice().split_at(start);
        let n = rest.len().min(into.len()).min(self.most.max(1));
        into[..n].copy_from_slice(&rest[..n]);
        self.at = start + n;
        Ok(n)
    }
}

/// A source that fails at some calls, and else gives what another one gives.
#[derive(Drop)]
pub struct FailingSource<S: Source + Drop> {
    source: S,
    failing: Vec<u64>,
    calls: u64,
    faults: u64,
}

impl<S: Source + Drop> FailingSource<S> {
    /// The calls with these numbers fail, counted from 0.
    pub fn new(source: S, failing: Vec<u64>) -> FailingSource<S>
        ensures { S.left result.source ≡ S.left source }
    {
        FailingSource {
            source,
            failing,
            calls: 0,
            faults: 0,
        }
    }
}

impl<S: Source + Drop> Source for FailingSource<S> {
    ghost left = { λ s. S.left s.source };

    ghost faults = { λ s. s.faults };

    fn read(&mut self, into: &mut [u8]) -> Result<usize, Failed> {
        let fails = self.failing.as_slice().contains(&self.calls);
        self.calls = self.calls.saturating_add(1);
        if fails {
            self.faults = self.faults.saturating_add(1);
            return Err(Failed);
        }
        match self.source.read(into) {
            Ok(n) => Ok(n),
            Err(Failed) => {
                self.faults = self.faults.saturating_add(1);
                Err(Failed)
            }
        }
    }
}

/// A source over a reader of the world: standard input, a file, a stream. It tells no content.
#[derive(Drop)]
pub struct ReaderSource<R: Read + Drop> {
    reader: R,
    faults: u64,
}

impl<R: Read + Drop> ReaderSource<R> {
    /// No read has failed yet.
    pub fn new(reader: R) -> ReaderSource<R>
        ensures { result.faults ≡ 0 }
    {
        ReaderSource { reader, faults: 0 }
    }
}

impl<R: Read + Drop> Source for ReaderSource<R> {
    ghost left = { λ s. None };

    ghost faults = { λ s. s.faults };

    fn read(&mut self, into: &mut [u8]) -> Result<usize, Failed> {
        match self.reader.read(into) {
            Ok(n) if n <= into.len() => Ok(n),
            _ => {
                self.faults = self.faults.saturating_add(1);
                Err(Failed)
            }
        }
    }
}
