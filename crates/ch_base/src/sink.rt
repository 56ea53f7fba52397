//! Where bytes go.
//!
//! A sink counts its faults, as a source does. One over memory tells what it holds; one over the
//! world tells nothing of content.

ghost use Rattle.std.specs.Prelude.{◌≡◌, ℕ, ◌+◌, ◌<◌, ◌≤◌, ◌^◌, List, [], length, Option, Some, None, IfOk, OnOk, OnErr};
ghost use Rattle.ch_base.specs.Outside.{Rose, Writes};
ghost use Rattle.ch_base.specs.Memory.{sink_bytes};

use crate::memory::Failed;
use std::io::Write;

/// Where bytes go.
pub trait Sink {
    /// What it holds, where it tells that.
    ghost held: { Self → Option (List ℕ) };

    /// How often it has failed.
    ghost faults: { Self → ℕ };

    /// Takes bytes from the front of `from` and answers how many. 0 for a piece that isn't empty is
    /// a fault. Failed is answered only where the count of faults rose in this call, and then
    /// nothing was taken.
    fn write(&mut self, from: &[u8]) -> Result<usize, Failed>
        ensures within { IfOk result (λ n. n ≤ length from.now) }
        ensures taken { IfOk result (λ n. Writes (held self.old) (held self.new) n from.now) }
        ensures stopped { IfOk result (λ n. n ≡ 0 → 0 < length from.now → Rose (faults self.old) (faults self.new)) }
        ensures failed { OnErr result (Rose (faults self.old) (faults self.new)) }
        ensures kept { OnErr result (held self.new ≡ held self.old) }
        ensures counted { faults self.old ≤ faults self.new };
}

/// A sink over a vector. It fails only where no memory is to be had. It takes at most `most` bytes a
/// call, or one where `most` is 0.
#[derive(Drop)]
pub struct BytesSink {
    bytes: Vec<u8>,
    most: usize,
    faults: u64,
}

impl BytesSink {
    /// It holds what the vector holds.
    pub fn new(bytes: Vec<u8>, most: usize) -> BytesSink
        ensures { sink_bytes result ≡ bytes.items }
    {
        BytesSink {
            bytes,
            most,
            faults: 0,
        }
    }

    /// What it holds.
    pub fn as_slice(&self) -> &[u8]
        ensures { result.now ≡ sink_bytes self.now }
    {
        self.bytes.as_slice()
    }
}

impl Sink for BytesSink {
    ghost use Rattle.std.specs.Prelude.{Some};
    ghost use Rattle.ch_base.specs.Memory.{sink_bytes};

    ghost held = { λ s. Some (sink_bytes s) };

    ghost faults = { λ s. s.faults };

    fn write(&mut self, from: &[u8]) -> Result<usize, Failed> {
        let n = from.len().min(self.most.max(1));
        let (taken, _) = from.split_at(n);
        match self.bytes.extend_from_slice(taken) {
            Ok(()) => Ok(n),
            Err(_) => {
                self.faults = self.faults.saturating_add(1);
                Err(Failed)
            }
        }
    }
}

/// A sink that fails at some calls, and else takes what another one takes.
#[derive(Drop)]
pub struct FailingSink<K: Sink + Drop> {
    sink: K,
    failing: Vec<u64>,
    calls: u64,
    faults: u64,
}

impl<K: Sink + Drop> FailingSink<K> {
    /// The calls with these numbers fail, counted from 0.
    pub fn new(sink: K, failing: Vec<u64>) -> FailingSink<K>
        ensures { K.held result.sink ≡ K.held sink }
    {
        FailingSink {
            sink,
            failing,
            calls: 0,
            faults: 0,
        }
    }

    /// The sink that takes what it takes.
    pub fn inner(&self) -> &K
        ensures { result.now ≡ self.now.sink }
    {
        &self.sink
    }
}

impl<K: Sink + Drop> Sink for FailingSink<K> {
    ghost held = { λ s. K.held s.sink };

    ghost faults = { λ s. s.faults };

    fn write(&mut self, from: &[u8]) -> Result<usize, Failed> {
        let fails = self.failing.as_slice().contains(&self.calls);
        self.calls = self.calls.saturating_add(1);
        if fails {
            self.faults = self.faults.saturating_add(1);
            return Err(Failed);
        }
        match self.sink.write(from) {
            Ok(n) => {
                if n == 0 && !from.is_empty() {
                    self.faults = self.faults.saturating_add(1);
                }
                Ok(n)
            }
            Err(Failed) => {
                self.faults = self.faults.saturating_add(1);
                Err(Failed)
            }
        }
    }
}

/// A sink over a writer of the world: standard output, a file, a stream. It tells no content.
#[derive(Drop)]
pub struct WriterSink<W: Write + Drop> {
    writer: W,
    faults: u64,
}

impl<W: Write + Drop> WriterSink<W> {
    /// No write has failed yet.
    pub fn new(writer: W) -> WriterSink<W>
        ensures { result.faults ≡ 0 }
    {
        WriterSink { writer, faults: 0 }
    }
}

impl<W: Write + Drop> Sink for WriterSink<W> {
    ghost held = { λ s. None };

    ghost faults = { λ s. s.faults };

    fn write(&mut self, from: &[u8]) -> Result<usize, Failed> {
        match self.writer.write(from) {
            Ok(n) if n <= from.len() && (n > 0 || from.is_empty()) => Ok(n),
            _ => {
                self.faults = self.faults.saturating_add(1);
                Err(Failed)
            }
        }
    }
}
