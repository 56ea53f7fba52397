//! The top call of the program.

ghost use Rattle.std.specs.Prelude.{◌≡◌, ◌↔◌, true, false, IsTrue};
ghost use Rattle.ch_base.specs.Outside.{Rose};
ghost use Rattle.ch_journal.specs.declared.status.Status.TheVariants as statuses;
ghost use Rattle.ch_replay.specs.Ends.{Ends, status_of_fault};
ghost use Rattle.ch_replay.specs.Words.{are_run_of};

use crate::intake::{Untaken, take_journal};
use crate::output::write_all;
use crate::replay::log_journal;
use ch_base::{Sink, Source, Stop};
use ch_journal::Status;
use ch_model::LineFault;
use std::alloc::Global;

/// Whether the words are the one word `run`.
fn are_run(words: &[String]) -> bool
    ensures { result ≡ are_run_of words.now }
{
    match words {
        [word] => word.as_str() == "run",
        _ => false,
    }
}

/// The status of a journal that was replayed and whose log was written.
fn status_of(fault: Option<(u32, LineFault)>) -> Status
    ensures { result ≡ status_of_fault fault }
{
    match fault {
        None => Status::Done,
        Some((line, LineFault::Bad(kind))) => Status::BadLine { line, kind },
        Some((line, LineFault::TooLong)) => Status::TooLong { line },
    }
}

/// Runs a journal: reads its text from the source to its end, and appends the text of its log to the
/// sink, up to the first line that is refused or too long. The words stand without the program's name;
/// the one form is `run`.
pub fn replay_top<S: Source, K: Sink>(
    alloc: Global,
    words: &[String],
    source: &mut S,
    sink: &mut K,
) -> Status
    // What the status tells of the bytes that were read and written.
    ensures ends { Ends result (S.left source.old) (S.left source.new) (K.held sink.old) (K.held sink.new) }
    // The words alone decide about usage.
    ensures usage { (result ≡ statuses.Usage) ↔ (are_run_of words.now ≡ false) }
    // A fault is told only where one happened.
    ensures read_fault { result ≡ statuses.ReadFault → Rose (S.faults source.old) (S.faults source.new) }
    ensures write_fault { result ≡ statuses.WriteFault → Rose (K.faults sink.old) (K.faults sink.new) }
{
    if !are_run(words) {
        return Status::Usage;
    }
    let journal = match take_journal(alloc, source) {
        Ok(journal) => journal,
        Err(Untaken::Fault) => return Status::ReadFault,
        Err(Untaken::OutOfMemory) => return Status::OutOfMemory,
    };
    let logged = match log_journal(alloc, journal.as_slice()) {
        Ok(logged) => logged,
        Err(Stop::OutOfMemory) => return Status::OutOfMemory,
        Err(Stop::Worn) => return Status::Worn,
    };
    match write_all(sink, logged.text.as_slice()) {
        Ok(()) => status_of(logged.fault),
        Err(_) => Status::WriteFault,
    }
}
