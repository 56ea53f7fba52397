//! A journal replayed line by line: each line is read, run, and its entries are told as text.

ghost use Rattle.std.specs.Prelude.{◌≡◌, ℕ, ◌+◌, ◌≤◌, ◌<◌, ◌++◌, ◌∷◌, [], length, OnOk, Ok, Some, None};
ghost use Rattle.ch_model.specs.Journal.{raw_lines, size_of};
ghost use Rattle.ch_model.specs.Spelling.{log_text};
ghost use Rattle.ch_lines.specs.declared.grammar.Grammar.TheVariants.{ManyNodes};
ghost use Rattle.ch_lines.specs.ReadingState.{unread};
ghost use Rattle.ch_replay.specs.Replayed.{Gives, replay_of, progress_of, IsTurn};
ghost use Rattle.ch_replay.specs.Running.{unbegun};

use crate::intake::LONGEST_JOURNAL;
use crate::running::Running;
use ch_base::{OutOfMemory, Stop};
use ch_journal::{Grammar, JournalError, Reading, put_entry, split_at_byte};
use ch_model::{BadKind, Entry, LineFault};
use std::alloc::Global;

/// The most bytes of a line, without its newline.
const LONGEST_LINE: usize = 8192;

/// The text of a journal's log, and the line where reading stopped, with the reason.
#[derive(Drop)]
pub(crate) struct Logged {
    pub(crate) text: Vec<u8>,
    pub(crate) fault: Option<(u32, LineFault)>,
}

/// The first line of a text, whether it has a newline, and what follows.
#[tactic(auto, using(crate::proofs::Cuts::without_newline, crate::proofs::Cuts::with_newline))]
fn first_line(text: &[u8]) -> (&[u8], bool, &[u8])
    requires { 0 < length text.now }
    ensures lines { raw_lines text.now ≡ (result.0.now, result.1) ∷ raw_lines result.2.now }
    ensures size { length text.now ≡ size_of (result.0.now, result.1) + length result.2.now }
    ensures shorter { length result.2.now < length text.now }
{
    match split_at_byte(b'\n', text) {
        None => (text, false, &[]),
        Some((line, rest)) => (line, true, rest),
    }
}

/// Appends the text of each entry.
fn put_entries(entries: &[Entry], text: &mut Vec<u8>) -> Result<(), OutOfMemory>
    ensures { OnOk result (text.new.items ≡ text.old.items ++ log_text entries.now) }
{
    for entry in entries {
        put_entry(entry, text)?;
    }
    Ok(())
}

/// Reads the next line and runs it, or tells why it is refused.
fn turn(
    alloc: Global,
    reading: &mut Reading,
    run: &mut Running,
    line: &[u8],
    text: &mut Vec<u8>,
) -> Result<Option<BadKind>, Stop>
    requires grammar { reading.old.grammar ≡ ManyNodes }
    requires fresh { reading.old.refused ≡ None }
    requires few { reading.old.number < 4294967295 }
    ensures { IsTurn result reading.old reading.new run.old run.new line.now text.old.items text.new.items }
{
    match reading.line(line) {
        Ok(None) => Ok(None),
        Ok(Some(line)) => {
            let entries = run.step(alloc, line)?;
            match put_entries(entries.as_slice(), text) {
                Ok(()) => Ok(None),
                Err(OutOfMemory) => Err(Stop::OutOfMemory),
            }
        }
        Err(JournalError::BadLine { kind, .. }) => Ok(Some(kind)),
        Err(JournalError::OutOfMemory) => Err(Stop::OutOfMemory),
        Err(JournalError::Worn) => Err(Stop::Worn),
    }
}

/// The log of a journal's text, read by a new reading and run from nothing. Both are lent, so that the walk over
/// the lines drops neither.
fn log_lines(
    alloc: Global,
    journal: &[u8],
    reading: &mut Reading,
    run: &mut Running,
) -> Result<Logged, Stop>
    requires few { length journal.now ≤ 16777217 }
    requires unread { reading.old ≡ unread ManyNodes }
    requires unbegun { run.old ≡ unbegun }
    ensures { Gives (λ l. (l.text.items, l.fault)) result (replay_of journal.now) }
{
    let mut text = Vec::new(alloc);
    if journal.is_empty() {
        return Ok(Logged {
            text,
            fault: Some((1, LineFault::Bad(BadKind::Form))),
        });
    }
    let mut room = LONGEST_JOURNAL;
    let mut rest = journal;
    'lines: while !rest.is_empty() {
        let (line, ended, after) = first_line(rest);
        let size = line.len() + usize::from(ended);
        let number = reading.lines_read() + 1;
        if line.len() > LONGEST_LINE || size > room {
            return Ok(Logged {
                text,
                fault: Some((number, LineFault::TooLong)),
            });
        }
        match turn(alloc, reading, run, line, &mut text)? {
            None => {
                room -= size;
                rest = after;
            }
            Some(kind) => {
                return Ok(Logged {
                    text,
                    fault: Some((number, LineFault::Bad(kind))),
                });
            }
        }
    }
    Ok(Logged { text, fault: None })
}

/// The log of a journal's text, up to the first line that is refused or too long.
pub(crate) fn log_journal(alloc: Global, journal: &[u8]) -> Result<Logged, Stop>
    requires { length journal.now ≤ 16777217 }
    ensures { Gives (λ l. (l.text.items, l.fault)) result (replay_of journal.now) }
{
    let mut reading = Reading::new(alloc, Grammar::ManyNodes);
    let mut run = Running::new(alloc);
    log_lines(alloc, journal, &mut reading, &mut run)
}
