//! The answer to a line, with the entries of what followed.

ghost use Rattle.std.specs.Prelude.{◌≡◌, ◌++◌, ◌∷◌, [], IfOk};
ghost use Rattle.ch_model.specs.declared.entry.Verdict.TheVariants as verdicts;

use ch_base::OutOfMemory;
use ch_model::{Entry, Verdict};
use std::alloc::Global;
use std::marker::Model;

/// An answer, and the entries of what followed, in order. Contracts see a pair.
#[derive(Debug, Drop)]
pub(crate) struct Answer {
    pub(crate) verdict: Verdict,
    pub(crate) entries: Vec<Entry>,
}

impl Model for Answer {
    ghost use Rattle.std.specs.Prelude.{List};
    ghost use Rattle.ch_model.specs.declared.entry.Entry.{Entry};
    ghost use Rattle.ch_model.specs.declared.entry.Verdict.{Verdict};

    ghost Value = { Verdict × List Entry };

    ghost view = { λ a. (a.verdict, a.entries.items) };
}

/// Nothing could happen.
pub(crate) fn nothing(alloc: Global) -> Answer
    ensures { result ≡ (verdicts.Nothing, []) }
{
    Answer {
        verdict: Verdict::Nothing,
        entries: Vec::new(alloc),
    }
}

/// One entry.
pub(crate) fn one(alloc: Global, entry: Entry) -> Result<Vec<Entry>, OutOfMemory>
    ensures { IfOk result (λ entries. entries.items ≡ entry ∷ []) }
{
    let mut entries = Vec::new(alloc);
    entries.push(entry)?;
    Ok(entries)
}

/// These entries, and then those.
pub(crate) fn joined(first: Vec<Entry>, next: Vec<Entry>) -> Result<Vec<Entry>, OutOfMemory>
    ensures { IfOk result (λ entries. entries.items ≡ first.items ++ next.items) }
{
    let mut entries = first;
    let mut last = next;
    entries.append(&mut last)?;
    Ok(entries)
}

/// It was done: an entry of the world's own, and nothing more.
pub(crate) fn tells(alloc: Global, entry: Entry) -> Result<Answer, OutOfMemory>
    ensures { IfOk result (λ answer. answer ≡ (verdicts.Ok, entry ∷ [])) }
{
    Ok(Answer {
        verdict: Verdict::Ok,
        entries: one(alloc, entry)?,
    })
}

/// An entry of the world's own before what followed.
pub(crate) fn after_entry(entry: Entry, answer: Answer) -> Result<Answer, OutOfMemory>
    ensures { IfOk result (λ all. all ≡ (answer.0, entry ∷ answer.1)) }
{
    let Answer { verdict, entries } = answer;
    let first = one(*entries.allocator(), entry)?;
    Ok(Answer {
        verdict,
        entries: joined(first, entries)?,
    })
}
