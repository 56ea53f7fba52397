//! A journal's lines, read one after another.
//!
//! Below stand what each line says and what the lines have told.

ghost use Rattle.std.specs.Prelude.{◌≡◌};
ghost use Rattle.ch_lines.specs.ReadingState.{ReadingState, unread};
ghost use Rattle.ch_lines.specs.Reading.{Answers, read_on, numbered_line as numbered_line_of};

use crate::grammar::Grammar;
use crate::known::Known;
use ch_fields::Fault;
use ch_model::{BadKind, Line, What};
use std::alloc::Global;
use std::marker::Model;
use thiserror::Error;

/// Why a line wasn't read.
#[derive(Clone, Copy, Debug, PartialEq, Eq, Error)]
pub enum JournalError {
    /// This line is refused. Whatever is read after it gets the same answer.
    #[error("bad line")]
    BadLine { line: u32, kind: BadKind },
    /// No memory was to be had. The line may be read again.
    #[error("out of memory")]
    OutOfMemory,
    /// 4294967295 lines were read.
    #[error("counts worn")]
    Worn,
}

/// The state of a reading. Contracts see which lines it knows, what the lines so far have told, how
/// many they are, and the number and kind of the line that was refused.
#[derive(Debug, Drop)]
pub struct Reading {
    alloc: Global,
    grammar: Grammar,
    known: Known,
    number: u32,
    refused: Option<(u32, BadKind)>,
}

impl Model for Reading {
    ghost use Rattle.ch_lines.specs.ReadingState.{ReadingState};

    ghost Value = { ReadingState };

    ghost view = { λ r. record { grammar = r.grammar; told = r.known; number = r.number; refused = r.refused } };
}

impl Reading {
    /// A reading before the first line, of the lines of a grammar. It takes no memory.
    pub fn new(alloc: Global, grammar: Grammar) -> Reading
        ensures { result ≡ unread grammar }
    {
        Reading {
            alloc,
            grammar,
            known: Known::nothing(alloc),
            number: 0,
            refused: None,
        }
    }

    /// How many lines were read. The line that was refused isn't counted.
    pub fn lines_read(&self) -> u32
        ensures { result ≡ self.now.number }
    {
        self.number
    }

    /// Reads the next line, without its newline. None for the header, and for a line that is passed
    /// over.
    ///
    /// `BadLine` where this line or one before it is the first that is refused, with its number and
    /// the first kind of refusal that holds; then it is the answer for good. `OutOfMemory` and
    /// `Worn`, which comes at the line after the 4294967295th, change nothing.
    pub fn line(&mut self, bytes: &[u8]) -> Result<Option<Line>, JournalError>
        ensures { Answers result self.old self.new (read_on self.old bytes.now) }
    {
        match self.refused {
            Some((line, kind)) => return Err(JournalError::BadLine { line, kind }),
            None => {}
        }
        if self.number == u32::MAX {
            return Err(JournalError::Worn);
        }
        let number = self.number + 1;
        match self.known.line(self.grammar, self.alloc, bytes) {
            Ok(what) => {
                self.number = number;
                Ok(numbered_line(number, what))
            }
            Err(Fault::Bad(kind)) => {
                self.refused = Some((number, kind));
                Err(JournalError::BadLine { line: number, kind })
            }
            Err(Fault::OutOfMemory) => Err(JournalError::OutOfMemory),
        }
    }
}

/// What a line says, with its number.
fn numbered_line(number: u32, what: Option<What>) -> Option<Line>
    ensures { result ≡ numbered_line_of number what }
{
    match what {
        None => None,
        Some(what) => Some(Line { number, what }),
    }
}
