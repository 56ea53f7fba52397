//! What a program tells whoever started it.

ghost use Rattle.std.specs.Prelude.{◌≡◌, ◌≤◌, ◌+◌, ◌++◌, length, codes};
ghost use Rattle.std.specs.Option.{option_map};
ghost use Rattle.ch_journal.specs.Statuses.{code_of, message_of, kind_text as kind_text_of, at_line as at_line_of};

use arrayvec::ArrayVec;
use ch_model::BadKind;
use itoa::Buffer;

/// How a program ended.
#[derive(Clone, Copy, Debug, PartialEq, Eq)]
pub enum Status {
    /// All was written, and what was to be read was read to its end.
    Done,
    /// The words aren't of a known form.
    Usage,
    /// A read failed.
    ReadFault,
    /// A write failed, or nothing was taken of what was to be written.
    WriteFault,
    /// This line is the first that is refused.
    BadLine { line: u32, kind: BadKind },
    /// This line, or the journal up to its end, has too many bytes.
    TooLong { line: u32 },
    /// No memory was to be had.
    OutOfMemory,
    /// A count stands at its type's last value, and the next step would raise it.
    Worn,
}

impl Status {
    /// The number that the program exits with.
    pub fn code(&self) -> u8
        ensures { result ≡ code_of self.now }
    {
        match self {
            Status::Done => 0,
            Status::Usage => 2,
            Status::ReadFault => 3,
            Status::WriteFault => 4,
            Status::BadLine { .. } => 5,
            Status::TooLong { .. } => 6,
            Status::OutOfMemory => 7,
            Status::Worn => 10,
        }
    }

    /// What the program writes to standard error after its name and `: `, where it writes anything.
    /// It takes no memory.
    pub fn message(&self) -> Option<ArrayVec<u8, 32>>
        ensures { option_map (λ m. m.items) result ≡ message_of self.now }
    {
        match self {
            Status::Done => None,
            Status::Usage => Some(short(b"usage")),
            Status::ReadFault => Some(short(b"read fault")),
            Status::WriteFault => Some(short(b"write fault")),
            Status::BadLine { line, kind } => Some(at_line(*line, kind_text(*kind))),
            Status::TooLong { line } => Some(at_line(*line, b"too long")),
            Status::OutOfMemory => Some(short(b"out of memory")),
            Status::Worn => Some(short(b"counts worn")),
        }
    }
}

/// A refusal in a word.
fn kind_text(kind: BadKind) -> &'static [u8]
    ensures word { result.now ≡ kind_text_of kind }
    ensures short { length result.now ≤ 10 }
{
    match kind {
        BadKind::Form => b"form",
        BadKind::Number => b"number",
        BadKind::Undeclared => b"undeclared",
        BadKind::Repeated => b"repeated",
        BadKind::Late => b"late",
    }
}

/// A text of at most 32 bytes.
fn short(text: &[u8]) -> ArrayVec<u8, 32>
    requires { length text.now ≤ 32 }
    ensures { result.items ≡ text.now }
{
    let mut message = ArrayVec::new();
    put(&mut message, text);
    message
}

/// A line and what is wrong with it.
fn at_line(line: u32, wrong: &[u8]) -> ArrayVec<u8, 32>
    requires { length wrong.now ≤ 10 }
    ensures { result.items ≡ at_line_of line wrong.now }
{
    let mut digits = Buffer::new();
    let mut message = short(b"line ");
    put(&mut message, digits.format(line).as_bytes());
    put(&mut message, b": ");
    put(&mut message, wrong);
    message
}

/// Appends where there is room.
fn put(message: &mut ArrayVec<u8, 32>, text: &[u8])
    requires { length message.old.items + length text.now ≤ 32 }
    ensures { message.new.items ≡ message.old.items ++ text.now }
{
    match message.try_extend_from_slice(text) {
        Ok(()) => {}
        Err(_) => {}
    }
}
