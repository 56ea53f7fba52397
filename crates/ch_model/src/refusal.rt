//! Why a journal isn't read on.

/// Why a line is refused. Of one line the first that holds is told: form, number, late,
/// undeclared, repeated.
#[derive(Clone, Copy, Debug, PartialEq, Eq)]
pub enum BadKind {
    /// The first line isn't the header, or a word, the number of fields or a field's class is wrong.
    Form,
    /// A number has a leading zero, or is out of its range.
    Number,
    /// A name isn't declared as its place asks.
    Undeclared,
    /// A name or an address was declared before.
    Repeated,
    /// A declaration stands after an event line.
    Late,
}

/// Why a journal is read no further than before a line.
#[derive(Clone, Copy, Debug, PartialEq, Eq)]
pub enum LineFault {
    /// The line is refused.
    Bad(BadKind),
    /// The line, or the journal up to its end, has too many bytes.
    TooLong,
}
