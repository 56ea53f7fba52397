//! What a spawned process runs: a label, and its arguments as bytes.

ghost use Rattle.std.specs.Prelude.{◌≡◌, IfOk};

use ch_base::{OutOfMemory, Text};
use ch_ident::Name;

/// A label and its encoded arguments.
#[derive(Debug, Drop)]
pub struct Closure {
    pub label: Name,
    pub args: Text,
}

/// No table has the closure's label.
#[derive(Clone, Copy, Debug, PartialEq, Eq)]
pub struct Unlabelled;

impl Closure {
    /// An equal closure.
    pub fn copy(&self) -> Result<Closure, OutOfMemory>
        ensures { IfOk result (λ closure. closure ≡ self.now) }
    {
        Ok(Closure {
            label: self.label.copy()?,
            args: self.args.copy()?,
        })
    }
}
