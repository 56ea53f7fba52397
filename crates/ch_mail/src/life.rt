//! Whether a process acts, is doomed, or is over.

ghost use Rattle.std.specs.Prelude.{◌≡◌, IfOk};
ghost use Rattle.ch_mail.specs.Lives.{is_live, is_over};

use ch_base::{OutOfMemory, Text};
use ch_ident::Reason;

/// The life of a process. It is live, then perhaps doomed, then over.
#[derive(Debug, Drop)]
pub enum Life {
    /// It acts, and gets messages.
    Live,
    /// It gets messages, and falls at its own next turn, by the exception with this text.
    Doomed(Text),
    /// It neither acts nor gets messages any more, for this reason.
    Over(Reason),
}

impl Life {
    /// Whether it acts.
    pub fn is_live(&self) -> bool
        ensures { result ≡ is_live self.now }
    {
        matches!(self, Life::Live)
    }

    /// Whether it is over.
    pub fn is_over(&self) -> bool
        ensures { result ≡ is_over self.now }
    {
        matches!(self, Life::Over(_))
    }

    /// An equal life.
    pub fn copy(&self) -> Result<Life, OutOfMemory>
        ensures { IfOk result (λ life. life ≡ self.now) }
    {
        match self {
            Life::Live => Ok(Life::Live),
            Life::Doomed(text) => Ok(Life::Doomed(text.copy()?)),
            Life::Over(reason) => Ok(Life::Over(reason.copy()?)),
        }
    }
}
