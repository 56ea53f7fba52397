//! Which words are read, as a value.

ghost use Rattle.std.specs.Prelude.{◌≡◌};
ghost use Rattle.ch_lines.specs.Grammars.{built_of};

/// Which lines a reading knows.
#[derive(Clone, Copy, Debug, PartialEq, Eq)]
pub enum Grammar {
    /// The lines of one node, without empty lines and comments.
    OneNode,
    /// The lines of any number of nodes between which nothing is lost, without empty lines and comments.
    ManyNodes,
    /// Every line. An empty line, and one that begins with `;`, is passed over.
    Whole,
}

impl Grammar {
    /// Whether empty lines and comments are passed over.
    pub(crate) fn skips(self) -> bool
        ensures { result ≡ (built_of self).skips }
    {
        match self {
            Grammar::OneNode => false,
            Grammar::ManyNodes => false,
            Grammar::Whole => true,
        }
    }
}
