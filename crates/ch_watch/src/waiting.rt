//! An open number: what a process of a node waits for.

ghost use Rattle.std.specs.Prelude.{◌≡◌, IfOk};
ghost use Rattle.ch_watch.specs.Open.{is_watch as is_watch_kind, is_watch_of as is_watch_under, awaits as awaits_of};

use crate::same::{node_of, same_node};
use ch_base::{Address, OutOfMemory};
use ch_ident::Identifier;

/// What a number was opened for.
#[derive(Clone, Copy, Debug, PartialEq, Eq)]
pub enum Kind {
    /// A monitor: the end of the target gives a message.
    Monitor,
    /// A link: the end of the target dooms the owner.
    Link,
    /// A spawn: the new process's id is awaited.
    Spawn,
    /// A question for a name.
    Ask,
}

/// An open number, whose it is, and what is awaited from where.
#[derive(Debug, Drop)]
pub struct Waiting {
    pub number: u32,
    /// The process that opened it, by its number.
    pub owner: u32,
    pub kind: Kind,
    pub target: Identifier,
}

impl Waiting {
    /// An equal one.
    pub fn copy(&self) -> Result<Waiting, OutOfMemory>
        ensures { IfOk result (λ waiting. waiting ≡ self.now) }
    {
        Ok(Waiting {
            number: self.number,
            owner: self.owner,
            kind: self.kind,
            target: self.target.copy()?,
        })
    }

    /// Whether it is a monitor or a link of that owner under that number.
    #[tactic(auto, unfolding(crate::specs::Open::is_watch_of))]
    pub(crate) fn is_watch_of(&self, owner: u32, number: u32) -> bool
        ensures { result ≡ is_watch_under owner number self.now }
    {
        self.number == number && self.owner == owner && self.kind.is_watch()
    }

    /// Whether it awaits something of that node.
    #[tactic(auto, unfolding(crate::specs::Open::awaits))]
    pub(crate) fn awaits(&self, peer: &Address) -> bool
        ensures { result ≡ awaits_of peer.now self.now }
    {
        same_node(node_of(&self.target), peer)
    }
}

impl Kind {
    fn is_watch(self) -> bool
        ensures { result ≡ is_watch_kind self }
    {
        match self {
            Kind::Monitor | Kind::Link => true,
            Kind::Spawn | Kind::Ask => false,
        }
    }
}
