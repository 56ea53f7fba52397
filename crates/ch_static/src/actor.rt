//! Who chooses a process's commands: an actor turn by turn, and a program that has an actor for each label.

ghost use Rattle.std.specs.Prelude.{◌≡◌, ◌≢◌, if◌then◌else◌, IfOk, OnErr, Some, None, List, ℕ, Bool};
ghost use Rattle.ch_static.specs.declared.actor.Reply.{Reply};
ghost use Rattle.ch_static.specs.declared.actor.Turn.{Turn};

use crate::command::Command;
use ch_base::OutOfMemory;
use ch_ident::{Message, Name};

/// What came of an actor's last command.
#[derive(Debug, Drop)]
pub enum Reply {
    /// There was none yet.
    First,
    /// It was done.
    Ok,
    /// It was done, and this message was taken.
    Took(Message),
    /// There was no such message.
    Empty,
    /// Too much waits on the link.
    Full,
    /// It was refused for another reason.
    Refused,
    /// The actor rested, and something has changed since.
    Woken,
}

/// What an actor does next.
#[derive(Debug, Drop)]
pub enum Turn {
    Do(Command),
    /// It waits until something changes.
    Rest,
}

/// Chooses the commands of one process.
pub trait Actor {
    /// What a turn answers to a reply.
    ghost answer: { Self → Reply → Turn };

    /// The actor after that turn.
    ghost after: { Self → Reply → Self };

    /// The next turn, a function of the actor and the reply. After `OutOfMemory` the actor is unchanged.
    fn turn(&mut self, last: &Reply) -> Result<Turn, OutOfMemory>
        ensures answer { IfOk result (λ turn. turn ≡ answer self.old last.now) }
        ensures after { IfOk result (λ _. self.new ≡ after self.old last.now) }
        ensures err { OnErr result (self.new ≡ self.old) };

    /// A turn that is a rest leaves the actor as it was.
    ghost rests: { (actor : Self) (last : Reply) → answer actor last ≡ Turn.Rest → after actor last ≡ actor };

    /// Who is woken doesn't rest.
    ghost wakes: { (actor : Self) → answer actor Reply.Woken ≢ Turn.Rest };
}

/// Gives each process of a node its actor.
pub trait Program {
    type Actor: Actor;

    /// Whether the program has a label.
    ghost has: { Self → List ℕ → Bool };

    /// The actor of a process that no spawn made.
    ghost starter: { Self → Self.Actor };

    /// The actor of a label and arguments.
    ghost worker: { Self → List ℕ → List ℕ → Self.Actor };

    /// The actor of a process that no spawn made.
    fn start(&self) -> Result<Self::Actor, OutOfMemory>
        ensures { IfOk result (λ actor. actor ≡ starter self.now) };

    /// The actor of a process that was spawned with this label and these arguments. It is `None` exactly
    /// where the program hasn't the label.
    fn make(&self, label: &Name, args: &[u8]) -> Result<Option<Self::Actor>, OutOfMemory>
        ensures { IfOk result (λ made. made ≡ (if has self.now label.now then Some (worker self.now label.now args.now) else None)) };
}
