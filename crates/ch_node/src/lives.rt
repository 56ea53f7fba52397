//! How a process is doomed, and the node's own messages into mailboxes.

ghost use Rattle.std.specs.Prelude.{◌≡◌, ◌++◌, MatchResult, IfOk, Ok, Err, codes};
ghost use Rattle.ch_model.specs.NodeLives.{doom as doom_of, mail_to as mail_to_of, reason_of as reason_of_why, reason_word as reason_word_of, link_text as link_text_of};
ghost use Rattle.ch_node.specs.Calls.{Halts};

use crate::acts::{Outcome, noted};
use crate::halt::Halt;
use crate::state::State;
use ch_base::{OutOfMemory, Text, Why};
use ch_ident::{Message, Name, Reason};
use ch_mail::MailError;
use ch_model::Note;
use std::alloc::Global;

/// The reason of a watch whose target is beyond a failed link.
pub(crate) fn reason_of(why: Why) -> Reason
    ensures { result ≡ reason_of_why why }
{
    match why {
        Why::Disconnect => Reason::Disconnect,
        Why::NodeDown => Reason::NodeDown,
    }
}

fn reason_word(reason: &Reason) -> &'static [u8]
    ensures { result.now ≡ reason_word_of reason.now }
{
    match reason {
        Reason::Normal => b"normal",
        Reason::Exception(_) => b"exception",
        Reason::Disconnect => b"disconnect",
        Reason::NodeDown => b"nodedown",
        Reason::UnknownId => b"unknownid",
    }
}

/// The text that dooms a process whose link is told.
pub(crate) fn link_text(alloc: Global, reason: &Reason) -> Result<Text, OutOfMemory>
    ensures { IfOk result (λ text. text ≡ link_text_of reason.now) }
{
    let mut text = Vec::from_slice(alloc, b"link ")?;
    text.extend_from_slice(reason_word(reason))?;
    Ok(Text::from_vec(text))
}

impl State {
    /// A process is doomed where it is live; else nothing changes.
    #[tactic(auto, unfolding(ch_model::specs::NodeLives::doom))]
    pub(crate) fn doom(&mut self, number: u32, text: Text) -> Result<Outcome, Halt>
        ensures { MatchResult result (λ acts. doom_of self.old number text ≡ Ok (acts.items, self.new)) (λ e. Halts e (doom_of self.old number text)) }
    {
        if self.mail.doom(number, text.as_slice())? {
            let process = self.id(number)?;
            Ok(noted(self.alloc(), Note::Doom { process, text })?)
        } else {
            Ok(Vec::new(self.alloc()))
        }
    }

    /// A message of the node's own is put into the mailbox of a process that isn't over.
    #[tactic(auto, unfolding(ch_model::specs::NodeLives::mail_to))]
    pub(crate) fn mail_to(&mut self, number: u32, mark: Name, body: Text) -> Result<(), Halt>
        ensures { MatchResult result (λ _. mail_to_of self.old number mark body ≡ Ok self.new) (λ e. Halts e (mail_to_of self.old number mark body)) }
    {
        match self.mail.put(number, None, Message { mark, body }) {
            Ok(()) => Ok(()),
            Err(MailError::NotLive) => Ok(()),
            Err(MailError::Empty) => Ok(()),
            Err(MailError::OutOfMemory) => Err(Halt::OutOfMemory),
            Err(MailError::Worn) => Err(Halt::Worn),
        }
    }
}
