//! Messages that wait, in order of arrival: a mailbox, or a port.

ghost use Rattle.std.specs.Prelude.{◌≡◌, ◌+◌, [], ◌∷◌, ◌++◌, length, position, OnOk, OnErr, OnSome, IfNone, MatchOption, Some, None};
ghost use Rattle.std.specs.Str.{bytes_eq};

use ch_base::OutOfMemory;
use ch_ident::{Message, Name};
use std::alloc::Global;
use std::collections::VecDeque;
use std::marker::Model;

/// Messages in order of arrival. Contracts see the list of them.
#[derive(Debug, Drop)]
pub struct Queue {
    messages: VecDeque<Message>,
}

impl Model for Queue {
    ghost use Rattle.std.specs.Prelude.{List};
    ghost use Rattle.ch_ident.specs.declared.message.Message.{Message};

    ghost Value = { List Message };

    ghost view = { λ queue. queue.messages.items };
}

impl Queue {
    ghost use Rattle.ch_mail.specs.Queue.{first_of_mark, first_of};

    pub fn new(alloc: Global) -> Queue
        ensures { result ≡ [] }
    {
        Queue {
            messages: VecDeque::new(alloc),
        }
    }

    /// Appends a message. After `OutOfMemory` the queue is unchanged.
    pub fn put(&mut self, message: Message) -> Result<(), OutOfMemory>
        ensures ok { OnOk result (self.new ≡ self.old ++ message ∷ []) }
        ensures err { OnErr result (self.new ≡ self.old) }
    {
        self.messages.push_back(message)?;
        Ok(())
    }

    /// Takes the first message of a mark. Where that stands near the front it is a short way.
    pub fn take_mark(&mut self, mark: &Name) -> Option<Message>
        ensures taken { MatchOption result (first_of_mark mark.now self.old ≡ None) (λ message. first_of_mark mark.now self.old ≡ Some (message, self.new)) }
        ensures left { IfNone result (self.new ≡ self.old) }
        ensures shorter { OnSome result (length self.old ≡ length self.new + 1) }
    {
        match self.place(mark) {
            None => None,
            Some(place) => self.messages.remove(place),
        }
    }

    /// Takes the first message.
    #[tactic(auto, unfolding(crate::specs::Queue::first_of))]
    pub fn take_first(&mut self) -> Option<Message>
        ensures taken { MatchOption result (first_of self.old ≡ None) (λ message. first_of self.old ≡ Some (message, self.new)) }
        ensures left { IfNone result (self.new ≡ self.old) }
        ensures shorter { OnSome result (length self.old ≡ length self.new + 1) }
    {
        self.messages.pop_front()
    }

    fn place(&self, mark: &Name) -> Option<usize>
        ensures place { result ≡ position (λ message. bytes_eq message.mark mark.now) self.now }
    {
        self.messages
            .iter()
            .position(|message| is_same(&message.mark, mark))
    }
}

fn is_same(a: &Name, b: &Name) -> bool
    ensures { result ≡ bytes_eq a.now b.now }
{
    a.bytes.as_slice() == b.bytes.as_slice()
}
