//! How a message is said, how it goes on its way, and how it is got.

ghost use Rattle.std.specs.Prelude.{◌≡◌, ◌<◌, ◌^◌, ◌∷◌, [], length, MatchResult, IfOk, Ok, Err, Some, None};
ghost use Rattle.ch_model.specs.NodeSends.{got_put, get as get_of, get_standing as get_standing_of, deliver as deliver_of, payload_of, weight_of as weight_of_place, send_first as send_first_of, send_on as send_on_of, carry as carry_of, say as say_of, reconnect as reconnect_of};
ghost use Rattle.ch_model.specs.NodeAsks.{standing as standing_of};
ghost use Rattle.ch_ident.specs.Spelling.{message as spelling, user};
ghost use Rattle.ch_model.specs.declared.act.Act.TheVariants.{Note as NoteAct};
ghost use Rattle.ch_model.specs.declared.note.Note.TheVariants.{Said, Got};
ghost use Rattle.ch_model.specs.NodeIds.{process_id};
ghost use Rattle.ch_node.specs.Calls.{Halts};

use crate::acts::{Outcome, joined, noted, opening, put};
use crate::halt::Halt;
use crate::ids::{opened_to, target_at};
use crate::kept::{Pair, Stage};
use crate::state::{State, growing};
use ch_base::{OutOfMemory, Text};
use ch_ident::{Identifier, Message, Name, NodeMessage, ProcessId, put_message, put_user};
use ch_mail::MailError;
use ch_model::{Act, Note, Place, Weight};
use ch_static::Target;

/// The payload of a message: with its name, where it goes to one.
pub(crate) fn payload(to: &Target, message: &Message) -> Result<Text, OutOfMemory>
    requires { length message.now.body < 2 ^ 32 }
    ensures { IfOk result (λ text. text ≡ payload_of to.now message.now) }
{
    let mut spelled = Vec::new(message.body.allocator());
    match to {
        Target::Process(_) => put_user(message, &mut spelled)?,
        Target::Port(_) => put_user(message, &mut spelled)?,
        Target::Named { name, .. } => {
            let named = NodeMessage::NamedSend {
                name: name.copy()?,
                mark: message.mark.copy()?,
                body: message.body.copy()?,
            };
            put_message(&named, &mut spelled)?;
        }
    }
    Ok(Text::from_vec(spelled))
}

/// How a said message waits for its link.
fn weight_of(epoch: u64, index: u64) -> Weight
    ensures { result ≡ weight_of_place epoch index }
{
    Weight::Counted {
        said: Some(Place { epoch, index }),
    }
}

impl State {
    fn got(
        &self,
        from: &ProcessId,
        to: &Target,
        receiver: Option<ProcessId>,
    ) -> Result<Outcome, OutOfMemory>
        ensures { IfOk result (λ acts. acts.items ≡ NoteAct (Got from.now to.now receiver) ∷ []) }
    {
        noted(
            self.alloc(),
            Note::Got {
                by: from.copy()?,
                to: to.copy()?,
                receiver,
            },
        )
    }

    /// A process of this node gets a message, in its mailbox or in a port.
    #[tactic(auto, unfolding(ch_model::specs::NodeSends::get))]
    fn get(
        &mut self,
        from: &ProcessId,
        to: &Target,
        receiver: &ProcessId,
        port: Option<u32>,
        message: Message,
    ) -> Result<Outcome, Halt>
        ensures { MatchResult result (λ acts. get_of self.old from.now to.now receiver.now port message ≡ Ok (acts.items, self.new)) (λ e. Halts e (get_of self.old from.now to.now receiver.now port message)) }
    {
        match self.mail.put(receiver.counter, port, message) {
            Ok(()) => Ok(self.got(from, to, Some(receiver.copy()?))?),
            Err(MailError::NotLive) => Ok(Vec::new(self.alloc())),
            Err(MailError::Empty) => Ok(Vec::new(self.alloc())),
            Err(MailError::OutOfMemory) => Err(Halt::OutOfMemory),
            Err(MailError::Worn) => Err(Halt::Worn),
        }
    }

    /// The process for which a name of the node stands.
    #[tactic(auto, unfolding(ch_model::specs::NodeAsks::standing))]
    pub(crate) fn standing(&self, name: &Name) -> Result<Option<ProcessId>, OutOfMemory>
        ensures { IfOk result (λ process. process ≡ standing_of self.now name.now) }
    {
        match self.watches.find(name) {
            None => Ok(None),
            Some(counter) => Ok(Some(self.id(counter)?)),
        }
    }

    /// Whoever stands for the name gets the message, and else nobody.
    fn get_standing(
        &mut self,
        from: &ProcessId,
        to: &Target,
        name: &Name,
        message: Message,
    ) -> Result<Outcome, Halt>
        ensures { MatchResult result (λ acts. get_standing_of self.old from.now to.now message (standing_of self.old name.now) ≡ Ok (acts.items, self.new)) (λ e. Halts e (get_standing_of self.old from.now to.now message (standing_of self.old name.now))) }
    {
        match self.standing(name)? {
            None => Ok(self.got(from, to, None)?),
            Some(receiver) => self.get(from, to, &receiver, None, message),
        }
    }

    /// A message is got at its target, which is of this node.
    #[tactic(auto, unfolding(ch_model::specs::NodeSends::deliver))]
    pub(crate) fn deliver(
        &mut self,
        from: &ProcessId,
        to: &Target,
        message: Message,
    ) -> Result<Outcome, Halt>
        ensures { MatchResult result (λ acts. deliver_of self.old from.now to.now message ≡ Ok (acts.items, self.new)) (λ e. Halts e (deliver_of self.old from.now to.now message)) }
    {
        match to {
            Target::Process(process) => self.get(from, to, process, None, message),
            Target::Port(port) => self.get(from, to, &port.process, Some(port.port), message),
            Target::Named { name, .. } => self.get_standing(from, to, name, message),
        }
    }

    /// The first message of a pair's epoch opens its connection.
    #[tactic(auto, unfolding(ch_model::specs::NodeSends::send_first))]
    fn send_first(
        &mut self,
        pair: &Pair,
        message: &Message,
        weight: Weight,
    ) -> Result<Outcome, Halt>
        requires { length message.now.body < 2 ^ 32 }
        ensures { MatchResult result (λ acts. send_first_of self.old pair.now message.now weight ≡ Ok (acts.items, self.new)) (λ e. Halts e (send_first_of self.old pair.now message.now weight)) }
    {
        let conn = self.drawn()?;
        let from = Identifier::Process(self.id(pair.by)?);
        let acts = opening(conn, target_at(&pair.to), from, opened_to(&pair.to)?)?;
        let sent = put(conn, payload(&pair.to, message)?, weight)?;
        let mut kept = pair.copy()?;
        kept.stage = Stage::Opened { conn };
        self.pairs.set(kept)?;
        self.opened += 1;
        Ok(joined(acts, sent)?)
    }

    /// A message to another node goes on its pair's connection, and nowhere where that broke.
    fn send_on(&mut self, pair: &Pair, message: &Message, weight: Weight) -> Result<Outcome, Halt>
        requires { length message.now.body < 2 ^ 32 }
        ensures { MatchResult result (λ acts. send_on_of self.old pair.now message.now weight pair.now.mark ≡ Ok (acts.items, self.new)) (λ e. Halts e (send_on_of self.old pair.now message.now weight pair.now.mark)) }
    {
        match pair.stage {
            Stage::Unopened => self.send_first(pair, message, weight),
            Stage::Opened { conn } => Ok(put(conn, payload(&pair.to, message)?, weight)?),
            Stage::Broken => Ok(Vec::new(self.alloc())),
        }
    }

    /// A said message goes on its way.
    #[tactic(auto, unfolding(ch_model::specs::NodeSends::carry))]
    fn carry(&mut self, pair: &Pair, message: Message, weight: Weight) -> Result<Outcome, Halt>
        requires { length message.body < 2 ^ 32 }
        ensures { MatchResult result (λ acts. carry_of self.old pair.now message weight ≡ Ok (acts.items, self.new)) (λ e. Halts e (carry_of self.old pair.now message weight)) }
    {
        if self.is_here(target_at(&pair.to)) {
            let from = self.id(pair.by)?;
            self.deliver(&from, &pair.to, message)
        } else {
            self.send_on(pair, &message, weight)
        }
    }

    fn said(&self, pair: &Pair, index: u64, message: &Message) -> Result<Outcome, OutOfMemory>
        ensures { IfOk result (λ acts. acts.items ≡ NoteAct (Said (process_id self.now pair.now.by) pair.now.to pair.now.epoch index message.now) ∷ []) }
    {
        noted(
            self.alloc(),
            Note::Said {
                by: self.id(pair.by)?,
                to: pair.to.copy()?,
                epoch: pair.epoch,
                index,
                message: message.copy()?,
            },
        )
    }

    /// A message is said as the next of its pair and epoch, and goes on its way.
    #[tactic(auto, unfolding(ch_model::specs::NodeSends::say))]
    pub(crate) fn say(&mut self, pair: Pair, message: Message) -> Result<Outcome, Halt>
        requires { length message.body < 2 ^ 32 }
        ensures { MatchResult result (λ acts. say_of self.old pair message ≡ Ok (acts.items, self.new)) (λ e. Halts e (say_of self.old pair message)) }
    {
        let index = growing(pair.index)?;
        let acts = self.said(&pair, index, &message)?;
        let mut next = pair;
        next.index = index + 1;
        self.pairs.set(next.copy()?)?;
        let weight = weight_of(next.epoch, index);
        let carried = self.carry(&next, message, weight)?;
        Ok(joined(acts, carried)?)
    }

    /// The pair's next epoch begins, and its connection is closed.
    #[tactic(auto, unfolding(ch_model::specs::NodeSends::reconnect))]
    pub(crate) fn reconnect(&mut self, pair: &Pair) -> Result<Outcome, Halt>
        ensures { MatchResult result (λ acts. reconnect_of self.old pair.now ≡ Ok (acts.items, self.new)) (λ e. Halts e (reconnect_of self.old pair.now)) }
    {
        let next = pair.next_epoch()?;
        let by = self.id(pair.by)?;
        let to = pair.to.copy()?;
        let epoch = next.epoch;
        let mut acts = noted(self.alloc(), Note::Again { by, to, epoch })?;
        self.pairs.set(next)?;
        match pair.stage {
            Stage::Opened { conn } => acts.push(Act::Close { conn })?,
            Stage::Unopened => {}
            Stage::Broken => {}
        }
        Ok(acts)
    }
}
