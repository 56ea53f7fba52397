//! What a process's commands on its messages do.

ghost use Rattle.std.specs.Prelude.{◌≡◌, ◌<◌, ◌^◌, length, MatchResult, IfErr, IfOk, Ok, Err, Some, None};
ghost use Rattle.ch_model.specs.NodeCommands.{send_of, again_of, finish_of, fall_of, receive_of, take_port as take_port_of, open_port as open_port_of};
ghost use Rattle.ch_model.specs.Node.{node_make, node_shut, node_event};
ghost use Rattle.ch_model.specs.NodeActs.{stopping};
ghost use Rattle.ch_node.specs.Calls.{Fails, KeepsBut};

use crate::acts::{Outcome, noted};
use crate::room::fitting;
use crate::state::State;
use ch_base::{Event, Room, Text};
use ch_ident::{Message, Name, Reason, SendPortId};
use ch_model::{CommandError, Note};
use ch_static::Target;

impl State {
    /// A process sends a message.
    #[tactic(auto, unfolding(ch_model::specs::NodeCommands::send_of))]
    pub(crate) fn send(
        &mut self,
        by: u32,
        to: &Target,
        message: Message,
        room: Room,
    ) -> Result<Outcome, CommandError>
        ensures does { MatchResult result (λ acts. send_of self.old by to.now message room ≡ Ok (acts.items, self.new)) (λ e. Fails e (send_of self.old by to.now message room)) }
        ensures err { IfErr result (λ e. KeepsBut self.old self.new e) }
    {
        self.acting(by)?;
        self.known(to)?;
        fitting(to, &message)?;
        let pair = self.pairs.pair(by, to)?;
        self.room_to_send(&pair, room)?;
        Ok(self.say(pair, message)?)
    }

    /// A process takes the first message of a mark.
    #[tactic(auto, unfolding(ch_model::specs::NodeCommands::receive_of))]
    pub(crate) fn receive(&mut self, by: u32, mark: &Name) -> Result<Outcome, CommandError>
        ensures does { MatchResult result (λ acts. receive_of self.old by mark.now ≡ Ok (acts.items, self.new)) (λ e. Fails e (receive_of self.old by mark.now)) }
        ensures err { IfErr result (λ e. KeepsBut self.old self.new e) }
    {
        self.acting(by)?;
        let message = self.mail.take(by, mark)?;
        let by = self.id(by)?;
        Ok(noted(
            self.alloc(),
            Note::Took {
                by,
                port: None,
                message,
            },
        )?)
    }

    /// A process takes the first message of a port.
    #[tactic(auto, unfolding(ch_model::specs::NodeCommands::take_port))]
    pub(crate) fn take_port(&mut self, by: u32, port: u32) -> Result<Outcome, CommandError>
        ensures does { MatchResult result (λ acts. take_port_of self.old by port ≡ Ok (acts.items, self.new)) (λ e. Fails e (take_port_of self.old by port)) }
        ensures err { IfErr result (λ e. KeepsBut self.old self.new e) }
    {
        self.acting(by)?;
        let message = self.mail.take_port(by, port)?;
        let by = self.id(by)?;
        Ok(noted(
            self.alloc(),
            Note::Took {
                by,
                port: Some(port),
                message,
            },
        )?)
    }

    /// A process opens its next port.
    #[tactic(auto, unfolding(ch_model::specs::NodeCommands::open_port))]
    pub(crate) fn open_port(&mut self, by: u32) -> Result<Outcome, CommandError>
        ensures does { MatchResult result (λ acts. open_port_of self.old by ≡ Ok (acts.items, self.new)) (λ e. Fails e (open_port_of self.old by)) }
        ensures err { IfErr result (λ e. KeepsBut self.old self.new e) }
    {
        self.acting(by)?;
        let port = self.mail.open_port(by)?;
        let process = self.id(by)?;
        Ok(noted(
            self.alloc(),
            Note::Port {
                port: SendPortId { process, port },
            },
        )?)
    }

    /// A process reconnects to a target.
    #[tactic(auto, unfolding(ch_model::specs::NodeCommands::again_of))]
    pub(crate) fn again(&mut self, by: u32, to: &Target) -> Result<Outcome, CommandError>
        ensures does { MatchResult result (λ acts. again_of self.old by to.now ≡ Ok (acts.items, self.new)) (λ e. Fails e (again_of self.old by to.now)) }
        ensures err { IfErr result (λ e. KeepsBut self.old self.new e) }
    {
        self.acting(by)?;
        let pair = self.pairs.pair(by, to)?;
        Ok(self.reconnect(&pair)?)
    }

    /// A process is over by itself.
    #[tactic(auto, unfolding(ch_model::specs::NodeCommands::finish_of))]
    pub(crate) fn finish(&mut self, by: u32, reason: &Reason) -> Result<Outcome, CommandError>
        ensures does { MatchResult result (λ acts. finish_of self.old by reason.now ≡ Ok (acts.items, self.new)) (λ e. Fails e (finish_of self.old by reason.now)) }
        ensures err { IfErr result (λ e. KeepsBut self.old self.new e) }
    {
        self.acting(by)?;
        Ok(self.over(by, reason)?)
    }

    /// A doomed process is over, by what doomed it.
    #[tactic(auto, unfolding(ch_model::specs::NodeCommands::fall_of))]
    pub(crate) fn fall(&mut self, by: u32) -> Result<Outcome, CommandError>
        ensures does { MatchResult result (λ acts. fall_of self.old by ≡ Ok (acts.items, self.new)) (λ e. Fails e (fall_of self.old by)) }
        ensures err { IfErr result (λ e. KeepsBut self.old self.new e) }
    {
        let text = self.falling(by)?;
        Ok(self.over(by, &Reason::Exception(text))?)
    }

    /// A process is made that no spawn asked for, while the node isn't shut.
    #[tactic(auto, unfolding(ch_model::specs::Node::node_make))]
    pub(crate) fn make_asked(&mut self) -> Result<Outcome, CommandError>
        ensures does { MatchResult result (λ acts. node_make self.old ≡ Ok (acts.items, self.new)) (λ e. Fails e (node_make self.old)) }
        ensures err { IfErr result (λ e. KeepsBut self.old self.new e) }
    {
        if self.is_shut {
            return Err(CommandError::Dead);
        }
        Ok(self.make(None, Text::new(self.alloc()))?)
    }

    /// The node is shut, for good.
    #[tactic(auto, unfolding(ch_model::specs::Node::node_shut))]
    pub(crate) fn shut(&mut self) -> Result<Outcome, CommandError>
        ensures does { MatchResult result (λ acts. node_shut self.old ≡ Ok (acts.items, self.new)) (λ e. Fails e (node_shut self.old)) }
        ensures err { IfErr result (λ e. KeepsBut self.old self.new e) }
    {
        if self.is_shut {
            return Err(CommandError::Dead);
        }
        let node = self.own.copy()?;
        let acts = noted(self.alloc(), Note::Shut { node })?;
        self.is_shut = true;
        self.mail.shut();
        self.watches.shut();
        Ok(acts)
    }

    /// What a node makes of an event, where a stop is told as a refusal.
    pub(crate) fn event_told(&mut self, event: Event) -> Result<Outcome, CommandError>
        ensures does { MatchResult result (λ acts. stopping (node_event self.old event) ≡ Ok (acts.items, self.new)) (λ e. Fails e (stopping (node_event self.old event))) }
        ensures err { IfErr result (λ e. KeepsBut self.old self.new e) }
    {
        Ok(self.event(event)?)
    }
}
