//! Whether a process may act, and whether what its command sends finds room.

ghost use Rattle.std.specs.Prelude.{◌≡◌, ◌<◌, ◌^◌, length, IfOk, Ok, Err, Some, None};
ghost use Rattle.std.specs.Option.{option_copied};
ghost use Rattle.ch_model.specs.NodeRoom.{acting as acting_of, falling as falling_of, is_known as is_known_of, known as known_of, fitting as fitting_of, not_full as not_full_of, opened_besides as opened_besides_of, not_spent as not_spent_of, room_to_send as room_to_send_of};
ghost use Rattle.ch_model.specs.NodeSends.{payload_of};
ghost use Rattle.ch_node.specs.Calls.{Gives};

use crate::ids::target_at;
use crate::kept::{Pair, Stage};
use crate::sends::payload;
use crate::state::State;
use ch_base::{Address, Room, Text};
use ch_ident::Message;
use ch_mail::Life;
use ch_model::CommandError;
use ch_static::Target;
use ch_wire::MOST_PAYLOAD_BYTES;

/// How many counted payloads may wait for a link.
const MOST_WAITING: u32 = 4096;

/// How many connections may be opened on a socket, besides the one from node to node.
const MOST_OPENED: u32 = 65_535;

/// A message's payload fits in one frame.
#[tactic(auto, unfolding(ch_model::specs::NodeRoom::fitting))]
pub(crate) fn fitting(to: &Target, message: &Message) -> Result<(), CommandError>
    ensures exact { Gives (λ _. tt) result (fitting_of (payload_of to.now message.now)) }
    ensures small { IfOk result (λ _. length message.now.body < 2 ^ 32) }
{
    if message.body.len() > MOST_PAYLOAD_BYTES as usize {
        return Err(CommandError::Long);
    }
    let spelled = payload(to, message)?;
    if spelled.len() > MOST_PAYLOAD_BYTES as usize {
        return Err(CommandError::Long);
    }
    Ok(())
}

impl State {
    /// The process was made, and acts.
    #[tactic(auto, unfolding(ch_model::specs::NodeRoom::acting))]
    pub(crate) fn acting(&self, by: u32) -> Result<(), CommandError>
        ensures { Gives (λ _. tt) result (acting_of self.now by) }
    {
        match self.mail.life(by) {
            None => Err(CommandError::Unknown),
            Some(life) => match life {
                Life::Live => Ok(()),
                Life::Doomed(_) => Err(CommandError::Dead),
                Life::Over(_) => Err(CommandError::Dead),
            },
        }
    }

    /// The text by which the process may fall.
    #[tactic(auto, unfolding(ch_model::specs::NodeRoom::falling))]
    pub(crate) fn falling(&self, by: u32) -> Result<Text, CommandError>
        ensures { Gives (λ text. text) result (falling_of self.now by) }
    {
        match self.mail.life(by) {
            None => Err(CommandError::Unknown),
            Some(life) => match life {
                Life::Live => Err(CommandError::Hale),
                Life::Doomed(text) => Ok(text.copy()?),
                Life::Over(_) => Err(CommandError::Dead),
            },
        }
    }

    #[tactic(auto, unfolding(ch_model::specs::NodeRoom::is_known))]
    fn is_known(&self, to: &Target) -> bool
        ensures { result ≡ is_known_of self.now to.now }
    {
        match to {
            Target::Process(process) => {
                !self.is_here(&process.node) || self.life_here(process).is_some()
            }
            Target::Port(port) => !self.is_here(&port.process.node) || self.is_port_here(port),
            Target::Named { .. } => true,
        }
    }

    /// What is sent to may be there.
    #[tactic(auto, unfolding(ch_model::specs::NodeRoom::known))]
    pub(crate) fn known(&self, to: &Target) -> Result<(), CommandError>
        ensures { Gives (λ _. tt) result (known_of self.now to.now) }
    {
        if self.is_known(to) {
            Ok(())
        } else {
            Err(CommandError::Unknown)
        }
    }

    /// The link is up, or one more payload may wait for it.
    #[tactic(auto, unfolding(ch_model::specs::NodeRoom::not_full))]
    pub(crate) fn not_full(&self, at: &Address, room: Room) -> Result<(), CommandError>
        ensures { Gives (λ _. tt) result (not_full_of self.now at.now room) }
    {
        if self.is_here(at) || room.up || room.waits < MOST_WAITING {
            Ok(())
        } else {
            Err(CommandError::Full)
        }
    }

    /// How many connections were opened on the socket to a peer, besides the node's own.
    #[tactic(auto, unfolding(ch_model::specs::NodeRoom::opened_besides))]
    fn opened_besides(&self, peer: &Address, room: Room) -> u32
        ensures { result ≡ opened_besides_of self.now peer.now room }
    {
        if self.conn_to(peer).is_some() {
            room.given.saturating_sub(1)
        } else {
            room.given
        }
    }

    /// A connection that has to be opened can be.
    #[tactic(auto, unfolding(ch_model::specs::NodeRoom::not_spent))]
    fn not_spent(&self, pair: &Pair, room: Room) -> Result<(), CommandError>
        ensures { Gives (λ _. tt) result (not_spent_of self.now pair.now room) }
    {
        match pair.stage {
            Stage::Unopened => {
                if self.opened_besides(target_at(&pair.to), room) >= MOST_OPENED {
                    Err(CommandError::Spent)
                } else {
                    Ok(())
                }
            }
            Stage::Opened { .. } => Ok(()),
            Stage::Broken => Ok(()),
        }
    }

    /// A message to another node finds room.
    #[tactic(auto, unfolding(ch_model::specs::NodeRoom::room_to_send))]
    pub(crate) fn room_to_send(&self, pair: &Pair, room: Room) -> Result<(), CommandError>
        ensures { Gives (λ _. tt) result (room_to_send_of self.now pair.now room) }
    {
        if self.is_here(target_at(&pair.to)) || pair.is_broken() {
            return Ok(());
        }
        self.not_full(target_at(&pair.to), room)?;
        self.not_spent(pair, room)
    }
}
