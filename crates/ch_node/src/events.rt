//! What a node makes of an event of its endpoint, and how a failed link with a peer leaves it.

ghost use Rattle.std.specs.Prelude.{◌≡◌, not, filter, MatchResult, Ok};
ghost use Rattle.ch_watch.specs.Same.{same_node as same_node_of};
ghost use Rattle.ch_model.specs.NodeActs.{each_in_turn};
ghost use Rattle.ch_model.specs.NodeArrivals.{lost_told as lost_told_of, peer_lost as peer_lost_of};
ghost use Rattle.ch_model.specs.Node.{node_event};
ghost use Rattle.ch_node.specs.Calls.{Halts};

use crate::acts::Outcome;
use crate::halt::Halt;
use crate::lives::reason_of;
use crate::same::same_node;
use crate::state::State;
use ch_base::{Address, Event, Why};
use ch_watch::Waiting;

/// The connection to a peer's node is forgotten.
fn drop_node(to_nodes: &mut Vec<(Address, u64)>, peer: &Address)
    ensures { to_nodes.new.items ≡ filter (λ known. not (same_node_of known.0 peer.now)) to_nodes.old.items }
{
    to_nodes.retain(|known| !same_node(&known.0, peer));
}

impl State {
    /// A number whose target is beyond a failed link is closed; a watch is told.
    #[tactic(auto, unfolding(ch_model::specs::NodeArrivals::lost_told))]
    fn lost_told(&mut self, why: Why, waiting: &Waiting) -> Result<Outcome, Halt>
        ensures { MatchResult result (λ acts. lost_told_of why waiting.now self.old ≡ Ok (acts.items, self.new)) (λ e. Halts e (lost_told_of why waiting.now self.old)) }
    {
        let watch = self.reference(waiting.number)?;
        self.told_as(waiting.kind, &watch, &reason_of(why), waiting.owner)
    }

    /// These are told, in order.
    fn lost_all_told(&mut self, why: Why, lost: &[Waiting]) -> Result<Outcome, Halt>
        ensures { MatchResult result (λ acts. each_in_turn (lost_told_of why) lost.now self.old ≡ Ok (acts.items, self.new)) (λ e. Halts e (each_in_turn (lost_told_of why) lost.now self.old)) }
    {
        let mut acts = Vec::new(self.alloc());
        for waiting in lost {
            let mut told = self.lost_told(why, waiting)?;
            acts.append(&mut told)?;
        }
        Ok(acts)
    }

    /// The link with a peer failed.
    #[tactic(auto, unfolding(ch_model::specs::NodeArrivals::peer_lost))]
    fn peer_lost(&mut self, peer: &Address, why: Why) -> Result<Outcome, Halt>
        ensures { MatchResult result (λ acts. peer_lost_of self.old peer.now why ≡ Ok (acts.items, self.new)) (λ e. Halts e (peer_lost_of self.old peer.now why)) }
    {
        self.pairs.lose(peer)?;
        let lost = self.watches.lost(peer)?;
        drop_node(&mut self.to_nodes, peer);
        self.arrived.drop_peer(peer);
        self.lost_all_told(why, &lost)
    }

    /// What a node makes of an event of its endpoint.
    #[tactic(auto, unfolding(ch_model::specs::Node::node_event))]
    pub(crate) fn event(&mut self, event: Event) -> Result<Outcome, Halt>
        ensures { MatchResult result (λ acts. node_event self.old event ≡ Ok (acts.items, self.new)) (λ e. Halts e (node_event self.old event)) }
    {
        match event {
            Event::ConnectionOpened { conn, peer } => {
                self.arrives(conn, peer)?;
                Ok(Vec::new(self.alloc()))
            }
            Event::Received { conn, payload } => self.received(conn, payload.as_slice()),
            Event::ConnectionClosed { conn } => {
                self.departs(conn);
                Ok(Vec::new(self.alloc()))
            }
            Event::EndPointClosed => Ok(Vec::new(self.alloc())),
            Event::ConnectionLost { peer, why } => self.peer_lost(&peer, why),
        }
    }
}
