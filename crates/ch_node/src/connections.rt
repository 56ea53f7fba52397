//! The connections that a node opens.

ghost use Rattle.std.specs.Prelude.{◌≡◌, ◌+◌, ◌<◌, ◌^◌, MatchResult, IfOk, Ok, Err, Some, None};
ghost use Rattle.ch_model.specs.NodeConnections.{drawn as drawn_of, conn_to as conn_to_of, tell_first as tell_first_of, tell_node as tell_node_of};
ghost use Rattle.ch_node.specs.Calls.{Halts};

use crate::acts::{Outcome, joined, opening, put};
use crate::halt::Halt;
use crate::same::same_node;
use crate::spelled::spelled;
use crate::state::State;
use ch_base::Address;
use ch_ident::{Identifier, NodeMessage};
use ch_model::Weight;

impl State {
    /// The number of the next connection.
    #[tactic(auto, unfolding(ch_model::specs::NodeConnections::drawn))]
    pub(crate) fn drawn(&self) -> Result<u64, Halt>
        ensures is { MatchResult result (λ conn. drawn_of self.now ≡ Ok conn) (λ e. Halts e (drawn_of self.now)) }
        ensures small { IfOk result (λ conn. self.now.opened + 1 < 2 ^ 64) }
    {
        if self.opened <= u64::MAX / 2 {
            Ok(2 * self.opened)
        } else {
            Err(Halt::Worn)
        }
    }

    /// The node's own connection to another, where it has one.
    #[tactic(auto, unfolding(ch_model::specs::NodeConnections::conn_to))]
    pub(crate) fn conn_to(&self, peer: &Address) -> Option<u64>
        ensures { result ≡ conn_to_of self.now peer.now }
    {
        match self.to_nodes.iter().find(|known| same_node(&known.0, peer)) {
            None => None,
            Some(known) => Some(known.1),
        }
    }

    /// The node's own connection to another is opened, and a message sent on it.
    #[tactic(auto, unfolding(ch_model::specs::NodeConnections::tell_first))]
    fn tell_first(
        &mut self,
        peer: &Address,
        said: &NodeMessage,
        weight: Weight,
    ) -> Result<Outcome, Halt>
        ensures { MatchResult result (λ acts. tell_first_of self.old peer.now said.now weight ≡ Ok (acts.items, self.new)) (λ e. Halts e (tell_first_of self.old peer.now said.now weight)) }
    {
        let conn = self.drawn()?;
        let from = Identifier::Node(self.own.copy()?);
        let acts = opening(conn, peer, from, Identifier::Node(peer.copy()?))?;
        let sent = put(conn, spelled(self.alloc(), said)?, weight)?;
        self.to_nodes.push((peer.copy()?, conn))?;
        self.opened += 1;
        Ok(joined(acts, sent)?)
    }

    /// A node sends a message to another, on a connection that it opens for the first of them.
    #[tactic(auto, unfolding(ch_model::specs::NodeConnections::tell_node))]
    pub(crate) fn tell_node(
        &mut self,
        peer: &Address,
        said: &NodeMessage,
        weight: Weight,
    ) -> Result<Outcome, Halt>
        ensures { MatchResult result (λ acts. tell_node_of self.old peer.now said.now weight ≡ Ok (acts.items, self.new)) (λ e. Halts e (tell_node_of self.old peer.now said.now weight)) }
    {
        match self.conn_to(peer) {
            None => self.tell_first(peer, said, weight),
            Some(conn) => Ok(put(conn, spelled(self.alloc(), said)?, weight)?),
        }
    }
}
