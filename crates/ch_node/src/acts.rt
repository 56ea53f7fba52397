//! Acts in order.

ghost use Rattle.std.specs.Prelude.{◌≡◌, ◌++◌, ◌∷◌, [], IfOk};
ghost use Rattle.ch_model.specs.declared.act.Act.TheVariants.{Note as NoteAct, Put as PutAct};
ghost use Rattle.ch_ident.specs.declared.node_message.NodeMessage.TheVariants.{Opening};
ghost use Rattle.ch_ident.specs.Spelling.{message};
ghost use Rattle.ch_model.specs.NodeConnections.{opening as opening_of};

use ch_base::{Address, OutOfMemory, Text};
use ch_ident::{Identifier, NodeMessage, put_message};
use ch_model::{Act, Note, Weight};
use std::alloc::Global;

/// What a call did, in order.
pub type Outcome = Vec<Act>;

/// One thing is told.
pub(crate) fn noted(alloc: Global, note: Note) -> Result<Outcome, OutOfMemory>
    ensures { IfOk result (λ acts. acts.items ≡ NoteAct note ∷ []) }
{
    let mut acts = Vec::new(alloc);
    acts.push(Act::Note(note))?;
    Ok(acts)
}

/// These acts, and then those.
pub(crate) fn joined(first: Outcome, next: Outcome) -> Result<Outcome, OutOfMemory>
    ensures { IfOk result (λ acts. acts.items ≡ first.items ++ next.items) }
{
    let mut acts = first;
    let mut last = next;
    acts.append(&mut last)?;
    Ok(acts)
}

/// The one spelling of the message that opens a connection.
fn spelled_opening(from: Identifier, to: Identifier, alloc: Global) -> Result<Text, OutOfMemory>
    ensures { IfOk result (λ text. text ≡ message (Opening from to)) }
{
    let mut payload = Vec::new(alloc);
    put_message(&NodeMessage::Opening { from, to }, &mut payload)?;
    Ok(Text::from_vec(payload))
}

/// A connection is opened, and told who sends on it and to whom.
#[tactic(auto, unfolding(ch_model::specs::NodeConnections::opening))]
pub(crate) fn opening(
    conn: u64,
    peer: &Address,
    from: Identifier,
    to: Identifier,
) -> Result<Outcome, OutOfMemory>
    ensures { IfOk result (λ acts. acts.items ≡ opening_of conn peer.now from to) }
{
    let alloc = peer.host.allocator();
    let payload = spelled_opening(from, to, alloc)?;
    let mut acts = Vec::new(alloc);
    acts.push(Act::Open {
        conn,
        peer: peer.copy()?,
    })?;
    acts.push(Act::Put {
        conn,
        payload,
        weight: Weight::Free,
    })?;
    Ok(acts)
}

/// A payload is sent on a connection.
pub(crate) fn put(conn: u64, payload: Text, weight: Weight) -> Result<Outcome, OutOfMemory>
    ensures { IfOk result (λ acts. acts.items ≡ PutAct conn payload weight ∷ []) }
{
    let mut acts = Vec::new(payload.allocator());
    acts.push(Act::Put {
        conn,
        payload,
        weight,
    })?;
    Ok(acts)
}
