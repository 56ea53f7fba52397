//! When two addresses, processes, ports or targets are one.

ghost use Rattle.std.specs.Prelude.{◌≡◌};
ghost use Rattle.ch_watch.specs.Same.{same_node as same_node_of, node_of as node_of_identifier};
ghost use Rattle.ch_model.specs.NodePairs.{same_process as same_process_of, same_port as same_port_of, same_target as same_target_of};

use ch_base::Address;
use ch_ident::{Identifier, ProcessId, SendPortId};
use ch_static::Target;

#[tactic(auto, unfolding(ch_watch::specs::Same::same_node))]
pub(crate) fn same_node(a: &Address, b: &Address) -> bool
    ensures { result ≡ same_node_of a.now b.now }
{
    a.host.as_slice() == b.host.as_slice() && a.port == b.port && a.id == b.id
}

#[tactic(auto, unfolding(ch_model::specs::NodePairs::same_process))]
pub(crate) fn same_process(a: &ProcessId, b: &ProcessId) -> bool
    ensures { result ≡ same_process_of a.now b.now }
{
    same_node(&a.node, &b.node) && a.unique == b.unique && a.counter == b.counter
}

#[tactic(auto, unfolding(ch_model::specs::NodePairs::same_port))]
fn same_port(a: &SendPortId, b: &SendPortId) -> bool
    ensures { result ≡ same_port_of a.now b.now }
{
    same_process(&a.process, &b.process) && a.port == b.port
}

/// Whether two targets are one.
#[tactic(auto, unfolding(ch_model::specs::NodePairs::same_target))]
pub(crate) fn same_target(a: &Target, b: &Target) -> bool
    ensures { result ≡ same_target_of a.now b.now }
{
    match a {
        Target::Process(a) => match b {
            Target::Process(b) => same_process(a, b),
            _ => false,
        },
        Target::Port(a) => match b {
            Target::Port(b) => same_port(a, b),
            _ => false,
        },
        Target::Named { at, name } => match b {
            Target::Named {
                at: other,
                name: word,
            } => same_node(at, other) && name.bytes.as_slice() == word.bytes.as_slice(),
            _ => false,
        },
    }
}

/// The node at which an identifier is.
#[tactic(auto, unfolding(ch_watch::specs::Same::node_of))]
pub(crate) fn node_of(identifier: &Identifier) -> &Address
    ensures { result.now ≡ node_of_identifier identifier.now }
{
    match identifier {
        Identifier::Node(node) => node,
        Identifier::Process(process) => &process.node,
        Identifier::Port(port) => &port.process.node,
    }
}
