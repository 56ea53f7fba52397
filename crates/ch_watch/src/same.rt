//! When two addresses or two references are one.

ghost use Rattle.std.specs.Prelude.{◌≡◌};
ghost use Rattle.ch_watch.specs.Same.{same_node as same_node_of, same_ref as same_ref_of, node_of as node_of_identifier};

use ch_base::Address;
use ch_ident::{Identifier, Ref};

#[tactic(auto, unfolding(crate::specs::Same::same_node))]
pub fn same_node(a: &Address, b: &Address) -> bool
    ensures { result ≡ same_node_of a.now b.now }
{
    a.host.as_slice() == b.host.as_slice() && a.port == b.port && a.id == b.id
}

#[tactic(auto, unfolding(crate::specs::Same::same_ref))]
pub fn same_ref(a: &Ref, b: &Ref) -> bool
    ensures { result ≡ same_ref_of a.now b.now }
{
    same_node(&a.node, &b.node) && a.number == b.number
}

/// The node at which an identifier is.
#[tactic(auto, unfolding(crate::specs::Same::node_of))]
pub fn node_of(identifier: &Identifier) -> &Address
    ensures { result.now ≡ node_of_identifier identifier.now }
{
    match identifier {
        Identifier::Node(node) => node,
        Identifier::Process(process) => &process.node,
        Identifier::Port(port) => &port.process.node,
    }
}
