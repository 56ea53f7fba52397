//! The world that declarations make.

ghost use Rattle.std.specs.Prelude.{◌≡◌, ◌++◌, ◌∷◌, [], map, filter, None, IfOk, OnOk};
ghost use Rattle.std.specs.List.{flat_map, list_any};
ghost use Rattle.std.specs.Str.{bytes_eq};
ghost use Rattle.ch_cell.specs.New.{AreOf, named};
ghost use Rattle.ch_model.specs.World.{name_in, stranger_in, label_in, names_of, labels_of, nodes_of, same_host as same_host_of, first_of_hosts, world_new};
ghost use Rattle.ch_world.specs.Declaring.{first_added, opening_of, openings_at, cell_among, cells_among};

use crate::hosted::Hosted;
use crate::realm::{Realm, Stranger};
use ch_base::{Address, OutOfMemory, Text};
use ch_cell::{Opening, Site};
use ch_ident::Name;
use ch_model::{Declared, Line, What};
use ch_names::Names;
use ch_sockets::Sockets;
use ch_static::Table;
use std::alloc::Global;
use std::marker::Model;

/// A node that is declared. Contracts see its name with what that stands for.
#[derive(Debug, Drop)]
struct Node {
    name: Text,
    address: Address,
    unique: u32,
}

impl Model for Node {
    ghost use Rattle.std.specs.Prelude.{true};
    ghost use Rattle.ch_model.specs.WorldState.{Named};

    ghost Value = { Named };

    ghost view = { λ n. record { name = n.name; address = n.address; unique = n.unique; is_node = true } };
}

/// The name that a line declares comes after the others.
fn add_name(names: &mut Names, what: &What) -> Result<(), OutOfMemory>
    ensures { OnOk result (names.new ≡ names.old ++ name_in what.now) }
{
    match what {
        What::Node {
            name,
            address,
            unique,
        } => names.add(name.copy()?, address.copy()?, *unique, true),
        What::Away {
            name,
            address,
            unique,
        } => names.add(name.copy()?, address.copy()?, *unique, false),
        _ => Ok(()),
    }
}

/// The names that lines declare, in order.
fn names(alloc: Global, lines: &[Line]) -> Result<Names, OutOfMemory>
    ensures { IfOk result (λ names. names ≡ names_of lines.now) }
{
    let mut names = Names::new(alloc);
    for line in lines {
        add_name(&mut names, &line.what)?;
    }
    Ok(names)
}

/// The stranger that a line declares comes after the others.
fn add_stranger(strangers: &mut Vec<Stranger>, what: &What) -> Result<(), OutOfMemory>
    ensures { OnOk result (strangers.new.items ≡ strangers.old.items ++ stranger_in what.now) }
{
    match what {
        What::Stranger { name, host } => {
            strangers.push(Stranger {
                name: name.copy()?,
                host: host.copy()?,
            })?;
            Ok(())
        }
        _ => Ok(()),
    }
}

/// The strangers that lines declare, in order.
fn strangers(alloc: Global, lines: &[Line]) -> Result<Vec<Stranger>, OutOfMemory>
    ensures { IfOk result (λ strangers. strangers.items ≡ flat_map (λ line. stranger_in line.what) lines.now) }
{
    let mut strangers = Vec::new(alloc);
    for line in lines {
        add_stranger(&mut strangers, &line.what)?;
    }
    Ok(strangers)
}

/// The node that a line declares comes after the others.
fn add_node(nodes: &mut Vec<Node>, what: &What) -> Result<(), OutOfMemory>
    ensures { OnOk result (nodes.new.items ≡ nodes.old.items ++ filter (λ named. named.is_node) (name_in what.now)) }
{
    match what {
        What::Node {
            name,
            address,
            unique,
        } => {
            nodes.push(Node {
                name: name.copy()?,
                address: address.copy()?,
                unique: *unique,
            })?;
            Ok(())
        }
        _ => Ok(()),
    }
}

/// The nodes that lines declare, in order.
fn nodes(alloc: Global, lines: &[Line]) -> Result<Vec<Node>, OutOfMemory>
    ensures { IfOk result (λ nodes. nodes.items ≡ nodes_of lines.now) }
{
    let mut nodes = Vec::new(alloc);
    for line in lines {
        add_node(&mut nodes, &line.what)?;
    }
    Ok(nodes)
}

fn is_same(a: &Text, b: &Text) -> bool
    ensures { result ≡ bytes_eq a.now b.now }
{
    a.as_slice() == b.as_slice()
}

/// A label comes after the others. One that is there already is refused.
#[tactic(auto, unfolding(ch_static::specs::Labels::add_of))]
fn add_new(labels: &mut Table, label: &Name) -> Result<(), OutOfMemory>
    ensures { OnOk result (labels.new ≡ labels.old ++ label.now ∷ []) }
{
    if labels.add(label)? {
        Ok(())
    } else {
        Err(OutOfMemory)
    }
}

/// The label that a line gives a node comes after the others.
fn add_label(labels: &mut Table, node: &Text, what: &What) -> Result<(), OutOfMemory>
    ensures { OnOk result (labels.new ≡ labels.old ++ label_in node.now what.now) }
{
    match what {
        What::Label { node: own, label } => {
            if is_same(own, node) {
                add_new(labels, label)
            } else {
                Ok(())
            }
        }
        _ => Ok(()),
    }
}

/// The labels that lines give a node, in order.
fn labels(alloc: Global, lines: &[Line], node: &Text) -> Result<Table, OutOfMemory>
    ensures { IfOk result (λ labels. labels ≡ labels_of lines.now node.now) }
{
    let mut labels = Table::new(alloc);
    for line in lines {
        add_label(&mut labels, node, &line.what)?;
    }
    Ok(labels)
}

/// Whether two addresses are at one host and port.
fn same_host(a: &Address, b: &Address) -> bool
    ensures { result ≡ same_host_of a.now b.now }
{
    a.host.as_slice() == b.host.as_slice() && a.port == b.port
}

/// Whether one of these addresses is at the host and port of this one.
fn has_host(known: &[Address], address: &Address) -> bool
    ensures { result ≡ list_any (same_host_of address.now) known.now }
{
    known.iter().any(|own| same_host(address, own))
}

/// An address comes after the others, where none of them is at its host and port.
fn add_first(firsts: &mut Vec<Address>, address: &Address) -> Result<(), OutOfMemory>
    ensures { OnOk result (firsts.new.items ≡ first_added firsts.old.items address.now) }
{
    if has_host(firsts.as_slice(), address) {
        return Ok(());
    }
    firsts.push(address.copy()?)?;
    Ok(())
}

/// The host texts of nodes, from which each host takes peers.
fn circle(alloc: Global, nodes: &[Node]) -> Result<Vec<Text>, OutOfMemory>
    ensures { IfOk result (λ hosts. hosts.items ≡ map (λ node. node.address.host) nodes.now) }
{
    let mut hosts = Vec::new(alloc);
    for node in nodes {
        hosts.push(node.address.host.copy()?)?;
    }
    Ok(hosts)
}

/// One address of each host and port, that which is declared first, in order.
#[tactic(auto, using(crate::proofs::Declares::firsts_are))]
fn firsts(alloc: Global, nodes: &[Node]) -> Result<Vec<Address>, OutOfMemory>
    ensures { IfOk result (λ firsts. firsts.items ≡ first_of_hosts [] nodes.now) }
{
    let mut firsts = Vec::new(alloc);
    for node in nodes {
        add_first(&mut firsts, &node.address)?;
    }
    Ok(firsts)
}

/// A node as its host takes it.
fn opening(alloc: Global, lines: &[Line], node: &Node) -> Result<Opening, OutOfMemory>
    ensures own { IfOk result (λ opening. opening.own ≡ node.now.address) }
    ensures told { IfOk result (λ opening. named opening ≡ opening_of lines.now node.now) }
{
    Ok(Opening {
        own: node.address.copy()?,
        unique: node.unique,
        labels: labels(alloc, lines, &node.name)?,
    })
}

/// A node comes after the others, where it is at the host and port of an address.
#[tactic(auto, using(crate::proofs::Declares::one_more_of, crate::proofs::Declares::host_alike, crate::proofs::Declares::port_alike, crate::proofs::Declares::one_opening))]
fn add_opening(
    openings: &mut Vec<Opening>,
    lines: &[Line],
    node: &Node,
    address: &Address,
) -> Result<(), OutOfMemory>
    ensures own { OnOk result (AreOf address.now.host address.now.port openings.old.items → AreOf address.now.host address.now.port openings.new.items) }
    ensures told { OnOk result (map named openings.new.items ≡ map named openings.old.items ++ openings_at lines.now (node.now ∷ []) address.now) }
{
    if same_host(&node.address, address) {
        openings.push(opening(*openings.allocator(), lines, node)?)?;
        Ok(())
    } else {
        Ok(())
    }
}

/// Those nodes that are at the host and port of an address.
#[tactic(auto, using(crate::proofs::Declares::openings_more))]
fn openings(
    alloc: Global,
    lines: &[Line],
    nodes: &[Node],
    address: &Address,
) -> Result<Vec<Opening>, OutOfMemory>
    ensures own { IfOk result (λ openings. AreOf address.now.host address.now.port openings.items) }
    ensures told { IfOk result (λ openings. map named openings.items ≡ openings_at lines.now nodes.now address.now) }
{
    let mut openings = Vec::new(alloc);
    for node in nodes {
        add_opening(&mut openings, lines, node, address)?;
    }
    Ok(openings)
}

/// The host at the host text and port of an address, with those of these nodes that are there.
fn site(
    alloc: Global,
    lines: &[Line],
    circle: &[Text],
    nodes: &[Node],
    address: &Address,
) -> Result<Site, OutOfMemory>
    ensures { IfOk result (λ site. site ≡ cell_among lines.now circle.now nodes.now address.now) }
{
    let openings = openings(alloc, lines, nodes, address)?;
    Site::new(
        alloc,
        address.host.as_slice(),
        address.port,
        circle,
        openings,
    )
}

/// The hosts at these addresses. None has accepted a socket.
fn cells(
    alloc: Global,
    lines: &[Line],
    circle: &[Text],
    nodes: &[Node],
    addresses: &[Address],
) -> Result<Vec<Hosted>, OutOfMemory>
    ensures { IfOk result (λ cells. cells.items ≡ cells_among lines.now circle.now nodes.now addresses.now) }
{
    let mut cells = Vec::new(alloc);
    for address in addresses {
        let site = site(alloc, lines, circle, nodes, address)?;
        cells.push(Hosted { site, accepted: 0 })?;
    }
    Ok(cells)
}

/// The hosts of declared nodes, each with its nodes, in order of declaration.
fn hosts(alloc: Global, lines: &[Line]) -> Result<Vec<Hosted>, OutOfMemory>
    ensures { IfOk result (λ cells. cells.items ≡ (world_new lines.now).cells) }
{
    let nodes = nodes(alloc, lines)?;
    let circle = circle(alloc, nodes.as_slice())?;
    let addresses = firsts(alloc, nodes.as_slice())?;
    cells(
        alloc,
        lines,
        circle.as_slice(),
        nodes.as_slice(),
        addresses.as_slice(),
    )
}

impl Realm {
    /// The world that these declarations make, where nothing has happened. Of lines that are no declarations nothing is
    /// read. A label that is declared twice for one node is refused as want of memory is.
    pub fn new(alloc: Global, declared: &Declared) -> Result<Realm, OutOfMemory>
        ensures { IfOk result (λ realm. realm ≡ world_new declared.now) }
    {
        Realm::of_lines(alloc, declared.lines.as_slice())
    }

    /// The world that these lines make.
    fn of_lines(alloc: Global, lines: &[Line]) -> Result<Realm, OutOfMemory>
        ensures { IfOk result (λ realm. realm ≡ world_new lines.now) }
    {
        let names = names(alloc, lines)?;
        let strangers = strangers(alloc, lines)?;
        let cells = hosts(alloc, lines)?;
        Ok(Realm::begun(names, strangers, cells, Sockets::new(alloc)))
    }

    /// The world of these names and hosts, where nothing was said.
    fn begun(names: Names, strangers: Vec<Stranger>, cells: Vec<Hosted>, sockets: Sockets) -> Realm
        ensures { result ≡ record { names = names; strangers = strangers.items; cells = cells.items; sockets = sockets; last = None } }
    {
        Realm {
            names,
            strangers,
            cells,
            sockets,
            last: None,
        }
    }
}
