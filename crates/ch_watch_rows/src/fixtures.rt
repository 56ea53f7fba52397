//! Two nodes, and what is of them.

use ch_base::Address;
use ch_ident::{Identifier, ProcessId, Ref, SendPortId};
use std::alloc::Global;
use std::test::Fail;

#[derive(Clone, Copy, Debug)]
pub enum At {
    /// The node `h:1:0`.
    Near,
    /// The node `i:1:0`.
    Far,
    /// Another endpoint of the far host, `i:1:1`.
    FarBeside,
}

/// What is awaited.
#[derive(Clone, Copy, Debug)]
pub enum Target {
    Node(At),
    Process(At),
    Port(At),
}

fn text(at: At) -> &'static [u8] {
    match at {
        At::Near => b"h:1:0",
        At::Far => b"i:1:0",
        At::FarBeside => b"i:1:1",
    }
}

pub fn node(alloc: Global, at: At) -> Result<Address, Fail> {
    let node = Address::read(alloc, text(at))?;
    Ok(node)
}

pub fn process(alloc: Global, at: At) -> Result<ProcessId, Fail> {
    let node = node(alloc, at)?;
    Ok(ProcessId {
        node,
        unique: 7,
        counter: 2,
    })
}

pub fn reference(alloc: Global, at: At, number: u32) -> Result<Ref, Fail> {
    let node = node(alloc, at)?;
    Ok(Ref { node, number })
}

fn port(alloc: Global, at: At) -> Result<Identifier, Fail> {
    let process = process(alloc, at)?;
    Ok(Identifier::Port(SendPortId { process, port: 0 }))
}

pub fn identifier(alloc: Global, target: Target) -> Result<Identifier, Fail> {
    match target {
        Target::Node(at) => Ok(Identifier::Node(node(alloc, at)?)),
        Target::Process(at) => Ok(Identifier::Process(process(alloc, at)?)),
        Target::Port(at) => port(alloc, at),
    }
}
