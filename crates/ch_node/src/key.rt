//! What tells a pair from the others, as a table compares it.

ghost use Rattle.std.specs.Prelude.{◌≡◌, IfOk};
ghost use Rattle.ch_node.specs.Keys.{IsKeyOf, node_of as node_of_spot};

use ch_base::{Address, OutOfMemory};
use ch_static::Target;

/// A node.
#[derive(PartialEq, Eq, Hash, Drop)]
struct Spot {
    host: Vec<u8>,
    port: u16,
    id: u32,
}

/// What a target is at its node.
#[derive(PartialEq, Eq, Hash, Drop)]
enum What {
    Process {
        unique: u32,
        counter: u32,
    },
    Port {
        unique: u32,
        counter: u32,
        port: u32,
    },
    Named {
        name: Vec<u8>,
    },
}

/// A process by its number, and a target.
#[derive(PartialEq, Eq, Hash, Drop)]
pub struct Key {
    by: u32,
    at: Spot,
    what: What,
}

impl Spot {
    fn of(node: &Address) -> Result<Spot, OutOfMemory>
        ensures { IfOk result (λ spot. node_of_spot spot ≡ node.now) }
    {
        Ok(Spot {
            host: node.host.copy()?.into_vec(),
            port: node.port,
            id: node.id,
        })
    }
}

impl Key {
    /// The key of a process and a target. It copies the host, and the name where the target has one.
    pub fn of(by: u32, to: &Target) -> Result<Key, OutOfMemory>
        ensures { IfOk result (λ key. IsKeyOf key by to.now) }
    {
        match to {
            Target::Process(process) => Ok(Key {
                by,
                at: Spot::of(&process.node)?,
                what: What::Process {
                    unique: process.unique,
                    counter: process.counter,
                },
            }),
            Target::Port(port) => Ok(Key {
                by,
                at: Spot::of(&port.process.node)?,
                what: What::Port {
                    unique: port.process.unique,
                    counter: port.process.counter,
                    port: port.port,
                },
            }),
            Target::Named { at, name } => Ok(Key {
                by,
                at: Spot::of(at)?,
                what: What::Named {
                    name: name.bytes.copy()?.into_vec(),
                },
            }),
        }
    }
}
