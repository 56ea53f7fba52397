//! An address as a key.

ghost use Rattle.std.specs.Prelude.{◌≡◌, IfOk};
ghost use Rattle.ch_names.specs.Tables.{address_of};

use ch_base::{Address, OutOfMemory};

/// A host text, a port and the number of an endpoint there, as a table compares them.
#[derive(Debug, PartialEq, Eq, Hash, Drop)]
pub(crate) struct Spot {
    host: Vec<u8>,
    port: u16,
    id: u32,
}

impl Spot {
    /// The key of an address. It copies the host text.
    pub(crate) fn of(address: &Address) -> Result<Spot, OutOfMemory>
        ensures { IfOk result (λ spot. address_of spot ≡ address.now) }
    {
        Ok(Spot {
            host: address.host.copy()?.into_vec(),
            port: address.port,
            id: address.id,
        })
    }
}
