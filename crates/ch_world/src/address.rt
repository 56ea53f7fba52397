//! The addresses of a host's endpoints.

ghost use Rattle.std.specs.Prelude.{◌≡◌, IfOk};
ghost use Rattle.ch_world.specs.Hosts.{cell_in};
ghost use Rattle.ch_model.specs.HostSteps.{own_address as own_address_of};
ghost use Rattle.ch_watch.specs.Same.{same_node};

use crate::hosted::HostAt;
use ch_base::{Address, OutOfMemory, Text};
use itoa::Buffer;
use std::alloc::Global;

/// The text `host:port:id`.
fn address_text(alloc: Global, host: &[u8], port: u16, id: u32) -> Result<Vec<u8>, OutOfMemory> {
    let mut digits = Buffer::new();
    let mut text = Vec::from_slice(alloc, host)?;
    text.push(b':')?;
    text.extend_from_slice(digits.format(port).as_bytes())?;
    text.push(b':')?;
    text.extend_from_slice(digits.format(id).as_bytes())?;
    Ok(text)
}

/// Whether an address is of this host text and port, and has this number.
#[tactic(auto, unfolding(ch_watch::specs::Same::same_node))]
fn is_of(address: &Address, host: &Text, port: u16, id: u32) -> bool
    ensures { result ≡ same_node address.now (record { host = host.now; port = port; id = id }) }
{
    address.host.as_slice() == host.as_slice() && address.port == port && address.id == id
}

/// The address of an endpoint of a host. A host that has none of that number, since its text would be too long, is
/// answered as one for whose address there is no memory.
#[tactic(auto, using(crate::proofs::Addresses::node_alike))]
pub(crate) fn own_address(at: &HostAt, end: u32) -> Result<Address, OutOfMemory>
    ensures { IfOk result (λ own. own ≡ own_address_of (cell_in at.now).host end) }
{
    let alloc = at.text.allocator();
    let text = address_text(alloc, at.text.as_slice(), at.port, end)?;
    match Address::read(alloc, text.as_slice()) {
        Ok(address) if is_of(&address, &at.text, at.port, end) => Ok(address),
        _ => Err(OutOfMemory),
    }
}
