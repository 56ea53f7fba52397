//! A host: its endpoints, their links with peers, and the sockets that the links stand on.
//!
//! Items, the link table and connection ids stand below, and the model that says what each call does. The
//! world, which carries bytes from host to host, stands above.
#![tactic(auto)]

mod acts;
mod arrivals;
mod closing;
mod endpoint;
mod events;
mod front;
mod host;
mod items;
mod link;
mod links;
mod payloads;
mod socket;
mod sockets;
mod state;
mod unread;

pub use ch_model::{EndError, Place, SocketEvent, Step, Weight};
pub use host::Host;
