//! The sockets of a journal's world: who opened them, how their ends stand, and what is unread.
//!
//! `Sockets` holds every socket from its opening on. Each call is named for what a journal tells of a socket: it is
//! opened, an end is joined, has come, is over or is cut, bytes or items are written towards an end, and they are
//! taken there. Contracts see the list of sockets, and each call does to it what the model does to a world's. A
//! socket is looked up by its name, or by a host and its number for it, in tables and by no walk; each byte is
//! moved once on the average, in however small pieces it is taken; and an end that is over or cut keeps no memory.
//! After `OutOfMemory` a value stands for some list of sockets, and no clause says for which.
//!
//! The model, which says what each call does, stands below. The world, which hands the bytes from host to host,
//! stands above.
#![tactic(auto)]

mod names;
mod opener;
mod socket;
mod socket_end;
mod sockets;
mod stage;
mod unread;

pub use ch_model::{End, Handed, Place, SockName};
pub use opener::Opener;
pub use socket::Socket;
pub use socket_end::SocketEnd;
pub use sockets::Sockets;
pub use stage::Stage;
