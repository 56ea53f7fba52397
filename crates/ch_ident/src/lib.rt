//! What processes and nodes say to one another, and its one spelling in bytes: identifiers,
//! references, names, reasons, user messages and the messages from node to node.
//! Below stands ch_base with addresses and texts; mailboxes, watches and nodes stand above.
#![tactic(auto)]

mod error;
mod field;
mod identifier;
mod message;
mod name;
mod node_codec;
mod node_message;
mod reason;

pub use error::IdentError;
pub use identifier::{
    Identifier, MonitorRef, ProcessId, Ref, SendPortId, SpawnRef, put_identifier, take_identifier,
};
pub use message::{Message, put_user, take_user};
pub use name::Name;
pub use node_codec::{put_message, take_message};
pub use node_message::NodeMessage;
pub use reason::Reason;
