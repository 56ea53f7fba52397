//! Values in messages: each type has a mark, and one spelling of each value as bytes. A port carries
//! values of one type.
//!
//! It stands on the messages of `ch_ident` and the mailboxes of `ch_mail`. Programs over nodes stand above.
#![tactic(auto)]

mod error;
mod pair;
mod port;
mod process;
mod typed;
mod values;

pub use error::TypedError;
pub use port::{ReceivePort, SendPort, channel};
pub use typed::{Typed, expect, pack, unpack};
