//! The processes of a node: the life, the mailbox and the ports of each.
//!
//! It stands on the identifiers and messages of `ch_ident` alone. A node puts arriving messages here,
//! and takes from here what a process receives.
#![tactic(auto)]

mod error;
mod life;
mod mail;
mod process;
mod queue;

pub use error::MailError;
pub use life::Life;
pub use mail::Mail;
