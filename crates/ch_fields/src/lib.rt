//! The fields of a journal's line, each read by its class.
//!
//! A reader answers the first refusal, or that memory is wanting. Numbers are asked for when every field
//! of a line is of its class. Texts, addresses and names stand below; lines stand above.
#![tactic(auto)]

mod fault;
mod name_field;
mod plain_field;

pub use fault::Fault;
pub use name_field::{
    destination, named, numbered, numbered_destination, numbered_reference, numbered_socket,
    process, reference, socket, target_node,
};
pub use plain_field::{
    address, apart, bytes, count, digits, end, field, host, last, node_name, number, sent_mark,
    split_at_byte, text, word,
};
