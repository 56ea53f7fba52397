//! What one name stands for.

use ch_base::{Address, Text};
use std::marker::Model;

/// A name, the address and the unique number that it stands for, and whether it is a node's. Contracts
/// see what the model names so.
#[derive(Debug, Drop)]
pub(crate) struct Known {
    pub(crate) name: Text,
    pub(crate) address: Address,
    pub(crate) unique: u32,
    pub(crate) is_node: bool,
}

impl Model for Known {
    ghost use Rattle.ch_model.specs.WorldState.{Named};

    ghost Value = { Named };

    ghost view = { λ k. record { name = k.name; address = k.address; unique = k.unique; is_node = k.is_node } };
}
