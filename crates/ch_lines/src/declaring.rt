//! The lines that declare: nodes, other addresses, labels and strangers.
//!
//! Each asks for the classes of its fields, its numbers, that no event came before, the names that it
//! uses, and that what it declares is new.

ghost use Rattle.std.specs.Prelude.{◌≡◌};
ghost use Rattle.std.specs.Option.{option_map};
ghost use Rattle.ch_model.specs.LinesDeclared.{place_line, node_line, away_line, label_line, stranger_line};
ghost use Rattle.ch_model.specs.LinesBuilt.{only_node_line};
ghost use Rattle.ch_fields.specs.Outcome.{Gives};

use crate::known::Known;
use ch_base::{Address, Text};
use ch_fields::{Fault, address, digits, field, host, last, node_name, number, word};
use ch_model::What;
use std::alloc::Global;

impl Known {
    /// A new name, a new address and a unique number.
    #[tactic(auto, unfolding(ch_model::specs::LinesDeclared::place_line))]
    fn place_line(&self, alloc: Global, rest: Option<&[u8]>) -> Result<(Text, Address, u32), Fault>
        ensures { Gives (λ x. x) result (place_line self.now (option_map (λ r. r.now) rest.entry)) }
    {
        let (name, rest) = field(rest)?;
        let (place, rest) = field(rest)?;
        let (unique, rest) = field(rest)?;
        last(rest)?;
        let name = node_name(name)?;
        let address = address(alloc, place)?;
        let unique = number(digits(unique)?)?;
        self.early()?;
        let name = self.new_name(name)?;
        let address = self.new_address(address)?;
        Ok((Text::of(alloc, name)?, address, unique))
    }

    /// `node N address num`.
    #[tactic(auto, unfolding(ch_model::specs::LinesDeclared::node_line))]
    pub(crate) fn node_line(&self, alloc: Global, rest: Option<&[u8]>) -> Result<What, Fault>
        ensures { Gives (λ x. x) result (node_line self.now (option_map (λ r. r.now) rest.entry)) }
    {
        let (name, address, unique) = self.place_line(alloc, rest)?;
        Ok(What::Node {
            name,
            address,
            unique,
        })
    }

    /// `node N address num`, once.
    #[tactic(auto, unfolding(ch_model::specs::LinesBuilt::only_node_line))]
    pub(crate) fn only_node_line(&self, alloc: Global, rest: Option<&[u8]>) -> Result<What, Fault>
        ensures { Gives (λ x. x) result (only_node_line self.now (option_map (λ r. r.now) rest.entry)) }
    {
        self.bare()?;
        self.node_line(alloc, rest)
    }

    /// `away N address num`.
    #[tactic(auto, unfolding(ch_model::specs::LinesDeclared::away_line))]
    pub(crate) fn away_line(&self, alloc: Global, rest: Option<&[u8]>) -> Result<What, Fault>
        ensures { Gives (λ x. x) result (away_line self.now (option_map (λ r. r.now) rest.entry)) }
    {
        let (name, address, unique) = self.place_line(alloc, rest)?;
        Ok(What::Away {
            name,
            address,
            unique,
        })
    }

    /// `label N word`.
    #[tactic(auto, unfolding(ch_model::specs::LinesDeclared::label_line))]
    pub(crate) fn label_line(&self, alloc: Global, rest: Option<&[u8]>) -> Result<What, Fault>
        ensures { Gives (λ x. x) result (label_line self.now (option_map (λ r. r.now) rest.entry)) }
    {
        let (name, rest) = field(rest)?;
        let (label, rest) = field(rest)?;
        last(rest)?;
        let name = node_name(name)?;
        let label = word(alloc, label)?;
        self.early()?;
        let node = self.declared(name)?;
        let label = self.new_label(node, label)?;
        Ok(What::Label {
            node: Text::of(alloc, node)?,
            label,
        })
    }

    /// `stranger N host`.
    #[tactic(auto, unfolding(ch_model::specs::LinesDeclared::stranger_line))]
    pub(crate) fn stranger_line(&self, alloc: Global, rest: Option<&[u8]>) -> Result<What, Fault>
        ensures { Gives (λ x. x) result (stranger_line self.now (option_map (λ r. r.now) rest.entry)) }
    {
        let (name, rest) = field(rest)?;
        let (place, rest) = field(rest)?;
        last(rest)?;
        let name = node_name(name)?;
        let place = host(place)?;
        self.early()?;
        let name = self.new_name(name)?;
        let place = self.new_host(place)?;
        Ok(What::Stranger {
            name: Text::of(alloc, name)?,
            host: Text::of(alloc, place)?,
        })
    }
}
