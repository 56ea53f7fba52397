//! Names: of registered processes, of marks and of labels.
//! A `Name` keeps that its text is a name, so what holds one need not test it again.

ghost use Rattle.std.specs.List.{list_all};
ghost use Rattle.std.specs.Prelude.{◌≡◌, IfOk};
ghost use Rattle.ch_ident.specs.Names.{is_graphic as is_graphic_of, is_name as is_name_of};
ghost use Rattle.ch_ident.specs.Outcome.{Gives};
ghost use Rattle.ch_ident.specs.Reading.{name_of};

use crate::error::IdentError;
use ch_base::{OutOfMemory, Text};
use std::alloc::Global;
use std::marker::Model;

/// A name, a mark or a label: 1 to 63 bytes from 0x21 to 0x7e.
#[derive(Debug, Drop)]
pub struct Name {
    pub bytes: Text,
}

impl Model for Name {
    ghost use Rattle.std.specs.Prelude.{◌≡◌, List, true, ℕ};
    ghost use Rattle.ch_ident.specs.Names.{is_name};

    ghost Value = { List ℕ };

    ghost view = { λ n. n.bytes };

    ghost invariant = { λ n. is_name n.bytes ≡ true };
}

impl Name {
    /// The name of these bytes.
    ///
    /// Refuses with `BadText` what isn't 1 to 63 bytes from 0x21 to 0x7e.
    #[tactic(auto, unfolding(crate::specs::Reading::name_of))]
    pub fn new(alloc: Global, bytes: &[u8]) -> Result<Name, IdentError>
        ensures { Gives result (name_of bytes.now) }
    {
        if !is_name(bytes) {
            return Err(IdentError::BadText);
        }
        Ok(Name {
            bytes: Text::of(alloc, bytes)?,
        })
    }

    /// An equal name.
    pub fn copy(&self) -> Result<Name, OutOfMemory>
        ensures { IfOk result (λ n. n ≡ self.now) }
    {
        Ok(Name {
            bytes: self.bytes.copy()?,
        })
    }
}

/// Whether a byte may stand in a name.
fn is_graphic(b: u8) -> bool
    ensures { result ≡ is_graphic_of b }
{
    b >= 0x21 && b <= 0x7e
}

/// Whether every byte may stand in a name.
pub(crate) fn all_graphic(bytes: &[u8]) -> bool
    ensures { result ≡ list_all is_graphic_of bytes.now }
{
    bytes.iter().all(|b| is_graphic(*b))
}

fn is_name(bytes: &[u8]) -> bool
    ensures { result ≡ is_name_of bytes.now }
{
    1 <= bytes.len() && bytes.len() <= 63 && all_graphic(bytes)
}
