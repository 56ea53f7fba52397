//! A name that stands for a process.

use ch_ident::Name;

/// A name, and the process for which it stands.
#[derive(Debug, Drop)]
pub struct Named {
    pub name: Name,
    /// The process, by its number.
    pub process: u32,
}
