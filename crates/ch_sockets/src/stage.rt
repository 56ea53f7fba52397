//! How an end of a socket stands.

/// How an end of a socket stands.
#[derive(Clone, Copy, Debug, PartialEq, Eq)]
pub enum Stage {
    /// It is dialed and not open yet.
    Pending,
    Open,
    Ended,
}
