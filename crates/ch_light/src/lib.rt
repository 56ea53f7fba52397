//! The lightweight connections on one socket: which ids were given out or came in, and which are open.
//!
//! `Outgoing` has those that the own end opens, `Incoming` those that the other end opens. Above stand the
//! endpoints, which keep one of each for the socket of a link.
#![tactic(auto)]

ghost use Rattle.std.specs.Prelude.{◌≡◌, ◌≢◌, ℕ, ◌+◌, List, length, Some, None, Ok, Err};
ghost use Rattle.ch_light.specs.declared.Connection.{Connection};
ghost use Rattle.ch_light.specs.Ids.{IsFree, id_of, give_of, close_of, created_of, conn_of, closed_of};
ghost use Rattle.ch_light.specs.Open.{ChangesOnly, OneEach};

mod error;
mod incoming;
mod outgoing;

pub use error::LightError;
pub use incoming::Incoming;
pub use outgoing::Outgoing;

/// The first id of a direction.
pub const FIRST_ID: u32 = 1024;

/// How many ids a direction of one socket has in all, so that the last is 66,559.
pub const MOST_IDS: usize = 65_536;

/// One connection that was given an id on this socket. The id is not kept: it is the place in the list, from 1024 on.
#[derive(Clone, Copy, Debug, PartialEq, Eq)]
pub struct Connection {
    /// The connection's number at its endpoint.
    pub number: u64,
    /// It wasn't closed since.
    pub is_open: bool,
}

/// Which ids are open: those given or created, and not closed since.
///
/// A given or created id is 1024 more than the number of those before it; from then on it stands for its connection.
/// A closed id stands for none. Each call leaves all other ids as they were.
pub fn open_ids()
    ensures given { (table new : List Connection) (number id : ℕ) → give_of table number ≡ Ok (id, new)
        → (id ≡ FIRST_ID + length table) × ChangesOnly table new id (Ok number) }
    ensures created { (table new : List Connection) (id number : ℕ) → created_of table id number ≡ Ok new
        → (id ≡ FIRST_ID + length table) × ChangesOnly table new id (Ok number) }
    ensures closed_number { (table new : List Connection) (number id : ℕ) → close_of table number ≡ Ok (id, new)
        → (conn_of table id ≡ Ok number) × ChangesOnly table new id (Err LightError.NotOpen) }
    ensures closed_id { (table new : List Connection) (number id : ℕ) → closed_of table id ≡ Ok (number, new)
        → (conn_of table id ≡ Ok number) × ChangesOnly table new id (Err LightError.NotOpen) }
    ensures found { (table : List Connection) (number id : ℕ) → id_of table number ≡ Some id → conn_of table id ≡ Ok number }
    ensures absent { (table : List Connection) (number id : ℕ) → id_of table number ≡ None → conn_of table id ≢ Ok number }
    ensures still_free { (table new : List Connection) (number id other : ℕ) → give_of table number ≡ Ok (id, new) → other ≢ number
        → IsFree table other → IsFree new other }
    ensures one_each_given { (table new : List Connection) (number id : ℕ) → OneEach table → IsFree table number
        → ChangesOnly table new id (Ok number) → OneEach new }
    ensures one_each_closed { (table new : List Connection) (id : ℕ) → OneEach table
        → ChangesOnly table new id (Err LightError.NotOpen) → OneEach new }
{}
