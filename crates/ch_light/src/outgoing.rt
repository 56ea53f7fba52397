//! The connections that the own end opens on one socket, by the ids that they were given.
//!
//! An endpoint gives an id when a connection is opened for the socket that is up or awaited.

ghost use Rattle.std.specs.Prelude.{◌≡◌, ◌<◌, ◌≤◌, [], length, MatchResult, OnErr, IfSome};
ghost use Rattle.ch_light.specs.Ids.{place_of, id_of, give_of, close_of, Fails};

use crate::{Connection, FIRST_ID, LightError, MOST_IDS};
use std::alloc::Global;
use std::marker::Model;

/// The ids given on one socket. Contracts see the list of the connections that got one, in order.
#[derive(Drop)]
pub struct Outgoing {
    given: Vec<Connection>,
}

impl Model for Outgoing {
    ghost use Rattle.std.specs.Prelude.{◌≤◌, List, length};
    ghost use Rattle.ch_light.specs.declared.Connection.{Connection};
    ghost use Rattle.ch_light.specs.declared.TheConstants.{MOST_IDS};

    ghost Value = { List Connection };

    ghost view = { λ o. o.given.items };

    ghost invariant = { λ o. length o.given.items ≤ MOST_IDS };
}

impl Outgoing {
    /// No id is given.
    pub fn new(alloc: Global) -> Self
        ensures { result ≡ [] }
    {
        Outgoing {
            given: Vec::new(alloc),
        }
    }

    /// Gives the connection `conn` the next id: 1024 at first, then one more each time. One that is open here
    /// already keeps its first id for `id_of` and `close`, so a caller gives each connection once.
    ///
    /// `Spent` exactly where 65,536 ids were given, `OutOfMemory` where the list can't grow. Both leave the value.
    #[tactic(auto, unfolding(crate::specs::Ids::give_of))]
    pub fn give(&mut self, conn: u64) -> Result<u32, LightError>
        ensures does { MatchResult result (λ id. give_of self.old conn ≡ Ok (id, self.new)) (λ e. Fails e (give_of self.old conn)) }
        ensures err { OnErr result (self.new ≡ self.old) }
    {
        if self.given.len() >= MOST_IDS {
            return Err(LightError::Spent);
        }
        let id = FIRST_ID + self.given.len() as u32;
        self.given.push(Connection {
            number: conn,
            is_open: true,
        })?;
        Ok(id)
    }

    /// The id of the connection `conn`, if it is open here. It takes no memory, and a walk over the ids given.
    #[tactic(auto, unfolding(crate::specs::Ids::id_of))]
    pub fn id_of(&self, conn: u64) -> Option<u32>
        ensures { result ≡ id_of self.now conn }
    {
        self.place_of(conn).map(|place| FIRST_ID + place as u32)
    }

    /// Closes the connection `conn`, and answers the id that it had.
    ///
    /// `NotOpen` exactly where it isn't open here, which leaves the value. It takes no memory.
    #[tactic(auto, unfolding(crate::specs::Ids::close_of))]
    pub fn close(&mut self, conn: u64) -> Result<u32, LightError>
        ensures does { MatchResult result (λ id. close_of self.old conn ≡ Ok (id, self.new)) (λ e. close_of self.old conn ≡ Err e) }
        ensures err { OnErr result (self.new ≡ self.old) }
    {
        match self.place_of(conn) {
            None => Err(LightError::NotOpen),
            Some(place) => {
                self.given[place] = Connection {
                    number: conn,
                    is_open: false,
                };
                Ok(FIRST_ID + place as u32)
            }
        }
    }

    /// How many ids were given, those of closed connections too.
    pub fn given(&self) -> u32
        ensures { result ≡ length self.now }
    {
        self.given.len() as u32
    }

    /// The place of the connection `conn`, if it is open here.
    fn place_of(&self, conn: u64) -> Option<usize>
        ensures place { result ≡ place_of self.now conn }
        ensures bound { IfSome result (λ place. (place < length self.now) × (length self.now ≤ MOST_IDS)) }
    {
        self.given
            .iter()
            .position(|c| c.is_open && c.number == conn)
    }
}
