//! The connections that the other end opens on one socket, by the ids that it created.
//!
//! An endpoint hears of them by the socket's frames: created, closed, and data on an id.

ghost use Rattle.std.specs.Prelude.{◌≡◌, ◌-◌, ◌<◌, ◌≤◌, [], length, MatchResult, OnOk, OnErr};
ghost use Rattle.ch_light.specs.Ids.{created_of, conn_of, closed_of, Fails};

use crate::{Connection, FIRST_ID, LightError, MOST_IDS};
use std::alloc::Global;
use std::marker::Model;

/// The ids created on one socket. Contracts see the list of their connections, in order.
#[derive(Drop)]
pub struct Incoming {
    created: Vec<Connection>,
}

impl Model for Incoming {
    ghost use Rattle.std.specs.Prelude.{◌≤◌, List, length};
    ghost use Rattle.ch_light.specs.declared.Connection.{Connection};
    ghost use Rattle.ch_light.specs.declared.TheConstants.{MOST_IDS};

    ghost Value = { List Connection };

    ghost view = { λ i. i.created.items };

    ghost invariant = { λ i. length i.created.items ≤ MOST_IDS };
}

impl Incoming {
    /// No id is created.
    pub fn new(alloc: Global) -> Self
        ensures { result ≡ [] }
    {
        Incoming {
            created: Vec::new(alloc),
        }
    }

    /// The other end created `id`. It stands for the connection `conn`.
    ///
    /// `Spent` exactly where 65,536 ids were created; else `NotNext` exactly where `id` isn't the next, which is 1024
    /// at first and then one more each time; `OutOfMemory` where the list can't grow. Each leaves the value.
    #[tactic(auto, unfolding(crate::specs::Ids::created_of))]
    pub fn created(&mut self, id: u32, conn: u64) -> Result<(), LightError>
        ensures does { MatchResult result (λ _. created_of self.old id conn ≡ Ok self.new) (λ e. Fails e (created_of self.old id conn)) }
        ensures err { OnErr result (self.new ≡ self.old) }
    {
        if self.created.len() >= MOST_IDS {
            return Err(LightError::Spent);
        }
        if id != FIRST_ID + self.created.len() as u32 {
            return Err(LightError::NotNext);
        }
        self.created.push(Connection {
            number: conn,
            is_open: true,
        })?;
        Ok(())
    }

    /// The other end closed `id`: answers the connection that it stood for, and closes that.
    ///
    /// `NotOpen` exactly where `id` isn't open, which leaves the value. It takes no memory, and no walk.
    #[tactic(auto, unfolding(crate::specs::Ids::closed_of))]
    pub fn closed(&mut self, id: u32) -> Result<u64, LightError>
        ensures does { MatchResult result (λ conn. closed_of self.old id ≡ Ok (conn, self.new)) (λ e. closed_of self.old id ≡ Err e) }
        ensures err { OnErr result (self.new ≡ self.old) }
    {
        let number = self.conn_of(id)?;
        self.created[(id - FIRST_ID) as usize] = Connection {
            number,
            is_open: false,
        };
        Ok(number)
    }

    /// The connection that `id` stands for.
    ///
    /// `NotOpen` exactly where `id` isn't open. It takes no memory, and no walk.
    #[tactic(auto, unfolding(crate::specs::Ids::conn_of))]
    pub fn conn_of(&self, id: u32) -> Result<u64, LightError>
        ensures value { result ≡ conn_of self.now id }
        ensures bound { OnOk result ((FIRST_ID ≤ id) × (id - FIRST_ID < length self.now)) }
    {
        if id < FIRST_ID {
            return Err(LightError::NotOpen);
        }
        match self.created.get((id - FIRST_ID) as usize) {
            Some(c) if c.is_open => Ok(c.number),
            _ => Err(LightError::NotOpen),
        }
    }
}
