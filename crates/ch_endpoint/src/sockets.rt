//! The sockets of a host, by number.

ghost use Rattle.std.specs.Prelude.{◌≡◌, ℕ, Bool, true, false, [], find, OnOk, IfOk, IfSome, MatchOption, None, if◌then◌else◌, ◌==◌};
ghost use Rattle.std.specs.Option.{option_copied};
ghost use Rattle.std.specs.Ordering.{nat_cmp};
ghost use Rattle.std.specs.BTreeSet.{contains};
ghost use Rattle.ch_model.specs.HostSteps.{is_socket, store_socket};
ghost use Rattle.ch_model.specs.Host.{is_ready, first_ready as first_ready_of};
ghost use Rattle.ch_endpoint.specs.Ends.{ended_among, opened_among, fed_among};
ghost use Rattle.ch_endpoint.specs.Taking.{used_among, front_at, taken_among};
ghost use Rattle.ch_endpoint.specs.ReadySets.{ready_in};

use crate::socket::Socket;
use ch_base::{Address, OutOfMemory};
use ch_reader::Front;
use indexmap::IndexMap;
use std::alloc::Global;
use std::collections::BTreeSet;
use std::marker::Model;

/// Sockets in order of appearance, in a table by number. Contracts see the list of them. No call walks them: one
/// is looked up by its number, and the lowest of those that have something to handle stands first in a set.
#[derive(Drop)]
pub(crate) struct Sockets {
    table: IndexMap<u64, Socket>,
    /// The numbers of those that have something to handle.
    ready: BTreeSet<u64>,
}

impl Model for Sockets {
    ghost use Rattle.std.specs.Prelude.{List};
    ghost use Rattle.std.specs.Map.{values_of};
    ghost use Rattle.ch_model.specs.HostState.{Socket as SocketValue};

    ghost Value = { List SocketValue };

    ghost use Rattle.ch_endpoint.specs.ReadySets.{KeepsSockets};

    ghost view = { λ sockets. values_of sockets.table.entries };

    ghost invariant = { λ sockets. KeepsSockets sockets.table.entries sockets.ready };
}

/// A number that is in the set stays where its socket has something to handle.
fn note(ready: &mut BTreeSet<u64>, number: u64, is_ready: bool)
    requires { contains nat_cmp ready.old number ≡ true }
    ensures { (q : ℕ) → contains nat_cmp ready.new q ≡ (if q == number then is_ready else contains nat_cmp ready.old q) }
{
    if !is_ready {
        ready.remove(&number);
    }
}

impl Sockets {
    /// No socket has appeared.
    pub(crate) fn new(alloc: Global) -> Sockets
        ensures { result ≡ [] }
    {
        Sockets {
            table: IndexMap::new(alloc),
            ready: BTreeSet::new(alloc),
        }
    }

    /// The socket of this number, where one has appeared.
    pub(crate) fn get(&self, number: u64) -> Option<&Socket>
        ensures { option_copied result ≡ find (is_socket number) self.now }
    {
        self.table.get(&number)
    }

    /// The lowest number of a socket that has something to handle.
    pub(crate) fn first_ready(&self) -> Option<u64>
        ensures first { MatchOption result (first_ready_of self.now ≡ None) (λ number. first_ready_of self.now ≡ find (is_socket number) self.now) }
        ensures ready { IfSome result (λ number. ready_in (find (is_socket number) self.now) ≡ true) }
    {
        match self.ready.first() {
            None => None,
            Some(number) => Some(*number),
        }
    }

    /// A socket that has nothing to handle is kept in place of the one with its number; one that is new comes last.
    pub(crate) fn keep(&mut self, socket: Socket) -> Result<(), OutOfMemory>
        requires { is_ready socket ≡ false }
        ensures { OnOk result (self.new ≡ store_socket socket self.old) }
    {
        let number = socket.number;
        self.table.insert(number, socket)?;
        self.ready.remove(&number);
        Ok(())
    }

    /// The end of a socket is ended, and what was read of it is dropped.
    pub(crate) fn end(&mut self, number: u64)
        ensures { self.new ≡ ended_among number self.old }
    {
        match self.table.get_mut(&number) {
            None => {}
            Some(socket) => {
                socket.end();
                self.ready.remove(&number);
            }
        }
    }

    /// The end of a socket is open.
    pub(crate) fn open(&mut self, number: u64) -> Result<(), OutOfMemory>
        ensures { OnOk result (self.new ≡ opened_among number self.old) }
    {
        match self.table.get_mut(&number) {
            None => Ok(()),
            Some(socket) => {
                self.ready.insert(number)?;
                socket.open();
                note(&mut self.ready, number, socket.is_ready());
                Ok(())
            }
        }
    }

    /// A socket stands for this link from now on.
    pub(crate) fn use_for(&mut self, number: u64, end: u32, peer: Address)
        ensures { self.new ≡ used_among end peer number self.old }
    {
        match self.table.get_mut(&number) {
            None => {}
            Some(socket) => socket.use_for(end, peer),
        }
    }

    /// Bytes are kept at the end of a socket.
    pub(crate) fn feed(&mut self, number: u64, bytes: &[u8]) -> Result<(), OutOfMemory>
        ensures { OnOk result (self.new ≡ fed_among bytes.now number self.old) }
    {
        match self.table.get_mut(&number) {
            None => Ok(()),
            Some(socket) => {
                self.ready.insert(number)?;
                let fed = socket.feed(bytes);
                note(&mut self.ready, number, socket.is_ready());
                fed
            }
        }
    }

    /// What stands at the front of a socket that has something to handle; an item is taken.
    pub(crate) fn take(&mut self, number: u64) -> Result<Front, OutOfMemory>
        requires { ready_in (find (is_socket number) self.old) ≡ true }
        ensures front { IfOk result (λ front. front ≡ (front_at (find (is_socket number) self.old)).0) }
        ensures left { OnOk result (self.new ≡ taken_among number self.old) }
    {
        match self.table.get_mut(&number) {
            None => Ok(Front::Unfinished),
            Some(socket) => {
                let front = socket.take();
                note(&mut self.ready, number, socket.is_ready());
                front
            }
        }
    }
}
