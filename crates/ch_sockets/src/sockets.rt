//! All sockets of a journal's world, in order of opening.
//!
//! One socket stands below, and the world above.

ghost use Rattle.std.specs.Prelude.{◌≡◌, ◌<◌, ◌≤◌, ◌+◌, [], length, find, position, drop, option_map, IfOk, OnOk, OnErr, IfSome};
ghost use Rattle.std.specs.Option.{option_copied};
ghost use Rattle.ch_model.specs.declared.name.End.TheVariants.{T};
ghost use Rattle.ch_model.specs.WorldSockets.{is_socket_named, find_end, store_in, opened, ended, cut as cut_of, arrives as arrives_of, item_arrives as item_arrives_of};
ghost use Rattle.ch_sockets.specs.Openers.{opener_end};
ghost use Rattle.ch_sockets.specs.Among.{changed_among, next_name_among, new_socket_among, come_under, passed, item_passed, taken_among, item_among};
ghost use Rattle.ch_sockets.specs.Handing.{handed_among};
ghost use Rattle.ch_sockets.specs.Ends.{lower as lower_of, is_under, IsNoted};

use crate::names::Names;
use crate::opener::Opener;
use crate::socket::Socket;
use ch_base::{OutOfMemory, Text};
use ch_model::{End, Handed, Place, SockName};
use indexmap::IndexMap;
use std::alloc::Global;
use std::marker::Model;

/// Sockets in order of opening. Contracts see the list of them. No call walks them: a socket is looked up by its
/// name, how many there are of an opener and a target is looked up too, and the end that a host has under a number
/// is looked for from a place that is known for it: its own, where a host gives a number once.
#[derive(Drop)]
pub struct Sockets {
    rows: Vec<Socket>,
    names: Names,
    /// For each host and number under which there is an end, a place such that no socket before it has the end.
    ends: IndexMap<(usize, u64), usize>,
}

impl Model for Sockets {
    ghost use Rattle.std.specs.Prelude.{List};
    ghost use Rattle.ch_model.specs.WorldState.{WorldSocket};

    ghost Value = { List WorldSocket };

    ghost use Rattle.ch_sockets.specs.Ends.{AreTables};

    ghost view = { λ sockets. sockets.rows.items };

    ghost invariant = { λ sockets. AreTables sockets.names sockets.ends.entries sockets.rows.items };
}

/// Of a place that may be known, and another, the lower one.
fn lower(known: Option<usize>, place: usize) -> usize
    ensures { result ≡ lower_of known place }
{
    match known {
        None => place,
        Some(first) => if first < place { first } else { place },
    }
}

/// The place of an end is known from now on, or a lower one.
fn note(
    ends: &mut IndexMap<(usize, u64), usize>,
    key: Option<(usize, u64)>,
    place: usize,
) -> Result<(), OutOfMemory>
    ensures ok { OnOk result (IsNoted key place ends.old.entries ends.new.entries) }
    ensures err { OnErr result (ends.new.entries ≡ ends.old.entries) }
{
    match key {
        None => Ok(()),
        Some(key) => {
            let first = lower(ends.get(&key).copied(), place);
            ends.insert(key, first)?;
            Ok(())
        }
    }
}

/// The place of the first of these of which a host has an end under a number.
fn place_among(sockets: &[Socket], cell: usize, number: u64) -> Option<usize>
    ensures place { result ≡ position (is_under cell number) sockets.now }
    ensures within { IfSome result (λ place. place < length sockets.now) }
{
    sockets
        .iter()
        .position(|socket| socket.is_under(cell, number))
}

/// The place of the first socket, from this one on, of which a host has an end under a number.
fn place_from(sockets: &[Socket], first: usize, cell: usize, number: u64) -> Option<usize>
    requires { first ≤ length sockets.now }
    ensures { result ≡ option_map (λ more. first + more) (position (is_under cell number) (drop first sockets.now)) }
{
    match place_among(&sockets[first..], cell, number) {
        None => None,
        Some(more) => Some(first + more),
    }
}

impl Sockets {
    /// No socket was opened.
    pub fn new(alloc: Global) -> Sockets
        ensures { result ≡ [] }
    {
        Sockets {
            rows: Vec::new(alloc),
            names: Names::new(alloc),
            ends: IndexMap::new(alloc),
        }
    }

    fn place(&self, name: &SockName) -> Option<usize>
        ensures place { result ≡ position (is_socket_named name.now) self.now }
        ensures within { IfSome result (λ place. place < length self.now) }
    {
        self.names.place(name)
    }

    /// The socket of this name.
    pub fn get(&self, name: &SockName) -> Option<&Socket>
        ensures { option_copied result ≡ find (is_socket_named name.now) self.now }
    {
        match self.place(name) {
            None => None,
            Some(place) => Some(&self.rows[place]),
        }
    }

    /// The place of the first socket of which a host has an end under a number.
    fn place_under(&self, cell: usize, number: u64) -> Option<usize>
        ensures place { result ≡ position (is_under cell number) self.now }
        ensures within { IfSome result (λ place. place < length self.now) }
    {
        match self.ends.get(&(cell, number)) {
            None => None,
            Some(first) => place_from(self.rows.as_slice(), *first, cell, number),
        }
    }

    /// The socket and the end that a host, by its place among the journal's, has under a number.
    pub fn end_under(
        &self,
        cell: usize,
        number: u64,
    ) -> Result<Option<(SockName, End)>, OutOfMemory>
        ensures { IfOk result (λ found. found ≡ find_end cell number self.now) }
    {
        match self.place_under(cell, number) {
            None => Ok(None),
            Some(place) => self.rows[place].named_end(cell, number),
        }
    }

    /// A new socket of one to another, after the others. The target's host is told by its place among the
    /// journal's, where it is there. It answers the socket's name, the next of these two.
    pub fn open(
        &mut self,
        from: Text,
        to: Text,
        from_host: Text,
        opener: Opener,
        target: Option<usize>,
    ) -> Result<SockName, OutOfMemory>
        ensures name { IfOk result (λ name. name ≡ next_name_among self.old from to) }
        ensures opened { OnOk result (self.new ≡ store_in (new_socket_among self.old from to from_host (opener_end opener) target) self.old) }
    {
        let place = self.rows.len();
        let number = self.names.count(&from, &to);
        let name = SockName { from, to, number };
        let answer = name.copy()?;
        note(&mut self.ends, opener.key(), place)?;
        let socket = Socket::new(*self.rows.allocator(), name, from_host, opener, target);
        self.rows.push(socket)?;
        match self.names.add(&answer) {
            Ok(()) => Ok(answer),
            Err(e) => {
                self.rows.truncate(place);
                Err(e)
            }
        }
    }

    /// An end is open. Nothing happens where no socket has the name.
    pub fn join(&mut self, name: &SockName, end: End)
        ensures { self.new ≡ changed_among name.now end opened self.old }
    {
        match self.place(name) {
            None => {}
            Some(place) => self.rows[place].open(end),
        }
    }

    /// The target's end is open, under a number of its host. Nothing happens where no socket has the name.
    pub fn come(&mut self, name: &SockName, number: u64) -> Result<(), OutOfMemory>
        ensures { OnOk result (self.new ≡ changed_among name.now T (come_under number) self.old) }
    {
        match self.place(name) {
            None => Ok(()),
            Some(place) => {
                note(&mut self.ends, self.rows[place].target_key(number), place)?;
                self.rows[place].come(number);
                Ok(())
            }
        }
    }

    /// An end is over, and what was unread there is dropped. Nothing happens where no socket has the name.
    pub fn finish(&mut self, name: &SockName, end: End)
        ensures { self.new ≡ changed_among name.now end ended self.old }
    {
        match self.place(name) {
            None => {}
            Some(place) => self.rows[place].finish(end),
        }
    }

    /// Nothing more arrives at an end, and what was unread there is dropped. Nothing happens where no socket has
    /// the name.
    pub fn cut(&mut self, name: &SockName, end: End)
        ensures { self.new ≡ changed_among name.now end cut_of self.old }
    {
        match self.place(name) {
            None => {}
            Some(place) => self.rows[place].cut(end),
        }
    }

    /// Bytes are written towards an end; they are gone where it is over or cut. Nothing happens where no socket
    /// has the name.
    pub fn arrives(&mut self, name: &SockName, end: End, bytes: &[u8]) -> Result<(), OutOfMemory>
        ensures { OnOk result (self.new ≡ changed_among name.now end (arrives_of bytes.now) self.old) }
    {
        match self.place(name) {
            None => Ok(()),
            Some(place) => self.rows[place].arrives(end, bytes),
        }
    }

    /// An item is written towards an end, with the place of the message that it carries; it is gone where the end
    /// is over or cut. Nothing happens where no socket has the name.
    pub fn item_arrives(
        &mut self,
        name: &SockName,
        end: End,
        bytes: &[u8],
        said: Option<Place>,
    ) -> Result<(), OutOfMemory>
        ensures { OnOk result (self.new ≡ changed_among name.now end (item_arrives_of bytes.now said) self.old) }
    {
        match self.place(name) {
            None => Ok(()),
            Some(place) => self.rows[place].item_arrives(end, bytes, said),
        }
    }

    /// At most so many unread bytes are taken from an end; none where no socket has the name.
    pub fn take(&mut self, name: &SockName, end: End, count: u64) -> Result<Text, OutOfMemory>
        ensures taken { IfOk result (λ bytes. bytes ≡ taken_among name.now end count self.old) }
        ensures left { OnOk result (self.new ≡ changed_among name.now end (passed count) self.old) }
    {
        match self.place(name) {
            None => Ok(Text::new(*self.rows.allocator())),
            Some(place) => self.rows[place].take(end, count),
        }
    }

    /// The next item towards an end is read: the place of the message that it carries, if of one. None where no
    /// socket has the name.
    pub fn read_item(&mut self, name: &SockName, end: End) -> Option<Option<Place>>
        ensures read { result ≡ item_among name.now end self.old }
        ensures left { self.new ≡ changed_among name.now end item_passed self.old }
    {
        match self.place(name) {
            None => None,
            Some(place) => Some(self.rows[place].read_item(end)),
        }
    }

    /// What is there to be handed to an end: all that is unread, else the end of its input, else nothing; nothing
    /// where no socket has the name.
    pub fn unread(&self, name: &SockName, end: End) -> Result<Handed, OutOfMemory>
        ensures { IfOk result (λ handed. handed ≡ handed_among name.now end self.now) }
    {
        match self.place(name) {
            None => Ok(Handed::Nothing),
            Some(place) => self.rows[place].handed(end),
        }
    }
}
