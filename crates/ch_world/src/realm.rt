//! A world without its history, and what is read and changed in it.

ghost use Rattle.std.specs.Prelude.{◌≡◌, ◌<◌, [], length, position, find, slice_get, Some, None, IfOk, IfSome, OnOk};
ghost use Rattle.std.specs.Option.{option_map, option_copied};
ghost use Rattle.std.specs.Str.{bytes_eq};
ghost use Rattle.ch_model.specs.declared.name.End.TheVariants.{O, T};
ghost use Rattle.ch_model.specs.declared.name.ProcName.{ProcName};
ghost use Rattle.ch_static.specs.declared.command.Command.{Command};
ghost use Rattle.ch_model.specs.Naming.{address_as as address_as_of, called as called_of};
ghost use Rattle.ch_model.specs.Timers.{timer_runs_for as timer_runs_for_of};
ghost use Rattle.ch_model.specs.WorldLines.{command_as as command_as_of, stranger_host as stranger_host_of, can_join as can_join_of, can_come as can_come_of, can_refuse as can_refuse_of, is_at_work as is_at_work_of, can_feed as can_feed_of, can_cut as can_cut_of, is_strangers as is_strangers_of};
ghost use Rattle.ch_model.specs.WorldSockets.{is_socket_named, cell_of as cell_of_address, with_end_of, with_socket, opened, ended, cut as cut_of, arrives as arrives_of, item_arrives as item_arrives_of, new_socket};
ghost use Rattle.ch_model.specs.WorldSteps.{item_is_read};
ghost use Rattle.ch_sockets.specs.Among.{come_under, passed, taken_among};
ghost use Rattle.ch_sockets.specs.Handing.{handed_among};
ghost use Rattle.ch_sockets.specs.Openers.{opener_end};
ghost use Rattle.ch_world.specs.Held.{read_where, held_of, coming_of};
ghost use Rattle.ch_world.specs.Hosts.{timer_of};

use crate::held::{
    Coming, Held, can_come, can_cut, can_feed, can_join, can_refuse, coming_socket, held_end,
    is_at_work, is_strangers,
};
use crate::hosted::{Hosted, place_of, timer_among};
use ch_base::{Address, OutOfMemory, Text};
use ch_model::{End, Handed, Place, SockName, What};
use ch_names::{Asked, Names};
use ch_sockets::{Opener, Sockets};
use std::alloc::Global;
use std::marker::Model;

/// A peer that is no node: its name, and its host text.
#[derive(Debug, Drop)]
pub(crate) struct Stranger {
    pub(crate) name: Text,
    pub(crate) host: Text,
}

impl Model for Stranger {
    ghost use Rattle.std.specs.Prelude.{ℕ, List};

    ghost Value = { List ℕ × List ℕ };

    ghost view = { λ s. (s.name, s.host) };
}

/// Names, hosts and sockets, and the place of the message that was last said or read. Contracts see the model's
/// world.
#[derive(Drop)]
pub struct Realm {
    pub(crate) names: Names,
    pub(crate) strangers: Vec<Stranger>,
    pub(crate) cells: Vec<Hosted>,
    pub(crate) sockets: Sockets,
    pub(crate) last: Option<Place>,
}

impl Model for Realm {
    ghost use Rattle.ch_model.specs.WorldState.{World};

    ghost Value = { World };

    ghost view = { λ r. record { names = r.names; strangers = r.strangers.items; cells = r.cells.items; sockets = r.sockets; last = r.last } };
}

impl Stranger {
    fn is_named(&self, name: &Text) -> bool
        ensures { result ≡ bytes_eq self.now.0 name.now }
    {
        self.name.as_slice() == name.as_slice()
    }
}

/// The first stranger of a name.
fn stranger_among<'a>(strangers: &'a [Stranger], name: &Text) -> Option<&'a Stranger>
    ensures { option_copied result ≡ find (λ stranger. bytes_eq stranger.0 name.now) strangers.now }
{
    strangers.iter().find(|stranger| stranger.is_named(name))
}

impl Realm {
    pub(crate) fn alloc(&self) -> Global {
        *self.cells.allocator()
    }

    /// What is there to be handed to an end of a socket: all that is unread, else the end of its input, else nothing;
    /// nothing where no socket has the name.
    pub fn unread(&self, sock: &SockName, end: End) -> Result<Handed, OutOfMemory>
        ensures { IfOk result (λ handed. handed ≡ handed_among sock.now end self.now.sockets) }
    {
        self.sockets.unread(sock, end)
    }

    /// How many hosts there are.
    pub(crate) fn count(&self) -> usize
        ensures { result ≡ length self.now.cells }
    {
        self.cells.len()
    }

    /// The place of the host that an address is at.
    pub(crate) fn cell_of(&self, address: &Address) -> Option<usize>
        ensures place { result ≡ cell_of_address self.now address.now }
        ensures within { IfSome result (λ place. place < length self.now.cells) }
    {
        place_of(self.cells.as_slice(), address)
    }

    /// The address that a name stands for.
    pub(crate) fn address_as(&self, name: &Text) -> Result<Address, OutOfMemory>
        ensures { IfOk result (λ address. address ≡ address_as_of self.now.names name.now) }
    {
        self.names.address_as(name)
    }

    /// What an address is called.
    pub(crate) fn called(&self, address: &Address) -> Result<Text, OutOfMemory>
        ensures { IfOk result (λ name. name ≡ called_of self.now.names address.now) }
    {
        self.names.called(address)
    }

    /// The host text of a stranger.
    pub(crate) fn stranger_host(&self, name: &Text) -> Result<Text, OutOfMemory>
        ensures { IfOk result (λ host. host ≡ stranger_host_of self.now name.now) }
    {
        match stranger_among(self.strangers.as_slice(), name) {
            None => Ok(Text::new(self.alloc())),
            Some(stranger) => stranger.host.copy(),
        }
    }

    /// The process that acts in a line, and its command; none for a line that is no command.
    pub(crate) fn command_as(&self, what: &What) -> Result<Option<Asked>, OutOfMemory>
        ensures { IfOk result (λ asked. option_map {U = ProcName × Command} (λ a. (a.by, a.command)) asked ≡ command_as_of self.now.names what.now) }
    {
        self.names.command_as(what)
    }

    /// Whether the timer of a node's link with a peer runs.
    pub(crate) fn timer_runs_for(&self, node: &Text, peer: &Text) -> Result<bool, OutOfMemory>
        ensures { IfOk result (λ runs. runs ≡ timer_runs_for_of self.now node.now peer.now) }
    {
        let own = self.address_as(node)?;
        match self.cell_of(&own) {
            None => Ok(false),
            Some(place) => {
                let address = self.address_as(peer)?;
                Ok(self.timer_at(place, own.id, &address))
            }
        }
    }

    /// Whether the timer of an endpoint's link with a peer runs, at the host at a place.
    fn timer_at(&self, place: usize, end: u32, peer: &Address) -> bool
        ensures { result ≡ timer_of end peer.now (slice_get self.now.cells place) }
    {
        timer_among(self.cells.as_slice(), place, end, peer)
    }

    // ---- sockets that stand as a line asks

    /// The opener's end of a socket that can be joined.
    pub(crate) fn joinable(&self, name: &SockName) -> Result<Option<Held>, OutOfMemory>
        ensures { IfOk result (λ found. found ≡ read_where can_join_of (held_of O) (find (is_socket_named name.now) self.now.sockets)) }
    {
        match self.sockets.get(name) {
            Some(socket) if can_join(socket) => Ok(Some(held_end(socket, End::O)?)),
            _ => Ok(None),
        }
    }

    /// The opener's end of a socket whose dial can fail.
    pub(crate) fn refusable(&self, name: &SockName) -> Result<Option<Held>, OutOfMemory>
        ensures { IfOk result (λ found. found ≡ read_where can_refuse_of (held_of O) (find (is_socket_named name.now) self.now.sockets)) }
    {
        match self.sockets.get(name) {
            Some(socket) if can_refuse(socket) => Ok(Some(held_end(socket, End::O)?)),
            _ => Ok(None),
        }
    }

    /// A socket whose target's end can come.
    pub(crate) fn awaited(&self, name: &SockName) -> Result<Option<Coming>, OutOfMemory>
        ensures { IfOk result (λ found. found ≡ read_where can_come_of coming_of (find (is_socket_named name.now) self.now.sockets)) }
    {
        match self.sockets.get(name) {
            Some(socket) if can_come(socket) => Ok(Some(coming_socket(socket)?)),
            _ => Ok(None),
        }
    }

    /// An end of a socket that something can be handed to.
    pub(crate) fn feedable(&self, name: &SockName, which: End) -> Result<Option<Held>, OutOfMemory>
        ensures { IfOk result (λ found. found ≡ read_where (can_feed_of which) (held_of which) (find (is_socket_named name.now) self.now.sockets)) }
    {
        match self.sockets.get(name) {
            Some(socket) if can_feed(socket, which) => Ok(Some(held_end(socket, which)?)),
            _ => Ok(None),
        }
    }

    /// An end of a socket that can be cut.
    pub(crate) fn severable(&self, name: &SockName, which: End) -> Result<Option<Held>, OutOfMemory>
        ensures { IfOk result (λ found. found ≡ read_where (can_cut_of which) (held_of which) (find (is_socket_named name.now) self.now.sockets)) }
    {
        match self.sockets.get(name) {
            Some(socket) if can_cut(socket, which) => Ok(Some(held_end(socket, which)?)),
            _ => Ok(None),
        }
    }

    /// An end of a socket that is at work.
    pub(crate) fn at_work(&self, name: &SockName, which: End) -> Result<Option<Held>, OutOfMemory>
        ensures { IfOk result (λ found. found ≡ read_where (is_at_work_of which) (held_of which) (find (is_socket_named name.now) self.now.sockets)) }
    {
        match self.sockets.get(name) {
            Some(socket) if is_at_work(socket, which) => Ok(Some(held_end(socket, which)?)),
            _ => Ok(None),
        }
    }

    /// The opener's end of a stranger's socket, where it stands.
    pub(crate) fn strangers_end(&self, name: &SockName) -> Result<Option<Held>, OutOfMemory>
        ensures { IfOk result (λ found. found ≡ read_where is_strangers_of (held_of O) (find (is_socket_named name.now) self.now.sockets)) }
    {
        match self.sockets.get(name) {
            Some(socket) if is_strangers(socket) => Ok(Some(held_end(socket, End::O)?)),
            _ => Ok(None),
        }
    }

    // ---- ends of sockets that change

    /// An end is open.
    #[tactic(auto, using(ch_sockets::specs::Among::with_end_of_is))]
    pub(crate) fn opens(&mut self, name: &SockName, end: End)
        ensures { self.new ≡ with_end_of name.now end opened self.old }
    {
        self.sockets.join(name, end);
    }

    /// The target's end is open, under a number of its host.
    #[tactic(auto, using(ch_sockets::specs::Among::with_end_of_is))]
    pub(crate) fn comes_under(&mut self, name: &SockName, number: u64) -> Result<(), OutOfMemory>
        ensures { OnOk result (self.new ≡ with_end_of name.now T (come_under number) self.old) }
    {
        self.sockets.come(name, number)
    }

    /// An end is over.
    #[tactic(auto, using(ch_sockets::specs::Among::with_end_of_is))]
    pub(crate) fn ends(&mut self, name: &SockName, end: End)
        ensures { self.new ≡ with_end_of name.now end ended self.old }
    {
        self.sockets.finish(name, end);
    }

    /// Nothing more arrives at an end.
    #[tactic(auto, using(ch_sockets::specs::Among::with_end_of_is))]
    pub(crate) fn severs(&mut self, name: &SockName, end: End)
        ensures { self.new ≡ with_end_of name.now end cut_of self.old }
    {
        self.sockets.cut(name, end);
    }

    /// Bytes are written towards an end.
    #[tactic(auto, using(ch_sockets::specs::Among::with_end_of_is))]
    pub(crate) fn arrives(
        &mut self,
        name: &SockName,
        end: End,
        bytes: &[u8],
    ) -> Result<(), OutOfMemory>
        ensures { OnOk result (self.new ≡ with_end_of name.now end (arrives_of bytes.now) self.old) }
    {
        self.sockets.arrives(name, end, bytes)
    }

    /// An item is written towards an end, with the place of the message that it carries.
    #[tactic(auto, using(ch_sockets::specs::Among::with_end_of_is))]
    pub(crate) fn item_arrives(
        &mut self,
        name: &SockName,
        end: End,
        bytes: &[u8],
        said: Option<Place>,
    ) -> Result<(), OutOfMemory>
        ensures { OnOk result (self.new ≡ with_end_of name.now end (item_arrives_of bytes.now said) self.old) }
    {
        self.sockets.item_arrives(name, end, bytes, said)
    }

    /// At most so many unread bytes are taken from an end.
    #[tactic(auto, using(ch_sockets::specs::Among::with_end_of_is))]
    pub(crate) fn takes(
        &mut self,
        name: &SockName,
        end: End,
        count: u64,
    ) -> Result<Text, OutOfMemory>
        ensures taken { IfOk result (λ bytes. bytes ≡ taken_among name.now end count self.old.sockets) }
        ensures left { OnOk result (self.new ≡ with_end_of name.now end (passed count) self.old) }
    {
        self.sockets.take(name, end, count)
    }

    /// The next item towards an end is read: the place of its message is the one last read.
    pub(crate) fn reads_item(&mut self, name: &SockName, end: End)
        ensures { self.new ≡ item_is_read (name.now, end) (find (is_socket_named name.now) self.old.sockets) self.old }
    {
        match self.sockets.read_item(name, end) {
            None => {}
            Some(place) => self.last = place,
        }
    }

    /// A new socket of one to the host of an address. It answers the socket's name.
    pub(crate) fn connects(
        &mut self,
        from: Text,
        to: Text,
        from_host: Text,
        opener: Opener,
        address: &Address,
    ) -> Result<SockName, OutOfMemory>
        ensures name { IfOk result (λ name. name ≡ (new_socket self.old from to from_host (opener_end opener) address.now).name) }
        ensures opened { OnOk result (self.new ≡ with_socket (new_socket self.old from to from_host (opener_end opener) address.now) self.old) }
    {
        let target = self.cell_of(address);
        self.sockets.open(from, to, from_host, opener, target)
    }
}
