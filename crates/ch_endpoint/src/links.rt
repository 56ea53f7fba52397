//! The links of a host, by endpoint and peer.
//!
//! One link stands below; the host's calls stand above.

ghost use Rattle.std.specs.Prelude.{◌≡◌, ◌<◌, ◌≤◌, ◌+◌, true, [], length, drop, option_map, position, find, IfSome, IfOk, OnOk, OnErr, MatchOption, None, Some};
ghost use Rattle.std.specs.Option.{option_copied};
ghost use Rattle.ch_model.specs.HostSteps.{is_link, link_or_new, store_link};
ghost use Rattle.ch_model.specs.HostWrites.{is_counted, counted_in};
ghost use Rattle.ch_model.specs.HostCalls.{carries};
ghost use Rattle.ch_endpoint.specs.Places.{Apart, IsPlaceOf};
ghost use Rattle.ch_endpoint.specs.Shuts.{peers_of};
ghost use Rattle.ch_endpoint.specs.Carriers.{lower as lower_of};
ghost use Rattle.ch_endpoint.specs.Waits.{giving, waiting, forgetting, closing};
ghost use Rattle.ch_endpoint.specs.Arrivals.{may_create, creating, closing_id};

use crate::link::{Link, Waiting};
use ch_base::{Address, OutOfMemory};
use ch_link::LinkState;
use indexmap::{IndexMap, IndexSet};
use std::alloc::Global;
use std::marker::Model;

/// Links in order of first use. Contracts see the list of them. A link is looked up by its endpoint and peer, and that
/// of a connection is looked for from a place that is known for it: its own, where a number is given once.
#[derive(Drop)]
pub(crate) struct Links {
    rows: Vec<Link>,
    /// The host texts of the peers.
    hosts: IndexSet<Vec<u8>>,
    /// For each link, in order, its endpoint, the place of its peer's host text, and its peer's port and number.
    keys: IndexSet<(u32, usize, u16, u32)>,
    /// For each endpoint and connection that was given an id, a place such that no link before it has the connection
    /// open.
    carriers: IndexMap<(u32, u64), usize>,
}

impl Model for Links {
    ghost use Rattle.std.specs.Prelude.{List};
    ghost use Rattle.ch_model.specs.HostState.{Link as LinkValue};

    ghost Value = { List LinkValue };

    ghost use Rattle.ch_endpoint.specs.Places.{Apart};
    ghost use Rattle.ch_endpoint.specs.LinkKeys.{AreKeys};
    ghost use Rattle.ch_endpoint.specs.Carriers.{AreCarriers};

    ghost view = { λ links. links.rows.items };

    ghost invariant = { λ links. Apart links.rows.items × AreKeys (λ text. text.items) links.hosts.keys links.keys.keys links.rows.items × AreCarriers links.carriers.entries links.rows.items };
}

impl Links {
    /// No link was used.
    pub(crate) fn new(alloc: Global) -> Links
        ensures { result ≡ [] }
    {
        Links {
            rows: Vec::new(alloc),
            hosts: IndexSet::new(alloc),
            keys: IndexSet::new(alloc),
            carriers: IndexMap::new(alloc),
        }
    }

    fn place(&self, end: u32, peer: &Address) -> Option<usize>
        ensures apart { Apart self.now }
        ensures place { result ≡ position (is_link end peer.now) self.now }
        ensures within { IfSome result (λ place. place < length self.now) }
    {
        match self.hosts.get_index_of(peer.host.as_slice()) {
            None => None,
            Some(host) => self.keys.get_index_of(&(end, host, peer.port, peer.id)),
        }
    }

    /// The link of an endpoint with a peer, where one was used.
    pub(crate) fn get(&self, end: u32, peer: &Address) -> Option<&Link>
        ensures { option_copied result ≡ find (is_link end peer.now) self.now }
    {
        match self.place(end, peer) {
            None => None,
            Some(place) => Some(&self.rows[place]),
        }
    }

    /// The place of the link of an endpoint with a peer, which is there from now on.
    fn made(&mut self, end: u32, peer: &Address) -> Result<usize, OutOfMemory>
        ensures { IfOk result (λ place. IsPlaceOf end peer.now self.old self.new place) }
    {
        match self.place(end, peer) {
            Some(place) => Ok(place),
            None => self.add(end, peer),
        }
    }

    /// The place of a link that wasn't used before, which comes last.
    fn add(&mut self, end: u32, peer: &Address) -> Result<usize, OutOfMemory>
        requires { position (is_link end peer.now) self.old ≡ None }
        ensures { IfOk result (λ place. IsPlaceOf end peer.now self.old self.new place) }
    {
        let alloc = *self.rows.allocator();
        let place = self.rows.len();
        let link = Link::new(alloc, end, peer.copy()?);
        let text = Vec::from_slice(alloc, peer.host.as_slice())?;
        let (host, _) = self.hosts.insert_full(text)?;
        self.rows.push(link)?;
        match self.keys.insert((end, host, peer.port, peer.id)) {
            Ok(_) => Ok(place),
            Err(_) => {
                self.rows.truncate(place);
                Err(OutOfMemory)
            }
        }
    }

    /// The link stands so from now on.
    pub(crate) fn set_state(
        &mut self,
        end: u32,
        peer: &Address,
        state: LinkState,
    ) -> Result<(), OutOfMemory>
        ensures { OnOk result (self.new ≡ store_link (record (link_or_new end peer.now (find (is_link end peer.now) self.old)) { state = state }) self.old) }
    {
        let place = self.made(end, peer)?;
        self.rows[place].set_state(state);
        Ok(())
    }

    /// The connection gets the link's next id.
    pub(crate) fn give(&mut self, end: u32, peer: &Address, conn: u64) -> Result<u32, OutOfMemory>
        requires room { length (link_or_new end peer.now (find (is_link end peer.now) self.old)).given < 65536 }
        ensures id { IfOk result (λ id. id ≡ 1024 + length (link_or_new end peer.now (find (is_link end peer.now) self.old)).given) }
        ensures ok { OnOk result (self.new ≡ store_link (giving conn (link_or_new end peer.now (find (is_link end peer.now) self.old))) self.old) }
    {
        let place = self.made(end, peer)?;
        let first = lower(self.carriers.get(&(end, conn)).copied(), place);
        self.carriers.insert((end, conn), first)?;
        let id = self.rows[place].give(conn)?;
        Ok(id)
    }

    /// A frame waits behind those that wait for the link.
    pub(crate) fn wait(
        &mut self,
        end: u32,
        peer: &Address,
        item: Waiting,
    ) -> Result<(), OutOfMemory>
        requires { is_counted item.1 ≡ true → counted_in (link_or_new end peer.now (find (is_link end peer.now) self.old)) < 4096 }
        ensures { OnOk result (self.new ≡ store_link (waiting item (link_or_new end peer.now (find (is_link end peer.now) self.old))) self.old) }
    {
        let place = self.made(end, peer)?;
        self.rows[place].wait(item)?;
        Ok(())
    }

    /// What waits on the link is taken out.
    pub(crate) fn take_waits(
        &mut self,
        end: u32,
        peer: &Address,
    ) -> Result<Vec<Waiting>, OutOfMemory>
        ensures taken { IfOk result (λ items. items.items ≡ (link_or_new end peer.now (find (is_link end peer.now) self.old)).waits) }
        ensures ok { OnOk result (self.new ≡ store_link (record (link_or_new end peer.now (find (is_link end peer.now) self.old)) { waits = [] }) self.old) }
    {
        let place = self.made(end, peer)?;
        let items = self.rows[place].take_waits();
        Ok(items)
    }

    /// What waits on the link and all its connections are forgotten, and its state stands.
    pub(crate) fn forget(&mut self, end: u32, peer: &Address) -> Result<(), OutOfMemory>
        ensures { OnOk result (self.new ≡ store_link (forgetting (link_or_new end peer.now (find (is_link end peer.now) self.old))) self.old) }
    {
        let place = self.made(end, peer)?;
        self.rows[place].forget();
        Ok(())
    }

    fn place_of(&self, end: u32, conn: u64) -> Option<usize>
        ensures place { result ≡ position (carries end conn) self.now }
        ensures within { IfSome result (λ place. place < length self.now) }
    {
        match self.carriers.get(&(end, conn)) {
            None => None,
            Some(first) => place_from(self.rows.as_slice(), *first, end, conn),
        }
    }

    /// The peer of the link on which an endpoint has this connection open.
    pub(crate) fn carrier(&self, end: u32, conn: u64) -> Option<&Address>
        ensures { MatchOption result (find (carries end conn) self.now ≡ None) (λ peer. find (carries end conn) self.now ≡ Some (link_or_new end peer.now (find (is_link end peer.now) self.now))) }
    {
        match self.place_of(end, conn) {
            None => None,
            Some(place) => Some(&self.rows[place].peer),
        }
    }

    /// A connection of the link is closed, where it is open.
    pub(crate) fn close(&mut self, end: u32, peer: &Address, conn: u64) -> Result<(), OutOfMemory>
        ensures { OnOk result (self.new ≡ store_link (closing conn (link_or_new end peer.now (find (is_link end peer.now) self.old))) self.old) }
    {
        let place = self.made(end, peer)?;
        self.rows[place].close(conn);
        Ok(())
    }

    /// The other end of the link has created its next id, for this connection.
    pub(crate) fn create(
        &mut self,
        end: u32,
        peer: &Address,
        id: u32,
        conn: u64,
    ) -> Result<(), OutOfMemory>
        requires { may_create id (link_or_new end peer.now (find (is_link end peer.now) self.old)).created ≡ true }
        ensures { OnOk result (self.new ≡ store_link (creating conn (link_or_new end peer.now (find (is_link end peer.now) self.old))) self.old) }
    {
        let place = self.made(end, peer)?;
        self.rows[place].create(id, conn)?;
        Ok(())
    }

    /// The other end of the link has closed an id, where it is open.
    pub(crate) fn close_id(&mut self, end: u32, peer: &Address, id: u32) -> Result<(), OutOfMemory>
        ensures { OnOk result (self.new ≡ store_link (closing_id id (link_or_new end peer.now (find (is_link end peer.now) self.old))) self.old) }
    {
        let place = self.made(end, peer)?;
        self.rows[place].close_id(id);
        Ok(())
    }

    /// The peers of an endpoint's links, in order of first use.
    pub(crate) fn peers_of(&self, end: u32) -> Result<Vec<Address>, OutOfMemory>
        ensures { IfOk result (λ peers. peers.items ≡ peers_of end self.now) }
    {
        peers_among(*self.rows.allocator(), end, self.rows.as_slice())
    }
}

/// Of a place that may be known, and another, the lower one.
fn lower(known: Option<usize>, place: usize) -> usize
    ensures { result ≡ lower_of known place }
{
    match known {
        None => place,
        Some(first) => if first < place { first } else { place },
    }
}

/// The place of the first of these links on which an endpoint has a connection open.
fn place_among(links: &[Link], end: u32, conn: u64) -> Option<usize>
    ensures place { result ≡ position (carries end conn) links.now }
    ensures within { IfSome result (λ place. place < length links.now) }
{
    links.iter().position(|link| link.carries(end, conn))
}

/// The place of the first link, from this one on, on which an endpoint has a connection open.
fn place_from(links: &[Link], first: usize, end: u32, conn: u64) -> Option<usize>
    requires { first ≤ length links.now }
    ensures { result ≡ option_map (λ more. first + more) (position (carries end conn) (drop first links.now)) }
{
    match place_among(&links[first..], end, conn) {
        None => None,
        Some(more) => Some(first + more),
    }
}

/// The peers of an endpoint's links among these, in order.
fn peers_among(alloc: Global, end: u32, links: &[Link]) -> Result<Vec<Address>, OutOfMemory>
    ensures { IfOk result (λ peers. peers.items ≡ peers_of end links.now) }
{
    let mut peers = Vec::new(alloc);
    for link in links {
        if link.end == end {
            peers.push(link.peer.copy()?)?;
        }
    }
    Ok(peers)
}
