//! A host with its nodes: what they make of a local event, and all that follows.

ghost use Rattle.std.specs.Prelude.{◌≡◌, ◌∷◌, [], map, None, MatchResult, IfOk, Ok};
ghost use Rattle.ch_model.specs.HostCalls.{host_connect, host_send, host_close, host_close_endpoint, host_timer_runs};
ghost use Rattle.ch_model.specs.Host.{host_on};
ghost use Rattle.ch_model.specs.Node.{node_life, node_waiting, node_args};
ghost use Rattle.ch_model.specs.CellSteps.{◌then◌, asked, act_on, acts_on, posted, step_on, steps_on, all_items};
ghost use Rattle.ch_model.specs.Cell.{cell_step, room_for as room_for_of, commanded, heard_as as heard_as_of, host_did};
ghost use Rattle.ch_model.specs.declared.entry.Verdict.TheVariants as verdicts;
ghost use Rattle.ch_cell.specs.Stops.{Stops};
ghost use Rattle.ch_cell.specs.Seats.{acts_in, node_at, read_of};
ghost use Rattle.ch_model.specs.declared.local.LocalEvent.TheVariants as events;
ghost use Rattle.ch_model.specs.Cell.{answered, closes_after};
ghost use Rattle.std.specs.Option.{option_map, option_copied};
ghost use Rattle.ch_cell.specs.Items.{NextItem};
ghost use Rattle.ch_cell.specs.New.{site_new, opened_at, all_opened, AreOf, named};
ghost use Rattle.ch_model.specs.Cell.{cell_new};
ghost use Rattle.ch_cell.specs.Did.{did, did_at, shuts_with, shut_did as shut_did_of, shut_at as shut_at_of, commanded_in};

use crate::seat::Seats;
use crate::told::{answer_of, joined, one, same_node, stop_of, told_steps};
use ch_base::{Address, Event, OutOfMemory, Room, Stop, Text};
use ch_endpoint::Host;
use ch_mail::Life;
use ch_model::{
    Act, CommandError, LocalEntries, LocalEntry, LocalEvent, LocalList, SocketEvent, Step, Verdict,
    Weight,
};
use ch_static::{Command, Table};
use std::alloc::Global;
use std::marker::Model;

/// A host with its nodes. Contracts see what both keep.
#[derive(Drop)]
pub struct Site {
    host: Host,
    seats: Seats,
}

impl Model for Site {
    ghost use Rattle.ch_model.specs.WorldState.{Cell};

    ghost Value = { Cell };

    ghost use Rattle.ch_laws_items.specs.Kept.{Apart};

    ghost view = { λ s. record { host = s.host.state; nodes = s.seats } };

    ghost use Rattle.std.specs.Prelude.{◌≡◌, false};

    ghost invariant = { λ s. s.host.failed ≡ false → Apart s.host.state.sockets };
}

/// An answer with all that followed.
fn told(verdict: Verdict, entries: Vec<LocalEntry>) -> LocalEntries
    ensures { (result.verdict ≡ verdict) × (result.entries ≡ entries.items) }
{
    LocalEntries {
        verdict,
        entries: LocalList { items: entries },
    }
}

/// An answer after which nothing follows.
fn refused(alloc: Global, verdict: Verdict) -> LocalEntries
    ensures { (result.verdict ≡ verdict) × (result.entries ≡ []) }
{
    LocalEntries {
        verdict,
        entries: LocalList {
            items: Vec::new(alloc),
        },
    }
}

/// A node of a new site: its own address, whose number is that of its endpoint, the unique number of this run of it,
/// and its labels.
#[derive(Drop)]
pub struct Opening {
    pub own: Address,
    pub unique: u32,
    pub labels: Table,
}

impl Site {
    /// A host of this host text and port, that takes peers of these host texts, with an endpoint opened for each node.
    /// Nothing has happened there. Where the nodes' own addresses are of this host and port, it is the model's new cell.
    pub fn new(
        alloc: Global,
        host: &[u8],
        port: u16,
        circle: &[Text],
        openings: Vec<Opening>,
    ) -> Result<Site, OutOfMemory>
        ensures made { IfOk result (λ site. site ≡ site_new host.now port circle.now openings.items) }
        ensures model { IfOk result (λ site. AreOf host.now port openings.items → site ≡ cell_new host.now port circle.now (map named openings.items)) }
    {
        let start = Site {
            host: Host::new(alloc, host, port, circle)?,
            seats: Seats::new(alloc),
        };
        start.opened(openings)
    }

    /// The site with all these nodes besides.
    fn opened(self, openings: Vec<Opening>) -> Result<Site, OutOfMemory>
        ensures { IfOk result (λ site. site ≡ all_opened openings.items self) }
    {
        let mut site = self;
        for opening in openings {
            site.open(opening)?;
        }
        Ok(site)
    }

    /// One more node, at an endpoint of its own.
    fn open(&mut self, opening: Opening) -> Result<(), OutOfMemory>
        ensures { IfOk result (λ _. self.new ≡ opened_at opening self.old) }
    {
        let end = opening.own.id;
        self.host.open(end)?;
        self.seats
            .add(end, opening.own, opening.unique, opening.labels)
    }

    fn alloc(&self) -> Global {
        self.seats.alloc()
    }

    /// A node opens a connection to a peer.
    #[tactic(auto, unfolding(crate::specs::Stops::stop_of))]
    fn connect(&mut self, end: u32, peer: &Address, conn: u64) -> Result<Vec<LocalEntry>, Stop>
        ensures { MatchResult result (λ entries. asked self.old (host_connect self.old.host end peer.now conn) ≡ Ok (entries.items, self.new)) (λ e. Stops e (asked self.old (host_connect self.old.host end peer.now conn))) }
    {
        match self.host.connect(end, peer, conn) {
            Ok(steps) => Ok(told_steps(steps)?),
            Err(error) => match stop_of(error) {
                Some(stop) => Err(stop),
                None => Ok(Vec::new(self.alloc())),
            },
        }
    }

    /// A node sends a payload on a connection.
    #[tactic(auto, unfolding(crate::specs::Stops::stop_of))]
    fn send(
        &mut self,
        end: u32,
        conn: u64,
        payload: &[u8],
        weight: Weight,
    ) -> Result<Vec<LocalEntry>, Stop>
        ensures { MatchResult result (λ entries. asked self.old (host_send self.old.host end conn payload.now weight) ≡ Ok (entries.items, self.new)) (λ e. Stops e (asked self.old (host_send self.old.host end conn payload.now weight))) }
    {
        match self.host.send(end, conn, payload, weight) {
            Ok(steps) => Ok(told_steps(steps)?),
            Err(error) => match stop_of(error) {
                Some(stop) => Err(stop),
                None => Ok(Vec::new(self.alloc())),
            },
        }
    }

    /// A node closes a connection.
    #[tactic(auto, unfolding(crate::specs::Stops::stop_of))]
    fn close(&mut self, end: u32, conn: u64) -> Result<Vec<LocalEntry>, Stop>
        ensures { MatchResult result (λ entries. asked self.old (host_close self.old.host end conn) ≡ Ok (entries.items, self.new)) (λ e. Stops e (asked self.old (host_close self.old.host end conn))) }
    {
        match self.host.close(end, conn) {
            Ok(steps) => Ok(told_steps(steps)?),
            Err(error) => match stop_of(error) {
                Some(stop) => Err(stop),
                None => Ok(Vec::new(self.alloc())),
            },
        }
    }

    /// One act of the node at an endpoint.
    fn act(&mut self, end: u32, act: Act) -> Result<Vec<LocalEntry>, Stop>
        ensures { MatchResult result (λ entries. act_on end act self.old ≡ Ok (entries.items, self.new)) (λ e. Stops e (act_on end act self.old)) }
    {
        match act {
            Act::Note(note) => Ok(one(self.alloc(), LocalEntry::Note(note))?),
            Act::Open { conn, peer } => self.connect(end, &peer, conn),
            Act::Put {
                conn,
                payload,
                weight,
            } => self.send(end, conn, payload.as_slice(), weight),
            Act::Close { conn } => self.close(end, conn),
        }
    }

    /// The acts of the node at an endpoint, in order.
    fn acts(&mut self, end: u32, acts: Vec<Act>) -> Result<Vec<LocalEntry>, Stop>
        ensures { MatchResult result (λ entries. acts_on end acts.items self.old ≡ Ok (entries.items, self.new)) (λ e. Stops e (acts_on end acts.items self.old)) }
    {
        let mut entries = Vec::new(self.alloc());
        for act in acts {
            let told = self.act(end, act)?;
            entries = joined(entries, told)?;
        }
        Ok(entries)
    }

    /// The node at an endpoint hears an event.
    fn post(&mut self, end: u32, event: Event) -> Result<Vec<LocalEntry>, Stop>
        ensures { MatchResult result (λ entries. posted end event self.old ≡ Ok (entries.items, self.new)) (λ e. Stops e (posted end event self.old)) }
    {
        match self.seats.event(end, event) {
            None => Ok(Vec::new(self.alloc())),
            Some(Ok(acts)) => self.acts(end, acts),
            Some(Err(CommandError::Worn)) => Err(Stop::Worn),
            Some(Err(_)) => Err(Stop::OutOfMemory),
        }
    }

    /// One step of the host: an event goes to its node, every other step is told.
    fn step_of_host(&mut self, step: Step) -> Result<Vec<LocalEntry>, Stop>
        ensures { MatchResult result (λ entries. step_on step self.old ≡ Ok (entries.items, self.new)) (λ e. Stops e (step_on step self.old)) }
    {
        match step {
            Step::Post { end, event } => self.post(end, event),
            step => Ok(one(self.alloc(), LocalEntry::Step(step))?),
        }
    }

    /// The steps of the host, in order.
    fn steps(&mut self, steps: Vec<Step>) -> Result<Vec<LocalEntry>, Stop>
        ensures { MatchResult result (λ entries. steps_on steps.items self.old ≡ Ok (entries.items, self.new)) (λ e. Stops e (steps_on steps.items self.old)) }
    {
        let mut entries = Vec::new(self.alloc());
        for step in steps {
            let told = self.step_of_host(step)?;
            entries = joined(entries, told)?;
        }
        Ok(entries)
    }

    /// The next whole item that a host's sockets have, handled at the host.
    fn next_item(&mut self) -> Result<Option<Vec<Step>>, Stop>
        ensures { MatchResult result (λ next. NextItem self.old (option_map (λ steps. steps.items) next) self.new) (λ e. Stops e (all_items self.old)) }
    {
        self.host.next()
    }

    /// All whole items that a host's sockets have are handled, each with all its consequences before the next.
    fn items(&mut self) -> Result<Vec<LocalEntry>, Stop>
        ensures { MatchResult result (λ entries. all_items self.old ≡ Ok (entries.items, self.new)) (λ e. Stops e (all_items self.old)) }
    {
        let mut entries = Vec::new(self.alloc());
        'items: loop {
            match self.next_item()? {
                None => return Ok(entries),
                Some(steps) => {
                    let told = self.steps(steps)?;
                    entries = joined(entries, told)?;
                }
            }
        }
    }

    /// What a node made of what it was asked, with all that follows, or the answer to its refusal.
    #[tactic(auto, unfolding(crate::specs::Stops::answer_of))]
    fn follow(
        &mut self,
        end: u32,
        done: Result<Vec<Act>, CommandError>,
    ) -> Result<LocalEntries, Stop>
        ensures { MatchResult result (λ made. did end (acts_in (λ acts. acts.items) done) self.old ≡ Ok ((made.verdict, made.entries), self.new)) (λ e. Stops e (did end (acts_in (λ acts. acts.items) done) self.old)) }
    {
        match done {
            Ok(acts) => self.follow_acts(end, acts),
            Err(error) => Ok(refused(self.alloc(), answer_of(error)?)),
        }
    }

    /// Acts of a node, with all that follows from them.
    fn follow_acts(&mut self, end: u32, acts: Vec<Act>) -> Result<LocalEntries, Stop>
        ensures { MatchResult result (λ made. answered verdicts.Ok (acts_on end acts.items self.old then all_items) ≡ Ok ((made.verdict, made.entries), self.new)) (λ e. Stops e (answered verdicts.Ok (acts_on end acts.items self.old then all_items))) }
    {
        let entries = self.acts(end, acts)?;
        let more = self.items()?;
        Ok(told(Verdict::Ok, joined(entries, more)?))
    }

    /// Steps of the host, with all that follows from them.
    fn follow_steps(&mut self, verdict: Verdict, steps: Vec<Step>) -> Result<LocalEntries, Stop>
        ensures { MatchResult result (λ made. answered verdict (steps_on steps.items self.old then all_items) ≡ Ok ((made.verdict, made.entries), self.new)) (λ e. Stops e (answered verdict (steps_on steps.items self.old then all_items))) }
    {
        let entries = self.steps(steps)?;
        let more = self.items()?;
        Ok(told(verdict, joined(entries, more)?))
    }

    /// What a node was asked, with all that follows; nothing where no node is at the endpoint.
    fn followed(
        &mut self,
        end: u32,
        done: Option<Result<Vec<Act>, CommandError>>,
    ) -> Result<LocalEntries, Stop>
        ensures { MatchResult result (λ made. did_at end (option_map (acts_in (λ acts. acts.items)) done) self.old ≡ Ok ((made.verdict, made.entries), self.new)) (λ e. Stops e (did_at end (option_map (acts_in (λ acts. acts.items)) done) self.old)) }
    {
        match done {
            None => Ok(refused(self.alloc(), Verdict::Nothing)),
            Some(done) => self.follow(end, done),
        }
    }

    /// The node at an endpoint makes a process.
    fn make(&mut self, end: u32) -> Result<LocalEntries, Stop>
        ensures { MatchResult result (λ made. cell_step self.old (events.Make end) ≡ Ok ((made.verdict, made.entries), self.new)) (λ e. Stops e (cell_step self.old (events.Make end))) }
    {
        let done = self.seats.make(end);
        self.followed(end, done)
    }

    /// The room of a command's link: all zero where the command is for the own node, or for none.
    fn room_for(&self, end: u32, own: &Address, peer: &Option<Address>) -> Room
        ensures { result ≡ room_for_of self.now.host end own.now peer.now }
    {
        match peer {
            Some(peer) if !same_node(peer, own) => self.host.room(end, peer),
            _ => Room {
                up: false,
                waits: 0,
                given: 0,
            },
        }
    }

    /// A process of the node at an endpoint asks something, where the link has this room.
    fn command_in(
        &mut self,
        end: u32,
        by: u32,
        command: Command,
        room: Room,
    ) -> Result<LocalEntries, Stop>
        ensures { MatchResult result (λ made. commanded_in room end by command self.old ≡ Ok ((made.verdict, made.entries), self.new)) (λ e. Stops e (commanded_in room end by command self.old)) }
    {
        let done = self.seats.command(end, by, command, room);
        self.followed(end, done)
    }

    /// A process of the node at an endpoint asks something.
    fn command(&mut self, end: u32, by: u32, command: Command) -> Result<LocalEntries, Stop>
        ensures { MatchResult result (λ made. cell_step self.old (events.Command end by command) ≡ Ok ((made.verdict, made.entries), self.new)) (λ e. Stops e (cell_step self.old (events.Command end by command))) }
    {
        match self.seats.directed(end, by, &command)? {
            None => Ok(refused(self.alloc(), Verdict::Nothing)),
            Some(directed) => {
                let room = self.room_for(end, &directed.own, &directed.peer);
                self.command_in(end, by, command, room)
            }
        }
    }

    /// The node at an endpoint is shut, and the endpoint is closed.
    fn shut(&mut self, end: u32) -> Result<LocalEntries, Stop>
        ensures { MatchResult result (λ made. cell_step self.old (events.Shut end) ≡ Ok ((made.verdict, made.entries), self.new)) (λ e. Stops e (cell_step self.old (events.Shut end))) }
    {
        let done = self.seats.shut(end);
        self.shut_at(end, done)
    }

    /// What a node made of being shut; nothing where no node is at the endpoint.
    fn shut_at(
        &mut self,
        end: u32,
        done: Option<Result<Vec<Act>, CommandError>>,
    ) -> Result<LocalEntries, Stop>
        ensures { MatchResult result (λ made. shut_at_of end (option_map (acts_in (λ acts. acts.items)) done) self.old ≡ Ok ((made.verdict, made.entries), self.new)) (λ e. Stops e (shut_at_of end (option_map (acts_in (λ acts. acts.items)) done) self.old)) }
    {
        match done {
            None => Ok(refused(self.alloc(), Verdict::Nothing)),
            Some(done) => self.shut_did(end, done),
        }
    }

    /// The acts of a node that was shut, or the answer to its refusal.
    #[tactic(auto, unfolding(crate::specs::Stops::answer_of))]
    fn shut_did(
        &mut self,
        end: u32,
        done: Result<Vec<Act>, CommandError>,
    ) -> Result<LocalEntries, Stop>
        ensures { MatchResult result (λ made. shut_did_of end (acts_in (λ acts. acts.items) done) self.old ≡ Ok ((made.verdict, made.entries), self.new)) (λ e. Stops e (shut_did_of end (acts_in (λ acts. acts.items) done) self.old)) }
    {
        match done {
            Ok(acts) => self.shut_with(end, acts),
            Err(error) => Ok(refused(self.alloc(), answer_of(error)?)),
        }
    }

    /// The acts of a node that was shut, then its endpoint is closed, with all that follows.
    fn shut_with(&mut self, end: u32, acts: Vec<Act>) -> Result<LocalEntries, Stop>
        ensures { MatchResult result (λ made. shuts_with end acts.items self.old ≡ Ok ((made.verdict, made.entries), self.new)) (λ e. Stops e (shuts_with end acts.items self.old)) }
    {
        let entries = self.acts(end, acts)?;
        let closing = self.close_endpoint(end)?;
        let entries = joined(entries, closing)?;
        let more = self.items()?;
        Ok(told(Verdict::Ok, joined(entries, more)?))
    }

    /// An endpoint is closed, and its node told.
    #[tactic(auto, unfolding(crate::specs::Stops::stop_of))]
    fn close_endpoint(&mut self, end: u32) -> Result<Vec<LocalEntry>, Stop>
        ensures { MatchResult result (λ entries. closes_after end self.old (host_close_endpoint self.old.host end) ≡ Ok (entries.items, self.new)) (λ e. Stops e (closes_after end self.old (host_close_endpoint self.old.host end))) }
    {
        match self.host.close_endpoint(end) {
            Ok(steps) => self.steps(steps),
            Err(error) => match stop_of(error) {
                Some(stop) => Err(stop),
                None => Ok(Vec::new(self.alloc())),
            },
        }
    }

    /// Something happens to a socket or a timer, which is answered so.
    fn on(&mut self, verdict: Verdict, event: SocketEvent) -> Result<LocalEntries, Stop>
        ensures { MatchResult result (λ made. host_did verdict self.old (host_on self.old.host event) ≡ Ok ((made.verdict, made.entries), self.new)) (λ e. Stops e (host_did verdict self.old (host_on self.old.host event))) }
    {
        let steps = self.host.on(event)?;
        self.follow_steps(verdict, steps)
    }

    /// What the host and its nodes make of a local event: the answer, and all that followed. It stops with `Worn`
    /// exactly where a count can't grow.
    pub fn step(&mut self, event: LocalEvent) -> Result<LocalEntries, Stop>
        ensures { MatchResult result (λ made. cell_step self.old event ≡ Ok ((made.verdict, made.entries), self.new)) (λ e. Stops e (cell_step self.old event)) }
    {
        match event {
            LocalEvent::Make { node } => self.make(node),
            LocalEvent::Command { node, by, command } => self.command(node, by, command),
            LocalEvent::Shut { node } => self.shut(node),
            LocalEvent::Came {
                mark: _,
                sock,
                peer_host,
            } => self.on(Verdict::Ok, SocketEvent::Came { sock, peer_host }),
            LocalEvent::Socket(event) => {
                let verdict = self.heard_as(&event);
                self.on(verdict, event)
            }
        }
    }

    /// What an event of a socket or a timer is answered by.
    fn heard_as(&self, event: &SocketEvent) -> Verdict
        ensures { result ≡ heard_as_of self.now.host event.now }
    {
        if self.host.hears(event) {
            Verdict::Ok
        } else {
            Verdict::Nothing
        }
    }

    /// The life of a process of the node at an endpoint. None where no node is there, or it wasn't made. It takes no
    /// memory.
    pub fn life(&self, end: u32, process: u32) -> Option<&Life>
        ensures { option_copied result ≡ read_of None (λ node. node_life node process) (node_at end self.now.nodes) }
    {
        match self.seats.at(end) {
            None => None,
            Some(node) => node.life(process),
        }
    }

    /// How many messages wait for a process of the node at an endpoint, 0 where there is no such process. It takes no
    /// memory.
    pub fn waiting(&self, end: u32, process: u32) -> usize
        ensures { result ≡ read_of 0 (λ node. node_waiting node process) (node_at end self.now.nodes) }
    {
        match self.seats.at(end) {
            None => 0,
            Some(node) => node.waiting(process),
        }
    }

    /// What a process of the node at an endpoint was given when it was spawned, nothing where there is no such process
    /// or it wasn't spawned. It takes no memory.
    pub fn args(&self, end: u32, process: u32) -> &[u8]
        ensures { result.now ≡ read_of [] (λ node. node_args node process) (node_at end self.now.nodes) }
    {
        match self.seats.at(end) {
            None => &[],
            Some(node) => node.args(process),
        }
    }

    /// The host text. It takes no memory.
    pub fn text(&self) -> &Text
        ensures { result.now ≡ self.now.host.host }
    {
        self.host.text()
    }

    /// The host's port. It takes no memory.
    pub fn port(&self) -> u16
        ensures { result ≡ self.now.host.port }
    {
        self.host.port()
    }

    /// Whether a timer runs for the link of an endpoint with a peer. It takes no memory.
    pub fn timer_runs(&self, end: u32, peer: &Address) -> bool
        ensures { result ≡ host_timer_runs self.now.host end peer.now }
    {
        self.host.timer_runs(end, peer)
    }
}
