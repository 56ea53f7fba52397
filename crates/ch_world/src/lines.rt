//! What each line of a journal does.

ghost use Rattle.std.specs.Prelude.{◌≡◌, ◌∷◌, [], Some, None, true, false, MatchResult, IfOk, Ok, if◌then◌else◌};
ghost use Rattle.std.specs.Option.{option_map};
ghost use Rattle.ch_cell.specs.Stops.{Stops};
ghost use Rattle.ch_model.specs.declared.entry.Entry.TheVariants as entries;
ghost use Rattle.ch_model.specs.declared.local.LocalEvent.TheVariants as events;
ghost use Rattle.ch_model.specs.Timers.{timer_runs_for as timer_runs_for_of};
ghost use Rattle.ch_model.specs.World.{is_declaration as is_declaration_of, event_step, world_step};
ghost use Rattle.ch_model.specs.WorldHappenings.{joins as joins_of, refuses as refuses_of, comes as comes_of, feeds as feeds_of, loses as loses_of, times_out as times_out_of, nothing as nothing_of};
ghost use Rattle.ch_model.specs.WorldLines.{command_as, node_hears, on_socket, can_join, can_come, can_refuse, can_feed, can_cut, is_at_work, is_strangers, cuts, knocks as knocks_of, pokes, quits, other_line as other_line_of, line_done as line_done_of};
ghost use Rattle.ch_world.specs.Lines.{is_settle as is_settle_of};

use crate::answer::{Answer, joined, nothing, one, tells};
use crate::realm::Realm;
use ch_base::{OutOfMemory, Stop, Text};
use ch_model::{End, Entry, Line, LocalEvent, SockName, What};
use ch_names::Asked;
use ch_sockets::Opener;

/// Whether a line declares a name, a label or a stranger.
pub fn is_declaration(what: &What) -> bool
    ensures { result ≡ is_declaration_of what.now }
{
    match what {
        What::Node {
            name: _,
            address: _,
            unique: _,
        } => true,
        What::Away {
            name: _,
            address: _,
            unique: _,
        } => true,
        What::Label { node: _, label: _ } => true,
        What::Stranger { name: _, host: _ } => true,
        _ => false,
    }
}

/// Whether a line says that all is to settle.
pub fn is_settle(what: &What) -> bool
    ensures { result ≡ is_settle_of what.now }
{
    match what {
        What::Settle => true,
        _ => false,
    }
}

/// A line's answer before the entries of what it did.
fn answered(number: u32, answer: Answer) -> Result<Vec<Entry>, OutOfMemory>
    ensures { IfOk result (λ all. all.items ≡ entries.Line number answer.0 ∷ answer.1) }
{
    let Answer { verdict, entries } = answer;
    let line = Entry::Line {
        number,
        answer: verdict,
    };
    let first = one(*entries.allocator(), line)?;
    joined(first, entries)
}

impl Realm {
    // ---- nodes

    /// A process of a node is made.
    fn makes(&mut self, node: &Text) -> Result<Answer, Stop>
        ensures { MatchResult result (λ answer. node_hears node.now (λ end. events.Make end) self.old ≡ Ok (answer, self.new)) (λ e. Stops e (node_hears node.now (λ end. events.Make end) self.old)) }
    {
        let own = self.address_as(node)?;
        match self.cell_of(&own) {
            None => Ok(nothing(self.alloc())),
            Some(place) => self.cell_hears(place, LocalEvent::Make { node: own.id }),
        }
    }

    /// A node is shut.
    fn shuts(&mut self, node: &Text) -> Result<Answer, Stop>
        ensures { MatchResult result (λ answer. node_hears node.now (λ end. events.Shut end) self.old ≡ Ok (answer, self.new)) (λ e. Stops e (node_hears node.now (λ end. events.Shut end) self.old)) }
    {
        let own = self.address_as(node)?;
        match self.cell_of(&own) {
            None => Ok(nothing(self.alloc())),
            Some(place) => self.cell_hears(place, LocalEvent::Shut { node: own.id }),
        }
    }

    /// A process asks something of its node.
    fn commands(&mut self, asked: Asked) -> Result<Answer, Stop>
        ensures { MatchResult result (λ answer. node_hears asked.by.node (λ end. events.Command end asked.by.counter asked.command) self.old ≡ Ok (answer, self.new)) (λ e. Stops e (node_hears asked.by.node (λ end. events.Command end asked.by.counter asked.command) self.old)) }
    {
        let Asked { by, command } = asked;
        let own = self.address_as(&by.node)?;
        match self.cell_of(&own) {
            None => Ok(nothing(self.alloc())),
            Some(place) => self.cell_hears(
                place,
                LocalEvent::Command {
                    node: own.id,
                    by: by.counter,
                    command,
                },
            ),
        }
    }

    // ---- sockets

    /// The opener's end of a socket is joined.
    #[tactic(auto, using(crate::proofs::Found::on_none, crate::proofs::Found::joins_found))]
    fn join(&mut self, sock: &SockName) -> Result<Answer, Stop>
        ensures { MatchResult result (λ answer. on_socket sock.now can_join joins_of self.old ≡ Ok (answer, self.new)) (λ e. Stops e (on_socket sock.now can_join joins_of self.old)) }
    {
        match self.joinable(sock)? {
            None => Ok(nothing(self.alloc())),
            Some(held) => self.joins(held),
        }
    }

    /// The target's end of a socket has come.
    #[tactic(auto, using(crate::proofs::Found::on_none, crate::proofs::Found::comes_found))]
    fn come(&mut self, sock: &SockName) -> Result<Answer, Stop>
        ensures { MatchResult result (λ answer. on_socket sock.now can_come comes_of self.old ≡ Ok (answer, self.new)) (λ e. Stops e (on_socket sock.now can_come comes_of self.old)) }
    {
        match self.awaited(sock)? {
            None => Ok(nothing(self.alloc())),
            Some(coming) => self.comes(coming),
        }
    }

    /// A dial has failed.
    #[tactic(auto, using(crate::proofs::Found::on_none, crate::proofs::Found::refuses_found))]
    fn refuse(&mut self, sock: &SockName) -> Result<Answer, Stop>
        ensures { MatchResult result (λ answer. on_socket sock.now can_refuse refuses_of self.old ≡ Ok (answer, self.new)) (λ e. Stops e (on_socket sock.now can_refuse refuses_of self.old)) }
    {
        match self.refusable(sock)? {
            None => Ok(nothing(self.alloc())),
            Some(held) => self.refuses(held),
        }
    }

    /// At most so many unread bytes are handed to an end.
    #[tactic(auto, using(crate::proofs::Found::on_none, crate::proofs::Found::feeds_found))]
    fn feed(&mut self, sock: &SockName, which: End, count: u64) -> Result<Answer, Stop>
        ensures { MatchResult result (λ answer. on_socket sock.now (can_feed which) (feeds_of which count) self.old ≡ Ok (answer, self.new)) (λ e. Stops e (on_socket sock.now (can_feed which) (feeds_of which count) self.old)) }
    {
        match self.feedable(sock, which)? {
            None => Ok(nothing(self.alloc())),
            Some(held) => {
                let bytes = self.takes(sock, which, count)?;
                self.fed(which, held, bytes)
            }
        }
    }

    /// What is unread towards an end is gone, and nothing more arrives there.
    #[tactic(auto, using(crate::proofs::Found::on_none, crate::proofs::Found::cuts_found))]
    fn cut(&mut self, sock: &SockName, which: End) -> Result<Answer, Stop>
        ensures { MatchResult result (λ answer. on_socket sock.now (can_cut which) (cuts which) self.old ≡ Ok (answer, self.new)) (λ e. Stops e (on_socket sock.now (can_cut which) (cuts which) self.old)) }
    {
        match self.severable(sock, which)? {
            None => Ok(nothing(self.alloc())),
            Some(held) => {
                self.severs(&held.sock, which);
                let cut = Entry::Cut {
                    sock: held.sock,
                    end: which,
                };
                Ok(tells(self.alloc(), cut)?)
            }
        }
    }

    /// An end loses its socket.
    #[tactic(auto, using(crate::proofs::Found::on_none, crate::proofs::Found::loses_found))]
    fn lose(&mut self, sock: &SockName, which: End) -> Result<Answer, Stop>
        ensures { MatchResult result (λ answer. on_socket sock.now (is_at_work which) (loses_of which) self.old ≡ Ok (answer, self.new)) (λ e. Stops e (on_socket sock.now (is_at_work which) (loses_of which) self.old)) }
    {
        match self.at_work(sock, which)? {
            None => Ok(nothing(self.alloc())),
            Some(held) => self.loses(which, held),
        }
    }

    /// The timer of a node for a peer is due, where it runs.
    fn late(&mut self, node: &Text, peer: &Text) -> Result<Answer, Stop>
        ensures { MatchResult result (λ answer. (if timer_runs_for_of self.old node.now peer.now then times_out_of node.now peer.now self.old else nothing_of self.old) ≡ Ok (answer, self.new)) (λ e. Stops e (if timer_runs_for_of self.old node.now peer.now then times_out_of node.now peer.now self.old else nothing_of self.old)) }
    {
        if self.timer_runs_for(node, peer)? {
            self.times_out(node, peer)
        } else {
            Ok(nothing(self.alloc()))
        }
    }

    // ---- strangers

    /// A stranger opens a socket to a node's host: its own end is open, and it reads nothing.
    fn knock(&mut self, stranger: &Text, node: &Text) -> Result<Answer, Stop>
        ensures { MatchResult result (λ answer. knocks_of stranger.now node.now self.old ≡ Ok (answer, self.new)) (λ e. Stops e (knocks_of stranger.now node.now self.old)) }
    {
        let host = self.stranger_host(stranger)?;
        let address = self.address_as(node)?;
        let sock = self.connects(
            stranger.copy()?,
            node.copy()?,
            host,
            Opener::Stranger,
            &address,
        )?;
        Ok(tells(self.alloc(), Entry::Knocked { sock })?)
    }

    /// A stranger writes bytes.
    #[tactic(auto, using(crate::proofs::Found::on_none, crate::proofs::Found::pokes_found))]
    fn poke(&mut self, sock: &SockName, bytes: &Text) -> Result<Answer, Stop>
        ensures { MatchResult result (λ answer. on_socket sock.now is_strangers (pokes bytes.now) self.old ≡ Ok (answer, self.new)) (λ e. Stops e (on_socket sock.now is_strangers (pokes bytes.now) self.old)) }
    {
        match self.strangers_end(sock)? {
            None => Ok(nothing(self.alloc())),
            Some(held) => {
                self.arrives(&held.sock, End::T, bytes.as_slice())?;
                let poked = Entry::Poked {
                    sock: held.sock,
                    bytes: bytes.copy()?,
                };
                Ok(tells(self.alloc(), poked)?)
            }
        }
    }

    /// A stranger ends its end.
    #[tactic(auto, using(crate::proofs::Found::on_none, crate::proofs::Found::quits_found))]
    fn quit(&mut self, sock: &SockName) -> Result<Answer, Stop>
        ensures { MatchResult result (λ answer. on_socket sock.now is_strangers quits self.old ≡ Ok (answer, self.new)) (λ e. Stops e (on_socket sock.now is_strangers quits self.old)) }
    {
        match self.strangers_end(sock)? {
            None => Ok(nothing(self.alloc())),
            Some(held) => {
                self.ends(&held.sock, End::O);
                Ok(tells(self.alloc(), Entry::Quitted { sock: held.sock })?)
            }
        }
    }

    // ---- all lines but `settle`

    /// A line that isn't a command of a process.
    fn other_line(&mut self, what: &What) -> Result<Answer, Stop>
        ensures { MatchResult result (λ answer. other_line_of what.now self.old ≡ Ok (answer, self.new)) (λ e. Stops e (other_line_of what.now self.old)) }
    {
        match what {
            What::Proc { node } => self.makes(node),
            What::Shut { node } => self.shuts(node),
            What::Join { sock } => self.join(sock),
            What::Come { sock } => self.come(sock),
            What::Refuse { sock } => self.refuse(sock),
            What::Feed { sock, end, count } => self.feed(sock, *end, *count as u64),
            What::Cut { sock, end } => self.cut(sock, *end),
            What::Lose { sock, end } => self.lose(sock, *end),
            What::Late { node, peer } => self.late(node, peer),
            What::Knock { stranger, node } => self.knock(stranger, node),
            What::Poke { sock, bytes } => self.poke(sock, bytes),
            What::Quit { sock } => self.quit(sock),
            _ => Ok(nothing(self.alloc())),
        }
    }

    /// What a line does, with all that follows.
    fn line_done(&mut self, what: &What) -> Result<Answer, Stop>
        ensures { MatchResult result (λ answer. line_done_of what.now self.old ≡ Ok (answer, self.new)) (λ e. Stops e (line_done_of what.now self.old)) }
    {
        match self.command_as(what)? {
            None => self.other_line(what),
            Some(asked) => self.commands(asked),
        }
    }

    /// An event line that isn't `settle`.
    #[tactic(auto, using(crate::proofs::EventLines::event_is))]
    fn event_line(&mut self, number: u32, what: &What) -> Result<Vec<Entry>, Stop>
        requires { is_settle_of what.now ≡ false }
        ensures { MatchResult result (λ entries. event_step number what.now self.old ≡ Ok (entries.items, self.new)) (λ e. Stops e (event_step number what.now self.old)) }
    {
        let answer = self.line_done(what)?;
        Ok(answered(number, answer)?)
    }

    /// What a line does: its entries. A declaration does nothing, and has none. It stops with `Worn` exactly where a
    /// count can't grow; after a stop nothing is promised of what it left.
    pub fn step(&mut self, line: &Line) -> Result<Vec<Entry>, Stop>
        requires { is_settle_of line.now.what ≡ false }
        ensures { MatchResult result (λ entries. world_step self.old line.now ≡ Ok (entries.items, self.new)) (λ e. Stops e (world_step self.old line.now)) }
    {
        if is_declaration(&line.what) {
            Ok(Vec::new(self.alloc()))
        } else {
            self.event_line(line.number, &line.what)
        }
    }
}
