//! What the network does to a socket or a timer, with all that follows.

ghost use Rattle.std.specs.Prelude.{◌≡◌, ◌<◌, ◌+◌, ◌*◌, ◌∷◌, length, slice_get, slice_set, Some, MatchResult, IfOk, Ok};
ghost use Rattle.ch_cell.specs.Stops.{Stops};
ghost use Rattle.ch_model.specs.declared.entry.Entry.TheVariants as entries;
ghost use Rattle.ch_model.specs.declared.local.LocalEvent.TheVariants as events;
ghost use Rattle.ch_model.specs.declared.step.SocketEvent.TheVariants as socket_events;
ghost use Rattle.ch_model.specs.WorldHappenings.{after_entry as after_entry_of, cell_hears as cell_hears_of, end_hears as end_hears_of, joins as joins_of, refuses as refuses_of, comes as comes_of, comes_at as comes_at_of, hands as hands_of, times_out as times_out_of};
ghost use Rattle.ch_model.specs.declared.name.End.TheVariants.{O};
ghost use Rattle.ch_world.specs.Answers.{event_of};
ghost use Rattle.ch_world.specs.Held.{end_in, socket_in, socket_coming};
ghost use Rattle.ch_world.specs.Hosts.{accept_at};

use crate::answer::{Answer, after_entry, nothing};
use crate::heard::{Heard, event};
use crate::held::{Coming, Held, mark};
use crate::realm::Realm;
use ch_base::{OutOfMemory, Stop, Text};
use ch_model::{End, Entry, LocalEvent, SocketEvent};

impl Realm {
    /// A host hears an event, and what it makes of it is told.
    pub(crate) fn cell_hears(&mut self, place: usize, event: LocalEvent) -> Result<Answer, Stop>
        ensures { MatchResult result (λ answer. cell_hears_of place event self.old ≡ Ok (answer, self.new)) (λ e. Stops e (cell_hears_of place event self.old)) }
    {
        if place >= self.count() {
            return Ok(nothing(self.alloc()));
        }
        let made = self.cells[place].site.step(event)?;
        let at = self.cells[place].at(place)?;
        let entries = self.told(&at, made.entries)?;
        Ok(Answer {
            verdict: made.verdict,
            entries,
        })
    }

    /// The host of an end hears what happens to it, under its number for the socket.
    pub(crate) fn end_hears(&mut self, held: &Held, heard: Heard) -> Result<Answer, Stop>
        ensures { MatchResult result (λ answer. end_hears_of (end_in held.now) (event_of heard) self.old ≡ Ok (answer, self.new)) (λ e. Stops e (end_hears_of (end_in held.now) (event_of heard) self.old)) }
    {
        match held.cell {
            None => Ok(nothing(self.alloc())),
            Some(place) => match held.number {
                None => Ok(nothing(self.alloc())),
                Some(sock) => self.cell_hears(place, LocalEvent::Socket(event(heard, sock))),
            },
        }
    }

    /// The opener's end is joined.
    pub(crate) fn joins(&mut self, held: Held) -> Result<Answer, Stop>
        ensures { MatchResult result (λ answer. joins_of (socket_in held) self.old ≡ Ok (answer, self.new)) (λ e. Stops e (joins_of (socket_in held) self.old)) }
    {
        self.opens(&held.sock, End::O);
        let answer = self.end_hears(&held, Heard::Joined)?;
        Ok(after_entry(Entry::Joined { sock: held.sock }, answer)?)
    }

    /// The dial has failed.
    pub(crate) fn refuses(&mut self, held: Held) -> Result<Answer, Stop>
        ensures { MatchResult result (λ answer. refuses_of (socket_in held) self.old ≡ Ok (answer, self.new)) (λ e. Stops e (refuses_of (socket_in held) self.old)) }
    {
        let answer = self.end_hears(&held, Heard::Refused)?;
        Ok(after_entry(Entry::Refused { sock: held.sock }, answer)?)
    }

    /// An end loses its socket.
    pub(crate) fn loses(&mut self, which: End, held: Held) -> Result<Answer, Stop>
        ensures { MatchResult result (λ answer. after_entry_of (entries.Lost held.sock which) (end_hears_of (end_in held) (λ sock. socket_events.Lost sock) self.old) ≡ Ok (answer, self.new)) (λ e. Stops e (after_entry_of (entries.Lost held.sock which) (end_hears_of (end_in held) (λ sock. socket_events.Lost sock) self.old))) }
    {
        let answer = self.end_hears(&held, Heard::Lost)?;
        let lost = Entry::Lost {
            sock: held.sock,
            end: which,
        };
        Ok(after_entry(lost, answer)?)
    }

    /// Bytes are handed to an end, or the end of its input where there are none.
    fn hands(&mut self, held: &Held, bytes: Text) -> Result<Answer, Stop>
        ensures { MatchResult result (λ answer. hands_of bytes (end_in held.now) self.old ≡ Ok (answer, self.new)) (λ e. Stops e (hands_of bytes (end_in held.now) self.old)) }
    {
        if bytes.is_empty() {
            self.end_hears(held, Heard::Ended)
        } else {
            self.end_hears(held, Heard::Fed(bytes))
        }
    }

    /// Bytes that were taken are handed to an end, and so many are told.
    pub(crate) fn fed(&mut self, which: End, held: Held, bytes: Text) -> Result<Answer, Stop>
        ensures { MatchResult result (λ answer. after_entry_of (entries.Fed held.sock which (length bytes)) (hands_of bytes (end_in held) self.old) ≡ Ok (answer, self.new)) (λ e. Stops e (after_entry_of (entries.Fed held.sock which (length bytes)) (hands_of bytes (end_in held) self.old))) }
    {
        let count = bytes.len() as u64;
        let answer = self.hands(&held, bytes)?;
        let fed = Entry::Fed {
            sock: held.sock,
            end: which,
            count,
        };
        Ok(after_entry(fed, answer)?)
    }

    /// A host accepts one more socket: the next of its odd numbers.
    fn accepts(&mut self, place: usize) -> Result<Option<u64>, OutOfMemory>
        ensures { IfOk result (λ number. accept_at place self.old ≡ (number, self.new)) }
    {
        if place >= self.cells.len() {
            return Ok(None);
        }
        let count = self.cells[place].accepted;
        let number = odd(count)?;
        self.cells[place].accepted = count + 1;
        Ok(Some(number))
    }

    /// The target's end has come: its host accepts the socket.
    fn comes_at(&mut self, place: usize, coming: &Coming) -> Result<Answer, Stop>
        ensures { MatchResult result (λ answer. comes_at_of place (socket_coming coming.now) self.old ≡ Ok (answer, self.new)) (λ e. Stops e (comes_at_of place (socket_coming coming.now) self.old)) }
    {
        let mark = mark(coming)?;
        match self.accepts(place)? {
            None => Ok(nothing(self.alloc())),
            Some(sock) => {
                self.comes_under(&coming.sock, sock)?;
                let peer_host = coming.from_host.copy()?;
                self.cell_hears(
                    place,
                    LocalEvent::Came {
                        mark,
                        sock,
                        peer_host,
                    },
                )
            }
        }
    }

    /// The target's end has come.
    pub(crate) fn comes(&mut self, coming: Coming) -> Result<Answer, Stop>
        ensures { MatchResult result (λ answer. comes_of (socket_coming coming) self.old ≡ Ok (answer, self.new)) (λ e. Stops e (comes_of (socket_coming coming) self.old)) }
    {
        match coming.cell {
            None => Ok(nothing(self.alloc())),
            Some(place) => {
                let answer = self.comes_at(place, &coming)?;
                Ok(after_entry(Entry::Came { sock: coming.sock }, answer)?)
            }
        }
    }

    /// The timer of a node for a peer is due.
    pub(crate) fn times_out(&mut self, node: &Text, peer: &Text) -> Result<Answer, Stop>
        ensures { MatchResult result (λ answer. times_out_of node.now peer.now self.old ≡ Ok (answer, self.new)) (λ e. Stops e (times_out_of node.now peer.now self.old)) }
    {
        let own = self.address_as(node)?;
        match self.cell_of(&own) {
            None => Ok(nothing(self.alloc())),
            Some(place) => {
                let late = SocketEvent::Late {
                    end: own.id,
                    peer: self.address_as(peer)?,
                };
                let answer = self.cell_hears(place, LocalEvent::Socket(late))?;
                let timed = Entry::Timed {
                    node: node.copy()?,
                    peer: peer.copy()?,
                };
                Ok(after_entry(timed, answer)?)
            }
        }
    }
}

/// The odd number of this place among all, from 0.
fn odd(place: u64) -> Result<u64, OutOfMemory>
    ensures { IfOk result (λ number. number ≡ 2 * place + 1) }
{
    let even = place.checked_mul(2).ok_or(OutOfMemory)?;
    even.checked_add(1).ok_or(OutOfMemory)
}
