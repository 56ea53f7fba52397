//! What followed at a host, told in the journal's names.

ghost use Rattle.std.specs.Prelude.{◌≡◌, ◌++◌, ◌∷◌, [], IfOk};
ghost use Rattle.ch_model.specs.HostSteps.{own_address as own_address_of};
ghost use Rattle.ch_model.specs.WorldSockets.{other as other_of};
ghost use Rattle.ch_model.specs.WorldSteps.{note_entry as note_entry_of, place_after as place_after_of, noted, stepped as stepped_of, local_told, all_told};
ghost use Rattle.ch_model.specs.declared.step.Step.TheVariants as steps;
ghost use Rattle.ch_world.specs.Hosts.{cell_in};

use crate::address::own_address;
use crate::answer::{joined, one};
use crate::hosted::HostAt;
use crate::realm::Realm;
use ch_base::{Address, OutOfMemory, Text, Why};
use ch_model::{End, Entry, LocalEntry, LocalList, Note, Place, Step};
use ch_names::place_after;
use ch_sockets::Opener;

/// The end across.
fn other(end: End) -> End
    ensures { result ≡ other_of end }
{
    match end {
        End::O => End::T,
        End::T => End::O,
    }
}

impl Realm {
    /// The entry of a note.
    fn note_entry(&self, note: &Note) -> Result<Entry, OutOfMemory>
        ensures { IfOk result (λ entry. entry ≡ note_entry_of self.now.names self.now.last note.now) }
    {
        self.names.note_entry(self.last, note)
    }

    /// The place of the message that was last said or read, after a note.
    fn pass(&mut self, note: &Note)
        ensures { self.new ≡ record self.old { last = place_after_of self.old.last note.now } }
    {
        self.last = place_after(self.last, note);
    }

    /// A note is told.
    fn note(&mut self, note: &Note) -> Result<Vec<Entry>, OutOfMemory>
        ensures { IfOk result (λ entries. noted note.now self.old ≡ (entries.items, self.new)) }
    {
        let entry = self.note_entry(note)?;
        self.pass(note);
        one(self.alloc(), entry)
    }

    /// A socket is dialed: both ends are pending, or the target's is over from the start.
    fn dial(
        &mut self,
        at: &HostAt,
        sock: u64,
        end: u32,
        peer: &Address,
    ) -> Result<Vec<Entry>, OutOfMemory>
        ensures { IfOk result (λ entries. stepped_of at.now.place (cell_in at.now) (steps.Dial sock end peer.now) self.old ≡ (entries.items, self.new)) }
    {
        let from = self.called(&own_address(at, end)?)?;
        let to = self.called(peer)?;
        let opener = Opener::Dialing {
            cell: at.place,
            number: sock,
        };
        let sock = self.connects(from, to, at.text.copy()?, opener, peer)?;
        one(self.alloc(), Entry::Dial { sock })
    }

    /// The next item of a socket is read.
    fn read(&mut self, at: &HostAt, sock: u64) -> Result<Vec<Entry>, OutOfMemory>
        ensures { IfOk result (λ entries. stepped_of at.now.place (cell_in at.now) (steps.Read sock) self.old ≡ (entries.items, self.new)) }
    {
        match self.sockets.end_under(at.place, sock)? {
            None => {}
            Some((name, end)) => self.reads_item(&name, end),
        }
        Ok(Vec::new(self.alloc()))
    }

    /// The bytes of an item are written: they arrive at the other end.
    fn write(
        &mut self,
        at: &HostAt,
        sock: u64,
        bytes: Text,
        said: Option<Place>,
    ) -> Result<Vec<Entry>, OutOfMemory>
        ensures { IfOk result (λ entries. stepped_of at.now.place (cell_in at.now) (steps.Write sock bytes said) self.old ≡ (entries.items, self.new)) }
    {
        match self.sockets.end_under(at.place, sock)? {
            None => Ok(Vec::new(self.alloc())),
            Some((name, end)) => {
                self.item_arrives(&name, other(end), bytes.as_slice(), said)?;
                one(
                    self.alloc(),
                    Entry::Wrote {
                        sock: name,
                        end,
                        bytes,
                    },
                )
            }
        }
    }

    /// A link came up on a socket.
    fn up(&mut self, at: &HostAt, sock: u64) -> Result<Vec<Entry>, OutOfMemory>
        ensures { IfOk result (λ entries. stepped_of at.now.place (cell_in at.now) (steps.Up sock) self.old ≡ (entries.items, self.new)) }
    {
        match self.sockets.end_under(at.place, sock)? {
            None => Ok(Vec::new(self.alloc())),
            Some((name, end)) => one(self.alloc(), Entry::Up { sock: name, end }),
        }
    }

    /// An end that was up is closed.
    fn down(&mut self, at: &HostAt, sock: u64) -> Result<Vec<Entry>, OutOfMemory>
        ensures { IfOk result (λ entries. stepped_of at.now.place (cell_in at.now) (steps.Down sock) self.old ≡ (entries.items, self.new)) }
    {
        match self.sockets.end_under(at.place, sock)? {
            None => Ok(Vec::new(self.alloc())),
            Some((name, end)) => {
                self.ends(&name, end);
                one(self.alloc(), Entry::Down { sock: name, end })
            }
        }
    }

    /// An end that wasn't up is closed.
    fn left(&mut self, at: &HostAt, sock: u64) -> Result<Vec<Entry>, OutOfMemory>
        ensures { IfOk result (λ entries. stepped_of at.now.place (cell_in at.now) (steps.Left sock) self.old ≡ (entries.items, self.new)) }
    {
        match self.sockets.end_under(at.place, sock)? {
            None => Ok(Vec::new(self.alloc())),
            Some((name, end)) => {
                self.ends(&name, end);
                one(self.alloc(), Entry::Left { sock: name, end })
            }
        }
    }

    /// A link has failed.
    fn broke(
        &mut self,
        at: &HostAt,
        end: u32,
        peer: &Address,
        why: Why,
    ) -> Result<Vec<Entry>, OutOfMemory>
        ensures { IfOk result (λ entries. stepped_of at.now.place (cell_in at.now) (steps.Broke end peer.now why) self.old ≡ (entries.items, self.new)) }
    {
        let node = self.called(&own_address(at, end)?)?;
        let peer = self.called(peer)?;
        one(self.alloc(), Entry::Broke { node, peer, why })
    }

    /// A step of a host is told, and does what it does to the sockets.
    fn stepped(&mut self, at: &HostAt, step: Step) -> Result<Vec<Entry>, OutOfMemory>
        ensures { IfOk result (λ entries. stepped_of at.now.place (cell_in at.now) step self.old ≡ (entries.items, self.new)) }
    {
        match step {
            Step::Dial { sock, end, peer } => self.dial(at, sock, end, &peer),
            Step::Read { sock } => self.read(at, sock),
            Step::Write { sock, bytes, said } => self.write(at, sock, bytes, said),
            Step::Up { sock } => self.up(at, sock),
            Step::Down { sock } => self.down(at, sock),
            Step::Left { sock } => self.left(at, sock),
            Step::Broke { end, peer, why } => self.broke(at, end, &peer, why),
            Step::Post { end: _, event: _ } => Ok(Vec::new(self.alloc())),
        }
    }

    /// One thing that followed at a host.
    fn local(&mut self, at: &HostAt, entry: LocalEntry) -> Result<Vec<Entry>, OutOfMemory>
        ensures { IfOk result (λ entries. local_told at.now.place (cell_in at.now) entry self.old ≡ (entries.items, self.new)) }
    {
        match entry {
            LocalEntry::Step(step) => self.stepped(at, step),
            LocalEntry::Note(note) => self.note(&note),
        }
    }

    /// All that followed at a host, in order.
    pub(crate) fn told(
        &mut self,
        at: &HostAt,
        followed: LocalList,
    ) -> Result<Vec<Entry>, OutOfMemory>
        ensures { IfOk result (λ entries. all_told at.now.place (cell_in at.now) followed self.old ≡ (entries.items, self.new)) }
    {
        let mut entries = Vec::new(self.alloc());
        for entry in followed.items {
            let told = self.local(at, entry)?;
            entries = joined(entries, told)?;
        }
        Ok(entries)
    }
}
