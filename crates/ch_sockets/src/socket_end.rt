//! One end of a socket.
//!
//! What is unread stands below; sockets stand above.

ghost use Rattle.std.specs.Prelude.{◌≡◌, ◌||◌, [], length, Some, IfOk, OnOk, OnErr, take, drop};
ghost use Rattle.ch_model.specs.Stages.{is_ended as is_ended_of};
ghost use Rattle.ch_model.specs.WorldSockets.{end_of_nobody, target_end, opened, ended, cut as cut_of, arrives as arrives_of, item_arrives as item_arrives_of, is_of_host as is_of_host_of, is_end_of, same_number};
ghost use Rattle.ch_model.specs.WorldSteps.{first_place, later_places};
ghost use Rattle.ch_sockets.specs.Stages.{stage_of};
ghost use Rattle.ch_sockets.specs.Openers.{opener_end};

use crate::opener::Opener;
use crate::stage::Stage;
use crate::unread::Unread;
use ch_base::{OutOfMemory, Text};
use ch_model::Place;
use std::alloc::Global;
use std::collections::VecDeque;
use std::marker::Model;

/// One end of a socket: whose it is, how it stands, and what was written towards it and not read.
#[derive(Debug, Drop)]
pub struct SocketEnd {
    cell: Option<usize>,
    number: Option<u64>,
    stage: Stage,
    unread: Unread,
    /// For each item that was written and not read, the place of the message that it carries.
    places: VecDeque<Option<Place>>,
    is_cut: bool,
}

impl Model for SocketEnd {
    ghost use Rattle.ch_model.specs.WorldState.{WorldEnd};

    ghost Value = { WorldEnd };

    ghost use Rattle.ch_sockets.specs.Stages.{stage_of};

    ghost view = { λ e. record { cell = e.cell; number = e.number; stage = stage_of e.stage; unread = e.unread; places = e.places.items; is_cut = e.is_cut } };
}

/// Whether a place is known and is this.
fn is_cell(held: Option<usize>, cell: usize) -> bool
    ensures { result ≡ same_number held cell }
{
    match held {
        None => false,
        Some(known) => known == cell,
    }
}

/// Whether a number is known and is this.
fn is_number(held: Option<u64>, number: u64) -> bool
    ensures { result ≡ same_number held number }
{
    match held {
        None => false,
        Some(known) => known == number,
    }
}

impl SocketEnd {
    fn of_nobody(alloc: Global, cell: Option<usize>, number: Option<u64>, stage: Stage) -> SocketEnd
        ensures { result ≡ end_of_nobody cell number (stage_of stage) }
    {
        SocketEnd {
            cell,
            number,
            stage,
            unread: Unread::new(alloc),
            places: VecDeque::new(alloc),
            is_cut: false,
        }
    }

    /// The opener's end of a new socket.
    pub(crate) fn of_opener(alloc: Global, opener: Opener) -> SocketEnd
        ensures { result ≡ opener_end opener }
    {
        match opener {
            Opener::Dialing { cell, number } => {
                SocketEnd::of_nobody(alloc, Some(cell), Some(number), Stage::Pending)
            }
            Opener::Stranger => SocketEnd::of_nobody(alloc, None, None, Stage::Open),
        }
    }

    /// The target's end of a new socket: pending, or ended where its host isn't there.
    pub(crate) fn of_target(alloc: Global, target: Option<usize>) -> SocketEnd
        ensures { result ≡ target_end target }
    {
        match target {
            None => SocketEnd::of_nobody(alloc, None, None, Stage::Ended),
            Some(cell) => SocketEnd::of_nobody(alloc, Some(cell), None, Stage::Pending),
        }
    }

    /// The place of its host among the journal's, where it is of one.
    pub fn cell(&self) -> Option<usize>
        ensures { result ≡ self.now.cell }
    {
        self.cell
    }

    /// Its host's number for the socket, where it has one.
    pub fn number(&self) -> Option<u64>
        ensures { result ≡ self.now.number }
    {
        self.number
    }

    /// How it stands.
    pub fn stage(&self) -> Stage
        ensures { stage_of result ≡ self.now.stage }
    {
        self.stage
    }

    /// Whether nothing more arrives at it.
    pub fn is_cut(&self) -> bool
        ensures { result ≡ self.now.is_cut }
    {
        self.is_cut
    }

    /// How many bytes are unread.
    pub fn unread_len(&self) -> usize
        ensures { result ≡ length self.now.unread }
    {
        self.unread.len()
    }

    /// Whether it is of a host of the journal, and not of a stranger.
    pub fn is_of_host(&self) -> bool
        ensures { result ≡ is_of_host_of self.now }
    {
        self.cell.is_some()
    }

    /// Whether it has ended.
    pub(crate) fn is_ended(&self) -> bool
        ensures { result ≡ is_ended_of self.now.stage }
    {
        match self.stage {
            Stage::Ended => true,
            _ => false,
        }
    }

    /// Whether what is written towards it is gone.
    fn is_gone(&self) -> bool
        ensures { result ≡ (is_ended_of self.now.stage || self.now.is_cut) }
    {
        self.is_ended() || self.is_cut
    }

    /// Whether it is of that host, under that number.
    pub(crate) fn is_under(&self, cell: usize, number: u64) -> bool
        ensures { result ≡ is_end_of cell number self.now }
    {
        is_cell(self.cell, cell) && is_number(self.number, number)
    }

    /// The unread bytes.
    pub(crate) fn unread(&self) -> Result<Text, OutOfMemory>
        ensures { IfOk result (λ bytes. bytes ≡ self.now.unread) }
    {
        self.unread.copy()
    }

    /// It is open.
    pub(crate) fn open(&mut self)
        ensures { self.new ≡ opened self.old }
    {
        self.stage = Stage::Open;
    }

    /// It is open, under a number of its host.
    pub(crate) fn come(&mut self, number: u64)
        ensures { self.new ≡ record (opened self.old) { number = Some number } }
    {
        self.stage = Stage::Open;
        self.number = Some(number);
    }

    /// What is unread is dropped, with its memory.
    fn clear(&mut self)
        ensures { self.new ≡ record self.old { unread = []; places = [] } }
    {
        self.unread.clear();
        self.places = VecDeque::new(*self.places.allocator());
    }

    /// It is over, and what was unread is dropped.
    pub(crate) fn finish(&mut self)
        ensures { self.new ≡ ended self.old }
    {
        self.clear();
        self.stage = Stage::Ended;
    }

    /// Nothing more arrives at it, and what was unread is dropped.
    pub(crate) fn cut(&mut self)
        ensures { self.new ≡ cut_of self.old }
    {
        self.clear();
        self.is_cut = true;
    }

    /// Bytes are written towards it.
    pub(crate) fn arrives(&mut self, bytes: &[u8]) -> Result<(), OutOfMemory>
        ensures ok { OnOk result (self.new ≡ arrives_of bytes.now self.old) }
        ensures err { OnErr result (self.new ≡ self.old) }
    {
        if self.is_gone() {
            return Ok(());
        }
        self.unread.extend(bytes)
    }

    /// An item is written towards it, with the place of the message that it carries.
    pub(crate) fn item_arrives(
        &mut self,
        bytes: &[u8],
        said: Option<Place>,
    ) -> Result<(), OutOfMemory>
        ensures ok { OnOk result (self.new ≡ item_arrives_of bytes.now said self.old) }
        ensures err { OnErr result (self.new ≡ self.old) }
    {
        if self.is_gone() {
            return Ok(());
        }
        self.places.push_back(said)?;
        match self.unread.extend(bytes) {
            Ok(()) => Ok(()),
            Err(e) => {
                self.places.pop_back();
                Err(e)
            }
        }
    }

    /// At most so many unread bytes are taken.
    pub(crate) fn take(&mut self, count: u64) -> Result<Text, OutOfMemory>
        ensures taken { IfOk result (λ bytes. bytes ≡ take count self.old.unread) }
        ensures left { OnOk result (self.new ≡ record self.old { unread = drop count self.old.unread }) }
        ensures err { OnErr result (self.new ≡ self.old) }
    {
        self.unread.take(count)
    }

    /// The next item is read: the place of the message that it carries, if of one.
    pub(crate) fn read_item(&mut self) -> Option<Place>
        ensures read { result ≡ first_place self.old.places }
        ensures left { self.new ≡ record self.old { places = later_places self.old.places } }
    {
        match self.places.pop_front() {
            None => None,
            Some(place) => place,
        }
    }
}
