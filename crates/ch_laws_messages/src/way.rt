//! What is under way between two nodes: at each end of a socket the items that are unread, with their places, are just those that
//! were written towards it behind those that were read; and so what a node has read of the frames of another is told by what it has
//! not read yet.
//!
//! No code: definitions, and laws as clauses of empty functions. What goes from one node to another is defined below; that all that was
//! said is carried is given here.

ghost use Rattle.std.specs.Prelude.{◌≡◌, false, ◌||◌, List, [], ◌∷◌, ◌++◌, length, drop, Option};
ghost use Rattle.std.specs.Prelude.{ℕ};
ghost use Rattle.ch_base.specs.declared.address.Address.{Address};
ghost use Rattle.ch_model.specs.declared.entry.Entry.{Entry};
ghost use Rattle.ch_model.specs.declared.line.Line.{Line};
ghost use Rattle.ch_model.specs.declared.name.End.{End};
ghost use Rattle.ch_model.specs.declared.step.Place.{Place};
ghost use Rattle.ch_model.specs.AccountsFrames.{Saying};
ghost use Rattle.ch_model.specs.World.{world_new};
ghost use Rattle.ch_laws_bytes.specs.Streams.{Reader, first_at};
ghost use Rattle.ch_laws_calls.specs.Calls.{Both};
ghost use Rattle.ch_laws_calls.specs.Turns.{KeepsTurns};
ghost use Rattle.ch_laws_peers.specs.Reads.{UnderWay, reads_expecting, Way, AllCome};
ghost use Rattle.ch_laws_peers.specs.Says.{AllSay};
ghost use Rattle.ch_laws_peers.specs.Standing.{IsOfNodes, Standing};
ghost use Rattle.ch_laws_messages.specs.WayAsked.{AsksTruly};
ghost use Rattle.ch_laws_messages.specs.WayGoes.{written_frames};
ghost use Rattle.ch_laws_messages.specs.WayHears.{HearsAlone};
ghost use Rattle.ch_laws_messages.specs.WayReadingGoes.{ReadingGoes};

/// What a node has written for another and that isn't read yet is under way: it stands unread at the other's end of the socket that the
/// node is up on, in order and with its places. So it is where nothing has happened, and each turn keeps it, where hosts and world agree,
/// nodes only note what they hear, and what a command makes a host write has the places of what it carries.
pub fn frames_are_under_way()
    ensures fresh { (journal : List Line) → IsOfNodes journal → AllCome journal [] (world_new journal) }
    ensures kept { (journal : List Line) → IsOfNodes journal → HearsAlone journal → AsksTruly journal → KeepsTurns journal (Both (Standing journal) (AllSay journal)) (Both (Standing journal) (AllSay journal)) (AllCome journal) }
{}

/// So reading goes on: what a node has written towards another only grows, at its end. In a turn in which a host reads an item, at most
/// the next of those frames is read, and its place is the last that was read; in every other turn none is.
pub fn reading_goes_on()
    ensures { (journal : List Line) → IsOfNodes journal → HearsAlone journal → AsksTruly journal → ReadingGoes journal }
{}

/// Where all that was written towards an end is items of which some are read, as many of its frames are read as the places leave over,
/// and the others are under way.
pub fn items_go_on()
    ensures { (reader : Reader) (e : End) (unread : List ℕ) (places : List (Option Place)) (wrote : List (List ℕ)) (said : List Saying) → Way reader (first_at e) unread places wrote said
        → UnderWay reader unread places (drop (reads_expecting reader.0 places (length (written_frames said wrote))) (written_frames said wrote)) }
{}
