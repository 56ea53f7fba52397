//! The laws of what enters from another node: what a process gets, as a host reads an item, is the message that is carried next, and
//! it is the one that was said.
//!
//! What a node has said and written to another, how far the other has read it, and what was got of it is given here
//! (ch_laws_peers, module `got`). So is how reading goes on in each turn. What payloads carry is defined beside module `carried`, and what
//! stands in mailboxes beside `mailboxes`.
//!
//! No code: definitions, and laws as clauses of empty functions, over the model below.

ghost use Rattle.std.specs.Prelude.{List, []};
ghost use Rattle.ch_model.specs.declared.line.Line.{Line};
ghost use Rattle.ch_model.specs.World.{world_new};
ghost use Rattle.ch_laws_calls.specs.Calls.{Both};
ghost use Rattle.ch_laws_calls.specs.Turns.{KeepsTurns};
ghost use Rattle.ch_laws_peers.specs.Standing.{IsOfNodes};
ghost use Rattle.ch_laws_messages.specs.WayReadingGoes.{ReadingGoes};
ghost use Rattle.ch_laws_messages.specs.GotReadingGoes.{KnownGot};
ghost use Rattle.ch_laws_messages.specs.MailMail.{AllMail, TakesFirst};
ghost use Rattle.ch_laws_messages.specs.MailSaid.{GotsAreSaid};
ghost use Rattle.ch_laws_messages.specs.CarriedNexts.{GotsBelow};
ghost use Rattle.ch_laws_messages.specs.EnteredEnters.{ReadsEnter};

/// In a turn in which a host reads an item, each message that is told as got is of a process of one node of the journal to one of
/// another. The host is about to read a payload that isn't the first under its id; it carries the saying after as many as were read
/// before, and the message is that one. So each message that was got between two nodes is among the first of what the one has said
/// to the other, as many as are carried by what that has read. So it is where nothing has happened, and each turn keeps it. Given
/// are what is known before and after each turn, and how reading goes on.
pub fn what_is_got_is_carried_next()
    ensures next { (journal : List Line) → IsOfNodes journal → ReadingGoes journal → ReadsEnter journal (KnownGot journal) (KnownGot journal) }
    ensures fresh { (journal : List Line) → GotsBelow journal [] (world_new journal) }
    ensures kept { (journal : List Line) → IsOfNodes journal → ReadingGoes journal → KeepsTurns journal (KnownGot journal) (KnownGot journal) (GotsBelow journal) }
{}

/// In a turn in which a host reads an item, the payload that it has read, where that is told as got, is the message that was said: the
/// one of the pair, epoch and index that are told. The same is given.
pub fn what_is_got_was_said()
    ensures { (journal : List Line) → IsOfNodes journal → ReadingGoes journal → GotsAreSaid (KnownGot journal) (KnownGot journal) }
{}

/// So what stands in mailboxes is what has entered them by the log and wasn't taken, turn by turn, whatever is got from other
/// nodes; and each message that is taken is the first of its mark that is left. The same is given.
pub fn mailboxes_stand()
    ensures kept { (journal : List Line) → IsOfNodes journal → ReadingGoes journal → KeepsTurns journal (KnownGot journal) (KnownGot journal) (AllMail journal) }
    ensures takes { (journal : List Line) → IsOfNodes journal → ReadingGoes journal → KeepsTurns journal (Both (KnownGot journal) (AllMail journal)) (KnownGot journal) (TakesFirst journal) }
{}
