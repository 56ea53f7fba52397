//! The laws of what is got: what has arrived at a node from another is bound by what it has read, and what it has read for a
//! process that lives, that has got.
//!
//! So receipts are lawful, each after the log before it: what is got between two nodes comes over their link, and is the next of its
//! pair; within a node it is got directly after it was said, and none that was said before is passed over, as a receiver that is over
//! gets nothing more.
//!
//! What a node has said and written to another, and how far the other has read it, is given here (ch_laws_peers). So is how
//! reading goes on in each turn, and that messages are numbered as they come and can be spelled.
//!
//! No code: definitions, and laws as clauses of empty functions, over the model below.

ghost use Rattle.std.specs.Prelude.{◌≡◌, true, List, [], ◌++◌, IsTrue};
ghost use Rattle.ch_model.specs.declared.entry.Entry.{Entry};
ghost use Rattle.ch_model.specs.declared.line.Line.{Line};
ghost use Rattle.ch_model.specs.Delivery.{gets_the_said, gets_the_next, gets_no_earlier, gets_by_receiver, gets_over_link, gets_at_once, HasLawfulReceipts};
ghost use Rattle.ch_model.specs.Logs.{each};
ghost use Rattle.ch_model.specs.World.{world_new};
ghost use Rattle.ch_model.specs.WorldState.{World};
ghost use Rattle.ch_laws_lives.specs.Logs.{AreAllowed};
ghost use Rattle.ch_laws_plain_logs.specs.Plain.{IsPlain};
ghost use Rattle.ch_laws_calls.specs.Turns.{KeepsTurns};
ghost use Rattle.ch_laws_peers.specs.Reads.{AllGet};
ghost use Rattle.ch_laws_peers.specs.Standing.{IsOfNodes};
ghost use Rattle.ch_laws_messages.specs.WayReadingGoes.{ReadingGoes};
ghost use Rattle.ch_laws_messages.specs.GotReadingGoes.{KnownWell, KnownGot};
ghost use Rattle.ch_laws_messages.specs.GotReceipts.{AreGotWell, AllGotWell, gets_the_next_between};
ghost use Rattle.ch_laws_messages.specs.GotReceived.{AllReceived};
ghost use Rattle.ch_laws_messages.specs.GotSaidWell.{SaidWell};

/// Of each two nodes of a journal, both ways, and whatever happens: each connection that has arrived from the one at the
/// other, and that is open there under an id, is unread as long as nothing was read under that id; after the first payload it
/// leads from the process to the process that this names, which was made there and isn't over, or to nobody. Of each pair of
/// processes no more was got than was read behind its opening, and none before; and all of it where the connection leads to
/// a process that isn't over. So it is where nothing has happened, and each turn keeps it: as lines are answered, nodes make
/// processes or do what these ask, ends are joined, come, are fed or ended, and as a host reads an item.
pub fn what_is_read_is_got()
    ensures fresh { (journal : List Line) → AllGet journal [] (world_new journal) }
    ensures kept { (journal : List Line) → IsOfNodes journal → ReadingGoes journal → KeepsTurns journal (KnownWell journal) (KnownWell journal) (AllGet journal) }
{}

/// Each message that is got is got as it should be, and each turn keeps that: a process gets what it was sent; that was said
/// before, in its pair's first epoch; directly before, where both are of one node; and where they are of two, as many messages
/// of the pair were got before as its index says. What is given of the messages of a log is given of each log before it.
pub fn receipts_are_kept()
    ensures kept { (journal : List Line) → IsOfNodes journal → ReadingGoes journal → KeepsTurns journal (KnownGot journal) (KnownGot journal) AllGotWell }
    ensures before { (journal : List Line) (one two : List Entry) → SaidWell journal (one ++ two) → SaidWell journal one }
{}

/// So in a log of plain entries a message is got only after it was said; between two nodes it is the next of its pair, after as
/// many as its index; none of an earlier epoch is got after one of a later; within a node it is got directly after it was said;
/// and where the log permits what processes do, by its receiver alone, which was made and isn't over.
pub fn receipts_are_lawful()
    ensures said { (log : List Entry) → IsPlain log → AreGotWell [] log → each gets_the_said log ≡ true }
    ensures next { (log : List Entry) → IsPlain log → AreGotWell [] log → each gets_the_next_between log ≡ true }
    ensures order { (journal : List Line) (log : List Entry) → IsPlain log → SaidWell journal log → AreGotWell [] log → each gets_no_earlier log ≡ true }
    ensures receiver { (log : List Entry) → IsPlain log → AreAllowed [] log → AreGotWell [] log → each gets_by_receiver log ≡ true }
    ensures at_once { (log : List Entry) → IsPlain log → AreGotWell [] log → each gets_at_once log ≡ true }
{}

/// More is so where nothing has happened, and each turn keeps it. A message that is got between two nodes is got where the receiver's
/// node is up on a socket of the two on which the sender's has come up: its frame is read there. And of each two processes of a node
/// as many messages were got as were said, as long as the receiver isn't over: one that is said is put into its mailbox at once, or
/// it is over, and stays so. So each message that is got within a node is the next of its pair, after as many as its index.
pub fn receipts_go_on()
    ensures fresh { (journal : List Line) → AllReceived [] (world_new journal) }
    ensures kept { (journal : List Line) → IsOfNodes journal → ReadingGoes journal → KeepsTurns journal (KnownGot journal) (KnownGot journal) AllReceived }
{}

/// So in a log of plain entries each message that is got is the next of its pair, within a node and between two; between two nodes it
/// comes over their link; and where messages are numbered as they come, and the log permits what processes do, all its receipts are
/// lawful.
pub fn receipts_are_lawful_whole()
    ensures next { (log : List Entry) (world : World) → IsPlain log → AreGotWell [] log → AllReceived log world → IsTrue (each gets_the_next log) }
    ensures over { (log : List Entry) (world : World) → AllReceived log world → IsTrue (each gets_over_link log) }
    ensures whole { (journal : List Line) (log : List Entry) (world : World) → IsPlain log → SaidWell journal log → AreAllowed [] log → AreGotWell [] log → AllReceived log world → HasLawfulReceipts log }
{}
