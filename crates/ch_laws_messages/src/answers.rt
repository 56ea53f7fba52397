//! The laws of answers: the log of a journal of many nodes answers each of its lines as the log before it shows, and each line does
//! what it should.
//!
//! The laws below say so of the lines of each kind: those in which no process acts (ch_laws_many), those that are answered by who acts
//! alone (ch_laws_acting), those that take a message (module `mailboxes`) and those that send to another node (module `sends`). Here it is
//! shown that there are no others.
//!
//! No code: laws as clauses of empty functions, over the model below.

ghost use Rattle.std.specs.Prelude.{◌≡◌, ◌++◌, ℕ, List, Ok, IsTrue};
ghost use Rattle.ch_model.specs.declared.entry.Entry.{Entry};
ghost use Rattle.ch_model.specs.declared.line.Line.{Line};
ghost use Rattle.ch_model.specs.Epochs.{FollowsEpochs};
ghost use Rattle.ch_model.specs.HasAnswers.{is_answered, HasAnswers};
ghost use Rattle.ch_model.specs.Journal.{journal_of};
ghost use Rattle.ch_model.specs.LinesBuilt.{many_nodes};
ghost use Rattle.ch_model.specs.Logs.{each};
ghost use Rattle.ch_model.specs.World.{world_new, log_from, log_of};
ghost use Rattle.ch_model.specs.WorldState.{World};
ghost use Rattle.ch_laws_many.specs.InOrder.{AnswersInOrder};
ghost use Rattle.ch_laws_many.proofs.Reached.{IsJournal};
ghost use Rattle.ch_laws_spelled.specs.Spelled.{SaysWell};
ghost use Rattle.ch_laws_acting.specs.Logs.{is_answered_by_lives};
ghost use Rattle.ch_laws_messages.specs.MailGiven.{AtEachLine};
ghost use Rattle.ch_laws_messages.specs.MailAnswers.{is_answered_take};
ghost use Rattle.ch_laws_calls.specs.Turns.{KeepsTurns};
ghost use Rattle.ch_laws_peers.specs.Standing.{IsOfNodes};
ghost use Rattle.ch_laws_messages.specs.SendsSends.{is_answered_send, SaysSmall, AllGive, FrontsStand};
ghost use Rattle.ch_laws_messages.specs.SendsTurns.{Told, EndsAskNone, ItemsAskNone};
ghost use Rattle.ch_laws_messages.specs.GotSaidWell.{SaidWell};
ghost use Rattle.ch_laws_messages.specs.SaidGoes.{SaysWell as AreOfIds};

/// A log in which the lines of a journal of many nodes are answered in order, and those of each kind as the log before them shows,
/// answers each line so: one in which no process acts; one that is answered by who acts; one by which a process takes a message; and one
/// by which a process that acts sends to one of another node. So such a log has all that is asked of answers.
pub fn answers_are_whole()
    ensures answered { (journal : List Line) → IsJournal journal → (log : List Entry) → AnswersInOrder journal log → IsTrue (each (is_answered_by_lives journal) log) → IsTrue (each (is_answered_take journal) log) → IsTrue (each (is_answered_send journal) log) → IsTrue (each (is_answered journal) log) }
    ensures whole { (journal : List Line) → IsJournal journal → (log : List Entry) → AnswersInOrder journal log → IsTrue (each (is_answered_by_lives journal) log) → IsTrue (each (is_answered_take journal) log) → IsTrue (each (is_answered_send journal) log) → HasAnswers journal log }
    ensures many { (bytes : List ℕ) → IsJournal (journal_of many_nodes bytes) }
{}

/// So has the log of a journal that the grammar of many nodes reads, of whatever bytes, where after each front of it hosts and nodes
/// stand as they do, all that was said is carried and links have given an id for each pair (module `sends`), and mailboxes stand by the
/// log (module `mailboxes`).
pub fn logs_have_answers()
    ensures { (bytes : List ℕ) → FrontsStand (journal_of many_nodes bytes) → AtEachLine (journal_of many_nodes bytes) → (log : List Entry) → log_of (journal_of many_nodes bytes) ≡ Ok log → HasAnswers (journal_of many_nodes bytes) log }
{}

/// In a journal of many nodes, nodes only note what they hear: what they make of an item, or of the end of a socket's input, asks
/// nothing of their host.
pub fn hosts_are_asked_nothing()
    ensures ends { (journal : List Line) → IsOfNodes journal → EndsAskNone (Told journal) }
    ensures items { (journal : List Line) → IsOfNodes journal → ItemsAskNone (Told journal) }
{}

/// So each turn of such a journal keeps it that a link has given one id for each pair of processes that has said something over it;
/// where hosts and nodes stand before and after it as they do, all that was said is carried, and messages are numbered as they come, by
/// and to processes of small counters.
pub fn ids_are_given()
    ensures { (journal : List Line) → IsOfNodes journal → KeepsTurns journal (Told journal) (Told journal) (AllGive journal) }
{}

/// A log whose messages are spelled as its journal's grammar allows (ch_laws_spelled) says each by and to processes of small counters, as
/// is asked of sends; by and to processes that the journal gives ids in their rule, as is asked of what is said and carried; and, where
/// messages are numbered as they come, under a mark that is a name besides, as is asked of what is got. All of it is so of the log after
/// any first lines of a journal that the grammar of many nodes reads.
pub fn sayings_are_spelled_alike()
    ensures small { (journal : List Line) (log : List Entry) → SaysWell journal log → SaysSmall log }
    ensures got { (journal : List Line) (log : List Entry) → SaysWell journal log → FollowsEpochs log → SaidWell journal log }
    ensures said { (journal : List Line) (log : List Entry) → SaysWell journal log → AreOfIds journal log }
    ensures fronts { (bytes : List ℕ) (front rest : List Line) → front ++ rest ≡ journal_of many_nodes bytes → (log : List Entry) (world : World) → log_from (world_new (journal_of many_nodes bytes)) front ≡ Ok (log, world) → SaysSmall log × SaidWell (journal_of many_nodes bytes) log × AreOfIds (journal_of many_nodes bytes) log }
{}
