//! The laws of the journals of many nodes, by the grammar that reads them: what their lines name, and what is promised of
//! their logs.
//!
//! No code: laws as clauses of empty functions. The grammar, the model, the laws of reading and those of a whole world's
//! log stand below. The replay of a journal stands above, and cites these laws.
#![tactic(auto)]

ghost use Rattle.std.specs.Prelude.{◌≡◌, ℕ, List, Ok, IsTrue};
ghost use Rattle.ch_model.specs.declared.entry.Entry.{Entry};
ghost use Rattle.ch_model.specs.AccountsBytes.{feeds_the_unread, feeds_the_end};
ghost use Rattle.ch_model.specs.HasAnswers.{has_own_first, has_settled_last, stands_in_place, settles_whole};
ghost use Rattle.ch_model.specs.Journal.{journal_of};
ghost use Rattle.ch_model.specs.LinesBuilt.{many_nodes};
ghost use Rattle.ch_model.specs.Links.{dials_in_order};
ghost use Rattle.ch_model.specs.Logs.{each, each_between};
ghost use Rattle.ch_model.specs.World.{names_of, log_of};
ghost use Rattle.ch_laws_log.specs.Declared.{AreApart};
ghost use Rattle.ch_laws_log.specs.Lines.{AllLines, AreNumbered};
ghost use Rattle.ch_laws_many.specs.ManyLines.{is_of_many, AreNamedApart};
ghost use Rattle.ch_laws_many.specs.InOrder.{is_of_nobody, is_answered_where, AnswersInOrder};

/// What the grammar of many nodes reads of any bytes: lines with rising numbers, which declare each name and each address
/// once; each names declared nodes alone, also in the name of a socket, one that declares gives a node's name, and one that
/// feeds asks for a byte at least.
pub fn declared_once()
    ensures numbered { (bytes : List ℕ) → AreNumbered 1 (journal_of many_nodes bytes) }
    ensures places { (bytes : List ℕ) → AreApart (names_of (journal_of many_nodes bytes)) }
    ensures names { (bytes : List ℕ) → AreNamedApart (names_of (journal_of many_nodes bytes)) }
    ensures lines { (bytes : List ℕ) → AllLines (is_of_many (names_of (journal_of many_nodes bytes))) (journal_of many_nodes bytes) }
{}

/// In the log of such a journal each line that is done has its own entry first: also one that feeds, which feeds so many
/// bytes as it asks for, and no more than were unread by the log.
pub fn own_entries_first()
    ensures { (bytes : List ℕ) (log : List Entry) → log_of (journal_of many_nodes bytes) ≡ Ok log → IsTrue (each_between (has_own_first (journal_of many_nodes bytes)) log) }
{}

/// Nothing is settled there, so that nothing is asked of it: no settled is told, and no feeding stands in a settle.
pub fn nothing_settles()
    ensures last { (bytes : List ℕ) (log : List Entry) → log_of (journal_of many_nodes bytes) ≡ Ok log → IsTrue (each_between (has_settled_last (journal_of many_nodes bytes)) log) }
    ensures whole { (bytes : List ℕ) (log : List Entry) → log_of (journal_of many_nodes bytes) ≡ Ok log → IsTrue (each (settles_whole (journal_of many_nodes bytes)) log) }
{}

/// A line in which no process acts is answered as the log before it shows: one that joins a socket, takes it or feeds it,
/// and one that makes a process, which is always made, as no node is shut.
pub fn lines_of_nobody_answer()
    ensures { (bytes : List ℕ) (log : List Entry) → log_of (journal_of many_nodes bytes) ≡ Ok log → IsTrue (each (is_answered_where is_of_nobody (journal_of many_nodes bytes)) log) }
{}

/// What only a line does, and what the network does, stands as the own entry of the line that was done directly before,
/// and nowhere else: what is said and taken, and the sockets that are joined, taken and fed.
pub fn own_entries_alone()
    ensures { (bytes : List ℕ) (log : List Entry) → log_of (journal_of many_nodes bytes) ≡ Ok log → IsTrue (each (stands_in_place (journal_of many_nodes bytes)) log) }
{}

/// All of it: what is asked of the answers in a log holds of the log of each journal that this grammar reads, but that it
/// isn't said here which answer a process has that sends, receives or ends.
pub fn answers_in_order()
    ensures { (bytes : List ℕ) (log : List Entry) → log_of (journal_of many_nodes bytes) ≡ Ok log → AnswersInOrder (journal_of many_nodes bytes) log }
{}

/// No more is fed to an end than is unread there by the log.
pub fn fed_was_unread()
    ensures { (bytes : List ℕ) (log : List Entry) → log_of (journal_of many_nodes bytes) ≡ Ok log → IsTrue (each (feeds_the_unread (journal_of many_nodes bytes)) log) }
{}

/// The end of input is fed to an end only where nothing is unread, and the other end has ended or this one was cut: each
/// line that feeds asks for a byte at least.
pub fn ends_fed_are_true()
    ensures { (bytes : List ℕ) (log : List Entry) → log_of (journal_of many_nodes bytes) ≡ Ok log → IsTrue (each (feeds_the_end (journal_of many_nodes bytes)) log) }
{}

/// A dial has as number how many dials of the same opener to the same target stand before it: no stranger knocks there, so
/// that each socket was dialed.
pub fn dials_are_in_order()
    ensures { (bytes : List ℕ) (log : List Entry) → log_of (journal_of many_nodes bytes) ≡ Ok log → IsTrue (each dials_in_order log) }
{}
