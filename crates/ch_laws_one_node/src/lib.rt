//! The laws of one node: what is read as a journal, that the whole model gives its log, and that its
//! log is lawful.
//!
//! The whole model and the model of one node stand below. The calls that write the log of a journal
//! stand above, and cite these laws. Each function is empty: its clause is the law.
#![tactic(auto)]

ghost use Rattle.std.specs.Prelude.{◌≡◌, ℕ, ◌+◌, ◌≤◌, List, ◌∷◌, length, take, Some, None, Ok};
ghost use Rattle.ch_model.specs.declared.entry.Entry.{Entry};
ghost use Rattle.ch_model.specs.declared.line.Line.{Line};
ghost use Rattle.ch_model.specs.declared.refusal.LineFault.{LineFault};
ghost use Rattle.ch_model.specs.Journal.{scan_of, journal_of, first_fault, raw_lines, longest_journal};
ghost use Rattle.ch_model.specs.LinesBuilt.{one_node};
ghost use Rattle.ch_one_node.specs.World.{log_of};
ghost use Rattle.ch_laws_one_node.specs.Lawful.{IsLawful};
ghost use Rattle.ch_model.specs.Lawful.{IsPromised};
ghost use Rattle.ch_model.specs.Sharper.{IsSharper};
ghost use Rattle.ch_model.specs.Isolation.{IsolatesStrangers};
ghost use Rattle.ch_model.specs.EndsToldLast.{EndsToldLast};
ghost use Rattle.ch_model.specs.World.{log_of as whole_log_of};
ghost use Rattle.ch_laws_one_node.specs.OneNode.{IsOfOneNode, FitFrames};
ghost use Rattle.ch_laws_one_node.specs.Places.{AreNumbered, IsFirstFault};

/// What is read as a journal is no line, or one declaration of a node and then event lines that name
/// that node alone.
pub fn readable()
    ensures { (bytes : List ℕ) → IsOfOneNode (journal_of one_node bytes) }
{}

/// Each message that a line of such a journal sends fits in one frame, as a line has a limit.
pub fn fits_frames()
    ensures { (bytes : List ℕ) → FitFrames (journal_of one_node bytes) }
{}

/// A journal that is read to its end, without a refused line, is no longer than a journal may be.
/// So all of its bytes were looked at.
pub fn within_limits()
    ensures { (bytes : List ℕ) → first_fault one_node bytes ≡ None → length bytes ≤ longest_journal }
{}

/// Reading stops at the first line with a fault. No byte after the first that is too many is looked
/// at; the lines are numbered in order, below the fault's; and the lines before the fault, read
/// alone, have none and give the same journal.
pub fn ends_in_place()
    ensures looked_at { (bytes : List ℕ) → scan_of one_node (take (longest_journal + 1) bytes) ≡ scan_of one_node bytes }
    ensures numbered { (bytes : List ℕ) → AreNumbered 1 (journal_of one_node bytes) (first_fault one_node bytes) }
    ensures first { (b : ℕ) (bytes : List ℕ) (number : ℕ) (fault : LineFault) → first_fault one_node (b ∷ bytes) ≡ Some (number, fault) → IsFirstFault one_node (raw_lines (take (longest_journal + 1) (b ∷ bytes))) (journal_of one_node (b ∷ bytes)) number fault }
{}

/// The whole model, with hosts, links and sockets, gives the same log of a journal of one node as the
/// model of one node: the same entries, or the same stop. So it does of the journal that any bytes
/// spell. The whole model answers a message that no frame can hold with `long`, so the journal's
/// messages have to fit.
pub fn whole_model()
    ensures lines { (journal : List Line) → IsOfOneNode journal → FitFrames journal → whole_log_of journal ≡ log_of journal }
    ensures bytes { (bytes : List ℕ) → whole_log_of (journal_of one_node bytes) ≡ log_of (journal_of one_node bytes) }
{}

/// The log of a journal of one node is lawful: every event line is answered as the log before it
/// shows, processes are made, act, get messages and end by the rules of life, messages of a pair
/// are got in order and once, directly after they were said, and are taken in the order in which
/// they came. So it is of the journal that any bytes spell.
pub fn lawful()
    ensures lines { (journal : List Line) (log : List Entry) → IsOfOneNode journal → log_of journal ≡ Ok log → IsLawful journal log }
    ensures bytes { (bytes : List ℕ) (log : List Entry) → log_of (journal_of one_node bytes) ≡ Ok log → IsLawful (journal_of one_node bytes) log }
{}

/// All that the whole model promises of the log of a journal holds of the log of one node: messages
/// are numbered, got and taken, lives are led and lines answered as it says; and what it says of links,
/// sockets, bytes, watches, references, names and settling holds, as nothing of these is in the log.
/// The lines of the journal have rising numbers, and its messages fit in frames, as in the journal that
/// any bytes spell.
pub fn lawful_as_promised()
    ensures lines { (least : ℕ) (journal : List Line) (log : List Entry) → IsOfOneNode journal → FitFrames journal → AreNumbered least journal None → log_of journal ≡ Ok log → IsPromised journal log }
    ensures bytes { (bytes : List ℕ) (log : List Entry) → log_of (journal_of one_node bytes) ≡ Ok log → IsPromised (journal_of one_node bytes) log }
{}

/// The log of one node goes further than what is promised: by the sharper clauses, of which two have
/// to do with one node, that a process which no spawn made is made by its line, and that what is said
/// to a process that isn't over is got next. No stranger touches it, and no end is told before its time.
pub fn sharper_clauses()
    ensures sharper { (least : ℕ) (journal : List Line) (log : List Entry) → IsOfOneNode journal → FitFrames journal → AreNumbered least journal None → log_of journal ≡ Ok log → IsSharper journal log }
    ensures isolated { (least : ℕ) (journal : List Line) (log : List Entry) → IsOfOneNode journal → FitFrames journal → AreNumbered least journal None → log_of journal ≡ Ok log → IsolatesStrangers journal log }
    ensures told_last { (least : ℕ) (journal : List Line) (log : List Entry) → IsOfOneNode journal → FitFrames journal → AreNumbered least journal None → log_of journal ≡ Ok log → EndsToldLast log }
    ensures bytes { (bytes : List ℕ) (log : List Entry) → log_of (journal_of one_node bytes) ≡ Ok log → IsSharper (journal_of one_node bytes) log × IsolatesStrangers (journal_of one_node bytes) log × EndsToldLast log }
{}
