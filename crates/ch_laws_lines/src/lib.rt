//! The laws of reading a journal: what stands in it and in which order, whatever the grammar, and what
//! the lines of many nodes are.
//!
//! The grammars, the whole model and the laws of one node stand below. The replay of a journal stands
//! above, and cites these laws. Each function is empty: its clause is the law.
#![tactic(auto)]

ghost use Rattle.std.specs.Prelude.{◌≡◌, ℕ, ◌+◌, ◌≤◌, List, ◌∷◌, ◌++◌, length, take, Some, None, Ok};
ghost use Rattle.std.specs.List.{AllByRecursion};
ghost use Rattle.ch_model.specs.declared.entry.Entry.{Entry};
ghost use Rattle.ch_model.specs.declared.line.Line.{Line};
ghost use Rattle.ch_model.specs.declared.refusal.LineFault.{LineFault};
ghost use Rattle.ch_model.specs.EndsToldLast.{EndsToldLast};
ghost use Rattle.ch_model.specs.Isolation.{IsolatesStrangers};
ghost use Rattle.ch_model.specs.Journal.{scan_of, journal_of, first_fault, raw_lines, longest_journal};
ghost use Rattle.ch_model.specs.Lawful.{IsPromised};
ghost use Rattle.ch_model.specs.Lines.{Built};
ghost use Rattle.ch_model.specs.LinesBuilt.{one_node, many_nodes};
ghost use Rattle.ch_model.specs.Sharper.{IsSharper};
ghost use Rattle.ch_model.specs.World.{world_new, log_of};
ghost use Rattle.ch_one_node.specs.World.{log_of as log_of_one_node};
ghost use Rattle.ch_laws_one_node.specs.Lawful.{IsLawful};
ghost use Rattle.ch_laws_one_node.specs.OneNode.{IsOfOneNode, FitFrames};
ghost use Rattle.ch_laws_one_node.specs.Places.{AreNumbered, IsFirstFault};
ghost use Rattle.ch_laws_lines.specs.InOrder.{IsInOrder, DeclaresEarly, Happens, SettlesNot};

/// What is read as a journal is declarations and then event lines, by each grammar whose declarations
/// ask that no event line came; that of many nodes is one.
pub fn declarations_first()
    ensures early { DeclaresEarly many_nodes }
    ensures any { (built : Built) → DeclaresEarly built → (bytes : List ℕ) → IsInOrder (journal_of built bytes) }
    ensures many { (bytes : List ℕ) → IsInOrder (journal_of many_nodes bytes) }
{}

/// By no line of many nodes all is settled.
pub fn settles_nothing()
    ensures { (bytes : List ℕ) → AllByRecursion SettlesNot (journal_of many_nodes bytes) }
{}

/// The world of a journal is that of its declarations: event lines add nothing to it.
pub fn world_of_declarations()
    ensures { (declared events : List Line) → AllByRecursion Happens events → world_new (declared ++ events) ≡ world_new declared }
{}

/// A journal that is read to its end by any grammar, without a refused line, is no longer than a
/// journal may be. So all of its bytes were looked at.
pub fn within_limits()
    ensures { (built : Built) (bytes : List ℕ) → first_fault built bytes ≡ None → length bytes ≤ longest_journal }
{}

/// Reading by any grammar stops at the first line with a fault. No byte after the first that is too
/// many is looked at; the lines are numbered in order, below the fault's; and the lines before the
/// fault, read alone, have none and give the same journal.
pub fn ends_in_place()
    ensures looked_at { (built : Built) (bytes : List ℕ) → scan_of built (take (longest_journal + 1) bytes) ≡ scan_of built bytes }
    ensures numbered { (built : Built) (bytes : List ℕ) → AreNumbered 1 (journal_of built bytes) (first_fault built bytes) }
    ensures first { (built : Built) (b : ℕ) (bytes : List ℕ) (number : ℕ) (fault : LineFault) → first_fault built (b ∷ bytes) ≡ Some (number, fault) → IsFirstFault built (raw_lines (take (longest_journal + 1) (b ∷ bytes))) (journal_of built (b ∷ bytes)) number fault }
{}

/// Each message that a line of many nodes sends fits in one frame, as a line has a limit.
pub fn fits_frames()
    ensures { (bytes : List ℕ) → FitFrames (journal_of many_nodes bytes) }
{}

/// A journal of one node among those of many: where the lines that bytes spell are a node's declaration
/// and event lines that name it alone, the whole model gives the log of the model of one node; that log
/// is lawful, all holds of it that the whole model promises, and so do the sharper clauses.
pub fn one_node_among_many()
    ensures same_log { (bytes : List ℕ) → IsOfOneNode (journal_of many_nodes bytes) → log_of (journal_of many_nodes bytes) ≡ log_of_one_node (journal_of many_nodes bytes) }
    ensures lawful { (bytes : List ℕ) (log : List Entry) → IsOfOneNode (journal_of many_nodes bytes) → log_of (journal_of many_nodes bytes) ≡ Ok log → IsLawful (journal_of many_nodes bytes) log }
    ensures promised { (bytes : List ℕ) (log : List Entry) → IsOfOneNode (journal_of many_nodes bytes) → log_of (journal_of many_nodes bytes) ≡ Ok log → IsPromised (journal_of many_nodes bytes) log }
    ensures sharper { (bytes : List ℕ) (log : List Entry) → IsOfOneNode (journal_of many_nodes bytes) → log_of (journal_of many_nodes bytes) ≡ Ok log → IsSharper (journal_of many_nodes bytes) log × IsolatesStrangers (journal_of many_nodes bytes) log × EndsToldLast log }
{}

/// What is read without a fault by the grammar of one node is read so by that of many.
pub fn one_node_read_as_many()
    ensures { (bytes : List ℕ) → first_fault one_node bytes ≡ None → scan_of many_nodes bytes ≡ scan_of one_node bytes }
{}
