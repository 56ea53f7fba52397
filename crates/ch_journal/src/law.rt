//! A law on the texts of lines, below every code that writes a journal and reads it again.

ghost use Rattle.std.specs.Prelude.{◌≡◌, ℕ, List, [], ◌∷◌, ◌++◌};
ghost use Rattle.ch_model.specs.declared.line.What.{What};
ghost use Rattle.ch_model.specs.LinesTold.{Told};
ghost use Rattle.ch_model.specs.LinesBuilt.{one_node};
ghost use Rattle.ch_model.specs.Lines.{read_line, whole};
ghost use Rattle.ch_model.specs.Spelling.{what_text};

/// The canonical text of a line that is accepted, without its newline, is read at that line's place
/// as that line: where the lines of one node are read, and where all are. It does nothing: its clauses
/// are the law.
pub fn canonical_line_reads_back()
    ensures one_node { (told : Told) (text : List ℕ) (what : What) (after : Told) → read_line one_node told text ≡ Ok (Some what, after) → (canonical : List ℕ) × (what_text what ≡ canonical ++ 10 ∷ []) × (read_line one_node told canonical ≡ Ok (Some what, after)) }
    ensures whole { (told : Told) (text : List ℕ) (what : What) (after : Told) → read_line whole told text ≡ Ok (Some what, after) → (canonical : List ℕ) × (what_text what ≡ canonical ++ 10 ∷ []) × (read_line whole told canonical ≡ Ok (Some what, after)) }
{}
