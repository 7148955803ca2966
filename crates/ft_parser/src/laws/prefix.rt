//! What holds of the selections with which texts begin.

ghost use Rattle.std.specs.Prelude.{◌≡◌, ◌≤◌, ℕ, List, length, take};
ghost use Rattle.ft_parser.specs.Prefix.{run_length};
ghost use Rattle.selection_grammar.specs.Texts.{Begins};
ghost use Rattle.selection_grammar.specs.declared.symbol.Placed.{Placed};

/// The run begins a selection, and no longer prefix of the symbols does.
pub fn run_law()
    ensures begins { (symbols : List Placed) → Begins (take (run_length symbols) symbols) }
    ensures longest { (symbols : List Placed) (count : ℕ) → count ≤ length symbols → Begins (take count symbols) → count ≤ run_length symbols }
{}
