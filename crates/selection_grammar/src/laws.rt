//! What holds of the grammar, and of the machine that decides it.

ghost use Rattle.std.specs.Prelude.{◌≡◌, ◌↔◌, List, Some, None};
ghost use Rattle.selection_grammar.specs.Grammar.{Selection};
ghost use Rattle.selection_grammar.specs.steps.Machine.{finished, read};
ghost use Rattle.selection_grammar.specs.Texts.{Begins};
ghost use Rattle.selection_grammar.specs.Tree.{Tree};
ghost use Rattle.selection_grammar.specs.declared.symbol.Placed.{Placed};

/// Symbols spell one selection at most.
pub fn one_reading()
    ensures { (symbols : List Placed) (x y : Tree) → Selection symbols x → Selection symbols y → x ≡ y }
{}

/// The machine ends with a selection exactly where the symbols spell it.
pub fn machine_reads()
    ensures { (symbols : List Placed) (x : Tree) → (finished (read symbols) ≡ Some x) ↔ Selection symbols x }
{}

/// It stops exactly where the symbols begin no selection.
pub fn machine_stops()
    ensures { (symbols : List Placed) → (read symbols ≡ None) ↔ (Begins symbols → ⊥) }
{}
