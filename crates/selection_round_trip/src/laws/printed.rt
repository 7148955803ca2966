//! What holds of the printed form of a selection that symbols spell.

ghost use Rattle.std.specs.Prelude.{◌≡◌, ℕ, List, None, Ok};
ghost use Rattle.ft_base.specs.Selection.{Form};
ghost use Rattle.ft_parser.specs.Answer.{selection_read};
ghost use Rattle.ft_syntax.specs.Symbols.{printed};
ghost use Rattle.selection_round_trip.specs.Printed.{FaultlessAgain, PrintedSpells, WithinLimits};
ghost use Rattle.selection_grammar.specs.Form.{form_of};
ghost use Rattle.selection_grammar.specs.Grammar.{Selection};
ghost use Rattle.selection_grammar.specs.Tree.{Tree};
ghost use Rattle.selection_grammar.specs.declared.symbol.Placed.{Placed};
ghost use Rattle.selection_faults.specs.Faults.{fault_of};

/// The printed form of a selection that was spelled is written by symbols that spell the same selection, and one without a fault if it
/// had none.
pub fn spelled_again()
    ensures spelled { (symbols : List Placed) (tree : Tree) → Selection symbols tree → PrintedSpells (form_of tree) }
    ensures faultless { (symbols : List Placed) (tree : Tree) → Selection symbols tree → fault_of tree ≡ None → FaultlessAgain (form_of tree) }
{}

/// The printed form of a selection that was read is written by symbols that spell the same selection, without a fault, and within the
/// limits of numbers, of parentheses and of filters.
pub fn read_again()
    ensures { (text : List ℕ) (form : Form) → selection_read text ≡ Ok form → WithinLimits form }
{}

/// What is printed of a selection that was read is read as that selection.
pub fn read_back()
    ensures { (text : List ℕ) (form : Form) → selection_read text ≡ Ok form → selection_read (printed form) ≡ Ok form }
{}
