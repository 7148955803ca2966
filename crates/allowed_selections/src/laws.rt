//! What holds of the selections that texts are read as.

ghost use Rattle.std.specs.Prelude.{◌≡◌, true, List, Option, ℕ, Ok};
ghost use Rattle.counted_shapes.specs.Accepted.{is_accepted};
ghost use Rattle.ft_base.specs.Selection.{Form};
ghost use Rattle.ft_parser.specs.Answer.{selection_read};
ghost use Rattle.ft_parser.specs.Selected.{Selects};
ghost use Rattle.selection_grammar.specs.declared.symbol.Placed.{Placed};

/// A selection that was read has each `ftnot` and `occurs` where it may stand: neither in an operand of `not in`, under a filter no `ftnot` in
/// another one, and `occurs` only where the outermost filter stands round a counted shape. The reader's faults say where one stands elsewhere.
pub fn allowed_law()
    ensures { (text : List ℕ) (form : Form) → selection_read text ≡ Ok form → is_accepted form ≡ true }
{}

/// So has one that symbols make, as those inside a path.
pub fn selected_law()
    ensures { (symbols : List Placed) (bad : Option ℕ) (form : Form) → Selects symbols bad form → is_accepted form ≡ true }
{}
