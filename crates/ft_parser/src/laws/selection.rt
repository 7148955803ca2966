//! What holds of the selections that texts are read as.

ghost use Rattle.std.specs.Prelude.{◌≡◌, ◌↔◌, ℕ, true, List, Ok, Err};
ghost use Rattle.ft_base.specs.Selection.{Form};
ghost use Rattle.ft_base.specs.declared.fault.QueryFault.{QueryFault};
ghost use Rattle.ft_parser.specs.Answer.{selection_read};
ghost use Rattle.ft_parser.specs.FilterLimit.{are_filters_within};
ghost use Rattle.ft_parser.specs.FilterPlaces.{HasAllFilters, NoneIsDeep};
ghost use Rattle.ft_parser.specs.Limits.{is_filter_word};
ghost use Rattle.ft_parser.specs.Selected.{IsFaultOf, SpellsSelection, is_deep_after};
ghost use Rattle.selection_grammar.specs.Grammar.{Selection};
ghost use Rattle.selection_grammar.specs.Tree.{Tree};
ghost use Rattle.selection_grammar.specs.declared.symbol.Placed.{Placed};
ghost use Rattle.selection_grammar.specs.declared.symbol.Symbol.{Symbol};

/// A text is read as the selection that its symbols spell by the grammar, or else as its first fault.
pub fn reading_law()
    ensures selection { (text : List ℕ) (form : Form) → (selection_read text ≡ Ok form) ↔ SpellsSelection text form }
    ensures fault { (text : List ℕ) (fault : QueryFault) → (selection_read text ≡ Err fault) ↔ IsFaultOf text fault }
{}

/// A symbol begins a filter too many exactly where the selection that is spelled has somewhere more filters directly round one another
/// than may stand so; and the selection that the filter would stand on is the one from the last open parenthesis on.
pub fn filters_law()
    ensures selection { (symbols : List Placed) (tree : Tree) → Selection symbols tree → NoneIsDeep symbols ↔ (are_filters_within tree ≡ true) }
    ensures operand { (before : List Placed) (symbol : Symbol) → is_deep_after before symbol ≡ true → (is_filter_word symbol ≡ true) × HasAllFilters before }
{}
