//! What holds of symbols wherever they stand.

ghost use Rattle.std.specs.Prelude.{◌≡◌, List};
ghost use Rattle.selection_round_trip.specs.Places.{SpelledThere, symbols_in};
ghost use Rattle.selection_grammar.specs.Grammar.{Selection};
ghost use Rattle.selection_grammar.specs.Tree.{Tree};
ghost use Rattle.selection_grammar.specs.declared.symbol.Placed.{Placed};

/// The same symbols at other places spell the same selection, which has a fault or a filter too many exactly where the one that was
/// spelled has.
pub fn same_elsewhere()
    ensures { (symbols others : List Placed) (tree : Tree) → Selection symbols tree → symbols_in others ≡ symbols_in symbols → SpelledThere others tree }
{}
