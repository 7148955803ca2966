//! What a symbol is.

ghost use Rattle.std.specs.Prelude.{◌≡◌};
ghost use Rattle.selection_grammar.specs.Shapes as shapes;

use selection_grammar::Symbol;

/// Whether the symbol is this keyword.
pub(crate) fn is_word(symbol: &Symbol, word: &str) -> bool
    ensures { result ≡ shapes.is_word word.now symbol.now }
{
    match symbol {
        Symbol::Name(name) => name.as_str() == word,
        _ => false,
    }
}
