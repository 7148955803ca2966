//! What holds of the symbols of printed forms.

ghost use Rattle.std.specs.Prelude.{List};
ghost use Rattle.ft_syntax.specs.Spacing.{set_out};
ghost use Rattle.selection_round_trip.specs.Places.{symbols_in};
ghost use Rattle.selection_round_trip.specs.Printable.{AllPrintable, HasSymbols};
ghost use Rattle.selection_round_trip.specs.Printed.{spellings};
ghost use Rattle.selection_grammar.specs.declared.symbol.Placed.{Placed};

/// Symbols such as printed forms have, set out with their spaces, are read as themselves.
pub fn symbols_read()
    ensures { (symbols : List Placed) → AllPrintable symbols → HasSymbols (set_out (spellings symbols)) (symbols_in symbols) }
{}
