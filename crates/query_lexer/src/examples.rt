//! The symbols of small texts, by computation.

ghost use Rattle.std.specs.Prelude.{◌≡◌, [], ◌∷◌, codes};
ghost use Rattle.selection_grammar.specs.declared.symbol.Symbol.TheVariants as S;
ghost use Rattle.query_lexer.specs.Examples.{from_to, whole, bad_at};
ghost use Rattle.query_lexer.specs.Symbols.{symbols_of};

/// Names take periods, dashes and digits; a period before a digit is a mark.
pub fn names_and_numbers()
    ensures dash { symbols_of (codes "x-1") ≡ whole (from_to 0 3 (S.Name (codes "x-1")) ∷ []) }
    ensures period { symbols_of (codes "a. b") ≡ whole (from_to 0 2 (S.Name (codes "a.")) ∷ from_to 3 4 (S.Name (codes "b")) ∷ []) }
    ensures period_first { symbols_of (codes ".5") ≡ whole (from_to 0 1 S.Period ∷ from_to 1 2 (S.Number 5) ∷ []) }
    ensures zeros { symbols_of (codes "0001000000") ≡ whole (from_to 0 10 (S.Number 1000000) ∷ []) }
    ensures past_a_million { symbols_of (codes "9000001") ≡ whole (from_to 0 7 (S.Number 1000001) ∷ []) }
    ensures a_name_after_a_number { symbols_of (codes "a 12x") ≡ bad_at 2 (from_to 0 1 (S.Name (codes "a")) ∷ []) }
    ensures a_period_after_a_number { symbols_of (codes "[1.]") ≡ bad_at 1 (from_to 0 1 S.OpenBracket ∷ []) }
{}

/// A quote is doubled inside its own kind of string.
pub fn strings()
    ensures doubled { symbols_of (codes "\"a\"\"b\"") ≡ whole (from_to 0 6 (S.Text (codes "a\"b")) ∷ []) }
    ensures other_quote { symbols_of (codes "'\"'''") ≡ whole (from_to 0 5 (S.Text (codes "\"'")) ∷ []) }
    ensures empty { symbols_of (codes "\"\"\"\"\"\"") ≡ whole (from_to 0 6 (S.Text (codes "\"\"")) ∷ []) }
    ensures side_by_side { symbols_of (codes "'a' 'b'") ≡ whole (from_to 0 3 (S.Text (codes "a")) ∷ from_to 4 7 (S.Text (codes "b")) ∷ []) }
    ensures open { symbols_of (codes "a 'b''") ≡ bad_at 2 (from_to 0 1 (S.Name (codes "a")) ∷ []) }
{}

/// Marks stand alone, but for `//`; a character of no class begins no symbol.
pub fn marks()
    ensures slashes { symbols_of (codes "///*") ≡ whole (from_to 0 2 S.DoubleSlash ∷ from_to 2 3 S.Slash ∷ from_to 3 4 S.Star ∷ []) }
    ensures brackets { symbols_of (codes "[(@a,={})]")
        ≡ whole (from_to 0 1 S.OpenBracket ∷ from_to 1 2 S.OpenParenthesis ∷ from_to 2 3 S.At ∷ from_to 3 4 (S.Name (codes "a"))
        ∷ from_to 4 5 S.Comma ∷ from_to 5 6 S.Equals ∷ from_to 6 7 S.OpenBrace ∷ from_to 7 8 S.CloseBrace
        ∷ from_to 8 9 S.CloseParenthesis ∷ from_to 9 10 S.CloseBracket ∷ []) }
    ensures bars { symbols_of (codes "a|.|\"|\"") ≡ whole (from_to 0 1 (S.Name (codes "a")) ∷ from_to 1 2 S.VerticalBar ∷ from_to 2 3 S.Period
        ∷ from_to 3 4 S.VerticalBar ∷ from_to 4 7 (S.Text (codes "|")) ∷ []) }
    ensures no_symbol { symbols_of (codes "a # b") ≡ bad_at 2 (from_to 0 1 (S.Name (codes "a")) ∷ []) }
    ensures blanks { symbols_of (codes " \t ") ≡ whole [] }
{}
