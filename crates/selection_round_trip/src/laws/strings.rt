//! What holds of strings, names and numbers as they are printed.

ghost use Rattle.std.specs.Fmt.{decimal};
ghost use Rattle.std.specs.List.{list_all};
ghost use Rattle.std.specs.Prelude.{◌≡◌, ◌≤◌, ℕ, suc, true, false, List, [], ◌∷◌, ◌++◌, encode_utf8_all, flat_map};
ghost use Rattle.ft_base.specs.Characters.{is_name_char, is_name_start};
ghost use Rattle.ft_base.specs.Letters.{begins_with};
ghost use Rattle.ft_base.specs.Limits.{max_number};
ghost use Rattle.query_lexer.specs.Symbols.{goes_on_as_name, symbols_within};
ghost use Rattle.ft_syntax.specs.OptionSymbols.{in_quotes, string_symbol};
ghost use Rattle.selection_round_trip.specs.Strings.{with_string, with_symbol};
ghost use Rattle.selection_grammar.specs.declared.symbol.Symbol.TheVariants.{Name, Number};

/// A string as it is printed is read as itself, wherever no quotation mark stands directly after it.
pub fn strings_read()
    ensures written { (letters : List ℕ) → encode_utf8_all (34 ∷ flat_map in_quotes letters ++ 34 ∷ []) ≡ string_symbol (encode_utf8_all letters) }
    ensures read { (bound place : ℕ) (letters rest : List ℕ) → begins_with 34 rest ≡ false
        → symbols_within (suc bound) place (34 ∷ flat_map in_quotes letters ++ 34 ∷ rest) ≡ with_string bound place (encode_utf8_all letters) rest }
{}

/// A name is read as itself, wherever no character of a name stands directly after it.
pub fn names_read()
    ensures { (bound place first : ℕ) (letters rest : List ℕ) → is_name_start first ≡ true → list_all is_name_char letters ≡ true
        → goes_on_as_name rest ≡ false
        → symbols_within (suc bound) place (first ∷ letters ++ rest)
        ≡ with_symbol bound place (Name (encode_utf8_all (first ∷ letters))) (encode_utf8_all (first ∷ letters)) rest }
{}

/// A number within the limit as it is printed is read as itself, wherever no character of a name stands directly after it.
pub fn numbers_read()
    ensures { (bound place number : ℕ) (rest : List ℕ) → number ≤ max_number → goes_on_as_name rest ≡ false
        → symbols_within (suc bound) place (decimal number ++ rest) ≡ with_symbol bound place (Number number) (decimal number) rest }
{}
