//! What holds of the symbols of any text.

ghost use Rattle.std.specs.Prelude.{◌≡◌, ◌≤◌, ℕ, List, length};
ghost use Rattle.query_lexer.specs.Symbols.{symbols_within};

/// As many steps as there are characters are enough to find all symbols: more of them find no others.
pub fn bound_law()
    ensures { (steps place : ℕ) (letters : List ℕ) → length letters ≤ steps
        → symbols_within steps place letters ≡ symbols_within (length letters) place letters }
{}
