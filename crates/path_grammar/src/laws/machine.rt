//! What the machine reads is what the grammar spells.

ghost use Rattle.std.specs.Prelude.{◌≡◌, ◌⊎◌, ◌↔◌, ◌≤◌, ◌<◌, ℕ, max, List, [], ◌∷◌, ◌++◌, Some, None};
ghost use Rattle.selection_grammar.specs.declared.symbol.Placed.{Placed};
ghost use Rattle.selection_grammar.specs.declared.symbol.Symbol.TheVariants as S;
ghost use Rattle.path_grammar.specs.Form as form;
ghost use Rattle.path_grammar.specs.Grammar.{Inside, Path, Begins};
ghost use Rattle.path_grammar.specs.Levels.{levels, BeginsWithin, OpensTooDeep};
ghost use Rattle.path_grammar.specs.steps.Machine.{State, read, finished, open_count, most_open};

/// What the machine ends with is spelled by the symbols.
pub fn read_is_spelled()
    ensures { (symbols : List Placed) (state : State) (value : form.Path) (selections : List Inside) → read symbols ≡ Some state
        → finished state ≡ Some (value, selections) → Path symbols value selections }
{}

/// What the symbols spell the machine reads.
pub fn spelled_is_read()
    ensures { (symbols : List Placed) (value : form.Path) (selections : List Inside) → Path symbols value selections
        → (state : State) × (read symbols ≡ Some state) × (finished state ≡ Some (value, selections)) }
{}

/// Symbols spell one path at most, with one list of selections.
pub fn one_path()
    ensures { (symbols : List Placed) (x y : form.Path) (ss tt : List Inside) → Path symbols x ss → Path symbols y tt → (x ≡ y) × (ss ≡ tt) }
{}

/// The machine goes on exactly where the symbols begin a path.
pub fn machine_begins()
    ensures begins { (symbols : List Placed) → Begins symbols ↔ ((state : State) × (read symbols ≡ Some state)) }
    ensures stops { (symbols : List Placed) → (read symbols ≡ None) ↔ (Begins symbols → ⊥) }
{}

/// How much is open on the machine's way is how deep a path's brackets and parentheses stand in one another. A symbol opens
/// a level past the most where more is open after it.
pub fn machine_levels()
    ensures depth { (symbols : List Placed) (value : form.Path) (selections : List Inside) → (whole : Path symbols value selections)
        → levels whole ≡ most_open symbols }
    ensures within { (most : ℕ) (symbols : List Placed)
        → BeginsWithin most symbols ↔ ((state : State) × (read symbols ≡ Some state) × (most_open symbols ≤ most)) }
    ensures one_more { (symbols : List Placed) (p : Placed) (state : State) → read (symbols ++ p ∷ []) ≡ Some state
        → most_open (symbols ++ p ∷ []) ≡ max (most_open symbols) (open_count state) }
    ensures too_deep { (most : ℕ) (symbols : List Placed) (p : Placed) → BeginsWithin most symbols
        → OpensTooDeep most symbols p ↔ ((state : State) × (read (symbols ++ p ∷ []) ≡ Some state) × (most < open_count state)) }
    ensures symbol { (most : ℕ) (symbols : List Placed) (p : Placed) → OpensTooDeep most symbols p
        → (p.symbol ≡ S.OpenBracket) ⊎ (p.symbol ≡ S.OpenParenthesis) }
{}
