//! What holds of the paths that texts are read as.

ghost use Rattle.std.specs.Prelude.{◌≡◌, ◌↔◌, ◌≤◌, ℕ, true, false, List, [], ◌∷◌, ◌++◌, Some, Ok, Err};
ghost use Rattle.ft_base.specs.Limits.{max_open};
ghost use Rattle.ft_base.specs.declared.fault.QueryFault.{QueryFault};
ghost use Rattle.path_grammar.specs.Form as form;
ghost use Rattle.path_grammar.specs.Grammar.{Begins, Inside, Path};
ghost use Rattle.path_grammar.specs.Levels.{BeginsWithin, OpensTooDeep, levels};
ghost use Rattle.path_grammar.specs.steps.Machine.{State, open_count, read};
ghost use Rattle.path_subset.specs.Answer.{path_read};
ghost use Rattle.path_subset.specs.Limits.{AreNumbersWithin, Within, goes_on, opens, exceeds};
ghost use Rattle.path_subset.specs.Paths.{PathForm};
ghost use Rattle.path_subset.specs.Refused.{IsFaultOf};
ghost use Rattle.path_subset.specs.Spelled.{SpellsPath};
ghost use Rattle.selection_grammar.specs.declared.symbol.Placed.{Placed};

/// A text is read as the path that its symbols spell by the grammar, within the limits and with selections that have no fault, and
/// as no other.
pub fn spelled_law()
    ensures { (text : List ℕ) (value : PathForm) → (path_read text ≡ Ok value) ↔ SpellsPath text value }
{}

/// A text is read as a fault exactly where that is its first one. The first symbol, outside of all selections, that exceeds a limit or
/// with which the symbols begin no path; a character that begins no symbol; or an end too soon: each counts only where all selections
/// before it are read. So a fault of a selection comes first, whichever it is, and among selections the first one with a fault counts.
/// At one place Deep and Number come before Syntax.
pub fn refused_law()
    ensures { (text : List ℕ) (fault : QueryFault) → (path_read text ≡ Err fault) ↔ IsFaultOf text fault }
{}

/// The limits outside of selections by the grammar: a path is within them exactly where its brackets and parentheses stand no more
/// levels deep in one another than may be open at once and no number is too great; symbols that begin a path, where some path of no more
/// levels goes on with them. A bracket or parenthesis that may stand after them exceeds the limit exactly where none does with it.
pub fn depth_law()
    ensures path { (symbols : List Placed) (value : form.Path) (insides : List Inside) → (whole : Path symbols value insides)
        → Within symbols ↔ ((levels whole ≤ max_open) × AreNumbersWithin symbols) }
    ensures prefix { (symbols : List Placed) → Begins symbols → Within symbols ↔ (BeginsWithin max_open symbols × AreNumbersWithin symbols) }
    ensures symbol { (before : List Placed) (p : Placed) (state : State) → read before ≡ Some state → Within before
        → Begins (before ++ p ∷ []) → opens p.symbol ≡ true → goes_on state p ≡ false
        → (exceeds (open_count state) p.symbol ≡ true) ↔ OpensTooDeep max_open before p }
{}
