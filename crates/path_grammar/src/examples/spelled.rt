//! Symbols that spell paths.

ghost use Rattle.std.specs.Prelude.{◌≡◌, [], ◌∷◌, codes, None};
ghost use Rattle.selection_grammar.specs.declared.symbol.Symbol.TheVariants as S;
ghost use Rattle.path_grammar.specs.declared.path.PathRoot.TheVariants as R;
ghost use Rattle.path_grammar.specs.Spellings.{row, quoted_inside, child, below};
ghost use Rattle.path_grammar.specs.Form.{steps, no_steps, paths, no_paths, number, holds, and_of, or_of, not_of, attribute, exists, contains, conditions};
ghost use Rattle.path_grammar.specs.Grammar.{Path, Begins, begins_at, ends_at};
ghost use Rattle.path_grammar.specs.Levels.{levels};

/// `collection()//b[2]`.
pub fn spelled_number()
    ensures { Path (row (S.Name (codes "collection") ∷ S.OpenParenthesis ∷ S.CloseParenthesis ∷ S.DoubleSlash ∷ S.Name (codes "b")
        ∷ S.OpenBracket ∷ S.Number 2 ∷ S.CloseBracket ∷ []))
        (record { root = R.Collection; steps = steps (below (codes "b") (number 2 ∷ []) ∷ []) }) [] }
{}

/// `doc("x")/a[. contains text "u" and not(@k)]`, of two levels.
pub fn spelled_and_not()
    ensures { (whole : Path (row (S.Name (codes "doc") ∷ S.OpenParenthesis ∷ S.Text (codes "x") ∷ S.CloseParenthesis ∷ S.Slash
        ∷ S.Name (codes "a") ∷ S.OpenBracket ∷ S.Period ∷ S.Name (codes "contains") ∷ S.Name (codes "text") ∷ S.Text (codes "u")
        ∷ S.Name (codes "and") ∷ S.Name (codes "not") ∷ S.OpenParenthesis ∷ S.At ∷ S.Name (codes "k") ∷ S.CloseParenthesis
        ∷ S.CloseBracket ∷ []))
        (record {
          root = R.Doc (codes "x");
          steps = steps (child (codes "a") (holds (and_of (conditions (contains no_steps 0 no_paths ∷ not_of (attribute (codes "k") None) ∷ []))) ∷ []) ∷ []);
        })
        (quoted_inside (10, 11) (codes "u") ∷ [])) × (levels whole ≡ 2) }
{}

/// `collection()/a[b contains text "u" or c/d contains text "w"]`: two selections, the numbers 0 and 1.
pub fn spelled_selections()
    ensures { Path (row (S.Name (codes "collection") ∷ S.OpenParenthesis ∷ S.CloseParenthesis ∷ S.Slash ∷ S.Name (codes "a") ∷ S.OpenBracket
        ∷ S.Name (codes "b") ∷ S.Name (codes "contains") ∷ S.Name (codes "text") ∷ S.Text (codes "u") ∷ S.Name (codes "or")
        ∷ S.Name (codes "c") ∷ S.Slash ∷ S.Name (codes "d") ∷ S.Name (codes "contains") ∷ S.Name (codes "text") ∷ S.Text (codes "w")
        ∷ S.CloseBracket ∷ []))
        (record {
          root = R.Collection;
          steps = steps (child (codes "a") (holds (or_of (conditions (contains (steps (child (codes "b") [] ∷ [])) 0 no_paths
              ∷ contains (steps (child (codes "c") [] ∷ child (codes "d") [] ∷ [])) 1 no_paths ∷ []))) ∷ []) ∷ []);
        })
        (quoted_inside (9, 10) (codes "u") ∷ quoted_inside (16, 17) (codes "w") ∷ []) }
{}

/// `collection()/a[. contains text "u" without content b[c contains text "w"] | .]`, of two levels.
pub fn spelled_without()
    ensures { (whole : Path (row (S.Name (codes "collection") ∷ S.OpenParenthesis ∷ S.CloseParenthesis ∷ S.Slash ∷ S.Name (codes "a")
        ∷ S.OpenBracket ∷ S.Period ∷ S.Name (codes "contains") ∷ S.Name (codes "text") ∷ S.Text (codes "u") ∷ S.Name (codes "without")
        ∷ S.Name (codes "content") ∷ S.Name (codes "b") ∷ S.OpenBracket ∷ S.Name (codes "c") ∷ S.Name (codes "contains") ∷ S.Name (codes "text")
        ∷ S.Text (codes "w") ∷ S.CloseBracket ∷ S.VerticalBar ∷ S.Period ∷ S.CloseBracket ∷ []))
        (record {
          root = R.Collection;
          steps = steps (child (codes "a") (holds (contains no_steps 0 (paths
              (steps (child (codes "b") (holds (contains (steps (child (codes "c") [] ∷ [])) 1 no_paths) ∷ []) ∷ []) ∷ no_steps ∷ []))) ∷ []) ∷ []);
        })
        (quoted_inside (9, 10) (codes "u") ∷ quoted_inside (17, 18) (codes "w") ∷ [])) × (levels whole ≡ 2) }
{}

/// `collection()/not[or]`: keywords are names in other places.
pub fn spelled_keywords()
    ensures { Path (row (S.Name (codes "collection") ∷ S.OpenParenthesis ∷ S.CloseParenthesis ∷ S.Slash ∷ S.Name (codes "not")
        ∷ S.OpenBracket ∷ S.Name (codes "or") ∷ S.CloseBracket ∷ []))
        (record { root = R.Collection; steps = steps (child (codes "not") (holds (exists (steps (child (codes "or") [] ∷ []))) ∷ []) ∷ []) }) [] }
{}

/// `collection()`, which begins a path.
pub fn begun_by_a_root()
    ensures { Begins (row (S.Name (codes "collection") ∷ S.OpenParenthesis ∷ S.CloseParenthesis ∷ [])) }
{}

/// The place of a selection's first symbol, and the place after its last.
pub fn selection_places()
    ensures first { begins_at (row (S.Text (codes "u") ∷ S.Name (codes "ftand") ∷ S.Text (codes "w") ∷ [])) ≡ 0 }
    ensures last { ends_at (row (S.Text (codes "u") ∷ S.Name (codes "ftand") ∷ S.Text (codes "w") ∷ [])) ≡ 3 }
{}
