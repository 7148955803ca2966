//! What the machine reads in the symbols of small paths, by computation.
#![tactic(auto, unfolding(selection_grammar::specs::steps::Machine::next))]

ghost use Rattle.std.specs.Prelude.{◌≡◌, [], ◌∷◌, codes, Some, None};
ghost use Rattle.selection_grammar.specs.declared.symbol.Symbol.TheVariants as S;
ghost use Rattle.path_grammar.specs.declared.path.PathRoot.TheVariants as R;
ghost use Rattle.path_grammar.specs.Spellings.{row, quoted_inside, value_of, depth_of, child, below};
ghost use Rattle.path_grammar.specs.Form.{steps, no_steps, paths, no_paths, number, holds, and_of, or_of, not_of, attribute, exists, contains, conditions};

/// `collection()//b[2]`, and what stops it: a number after `(`, and a second number.
pub fn read_number()
    ensures number { value_of (row (S.Name (codes "collection") ∷ S.OpenParenthesis ∷ S.CloseParenthesis ∷ S.DoubleSlash
        ∷ S.Name (codes "b") ∷ S.OpenBracket ∷ S.Number 2 ∷ S.CloseBracket ∷ []))
        ≡ Some (record { root = R.Collection; steps = steps (below (codes "b") (number 2 ∷ []) ∷ []) }, []) }
    ensures in_parentheses { depth_of (row (S.Name (codes "collection") ∷ S.OpenParenthesis ∷ S.CloseParenthesis ∷ S.DoubleSlash
        ∷ S.Name (codes "b") ∷ S.OpenBracket ∷ S.OpenParenthesis ∷ S.Number 2 ∷ [])) ≡ None }
    ensures twice { depth_of (row (S.Name (codes "collection") ∷ S.OpenParenthesis ∷ S.CloseParenthesis ∷ S.DoubleSlash ∷ S.Name (codes "b")
        ∷ S.OpenBracket ∷ S.Number 2 ∷ S.Number 2 ∷ [])) ≡ None }
    ensures within { depth_of (row (S.Name (codes "collection") ∷ S.OpenParenthesis ∷ S.CloseParenthesis ∷ S.DoubleSlash
        ∷ S.Name (codes "b") ∷ S.OpenBracket ∷ S.Number 2 ∷ [])) ≡ Some 1 }
{}

/// `doc("x")/a[. contains text "u" and not(@k)]`.
pub fn read_and_not()
    ensures whole { value_of (row (S.Name (codes "doc") ∷ S.OpenParenthesis ∷ S.Text (codes "x") ∷ S.CloseParenthesis ∷ S.Slash
        ∷ S.Name (codes "a") ∷ S.OpenBracket ∷ S.Period ∷ S.Name (codes "contains") ∷ S.Name (codes "text") ∷ S.Text (codes "u")
        ∷ S.Name (codes "and") ∷ S.Name (codes "not") ∷ S.OpenParenthesis ∷ S.At ∷ S.Name (codes "k") ∷ S.CloseParenthesis
        ∷ S.CloseBracket ∷ []))
        ≡ Some (
          record {
            root = R.Doc (codes "x");
            steps = steps (child (codes "a") (holds (and_of (conditions (contains no_steps 0 no_paths ∷ not_of (attribute (codes "k") None) ∷ []))) ∷ []) ∷ []);
          },
          quoted_inside (10, 11) (codes "u") ∷ [],
        ) }
    ensures two_open { depth_of (row (S.Name (codes "doc") ∷ S.OpenParenthesis ∷ S.Text (codes "x") ∷ S.CloseParenthesis ∷ S.Slash
        ∷ S.Name (codes "a") ∷ S.OpenBracket ∷ S.Period ∷ S.Name (codes "contains") ∷ S.Name (codes "text") ∷ S.Text (codes "u")
        ∷ S.Name (codes "and") ∷ S.Name (codes "not") ∷ S.OpenParenthesis ∷ [])) ≡ Some 2 }
{}

/// `collection()/a[b contains text "u" or c/d contains text "w"]`: two selections, the numbers 0 and 1.
pub fn read_selections()
    ensures { value_of (row (S.Name (codes "collection") ∷ S.OpenParenthesis ∷ S.CloseParenthesis ∷ S.Slash ∷ S.Name (codes "a")
        ∷ S.OpenBracket ∷ S.Name (codes "b") ∷ S.Name (codes "contains") ∷ S.Name (codes "text") ∷ S.Text (codes "u")
        ∷ S.Name (codes "or") ∷ S.Name (codes "c") ∷ S.Slash ∷ S.Name (codes "d") ∷ S.Name (codes "contains") ∷ S.Name (codes "text")
        ∷ S.Text (codes "w") ∷ S.CloseBracket ∷ []))
        ≡ Some (
          record {
            root = R.Collection;
            steps = steps (child (codes "a") (holds (or_of (conditions (contains (steps (child (codes "b") [] ∷ [])) 0 no_paths
                ∷ contains (steps (child (codes "c") [] ∷ child (codes "d") [] ∷ [])) 1 no_paths ∷ []))) ∷ []) ∷ []);
          },
          quoted_inside (9, 10) (codes "u") ∷ quoted_inside (16, 17) (codes "w") ∷ [],
        ) }
{}

/// `collection()/a[. contains text "u" without content b[c contains text "w"]//d | . and @k]`: the selection in the
/// first ignored path has the number 1, its bracket is open within the one of `a`, and the condition goes on after the last path.
pub fn read_without()
    ensures whole { value_of (row (S.Name (codes "collection") ∷ S.OpenParenthesis ∷ S.CloseParenthesis ∷ S.Slash ∷ S.Name (codes "a")
        ∷ S.OpenBracket ∷ S.Period ∷ S.Name (codes "contains") ∷ S.Name (codes "text") ∷ S.Text (codes "u") ∷ S.Name (codes "without")
        ∷ S.Name (codes "content") ∷ S.Name (codes "b") ∷ S.OpenBracket ∷ S.Name (codes "c") ∷ S.Name (codes "contains") ∷ S.Name (codes "text")
        ∷ S.Text (codes "w") ∷ S.CloseBracket ∷ S.DoubleSlash ∷ S.Name (codes "d") ∷ S.VerticalBar ∷ S.Period ∷ S.Name (codes "and")
        ∷ S.At ∷ S.Name (codes "k") ∷ S.CloseBracket ∷ []))
        ≡ Some (
          record {
            root = R.Collection;
            steps = steps (child (codes "a") (holds (and_of (conditions (contains no_steps 0 (paths
                (steps (child (codes "b") (holds (contains (steps (child (codes "c") [] ∷ [])) 1 no_paths) ∷ []) ∷ below (codes "d") [] ∷ []) ∷ no_steps ∷ []))
                ∷ attribute (codes "k") None ∷ []))) ∷ []) ∷ []);
          },
          quoted_inside (9, 10) (codes "u") ∷ quoted_inside (17, 18) (codes "w") ∷ [],
        ) }
    ensures two_open { depth_of (row (S.Name (codes "collection") ∷ S.OpenParenthesis ∷ S.CloseParenthesis ∷ S.Slash ∷ S.Name (codes "a")
        ∷ S.OpenBracket ∷ S.Period ∷ S.Name (codes "contains") ∷ S.Name (codes "text") ∷ S.Text (codes "u") ∷ S.Name (codes "without")
        ∷ S.Name (codes "content") ∷ S.Name (codes "b") ∷ S.OpenBracket ∷ [])) ≡ Some 2 }
{}

/// In an ignored path `not` is an element's name, and no parenthesis, attribute or further selection stands in its place or after it.
/// `|` stands after one, and in no other place.
pub fn ignored_paths()
    ensures not { value_of (row (S.Name (codes "collection") ∷ S.OpenParenthesis ∷ S.CloseParenthesis ∷ S.Slash ∷ S.Name (codes "a")
        ∷ S.OpenBracket ∷ S.Period ∷ S.Name (codes "contains") ∷ S.Name (codes "text") ∷ S.Text (codes "u") ∷ S.Name (codes "without")
        ∷ S.Name (codes "content") ∷ S.Name (codes "not") ∷ S.CloseBracket ∷ []))
        ≡ Some (
          record {
            root = R.Collection;
            steps = steps (child (codes "a") (holds (contains no_steps 0 (paths (steps (child (codes "not") [] ∷ []) ∷ []))) ∷ []) ∷ []);
          },
          quoted_inside (9, 10) (codes "u") ∷ [],
        ) }
    ensures no_content { depth_of (row (S.Name (codes "collection") ∷ S.OpenParenthesis ∷ S.CloseParenthesis ∷ S.Slash ∷ S.Name (codes "a")
        ∷ S.OpenBracket ∷ S.Period ∷ S.Name (codes "contains") ∷ S.Name (codes "text") ∷ S.Text (codes "u") ∷ S.Name (codes "without")
        ∷ S.Name (codes "b") ∷ [])) ≡ None }
    ensures parenthesis { depth_of (row (S.Name (codes "collection") ∷ S.OpenParenthesis ∷ S.CloseParenthesis ∷ S.Slash ∷ S.Name (codes "a")
        ∷ S.OpenBracket ∷ S.Period ∷ S.Name (codes "contains") ∷ S.Name (codes "text") ∷ S.Text (codes "u") ∷ S.Name (codes "without")
        ∷ S.Name (codes "content") ∷ S.OpenParenthesis ∷ [])) ≡ None }
    ensures contains { depth_of (row (S.Name (codes "collection") ∷ S.OpenParenthesis ∷ S.CloseParenthesis ∷ S.Slash ∷ S.Name (codes "a")
        ∷ S.OpenBracket ∷ S.Period ∷ S.Name (codes "contains") ∷ S.Name (codes "text") ∷ S.Text (codes "u") ∷ S.Name (codes "without")
        ∷ S.Name (codes "content") ∷ S.Name (codes "b") ∷ S.Name (codes "contains") ∷ [])) ≡ None }
    ensures bar { depth_of (row (S.Name (codes "collection") ∷ S.OpenParenthesis ∷ S.CloseParenthesis ∷ S.Slash ∷ S.Name (codes "a")
        ∷ S.OpenBracket ∷ S.Name (codes "b") ∷ S.VerticalBar ∷ [])) ≡ None }
    ensures bar_after_a_selection { depth_of (row (S.Name (codes "collection") ∷ S.OpenParenthesis ∷ S.CloseParenthesis ∷ S.Slash
        ∷ S.Name (codes "a") ∷ S.OpenBracket ∷ S.Period ∷ S.Name (codes "contains") ∷ S.Name (codes "text") ∷ S.Text (codes "u")
        ∷ S.VerticalBar ∷ [])) ≡ None }
    ensures second_bar { depth_of (row (S.Name (codes "collection") ∷ S.OpenParenthesis ∷ S.CloseParenthesis ∷ S.Slash ∷ S.Name (codes "a")
        ∷ S.OpenBracket ∷ S.Period ∷ S.Name (codes "contains") ∷ S.Name (codes "text") ∷ S.Text (codes "u") ∷ S.Name (codes "without")
        ∷ S.Name (codes "content") ∷ S.Name (codes "b") ∷ S.VerticalBar ∷ S.VerticalBar ∷ [])) ≡ None }
    ensures end { value_of (row (S.Name (codes "collection") ∷ S.OpenParenthesis ∷ S.CloseParenthesis ∷ S.Slash ∷ S.Name (codes "a")
        ∷ S.OpenBracket ∷ S.Period ∷ S.Name (codes "contains") ∷ S.Name (codes "text") ∷ S.Text (codes "u") ∷ S.Name (codes "without")
        ∷ S.Name (codes "content") ∷ S.Name (codes "b") ∷ S.VerticalBar ∷ S.CloseBracket ∷ [])) ≡ None }
{}

/// `not` is an element's name where no `(` stands after it, `.` takes no predicate, and the longest run of a selection decides.
pub fn read_names()
    ensures not { value_of (row (S.Name (codes "collection") ∷ S.OpenParenthesis ∷ S.CloseParenthesis ∷ S.Slash ∷ S.Name (codes "not")
        ∷ S.OpenBracket ∷ S.Name (codes "not") ∷ S.CloseBracket ∷ []))
        ≡ Some (record { root = R.Collection; steps = steps (child (codes "not") (holds (exists (steps (child (codes "not") [] ∷ []))) ∷ []) ∷ []) }, []) }
    ensures other { depth_of (row (S.Name (codes "collection") ∷ S.OpenParenthesis ∷ S.CloseParenthesis ∷ S.Slash ∷ S.Name (codes "a")
        ∷ S.OpenBracket ∷ S.Name (codes "b") ∷ S.OpenParenthesis ∷ [])) ≡ None }
    ensures period { depth_of (row (S.Name (codes "collection") ∷ S.OpenParenthesis ∷ S.CloseParenthesis ∷ S.Slash ∷ S.Name (codes "a")
        ∷ S.OpenBracket ∷ S.Period ∷ S.OpenBracket ∷ [])) ≡ None }
    ensures longest { depth_of (row (S.Name (codes "collection") ∷ S.OpenParenthesis ∷ S.CloseParenthesis ∷ S.Slash ∷ S.Name (codes "a")
        ∷ S.OpenBracket ∷ S.Period ∷ S.Name (codes "contains") ∷ S.Name (codes "text") ∷ S.Text (codes "u") ∷ S.Name (codes "not")
        ∷ S.OpenParenthesis ∷ [])) ≡ None }
    ensures no_step { value_of (row (S.Name (codes "collection") ∷ S.OpenParenthesis ∷ S.CloseParenthesis ∷ [])) ≡ None }
{}
