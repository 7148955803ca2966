//! Which selection says what is shown, by computation.

ghost use Rattle.std.specs.Prelude.{◌≡◌, ◌∷◌, [], codes, false, true, Some, None};
ghost use Rattle.path_grammar.specs.Form.{and_of, attribute, conditions, contains, holds, no_paths, no_steps, not_of, paths, number, predicates, step, steps};
ghost use Rattle.path_grammar.specs.Without.{has_without};
ghost use Rattle.path_grammar.specs.declared.path.NameTest.TheVariants as test;
ghost use Rattle.path_subset.specs.Examples.{with_selection_to};
ghost use Rattle.path_subset.specs.Shown.{shown_number, shown_selection};

/// It is that of the last predicate of the last step, as in `/a[. contains text "x"]`, whatever stands before it.
pub fn selections_that_are_shown()
    ensures one { shown_selection (steps (step false test.Any (predicates (holds (contains no_steps 0 no_paths) ∷ [])) ∷ [])) ≡ Some 0 }
    ensures last_step { shown_selection (steps (step false test.Any (predicates (holds (contains no_steps 0 no_paths) ∷ [])) ∷ step true test.Any (predicates (holds (contains no_steps 1 no_paths) ∷ [])) ∷ []))
        ≡ Some 1 }
    ensures last_predicate { shown_selection (steps (step false test.Any (predicates (holds (contains no_steps 0 no_paths) ∷ holds (contains no_steps 1 no_paths) ∷ [])) ∷ [])) ≡ Some 1 }
    ensures behind_a_number { shown_selection (steps (step false test.Any (predicates (number 1 ∷ holds (contains no_steps 0 no_paths) ∷ [])) ∷ [])) ≡ Some 0 }
{}

/// There is none where the last predicate is another one, as in `/a[b contains text "x"]`, in `/a[. contains text "x" and @k]`, in
/// `/a[. contains text "x"][1]` or in `/a[. contains text "x" without content .]`, or where the last step has no predicate, as in `/a[. contains text "x"]/b`.
pub fn paths_that_show_nothing()
    ensures no_predicate { shown_selection (steps (step false test.Any (predicates []) ∷ [])) ≡ None }
    ensures below { shown_selection (steps (step false test.Any (predicates (holds (contains (steps (step false test.Any (predicates []) ∷ [])) 0 no_paths) ∷ [])) ∷ [])) ≡ None }
    ensures without_content { shown_selection (steps (step false test.Any (predicates (holds (contains no_steps 0 (paths (no_steps ∷ []))) ∷ [])) ∷ [])) ≡ None }
    ensures joined { shown_selection (steps (step false test.Any (predicates (holds (and_of (conditions (contains no_steps 0 no_paths ∷ attribute (codes "k") None ∷ []))) ∷ [])) ∷ []))
        ≡ None }
    ensures negated { shown_selection (steps (step false test.Any (predicates (holds (not_of (contains no_steps 0 no_paths)) ∷ [])) ∷ [])) ≡ None }
    ensures number_behind { shown_selection (steps (step false test.Any (predicates (holds (contains no_steps 0 no_paths) ∷ number 1 ∷ [])) ∷ [])) ≡ None }
    ensures step_behind { shown_selection (steps (step false test.Any (predicates (holds (contains no_steps 0 no_paths) ∷ [])) ∷ step false test.Any (predicates []) ∷ [])) ≡ None }
{}

/// Blanks may stand before the bracket that closes behind the selection, and the selection itself may stand in parentheses.
pub fn texts_of_shown_selections()
    ensures shown { shown_number (codes "collection()/a[. contains text \"x\"]") (with_selection_to 34) ≡ Some 0 }
    ensures blanks { shown_number (codes "collection()/a[. contains text \"x\" \t]") (with_selection_to 34) ≡ Some 0 }
    ensures selection_in_parentheses { shown_number (codes "collection()/a[. contains text (\"x\")]") (with_selection_to 36) ≡ Some 0 }
{}

/// The predicate may not.
pub fn predicates_in_parentheses()
    ensures one { shown_number (codes "collection()/a[(. contains text \"x\")]") (with_selection_to 35) ≡ None }
    ensures blanks { shown_number (codes "collection()/a[ ( . contains text \"x\" ) ]") (with_selection_to 37) ≡ None }
    ensures two { shown_number (codes "collection()/a[((. contains text (\"x\")))]") (with_selection_to 38) ≡ None }
    ensures text_ends { shown_number (codes "collection()/a[. contains text \"x\"") (with_selection_to 34) ≡ None }
{}

/// Text is asked for without content in the path itself, in predicates inside it, or not at all.
#[tactic(auto, unfolding(path_grammar::specs::Without::has_without, path_grammar::specs::Without::step_has, path_grammar::specs::Without::predicates_have, path_grammar::specs::Without::predicate_has, path_grammar::specs::Without::condition_has, path_grammar::specs::Without::conditions_have))]
pub fn paths_without_content()
    ensures none { has_without (steps (step false test.Any (predicates (number 1 ∷ holds (contains no_steps 0 no_paths) ∷ [])) ∷ [])) ≡ false }
    ensures one { has_without (steps (step false test.Any (predicates []) ∷ step false test.Any (predicates (number 1 ∷ holds (contains no_steps 0 (paths (no_steps ∷ []))) ∷ [])) ∷ []))
        ≡ true }
    ensures inside { has_without (steps (step false test.Any (predicates (holds (contains (steps (step true test.Any (predicates (holds (not_of (contains no_steps 0 (paths (no_steps ∷ [])))) ∷ [])) ∷ []))
        1 no_paths) ∷ [])) ∷ [])) ≡ true }
{}
