//! What paths ask of selections in a small document, by computation.
#![tactic(auto, unfolding(
// where steps and predicates lead
crate::specs::Meaning::stepped, crate::specs::Meaning::led, crate::specs::Meaning::filtered, crate::specs::Meaning::filtered_by,
// which conditions are true, and what a path selects
crate::specs::Meaning::is_true, crate::specs::Meaning::some_true, crate::specs::Meaning::each_true, crate::specs::Meaning::selected,
// what is ignored
crate::specs::Meaning::ignored, crate::specs::Meaning::led_by_each,
// what steps and predicates ask
crate::specs::Tests::step_tests, crate::specs::Tests::steps_tests, crate::specs::Tests::predicates_tests,
// what conditions and paths ask
crate::specs::Tests::predicate_tests, crate::specs::Tests::condition_tests, crate::specs::Tests::conditions_tests, crate::specs::Tests::ignored_tests, crate::specs::Tests::selected_tests))]

ghost use Rattle.std.specs.Prelude.{◌≡◌, [], ◌∷◌, codes, false};
ghost use Rattle.path_grammar.specs.declared.path.NameTest.TheVariants as T;
ghost use Rattle.path_meaning.specs.Examples.{tested_places, has_text, letters};
ghost use Rattle.path_grammar.specs.Spellings.{child, below};
ghost use Rattle.path_grammar.specs.Form.{step, steps, no_steps, predicates, number, holds, or_of, contains, conditions, paths, no_paths};

/// A predicate asks of what the predicates before it have left, and all of its parts are evaluated.
pub fn tested_by_predicates()
    ensures before_a_number { tested_places (has_text (codes "x")) (below (codes "b") (holds (contains no_steps 0 no_paths) ∷ number 2 ∷ []) ∷ []) letters
        ≡ (0, 1 ∷ []) ∷ (0, 2 ∷ []) ∷ (0, 3 ∷ 1 ∷ []) ∷ [] }
    ensures after_a_number { tested_places (has_text (codes "x")) (below (codes "b") (number 2 ∷ holds (contains no_steps 0 no_paths) ∷ []) ∷ [])
        letters ≡ (0, 2 ∷ []) ∷ [] }
    ensures both_parts { tested_places (has_text (codes "x"))
        (child (codes "a") (holds
        (or_of (conditions (contains no_steps 0 no_paths ∷ contains (steps (child (codes "b") [] ∷ [])) 1 no_paths ∷ []))) ∷ []) ∷ []) letters
        ≡ (0, []) ∷ (1, 1 ∷ []) ∷ (1, 2 ∷ []) ∷ [] }
    ensures in_a_later_step { tested_places (has_text (codes "x")) (child (codes "a") [] ∷ child (codes "b") (holds (contains no_steps 0 no_paths) ∷ []) ∷ []) letters
        ≡ (0, 1 ∷ []) ∷ (0, 2 ∷ []) ∷ [] }
    ensures in_ignored_paths { tested_places (has_text (codes "x"))
        (child (codes "a") (holds (contains (steps (child (codes "b") [] ∷ [])) 0
        (paths (steps (step false T.Any (predicates (holds (contains no_steps 1 no_paths) ∷ [])) ∷ []) ∷ no_steps ∷ []))) ∷ []) ∷ []) letters
        ≡ (1, 1 ∷ []) ∷ (1, 2 ∷ []) ∷ (1, 3 ∷ []) ∷ (0, 1 ∷ []) ∷ (0, 2 ∷ []) ∷ [] }
{}
