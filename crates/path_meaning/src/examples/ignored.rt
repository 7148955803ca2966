//! What is ignored in small documents, by computation.
#![tactic(auto, unfolding(
// where steps and predicates lead
crate::specs::Meaning::stepped, crate::specs::Meaning::led, crate::specs::Meaning::filtered, crate::specs::Meaning::filtered_by,
// which conditions are true, what is ignored, and what a path selects
crate::specs::Meaning::is_true, crate::specs::Meaning::ignored, crate::specs::Meaning::led_by_each, crate::specs::Meaning::selected))]

ghost use Rattle.std.specs.Prelude.{◌≡◌, [], ◌∷◌, codes};
ghost use Rattle.path_meaning.specs.Examples.{places, ignored_places, has_text, nothing, letters, nested};
ghost use Rattle.path_grammar.specs.Spellings.{child, below};
ghost use Rattle.path_grammar.specs.Form.{steps, no_steps, number, holds, not_of, contains, paths, no_paths};

/// What paths from the root lead to in `<a><b>x</b><b>y</b><c><b>x y</b></c></a>`: in document order, each once.
pub fn ignored_elements()
    ensures no_path { ignored_places nothing [] letters ≡ [] }
    ensures in_order { ignored_places nothing (steps (child (codes "c") [] ∷ child (codes "b") [] ∷ []) ∷ steps (child (codes "b") [] ∷ []) ∷ []) letters
        ≡ (1 ∷ []) ∷ (2 ∷ []) ∷ (3 ∷ 1 ∷ []) ∷ [] }
    ensures each_once { ignored_places nothing (steps (below (codes "b") [] ∷ []) ∷ steps (child (codes "b") [] ∷ []) ∷ []) letters
        ≡ (1 ∷ []) ∷ (2 ∷ []) ∷ (3 ∷ 1 ∷ []) ∷ [] }
    ensures itself { ignored_places nothing (steps (child (codes "c") [] ∷ []) ∷ no_steps ∷ []) letters ≡ [] ∷ (3 ∷ []) ∷ [] }
    ensures by_a_predicate { ignored_places (has_text (codes "y")) (steps (child (codes "b") (holds (contains no_steps 0 no_paths) ∷ []) ∷ []) ∷ []) letters
        ≡ (2 ∷ []) ∷ [] }
{}

/// `contains text` of what is left of an element: in `<a><b>x</b><b>y</b><c><b>x y</b></c></a>`, and in `<a>x <a>y</a> z</a>`.
pub fn selected_without()
    ensures nothing_ignored { places (has_text (codes "xx")) (child (codes "a") (holds (contains no_steps 0 no_paths) ∷ []) ∷ []) letters ≡ [] }
    ensures a_child { places (has_text (codes "xx"))
        (child (codes "a") (holds (contains no_steps 0 (paths (steps (child (codes "b") (number 2 ∷ []) ∷ []) ∷ []))) ∷ []) ∷ []) letters ≡ [] ∷ [] }
    ensures no_longer_there { places (has_text (codes "x y"))
        (child (codes "a") (holds (contains no_steps 0 (paths (steps (child (codes "c") [] ∷ []) ∷ []))) ∷ []) ∷ []) letters ≡ [] }
    ensures by_a_predicate { places (has_text (codes "x"))
        (child (codes "a") (holds (contains no_steps 0
        (paths (steps (below (codes "b") (holds (contains no_steps 0 no_paths) ∷ []) ∷ []) ∷ []))) ∷ []) ∷ []) letters ≡ [] }
    ensures itself { places (has_text (codes "x")) (child (codes "a") (holds (contains no_steps 0 (paths (no_steps ∷ []))) ∷ []) ∷ []) letters ≡ [] }
    ensures not_of_nothing { places (has_text (codes "x"))
        (child (codes "a") (holds (not_of (contains no_steps 0 (paths (no_steps ∷ [])))) ∷ []) ∷ []) letters ≡ [] ∷ [] }
    ensures all_of_what_is_below { places (has_text (codes "x"))
        (child (codes "a") (holds (contains (steps (child (codes "b") [] ∷ [])) 0 (paths (no_steps ∷ []))) ∷ []) ∷ []) letters ≡ [] }
    ensures from_the_item { places (has_text (codes "x y"))
        (child (codes "a") (holds (contains (steps (child (codes "c") [] ∷ [])) 0
        (paths (steps (child (codes "c") [] ∷ child (codes "b") [] ∷ []) ∷ []))) ∷ []) ∷ []) letters ≡ [] }
    ensures not_from_the_node { places (has_text (codes "x y"))
        (child (codes "a") (holds (contains (steps (child (codes "c") [] ∷ [])) 0
        (paths (steps (child (codes "b") [] ∷ []) ∷ []))) ∷ []) ∷ []) letters ≡ [] ∷ [] }
    ensures none_found { places (has_text (codes "xyx y"))
        (child (codes "a") (holds (contains no_steps 0 (paths (steps (child (codes "d") [] ∷ []) ∷ []))) ∷ []) ∷ []) letters ≡ [] ∷ [] }
    ensures several { places (has_text (codes "xy"))
        (child (codes "a") (holds (contains no_steps 0
        (paths (steps (child (codes "b") (number 1 ∷ []) ∷ []) ∷ steps (child (codes "b") (number 2 ∷ []) ∷ []) ∷ []))) ∷ []) ∷ []) letters ≡ [] }
    ensures twice { places (has_text (codes "x  z"))
        (child (codes "a") (holds (contains no_steps 0 (paths (steps (child (codes "a") [] ∷ []) ∷ steps (below (codes "a") [] ∷ []) ∷ []))) ∷ []) ∷ [])
        nested ≡ [] ∷ [] }
{}
