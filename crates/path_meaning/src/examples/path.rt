//! What paths select in small documents, by computation.
#![tactic(auto, unfolding(
// where steps and predicates lead
crate::specs::Meaning::stepped, crate::specs::Meaning::led, crate::specs::Meaning::filtered, crate::specs::Meaning::filtered_by,
// which conditions are true, and what a path selects
crate::specs::Meaning::is_true, crate::specs::Meaning::some_true, crate::specs::Meaning::each_true, crate::specs::Meaning::selected))]

ghost use Rattle.std.specs.Prelude.{◌≡◌, [], ◌∷◌, codes, Some, None, false};
ghost use Rattle.path_grammar.specs.declared.path.NameTest.TheVariants as T;
ghost use Rattle.path_grammar.specs.declared.path.PathRoot.TheVariants as R;
ghost use Rattle.path_meaning.specs.Collection.{nodes, found_in};
ghost use Rattle.path_meaning.specs.Elements.{placed};
ghost use Rattle.path_meaning.specs.Examples.{places, has_text, nothing, letters, nested, three_deep, with_attribute, with_two_of_one_name};
ghost use Rattle.path_grammar.specs.Spellings.{child, below};
ghost use Rattle.path_grammar.specs.Form.{step, steps, no_steps, predicates, number, holds, conditions, no_paths};
ghost use Rattle.path_grammar.specs.Form.{and_of, or_of, not_of, attribute, exists, contains};

/// Steps in `<a><b>x</b><b>y</b><c><b>x y</b></c></a>`, and in elements of one name inside one another.
pub fn selected_by_steps()
    ensures root { places nothing (child (codes "a") [] ∷ []) letters ≡ [] ∷ [] }
    ensures not_the_root { places nothing (child (codes "b") [] ∷ []) letters ≡ [] }
    ensures children { places nothing (child (codes "a") [] ∷ child (codes "b") [] ∷ []) letters ≡ (1 ∷ []) ∷ (2 ∷ []) ∷ [] }
    ensures any_child { places nothing (child (codes "a") [] ∷ step false T.Any (predicates []) ∷ []) letters ≡ (1 ∷ []) ∷ (2 ∷ []) ∷ (3 ∷ []) ∷ [] }
    ensures deep { places nothing (below (codes "b") [] ∷ []) letters ≡ (1 ∷ []) ∷ (2 ∷ []) ∷ (3 ∷ 1 ∷ []) ∷ [] }
    ensures deep_with_the_root { places nothing (below (codes "a") [] ∷ []) nested ≡ [] ∷ (2 ∷ []) ∷ [] }
    ensures each_once { places nothing (below (codes "a") [] ∷ below (codes "a") [] ∷ []) three_deep ≡ (1 ∷ []) ∷ (1 ∷ 1 ∷ []) ∷ [] }
{}

/// `[k]` counts in each list by itself, and sees what the predicates before it have left.
pub fn selected_by_number()
    ensures second { places nothing (below (codes "b") (number 2 ∷ []) ∷ []) letters ≡ (2 ∷ []) ∷ [] }
    ensures first_of_each { places nothing (below (codes "b") (number 1 ∷ []) ∷ []) letters ≡ (1 ∷ []) ∷ (3 ∷ 1 ∷ []) ∷ [] }
    ensures after_a_text { places (has_text (codes "x")) (below (codes "b") (holds (contains no_steps 0 no_paths) ∷ number 2 ∷ []) ∷ []) letters ≡ [] }
    ensures second_as_first { places (has_text (codes "y")) (below (codes "b") (holds (contains no_steps 0 no_paths) ∷ number 1 ∷ []) ∷ []) letters
        ≡ (2 ∷ []) ∷ (3 ∷ 1 ∷ []) ∷ [] }
    ensures before_a_text { places (has_text (codes "y")) (below (codes "b") (number 1 ∷ holds (contains no_steps 0 no_paths) ∷ []) ∷ [])
        letters ≡ (3 ∷ 1 ∷ []) ∷ [] }
    ensures zero { places nothing (below (codes "b") (number 0 ∷ []) ∷ []) letters ≡ [] }
    ensures past_the_last { places nothing (below (codes "b") (number 1000000 ∷ []) ∷ []) letters ≡ [] }
{}

/// Conditions on an element: what steps from it lead to, its attributes, and `not`, `and`, `or`.
pub fn selected_by_condition()
    ensures text_below { places (has_text (codes "x y"))
        (child (codes "a") (holds
        (and_of (conditions (contains (steps (child (codes "c") [] ∷ child (codes "b") [] ∷ [])) 0 no_paths ∷ not_of (attribute (codes "k") None) ∷ []))) ∷ []) ∷ [])
        letters ≡ [] ∷ [] }
    ensures other_text_below { places (has_text (codes "y x"))
        (child (codes "a") (holds (contains (steps (child (codes "c") [] ∷ child (codes "b") [] ∷ [])) 0 no_paths) ∷ []) ∷ []) letters ≡ [] }
    ensures itself { places nothing (below (codes "b") (holds (exists no_steps) ∷ []) ∷ []) letters ≡ (1 ∷ []) ∷ (2 ∷ []) ∷ (3 ∷ 1 ∷ []) ∷ [] }
    ensures some_child { places nothing (below (codes "a") (holds (exists (steps (child (codes "a") [] ∷ []))) ∷ []) ∷ []) three_deep ≡ [] ∷ (1 ∷ []) ∷ [] }
    ensures text_of_both { places (has_text (codes "y")) (below (codes "a") (holds (contains no_steps 0 no_paths) ∷ []) ∷ []) nested
        ≡ [] ∷ (2 ∷ []) ∷ [] }
    ensures text_of_one { places (has_text (codes "y z")) (below (codes "a") (holds (contains no_steps 0 no_paths) ∷ []) ∷ []) nested ≡ [] ∷ [] }
    ensures other_selection { places (has_text (codes "y")) (below (codes "a") (holds (contains no_steps 1 no_paths) ∷ []) ∷ []) nested ≡ [] }
    ensures value { places nothing (child (codes "a") (holds (attribute (codes "t") (Some (codes "1"))) ∷ []) ∷ []) with_attribute ≡ [] ∷ [] }
    ensures other_value { places nothing (child (codes "a") (holds (attribute (codes "t") (Some (codes "2"))) ∷ []) ∷ []) with_attribute ≡ [] }
    ensures first_of_a_name { places nothing (child (codes "a") (holds (attribute (codes "t") (Some (codes "1"))) ∷ []) ∷ []) with_two_of_one_name ≡ [] ∷ [] }
    ensures not_the_second_of_a_name { places nothing (child (codes "a") (holds (attribute (codes "t") (Some (codes "2"))) ∷ []) ∷ [])
        with_two_of_one_name ≡ [] }
    ensures present { places nothing (child (codes "a") (holds (attribute (codes "t") None) ∷ []) ∷ []) with_attribute ≡ [] ∷ [] }
    ensures absent { places nothing (child (codes "a") (holds (not_of (attribute (codes "t") None)) ∷ []) ∷ []) with_attribute ≡ [] }
    ensures either { places nothing
        (child (codes "a") (holds (or_of (conditions (attribute (codes "k") None ∷ attribute (codes "t") None ∷ []))) ∷ []) ∷ []) with_attribute ≡ [] ∷ [] }
{}

/// A path looks into each document in order, or into the one of its name.
pub fn selected_in_a_collection()
    ensures no_document { nodes nothing (record { root = R.Collection; steps = steps (below (codes "a") [] ∷ []) }) [] ≡ [] }
    ensures each { nodes nothing (record { root = R.Collection; steps = steps (child (codes "a") [] ∷ []) })
        (record { name = codes "y"; root = three_deep } ∷ record { name = codes "x"; root = letters } ∷ [])
        ≡ found_in (codes "y") (placed [] three_deep) ∷ found_in (codes "x") (placed [] letters) ∷ [] }
    ensures one { nodes nothing (record { root = R.Doc (codes "x"); steps = steps (child (codes "a") [] ∷ []) })
        (record { name = codes "y"; root = three_deep } ∷ record { name = codes "x"; root = letters } ∷ [])
        ≡ found_in (codes "x") (placed [] letters) ∷ [] }
    ensures none_of_the_name { nodes nothing (record { root = R.Doc (codes "z"); steps = steps (child (codes "a") [] ∷ []) })
        (record { name = codes "x"; root = letters } ∷ []) ≡ [] }
{}
