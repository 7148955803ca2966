//! Counted shapes and their items, by computation.
#![tactic(auto, unfolding(crate::specs::Shapes::is_shape, crate::specs::Shapes::is_bare, crate::specs::Shapes::items_of, crate::specs::Shapes::bare_hits))]

ghost use Rattle.std.specs.Prelude.{◌≡◌, ◌∷◌, [], true, false, codes, map, None, Some};
ghost use Rattle.ft_base.specs.declared.filter.Filter.TheVariants as F;
ghost use Rattle.ft_base.specs.declared.options.Case.TheVariants as C;
ghost use Rattle.ft_base.specs.declared.range.Range.TheVariants as R;
ghost use Rattle.ft_base.specs.declared.unit.TextUnit.TheVariants as U;
ghost use Rattle.ft_base.specs.declared.words.Mode.TheVariants as M;
ghost use Rattle.ft_base.specs.HitExamples.{phrase, word};
ghost use Rattle.ft_base.specs.Selection.{filtered, mild_not, no_options, not_of, with_options};
ghost use Rattle.all_matches.specs.Examples.{but_not, in_case, is_sensitive, plain, quoted, text, three_and, two_and, two_or, under_options, value, word_a, word_b, word_c};
ghost use Rattle.counted_shapes.specs.Examples.{a_occurs, asked, items};
ghost use Rattle.counted_shapes.specs.Fields.{in_window};
ghost use Rattle.counted_shapes.specs.Shapes.{has_enough, is_shape, items_of, least_times, most_times};

/// Both bounds belong to an item, and hits that are partly outside the field don't count.
pub fn enough_of_an_item()
    ensures as_many_as_the_least { has_enough (in_window 2 U.Words 2) (asked 2 None (word 1 ∷ word 2 ∷ [])) ≡ true }
    ensures too_few { has_enough (in_window 2 U.Words 2) (asked 2 None (word 1 ∷ word 3 ∷ [])) ≡ false }
    ensures partly_outside { has_enough (in_window 2 U.Words 2) (asked 2 None (word 1 ∷ phrase 0 2 3 ∷ [])) ≡ false }
    ensures as_many_as_the_most { has_enough (in_window 2 U.Words 2) (asked 0 (Some 2) (word 1 ∷ word 2 ∷ [])) ≡ true }
    ensures too_many { has_enough (in_window 2 U.Words 2) (asked 0 (Some 1) (word 1 ∷ word 2 ∷ [])) ≡ false }
    ensures one_partly_outside { has_enough (in_window 2 U.Words 2) (asked 0 (Some 1) (word 1 ∷ phrase 0 2 3 ∷ [])) ≡ true }
    ensures none_that_should_be_there { has_enough (in_window 2 U.Words 2) (asked 0 (Some 0) (word 3 ∷ [])) ≡ true }
    ensures two_of_from_three_to_two { has_enough (in_window 3 U.Words 3) (asked 3 (Some 2) (word 1 ∷ word 2 ∷ [])) ≡ false }
    ensures three_of_from_three_to_two { has_enough (in_window 3 U.Words 3) (asked 3 (Some 2) (word 1 ∷ word 2 ∷ word 3 ∷ [])) ≡ false }
{}

/// Two phrases of one value at one place are two hits.
pub fn hits_of_values()
    ensures one_phrase { items word_a (text (codes "a x a")) ≡ asked 1 None (phrase 1 1 1 ∷ phrase 1 3 3 ∷ []) ∷ [] }
    ensures two_phrases { items (value M.Any None (codes "a" ∷ codes "b" ∷ [])) (text (codes "b a")) ≡ asked 1 None (phrase 1 2 2 ∷ phrase 2 1 1 ∷ []) ∷ [] }
    ensures two_at_one_place { items (value M.Any None (codes "a" ∷ codes "a" ∷ [])) (text (codes "a")) ≡ asked 1 None (phrase 1 1 1 ∷ phrase 2 1 1 ∷ []) ∷ [] }
    ensures any_word { items (value M.AnyWord None (codes "a b" ∷ [])) (text (codes "a b")) ≡ asked 1 None (phrase 1 1 1 ∷ phrase 2 2 2 ∷ []) ∷ [] }
    ensures a_phrase { items (value M.Phrase None (codes "a" ∷ codes "b" ∷ [])) (text (codes "a b")) ≡ asked 1 None (phrase 1 1 2 ∷ []) ∷ [] }
    ensures without_words { items (quoted (codes " ")) (text (codes "a b")) ≡ asked 1 None [] ∷ [] }
{}

/// An item has the bounds of its `occurs`, and those of an And inside stand beside the others. Options hold inside.
pub fn items_of_shapes()
    ensures exactly { items (a_occurs (R.Exactly 2)) (text (codes "a")) ≡ asked 2 (Some 2) (phrase 1 1 1 ∷ []) ∷ [] }
    ensures at_least { items (a_occurs (R.AtLeast 2)) (text (codes "a")) ≡ asked 2 None (phrase 1 1 1 ∷ []) ∷ [] }
    ensures at_most { items (a_occurs (R.AtMost 2)) (text (codes "a")) ≡ asked 0 (Some 2) (phrase 1 1 1 ∷ []) ∷ [] }
    ensures from_to { items (a_occurs (R.FromTo 1 2)) (text (codes "a")) ≡ asked 1 (Some 2) (phrase 1 1 1 ∷ []) ∷ [] }
    ensures negated { items (not_of word_a) (text (codes "a")) ≡ asked 0 (Some 0) (phrase 1 1 1 ∷ []) ∷ [] }
    ensures an_and_inside { items (two_and (two_and word_a word_b) (not_of word_c)) (text (codes "b a c"))
        ≡ asked 1 None (phrase 1 2 2 ∷ []) ∷ asked 1 None (phrase 1 1 1 ∷ []) ∷ asked 0 (Some 0) (phrase 1 3 3 ∷ []) ∷ [] }
    ensures under_its_options { items_of (under_options (λ options. is_sensitive options.case)) no_options (text (codes "a"))
        (with_options (two_and word_a (not_of word_a)) (in_case C.Sensitive)) ≡ asked 1 None (phrase 1 1 1 ∷ []) ∷ asked 0 (Some 0) (phrase 1 1 1 ∷ []) ∷ [] }
    ensures negated_under_its_options { items_of (under_options (λ options. is_sensitive options.case)) no_options (text (codes "a"))
        (not_of (with_options word_a (in_case C.Sensitive))) ≡ asked 0 (Some 0) (phrase 1 1 1 ∷ []) ∷ [] }
    ensures under_other_options { items_of (under_options (λ options. is_sensitive options.case)) no_options (text (codes "a"))
        (two_and word_a (not_of word_a)) ≡ asked 1 None [] ∷ asked 0 (Some 0) [] ∷ [] }
{}

/// Which selections are counted shapes.
pub fn shapes()
    ensures a_word { is_shape word_a ≡ true }
    ensures so_often { is_shape (a_occurs (R.AtMost 1)) ≡ true }
    ensures all_of_a_value { is_shape (value M.All None (codes "a" ∷ [])) ≡ false }
    ensures all_words { is_shape (value M.AllWords None (codes "a" ∷ [])) ≡ false }
    ensures negated { is_shape (not_of word_a) ≡ true }
    ensures negated_with_options { is_shape (not_of (with_options word_a no_options)) ≡ true }
    ensures negated_times { is_shape (not_of (a_occurs (R.Exactly 1))) ≡ false }
    ensures all_negated { is_shape (not_of (value M.All None (codes "a" ∷ []))) ≡ false }
    ensures an_and_negated { is_shape (not_of (two_and word_a word_b)) ≡ false }
    ensures negated_twice { is_shape (not_of (not_of word_a)) ≡ false }
    ensures an_and { is_shape (three_and (a_occurs (R.Exactly 1)) (two_and word_a word_b) (not_of word_c)) ≡ true }
    ensures an_or { is_shape (two_or word_a word_b) ≡ false }
    ensures an_or_inside { is_shape (two_and word_a (two_or word_a word_b)) ≡ false }
    ensures with_its_options { is_shape (with_options (but_not word_a word_b) no_options) ≡ true }
    ensures a_filter_inside { is_shape (two_and word_a (filtered word_b F.Ordered)) ≡ false }
    ensures mild_not_inside { is_shape (two_and word_a (mild_not word_b word_c)) ≡ false }
{}
