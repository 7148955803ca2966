//! Selections in a field, by computation.
#![tactic(auto, unfolding(crate::specs::Held::holds_in, crate::specs::Held::is_boolean, crate::specs::Held::needs_hit))]

ghost use Rattle.std.specs.Prelude.{◌≡◌, ◌∷◌, [], true, false, codes, None, Some};
ghost use Rattle.ft_base.specs.declared.filter.Filter.TheVariants as F;
ghost use Rattle.ft_base.specs.declared.options.Case.TheVariants as C;
ghost use Rattle.ft_base.specs.declared.range.Range.TheVariants as R;
ghost use Rattle.ft_base.specs.declared.unit.TextUnit.TheVariants as U;
ghost use Rattle.ft_base.specs.declared.words.Mode.TheVariants as M;
ghost use Rattle.ft_base.specs.Selection.{filtered, mild_not, no_options, not_of, with_options};
ghost use Rattle.all_matches.specs.Examples.{but_not, in_case, is_sensitive, plain, quoted, text, two_and, two_or, under_options, value, word_a, word_b, word_x};
ghost use Rattle.counted_shapes.specs.Examples.{a_occurs};
ghost use Rattle.counted_shapes.specs.Fields.{in_window};
ghost use Rattle.counted_shapes.specs.Held.{holds_in, is_boolean, needs_hit, needs_one};

/// What lies in the field is counted, and `ftor`, `ftand` and `ftnot` are truth values.
pub fn forms_in_a_field()
    ensures a_word { holds_in (in_window 2 U.Words 2) plain no_options (text (codes "x a")) word_a ≡ true }
    ensures a_word_outside { holds_in (in_window 2 U.Words 2) plain no_options (text (codes "x x a")) word_a ≡ false }
    ensures twice { holds_in (in_window 2 U.Words 2) plain no_options (text (codes "a a")) (a_occurs (R.Exactly 2)) ≡ true }
    ensures a_third_outside { holds_in (in_window 2 U.Words 2) plain no_options (text (codes "a a a")) (a_occurs (R.Exactly 2)) ≡ true }
    ensures one_of_two { holds_in (in_window 2 U.Words 2) plain no_options (text (codes "a b")) (two_or word_x word_b) ≡ true }
    ensures none_of_two { holds_in (in_window 2 U.Words 2) plain no_options (text (codes "a x")) (two_or word_b word_b) ≡ false }
    ensures both_of_two { holds_in (in_window 2 U.Words 2) plain no_options (text (codes "a b")) (two_and word_a word_b) ≡ true }
    ensures the_second_outside { holds_in (in_window 2 U.Words 2) plain no_options (text (codes "a x b")) (two_and word_a word_b) ≡ false }
    ensures not_inside { holds_in (in_window 2 U.Words 2) plain no_options (text (codes "a x b")) (but_not word_a word_b) ≡ true }
    ensures inside { holds_in (in_window 2 U.Words 2) plain no_options (text (codes "a b")) (but_not word_a word_b) ≡ false }
    ensures not_not { holds_in (in_window 2 U.Words 2) plain no_options (text (codes "a b")) (not_of (but_not word_a word_b)) ≡ true }
    ensures under_its_options { holds_in (in_window 2 U.Words 2) (under_options (λ options. is_sensitive options.case)) no_options (text (codes "a"))
        (with_options word_a (in_case C.Sensitive)) ≡ true }
    ensures under_other_options { holds_in (in_window 2 U.Words 2) (under_options (λ options. is_sensitive options.case)) no_options (text (codes "a"))
        word_a ≡ false }
{}

/// A range asks for a hit where 0 isn't in it for want of hits.
pub fn times_that_need_a_hit()
    ensures not_written { needs_one None ≡ true }
    ensures exactly_one { needs_one (Some (R.Exactly 1)) ≡ true }
    ensures exactly_none { needs_one (Some (R.Exactly 0)) ≡ false }
    ensures at_least_one { needs_one (Some (R.AtLeast 1)) ≡ true }
    ensures at_least_none { needs_one (Some (R.AtLeast 0)) ≡ false }
    ensures at_most { needs_one (Some (R.AtMost 1)) ≡ false }
    ensures from_one { needs_one (Some (R.FromTo 1 2)) ≡ true }
    ensures from_none { needs_one (Some (R.FromTo 0 2)) ≡ false }
{}

/// Each selection of an Or asks for a hit, or one of an And; neither `ftnot` nor what isn't Boolean does.
pub fn forms_that_need_a_hit()
    ensures a_word { needs_hit word_a ≡ true }
    ensures so_often { needs_hit (a_occurs (R.AtMost 1)) ≡ false }
    ensures all_of_a_value { needs_hit (value M.All None (codes "a" ∷ [])) ≡ false }
    ensures all_words { needs_hit (value M.AllWords None (codes "a" ∷ [])) ≡ false }
    ensures each_word { needs_hit (value M.AnyWord None (codes "a b" ∷ [])) ≡ true }
    ensures a_phrase { needs_hit (value M.Phrase None (codes "a b" ∷ [])) ≡ true }
    ensures both { needs_hit (two_or word_a word_b) ≡ true }
    ensures one_of_an_or { needs_hit (two_or word_a (not_of word_b)) ≡ false }
    ensures one_of_an_and { needs_hit (two_and (not_of word_a) word_b) ≡ true }
    ensures none_of_an_and { needs_hit (two_and (not_of word_a) (not_of word_b)) ≡ false }
    ensures negated { needs_hit (not_of word_a) ≡ false }
    ensures with_its_options { needs_hit (with_options word_a no_options) ≡ true }
    ensures under_a_filter { is_boolean (filtered word_a F.Ordered) ≡ false }
    ensures beside_mild_not { is_boolean (two_and word_a (mild_not word_a word_b)) ≡ false }
    ensures with_options_alone { is_boolean (with_options word_a no_options) ≡ true }
    ensures without_filters { is_boolean (two_and word_a (not_of (two_or word_b (quoted (codes "x"))))) ≡ true }
{}
