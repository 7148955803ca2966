//! Counts under windows and scopes on small texts: what the selection means, and what fits, by computation. A period ends a sentence.
#![tactic(auto, unfolding(all_matches::specs::Meaning::sat_under, all_matches::specs::Meaning::all_matches, all_matches::specs::Meaning::phrase_count, crate::specs::Held::holds_in, crate::specs::Shapes::items_of, crate::specs::Shapes::bare_hits))]

ghost use Rattle.std.specs.Prelude.{◌≡◌, ◌++◌, ◌∷◌, [], true, false, codes, None, Some};
ghost use Rattle.ft_base.specs.declared.filter.Filter.TheVariants as F;
ghost use Rattle.ft_base.specs.declared.range.Range.TheVariants as R;
ghost use Rattle.ft_base.specs.declared.unit.TextUnit.TheVariants as U;
ghost use Rattle.ft_base.specs.declared.words.Mode.TheVariants as M;
ghost use Rattle.ft_base.specs.HitExamples.{phrase, word};
ghost use Rattle.ft_base.specs.Selection.{filtered, no_options};
ghost use Rattle.all_matches.specs.Examples.{paragraph, plain, quoted, sentence, text, two_and, value, word_a, word_b};
ghost use Rattle.all_matches.specs.Meaning.{sat};
ghost use Rattle.counted_shapes.specs.Examples.{a_occurs, asked, items};
ghost use Rattle.counted_shapes.specs.Fields.{in_window};
ghost use Rattle.counted_shapes.specs.Held.{holds_in};
ghost use Rattle.counted_shapes.specs.Shapes.{events, fit_in_unit, fit_in_window};

/// A window has enough hits and not too many, whatever stands outside it.
pub fn counts_in_windows()
    ensures at_least_two { sat plain (filtered (a_occurs (R.AtLeast 2)) (F.Window 3 U.Words)) (text (codes "a x a y y a")) ≡ true }
    ensures two_fit { fit_in_window 3 U.Words (items (a_occurs (R.AtLeast 2)) (text (codes "a x a y y a"))) ≡ true }
    ensures at_least_three { sat plain (filtered (a_occurs (R.AtLeast 3)) (F.Window 5 U.Words)) (text (codes "a x a y y a")) ≡ false }
    ensures three_do_not_fit { fit_in_window 5 U.Words (items (a_occurs (R.AtLeast 3)) (text (codes "a x a y y a"))) ≡ false }
    ensures exactly_one { sat plain (filtered (a_occurs (R.Exactly 1)) (F.Window 3 U.Words)) (text (codes "a x a y y a")) ≡ true }
    ensures one_fits { fit_in_window 3 U.Words (items (a_occurs (R.Exactly 1)) (text (codes "a x a y y a"))) ≡ true }
    ensures exactly_two_and_another { sat plain (filtered (two_and (a_occurs (R.Exactly 2)) (quoted (codes "y"))) (F.Window 4 U.Words))
        (text (codes "a x a y y a")) ≡ true }
    ensures two_and_another_fit { fit_in_window 4 U.Words (items (two_and (a_occurs (R.Exactly 2)) (quoted (codes "y"))) (text (codes "a x a y y a"))) ≡ true }
    ensures from_below_one { sat plain (filtered (a_occurs (R.Exactly 1)) (F.Window 2 U.Words)) (text (codes "a a a")) ≡ true }
    ensures one_fits_below_one { fit_in_window 2 U.Words (items (a_occurs (R.Exactly 1)) (text (codes "a a a"))) ≡ true }
    ensures no_words { sat plain (filtered (a_occurs (R.Exactly 1)) (F.Window 0 U.Words)) (text (codes "a")) ≡ false }
    ensures none_fits { fit_in_window 0 U.Words (items (a_occurs (R.Exactly 1)) (text (codes "a"))) ≡ false }
    ensures from_three_to_two { sat plain (filtered (a_occurs (R.FromTo 3 2)) (F.Window 3 U.Words)) (text (codes "a a a")) ≡ false }
    ensures no_number_fits { fit_in_window 3 U.Words (items (a_occurs (R.FromTo 3 2)) (text (codes "a a a"))) ≡ false }
    ensures in_two_paragraphs { sat plain (filtered (a_occurs (R.Exactly 2)) (F.Window 2 U.Paragraphs)) (paragraph 1 (codes "a") ++ paragraph 2 (codes "a")) ≡ true }
    ensures two_paragraphs_fit { fit_in_window 2 U.Paragraphs (items (a_occurs (R.Exactly 2)) (paragraph 1 (codes "a") ++ paragraph 2 (codes "a"))) ≡ true }
{}

/// Two phrases at one place count twice. A hit that is longer than the window or lies partly outside doesn't count.
pub fn hits_that_count()
    ensures two_phrases { sat plain (filtered (value M.Any (Some (R.Exactly 2)) (codes "a" ∷ codes "a" ∷ [])) (F.Window 1 U.Words)) (text (codes "a")) ≡ true }
    ensures two_fit { fit_in_window 1 U.Words (items (value M.Any (Some (R.Exactly 2)) (codes "a" ∷ codes "a" ∷ [])) (text (codes "a"))) ≡ true }
    ensures longer { sat plain (filtered (value M.Any (Some (R.Exactly 1)) (codes "x a" ∷ [])) (F.Window 1 U.Words)) (text (codes "x a")) ≡ false }
    ensures longer_does_not_fit { fit_in_window 1 U.Words (items (value M.Any (Some (R.Exactly 1)) (codes "x a" ∷ [])) (text (codes "x a"))) ≡ false }
    ensures partly_outside { sat plain (filtered (two_and word_a (value M.Any (Some (R.AtMost 0)) (codes "x a" ∷ []))) (F.Window 1 U.Words))
        (text (codes "x a")) ≡ true }
    ensures fits_beside_it { fit_in_window 1 U.Words (items (two_and word_a (value M.Any (Some (R.AtMost 0)) (codes "x a" ∷ []))) (text (codes "x a"))) ≡ true }
{}

/// Where nothing asks for a hit, a window has nothing to stand round, and a scope needs nothing: so the laws ask for one.
pub fn counts_that_need_no_hit()
    ensures no_window { sat plain (filtered (a_occurs (R.AtMost 1)) (F.Window 2 U.Words)) (text (codes "x")) ≡ false }
    ensures holds_in_one { holds_in (in_window 2 U.Words 1) plain no_options (text (codes "x")) (a_occurs (R.AtMost 1)) ≡ true }
    ensures a_scope { sat plain (filtered (a_occurs (R.AtMost 1)) F.SameSentence) (text (codes "x")) ≡ true }
    ensures a_scope_does_not_fit { fit_in_unit U.Sentences (items (a_occurs (R.AtMost 1)) (text (codes "x"))) ≡ false }
{}

/// All of a count lie in one sentence, one paragraph, and what else lies there counts too.
pub fn counts_in_one_sentence()
    ensures exactly_two { sat plain (filtered (two_and (a_occurs (R.Exactly 2)) word_b) F.SameSentence)
        (sentence 1 (codes "a a") ++ sentence 2 (codes "a b")) ≡ false }
    ensures two_do_not_fit { fit_in_unit U.Sentences (items (two_and (a_occurs (R.Exactly 2)) word_b)
        (sentence 1 (codes "a a") ++ sentence 2 (codes "a b"))) ≡ false }
    ensures exactly_one { sat plain (filtered (two_and (a_occurs (R.Exactly 1)) word_b) F.SameSentence)
        (sentence 1 (codes "a a") ++ sentence 2 (codes "a b")) ≡ true }
    ensures one_fits { fit_in_unit U.Sentences (items (two_and (a_occurs (R.Exactly 1)) word_b)
        (sentence 1 (codes "a a") ++ sentence 2 (codes "a b"))) ≡ true }
    ensures in_one_paragraph { sat plain (filtered (two_and (a_occurs (R.Exactly 3)) word_b) F.SameParagraph)
        (sentence 1 (codes "a a") ++ sentence 2 (codes "a b")) ≡ true }
    ensures three_fit { fit_in_unit U.Paragraphs (items (two_and (a_occurs (R.Exactly 3)) word_b)
        (sentence 1 (codes "a a") ++ sentence 2 (codes "a b"))) ≡ true }
{}

/// A window is tried where a hit comes in, and where one has gone: in `a a b`, with one `a` and one `b`, only the one from 2 to 4 fits, which ends
/// after the text.
pub fn windows_to_try()
    ensures of_a_phrase { events 3 U.Words (phrase 0 2 4 ∷ []) ≡ 4 ∷ 5 ∷ [] }
    ensures of_two { events 2 U.Words (word 3 ∷ word 7 ∷ []) ≡ 3 ∷ 5 ∷ 7 ∷ 9 ∷ [] }
    ensures where_one_has_gone { sat plain (filtered (two_and (a_occurs (R.Exactly 1)) word_b) (F.Window 3 U.Words)) (text (codes "a a b")) ≡ true }
    ensures one_has_gone { fit_in_window 3 U.Words (items (two_and (a_occurs (R.Exactly 1)) word_b) (text (codes "a a b"))) ≡ true }
    ensures of_each_item { fit_in_window 1 U.Words (asked 1 None (word 5 ∷ []) ∷ asked 0 (Some 0) (word 2 ∷ []) ∷ []) ≡ true }
    ensures apart { fit_in_window 1 U.Words (asked 1 None (word 5 ∷ []) ∷ asked 1 None (word 2 ∷ []) ∷ []) ≡ false }
    ensures without_items { fit_in_window 1 U.Words [] ≡ false }
{}
