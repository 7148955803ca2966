//! Where `occurs` may stand under filters, by computation.
#![tactic(auto, unfolding(crate::specs::Accepted::is_accepted, crate::specs::Shapes::is_shape, crate::specs::Shapes::is_bare, crate::specs::Held::needs_hit, all_matches::specs::Allowed::without_times, all_matches::specs::Allowed::without_not, all_matches::specs::Allowed::has_plain_nots))]

ghost use Rattle.std.specs.Prelude.{◌≡◌, ◌∷◌, [], codes, false, true, None, Some};
ghost use Rattle.ft_base.specs.declared.filter.Filter.TheVariants as F;
ghost use Rattle.ft_base.specs.declared.range.Range.TheVariants as R;
ghost use Rattle.ft_base.specs.declared.unit.TextUnit.TheVariants as U;
ghost use Rattle.ft_base.specs.declared.words.Mode.TheVariants as M;
ghost use Rattle.ft_base.specs.Selection.{filtered, mild_not, no_options, not_of, with_options};
ghost use Rattle.all_matches.specs.Examples.{but_not, two_and, two_or, value, word_a, word_b};
ghost use Rattle.counted_shapes.specs.Accepted.{field_of, fit_in, is_accepted};
ghost use Rattle.counted_shapes.specs.Examples.{a_occurs, asked};
ghost use Rattle.counted_shapes.specs.declared.field.Field.TheVariants.{Paragraph, Sentence, Window};
ghost use Rattle.ft_base.specs.HitExamples.{phrase, word};

/// A window in any unit and one sentence or paragraph are fields, a distance and an edge are none.
pub fn fields_of_filters()
    ensures window { field_of (F.Window 9 U.Sentences) ≡ Some (Window 9 U.Sentences) }
    ensures sentence { field_of F.SameSentence ≡ Some Sentence }
    ensures paragraph { field_of F.SameParagraph ≡ Some Paragraph }
    ensures in_order { field_of F.Ordered ≡ None }
    ensures distance { field_of (F.Distance (R.AtMost 9) U.Words) ≡ None }
    ensures other_sentences { field_of F.DifferentSentence ≡ None }
    ensures at_start { field_of F.AtStart ≡ None }
    ensures too_wide { fit_in (Window 2 U.Words) (asked 2 None (word 1 ∷ word 3 ∷ []) ∷ []) ≡ false }
    ensures wide_enough { fit_in (Window 3 U.Words) (asked 2 None (word 1 ∷ word 3 ∷ []) ∷ []) ≡ true }
    ensures one_sentence { fit_in Sentence (asked 1 None (phrase 0 1 3 ∷ []) ∷ []) ≡ true }
{}

/// `occurs` may stand in a counted shape that asks for a hit, right under a window or a scope that is the outermost filter.
pub fn occurs_under_filters()
    ensures in_a_window { is_accepted (filtered (a_occurs (R.Exactly 2)) (F.Window 3 U.Words)) ≡ true }
    ensures in_one_sentence { is_accepted (filtered (two_and (a_occurs (R.AtMost 2)) word_b) F.SameSentence) ≡ true }
    ensures beside_it { is_accepted (two_and (filtered (a_occurs (R.Exactly 2)) F.SameParagraph) (a_occurs (R.AtMost 0))) ≡ true }
    ensures negated { is_accepted (not_of (filtered (a_occurs (R.Exactly 2)) F.SameParagraph)) ≡ true }
    ensures under_options { is_accepted (filtered (with_options (a_occurs (R.Exactly 2)) no_options) (F.Window 3 U.Words)) ≡ true }
    ensures that_asks_for_none { is_accepted (filtered (a_occurs (R.AtMost 2)) (F.Window 3 U.Words)) ≡ false }
    ensures in_order { is_accepted (filtered (a_occurs (R.Exactly 2)) F.Ordered) ≡ false }
    ensures of_all { is_accepted (filtered (value M.All (Some (R.Exactly 2)) (codes "a" ∷ [])) (F.Window 3 U.Words)) ≡ false }
    ensures in_a_choice { is_accepted (filtered (two_or (a_occurs (R.Exactly 2)) word_b) (F.Window 3 U.Words)) ≡ false }
    ensures two_filters { is_accepted (filtered (filtered (a_occurs (R.Exactly 2)) (F.Window 3 U.Words)) F.Ordered) ≡ false }
    ensures outside { is_accepted (mild_not (a_occurs (R.Exactly 2)) word_b) ≡ false }
    ensures without_occurs { is_accepted (filtered (two_or word_a (not_of word_b)) F.Ordered) ≡ true }
    ensures negated_twice { is_accepted (filtered (not_of (but_not word_a word_b)) F.Ordered) ≡ false }
{}
