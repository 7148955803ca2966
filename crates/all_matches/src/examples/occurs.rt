//! `occurs` on small texts, also under filters, by computation.
#![tactic(auto, unfolding(crate::specs::Meaning::sat_under, crate::specs::Meaning::all_matches, crate::specs::Meaning::phrase_count))]

ghost use Rattle.std.specs.Prelude.{◌≡◌, true, false, [], ◌∷◌, ◌++◌, codes, Some};
ghost use Rattle.ft_base.specs.declared.filter.Filter.TheVariants as F;
ghost use Rattle.ft_base.specs.declared.range.Range.TheVariants as R;
ghost use Rattle.ft_base.specs.declared.unit.TextUnit.TheVariants as U;
ghost use Rattle.ft_base.specs.declared.words.Mode.TheVariants as M;
ghost use Rattle.ft_base.specs.Selection.{filtered};
ghost use Rattle.all_matches.specs.Examples.{plain, sentence, text, value};
ghost use Rattle.all_matches.specs.Meaning.{sat};

/// The hits are counted, and both ends of a range belong to it.
pub fn times_in_range()
    ensures fewer_than_at_most { sat plain (value M.Any (Some (R.AtMost 2)) (codes "a" ∷ [])) (text (codes "a")) ≡ true }
    ensures the_most { sat plain (value M.Any (Some (R.AtMost 2)) (codes "a" ∷ [])) (text (codes "a a")) ≡ true }
    ensures more_than_at_most { sat plain (value M.Any (Some (R.AtMost 1)) (codes "a" ∷ [])) (text (codes "a a")) ≡ false }
    ensures low_end { sat plain (value M.Any (Some (R.FromTo 1 2)) (codes "a" ∷ [])) (text (codes "a")) ≡ true }
    ensures high_end { sat plain (value M.Any (Some (R.FromTo 1 2)) (codes "a" ∷ [])) (text (codes "a a")) ≡ true }
    ensures above_the_high_end { sat plain (value M.Any (Some (R.FromTo 1 2)) (codes "a" ∷ [])) (text (codes "a a a")) ≡ false }
    ensures below_the_low_end { sat plain (value M.Any (Some (R.FromTo 1 2)) (codes "a" ∷ [])) (text (codes "x")) ≡ false }
{}

/// No number is in a range whose low end is above its high end, also where a filter would drop the hits that are too many.
pub fn times_in_an_empty_range()
    ensures alone { sat plain (value M.Any (Some (R.FromTo 2 1)) (codes "a" ∷ [])) (text (codes "a a")) ≡ false }
    ensures under_a_filter { sat plain (filtered (value M.Any (Some (R.FromTo 2 1)) (codes "a" ∷ [])) F.DifferentSentence)
        (sentence 1 (codes "a") ++ sentence 2 (codes "a")) ≡ false }
{}

/// The hits that are enough are includes, and those that would be too many are excludes.
pub fn times_under_filters()
    ensures enough_in_the_window { sat plain (filtered (value M.Any (Some (R.AtLeast 2)) (codes "a" ∷ [])) (F.Window 2 U.Words))
        (text (codes "a x a a")) ≡ true }
    ensures not_enough_in_the_window { sat plain (filtered (value M.Any (Some (R.AtLeast 2)) (codes "a" ∷ [])) (F.Window 2 U.Words))
        (text (codes "a x a")) ≡ false }
    ensures too_many_in_the_text { sat plain (filtered (value M.Any (Some (R.AtMost 1)) (codes "a" ∷ [])) (F.Window 2 U.Words)) (text (codes "a x a")) ≡ true }
    ensures too_many_in_the_window { sat plain (filtered (value M.Any (Some (R.Exactly 1)) (codes "a" ∷ [])) (F.Window 1 U.Sentences))
        (text (codes "a x a")) ≡ false }
    ensures too_many_in_order { sat plain (filtered (value M.Any (Some (R.Exactly 1)) (codes "a" ∷ [])) F.Ordered) (text (codes "a a")) ≡ false }
{}
