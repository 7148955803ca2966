//! `occurs` on small texts, by computation.
#![tactic(auto, unfolding(all_matches::specs::Meaning::sat_under, all_matches::specs::Meaning::all_matches, all_matches::specs::Meaning::phrase_count))]

ghost use Rattle.std.specs.Prelude.{◌≡◌, true, false, [], ◌∷◌, codes, Some, None};
ghost use Rattle.ft_base.specs.declared.range.Range.TheVariants as R;
ghost use Rattle.ft_base.specs.declared.words.Mode.TheVariants as M;
ghost use Rattle.all_matches.specs.Examples.{plain, text, value};
ghost use Rattle.all_matches.specs.Compositional.{enough};
ghost use Rattle.all_matches.specs.Meaning.{sat};
ghost use Rattle.all_matches.specs.Times.{number_in_range};

/// A number above or below the one of a range is in it as the range says; no hit at all is a number too.
pub fn times_above_and_below()
    ensures fewer_than_exactly { sat plain (value M.Any (Some (R.Exactly 2)) (codes "a" ∷ [])) (text (codes "a")) ≡ false }
    ensures more_than_at_least { sat plain (value M.Any (Some (R.AtLeast 1)) (codes "a" ∷ [])) (text (codes "a a")) ≡ true }
    ensures none_at_most { sat plain (value M.Any (Some (R.AtMost 1)) (codes "a" ∷ [])) (text (codes "x")) ≡ true }
{}

/// A number is in a range, whose ends are included, and one that is written nowhere asks for one occurrence.
pub fn numbers_in_ranges()
    ensures below { number_in_range (R.Exactly 2) 1 ≡ false }
    ensures exactly { number_in_range (R.Exactly 2) 2 ≡ true }
    ensures above { number_in_range (R.Exactly 2) 3 ≡ false }
    ensures above_the_least { number_in_range (R.AtLeast 2) 3 ≡ true }
    ensures below_the_most { number_in_range (R.AtMost 2) 1 ≡ true }
    ensures between { number_in_range (R.FromTo 1 3) 2 ≡ true }
    ensures below_the_lower_end { number_in_range (R.FromTo 1 3) 0 ≡ false }
    ensures above_the_upper_end { number_in_range (R.FromTo 1 3) 4 ≡ false }
    ensures the_least { number_in_range (R.AtLeast 2) 2 ≡ true }
    ensures the_most { number_in_range (R.AtMost 2) 2 ≡ true }
    ensures the_lower_end { number_in_range (R.FromTo 1 3) 1 ≡ true }
    ensures the_upper_end { number_in_range (R.FromTo 1 3) 3 ≡ true }
    ensures no_occurrence { enough None 0 ≡ false }
    ensures one_occurrence { enough None 1 ≡ true }
{}
