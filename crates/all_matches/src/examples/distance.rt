//! Distances on small texts, by computation. `|` ends a paragraph.
#![tactic(auto, unfolding(crate::specs::Meaning::sat_under, crate::specs::Meaning::all_matches, crate::specs::Meaning::phrase_count))]

ghost use Rattle.std.specs.Prelude.{◌≡◌, ◌++◌, true, false, codes};
ghost use Rattle.ft_base.specs.declared.filter.Filter.TheVariants as F;
ghost use Rattle.ft_base.specs.declared.range.Range.TheVariants as R;
ghost use Rattle.ft_base.specs.declared.unit.TextUnit.TheVariants as U;
ghost use Rattle.ft_base.specs.Selection.{filtered};
ghost use Rattle.all_matches.specs.Examples.{plain, text, sentence, paragraph, quoted, two_and, three_and, but_not, word_a, word_b, word_c, word_x};
ghost use Rattle.all_matches.specs.Meaning.{sat};

/// A distance is in a range, its ends included: one word stands between `a` and `b` in `a x b`.
pub fn distances_in_ranges()
    ensures at_least_as_many { sat plain (filtered (two_and word_a word_b) (F.Distance (R.AtLeast 1) U.Words)) (text (codes "a x b")) ≡ true }
    ensures not_at_least { sat plain (filtered (two_and word_a word_b) (F.Distance (R.AtLeast 1) U.Words)) (text (codes "a b")) ≡ false }
    ensures at_most_as_many { sat plain (filtered (two_and word_a word_b) (F.Distance (R.AtMost 1) U.Words)) (text (codes "a x b")) ≡ true }
    ensures exactly_one_less { sat plain (filtered (two_and word_a word_b) (F.Distance (R.Exactly 0) U.Words)) (text (codes "a x b")) ≡ false }
    ensures at_the_low_end { sat plain (filtered (two_and word_a word_b) (F.Distance (R.FromTo 1 2) U.Words)) (text (codes "a x b")) ≡ true }
    ensures at_the_high_end { sat plain (filtered (two_and word_a word_b) (F.Distance (R.FromTo 0 1) U.Words)) (text (codes "a x b")) ≡ true }
    ensures below_the_low_end { sat plain (filtered (two_and word_a word_b) (F.Distance (R.FromTo 2 3) U.Words)) (text (codes "a x b")) ≡ false }
    ensures above_the_high_end { sat plain (filtered (two_and word_a word_b) (F.Distance (R.FromTo 0 1) U.Words)) (text (codes "a x x b")) ≡ false }
    ensures in_paragraphs { sat plain (filtered (two_and word_a word_b) (F.Distance (R.Exactly 1) U.Paragraphs))
        (paragraph 1 (codes "a") ++ paragraph 2 (codes "x") ++ paragraph 3 (codes "b")) ≡ true }
    ensures from_the_last_paragraph { sat plain (filtered (two_and (quoted (codes "a x")) word_b) (F.Distance (R.Exactly 0) U.Paragraphs))
        (paragraph 1 (codes "a") ++ paragraph 2 (codes "x") ++ paragraph 3 (codes "b")) ≡ true }
{}

/// Neighbours are those by first and then last word, and every two of them have a distance in the range.
pub fn distances_of_neighbours()
    ensures shorter_first { sat plain (filtered (three_and (quoted (codes "a b c")) word_a (quoted (codes "d"))) (F.Distance (R.AtMost 0) U.Words))
        (text (codes "a b c d")) ≡ true }
    ensures shorter_first_along_the_query { sat plain
        (filtered (three_and word_a (quoted (codes "a b c")) (quoted (codes "d"))) (F.Distance (R.AtMost 0) U.Words))
        (text (codes "a b c d")) ≡ true }
    ensures by_the_first_word { sat plain (filtered (three_and (quoted (codes "a b c")) word_b (quoted (codes "d"))) (F.Distance (R.AtMost 0) U.Words))
        (text (codes "a b c d")) ≡ false }
    ensures neighbours_alone { sat plain (filtered (three_and word_a word_b word_c) (F.Distance (R.AtMost 0) U.Words)) (text (codes "a b c")) ≡ true }
    ensures against_the_query { sat plain (filtered (three_and word_c word_b word_a) (F.Distance (R.AtMost 0) U.Words)) (text (codes "a b c")) ≡ true }
    ensures the_first_two { sat plain (filtered (three_and word_a word_b word_c) (F.Distance (R.AtMost 0) U.Words)) (text (codes "a x b c")) ≡ false }
    ensures the_last_two { sat plain (filtered (three_and word_a word_b word_c) (F.Distance (R.AtMost 0) U.Words)) (text (codes "a b x c")) ≡ false }
{}

/// An exclude counts where it has a distance in the range to some include, whichever of the two stands first.
pub fn excludes_at_distances()
    ensures before { sat plain (filtered (but_not word_a word_b) (F.Distance (R.AtMost 3) U.Words)) (text (codes "b a")) ≡ false }
    ensures too_far_after { sat plain (filtered (but_not word_a word_b) (F.Distance (R.AtMost 1) U.Words)) (text (codes "a x x b")) ≡ true }
    ensures too_far_before { sat plain (filtered (but_not word_a word_b) (F.Distance (R.AtMost 1) U.Words)) (text (codes "b x x a")) ≡ true }
    ensures near_one_include { sat plain (filtered (but_not (two_and word_a word_b) word_x) (F.Distance (R.AtMost 0) U.Words)) (text (codes "a b x")) ≡ false }
    ensures two_paragraphs_on { sat plain (filtered (but_not word_a word_b) (F.Distance (R.AtMost 0) U.Paragraphs))
        (paragraph 1 (codes "a") ++ paragraph 2 (codes "x") ++ paragraph 3 (codes "b")) ≡ true }
{}
