//! Distances on small texts, by computation.
#![tactic(auto, unfolding(all_matches::specs::Meaning::sat_under, all_matches::specs::Meaning::all_matches, all_matches::specs::Meaning::phrase_count))]

ghost use Rattle.std.specs.Prelude.{◌≡◌, ◌++◌, true, false, codes};
ghost use Rattle.ft_base.specs.declared.filter.Filter.TheVariants as F;
ghost use Rattle.ft_base.specs.declared.range.Range.TheVariants as R;
ghost use Rattle.ft_base.specs.declared.unit.TextUnit.TheVariants as U;
ghost use Rattle.ft_base.specs.HitExamples.{phrase};
ghost use Rattle.ft_base.specs.Selection.{filtered};
ghost use Rattle.all_matches.specs.Distance.{stands_before};
ghost use Rattle.all_matches.specs.Examples.{plain, text, paragraph, quoted, two_and, three_and, but_not, word_a, word_b, word_c, word_x};
ghost use Rattle.all_matches.specs.Meaning.{sat};

/// An exclude counts where it is near some include, on either side.
pub fn excludes_near_includes()
    ensures between_two_includes { sat plain (filtered (but_not (two_and word_a word_b) word_x) (F.Distance (R.FromTo 0 1) U.Words))
        (text (codes "a x b")) ≡ false }
    ensures in_the_next_paragraph { sat plain (filtered (but_not word_a word_b) (F.Distance (R.AtMost 0) U.Paragraphs))
        (paragraph 1 (codes "a x") ++ paragraph 2 (codes "b")) ≡ false }
    ensures in_the_paragraph_before { sat plain (filtered (but_not word_a word_b) (F.Distance (R.AtMost 0) U.Paragraphs))
        (paragraph 1 (codes "b") ++ paragraph 2 (codes "x a")) ≡ false }
{}

/// A distance above the number of `at least` is in its range.
pub fn distances_above_the_least()
    ensures two_words_between { sat plain (filtered (two_and word_a word_b) (F.Distance (R.AtLeast 1) U.Words)) (text (codes "a x x b")) ≡ true }
{}

/// Hits stand by their first word, and only where this is the same by their last.
pub fn hits_that_stand_before()
    ensures a_word_earlier { stands_before (phrase 1 1 3) (phrase 2 2 2) ≡ true }
    ensures a_word_later { stands_before (phrase 1 2 2) (phrase 2 1 3) ≡ false }
    ensures shorter { stands_before (phrase 1 2 3) (phrase 2 2 4) ≡ true }
    ensures longer { stands_before (phrase 1 2 4) (phrase 2 2 3) ≡ false }
    ensures at_the_same_words { stands_before (phrase 1 2 3) (phrase 2 2 3) ≡ true }
    ensures a_word_inside { sat plain (filtered (three_and word_b (quoted (codes "a b c")) (quoted (codes "d"))) (F.Distance (R.AtMost 0) U.Words))
        (text (codes "a b c d")) ≡ false }
    ensures two_that_begin_at_one_word { sat plain
        (filtered (three_and (quoted (codes "a b")) (quoted (codes "a b c")) (quoted (codes "d"))) (F.Distance (R.AtMost 0) U.Words))
        (text (codes "a b c d")) ≡ true }
{}

/// The distance to an exclude is that from the last word of the one that stands first to the first word of the other.
pub fn excludes_of_several_words()
    ensures two_words_before { sat plain (filtered (but_not word_c (quoted (codes "a b"))) (F.Distance (R.AtMost 0) U.Words)) (text (codes "a b c")) ≡ false }
    ensures before_two_words { sat plain (filtered (but_not (quoted (codes "b c")) word_a) (F.Distance (R.AtMost 0) U.Words)) (text (codes "a b c")) ≡ false }
    ensures after_two_words { sat plain (filtered (but_not (quoted (codes "a b")) word_c) (F.Distance (R.AtMost 0) U.Words)) (text (codes "a b c")) ≡ false }
    ensures two_words_after { sat plain (filtered (but_not word_a (quoted (codes "b c"))) (F.Distance (R.AtMost 0) U.Words)) (text (codes "a b c")) ≡ false }
{}
