//! Filters one after the other on small texts, by computation. A period ends a sentence, `|` a paragraph.
#![tactic(auto, unfolding(crate::specs::Meaning::sat_under, crate::specs::Meaning::all_matches, crate::specs::Meaning::phrase_count))]

ghost use Rattle.std.specs.Prelude.{◌≡◌, ◌++◌, true, false, codes};
ghost use Rattle.ft_base.specs.declared.filter.Filter.TheVariants as F;
ghost use Rattle.ft_base.specs.declared.range.Range.TheVariants as R;
ghost use Rattle.ft_base.specs.declared.unit.TextUnit.TheVariants as U;
ghost use Rattle.ft_base.specs.Selection.{filtered, not_of};
ghost use Rattle.all_matches.specs.Examples.{plain, text, sentence, paragraph, quoted, two_and, three_and, but_not, word_a, word_b, word_c, word_x};
ghost use Rattle.all_matches.specs.Meaning.{sat};

/// After scopes, anchors and order the hits stand as they did, each by itself: `ordered` still sees that `a` stands before `b`.
pub fn hits_kept_apart()
    ensures after_order { sat plain (filtered (filtered (two_and word_a word_b) F.Ordered) (F.Distance (R.AtMost 0) U.Words)) (text (codes "a x b")) ≡ false }
    ensures after_same_sentence { sat plain (filtered (filtered (two_and word_b word_a) F.SameSentence) F.Ordered) (text (codes "a b")) ≡ false }
    ensures after_same_paragraph { sat plain (filtered (filtered (two_and word_b word_a) F.SameParagraph) F.Ordered) (text (codes "a b")) ≡ false }
    ensures after_different_sentence { sat plain (filtered (filtered (two_and word_b word_a) F.DifferentSentence) F.Ordered)
        (sentence 1 (codes "a") ++ sentence 2 (codes "b")) ≡ false }
    ensures after_different_paragraph { sat plain (filtered (filtered (two_and word_b word_a) F.DifferentParagraph) F.Ordered)
        (paragraph 1 (codes "a") ++ paragraph 2 (codes "b")) ≡ false }
    ensures after_at_start { sat plain (filtered (filtered (two_and word_b word_a) F.AtStart) F.Ordered) (text (codes "a b")) ≡ false }
    ensures after_at_end { sat plain (filtered (filtered (two_and word_b word_a) F.AtEnd) F.Ordered) (text (codes "a b")) ≡ false }
    ensures after_entire_content { sat plain (filtered (filtered (two_and word_b word_a) F.EntireContent) F.Ordered) (text (codes "a b")) ≡ false }
{}

/// After a window and a distance stands one joined hit: from the first to the last word, sentence and paragraph, with the number of the first
/// phrase.
pub fn joined_hits()
    ensures after_a_window { sat plain (filtered (filtered (two_and word_b word_a) (F.Window 2 U.Words)) F.Ordered) (text (codes "a b")) ≡ true }
    ensures to_the_last_sentence { sat plain (filtered (filtered (two_and word_a word_c) (F.Window 3 U.Words)) F.SameSentence)
        (sentence 1 (codes "a b") ++ sentence 2 (codes "c")) ≡ false }
    ensures from_the_first_sentence { sat plain (filtered (filtered (two_and word_c word_a) (F.Window 3 U.Words)) F.SameSentence)
        (sentence 1 (codes "a b") ++ sentence 2 (codes "c")) ≡ false }
    ensures to_the_last_paragraph { sat plain (filtered (filtered (two_and word_a word_c) (F.Window 3 U.Words)) F.SameParagraph)
        (paragraph 1 (codes "a b") ++ paragraph 2 (codes "c")) ≡ false }
    ensures from_the_first_paragraph { sat plain (filtered (filtered (two_and word_c word_a) (F.Window 3 U.Words)) F.SameParagraph)
        (paragraph 1 (codes "a b") ++ paragraph 2 (codes "c")) ≡ false }
    ensures beside_another { sat plain (filtered (two_and (filtered (two_and word_a word_b) (F.Window 2 U.Words)) word_c) F.SameSentence)
        (sentence 1 (codes "a b") ++ sentence 2 (codes "c")) ≡ false }
    ensures number_after_another { sat plain (filtered (two_and word_x (filtered (two_and word_a word_b) (F.Window 2 U.Words))) F.Ordered)
        (text (codes "a b x")) ≡ false }
    ensures number_of_the_first { sat plain (filtered (filtered (three_and word_a (not_of word_x) word_b) (F.Window 3 U.Words)) F.Ordered)
        (text (codes "a x b")) ≡ false }
{}

/// An exclude counts where each filter after it keeps it.
pub fn excludes_under_nested_filters()
    ensures outside_the_second_window { sat plain (filtered (but_not (filtered (two_and word_a word_b) (F.Window 2 U.Words)) word_c) (F.Window 2 U.Words))
        (text (codes "a b c")) ≡ true }
    ensures inside_the_joined_hit { sat plain (filtered (but_not (filtered (two_and word_a word_c) (F.Window 3 U.Words)) word_b) (F.Window 3 U.Words))
        (text (codes "a b c")) ≡ false }
    ensures after_a_distance { sat plain (filtered (but_not (filtered (two_and word_a word_c) (F.Distance (R.Exactly 1) U.Words)) word_b) F.Ordered)
        (text (codes "a b c")) ≡ false }
    ensures dropped_by_the_first { sat plain (filtered (filtered (but_not word_a word_b) F.SameSentence) F.AtStart)
        (sentence 1 (codes "a") ++ sentence 2 (codes "b")) ≡ true }
    ensures dropped_by_the_second { sat plain (filtered (filtered (but_not word_a word_b) F.AtStart) F.SameSentence)
        (sentence 1 (codes "a") ++ sentence 2 (codes "b")) ≡ true }
    ensures kept_by_both { sat plain (filtered (filtered (but_not word_a word_b) F.AtStart) F.SameSentence) (text (codes "a b")) ≡ false }
{}
