//! Positional filters on small texts, by computation.
#![tactic(auto, unfolding(crate::specs::Meaning::sat_under, crate::specs::Meaning::all_matches, crate::specs::Meaning::phrase_count))]

ghost use Rattle.std.specs.Prelude.{◌≡◌, ◌++◌, true, false, codes};
ghost use Rattle.ft_base.specs.declared.range.Range.TheVariants as R;
ghost use Rattle.ft_base.specs.declared.unit.TextUnit.TheVariants as U;
ghost use Rattle.ft_base.specs.declared.filter.Filter.TheVariants as F;
ghost use Rattle.ft_base.specs.Selection.{filtered, not_of, and_of, more, none};
ghost use Rattle.all_matches.specs.Examples.{plain, text, sentence, quoted, two_and, two_or};
ghost use Rattle.all_matches.specs.Meaning.{sat};

/// `("a" ftand "c" ftand ftnot "b") window 3 words`: after `a c` the window that starts before the text doesn't reach `b`.
pub fn windows()
    ensures between { sat plain
        (filtered (and_of (more (quoted (codes "a")) (more (quoted (codes "c")) (more (not_of (quoted (codes "b"))) none)))) (F.Window 3 U.Words))
        (text (codes "a b c")) ≡ false }
    ensures after { sat plain
        (filtered (and_of (more (quoted (codes "a")) (more (quoted (codes "c")) (more (not_of (quoted (codes "b"))) none)))) (F.Window 3 U.Words))
        (text (codes "a c b")) ≡ true }
    ensures wide_enough { sat plain (filtered (two_and (quoted (codes "a")) (quoted (codes "b"))) (F.Window 3 U.Words)) (text (codes "a x b")) ≡ true }
    ensures too_narrow { sat plain (filtered (two_and (quoted (codes "a")) (quoted (codes "b"))) (F.Window 2 U.Words)) (text (codes "a x b")) ≡ false }
    ensures of_nothing { sat plain (filtered (quoted (codes "a")) (F.Window 0 U.Words)) (text (codes "a")) ≡ false }
{}

/// `"b" ftand "a" ordered` and its mirror.
pub fn order()
    ensures against { sat plain (filtered (two_and (quoted (codes "b")) (quoted (codes "a"))) F.Ordered) (text (codes "a x b")) ≡ false }
    ensures along { sat plain (filtered (two_and (quoted (codes "a")) (quoted (codes "b"))) F.Ordered) (text (codes "a x b")) ≡ true }
{}

/// Distances are taken between neighbours in the text, and may be below zero.
pub fn distances()
    ensures sorted { sat plain (filtered (two_and (quoted (codes "b")) (quoted (codes "a"))) (F.Distance (R.Exactly 1) U.Words)) (text (codes "a x b")) ≡ true }
    ensures too_far { sat plain (filtered (two_and (quoted (codes "b")) (quoted (codes "a"))) (F.Distance (R.AtMost 0) U.Words))
        (text (codes "a x b")) ≡ false }
    ensures same_sentence { sat plain (filtered (two_and (quoted (codes "a")) (quoted (codes "b"))) (F.Distance (R.AtMost 0) U.Sentences))
        (text (codes "a b")) ≡ true }
    ensures below_zero { sat plain (filtered (two_and (quoted (codes "a")) (quoted (codes "b"))) (F.Distance (R.FromTo 0 0) U.Sentences))
        (text (codes "a b")) ≡ false }
    ensures two_sentences_on { sat plain
        (filtered (two_and (quoted (codes "stop")) (quoted (codes "yes"))) (F.Distance (R.Exactly 1) U.Sentences))
        (sentence 1 (codes "stop") ++ sentence 2 (codes "go now") ++ sentence 3 (codes "yes")) ≡ true }
{}

/// One include or none passes any distance.
pub fn distances_without_excludes()
    ensures one { sat plain (filtered (quoted (codes "a")) (F.Distance (R.AtLeast 7) U.Words)) (text (codes "a")) ≡ true }
{}

/// After a filter on a window or a distance stands one joined hit.
pub fn nested_filters()
    ensures ordered_before { sat plain
        (filtered (filtered (two_and (quoted (codes "b")) (quoted (codes "a"))) F.Ordered) (F.Distance (R.Exactly 1) U.Words)) (text (codes "a x b")) ≡ false }
    ensures ordered_after { sat plain
        (filtered (filtered (two_and (quoted (codes "b")) (quoted (codes "a"))) (F.Distance (R.Exactly 1) U.Words)) F.Ordered) (text (codes "a x b")) ≡ true }
    ensures joined { sat plain
        (filtered (two_and (filtered (two_and (quoted (codes "a")) (quoted (codes "b"))) (F.Window 2 U.Words)) (quoted (codes "c")))
        (F.Distance (R.Exactly 1) U.Words)) (text (codes "a b x c")) ≡ true }
    ensures joined_beside { sat plain
        (filtered (two_and (filtered (two_and (quoted (codes "a")) (quoted (codes "b"))) (F.Window 2 U.Words)) (quoted (codes "c")))
        (F.Distance (R.Exactly 1) U.Words)) (text (codes "a b c")) ≡ false }
{}

/// Sentences of `Stop. Go now! Yes` and of `a. b`.
pub fn scopes()
    ensures parted { sat plain (filtered (two_and (quoted (codes "stop")) (quoted (codes "go"))) F.SameSentence)
        (sentence 1 (codes "stop") ++ sentence 2 (codes "go now") ++ sentence 3 (codes "yes")) ≡ false }
    ensures together { sat plain (filtered (two_and (quoted (codes "go")) (quoted (codes "now"))) F.SameSentence)
        (sentence 1 (codes "stop") ++ sentence 2 (codes "go now") ++ sentence 3 (codes "yes")) ≡ true }
    ensures different { sat plain (filtered (two_and (quoted (codes "stop")) (quoted (codes "go"))) F.DifferentSentence)
        (sentence 1 (codes "stop") ++ sentence 2 (codes "go now") ++ sentence 3 (codes "yes")) ≡ true }
    ensures one_hit_twice { sat plain (filtered (two_and (quoted (codes "a")) (quoted (codes "a"))) F.DifferentSentence)
        (sentence 1 (codes "a") ++ sentence 2 (codes "b")) ≡ false }
    ensures across { sat plain (filtered (quoted (codes "a b")) F.SameSentence) (sentence 1 (codes "a") ++ sentence 2 (codes "b")) ≡ false }
    ensures paragraph { sat plain (filtered (two_and (quoted (codes "a")) (quoted (codes "b"))) F.SameParagraph)
        (sentence 1 (codes "a") ++ sentence 2 (codes "b")) ≡ true }
    ensures one_paragraph { sat plain (filtered (two_and (quoted (codes "a")) (quoted (codes "b"))) F.DifferentParagraph)
        (sentence 1 (codes "a") ++ sentence 2 (codes "b")) ≡ false }
{}

/// `at start` and `at end`.
pub fn anchors()
    ensures end { sat plain (filtered (quoted (codes "b")) F.AtEnd) (text (codes "a b")) ≡ true }
    ensures not_end { sat plain (filtered (quoted (codes "b")) F.AtEnd) (text (codes "a b c")) ≡ false }
    ensures either_end { sat plain (filtered (two_or (quoted (codes "a")) (quoted (codes "b"))) F.AtEnd) (text (codes "a b")) ≡ true }
    ensures neither_end { sat plain (filtered (two_or (quoted (codes "a")) (quoted (codes "b"))) F.AtEnd) (text (codes "a b c")) ≡ false }
    ensures start { sat plain (filtered (quoted (codes "a")) F.AtStart) (text (codes "a b")) ≡ true }
    ensures not_start { sat plain (filtered (quoted (codes "b")) F.AtStart) (text (codes "a b")) ≡ false }
{}

/// `entire content`.
pub fn entire()
    ensures all { sat plain (filtered (quoted (codes "a b")) F.EntireContent) (text (codes "a b")) ≡ true }
    ensures not_all { sat plain (filtered (quoted (codes "a b")) F.EntireContent) (text (codes "a b c")) ≡ false }
    ensures with_a_hole { sat plain
        (filtered (filtered (two_and (quoted (codes "a")) (quoted (codes "c"))) (F.Window 3 U.Words)) F.EntireContent) (text (codes "a b c")) ≡ false }
{}
