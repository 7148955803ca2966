//! Sentences and paragraphs on small texts, by computation. A period ends a sentence, `|` a paragraph.
#![tactic(auto, unfolding(crate::specs::Meaning::sat_under, crate::specs::Meaning::all_matches, crate::specs::Meaning::phrase_count))]

ghost use Rattle.std.specs.Prelude.{◌≡◌, ◌++◌, true, false, codes};
ghost use Rattle.ft_base.specs.declared.filter.Filter.TheVariants as F;
ghost use Rattle.ft_base.specs.Selection.{filtered, not_of};
ghost use Rattle.all_matches.specs.Examples.{plain, text, sentence, paragraph, quoted, two_and, three_and, but_not, word_a, word_b, word_c, word_x};
ghost use Rattle.all_matches.specs.Meaning.{sat};

/// `same sentence` and `same paragraph`: each hit lies in one, and it is the same for all.
pub fn same_scope()
    ensures in_another_sentence { sat plain (filtered (three_and word_a word_b word_c) F.SameSentence)
        (sentence 1 (codes "a b") ++ sentence 2 (codes "c")) ≡ false }
    ensures in_another_paragraph { sat plain (filtered (two_and word_a word_b) F.SameParagraph) (paragraph 1 (codes "a") ++ paragraph 2 (codes "b")) ≡ false }
    ensures across_paragraphs { sat plain (filtered (quoted (codes "a b")) F.SameParagraph) (paragraph 1 (codes "a") ++ paragraph 2 (codes "b")) ≡ false }
    ensures begins_in_the_sentence { sat plain (filtered (two_and word_a (quoted (codes "a b"))) F.SameSentence)
        (sentence 1 (codes "a") ++ sentence 2 (codes "b")) ≡ false }
    ensures without_includes { sat plain (filtered (not_of word_x) F.SameSentence) (text (codes "a")) ≡ true }
    ensures without_includes_in_paragraphs { sat plain (filtered (not_of word_x) F.SameParagraph) (text (codes "a")) ≡ true }
{}

/// `different sentence` and `different paragraph`: every two hits have no sentence, no paragraph in common. One hit alone passes.
pub fn different_scopes()
    ensures against_the_query { sat plain (filtered (two_and (quoted (codes "go")) (quoted (codes "stop"))) F.DifferentSentence)
        (sentence 1 (codes "stop") ++ sentence 2 (codes "go")) ≡ true }
    ensures different_paragraphs { sat plain (filtered (two_and word_a word_b) F.DifferentParagraph)
        (paragraph 1 (codes "a") ++ paragraph 2 (codes "b")) ≡ true }
    ensures ends_in_the_others { sat plain (filtered (two_and (quoted (codes "a b")) word_b) F.DifferentSentence)
        (sentence 1 (codes "a") ++ sentence 2 (codes "b")) ≡ false }
    ensures the_other_ends_in_it { sat plain (filtered (two_and word_b (quoted (codes "a b"))) F.DifferentSentence)
        (sentence 1 (codes "a") ++ sentence 2 (codes "b")) ≡ false }
    ensures two_of_three { sat plain (filtered (three_and word_a word_b word_c) F.DifferentSentence)
        (sentence 1 (codes "a b") ++ sentence 2 (codes "c")) ≡ false }
    ensures the_last_two_of_three { sat plain (filtered (three_and word_a word_b word_c) F.DifferentSentence)
        (sentence 1 (codes "a") ++ sentence 2 (codes "b c")) ≡ false }
    ensures one_hit { sat plain (filtered (quoted (codes "a b")) F.DifferentSentence) (text (codes "a b")) ≡ true }
{}

/// An exclude counts where it lies in the one sentence, the one paragraph of all includes, and itself in one.
pub fn excludes_under_same_scope()
    ensures in_the_sentence { sat plain (filtered (but_not word_a word_b) F.SameSentence) (text (codes "a b")) ≡ false }
    ensures in_another_sentence { sat plain (filtered (but_not word_a word_b) F.SameSentence) (sentence 1 (codes "a") ++ sentence 2 (codes "b")) ≡ true }
    ensures across_sentences { sat plain (filtered (not_of (quoted (codes "a b"))) F.SameSentence) (sentence 1 (codes "a") ++ sentence 2 (codes "b")) ≡ true }
    ensures in_the_paragraph { sat plain (filtered (but_not word_a word_b) F.SameParagraph) (sentence 1 (codes "a") ++ sentence 2 (codes "b")) ≡ false }
    ensures across_paragraphs { sat plain (filtered (not_of (quoted (codes "a b"))) F.SameParagraph)
        (paragraph 1 (codes "a") ++ paragraph 2 (codes "b")) ≡ true }
    ensures in_another_paragraph { sat plain (filtered (but_not word_a word_b) F.SameParagraph) (paragraph 1 (codes "a") ++ paragraph 2 (codes "b")) ≡ true }
{}

/// An exclude counts where it has no sentence, no paragraph in common with any include.
pub fn excludes_under_different_scopes()
    ensures in_another_sentence { sat plain (filtered (but_not word_a word_b) F.DifferentSentence) (sentence 1 (codes "a") ++ sentence 2 (codes "b")) ≡ false }
    ensures in_the_sentence { sat plain (filtered (but_not word_a word_b) F.DifferentSentence) (text (codes "a b")) ≡ true }
    ensures in_one_of_two { sat plain (filtered (but_not (two_and word_a word_b) word_x) F.DifferentSentence)
        (sentence 1 (codes "a x") ++ sentence 2 (codes "b")) ≡ true }
    ensures in_one_of_two_paragraphs { sat plain (filtered (but_not (two_and word_a word_b) word_x) F.DifferentParagraph)
        (paragraph 1 (codes "a x") ++ paragraph 2 (codes "b")) ≡ true }
    ensures in_another_paragraph { sat plain (filtered (but_not word_a word_b) F.DifferentParagraph)
        (paragraph 1 (codes "a") ++ paragraph 2 (codes "b")) ≡ false }
    ensures in_the_paragraph { sat plain (filtered (but_not word_a word_b) F.DifferentParagraph) (sentence 1 (codes "a") ++ sentence 2 (codes "b")) ≡ true }
{}
