//! Windows on small texts, by computation. A period ends a sentence, `|` a paragraph.
#![tactic(auto, unfolding(crate::specs::Meaning::sat_under, crate::specs::Meaning::all_matches, crate::specs::Meaning::phrase_count))]

ghost use Rattle.std.specs.Prelude.{◌≡◌, ◌++◌, ◌∷◌, [], true, false, codes, pos, negsuc, Some, None};
ghost use Rattle.ft_base.specs.declared.filter.Filter.TheVariants as F;
ghost use Rattle.ft_base.specs.declared.unit.TextUnit.TheVariants as U;
ghost use Rattle.ft_base.specs.HitExamples.{word, phrase};
ghost use Rattle.ft_base.specs.Selection.{filtered};
ghost use Rattle.all_matches.specs.Examples.{plain, text, sentence, paragraph, in_sentences, quoted};
ghost use Rattle.all_matches.specs.Examples.{two_and, three_and, but_not, word_a, word_b, word_c, window};
ghost use Rattle.all_matches.specs.Meaning.{sat};
ghost use Rattle.all_matches.specs.Window.{windows_round, lies_in_window};

/// A window holds all hits, in whichever order they stand in the query, and is told in words, sentences or paragraphs.
pub fn hits_in_windows()
    ensures against_the_query { sat plain (filtered (two_and word_b word_a) (F.Window 2 U.Words)) (text (codes "a x b")) ≡ false }
    ensures the_last_of_three { sat plain (filtered (three_and word_a word_b word_c) (F.Window 2 U.Words)) (text (codes "a b c")) ≡ false }
    ensures one_sentence { sat plain (filtered (two_and word_a word_b) (F.Window 1 U.Sentences)) (text (codes "a x b")) ≡ true }
    ensures two_sentences { sat plain (filtered (two_and word_a word_b) (F.Window 1 U.Sentences)) (sentence 1 (codes "a") ++ sentence 2 (codes "b")) ≡ false }
    ensures a_phrase_in_two_paragraphs { sat plain (filtered (quoted (codes "a b")) (F.Window 1 U.Paragraphs))
        (paragraph 1 (codes "a") ++ paragraph 2 (codes "b")) ≡ false }
    ensures two_paragraphs { sat plain (filtered (two_and word_a word_b) (F.Window 2 U.Paragraphs))
        (paragraph 1 (codes "a") ++ paragraph 2 (codes "b")) ≡ true }
    ensures sentences_of_a_paragraph { sat plain (filtered (two_and word_a word_b) (F.Window 1 U.Paragraphs))
        (sentence 1 (codes "a") ++ sentence 2 (codes "b")) ≡ true }
{}

/// A window may begin before the text and end after it. It begins no later, and ends no earlier, than the hits.
pub fn places_of_windows()
    ensures after_the_text { sat plain (filtered (but_not (two_and word_a word_c) word_b) (F.Window 3 U.Words)) (text (codes "b a c")) ≡ true }
    ensures before_the_text { sat plain (filtered (but_not (two_and word_a word_c) word_b) (F.Window 3 U.Words)) (text (codes "a c b")) ≡ true }
    ensures no_room_to_begin_later { sat plain (filtered (but_not (two_and word_a word_c) (quoted (codes "a b"))) (F.Window 3 U.Words))
        (text (codes "a b c")) ≡ false }
    ensures no_room_to_end_earlier { sat plain (filtered (but_not (two_and word_a word_c) (quoted (codes "b c"))) (F.Window 3 U.Words))
        (text (codes "a b c")) ≡ false }
{}

/// An exclude counts where it lies in the window as a whole.
pub fn excludes_in_windows()
    ensures begins_before { sat plain (filtered (but_not (two_and word_a word_c) (quoted (codes "x a"))) (F.Window 2 U.Words)) (text (codes "x a c")) ≡ true }
    ensures ends_after { sat plain (filtered (but_not (two_and word_a word_c) (quoted (codes "c x"))) (F.Window 2 U.Words)) (text (codes "a c x")) ≡ true }
    ensures in_the_sentence { sat plain (filtered (but_not word_a word_b) (F.Window 1 U.Sentences)) (text (codes "a x x b")) ≡ false }
    ensures in_another_sentence { sat plain (filtered (but_not word_a word_b) (F.Window 1 U.Sentences))
        (sentence 1 (codes "a") ++ sentence 2 (codes "b")) ≡ true }
    ensures in_the_paragraph { sat plain (filtered (but_not word_a word_b) (F.Window 1 U.Paragraphs))
        (sentence 1 (codes "a") ++ sentence 2 (codes "b")) ≡ false }
    ensures across_paragraphs { sat plain (filtered (but_not word_a (quoted (codes "a b"))) (F.Window 1 U.Paragraphs))
        (paragraph 1 (codes "a") ++ paragraph 2 (codes "b")) ≡ true }
{}

/// The windows of a size that hold a hit, by their first numbers, which may be below 1.
pub fn windows_of_a_size()
    ensures of_three_words { windows_round 3 U.Words (Some (phrase 1 2 3)) ≡ window (pos 1) (pos 3) ∷ window (pos 2) (pos 4) ∷ [] }
    ensures before_the_text { windows_round 3 U.Words (Some (word 1))
        ≡ window (negsuc 0) (pos 1) ∷ window (pos 0) (pos 2) ∷ window (pos 1) (pos 3) ∷ [] }
    ensures as_wide_as_the_hit { windows_round 2 U.Words (Some (phrase 1 2 3)) ≡ window (pos 2) (pos 3) ∷ [] }
    ensures too_narrow { windows_round 1 U.Words (Some (phrase 1 2 3)) ≡ [] }
    ensures of_no_words { windows_round 0 U.Words (Some (word 2)) ≡ [] }
    ensures of_sentences { windows_round 2 U.Sentences (Some (in_sentences 4 5 (word 9))) ≡ window (pos 4) (pos 5) ∷ [] }
    ensures round_no_hit { windows_round 3 U.Words None ≡ [] }
{}

/// A hit lies in a window where it begins no earlier and ends no later.
pub fn hits_in_a_window()
    ensures from_end_to_end { lies_in_window U.Words (window (pos 2) (pos 4)) (phrase 1 2 4) ≡ true }
    ensures begins_before { lies_in_window U.Words (window (pos 2) (pos 4)) (phrase 1 1 4) ≡ false }
    ensures ends_after { lies_in_window U.Words (window (pos 2) (pos 4)) (phrase 1 2 5) ≡ false }
    ensures from_below_one { lies_in_window U.Words (window (negsuc 2) (pos 1)) (word 1) ≡ true }
    ensures below_one { lies_in_window U.Words (window (negsuc 2) (pos 0)) (word 1) ≡ false }
    ensures of_sentences { lies_in_window U.Sentences (window (pos 4) (pos 5)) (in_sentences 4 5 (word 9)) ≡ true }
{}
