//! Sentences and paragraphs of hits, alone and on small texts, by computation. A period ends a sentence.
#![tactic(auto, unfolding(all_matches::specs::Meaning::sat_under, all_matches::specs::Meaning::all_matches, all_matches::specs::Meaning::phrase_count))]

ghost use Rattle.std.specs.Prelude.{◌≡◌, ◌++◌, true, false, codes};
ghost use Rattle.ft_base.specs.declared.filter.Filter.TheVariants as F;
ghost use Rattle.ft_base.specs.declared.unit.TextUnit.TheVariants as U;
ghost use Rattle.ft_base.specs.HitExamples.{word};
ghost use Rattle.ft_base.specs.Selection.{filtered};
ghost use Rattle.all_matches.specs.Examples.{plain, sentence, in_sentences, quoted, two_and, but_not, word_a, word_b};
ghost use Rattle.all_matches.specs.Meaning.{sat};
ghost use Rattle.all_matches.specs.Positions.{share_one, are_apart};

/// Two hits share a sentence where each lies in one and it is the same.
pub fn hits_of_one_sentence()
    ensures the_same { share_one U.Sentences (in_sentences 2 2 (word 4)) (in_sentences 2 2 (word 5)) ≡ true }
    ensures the_next { share_one U.Sentences (in_sentences 1 1 (word 4)) (in_sentences 2 2 (word 5)) ≡ false }
    ensures the_one_before { share_one U.Sentences (in_sentences 2 2 (word 5)) (in_sentences 1 1 (word 4)) ≡ false }
    ensures the_first_in_two { share_one U.Sentences (in_sentences 1 2 (word 4)) (in_sentences 1 1 (word 3)) ≡ false }
    ensures the_second_in_two { share_one U.Sentences (in_sentences 1 1 (word 3)) (in_sentences 1 2 (word 4)) ≡ false }
    ensures one_that_ends_in_it { share_one U.Sentences (in_sentences 1 2 (word 4)) (in_sentences 2 2 (word 5)) ≡ false }
    ensures an_exclude_before { sat plain (filtered (but_not word_a word_b) F.SameSentence) (sentence 1 (codes "b") ++ sentence 2 (codes "a")) ≡ true }
{}

/// Two hits are apart where the one that stands first ends before the other begins.
pub fn hits_of_different_sentences()
    ensures begins_where_the_other_ends { are_apart U.Sentences (in_sentences 1 2 (word 3)) (in_sentences 2 3 (word 5)) ≡ false }
    ensures ends_where_the_other_begins { are_apart U.Sentences (in_sentences 2 3 (word 5)) (in_sentences 1 2 (word 3)) ≡ false }
    ensures one_and_two { sat plain (filtered (two_and word_a (quoted (codes "a b"))) F.DifferentSentence)
        (sentence 1 (codes "a") ++ sentence 2 (codes "b")) ≡ false }
    ensures two_and_one { sat plain (filtered (two_and (quoted (codes "a b")) word_a) F.DifferentSentence)
        (sentence 1 (codes "a") ++ sentence 2 (codes "b")) ≡ false }
{}
