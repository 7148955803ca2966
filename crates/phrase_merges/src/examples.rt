//! Which phrases stand in a window and in order, on small lists of hits, by computation.
#![tactic(auto, unfolding(all_matches::specs::Ways::matches_of, crate::specs::Near::hulls_of, crate::specs::Near::is_near))]

ghost use Rattle.std.specs.Prelude.{◌≡◌, ◌∷◌, [], true, false};
ghost use Rattle.ft_base.specs.declared.filter.Filter.TheVariants as F;
ghost use Rattle.ft_base.specs.declared.range.Range.TheVariants.{AtLeast, AtMost, Exactly, FromTo};
ghost use Rattle.ft_base.specs.declared.unit.TextUnit.TheVariants.{Sentences, Words};
ghost use Rattle.all_matches.specs.Boolean.{satisfied};
ghost use Rattle.all_matches.specs.Ways.{apart, either, matches_of, negated, phrase, through_filter, together};
ghost use Rattle.window_merges.specs.Choices.{some_choice};
ghost use Rattle.window_merges.specs.Words.{filtered_words};
ghost use Rattle.phrase_merges.specs.Choices.{are_apart, are_near, begin_alike, begin_in_order};
ghost use Rattle.phrase_merges.specs.Near.{AreAlike, hulls_of, is_near, is_told};
ghost use Rattle.phrase_merges.specs.Rows.{is_rising};
ghost use Rattle.phrase_merges.specs.Examples.{by_threes, hit, in_sentences, item, spread};

/// Only where phrases begin counts for their order.
pub fn order()
    ensures one_after_the_other { some_choice begin_in_order ((hit 1 1 2 ∷ []) ∷ (hit 2 4 5 ∷ []) ∷ []) ≡ true }
    ensures one_within_the_other { some_choice begin_in_order ((hit 1 1 5 ∷ []) ∷ (hit 2 2 3 ∷ []) ∷ []) ≡ true }
    ensures before { some_choice begin_in_order ((hit 1 4 5 ∷ []) ∷ (hit 2 1 9 ∷ []) ∷ []) ≡ false }
    ensures by_ways { satisfied (matches_of item (filtered_words F.Ordered ((hit 1 4 5 ∷ []) ∷ (hit 2 1 6 ∷ []) ∷ []))) ≡ false }
{}

/// A list rises where its hits begin and end one after the other.
pub fn rising()
    ensures of_as_many_words { is_rising (hit 1 1 2 ∷ hit 1 2 3 ∷ hit 1 5 6 ∷ []) ≡ true }
    ensures one_within_another { is_rising (hit 1 1 4 ∷ hit 1 2 3 ∷ []) ≡ false }
    ensures before { is_rising (hit 1 2 3 ∷ hit 1 1 3 ∷ []) ≡ false }
{}

/// In `a b x c d` one word stands between "a b" and "c d"; phrases that overlap have none between them.
pub fn distances()
    ensures one_between { some_choice (are_near 1 Words) ((hit 1 1 2 ∷ []) ∷ (hit 2 4 5 ∷ []) ∷ []) ≡ true }
    ensures not_none_between { some_choice (are_near 0 Words) ((hit 1 1 2 ∷ []) ∷ (hit 2 4 5 ∷ []) ∷ []) ≡ false }
    ensures before { some_choice (are_near 1 Words) ((hit 1 4 5 ∷ []) ∷ (hit 2 1 2 ∷ []) ∷ []) ≡ true }
    ensures overlapping { some_choice (are_near 0 Words) ((hit 1 1 5 ∷ []) ∷ (hit 2 2 3 ∷ []) ∷ []) ≡ true }
    ensures no_phrases { some_choice (are_near 9 Words) [] ≡ false }
{}

/// Of two hits the one that begins no later begins in no later sentence, as in each text.
pub fn beginnings()
    ensures in_turn { begin_alike Sentences (in_sentences 1 1 1) (record (in_sentences 2 2 2) { from = 4; to = 5 }) ≡ true }
    ensures against_it { begin_alike Sentences (in_sentences 1 2 2) (record (in_sentences 2 1 1) { from = 4; to = 5 }) ≡ false }
    ensures the_other_way { begin_alike Sentences (record (in_sentences 2 1 1) { from = 4; to = 5 }) (in_sentences 1 2 2) ≡ false }
    ensures in_words { begin_alike Words (hit 1 4 5) (hit 2 1 9) ≡ true }
{}

/// In `a b x y c d` two words stand between "a b" and "c d", whichever is named first. Phrases that overlap have fewer than none between
/// them, so only `at most` takes them.
pub fn ranges()
    ensures exactly_two { some_choice (are_apart (Exactly 2) Words) ((hit 1 1 2 ∷ []) ∷ (hit 2 5 6 ∷ []) ∷ []) ≡ true }
    ensures not_exactly_one { some_choice (are_apart (Exactly 1) Words) ((hit 1 1 2 ∷ []) ∷ (hit 2 5 6 ∷ []) ∷ []) ≡ false }
    ensures not_exactly_three { some_choice (are_apart (Exactly 3) Words) ((hit 1 1 2 ∷ []) ∷ (hit 2 5 6 ∷ []) ∷ []) ≡ false }
    ensures before { some_choice (are_apart (Exactly 2) Words) ((hit 1 5 6 ∷ []) ∷ (hit 2 1 2 ∷ []) ∷ []) ≡ true }
    ensures at_least_two { some_choice (are_apart (AtLeast 2) Words) ((hit 1 1 2 ∷ []) ∷ (hit 2 5 6 ∷ []) ∷ []) ≡ true }
    ensures not_at_least_three { some_choice (are_apart (AtLeast 3) Words) ((hit 1 5 6 ∷ []) ∷ (hit 2 1 2 ∷ []) ∷ []) ≡ false }
    ensures from_one_to_two { some_choice (are_apart (FromTo 1 2) Words) ((hit 1 1 2 ∷ []) ∷ (hit 2 5 6 ∷ []) ∷ []) ≡ true }
    ensures not_from_three { some_choice (are_apart (FromTo 3 4) Words) ((hit 1 1 2 ∷ []) ∷ (hit 2 5 6 ∷ []) ∷ []) ≡ false }
    ensures an_empty_range { some_choice (are_apart (FromTo 3 1) Words) ((hit 1 1 2 ∷ []) ∷ (hit 2 5 6 ∷ []) ∷ []) ≡ false }
    ensures the_longer_variant { some_choice (are_apart (Exactly 1) Words) ((hit 1 1 2 ∷ hit 1 1 3 ∷ []) ∷ (hit 2 5 6 ∷ []) ∷ []) ≡ true }
    ensures next_to_one_another { some_choice (are_apart (Exactly 0) Words) ((hit 1 1 2 ∷ []) ∷ (hit 2 3 4 ∷ []) ∷ []) ≡ true }
    ensures overlapping { some_choice (are_apart (AtLeast 0) Words) ((hit 1 1 3 ∷ []) ∷ (hit 2 2 4 ∷ []) ∷ []) ≡ false }
    ensures overlapping_at_most { some_choice (are_apart (AtMost 0) Words) ((hit 1 1 3 ∷ []) ∷ (hit 2 2 4 ∷ []) ∷ []) ≡ true }
    ensures one_phrase { some_choice (are_apart (AtLeast 0) Words) ((hit 1 1 2 ∷ []) ∷ []) ≡ false }
    ensures by_ways { satisfied (matches_of item (filtered_words (F.Distance (Exactly 2) Words) ((hit 1 5 6 ∷ []) ∷ (hit 2 1 2 ∷ []) ∷ []))) ≡ true }
    ensures none_by_ways { satisfied (matches_of item (filtered_words (F.Distance (AtLeast 0) Words) ((hit 1 1 3 ∷ []) ∷ (hit 2 2 4 ∷ []) ∷ []))) ≡ false }
{}

/// Of "a" and "b" in `a x b` the joined hit goes from the first to the third word, whichever is named first.
pub fn joined_hits()
    ensures of_a_phrase { hulls_of (phrase (hit 1 1 2 ∷ hit 1 4 5 ∷ [])) ≡ hit 1 1 2 ∷ hit 1 4 5 ∷ [] }
    ensures of_either { hulls_of (either (phrase (hit 1 4 5 ∷ [])) (phrase (hit 2 1 2 ∷ []))) ≡ hit 1 4 5 ∷ hit 2 1 2 ∷ [] }
    ensures of_both { hulls_of (together (phrase (hit 1 3 3 ∷ [])) (phrase (hit 2 1 1 ∷ []))) ≡ spread (hit 1 1 3) ∷ [] }
    ensures of_each_two { hulls_of (together (phrase (hit 1 1 1 ∷ hit 1 4 4 ∷ [])) (phrase (hit 2 3 3 ∷ [])))
        ≡ spread (hit 1 1 3) ∷ hit 1 3 4 ∷ [] }
    ensures of_one_without_the_other { hulls_of (together (phrase (hit 1 1 1 ∷ [])) (phrase [])) ≡ [] }
    ensures in_two_sentences { hulls_of (together (phrase (in_sentences 1 2 2 ∷ [])) (phrase (in_sentences 2 1 1 ∷ []))) ≡ in_sentences 1 1 2 ∷ [] }
    ensures in_a_window { hulls_of (through_filter (phrase (hit 1 1 3 ∷ hit 1 4 5 ∷ [])) (F.Window 2 Words)) ≡ hit 1 4 5 ∷ [] }
    ensures in_a_sentence { hulls_of (through_filter (phrase (in_sentences 1 1 2 ∷ in_sentences 1 2 2 ∷ [])) F.SameSentence) ≡ in_sentences 1 2 2 ∷ [] }
    ensures in_a_paragraph { hulls_of (through_filter (phrase (in_sentences 1 1 2 ∷ record (hit 1 1 2) { para_to = 2 } ∷ [])) F.SameParagraph)
        ≡ in_sentences 1 1 2 ∷ [] }
    ensures of_another_filter { hulls_of (through_filter (phrase (hit 1 1 3 ∷ [])) F.Ordered) ≡ [] }
{}

/// A window keeps what fits into it, and a sentence what lies in it whole; each choice of a side is asked for itself.
pub fn nested_fields()
    ensures a_hit_that_is_longer { satisfied (matches_of item (through_filter (phrase (hit 1 1 3 ∷ [])) (F.Window 2 Words))) ≡ false }
    ensures a_hit_as_long { satisfied (matches_of item (through_filter (phrase (hit 1 1 3 ∷ [])) (F.Window 3 Words))) ≡ true }
    ensures a_window_in_a_sentence { satisfied (matches_of item (through_filter
        (together (through_filter (together (phrase (hit 1 1 1 ∷ [])) (phrase (hit 2 3 3 ∷ []))) (F.Window 3 Words)) (phrase (hit 3 9 9 ∷ [])))
        F.SameSentence)) ≡ true }
    ensures too_narrow_in_a_sentence { satisfied (matches_of item (through_filter
        (together (through_filter (together (phrase (hit 1 1 1 ∷ [])) (phrase (hit 2 3 3 ∷ []))) (F.Window 2 Words)) (phrase (hit 3 9 9 ∷ [])))
        F.SameSentence)) ≡ false }
    ensures the_inner_window_has_other_hits { satisfied (matches_of item (through_filter
        (together (through_filter (together (phrase (hit 1 1 1 ∷ hit 1 6 6 ∷ [])) (phrase (hit 2 2 2 ∷ []))) (F.Window 2 Words)) (phrase (hit 3 7 7 ∷ [])))
        (F.Window 3 Words))) ≡ false }
    ensures the_other_side { satisfied (matches_of item (through_filter
        (together (either (phrase (hit 1 1 1 ∷ [])) (phrase (hit 2 6 6 ∷ []))) (phrase (hit 3 7 7 ∷ []))) (F.Window 2 Words))) ≡ true }
    ensures neither_side { satisfied (matches_of item (through_filter
        (together (either (phrase (hit 1 1 1 ∷ [])) (phrase (hit 2 6 6 ∷ []))) (phrase (hit 3 8 8 ∷ []))) (F.Window 2 Words))) ≡ false }
    ensures in_two_sentences { satisfied (matches_of item (through_filter
        (together (phrase (in_sentences 1 1 1 ∷ [])) (phrase (in_sentences 2 2 2 ∷ []))) F.SameSentence)) ≡ false }
    ensures one_that_spreads { satisfied (matches_of item (through_filter (phrase (in_sentences 1 1 2 ∷ [])) F.SameSentence)) ≡ false }
    ensures in_a_window_of_two_sentences { satisfied (matches_of item (through_filter
        (together (phrase (in_sentences 1 1 1 ∷ [])) (phrase (in_sentences 2 2 2 ∷ []))) (F.Window 2 Sentences))) ≡ true }
{}

/// Windows and scopes may stand round each other, and round `ftor` and `ftand`; no other filter, no `ftnot` and no `not in` may.
pub fn near_selections()
    ensures a_phrase { is_near (phrase []) ≡ true }
    ensures a_window_in_a_paragraph { is_near (through_filter (together (through_filter (phrase []) (F.Window 2 Words)) (phrase [])) F.SameParagraph) ≡ true }
    ensures a_choice_in_a_sentence { is_near (through_filter (either (phrase []) (phrase [])) F.SameSentence) ≡ true }
    ensures ordered { is_near (through_filter (phrase []) F.Ordered) ≡ false }
    ensures different { is_near (through_filter (phrase []) F.DifferentSentence) ≡ false }
    ensures a_distance_on_one_side { is_near (either (phrase []) (through_filter (phrase []) (F.Distance (AtMost 3) Words))) ≡ false }
    ensures a_negation { is_near (through_filter (together (phrase []) (negated (phrase []))) (F.Window 2 Words)) ≡ false }
    ensures not_in { is_near (apart (phrase []) (phrase [])) ≡ false }
{}

/// In sentences of three words the third word is in the first sentence, and the fourth in the second.
pub fn told_hits()
    ensures in_both_sentences { is_told by_threes (in_sentences 1 1 2) ≡ false }
    ensures across_their_border { is_told by_threes (record (in_sentences 1 1 2) { from = 3; to = 4 }) ≡ true }
    ensures another_sentence { is_told by_threes (record (in_sentences 1 1 1) { from = 3; to = 4 }) ≡ false }
    ensures another_paragraph { is_told by_threes (record (hit 1 1 2) { para_to = 2 }) ≡ false }
    ensures backwards { is_told by_threes (hit 1 2 1) ≡ false }
{}

/// A phrase may have its hits in another order, and one of them twice.
pub fn alike_phrases()
    ensures { AreAlike (through_filter (phrase (hit 1 1 2 ∷ hit 1 4 5 ∷ [])) (F.Window 2 Words))
        (through_filter (phrase (hit 1 4 5 ∷ hit 1 1 2 ∷ hit 1 4 5 ∷ [])) (F.Window 2 Words)) }
{}
