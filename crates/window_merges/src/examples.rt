//! Which choices stand near one another and in order, on small texts, by computation.
#![tactic(auto, unfolding(all_matches::specs::Ways::matches_of))]

ghost use Rattle.std.specs.Prelude.{◌≡◌, ◌∷◌, [], true, false};
ghost use Rattle.ft_base.specs.declared.filter.Filter.TheVariants as F;
ghost use Rattle.ft_base.specs.declared.unit.TextUnit.TheVariants.{Paragraphs, Sentences, Words};
ghost use Rattle.ft_base.specs.Hits.{HitPlace, hit_place};
ghost use Rattle.all_matches.specs.Boolean.{satisfied};
ghost use Rattle.all_matches.specs.Ways.{matches_of};
ghost use Rattle.window_merges.specs.Choices.{are_close, are_in_one, are_in_order, some_choice};
ghost use Rattle.window_merges.specs.Rows.{places_in};
ghost use Rattle.window_merges.specs.Words.{are_numbered, are_single, are_told, filtered_words, first_words};
ghost use Rattle.window_merges.specs.Examples.{by_threes, hits_at, hits_by_threes, item, long_hit, spread_hit};

/// In `a x b` the words `a` and `b` stand among three words, and not among two. A word that is asked for twice stands
/// near itself.
pub fn near()
    ensures in_three { some_choice (are_close 3) ((1 ∷ []) ∷ (3 ∷ []) ∷ []) ≡ true }
    ensures not_in_two { some_choice (are_close 2) ((1 ∷ []) ∷ (3 ∷ []) ∷ []) ≡ false }
    ensures twice { some_choice (are_close 1) ((1 ∷ []) ∷ (1 ∷ []) ∷ []) ≡ true }
    ensures no_room { some_choice (are_close 0) ((1 ∷ []) ∷ []) ≡ false }
{}

/// In `a x x b x a c` the words `a`, `b` and `c` stand among four words, from the fourth on.
pub fn nearest_hits()
    ensures in_four { some_choice (are_close 4) ((1 ∷ 6 ∷ []) ∷ (4 ∷ []) ∷ (7 ∷ []) ∷ []) ≡ true }
    ensures not_in_three { some_choice (are_close 3) ((1 ∷ 6 ∷ []) ∷ (4 ∷ []) ∷ (7 ∷ []) ∷ []) ≡ false }
    ensures one_word_missing { some_choice (are_close 9) ((1 ∷ 6 ∷ []) ∷ [] ∷ (7 ∷ []) ∷ []) ≡ false }
    ensures no_words { some_choice (are_close 9) [] ≡ false }
{}

/// Words are in order as long as none stands before an earlier one, so that a word that is asked for twice is in
/// order with itself.
pub fn order()
    ensures one_after_the_other { some_choice are_in_order ((1 ∷ []) ∷ (3 ∷ []) ∷ []) ≡ true }
    ensures before { some_choice are_in_order ((3 ∷ []) ∷ (1 ∷ []) ∷ []) ≡ false }
    ensures twice { some_choice are_in_order ((3 ∷ []) ∷ (3 ∷ []) ∷ []) ≡ true }
    ensures a_later_hit { some_choice are_in_order ((3 ∷ []) ∷ (1 ∷ 5 ∷ []) ∷ (2 ∷ 5 ∷ []) ∷ []) ≡ true }
    ensures no_later_hit { some_choice are_in_order ((3 ∷ []) ∷ (1 ∷ 5 ∷ []) ∷ (2 ∷ 4 ∷ []) ∷ []) ≡ false }
    ensures no_words { some_choice are_in_order [] ≡ true }
{}

/// Where a sentence has three places, `a` at the first and `b` at the third stand in one, and with `b` at the fourth they don't.
pub fn in_one_unit()
    ensures inside { some_choice (are_in_one by_threes) ((0 ∷ []) ∷ (2 ∷ []) ∷ []) ≡ true }
    ensures next { some_choice (are_in_one by_threes) ((2 ∷ []) ∷ (3 ∷ []) ∷ []) ≡ false }
    ensures a_later_one { some_choice (are_in_one by_threes) ((0 ∷ 5 ∷ []) ∷ (3 ∷ []) ∷ (4 ∷ 9 ∷ []) ∷ []) ≡ true }
    ensures two_and_two { some_choice (are_in_one by_threes) ((0 ∷ 3 ∷ []) ∷ (1 ∷ 6 ∷ []) ∷ (4 ∷ 7 ∷ []) ∷ []) ≡ false }
    ensures no_words { some_choice (are_in_one by_threes) [] ≡ true }
{}

/// The places of a word are those of all its sources, from where these stand, in the span.
pub fn places_of_words()
    ensures of_two_sources { places_in (λ at. at) (record { from = 2; to = 7 })
        (hit_place (hits_at 1 (1 ∷ 4 ∷ 7 ∷ [])) 0 ∷ hit_place (hits_at 1 (2 ∷ 6 ∷ [])) 0 ∷ [])
        ≡ 4 ∷ 2 ∷ 6 ∷ [] }
    ensures of_those_left { places_in (λ at. at) (record { from = 1; to = 9 }) (hit_place (hits_at 1 (1 ∷ 4 ∷ [])) 1 ∷ []) ≡ 4 ∷ [] }
{}

/// Words under a filter, by all choices of their hits: as the choices of their places have it.
pub fn words_under_filters()
    ensures in_three { satisfied (matches_of item (filtered_words (F.Window 3 Words) (hits_at 1 (1 ∷ []) ∷ hits_at 2 (3 ∷ []) ∷ []))) ≡ true }
    ensures not_in_two { satisfied (matches_of item (filtered_words (F.Window 2 Words) (hits_at 1 (1 ∷ []) ∷ hits_at 2 (3 ∷ []) ∷ []))) ≡ false }
    ensures after { satisfied (matches_of item (filtered_words F.Ordered (hits_at 1 (3 ∷ []) ∷ hits_at 2 (1 ∷ 3 ∷ []) ∷ []))) ≡ true }
    ensures before { satisfied (matches_of item (filtered_words F.Ordered (hits_at 1 (3 ∷ []) ∷ hits_at 2 (1 ∷ 2 ∷ []) ∷ []))) ≡ false }
{}

/// Words under `same sentence`, by all choices of their hits: as the choices of their places have it.
pub fn words_in_sentences()
    ensures inside { satisfied (matches_of item (filtered_words F.SameSentence (hits_by_threes 1 (0 ∷ []) ∷ hits_by_threes 2 (2 ∷ []) ∷ []))) ≡ true }
    ensures next { satisfied (matches_of item (filtered_words F.SameSentence (hits_by_threes 1 (2 ∷ []) ∷ hits_by_threes 2 (3 ∷ []) ∷ []))) ≡ false }
    ensures known { are_told Sentences by_threes (hits_by_threes 1 (0 ∷ 4 ∷ []) ∷ []) ≡ true }
    ensures of_other_units { are_told Paragraphs by_threes (hits_by_threes 1 (0 ∷ 4 ∷ []) ∷ []) ≡ false }
    ensures over_two { are_told Sentences by_threes ((spread_hit ∷ []) ∷ []) ≡ false }
{}

/// Hits of more than one word aren't single, and the words are numbered one after the other.
pub fn kinds_of_words()
    ensures single { are_single (hits_at 1 (1 ∷ 4 ∷ []) ∷ hits_at 2 [] ∷ []) ≡ true }
    ensures longer { are_single (hits_at 1 (1 ∷ 4 ∷ []) ∷ (long_hit ∷ []) ∷ []) ≡ false }
    ensures numbered { are_numbered 4 (hits_at 4 (1 ∷ 2 ∷ []) ∷ hits_at 5 (1 ∷ []) ∷ []) ≡ true }
    ensures of_one_number { are_numbered 4 (hits_at 4 (1 ∷ 2 ∷ []) ∷ hits_at 4 (1 ∷ []) ∷ []) ≡ false }
    ensures places { first_words (hits_at 1 (1 ∷ 4 ∷ []) ∷ (long_hit ∷ []) ∷ []) ≡ (1 ∷ 4 ∷ []) ∷ (2 ∷ []) ∷ [] }
{}
