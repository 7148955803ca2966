//! What is counted, on small texts, by computation.

ghost use Rattle.std.specs.Prelude.{◌≡◌, ◌∷◌, [], true, false, None, Some, map};
ghost use Rattle.ft_base.specs.declared.unit.TextUnit.TheVariants as U;
ghost use Rattle.all_matches.specs.Positions.{end_in, start_in};
ghost use Rattle.counted_shapes.specs.Examples.{asked};
ghost use Rattle.counted_shapes.specs.Shapes.{fit_in_window};
ghost use Rattle.place_merges.specs.Examples.{a, b};
ghost use Rattle.place_merges.specs.Spots.{spot};
ghost use Rattle.window_merges.specs.Examples.{by_threes};
ghost use Rattle.count_merges.specs.Examples.{asked_of, text};
ghost use Rattle.count_merges.specs.Groups.{asked_parts, group_spots, phrases_counted, told_hit};
ghost use Rattle.count_merges.specs.steps.Passing.{event, is_passed, next_event};

/// A hit has the numbers of its first and its last word, in whichever units these are counted.
pub fn hits_in_units()
    ensures first_word { start_in U.Words (told_hit (λ place. place) (spot 2 3)) ≡ 2 }
    ensures last_word { end_in U.Words (told_hit (λ place. place) (spot 2 3)) ≡ 4 }
    ensures one_word { end_in U.Words (told_hit (λ place. place) (spot 2 1)) ≡ 2 }
    ensures first_sentence { start_in U.Sentences (told_hit by_threes (spot 2 2)) ≡ 1 }
    ensures last_sentence { end_in U.Sentences (told_hit by_threes (spot 2 2)) ≡ 2 }
    ensures first_paragraph { start_in U.Paragraphs (told_hit by_threes (spot 5 2)) ≡ 2 }
    ensures last_paragraph { end_in U.Paragraphs (told_hit by_threes (spot 5 2)) ≡ 3 }
{}

/// `a` stands at the places 1, 4 and 6, `b` at 2, 3 and 7. Variants of another number of words don't count, and a place counts once.
pub fn spots_of_groups()
    ensures two_words { group_spots text 2 ((a ∷ b ∷ []) ∷ (a ∷ []) ∷ []) ≡ spot 1 2 ∷ spot 6 2 ∷ [] }
    ensures one_word { group_spots text 1 ((a ∷ b ∷ []) ∷ (a ∷ []) ∷ []) ≡ spot 1 1 ∷ spot 4 1 ∷ spot 6 1 ∷ [] }
    ensures once { group_spots text 1 ((a ∷ []) ∷ (a ∷ []) ∷ []) ≡ spot 1 1 ∷ spot 4 1 ∷ spot 6 1 ∷ [] }
    ensures cut_off { group_spots (record { from = 2; to = 7 }) 2 ((a ∷ b ∷ []) ∷ []) ≡ [] }
    ensures no_words { group_spots text 0 ([] ∷ []) ≡ [] }
{}

/// Variants of a phrase come in groups by their lengths, and each phrase has its own: so two at one place are two hits.
pub fn groups_of_phrases()
    ensures two_lengths { asked_parts (record { least = 1; most = None; phrases = ((a ∷ b ∷ []) ∷ (a ∷ []) ∷ (b ∷ []) ∷ []) ∷ [] })
        ≡ (1, None, (2, (a ∷ b ∷ []) ∷ []) ∷ (1, (a ∷ []) ∷ (b ∷ []) ∷ []) ∷ []) }
    ensures two_phrases { asked_parts (record { least = 0; most = Some 2; phrases = ((a ∷ []) ∷ []) ∷ ((a ∷ []) ∷ []) ∷ [] })
        ≡ (0, Some 2, (1, (a ∷ []) ∷ []) ∷ (1, (a ∷ []) ∷ []) ∷ []) }
    ensures each_spot { phrases_counted (λ place. place) text (record { least = 1; most = None; phrases = ((a ∷ []) ∷ (a ∷ b ∷ []) ∷ []) ∷ ((a ∷ []) ∷ []) ∷ [] })
        ≡ asked 1 None (map (told_hit (λ place. place)) (spot 1 1 ∷ spot 1 2 ∷ spot 4 1 ∷ spot 6 1 ∷ spot 6 2 ∷ spot 1 1 ∷ spot 4 1 ∷ spot 6 1 ∷ [])) }
{}

/// A window has passed words that have come in and gone out. Longer ones than the window go out as they come in.
pub fn windows_that_pass()
    ensures gone { event (λ place. place) 3 2 4 ≡ 7 }
    ensures come { event (λ place. place) 0 2 4 ≡ 5 }
    ensures longer { event (λ place. place) 1 3 4 ≡ 6 }
    ensures of_sentences { event by_threes 1 2 2 ≡ 2 }
    ensures last_in_the_text { next_event (λ place. place) 0 2 8 6 ≡ 7 }
    ensures past_the_text { next_event (λ place. place) 0 2 8 7 ≡ 18446744073709551615 }
    ensures no_words { next_event (λ place. place) 0 0 8 6 ≡ 18446744073709551615 }
    ensures is_gone { is_passed (λ place. place) 3 2 7 (spot 4 2) ≡ true }
    ensures is_still_there { is_passed (λ place. place) 3 2 6 (spot 4 2) ≡ false }
    ensures of_other_length { is_passed (λ place. place) 3 2 9 (spot 4 1) ≡ false }
{}

/// Two `a` and a `b` stand in a window of four words, from the fourth on, and in none of three. With no `b` there are two `a` in three words, and not
/// in four.
pub fn items_that_fit()
    ensures in_four { fit_in_window 4 U.Words (asked_of 2 None 1 ((a ∷ []) ∷ []) ∷ asked_of 1 None 1 ((b ∷ []) ∷ []) ∷ []) ≡ true }
    ensures not_in_three { fit_in_window 3 U.Words (asked_of 2 None 1 ((a ∷ []) ∷ []) ∷ asked_of 1 None 1 ((b ∷ []) ∷ []) ∷ []) ≡ false }
    ensures without_b { fit_in_window 3 U.Words (asked_of 2 None 1 ((a ∷ []) ∷ []) ∷ asked_of 0 (Some 0) 1 ((b ∷ []) ∷ []) ∷ []) ≡ true }
    ensures not_without_b { fit_in_window 4 U.Words (asked_of 2 None 1 ((a ∷ []) ∷ []) ∷ asked_of 0 (Some 0) 1 ((b ∷ []) ∷ []) ∷ []) ≡ false }
{}
