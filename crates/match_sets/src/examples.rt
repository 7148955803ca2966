//! AllMatches that satisfy alike, and numbers that tell something, by computation.
#![tactic(auto, unfolding(all_matches::specs::Ways::matches_of))]

ghost use Rattle.std.specs.Prelude.{◌≡◌, ◌++◌, ◌∷◌, [], Bool, true, false, map};
ghost use Rattle.std.specs.List.{list_all, list_any};
ghost use Rattle.ft_base.specs.declared.filter.Filter.TheVariants as F;
ghost use Rattle.ft_base.specs.declared.hit.Hit.{Hit};
ghost use Rattle.all_matches.specs.Boolean.{ft_and, satisfied, with_exclude};
ghost use Rattle.all_matches.specs.Filters.{ft_filtered};
ghost use Rattle.all_matches.specs.Hits.{match_of_hit};
ghost use Rattle.all_matches.specs.Ways.{apart, either, matches_of, negated, through_filter, together};
ghost use Rattle.match_sets.specs.Alike.{is_left};
ghost use Rattle.match_sets.specs.Examples.{hit_at, numbered, words};
ghost use Rattle.match_sets.specs.Numbers.{are_in_turn, has_numbers, is_between, keeps_turns, renumbered};
ghost use Rattle.match_sets.specs.United.{IsNumbered, IsUnited, choice_hits, is_choice, with_number};

/// A Match is left where one of the tests that belong to its includes keeps none of its excludes.
pub fn what_is_left()
    ensures by_no_test { is_left (λ includes. []) (match_of_hit (hit_at 1 1)) ≡ false }
    ensures without_excludes { is_left (λ includes. (λ hit. true) ∷ []) (match_of_hit (hit_at 1 1)) ≡ true }
    ensures with_an_exclude { is_left (λ includes. (λ hit. true) ∷ []) (with_exclude (hit_at 2 2) (match_of_hit (hit_at 1 1))) ≡ false }
    ensures by_the_second_test { is_left (λ includes. (λ hit. true) ∷ (λ hit. false) ∷ []) (with_exclude (hit_at 2 2) (match_of_hit (hit_at 1 1))) ≡ true }
{}

/// A Match that stands twice among AllMatches may go, but not an operand of And that stands there twice: of `"a" ftand "a"` each operand has a
/// hit of its own, and one hit doesn't lie in two sentences.
pub fn what_stands_twice()
    ensures once { satisfied (ft_filtered F.DifferentSentence (words 1) (matches_of (words 1) (numbered 1 (1 ∷ [])))) ≡ true }
    ensures a_match_twice { satisfied (ft_filtered F.DifferentSentence (words 1) (matches_of (words 1) (numbered 1 (1 ∷ 1 ∷ [])))) ≡ true }
    ensures an_operand_twice { satisfied (ft_filtered F.DifferentSentence (words 1)
        (ft_and (matches_of (words 1) (numbered 1 (1 ∷ []))) (matches_of (words 1) (numbered 1 (1 ∷ []))))) ≡ false }
{}

/// Hits are in turn where their phrases have different numbers, in whichever order they are given, and the new numbers stand as those did.
pub fn hits_in_turn()
    ensures as_they_were { are_in_turn (λ n. n) (hit_at 1 1) (hit_at 2 1) ≡ true }
    ensures the_greater_first { are_in_turn (λ n. n) (hit_at 2 1) (hit_at 1 1) ≡ true }
    ensures of_one_phrase { are_in_turn (λ n. n) (hit_at 1 1) (hit_at 1 2) ≡ false }
    ensures with_one_number { are_in_turn (λ n. 1) (hit_at 1 1) (hit_at 2 1) ≡ false }
    ensures two_includes { list_all (keeps_turns (λ n. 1)) (ft_and (match_of_hit (hit_at 1 1) ∷ []) (match_of_hit (hit_at 2 2) ∷ [])) ≡ false }
    ensures an_exclude_and_an_include { keeps_turns (λ n. 1) (with_exclude (hit_at 2 2) (match_of_hit (hit_at 1 1))) ≡ false }
    ensures two_excludes { keeps_turns (λ n. 1) (with_exclude (hit_at 2 2) (with_exclude (hit_at 3 3) (record { includes = []; excludes = [] }))) ≡ true }
{}

/// `ordered` needs the numbers of And's sides apart: with one number for both, `"a" ftand "b" ordered` would hold of `b a`. So a choice may be
/// united within one side alone, and a choice that has no hits lends no number to another one.
pub fn numbers_of_sides()
    ensures in_order { satisfied (matches_of (words 2) (through_filter (together (numbered 1 (1 ∷ [])) (numbered 2 (2 ∷ []))) F.Ordered)) ≡ true }
    ensures turned { satisfied (matches_of (words 2) (through_filter (together (numbered 1 (2 ∷ [])) (numbered 2 (1 ∷ []))) F.Ordered)) ≡ false }
    ensures with_one_number { satisfied (ft_filtered F.Ordered (words 2)
        (renumbered (λ n. 1) (matches_of (words 2) (together (numbered 1 (2 ∷ [])) (numbered 2 (1 ∷ [])))))) ≡ true }
    ensures an_exclude_with_one_number { satisfied (ft_filtered F.Ordered (words 2)
        (renumbered (λ n. 1) (matches_of (words 2) (together (numbered 1 (2 ∷ [])) (negated (numbered 2 (1 ∷ []))))))) ≡ false }
    ensures an_exclude_out_of_order { satisfied (matches_of (words 2)
        (through_filter (together (numbered 1 (2 ∷ [])) (negated (numbered 2 (1 ∷ [])))) F.Ordered)) ≡ true }
    ensures with_a_number_of_no_hit { satisfied (matches_of (words 2) (through_filter (together (numbered 1 (2 ∷ [])) (numbered 0 (1 ∷ []))) F.Ordered)) ≡ true }
{}

/// A number is between the first and the next where it is the first or a later one, and before the next.
pub fn numbers_between()
    ensures the_first { is_between 2 4 2 ≡ true }
    ensures the_last { is_between 2 4 3 ≡ true }
    ensures the_next { is_between 2 4 4 ≡ false }
    ensures one_before { is_between 2 4 1 ≡ false }
    ensures of_a_match { has_numbers (is_between 2 4) (with_exclude (hit_at 3 1) (match_of_hit (hit_at 2 1))) ≡ true }
    ensures of_an_exclude { has_numbers (is_between 2 4) (with_exclude (hit_at 4 1) (match_of_hit (hit_at 2 1))) ≡ false }
    ensures of_an_include { has_numbers (is_between 2 4) (with_exclude (hit_at 3 1) (match_of_hit (hit_at 1 1))) ≡ false }
{}

/// A choice of phrases has the hits of each; where And or Not stands in it, it is none.
pub fn choices_of_phrases()
    ensures of_three { is_choice (either (either (numbered 1 []) (numbered 2 [])) (numbered 3 [])) ≡ true }
    ensures with_both { is_choice (either (numbered 1 []) (together (numbered 2 []) (numbered 3 []))) ≡ false }
    ensures with_a_negated_one { is_choice (either (negated (numbered 1 [])) (numbered 2 [])) ≡ false }
    ensures their_hits { choice_hits (either (numbered 1 (3 ∷ [])) (numbered 2 (1 ∷ 3 ∷ []))) ≡ hit_at 1 3 ∷ hit_at 2 1 ∷ hit_at 2 3 ∷ [] }
    ensures under_one_number { map (with_number 1) (choice_hits (either (numbered 1 (3 ∷ [])) (numbered 2 (1 ∷ [])))) ≡ hit_at 1 3 ∷ hit_at 1 1 ∷ [] }
{}

/// The phrases of an operator are numbered in order where some number divides those of a left side from those of the right one.
pub fn numbered_operators()
    ensures side_by_side { IsNumbered 1 3 (either (numbered 1 (2 ∷ [])) (numbered 2 (1 ∷ []))) }
    ensures of_a_filter { IsNumbered 1 2 (through_filter (negated (numbered 1 (2 ∷ []))) F.Ordered) }
    ensures turned { IsNumbered 1 3 (together (numbered 2 (1 ∷ [])) (numbered 1 (1 ∷ []))) → false ≡ true }
    ensures with_one_number { IsNumbered 1 3 (apart (numbered 1 (1 ∷ [])) (numbered 1 (1 ∷ []))) → false ≡ true }
    ensures the_next { IsNumbered 1 2 (numbered 2 (1 ∷ [])) → false ≡ true }
{}

/// A choice of phrases is one phrase with the first number, which has a hit of both once; what `ftand` joins is none, and a phrase without that
/// number isn't it.
pub fn phrases_united()
    ensures a_hit_of_both { IsUnited 1 2 (either (numbered 5 (3 ∷ [])) (numbered 7 (3 ∷ []))) (numbered 1 (3 ∷ [])) }
    ensures with_another_number { IsUnited 1 2 (either (numbered 5 (3 ∷ [])) (numbered 7 (3 ∷ []))) (numbered 5 (3 ∷ [])) → false ≡ true }
    ensures without_a_hit { IsUnited 1 2 (either (numbered 5 (3 ∷ [])) (numbered 7 (4 ∷ []))) (numbered 1 (3 ∷ [])) → false ≡ true }
    ensures of_both { IsUnited 1 2 (together (numbered 5 []) (numbered 7 [])) (numbered 1 []) → false ≡ true }
{}
