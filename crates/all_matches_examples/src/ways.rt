//! The ways of small selections whose phrases have been found, by computation.
#![tactic(auto, unfolding(all_matches::specs::Ways::ways_of, all_matches::specs::Ways::matches_of))]

ghost use Rattle.std.specs.Prelude.{◌≡◌, ◌==◌, ◌∷◌, [], true, false, None};
ghost use Rattle.ft_base.specs.declared.filter.Filter.TheVariants as F;
ghost use Rattle.ft_base.specs.HitExamples.{word};
ghost use Rattle.all_matches.specs.Chain.{kept_by};
ghost use Rattle.all_matches.specs.Examples.{in_sentences, span};
ghost use Rattle.all_matches.specs.Hits.{match_of_hit};
ghost use Rattle.all_matches.specs.Ways.{phrase, either, together, apart, negated, through_filter, matches_of, ways_of};
ghost use Rattle.all_matches.specs.Ways.{one_hit, two_ways, turned_about, by_filter, way_includes, after_filter, made};
ghost use Rattle.all_matches.specs.Ways.{clean_under, without_negation, is_plain, is_bare, is_good};

/// A way takes one hit of each phrase that it needs, and one side of each Or.
pub fn ways_through_operators()
    ensures of_either { ways_of (span 1 4) (either (phrase (word 2 ∷ [])) (phrase (word 1 ∷ []))) ≡ one_hit (word 2) ∷ one_hit (word 1) ∷ [] }
    ensures of_both { ways_of (span 1 4) (together (phrase (word 3 ∷ [])) (phrase (word 1 ∷ word 2 ∷ [])))
        ≡ two_ways (one_hit (word 3)) (one_hit (word 1)) ∷ two_ways (one_hit (word 3)) (one_hit (word 2)) ∷ [] }
    ensures of_a_negation { ways_of (span 1 4) (negated (phrase (word 1 ∷ word 2 ∷ [])))
        ≡ turned_about (match_of_hit (word 1) ∷ match_of_hit (word 2) ∷ []) ∷ [] }
    ensures through_a_filter { ways_of (span 1 4) (through_filter (phrase (word 1 ∷ word 2 ∷ [])) F.AtStart)
        ≡ by_filter (one_hit (word 1)) F.AtStart None ∷ [] }
{}

/// Of `not in` a way of the left side stands out of each way of the right side, unless no way there has an include.
pub fn ways_that_stand_out()
    ensures of_one { ways_of (span 1 4) (apart (phrase (word 1 ∷ word 2 ∷ [])) (phrase (word 2 ∷ []))) ≡ one_hit (word 1) ∷ [] }
    ensures of_each { ways_of (span 1 4) (apart (phrase (word 1 ∷ word 2 ∷ [])) (phrase (word 1 ∷ word 2 ∷ []))) ≡ [] }
    ensures where_one_has_no_include { ways_of (span 1 4) (apart (phrase (word 1 ∷ word 2 ∷ [])) (either (phrase (word 2 ∷ [])) (negated (phrase []))))
        ≡ one_hit (word 1) ∷ [] }
    ensures without_an_include { ways_of (span 1 4) (apart (negated (phrase (word 1 ∷ []))) (phrase (word 2 ∷ []))) ≡ [] }
    ensures where_none_has_an_include { ways_of (span 1 4) (apart (negated (phrase (word 1 ∷ []))) (negated (phrase (word 2 ∷ []))))
        ≡ turned_about (match_of_hit (word 1) ∷ []) ∷ [] }
    ensures as_matches { matches_of (span 1 4) (apart (phrase (word 1 ∷ word 2 ∷ [])) (phrase (word 2 ∷ []))) ≡ match_of_hit (word 1) ∷ [] }
{}

/// The Matches that are made in a way have the includes of its parts, from left to right.
pub fn matches_of_ways()
    ensures includes { way_includes (two_ways (one_hit (word 2)) (one_hit (word 1))) ≡ word 2 ∷ word 1 ∷ [] }
    ensures of_two_hits { made (two_ways (one_hit (word 2)) (one_hit (word 1))) ≡ record { includes = word 2 ∷ word 1 ∷ []; excludes = [] } ∷ [] }
    ensures of_a_negation { made (two_ways (one_hit (word 1)) (turned_about (match_of_hit (word 2) ∷ [])))
        ≡ record { includes = word 1 ∷ []; excludes = word 2 ∷ [] } ∷ [] }
    ensures after_a_filter { after_filter F.SameSentence (word 1 ∷ []) None
        (record { includes = word 1 ∷ []; excludes = word 2 ∷ in_sentences 2 2 (word 3) ∷ [] })
        ≡ record { includes = word 1 ∷ []; excludes = word 2 ∷ [] } }
{}

/// The Matches of one side stand before those of the other, or each is joined with each.
pub fn matches_of_operators()
    ensures of_either { matches_of (span 1 4) (either (phrase (word 2 ∷ [])) (phrase (word 1 ∷ []))) ≡ match_of_hit (word 2) ∷ match_of_hit (word 1) ∷ [] }
    ensures of_both { matches_of (span 1 4) (together (phrase (word 2 ∷ [])) (phrase (word 1 ∷ [])))
        ≡ record { includes = word 2 ∷ word 1 ∷ []; excludes = [] } ∷ [] }
{}

/// A way is clean where of each Match of a negated selection some include isn't kept.
pub fn clean_ways()
    ensures a_hit { clean_under (λ hit. true) (one_hit (word 1)) ≡ true }
    ensures a_negation_on_the_left { clean_under (λ hit. true) (two_ways (turned_about (match_of_hit (word 1) ∷ [])) (one_hit (word 2))) ≡ false }
    ensures a_negation_on_the_right { clean_under (λ hit. true) (two_ways (one_hit (word 2)) (turned_about (match_of_hit (word 1) ∷ []))) ≡ false }
    ensures no_hit_is_kept { clean_under (λ hit. false) (turned_about (match_of_hit (word 1) ∷ [])) ≡ true }
    ensures of_each_match { clean_under (λ hit. hit.from == 1) (turned_about (match_of_hit (word 1) ∷ match_of_hit (word 2) ∷ [])) ≡ false }
    ensures of_a_match_some_hit { clean_under (λ hit. hit.from == 1) (turned_about (record { includes = word 1 ∷ word 2 ∷ []; excludes = [] } ∷ [])) ≡ true }
    ensures kept_by_the_filter_and_outside { clean_under (λ hit. true)
        (by_filter (two_ways (one_hit (word 1)) (turned_about (match_of_hit (word 2) ∷ []))) F.SameSentence None) ≡ false }
    ensures kept_by_the_filter_alone { clean_under (λ hit. false)
        (by_filter (two_ways (one_hit (word 1)) (turned_about (match_of_hit (word 2) ∷ []))) F.SameSentence None) ≡ true }
    ensures kept_outside_alone { clean_under (λ hit. true)
        (by_filter (two_ways (one_hit (word 1)) (turned_about (match_of_hit (in_sentences 2 2 (word 2)) ∷ []))) F.SameSentence None) ≡ true }
{}

/// An exclude is kept by a chain of filters where each keeps it.
pub fn hits_kept_by_chains()
    ensures no_filter { kept_by [] (word 2) ≡ true }
    ensures both { kept_by (record { kind = F.SameSentence; includes = word 1 ∷ []; choice = None } ∷ record { kind = F.AtStart; includes = []; choice = None } ∷ [])
        (word 2) ≡ true }
    ensures not_the_first { kept_by
        (record { kind = F.DifferentSentence; includes = word 1 ∷ []; choice = None } ∷ record { kind = F.AtStart; includes = []; choice = None } ∷ [])
        (word 2) ≡ false }
    ensures not_the_last { kept_by
        (record { kind = F.AtStart; includes = []; choice = None } ∷ record { kind = F.DifferentSentence; includes = word 1 ∷ []; choice = None } ∷ [])
        (word 2) ≡ false }
{}

/// No negated selection stands anywhere in an operator.
pub fn operators_without_negation()
    ensures a_phrase { without_negation (phrase []) ≡ true }
    ensures a_negation { without_negation (negated (phrase [])) ≡ false }
    ensures in_neither_side { without_negation (either (phrase []) (phrase [])) ≡ true }
    ensures on_the_left { without_negation (either (negated (phrase [])) (phrase [])) ≡ false }
    ensures on_the_right { without_negation (either (phrase []) (negated (phrase []))) ≡ false }
    ensures left_of_both { without_negation (together (negated (phrase [])) (phrase [])) ≡ false }
    ensures right_of_both { without_negation (together (phrase []) (negated (phrase []))) ≡ false }
    ensures left_of_mild_not { without_negation (apart (negated (phrase [])) (phrase [])) ≡ false }
    ensures right_of_mild_not { without_negation (apart (phrase []) (negated (phrase []))) ≡ false }
    ensures under_a_filter { without_negation (through_filter (negated (phrase [])) F.AtStart) ≡ false }
{}

/// A negated selection stands in no other, and on neither side of `not in`.
pub fn plain_operators()
    ensures a_phrase { is_plain (phrase []) ≡ true }
    ensures a_negation { is_plain (negated (phrase [])) ≡ true }
    ensures two_negations { is_plain (negated (negated (phrase []))) ≡ false }
    ensures on_the_left { is_plain (either (negated (negated (phrase []))) (phrase [])) ≡ false }
    ensures on_the_right { is_plain (either (phrase []) (negated (negated (phrase [])))) ≡ false }
    ensures left_of_both { is_plain (together (negated (negated (phrase []))) (phrase [])) ≡ false }
    ensures right_of_both { is_plain (together (phrase []) (negated (negated (phrase [])))) ≡ false }
    ensures left_of_mild_not { is_plain (apart (negated (phrase [])) (phrase [])) ≡ false }
    ensures right_of_mild_not { is_plain (apart (phrase []) (negated (phrase []))) ≡ false }
    ensures under_a_filter { is_plain (through_filter (negated (negated (phrase []))) F.AtStart) ≡ false }
{}

/// A way is bare where it passes no negated selection, and good where the Matches of those that it passes have no excludes.
pub fn bare_and_good_ways()
    ensures a_hit { is_bare (one_hit (word 1)) ≡ true }
    ensures a_negation { is_bare (turned_about []) ≡ false }
    ensures on_the_left { is_bare (two_ways (turned_about []) (one_hit (word 1))) ≡ false }
    ensures on_the_right { is_bare (two_ways (one_hit (word 1)) (turned_about [])) ≡ false }
    ensures good_hit { is_good (one_hit (word 1)) ≡ true }
    ensures good_negation { is_good (turned_about (match_of_hit (word 1) ∷ [])) ≡ true }
    ensures some_exclude { is_good (turned_about (match_of_hit (word 1) ∷ record { includes = []; excludes = word 2 ∷ [] } ∷ [])) ≡ false }
    ensures an_exclude_on_the_left { is_good (two_ways (turned_about (record { includes = []; excludes = word 2 ∷ [] } ∷ [])) (one_hit (word 1))) ≡ false }
    ensures an_exclude_on_the_right { is_good (two_ways (one_hit (word 1)) (turned_about (record { includes = []; excludes = word 2 ∷ [] } ∷ []))) ≡ false }
{}
