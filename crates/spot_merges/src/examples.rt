//! Which spots stand at the edges of a span, and which lie within others, on small texts, by computation.
#![tactic(auto, unfolding(all_matches::specs::Ways::matches_of))]

ghost use Rattle.std.specs.Prelude.{◌≡◌, ◌∷◌, [], None, Some, true, false};
ghost use Rattle.std.specs.List.{list_any};
ghost use Rattle.ft_base.specs.declared.filter.Filter.TheVariants as F;
ghost use Rattle.all_matches.specs.Boolean.{satisfied};
ghost use Rattle.all_matches.specs.Ways.{apart, matches_of, phrase, through_filter};
ghost use Rattle.place_merges.specs.Spots.{spot};
ghost use Rattle.place_merges.specs.Examples.{a, b};
ghost use Rattle.spot_merges.specs.Apart.{some_apart};
ghost use Rattle.spot_merges.specs.Clear.{begins, has_clear_window, lies_before, some_clear};
ghost use Rattle.spot_merges.specs.Edges.{edge_place, is_at, spots_of, stands_at_edge};
ghost use Rattle.spot_merges.specs.Examples.{hit, item, without};
ghost use Rattle.spot_merges.specs.Outside.{stands_outside};
ghost use Rattle.spot_merges.specs.declared.edge.Edge.TheVariants as E;
ghost use Rattle.spot_merges.specs.declared.outside.Outside.TheVariants as O;

/// `a` stands at the places 1, 4 and 6, `b` at 2, 3 and 7.
pub fn spots_of_spans()
    ensures both { spots_of (record { from = 1; to = 5 }) ((a ∷ b ∷ []) ∷ (a ∷ []) ∷ []) ≡ spot 1 1 ∷ spot 1 2 ∷ spot 4 1 ∷ [] }
    ensures cut_off { spots_of (record { from = 2; to = 7 }) ((a ∷ b ∷ []) ∷ []) ≡ [] }
{}

/// In a text of six words the first two stand at the start, the last one at the end, and all of them are the entire content.
pub fn edges()
    ensures first { is_at E.Start item (spot 1 2) ≡ true }
    ensures second { is_at E.Start item (spot 2 1) ≡ false }
    ensures last { is_at E.End item (spot 6 1) ≡ true }
    ensures last_but_one { is_at E.End item (spot 5 1) ≡ false }
    ensures all { is_at E.Both item (spot 1 6) ≡ true }
    ensures all_but_the_last { is_at E.Both item (spot 1 5) ≡ false }
    ensures all_but_the_first { is_at E.Both item (spot 2 5) ≡ false }
{}

/// So many words have one place at an edge of the six, unless there are more of them, none, or others beside them.
pub fn places_at_edges()
    ensures first { edge_place E.Start item 2 ≡ Some 1 }
    ensures last { edge_place E.End item 2 ≡ Some 5 }
    ensures all { edge_place E.Both item 6 ≡ Some 1 }
    ensures not_all { edge_place E.Both item 5 ≡ None }
    ensures all_at_the_end { edge_place E.End item 6 ≡ Some 1 }
    ensures too_many { edge_place E.Start item 7 ≡ None }
    ensures none { edge_place E.Start item 0 ≡ None }
    ensures two_words { stands_at_edge E.Start item (a ∷ b ∷ []) ≡ true }
    ensures not_at_the_end { stands_at_edge E.End item (a ∷ b ∷ []) ≡ false }
    ensures one_word_at_the_end { stands_at_edge E.End item (a ∷ []) ≡ true }
    ensures no_word { stands_at_edge E.Start item [] ≡ false }
{}

/// A spot is covered by one that has all its words, and not by two that have them together.
pub fn spots_apart()
    ensures covered { some_apart (spot 2 1 ∷ []) (spot 1 2 ∷ []) ≡ false }
    ensures next_to_it { some_apart (spot 3 1 ∷ []) (spot 1 2 ∷ []) ≡ true }
    ensures the_same { some_apart (spot 2 2 ∷ []) (spot 2 2 ∷ []) ≡ false }
    ensures over_its_end { some_apart (spot 2 2 ∷ []) (spot 1 2 ∷ []) ≡ true }
    ensures over_its_first_word { some_apart (spot 1 2 ∷ []) (spot 2 2 ∷ []) ≡ true }
    ensures by_two { some_apart (spot 2 2 ∷ []) (spot 1 2 ∷ spot 3 2 ∷ []) ≡ true }
    ensures one_of_two { some_apart (spot 2 1 ∷ spot 4 1 ∷ []) (spot 1 2 ∷ []) ≡ true }
    ensures no_other { some_apart (spot 2 1 ∷ []) [] ≡ true }
    ensures none { some_apart [] (spot 1 2 ∷ []) ≡ false }
{}

/// The places 3 and 4 are the two before 5.
pub fn places_before()
    ensures first { lies_before 2 5 3 ≡ true }
    ensures last { lies_before 2 5 4 ≡ true }
    ensures too_early { lies_before 2 5 2 ≡ false }
    ensures too_late { lies_before 2 5 5 ≡ false }
    ensures none { lies_before 0 5 4 ≡ false }
{}

/// The place 5 has a window of so many places with none of the others where one before it or behind it, or one that lies between two of them, does.
pub fn clear_windows()
    ensures before { has_clear_window 3 (6 ∷ []) 5 ≡ true }
    ensures behind { has_clear_window 3 (4 ∷ []) 5 ≡ true }
    ensures between { has_clear_window 3 (3 ∷ 7 ∷ []) 5 ≡ true }
    ensures one_more { has_clear_window 4 (3 ∷ 7 ∷ []) 5 ≡ false }
    ensures in_any_order { has_clear_window 3 (7 ∷ 3 ∷ []) 5 ≡ true }
    ensures next_to_both { has_clear_window 2 (4 ∷ 6 ∷ []) 5 ≡ false }
    ensures alone { has_clear_window 1 (4 ∷ 6 ∷ []) 5 ≡ true }
    ensures over_the_start { has_clear_window 9 (6 ∷ []) 5 ≡ true }
    ensures at_its_place { has_clear_window 1 (5 ∷ []) 5 ≡ false }
    ensures no_word { has_clear_window 0 [] 5 ≡ false }
    ensures no_other { has_clear_window 1 [] 5 ≡ true }
{}

/// One of some places is enough.
pub fn clear_places()
    ensures second { some_clear 2 (5 ∷ 8 ∷ []) (4 ∷ 6 ∷ []) ≡ true }
    ensures neither { some_clear 2 (5 ∷ 8 ∷ []) (4 ∷ 6 ∷ 8 ∷ []) ≡ false }
    ensures none { some_clear 2 [] (4 ∷ []) ≡ false }
{}

/// A spot that another one covers may stand in a window that has none of its first words, and the other way round.
pub fn spots_outside()
    ensures places { begins (spot 1 2 ∷ spot 4 1 ∷ []) ≡ 1 ∷ 4 ∷ [] }
    ensures covered { stands_outside O.Cover (spot 2 1 ∷ []) (spot 1 2 ∷ []) ≡ false }
    ensures alone { stands_outside (O.Window 1) (spot 2 1 ∷ []) (spot 1 2 ∷ []) ≡ true }
    ensures not_covered { stands_outside O.Cover (spot 2 1 ∷ []) (spot 1 1 ∷ spot 3 1 ∷ []) ≡ true }
    ensures between { stands_outside (O.Window 2) (spot 2 1 ∷ []) (spot 1 1 ∷ spot 3 1 ∷ []) ≡ false }
{}

/// Hits under the filters and `not in`, by all their Matches: as the spots have it.
pub fn hits_at_edges_and_apart()
    ensures at_start { satisfied (matches_of item (through_filter (phrase (hit 1 2 ∷ hit 4 5 ∷ [])) F.AtStart)) ≡ true }
    ensures not_at_end { satisfied (matches_of item (through_filter (phrase (hit 1 2 ∷ hit 4 5 ∷ [])) F.AtEnd)) ≡ false }
    ensures at_end { satisfied (matches_of item (through_filter (phrase (hit 5 6 ∷ [])) F.AtEnd)) ≡ true }
    ensures entire { satisfied (matches_of item (through_filter (phrase (hit 1 6 ∷ [])) F.EntireContent)) ≡ true }
    ensures in_two_parts { satisfied (matches_of item (through_filter (phrase (hit 1 3 ∷ hit 4 6 ∷ [])) F.EntireContent)) ≡ false }
    ensures within { satisfied (matches_of item (apart (phrase (hit 2 2 ∷ [])) (phrase (hit 1 2 ∷ [])))) ≡ false }
    ensures over_the_end { satisfied (matches_of item (apart (phrase (hit 2 3 ∷ [])) (phrase (hit 1 2 ∷ [])))) ≡ true }
    ensures by_two { satisfied (matches_of item (apart (phrase (hit 2 3 ∷ [])) (phrase (hit 1 2 ∷ hit 3 4 ∷ [])))) ≡ true }
{}

/// Hits of one word under `ftand ftnot` in a window, by all their Matches: as the places have it.
pub fn hits_in_clear_windows()
    ensures between { satisfied (matches_of item (without 2 (hit 3 3 ∷ []) (hit 2 2 ∷ hit 5 5 ∷ []))) ≡ true }
    ensures one_more { satisfied (matches_of item (without 3 (hit 3 3 ∷ []) (hit 2 2 ∷ hit 5 5 ∷ []))) ≡ false }
    ensures at_its_place { satisfied (matches_of item (without 1 (hit 3 3 ∷ []) (hit 3 3 ∷ []))) ≡ false }
    ensures over_the_start { satisfied (matches_of item (without 9 (hit 3 3 ∷ []) (hit 4 4 ∷ []))) ≡ true }
    ensures one_of_two { satisfied (matches_of item (without 2 (hit 3 3 ∷ hit 5 5 ∷ []) (hit 2 2 ∷ hit 4 4 ∷ []))) ≡ true }
    ensures no_other { satisfied (matches_of item (without 2 (hit 3 3 ∷ []) [])) ≡ true }
    ensures no_word { satisfied (matches_of item (without 0 (hit 3 3 ∷ []) [])) ≡ false }
    ensures none { satisfied (matches_of item (without 2 [] (hit 2 2 ∷ []))) ≡ false }
{}
