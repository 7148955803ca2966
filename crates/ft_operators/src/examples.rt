//! Spans told in their own numbers, the includes and windows of ways, chains of filters, and where hits are sought, by
//! computation.

ghost use Rattle.std.specs.Prelude.{◌≡◌, ◌∷◌, [], length, negsuc, pos, true, false, Some, None};
ghost use Rattle.ft_base.specs.declared.filter.Filter.TheVariants as F;
ghost use Rattle.ft_base.specs.declared.range.Range.TheVariants.{AtLeast, AtMost, Exactly, FromTo};
ghost use Rattle.ft_base.specs.declared.unit.TextUnit.TheVariants.{Paragraphs, Sentences, Words};
ghost use Rattle.all_matches.specs.Filters.{choices};
ghost use Rattle.all_matches.specs.Ways.{apart, either, negated, one_hit, phrase, through_filter, together, two_ways};
ghost use Rattle.ft_operators.specs.Chains.{all_kept, clean_now, first_includes, links_from, outer_window, passes_now, way_window, window_now};
ghost use Rattle.ft_operators.specs.Bounds.{everywhere, filter_bounds, filter_reach, lies_in, no_reach, order_reach, reach_inside, round_hit, round_hits, window_reach};
ghost use Rattle.ft_operators.specs.Examples.{a, a_and_b, at, is_after, link, moved, not_a, ordered, put, round_from, span, two_from, unmoved, within};
ghost use Rattle.ft_operators.specs.Examples.{at_most, beside, between, extent, from_to, hit_of, in_sentence, in_sentences, in_words, inside, inside_few, inside_near, one_word, pair, pairs_on, two_words, words_between};
ghost use Rattle.ft_operators.specs.Extents.{extent_before, extent_behind, extent_beside, extent_inside, extent_of, extent_of_both, extent_of_either, greatest_value, in_same, lone_size, longest};
ghost use Rattle.ft_operators.specs.Extents.{no_include, one_include, size_of, small, spread, untold};
ghost use Rattle.ft_operators.specs.Course.{admitted, asked_for, course_inside, course_out, every, number_among, telling, ways_on};
ghost use Rattle.ft_operators.specs.KeptBounds.{chain_bounds, kept_bounds};
ghost use Rattle.ft_operators.specs.declared.course.Windows.TheVariants.{Each, First, Telling};
ghost use Rattle.ft_operators.specs.Ordered.{comes_in_order};
ghost use Rattle.ft_operators.specs.Starts.{hits_of, rises_to, starts_rise};
ghost use Rattle.ft_operators.specs.Walk.{at_next_way, own_span};

/// The first word of a span is its word 1.
pub fn spans()
    ensures inside { own_span (span 3 6) ≡ span 1 4 }
    ensures from_the_first { own_span (span 1 9) ≡ span 1 9 }
    ensures of_one_word { own_span (span 2 3) ≡ span 1 2 }
    ensures empty { own_span (span 4 4) ≡ span 1 1 }
{}

/// The includes are those of the first way that is left; there are none before the first way and after the last.
pub fn walks()
    ensures before { unmoved.tuple ≡ None }
    ensures at_the_first { moved.tuple ≡ Some (at 1 ∷ []) }
    ensures at_the_next { (at_next_way moved).tuple ≡ Some (at 1 ∷ at 2 ∷ []) }
    ensures after { (at_next_way (at_next_way moved)).tuple ≡ None }
    ensures after_the_end { (at_next_way (at_next_way (at_next_way moved))).rest ≡ [] }
{}

/// A chain names the innermost filter first, and each filter has the includes that stand after those of the outer ones.
pub fn chains()
    ensures without_filters { links_from (at 1 ∷ []) [] ≡ [] }
    ensures one_inside_the_other { links_from (at 1 ∷ at 2 ∷ at 3 ∷ []) (put F.Ordered (Some (two_from (pos 1))) 1 ∷ put F.AtStart None 0 ∷ [])
        ≡ link F.Ordered (Some (two_from (pos 1))) (at 2 ∷ at 3 ∷ []) ∷ link F.AtStart None (at 1 ∷ []) ∷ [] }
    ensures of_the_innermost { first_includes (link F.Ordered None (at 2 ∷ []) ∷ link F.AtStart None (at 1 ∷ []) ∷ []) ≡ at 2 ∷ [] }
    ensures of_none { first_includes [] ≡ [] }
{}

/// Only the first of the ways is asked.
pub fn first_ways()
    ensures passes { passes_now (all_kept is_after) (one_hit (at 2) ∷ a ∷ []) ≡ true }
    ensures fails { passes_now (all_kept is_after) (a ∷ one_hit (at 2) ∷ []) ≡ false }
    ensures none { passes_now (λ way. false) [] ≡ true }
    ensures all_are_kept { all_kept is_after (two_ways (one_hit (at 2)) (one_hit (at 3))) ≡ true }
    ensures one_is_not_kept { all_kept is_after a_and_b ≡ false }
    ensures clean { clean_now is_after (not_a ∷ a ∷ []) ≡ true }
    ensures not_clean { clean_now (λ hit. true) (not_a ∷ a ∷ []) ≡ false }
{}

/// The window of a way is that of the outermost filter.
pub fn windows()
    ensures of_a_hit { way_window a ≡ None }
    ensures of_two_ways { way_window (two_ways (within a (pos 1)) (within a (pos 1))) ≡ None }
    ensures of_what_was_negated { way_window not_a ≡ None }
    ensures of_two_filters { way_window (within (within a (pos 1)) (pos 0)) ≡ Some (two_from (pos 0)) }
    ensures of_another_filter { way_window (ordered (within a (pos 1))) ≡ None }
    ensures of_the_first_way { window_now (within a (pos 1) ∷ within a (pos 0) ∷ []) ≡ Some (two_from (pos 1)) }
    ensures of_no_way { window_now [] ≡ None }
{}

/// Where no filter stands outermost there is no window.
pub fn outermost_windows()
    ensures of_a_phrase { outer_window (phrase []) (within a (pos 1) ∷ []) ≡ None }
    ensures of_a_choice { outer_window (either (phrase []) (phrase [])) (within a (pos 1) ∷ []) ≡ None }
    ensures of_both { outer_window (together (phrase []) (phrase [])) (within a (pos 1) ∷ []) ≡ None }
    ensures of_mild_not { outer_window (apart (phrase []) (phrase [])) (within a (pos 1) ∷ []) ≡ None }
    ensures of_negated { outer_window (negated (phrase [])) (within a (pos 1) ∷ []) ≡ None }
    ensures of_a_filter { outer_window (through_filter (phrase []) F.Ordered) (within a (pos 1) ∷ []) ≡ Some (two_from (pos 1)) }
{}

/// Of the windows that begin before the first word, the first one stands for all of them.
pub fn telling_windows()
    ensures some_before { telling (choices (F.Window 5 Words) (at 2 ∷ at 3 ∷ []))
        ≡ round_from 5 (negsuc 0) ∷ round_from 5 (pos 1) ∷ round_from 5 (pos 2) ∷ [] }
    ensures one_at_zero { telling (choices (F.Window 2 Words) (at 1 ∷ [])) ≡ round_from 2 (pos 0) ∷ round_from 2 (pos 1) ∷ [] }
    ensures one_after_another { telling (choices (F.Window 3 Words) (at 1 ∷ [])) ≡ round_from 3 (negsuc 0) ∷ round_from 3 (pos 1) ∷ [] }
    ensures each_with_a_word { telling (choices (F.Window 2 Words) (at 2 ∷ [])) ≡ round_from 2 (pos 1) ∷ round_from 2 (pos 2) ∷ [] }
    ensures no_window { telling (None ∷ []) ≡ None ∷ [] }
    ensures none { telling [] ≡ [] }
{}

/// The windows of a million words round two of an item of five: there are as many as stand round them, and three tell.
pub fn windows_asked_for()
    ensures of_a_million { length (asked_for Telling (choices (F.Window 1000000 Words) (at 2 ∷ at 4 ∷ []))) ≡ 3 }
    ensures each { asked_for Each (choices (F.Window 3 Words) (at 1 ∷ [])) ≡ choices (F.Window 3 Words) (at 1 ∷ []) }
    ensures first { asked_for First (choices (F.Window 3 Words) (at 1 ∷ [])) ≡ round_from 3 (negsuc 0) ∷ [] }
    ensures first_of_none { asked_for First [] ≡ [] }
    ensures number_of_the_first { number_among Telling 5 3 0 ≡ 0 }
    ensures number_of_the_second { number_among Telling 5 3 1 ≡ 2 }
{}

/// A hit lies in bounds that it begins and ends in; a hit of a later phrase begins late enough.
pub fn hits_in_bounds()
    ensures at_the_first { lies_in (words_between 3 8) (at 3) ≡ true }
    ensures before_the_first { lies_in (words_between 3 8) (at 2) ≡ false }
    ensures at_the_last { lies_in (words_between 3 8) (at 7) ≡ true }
    ensures behind_the_last { lies_in (words_between 3 8) (at 8) ≡ false }
    ensures begins_inside { lies_in (words_between 3 8) (from_to 6 8) ≡ false }
    ensures ends_inside { lies_in (words_between 3 8) (from_to 2 4) ≡ false }
    ensures in_another_sentence { lies_in (record everywhere { sentences = between 2 3 }) (at 5) ≡ false }
    ensures in_another_paragraph { lies_in (record everywhere { paragraphs = between 2 3 }) (at 5) ≡ false }
    ensures of_a_later_phrase { lies_in (record everywhere { order = record { query = 1; from = 5 } }) (hit_of 2 4) ≡ false }
    ensures of_a_later_phrase_there { lies_in (record everywhere { order = record { query = 1; from = 5 } }) (hit_of 2 5) ≡ true }
    ensures of_that_phrase { lies_in (record everywhere { order = record { query = 1; from = 5 } }) (hit_of 1 4) ≡ true }
{}

/// Beside a hit there is room for as many words as a window has that begins or ends with it.
pub fn bounds_beside_hits()
    ensures of_three_words { round_hit (window_reach 3 Words) everywhere (at 5) ≡ words_between 3 8 }
    ensures at_the_start { round_hit (window_reach 3 Words) everywhere (at 1) ≡ words_between 0 4 }
    ensures beside_a_long_one { round_hit (window_reach 3 Words) everywhere (from_to 5 6) ≡ words_between 4 8 }
    ensures beside_two { round_hits (window_reach 4 Words) everywhere (at 4 ∷ at 6 ∷ []) ≡ words_between 3 8 }
    ensures beside_none { round_hits (window_reach 4 Words) everywhere [] ≡ everywhere }
    ensures no_wider { round_hit (window_reach 3 Words) (words_between 4 7) (at 5) ≡ words_between 4 7 }
    ensures in_its_sentence { round_hit (window_reach 1 Sentences) everywhere (at 5) ≡ record everywhere { sentences = between 1 2 } }
    ensures in_its_paragraph { round_hit (window_reach 1 Paragraphs) everywhere (at 5) ≡ record everywhere { paragraphs = between 1 2 } }
    ensures in_order { round_hits order_reach everywhere (hit_of 2 7 ∷ hit_of 3 4 ∷ []) ≡ record everywhere { order = record { query = 3; from = 7 } } }
    ensures nothing_said { round_hit no_reach everywhere (at 5) ≡ everywhere }
{}

/// A window says what it needs, whatever stands round it; a scope and an order say it besides what stands round them.
pub fn filters_on_every_two()
    ensures window { filter_reach untold (F.Window 4 Words) order_reach ≡ window_reach 4 Words }
    ensures distance { filter_reach (in_words (extent 3 1)) (at_most 2) order_reach ≡ window_reach 7 Words }
    ensures distance_without_an_extent { filter_reach untold (at_most 2) order_reach ≡ no_reach }
    ensures distance_in_sentences { filter_reach (in_sentences (extent 3 1)) (F.Distance (AtMost 2) Sentences) order_reach ≡ window_reach 7 Sentences }
    ensures distance_in_another_unit { filter_reach (in_sentences (extent 3 1)) (at_most 2) order_reach ≡ no_reach }
    ensures distance_in_paragraphs { filter_reach (record untold { paragraphs = extent 2 1 }) (F.Distance (Exactly 4) Paragraphs) no_reach ≡ window_reach 6 Paragraphs }
    ensures scope { filter_reach untold F.SameSentence (window_reach 4 Words) ≡ record (window_reach 4 Words) { sentences = Some 1 } }
    ensures scope_in_a_window { filter_reach untold F.SameParagraph (window_reach 5 Paragraphs) ≡ window_reach 1 Paragraphs }
    ensures order { filter_reach untold F.Ordered (window_reach 4 Words) ≡ record (window_reach 4 Words) { ordered = true } }
    ensures start { filter_reach untold F.AtStart (window_reach 4 Words) ≡ window_reach 4 Words }
    ensures joined { filter_bounds (F.Window 4 Words) (record (words_between 3 8) { order = record { query = 1; from = 5 } }) ≡ words_between 3 8 }
    ensures not_joined { filter_bounds F.SameSentence (record (words_between 3 8) { order = record { query = 1; from = 5 } })
        ≡ record (words_between 3 8) { order = record { query = 1; from = 5 } } }
    ensures where_each_window_counts { reach_inside Each untold (F.Window 4 Words) no_reach ≡ no_reach }
    ensures where_it_does_not { reach_inside Telling untold (F.Window 4 Words) no_reach ≡ window_reach 4 Words }
{}

/// Inside a window those ways are gone through whose hits have room in one; inside `ordered`, those in order.
pub fn ways_in_bounds()
    ensures in_a_window { pairs_on (inside (F.Window 2 Words)) ≡ pair 1 2 ∷ pair 5 4 ∷ [] }
    ensures at_a_distance { pairs_on (inside_few (at_most 1)) ≡ pair 1 2 ∷ pair 5 4 ∷ [] }
    ensures at_a_longer_one { pairs_on (inside_few (at_most 2)) ≡ pair 1 2 ∷ pair 1 4 ∷ pair 5 2 ∷ pair 5 4 ∷ [] }
    ensures at_a_distance_in_sentences { ways_on inside_near (together (phrase (in_sentence 1 1 ∷ in_sentence 9 7 ∷ [])) (phrase (in_sentence 4 3 ∷ [])))
        ≡ two_ways (one_hit (in_sentence 1 1)) (one_hit (in_sentence 4 3)) ∷ [] }
    ensures in_order { pairs_on (inside F.Ordered) ≡ pair 1 2 ∷ pair 1 4 ∷ [] }
    ensures anywhere { pairs_on (inside F.AtStart) ≡ pair 1 2 ∷ pair 1 4 ∷ pair 5 2 ∷ pair 5 4 ∷ [] }
    ensures each { pairs_on (every (span 1 9)) ≡ pair 1 2 ∷ pair 1 4 ∷ pair 5 2 ∷ pair 5 4 ∷ [] }
{}

/// Includes with so much between neighbours spread over their own words and those between, or their sentences or paragraphs.
pub fn sizes_at_distances()
    ensures of_three { size_of 3 2 4 ≡ 14 }
    ensures of_one { size_of 1 2 4 ≡ 2 }
    ensures of_none { size_of 0 2 4 ≡ 0 }
    ensures exactly { greatest_value (Exactly 3) ≡ Some 3 }
    ensures at_least { greatest_value (AtLeast 3) ≡ None }
    ensures from_to { greatest_value (FromTo 1 4) ≡ Some 4 }
    ensures at_most { greatest_value (AtMost 3) ≡ Some 3 }
    ensures in_the_same_unit { in_same Sentences Sentences (Some 3) ≡ Some 3 }
    ensures in_another_unit { in_same Sentences Words (Some 3) ≡ None }
    ensures known { spread (extent 2 1) (Some 3) ≡ Some 5 }
    ensures unlimited { spread (extent 2 1) None ≡ None }
    ensures of_unknown_includes { spread None (Some 3) ≡ None }
    ensures below_two_to_the_32 { small 4294967295 ≡ Some 4294967295 }
    ensures no_further { small 4294967296 ≡ None }
{}

/// How many includes ways have, and how large the largest of them is: a window and a distance leave one of their own size, in their unit.
pub fn extents()
    ensures longest_hit { longest Words (at 4 ∷ from_to 1 3 ∷ at 5 ∷ []) ≡ 3 }
    ensures of_no_hit { longest Words [] ≡ 0 }
    ensures of_a_phrase { extent_of Words two_words ≡ extent 1 2 }
    ensures of_a_choice { extent_of Words (either two_words (together one_word one_word)) ≡ extent 2 2 }
    ensures of_both { extent_of Words (together two_words one_word) ≡ extent 2 2 }
    ensures with_more_on_the_right { extent_of_both (extent 1 1) (extent 2 3) ≡ extent 3 3 }
    ensures of_mild_not { extent_of Words (apart one_word two_words) ≡ extent 1 1 }
    ensures of_negated { extent_of Words (negated two_words) ≡ extent 0 0 }
    ensures of_a_distance { extent_of Words (through_filter (together two_words one_word) (at_most 3)) ≡ extent 1 7 }
    ensures of_a_distance_without_end { extent_of Words (through_filter one_word (F.Distance (AtLeast 3) Words)) ≡ None }
    ensures of_a_window { extent_behind Words (F.Window 9 Words) None ≡ extent 1 9 }
    ensures of_a_window_of_sentences { extent_behind Words (F.Window 9 Sentences) (extent 2 1) ≡ None }
    ensures in_sentences { extent_behind Sentences (F.Window 9 Sentences) (extent 2 1) ≡ extent 1 9 }
    ensures in_paragraphs { longest Paragraphs (record (at 4) { para_to = 3 } ∷ at 5 ∷ []) ≡ 3 }
    ensures of_another_filter { extent_behind Words F.Ordered (extent 2 1) ≡ extent 2 1 }
    ensures of_an_unknown_side { extent_of_either (extent 2 1) None ≡ None }
    ensures with_an_unknown_side { extent_of_both None (extent 2 1) ≡ None }
    ensures of_unknown_words { one_include None ≡ None }
    ensures of_too_many { extent_of_both (extent 4294967295 1) (extent 1 1) ≡ None }
{}

/// What ways have before distances in the unit that are limited; there alone it matters.
pub fn extents_before_distances()
    ensures before_one { extent_inside Words (through_filter (together two_words one_word) (at_most 3)) ≡ extent 2 2 }
    ensures without_one { extent_inside Words (through_filter (together two_words one_word) F.Ordered) ≡ extent 0 0 }
    ensures before_one_without_end { extent_before Words (F.Distance (AtLeast 3) Words) (extent 2 2) ≡ no_include }
    ensures before_one_in_sentences { extent_before Words (F.Distance (AtMost 3) Sentences) None ≡ no_include }
    ensures where_sentences_are_asked_for { extent_before Sentences (F.Distance (AtMost 3) Sentences) (extent 2 2) ≡ extent 2 2 }
    ensures before_two { extent_inside Words (through_filter (together one_word (through_filter (together two_words one_word) (at_most 3))) (at_most 1)) ≡ extent 2 7 }
    ensures on_sides_of_mild_not { extent_inside Words (apart (through_filter (together one_word one_word) (at_most 1)) (through_filter two_words (at_most 3))) ≡ extent 2 2 }
    ensures on_both_sides { extent_inside Words (together (through_filter two_words (at_most 3)) (through_filter (together one_word one_word) (at_most 1))) ≡ extent 2 2 }
    ensures on_either_side { extent_inside Words (either (through_filter two_words (at_most 3)) (through_filter (together one_word one_word) (at_most 1))) ≡ extent 2 2 }
    ensures before_a_window { extent_before Words (F.Window 2 Words) (extent 2 2) ≡ no_include }
    ensures in_what_is_negated { extent_inside Words (negated (through_filter one_word (at_most 1))) ≡ extent 1 1 }
{}

/// What ways of the right sides of mild nots have; where that is no more than one include, it tells where one lies that covers
/// hits of the left side.
pub fn right_sides()
    ensures of_a_mild_not { extent_beside Words (apart (together one_word one_word) two_words) ≡ extent 1 2 }
    ensures of_none { extent_beside Words (together one_word two_words) ≡ extent 0 0 }
    ensures on_either_side { extent_beside Words (either (apart one_word two_words) (apart one_word (together one_word one_word))) ≡ extent 2 2 }
    ensures on_both_sides { extent_beside Words (together (apart one_word two_words) (apart one_word (together one_word one_word))) ≡ extent 2 2 }
    ensures of_one_on_the_left { extent_beside Words (apart (apart one_word two_words) one_word) ≡ extent 1 2 }
    ensures of_one_on_the_right { extent_beside Words (apart one_word (apart one_word two_words)) ≡ extent 1 2 }
    ensures through_a_filter { extent_beside Words (through_filter (apart one_word two_words) F.Ordered) ≡ extent 1 2 }
    ensures in_what_is_negated { extent_beside Words (negated (apart one_word two_words)) ≡ extent 1 2 }
    ensures size_of_one { lone_size (extent 1 2) ≡ Some 2 }
    ensures of_two_includes { lone_size (extent 2 2) ≡ None }
    ensures unknown { lone_size None ≡ None }
    ensures round_one { (course_out (beside 3) (from_to 5 6 ∷ [])).bounds ≡ words_between 4 8 }
    ensures round_two { (course_out (beside 3) (at 5 ∷ at 6 ∷ [])).bounds ≡ words_between 4 8 }
    ensures round_one_without_words { (course_out (beside 3) (from_to 5 4 ∷ [])).bounds ≡ everywhere }
    ensures round_none { (course_out (beside 3) []).bounds ≡ everywhere }
    ensures where_nothing_is_known { (course_out (every (span 1 9)) (at 5 ∷ [])).bounds ≡ everywhere }
    ensures out_of_a_window { (course_out (course_inside (F.Window 2 Words) (beside 3)) (at 5 ∷ [])).reach ≡ no_reach }
{}

/// Hits begin in order where of each two the one that begins no later in words begins in no later sentence.
pub fn starts_in_order()
    ensures one_after_another { starts_rise Sentences (in_sentence 1 1 ∷ in_sentence 2 1 ∷ in_sentence 3 2 ∷ []) ≡ true }
    ensures listed_backwards { starts_rise Sentences (in_sentence 3 2 ∷ in_sentence 1 1 ∷ []) ≡ true }
    ensures in_an_earlier_sentence { starts_rise Sentences (in_sentence 1 2 ∷ in_sentence 3 1 ∷ []) ≡ false }
    ensures at_one_word_in_two { starts_rise Sentences (in_sentence 3 1 ∷ in_sentence 3 2 ∷ []) ≡ false }
    ensures in_paragraphs { starts_rise Paragraphs (in_sentence 1 2 ∷ in_sentence 3 1 ∷ []) ≡ true }
    ensures two { rises_to Sentences (in_sentence 3 2) (in_sentence 1 1) ≡ true }
    ensures of_each_phrase { hits_of (together two_words (through_filter (negated (phrase (at 5 ∷ []))) F.Ordered)) ≡ from_to 1 2 ∷ at 4 ∷ at 5 ∷ [] }
    ensures of_either_side { hits_of (apart (either (phrase (at 1 ∷ [])) (phrase (at 2 ∷ []))) (phrase (at 3 ∷ []))) ≡ at 1 ∷ at 2 ∷ at 3 ∷ [] }
{}

/// Hits of the left side that stand out of each way are those of a mild not, and all are where no way has a hit.
pub fn ways_that_stand_out()
    ensures one_covers { admitted (a ∷ one_hit (at 5) ∷ []) (at 5 ∷ []) ≡ false }
    ensures none_covers { admitted (a ∷ one_hit (at 4) ∷ []) (at 5 ∷ []) ≡ true }
    ensures one_covers_half { admitted (one_hit (at 5) ∷ []) (from_to 5 6 ∷ []) ≡ true }
    ensures no_way { admitted [] (at 5 ∷ []) ≡ true }
    ensures no_word_and_a_hit { admitted (a ∷ []) [] ≡ false }
    ensures no_word_and_no_hit { admitted (not_a ∷ []) [] ≡ true }
    ensures on_a_course { ways_on (beside 1) (apart two_words one_word) ≡ one_hit (from_to 1 2) ∷ [] }
    ensures on_each_course { ways_on (every (span 1 9)) (apart two_words one_word) ≡ one_hit (from_to 1 2) ∷ [] }
{}

/// Excludes that are kept lie in the chosen window, in the sentence or paragraph of the includes, and behind them in order.
pub fn bounds_of_excludes()
    ensures of_a_window { kept_bounds (F.Window 3 Words) (at 5 ∷ []) (round_from 3 (pos 4)) everywhere ≡ words_between 4 7 }
    ensures before_the_text { kept_bounds (F.Window 3 Words) (at 1 ∷ []) (round_from 3 (negsuc 0)) everywhere ≡ words_between 0 2 }
    ensures no_wider { kept_bounds (F.Window 3 Words) (at 5 ∷ []) (round_from 3 (pos 4)) (words_between 5 9) ≡ words_between 5 7 }
    ensures of_a_sentence { kept_bounds F.SameSentence (at 5 ∷ at 6 ∷ []) None everywhere ≡ record everywhere { sentences = between 1 2 } }
    ensures of_a_paragraph { kept_bounds F.SameParagraph (at 5 ∷ []) None everywhere ≡ record everywhere { paragraphs = between 1 2 } }
    ensures without_includes { kept_bounds F.SameSentence [] None everywhere ≡ everywhere }
    ensures in_order { kept_bounds F.Ordered (at 5 ∷ []) None everywhere ≡ record everywhere { order = record { query = 5; from = 5 } } }
    ensures of_a_distance { kept_bounds (F.Distance (Exactly 3) Words) (at 5 ∷ []) None (words_between 4 7) ≡ words_between 4 7 }
    ensures of_two_filters { chain_bounds (link F.SameSentence None (at 5 ∷ []) ∷ link (F.Window 3 Words) (round_from 3 (pos 4)) (at 5 ∷ []) ∷ []) everywhere
        ≡ record (words_between 4 7) { sentences = between 1 2 } }
{}

/// Ways come in the order of their includes where one hit of each of some phrases is chosen, whose hits rise, and no filter joins them.
pub fn orders()
    ensures rising { comes_in_order (phrase (at 1 ∷ at 2 ∷ [])) ≡ true }
    ensures twice_at_a_place { comes_in_order (phrase (at 1 ∷ at 1 ∷ [])) ≡ false }
    ensures falling { comes_in_order (phrase (at 1 ∷ at 3 ∷ at 2 ∷ [])) ≡ false }
    ensures both_sides { comes_in_order (together (phrase (at 2 ∷ [])) (phrase (at 1 ∷ []))) ≡ true }
    ensures one_side_falls { comes_in_order (together (phrase (at 1 ∷ [])) (phrase (at 2 ∷ at 1 ∷ []))) ≡ false }
    ensures other_side_falls { comes_in_order (together (phrase (at 2 ∷ at 1 ∷ [])) (phrase (at 1 ∷ []))) ≡ false }
    ensures one_or_the_other { comes_in_order (either (phrase (at 1 ∷ [])) (phrase (at 2 ∷ []))) ≡ false }
    ensures standing_out { comes_in_order (apart (phrase (at 1 ∷ [])) (either (phrase []) (phrase []))) ≡ true }
    ensures not_there { comes_in_order (negated (either (phrase []) (phrase []))) ≡ true }
    ensures behind_order { comes_in_order (through_filter (phrase (at 1 ∷ [])) F.Ordered) ≡ true }
    ensures behind_a_window { comes_in_order (through_filter (phrase (at 1 ∷ [])) (F.Window 2 Words)) ≡ false }
    ensures behind_a_distance { comes_in_order (through_filter (phrase (at 1 ∷ [])) (F.Distance (AtMost 2) Words)) ≡ false }
{}
