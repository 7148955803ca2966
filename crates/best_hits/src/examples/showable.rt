//! Selections that can be shown, by computation.
#![tactic(auto, unfolding(crate::specs::Showable::can_show_in))]

ghost use Rattle.std.specs.Prelude.{◌≡◌, true, false};
ghost use Rattle.ft_base.specs.declared.filter.Filter.TheVariants as F;
ghost use Rattle.ft_base.specs.Selection.{filtered, mild_not, no_options, none, and_of, not_of, with_options};
ghost use Rattle.all_matches.specs.Examples.{but_not, twice_a, two_and, two_or, word_a, word_b};
ghost use Rattle.best_hits.specs.Showable.{can_show};

/// No `occurs` under a filter, and neither `ftnot` nor `occurs` in an `ftnot`, at any depth.
pub fn selections_to_show()
    ensures a_word { can_show word_a ≡ true }
    ensures times { can_show twice_a ≡ true }
    ensures not { can_show (not_of word_a) ≡ true }
    ensures not_not { can_show (not_of (not_of word_a)) ≡ false }
    ensures not_in_and_in_not { can_show (not_of (two_and word_a (not_of word_b))) ≡ false }
    ensures not_in_or_in_not { can_show (not_of (two_or (not_of word_b) word_a)) ≡ false }
    ensures not_in_a_filter_in_not { can_show (not_of (filtered (not_of word_a) F.Ordered)) ≡ false }
    ensures not_under_options_in_not { can_show (not_of (with_options (not_of word_a) no_options)) ≡ false }
    ensures not_in_not_in_in_not { can_show (not_of (mild_not word_a (not_of word_b))) ≡ false }
    ensures not_first_in_not_in_in_not { can_show (not_of (mild_not (not_of word_a) word_b)) ≡ false }
    ensures times_in_not { can_show (not_of (two_and word_a twice_a)) ≡ false }
    ensures a_filter_in_not { can_show (not_of (filtered (two_or word_a word_b) F.Ordered)) ≡ true }
    ensures not_in_of_words_in_not { can_show (not_of (with_options (mild_not word_a word_b) no_options)) ≡ true }
    ensures and_of_nothing_in_not { can_show (not_of (and_of none)) ≡ true }
    ensures times_in_and_in_a_filter_in_or { can_show (two_or word_a (filtered (two_and twice_a word_b) F.Ordered)) ≡ false }
    ensures times_beside_a_filter { can_show (two_and twice_a (filtered (two_and word_a word_b) F.Ordered)) ≡ true }
    ensures not_beside_not { can_show (two_and (not_of word_a) (not_of word_b)) ≡ true }
    ensures times_first_in_not_in_in_a_filter { can_show (filtered (mild_not twice_a word_b) F.Ordered) ≡ false }
    ensures times_in_not_in_a_filter { can_show (filtered (two_and word_b (not_of twice_a)) F.Ordered) ≡ false }
    ensures times_under_options_in_a_filter { can_show (filtered (with_options twice_a no_options) F.Ordered) ≡ false }
    ensures times_in_a_filter { can_show (filtered (two_and word_a twice_a) F.Ordered) ≡ false }
    ensures not_in_a_filter { can_show (filtered (but_not word_a word_b) F.Ordered) ≡ true }
    ensures not_not_in_a_filter { can_show (filtered (not_of (not_of word_a)) F.Ordered) ≡ false }
    ensures in_the_first_of_or { can_show (two_or (not_of (not_of word_a)) word_b) ≡ false }
    ensures in_the_second_of_and { can_show (two_and word_a (not_of (not_of word_b))) ≡ false }
    ensures under_options { can_show (with_options (not_of (not_of word_a)) no_options) ≡ false }
    ensures not_in_first { can_show (mild_not (not_of (not_of word_a)) word_b) ≡ false }
    ensures not_in_second { can_show (mild_not word_a (not_of (not_of word_b))) ≡ false }
    ensures not_in_of_words { can_show (mild_not word_a word_b) ≡ true }
{}
