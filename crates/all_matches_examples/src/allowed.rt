//! Where `ftnot` and `occurs` may stand, on small selections, by computation.
#![tactic(auto, unfolding(
// where they may stand in a selection
all_matches::specs::Allowed::is_allowed,
// and under a filter or in `not in`
all_matches::specs::Allowed::without_times, all_matches::specs::Allowed::without_not, all_matches::specs::Allowed::has_plain_nots))]

ghost use Rattle.std.specs.Prelude.{◌≡◌, false};
ghost use Rattle.ft_base.specs.declared.filter.Filter.TheVariants as F;
ghost use Rattle.ft_base.specs.Selection.{no_options, and_of, filtered, mild_not, none, not_of, with_options};
ghost use Rattle.all_matches.specs.Allowed.{is_allowed};
ghost use Rattle.all_matches.specs.Examples.{two_and, two_or, word_a, word_b, twice_a};

/// Under a filter `ftnot` doesn't stand in another one, wherever the filter stands.
pub fn nots_under_inner_filters()
    ensures in_one_of_both { is_allowed (two_and word_a (filtered (not_of (not_of word_b)) F.Ordered)) ≡ false }
    ensures in_not { is_allowed (not_of (filtered (not_of (not_of word_a)) F.Ordered)) ≡ false }
    ensures in_options { is_allowed (with_options (filtered (not_of (not_of word_a)) F.Ordered) no_options) ≡ false }
{}

/// Nor where the two stand deeper under the filter.
pub fn nots_deep_under_filters()
    ensures in_the_first_operand { is_allowed (filtered (two_and (not_of (not_of word_a)) word_b) F.Ordered) ≡ false }
    ensures in_a_later_operand { is_allowed (filtered (two_and word_a (not_of (not_of word_b))) F.Ordered) ≡ false }
    ensures in_a_choice { is_allowed (filtered (two_or word_a (not_of (not_of word_b))) F.Ordered) ≡ false }
    ensures in_another_filter { is_allowed (filtered (filtered (not_of (not_of word_a)) F.Ordered) F.AtStart) ≡ false }
    ensures after_options { is_allowed (filtered (not_of (with_options (not_of word_a) no_options)) F.Ordered) ≡ false }
    ensures on_the_left_of_mild_not { is_allowed (filtered (not_of (mild_not (not_of word_a) word_b)) F.Ordered) ≡ false }
    ensures on_the_right_of_mild_not { is_allowed (filtered (not_of (mild_not word_a (not_of word_b))) F.Ordered) ≡ false }
    ensures on_the_left_alone { is_allowed (filtered (mild_not (not_of word_a) word_b) F.Ordered) ≡ false }
    ensures of_no_operand { is_allowed (filtered (not_of (and_of none)) F.Ordered) ≡ false }
{}

/// `occurs` doesn't stand under a filter, however deep.
pub fn times_deep_under_filters()
    ensures in_a_choice { is_allowed (filtered (two_or word_b twice_a) F.Ordered) ≡ false }
    ensures under_two_filters { is_allowed (filtered (filtered twice_a F.Ordered) F.AtStart) ≡ false }
    ensures under_options { is_allowed (filtered (with_options twice_a no_options) F.Ordered) ≡ false }
    ensures left_of_mild_not { is_allowed (filtered (mild_not twice_a word_b) F.Ordered) ≡ false }
    ensures right_of_mild_not { is_allowed (filtered (mild_not word_b twice_a) F.Ordered) ≡ false }
{}
