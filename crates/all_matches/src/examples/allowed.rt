//! Where `ftnot` and `occurs` may stand, on small selections, by computation.
#![tactic(auto, unfolding(
// where they may stand in a selection
crate::specs::Allowed::is_allowed,
// and under a filter or in `not in`
crate::specs::Allowed::without_times, crate::specs::Allowed::without_not, crate::specs::Allowed::has_plain_nots))]

ghost use Rattle.std.specs.Prelude.{◌≡◌, true, false};
ghost use Rattle.ft_base.specs.declared.filter.Filter.TheVariants as F;
ghost use Rattle.ft_base.specs.declared.unit.TextUnit.TheVariants as U;
ghost use Rattle.ft_base.specs.Selection.{no_options, filtered, mild_not, not_of, with_options};
ghost use Rattle.all_matches.specs.Allowed.{is_allowed};
ghost use Rattle.all_matches.specs.Examples.{two_and, two_or, but_not, word_a, word_b, word_c, twice_a};

/// `ftnot` doesn't stand in another one where one filter stands round both.
pub fn nots_that_may_stand()
    ensures one { is_allowed (filtered (but_not word_a word_b) F.Ordered) ≡ true }
    ensures side_by_side { is_allowed (filtered (two_and (not_of word_a) (not_of word_b)) F.Ordered) ≡ true }
    ensures in_another { is_allowed (filtered (not_of (not_of word_a)) (F.Window 3 U.Words)) ≡ false }
    ensures deep_in_another { is_allowed (filtered (not_of (two_or word_c (but_not word_a word_b))) F.AtEnd) ≡ false }
    ensures under_options { is_allowed (filtered (with_options (not_of (not_of word_a)) no_options) F.Ordered) ≡ false }
    ensures the_other_outside_the_filter { is_allowed (not_of (filtered (but_not word_a word_b) (F.Window 3 U.Words))) ≡ true }
    ensures a_filter_between { is_allowed (filtered (not_of (filtered (but_not word_a word_b) F.Ordered)) F.AtStart) ≡ false }
    ensures without_a_filter { is_allowed (not_of (not_of word_a)) ≡ true }
    ensures in_one_operand { is_allowed (two_or word_a (filtered (not_of (not_of word_b)) F.Ordered)) ≡ false }
{}

/// `occurs` doesn't stand under a filter.
pub fn times_that_may_stand()
    ensures alone { is_allowed twice_a ≡ true }
    ensures under_a_filter { is_allowed (filtered twice_a F.Ordered) ≡ false }
    ensures deep_under_a_filter { is_allowed (filtered (two_and word_b (not_of twice_a)) F.SameSentence) ≡ false }
    ensures beside_a_filter { is_allowed (two_and (filtered (two_and word_a word_b) F.Ordered) twice_a) ≡ true }
    ensures in_not { is_allowed (not_of twice_a) ≡ true }
{}

/// Neither stands in `not in`.
pub fn operands_of_mild_not()
    ensures words { is_allowed (mild_not word_a word_b) ≡ true }
    ensures not_on_the_left { is_allowed (mild_not (but_not word_a word_b) word_c) ≡ false }
    ensures not_on_the_right { is_allowed (mild_not word_a (not_of word_b)) ≡ false }
    ensures times_on_the_left { is_allowed (mild_not twice_a word_b) ≡ false }
    ensures times_on_the_right { is_allowed (mild_not word_b twice_a) ≡ false }
    ensures a_filter_inside { is_allowed (mild_not (filtered (two_and word_a word_b) F.Ordered) word_c) ≡ true }
    ensures not_under_a_filter_inside { is_allowed (mild_not (filtered (but_not word_a word_b) F.Ordered) word_c) ≡ false }
    ensures a_filter_outside { is_allowed (filtered (mild_not word_a word_b) F.Ordered) ≡ true }
    ensures not_inside_a_filter_outside { is_allowed (filtered (mild_not word_a (not_of word_b)) F.Ordered) ≡ false }
    ensures in_not { is_allowed (not_of (mild_not word_a word_b)) ≡ true }
{}
