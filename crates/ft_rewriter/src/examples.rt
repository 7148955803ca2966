//! Rewritten selections, by computation.
#![tactic(auto, unfolding(
// what is said of selections and of lists of them
crate::specs::Rewriting::given, crate::specs::Rewriting::flattened, crate::specs::Rewriting::simplified,
// and by which they are compared
crate::specs::Code::form_code))]

ghost use Rattle.std.specs.Prelude.{◌≡◌, codes, true, false, Some};
ghost use Rattle.all_matches.specs.Examples.{in_language, stemmed, three_and, two_and, two_or, word_a, word_b, word_c};
ghost use Rattle.ft_base.specs.declared.filter.Filter.TheVariants as F;
ghost use Rattle.ft_base.specs.declared.range.Range.TheVariants as R;
ghost use Rattle.ft_base.specs.Selection.{no_options, mild_not, not_of, filtered, with_options};
ghost use Rattle.ft_rewriter.specs.Examples.{by_stem, three_or, times_a, using};
ghost use Rattle.ft_rewriter.specs.Rewriting.{rewritten, simplified};

/// Options go to the words inside, each group by itself; those that stand further in hold.
pub fn options_given()
    ensures to_words { rewritten (with_options word_a (stemmed true)) ≡ by_stem (codes "a") }
    ensures further_in { rewritten (with_options (with_options word_a (stemmed false)) (stemmed true)) ≡ using (stemmed false) (codes "a") }
    ensures of_the_words { rewritten (with_options (using (stemmed false) (codes "a")) (stemmed true)) ≡ using (stemmed false) (codes "a") }
    ensures of_another_group { rewritten (with_options (with_options word_a (in_language (codes "en"))) (stemmed true))
        ≡ using (record no_options { language = Some (codes "en"); stemming = Some true }) (codes "a") }
    ensures in_an_or { rewritten (with_options (two_or word_a word_b) (stemmed true)) ≡ two_or (by_stem (codes "a")) (by_stem (codes "b")) }
    ensures in_an_and { rewritten (with_options (two_and word_a word_b) (stemmed true)) ≡ two_and (by_stem (codes "a")) (by_stem (codes "b")) }
    ensures in_mild_not { rewritten (with_options (mild_not word_a word_b) (stemmed true)) ≡ mild_not (by_stem (codes "a")) (by_stem (codes "b")) }
    ensures in_a_not { rewritten (with_options (not_of word_a) (stemmed true)) ≡ not_of (by_stem (codes "a")) }
    ensures under_a_filter { rewritten (with_options (filtered word_a F.AtEnd) (stemmed true)) ≡ filtered (by_stem (codes "a")) F.AtEnd }
    ensures none_outside { rewritten (two_or (with_options word_a (stemmed true)) word_a) ≡ two_or (by_stem (codes "a")) word_a }
{}

/// `ftnot` is moved inwards, and two of them are none.
pub fn nots_moved()
    ensures twice { rewritten (not_of (not_of word_a)) ≡ word_a }
    ensures three_times { rewritten (not_of (not_of (not_of word_a))) ≡ not_of word_a }
    ensures over_or { rewritten (not_of (two_or word_a (not_of word_b))) ≡ two_and (not_of word_a) word_b }
    ensures over_and { rewritten (not_of (two_and word_a (not_of word_b))) ≡ two_or (not_of word_a) word_b }
    ensures over_both { rewritten (not_of (two_and word_a (two_or word_b (not_of word_c))))
        ≡ two_or (not_of word_a) (two_and (not_of word_b) word_c) }
    ensures inside_or { rewritten (two_or (not_of (not_of word_a)) word_b) ≡ two_or word_a word_b }
    ensures inside_and { rewritten (two_and (not_of (not_of word_a)) word_b) ≡ two_and word_a word_b }
    ensures not_of_mild_not { rewritten (not_of (mild_not word_a (two_or (two_or word_a word_b) word_c)))
        ≡ not_of (mild_not word_a (three_or word_a word_b word_c)) }
    ensures not_of_a_filter { rewritten (not_of (filtered (two_or (two_or word_a word_b) word_c) F.AtEnd))
        ≡ not_of (filtered (three_or word_a word_b word_c) F.AtEnd) }
{}

/// An Or gives its operands to an Or round it, an And to an And; an operand that equals an earlier one goes, and a single one is left by itself.
pub fn operands_joined()
    ensures or_in_or { rewritten (two_or (two_or word_a word_b) word_c) ≡ three_or word_a word_b word_c }
    ensures and_in_and { rewritten (two_and word_a (two_and word_b word_c)) ≡ three_and word_a word_b word_c }
    ensures or_in_and { rewritten (two_and (two_or word_a word_b) word_c) ≡ two_and (two_or word_a word_b) word_c }
    ensures and_in_or { rewritten (two_or (two_and word_a word_b) word_c) ≡ two_or (two_and word_a word_b) word_c }
    ensures one_left { rewritten (two_or word_a word_a) ≡ word_a }
    ensures one_left_of_and { rewritten (two_and word_a word_a) ≡ word_a }
    ensures in_their_order { rewritten (two_or (two_or word_b word_a) (two_or word_c word_b)) ≡ three_or word_b word_a word_c }
    ensures equal_after_nots { rewritten (two_or word_a (not_of (not_of word_a))) ≡ word_a }
    ensures one_left_inside { rewritten (two_and (two_or (two_and word_a word_b) (two_and word_a word_b)) word_c) ≡ three_and word_a word_b word_c }
    ensures with_other_options { rewritten (two_or word_a (by_stem (codes "a"))) ≡ two_or word_a (by_stem (codes "a")) }
    ensures as_written { rewritten (two_or (times_a (R.Exactly 1)) (times_a (R.FromTo 1 1))) ≡ two_or (times_a (R.Exactly 1)) (times_a (R.FromTo 1 1)) }
{}

/// Under a filter and in `not in` the operands of an Or inside an Or, and of an And inside an And, take its place, and nothing else changes.
pub fn under_filters()
    ensures or_in_or { rewritten (filtered (two_or (two_or word_a word_b) word_c) F.Ordered) ≡ filtered (three_or word_a word_b word_c) F.Ordered }
    ensures and_in_and { rewritten (filtered (two_and word_a (two_and word_b word_c)) F.Ordered) ≡ filtered (three_and word_a word_b word_c) F.Ordered }
    ensures and_in_or { rewritten (filtered (two_or (two_and word_a word_b) word_c) F.Ordered) ≡ filtered (two_or (two_and word_a word_b) word_c) F.Ordered }
    ensures repeated { rewritten (filtered (two_or word_a word_a) F.Ordered) ≡ filtered (two_or word_a word_a) F.Ordered }
    ensures below_a_not { rewritten (filtered (not_of (two_and (two_and word_a word_b) word_c)) F.Ordered)
        ≡ filtered (not_of (three_and word_a word_b word_c)) F.Ordered }
    ensures nots { rewritten (filtered (not_of (not_of word_a)) F.Ordered) ≡ filtered (not_of (not_of word_a)) F.Ordered }
    ensures both_sides { rewritten (mild_not (two_or (two_or word_a word_b) word_c) (two_and word_a (two_and word_b word_c)))
        ≡ mild_not (three_or word_a word_b word_c) (three_and word_a word_b word_c) }
    ensures times { rewritten (filtered (times_a (R.AtLeast 1)) F.Ordered) ≡ filtered (times_a (R.AtLeast 1)) F.Ordered }
{}

/// `occurs at least 1 times` is left out.
pub fn times_left_out()
    ensures at_least_once { rewritten (times_a (R.AtLeast 1)) ≡ word_a }
    ensures after_not { rewritten (not_of (times_a (R.AtLeast 1))) ≡ not_of word_a }
    ensures at_least_twice { rewritten (times_a (R.AtLeast 2)) ≡ times_a (R.AtLeast 2) }
    ensures at_least_none { rewritten (times_a (R.AtLeast 0)) ≡ times_a (R.AtLeast 0) }
    ensures exactly_once { rewritten (times_a (R.Exactly 1)) ≡ times_a (R.Exactly 1) }
    ensures at_most_once { rewritten (times_a (R.AtMost 1)) ≡ times_a (R.AtMost 1) }
{}

/// Parentheses with options, of which rewriting leaves none, would stay where `ftnot` is moved.
pub fn options_kept()
    ensures simplified { simplified (with_options (not_of (not_of word_a)) (stemmed true)) ≡ with_options word_a (stemmed true) }
    ensures negated { simplified (not_of (with_options (not_of (not_of word_a)) (stemmed true))) ≡ not_of (with_options word_a (stemmed true)) }
    ensures flattened { simplified (filtered (with_options (two_or (two_or word_a word_b) word_c) (stemmed true)) F.Ordered)
        ≡ filtered (with_options (three_or word_a word_b word_c) (stemmed true)) F.Ordered }
{}
