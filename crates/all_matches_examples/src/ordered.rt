//! `ordered` on small texts, by computation.
#![tactic(auto, unfolding(all_matches::specs::Meaning::sat_under, all_matches::specs::Meaning::all_matches, all_matches::specs::Meaning::phrase_count))]

ghost use Rattle.std.specs.Prelude.{◌≡◌, true, false, [], ◌∷◌, codes, None};
ghost use Rattle.ft_base.specs.declared.filter.Filter.TheVariants as F;
ghost use Rattle.ft_base.specs.declared.words.Mode.TheVariants as M;
ghost use Rattle.ft_base.specs.Selection.{filtered, mild_not, not_of, with_options};
ghost use Rattle.all_matches.specs.Examples.{plain, text, value, quoted, two_and, three_and, but_not, word_a, word_b, word_c, word_x, with_wildcards};
ghost use Rattle.all_matches.specs.Meaning.{sat};
ghost use Rattle.all_matches_examples.specs.Examples.{spaced_under_wildcards};

/// The phrases of an operand are numbered after all those of the operands before it.
pub fn order_after_operands()
    ensures after_mild_not { sat plain (filtered (two_and (mild_not word_a word_x) word_b) F.Ordered) (text (codes "b a")) ≡ false }
    ensures after_two_words_of_mild_not { sat plain (filtered (two_and (mild_not (two_and word_a word_c) word_x) word_b) F.Ordered)
        (text (codes "a b c")) ≡ false }
    ensures after_three_words_of_mild_not { sat plain
        (filtered (two_and (mild_not (three_and word_a word_c (quoted (codes "d"))) word_x) word_b) F.Ordered) (text (codes "a c b d")) ≡ false }
    ensures right_after_not { sat plain (filtered (two_and (not_of word_x) word_a) F.Ordered) (text (codes "a x")) ≡ true }
    ensures after_words_under_options { sat spaced_under_wildcards
        (filtered (two_and (with_options (value M.AnyWord None (codes "a b" ∷ [])) (with_wildcards true)) word_c) F.Ordered) (text (codes "c b")) ≡ false }
{}

/// Hits of several words stand in the text by their first words.
pub fn order_by_first_words()
    ensures begins_in_the_other { sat plain (filtered (two_and word_b (quoted (codes "a b"))) F.Ordered) (text (codes "a b")) ≡ false }
    ensures an_exclude_that_ends_there { sat plain (filtered (but_not word_b (quoted (codes "a b"))) F.Ordered) (text (codes "a b")) ≡ true }
{}
