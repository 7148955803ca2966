//! `not in` on small texts, by computation.
#![tactic(auto, unfolding(crate::specs::Meaning::sat_under, crate::specs::Meaning::all_matches, crate::specs::Meaning::phrase_count))]

ghost use Rattle.std.specs.Prelude.{◌≡◌, true, false, codes};
ghost use Rattle.ft_base.specs.declared.filter.Filter.TheVariants as F;
ghost use Rattle.ft_base.specs.declared.unit.TextUnit.TheVariants as U;
ghost use Rattle.ft_base.specs.Selection.{filtered, mild_not, not_of};
ghost use Rattle.all_matches.specs.Examples.{plain, text, quoted, two_and, two_or, word_a, word_b, word_c, word_x};
ghost use Rattle.all_matches.specs.Meaning.{sat};

/// A Match stays where, for each Match of the right side, some word of its hits is in no hit of that Match.
pub fn words_that_stand_out()
    ensures of_each_match { sat plain (mild_not (quoted (codes "mexico")) (quoted (codes "new mexico"))) (text (codes "new mexico new mexico")) ≡ false }
    ensures one_of_two_hits { sat plain (mild_not (two_and word_a word_b) word_a) (text (codes "a b")) ≡ true }
    ensures one_of_two_words { sat plain (mild_not (quoted (codes "a b")) word_a) (text (codes "a b")) ≡ true }
    ensures the_last_word { sat plain (mild_not (quoted (codes "a b")) (quoted (codes "b c"))) (text (codes "a b c")) ≡ true }
    ensures the_first_word { sat plain (mild_not (quoted (codes "b c")) (quoted (codes "a b"))) (text (codes "a b c")) ≡ true }
    ensures the_same_words { sat plain (mild_not (quoted (codes "a b")) (two_and word_a word_b)) (text (codes "a b")) ≡ false }
    ensures covered_by_one_hit { sat plain (mild_not word_a (two_and word_a word_b)) (text (codes "a b")) ≡ false }
    ensures between_joined_hits { sat plain (mild_not word_b (filtered (two_and word_a word_c) (F.Window 3 U.Words))) (text (codes "a b c")) ≡ false }
    ensures nothing_on_the_right { sat plain (mild_not word_a word_x) (text (codes "a")) ≡ true }
{}

/// The left side stays as it is where no Match of the right side has an include.
pub fn right_sides_without_includes()
    ensures all_stays { sat plain (mild_not (not_of word_b) (not_of word_x)) (text (codes "a")) ≡ true }
    ensures one_include_is_enough { sat plain (mild_not word_a (two_or word_a (not_of word_x))) (text (codes "a")) ≡ false }
    ensures no_word_stands_out { sat plain (mild_not (not_of word_b) word_a) (text (codes "a")) ≡ false }
{}
