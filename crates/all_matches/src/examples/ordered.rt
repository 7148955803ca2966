//! `ordered` on small texts, by computation.
#![tactic(auto, unfolding(crate::specs::Meaning::sat_under, crate::specs::Meaning::all_matches, crate::specs::Meaning::phrase_count))]

ghost use Rattle.std.specs.Prelude.{◌≡◌, true, false, [], ◌∷◌, codes, Some, None};
ghost use Rattle.ft_base.specs.declared.filter.Filter.TheVariants as F;
ghost use Rattle.ft_base.specs.declared.range.Range.TheVariants as R;
ghost use Rattle.ft_base.specs.declared.words.Mode.TheVariants as M;
ghost use Rattle.ft_base.specs.Selection.{filtered, not_of, with_options, no_options};
ghost use Rattle.all_matches.specs.Examples.{plain, text, value, quoted, two_and, two_or, three_and, but_not, word_a, word_b, word_c, word_x};
ghost use Rattle.all_matches.specs.Meaning.{sat};

/// Every two hits stand in the text as their phrases stand in the query. Hits that begin at one word, and hits of one phrase, are in order.
pub fn order_of_every_two()
    ensures first_against_second { sat plain (filtered (three_and word_b word_a word_c) F.Ordered) (text (codes "a b c")) ≡ false }
    ensures second_against_third { sat plain (filtered (three_and word_a word_c word_b) F.Ordered) (text (codes "a b c")) ≡ false }
    ensures longer_first { sat plain (filtered (two_and (quoted (codes "a b")) word_a) F.Ordered) (text (codes "a b")) ≡ true }
    ensures longer_second { sat plain (filtered (two_and word_a (quoted (codes "a b"))) F.Ordered) (text (codes "a b")) ≡ true }
    ensures of_one_phrase { sat plain (filtered (value M.Any (Some (R.AtLeast 2)) (codes "a" ∷ [])) F.Ordered) (text (codes "a a")) ≡ true }
{}

/// Each phrase of a value, and of each operand, has a number of its own.
pub fn order_by_phrases()
    ensures strings_of_a_value { sat plain (filtered (two_and (value M.All None (codes "a" ∷ codes "b" ∷ [])) word_c) F.Ordered)
        (text (codes "a c b")) ≡ false }
    ensures strings_in_order { sat plain (filtered (two_and (value M.All None (codes "a" ∷ codes "b" ∷ [])) word_c) F.Ordered) (text (codes "a b c")) ≡ true }
    ensures strings_against_order { sat plain (filtered (value M.All None (codes "a" ∷ codes "b" ∷ [])) F.Ordered) (text (codes "b a")) ≡ false }
    ensures after_or { sat plain (filtered (two_and (two_or word_x word_a) word_b) F.Ordered) (text (codes "b a")) ≡ false }
    ensures after_and { sat plain (filtered (two_and (two_and word_a word_b) word_c) F.Ordered) (text (codes "a c b")) ≡ false }
    ensures after_a_filter { sat plain (filtered (two_and (filtered (two_and word_a word_b) F.AtStart) word_c) F.Ordered) (text (codes "a c b")) ≡ false }
    ensures after_options { sat plain (filtered (two_and (with_options (two_and word_a word_b) no_options) word_c) F.Ordered) (text (codes "a c b")) ≡ false }
    ensures after_not { sat plain (filtered (three_and word_a (not_of (two_and word_x word_x)) (not_of word_b)) F.Ordered) (text (codes "a b")) ≡ false }
{}

/// An exclude counts where it is in order with every include.
pub fn excludes_under_order()
    ensures in_order { sat plain (filtered (but_not word_a word_b) F.Ordered) (text (codes "a b")) ≡ false }
    ensures against_order { sat plain (filtered (but_not word_a word_b) F.Ordered) (text (codes "b a")) ≡ true }
    ensures against_one_include { sat plain (filtered (but_not (two_and word_a word_c) word_b) F.Ordered) (text (codes "a b c")) ≡ true }
    ensures at_the_same_word { sat plain (filtered (but_not word_a (quoted (codes "a b"))) F.Ordered) (text (codes "a b")) ≡ false }
    ensures without_includes { sat plain (filtered (not_of word_a) F.Ordered) (text (codes "a")) ≡ false }
{}
