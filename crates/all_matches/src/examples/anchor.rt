//! `at start`, `at end` and `entire content` on small texts, by computation.
#![tactic(auto, unfolding(crate::specs::Meaning::sat_under, crate::specs::Meaning::all_matches, crate::specs::Meaning::phrase_count))]

ghost use Rattle.std.specs.Prelude.{◌≡◌, true, false, codes};
ghost use Rattle.ft_base.specs.declared.filter.Filter.TheVariants as F;
ghost use Rattle.ft_base.specs.declared.unit.TextUnit.TheVariants as U;
ghost use Rattle.ft_base.specs.Selection.{filtered, not_of};
ghost use Rattle.all_matches.specs.Examples.{plain, text, quoted, two_and, but_not, word_a, word_b, word_c, word_x};
ghost use Rattle.all_matches.specs.Meaning.{sat};

/// Some hit begins at the first word, ends at the last.
pub fn some_hit_at_an_edge()
    ensures one_at_the_start { sat plain (filtered (two_and word_a word_b) F.AtStart) (text (codes "a b")) ≡ true }
    ensures one_at_the_end { sat plain (filtered (two_and word_a word_b) F.AtEnd) (text (codes "a b")) ≡ true }
    ensures begins_at_the_start { sat plain (filtered (quoted (codes "a b")) F.AtStart) (text (codes "a b c")) ≡ true }
    ensures begins_before_the_end { sat plain (filtered (quoted (codes "b c")) F.AtEnd) (text (codes "a b c")) ≡ true }
    ensures no_include_at_the_start { sat plain (filtered (not_of word_x) F.AtStart) (text (codes "a")) ≡ false }
    ensures no_include_at_the_end { sat plain (filtered (not_of word_x) F.AtEnd) (text (codes "a")) ≡ false }
{}

/// The hits cover each word of the text, and a joined hit covers its words only where those that it was joined of did.
pub fn covered_content()
    ensures by_two_hits { sat plain (filtered (two_and word_a word_b) F.EntireContent) (text (codes "a b")) ≡ true }
    ensures a_hole_between { sat plain (filtered (two_and word_a word_b) F.EntireContent) (text (codes "a x b")) ≡ false }
    ensures not_the_first { sat plain (filtered word_b F.EntireContent) (text (codes "a b")) ≡ false }
    ensures no_word { sat plain (filtered (not_of word_x) F.EntireContent) (text (codes "")) ≡ true }
    ensures joined_with_a_hole { sat plain (filtered (filtered (two_and word_a word_b) (F.Window 3 U.Words)) F.EntireContent) (text (codes "a x b")) ≡ false }
    ensures joined_without_a_hole { sat plain (filtered (filtered (two_and word_a word_b) (F.Window 2 U.Words)) F.EntireContent) (text (codes "a b")) ≡ true }
    ensures hole_filled_after { sat plain
        (filtered (filtered (two_and (filtered (two_and word_a word_c) (F.Window 3 U.Words)) word_b) (F.Window 3 U.Words)) F.EntireContent)
        (text (codes "a b c")) ≡ false }
{}

/// Each exclude counts, wherever it stands.
pub fn excludes_under_anchors()
    ensures at_the_start { sat plain (filtered (but_not word_a word_b) F.AtStart) (text (codes "a b")) ≡ false }
    ensures at_the_end { sat plain (filtered (but_not word_b word_a) F.AtEnd) (text (codes "a b")) ≡ false }
    ensures in_entire_content { sat plain (filtered (but_not (quoted (codes "a b")) word_a) F.EntireContent) (text (codes "a b")) ≡ false }
{}
