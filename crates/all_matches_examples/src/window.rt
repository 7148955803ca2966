//! Windows on small texts, by computation.
#![tactic(auto, unfolding(all_matches::specs::Meaning::sat_under, all_matches::specs::Meaning::all_matches, all_matches::specs::Meaning::phrase_count))]

ghost use Rattle.std.specs.Prelude.{◌≡◌, true, false, codes, Some, None};
ghost use Rattle.ft_base.specs.declared.filter.Filter.TheVariants as F;
ghost use Rattle.ft_base.specs.declared.unit.TextUnit.TheVariants as U;
ghost use Rattle.ft_base.specs.HitExamples.{phrase};
ghost use Rattle.ft_base.specs.Selection.{filtered};
ghost use Rattle.all_matches.specs.Examples.{plain, text, quoted, two_and, word_a};
ghost use Rattle.all_matches.specs.Meaning.{sat};
ghost use Rattle.all_matches.specs.Window.{fits_window};

/// A window holds the words of each hit, its last one too.
pub fn phrases_in_windows()
    ensures one_word_too_few { sat plain (filtered (two_and word_a (quoted (codes "b c"))) (F.Window 2 U.Words)) (text (codes "a b c")) ≡ false }
    ensures all_words { sat plain (filtered (two_and word_a (quoted (codes "b c"))) (F.Window 3 U.Words)) (text (codes "a b c")) ≡ true }
{}

/// A hit fits a window of as many words as it has, and a wider one.
pub fn widths_of_windows()
    ensures one_word_less { fits_window 1 U.Words (Some (phrase 1 2 3)) ≡ false }
    ensures as_many_words { fits_window 2 U.Words (Some (phrase 1 2 3)) ≡ true }
    ensures one_word_more { fits_window 3 U.Words (Some (phrase 1 2 3)) ≡ true }
    ensures no_hit { fits_window 3 U.Words None ≡ false }
{}
