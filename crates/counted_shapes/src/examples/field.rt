//! What lies in a field, by computation.

ghost use Rattle.std.specs.Prelude.{◌≡◌, ◌∷◌, [], true, false};
ghost use Rattle.ft_base.specs.declared.unit.TextUnit.TheVariants as U;
ghost use Rattle.ft_base.specs.HitExamples.{phrase, word};
ghost use Rattle.all_matches.specs.Boolean.{with_exclude, with_include};
ghost use Rattle.all_matches.specs.Examples.{in_sentences};
ghost use Rattle.all_matches.specs.Hits.{match_of_hit};
ghost use Rattle.counted_shapes.specs.Fields.{in_unit, in_window, made_in};

/// A hit lies in a window where it begins no earlier and ends no later. The window may begin below number 1.
pub fn hits_in_a_window()
    ensures from_end_to_end { in_window 3 U.Words 4 (phrase 0 2 4) ≡ true }
    ensures begins_before { in_window 3 U.Words 4 (phrase 0 1 4) ≡ false }
    ensures ends_after { in_window 3 U.Words 4 (phrase 0 2 5) ≡ false }
    ensures from_below_one { in_window 3 U.Words 1 (word 1) ≡ true }
    ensures below_one { in_window 3 U.Words 0 (word 1) ≡ false }
    ensures the_last_that_holds_it { in_window 3 U.Words 4 (word 2) ≡ true }
    ensures when_it_has_gone { in_window 3 U.Words 5 (word 2) ≡ false }
    ensures longer_than_the_window { in_window 1 U.Words 3 (phrase 0 2 3) ≡ false }
    ensures of_no_words { in_window 0 U.Words 2 (word 2) ≡ false }
    ensures of_sentences { in_window 2 U.Sentences 5 (in_sentences 4 5 (word 9)) ≡ true }
    ensures of_too_few_sentences { in_window 1 U.Sentences 5 (in_sentences 4 5 (word 9)) ≡ false }
    ensures of_paragraphs { in_window 1 U.Paragraphs 1 (in_sentences 4 5 (word 9)) ≡ true }
{}

/// A hit lies in a sentence where it begins and ends there.
pub fn hits_in_a_unit()
    ensures in_the_sentence { in_unit U.Sentences 4 (in_sentences 4 4 (word 9)) ≡ true }
    ensures ends_in_the_next { in_unit U.Sentences 4 (in_sentences 4 5 (word 9)) ≡ false }
    ensures begins_in_the_one_before { in_unit U.Sentences 5 (in_sentences 4 5 (word 9)) ≡ false }
    ensures in_the_paragraph { in_unit U.Paragraphs 1 (in_sentences 4 5 (word 9)) ≡ true }
    ensures in_another_paragraph { in_unit U.Paragraphs 4 (in_sentences 4 5 (word 9)) ≡ false }
{}

/// All includes lie in the field, and no exclude does as a whole.
pub fn matches_in_a_field()
    ensures an_include_inside { made_in (in_window 2 U.Words 2) (match_of_hit (word 2)) ≡ true }
    ensures an_include_outside { made_in (in_window 2 U.Words 2) (match_of_hit (word 3)) ≡ false }
    ensures one_of_two_outside { made_in (in_window 2 U.Words 2) (with_include (word 3) (match_of_hit (word 2))) ≡ false }
    ensures an_exclude_inside { made_in (in_window 2 U.Words 2) (with_exclude (word 1) (match_of_hit (word 2))) ≡ false }
    ensures an_exclude_outside { made_in (in_window 2 U.Words 2) (with_exclude (word 3) (match_of_hit (word 2))) ≡ true }
    ensures an_exclude_partly_outside { made_in (in_window 2 U.Words 2) (with_exclude (phrase 0 2 3) (match_of_hit (word 2))) ≡ true }
    ensures without_hits { made_in (in_window 2 U.Words 2) (record { includes = []; excludes = [] }) ≡ true }
{}
