//! Tests of several selections, by computation.
#![tactic(auto, unfolding(all_matches::specs::Meaning::sat_under, all_matches::specs::Meaning::all_matches, all_matches::specs::Meaning::phrase_count))]

ghost use Rattle.std.specs.Prelude.{◌≡◌, true, false, codes};
ghost use Rattle.ft_base.specs.Selection.{none, more};
ghost use Rattle.all_matches.specs.Compositional.{some_form, each_form_passes};
ghost use Rattle.all_matches.specs.Examples.{plain, text, two_and, two_or, word_a, word_b};
ghost use Rattle.all_matches.specs.Meaning.{sat};

/// Some selection of a list passes a test: here, whether the text `a` satisfies it.
pub fn some_selections()
    ensures none_at_all { some_form (λ form. true) none ≡ false }
    ensures the_first { some_form (λ form. sat plain form (text (codes "a"))) (more word_a (more word_b none)) ≡ true }
    ensures the_last { some_form (λ form. sat plain form (text (codes "a"))) (more word_b (more word_a none)) ≡ true }
    ensures neither { some_form (λ form. sat plain form (text (codes "a"))) (more word_b (more word_b none)) ≡ false }
{}

/// Each selection of a list passes it.
pub fn all_selections()
    ensures none_at_all { each_form_passes (λ form. false) none ≡ true }
    ensures the_first_alone { each_form_passes (λ form. sat plain form (text (codes "a"))) (more word_a (more word_b none)) ≡ false }
    ensures the_last_alone { each_form_passes (λ form. sat plain form (text (codes "a"))) (more word_b (more word_a none)) ≡ false }
    ensures both { each_form_passes (λ form. sat plain form (text (codes "a"))) (more word_a (more word_a none)) ≡ true }
{}

/// A text satisfies one of several selections, or each.
pub fn one_or_each()
    ensures one_is_enough { sat plain (two_or word_a word_b) (text (codes "a")) ≡ true }
    ensures one_is_too_few { sat plain (two_and word_a word_b) (text (codes "a")) ≡ false }
{}
