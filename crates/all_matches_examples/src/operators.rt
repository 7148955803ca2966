//! The operators of small selections, by computation.
#![tactic(auto, unfolding(all_matches::specs::Operators::operator_of, all_matches::specs::Meaning::phrase_count))]

ghost use Rattle.std.specs.Prelude.{◌≡◌, ◌∷◌, [], codes, None};
ghost use Rattle.ft_base.specs.declared.words.Mode.TheVariants as M;
ghost use Rattle.ft_base.specs.HitExamples.{word};
ghost use Rattle.ft_base.specs.Selection.{mild_not, no_options};
ghost use Rattle.all_matches.specs.Examples.{plain, text, value, two_and, two_or, word_a, word_b};
ghost use Rattle.all_matches.specs.Meaning.{phrase_count};
ghost use Rattle.all_matches.specs.Numbering.{shifted_hit};
ghost use Rattle.all_matches.specs.Operators.{operator_by, operator_of};
ghost use Rattle.all_matches.specs.Ways.{phrase, either, together, apart, negated};

/// One of the phrases of a value, or each of them.
pub fn operators_by_mode()
    ensures any { operator_by M.Any (phrase (word 1 ∷ []) ∷ phrase (word 2 ∷ []) ∷ []) ≡ either (phrase (word 1 ∷ [])) (phrase (word 2 ∷ [])) }
    ensures any_word { operator_by M.AnyWord (phrase (word 1 ∷ []) ∷ phrase (word 2 ∷ []) ∷ []) ≡ either (phrase (word 1 ∷ [])) (phrase (word 2 ∷ [])) }
    ensures all { operator_by M.All (phrase (word 1 ∷ []) ∷ phrase (word 2 ∷ []) ∷ []) ≡ together (phrase (word 1 ∷ [])) (phrase (word 2 ∷ [])) }
    ensures all_words { operator_by M.AllWords (phrase (word 1 ∷ []) ∷ phrase (word 2 ∷ []) ∷ [])
        ≡ together (phrase (word 1 ∷ [])) (phrase (word 2 ∷ [])) }
    ensures all_of_none { operator_by M.All [] ≡ negated (phrase []) }
    ensures any_of_none { operator_by M.Any [] ≡ phrase [] }
{}

/// A string without words has no hit, the others keep theirs, and each phrase has a number of its own.
pub fn operators_of_selections()
    ensures a_string_without_words { operator_of plain no_options 1 (text (codes "a")) (value M.Any None (codes "" ∷ codes "a" ∷ []))
        ≡ either (phrase []) (phrase (shifted_hit 2 (word 1) ∷ [])) }
    ensures no_string_with_words { operator_of plain no_options 1 (text (codes "a")) (value M.All None (codes "" ∷ [])) ≡ phrase [] }
    ensures no_word_at_all { operator_of plain no_options 1 (text (codes "a")) (value M.AllWords None (codes "" ∷ [])) ≡ phrase [] }
    ensures of_both { operator_of plain no_options 1 (text (codes "a")) (two_and word_a word_b) ≡ together (phrase (shifted_hit 1 (word 1) ∷ [])) (phrase []) }
    ensures after_two_phrases { operator_of plain no_options 1 (text (codes "a")) (mild_not (two_or word_a word_a) word_a)
        ≡ apart (either (phrase (shifted_hit 1 (word 1) ∷ [])) (phrase (shifted_hit 2 (word 1) ∷ []))) (phrase (shifted_hit 3 (word 1) ∷ [])) }
{}

/// The phrases of each operand are counted, and those of both sides of `not in`.
pub fn phrases_counted()
    ensures of_operands { phrase_count plain no_options (two_or (two_and word_a word_b) word_a) ≡ 3 }
    ensures of_mild_not { phrase_count plain no_options (mild_not word_a (two_and word_a word_b)) ≡ 3 }
{}
