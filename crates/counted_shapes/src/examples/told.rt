//! Numbers of windows, and hits told in the numbers of a part, by computation.

ghost use Rattle.std.specs.Prelude.{◌≡◌, ◌∷◌, [], true, false, None, Some};
ghost use Rattle.ft_base.specs.declared.unit.TextUnit.TheVariants as U;
ghost use Rattle.ft_base.specs.HitExamples.{phrase, word};
ghost use Rattle.counted_shapes.specs.Fields.{in_window, is_in_window};
ghost use Rattle.counted_shapes.specs.Told.{are_told_from, is_told_from};

/// A window has as many numbers as its size tells, up to the one at which it ends. A hit that ended before its beginning would lie in one that
/// doesn't have its first number.
pub fn numbers_of_a_window()
    ensures the_last { is_in_window 3 4 4 ≡ true }
    ensures the_first { is_in_window 3 4 2 ≡ true }
    ensures before_it { is_in_window 3 4 1 ≡ false }
    ensures after_it { is_in_window 3 4 5 ≡ false }
    ensures of_none { is_in_window 0 4 4 ≡ false }
    ensures turned { in_window 1 U.Words 2 (phrase 0 9 2) ≡ true }
{}

/// Both numbers of a hit are less by as many as stand before the part, and each hit is told so.
pub fn hits_of_a_part()
    ensures told { is_told_from 4 U.Words (phrase 0 1 2) (phrase 0 5 6) ≡ true }
    ensures another_start { is_told_from 4 U.Words (phrase 0 1 2) (phrase 0 4 6) ≡ false }
    ensures another_end { is_told_from 4 U.Words (phrase 0 1 2) (phrase 0 5 7) ≡ false }
    ensures sentences_that_stayed { is_told_from 0 U.Sentences (phrase 0 1 2) (phrase 0 5 6) ≡ true }
    ensures each { are_told_from 4 U.Words (word 1 ∷ word 3 ∷ []) (word 5 ∷ word 7 ∷ []) ≡ true }
    ensures another_hit { are_told_from 4 U.Words (word 1 ∷ word 3 ∷ []) (word 5 ∷ word 8 ∷ []) ≡ false }
    ensures one_too_few { are_told_from 4 U.Words (word 1 ∷ []) (word 5 ∷ word 7 ∷ []) ≡ false }
{}
