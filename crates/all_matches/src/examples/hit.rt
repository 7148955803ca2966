//! Lists of hits put in order and joined, by computation.

ghost use Rattle.std.specs.Prelude.{◌≡◌, ◌∷◌, [], Some, None};
ghost use Rattle.ft_base.specs.HitExamples.{word, phrase};
ghost use Rattle.all_matches.specs.Distance.{in_order};
ghost use Rattle.all_matches.specs.Examples.{with_a_hole};
ghost use Rattle.all_matches.specs.Join.{join};

/// Hits stand by their first word, then by their last, and at the same words as they stood.
pub fn hits_in_the_order_of_the_text()
    ensures by_first_word { in_order (word 3 ∷ word 1 ∷ word 2 ∷ []) ≡ word 1 ∷ word 2 ∷ word 3 ∷ [] }
    ensures by_last_word { in_order (phrase 1 1 3 ∷ phrase 2 1 1 ∷ []) ≡ phrase 2 1 1 ∷ phrase 1 1 3 ∷ [] }
    ensures as_they_stood { in_order (phrase 2 1 1 ∷ phrase 1 1 1 ∷ []) ≡ phrase 2 1 1 ∷ phrase 1 1 1 ∷ [] }
{}

/// The joined hit reaches from the first to the last word and has the number of the first hit in the list. It is whole
/// where all are and no word between is left out.
pub fn hits_as_one()
    ensures side_by_side { join (phrase 2 3 4 ∷ phrase 1 1 2 ∷ []) ≡ Some (phrase 2 1 4) }
    ensures one_in_another { join (phrase 1 1 4 ∷ phrase 2 2 3 ∷ []) ≡ Some (phrase 1 1 4) }
    ensures a_word_between { join (phrase 1 1 1 ∷ phrase 2 3 3 ∷ []) ≡ Some (with_a_hole (phrase 1 1 3)) }
    ensures a_hole_inside { join (with_a_hole (phrase 1 1 3) ∷ phrase 2 2 2 ∷ []) ≡ Some (with_a_hole (phrase 1 1 3)) }
    ensures a_hole_beside { join (phrase 1 1 3 ∷ with_a_hole (phrase 2 2 3) ∷ []) ≡ Some (with_a_hole (phrase 1 1 3)) }
    ensures one { join (phrase 1 2 3 ∷ []) ≡ Some (phrase 1 2 3) }
    ensures none { join [] ≡ None }
{}
