//! The definitions on a small text, by computation.
ghost use Rattle.std.specs.Prelude.{◌≡◌, ◌∷◌, [], codes, true, false};
ghost use Rattle.index_phrases.specs.Examples as indexed;
ghost use Rattle.ignore_view.specs.Examples.{span, text, token};
ghost use Rattle.ignore_view.specs.Holes.{hole_in, tokens_without, whole_document};
ghost use Rattle.ignore_view.specs.Without.{are_counted, covers, is_left_out, without};

/// A hole leaves out its places from the first one up to its end, which isn't one of them. An empty one leaves out none.
pub fn places_left_out()
    ensures first { is_left_out (span 2 4 ∷ []) 2 ≡ true }
    ensures last { is_left_out (span 2 4 ∷ []) 3 ≡ true }
    ensures before { is_left_out (span 2 4 ∷ []) 1 ≡ false }
    ensures at_the_end { is_left_out (span 2 4 ∷ []) 4 ≡ false }
    ensures empty { is_left_out (span 2 2 ∷ []) 2 ≡ false }
    ensures second { is_left_out (span 2 4 ∷ span 7 8 ∷ []) 7 ≡ true }
    ensures none { is_left_out [] 1 ≡ false }
{}

/// Tokens that are left have sentences and paragraphs of their own: one begins where the numbers in the text differ, and none is left
/// out where a whole sentence goes.
pub fn tokens_that_are_left()
    ensures nothing_ignored { without text [] ≡ text }
    ensures within_a_sentence { without text (span 2 3 ∷ []) ≡ token (codes "a") 1 1 ∷ token (codes "c") 2 1 ∷ token (codes "d") 3 1 ∷ token (codes "e") 3 2 ∷ [] }
    ensures a_sentence { without text (span 3 4 ∷ []) ≡ token (codes "a") 1 1 ∷ token (codes "b") 1 1 ∷ token (codes "d") 2 1 ∷ token (codes "e") 2 2 ∷ [] }
    ensures the_first { without text (span 1 4 ∷ []) ≡ token (codes "d") 1 1 ∷ token (codes "e") 1 2 ∷ [] }
    ensures two { without text (span 4 5 ∷ span 1 2 ∷ []) ≡ token (codes "b") 1 1 ∷ token (codes "c") 2 1 ∷ token (codes "e") 3 2 ∷ [] }
    ensures one_over_another { without text (span 1 4 ∷ span 2 3 ∷ span 3 5 ∷ []) ≡ token (codes "e") 1 1 ∷ [] }
    ensures all { without text (span 1 6 ∷ []) ≡ [] }
    ensures outside { without text (span 6 9 ∷ []) ≡ text }
    ensures no_text { without [] (span 1 2 ∷ []) ≡ [] }
{}

/// Numbers that are counted begin with 1, and none is left out.
pub fn counted_texts()
    ensures counted { are_counted text ≡ true }
    ensures empty { are_counted [] ≡ true }
    ensures later { are_counted (token (codes "d") 3 1 ∷ []) ≡ false }
    ensures left_out { are_counted (token (codes "a") 1 1 ∷ token (codes "d") 3 1 ∷ []) ≡ false }
    ensures back { are_counted (token (codes "a") 1 1 ∷ token (codes "b") 2 2 ∷ token (codes "c") 2 1 ∷ []) ≡ false }
    ensures covered { covers (span 1 6) text ≡ true }
    ensures but_the_last { covers (span 1 5) text ≡ false }
    ensures but_the_first { covers (span 2 6) text ≡ false }
{}

/// A hole of a document in the numbers of a span: what is before the span goes, what is after it stays after it.
pub fn holes_of_spans()
    ensures inside { hole_in (span 4 9) (span 5 7) ≡ span 2 4 }
    ensures at_the_first { hole_in (span 4 9) (span 4 7) ≡ span 1 4 }
    ensures from_before { hole_in (span 4 9) (span 2 6) ≡ span 0 3 }
    ensures up_to_it { hole_in (span 4 9) (span 2 4) ≡ span 0 1 }
    ensures of_the_whole { hole_in (span 1 9) (span 5 7) ≡ span 5 7 }
{}

/// The tokens of a span of a document without those in a hole of the document.
pub fn tokens_of_spans()
    ensures second_goes { tokens_without (span 2 5) (span 3 4 ∷ []) indexed.document ≡ token (codes "b") 1 1 ∷ token (codes "d") 2 2 ∷ [] }
    ensures first_goes { tokens_without (span 2 5) (span 1 3 ∷ []) indexed.document ≡ token (codes "c") 1 1 ∷ token (codes "d") 1 2 ∷ [] }
    ensures whole { whole_document indexed.document ≡ span 1 5 }
{}
