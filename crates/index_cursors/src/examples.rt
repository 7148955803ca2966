//! The definitions on a small document, by computation.
ghost use Rattle.std.specs.Prelude.{◌≡◌, ◌∷◌, [], true, false};
ghost use Rattle.index_cursors.specs.SpanHits.{started, is_inside, hits_in, words_in, word_hit, below, is_before_both, cursor_place};
ghost use Rattle.ft_base.specs.Hits.{hit_place};
ghost use Rattle.index_cursors.specs.Examples.{breaks, span, hit};

/// A word is in the last sentence that starts at it or before it; before the first one there is none.
pub fn starts_of_sentences()
    ensures first { started (1 ∷ 3 ∷ 5 ∷ []) 1 ≡ 1 }
    ensures between { started (1 ∷ 3 ∷ 5 ∷ []) 4 ≡ 2 }
    ensures at_a_start { started (1 ∷ 3 ∷ 5 ∷ []) 5 ≡ 3 }
    ensures after { started (1 ∷ 3 ∷ 5 ∷ []) 9 ≡ 3 }
    ensures before { started (2 ∷ []) 1 ≡ 0 }
    ensures hit { word_hit breaks 4 ≡ hit 4 2 1 }
{}

/// The first word of a span belongs to it, and the one at its end doesn't.
pub fn spans()
    ensures from { is_inside (span 2 5) 2 ≡ true }
    ensures last { is_inside (span 2 5) 4 ≡ true }
    ensures to { is_inside (span 2 5) 5 ≡ false }
    ensures before { is_inside (span 2 5) 1 ≡ false }
    ensures nothing { is_inside (span 2 2) 2 ≡ false }
{}

/// The places of a term in a span, and all places of one.
pub fn hits_of_spans()
    ensures some { hits_in breaks (span 2 6) (1 ∷ 2 ∷ 5 ∷ 6 ∷ []) ≡ hit 2 1 1 ∷ hit 5 3 2 ∷ [] }
    ensures all_places { hits_in breaks (span 1 7) (1 ∷ 6 ∷ []) ≡ hit 1 1 1 ∷ hit 6 3 2 ∷ [] }
    ensures none { hits_in breaks (span 3 5) (1 ∷ 2 ∷ 5 ∷ []) ≡ [] }
    ensures no_places { hits_in breaks (span 1 7) [] ≡ [] }
    ensures every { words_in breaks (span 4 6) ≡ hit 4 2 1 ∷ hit 5 3 2 ∷ [] }
    ensures empty { words_in breaks (span 4 4) ≡ [] }
    ensures reversed { words_in breaks (span 4 2) ≡ [] }
{}

/// What a cursor goes by: how many places are before its span, and where its list ends.
pub fn cursors()
    ensures below { below 5 (1 ∷ 4 ∷ 5 ∷ []) ≡ 2 }
    ensures both { is_before_both 5 4 3 ≡ true }
    ensures at_one { is_before_both 5 4 4 ≡ false }
    ensures at_the_other { is_before_both 4 5 4 ≡ false }
    ensures place { cursor_place breaks 6 1 2 (1 ∷ 2 ∷ 5 ∷ 6 ∷ []) ≡ hit_place (hit 2 1 1 ∷ hit 5 3 2 ∷ []) 1 }
{}
