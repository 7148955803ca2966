//! The definitions on small counts, by computation.
ghost use Rattle.std.specs.Prelude.{◌≡◌, ◌∷◌, []};
ghost use Rattle.index_counts.specs.Counts.{count_of, count_with, count_without, fallen};

/// A term's count stands at its number, and is 0 after the last one.
pub fn counts_by_number()
    ensures first { count_of (2 ∷ 0 ∷ 1 ∷ []) 0 ≡ 2 }
    ensures last { count_of (2 ∷ 0 ∷ 1 ∷ []) 2 ≡ 1 }
    ensures after { count_of (2 ∷ 0 ∷ 1 ∷ []) 3 ≡ 0 }
{}

/// A document counts once for a term, however often it has it.
pub fn changed_counts()
    ensures twice { count_with (2 ∷ 0 ∷ 1 ∷ []) (2 ∷ 5 ∷ 2 ∷ []) 2 ≡ 2 }
    ensures new { count_with (2 ∷ 0 ∷ 1 ∷ []) (2 ∷ 5 ∷ 2 ∷ []) 5 ≡ 1 }
    ensures kept { count_with (2 ∷ 0 ∷ 1 ∷ []) (2 ∷ 5 ∷ 2 ∷ []) 0 ≡ 2 }
    ensures lowered { count_without (2 ∷ 0 ∷ 1 ∷ []) (0 ∷ 0 ∷ []) 0 ≡ 1 }
    ensures not_lowered { count_without (2 ∷ 0 ∷ 1 ∷ []) (0 ∷ 0 ∷ []) 2 ≡ 1 }
{}

/// The terms of a document that no document has any more, each once.
pub fn fallen_terms()
    ensures some { fallen (0 ∷ 2 ∷ 0 ∷ []) (2 ∷ 1 ∷ 0 ∷ 2 ∷ []) ≡ 0 ∷ 2 ∷ [] }
    ensures not_had { fallen (0 ∷ 2 ∷ 0 ∷ []) (1 ∷ []) ≡ [] }
    ensures after { fallen [] (4 ∷ []) ≡ 4 ∷ [] }
{}
