//! What becomes of stamps, by computation.

ghost use Rattle.std.specs.Prelude.{◌≡◌, [], ◌∷◌, ℕ, codes};
ghost use Rattle.stamped_documents.specs.Examples.{first_named, second_named};
ghost use Rattle.stamped_documents.specs.Stamps.{renewed, restamped, without_stamp};

/// A document that is changed gets a new stamp, and each other keeps its own.
pub fn changed_documents()
    ensures second { restamped {A = ℕ} 7 ([] ∷ (1 ∷ []) ∷ [] ∷ []) (4 ∷ 5 ∷ 6 ∷ []) ≡ 4 ∷ 8 ∷ 6 ∷ [] }
    ensures two { restamped {A = ℕ} 7 ((2 ∷ []) ∷ [] ∷ (1 ∷ 3 ∷ []) ∷ []) (4 ∷ 5 ∷ 6 ∷ []) ≡ 7 ∷ 5 ∷ 9 ∷ [] }
    ensures none { restamped {A = ℕ} 7 ([] ∷ []) (4 ∷ 5 ∷ []) ≡ 4 ∷ 5 ∷ [] }
    ensures all { renewed 7 (4 ∷ 6 ∷ 5 ∷ []) ≡ 7 ∷ 8 ∷ 9 ∷ [] }
{}

/// The stamp of a document that is taken out goes.
pub fn documents_taken_out()
    ensures first { without_stamp (codes "a") (first_named ∷ second_named ∷ []) (4 ∷ 5 ∷ []) ≡ 5 ∷ [] }
    ensures second { without_stamp (codes "b") (first_named ∷ second_named ∷ []) (4 ∷ 5 ∷ []) ≡ 4 ∷ [] }
    ensures not_there { without_stamp (codes "c") (first_named ∷ second_named ∷ []) (4 ∷ 5 ∷ []) ≡ 4 ∷ 5 ∷ [] }
{}
