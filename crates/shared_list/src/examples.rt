//! The definitions on small lists, by computation.
ghost use Rattle.std.specs.Prelude.{◌≡◌, ◌∷◌, [], ℕ};
ghost use Rattle.shared_list.specs.Blocks.{joined, start_of, starts_from};

/// Blocks of two items, of none and of one.
pub fn joined_blocks()
    ensures items { joined {T = ℕ} ((7 ∷ 8 ∷ []) ∷ [] ∷ (9 ∷ []) ∷ []) ≡ 7 ∷ 8 ∷ 9 ∷ [] }
    ensures start { start_of {T = ℕ} ((7 ∷ 8 ∷ []) ∷ [] ∷ (9 ∷ []) ∷ []) 2 ≡ 2 }
    ensures first { start_of {T = ℕ} ((7 ∷ 8 ∷ []) ∷ [] ∷ (9 ∷ []) ∷ []) 0 ≡ 0 }
    ensures starts { starts_from {T = ℕ} 5 ((7 ∷ 8 ∷ []) ∷ [] ∷ (9 ∷ []) ∷ []) ≡ 5 ∷ 7 ∷ 7 ∷ [] }
{}
