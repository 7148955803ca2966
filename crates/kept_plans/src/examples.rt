//! Texts that are used, by computation.
#![tactic(auto)]

ghost use Rattle.std.specs.Prelude.{◌≡◌, [], ◌∷◌, codes};
ghost use Rattle.kept_plans.specs.Kept.{all_used, emptied, nothing_kept, used};
ghost use Rattle.kept_plans.specs.Examples.{kept, many};

/// A text that is kept comes to the front and is a hit; one that isn't comes before the others.
pub fn text_used()
    ensures hit { used (codes "b") (kept (codes "a" ∷ codes "b" ∷ codes "c" ∷ []) 4) ≡ kept (codes "b" ∷ codes "a" ∷ codes "c" ∷ []) 5 }
    ensures prefix_again { used (codes "a") (kept (codes "a" ∷ codes "b" ∷ []) 0) ≡ kept (codes "a" ∷ codes "b" ∷ []) 1 }
    ensures new { used (codes "c") (kept (codes "a" ∷ codes "b" ∷ []) 4) ≡ kept (codes "c" ∷ codes "a" ∷ codes "b" ∷ []) 4 }
    ensures first { used (codes "a") nothing_kept ≡ kept (codes "a" ∷ []) 0 }
    ensures longer { used (codes "ab") (kept (codes "a" ∷ []) 0) ≡ kept (codes "ab" ∷ codes "a" ∷ []) 0 }
    ensures other_quotes { used (codes "'a'") (kept ((34 ∷ 97 ∷ 34 ∷ []) ∷ []) 0) ≡ kept (codes "'a'" ∷ (34 ∷ 97 ∷ 34 ∷ []) ∷ []) 0 }
{}

/// A text more than are kept takes the place of the last one; one that is kept takes no place.
pub fn too_many()
    ensures sixty_fourth { used (99 ∷ []) (kept (many 0 63) 2) ≡ kept ((99 ∷ []) ∷ many 0 63) 2 }
    ensures sixty_fifth { used (99 ∷ []) (kept (many 0 64) 2) ≡ kept ((99 ∷ []) ∷ many 0 63) 2 }
    ensures last_again { used (63 ∷ []) (kept (many 0 64) 2) ≡ kept ((63 ∷ []) ∷ many 0 63) 3 }
{}

/// The texts of one path are used in order: the second of two that are equal is a hit.
pub fn texts_used()
    ensures in_order { all_used (codes "a" ∷ codes "b" ∷ codes "c" ∷ []) nothing_kept ≡ kept (codes "c" ∷ codes "b" ∷ codes "a" ∷ []) 0 }
    ensures equal { all_used (codes "a" ∷ codes "a" ∷ []) nothing_kept ≡ kept (codes "a" ∷ []) 1 }
    ensures between { all_used (codes "a" ∷ codes "b" ∷ codes "a" ∷ []) (kept (codes "b" ∷ []) 0) ≡ kept (codes "a" ∷ codes "b" ∷ []) 2 }
    ensures none { all_used [] (kept (codes "a" ∷ []) 7) ≡ kept (codes "a" ∷ []) 7 }
    ensures emptied { all_used (codes "a" ∷ []) (emptied (kept (codes "a" ∷ []) 7)) ≡ kept (codes "a" ∷ []) 7 }
{}
