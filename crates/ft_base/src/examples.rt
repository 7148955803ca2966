//! The definitions of lists of hits on small lists, by computation.
ghost use Rattle.std.specs.Prelude.{◌≡◌, ◌∷◌, [], true, false, Some, None};
ghost use Rattle.ft_base.specs.Hits.{comes_before, is_sorted, hit_place, hit_at, one_further, hits_passed, sought, at_first};
ghost use Rattle.ft_base.specs.HitExamples.{word, phrase};

/// The first word decides, then the last, then the number of the phrase; no hit comes before itself.
pub fn hits_in_order()
    ensures first_word { comes_before (phrase 2 1 5) (phrase 1 2 3) ≡ true }
    ensures last_word { comes_before (phrase 2 1 3) (phrase 1 1 5) ≡ true }
    ensures number { comes_before (phrase 1 1 3) (phrase 2 1 3) ≡ true }
    ensures back { comes_before (phrase 2 1 3) (phrase 1 1 3) ≡ false }
    ensures itself { comes_before (word 4) (word 4) ≡ false }
    ensures sorted { is_sorted (word 1 ∷ word 3 ∷ word 4 ∷ []) ≡ true }
    ensures twice { is_sorted (word 1 ∷ word 1 ∷ []) ≡ false }
    ensures apart { is_sorted (word 2 ∷ word 3 ∷ word 1 ∷ []) ≡ false }
{}

/// A place is read, moved on, sought from and set back.
pub fn places_in_hits()
    ensures here { hit_at (hit_place (word 1 ∷ word 3 ∷ []) 1) ≡ Some (word 3) }
    ensures end { hit_at (hit_place (word 1 ∷ word 3 ∷ []) 2) ≡ None }
    ensures further { one_further (hit_place (word 1 ∷ word 3 ∷ []) 0) ≡ hit_place (word 1 ∷ word 3 ∷ []) 1 }
    ensures at_the_word { sought 3 (hit_place (word 1 ∷ word 3 ∷ word 6 ∷ []) 0) ≡ hit_place (word 1 ∷ word 3 ∷ word 6 ∷ []) 1 }
    ensures after_it { sought 4 (hit_place (word 1 ∷ word 3 ∷ word 6 ∷ []) 0) ≡ hit_place (word 1 ∷ word 3 ∷ word 6 ∷ []) 2 }
    ensures not_back { sought 1 (hit_place (word 1 ∷ word 3 ∷ word 6 ∷ []) 1) ≡ hit_place (word 1 ∷ word 3 ∷ word 6 ∷ []) 1 }
    ensures to_the_end { sought 7 (hit_place (word 1 ∷ word 3 ∷ word 6 ∷ []) 1) ≡ hit_place (word 1 ∷ word 3 ∷ word 6 ∷ []) 3 }
    ensures passed { hits_passed 4 (hit_place (word 1 ∷ word 3 ∷ word 6 ∷ []) 1) ≡ 1 }
    ensures first { at_first (hit_place (word 1 ∷ word 3 ∷ []) 2) ≡ hit_place (word 1 ∷ word 3 ∷ []) 0 }
{}
