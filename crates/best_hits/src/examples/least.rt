//! Lists of hits in their order, by computation.
#![tactic(auto)]

ghost use Rattle.std.specs.Prelude.{◌≡◌, ◌∷◌, [], codes, true, false};
ghost use Rattle.all_matches.specs.Examples.{text};
ghost use Rattle.all_matches.specs.Hits.{hit_on};
ghost use Rattle.best_hits.specs.Least.{comes_before, least};

/// By the first and then the last places, hit by hit, whatever the numbers of the phrases; a list that goes on comes after the one that ends.
pub fn lists_in_order()
    ensures first_place { comes_before (hit_on (text (codes "a")) 1 (record { from = 1; to = 9 }) ∷ []) (hit_on (text (codes "a")) 1 (record { from = 2; to = 2 }) ∷ []) ≡ true }
    ensures last_place { comes_before (hit_on (text (codes "a")) 1 (record { from = 1; to = 2 }) ∷ []) (hit_on (text (codes "a")) 1 (record { from = 1; to = 3 }) ∷ []) ≡ true }
    ensures same { comes_before (hit_on (text (codes "a")) 1 (record { from = 1; to = 2 }) ∷ []) (hit_on (text (codes "a")) 2 (record { from = 1; to = 2 }) ∷ []) ≡ false }
    ensures later_last { comes_before (hit_on (text (codes "a")) 1 (record { from = 1; to = 3 }) ∷ []) (hit_on (text (codes "a")) 1 (record { from = 1; to = 2 }) ∷ []) ≡ false }
    ensures later_first { comes_before (hit_on (text (codes "a")) 1 (record { from = 2; to = 2 }) ∷ []) (hit_on (text (codes "a")) 1 (record { from = 1; to = 3 }) ∷ []) ≡ false }
    ensures second_hit { comes_before (hit_on (text (codes "a")) 1 (record { from = 1; to = 1 }) ∷ hit_on (text (codes "a")) 2 (record { from = 2; to = 2 }) ∷ [])
        (hit_on (text (codes "a")) 1 (record { from = 1; to = 1 }) ∷ hit_on (text (codes "a")) 2 (record { from = 3; to = 3 }) ∷ []) ≡ true }
    ensures other_first { comes_before (hit_on (text (codes "a")) 1 (record { from = 2; to = 2 }) ∷ hit_on (text (codes "a")) 2 (record { from = 2; to = 2 }) ∷ [])
        (hit_on (text (codes "a")) 1 (record { from = 1; to = 1 }) ∷ hit_on (text (codes "a")) 2 (record { from = 3; to = 3 }) ∷ []) ≡ false }
    ensures other_last { comes_before (hit_on (text (codes "a")) 1 (record { from = 1; to = 3 }) ∷ hit_on (text (codes "a")) 2 (record { from = 2; to = 2 }) ∷ [])
        (hit_on (text (codes "a")) 1 (record { from = 1; to = 2 }) ∷ hit_on (text (codes "a")) 2 (record { from = 3; to = 3 }) ∷ []) ≡ false }
    ensures prefix { comes_before [] (hit_on (text (codes "a")) 1 (record { from = 1; to = 1 }) ∷ []) ≡ true }
    ensures longer { comes_before (hit_on (text (codes "a")) 1 (record { from = 1; to = 1 }) ∷ []) [] ≡ false }
    ensures empty { comes_before [] [] ≡ false }
    ensures first_of_two { least ((hit_on (text (codes "a")) 1 (record { from = 1; to = 1 }) ∷ []) ∷ (hit_on (text (codes "a")) 2 (record { from = 1; to = 1 }) ∷ []) ∷ [])
        ≡ hit_on (text (codes "a")) 1 (record { from = 1; to = 1 }) ∷ [] }
{}
