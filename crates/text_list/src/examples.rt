//! The definitions on small texts, by computation.
ghost use Rattle.std.specs.Prelude.{◌≡◌, ◌∷◌, [], codes};
ghost use Rattle.text_list.specs.Ends.{start_at, texts};

/// Each text goes from the end of the one before it to its own; an empty one ends where it starts.
#[tactic(auto, unfolding(crate::specs::Ends::texts, crate::specs::Ends::start_at))]
pub fn text_examples()
    ensures two { texts 0 (2 ∷ 3 ∷ []) (codes "abc") ≡ codes "ab" ∷ codes "c" ∷ [] }
    ensures empty { texts 0 (1 ∷ 1 ∷ []) (codes "a") ≡ codes "a" ∷ [] ∷ [] }
    ensures none { texts 0 [] (codes "abc") ≡ [] }
    ensures first { start_at 0 (2 ∷ 3 ∷ []) 0 ≡ 0 }
    ensures second { start_at 0 (2 ∷ 3 ∷ []) 1 ≡ 2 }
{}
