//! The definitions on small lists, by computation.
ghost use Rattle.std.specs.Prelude.{◌≡◌, ◌∷◌, [], codes, true, false, Some, None};
ghost use Rattle.std.specs.declared.cmp.Ordering.TheVariants.{Less};
ghost use Rattle.index_meaning.specs.Entries.{entry, entry_cmp, is_sorted, with_entry, with_entries, without_entry, found, span, key_count};
ghost use Rattle.index_meaning.specs.EntryExamples.{a, b, c, capital_a, capital_b};

/// Entries are in the order of their keys, then of their words; a text stands after its beginnings.
pub fn entries_in_order()
    ensures keys { entry_cmp (entry (codes "a") (codes "z")) (entry (codes "b") (codes "a")) ≡ Less }
    ensures words { entry_cmp capital_a a ≡ Less }
    ensures beginnings { entry_cmp (entry (codes "a") (codes "z")) (entry (codes "ab") (codes "a")) ≡ Less }
    ensures sorted { is_sorted (capital_a ∷ a ∷ capital_b ∷ []) ≡ true }
    ensures twice { is_sorted (a ∷ a ∷ []) ≡ false }
    ensures apart { is_sorted (b ∷ c ∷ a ∷ []) ≡ false }
{}

/// An entry comes in once, at its place, and goes out alone.
pub fn changed_entries()
    ensures between { with_entry b (a ∷ c ∷ []) ≡ a ∷ b ∷ c ∷ [] }
    ensures there { with_entry a (a ∷ []) ≡ a ∷ [] }
    ensures other_word { with_entry capital_a (a ∷ []) ≡ capital_a ∷ a ∷ [] }
    ensures all { with_entries (c ∷ a ∷ []) (b ∷ []) ≡ a ∷ b ∷ c ∷ [] }
    ensures without { without_entry capital_a (capital_a ∷ a ∷ []) ≡ a ∷ [] }
    ensures not_there { without_entry b (a ∷ c ∷ []) ≡ a ∷ c ∷ [] }
{}

/// The terms of a key, and how many keys there are.
pub fn entries_of_a_key()
    ensures two { found (codes "b") (a ∷ capital_b ∷ b ∷ []) ≡ Some (span 1 3) }
    ensures none { found (codes "ab") (a ∷ b ∷ []) ≡ None }
    ensures keys { key_count (a ∷ capital_b ∷ b ∷ []) ≡ 2 }
    ensures no_keys { key_count [] ≡ 0 }
{}
