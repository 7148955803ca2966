//! The definitions on small dictionaries, by computation.
ghost use Rattle.std.specs.Prelude.{◌≡◌, ◌∷◌, [], true, false, Some, None};
ghost use Rattle.index_meaning.specs.Entries.{has_entry, number_of, stands_at};
ghost use Rattle.index_meaning.specs.Dictionaries.{term, dictionary, are_apart, are_given, ids_below, id_of, with_term, with_new, with_all_new, without_term};
ghost use Rattle.index_meaning.specs.EntryExamples.{a, b, c, capital_a};

/// Where an entry stands among others.
pub fn place_examples()
    ensures there { has_entry c (a ∷ c ∷ []) ≡ true }
    ensures other_word { has_entry capital_a (a ∷ c ∷ []) ≡ false }
    ensures number { number_of c (a ∷ c ∷ []) ≡ Some 1 }
    ensures first { number_of a (a ∷ c ∷ []) ≡ Some 0 }
    ensures no_number { number_of b (a ∷ c ∷ []) ≡ None }
    ensures second { stands_at c 1 (a ∷ c ∷ []) ≡ true }
    ensures another_place { stands_at c 0 (a ∷ c ∷ []) ≡ false }
    ensures later { stands_at c 2 (a ∷ c ∷ []) ≡ false }
{}

/// An entry keeps its id where others come and go.
pub fn id_examples()
    ensures put { with_term (term b 7) (term a 3 ∷ term c 4 ∷ []) ≡ term a 3 ∷ term b 7 ∷ term c 4 ∷ [] }
    ensures kept { with_term (term a 7) (term a 3 ∷ []) ≡ term a 3 ∷ [] }
    ensures new { with_new a (dictionary (term b 0 ∷ []) (b ∷ [])) ≡ dictionary (term a 1 ∷ term b 0 ∷ []) (b ∷ a ∷ []) }
    ensures there { with_new b (dictionary (term b 0 ∷ []) (b ∷ [])) ≡ dictionary (term b 0 ∷ []) (b ∷ []) }
    ensures all { with_all_new (c ∷ a ∷ c ∷ []) (dictionary (term b 1 ∷ []) (a ∷ b ∷ [])) ≡
        dictionary (term a 3 ∷ term b 1 ∷ term c 2 ∷ []) (a ∷ b ∷ c ∷ a ∷ []) }
    ensures id { id_of b (term a 1 ∷ term b 0 ∷ []) ≡ Some 0 }
    ensures no_id { id_of c (term a 1 ∷ term b 0 ∷ []) ≡ None }
{}

/// An id that was given names its entry for ever: one that went stays named by it, and gets a new id where it comes
/// again.
pub fn named_examples()
    ensures without { without_term a (dictionary (term a 1 ∷ term b 0 ∷ []) (b ∷ a ∷ [])) ≡ dictionary (term b 0 ∷ []) (b ∷ a ∷ []) }
    ensures not_there { without_term c (dictionary (term b 0 ∷ []) (b ∷ [])) ≡ dictionary (term b 0 ∷ []) (b ∷ []) }
    ensures again { with_new a (dictionary (term b 0 ∷ []) (b ∷ a ∷ [])) ≡ dictionary (term a 2 ∷ term b 0 ∷ []) (b ∷ a ∷ a ∷ []) }
    ensures given { are_given (b ∷ a ∷ a ∷ []) (term a 2 ∷ term b 0 ∷ []) ≡ true }
    ensures another { are_given (b ∷ a ∷ []) (term a 1 ∷ term b 1 ∷ []) ≡ false }
    ensures not_given { are_given (b ∷ a ∷ []) (term a 2 ∷ []) ≡ false }
{}

/// When ids are different, and below a number.
pub fn apart_examples()
    ensures apart { are_apart (term a 1 ∷ term b 0 ∷ []) ≡ true }
    ensures same { are_apart (term a 1 ∷ term b 1 ∷ []) ≡ false }
    ensures below { ids_below 2 (term a 1 ∷ term b 0 ∷ []) ≡ true }
    ensures not_below { ids_below 1 (term a 1 ∷ []) ≡ false }
{}
