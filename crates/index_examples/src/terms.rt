//! Terms in order, with their ids, by computation.

ghost use Rattle.std.specs.Prelude.{◌≡◌, ◌∷◌, [], codes, true, false, None, Some};
ghost use Rattle.index_meaning.specs.Dictionaries.{term, are_apart, id_of, ids, ids_below, with_term};
ghost use Rattle.index_meaning.specs.Entries.{entry, is_sorted, found, key_count, span, stands_at, with_entry};
ghost use Rattle.index_meaning.specs.EntryExamples.{a, b, c, capital_a, capital_b};

/// Terms are in order where each stands before all that follow it.
pub fn terms_out_of_order()
    ensures the_last_two { is_sorted (a ∷ c ∷ b ∷ []) ≡ false }
    ensures words_of_one_key { is_sorted (a ∷ capital_a ∷ []) ≡ false }
{}

/// The terms of a key are those between the smaller keys and the greater ones.
pub fn terms_of_a_key()
    ensures between_others { found (codes "b") (a ∷ capital_b ∷ b ∷ c ∷ []) ≡ Some (span 1 3) }
    ensures the_first { found (codes "a") (capital_a ∷ a ∷ b ∷ []) ≡ Some (span 0 2) }
    ensures its_first_number { (span 1 3).from ≡ 1 }
    ensures the_number_after_its_last { (span 1 3).to ≡ 3 }
    ensures two_words_of_one_key { key_count (capital_a ∷ entry (codes "a") (codes "b") ∷ []) ≡ 1 }
    ensures keys_against_their_order { key_count (b ∷ a ∷ []) ≡ 2 }
    ensures three_keys { key_count (capital_a ∷ a ∷ b ∷ c ∷ []) ≡ 3 }
{}

/// No two ids are the same, and each is below a number.
pub fn ids_of_terms()
    ensures the_last_two { are_apart (term a 1 ∷ term b 0 ∷ term c 0 ∷ []) ≡ false }
    ensures as_the_terms_stand { ids (term a 1 ∷ term b 0 ∷ []) ≡ 1 ∷ 0 ∷ [] }
    ensures each_above_the_one_before { are_apart (term a 0 ∷ term b 1 ∷ []) ≡ true }
    ensures of_none_that_is_there { id_of a (term b 0 ∷ []) ≡ None }
    ensures one_of_two { ids_below 1 (term a 1 ∷ term b 0 ∷ []) ≡ false }
{}

/// Nothing changes where an entry is put in that is there, and one is at a place where no other stands.
pub fn entries_that_are_there()
    ensures before_another { with_entry a (a ∷ b ∷ []) ≡ a ∷ b ∷ [] }
    ensures with_its_id { with_term (term a 7) (term a 3 ∷ term b 4 ∷ []) ≡ term a 3 ∷ term b 4 ∷ [] }
    ensures at_a_greater_one { stands_at a 1 (a ∷ c ∷ []) ≡ false }
{}
