//! The definitions on small documents, by computation.
ghost use Rattle.std.specs.Prelude.{◌≡◌, ◌∷◌, [], true, false};
ghost use Rattle.index_document.specs.Terms.{are_distinct, document_of, has, leaf_ids, leaf_of, places_of, terms_of, with_leaf, without_leaf, words_of};

/// A term comes once, and terms ascend.
pub fn term_examples()
    ensures terms { terms_of (5 ∷ 3 ∷ 5 ∷ 8 ∷ []) ≡ 3 ∷ 5 ∷ 8 ∷ [] }
    ensures none { terms_of [] ≡ [] }
    ensures there { has 3 (5 ∷ 3 ∷ []) ≡ true }
    ensures not_there { has 4 (5 ∷ 3 ∷ []) ≡ false }
    ensures distinct { are_distinct (4 ∷ 9 ∷ []) ≡ true }
    ensures twice { are_distinct (4 ∷ 9 ∷ 4 ∷ []) ≡ false }
{}

/// Places count from 1, through the leaves in their order.
pub fn place_examples()
    ensures words { words_of (leaf_of 9 (3 ∷ 8 ∷ []) ∷ leaf_of 4 (5 ∷ 3 ∷ []) ∷ []) ≡ 3 ∷ 8 ∷ 5 ∷ 3 ∷ [] }
    ensures places { places_of 3 (leaf_of 9 (3 ∷ 8 ∷ []) ∷ leaf_of 4 (5 ∷ 3 ∷ []) ∷ []) ≡ 1 ∷ 4 ∷ [] }
    ensures nowhere { places_of 4 (leaf_of 9 (3 ∷ 8 ∷ []) ∷ leaf_of 4 (5 ∷ 3 ∷ []) ∷ []) ≡ [] }
{}

/// A leaf comes before the one that is at the place, and goes from its place.
pub fn leaf_examples()
    ensures between { leaf_ids ((with_leaf (document_of 7 (leaf_of 9 [] ∷ leaf_of 4 [] ∷ [])) 1 (leaf_of 2 [])).leaves) ≡ 9 ∷ 2 ∷ 4 ∷ [] }
    ensures at_the_end { leaf_ids ((with_leaf (document_of 7 (leaf_of 9 [] ∷ [])) 1 (leaf_of 2 [])).leaves) ≡ 9 ∷ 2 ∷ [] }
    ensures without { leaf_ids ((without_leaf (document_of 7 (leaf_of 9 [] ∷ leaf_of 4 [] ∷ [])) 0).leaves) ≡ 4 ∷ [] }
{}
