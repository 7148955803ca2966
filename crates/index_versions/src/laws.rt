//! What holds of the terms of documents: each law is the contract of a function without a body.

ghost use Rattle.std.specs.Prelude.{◌≡◌, ℕ, List, flat_map, map};
ghost use Rattle.std.specs.Set.{distinct_count};
ghost use Rattle.std.specs.Str.{bytes_eq};
ghost use Rattle.index_meaning.specs.Documents.{Numbered, words_of};
ghost use Rattle.index_meaning.specs.Entries.{key_count};
ghost use Rattle.index_meaning.specs.Index.{terms};

/// The terms of documents have as many keys as their words have different ones.
pub fn keys_law()
    ensures { (key : List ℕ → List ℕ) (documents : List Numbered)
        → key_count (terms key documents) ≡ distinct_count bytes_eq (map key (flat_map (λ d. words_of d.document) documents)) }
{}
