//! The definitions on small documents, by computation.
ghost use Rattle.std.specs.Prelude.{◌≡◌, ◌∷◌, [], codes, false, true, Some, None};
ghost use Rattle.ft_base.specs.Hits.{hit_place};
ghost use Rattle.text_forms.specs.Forms.{key_of};
ghost use Rattle.index_cursors.specs.Examples.{hit, span};
ghost use Rattle.index_meaning.specs.Entries.{entry};
ghost use Rattle.index_meaning.specs.Documents.{document_of, leaf_of};
ghost use Rattle.index_meaning.specs.Examples.{greeting, short, bare};
ghost use Rattle.index_versions.specs.FirstPlaces.{soonest};
ghost use Rattle.index_versions.specs.Terms.{aimed_at, first_in, version_term};
ghost use Rattle.index_versions.specs.Versions.{all_hits, stands_in, term_at, term_hits, terms_of};
ghost use Rattle.index_versions.specs.steps.Held.{document_under, documents_with, held_at, ids_of_leaf, listed, listed_ids};
ghost use Rattle.index_versions.specs.steps.Held.{nothing_held, numbers, place_following, word_of};
ghost use Rattle.index_versions.specs.steps.Exchange.{exchanged, in_back, held_before, of_number};
ghost use Rattle.index_versions.specs.steps.Naming.{all_words};
ghost use Rattle.index_versions.specs.Examples.{breaks, first, given, second};

/// The terms of documents are their words, each under its key; a term has hits where it stands in a span.
pub fn terms_of_documents()
    ensures terms { terms_of (short ∷ bare ∷ []) ≡ entry (key_of (codes "world")) (codes "world") ∷ [] }
    ensures no_words { terms_of (bare ∷ []) ≡ [] }
    ensures number { (term_at 0 (short ∷ [])).word ≡ codes "world" }
    ensures hits { term_hits 0 3 (span 1 2) (short ∷ bare ∷ []) ≡ hit 1 1 1 ∷ [] }
    ensures outside { term_hits 0 3 (span 1 1) (short ∷ bare ∷ []) ≡ [] }
    ensures another_document { term_hits 0 5 (span 1 2) (short ∷ bare ∷ []) ≡ [] }
    ensures all_places { all_hits 7 (span 2 4) (short ∷ greeting ∷ []) ≡ hit 2 1 1 ∷ hit 3 1 1 ∷ [] }
{}

/// A term stands in a document where it has a place; in one that isn't there it doesn't. With its version it says where a cursor is aimed.
pub fn terms_in_documents()
    ensures there { stands_in 0 3 (short ∷ bare ∷ []) ≡ true }
    ensures not_there { stands_in 0 5 (short ∷ bare ∷ []) ≡ false }
    ensures no_document { stands_in 0 9 (short ∷ bare ∷ []) ≡ false }
    ensures aimed { aimed_at 3 (span 1 2) (version_term (short ∷ bare ∷ []) 0) ≡ hit_place (hit 1 1 1 ∷ []) 0 }
{}

/// The first place of a term in a span is where a cursor stands that was aimed there; of several, the one before the others counts.
pub fn first_places()
    ensures first { first_in 3 (span 1 2) (version_term (short ∷ bare ∷ []) 0) ≡ Some 1 }
    ensures at_the_end { first_in 3 (span 1 1) (version_term (short ∷ bare ∷ []) 0) ≡ None }
    ensures after { first_in 3 (span 2 9) (version_term (short ∷ bare ∷ []) 0) ≡ None }
    ensures no_document { first_in 9 (span 1 2) (version_term (short ∷ bare ∷ []) 0) ≡ None }
    ensures of_several { soonest (Some 5 ∷ None ∷ Some 3 ∷ Some 4 ∷ []) ≡ Some 3 }
    ensures of_none { soonest (None ∷ None ∷ []) ≡ None }
{}

/// An id names a word, and a document over ids means what its ids name.
pub fn documents_over_ids()
    ensures word { word_of given 0 ≡ codes "Hello" }
    ensures not_given { word_of given 2 ≡ [] }
    ensures meant { document_under given second ≡ document_of (leaf_of 0 (codes "world" ∷ []) ∷ []) breaks }
    ensures numbers { numbers (first ∷ second ∷ []) ≡ 3 ∷ 7 ∷ [] }
    ensures found { held_at 7 (first ∷ second ∷ []) ≡ second }
    ensures not_found { held_at 5 (first ∷ second ∷ []) ≡ nothing_held 5 }
    ensures one_listed { listed (Some first) ≡ first ∷ [] }
    ensures none_listed { listed_ids None ≡ [] }
    ensures ids_listed { listed_ids (Some first) ≡ 0 ∷ 1 ∷ 1 ∷ [] }
{}

/// A document has an id once, however often the id stands there.
pub fn counted_ids()
    ensures both { documents_with 1 (first ∷ second ∷ []) ≡ 2 }
    ensures one { documents_with 0 (first ∷ second ∷ []) ≡ 1 }
    ensures none { documents_with 2 (first ∷ second ∷ []) ≡ 0 }
{}

/// A document takes the place of the one with its number, or comes between the others.
pub fn exchanged_documents()
    ensures held_before { held_before 7 (first ∷ second ∷ []) ≡ first ∷ [] }
    ensures of_number { of_number 7 (first ∷ second ∷ []) ≡ second ∷ [] }
    ensures in_back { in_back 3 (first ∷ second ∷ []) ≡ second ∷ [] }
    ensures replaced { exchanged 7 (nothing_held 7 ∷ []) (first ∷ second ∷ []) ≡ first ∷ nothing_held 7 ∷ [] }
    ensures between { exchanged 5 (nothing_held 5 ∷ []) (first ∷ second ∷ []) ≡ first ∷ nothing_held 5 ∷ second ∷ [] }
    ensures gone { exchanged 3 [] (first ∷ second ∷ []) ≡ second ∷ [] }
{}

/// A leaf is found by its number, and the place after it counts it too.
pub fn places_of_leaves()
    ensures ids { ids_of_leaf 2 first.index.leaves ≡ 1 ∷ [] }
    ensures no_leaf { ids_of_leaf 3 first.index.leaves ≡ [] }
    ensures held_before { place_following None (4 ∷ 2 ∷ []) ≡ 0 }
    ensures after_first { place_following (Some (record { 0 = 4 })) (4 ∷ 2 ∷ []) ≡ 1 }
    ensures after_last { place_following (Some (record { 0 = 2 })) (4 ∷ 2 ∷ []) ≡ 2 }
    ensures words { all_words (leaf_of 4 (codes "Hello" ∷ []) ∷ leaf_of 2 (codes "world" ∷ []) ∷ []) ≡ codes "Hello" ∷ codes "world" ∷ [] }
{}
