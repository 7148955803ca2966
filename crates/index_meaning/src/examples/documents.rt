//! The definitions on small documents, by computation.
ghost use Rattle.std.specs.Prelude.{◌≡◌, ◌∷◌, [], true, false, codes, map, Some, None};
ghost use Rattle.index_meaning.specs.Entries.{entry};
ghost use Rattle.index_meaning.specs.Documents.{words_of, token_count, breaks_of, no_document, numbered};
ghost use Rattle.index_meaning.specs.Documents.{leaf_ids, has_leaf, leaf_words, with_leaf, without_leaf, with_breaks};
ghost use Rattle.index_meaning.specs.Documents.{document_ids, has_document, document_at, with_document, without_document};
ghost use Rattle.index_meaning.specs.Examples.{lower, greeting, short, bare, leaf};
ghost use Rattle.index_meaning.specs.Index.{rows, terms, document_count, index, term_of, IndexRow};
ghost use Rattle.index_meaning.specs.Postings.{places};

/// The words of a document are those of its leaves, in the order of the leaves, whatever their numbers are.
pub fn words_of_documents()
    ensures words { words_of greeting.document ≡ codes "Hello" ∷ codes "hello" ∷ codes "world" ∷ [] }
    ensures no_words { token_count bare.document ≡ 0 }
{}

/// Rows are in the order of keys, words, documents and places.
pub fn rows_in_order()
    ensures keys { map (λ row. row.term.key) (rows lower (greeting ∷ short ∷ [])) ≡ codes "hello" ∷ codes "hello" ∷ codes "world" ∷ codes "world" ∷ [] }
    ensures words { map (λ row. row.term.word) (rows lower (greeting ∷ short ∷ [])) ≡ codes "Hello" ∷ codes "hello" ∷ codes "world" ∷ codes "world" ∷ [] }
    ensures documents { map (λ row. row.id) (rows lower (greeting ∷ short ∷ [])) ≡ 7 ∷ 7 ∷ 3 ∷ 7 ∷ [] }
    ensures places { map (λ row. row.place) (rows lower (greeting ∷ short ∷ [])) ≡ 1 ∷ 2 ∷ 1 ∷ 3 ∷ [] }
    ensures none { rows lower (bare ∷ []) ≡ [] }
{}

/// A term comes once, however often it stands in the documents.
pub fn terms_once()
    ensures terms { terms lower (greeting ∷ short ∷ []) ≡
        entry (codes "hello") (codes "Hello") ∷ entry (codes "hello") (codes "hello") ∷ entry (codes "world") (codes "world") ∷ [] }
    ensures in_both { document_count lower (entry (codes "world") (codes "world")) (greeting ∷ short ∷ bare ∷ []) ≡ 2 }
    ensures by_word { document_count lower (entry (codes "hello") (codes "Hello")) (greeting ∷ short ∷ bare ∷ []) ≡ 1 }
{}

/// A document without words is in the index with nothing in it.
pub fn counted_documents()
    ensures tokens { map (λ d. d.tokens) ((index lower (greeting ∷ bare ∷ [])).documents) ≡ 3 ∷ 0 ∷ [] }
    ensures ids { map (λ d. d.id) ((index lower (greeting ∷ bare ∷ [])).documents) ≡ 7 ∷ 5 ∷ [] }
{}

/// Places count the words of a document from 1, whatever leaves they are in.
pub fn places_of_words()
    ensures places { places (codes "world") greeting.document ≡ 3 ∷ [] }
    ensures exact_word { places (codes "hello") greeting.document ≡ 2 ∷ [] }
    ensures nowhere { places (codes "hell") greeting.document ≡ [] }
{}

/// A leaf is known by its number, wherever it stands.
pub fn leaves_by_number()
    ensures ids { leaf_ids greeting.document.leaves ≡ 4 ∷ 2 ∷ [] }
    ensures there { has_leaf 2 greeting.document ≡ true }
    ensures not_there { has_leaf 3 greeting.document ≡ false }
    ensures words { leaf_words 2 greeting.document.leaves ≡ codes "hello" ∷ codes "world" ∷ [] }
    ensures no_words { leaf_words 3 greeting.document.leaves ≡ [] }
{}

/// A leaf comes in directly after another one, or before all; the breaks stay.
pub fn leaves_that_come()
    ensures before { leaf_ids ((with_leaf None (leaf 9 []) greeting.document).leaves) ≡ 9 ∷ 4 ∷ 2 ∷ [] }
    ensures between { leaf_ids ((with_leaf (Some (record { 0 = 4 })) (leaf 9 []) greeting.document).leaves) ≡ 4 ∷ 9 ∷ 2 ∷ [] }
    ensures after_all { leaf_ids ((with_leaf (Some (record { 0 = 2 })) (leaf 9 []) greeting.document).leaves) ≡ 4 ∷ 2 ∷ 9 ∷ [] }
    ensures alone { leaf_ids ((with_leaf None (leaf 9 []) bare.document).leaves) ≡ 9 ∷ [] }
    ensures breaks { breaks_of (with_leaf None (leaf 9 []) greeting.document) ≡ record { sentences = 1 ∷ []; paragraphs = 1 ∷ [] } }
{}

/// A leaf goes by its number, and other breaks leave the leaves.
pub fn leaves_that_go()
    ensures first { leaf_ids ((without_leaf 4 greeting.document).leaves) ≡ 2 ∷ [] }
    ensures last { leaf_ids ((without_leaf 2 greeting.document).leaves) ≡ 4 ∷ [] }
    ensures breaks_kept { breaks_of (without_leaf 2 greeting.document) ≡ record { sentences = 1 ∷ []; paragraphs = 1 ∷ [] } }
    ensures breaks { breaks_of (with_breaks (record { sentences = 1 ∷ 3 ∷ []; paragraphs = 2 ∷ [] }) greeting.document)
        ≡ record { sentences = 1 ∷ 3 ∷ []; paragraphs = 2 ∷ [] } }
    ensures leaves { leaf_ids ((with_breaks (record { sentences = []; paragraphs = [] }) greeting.document).leaves) ≡ 4 ∷ 2 ∷ [] }
{}

/// Documents are in the order of their numbers, each once.
pub fn documents_by_number()
    ensures there { has_document 5 (short ∷ bare ∷ []) ≡ true }
    ensures not_there { has_document 4 (short ∷ bare ∷ []) ≡ false }
    ensures found { document_at 7 (short ∷ greeting ∷ []) ≡ greeting.document }
    ensures none { document_at 5 (short ∷ greeting ∷ []) ≡ no_document }
    ensures only { with_document bare [] ≡ bare ∷ [] }
    ensures first { document_ids (with_document short (bare ∷ greeting ∷ [])) ≡ 3 ∷ 5 ∷ 7 ∷ [] }
    ensures between { document_ids (with_document bare (short ∷ greeting ∷ [])) ≡ 3 ∷ 5 ∷ 7 ∷ [] }
    ensures last { document_ids (with_document greeting (short ∷ bare ∷ [])) ≡ 3 ∷ 5 ∷ 7 ∷ [] }
    ensures replaced { with_document (numbered 5 short.document) (short ∷ bare ∷ greeting ∷ []) ≡ short ∷ numbered 5 short.document ∷ greeting ∷ [] }
    ensures gone { without_document 5 (short ∷ bare ∷ greeting ∷ []) ≡ short ∷ greeting ∷ [] }
    ensures absent { without_document 4 (short ∷ bare ∷ []) ≡ short ∷ bare ∷ [] }
{}
