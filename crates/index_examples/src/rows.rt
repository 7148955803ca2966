//! What the index of small documents holds, by computation.

ghost use Rattle.std.specs.Prelude.{◌≡◌, ◌∷◌, [], codes, map, Some};
ghost use Rattle.std.specs.declared.cmp.Ordering.TheVariants.{Less, Greater};
ghost use Rattle.index_meaning.specs.Documents.{leaf_ids, with_leaf};
ghost use Rattle.index_meaning.specs.Entries.{entry};
ghost use Rattle.index_meaning.specs.EntryExamples.{a, b};
ghost use Rattle.index_meaning.specs.Examples.{bare, leaf, lower};
ghost use Rattle.index_meaning.specs.Index.{document_count, index, row_cmp, rows};
ghost use Rattle.index_meaning.specs.Postings.{places};
ghost use Rattle.index_examples.specs.Examples.{two_words, three_words, parted};

/// There is a row for each word of each document, in the order of keys, then words, then documents, then places.
pub fn rows_of_two_documents()
    ensures terms { map (λ row. row.term) (rows lower (two_words ∷ three_words ∷ []))
        ≡ entry (codes "a") (codes "A") ∷ entry (codes "a") (codes "a") ∷ entry (codes "a") (codes "a") ∷ entry (codes "a") (codes "a")
        ∷ entry (codes "b") (codes "b") ∷ [] }
    ensures documents { map (λ row. row.id) (rows lower (two_words ∷ three_words ∷ [])) ≡ 7 ∷ 3 ∷ 7 ∷ 7 ∷ 3 ∷ [] }
    ensures places { map (λ row. row.place) (rows lower (two_words ∷ three_words ∷ [])) ≡ 2 ∷ 2 ∷ 1 ∷ 3 ∷ 1 ∷ [] }
    ensures whichever_came_first { rows lower (three_words ∷ two_words ∷ []) ≡ rows lower (two_words ∷ three_words ∷ []) }
    ensures of_one_word { places (codes "a") three_words.document ≡ 1 ∷ 3 ∷ [] }
{}

/// Beside its rows an index keeps how many words a document has, and where its sentences and its paragraphs start.
pub fn breaks_of_a_document()
    ensures tokens { map (λ d. d.tokens) ((index lower (parted ∷ [])).documents) ≡ 3 ∷ [] }
    ensures sentences { map (λ d. d.sentences) ((index lower (parted ∷ [])).documents) ≡ (1 ∷ 3 ∷ []) ∷ [] }
    ensures paragraphs { map (λ d. d.paragraphs) ((index lower (parted ∷ [])).documents) ≡ (2 ∷ []) ∷ [] }
{}

/// The rows of a term stand by the numbers of their documents, and in one document by their places.
pub fn rows_of_a_term()
    ensures an_earlier_document { row_cmp (record { term = a; id = 3; place = 9 }) (record { term = a; id = 7; place = 1 }) ≡ Less }
    ensures an_earlier_place { row_cmp (record { term = a; id = 7; place = 1 }) (record { term = a; id = 7; place = 3 }) ≡ Less }
    ensures a_later_place { row_cmp (record { term = a; id = 7; place = 3 }) (record { term = a; id = 7; place = 1 }) ≡ Greater }
    ensures another_term { row_cmp (record { term = b; id = 3; place = 1 }) (record { term = a; id = 7; place = 3 }) ≡ Greater }
{}

/// A document has a term where some word of it is the term's.
pub fn documents_of_a_term()
    ensures of_two_one { document_count lower (entry (codes "a") (codes "A")) (two_words ∷ three_words ∷ []) ≡ 1 }
    ensures of_two_none { document_count lower (entry (codes "c") (codes "c")) (two_words ∷ three_words ∷ []) ≡ 0 }
    ensures without_words { document_count lower a (bare ∷ []) ≡ 0 }
{}

/// A leaf comes in directly after the one of a number, whichever stand before that one and after it.
pub fn leaves_among_others()
    ensures between { leaf_ids
        ((with_leaf (Some (record { 0 = 4 })) (leaf 9 [])
        (record { leaves = leaf 2 [] ∷ leaf 4 [] ∷ leaf 5 [] ∷ []; sentences = []; paragraphs = [] })).leaves) ≡ 2 ∷ 4 ∷ 9 ∷ 5 ∷ [] }
{}
