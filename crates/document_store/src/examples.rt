//! The definitions on small documents, by computation.

ghost use Rattle.std.specs.Prelude.{◌≡◌, ◌≢◌, ◌∷◌, [], ℕ, List, None, codes, false, true};
ghost use Rattle.std.specs.Set.{distinct_count, unique_keys};
ghost use Rattle.std.specs.Str.{bytes_eq};
ghost use Rattle.index_meaning.specs.Documents.{numbered};
ghost use Rattle.index_updates.specs.Follows.{token_document};
ghost use Rattle.plain_tree.specs.Document.{Node};
ghost use Rattle.tokenizer.specs.Tokens.{sentence_starts, tokens};
ghost use Rattle.document_store.specs.Documents.{changed_roots, edited_documents, has_name, limit_of, without};
ghost use Rattle.document_store.specs.Examples.{bare, deletion, first_named, last_named, nested, second_named};
ghost use Rattle.document_store.specs.Indexed.{IsIndexOf};

/// Documents by their names.
pub fn named_documents()
    ensures there { has_name (codes "b") (first_named ∷ second_named ∷ []) ≡ true }
    ensures not_there { has_name (codes "c") (first_named ∷ second_named ∷ []) ≡ false }
    ensures gone { without (codes "a") (first_named ∷ second_named ∷ []) ≡ second_named ∷ [] }
    ensures nothing_gone { without (codes "c") (first_named ∷ second_named ∷ []) ≡ first_named ∷ second_named ∷ [] }
{}

/// An edit of the second of three documents leaves the others; the places of those after may be left out.
pub fn edits_of_documents()
    ensures edited { edited_documents deletion ([] ∷ ((1 ∷ []) ∷ []) ∷ []) (first_named ∷ second_named ∷ last_named ∷ [])
        ≡ first_named ∷ record { name = codes "b"; root = bare } ∷ last_named ∷ [] }
    ensures changed { changed_roots deletion ([] ∷ ((1 ∷ []) ∷ []) ∷ []) (first_named ∷ second_named ∷ last_named ∷ []) ≡ bare ∷ [] }
    ensures none { changed_roots deletion ([] ∷ [] ∷ []) (first_named ∷ second_named ∷ []) ≡ [] }
    ensures no_documents { limit_of [] ≡ None }
{}

/// A text that stands twice counts once.
pub fn different_texts()
    ensures once { unique_keys bytes_eq (codes "a" ∷ codes "b" ∷ codes "a" ∷ []) ≡ codes "b" ∷ codes "a" ∷ [] }
    ensures count { distinct_count bytes_eq (codes "a" ∷ codes "b" ∷ codes "a" ∷ []) ≡ 2 }
    ensures nothing { distinct_count bytes_eq [] ≡ 0 }
{}

/// A version is the index of documents under the abbreviations that their sentences are of, and under no others.
pub fn indexes_of_documents()
    ensures nothing { (abbreviations : List (List ℕ)) → IsIndexOf abbreviations [] [] }
    ensures two { (abbreviations : List (List ℕ)) → IsIndexOf abbreviations (first_named ∷ last_named ∷ [])
        (numbered 2 (token_document abbreviations nested) ∷ numbered 5 (token_document abbreviations nested) ∷ []) }
    ensures too_few { (abbreviations : List (List ℕ)) → IsIndexOf abbreviations (first_named ∷ []) [] → ⊥ }
    ensures other_sentences { (abbreviations others : List (List ℕ)) (root : Node)
        → sentence_starts (tokens abbreviations root) ≢ sentence_starts (tokens others root)
        → IsIndexOf abbreviations (record { name = codes "a"; root = root } ∷ []) (numbered 0 (token_document others root) ∷ []) → ⊥ }
{}
