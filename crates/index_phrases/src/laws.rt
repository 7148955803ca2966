//! What the hits of a phrase over an index have to do with the tokens of its documents.

ghost use Rattle.std.specs.Prelude.{◌≡◌, ◌<◌, ◌+◌, ◌-◌, ◌==◌, ◌&&◌, ℕ, suc, List, drop, filter, length, map};
ghost use Rattle.std.specs.List.{list_any};
ghost use Rattle.ft_base.specs.declared.options.Options.{Options};
ghost use Rattle.ft_base.specs.declared.span.Span.{Span};
ghost use Rattle.ft_base.specs.declared.token.Token.{Token};
ghost use Rattle.all_matches.specs.Counting.{begins_as};
ghost use Rattle.all_matches.specs.Hits.{hit_on, hits, paragraph_at, passes_item, sentence_at};
ghost use Rattle.all_matches.specs.Spans.{in_span, renumbered};
ghost use Rattle.all_matches.specs.Variants.{Item, Lexicon, variants};
ghost use Rattle.index_cursors.specs.SpanHits.{started};
ghost use Rattle.index_meaning.specs.Documents.{Document, Numbered, document_at};
ghost use Rattle.place_merges.specs.Spots.{spots_between};
ghost use Rattle.index_phrases.specs.Phrases.{phrase_hits};
ghost use Rattle.index_phrases.specs.Tokens.{AreVariants, IsSpan, IsText, interval_of, span_tokens};
ghost use Rattle.index_phrases.specs.declared.word_terms.WordTerms.{WordTerms};

/// The hits of a phrase among some tokens are those on the spots at which a variant of that length begins, place after place,
/// and at a place by their lengths: each spot once, however many variants stand there.
pub fn spots_law()
    ensures { (lexicon : Lexicon) (options : Options) (number : ℕ) (phrase : List Item) (tokens : List Token)
        → hits lexicon options number phrase tokens
        ≡ map (λ at. hit_on tokens number (interval_of at))
        (filter (λ at. list_any (λ variant. (length variant == at.words) && begins_as (passes_item lexicon options) variant (drop (at.place - 1) tokens))
        (variants lexicon options phrase)) (spots_between 1 (suc (length tokens)))) }
{}

/// The tokens of a span are those of the document at its places, with their sentences and paragraphs counted from those of the
/// span's first word on.
pub fn span_tokens_law()
    ensures { (document : Document) (tokens : List Token) (span : Span) → IsText document tokens → IsSpan span document
        → span_tokens span document
        ≡ map (renumbered (λ n. n - (started document.sentences span.from - 1)) (λ n. n - (started document.paragraphs span.from - 1))) (in_span span tokens) }
{}

/// Such a token has, in the document's numbers, the sentence and the paragraph that start at its place or last before it.
pub fn span_numbers_law()
    ensures sentences { (document : Document) (tokens : List Token) (span : Span) → IsText document tokens → IsSpan span document
        → (i : ℕ) → i < length (in_span span tokens) → sentence_at (in_span span tokens) (suc i) ≡ started document.sentences (span.from + i) }
    ensures paragraphs { (document : Document) (tokens : List Token) (span : Span) → IsText document tokens → IsSpan span document
        → (i : ℕ) → i < length (in_span span tokens) → paragraph_at (in_span span tokens) (suc i) ≡ started document.paragraphs (span.from + i) }
{}

/// Where a phrase's variants by terms stand as the phrase's own do, its hits in a span of a document are those that it has among
/// the tokens of the span.
pub fn phrase_hits_law()
    ensures { (version : List Numbered) (doc number : ℕ) (span : Span) (terms : List (List WordTerms))
        → (lexicon : Lexicon) (options : Options) (phrase : List Item)
        → IsSpan span (document_at doc version)
        → AreVariants version terms lexicon options phrase (span_tokens span (document_at doc version))
        → phrase_hits version number terms doc span ≡ hits lexicon options number phrase (span_tokens span (document_at doc version)) }
{}
