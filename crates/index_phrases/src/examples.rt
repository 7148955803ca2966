//! The hits of phrases in small spans, by computation.

ghost use Rattle.std.specs.Prelude.{◌≡◌, ◌∷◌, [], codes, true, false, None};
ghost use Rattle.index_cursors.specs.Examples.{breaks, span};
ghost use Rattle.index_meaning.specs.Examples.{bare, short};
ghost use Rattle.index_versions.specs.Terms.{version_term};
ghost use Rattle.place_merges.specs.Places.{any_word, one_of};
ghost use Rattle.place_merges.specs.Spots.{spot};
ghost use Rattle.index_phrases.specs.Cursors.{hits_where, phrase_aims};
ghost use Rattle.index_phrases.specs.Phrases.{hits_in_span, is_wanted, last_place, own_number, phrase_hits, numbered_hit, wanted_at, words_at};
ghost use Rattle.index_phrases.specs.Parts.{hits_in_part, may_begin, may_end};
ghost use Rattle.index_phrases.specs.Tokens.{interval_of, span_tokens, stands_on};
ghost use Rattle.index_phrases.specs.steps.Parting.{is_past};
ghost use Rattle.index_phrases.specs.declared.part.Edge.TheVariants.{Begin, End};
ghost use Rattle.ft_operators.specs.Bounds.{everywhere};
ghost use Rattle.ft_operators.specs.Examples.{between, words_between};
ghost use Rattle.index_phrases.specs.Examples.{document, hit, is_word, token};
ghost use Rattle.index_phrases.specs.declared.word_terms.WordTerms.TheVariants.{Any, Of};

/// Sentences are counted from that of the span's first word on, also where the span begins inside it.
pub fn numbers_of_a_span()
    ensures of_the_first_word { own_number (1 ∷ 3 ∷ 5 ∷ []) 4 4 ≡ 1 }
    ensures in_the_next { own_number (1 ∷ 3 ∷ 5 ∷ []) 4 5 ≡ 2 }
    ensures of_a_whole_text { own_number (1 ∷ 3 ∷ 5 ∷ []) 1 5 ≡ 3 }
    ensures after_no_start { own_number (9 ∷ []) 4 5 ≡ 0 }
{}

/// The words of a spot, and the hit on it in the numbers of the span.
pub fn hits_on_spots()
    ensures last { last_place (spot 5 3) ≡ 7 }
    ensures of_one_word { last_place (spot 5 1) ≡ 5 }
    ensures numbered_hit { numbered_hit 7 breaks (span 4 7) (spot 4 2) ≡ hit 7 1 2 1 2 1 2 }
    ensures later { numbered_hit 7 breaks (span 4 7) (spot 5 2) ≡ hit 7 2 3 2 2 2 2 }
{}

/// The spots come place after place, and at a place by their lengths; each once, and none past the end of the span.
pub fn hits_of_spans()
    ensures two_lengths { hits_in_span 2 breaks (span 4 7) ((one_of ((5 ∷ []) ∷ []) ∷ any_word ∷ []) ∷ (any_word ∷ []) ∷ [])
        ≡ hit 2 1 1 1 1 1 1 ∷ hit 2 2 2 2 2 2 2 ∷ hit 2 2 3 2 2 2 2 ∷ hit 2 3 3 2 2 2 2 ∷ [] }
    ensures twice_the_same { hits_in_span 2 breaks (span 5 6) ((any_word ∷ []) ∷ (any_word ∷ []) ∷ []) ≡ hit 2 1 1 1 1 1 1 ∷ [] }
    ensures past_the_end { hits_in_span 2 breaks (span 5 6) ((any_word ∷ any_word ∷ []) ∷ []) ≡ [] }
    ensures no_word { hits_in_span 2 breaks (span 5 6) ([] ∷ []) ≡ [] }
    ensures no_variant { hits_in_span 2 breaks (span 1 7) [] ≡ [] }
{}

/// Any word, and none where there is no term.
pub fn wanted_words()
    ensures any { is_wanted [] Any (codes "a") ≡ true }
    ensures none { is_wanted [] (Of []) (codes "a") ≡ false }
    ensures any_place { wanted_at [] 0 (span 1 3) Any ≡ any_word }
    ensures no_place { wanted_at [] 0 (span 1 3) (Of []) ≡ one_of [] }
{}

/// The word of a term and no other, at its places.
pub fn words_of_terms()
    ensures its_word { is_wanted (short ∷ bare ∷ []) (Of (version_term (short ∷ bare ∷ []) 0 ∷ [])) (codes "world") ≡ true }
    ensures another { is_wanted (short ∷ bare ∷ []) (Of (version_term (short ∷ bare ∷ []) 0 ∷ [])) (codes "hello") ≡ false }
    ensures places { wanted_at (short ∷ bare ∷ []) 3 (span 1 2) (Of (version_term (short ∷ bare ∷ []) 0 ∷ [])) ≡ one_of ((1 ∷ []) ∷ []) }
    ensures hits { phrase_hits (short ∷ bare ∷ []) 2 ((Of (version_term (short ∷ bare ∷ []) 0 ∷ []) ∷ []) ∷ []) 3 (span 1 2) ≡ hit 2 1 1 1 1 1 1 ∷ [] }
{}

/// A phrase may be aimed at a document that is there. Before it is aimed it has no hits.
pub fn aims_of_phrases()
    ensures there { (phrase_aims (short ∷ bare ∷ []) 2 []).may 3 (span 1 2) ≡ true }
    ensures not_there { (phrase_aims (short ∷ bare ∷ []) 2 []).may 4 (span 1 2) ≡ false }
    ensures any_word { (phrase_aims (short ∷ bare ∷ []) 2 ((Any ∷ []) ∷ [])).hits 3 (span 1 2) ≡ hit 2 1 1 1 1 1 1 ∷ [] }
    ensures before { hits_where (short ∷ bare ∷ []) 2 ((Any ∷ []) ∷ []) None ≡ [] }
{}

/// The words of a span with the numbers that they have there. The place at its end isn't one of its places.
pub fn tokens_of_spans()
    ensures words { words_at (span 2 4) document ≡ codes "b" ∷ codes "c" ∷ [] }
    ensures from_the_second { span_tokens (span 2 4) document ≡ token (codes "b") 1 1 ∷ token (codes "c") 2 1 ∷ [] }
    ensures all { span_tokens (span 1 5) document ≡ token (codes "a") 1 1 ∷ token (codes "b") 1 1 ∷ token (codes "c") 2 1 ∷ token (codes "d") 2 2 ∷ [] }
    ensures empty { span_tokens (span 3 3) document ≡ [] }
{}

/// Items stand on as many tokens.
pub fn items_on_tokens()
    ensures each { stands_on is_word (codes "a" ∷ codes "b" ∷ []) (token (codes "a") 1 1 ∷ token (codes "b") 1 1 ∷ []) ≡ true }
    ensures another_word { stands_on is_word (codes "a" ∷ codes "b" ∷ []) (token (codes "a") 1 1 ∷ token (codes "c") 1 1 ∷ []) ≡ false }
    ensures more_tokens { stands_on is_word (codes "a" ∷ []) (token (codes "a") 1 1 ∷ token (codes "b") 1 1 ∷ []) ≡ false }
    ensures more_items { stands_on is_word (codes "a" ∷ codes "b" ∷ []) (token (codes "a") 1 1 ∷ []) ≡ false }
    ensures none { stands_on is_word [] [] ≡ true }
    ensures interval { interval_of (spot 3 2) ≡ record { from = 3; to = 4 } }
{}

/// A hit begins and ends in bounds by the numbers that the span gives to its places.
pub fn edges_of_bounds()
    ensures begins { may_begin (words_between 2 3) 1 breaks (span 4 7) 5 ≡ true }
    ensures too_early { may_begin (words_between 2 3) 1 breaks (span 4 7) 4 ≡ false }
    ensures ends { may_end (words_between 2 3) breaks (span 4 7) 5 ≡ true }
    ensures too_late { may_end (words_between 2 3) breaks (span 4 7) 6 ≡ false }
    ensures sentence_before { may_begin (record everywhere { sentences = between 2 3 }) 1 breaks (span 4 7) 4 ≡ false }
    ensures sentence { may_begin (record everywhere { sentences = between 2 3 }) 1 breaks (span 4 7) 5 ≡ true }
    ensures paragraph { may_end (record everywhere { paragraphs = between 1 2 }) breaks (span 4 7) 4 ≡ true }
    ensures paragraph_behind { may_end (record everywhere { paragraphs = between 1 2 }) breaks (span 4 7) 5 ≡ false }
    ensures later_phrase { may_begin (record everywhere { order = record { query = 1; from = 2 } }) 2 breaks (span 4 7) 4 ≡ false }
    ensures that_phrase { may_begin (record everywhere { order = record { query = 1; from = 2 } }) 1 breaks (span 4 7) 4 ≡ true }
    ensures past_the_begin { is_past Begin (words_between 2 3) 1 breaks (span 4 7) 5 ≡ true }
    ensures past_the_end { is_past End (words_between 2 3) 1 breaks (span 4 7) 6 ≡ true }
    ensures not_past_the_end { is_past End (words_between 2 3) 1 breaks (span 4 7) 5 ≡ false }
{}

/// The hits in a part of a span are told in the numbers of the span.
pub fn hits_in_parts()
    ensures one_word { hits_in_part 2 breaks (span 4 7) (span 5 6) ((any_word ∷ []) ∷ []) ≡ hit 2 2 2 2 2 2 2 ∷ [] }
    ensures past_its_end { hits_in_part 2 breaks (span 4 7) (span 5 6) ((any_word ∷ any_word ∷ []) ∷ []) ≡ [] }
    ensures all { hits_in_part 2 breaks (span 5 6) (span 5 6) ((any_word ∷ []) ∷ []) ≡ hit 2 1 1 1 1 1 1 ∷ [] }
{}
