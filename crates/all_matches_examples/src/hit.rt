//! Hits joined, and told in the numbers of a part of a text, by computation.

ghost use Rattle.std.specs.Prelude.{◌≡◌, ◌+◌, ◌∷◌, [], Some, true, false, codes};
ghost use Rattle.ft_base.specs.HitExamples.{phrase};
ghost use Rattle.all_matches.specs.Examples.{in_sentences, with_a_hole, span, text};
ghost use Rattle.all_matches.specs.Join.{join};
ghost use Rattle.all_matches.specs.Numbering.{shifted_hit, shifted_match};
ghost use Rattle.all_matches.specs.Spans.{in_span, lies_in_span, renumbered, told_in_span};
ghost use Rattle.all_matches_examples.specs.Examples.{in_paragraphs};

/// The joined hit reaches over the sentences and the paragraphs of all, whichever stands first in the list.
pub fn units_of_joined_hits()
    ensures along_the_text { join (in_paragraphs 1 2 (in_sentences 2 3 (phrase 1 3 7)) ∷ in_paragraphs 3 4 (in_sentences 5 8 (phrase 2 10 14)) ∷ [])
        ≡ Some (with_a_hole (in_paragraphs 1 4 (in_sentences 2 8 (phrase 1 3 14)))) }
    ensures against_the_text { join (in_paragraphs 3 4 (in_sentences 5 8 (phrase 2 10 14)) ∷ in_paragraphs 1 2 (in_sentences 2 3 (phrase 1 3 7)) ∷ [])
        ≡ Some (with_a_hole (in_paragraphs 1 4 (in_sentences 2 8 (phrase 2 3 14)))) }
{}

/// The tokens of a span are those from its first place up to the one before its end, and keep their words where they are numbered anew.
pub fn tokens_of_a_span()
    ensures inside { in_span (span 2 4) (text (codes "a b c d")) ≡ text (codes "b c") }
    ensures whole { in_span (span 1 3) (text (codes "a b")) ≡ text (codes "a b") }
    ensures none { in_span (span 2 2) (text (codes "a b")) ≡ [] }
    ensures numbered_anew { renumbered (λ n. 10 + n) (λ n. 20 + n) (record { word = codes "a"; sentence = 3; paragraph = 2 })
        ≡ record { word = codes "a"; sentence = 13; paragraph = 22 } }
{}

/// A hit lies in a span where it begins no earlier and ends no later.
pub fn hits_in_a_span()
    ensures from_end_to_end { lies_in_span (span 3 6) (phrase 1 3 5) ≡ true }
    ensures inside { lies_in_span (span 3 6) (phrase 1 4 4) ≡ true }
    ensures begins_before { lies_in_span (span 3 6) (phrase 1 2 4) ≡ false }
    ensures ends_after { lies_in_span (span 3 6) (phrase 1 5 6) ≡ false }
{}

/// In the numbers of a span a hit stands as far from its first word as in those of the text, and its sentences and paragraphs are told anew.
pub fn hits_told_in_a_span()
    ensures from_the_third_word { told_in_span (λ n. 10 + n) (λ n. 20 + n) (span 3 9) (in_paragraphs 3 4 (in_sentences 5 8 (phrase 2 4 7)))
        ≡ in_paragraphs 23 24 (in_sentences 15 18 (phrase 2 2 5)) }
{}

/// Phrases that are numbered anew keep all but their numbers, includes and excludes alike.
pub fn phrases_numbered_anew()
    ensures hit { shifted_hit 3 (phrase 1 5 6) ≡ phrase 4 5 6 }
    ensures parts { shifted_match 3 (record { includes = phrase 1 5 6 ∷ []; excludes = phrase 2 7 8 ∷ [] })
        ≡ record { includes = phrase 4 5 6 ∷ []; excludes = phrase 5 7 8 ∷ [] } }
{}
