//! Anchors over parts of a text, by computation. The hits have the numbers of the text, and the item those from which to
//! which its words stand.

ghost use Rattle.std.specs.Prelude.{◌≡◌, ◌∷◌, [], true, false};
ghost use Rattle.ft_base.specs.declared.filter.Filter.TheVariants as F;
ghost use Rattle.ft_base.specs.HitExamples.{word, phrase};
ghost use Rattle.all_matches.specs.Examples.{span};
ghost use Rattle.all_matches.specs.Filters.{passes};

/// A hit begins with the item, ends with it.
pub fn edges_of_an_item()
    ensures begins_with_it { passes F.AtStart (phrase 1 4 5 ∷ []) (span 4 7) ≡ true }
    ensures begins_with_the_text { passes F.AtStart (word 1 ∷ []) (span 4 7) ≡ false }
    ensures ends_with_it { passes F.AtEnd (word 4 ∷ phrase 1 5 6 ∷ []) (span 4 7) ≡ true }
    ensures ends_after_it { passes F.AtEnd (word 7 ∷ []) (span 4 7) ≡ false }
    ensures ends_before_its_last_word { passes F.AtEnd (word 5 ∷ []) (span 4 7) ≡ false }
{}

/// The hits cover each word of the item, from its first to its last.
pub fn covered_items()
    ensures by_two_hits { passes F.EntireContent (word 6 ∷ phrase 1 4 5 ∷ []) (span 4 7) ≡ true }
    ensures by_more_than_it { passes F.EntireContent (phrase 1 1 9 ∷ []) (span 4 7) ≡ true }
    ensures not_the_first { passes F.EntireContent (phrase 1 5 6 ∷ []) (span 4 7) ≡ false }
    ensures not_the_last { passes F.EntireContent (phrase 1 4 5 ∷ []) (span 4 7) ≡ false }
    ensures without_words { passes F.EntireContent [] (span 4 4) ≡ true }
    ensures one_word { passes F.EntireContent [] (span 4 5) ≡ false }
{}
