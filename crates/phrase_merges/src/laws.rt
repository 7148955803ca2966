//! What one pass through the hits of phrases has to do with phrases that are joined by `ftand` under a filter.

ghost use Rattle.std.specs.Prelude.{◌≡◌, ◌&&◌, ℕ, List, [], ◌∷◌, true};
ghost use Rattle.std.specs.List.{list_all};
ghost use Rattle.ft_base.specs.Lists.{is_not_empty};
ghost use Rattle.ft_base.specs.declared.filter.Filter.TheVariants as F;
ghost use Rattle.ft_base.specs.declared.hit.Hit.{Hit};
ghost use Rattle.ft_base.specs.declared.range.Range.{Range};
ghost use Rattle.ft_base.specs.declared.span.Span.{Span};
ghost use Rattle.ft_base.specs.declared.unit.TextUnit.{TextUnit};
ghost use Rattle.ft_base.specs.declared.unit.TextUnit.TheVariants.{Paragraphs, Sentences};
ghost use Rattle.all_matches.specs.Boolean.{satisfied};
ghost use Rattle.all_matches.specs.Ways.{Operator, matches_of};
ghost use Rattle.window_merges.specs.Choices.{some_choice};
ghost use Rattle.window_merges.specs.Words.{are_numbered, filtered_words};
ghost use Rattle.phrase_merges.specs.Choices.{are_apart, begin_alike, begin_in_order, ends_after};
ghost use Rattle.phrase_merges.specs.Near.{AreAlike, hulls_of, is_near, phrase_hits_of};

/// Under `ordered`, where the phrases are numbered one after the other, some choice of their hits has to begin in order.
pub fn ordered_law()
    ensures { (number : ℕ) (item : Span) (hits : List Hit) (phrases : List (List Hit)) → are_numbered number (hits ∷ phrases) ≡ true
        → satisfied (matches_of item (filtered_words F.Ordered (hits ∷ phrases))) ≡ some_choice begin_in_order (hits ∷ phrases) }
{}

/// Under a distance, two phrases, where no hit ends before its beginning and what begins later begins in no earlier sentence or paragraph, have
/// to be as far from one another as its range tells.
pub fn distance_law()
    ensures { (unit : TextUnit) (range : Range) (item : Span) (first second : List Hit) → list_all (list_all (ends_after unit)) (first ∷ second ∷ []) ≡ true
        → list_all (λ a. list_all (begin_alike unit a) second) first ≡ true
        → satisfied (matches_of item (filtered_words (F.Distance range unit) (first ∷ second ∷ [])))
        ≡ some_choice (are_apart range unit) (first ∷ second ∷ []) }
{}

/// Under windows and scopes, as nested as one likes, where no hit ends before its beginning, some joined hit has to be left.
pub fn near_law()
    ensures { (item : Span) (operator : Operator) → is_near operator ≡ true
        → list_all (λ hit. ends_after Sentences hit && ends_after Paragraphs hit) (phrase_hits_of operator) ≡ true
        → satisfied (matches_of item operator) ≡ is_not_empty (hulls_of operator) }
{}

/// It doesn't matter in which order a phrase has its hits, nor how often, under whatever filters.
pub fn alike_law()
    ensures { (item : Span) (a b : Operator) → AreAlike a b → satisfied (matches_of item a) ≡ satisfied (matches_of item b) }
{}
