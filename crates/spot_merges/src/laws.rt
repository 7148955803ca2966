//! What spots have to do with `at start`, `at end`, `entire content`, `not in`, and `ftand ftnot` in a window.

ghost use Rattle.std.specs.Prelude.{◌≡◌, ℕ, List, map, true};
ghost use Rattle.std.specs.List.{list_all, list_any};
ghost use Rattle.ft_base.specs.declared.filter.Filter.TheVariants as F;
ghost use Rattle.ft_base.specs.declared.hit.Hit.{Hit};
ghost use Rattle.ft_base.specs.declared.span.Span.{Span};
ghost use Rattle.ft_base.specs.declared.unit.TextUnit.TheVariants.{Words};
ghost use Rattle.all_matches.specs.Boolean.{satisfied};
ghost use Rattle.all_matches.specs.Ways.{apart, matches_of, negated, phrase, through_filter, together};
ghost use Rattle.spot_merges.specs.Apart.{some_hit_apart};
ghost use Rattle.spot_merges.specs.Clear.{some_clear};
ghost use Rattle.place_merges.specs.Places.{Wanted};
ghost use Rattle.spot_merges.specs.Edges.{edge_filter, hit_is_at, is_at, spots_of, stands_at_edge};
ghost use Rattle.spot_merges.specs.Phrases.{is_hit, is_one_word, lies_inside};
ghost use Rattle.spot_merges.specs.declared.edge.Edge.{Edge};

/// Under `at start`, `at end` and `entire content`, some hit of a phrase has to stand at the edges of the text.
pub fn edge_law()
    ensures { (edge : Edge) (item : Span) (hits : List Hit) → list_all (lies_inside item) hits ≡ true
        → satisfied (matches_of item (through_filter (phrase hits) (edge_filter edge))) ≡ list_any (hit_is_at edge item) hits }
{}

/// A phrase stands at an edge of a span where a variant of it stands at the place for its number of words.
pub fn edge_place_law()
    ensures { (edge : Edge) (span : Span) (variants : List (List Wanted))
        → list_any (stands_at_edge edge span) variants ≡ list_any (is_at edge span) (spots_of span variants) }
{}

/// Of `not in` over two phrases, some hit of the left one has to lie within none of the right one.
pub fn apart_law()
    ensures { (item : Span) (left right : List Hit) → list_all is_hit left ≡ true
        → satisfied (matches_of item (apart (phrase left) (phrase right))) ≡ some_hit_apart left right }
{}

/// Of `ftand ftnot` over two phrases of one word in a window, some window of that size has a hit of the left one and none of the right one.
pub fn clear_law()
    ensures { (size : ℕ) (item : Span) (left right : List Hit) → list_all is_one_word left ≡ true → list_all is_one_word right ≡ true
        → satisfied (matches_of item (through_filter (together (phrase left) (negated (phrase right))) (F.Window size Words)))
        ≡ some_clear size (map (λ hit. hit.from) left) (map (λ hit. hit.from) right) }
{}
