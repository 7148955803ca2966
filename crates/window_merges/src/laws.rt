//! What choices of places have to do with words that are joined by `ftand` under a filter.

ghost use Rattle.std.specs.Prelude.{◌≡◌, ◌+◌, ◌-◌, ◌≤◌, ◌==◌, ℕ, Bool, List, [], ◌∷◌, filter, flat_map, get_or, length, map, nat_le, true};
ghost use Rattle.std.specs.List.{list_all, list_any, range_with_len};
ghost use Rattle.ft_base.specs.declared.filter.Filter.{Filter};
ghost use Rattle.ft_base.specs.declared.filter.Filter.TheVariants as F;
ghost use Rattle.ft_base.specs.declared.hit.Hit.{Hit};
ghost use Rattle.ft_base.specs.declared.range.Range.TheVariants.{AtMost};
ghost use Rattle.ft_base.specs.declared.span.Span.{Span};
ghost use Rattle.ft_base.specs.Hits.{HitPlace};
ghost use Rattle.ft_base.specs.declared.unit.TextUnit.TheVariants.{Paragraphs, Sentences, Words};
ghost use Rattle.all_matches.specs.Boolean.{satisfied};
ghost use Rattle.all_matches.specs.Filters.{passes};
ghost use Rattle.all_matches.specs.Ways.{matches_of};
ghost use Rattle.place_merges.specs.Places.{Wanted, fits, one_of};
ghost use Rattle.place_merges.specs.Sources.{places_left};
ghost use Rattle.place_merges.specs.Spots.{some_at, spot, spots_between};
ghost use Rattle.place_merges.specs.steps.Searching.{has};
ghost use Rattle.window_merges.specs.Choices.{are_close, are_in_one, are_in_order, some_choice};
ghost use Rattle.window_merges.specs.Rows.{places_in};
ghost use Rattle.window_merges.specs.Words.{are_numbered, are_single, are_told, filtered_words, first_words};

/// Whether a choice passes depends on which places the lists have, and not on how often or in which order.
pub fn same_places_law()
    ensures { (test : List ℕ → Bool) (lists others : List (List ℕ)) → length lists ≡ length others
        → ((number place : ℕ) → has (get_or lists number []) place ≡ has (get_or others number []) place)
        → some_choice test lists ≡ some_choice test others }
{}

/// Words that are joined by `ftand` under a filter are satisfied where the filter keeps some choice of one hit of each.
pub fn filtered_words_law()
    ensures { (kind : Filter) (item : Span) (hits : List Hit) (words : List (List Hit))
        → satisfied (matches_of item (filtered_words kind (hits ∷ words))) ≡ some_choice (λ includes. passes kind includes item) (hits ∷ words) }
{}

/// Under a window in words, where each hit is one word, some choice of their places has to fit into the window.
pub fn window_law()
    ensures { (size : ℕ) (item : Span) (hits : List Hit) (words : List (List Hit)) → are_single (hits ∷ words) ≡ true
        → satisfied (matches_of item (filtered_words (F.Window size Words) (hits ∷ words))) ≡ some_choice (are_close size) (first_words (hits ∷ words)) }
{}

/// Two words at a distance of at most `size` words, each hit of which is one word, fit into a window of two words more.
pub fn distance_law()
    ensures { (size : ℕ) (item : Span) (first second : List Hit) → are_single (first ∷ second ∷ []) ≡ true
        → satisfied (matches_of item (filtered_words (F.Distance (AtMost size) Words) (first ∷ second ∷ [])))
        ≡ some_choice (are_close (size + 2)) (first_words (first ∷ second ∷ [])) }
{}

/// Under `same sentence` and `same paragraph`, where each hit lies in the unit of its first word, some choice of their first
/// words has to lie in one unit.
pub fn unit_law()
    ensures sentence { (unit : ℕ → ℕ) (item : Span) (hits : List Hit) (words : List (List Hit)) → are_told Sentences unit (hits ∷ words) ≡ true
        → satisfied (matches_of item (filtered_words F.SameSentence (hits ∷ words))) ≡ some_choice (are_in_one unit) (first_words (hits ∷ words)) }
    ensures paragraph { (unit : ℕ → ℕ) (item : Span) (hits : List Hit) (words : List (List Hit)) → are_told Paragraphs unit (hits ∷ words) ≡ true
        → satisfied (matches_of item (filtered_words F.SameParagraph (hits ∷ words))) ≡ some_choice (are_in_one unit) (first_words (hits ∷ words)) }
{}

/// Units may have other numbers, as long as those places that share one share one still, and places may be counted from another one on.
pub fn counted_units_law()
    ensures { (unit other : ℕ → ℕ) (offset low : ℕ) (lists : List (List ℕ)) → list_all (list_all (nat_le low)) lists ≡ true
        → ((p q : ℕ) → low ≤ p → low ≤ q → (unit (p - offset) == unit (q - offset)) ≡ (other p == other q))
        → some_choice (are_in_one unit) (map (map (λ place. place - offset)) lists) ≡ some_choice (are_in_one other) lists }
{}

/// Under `ordered`, where each word has a phrase of its own, some choice of their first words has to be in order.
pub fn ordered_law()
    ensures { (number : ℕ) (item : Span) (hits : List Hit) (words : List (List Hit)) → are_numbered number (hits ∷ words) ≡ true
        → satisfied (matches_of item (filtered_words F.Ordered (hits ∷ words))) ≡ some_choice are_in_order (first_words (hits ∷ words)) }
{}

/// Places may be counted from another one on, as those of a span are from its first.
pub fn counted_places_law()
    ensures close { (offset size : ℕ) (lists : List (List ℕ)) → list_all (list_all (nat_le offset)) lists ≡ true
        → some_choice (are_close size) (map (map (λ place. place - offset)) lists) ≡ some_choice (are_close size) lists }
    ensures ordered { (offset : ℕ) (lists : List (List ℕ)) → list_all (list_all (nat_le offset)) lists ≡ true
        → some_choice are_in_order (map (map (λ place. place - offset)) lists) ≡ some_choice are_in_order lists }
{}

/// A phrase of which each variant is one word stands at spots of one word: at the places that fit one of them.
pub fn single_spots_law()
    ensures { (from to : ℕ) (words : List Wanted)
        → filter (some_at to (map (λ wanted. wanted ∷ []) words)) (spots_between from to)
        ≡ map (λ place. spot place 1) (filter (λ place. list_any (fits place) words) (range_with_len from (to - from))) }
{}

/// Where variants of one word are told by the sources of their words, the places that fit one of them in a span are those of
/// all sources.
pub fn wanted_places_law<H>()
    ensures { (stand : H → HitPlace) (span : Span) (variants : List (List H)) (place : ℕ)
        → has (filter (λ other. list_any (fits other) (map (λ sources. one_of (map (λ source. places_left (stand source)) sources)) variants))
        (range_with_len span.from (span.to - span.from))) place
        ≡ has (places_in stand span (flat_map (λ sources. sources) variants)) place }
{}
