//! What the count of a phrase's places has to do with the words of a text.

ghost use Rattle.std.specs.Prelude.{◌≡◌, ◌+◌, ◌<◌, ℕ, Bool, List, length, map, slice_index_or};
ghost use Rattle.all_matches.specs.Counting.{places};
ghost use Rattle.place_merges.specs.Places.{Wanted, fits, places_between};

/// Where each item fits the places of a text as it passes the words there, the variants stand at as many places as they
/// begin at words.
pub fn places_law<X, Y>()
    ensures { (passes : X → Y → Bool) (want : X → Wanted) (from : ℕ) (words : List Y)
        → ((item : X) (k : ℕ) (word : Y) → k < length words → fits (from + k) (want item) ≡ passes item (slice_index_or words k word))
        → (variants : List (List X))
        → places_between from (from + length words) (map (map want) variants) ≡ places passes variants words }
{}
