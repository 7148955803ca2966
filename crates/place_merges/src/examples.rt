//! Where variants stand and how many places count, on small lists of places, by computation.
ghost use Rattle.std.specs.Prelude.{◌≡◌, ◌∷◌, [], None, Some, true, false};
ghost use Rattle.std.specs.declared.alloc.Global.{Global};
ghost use Rattle.std.specs.declared.vec.Vec.{Vec};
ghost use Rattle.ft_base.specs.Hits.{HitPlace, hit_place};
ghost use Rattle.place_merges.specs.Places.{one_of, fits, stands_at, stands_before, places_between};
ghost use Rattle.place_merges.specs.Spots.{from_found, from_lead, some_at, spot, spots_after, spots_between, spots_left};
ghost use Rattle.place_merges.specs.Sources.{all_left, places_left, wanted_words};
ghost use Rattle.place_merges.specs.declared.item.Item.{Item};
ghost use Rattle.place_merges.specs.Examples.{a, b, any, hit};

/// `a` stands at the places 1, 4 and 6, `b` at 2, 3 and 7.
pub fn items()
    ensures one { fits 4 a ≡ true }
    ensures another { fits 5 a ≡ false }
    ensures of_several { fits 3 (one_of ((1 ∷ []) ∷ (2 ∷ 3 ∷ []) ∷ [])) ≡ true }
    ensures of_none { fits 3 (one_of []) ≡ false }
    ensures any_word { fits 9 any ≡ true }
{}

/// The words of a variant follow one another, and the last one is before the end.
pub fn variants()
    ensures two_words { stands_at 1 (a ∷ b ∷ []) ≡ true }
    ensures a_word_between { stands_at 1 (a ∷ any ∷ b ∷ []) ≡ true }
    ensures in_the_other_order { stands_at 3 (b ∷ a ∷ []) ≡ true }
    ensures apart { stands_at 4 (a ∷ b ∷ []) ≡ false }
    ensures up_to_the_end { stands_before 8 6 (a ∷ b ∷ []) ≡ true }
    ensures past_the_end { stands_before 7 6 (a ∷ b ∷ []) ≡ false }
    ensures any_word_past_the_end { stands_before 7 6 (a ∷ any ∷ []) ≡ false }
{}

/// A place counts once, however many variants stand there; the last place of the span belongs to it, and its end
/// doesn't.
pub fn counts()
    ensures one_word { places_between 1 8 ((a ∷ []) ∷ []) ≡ 3 }
    ensures one_or_the_other { places_between 1 8 ((a ∷ []) ∷ (b ∷ []) ∷ []) ≡ 6 }
    ensures twice_the_same { places_between 1 8 ((a ∷ []) ∷ (a ∷ []) ∷ []) ≡ 3 }
    ensures of_two_lengths { places_between 1 8 ((a ∷ b ∷ []) ∷ (a ∷ []) ∷ []) ≡ 3 }
    ensures two_words { places_between 1 8 ((a ∷ b ∷ []) ∷ []) ≡ 2 }
    ensures to_the_end { places_between 1 7 ((a ∷ b ∷ []) ∷ []) ≡ 1 }
    ensures from_the_second { places_between 2 8 ((a ∷ b ∷ []) ∷ []) ≡ 1 }
    ensures last_place { places_between 2 5 ((a ∷ []) ∷ []) ≡ 1 }
    ensures at_the_end { places_between 2 4 ((a ∷ []) ∷ []) ≡ 0 }
    ensures any_words { places_between 1 8 ((any ∷ any ∷ []) ∷ []) ≡ 6 }
    ensures no_variant { places_between 1 8 [] ≡ 0 }
    ensures no_place { places_between 4 4 ((a ∷ []) ∷ []) ≡ 0 }
    ensures reversed { places_between 8 1 ((a ∷ []) ∷ []) ≡ 0 }
    ensures no_word { places_between 1 4 ([] ∷ []) ≡ 3 }
{}

/// The hits before the place are no more wanted.
pub fn sources()
    ensures at_the_beginning { places_left (hit_place (hit 2 2 ∷ hit 5 6 ∷ []) 0) ≡ 2 ∷ 5 ∷ [] }
    ensures further_on { places_left (hit_place (hit 2 2 ∷ hit 5 6 ∷ []) 1) ≡ 5 ∷ [] }
    ensures at_the_end { places_left (hit_place (hit 2 2 ∷ hit 5 6 ∷ []) 2) ≡ [] }
{}

/// A variant that doesn't count wants nothing, and has no hit to be passed.
pub fn variants_left_out()
    ensures wants { (items : Vec (Item HitPlace) Global) → wanted_words (λ at. at) (record { items = items; lead = 0; counts = false } ∷ []) ≡ [] }
    ensures left { (items : Vec (Item HitPlace) Global) → all_left (λ at. at) (record { items = items; lead = 0; counts = false } ∷ []) ≡ 0 }
{}

/// Spots come place after place, and at a place by their numbers of words; they end before the end.
pub fn spots()
    ensures all { spots_between 1 3 ≡ spot 1 1 ∷ spot 1 2 ∷ spot 2 1 ∷ [] }
    ensures none { spots_between 3 3 ≡ [] }
    ensures past { spots_after 4 (spot 2 1) ≡ spot 2 2 ∷ spot 3 1 ∷ [] }
    ensures after_no_words { spots_after 4 (spot 2 0) ≡ spot 2 1 ∷ spot 2 2 ∷ spot 3 1 ∷ [] }
    ensures after_the_last { spots_after 4 (spot 3 1) ≡ [] }
{}

/// A variant stands on a spot of as many words, and a spot comes once, however many variants stand there.
pub fn variants_on_spots()
    ensures two_words { some_at 8 ((a ∷ b ∷ []) ∷ []) (spot 1 2) ≡ true }
    ensures of_another_length { some_at 8 ((a ∷ b ∷ []) ∷ []) (spot 1 1) ≡ false }
    ensures elsewhere { some_at 8 ((a ∷ b ∷ []) ∷ []) (spot 4 2) ≡ false }
    ensures past_the_end { some_at 7 ((a ∷ b ∷ []) ∷ []) (spot 6 2) ≡ false }
    ensures left { spots_left 8 ((a ∷ b ∷ []) ∷ (a ∷ []) ∷ []) (spot 1 1) ≡ spot 1 2 ∷ spot 4 1 ∷ spot 6 1 ∷ spot 6 2 ∷ [] }
    ensures once { spots_left 6 ((a ∷ []) ∷ (a ∷ []) ∷ []) (spot 1 0) ≡ spot 1 1 ∷ spot 4 1 ∷ [] }
    ensures found { from_found (spots_after 4) (Some (spot 2 2)) ≡ spot 2 2 ∷ spot 3 1 ∷ [] }
    ensures none_found { from_found (spots_after 4) None ≡ [] }
    ensures led_to_a_word { from_lead (spots_after 4) (spot 2 1) ≡ spot 2 1 ∷ spot 2 2 ∷ spot 3 1 ∷ [] }
    ensures led_to_no_words { from_lead (spots_after 4) (spot 2 0) ≡ spot 2 1 ∷ spot 2 2 ∷ spot 3 1 ∷ [] }
    ensures led_to_two_words { from_lead (spots_after 4) (spot 2 2) ≡ spot 2 2 ∷ spot 3 1 ∷ [] }
{}
