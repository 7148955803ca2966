//! What the spots that were passed have to do with windows, and windows with sentences and paragraphs.

ghost use Rattle.std.specs.Prelude.{◌≡◌, ◌+◌, ◌≤◌, ◌==◌, ◌&&◌, ℕ, Bool, List, false, filter, length, map, nat_le, nat_lt, true};
ghost use Rattle.std.specs.List.{list_any, sum_by};
ghost use Rattle.ft_base.specs.Hits.{HitPlace};
ghost use Rattle.ft_base.specs.declared.hit.Hit.{Hit};
ghost use Rattle.ft_base.specs.declared.span.Span.{Span};
ghost use Rattle.ft_base.specs.declared.unit.TextUnit.{TextUnit};
ghost use Rattle.all_matches.specs.Counting.{by_length};
ghost use Rattle.counted_shapes.specs.Fields.{in_window};
ghost use Rattle.counted_shapes.specs.Shapes.{events, fit_in_unit, fit_in_window};
ghost use Rattle.place_merges.specs.Places.{Wanted};
ghost use Rattle.place_merges.specs.declared.spot.Spot.{Spot};
ghost use Rattle.spot_merges.specs.Edges.{spots_of};
ghost use Rattle.count_merges.specs.Groups.{AskedPhrases, all_counted, asked_parts, group_spots, item_parts, phrases_counted, told_hit};
ghost use Rattle.count_merges.specs.declared.item.CountedItem.{CountedItem};
ghost use Rattle.count_merges.specs.steps.Passing.{is_passed};

/// From one end of a window to a later one, if no hit comes in and none goes out between them, the same hits lie inside.
pub fn quiet_law()
    ensures { (size : ℕ) (kind : TextUnit) (low high : ℕ) (hits : List Hit) → low ≤ high
        → list_any (λ n. nat_lt low n && nat_le n high) (events size kind hits) ≡ false
        → filter (in_window size kind high) hits ≡ filter (in_window size kind low) hits }
{}

/// Of the spots of so many words, those whose hits lie in a window and those that it has passed are together those that have come in, which a
/// window of no size has passed.
pub fn held_law()
    ensures { (unit : ℕ → ℕ) → ((first second : ℕ) → first ≤ second → unit first ≤ unit second)
        → (size words : ℕ) (kind : TextUnit) (last : ℕ) (spots : List Spot)
        → length (filter (in_window size kind last) (map (told_hit unit) (filter (λ at. at.words == words) spots))) + length (filter (is_passed unit size words last) spots)
        ≡ length (filter (is_passed unit 0 words last) spots) }
{}

/// Where the variants of a phrase stand in groups of one length, each of its spots is that of one group.
pub fn groups_law()
    ensures { (test : Spot → Bool) (span : Span) (variants : List (List Wanted))
        → sum_by (λ group. length (filter test (group_spots span group.0 group.1))) (by_length variants) ≡ length (filter test (spots_of span variants)) }
{}

/// Items whose groups are those of some phrases fit where all spots of the phrases do, if one of them asks for a hit.
pub fn phrases_law<H>()
    ensures window { (stand : H → HitPlace) (unit : ℕ → ℕ) (span : Span) (size : ℕ) (kind : TextUnit) (items : List (CountedItem H)) (asked : List AskedPhrases)
        → map (item_parts stand) items ≡ map asked_parts asked → list_any (λ item. nat_lt 0 item.least) items ≡ true
        → fit_in_window size kind (all_counted stand unit span items) ≡ fit_in_window size kind (map (phrases_counted unit span) asked) }
    ensures unit { (stand : H → HitPlace) (unit : ℕ → ℕ) (span : Span) (kind : TextUnit) (items : List (CountedItem H)) (asked : List AskedPhrases)
        → map (item_parts stand) items ≡ map asked_parts asked → list_any (λ item. nat_lt 0 item.least) items ≡ true
        → fit_in_unit kind (all_counted stand unit span items) ≡ fit_in_unit kind (map (phrases_counted unit span) asked) }
{}

/// Where an item asks for a hit, one sentence or paragraph has enough of each exactly where a window of one of them has.
pub fn scope_law<H>()
    ensures { (stand : H → HitPlace) (unit : ℕ → ℕ) → ((first second : ℕ) → first ≤ second → unit first ≤ unit second)
        → (span : Span) (kind : TextUnit) (items : List (CountedItem H)) → list_any (λ item. nat_lt 0 item.least) items ≡ true
        → fit_in_unit kind (all_counted stand unit span items) ≡ fit_in_window 1 kind (all_counted stand unit span items) }
{}
