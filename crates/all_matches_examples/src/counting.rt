//! How often words occur, as numbers, by computation.

ghost use Rattle.std.specs.Prelude.{◌≡◌, ◌==◌, ◌∷◌, [], true, false, codes, None};
ghost use Rattle.ft_base.specs.declared.words.Mode.TheVariants as M;
ghost use Rattle.ft_base.specs.Selection.{no_options};
ghost use Rattle.all_matches.specs.Counting.{begins_as, places, by_length, joined_count, value_count};
ghost use Rattle.all_matches.specs.Examples.{plain, text};

/// Items begin a text where each passes a token of its own, and all have one.
pub fn items_at_the_beginning()
    ensures each { begins_as (λ item token. item == token) (1 ∷ 2 ∷ []) (1 ∷ 2 ∷ 3 ∷ []) ≡ true }
    ensures not_the_first { begins_as (λ item token. item == token) (1 ∷ 2 ∷ []) (3 ∷ 2 ∷ []) ≡ false }
    ensures not_the_second { begins_as (λ item token. item == token) (1 ∷ 2 ∷ []) (1 ∷ 3 ∷ []) ≡ false }
    ensures beyond_the_end { begins_as (λ item token. item == token) (1 ∷ 2 ∷ []) (1 ∷ []) ≡ false }
    ensures no_item { begins_as (λ item token. item == token) [] (1 ∷ []) ≡ true }
{}

/// A place counts once, whichever of some lists of items begin there.
pub fn places_of_variants()
    ensures of_two_words { places (λ item token. item == token) ((1 ∷ []) ∷ (2 ∷ []) ∷ []) (1 ∷ 9 ∷ 2 ∷ 1 ∷ []) ≡ 3 }
    ensures of_two_at_one_place { places (λ item token. item == token) ((1 ∷ []) ∷ (1 ∷ 2 ∷ []) ∷ []) (1 ∷ 2 ∷ []) ≡ 1 }
    ensures of_none { places (λ item token. item == token) ((3 ∷ []) ∷ []) (1 ∷ 2 ∷ []) ≡ 0 }
{}

/// Lists of items stand together by their length, in the order in which they came.
pub fn variants_by_length()
    ensures shorter_first { by_length (codes "a" ∷ codes "bc" ∷ [] ∷ codes "d" ∷ codes "ef" ∷ [])
        ≡ (1, codes "a" ∷ codes "d" ∷ []) ∷ (2, codes "bc" ∷ codes "ef" ∷ []) ∷ [] }
    ensures longer_first { by_length (codes "bc" ∷ codes "a" ∷ []) ≡ (2, codes "bc" ∷ []) ∷ (1, codes "a" ∷ []) ∷ [] }
{}

/// One hit of one phrase is chosen, or one of each.
pub fn counts_by_mode()
    ensures any { joined_count M.Any (2 ∷ 3 ∷ []) ≡ 5 }
    ensures any_word { joined_count M.AnyWord (2 ∷ 3 ∷ []) ≡ 5 }
    ensures all { joined_count M.All (2 ∷ 3 ∷ []) ≡ 6 }
    ensures all_of_three { joined_count M.All (2 ∷ 3 ∷ 4 ∷ []) ≡ 24 }
    ensures all_words { joined_count M.AllWords (2 ∷ 3 ∷ []) ≡ 6 }
    ensures one_phrase { joined_count M.Phrase (2 ∷ []) ≡ 2 }
    ensures of_words { value_count plain no_options record { values = codes "a b" ∷ codes "a" ∷ []; mode = M.All; times = None; options = no_options }
        (text (codes "a b a")) ≡ 2 }
    ensures of_some_words { value_count plain no_options record { values = codes "" ∷ codes "a" ∷ []; mode = M.AllWords; times = None; options = no_options }
        (text (codes "a b a")) ≡ 2 }
    ensures of_no_words { value_count plain no_options record { values = codes "" ∷ []; mode = M.AllWords; times = None; options = no_options }
        (text (codes "a b a")) ≡ 0 }
{}
