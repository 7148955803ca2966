//! What edits make of `<a>x<b>y</b>z</a>` and of `<a><b><c/></b><c/></a>`, by computation.

ghost use Rattle.std.specs.Prelude.{◌≡◌, [], ◌∷◌, codes, true, false};
ghost use Rattle.plain_tree.specs.Document.{text, no_nodes, nodes};
ghost use Rattle.plain_tree.specs.EditExamples.{elem, b, c, between, letters, nested};
ghost use Rattle.plain_tree.specs.Edits.{only, insertion, replacement, removal, names_element, names_inner, may_insert};
ghost use Rattle.plain_tree.specs.declared.place.How.TheVariants as H;

/// Content stands before an element's children, after them, before the element, or after it.
pub fn inserted_nodes()
    ensures first { insertion H.First (only c) (2 ∷ []) letters ≡ only (between (b (c ∷ text (codes "y") ∷ []) ∷ [])) }
    ensures last { insertion H.Last (only c) (2 ∷ []) letters ≡ only (between (b (text (codes "y") ∷ c ∷ []) ∷ [])) }
    ensures before { insertion H.Before (only c) (2 ∷ []) letters ≡ only (between (c ∷ b (text (codes "y") ∷ []) ∷ [])) }
    ensures after { insertion H.After (only c) (2 ∷ []) letters ≡ only (between (b (text (codes "y") ∷ []) ∷ c ∷ [])) }
    ensures first_in_the_root { insertion H.First (only c) [] nested ≡ only (elem (codes "a") (c ∷ b (c ∷ []) ∷ c ∷ [])) }
    ensures last_in_the_root { insertion H.Last (only (b [])) [] nested ≡ only (elem (codes "a") (b (c ∷ []) ∷ c ∷ b [] ∷ [])) }
    ensures deeper { insertion H.After (only (b [])) (1 ∷ 1 ∷ []) nested ≡ only (elem (codes "a") (b (c ∷ b [] ∷ []) ∷ c ∷ [])) }
    ensures in_order { insertion H.After (nodes (b [] ∷ c ∷ [])) (1 ∷ []) nested ≡ only (elem (codes "a") (b (c ∷ []) ∷ b [] ∷ c ∷ c ∷ [])) }
    ensures nothing { insertion H.First no_nodes (2 ∷ []) letters ≡ only letters }
{}

/// A text that comes beside a text is one text with it, and an empty one is dropped.
pub fn inserted_texts()
    ensures first { insertion H.First (only (text (codes "v"))) (2 ∷ []) letters ≡ only (between (b (text (codes "vy") ∷ []) ∷ [])) }
    ensures last { insertion H.Last (only (text (codes "v"))) (2 ∷ []) letters ≡ only (between (b (text (codes "yv") ∷ []) ∷ [])) }
    ensures before { insertion H.Before (only (text (codes "v"))) (2 ∷ []) letters
        ≡ only (elem (codes "a") (text (codes "xv") ∷ b (text (codes "y") ∷ []) ∷ text (codes "z") ∷ [])) }
    ensures after { insertion H.After (only (text (codes "v"))) (2 ∷ []) letters
        ≡ only (elem (codes "a") (text (codes "x") ∷ b (text (codes "y") ∷ []) ∷ text (codes "vz") ∷ [])) }
    ensures beside_elements { insertion H.After (only (text (codes "v"))) (1 ∷ []) nested ≡ only (elem (codes "a") (b (c ∷ []) ∷ text (codes "v") ∷ c ∷ [])) }
    ensures several { insertion H.First (nodes (text (codes "v") ∷ text [] ∷ text (codes "w") ∷ c ∷ text [] ∷ [])) (2 ∷ []) letters
        ≡ only (between (b (text (codes "vw") ∷ c ∷ text (codes "y") ∷ []) ∷ [])) }
    ensures inside { insertion H.Last (only (b (text (codes "v") ∷ text (codes "w") ∷ text [] ∷ []))) (1 ∷ []) nested
        ≡ only (elem (codes "a") (b (c ∷ b (text (codes "vw") ∷ []) ∷ []) ∷ c ∷ [])) }
    ensures empty_first { insertion H.First (only (text [])) [] nested ≡ only nested }
    ensures empty_last { insertion H.Last (only (text [])) [] nested ≡ only nested }
{}

/// What is put in an element's place, and what is left where nothing is.
pub fn replaced_and_removed()
    ensures by_an_element { replacement (only c) (2 ∷ []) letters ≡ only (between (c ∷ [])) }
    ensures by_a_text { replacement (only (text (codes "v"))) (2 ∷ []) letters ≡ only (elem (codes "a") (text (codes "xvz") ∷ [])) }
    ensures by_several { replacement (nodes (c ∷ b [] ∷ [])) (1 ∷ 1 ∷ []) nested ≡ only (elem (codes "a") (b (c ∷ b [] ∷ []) ∷ c ∷ [])) }
    ensures by_nothing { replacement no_nodes (1 ∷ []) nested ≡ only (elem (codes "a") (c ∷ [])) }
    ensures between_texts { removal (2 ∷ []) letters ≡ only (elem (codes "a") (text (codes "xz") ∷ [])) }
    ensures last { removal (2 ∷ []) nested ≡ only (elem (codes "a") (b (c ∷ []) ∷ [])) }
    ensures in_the_second { removal (2 ∷ 1 ∷ []) (between (b (c ∷ []) ∷ [])) ≡ only (between (b [] ∷ [])) }
    ensures only_child { removal (1 ∷ 1 ∷ []) nested ≡ only (elem (codes "a") (b [] ∷ c ∷ [])) }
{}

/// Which places name an element: numbers count from 1, texts count too, and the empty place names the root.
pub fn places_of_elements()
    ensures root { names_element [] letters ≡ true }
    ensures child { names_element (2 ∷ []) letters ≡ true }
    ensures text_before { names_element (1 ∷ []) letters ≡ false }
    ensures zero { names_element (0 ∷ []) nested ≡ false }
    ensures after_the_last { names_element (3 ∷ []) nested ≡ false }
    ensures below { names_element (1 ∷ 1 ∷ []) nested ≡ true }
    ensures below_an_empty_one { names_element (2 ∷ 1 ∷ []) nested ≡ false }
    ensures below_a_text { names_element (1 ∷ 1 ∷ []) letters ≡ false }
    ensures nothing_there { insertion H.After (only c) (3 ∷ []) nested ≡ only nested }
    ensures nothing_at_zero { insertion H.Before (only c) (0 ∷ []) nested ≡ only nested }
    ensures nothing_in_a_text { insertion H.First (only c) (1 ∷ []) letters ≡ only letters }
{}

/// Which edits the root allows.
pub fn edits_of_the_root()
    ensures first { may_insert H.First [] letters ≡ true }
    ensures last { may_insert H.Last [] letters ≡ true }
    ensures before { may_insert H.Before [] letters ≡ false }
    ensures after { may_insert H.After [] letters ≡ false }
    ensures inner { names_inner [] letters ≡ false }
    ensures child { names_inner (2 ∷ []) letters ≡ true }
    ensures text { names_inner (1 ∷ []) letters ≡ false }
    ensures before_a_child { may_insert H.Before (2 ∷ []) letters ≡ true }
    ensures after_a_child { may_insert H.After (2 ∷ []) letters ≡ true }
    ensures first_in_a_text { may_insert H.First (1 ∷ []) letters ≡ false }
    ensures last_in_a_text { may_insert H.Last (1 ∷ []) letters ≡ false }
{}
