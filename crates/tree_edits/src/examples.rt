//! The definitions on small documents, by computation.

ghost use Rattle.std.specs.Prelude.{◌≡◌, ◌+◌, ◌∷◌, [], Some, None, codes, true, false};
ghost use Rattle.index_meaning.specs.Documents.{leaf_of};
ghost use Rattle.ordered_tree.specs.Numbered.{no_children};
ghost use Rattle.plain_tree.specs.Document as plain;
ghost use Rattle.plain_tree.specs.EditExamples as plain_example;
ghost use Rattle.plain_tree.specs.declared.place.How.TheVariants as H;
ghost use Rattle.text_words.specs.Words.{words};
ghost use Rattle.tree_edits.specs.Changed.{KeepsOrder, Made, put, put_all, take_all, taken, text_leaves, touched, word_total};
ghost use Rattle.tree_edits.specs.Edits.{inserted, insertion, is_among, only, references_in, removal, replacement};
ghost use Rattle.tree_edits.specs.Examples.{a, b, c, change_of, children_of, leaf_id, letters, nested, put_leaf, ref, seen, text, without_b};
ghost use Rattle.tree_edits.specs.Fitting.{FitsSlots};
ghost use Rattle.tree_edits.specs.Fresh.{all_fresh};
ghost use Rattle.tree_edits.specs.Kept.{elements_in, elements_without, picked};
ghost use Rattle.tree_edits.specs.Acts.{act_on, root_stays};
ghost use Rattle.tree_edits.specs.steps.Marks.{is_marked};
ghost use Rattle.tree_edits.specs.steps.TextTable.{is_held};

/// Where content is inserted: before an element's children, after them, before the element or after it. The others
/// keep their references.
pub fn inserted_elements()
    ensures first { insertion H.First (children_of (c 5 ∷ [])) (ref 2) letters
        ≡ only (a 0 (text 1 (codes "x") ∷ b 2 (c 5 ∷ text 3 (codes "y") ∷ []) ∷ text 4 (codes "z") ∷ [])) }
    ensures last { insertion H.Last (children_of (c 5 ∷ [])) (ref 2) letters
        ≡ only (a 0 (text 1 (codes "x") ∷ b 2 (text 3 (codes "y") ∷ c 5 ∷ []) ∷ text 4 (codes "z") ∷ [])) }
    ensures before { insertion H.Before (children_of (c 5 ∷ [])) (ref 2) letters
        ≡ only (a 0 (text 1 (codes "x") ∷ c 5 ∷ b 2 (text 3 (codes "y") ∷ []) ∷ text 4 (codes "z") ∷ [])) }
    ensures after { insertion H.After (children_of (c 5 ∷ [])) (ref 2) letters
        ≡ only (a 0 (text 1 (codes "x") ∷ b 2 (text 3 (codes "y") ∷ []) ∷ c 5 ∷ text 4 (codes "z") ∷ [])) }
    ensures in_the_root { insertion H.Last (children_of (c 5 ∷ c 4 ∷ [])) (ref 0) nested ≡ only (a 0 (b 1 (c 2 ∷ []) ∷ c 3 ∷ c 5 ∷ c 4 ∷ [])) }
    ensures deeper { insertion H.Before (children_of (b 7 [] ∷ [])) (ref 2) nested ≡ only (a 0 (b 1 (b 7 [] ∷ c 2 ∷ []) ∷ c 3 ∷ [])) }
    ensures nothing { insertion H.First no_children (ref 2) letters ≡ only letters }
    ensures not_there { insertion H.First (children_of (c 5 ∷ [])) (ref 6) letters ≡ only letters }
    ensures a_text { insertion H.After (children_of (c 5 ∷ [])) (ref 1) letters ≡ only letters }
    ensures in_a_text { inserted H.Last (children_of (c 5 ∷ [])) (text 1 (codes "x")) ≡ only (text 1 (codes "x")) }
{}

/// Texts that come beside each other are one text, under the reference of the first of them; an empty one is dropped.
pub fn joined_texts()
    ensures as_first { insertion H.First (children_of (text 5 (codes "v") ∷ [])) (ref 2) letters
        ≡ only (a 0 (text 1 (codes "x") ∷ b 2 (text 5 (codes "vy") ∷ []) ∷ text 4 (codes "z") ∷ [])) }
    ensures as_last { insertion H.Last (children_of (text 5 (codes "v") ∷ [])) (ref 2) letters
        ≡ only (a 0 (text 1 (codes "x") ∷ b 2 (text 3 (codes "yv") ∷ []) ∷ text 4 (codes "z") ∷ [])) }
    ensures empty { insertion H.First (children_of (text 5 [] ∷ [])) (ref 2) letters ≡ only letters }
    ensures three { replacement (children_of (text 5 (codes "v") ∷ [])) (ref 2) letters ≡ only (a 0 (text 1 (codes "xvz") ∷ [])) }
    ensures inside { insertion H.Last (children_of (b 4 (text 5 (codes "v") ∷ text 6 [] ∷ text 7 (codes "w") ∷ []) ∷ [])) (ref 1) nested
        ≡ only (a 0 (b 1 (c 2 ∷ b 4 (text 5 (codes "vw") ∷ []) ∷ []) ∷ c 3 ∷ [])) }
    ensures alone { insertion H.Before (children_of (text 5 (codes "v") ∷ [])) (ref 2) nested
        ≡ only (a 0 (b 1 (text 5 (codes "v") ∷ c 2 ∷ []) ∷ c 3 ∷ [])) }
{}

/// What is put in an element's place, and what is left where elements are removed: one in an element that is removed goes with it.
pub fn replaced_and_removed()
    ensures replaced { replacement (children_of (c 5 ∷ [])) (ref 1) nested ≡ only (a 0 (c 5 ∷ c 3 ∷ [])) }
    ensures removed { removal (ref 1 ∷ []) nested ≡ only (a 0 (c 3 ∷ [])) }
    ensures two { removal (ref 2 ∷ ref 3 ∷ []) nested ≡ only (a 0 (b 1 [] ∷ [])) }
    ensures one_in_the_other { removal (ref 1 ∷ ref 2 ∷ []) nested ≡ only (a 0 (c 3 ∷ [])) }
    ensures last_first { removal (ref 3 ∷ ref 1 ∷ []) nested ≡ only (a 0 []) }
    ensures between_texts { removal (ref 2 ∷ []) letters ≡ only (a 0 (text 1 (codes "xz") ∷ [])) }
    ensures none { removal [] letters ≡ only letters }
    ensures a_text { removal (ref 1 ∷ []) letters ≡ only letters }
{}

/// Content takes references in document order, an element before its children.
pub fn fresh_references()
    ensures in_order { all_fresh (ref 9 ∷ ref 4 ∷ ref 5 ∷ ref 6 ∷ [])
        (plain.nodes (plain_example.b (plain_example.c ∷ []) ∷ plain.text (codes "x") ∷ [])) ≡ children_of (b 9 (c 4 ∷ []) ∷ text 5 (codes "x") ∷ []) }
    ensures none_left { all_fresh [] (plain.nodes (plain_example.c ∷ [])) ≡ children_of (c 0 ∷ []) }
    ensures references { references_in letters ≡ ref 0 ∷ ref 1 ∷ ref 2 ∷ ref 3 ∷ ref 4 ∷ [] }
{}

/// Which elements an edit takes away: those that were chosen, with all below them.
pub fn elements_with_references()
    ensures in_order { elements_in nested ≡ (ref 0, codes "a", []) ∷ (ref 1, codes "b", []) ∷ (ref 2, codes "c", []) ∷ (ref 3, codes "c", []) ∷ [] }
    ensures no_texts { elements_in letters ≡ (ref 0, codes "a", []) ∷ (ref 2, codes "b", []) ∷ [] }
    ensures picked { picked (is_among (ref 1 ∷ ref 2 ∷ [])) nested ≡ children_of (b 1 (c 2 ∷ []) ∷ []) }
    ensures with_texts { picked (is_among (ref 2 ∷ [])) letters ≡ children_of (b 2 (text 3 (codes "y") ∷ []) ∷ []) }
    ensures others { elements_without (ref 2 ∷ ref 0 ∷ []) (elements_in nested) ≡ (ref 1, codes "b", []) ∷ (ref 3, codes "c", []) ∷ [] }
{}

/// Which leaves an edit takes, and which it puts: a text that stays is in neither, one that was joined is in both.
pub fn changed_leaves()
    ensures taken { taken letters (a 0 (text 1 (codes "xz") ∷ [])) ≡ leaf_id 1 ∷ leaf_id 3 ∷ leaf_id 4 ∷ [] }
    ensures put { put letters (a 0 (text 1 (codes "xz") ∷ [])) ≡ put_leaf 1 None (words (codes "xz")) ∷ [] }
    ensures nothing_taken { taken letters (a 0 (text 1 (codes "x") ∷ text 5 (codes "v") ∷ b 2 (text 3 (codes "y") ∷ []) ∷ text 4 (codes "z") ∷ [])) ≡ [] }
    ensures put_after { put letters
        (a 0 (text 1 (codes "x") ∷ b 2 (text 3 (codes "y") ∷ text 6 (codes "v") ∷ []) ∷ text 5 (codes "w") ∷ text 4 (codes "z") ∷ []))
        ≡ put_leaf 6 (Some (leaf_id 3)) (words (codes "v")) ∷ put_leaf 5 (Some (leaf_id 6)) (words (codes "w")) ∷ [] }
    ensures same { taken letters letters ≡ [] }
    ensures other_reference { taken letters (a 0 (text 1 (codes "x") ∷ b 2 (text 6 (codes "y") ∷ []) ∷ text 4 (codes "z") ∷ [])) ≡ leaf_id 3 ∷ [] }
    ensures other_bytes { taken letters (a 0 (text 1 (codes "x") ∷ b 2 (text 3 (codes "v") ∷ []) ∷ text 4 (codes "z") ∷ [])) ≡ leaf_id 3 ∷ [] }
{}

/// Texts keep their order where some are joined, not where two were exchanged; nor does a document with one reference twice.
pub fn kept_order()
    ensures joined { KeepsOrder letters without_b }
    ensures exchanged { KeepsOrder letters (a 0 (text 3 (codes "y") ∷ b 2 (text 1 (codes "x") ∷ []) ∷ [])) → ⊥ }
    ensures twice { KeepsOrder letters (a 0 (c 2 ∷ c 2 ∷ [])) → ⊥ }
    ensures twice_before { KeepsOrder (a 0 (c 2 ∷ c 2 ∷ [])) (a 0 []) → ⊥ }
{}

/// A change names all leaves that went and all that came.
pub fn made_changes()
    ensures made { Made letters (change_of (leaf_id 1 ∷ leaf_id 3 ∷ leaf_id 4 ∷ []) (put_leaf 1 None (words (codes "xz")) ∷ [])) without_b }
    ensures too_few_taken { Made letters (change_of [] (put_leaf 1 None (words (codes "xz")) ∷ [])) without_b → ⊥ }
    ensures too_few_put { Made letters (change_of (leaf_id 1 ∷ leaf_id 3 ∷ leaf_id 4 ∷ []) []) without_b → ⊥ }
{}

/// How many words leaves have, and that nothing is touched where nothing changed.
pub fn words_with_a_change()
    ensures leaves { text_leaves letters ≡ leaf_of 1 (words (codes "x")) ∷ leaf_of 3 (words (codes "y")) ∷ leaf_of 4 (words (codes "z")) ∷ [] }
    ensures total { word_total (leaf_of 1 (codes "p" ∷ codes "q" ∷ []) ∷ leaf_of 2 [] ∷ leaf_of 3 (codes "p" ∷ []) ∷ []) ≡ 3 }
    ensures touched { touched letters (a 0 (text 1 (codes "xz") ∷ []))
        ≡ word_total (leaf_of 1 (words (codes "x")) ∷ leaf_of 3 (words (codes "y")) ∷ leaf_of 4 (words (codes "z")) ∷ [])
        + word_total (leaf_of 1 (words (codes "xz")) ∷ []) }
    ensures same { touched letters letters ≡ 0 }
{}

/// An index takes leaves out by their numbers, and puts others in where they say.
pub fn leaves_with_a_change()
    ensures without { take_all (leaf_id 1 ∷ leaf_id 3 ∷ []) (leaf_of 1 (codes "p" ∷ []) ∷ leaf_of 2 (codes "q" ∷ []) ∷ leaf_of 3 (codes "r" ∷ []) ∷ [])
        ≡ leaf_of 2 (codes "q" ∷ []) ∷ [] }
    ensures in_turn { put_all (put_leaf 5 None [] ∷ put_leaf 6 (Some (leaf_id 5)) [] ∷ put_leaf 7 (Some (leaf_id 2)) [] ∷ [])
        (leaf_of 2 (codes "q" ∷ []) ∷ leaf_of 3 (codes "r" ∷ []) ∷ [])
        ≡ leaf_of 5 [] ∷ leaf_of 6 [] ∷ leaf_of 2 (codes "q" ∷ []) ∷ leaf_of 7 [] ∷ leaf_of 3 (codes "r" ∷ []) ∷ [] }
{}

/// An edit of several elements, and when one element stands where the root stood: not beside the root, nor in its place.
pub fn edits_of_several()
    ensures replaced { act_on (ref 2 ∷ ref 3 ∷ []) None no_children nested ≡ only (a 0 (b 1 [] ∷ [])) }
    ensures inserted { act_on (ref 1 ∷ []) (Some H.Before) (children_of (c 5 ∷ [])) nested ≡ only (a 0 (c 5 ∷ b 1 (c 2 ∷ []) ∷ c 3 ∷ [])) }
    ensures in_the_root { root_stays (ref 0 ∷ []) (Some H.Last) letters ≡ true }
    ensures beside_the_root { root_stays (ref 0 ∷ []) (Some H.After) letters ≡ false }
    ensures an_inner_one { root_stays (ref 2 ∷ []) None letters ≡ true }
    ensures the_root_among_others { root_stays (ref 2 ∷ ref 0 ∷ []) None letters ≡ false }
{}

/// A document fits into slots where each node has a reference of its own below their number, and the root the first.
pub fn fitting_documents()
    ensures fits { FitsSlots letters 5 }
    ensures other_root { FitsSlots (a 1 []) 2 → ⊥ }
    ensures two_texts { FitsSlots (a 0 (text 1 (codes "x") ∷ text 2 (codes "y") ∷ [])) 3 → ⊥ }
    ensures one_reference_twice { FitsSlots (a 0 (c 2 ∷ c 2 ∷ [])) 3 → ⊥ }
{}

/// Tables hold what is at the number of a reference, and nothing beyond their end.
pub fn tables_by_numbers()
    ensures marked { is_marked (true ∷ false ∷ []) (ref 0) ≡ true }
    ensures not_marked { is_marked (true ∷ false ∷ []) (ref 1) ≡ false }
    ensures no_mark { is_marked (true ∷ false ∷ []) (ref 2) ≡ false }
    ensures held { is_held (None ∷ Some (seen 1 (codes "x")) ∷ []) (ref 1, codes "x") ≡ true }
    ensures other_bytes { is_held (None ∷ Some (seen 1 (codes "x")) ∷ []) (ref 1, codes "y") ≡ false }
    ensures none_held { is_held (None ∷ Some (seen 1 (codes "x")) ∷ []) (ref 0, codes "x") ≡ false }
    ensures no_place { is_held (None ∷ Some (seen 1 (codes "x")) ∷ []) (ref 2, codes "x") ≡ false }
{}
