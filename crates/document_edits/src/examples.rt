//! The definitions on small documents, by computation.

ghost use Rattle.std.specs.Prelude.{◌≡◌, ◌∷◌, [], true, false, Some, None, codes};
ghost use Rattle.ordered_tree.specs.Numbering.{numbered};
ghost use Rattle.plain_tree.specs.Document.{no_nodes, nodes, text};
ghost use Rattle.plain_tree.specs.EditExamples.{b, between, c, elem, letters, nested};
ghost use Rattle.plain_tree.specs.declared.place.How.TheVariants as H;
ghost use Rattle.tree_edits.specs.Examples as tree;
ghost use Rattle.tree_edits.specs.Examples.{ref};
ghost use Rattle.document_edits.specs.Edited.{edited, edited_nodes, is_one_of};
ghost use Rattle.document_edits.specs.Examples.{colours, d, foobar, p, paragraphs};
ghost use Rattle.document_edits.specs.Targets.{numbered_edit, places_of, reference_at, references_after, touched_by};

/// Where content is inserted: before the children of the element at the place, after them, before it or after it.
pub fn inserted_at_places()
    ensures first { edited (Some H.First) (nodes (c ∷ [])) ((2 ∷ []) ∷ []) letters ≡ between (b (c ∷ text (codes "y") ∷ []) ∷ []) }
    ensures last { edited (Some H.Last) (nodes (c ∷ [])) ((2 ∷ []) ∷ []) letters ≡ between (b (text (codes "y") ∷ c ∷ []) ∷ []) }
    ensures before { edited (Some H.Before) (nodes (c ∷ [])) ((2 ∷ []) ∷ []) letters ≡ between (c ∷ b (text (codes "y") ∷ []) ∷ []) }
    ensures after { edited (Some H.After) (nodes (c ∷ [])) ((2 ∷ []) ∷ []) letters ≡ between (b (text (codes "y") ∷ []) ∷ c ∷ []) }
    ensures in_the_root { edited (Some H.Last) (nodes (c ∷ b [] ∷ [])) ([] ∷ []) nested ≡ elem (codes "a") (b (c ∷ []) ∷ c ∷ c ∷ b [] ∷ []) }
    ensures deeper { edited (Some H.Before) (nodes (b [] ∷ [])) ((1 ∷ 1 ∷ []) ∷ []) nested ≡ elem (codes "a") (b (b [] ∷ c ∷ []) ∷ c ∷ []) }
    ensures twice { edited (Some H.After) (nodes (b [] ∷ [])) ((2 ∷ []) ∷ (1 ∷ []) ∷ []) nested
        ≡ elem (codes "a") (b (c ∷ []) ∷ b [] ∷ c ∷ b [] ∷ []) }
    ensures nothing { edited (Some H.First) no_nodes ((2 ∷ []) ∷ []) letters ≡ letters }
    ensures not_there { edited (Some H.First) (nodes (c ∷ [])) ((4 ∷ []) ∷ (2 ∷ 1 ∷ 1 ∷ []) ∷ []) letters ≡ letters }
    ensures a_text { edited (Some H.After) (nodes (c ∷ [])) ((1 ∷ []) ∷ []) letters ≡ letters }
{}

/// What stands in the place of an element that is replaced: some nodes, or none.
pub fn replaced_at_places()
    ensures by_two { edited None (nodes (c ∷ b [] ∷ [])) ((2 ∷ []) ∷ []) letters ≡ between (c ∷ b [] ∷ []) }
    ensures by_nothing { edited None no_nodes ((2 ∷ []) ∷ []) nested ≡ elem (codes "a") (b (c ∷ []) ∷ []) }
    ensures below { edited None (nodes (text (codes "v") ∷ [])) ((1 ∷ 1 ∷ []) ∷ []) nested
        ≡ elem (codes "a") (b (text (codes "v") ∷ []) ∷ c ∷ []) }
    ensures the_root { edited_nodes None (nodes (c ∷ b [] ∷ [])) ([] ∷ []) letters ≡ nodes (c ∷ b [] ∷ []) }
    ensures root_without_nodes { edited None no_nodes ([] ∷ []) letters ≡ letters }
{}

/// Elements go with all that is below them: one below another that goes is passed over.
pub fn deleted_at_places()
    ensures inner_first { edited None no_nodes ((1 ∷ 1 ∷ []) ∷ (1 ∷ []) ∷ []) nested ≡ elem (codes "a") (c ∷ []) }
    ensures outer_first { edited None no_nodes ((1 ∷ []) ∷ (1 ∷ 1 ∷ []) ∷ []) nested ≡ elem (codes "a") (c ∷ []) }
    ensures both { edited None no_nodes ((2 ∷ []) ∷ (1 ∷ 1 ∷ []) ∷ []) nested ≡ elem (codes "a") (b [] ∷ []) }
    ensures all { edited None no_nodes ((1 ∷ []) ∷ (2 ∷ []) ∷ []) nested ≡ elem (codes "a") [] }
    ensures none { edited None no_nodes [] letters ≡ letters }
    ensures not_below { is_one_of ((1 ∷ []) ∷ (1 ∷ 2 ∷ []) ∷ []) (1 ∷ 1 ∷ []) ≡ false }
    ensures among { is_one_of ((1 ∷ []) ∷ (1 ∷ 2 ∷ []) ∷ []) (1 ∷ 2 ∷ []) ≡ true }
{}

/// Texts that come beside each other are one text; an empty one is dropped.
pub fn joined_at_places()
    ensures around { edited None no_nodes ((2 ∷ []) ∷ []) letters ≡ elem (codes "a") (text (codes "xz") ∷ []) }
    ensures all_three { edited None (nodes (text (codes "v") ∷ [])) ((2 ∷ []) ∷ []) letters ≡ elem (codes "a") (text (codes "xvz") ∷ []) }
    ensures inside { edited (Some H.Last) (nodes (text (codes "v") ∷ [])) ((2 ∷ []) ∷ []) letters ≡ between (b (text (codes "yv") ∷ []) ∷ []) }
    ensures beside { edited (Some H.Before) (nodes (text (codes "v") ∷ [])) ((2 ∷ []) ∷ []) letters
        ≡ elem (codes "a") (text (codes "xv") ∷ b (text (codes "y") ∷ []) ∷ text (codes "z") ∷ []) }
    ensures empty { edited (Some H.First) (nodes (text [] ∷ [])) ((2 ∷ []) ∷ []) letters ≡ letters }
{}

/// The places of elements by their references, and the references at places.
pub fn places_and_references()
    ensures places { places_of tree.nested (ref 3 ∷ ref 0 ∷ ref 2 ∷ []) ≡ (2 ∷ []) ∷ [] ∷ (1 ∷ 1 ∷ []) ∷ [] }
    ensures with_texts { places_of tree.letters (ref 2 ∷ []) ≡ (2 ∷ []) ∷ [] }
    ensures at { reference_at tree.nested (1 ∷ 1 ∷ []) ≡ ref 2 ∷ [] }
    ensures nothing_there { reference_at tree.nested (3 ∷ []) ≡ [] }
    ensures later { references_after letters (nodes (b (c ∷ []) ∷ text (codes "v") ∷ [])) ≡ ref 5 ∷ ref 6 ∷ ref 7 ∷ [] }
    ensures numbers { numbered 0 letters ≡ tree.letters }
    ensures edited { numbered_edit None no_nodes ((2 ∷ []) ∷ []) letters ≡ tree.without_b }
    ensures content { numbered_edit (Some H.Before) (nodes (c ∷ [])) ((2 ∷ []) ∷ []) letters
        ≡ tree.a 0 (tree.text 1 (codes "x") ∷ tree.c 5 ∷ tree.b 2 (tree.text 3 (codes "y") ∷ []) ∷ tree.text 4 (codes "z") ∷ []) }
{}

/// How many words an edit touches: those of the texts that go and come, and of those that are joined, as they were and as they are.
pub fn touched_words()
    ensures one_text { touched_by None no_nodes ((2 ∷ []) ∷ []) paragraphs ≡ 2 }
    ensures two_texts { touched_by None no_nodes ((1 ∷ []) ∷ (3 ∷ []) ∷ []) paragraphs ≡ 4 }
    ensures joined { touched_by None no_nodes ((2 ∷ []) ∷ []) foobar ≡ 4 }
    ensures no_text { touched_by (Some H.After) (nodes (p [] ∷ [])) ((2 ∷ []) ∷ []) colours ≡ 0 }
    ensures content { touched_by (Some H.Last) (nodes (p (text (codes "g h") ∷ []) ∷ [])) ([] ∷ []) paragraphs ≡ 2 }
    ensures made_longer { touched_by (Some H.Last) (nodes (text (codes "g") ∷ [])) ((1 ∷ []) ∷ []) paragraphs ≡ 6 }
    ensures replaced { touched_by None (nodes (text (codes " g ") ∷ [])) ((2 ∷ []) ∷ []) (d (p [] ∷ b (text (codes "x") ∷ []) ∷ [])) ≡ 2 }
{}
