//! The definitions on small trees, by computation.

ghost use Rattle.std.specs.Prelude.{◌≡◌, ◌∷◌, []};
ghost use Rattle.index_meaning.specs.Documents.{leaf_ids, numbered, with_breaks, with_document};
ghost use Rattle.index_meaning.specs.Examples.{greeting, short};
ghost use Rattle.index_updates.specs.Examples.{bare_tree, dashes, one_sentence, titles};
ghost use Rattle.index_updates.specs.Follows.{Follows, tree_document};

/// A tree has a leaf for each of its texts, under the number of the text's node, whatever the abbreviations are.
#[tactic(auto, unfolding(crate::specs::Follows::tree_document))]
pub fn leaves_of_trees()
    ensures ids { leaf_ids (tree_document [] dashes).leaves ≡ 1 ∷ 3 ∷ [] }
    ensures no_leaves { (tree_document [] bare_tree).leaves ≡ [] }
    ensures under_titles { leaf_ids (tree_document titles dashes).leaves ≡ 1 ∷ 3 ∷ [] }
{}

/// A version follows a tree where it has the tree's document under that number.
pub fn followed_trees()
    ensures alone { Follows [] (numbered 5 (tree_document [] bare_tree) ∷ []) 5 bare_tree }
    ensures among_others { Follows titles (short ∷ numbered 5 (tree_document titles bare_tree) ∷ greeting ∷ []) 5 bare_tree }
    ensures not_there { Follows [] (short ∷ greeting ∷ []) 5 bare_tree → ⊥ }
    ensures other_number { Follows [] (short ∷ numbered 5 (tree_document [] bare_tree) ∷ []) 4 bare_tree → ⊥ }
    ensures other_leaves { Follows [] (short ∷ numbered 5 (tree_document [] bare_tree) ∷ []) 3 bare_tree → ⊥ }
    ensures other_breaks { Follows [] (numbered 5 (with_breaks one_sentence (tree_document [] bare_tree)) ∷ []) 5 bare_tree → ⊥ }
{}

/// Under other abbreviations a tree has the leaves that it had, and its document stands where it stood.
#[tactic(auto, unfolding(crate::specs::Follows::tree_document))]
pub fn rebroken_trees()
    ensures leaves { (tree_document titles dashes).leaves ≡ (tree_document [] dashes).leaves }
    ensures others { with_document (numbered 5 (tree_document titles dashes)) (short ∷ numbered 5 (tree_document [] dashes) ∷ greeting ∷ [])
        ≡ short ∷ numbered 5 (tree_document titles dashes) ∷ greeting ∷ [] }
{}
