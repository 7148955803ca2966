//! What holds of edits: each law is the contract of a function without a body.

ghost use Rattle.std.specs.Prelude.{◌≡◌, ◌≢◌, ◌≤◌, ◌+◌, ◌∷◌, ◌++◌, [], List, ℕ, AllPairs, Some, filter, length, map, take, true};
ghost use Rattle.doc_grammar.specs.Limits.{nodes_count};
ghost use Rattle.ft_base.specs.declared.ids.NodeRef.{NodeRef};
ghost use Rattle.ordered_tree.specs.Numbered.{Children, Numbered, is_element, plain, plain_children, reference};
ghost use Rattle.ordered_tree.specs.Places.{at_place};
ghost use Rattle.ordered_tree.specs.Stands.{references};
ghost use Rattle.plain_tree.specs.Document.{Nodes};
ghost use Rattle.plain_tree.specs.Edits as plain_edit;
ghost use Rattle.plain_tree.specs.declared.place.How.{How};
ghost use Rattle.tree_edits.specs.Changed.{KeepsOrder, index_leaf, is_one_of, put, put_all, take_all, taken, text_leaves, touched, word_total};
ghost use Rattle.tree_edits.specs.Edits.{all_changed, insertion, is_among, is_same, joined, nothing, only, references_of, removal, replacement};
ghost use Rattle.tree_edits.specs.Fresh.{all_fresh};
ghost use Rattle.tree_edits.specs.Kept.{elements_in, elements_of, elements_without, picked};

/// Without references, an edit is that of the plain document at the place of the element.
pub fn plain_law()
    ensures insertion { (root node : Numbered) (place : List ℕ) → AllPairs (λ a b. a ≢ b) (references root)
        → at_place place root ≡ Some node → is_element node ≡ true → (how : How) (content : Children)
        → plain_children (insertion how content (reference node) root) ≡ plain_edit.insertion how (plain_children content) place (plain root) }
    ensures replacement { (root node : Numbered) (place : List ℕ) → AllPairs (λ a b. a ≢ b) (references root)
        → at_place place root ≡ Some node → is_element node ≡ true → (content : Children)
        → plain_children (replacement content (reference node) root) ≡ plain_edit.replacement (plain_children content) place (plain root) }
    ensures removal { (root node : Numbered) (place : List ℕ) → AllPairs (λ a b. a ≢ b) (references root)
        → at_place place root ≡ Some node → is_element node ≡ true
        → plain_children (removal (reference node ∷ []) root) ≡ plain_edit.removal place (plain root) }
{}

/// To remove elements in one pass is to remove them in turn, where one that isn't there any more is passed over.
pub fn in_turn_law()
    ensures none { (root : Numbered) → removal [] root ≡ joined (only root) }
    ensures further { (r : NodeRef) (rs : List NodeRef) (root : Numbered)
        → removal (r ∷ rs) root ≡ joined (all_changed (is_among rs) nothing (removal (r ∷ []) root)) }
{}

/// No two nodes have one reference after an edit, where the content brings references of its own.
pub fn references_law()
    ensures insertion { (root : Numbered) (content : Children) → AllPairs (λ a b. a ≢ b) (references root ++ references_of content)
        → (how : How) (r : NodeRef) → AllPairs (λ a b. a ≢ b) (references_of (insertion how content r root)) }
    ensures replacement { (root : Numbered) (content : Children) → AllPairs (λ a b. a ≢ b) (references root ++ references_of content)
        → (r : NodeRef) → AllPairs (λ a b. a ≢ b) (references_of (replacement content r root)) }
    ensures removal { (root : Numbered) (rs : List NodeRef) → AllPairs (λ a b. a ≢ b) (references root)
        → AllPairs (λ a b. a ≢ b) (references_of (removal rs root)) }
{}

/// An element that an edit doesn't take away keeps its reference, its name, its attributes and its place in their order.
pub fn elements_law()
    ensures insertion { (root : Numbered) (content : Children) → AllPairs (λ a b. a ≢ b) (references root ++ references_of content)
        → (how : How) (r : NodeRef) → elements_without (references_of content) (elements_of (insertion how content r root)) ≡ elements_in root }
    ensures replacement { (root : Numbered) (content : Children) → AllPairs (λ a b. a ≢ b) (references root ++ references_of content)
        → (r : NodeRef) → elements_without (references_of content) (elements_of (replacement content r root))
        ≡ elements_without (references_of (picked (is_same r) root)) (elements_in root) }
    ensures removal { (root : Numbered) (rs : List NodeRef) → AllPairs (λ a b. a ≢ b) (references root)
        → elements_of (removal rs root) ≡ elements_without (references_of (picked (is_among rs) root)) (elements_in root) }
{}

/// An edit leaves the texts that it keeps in their order, and no two nodes have one reference.
pub fn order_law()
    ensures insertion { (root : Numbered) (content : Children) → AllPairs (λ a b. a ≢ b) (references root ++ references_of content)
        → (how : How) (r : NodeRef) (new : Numbered) → only new ≡ insertion how content r root → KeepsOrder root new }
    ensures replacement { (root : Numbered) (content : Children) → AllPairs (λ a b. a ≢ b) (references root ++ references_of content)
        → (r : NodeRef) (new : Numbered) → only new ≡ replacement content r root → KeepsOrder root new }
    ensures removal { (root : Numbered) (rs : List NodeRef) → AllPairs (λ a b. a ≢ b) (references root)
        → (new : Numbered) → only new ≡ removal rs root → KeepsOrder root new }
{}

/// Where the leaves that an edit took are taken out of those of the old document, and those that it put are put in, one after
/// the other, they are the leaves of the new document. So it is where texts keep their order, whatever was done.
pub fn leaves_law()
    ensures in_order { (old new : Numbered) → KeepsOrder old new
        → put_all (put old new) (take_all (taken old new) (text_leaves old)) ≡ text_leaves new }
    ensures insertion { (root : Numbered) (content : Children) → AllPairs (λ a b. a ≢ b) (references root ++ references_of content)
        → (how : How) (r : NodeRef) (new : Numbered) → only new ≡ insertion how content r root
        → put_all (put root new) (take_all (taken root new) (text_leaves root)) ≡ text_leaves new }
    ensures replacement { (root : Numbered) (content : Children) → AllPairs (λ a b. a ≢ b) (references root ++ references_of content)
        → (r : NodeRef) (new : Numbered) → only new ≡ replacement content r root
        → put_all (put root new) (take_all (taken root new) (text_leaves root)) ≡ text_leaves new }
    ensures removal { (root : Numbered) (rs : List NodeRef) → AllPairs (λ a b. a ≢ b) (references root)
        → (new : Numbered) → only new ≡ removal rs root
        → put_all (put root new) (take_all (taken root new) (text_leaves root)) ≡ text_leaves new }
{}

/// The leaves that were taken and those that were put have as many words as the texts that an edit touched.
pub fn words_law()
    ensures { (old new : Numbered) → AllPairs (λ a b. a ≢ b) (references old)
        → word_total (filter (is_one_of (taken old new)) (text_leaves old)) + word_total (map index_leaf (put old new)) ≡ touched old new }
{}

/// Content that gets references is the same content, and takes as many of the free ones as it has nodes, in their order.
pub fn fresh_law()
    ensures content { (refs : List NodeRef) (content : Nodes) → plain_children (all_fresh refs content) ≡ content }
    ensures references { (refs : List NodeRef) (content : Nodes) → nodes_count content ≤ length refs
        → references_of (all_fresh refs content) ≡ take (nodes_count content) refs }
{}
