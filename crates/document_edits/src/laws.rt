//! What holds of edits by places: each law is the contract of a function without a body.

ghost use Rattle.std.specs.Prelude.{◌≡◌, ◌≢◌, ◌++◌, All, AllPairs, List, Option, length};
ghost use Rattle.doc_grammar.specs.Limits.{nodes_count};
ghost use Rattle.ft_base.specs.Lists.{is_empty};
ghost use Rattle.ft_base.specs.declared.ids.NodeRef.{NodeRef};
ghost use Rattle.ordered_tree.specs.Numbered.{Children, Numbered, plain, plain_children, reference};
ghost use Rattle.ordered_tree.specs.Stands.{references};
ghost use Rattle.path_nodes.specs.References.{IsElement, element_of};
ghost use Rattle.plain_tree.specs.Document.{Nodes};
ghost use Rattle.plain_tree.specs.declared.place.How.{How};
ghost use Rattle.tree_edits.specs.Changed.{touched};
ghost use Rattle.tree_edits.specs.Edits.{is_same, only};
ghost use Rattle.tree_edits.specs.Fresh.{all_fresh};
ghost use Rattle.tree_edits.specs.Acts.{act_on};
ghost use Rattle.document_edits.specs.Edited.{edited_nodes};
ghost use Rattle.document_edits.specs.Targets.{places_of, touched_by};

/// Without references, an edit of elements by their references is that of the plain document at their places.
pub fn places_law()
    ensures { (root : Numbered) (refs : List NodeRef) → All (IsElement root) refs → (how : Option How) (content : Children)
        → plain_children (act_on refs how content root) ≡ edited_nodes how (plain_children content) (places_of root refs) (plain root) }
{}

/// The root alone has the empty place.
pub fn root_place_law()
    ensures { (root : Numbered) (r : NodeRef) → IsElement root r → is_empty (element_of root r).place ≡ is_same (reference root) r }
{}

/// How many words an edit touches is said by the plain document and the places: it doesn't depend on the references that the
/// nodes have, nor on those that the content gets.
pub fn touched_law()
    ensures { (root : Numbered) (fresh : List NodeRef) (content : Nodes) → AllPairs (λ a b. a ≢ b) (references root ++ fresh)
        → length fresh ≡ nodes_count content → (refs : List NodeRef) → All (IsElement root) refs → (how : Option How) (new : Numbered)
        → only new ≡ act_on refs how (all_fresh fresh content) root
        → touched root new ≡ touched_by how content (places_of root refs) (plain root) }
{}
