//! What holds: each law is the contract of a function without a body.

ghost use Rattle.std.specs.Prelude.{◌≡◌};
ghost use Rattle.element_lines.specs.LocationSteps.{steps_to};
ghost use Rattle.ordered_tree.specs.Numbered.{Numbered, plain};
ghost use Rattle.ft_base.specs.declared.ids.NodeRef.{NodeRef};
ghost use Rattle.path_nodes.specs.References.{IsElement, element_of};

/// No two elements of a document have the same steps.
pub fn one_element_law()
    ensures { (root : Numbered) (r q : NodeRef) → IsElement root r → IsElement root q
        → steps_to (plain root) (element_of root r).place ≡ steps_to (plain root) (element_of root q).place → r ≡ q }
{}
