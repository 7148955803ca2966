//! What holds of the nodes of a document and their places: the law is the contract of a function without a body.

ghost use Rattle.std.specs.Prelude.{Contains};
ghost use Rattle.ordered_tree.specs.Numbered.{Numbered};
ghost use Rattle.ordered_tree.specs.Stands.{references, stands_in};
ghost use Rattle.path_nodes.specs.References.{Spot, spot_reference, spots_in};

/// A node with its place is a node of the document, and its reference is one of the document's.
pub fn spots_law()
    ensures stands { (root : Numbered) (spot : Spot) → Contains (spots_in root) spot → Contains (stands_in root) spot.stand }
    ensures references { (root : Numbered) (spot : Spot) → Contains (spots_in root) spot → Contains (references root) (spot_reference spot) }
{}
