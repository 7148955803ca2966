ghost use Rattle.std.specs.Prelude.{◌≡◌, ◌<◌, ◌^◌};
ghost use Rattle.doc_grammar.specs.Limits.{node_count};
ghost use Rattle.plain_tree.specs.View.{node};

use plain_tree::Tree;

/// How many nodes there are: the node and all below it.
#[tactic(auto, using(crate::proofs::TreeCounts::tree_counts))]
pub fn count_nodes(tree: &Tree) -> usize
    requires { node_count (node tree.now) < 2 ^ 31 }
    ensures { result ≡ node_count (node tree.now) }
{
    match tree {
        Tree::Text { .. } => 1,
        Tree::Elem { kids, .. } => {
            let mut count = 1;
            for kid in kids.as_slice() {
                count += count_nodes(kid);
            }
            count
        }
    }
}
