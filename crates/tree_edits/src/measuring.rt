//! How many nodes, elements in one another and words documents with references have.

ghost use Rattle.std.specs.Prelude.{◌≡◌, ◌*◌, ◌≤◌, ◌<◌, ◌^◌, map};
ghost use Rattle.doc_grammar.specs.Limits.{height, heights, node_count, nodes_count};
ghost use Rattle.ordered_tree.specs.Counts.{word_count, word_counts};
ghost use Rattle.ordered_tree.specs.Numbered.{plain, plain_children};
ghost use Rattle.ordered_tree.specs.RefView.{ref_node, ref_nodes};

use ordered_tree::RefTree;

/// How many nodes there are, how many elements stand in one another, at most, and how many words there are.
#[derive(Clone, Copy)]
pub(crate) struct Size {
    pub(crate) nodes: usize,
    pub(crate) levels: usize,
    /// Each text may have as many as a `usize` counts.
    pub(crate) words: u128,
}

/// The size of a node with all that is below it.
#[cycle(measuring)]
#[tactic(auto, using(crate::proofs::RowsJoined::ref_views))]
pub(crate) fn size_of(tree: &RefTree) -> Size
    requires { node_count (plain (ref_node tree.now)) < 2 ^ 31 }
    ensures nodes { result.nodes ≡ node_count (plain (ref_node tree.now)) }
    ensures levels { result.levels ≡ height (plain (ref_node tree.now)) }
    ensures words { result.words ≡ word_count (plain (ref_node tree.now)) }
    ensures few { result.words ≤ result.nodes * 2 ^ 64 }
{
    match tree {
        RefTree::Text { text, .. } => Size {
            nodes: 1,
            levels: 0,
            words: text.word_count() as u128,
        },
        RefTree::Element { kids, .. } => {
            let below = size_of_all(kids.as_slice());
            Size {
                nodes: 1 + below.nodes,
                levels: 1 + below.levels,
                words: below.words,
            }
        }
    }
}

/// The size of nodes.
#[cycle(measuring)]
fn size_of_all(trees: &[RefTree]) -> Size
    requires { nodes_count (plain_children (ref_nodes (map ref_node trees.now))) < 2 ^ 31 }
    ensures nodes { result.nodes ≡ nodes_count (plain_children (ref_nodes (map ref_node trees.now))) }
    ensures levels { result.levels ≡ heights (plain_children (ref_nodes (map ref_node trees.now))) }
    ensures words { result.words ≡ word_counts (plain_children (ref_nodes (map ref_node trees.now))) }
    ensures few { result.words ≤ result.nodes * 2 ^ 64 }
{
    let mut nodes = 0;
    let mut levels = 0;
    let mut words = 0;
    for tree in trees {
        let size = size_of(tree);
        nodes += size.nodes;
        levels = size.levels.max(levels);
        words += size.words;
    }
    Size {
        nodes,
        levels,
        words,
    }
}
