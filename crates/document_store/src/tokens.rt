ghost use Rattle.std.specs.Prelude.{◌≡◌};
ghost use Rattle.ordered_tree.specs.Counts.{word_count};
ghost use Rattle.ordered_tree.specs.Numbered.{plain};

use ordered_tree::DocTree;

/// How many tokens the document of a tree has.
pub(crate) fn token_count(tree: &DocTree) -> usize
    ensures { result ≡ word_count (plain tree.now.root) }
{
    let span = tree.span_of(tree.root());
    (span.to - span.from) as usize
}
