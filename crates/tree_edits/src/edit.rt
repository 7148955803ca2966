ghost use Rattle.std.specs.Prelude.{◌≤◌, length, map};
ghost use Rattle.doc_grammar.specs.Limits.{nodes_count};
ghost use Rattle.plain_tree.specs.Document.{nodes};
ghost use Rattle.plain_tree.specs.View.{node};

use ordered_tree::NodeRefs;
use plain_tree::{How, Kids};

/// What is done to the elements of these references: content is inserted, or stands in their place.
#[derive(Clone, Copy)]
pub(crate) struct Edit<'a> {
    /// The numbers of those references.
    pub(crate) marks: &'a Vec<bool>,
    pub(crate) how: Option<How>,
    pub(crate) content: &'a Kids,
    /// The references that the nodes of the content get.
    pub(crate) refs: &'a NodeRefs,
    ghost enough: { nodes_count (nodes (map node content.now)) ≤ length refs.now },
}
