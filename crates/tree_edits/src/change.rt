use ordered_tree::{LeafIds, Leaves};

/// What an edit changed: the leaves of the texts that went, and those of the texts that came, with their words, each to be put
/// directly after the leaf that it names. A text that was joined with another one is among both.
#[derive(Drop)]
pub struct Change {
    pub taken: LeafIds,
    pub put: Leaves,
}
