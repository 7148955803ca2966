ghost use Rattle.std.specs.Prelude.{◌≡◌};
ghost use Rattle.index_meaning.specs.Documents.{leaf_of};

use ft_base::LeafId;
use std::marker::Model;
use text_list::TextList;

/// A leaf that comes into a version: its number, and its words in order.
#[derive(Drop)]
pub struct WordLeaf {
    leaf: LeafId,
    words: TextList,
}

impl Model for WordLeaf {
    ghost use Rattle.index_meaning.specs.Documents.{Leaf, leaf_of};

    ghost Value = { Leaf };

    ghost view = { λ inside. leaf_of inside.leaf.0 inside.words };
}

impl WordLeaf {
    /// The leaf of that number with these words.
    pub fn new(leaf: LeafId, words: TextList) -> WordLeaf
        ensures { result ≡ leaf_of leaf.0 words }
    {
        WordLeaf { leaf, words }
    }

    /// The number of the leaf.
    pub fn leaf(&self) -> LeafId
        ensures { result.0 ≡ self.now.id }
    {
        self.leaf
    }

    /// Its words, in order.
    pub fn words(&self) -> &TextList
        ensures { result.now ≡ self.now.words }
    {
        &self.words
    }
}
