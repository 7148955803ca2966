ghost use Rattle.std.specs.Prelude.{◌≡◌, ◌≤◌, IfOk};
ghost use Rattle.doc_grammar.specs.Limits.{node_count};
ghost use Rattle.ft_base.specs.Limits.{max_nodes};
ghost use Rattle.ordered_tree.specs.Numbered.{plain};

use ft_base::{DocId, Memory};
use ordered_tree::{DocTree, Read};
use shared_list::Share;
use std::alloc::Global;
use std::marker::Model;
use std::rc::Rc;

/// A document that can be loaded, as it was just read, with its words and breaks that were found on the way.
#[derive(Drop)]
pub(crate) struct Loadable {
    pub(crate) read: Read,
    ghost within: { node_count (plain read.tree.root) ≤ max_nodes },
}

/// A document that was loaded, with a number of its own in the index. Copies share the tree.
#[derive(Drop)]
pub struct Loaded {
    doc: DocId,
    tree: Rc<DocTree>,
}

impl Model for Loaded {
    ghost use Rattle.std.specs.Prelude.{◌≤◌};
    ghost use Rattle.doc_grammar.specs.Limits.{node_count};
    ghost use Rattle.ft_base.specs.Limits.{max_nodes};
    ghost use Rattle.ordered_tree.specs.Numbered.{plain};
    ghost use Rattle.document_store.specs.Loaded.{LoadedTree};
    ghost use Rattle.document_store.specs.StoredIndexed.{loaded_code};

    ghost Value = { LoadedTree };

    ghost coded = { loaded_code };

    ghost view = { λ inside. record { doc = inside.doc; tree = inside.tree.value } };

    ghost invariant = { λ inside. node_count (plain inside.tree.value.root) ≤ max_nodes };
}

impl Loaded {
    /// The document of that tree, under that number.
    pub(crate) fn new(alloc: Global, doc: DocId, tree: DocTree) -> Result<Loaded, Memory>
        requires { node_count (plain tree.root) ≤ max_nodes }
        ensures { IfOk result (λ loaded. loaded ≡ record { doc = doc; tree = tree }) }
    {
        let tree = Rc::new(alloc, tree)?;
        Ok(Loaded { doc, tree })
    }

    /// The same document once more; nothing of it is copied.
    pub(crate) fn share(&self) -> Result<Loaded, Memory>
        ensures { IfOk result (λ copy. copy ≡ self.now) }
    {
        let tree = self.tree.clone()?;
        Ok(Loaded {
            doc: self.doc,
            tree,
        })
    }

    /// The document's number in the index.
    pub fn doc(&self) -> DocId
        ensures { result ≡ self.now.doc }
    {
        self.doc
    }

    /// The document's tree.
    pub fn tree(&self) -> &DocTree
        ensures tree { result.now ≡ self.now.tree }
        ensures within { node_count (plain self.now.tree.root) ≤ max_nodes }
    {
        &*self.tree
    }
}

impl Share for Loaded {
    fn copies(alloc: Global, items: &[Loaded]) -> Result<Vec<Loaded>, Memory> {
        let mut copies = Vec::with_capacity(alloc, items.len())?;
        for item in items {
            copies.push(item.share()?)?;
        }
        Ok(copies)
    }
}
