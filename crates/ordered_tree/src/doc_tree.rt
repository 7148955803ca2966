ghost use Rattle.ordered_tree.specs.steps.Heads.{head_of};
ghost use Rattle.ordered_tree.specs.steps.Parts.{slot_of};

use crate::around::Around;
use crate::building::add_tree;
use crate::climbing::add_place;
use crate::counting::count_nodes;
use crate::head::Head;
use crate::leaves::add_leaves;
use crate::plain::tree_of;
use crate::read::Read;
use crate::slots::{SlotAt, Slots};
use crate::texts_read::TextsRead;
use crate::{Leaves, NodeRef, Place};
use ft_base::Memory;
use plain_tree::{PlainDoc, Tree};
use std::alloc::Global;
use std::marker::Model;
use tokenizer::TokenFault;
use word_lists::KeySet;

/// A document in slots, which its copies share: each node has a reference, which is the number of its slot.
#[derive(Drop)]
pub struct DocTree {
    pub(crate) alloc: Global,
    pub(crate) slots: Slots,
    pub(crate) free: Option<NodeRef>,
    pub(crate) nodes: usize,
    pub(crate) depth: usize,
}

impl Model for DocTree {
    ghost use Rattle.std.specs.Prelude.{length};
    ghost use Rattle.ordered_tree.specs.Stored.{Stored, stored_code};

    ghost Value = { Stored };

    ghost coded = { stored_code };

    ghost use Rattle.ordered_tree.specs.Slots.{IsCounted, root_of};

    ghost view = { λ tree. record { root = root_of tree.slots; slots = length tree.slots } };

    ghost invariant = { λ tree. IsCounted tree.slots tree.free tree.nodes tree.depth };
}

impl DocTree {
    ghost use Rattle.std.specs.Prelude.{◌≡◌, ◌≢◌, ◌+◌, ◌≤◌, ◌<◌, ◌^◌, length, true, All, AllPairs, Contains, Err, IfOk, IfSome, OnOk, Some};
    ghost use Rattle.doc_grammar.specs.Limits.{node_count};
    ghost use Rattle.plain_tree.specs.View as view;
    ghost use Rattle.ordered_tree.specs.Counts.{element_depth, word_count};
    ghost use Rattle.ordered_tree.specs.Leaves.{leaves};
    ghost use Rattle.ordered_tree.specs.Numbered.{is_element, plain, reference};
    ghost use Rattle.ordered_tree.specs.Numbering.{numbered};
    ghost use Rattle.ordered_tree.specs.Places.{at_place};
    ghost use Rattle.ordered_tree.specs.Slots.{root_ref, slot};
    ghost use Rattle.ordered_tree.specs.Stands.{OnNode, references};
    ghost use Rattle.tokenizer.specs.Tokens.{tokens, sentence_starts, paragraph_starts};

    /// The document, with references in document order, from 0.
    pub fn from_doc(alloc: Global, doc: &PlainDoc) -> Result<DocTree, Memory>
        requires few_nodes { node_count doc.now < 2 ^ 31 }
        requires few_words { word_count doc.now < 2 ^ 31 }
        ensures { IfOk result (λ tree. tree ≡ record { root = numbered 0 doc.now; slots = node_count doc.now }) }
    {
        match DocTree::read(
            alloc,
            doc.copy(alloc)?,
            &KeySet::empty(alloc),
            2_147_483_647,
        ) {
            Ok(
                Read {
                    tree,
                    leaves,
                    breaks,
                },
            ) => {
                drop((leaves, breaks));
                Ok(tree)
            }
            Err(TokenFault::Tokens) => unreachable!(),
            Err(TokenFault::Memory) => Err(Memory),
        }
    }

    /// The document, with references in document order, from 0; its leaves; and where its sentences and paragraphs start under a set
    /// of abbreviations. Its names, attributes and texts stay in their memory. `Tokens` comes where it has more than `most` words.
    pub(crate) fn read(
        alloc: Global,
        doc: PlainDoc,
        abbreviations: &KeySet,
        most: u32,
    ) -> Result<Read, TokenFault>
        requires few_nodes { node_count doc < 2 ^ 31 }
        requires countable { most < 2 ^ 31 }
        ensures tree { IfOk result (λ read. read.tree ≡ record { root = numbered 0 doc; slots = node_count doc }) }
        ensures leaves { IfOk result (λ read. read.leaves ≡ leaves (numbered 0 doc)) }
        ensures sentences { IfOk result (λ read. read.breaks.sentences ≡ sentence_starts (tokens abbreviations.now doc)) }
        ensures paragraphs { IfOk result (λ read. read.breaks.paragraphs ≡ paragraph_starts (tokens abbreviations.now doc)) }
        ensures few { OnOk result (word_count doc ≤ most) }
        ensures full { result ≡ Err TokenFault.Tokens → most < word_count doc }
    {
        let root = doc.into_tree();
        let Ok(mut slots) = Vec::with_capacity(alloc, count_nodes(&root)) else {
            drop(root);
            return Err(TokenFault::Memory);
        };
        let mut texts = TextsRead::new(alloc, abbreviations, most);
        let added = add_tree(&mut slots, &mut texts, root, Around::root(), true)?;
        let slots = Slots::from_vec(alloc, slots)?;
        let nodes = slots.len();
        let (leaves, breaks) = texts.into_parts();
        let tree = DocTree {
            alloc,
            slots,
            free: None,
            nodes,
            depth: added.levels,
        };
        Ok(Read {
            tree,
            leaves,
            breaks,
        })
    }

    /// The document without references.
    pub fn to_doc(&self) -> Result<PlainDoc, Memory>
        ensures { IfOk result (λ doc. doc ≡ plain self.now.root) }
    {
        let tree = tree_of(self.alloc, &self.slots, NodeRef(0))?;
        Ok(PlainDoc::from_tree(tree))
    }

    /// A node as a plain tree, with all that is below it.
    pub fn to_tree(&self, node: NodeRef) -> Result<Tree, Memory>
        requires { Contains (references self.now.root) node }
        ensures { IfOk result (λ tree. OnNode self.now.root node (λ s. view.node tree ≡ plain s.node)) }
    {
        let tree = tree_of(self.alloc, &self.slots, node)?;
        Ok(tree)
    }

    /// A tree of the same document, with the same references. It shares the memory of this one.
    pub fn copy(&self) -> Result<DocTree, Memory>
        ensures { IfOk result (λ copy. copy ≡ self.now) }
    {
        let slots = self.slots.share()?;
        Ok(DocTree {
            alloc: self.alloc,
            slots,
            free: self.free,
            nodes: self.nodes,
            depth: self.depth,
        })
    }

    /// Takes the slots that the other tree has alike from it, a block at a time, so that the two share their memory. The document
    /// stays as it is.
    pub fn share_slots_of(&mut self, other: &DocTree)
        ensures { self.new ≡ self.old }
    {
        self.slots.share_blocks_of(&other.slots);
    }

    /// The leaves: one for each text, in document order, with the text's words.
    pub fn all_leaves(&self) -> Result<Leaves, Memory>
        ensures { IfOk result (λ all. all ≡ leaves self.now.root) }
    {
        let mut leaves = Leaves::new(self.alloc);
        add_leaves(self.alloc, &self.slots, NodeRef(0), None, &mut leaves)?;
        Ok(leaves)
    }

    /// The place of a node: the child numbers, counted from 1, that lead to it from the root.
    pub fn place_of(&self, node: NodeRef) -> Result<Place, Memory>
        requires { Contains (references self.now.root) node }
        ensures { IfOk result (λ place. OnNode self.now.root node (λ s. at_place place self.now.root ≡ Some s.node)) }
    {
        let mut place = Place::new(self.alloc);
        add_place(&self.slots, node, self.depth, &mut place)?;
        Ok(place)
    }

    /// The root, which is an element. No two nodes have one reference.
    pub fn root(&self) -> NodeRef
        ensures root { result ≡ reference self.now.root }
        ensures first { result ≡ root_ref }
        ensures there { Contains (references self.now.root) result }
        ensures element { is_element self.now.root ≡ true }
        ensures apart { AllPairs (λ a b. a ≢ b) (references self.now.root) }
    {
        let _slots = &self.slots;
        NodeRef(0)
    }

    /// The slot of a node.
    pub(crate) fn slot(&self, node: NodeRef) -> SlotAt<'_>
        requires { Contains (references self.now.root) node }
        ensures stands { OnNode self.now.root node (λ s. slot_of result ≡ slot s) }
        ensures few { result.around.before + result.words < 2 ^ 31 }
    {
        self.slots.get(node.0 as usize)
    }

    /// The head of a node.
    pub(crate) fn head(&self, node: NodeRef) -> &Head
        requires { Contains (references self.now.root) node }
        ensures stands { OnNode self.now.root node (λ s. result.now ≡ head_of (slot s)) }
        ensures few { result.now.before + result.now.words < 2 ^ 31 }
        ensures parent { IfSome result.now.parent (Contains (references self.now.root)) }
        ensures next { IfSome result.now.next (Contains (references self.now.root)) }
        ensures first { IfSome result.now.first_child (Contains (references self.now.root)) }
    {
        self.slots.head(node.0 as usize)
    }

    /// How many nodes there are.
    pub fn node_count(&self) -> usize
        ensures count { result ≡ node_count (plain self.now.root) }
        ensures few { result < 2 ^ 31 }
    {
        self.nodes
    }

    /// How many elements stand in one another, at most.
    pub fn depth(&self) -> usize
        ensures { result ≡ element_depth (plain self.now.root) }
    {
        self.depth
    }

    /// How many slots there are, used and free. The references of all nodes are below it.
    pub fn slot_count(&self) -> usize
        ensures count { result ≡ self.now.slots }
        ensures below { All (λ r. r.0 < result) (references self.now.root) }
        ensures few { result < 2 ^ 31 }
    {
        self.slots.len()
    }
}
