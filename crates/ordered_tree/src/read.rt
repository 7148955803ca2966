ghost use Rattle.std.specs.Prelude.{◌≡◌, ◌≤◌, ◌<◌, ◌^◌, Err, IfOk, OnOk};
ghost use Rattle.doc_grammar.specs.Limits.{node_count};
ghost use Rattle.ordered_tree.specs.Counts.{word_count};
ghost use Rattle.ordered_tree.specs.Leaves.{leaves};
ghost use Rattle.ordered_tree.specs.Numbering.{numbered};
ghost use Rattle.tokenizer.specs.Tokens.{tokens, sentence_starts, paragraph_starts};

use crate::{DocTree, Leaves};
use ft_base::{Breaks, MAX_TOKENS};
use plain_tree::PlainDoc;
use std::alloc::Global;
use tokenizer::TokenFault;
use word_lists::KeySet;

/// A document that was read, with its leaves, and where its sentences and paragraphs start.
#[derive(Drop)]
pub struct Read {
    pub tree: DocTree,
    pub leaves: Leaves,
    pub breaks: Breaks,
}

/// Reads a document in one walk that finds each word once: the tree is that of `DocTree::from_doc`, the leaves are those of
/// `DocTree::all_leaves`, and the places those of `tokenizer::breaks_of` under the abbreviations. Names, attributes and texts
/// stay in their memory. `Tokens` comes exactly where the document has more than `MAX_TOKENS` tokens, no more than which are made.
pub fn load_doc(alloc: Global, doc: PlainDoc, abbreviations: &KeySet) -> Result<Read, TokenFault>
    requires few_nodes { node_count doc < 2 ^ 31 }
    ensures tree { IfOk result (λ read. read.tree ≡ record { root = numbered 0 doc; slots = node_count doc }) }
    ensures leaves { IfOk result (λ read. read.leaves ≡ leaves (numbered 0 doc)) }
    ensures sentences { IfOk result (λ read. read.breaks.sentences ≡ sentence_starts (tokens abbreviations.now doc)) }
    ensures paragraphs { IfOk result (λ read. read.breaks.paragraphs ≡ paragraph_starts (tokens abbreviations.now doc)) }
    ensures few { OnOk result (word_count doc ≤ MAX_TOKENS) }
    ensures full { result ≡ Err TokenFault.Tokens → MAX_TOKENS < word_count doc }
{
    DocTree::read(alloc, doc, abbreviations, MAX_TOKENS as u32)
}
