//! How a document comes into the index of a collection.

ghost use Rattle.std.specs.Prelude.{◌≡◌, ◌≤◌, ◌+◌, false, IfOk};
ghost use Rattle.index_meaning.specs.Documents.{has_document, with_document};
ghost use Rattle.index_updates.specs.Follows.{AreOf, under_tree};
ghost use Rattle.ordered_tree.specs.Counts.{word_count};
ghost use Rattle.ordered_tree.specs.Numbered.{plain};

use crate::loaded::{Loadable, Loaded};
use ft_base::{DocId, Memory, Steps};
use index_updates::{Found, add_loaded};
use index_versions::{Version, WordHints};
use ordered_tree::Read;
use std::alloc::Global;
use std::sync::ledger::Ledger;
use word_lists::KeySet;

/// A document under a number that the version doesn't have, and the version with it. What was found of it is the tree's under the
/// abbreviations.
pub(crate) fn index_document<L: Ledger>(
    alloc: Global,
    version: &Version,
    hints: &mut WordHints,
    doc: DocId,
    document: Loadable,
    abbreviations: &KeySet,
    rows: &mut Steps<L>,
) -> Result<(Loaded, Version), Memory>
    requires absent { has_document doc.0 version.now ≡ false }
    requires found { AreOf abbreviations.now document.read.tree.root document.read.leaves document.read.breaks }
    ensures loaded { IfOk result (λ made. made.0 ≡ record { doc = doc; tree = document.read.tree }) }
    ensures version { IfOk result (λ made. made.1 ≡ with_document (under_tree abbreviations.now (doc.0, document.read.tree.root)) version.now) }
    ensures rows { rows.new ≤ rows.old + word_count (plain document.read.tree.root) }
{
    let Read {
        tree,
        leaves,
        breaks,
    } = document.read;
    let found = Found { leaves, breaks };
    let added = add_loaded(
        alloc,
        version,
        hints,
        doc,
        &tree,
        abbreviations,
        found,
        rows,
    );
    let Ok(next) = added else {
        drop(tree);
        return Err(Memory);
    };
    match Loaded::new(alloc, doc, tree) {
        Ok(loaded) => Ok((loaded, next)),
        Err(memory) => {
            drop(next);
            Err(memory)
        }
    }
}
