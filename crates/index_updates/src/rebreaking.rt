ghost use Rattle.std.specs.Prelude.{◌≡◌, ◌≢◌, ℕ, List, IfOk};
ghost use Rattle.index_meaning.specs.Documents.{document_at, numbered, with_document};
ghost use Rattle.index_meaning.specs.Index.{index};
ghost use Rattle.text_forms.specs.Forms.{key_of};
ghost use Rattle.index_updates.specs.Follows.{Follows, tree_document};

use ft_base::{DocId, Memory};
use index_versions::Version;
use ordered_tree::DocTree;
use word_lists::KeySet;

/// The version with the breaks of a document as they are under these abbreviations; all else is as before. The version follows the tree
/// under some abbreviations. No row is put or taken.
pub fn rebreak(
    version: &Version,
    doc: DocId,
    tree: &DocTree,
    abbreviations: &KeySet,
) -> Result<Version, Memory>
    requires { (before : List (List ℕ)) × Follows before version.now doc.0 tree.now.root }
    ensures documents { IfOk result (λ new. new ≡ with_document (numbered doc.0 (tree_document abbreviations.now tree.now.root)) version.now) }
    ensures index { IfOk result (λ new. index key_of new ≡ index key_of (with_document (numbered doc.0 (tree_document abbreviations.now tree.now.root)) version.now)) }
    ensures follows { IfOk result (λ new. Follows abbreviations.now new doc.0 tree.now.root) }
    ensures others { IfOk result (λ new. (other : ℕ) → other ≢ doc.0 → document_at other new ≡ document_at other version.now) }
{
    let breaks = tree.breaks(abbreviations)?;
    let Ok(mut next) = version.clone_version() else {
        drop(breaks);
        return Err(Memory);
    };
    match next.set_breaks(doc, breaks) {
        Ok(()) => Ok(next),
        Err(memory) => {
            drop(next);
            Err(memory)
        }
    }
}
