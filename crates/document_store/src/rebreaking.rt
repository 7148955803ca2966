//! Other abbreviations for all documents of a version.

ghost use Rattle.std.specs.Prelude.{◌≡◌, ℕ, List, map, IfOk, OnOk};
ghost use Rattle.index_meaning.specs.Documents.{with_document};
ghost use Rattle.index_updates.specs.Follows.{Follows, under_tree};
ghost use Rattle.document_store.specs.Loaded.{trees_of};
ghost use Rattle.document_store.specs.steps.Numbering.{IsNumbered};

use crate::documents::Documents;
use crate::loaded::Loaded;
use ft_base::Memory;
use index_updates::rebreak;
use index_versions::Version;
use word_lists::KeySet;

/// The version of these documents under other abbreviations: what it has of each but the breaks is as before.
pub(crate) fn rebreak_all(
    documents: &Documents,
    version: &Version,
    abbreviations: &KeySet,
) -> Result<Version, Memory>
    requires { (before : List (List ℕ)) × ((next : ℕ) × IsNumbered before documents.now version.now next) }
    ensures { IfOk result (λ made. made ≡ map (under_tree abbreviations.now) (trees_of documents.now)) }
{
    let mut made = version.clone_version()?;
    for at in 0..documents.len() {
        let (_, document) = documents.entry(at);
        rebreak_one(&mut made, document, abbreviations)?;
    }
    Ok(made)
}

/// Sets the breaks of one document.
fn rebreak_one(
    version: &mut Version,
    document: &Loaded,
    abbreviations: &KeySet,
) -> Result<(), Memory>
    requires { (before : List (List ℕ)) × Follows before version.old document.now.doc.0 document.now.tree.root }
    ensures { OnOk result (version.new ≡ with_document (under_tree abbreviations.now (document.now.doc.0, document.now.tree.root)) version.old) }
{
    let next = rebreak(version, document.doc(), document.tree(), abbreviations)?;
    drop(std::mem::replace(version, next));
    Ok(())
}
