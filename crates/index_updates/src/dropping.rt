ghost use Rattle.std.specs.Prelude.{◌≡◌, ◌≢◌, ◌≤◌, ◌+◌, ℕ, List, false, true, IfOk, OnOk};
ghost use Rattle.index_meaning.specs.Documents.{document_at, has_document, token_count, without_document};
ghost use Rattle.index_meaning.specs.Index.{index};
ghost use Rattle.ordered_tree.specs.Counts.{word_count};
ghost use Rattle.ordered_tree.specs.Numbered.{Numbered, plain};
ghost use Rattle.text_forms.specs.Forms.{key_of};
ghost use Rattle.index_updates.specs.Follows.{Follows};

use ft_base::{DocId, Memory, Steps};
use index_versions::Version;
use std::sync::ledger::Ledger;

/// The version without a document that it has. Counts a row for each of the document's words; where memory runs out, no more
/// than that. If the version follows a tree there, these are the words of the tree.
pub fn drop_doc<L: Ledger>(
    version: &Version,
    doc: DocId,
    rows: &mut Steps<L>,
) -> Result<Version, Memory>
    requires { has_document doc.0 version.now ≡ true }
    ensures documents { IfOk result (λ new. new ≡ without_document doc.0 version.now) }
    ensures index { IfOk result (λ new. index key_of new ≡ index key_of (without_document doc.0 version.now)) }
    ensures gone { IfOk result (λ new. has_document doc.0 new ≡ false) }
    ensures others { IfOk result (λ new. (other : ℕ) → other ≢ doc.0 → document_at other new ≡ document_at other version.now) }
    ensures counted { OnOk result (rows.new ≡ rows.old + token_count (document_at doc.0 version.now)) }
    ensures at_most { rows.new ≤ rows.old + token_count (document_at doc.0 version.now) }
    ensures words { (abbreviations : List (List ℕ)) (root : Numbered) → Follows abbreviations version.now doc.0 root → rows.new ≤ rows.old + word_count (plain root) }
{
    let mut next = version.clone_version()?;
    match next.take_document(doc, rows) {
        Ok(()) => Ok(next),
        Err(memory) => {
            drop(next);
            Err(memory)
        }
    }
}
