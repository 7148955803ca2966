ghost use Rattle.std.specs.Prelude.{◌≡◌, ◌∷◌, [], true, IfOk, IfSome, OnErr, OnOk};
ghost use Rattle.ft_base.specs.Places.{is_ascending};
ghost use Rattle.index_versions.specs.steps.Held.{listed, numbers};
ghost use Rattle.index_versions.specs.steps.Exchange.{exchanged, of_number};

use crate::documents::{Documents, place_of, stands_at};
use crate::held::HeldDocument;
use ft_base::{DocId, Memory};

/// Puts a document in the place of the one with that number, or takes that one out, and hands out the one that was
/// there. Where memory runs out, the documents stay as they were.
pub(crate) fn exchange(
    documents: &mut Documents,
    doc: DocId,
    next: Option<HeldDocument>,
) -> Result<Option<HeldDocument>, Memory>
    requires ascending { is_ascending (numbers documents.old) ≡ true }
    requires number { IfSome next (λ held. held.index.doc ≡ doc.0) }
    ensures documents { OnOk result (documents.new ≡ exchanged doc.0 (listed next) documents.old) }
    ensures old { IfOk result (λ old. listed old ≡ of_number doc.0 documents.old) }
    ensures err { OnErr result (documents.new ≡ documents.old) }
{
    match next {
        Some(held) => put(documents, doc, held),
        None => take(documents, doc),
    }
}

/// Puts the document in.
fn put(
    documents: &mut Documents,
    doc: DocId,
    held: HeldDocument,
) -> Result<Option<HeldDocument>, Memory>
    requires ascending { is_ascending (numbers documents.old) ≡ true }
    requires number { held.index.doc ≡ doc.0 }
    ensures documents { OnOk result (documents.new ≡ exchanged doc.0 (held ∷ []) documents.old) }
    ensures old { IfOk result (λ old. listed old ≡ of_number doc.0 documents.old) }
    ensures err { OnErr result (documents.new ≡ documents.old) }
{
    let at = place_of(documents, doc);
    if !stands_at(documents, at, doc) {
        documents.insert(at, held)?;
        return Ok(None);
    }
    let old = documents.get(at).share()?;
    documents.replace(at, held)?;
    Ok(Some(old))
}

/// Takes the document of that number out.
fn take(documents: &mut Documents, doc: DocId) -> Result<Option<HeldDocument>, Memory>
    requires { is_ascending (numbers documents.old) ≡ true }
    ensures documents { OnOk result (documents.new ≡ exchanged doc.0 [] documents.old) }
    ensures old { IfOk result (λ old. listed old ≡ of_number doc.0 documents.old) }
    ensures err { OnErr result (documents.new ≡ documents.old) }
{
    let at = place_of(documents, doc);
    if !stands_at(documents, at, doc) {
        return Ok(None);
    }
    let old = documents.remove(at)?;
    Ok(Some(old))
}
