ghost use Rattle.std.specs.Prelude.{◌≡◌, length};
ghost use Rattle.document_store.specs.Documents.{key_total, token_total};

use crate::marks::Marks;
use document_store::Collection;
use kept_plans::Prepared;
use reply_lines::Counts;

/// How much a session holds.
pub(crate) fn counts(collection: &Collection, marks: &Marks, prepared: &Prepared) -> Counts
    ensures { result ≡ record {
      documents = length collection.now.documents;
      tokens = token_total collection.now.documents;
      terms = key_total collection.now.documents;
      marks = length marks.now;
      plans = length prepared.now.kept.texts;
      hits = prepared.now.kept.hits;
    } }
{
    Counts {
        documents: collection.len() as u64,
        tokens: collection.token_total() as u64,
        terms: collection.key_total() as u64,
        marks: marks.len() as u64,
        plans: prepared.plans_kept() as u64,
        hits: prepared.hits(),
    }
}
