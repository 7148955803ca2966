ghost use Rattle.std.specs.Prelude.{◌≡◌, [], IfOk};
ghost use Rattle.index_meaning.specs.Dictionaries.{dictionary};

use crate::documents::Documents;
use ft_base::Memory;
use index_counts::DocumentCounts;
use index_groups::TermGroups;
use std::alloc::Global;
use term_dict::TermDict;

/// What a version is made of: its documents in the order of their numbers, over the ids of their words; the dictionary
/// that names these ids; how many documents have each; and in which groups of documents each may stand.
#[derive(Drop)]
pub struct Parts {
    pub documents: Documents,
    pub dictionary: TermDict,
    pub counts: DocumentCounts,
    pub groups: TermGroups,
}

impl Parts {
    /// The parts where there is no document.
    pub(crate) fn empty(alloc: Global) -> Parts
        ensures documents { result.documents ≡ [] }
        ensures dictionary { result.dictionary ≡ dictionary [] [] }
        ensures counts { result.counts ≡ [] }
        ensures groups { result.groups ≡ [] }
    {
        Parts {
            documents: Documents::new(alloc),
            dictionary: TermDict::empty(alloc),
            counts: DocumentCounts::empty(alloc),
            groups: TermGroups::empty(alloc),
        }
    }

    /// The same parts once more; no document and no term is copied.
    pub(crate) fn copy(&self) -> Result<Parts, Memory>
        ensures documents { IfOk result (λ copy. copy.documents ≡ self.now.documents) }
        ensures dictionary { IfOk result (λ copy. copy.dictionary ≡ self.now.dictionary) }
        ensures counts { IfOk result (λ copy. copy.counts ≡ self.now.counts) }
        ensures groups { IfOk result (λ copy. copy.groups ≡ self.now.groups) }
    {
        let documents = self.documents.copy()?;
        let dictionary = self.dictionary.copy()?;
        let counts = self.counts.copy()?;
        let groups = self.groups.copy()?;
        Ok(Parts {
            documents,
            dictionary,
            counts,
            groups,
        })
    }
}
