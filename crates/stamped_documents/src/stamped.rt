//! Documents with their index and a stamp each.

ghost use Rattle.std.specs.Prelude.{◌≡◌, ◌≤◌, ◌+◌, ◌++◌, ◌∷◌, ◌||◌, [], length, map, nat_le, not, true, IfOk, OnErr, OnOk};
ghost use Rattle.std.specs.List.{list_any, sum_by};
ghost use Rattle.doc_profile.specs.Faults.{AreWithin};
ghost use Rattle.ft_base.specs.Lists.{is_empty};
ghost use Rattle.plain_tree.specs.Document.{nodes};
ghost use Rattle.plain_tree.specs.View.{node};
ghost use Rattle.tree_edits.specs.Acts.{stays};
ghost use Rattle.document_store.specs.Documents.{dropped, edited_within, loadable, loaded, tokens_loaded, tokens_named, touched_in};
ghost use Rattle.document_store.specs.Targets.{edit_of, places_of_targets, AreTargets};
ghost use Rattle.stamped_documents.specs.Stamped.{nothing_stamped};
ghost use Rattle.stamped_documents.specs.Stamps.{renewed, restamped, without_stamp};

use crate::stamping::{place_of, renew, restamp};
use document_store::{Collection, NotEdited, NotLoaded, NotRemoved};
use ft_base::{Line, Memory, Steps};
use ordered_tree::NodeRefs;
use plain_tree::{How, Kids};
use std::alloc::Global;
use std::marker::Model;
use std::sync::ledger::Ledger;
use word_lists::KeySet;

/// The documents of a session with their index, and a stamp of each document, which changes whenever the document does.
#[derive(Drop)]
pub struct Stamped {
    collection: Collection,
    /// The stamps in the order of the documents.
    stamps: Vec<u64>,
    /// No stamp was as great as this one or greater.
    next: u64,
}

/// Room for new stamps of all documents.
#[derive(Clone, Copy)]
pub struct Renewal {
    pub(crate) next: u64,
}

impl Model for Stamped {
    ghost use Rattle.std.specs.Prelude.{length};
    ghost use Rattle.stamped_documents.specs.Stamped.{StampedDocuments, stamped_code};
    ghost use Rattle.stamped_documents.specs.Stamps.{AreStamps};

    ghost Value = { StampedDocuments };

    ghost coded = { stamped_code };

    ghost view = { λ inside. record { indexed = inside.collection; stamps = inside.stamps.items; next = inside.next } };

    ghost invariant = { λ inside. AreStamps (length inside.collection.documents) inside.next inside.stamps.items };
}

impl Stamped {
    ghost use Rattle.stamped_documents.specs.Stamps.{AreStamps};

    /// No documents.
    pub fn new(alloc: Global) -> Stamped
        ensures { result ≡ nothing_stamped }
    {
        Stamped {
            collection: Collection::new(alloc),
            stamps: Vec::new(alloc),
            next: 0,
        }
    }

    /// The documents with their index.
    pub fn collection(&self) -> &Collection
        ensures { result.now ≡ self.now.indexed }
    {
        &self.collection
    }

    /// The stamps in the order of the documents.
    pub fn stamps(&self) -> &[u64]
        ensures stamps { result.now ≡ self.now.stamps }
        ensures kept { AreStamps (length self.now.indexed.documents) self.now.next self.now.stamps }
    {
        self.stamps.as_slice()
    }

    /// Loads the block as a document under the name, as `Collection::load` does. A document that comes has a new stamp. Stamps are of
    /// 64 bits: where none is left, no memory is found.
    pub fn load<L: Ledger>(
        &mut self,
        name: &Line,
        block: &[u8],
        rows: &mut Steps<L>,
    ) -> Result<Result<(), NotLoaded>, Memory>
        ensures answer { IfOk result (λ answer. (self.new.indexed.documents, answer) ≡ loaded self.old.indexed.documents name.now (loadable block.now)) }
        ensures abbreviations { self.new.indexed.abbreviations ≡ self.old.indexed.abbreviations }
        ensures stamps { IfOk result (λ answer. OnOk answer (self.new.stamps ≡ self.old.stamps ++ self.old.next ∷ [])) }
        ensures next { self.old.next ≤ self.new.next }
        ensures err { OnErr result (self.new ≡ self.old) }
        ensures refused { IfOk result (λ answer. OnErr answer (self.new ≡ self.old)) }
        ensures rows { rows.new ≤ rows.old + tokens_loaded self.old.indexed.documents name.now (loadable block.now) }
    {
        let Some(next) = self.next.checked_add(1) else {
            return Err(Memory);
        };
        self.stamps.reserve(1)?;
        match self.collection.load(name, block, rows) {
            Ok(Ok(())) => {
                self.stamps.push_reserved(self.next);
                self.next = next;
                Ok(Ok(()))
            }
            Ok(Err(why)) => Ok(Err(why)),
            Err(memory) => Err(memory),
        }
    }

    /// Takes the document of the name out, as `Collection::remove` does, and its stamp.
    pub fn remove<L: Ledger>(
        &mut self,
        name: &Line,
        rows: &mut Steps<L>,
    ) -> Result<Result<(), NotRemoved>, Memory>
        ensures answer { IfOk result (λ answer. (self.new.indexed.documents, answer) ≡ dropped self.old.indexed.documents name.now) }
        ensures abbreviations { self.new.indexed.abbreviations ≡ self.old.indexed.abbreviations }
        ensures stamps { IfOk result (λ answer. OnOk answer (self.new.stamps ≡ without_stamp name.now self.old.indexed.documents self.old.stamps)) }
        ensures next { self.new.next ≡ self.old.next }
        ensures err { OnErr result (self.new ≡ self.old) }
        ensures refused { IfOk result (λ answer. OnErr answer (self.new ≡ self.old)) }
        ensures rows { rows.new ≤ rows.old + tokens_named self.old.indexed.documents name.now }
    {
        let place = place_of(&self.collection, name);
        match self.collection.remove(name, rows) {
            Ok(Ok(())) => {
                self.stamps.remove(place);
                Ok(Ok(()))
            }
            Ok(Err(why)) => Ok(Err(why)),
            Err(memory) => Err(memory),
        }
    }

    /// Edits elements of the documents, as `Collection::edit` does. Each document of which there are some has a new stamp then.
    pub fn edit<L: Ledger>(
        &mut self,
        targets: &[NodeRefs],
        how: Option<How>,
        content: &Kids,
        rows: &mut Steps<L>,
    ) -> Result<Result<(), NotEdited>, Memory>
        requires there { AreTargets self.old.indexed.trees targets.now }
        requires once { (nat_le (sum_by length targets.now) 1 || is_empty content.now) ≡ true }
        requires inner { (stays how || not (list_any (list_any is_empty) (places_of_targets self.old.indexed.trees targets.now))) ≡ true }
        requires few_nodes { AreWithin (nodes (map node content.now)) }
        ensures edited { IfOk result (λ answer. (self.new.indexed.documents, answer)
            ≡ edited_within (edit_of how content.now) (places_of_targets self.old.indexed.trees targets.now) self.old.indexed.documents) }
        ensures abbreviations { self.new.indexed.abbreviations ≡ self.old.indexed.abbreviations }
        ensures stamps { IfOk result (λ answer. OnOk answer (self.new.stamps
            ≡ restamped self.old.next (places_of_targets self.old.indexed.trees targets.now) self.old.stamps)) }
        ensures next { self.old.next ≤ self.new.next }
        ensures err { OnErr result (self.new ≡ self.old) }
        ensures refused { IfOk result (λ answer. OnErr answer (self.new ≡ self.old)) }
        ensures rows { rows.new
            ≤ rows.old + touched_in (edit_of how content.now) (places_of_targets self.old.indexed.trees targets.now) self.old.indexed.documents }
    {
        let renewal = self.renewal()?;
        match self.collection.edit(targets, how, content, rows) {
            Ok(Ok(())) => {
                restamp(&mut self.stamps, targets, self.next);
                self.next = renewal.next;
                Ok(Ok(()))
            }
            Ok(Err(why)) => Ok(Err(why)),
            Err(memory) => Err(memory),
        }
    }

    /// Sets the abbreviations, as `Collection::set_abbreviations` does. All documents have new stamps then.
    pub fn set_abbreviations(&mut self, abbreviations: KeySet) -> Result<(), Memory>
        ensures documents { self.new.indexed.documents ≡ self.old.indexed.documents }
        ensures trees { self.new.indexed.trees ≡ self.old.indexed.trees }
        ensures abbreviations { OnOk result (self.new.indexed.abbreviations ≡ abbreviations) }
        ensures stamps { OnOk result (self.new.stamps ≡ renewed self.old.next self.old.stamps) }
        ensures next { self.old.next ≤ self.new.next }
        ensures err { OnErr result (self.new ≡ self.old) }
    {
        match self.renewal() {
            Ok(renewal) => {
                self.collection.set_abbreviations(abbreviations)?;
                self.renew(renewal);
                Ok(())
            }
            Err(memory) => {
                drop(abbreviations);
                Err(memory)
            }
        }
    }

    /// Room for new stamps, so that `renew` needs none. Where fewer are left than there are documents, no memory is found.
    pub fn renewal(&self) -> Result<Renewal, Memory>
        ensures next { IfOk result (λ renewal. renewal.next ≡ self.now.next + length self.now.stamps) }
    {
        match self.next.checked_add(self.stamps.len() as u64) {
            Some(next) => Ok(Renewal { next }),
            None => Err(Memory),
        }
    }

    /// Gives all documents new stamps.
    pub fn renew(&mut self, renewal: Renewal)
        requires { renewal.next ≡ self.old.next + length self.old.stamps }
        ensures indexed { self.new.indexed ≡ self.old.indexed }
        ensures stamps { self.new.stamps ≡ renewed self.old.next self.old.stamps }
        ensures next { self.new.next ≡ renewal.next }
    {
        renew(&mut self.stamps, self.next);
        self.next = renewal.next;
    }
}
