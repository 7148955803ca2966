//! The documents of a session with the version of the index that is theirs.

ghost use Rattle.std.specs.Prelude.{◌≡◌, ◌≤◌, ◌+◌, ◌++◌, ◌∷◌, ◌||◌, [], false, map, nat_le, not, true, IfOk, OnErr, OnOk, length};
ghost use Rattle.std.specs.List.{list_any, sum_by};
ghost use Rattle.doc_profile.specs.Faults.{AreWithin};
ghost use Rattle.ft_base.specs.Lists.{is_empty};
ghost use Rattle.index_updates.specs.Follows.{AreOf};
ghost use Rattle.ordered_tree.specs.Counts.{word_count};
ghost use Rattle.ordered_tree.specs.Numbered.{plain};
ghost use Rattle.plain_tree.specs.Document.{nodes};
ghost use Rattle.plain_tree.specs.View.{node};
ghost use Rattle.tree_edits.specs.Acts.{stays};
ghost use Rattle.document_store.specs.Documents.{dropped, edited_within, has_name, key_total, loadable, loaded};
ghost use Rattle.document_store.specs.Documents.{token_total, tokens_loaded, tokens_named, touched_in};
ghost use Rattle.document_store.specs.Indexed.{nothing_indexed, FollowsEach, IsIndexOf};
ghost use Rattle.document_store.specs.Loaded.{to_document, trees_of};
ghost use Rattle.document_store.specs.Targets.{edit_of, places_of_targets, AreTargets};

use crate::abbreviations::Abbreviations;
use crate::applying::{Edited, apply_all};
use crate::documents::Documents;
use crate::fault::{NotEdited, NotLoaded, NotRemoved};
use crate::limits::exceeded;
use crate::loaded::Loadable;
use crate::loading::{Outcome, read_document};
use crate::making::index_document;
use crate::planning::plan_all;
use crate::rebreaking::rebreak_all;
use crate::tokens::token_count;
use ft_base::{DocId, Line, MAX_DOCUMENTS, Memory, Steps};
use index_updates::drop_doc;
use index_updates::laws::{tokens_law, words_law};
use index_versions::laws::keys_law;
use index_versions::{Version, WordHints};
use ordered_tree::NodeRefs;
use plain_tree::{How, Kids};
use std::alloc::Global;
use std::marker::Model;
use std::sync::ledger::Ledger;
use word_lists::KeySet;

/// The documents of a session by their names, in the order in which they were loaded, and their index. Each document has
/// a number in it, which is greater than those of the documents that were loaded before.
#[derive(Drop)]
pub struct Collection {
    alloc: Global,
    documents: Documents,
    /// The keys of words directly behind which a period ends no sentence.
    abbreviations: Abbreviations,
    version: Version,
    /// Where the version's dictionary has words: what a document that comes looks at first.
    hints: WordHints,
    /// The number of the document that is loaded next.
    next: u32,
    /// How many tokens the documents have.
    tokens: usize,
}

impl Model for Collection {
    ghost use Rattle.std.specs.Prelude.{map};
    ghost use Rattle.document_store.specs.Indexed.{Indexed};
    ghost use Rattle.document_store.specs.StoredIndexed.{indexed_code};

    ghost Value = { Indexed };

    ghost coded = { indexed_code };

    ghost use Rattle.document_store.specs.Loaded.{to_document, trees_of};
    ghost use Rattle.document_store.specs.steps.Numbering.{IsKept};

    ghost view = { λ inside. record {
      documents = map to_document inside.documents;
      abbreviations = inside.abbreviations;
      trees = trees_of inside.documents;
      version = inside.version;
    } };

    ghost invariant = { λ inside. IsKept inside.abbreviations inside.documents inside.version inside.next inside.tokens };
}

impl Collection {
    /// The collection without documents.
    pub fn new(alloc: Global) -> Collection
        ensures { result ≡ nothing_indexed }
    {
        Collection {
            alloc,
            documents: Documents::new(alloc),
            abbreviations: Abbreviations::empty(alloc),
            version: Version::empty(alloc),
            hints: WordHints::new(alloc),
            next: 0,
            tokens: 0,
        }
    }

    /// The same documents with their index once more. The two share names, trees, abbreviations and the index's memory, and
    /// neither sees a change to the other.
    pub fn copy(&self) -> Result<Collection, Memory>
        ensures { IfOk result (λ copy. copy ≡ self.now) }
    {
        let documents = self.documents.share()?;
        let Ok(abbreviations) = self.abbreviations.share(self.alloc) else {
            drop(documents);
            return Err(Memory);
        };
        match self.version.clone_version() {
            Ok(version) => Ok(Collection {
                alloc: self.alloc,
                documents,
                abbreviations,
                version,
                hints: WordHints::new(self.alloc),
                next: self.next,
                tokens: self.tokens,
            }),
            Err(memory) => {
                drop((documents, abbreviations));
                Err(memory)
            }
        }
    }

    /// The documents. The version is their index under the abbreviations, and it follows the tree of each under its number.
    pub fn documents(&self) -> &Documents
        ensures documents { map to_document result.now ≡ self.now.documents }
        ensures trees { trees_of result.now ≡ self.now.trees }
        ensures indexed { IsIndexOf self.now.abbreviations self.now.documents self.now.version }
        ensures followed { FollowsEach self.now.abbreviations self.now.version self.now.trees }
    {
        tokens_law();
        &self.documents
    }

    /// The version of the index.
    pub fn version(&self) -> &Version
        ensures { result.now ≡ self.now.version }
    {
        &self.version
    }

    /// The keys of words directly behind which a period ends no sentence.
    pub fn abbreviations(&self) -> &KeySet
        ensures { result.now ≡ self.now.abbreviations }
    {
        self.abbreviations.as_set()
    }

    /// Sets the abbreviations, and with them where the sentences of all documents end. No row of the index is put or taken, and no text
    /// is read.
    pub fn set_abbreviations(&mut self, abbreviations: KeySet) -> Result<(), Memory>
        ensures documents { self.new.documents ≡ self.old.documents }
        ensures trees { self.new.trees ≡ self.old.trees }
        ensures abbreviations { OnOk result (self.new.abbreviations ≡ abbreviations) }
        ensures err { OnErr result (self.new ≡ self.old) }
    {
        let abbreviations = Abbreviations::of(self.alloc, abbreviations)?;
        match rebreak_all(&self.documents, &self.version, abbreviations.as_set()) {
            Ok(rebroken) => {
                drop(std::mem::replace(&mut self.abbreviations, abbreviations));
                drop(std::mem::replace(&mut self.version, rebroken));
                Ok(())
            }
            Err(memory) => {
                drop(abbreviations);
                Err(memory)
            }
        }
    }

    /// How many documents there are.
    pub fn len(&self) -> usize
        ensures { result ≡ length self.now.documents }
    {
        self.documents.len()
    }

    /// How many tokens the documents have.
    pub fn token_total(&self) -> usize
        ensures { result ≡ token_total self.now.documents }
    {
        self.tokens
    }

    /// How many different keys the tokens of the documents have.
    pub fn key_total(&self) -> usize
        ensures { result ≡ key_total self.now.documents }
    {
        keys_law();
        words_law();
        self.version.key_count()
    }

    /// Puts the document that the block is after those that are there, unless its name is taken, there are as many as
    /// there may be, or the block is none that can be loaded. Then the collection stays as it was.
    pub fn load<L: Ledger>(
        &mut self,
        name: &Line,
        block: &[u8],
        rows: &mut Steps<L>,
    ) -> Result<Result<(), NotLoaded>, Memory>
        ensures answer { IfOk result (λ answer. (self.new.documents, answer) ≡ loaded self.old.documents name.now (loadable block.now)) }
        ensures abbreviations { self.new.abbreviations ≡ self.old.abbreviations }
        ensures err { OnErr result (self.new ≡ self.old) }
        ensures refused { IfOk result (λ answer. OnErr answer (self.new ≡ self.old)) }
        ensures rows { rows.new ≤ rows.old + tokens_loaded self.old.documents name.now (loadable block.now) }
    {
        let name = Line::read(self.alloc, name.as_str())?;
        if self.documents.contains_key(&name) {
            return Ok(Err(NotLoaded::NameTaken));
        }
        if self.documents.len() >= MAX_DOCUMENTS {
            return Ok(Err(NotLoaded::Full));
        }
        match read_document(self.alloc, block, self.abbreviations.as_set())? {
            Outcome::NotLoaded(why) => Ok(Err(why)),
            Outcome::Document(document) => match self.add(name, document, rows) {
                Ok(()) => Ok(Ok(())),
                Err(memory) => Err(memory),
            },
        }
    }

    /// Puts a document after the others, under the next number. Numbers of documents are of 32 bits, and tokens are counted in 64: where
    /// either comes to its end, no memory is found.
    fn add<L: Ledger>(
        &mut self,
        name: Line,
        document: Loadable,
        rows: &mut Steps<L>,
    ) -> Result<(), Memory>
        requires new { has_name name self.old.documents ≡ false }
        requires found { AreOf self.old.abbreviations document.read.tree.root document.read.leaves document.read.breaks }
        ensures documents { OnOk result (self.new.documents ≡ self.old.documents ++ record { name = name; root = plain document.read.tree.root } ∷ []) }
        ensures abbreviations { self.new.abbreviations ≡ self.old.abbreviations }
        ensures err { OnErr result (self.new ≡ self.old) }
        ensures rows { rows.new ≤ rows.old + word_count (plain document.read.tree.root) }
    {
        let doc = DocId(self.next);
        let made = index_document(
            self.alloc,
            &self.version,
            &mut self.hints,
            doc,
            document,
            self.abbreviations.as_set(),
            rows,
        );
        let Ok((loaded, version)) = made else {
            drop(name);
            return Err(Memory);
        };
        let Some(next) = self.next.checked_add(1) else {
            drop((name, loaded, version));
            return Err(Memory);
        };
        let Some(tokens) = self.tokens.checked_add(token_count(loaded.tree())) else {
            drop((name, loaded, version));
            return Err(Memory);
        };
        match self.documents.push(self.alloc, name, loaded) {
            Ok(()) => {
                drop(std::mem::replace(&mut self.version, version));
                self.next = next;
                self.tokens = tokens;
                Ok(())
            }
            Err(memory) => {
                drop(version);
                Err(memory)
            }
        }
    }

    /// Takes the document of the name out. Where there is none the collection stays as it was.
    pub fn remove<L: Ledger>(
        &mut self,
        name: &Line,
        rows: &mut Steps<L>,
    ) -> Result<Result<(), NotRemoved>, Memory>
        ensures answer { IfOk result (λ answer. (self.new.documents, answer) ≡ dropped self.old.documents name.now) }
        ensures abbreviations { self.new.abbreviations ≡ self.old.abbreviations }
        ensures err { OnErr result (self.new ≡ self.old) }
        ensures refused { IfOk result (λ answer. OnErr answer (self.new ≡ self.old)) }
        ensures rows { rows.new ≤ rows.old + tokens_named self.old.documents name.now }
    {
        let Some(document) = self.documents.get(name) else {
            return Ok(Err(NotRemoved::NoSuchName));
        };
        let doc = document.doc();
        let tokens = token_count(document.tree());
        let version = drop_doc(&self.version, doc, rows)?;
        match self.documents.remove(self.alloc, name) {
            Ok(()) => {
                drop(std::mem::replace(&mut self.version, version));
                self.tokens -= tokens;
                Ok(Ok(()))
            }
            Err(memory) => {
                drop(version);
                Err(memory)
            }
        }
    }

    /// Edits elements of the documents: of each document in order, those of these references. What comes into or beside an
    /// element, or into its place, is the content. A document without such elements is not looked at. Where one of them would
    /// exceed a limit the collection stays as it was.
    pub fn edit<L: Ledger>(
        &mut self,
        targets: &[NodeRefs],
        how: Option<How>,
        content: &Kids,
        rows: &mut Steps<L>,
    ) -> Result<Result<(), NotEdited>, Memory>
        requires there { AreTargets self.old.trees targets.now }
        requires once { (nat_le (sum_by length targets.now) 1 || is_empty content.now) ≡ true }
        requires inner { (stays how || not (list_any (list_any is_empty) (places_of_targets self.old.trees targets.now))) ≡ true }
        requires few_nodes { AreWithin (nodes (map node content.now)) }
        ensures edited { IfOk result (λ answer. (self.new.documents, answer)
            ≡ edited_within (edit_of how content.now) (places_of_targets self.old.trees targets.now) self.old.documents) }
        ensures abbreviations { self.new.abbreviations ≡ self.old.abbreviations }
        ensures err { OnErr result (self.new ≡ self.old) }
        ensures refused { IfOk result (λ answer. OnErr answer (self.new ≡ self.old)) }
        ensures rows { rows.new ≤ rows.old + touched_in (edit_of how content.now) (places_of_targets self.old.trees targets.now) self.old.documents }
    {
        let planned = plan_all(self.alloc, &self.documents, targets, how, content)?;
        if let Some(why) = exceeded(planned.as_slice()) {
            drop(planned);
            return Ok(Err(why));
        }
        let Edited {
            documents,
            version,
            tokens,
        } = apply_all(
            self.alloc,
            &self.documents,
            &self.version,
            self.tokens,
            planned,
            self.abbreviations.as_set(),
            rows,
        )?;
        drop(std::mem::replace(&mut self.documents, documents));
        drop(std::mem::replace(&mut self.version, version));
        self.tokens = tokens;
        Ok(Ok(()))
    }
}
