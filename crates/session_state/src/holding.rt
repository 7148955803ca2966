//! Commands that change what a session holds and have no path: they bring documents, abbreviations, lists and marks, and take them away.

ghost use Rattle.std.specs.Prelude.{◌≡◌, ◌≤◌, ◌+◌, false, if◌then◌else◌, length, IfOk, OnErr, true};
ghost use Rattle.document_store.specs.Documents.{dropped, loadable, loaded, tokens_loaded, tokens_named};
ghost use Rattle.session_state.specs.Abbreviations.{abbreviations_put};
ghost use Rattle.session_state.specs.DocumentReplies.{load_refusal, removal_refusal, replied_by};
ghost use Rattle.session_state.specs.Lists.{stems_put, stop_list_put, thesaurus_put};
ghost use Rattle.session_state.specs.Marks.{marked, unmarked};
ghost use Rattle.session_state.specs.StampsAfter.{HasOneMore};
ghost use Rattle.session_state.specs.State.{with_documents};
ghost use Rattle.session_state.specs.Stats as held;
ghost use Rattle.session_state.specs.Step.{with_lists};
ghost use Rattle.session_state.specs.steps.Renewed.{with_renewed};
ghost use Rattle.reply_lines.specs.Replies.{is_refusal};
ghost use Rattle.stamped_documents.specs.Stamps.{without_stamp};
ghost use Rattle.thesaurus_file.specs.Lines.{thesaurus_of};
ghost use Rattle.word_lists.specs.Stems.{stems_of};
ghost use Rattle.word_lists.specs.KeySets.{key_set_of};

use crate::lists::{put_stems, put_stop_list, put_thesaurus, refuse_list};
use crate::refusing::{refuse_load, refuse_removal};
use crate::session::Session;
use crate::stats::counts;
use ft_base::{Line, Memory, Steps};
use plan_runs::Judge;
use reply_lines::Reply;
use stamped_documents::{Renewal, Stamped};
use std::sync::ledger::Ledger;
use word_lists::KeySet;

impl<J: Judge + Drop> Session<J> {
    /// Loads the block as a document under the name.
    pub(crate) fn load<L: Ledger>(
        &mut self,
        name: &Line,
        block: &[u8],
        rows: &mut Steps<L>,
    ) -> Result<Reply, Memory>
        ensures answer { IfOk result (λ reply. (self.new.state, reply)
            ≡ with_documents self.old.state (replied_by (load_refusal name.now) (loaded self.old.state.documents name.now (loadable block.now)))) }
        ensures err { OnErr result (self.new ≡ self.old) }
        ensures version_refused { IfOk result (λ reply. is_refusal reply ≡ true → self.new.version ≡ self.old.version) }
        ensures mark_versions { self.new.mark_versions ≡ self.old.mark_versions }
        ensures stamps { IfOk result (λ reply. is_refusal reply ≡ false → HasOneMore self.old.stamps self.new.stamps) }
        ensures stamps_refused { IfOk result (λ reply. is_refusal reply ≡ true → self.new.stamps ≡ self.old.stamps) }
        ensures standings { self.new.standings ≡ self.old.standings }
        ensures rows { rows.new ≤ rows.old + tokens_loaded self.old.state.documents name.now (loadable block.now) }
    {
        // There is a stamp for each document, as the clauses of `stamps` say.
        let _stamps = self.stamped.stamps();
        match self.stamped.load(name, block, rows) {
            Ok(Ok(())) => Ok(Reply::Done),
            Ok(Err(why)) => Ok(Reply::Refused(refuse_load(self.alloc, name, why)?)),
            Err(memory) => Err(memory),
        }
    }

    /// Takes the document of the name out.
    pub(crate) fn remove<L: Ledger>(
        &mut self,
        name: &Line,
        rows: &mut Steps<L>,
    ) -> Result<Reply, Memory>
        ensures answer { IfOk result (λ reply. (self.new.state, reply)
            ≡ with_documents self.old.state (replied_by (removal_refusal name.now) (dropped self.old.state.documents name.now))) }
        ensures err { OnErr result (self.new ≡ self.old) }
        ensures version_refused { IfOk result (λ reply. is_refusal reply ≡ true → self.new.version ≡ self.old.version) }
        ensures mark_versions { self.new.mark_versions ≡ self.old.mark_versions }
        ensures stamps { IfOk result (λ reply. is_refusal reply ≡ false
            → self.new.stamps ≡ without_stamp name.now self.old.state.documents self.old.stamps) }
        ensures stamps_refused { IfOk result (λ reply. is_refusal reply ≡ true → self.new.stamps ≡ self.old.stamps) }
        ensures standings { self.new.standings ≡ self.old.standings }
        ensures rows { rows.new ≤ rows.old + tokens_named self.old.state.documents name.now }
    {
        match self.stamped.remove(name, rows) {
            Ok(Ok(())) => Ok(Reply::Done),
            Ok(Err(why)) => Ok(Reply::Refused(refuse_removal(self.alloc, name, why)?)),
            Err(memory) => Err(memory),
        }
    }

    /// Puts the abbreviations that the block lists in the place of those that are there. Plans that are kept and marks stay as they are.
    pub(crate) fn set_abbreviations(&mut self, block: &[u8]) -> Result<Reply, Memory>
        ensures answer { IfOk result (λ reply. (self.new.state, reply) ≡ abbreviations_put self.old.state (key_set_of block.now)) }
        ensures err { OnErr result (self.new ≡ self.old) }
        ensures version_refused { IfOk result (λ reply. is_refusal reply ≡ true → self.new.version ≡ self.old.version) }
        ensures mark_versions { self.new.mark_versions ≡ self.old.mark_versions }
        ensures stamps_refused { IfOk result (λ reply. is_refusal reply ≡ true → self.new.stamps ≡ self.old.stamps) }
        ensures standings { self.new.standings ≡ self.old.standings }
    {
        match KeySet::read(self.alloc, block) {
            Ok(keys) => {
                self.stamped.set_abbreviations(keys)?;
                Ok(Reply::Done)
            }
            Err(fault) => refuse_list(fault),
        }
    }

    /// Puts the stop list that the block is under the name.
    pub(crate) fn put_stops(&mut self, name: &str, block: &[u8]) -> Result<Reply, Memory>
        ensures answer { IfOk result (λ reply. (self.new.state, reply)
            ≡ with_lists self.old.state (stop_list_put self.old.state.lists name.now (key_set_of block.now))) }
        ensures err { OnErr result (self.new ≡ self.old) }
        ensures version { self.new.version ≡ self.old.version }
        ensures mark_versions { self.new.mark_versions ≡ self.old.mark_versions }
        ensures stamps_refused { IfOk result (λ reply. is_refusal reply ≡ true → self.new.stamps ≡ self.old.stamps) }
        ensures standings { self.new.standings ≡ self.old.standings }
    {
        let renewal = self.stamped.renewal()?;
        let put = put_stop_list(self.alloc, &mut self.prepared, name, block);
        renew_accepted(&mut self.stamped, renewal, put)
    }

    /// Puts the dictionary of stems that the block is in the place of the one that is there.
    pub(crate) fn put_stems(&mut self, block: &[u8]) -> Result<Reply, Memory>
        ensures answer { IfOk result (λ reply. (self.new.state, reply)
            ≡ with_lists self.old.state (stems_put self.old.state.lists (stems_of block.now))) }
        ensures err { OnErr result (self.new ≡ self.old) }
        ensures version { self.new.version ≡ self.old.version }
        ensures mark_versions { self.new.mark_versions ≡ self.old.mark_versions }
        ensures stamps_refused { IfOk result (λ reply. is_refusal reply ≡ true → self.new.stamps ≡ self.old.stamps) }
        ensures standings { self.new.standings ≡ self.old.standings }
    {
        let renewal = self.stamped.renewal()?;
        let put = put_stems(self.alloc, &mut self.prepared, block);
        renew_accepted(&mut self.stamped, renewal, put)
    }

    /// Puts the thesaurus that the block is under the name.
    pub(crate) fn put_thesaurus(&mut self, name: &str, block: &[u8]) -> Result<Reply, Memory>
        ensures answer { IfOk result (λ reply. (self.new.state, reply)
            ≡ with_lists self.old.state (thesaurus_put self.old.state.lists name.now (thesaurus_of block.now))) }
        ensures err { OnErr result (self.new ≡ self.old) }
        ensures version { self.new.version ≡ self.old.version }
        ensures mark_versions { self.new.mark_versions ≡ self.old.mark_versions }
        ensures stamps_refused { IfOk result (λ reply. is_refusal reply ≡ true → self.new.stamps ≡ self.old.stamps) }
        ensures standings { self.new.standings ≡ self.old.standings }
    {
        let renewal = self.stamped.renewal()?;
        let put = put_thesaurus(self.alloc, &mut self.prepared, name, block);
        renew_accepted(&mut self.stamped, renewal, put)
    }

    /// Keeps the collection as it is under the name.
    pub(crate) fn mark(&mut self, name: &Line) -> Result<Reply, Memory>
        ensures answer { IfOk result (λ reply. (self.new.state, reply) ≡ marked self.old.state name.now) }
        ensures err { OnErr result (self.new ≡ self.old) }
        ensures version { self.new.version ≡ self.old.version }
        ensures mark_versions_refused { IfOk result (λ reply. is_refusal reply ≡ true → self.new.mark_versions ≡ self.old.mark_versions) }
        ensures stamps { self.new.stamps ≡ self.old.stamps }
        ensures standings { self.new.standings ≡ self.old.standings }
    {
        self.marks.put(name, self.stamped.collection())
    }

    /// Gives the mark of the name up.
    pub(crate) fn unmark(&mut self, name: &Line) -> Result<Reply, Memory>
        ensures answer { IfOk result (λ reply. (self.new.state, reply) ≡ unmarked self.old.state name.now) }
        ensures err { OnErr result (self.new ≡ self.old) }
        ensures version { self.new.version ≡ self.old.version }
        ensures mark_versions_refused { IfOk result (λ reply. is_refusal reply ≡ true → self.new.mark_versions ≡ self.old.mark_versions) }
        ensures stamps { self.new.stamps ≡ self.old.stamps }
        ensures standings { self.new.standings ≡ self.old.standings }
    {
        self.marks.remove(name)
    }

    /// How much the session holds.
    pub(crate) fn stats(&self) -> Reply
        ensures { result ≡ held.counts self.now.state }
    {
        Reply::Counts(counts(self.stamped.collection(), &self.marks, &self.prepared))
    }
}

/// Hands a reply on, and gives all documents new stamps where the command wasn't refused.
fn renew_accepted(
    stamped: &mut Stamped,
    renewal: Renewal,
    answered: Result<Reply, Memory>,
) -> Result<Reply, Memory>
    requires { renewal.next ≡ stamped.old.next + length stamped.old.stamps }
    ensures same { result ≡ answered }
    ensures stamped { IfOk answered (λ reply. stamped.new ≡ (if is_refusal reply then stamped.old else with_renewed stamped.old)) }
    ensures err { OnErr answered (stamped.new ≡ stamped.old) }
{
    match answered {
        Ok(reply) => {
            renew_if(!reply.is_refusal(), stamped, renewal);
            Ok(reply)
        }
        Err(memory) => Err(memory),
    }
}

/// Gives all documents new stamps, or leaves them.
fn renew_if(renew: bool, stamped: &mut Stamped, renewal: Renewal)
    requires { renewal.next ≡ stamped.old.next + length stamped.old.stamps }
    ensures { stamped.new ≡ (if renew then with_renewed stamped.old else stamped.old) }
{
    if renew {
        stamped.renew(renewal);
    }
}
