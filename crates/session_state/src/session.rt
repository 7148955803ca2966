ghost use Rattle.std.specs.Prelude.{◌≡◌, ◌≤◌, ◌+◌, false, None, Some, IfOk, OnErr, true};
ghost use Rattle.document_store.specs.Indexed.{IsIndexOf};
ghost use Rattle.doc_profile.specs.Readings.{fragment_of};
ghost use Rattle.session_state.specs.Edits as edits;
ghost use Rattle.session_state.specs.Edits.{edit_path, touched_path, touched_with};
ghost use Rattle.session_state.specs.Held.{nothing_held};
ghost use Rattle.session_state.specs.KeptTexts.{keep_plans};
ghost use Rattle.session_state.specs.MarkedWords as marked;
ghost use Rattle.session_state.specs.Marks.{mark_named, AreIndexesOf};
ghost use Rattle.session_state.specs.PathPrices.{asks_cheaply, is_cheap_path, moves_for, price_at, read_price};
ghost use Rattle.path_subset.specs.Answer.{path_read};
ghost use Rattle.session_state.specs.ReadyPaths.{IsReadyPath};
ghost use Rattle.session_state.specs.StampsAfter.{changes_stamps, changes_watches, standings_after, KeepOthersRead, KeepsStamps};
ghost use Rattle.session_state.specs.StateView.{prepared_of};
ghost use Rattle.session_state.specs.Step.{changes_documents, changes_marks, changes_version, has_path, rows_for, shown as shown_by, shown_at, step};
ghost use Rattle.session_state.specs.steps.Chosen.{edit_of};
ghost use Rattle.reply_lines.specs.Replies.{is_refusal};

use crate::edit::{Edit, Targets};
use crate::editing::edit_along;
use crate::explaining::explain;
use crate::keeping::keep_accepted;
use crate::marked_words::answer_marked;
use crate::marks::{Marks, no_such_name};
use crate::paths::{Ready, ReadyPath, answer_path, ready_path};
use crate::refusing::refuse_block;
use crate::shown::Shown;
use crate::watches::Watches;
use doc_profile::read_fragment;
use ft_base::{Line, Memory, Steps};
use kept_plans::Prepared;
use plain_tree::{How, Kids};
use plan_runs::Judge;
use reply_lines::{Command, Refusal, Reply};
use stamped_documents::Stamped;
use std::alloc::Global;
use std::marker::Model;
use std::sync::ledger::Ledger;

/// The documents of a session by their names, in the order in which they were loaded, with the abbreviations, their index and a stamp each;
/// the lists that selections name, and the plans that are kept under them; the marks and the watches; and the judge that says whether the
/// words of an element satisfy a selection. What watches keep of the documents that are there are their lines of now.
#[derive(Drop)]
pub struct Session<J: Judge + Drop> {
    pub(crate) alloc: Global,
    pub(crate) stamped: Stamped,
    pub(crate) prepared: Prepared,
    pub(crate) marks: Marks,
    pub(crate) watches: Watches,
    pub(crate) judge: J,
}

impl<J: Judge + Drop> Model for Session<J> {
    ghost use Rattle.session_state.specs.Held.{Held};
    ghost use Rattle.session_state.specs.KeptMarks.{marks_of, versions_of};
    ghost use Rattle.session_state.specs.KeptWatches.{standings_of, watches_of};
    ghost use Rattle.session_state.specs.Standings.{AreCurrent};
    ghost use Rattle.session_state.specs.StoredState.{held_code};

    ghost Value = { Held };

    ghost coded = { held_code };

    ghost view = { λ session. record {
      state = record {
        documents = session.stamped.indexed.documents;
        abbreviations = session.stamped.indexed.abbreviations;
        lists = session.prepared.lists;
        marks = marks_of session.marks;
        watches = watches_of session.watches;
        kept = session.prepared.kept;
      };
      version = session.stamped.indexed.version;
      mark_versions = versions_of session.marks;
      stamps = session.stamped.stamps;
      standings = standings_of session.watches;
    } };

    ghost invariant = { λ session. AreCurrent J.says session.stamped session.prepared.lists session.watches };
}

impl<J: Judge + Drop> Session<J> {
    /// A session that holds nothing, and asks this judge.
    pub fn new(alloc: Global, judge: J) -> Result<Session<J>, Memory>
        ensures { IfOk result (λ session. session ≡ nothing_held) }
    {
        match Prepared::new(alloc) {
            Ok(prepared) => Ok(Session {
                alloc,
                stamped: Stamped::new(alloc),
                prepared,
                marks: Marks::new(alloc),
                watches: Watches::new(alloc),
                judge,
            }),
            Err(memory) => {
                drop(judge);
                Err(memory)
            }
        }
    }

    /// Does what the command says, and answers it; of each `contains text` of a path the judge is asked. A refused command
    /// changes nothing, nor does one for which memory runs out. Whatever the answer, the version that the session holds is
    /// then the index of its documents under its abbreviations, and that of each mark the index of the mark's under the mark's.
    ///
    /// `moves` counts the steps of the cursors by which commands with a path answer `contains text`: where all selections of the path are
    /// cheap, no more than what the tests for which it asks cost. The steps by which `show` finds what it marks aren't among them, and have no
    /// bound. The changes of a watch ask only documents whose stamps aren't those under which the watch was answered last; then it is answered
    /// under the stamps of now. `rows` counts the rows of the index that are put and taken.
    pub fn step<L: Ledger, M: Ledger>(
        &mut self,
        command: &Command,
        moves: &mut Steps<M>,
        rows: &mut Steps<L>,
    ) -> Result<Reply, Memory>
        ensures answer { IfOk result (λ reply. (self.new.state, reply) ≡ step J.says self.old.state command.now) }
        ensures err { OnErr result (self.new ≡ self.old) }
        ensures refused { IfOk result (λ reply. is_refusal reply ≡ true → self.new ≡ self.old) }
        ensures indexed { IsIndexOf self.new.state.abbreviations self.new.state.documents self.new.version }
        ensures marked { AreIndexesOf self.new.state.marks self.new.mark_versions }
        ensures stamps { IfOk result (λ reply. is_refusal reply ≡ false
            → KeepsStamps J.says self.old.state command.now self.old.stamps self.new.stamps) }
        ensures standings { IfOk result (λ reply. is_refusal reply ≡ false → self.new.standings ≡ standings_after J.says self.old command.now) }
        ensures moves { moves.old ≤ moves.new }
        ensures moves_most { asks_cheaply self.old.state command.now ≡ true
            → moves.new ≤ moves.old + moves_for J.says self.old command.now }
        ensures moves_kept { has_path command.now ≡ false → moves.new ≡ moves.old }
        ensures rows { rows.new ≤ rows.old + rows_for J.says self.old.state command.now }
        ensures rows_kept { changes_documents command.now ≡ false → rows.new ≡ rows.old }
    {
        let reply = self.carry_out(command, moves, rows);
        // The versions are the indexes of the documents under their abbreviations, as the clauses of these two say.
        let _documents = self.stamped.collection().documents();
        let _marks = self.marks.len();
        reply
    }

    /// Does what the command says, and answers it.
    #[tactic(auto, unfolding(crate::specs::Step::step, crate::specs::Step::rows_for, crate::specs::PathPrices::moves_for, crate::specs::PathPrices::asks_cheaply, crate::specs::StampsAfter::KeepsStamps, crate::specs::StampsAfter::standings_after))]
    fn carry_out<L: Ledger, M: Ledger>(
        &mut self,
        command: &Command,
        moves: &mut Steps<M>,
        rows: &mut Steps<L>,
    ) -> Result<Reply, Memory>
        ensures answer { IfOk result (λ reply. (self.new.state, reply) ≡ step J.says self.old.state command.now) }
        ensures err { OnErr result (self.new ≡ self.old) }
        ensures version { changes_version command.now ≡ false → self.new.version ≡ self.old.version }
        ensures version_refused { changes_version command.now ≡ true
            → IfOk result (λ reply. is_refusal reply ≡ true → self.new.version ≡ self.old.version) }
        ensures mark_versions { changes_marks command.now ≡ false → self.new.mark_versions ≡ self.old.mark_versions }
        ensures mark_versions_refused { changes_marks command.now ≡ true
            → IfOk result (λ reply. is_refusal reply ≡ true → self.new.mark_versions ≡ self.old.mark_versions) }
        ensures stamps { changes_stamps command.now ≡ true
            → IfOk result (λ reply. is_refusal reply ≡ false → KeepsStamps J.says self.old.state command.now self.old.stamps self.new.stamps) }
        ensures stamps_kept { changes_stamps command.now ≡ false → self.new.stamps ≡ self.old.stamps }
        ensures stamps_refused { changes_stamps command.now ≡ true
            → IfOk result (λ reply. is_refusal reply ≡ true → self.new.stamps ≡ self.old.stamps) }
        ensures standings { changes_watches command.now ≡ true
            → IfOk result (λ reply. is_refusal reply ≡ false → self.new.standings ≡ standings_after J.says self.old command.now) }
        ensures standings_kept { changes_watches command.now ≡ false → self.new.standings ≡ self.old.standings }
        ensures standings_refused { changes_watches command.now ≡ true
            → IfOk result (λ reply. is_refusal reply ≡ true → self.new.standings ≡ self.old.standings) }
        ensures moves { moves.old ≤ moves.new }
        ensures moves_most { asks_cheaply self.old.state command.now ≡ true
            → moves.new ≤ moves.old + moves_for J.says self.old command.now }
        ensures moves_kept { has_path command.now ≡ false → moves.new ≡ moves.old }
        ensures rows { rows.new ≤ rows.old + rows_for J.says self.old.state command.now }
        ensures rows_kept { changes_documents command.now ≡ false → rows.new ≡ rows.old }
    {
        match command {
            Command::Load { name, block } => self.load(name, block.as_slice(), rows),
            Command::Drop { name } => self.remove(name, rows),
            Command::Insert { how, path, block } => {
                self.edit_with(Some(*how), path.as_str(), block.as_slice(), moves, rows)
            }
            Command::Replace { path, block } => {
                self.edit_with(None, path.as_str(), block.as_slice(), moves, rows)
            }
            Command::Delete { path } => self.delete(path.as_str(), moves, rows),
            Command::Stop { name, block } => self.put_stops(name.as_str(), block.as_slice()),
            Command::Stems { block } => self.put_stems(block.as_slice()),
            Command::Abbreviations { block } => self.set_abbreviations(block.as_slice()),
            Command::Thesaurus { name, block } => {
                self.put_thesaurus(name.as_str(), block.as_slice())
            }
            Command::Query { path } => self.show(Shown::Names, path.as_str(), moves),
            Command::QueryAt { name, path } => self.show_at(name, path.as_str(), moves),
            Command::Print { path } => self.show(Shown::Texts, path.as_str(), moves),
            Command::Show { path } => self.show_marked(path.as_str(), moves),
            Command::Mark { name } => self.mark(name),
            Command::Unmark { name } => self.unmark(name),
            Command::Watch { name, path } => self.watch(name, path, moves),
            Command::Changes { name } => self.changes(name, moves),
            Command::Unwatch { name } => self.unwatch(name),
            Command::Explain { text } => explain(self.alloc, text.as_str()),
            Command::Stats => Ok(self.stats()),
            Command::BadCommand { line } => {
                Ok(Reply::Refused(Refusal::BadCommand { line: *line }))
            }
            Command::BadName { line } => Ok(Reply::Refused(Refusal::BadName { line: *line })),
        }
    }

    /// Edits the element that the path selects with the fragment in the block.
    fn edit_with<L: Ledger, M: Ledger>(
        &mut self,
        how: Option<How>,
        path: &str,
        block: &[u8],
        moves: &mut Steps<M>,
        rows: &mut Steps<L>,
    ) -> Result<Reply, Memory>
        ensures answer { IfOk result (λ reply. (self.new.state, reply)
            ≡ keep_plans path.now (edits.edit_with J.says self.old.state how path.now (fragment_of block.now))) }
        ensures err { OnErr result (self.new ≡ self.old) }
        ensures version_refused { IfOk result (λ reply. is_refusal reply ≡ true → self.new.version ≡ self.old.version) }
        ensures mark_versions { self.new.mark_versions ≡ self.old.mark_versions }
        ensures stamps { IfOk result (λ reply. is_refusal reply ≡ false
            → KeepOthersRead J.says self.old.state (path_read path.now) self.old.stamps self.new.stamps) }
        ensures stamps_refused { IfOk result (λ reply. is_refusal reply ≡ true → self.new.stamps ≡ self.old.stamps) }
        ensures standings { self.new.standings ≡ self.old.standings }
        ensures moves { moves.old ≤ moves.new }
        ensures price { is_cheap_path self.old.state.lists (path_read path.now) ≡ true
            → moves.new ≤ moves.old + read_price J.says self.old (path_read path.now) }
        ensures rows { rows.new ≤ rows.old + touched_with J.says self.old.state how path.now (fragment_of block.now) }
    {
        match read_fragment(self.alloc, block) {
            Ok(content) => {
                let edit = Edit {
                    targets: Targets::One,
                    how,
                    content: &content,
                };
                let edited = self.edit(&edit, path, moves, rows);
                drop(content);
                edited
            }
            Err(fault) => refuse_block(fault),
        }
    }

    /// Takes the elements out that the path selects.
    fn delete<L: Ledger, M: Ledger>(
        &mut self,
        path: &str,
        moves: &mut Steps<M>,
        rows: &mut Steps<L>,
    ) -> Result<Reply, Memory>
        ensures answer { IfOk result (λ reply. (self.new.state, reply) ≡ keep_plans path.now (edits.deleted J.says self.old.state path.now)) }
        ensures err { OnErr result (self.new ≡ self.old) }
        ensures version_refused { IfOk result (λ reply. is_refusal reply ≡ true → self.new.version ≡ self.old.version) }
        ensures mark_versions { self.new.mark_versions ≡ self.old.mark_versions }
        ensures stamps { IfOk result (λ reply. is_refusal reply ≡ false
            → KeepOthersRead J.says self.old.state (path_read path.now) self.old.stamps self.new.stamps) }
        ensures stamps_refused { IfOk result (λ reply. is_refusal reply ≡ true → self.new.stamps ≡ self.old.stamps) }
        ensures standings { self.new.standings ≡ self.old.standings }
        ensures moves { moves.old ≤ moves.new }
        ensures price { is_cheap_path self.old.state.lists (path_read path.now) ≡ true
            → moves.new ≤ moves.old + read_price J.says self.old (path_read path.now) }
        ensures rows { rows.new ≤ rows.old + touched_path J.says self.old.state Targets.Any edits.deletion path.now }
    {
        let content = Kids::new(self.alloc);
        let edit = Edit {
            targets: Targets::Any,
            how: None,
            content: &content,
        };
        let edited = self.edit(&edit, path, moves, rows);
        drop(content);
        edited
    }

    /// Edits the elements that the path selects.
    fn edit<L: Ledger, M: Ledger>(
        &mut self,
        edit: &Edit<'_>,
        path: &str,
        moves: &mut Steps<M>,
        rows: &mut Steps<L>,
    ) -> Result<Reply, Memory>
        ensures answer { IfOk result (λ reply. (self.new.state, reply)
            ≡ keep_plans path.now (edit_path J.says self.old.state edit.now.targets (edit_of edit.now) path.now)) }
        ensures err { OnErr result (self.new ≡ self.old) }
        ensures version_refused { IfOk result (λ reply. is_refusal reply ≡ true → self.new.version ≡ self.old.version) }
        ensures mark_versions { self.new.mark_versions ≡ self.old.mark_versions }
        ensures stamps { IfOk result (λ reply. is_refusal reply ≡ false
            → KeepOthersRead J.says self.old.state (path_read path.now) self.old.stamps self.new.stamps) }
        ensures stamps_refused { IfOk result (λ reply. is_refusal reply ≡ true → self.new.stamps ≡ self.old.stamps) }
        ensures standings { self.new.standings ≡ self.old.standings }
        ensures moves { moves.old ≤ moves.new }
        ensures price { is_cheap_path self.old.state.lists (path_read path.now) ≡ true
            → moves.new ≤ moves.old + read_price J.says self.old (path_read path.now) }
        ensures rows { rows.new ≤ rows.old + touched_path J.says self.old.state edit.now.targets (edit_of edit.now) path.now }
    {
        match ready_path(self.alloc, self.stamped.collection(), &self.prepared, path) {
            Ok(Ready::Path(ready)) => self.edit_ready(edit, path, ready, moves, rows),
            Ok(Ready::Refused(why)) => Ok(Reply::Refused(why)),
            Err(memory) => Err(memory),
        }
    }

    /// The same where all that the path names is there.
    fn edit_ready<L: Ledger, M: Ledger>(
        &mut self,
        edit: &Edit<'_>,
        path: &str,
        ready: ReadyPath,
        moves: &mut Steps<M>,
        rows: &mut Steps<L>,
    ) -> Result<Reply, Memory>
        requires { IsReadyPath self.old.state.documents (prepared_of self.old.state) path.now ready }
        ensures answer { IfOk result (λ reply. (self.new.state, reply)
            ≡ keep_plans path.now (edit_path J.says self.old.state edit.now.targets (edit_of edit.now) path.now)) }
        ensures err { OnErr result (self.new ≡ self.old) }
        ensures version_refused { IfOk result (λ reply. is_refusal reply ≡ true → self.new.version ≡ self.old.version) }
        ensures mark_versions { self.new.mark_versions ≡ self.old.mark_versions }
        ensures stamps { IfOk result (λ reply. is_refusal reply ≡ false
            → KeepOthersRead J.says self.old.state (path_read path.now) self.old.stamps self.new.stamps) }
        ensures stamps_refused { IfOk result (λ reply. is_refusal reply ≡ true → self.new.stamps ≡ self.old.stamps) }
        ensures standings { self.new.standings ≡ self.old.standings }
        ensures moves { moves.old ≤ moves.new }
        ensures price { is_cheap_path self.old.state.lists (path_read path.now) ≡ true
            → moves.new ≤ moves.old + read_price J.says self.old (path_read path.now) }
        ensures rows { rows.new ≤ rows.old + touched_path J.says self.old.state edit.now.targets (edit_of edit.now) path.now }
    {
        // There is a stamp for each document, as the clauses of `stamps` say.
        let _stamps = self.stamped.stamps();
        let planned = ready.planned();
        let edited = edit_along(&self.judge, &mut self.stamped, edit, &planned, moves, rows);
        keep_accepted(&mut self.prepared, ready, edited)
    }

    /// The reply to a path, of whose elements this is shown.
    fn show<M: Ledger>(
        &mut self,
        shown: Shown,
        path: &str,
        moves: &mut Steps<M>,
    ) -> Result<Reply, Memory>
        ensures answer { IfOk result (λ reply. (self.new.state, reply) ≡ shown_by J.says shown self.old.state path.now) }
        ensures err { OnErr result (self.new ≡ self.old) }
        ensures version { self.new.version ≡ self.old.version }
        ensures mark_versions { self.new.mark_versions ≡ self.old.mark_versions }
        ensures stamps { self.new.stamps ≡ self.old.stamps }
        ensures standings { self.new.standings ≡ self.old.standings }
        ensures moves { moves.old ≤ moves.new }
        ensures price { is_cheap_path self.old.state.lists (path_read path.now) ≡ true
            → moves.new ≤ moves.old + read_price J.says self.old (path_read path.now) }
    {
        answer_path(
            self.alloc,
            &self.judge,
            self.stamped.collection(),
            &mut self.prepared,
            shown,
            path,
            moves,
        )
    }

    /// The reply to a path of whose elements the words are shown, with those marked by which they satisfy its last selection.
    fn show_marked<M: Ledger>(&mut self, path: &str, moves: &mut Steps<M>) -> Result<Reply, Memory>
        ensures answer { IfOk result (λ reply. (self.new.state, reply)
            ≡ keep_plans path.now (self.old.state, marked.answer_marked J.says self.old.state path.now)) }
        ensures err { OnErr result (self.new ≡ self.old) }
        ensures version { self.new.version ≡ self.old.version }
        ensures mark_versions { self.new.mark_versions ≡ self.old.mark_versions }
        ensures stamps { self.new.stamps ≡ self.old.stamps }
        ensures standings { self.new.standings ≡ self.old.standings }
        ensures moves { moves.old ≤ moves.new }
        ensures price { is_cheap_path self.old.state.lists (path_read path.now) ≡ true
            → moves.new ≤ moves.old + read_price J.says self.old (path_read path.now) }
    {
        answer_marked(
            self.alloc,
            &self.judge,
            self.stamped.collection(),
            &mut self.prepared,
            path,
            moves,
        )
    }

    /// The reply to a path that goes along the collection of the mark.
    fn show_at<M: Ledger>(
        &mut self,
        name: &Line,
        path: &str,
        moves: &mut Steps<M>,
    ) -> Result<Reply, Memory>
        ensures answer { IfOk result (λ reply. (self.new.state, reply)
            ≡ shown_at J.says self.old.state name.now path.now (mark_named name.now self.old.state.marks)) }
        ensures err { OnErr result (self.new ≡ self.old) }
        ensures version { self.new.version ≡ self.old.version }
        ensures mark_versions { self.new.mark_versions ≡ self.old.mark_versions }
        ensures stamps { self.new.stamps ≡ self.old.stamps }
        ensures standings { self.new.standings ≡ self.old.standings }
        ensures moves { moves.old ≤ moves.new }
        ensures price { is_cheap_path self.old.state.lists (path_read path.now) ≡ true
            → moves.new ≤ moves.old + price_at J.says self.old name.now path.now (mark_named name.now self.old.state.marks) }
    {
        match self.marks.get(name) {
            Some(collection) => answer_path(
                self.alloc,
                &self.judge,
                collection,
                &mut self.prepared,
                Shown::Names,
                path,
                moves,
            ),
            None => no_such_name(self.alloc, name),
        }
    }
}
