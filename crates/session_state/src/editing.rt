//! Edits of the elements that a path selects.

ghost use Rattle.std.specs.Prelude.{◌≡◌, ◌≤◌, ◌+◌, false, IfOk, None, OnErr, map, true};
ghost use Rattle.document_store.specs.Documents.{edited_within, touched_in};
ghost use Rattle.document_store.specs.Targets.{places_of_targets, AreTargets};
ghost use Rattle.path_meaning.specs.Collection.{documents as documents_of};
ghost use Rattle.session_state.specs.DocumentReplies.{edit_refusal, replied_by};
ghost use Rattle.session_state.specs.Edits.{edit_placed, has_root, is_one, target_count, target_refusal, targets_refused, touched_placed};
ghost use Rattle.session_state.specs.PlannedPaths.{prices_in, run_over, HasItsPlans, has_cheap_plans};
ghost use Rattle.session_state.specs.steps.Chosen.{edit_of, planned_places};
ghost use Rattle.reply_lines.specs.Replies.{is_refusal};
ghost use Rattle.stamped_documents.specs.Stamps.{restamped};
ghost use Rattle.tree_edits.specs.Acts.{stays as does_stay};

use crate::asked_runs::Abbreviated;
use crate::edit::{Edit, Targets};
use crate::planned::{PlannedPath, open_runs};
use crate::refusing::refuse_edit;
use crate::targets::{Chosen, choose};
use document_store::Collection;
use ft_base::{Memory, Steps};
use plain_tree::How;
use plan_runs::Judge;
use reply_lines::{Refusal, Reply};
use stamped_documents::Stamped;
use std::marker::Brand;
use std::sync::ledger::Ledger;

/// Edits the elements to which a path leads, unless they are none or too many, or it can't be of a root that is among them, or a document
/// would exceed a limit.
pub(crate) fn edit_along<J: Judge, L: Ledger, M: Ledger>(
    judge: &J,
    stamped: &mut Stamped,
    edit: &Edit<'_>,
    path: &PlannedPath<'_>,
    moves: &mut Steps<M>,
    rows: &mut Steps<L>,
) -> Result<Reply, Memory>
    requires { HasItsPlans path.now }
    ensures answer { IfOk result (λ reply. (stamped.new.indexed.documents, reply)
        ≡ edit_placed stamped.old.indexed.documents (edit_of edit.now) (map (planned_places J.says stamped.old.indexed.abbreviations path.now) stamped.old.indexed.documents)
        (target_refusal edit.now.targets (edit_of edit.now) (map (planned_places J.says stamped.old.indexed.abbreviations path.now) stamped.old.indexed.documents))) }
    ensures abbreviations { stamped.new.indexed.abbreviations ≡ stamped.old.indexed.abbreviations }
    ensures err { OnErr result (stamped.new ≡ stamped.old) }
    ensures refused { IfOk result (λ reply. is_refusal reply ≡ true → stamped.new ≡ stamped.old) }
    ensures stamps { IfOk result (λ reply. is_refusal reply ≡ false → stamped.new.stamps
        ≡ restamped stamped.old.next (map (planned_places J.says stamped.old.indexed.abbreviations path.now) stamped.old.indexed.documents) stamped.old.stamps) }
    ensures next { stamped.old.next ≤ stamped.new.next }
    ensures moves { moves.old ≤ moves.new }
    ensures price { has_cheap_plans path.now ≡ true → moves.new
        ≤ moves.old
        + prices_in J.says stamped.old.indexed.abbreviations path.now (map (run_over stamped.old.indexed.version) path.now.plans.now)
        (documents_of path.now.root.now stamped.old.indexed.documents) }
    ensures rows { rows.new
        ≤ rows.old
        + touched_placed stamped.old.indexed.documents (edit_of edit.now) (map (planned_places J.says stamped.old.indexed.abbreviations path.now) stamped.old.indexed.documents)
        (target_refusal edit.now.targets (edit_of edit.now) (map (planned_places J.says stamped.old.indexed.abbreviations path.now) stamped.old.indexed.documents)) }
{
    match choose_along::<J, Brand, M>(judge, stamped.collection(), path, moves) {
        Ok(chosen) => {
            let edited = edit_chosen(stamped, edit, &chosen, rows);
            drop(chosen);
            edited
        }
        Err(memory) => Err(memory),
    }
}

/// The elements to which a path leads. A run of each of its plans is opened once, over the version of the index.
fn choose_along<J: Judge, A: Abbreviated, M: Ledger>(
    judge: &J,
    collection: &Collection,
    path: &PlannedPath<'_>,
    moves: &mut Steps<M>,
) -> Result<Chosen, Memory>
    requires plans { HasItsPlans path.now }
    requires abbreviations { collection.now.abbreviations ≡ A.abbreviations }
    ensures there { IfOk result (λ chosen. AreTargets collection.now.trees chosen.refs) }
    ensures places { IfOk result (λ chosen. places_of_targets collection.now.trees chosen.refs
        ≡ map (planned_places J.says A.abbreviations path.now) collection.now.documents) }
    ensures count { IfOk result (λ chosen. chosen.count
        ≡ target_count (map (planned_places J.says A.abbreviations path.now) collection.now.documents)) }
    ensures rooted { IfOk result (λ chosen. chosen.has_root
        ≡ has_root (map (planned_places J.says A.abbreviations path.now) collection.now.documents)) }
    ensures moves { moves.old ≤ moves.new }
    ensures price { has_cheap_plans path.now ≡ true → moves.new
        ≤ moves.old
        + prices_in J.says A.abbreviations path.now (map (run_over collection.now.version) path.now.plans.now)
        (documents_of path.now.root.now collection.now.documents) }
{
    let documents = collection.documents();
    let mut runs = open_runs(path.alloc, path.plans, collection.version())?;
    let chosen = choose::<J, A, M>(judge, documents, path, runs.as_mut_slice(), moves);
    drop(runs);
    chosen
}

/// Edits the elements that were chosen, unless they can't be edited or a document would exceed a limit.
fn edit_chosen<L: Ledger>(
    stamped: &mut Stamped,
    edit: &Edit<'_>,
    chosen: &Chosen,
    rows: &mut Steps<L>,
) -> Result<Reply, Memory>
    requires there { AreTargets stamped.old.indexed.trees chosen.now.refs }
    requires count { chosen.now.count ≡ target_count (places_of_targets stamped.old.indexed.trees chosen.now.refs) }
    requires rooted { chosen.now.has_root ≡ has_root (places_of_targets stamped.old.indexed.trees chosen.now.refs) }
    ensures answer { IfOk result (λ reply. (stamped.new.indexed.documents, reply)
        ≡ edit_placed stamped.old.indexed.documents (edit_of edit.now) (places_of_targets stamped.old.indexed.trees chosen.now.refs)
        (target_refusal edit.now.targets (edit_of edit.now) (places_of_targets stamped.old.indexed.trees chosen.now.refs))) }
    ensures abbreviations { stamped.new.indexed.abbreviations ≡ stamped.old.indexed.abbreviations }
    ensures err { OnErr result (stamped.new ≡ stamped.old) }
    ensures refused { IfOk result (λ reply. is_refusal reply ≡ true → stamped.new ≡ stamped.old) }
    ensures stamps { IfOk result (λ reply. is_refusal reply ≡ false → stamped.new.stamps
        ≡ restamped stamped.old.next (places_of_targets stamped.old.indexed.trees chosen.now.refs) stamped.old.stamps) }
    ensures next { stamped.old.next ≤ stamped.new.next }
    ensures rows { rows.new
        ≤ rows.old
        + touched_placed stamped.old.indexed.documents (edit_of edit.now) (places_of_targets stamped.old.indexed.trees chosen.now.refs)
        (target_refusal edit.now.targets (edit_of edit.now) (places_of_targets stamped.old.indexed.trees chosen.now.refs)) }
{
    match refusal_of(edit, chosen) {
        Some(why) => Ok(Reply::Refused(why)),
        None => edit_within(stamped, edit, chosen, rows),
    }
}

/// Edits elements that can be edited, unless a document would exceed a limit.
fn edit_within<L: Ledger>(
    stamped: &mut Stamped,
    edit: &Edit<'_>,
    chosen: &Chosen,
    rows: &mut Steps<L>,
) -> Result<Reply, Memory>
    requires there { AreTargets stamped.old.indexed.trees chosen.now.refs }
    requires count { chosen.now.count ≡ target_count (places_of_targets stamped.old.indexed.trees chosen.now.refs) }
    requires rooted { chosen.now.has_root ≡ has_root (places_of_targets stamped.old.indexed.trees chosen.now.refs) }
    requires accepted { targets_refused edit.now.targets edit.now.how chosen.now.count chosen.now.has_root ≡ None }
    ensures answer { IfOk result (λ reply. (stamped.new.indexed.documents, reply)
        ≡ replied_by edit_refusal (edited_within (edit_of edit.now) (places_of_targets stamped.old.indexed.trees chosen.now.refs) stamped.old.indexed.documents)) }
    ensures abbreviations { stamped.new.indexed.abbreviations ≡ stamped.old.indexed.abbreviations }
    ensures err { OnErr result (stamped.new ≡ stamped.old) }
    ensures refused { IfOk result (λ reply. is_refusal reply ≡ true → stamped.new ≡ stamped.old) }
    ensures stamps { IfOk result (λ reply. is_refusal reply ≡ false → stamped.new.stamps
        ≡ restamped stamped.old.next (places_of_targets stamped.old.indexed.trees chosen.now.refs) stamped.old.stamps) }
    ensures next { stamped.old.next ≤ stamped.new.next }
    ensures rows { rows.new
        ≤ rows.old + touched_in (edit_of edit.now) (places_of_targets stamped.old.indexed.trees chosen.now.refs) stamped.old.indexed.documents }
{
    match stamped.edit(chosen.refs.as_slice(), edit.how, edit.content, rows) {
        Ok(Ok(())) => Ok(Reply::Done),
        Ok(Err(why)) => Ok(Reply::Refused(refuse_edit(why))),
        Err(memory) => Err(memory),
    }
}

/// Why the elements that were chosen can't be edited, if they can't.
fn refusal_of(edit: &Edit<'_>, chosen: &Chosen) -> Option<Refusal>
    ensures { result ≡ targets_refused edit.now.targets edit.now.how chosen.now.count chosen.now.has_root }
{
    let count = chosen.count;
    if count == 0 {
        return Some(Refusal::NoTarget);
    }
    if is_for_one(edit.targets) && count > 1 {
        return Some(Refusal::ManyTargets { count });
    }
    if !stays(edit.how) && chosen.has_root {
        return Some(Refusal::RootTarget);
    }
    None
}

/// Whether an edit may be of one element alone.
fn is_for_one(targets: Targets) -> bool
    ensures { result ≡ is_one targets }
{
    matches!(targets, Targets::One)
}

/// Whether an element stays where it stands, where content comes in this way.
fn stays(how: Option<How>) -> bool
    ensures { result ≡ does_stay how }
{
    matches!(how, Some(How::First) | Some(How::Last))
}
