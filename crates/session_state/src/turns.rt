//! What a watched path answers now, document by document. A document whose stamp is known is not asked again.

ghost use Rattle.std.specs.Prelude.{◌≡◌, ◌≤◌, ◌+◌, if◌then◌else◌, is_some, length, map, true, IfOk};
ghost use Rattle.document_store.specs.Loaded.{to_document, trees_of};
ghost use Rattle.session_state.specs.PlannedPaths.{run_over, AreRunsOf, HasItsPlans, has_cheap_plans};
ghost use Rattle.session_state.specs.SelectionTests.{AreOver, AreOverEach};
ghost use Rattle.session_state.specs.Standings.{unknown_price};
ghost use Rattle.session_state.specs.steps.Chosen.{price_through};
ghost use Rattle.session_state.specs.steps.Turns.{planned_through, turn_now, turns_now};
ghost use Rattle.standing_queries.specs.Answers.{kept_under};

use crate::asked_runs::Abbreviated;
use crate::planned::{PlannedPath, open_runs};
use crate::selected::{push_lines, select};
use crate::shown::Shown;
use crate::targets::leads_through;
use document_store::{Collection, Documents, Loaded};
use ft_base::{Line, Memory, Steps};
use plan_runs::{Judge, Run};
use standing_queries::{SharedLines, Standing, Turn};
use std::sync::ledger::Ledger;
use text_list::TextList;

/// A turn for each document, in order, under its stamp: it brings the lines of the elements that the path selects, unless some are kept under
/// that stamp. A run of each plan is opened once, over the version of the index.
pub(crate) fn turns_of<J: Judge, A: Abbreviated, M: Ledger>(
    judge: &J,
    collection: &Collection,
    stamps: &[u64],
    kept: &Standing,
    path: &PlannedPath<'_>,
    moves: &mut Steps<M>,
) -> Result<Vec<Turn>, Memory>
    requires plans { HasItsPlans path.now }
    requires abbreviations { collection.now.abbreviations ≡ A.abbreviations }
    requires as_many { length stamps.now ≡ length collection.now.documents }
    ensures turns { IfOk result (λ turns. turns.items
        ≡ turns_now kept.now (planned_through J.says A.abbreviations path.now) stamps.now collection.now.documents) }
    ensures moves { moves.old ≤ moves.new }
    ensures price { has_cheap_plans path.now ≡ true → moves.new
        ≤ moves.old
        + unknown_price kept.now (price_through J.says A.abbreviations path.now (map (run_over collection.now.version) path.now.plans.now))
        stamps.now collection.now.documents }
{
    let documents = collection.documents();
    let mut runs = open_runs(path.alloc, path.plans, collection.version())?;
    let turns = collect_turns::<J, A, M>(
        judge,
        documents,
        stamps,
        kept,
        path,
        runs.as_mut_slice(),
        moves,
    );
    drop(runs);
    turns
}

/// The same, by runs over a version that follows the documents.
fn collect_turns<J: Judge, A: Abbreviated, M: Ledger>(
    judge: &J,
    documents: &Documents,
    stamps: &[u64],
    kept: &Standing,
    path: &PlannedPath<'_>,
    runs: &mut [Run<'_>],
    moves: &mut Steps<M>,
) -> Result<Vec<Turn>, Memory>
    requires plans { HasItsPlans path.now }
    requires runs { AreRunsOf path.now runs.old }
    requires over { AreOverEach A.abbreviations runs.old (trees_of documents.now) }
    requires as_many { length stamps.now ≡ length documents.now }
    ensures turns { IfOk result (λ turns. turns.items
        ≡ turns_now kept.now (planned_through J.says A.abbreviations path.now) stamps.now (map to_document documents.now)) }
    ensures moves { moves.old ≤ moves.new }
    ensures price { has_cheap_plans path.now ≡ true → moves.new
        ≤ moves.old + unknown_price kept.now (price_through J.says A.abbreviations path.now runs.old) stamps.now (map to_document documents.now) }
{
    let mut turns = Vec::new(path.alloc);
    for (name, document) in documents.iter() {
        let stamp = stamps[turns.len()];
        let turn = turn_of::<J, A, M>(judge, name, document, stamp, kept, path, runs, moves)?;
        turns.push(turn)?;
    }
    Ok(turns)
}

/// The turn of one document under its stamp.
fn turn_of<J: Judge, A: Abbreviated, M: Ledger>(
    judge: &J,
    name: &Line,
    document: &Loaded,
    stamp: u64,
    kept: &Standing,
    path: &PlannedPath<'_>,
    runs: &mut [Run<'_>],
    moves: &mut Steps<M>,
) -> Result<Turn, Memory>
    requires plans { HasItsPlans path.now }
    requires runs { AreRunsOf path.now runs.old }
    requires over { AreOver A.abbreviations runs.old (document.now.doc.0, document.now.tree.root) }
    ensures turn { IfOk result (λ turn. turn
        ≡ turn_now kept.now (planned_through J.says A.abbreviations path.now) stamp (to_document (name.now, document.now))) }
    ensures runs { runs.new ≡ runs.old }
    ensures moves { moves.old ≤ moves.new }
    ensures price { has_cheap_plans path.now ≡ true → moves.new
        ≤ moves.old
        + (if is_some (kept_under stamp kept.now) then 0
        else price_through J.says A.abbreviations path.now runs.old (to_document (name.now, document.now))) }
{
    if kept.knows(stamp) {
        return Ok(Turn { stamp, fresh: None });
    }
    let lines = lines_in::<J, A, M>(judge, name, document, path, runs, moves)?;
    let fresh = SharedLines::new(path.alloc, lines)?;
    Ok(Turn {
        stamp,
        fresh: Some(fresh),
    })
}

/// The lines that name the elements of a document that the path selects; there are none where it doesn't lead through the document.
fn lines_in<J: Judge, A: Abbreviated, M: Ledger>(
    judge: &J,
    name: &Line,
    document: &Loaded,
    path: &PlannedPath<'_>,
    runs: &mut [Run<'_>],
    moves: &mut Steps<M>,
) -> Result<TextList, Memory>
    requires plans { HasItsPlans path.now }
    requires runs { AreRunsOf path.now runs.old }
    requires over { AreOver A.abbreviations runs.old (document.now.doc.0, document.now.tree.root) }
    ensures lines { IfOk result (λ lines. lines ≡ planned_through J.says A.abbreviations path.now (to_document (name.now, document.now))) }
    ensures runs { runs.new ≡ runs.old }
    ensures moves { moves.old ≤ moves.new }
    ensures price { has_cheap_plans path.now ≡ true
        → moves.new ≤ moves.old + price_through J.says A.abbreviations path.now runs.old (to_document (name.now, document.now)) }
{
    let mut lines = TextList::new(path.alloc);
    if !leads_through(path.root, name) {
        return Ok(lines);
    }
    let found = select::<J, A, M>(judge, document, path, runs, moves)?;
    push_lines(
        path.alloc,
        name.as_str(),
        document,
        Shown::Names,
        found.as_slice(),
        &mut lines,
    )?;
    Ok(lines)
}
