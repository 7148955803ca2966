//! The reply to `show`: the elements that a path selects, and their words, of which those are marked by which they satisfy the selection that
//! the path asks for last.

ghost use Rattle.std.specs.Prelude.{◌≡◌, ◌≤◌, ◌+◌, ◌++◌, ◌∷◌, [], All, IfOk, OnErr, OnOk, flat_map, length, map, true};
ghost use Rattle.std.specs.Option.{option_copied};
ghost use Rattle.best_hits.specs.Showable.{can_show as showable};
ghost use Rattle.document_store.specs.Loaded.{to_document, trees_of};
ghost use Rattle.ordered_tree.specs.Numbered.{plain};
ghost use Rattle.path_nodes.specs.References.{IsElement, element_of};
ghost use Rattle.path_subset.specs.Answer.{path_read};
ghost use Rattle.session_state.specs.MarkedWords as spec;
ghost use Rattle.session_state.specs.PathPrices.{is_cheap_path, read_price};
ghost use Rattle.session_state.specs.PlannedPaths.{run_over, AreRunsOf, HasItsPlans, has_cheap_plans};
ghost use Rattle.session_state.specs.ReadyPaths.{kept_for};
ghost use Rattle.session_state.specs.SelectionTests.{AreOver, AreOverEach};
ghost use Rattle.session_state.specs.StateView.{held_of, state_of};
ghost use Rattle.session_state.specs.steps.Chosen.{price_through, prices_through};
ghost use Rattle.session_state.specs.steps.MarkedPlans.{in_turn, marked_through, planned_marks, shown_plan as shown_of, words_line};

use crate::asked_runs::Abbreviated;
use crate::keeping::keep_accepted;
use crate::node_laws::{node_law, span_law};
use crate::paths::{Ready, ready_path};
use crate::planned::{PlannedPath, open_runs};
use crate::selected::select;
use crate::targets::leads_through;
use document_store::{Collection, Documents, Loaded};
use element_lines::{Marking, push_names};
use ft_base::{DocId, Line, Memory, Steps};
use index_versions::Version;
use kept_plans::{KeptPlan, Prepared};
use match_marks::{Marks, can_show};
use ordered_tree::{DocTree, NodeRef};
use plan_runs::{Judge, Run};
use reply_lines::{Refusal, Reply};
use std::alloc::Global;
use std::marker::Brand;
use std::sync::ledger::Ledger;
use text_list::TextList;

/// The reply to the path of `show`, by the documents and the lists that are there, and by what the judge says. Where it isn't refused, the
/// plans of its selections are kept. `moves` counts the steps of the cursors by which the judge is asked; those by which marks are found have
/// a count of their own.
pub(crate) fn answer_marked<J: Judge, M: Ledger>(
    alloc: Global,
    judge: &J,
    collection: &Collection,
    prepared: &mut Prepared,
    text: &str,
    moves: &mut Steps<M>,
) -> Result<Reply, Memory>
    ensures reply { IfOk result (λ reply. reply ≡ spec.answer_marked J.says (state_of collection.now prepared.old.lists) text.now) }
    ensures kept { IfOk result (λ reply. prepared.new ≡ kept_for text.now reply prepared.old) }
    ensures err { OnErr result (prepared.new ≡ prepared.old) }
    ensures moves { moves.old ≤ moves.new }
    ensures price { is_cheap_path prepared.old.lists (path_read text.now) ≡ true
        → moves.new ≤ moves.old + read_price J.says (held_of collection.now prepared.old.lists) (path_read text.now) }
{
    match ready_path(alloc, collection, prepared, text) {
        Ok(Ready::Path(ready)) => {
            let number = ready.path.shown(text);
            let answered = answer_planned::<J, Brand, M>(
                judge,
                collection,
                &ready.planned(),
                number,
                moves,
            );
            keep_accepted(prepared, ready, answered)
        }
        Ok(Ready::Refused(why)) => Ok(Reply::Refused(why)),
        Err(memory) => Err(memory),
    }
}

/// The reply to a path by its plans, where the words are marked by the selection of that number. Where there is none, or its best hits can't
/// be shown, nothing is asked.
fn answer_planned<J: Judge, A: Abbreviated, M: Ledger>(
    judge: &J,
    collection: &Collection,
    path: &PlannedPath<'_>,
    number: Option<usize>,
    moves: &mut Steps<M>,
) -> Result<Reply, Memory>
    requires plans { HasItsPlans path.now }
    requires abbreviations { collection.now.abbreviations ≡ A.abbreviations }
    ensures reply { IfOk result (λ reply. reply
        ≡ planned_marks J.says A.abbreviations path.now collection.now.documents (shown_of number path.now.plans.now)) }
    ensures moves { moves.old ≤ moves.new }
    ensures price { has_cheap_plans path.now ≡ true → moves.new
        ≤ moves.old + prices_through J.says A.abbreviations path.now (map (run_over collection.now.version) path.now.plans.now) collection.now.documents }
{
    match shown_plan(path.plans, number) {
        Some(plan) => {
            let lines = lines_by::<J, A, M>(judge, collection, path, plan, moves)?;
            Ok(Reply::Shown(lines))
        }
        None => Ok(Reply::Refused(Refusal::NothingToShow)),
    }
}

/// The plan of that number, if there is one and the best hits of its selection can be shown.
fn shown_plan<'p>(plans: &'p [KeptPlan], number: Option<usize>) -> Option<&'p KeptPlan>
    ensures { option_copied result ≡ shown_of number plans.now }
{
    let plan = plans.get(number?)?;
    if can_show(plan.plan().selection()) {
        Some(plan)
    } else {
        None
    }
}

/// The lines of the elements that a path selects, and of their words, which are marked by a plan. Its marks, and a run of each plan of the
/// path, are opened once, over the version of the index.
fn lines_by<J: Judge, A: Abbreviated, M: Ledger>(
    judge: &J,
    collection: &Collection,
    path: &PlannedPath<'_>,
    plan: &KeptPlan,
    moves: &mut Steps<M>,
) -> Result<TextList, Memory>
    requires plans { HasItsPlans path.now }
    requires abbreviations { collection.now.abbreviations ≡ A.abbreviations }
    requires showable { showable plan.now.form ≡ true }
    ensures lines { IfOk result (λ lines. lines
        ≡ flat_map (marked_through J.says A.abbreviations path.now plan.now.lists plan.now.form) collection.now.documents) }
    ensures moves { moves.old ≤ moves.new }
    ensures price { has_cheap_plans path.now ≡ true → moves.new
        ≤ moves.old + prices_through J.says A.abbreviations path.now (map (run_over collection.now.version) path.now.plans.now) collection.now.documents }
{
    let mut marks = Marks::open(path.alloc, plan.plan(), collection.version())?;
    let lines = lines_with::<J, A, M>(judge, collection, path, &mut marks, moves);
    drop(marks);
    lines
}

/// The same by marks that are open over the version.
fn lines_with<J: Judge, A: Abbreviated, M: Ledger>(
    judge: &J,
    collection: &Collection,
    path: &PlannedPath<'_>,
    marks: &mut Marks<'_>,
    moves: &mut Steps<M>,
) -> Result<TextList, Memory>
    requires plans { HasItsPlans path.now }
    requires abbreviations { collection.now.abbreviations ≡ A.abbreviations }
    requires version { marks.old.version ≡ collection.now.version }
    ensures lines { IfOk result (λ lines. lines
        ≡ flat_map (marked_through J.says A.abbreviations path.now marks.old.lists marks.old.form) collection.now.documents) }
    ensures moves { moves.old ≤ moves.new }
    ensures price { has_cheap_plans path.now ≡ true → moves.new
        ≤ moves.old + prices_through J.says A.abbreviations path.now (map (run_over collection.now.version) path.now.plans.now) collection.now.documents }
{
    let documents = collection.documents();
    let mut runs = open_runs(path.alloc, path.plans, collection.version())?;
    let lines = collect_marked::<J, A, M>(
        judge,
        documents,
        path,
        collection.version(),
        marks,
        runs.as_mut_slice(),
        moves,
    );
    drop(runs);
    lines
}

/// The memory in which the lines of words are made, one element after the other.
#[derive(Drop)]
struct Room<'v> {
    /// The words of the element, as the version has them.
    words: Vec<&'v str>,
    marking: Marking,
}

/// The lines of all documents, in their order. The runs are those of the path's plans, and they and the marks are over a version that follows
/// the documents.
fn collect_marked<'v, J: Judge, A: Abbreviated, M: Ledger>(
    judge: &J,
    documents: &Documents,
    path: &PlannedPath<'_>,
    version: &'v Version,
    marks: &mut Marks<'_>,
    runs: &mut [Run<'_>],
    moves: &mut Steps<M>,
) -> Result<TextList, Memory>
    requires plans { HasItsPlans path.now }
    requires runs { AreRunsOf path.now runs.old }
    requires over { AreOverEach A.abbreviations runs.old (trees_of documents.now) }
    requires marks { AreOverEach A.abbreviations (marks.old ∷ []) (trees_of documents.now) }
    requires version { version.now ≡ marks.old.version }
    ensures lines { IfOk result (λ lines. lines
        ≡ flat_map (marked_through J.says A.abbreviations path.now marks.old.lists marks.old.form) (map to_document documents.now)) }
    ensures moves { moves.old ≤ moves.new }
    ensures price { has_cheap_plans path.now ≡ true
        → moves.new ≤ moves.old + prices_through J.says A.abbreviations path.now runs.old (map to_document documents.now) }
{
    let mut lines = TextList::new(path.alloc);
    let mut room = Room {
        words: Vec::new(path.alloc),
        marking: Marking::new(path.alloc),
    };
    for (name, document) in documents.iter() {
        push_document::<J, A, M>(
            judge, name, document, path, version, marks, runs, moves, &mut room, &mut lines,
        )?;
    }
    Ok(lines)
}

/// Puts the lines of one document to the end; there are none where the path doesn't lead through the document.
fn push_document<'v, J: Judge, A: Abbreviated, M: Ledger>(
    judge: &J,
    name: &Line,
    document: &Loaded,
    path: &PlannedPath<'_>,
    version: &'v Version,
    marks: &mut Marks<'_>,
    runs: &mut [Run<'_>],
    moves: &mut Steps<M>,
    room: &mut Room<'v>,
    lines: &mut TextList,
) -> Result<(), Memory>
    requires plans { HasItsPlans path.now }
    requires runs { AreRunsOf path.now runs.old }
    requires over { AreOver A.abbreviations runs.old (document.now.doc.0, document.now.tree.root) }
    requires marks { AreOver A.abbreviations (marks.old ∷ []) (document.now.doc.0, document.now.tree.root) }
    requires version { version.now ≡ marks.old.version }
    ensures lines { OnOk result (lines.new
        ≡ lines.old
        ++ marked_through J.says A.abbreviations path.now marks.old.lists marks.old.form (to_document (name.now, document.now))) }
    ensures marks { marks.new ≡ marks.old }
    ensures runs { runs.new ≡ runs.old }
    ensures moves { moves.old ≤ moves.new }
    ensures price { has_cheap_plans path.now ≡ true
        → moves.new ≤ moves.old + price_through J.says A.abbreviations path.now runs.old (to_document (name.now, document.now)) }
{
    if !leads_through(path.root, name) {
        return Ok(());
    }
    let found = select::<J, A, M>(judge, document, path, runs, moves)?;
    push_found::<A>(
        path.alloc,
        name.as_str(),
        document,
        version,
        marks,
        found.as_slice(),
        room,
        lines,
    )
}

/// Puts the lines of these elements to the end: for each the line that names it, and that of its words.
fn push_found<'v, A: Abbreviated>(
    alloc: Global,
    name: &str,
    document: &Loaded,
    version: &'v Version,
    marks: &mut Marks<'_>,
    found: &[NodeRef],
    room: &mut Room<'v>,
    lines: &mut TextList,
) -> Result<(), Memory>
    requires there { All (IsElement document.now.tree.root) found.now }
    requires marks { AreOver A.abbreviations (marks.old ∷ []) (document.now.doc.0, document.now.tree.root) }
    requires version { version.now ≡ marks.old.version }
    ensures lines { OnOk result (lines.new
        ≡ lines.old
        ++ flat_map (spec.marked_lines A.abbreviations marks.old.lists marks.old.form name.now (plain document.now.tree.root))
        (map (element_of document.now.tree.root) found.now)) }
    ensures marks { marks.new ≡ marks.old }
{
    let tree = document.tree();
    let mut names = TextList::new(alloc);
    push_names(alloc, name, tree, found, &mut names)?;
    push_each::<A>(
        alloc,
        &names,
        document.doc(),
        tree,
        version,
        marks,
        found,
        room,
        lines,
    )
}

/// Puts a line of the first list and the line of an element's words to the end, for each of these elements.
fn push_each<'v, A: Abbreviated>(
    alloc: Global,
    names: &TextList,
    doc: DocId,
    tree: &DocTree,
    version: &'v Version,
    marks: &mut Marks<'_>,
    found: &[NodeRef],
    room: &mut Room<'v>,
    lines: &mut TextList,
) -> Result<(), Memory>
    requires names { length names.now ≡ length found.now }
    requires there { All (IsElement tree.now.root) found.now }
    requires marks { AreOver A.abbreviations (marks.old ∷ []) (doc.0, tree.now.root) }
    requires version { version.now ≡ marks.old.version }
    ensures lines { OnOk result (lines.new
        ≡ lines.old ++ in_turn names.now (map (words_line A.abbreviations marks.old.lists marks.old.form tree.now.root) found.now)) }
    ensures marks { marks.new ≡ marks.old }
{
    for number in 0..found.len() {
        lines.push(names.get(number))?;
        push_line::<A>(alloc, doc, tree, version, marks, found[number], room, lines)?;
    }
    Ok(())
}

/// Puts the line of an element's words to the end.
fn push_line<'v, A: Abbreviated>(
    alloc: Global,
    doc: DocId,
    tree: &DocTree,
    version: &'v Version,
    marks: &mut Marks<'_>,
    node: NodeRef,
    room: &mut Room<'v>,
    lines: &mut TextList,
) -> Result<(), Memory>
    requires there { IsElement tree.now.root node }
    requires marks { AreOver A.abbreviations (marks.old ∷ []) (doc.0, tree.now.root) }
    requires version { version.now ≡ marks.old.version }
    ensures lines { OnOk result (lines.new ≡ lines.old ++ words_line A.abbreviations marks.old.lists marks.old.form tree.now.root node ∷ []) }
    ensures marks { marks.new ≡ marks.old }
{
    node_law();
    span_law();
    let Room { words, marking } = room;
    let span = tree.span_of(node);
    words.clear();
    version.lend_words(doc, span, words)?;
    match marks.best(alloc, doc, span)? {
        Some(spans) => marking.push_line(words.as_slice(), spans.as_slice(), lines),
        None => marking.push_line(words.as_slice(), &[], lines),
    }
}
