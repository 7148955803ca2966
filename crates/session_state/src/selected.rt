//! The lines of the elements that a path selects.

ghost use Rattle.std.specs.Prelude.{◌≡◌, ◌≤◌, ◌+◌, ◌++◌, All, IfOk, OnOk, flat_map, length, map, true};
ghost use Rattle.ordered_tree.specs.Numbered.{plain};
ghost use Rattle.path_meaning.specs.Collection.{documents as documents_of};
ghost use Rattle.path_grammar.specs.declared.path.PathRoot.TheVariants as roots;
ghost use Rattle.path_nodes.specs.References.{IsElement, element_of};
ghost use Rattle.session_state.specs.Paths.{lines_of};
ghost use Rattle.session_state.specs.PlannedPaths.{planned_in, planned_lines, planned_price, prices_in, AreRunsOf, HasItsPlans, has_cheap_plans};
ghost use Rattle.session_state.specs.SelectionTests.{AreOver, AreOverEach};
ghost use Rattle.document_store.specs.Loaded.{to_document, trees_of};

use crate::asked_runs::{Abbreviated, Loan, SelectionTest, look_up};
use crate::node_laws::node_law;
use crate::planned::PlannedPath;
use crate::shown::Shown;
use document_store::{Documents, Loaded};
use element_lines::{push_names, push_printed};
use ft_base::{Line, Memory, Steps};
use ordered_tree::NodeRef;
use path_grammar::PathRoot;
use path_nodes::nodes_without;
use plan_runs::{Judge, Run};
use std::alloc::Global;
use std::marker::{Brand, PhantomData};
use std::sync::ledger::Ledger;
use text_list::TextList;

/// The lines of the elements that the path selects, document by document. The runs are those of its plans, over a version that
/// follows the documents.
pub(crate) fn collect_lines<J: Judge, A: Abbreviated, M: Ledger>(
    judge: &J,
    documents: &Documents,
    shown: Shown,
    path: &PlannedPath<'_>,
    runs: &mut [Run<'_>],
    moves: &mut Steps<M>,
) -> Result<TextList, Memory>
    requires plans { HasItsPlans path.now }
    requires runs { AreRunsOf path.now runs.old }
    requires over { AreOverEach A.abbreviations runs.old (trees_of documents.now) }
    ensures lines { IfOk result (λ lines. lines
        ≡ flat_map (planned_lines J.says A.abbreviations shown path.now) (documents_of path.now.root.now (map to_document documents.now))) }
    ensures moves { moves.old ≤ moves.new }
    ensures price { has_cheap_plans path.now ≡ true → moves.new
        ≤ moves.old
        + prices_in J.says A.abbreviations path.now runs.old (documents_of path.now.root.now (map to_document documents.now)) }
{
    match path.root {
        PathRoot::Collection => collect_all::<J, A, M>(judge, documents, shown, path, runs, moves),
        PathRoot::Doc(name) => collect_one::<J, A, M>(
            judge, documents, name, shown, path, runs, moves,
        ),
    }
}

/// The lines of all documents, in their order.
fn collect_all<J: Judge, A: Abbreviated, M: Ledger>(
    judge: &J,
    documents: &Documents,
    shown: Shown,
    path: &PlannedPath<'_>,
    runs: &mut [Run<'_>],
    moves: &mut Steps<M>,
) -> Result<TextList, Memory>
    requires plans { HasItsPlans path.now }
    requires runs { AreRunsOf path.now runs.old }
    requires over { AreOverEach A.abbreviations runs.old (trees_of documents.now) }
    ensures lines { IfOk result (λ lines. lines ≡ flat_map (planned_lines J.says A.abbreviations shown path.now) (map to_document documents.now)) }
    ensures moves { moves.old ≤ moves.new }
    ensures price { has_cheap_plans path.now ≡ true
        → moves.new ≤ moves.old + prices_in J.says A.abbreviations path.now runs.old (map to_document documents.now) }
{
    let mut lines = TextList::new(path.alloc);
    for (name, document) in documents.iter() {
        let found = select::<J, A, M>(judge, document, path, runs, moves)?;
        push_lines(
            path.alloc,
            name.as_str(),
            document,
            shown,
            found.as_slice(),
            &mut lines,
        )?;
    }
    Ok(lines)
}

/// The lines of the document of that name, if there is one.
fn collect_one<J: Judge, A: Abbreviated, M: Ledger>(
    judge: &J,
    documents: &Documents,
    name: &Line,
    shown: Shown,
    path: &PlannedPath<'_>,
    runs: &mut [Run<'_>],
    moves: &mut Steps<M>,
) -> Result<TextList, Memory>
    requires plans { HasItsPlans path.now }
    requires runs { AreRunsOf path.now runs.old }
    requires over { AreOverEach A.abbreviations runs.old (trees_of documents.now) }
    ensures lines { IfOk result (λ lines. lines
        ≡ flat_map (planned_lines J.says A.abbreviations shown path.now) (documents_of (roots.Doc name.now) (map to_document documents.now))) }
    ensures moves { moves.old ≤ moves.new }
    ensures price { has_cheap_plans path.now ≡ true → moves.new
        ≤ moves.old
        + prices_in J.says A.abbreviations path.now runs.old (documents_of (roots.Doc name.now) (map to_document documents.now)) }
{
    // No two documents have one name, as the clauses of `iter` say.
    let _entries = documents.iter();
    match documents.get(name) {
        Some(document) => collect_from::<J, A, M>(
            judge,
            name.as_str(),
            document,
            shown,
            path,
            runs,
            moves,
        ),
        None => Ok(TextList::new(path.alloc)),
    }
}

/// The lines of one document.
fn collect_from<J: Judge, A: Abbreviated, M: Ledger>(
    judge: &J,
    name: &str,
    document: &Loaded,
    shown: Shown,
    path: &PlannedPath<'_>,
    runs: &mut [Run<'_>],
    moves: &mut Steps<M>,
) -> Result<TextList, Memory>
    requires plans { HasItsPlans path.now }
    requires runs { AreRunsOf path.now runs.old }
    requires over { AreOver A.abbreviations runs.old (document.now.doc.0, document.now.tree.root) }
    ensures lines { IfOk result (λ lines. lines ≡ planned_lines J.says A.abbreviations shown path.now (to_document (name.now, document.now))) }
    ensures moves { moves.old ≤ moves.new }
    ensures price { has_cheap_plans path.now ≡ true
        → moves.new ≤ moves.old + planned_price J.says A.abbreviations path.now runs.old (plain document.now.tree.root) }
{
    let found = select::<J, A, M>(judge, document, path, runs, moves)?;
    let mut lines = TextList::new(path.alloc);
    push_lines(
        path.alloc,
        name,
        document,
        shown,
        found.as_slice(),
        &mut lines,
    )?;
    Ok(lines)
}

/// Puts the lines of these elements of a document after those found so far.
pub(crate) fn push_lines(
    alloc: Global,
    name: &str,
    document: &Loaded,
    shown: Shown,
    found: &[NodeRef],
    lines: &mut TextList,
) -> Result<(), Memory>
    requires { All (IsElement document.now.tree.root) found.now }
    ensures { OnOk result (lines.new
        ≡ lines.old ++ lines_of shown name.now (plain document.now.tree.root) (map (element_of document.now.tree.root) found.now)) }
{
    match shown {
        Shown::Names => push_names(alloc, name, document.tree(), found, lines),
        Shown::Texts => push_printed(alloc, document.tree(), found, lines),
    }
}

/// The elements of a document that the path selects.
pub(crate) fn select<J: Judge, A: Abbreviated, M: Ledger>(
    judge: &J,
    document: &Loaded,
    path: &PlannedPath<'_>,
    runs: &mut [Run<'_>],
    moves: &mut Steps<M>,
) -> Result<Vec<NodeRef>, Memory>
    requires plans { HasItsPlans path.now }
    requires runs { AreRunsOf path.now runs.old }
    requires over { AreOver A.abbreviations runs.old (document.now.doc.0, document.now.tree.root) }
    ensures elements { IfOk result (λ found. map (element_of document.now.tree.root) found.items
        ≡ planned_in J.says A.abbreviations path.now (plain document.now.tree.root)) }
    ensures there { IfOk result (λ found. All (IsElement document.now.tree.root) found.items) }
    ensures runs { runs.new ≡ runs.old }
    ensures moves { moves.old ≤ moves.new }
    ensures price { has_cheap_plans path.now ≡ true
        → moves.new ≤ moves.old + planned_price J.says A.abbreviations path.now runs.old (plain document.now.tree.root) }
{
    look_up(runs, document.doc());
    select_with::<J, Brand, M>(judge, document, path, runs, moves)
}

/// The same, where proofs know what the test is lent.
fn select_with<J: Judge, B: Loan, M: Ledger>(
    judge: &J,
    document: &Loaded,
    path: &PlannedPath<'_>,
    runs: &mut [Run<'_>],
    moves: &mut Steps<M>,
) -> Result<Vec<NodeRef>, Memory>
    requires plans { HasItsPlans path.now }
    requires runs { AreRunsOf path.now runs.old }
    requires over { AreOver B.abbreviations runs.old (document.now.doc.0, document.now.tree.root) }
    requires lent_runs { runs.old ≡ B.runs }
    requires lent_moves { moves.old ≡ B.moves }
    ensures elements { IfOk result (λ found. map (element_of document.now.tree.root) found.items
        ≡ planned_in J.says B.abbreviations path.now (plain document.now.tree.root)) }
    ensures there { IfOk result (λ found. All (IsElement document.now.tree.root) found.items) }
    ensures runs { runs.new ≡ runs.old }
    ensures moves { moves.old ≤ moves.new }
    ensures price { has_cheap_plans path.now ≡ true
        → moves.new ≤ moves.old + planned_price J.says B.abbreviations path.now runs.old (plain document.now.tree.root) }
{
    node_law();
    // The root is an element, as the clauses of `root` say.
    let tree = document.tree();
    let _root = tree.root();
    let mut left = None;
    let mut test = SelectionTest::<'_, '_, '_, '_, '_, '_, J, B, M> {
        alloc: path.alloc,
        judge,
        doc: document.doc(),
        tree,
        runs,
        moves,
        left: &mut left,
        loan: PhantomData,
    };
    nodes_without(path.alloc, path.steps, tree, &mut test)
}
