//! What is left of the text of an element without those that are ignored: a view of the index, of which the judge is asked.

ghost use Rattle.std.specs.Prelude.{◌≡◌, ◌≤◌, ◌<◌, ◌+◌, All, IfOk, IfSome, None, Some, map, true};
ghost use Rattle.ignore_view.specs.Holes.{tokens_without, whole_document};
ghost use Rattle.index_meaning.specs.Documents.{document_at, has_document, token_count};
ghost use Rattle.index_phrases.specs.Tokens.{span_tokens};
ghost use Rattle.index_updates.specs.Follows.{Follows};
ghost use Rattle.session_state.specs.SelectionTests.{is_there, span_at, IsKept, IsLeft};

use crate::asked_runs::Loan;
use crate::node_laws::{left_law, node_law, span_law};
use ft_base::{DocId, Memory, Span, Steps};
use ignore_view::{Holes, view_without};
use index_versions::Version;
use ordered_tree::{DocTree, NodeRef};
use path_nodes::Nodes;
use plan_runs::{Judge, Run};
use std::alloc::Global;
use std::mem::drop;
use std::sync::ledger::{Blank, Ledger};

/// What is left of a node of a document without the holes, as a view of the index.
#[derive(Drop)]
pub(crate) struct LeftView {
    pub(crate) node: NodeRef,
    pub(crate) holes: Nodes,
    pub(crate) view: Version,
}

/// What is left of a node of a document without the holes: what is kept, if it is that, and else made anew. After that nothing is kept. Its rows have
/// a count of their own.
pub(crate) fn left_without<B: Loan, L: Ledger>(
    alloc: Global,
    version: &Version,
    doc: DocId,
    tree: &DocTree,
    kept: &mut Option<LeftView>,
    node: NodeRef,
    holes: &Nodes,
    blank: Blank,
) -> Result<LeftView, Memory>
    requires name { blank.name ≡ L.name }
    requires parts { blank.parts ≡ L.parts }
    requires whole { 0 < blank.parts }
    requires follows { Follows B.abbreviations version.now doc.0 tree.now.root }
    requires node { is_there tree.now.root node ≡ true }
    requires holes { All (λ hole. is_there tree.now.root hole ≡ true) holes.now }
    requires kept { IsKept B.abbreviations doc.0 tree.now.root kept.old }
    ensures of { IfOk result (λ left. (left.node ≡ node) × (left.holes ≡ holes.now)) }
    ensures left { IfOk result (IsLeft B.abbreviations doc.0 tree.now.root) }
    ensures none { kept.new ≡ None }
{
    if let Some(left) = kept_left(kept, node, holes) {
        return Ok(left);
    }
    node_law();
    span_law();
    left_law();
    let part = tree.span_of(node);
    let spans = spans_of(alloc, tree, holes)?;
    let holes = Nodes::from_slice(alloc, holes.as_slice())?;
    let view = left_of::<L>(alloc, version, doc, part, &spans, blank)?;
    Ok(LeftView { node, holes, view })
}

/// What is kept, if it is of that node without those holes. After that nothing is kept.
fn kept_left(kept: &mut Option<LeftView>, node: NodeRef, holes: &Nodes) -> Option<LeftView>
    ensures none { kept.new ≡ None }
    ensures kept { IfSome result (λ left. kept.old ≡ Some left) }
    ensures of { IfSome result (λ left. (left.node ≡ node) × (left.holes ≡ holes.now)) }
{
    match kept.take() {
        Some(left) => when_of(left, node, holes),
        None => None,
    }
}

/// What is left, if it is of that node without those holes.
fn when_of(left: LeftView, node: NodeRef, holes: &Nodes) -> Option<LeftView>
    ensures same { IfSome result (λ same. same ≡ left) }
    ensures of { IfSome result (λ same. (same.node ≡ node) × (same.holes ≡ holes.now)) }
{
    if left.node == node && are_same(left.holes.as_slice(), holes.as_slice()) {
        Some(left)
    } else {
        drop(left);
        None
    }
}

/// Whether two lists name the same nodes, in the same order.
fn are_same(nodes: &[NodeRef], others: &[NodeRef]) -> bool
    ensures { result ≡ true → nodes.now ≡ others.now }
{
    nodes == others
}

/// The spans of nodes, in their order.
fn spans_of(alloc: Global, tree: &DocTree, nodes: &Nodes) -> Result<Holes, Memory>
    requires { All (λ node. is_there tree.now.root node ≡ true) nodes.now }
    ensures { IfOk result (λ spans. spans ≡ map (span_at tree.now.root) nodes.now) }
{
    node_law();
    let mut spans = Holes::new(alloc);
    for node in nodes.as_slice() {
        spans.push(tree.span_of(*node))?;
    }
    Ok(spans)
}

/// What is left of a span of the document without the holes, as a view of the index that has it as its only document. Its rows have a count of
/// their own.
fn left_of<L: Ledger>(
    alloc: Global,
    version: &Version,
    doc: DocId,
    span: Span,
    holes: &Holes,
    blank: Blank,
) -> Result<Version, Memory>
    requires name { blank.name ≡ L.name }
    requires parts { blank.parts ≡ L.parts }
    requires whole { 0 < blank.parts }
    requires there { has_document doc.0 version.now ≡ true }
    requires inside { (1 ≤ span.from) × (span.from ≤ span.to) × (span.to ≤ token_count (document_at doc.0 version.now) + 1) }
    ensures there { IfOk result (λ view. has_document doc.0 view ≡ true) }
    ensures tokens { IfOk result (λ view. span_tokens (whole_document (document_at doc.0 view)) (document_at doc.0 view)
        ≡ tokens_without span holes.now (document_at doc.0 version.now)) }
{
    let mut rows = Steps::<L>::new(blank);
    view_without(alloc, version, doc, span, holes, &mut rows)
}

/// Whether what is left satisfies the selection of the run, as the judge says: it is asked with a run of the same plan over the view. The
/// moves of its cursors have a count of their own.
pub(crate) fn judge_left<J: Judge, L: Ledger>(
    alloc: Global,
    judge: &J,
    run: &Run<'_>,
    doc: DocId,
    view: &Version,
    blank: Blank,
) -> Result<bool, Memory>
    requires name { blank.name ≡ L.name }
    requires parts { blank.parts ≡ L.parts }
    requires whole { 0 < blank.parts }
    requires there { has_document doc.0 view.now ≡ true }
    ensures { IfOk result (λ is. is ≡ J.says run.now.form run.now.lists
        (span_tokens (whole_document (document_at doc.0 view.now)) (document_at doc.0 view.now))) }
{
    let Some(end) = view.token_count(doc).checked_add(1) else {
        return Err(Memory);
    };
    let mut moves = Steps::<L>::new(blank);
    let whole = Span { from: 1, to: end };
    let mut over = run.open_over(alloc, view)?;
    let judged = judge.judge(&mut over, doc, whole, &mut moves);
    drop(over);
    Ok(judged)
}
