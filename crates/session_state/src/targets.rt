//! The elements of which an edit is: those that its path selects, of each document.

ghost use Rattle.std.specs.Prelude.{◌≡◌, ◌≤◌, ◌+◌, ◌||◌, ◌++◌, ◌∷◌, [], All, IfOk, OnOk, length, map, true};
ghost use Rattle.std.specs.List.{list_any};
ghost use Rattle.document_store.specs.Loaded.{to_document, trees_of};
ghost use Rattle.document_edits.specs.Targets.{places_of};
ghost use Rattle.ft_base.specs.Lists.{is_empty};
ghost use Rattle.path_nodes.specs.References.{IsElement};
ghost use Rattle.session_state.specs.Edits.{has_root, leads_through as leads, target_count};
ghost use Rattle.session_state.specs.PlannedPaths.{AreRunsOf, HasItsPlans, has_cheap_plans};
ghost use Rattle.session_state.specs.SelectionTests.{AreOver, AreOverEach};
ghost use Rattle.tree_edits.specs.Edits.{is_among as among};
ghost use Rattle.session_state.specs.steps.Chosen.{planned_places, price_through, prices_through, AreLedTo, AreLedToEach};

use crate::asked_runs::Abbreviated;
use crate::planned::PlannedPath;
use crate::selected::select;
use document_edits::laws::root_place_law;
use document_store::{Documents, Loaded};
use ft_base::{Items, Line, Memory, Steps};
use ordered_tree::{NodeRef, NodeRefs};
use path_grammar::PathRoot;
use plan_runs::{Judge, Run};
use std::sync::ledger::Ledger;

/// The elements that a path selects, of each document in order, how many they are, and whether a root is among them.
#[derive(Drop)]
pub(crate) struct Chosen {
    pub(crate) refs: Items<NodeRefs>,
    pub(crate) count: u64,
    pub(crate) has_root: bool,
}

/// The elements that the path selects, document by document. The runs are those of its plans, over a version that follows the
/// documents.
pub(crate) fn choose<J: Judge, A: Abbreviated, M: Ledger>(
    judge: &J,
    documents: &Documents,
    path: &PlannedPath<'_>,
    runs: &mut [Run<'_>],
    moves: &mut Steps<M>,
) -> Result<Chosen, Memory>
    requires plans { HasItsPlans path.now }
    requires runs { AreRunsOf path.now runs.old }
    requires over { AreOverEach A.abbreviations runs.old (trees_of documents.now) }
    ensures refs { IfOk result (λ chosen. AreLedToEach J.says A.abbreviations path.now documents.now chosen.refs) }
    ensures count { IfOk result (λ chosen. chosen.count
        ≡ target_count (map (planned_places J.says A.abbreviations path.now) (map to_document documents.now))) }
    ensures rooted { IfOk result (λ chosen. chosen.has_root
        ≡ has_root (map (planned_places J.says A.abbreviations path.now) (map to_document documents.now))) }
    ensures moves { moves.old ≤ moves.new }
    ensures price { has_cheap_plans path.now ≡ true
        → moves.new ≤ moves.old + prices_through J.says A.abbreviations path.now runs.old (map to_document documents.now) }
{
    let mut chosen = Chosen {
        refs: Items::new(path.alloc),
        count: 0,
        has_root: false,
    };
    for (name, document) in documents.iter() {
        let found = choose_in::<J, A, M>(judge, name, document, path, runs, moves)?;
        chosen.add(document, found)?;
    }
    Ok(chosen)
}

/// The elements of one document that the path selects; there are none where it doesn't lead through the document.
fn choose_in<J: Judge, A: Abbreviated, M: Ledger>(
    judge: &J,
    name: &Line,
    document: &Loaded,
    path: &PlannedPath<'_>,
    runs: &mut [Run<'_>],
    moves: &mut Steps<M>,
) -> Result<NodeRefs, Memory>
    requires plans { HasItsPlans path.now }
    requires runs { AreRunsOf path.now runs.old }
    requires over { AreOver A.abbreviations runs.old (document.now.doc.0, document.now.tree.root) }
    ensures led { IfOk result (AreLedTo J.says A.abbreviations path.now (name.now, document.now)) }
    ensures runs { runs.new ≡ runs.old }
    ensures moves { moves.old ≤ moves.new }
    ensures price { has_cheap_plans path.now ≡ true
        → moves.new ≤ moves.old + price_through J.says A.abbreviations path.now runs.old (to_document (name.now, document.now)) }
{
    if !leads_through(path.root, name) {
        return Ok(Items::new(path.alloc));
    }
    let found = select::<J, A, M>(judge, document, path, runs, moves)?;
    Ok(Items::from_vec(found))
}

/// Whether a path goes through the document of the name.
pub(crate) fn leads_through(root: &PathRoot, name: &Line) -> bool
    ensures { result ≡ leads root.now name.now }
{
    match root {
        PathRoot::Collection => true,
        PathRoot::Doc(asked) => asked.as_str() == name.as_str(),
    }
}

impl Chosen {
    /// Puts the elements of one more document after the others. Where they are more than 64 bits count, no memory has them.
    fn add(&mut self, document: &Loaded, found: NodeRefs) -> Result<(), Memory>
        requires { All (IsElement document.now.tree.root) found }
        ensures refs { OnOk result (self.new.refs ≡ self.old.refs ++ found ∷ []) }
        ensures count { OnOk result (self.new.count ≡ self.old.count + length found) }
        ensures rooted { OnOk result (self.new.has_root ≡ (list_any is_empty (places_of document.now.tree.root found) || self.old.has_root)) }
    {
        let Some(count) = self.count.checked_add(found.len() as u64) else {
            return Err(Memory);
        };
        self.has_root = has_the_root(document, &found) || self.has_root;
        self.count = count;
        self.refs.push(found)
    }
}

/// Whether the root is among elements of its document.
fn has_the_root(document: &Loaded, refs: &NodeRefs) -> bool
    requires { All (IsElement document.now.tree.root) refs.now }
    ensures { result ≡ list_any is_empty (places_of document.now.tree.root refs.now) }
{
    root_place_law();
    is_among(refs, document.tree().root())
}

/// Whether a reference is among these.
fn is_among(refs: &NodeRefs, node: NodeRef) -> bool
    ensures { result ≡ among refs.now node }
{
    refs.as_slice().iter().any(|other| other.0 == node.0)
}
