//! What `contains text` says of the elements of a document.

ghost use Rattle.std.specs.Prelude.{◌≡◌, ◌≤◌, ℕ, List};
ghost use Rattle.plan_runs.specs.RunMeaning.{RunMeaning};
ghost use Rattle.session_state.specs.SelectionTests.{AreOver, IsKept};

use crate::node_laws::{left_law, node_law, span_law};
use crate::text_left::{LeftView, judge_left, left_without};
use ft_base::{DocId, Memory, Steps};
use ordered_tree::{DocTree, NodeRef};
use path_nodes::{HoleTest, Nodes, TextTest};
use plan_runs::{Judge, Run};
use std::alloc::Global;
use std::marker::{Brand, PhantomData};
use std::mem::drop;
use std::sync::ledger::{Blank, Ledger};

/// The abbreviations under which elements are asked. The index keeps where their sentences end, so that proofs alone see them.
pub(crate) trait Abbreviated {
    ghost abbreviations: { List (List ℕ) };
}

impl Abbreviated for Brand {
    ghost use Rattle.std.specs.Prelude.{[]};

    ghost abbreviations = { [] };
}

/// What a test is lent: the runs, as they stay, and where the count of steps stands at first; and the abbreviations under which it is
/// asked. Proofs alone see it.
pub(crate) trait Loan {
    ghost abbreviations: { List (List ℕ) };

    ghost runs: { List RunMeaning };

    ghost moves: { ℕ };
}

impl Loan for Brand {
    ghost use Rattle.std.specs.Prelude.{[]};

    ghost abbreviations = { [] };

    ghost runs = { [] };

    ghost moves = { 0 };
}

/// Asks a judge, with the runs of a path's selections, each by its number, of the nodes of a document.
#[derive(Drop)]
pub(crate) struct SelectionTest<'j, 't, 'r, 'v, 'm, 'k, J: Judge, B: Loan, M: Ledger> {
    pub(crate) alloc: Global,
    pub(crate) judge: &'j J,
    /// The document's number in the version of the runs
    pub(crate) doc: DocId,
    pub(crate) tree: &'t DocTree,
    pub(crate) runs: &'r mut [Run<'v>],
    pub(crate) moves: &'m mut Steps<M>,
    /// What is left of the node that was asked without others last
    pub(crate) left: &'k mut Option<LeftView>,
    pub(crate) loan: PhantomData<B>,
    ghost over: { AreOver B.abbreviations B.runs (doc.0, tree.now.root) },
    ghost same: { runs.now ≡ B.runs },
    ghost shifted: { B.moves ≤ moves.now },
    ghost kept: { IsKept B.abbreviations doc.0 tree.now.root left.now },
}

impl<'j, 't, 'r, 'v, 'm, 'k, J: Judge, B: Loan, M: Ledger> TextTest
    for SelectionTest<'j, 't, 'r, 'v, 'm, 'k, J, B, M> {
    ghost use Rattle.session_state.specs.SelectionTests.{asked_of, where_cheap};

    ghost meaning = { λ test. asked_of J.says B.abbreviations B.runs test.tree.now.root test.runs.ghost_name test.moves.ghost_name };

    ghost cost = { λ test. where_cheap B.runs test.moves.now };

    fn contains(&mut self, selection: usize, node: NodeRef) -> Result<bool, Memory> {
        node_law();
        span_law();
        left_law();
        let span = self.tree.span_of(node);
        let runs = &mut *self.runs;
        let run = &mut runs[selection];
        Ok(self.judge.judge(run, self.doc, span, self.moves))
    }

    fn skip_to(&self, selection: usize, from: u32) -> u32 {
        span_law();
        left_law();
        let runs = &*self.runs;
        if selection >= runs.len() {
            return 0;
        }
        self.judge.skip_to(&runs[selection], self.doc, from)
    }
}

impl<'j, 't, 'r, 'v, 'm, 'k, J: Judge, B: Loan, M: Ledger> HoleTest
    for SelectionTest<'j, 't, 'r, 'v, 'm, 'k, J, B, M> {
    ghost use Rattle.std.specs.Prelude.{true};

    ghost takes_holes = { true };

    fn contains_without(
        &mut self,
        selection: usize,
        node: NodeRef,
        holes: &Nodes,
    ) -> Result<bool, Memory> {
        if holes.is_empty() {
            return self.contains(selection, node);
        }
        node_law();
        span_law();
        left_law();
        let part = self.tree.span_of(node);
        let runs = &mut *self.runs;
        let run = &mut runs[selection];
        if self.judge.lacks(run, self.doc, part, self.moves) {
            return Ok(false);
        }
        let left = left_without::<B, Brand>(
            self.alloc,
            run.version(),
            self.doc,
            self.tree,
            self.left,
            node,
            holes,
            Blank::new(1),
        )?;
        let judged = judge_left::<J, Brand>(
            self.alloc,
            self.judge,
            run,
            self.doc,
            &left.view,
            Blank::new(1),
        );
        *self.left = Some(left);
        judged
    }
}

/// Looks the words that the runs need up in a document, so that what is asked of it finds them kept.
pub(crate) fn look_up(runs: &mut [Run<'_>], doc: DocId)
    ensures { runs.new ≡ runs.old }
{
    for number in 0..runs.len() {
        runs[number].look_up(doc);
    }
}
