//! The evaluation of a path's steps over a tree: what it is about, and what is known so far.

ghost use Rattle.std.specs.Prelude.{◌≡◌, IfSome, List};
ghost use base.Stored.{Coded-set};
ghost use Rattle.ordered_tree.specs.Numbered.{Numbered};
ghost use Rattle.ordered_tree.specs.Stored.{numbered_code};
ghost use Rattle.path_grammar.specs.Form.{Condition};
ghost use Rattle.path_nodes.specs.Says.{Meaning};
ghost use Rattle.path_nodes.specs.steps.Known.{AreAsked, AreGiven, AreRight, IsTruth};

use crate::HoleTest;
use ft_base::Memory;
use ordered_tree::{DocTree, NodeRef};
use std::alloc::Global;
use std::collections::HashMap;
use std::marker::{Brand, PhantomData};

/// What an evaluation is about: a document, what the test means, and the conditions of the path that lead somewhere. Proofs alone see it.
pub(crate) trait Ground {
    ghost root: { Numbered };

    ghost meaning: { Meaning };

    ghost conditions: { List Condition };
}

impl Ground for Brand {
    ghost use Rattle.std.specs.Prelude.{[], false};
    ghost use Rattle.ordered_tree.specs.Numbered.{text_at};

    ghost root = { text_at (record { 0 = 0 }) [] };

    ghost meaning = { record {
      may_ask = λ k r. false;
      says = λ k holes r. false;
      price = λ k r. 0;
      span = λ r. record { from = 0; to = 0 };
      lent = [];
    } };

    ghost conditions = { [] };
}

/// Truths of conditions, by the condition's number and the node's.
pub(crate) type Truths = HashMap<(usize, u32), bool>;

/// The evaluation of a path's steps over a tree, where a test answers `contains text`. After an answer for want of memory it is given up.
#[derive(Drop)]
pub(crate) struct Evaluation<'d, 't, 'k, T: HoleTest, G: Ground> {
    /// Where memory comes from
    pub(crate) alloc: Global,
    pub(crate) tree: &'d DocTree,
    pub(crate) test: &'t mut T,
    /// What is known of the conditions that lead somewhere
    pub(crate) truths: &'k mut Truths,
    /// Whether the steps that lead somewhere now are those of a predicate
    pub(crate) inside: bool,
    pub(crate) ground: PhantomData<G>,
    ghost root: { tree.now.root ≡ G.root } by { Coded-set numbered_code tree.now.root G.root },
    ghost meaning: { T.meaning test.now ≡ G.meaning },
    ghost asked: { AreAsked G.root G.meaning G.conditions },
    ghost given: { AreGiven T.takes_holes G.conditions },
    ghost right: { AreRight G.root G.meaning G.conditions truths.now },
}

impl<'d, 't, 'k, T: HoleTest, G: Ground> Evaluation<'d, 't, 'k, T, G> {
    /// The truth of the condition of this number for the element, where it is known.
    pub(crate) fn truth(&self, number: usize, element: NodeRef) -> Option<bool>
        ensures { IfSome result (IsTruth G.root G.meaning G.conditions number element) }
    {
        self.truths.get(&(number, element.0)).copied()
    }

    /// Keeps the truth of the condition of this number for the element, where the condition is in the steps of a predicate: such a one is
    /// worked out once for an element. The others are asked of an element once anyway.
    pub(crate) fn keep(
        &mut self,
        number: usize,
        element: NodeRef,
        truth: bool,
    ) -> Result<(), Memory>
        requires { IsTruth G.root G.meaning G.conditions number element truth }
        ensures { self.new.test ≡ self.old.test }
    {
        if !self.inside {
            return Ok(());
        }
        self.truths.insert((number, element.0), truth)?;
        Ok(())
    }
}
