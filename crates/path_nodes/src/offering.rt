//! The elements that pass a step's test of names, one after the other, so that each is asked before the next one is looked for: what the
//! test knows by then tells what can be left out.

ghost use Rattle.std.specs.Prelude.{◌≡◌, ◌<◌, ◌+◌, ◌∷◌, [], ◌++◌, All, IfNone, IfOk, IfSome, OnOk, false, filter, flat_map, if◌then◌else◌, map};
ghost use Rattle.path_grammar.specs.Form as form;
ghost use Rattle.path_grammar.specs.View as view;
ghost use Rattle.path_meaning.specs.Elements.{element_children};
ghost use Rattle.path_meaning.specs.Meaning as meaning;
ghost use Rattle.path_nodes.specs.Asked.{OfPredicates, MayAsk};
ghost use Rattle.path_nodes.specs.steps.Kept.{offered, offered_from, some_number};
ghost use Rattle.path_nodes.specs.steps.Offered.{IsStop, itself, offered_at, to_come};
ghost use Rattle.path_nodes.specs.steps.RuledOut.{KeepNothing, Suffice};
ghost use Rattle.path_nodes.specs.steps.Weights.{weight, weight_at, weights_at};
ghost use Rattle.path_nodes.specs.References.{IsElement, element_of};

use crate::children::element_children;
use crate::names::{ReadyTest, is_named};
use crate::skipping::{Stretch, is_skipped};
use crate::{Nodes, TextTest};
use ft_base::Memory;
use ordered_tree::{DocTree, NodeRef};
use path_grammar::Step;
use std::alloc::Global;

/// Where a walk stops: at an element that is offered, or at a context, which offers what is below it.
#[derive(Clone, Copy)]
pub(crate) struct Stop {
    pub(crate) node: NodeRef,
    pub(crate) context: bool,
}

/// A walk over the elements that a step offers: the children of contexts or, where the step is deep, all elements below them, in document
/// order those of each context.
#[derive(Drop)]
pub(crate) struct Offering {
    alloc: Global,
    /// Where to stop, at the last one first
    pub(crate) left: Vec<Stop>,
    /// What was skipped last
    pub(crate) stretch: Stretch,
}

impl Offering {
    /// The walk over what the contexts offer.
    pub(crate) fn over(
        alloc: Global,
        tree: &DocTree,
        deep: bool,
        contexts: &Nodes,
    ) -> Result<Offering, Memory>
        requires contexts { All (IsElement tree.now.root) contexts.now }
        ensures offers { IfOk result (λ offering. to_come tree.now.root deep offering.left.items
            ≡ flat_map (offered deep) (map (element_of tree.now.root) contexts.now)) }
        ensures there { IfOk result (λ offering. All (IsStop tree.now.root) offering.left.items) }
        ensures stretch { IfOk result (λ offering. offering.stretch.to ≡ 0) }
    {
        let _root = tree.root();
        let mut nodes = Vec::from_slice(alloc, contexts.as_slice())?;
        let mut left = Vec::new(alloc);
        while let Some(node) = nodes.pop() {
            left.push(Stop {
                node,
                context: true,
            })?;
        }
        Ok(Offering {
            alloc,
            left,
            stretch: Stretch::new(),
        })
    }

    /// The next element that passes the test of names, but for those that the predicates of the step are known to keep none of.
    pub(crate) fn next<T: TextTest>(
        &mut self,
        tree: &DocTree,
        step: &Step,
        name: &ReadyTest<'_>,
        test: &T,
    ) -> Result<Option<NodeRef>, Memory>
        requires left { All (IsStop tree.now.root) self.old.left.items }
        requires no_number { some_number (form.predicates (map view.predicate step.now.predicates)) ≡ false }
        requires asked { OfPredicates (MayAsk tree.now.root (T.meaning test.now)) (form.predicates (map view.predicate step.now.predicates)) }
        requires stretch { KeepNothing tree.now.root (T.meaning test.now) self.old.stretch.from self.old.stretch.to
            (form.predicates (map view.predicate step.now.predicates)) }
        ensures some { IfOk result (λ next. IfSome next (λ here. Suffice tree.now.root (T.meaning test.now)
            (form.predicates (map view.predicate step.now.predicates))
            (element_of tree.now.root here ∷ filter (λ e. meaning.is_named name.now e.node) (to_come tree.now.root step.now.deep self.new.left.items))
            (filter (λ e. meaning.is_named name.now e.node) (to_come tree.now.root step.now.deep self.old.left.items)))) }
        ensures none { IfOk result (λ next. IfNone next (Suffice tree.now.root (T.meaning test.now)
            (form.predicates (map view.predicate step.now.predicates)) []
            (filter (λ e. meaning.is_named name.now e.node) (to_come tree.now.root step.now.deep self.old.left.items)))) }
        ensures there { IfOk result (λ next. IfSome next (IsElement tree.now.root)) }
        ensures left { IfOk result (λ next. All (IsStop tree.now.root) self.new.left.items) }
        ensures fewer { IfOk result (λ next. IfSome next (λ here. weights_at tree.now.root self.new.left.items < weights_at tree.now.root self.old.left.items)) }
        ensures stretch { IfOk result (λ next. KeepNothing tree.now.root (T.meaning test.now) self.new.stretch.from self.new.stretch.to
            (form.predicates (map view.predicate step.now.predicates))) }
    {
        while let Some(stop) = self.left.pop() {
            if self.takes(tree, step, name, stop, test)? {
                return Ok(Some(stop.node));
            }
        }
        Ok(None)
    }

    /// Goes past a stop that was taken from those that are left. Whether its element is the next one.
    fn takes<T: TextTest>(
        &mut self,
        tree: &DocTree,
        step: &Step,
        name: &ReadyTest<'_>,
        stop: Stop,
        test: &T,
    ) -> Result<bool, Memory>
        requires stop { IsStop tree.now.root stop }
        requires left { All (IsStop tree.now.root) self.old.left.items }
        requires no_number { some_number (form.predicates (map view.predicate step.now.predicates)) ≡ false }
        requires asked { OfPredicates (MayAsk tree.now.root (T.meaning test.now)) (form.predicates (map view.predicate step.now.predicates)) }
        requires stretch { KeepNothing tree.now.root (T.meaning test.now) self.old.stretch.from self.old.stretch.to
            (form.predicates (map view.predicate step.now.predicates)) }
        ensures elements { IfOk result (λ taken. Suffice tree.now.root (T.meaning test.now) (form.predicates (map view.predicate step.now.predicates))
            ((if taken then element_of tree.now.root stop.node ∷ [] else [])
            ++ filter (λ e. meaning.is_named name.now e.node) (to_come tree.now.root step.now.deep self.new.left.items))
            (filter (λ e. meaning.is_named name.now e.node)
            (offered_at tree.now.root step.now.deep stop ++ to_come tree.now.root step.now.deep self.old.left.items))) }
        ensures left { OnOk result (All (IsStop tree.now.root) self.new.left.items) }
        ensures fewer { OnOk result (weights_at tree.now.root self.new.left.items
            < weight_at tree.now.root stop + weights_at tree.now.root self.old.left.items) }
        ensures stretch { OnOk result (KeepNothing tree.now.root (T.meaning test.now) self.new.stretch.from self.new.stretch.to
            (form.predicates (map view.predicate step.now.predicates))) }
    {
        if is_skipped(tree, &step.predicates, stop.node, test, &mut self.stretch) {
            return Ok(false);
        }
        self.pass(tree, step.deep, stop)?;
        if stop.context {
            return Ok(false);
        }
        Ok(is_named(tree, name, stop.node))
    }

    /// Goes past a stop, to the children of its element where these are offered.
    fn pass(&mut self, tree: &DocTree, deep: bool, stop: Stop) -> Result<(), Memory>
        requires stop { IsStop tree.now.root stop }
        requires left { All (IsStop tree.now.root) self.old.left.items }
        ensures offers { OnOk result (itself tree.now.root stop ++ to_come tree.now.root deep self.new.left.items
            ≡ offered_at tree.now.root deep stop ++ to_come tree.now.root deep self.old.left.items) }
        ensures left { OnOk result (All (IsStop tree.now.root) self.new.left.items) }
        ensures fewer { OnOk result (weights_at tree.now.root self.new.left.items
            < weight_at tree.now.root stop + weights_at tree.now.root self.old.left.items) }
        ensures stretch { self.new.stretch ≡ self.old.stretch }
    {
        if stop.context {
            return self.enter(tree, deep, stop.node);
        }
        if deep {
            return self.enter(tree, deep, stop.node);
        }
        Ok(())
    }

    /// Goes on at the children of an element.
    fn enter(&mut self, tree: &DocTree, deep: bool, node: NodeRef) -> Result<(), Memory>
        requires node { IsElement tree.now.root node }
        requires left { All (IsStop tree.now.root) self.old.left.items }
        ensures offers { OnOk result (to_come tree.now.root deep self.new.left.items
            ≡ flat_map (offered_from deep) (element_children (element_of tree.now.root node)) ++ to_come tree.now.root deep self.old.left.items) }
        ensures left { OnOk result (All (IsStop tree.now.root) self.new.left.items) }
        ensures fewer { OnOk result (weights_at tree.now.root self.new.left.items
            < weight (element_of tree.now.root node).node + weights_at tree.now.root self.old.left.items) }
        ensures stretch { self.new.stretch ≡ self.old.stretch }
    {
        let mut children = element_children(self.alloc, tree, node)?.into_vec();
        while let Some(child) = children.pop() {
            self.left.push(Stop {
                node: child,
                context: false,
            })?;
        }
        Ok(())
    }
}
