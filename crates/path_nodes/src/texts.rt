//! What selections say of elements, and what is ignored of them.

ghost use Rattle.std.specs.Prelude.{◌≡◌, ◌≢◌, ◌+◌, ◌∷◌, [], All, IfOk, map, true};
ghost use Rattle.std.specs.List.{list_any};
ghost use Rattle.ordered_tree.specs.Numbered.{plain};
ghost use Rattle.path_grammar.specs.Form as form;
ghost use Rattle.path_grammar.specs.View as view;
ghost use Rattle.path_meaning.specs.Elements.{elements};
ghost use Rattle.path_meaning.specs.Meaning as meaning;
ghost use Rattle.path_meaning.specs.Tests.{each_tested};
ghost use Rattle.path_nodes.specs.Asked.{MayAsk};
ghost use Rattle.path_nodes.specs.Prices as price;
ghost use Rattle.path_nodes.specs.References.{IsElement, element_of};
ghost use Rattle.path_nodes.specs.Says.{satisfied};
ghost use Rattle.path_nodes.specs.steps.Found.{ReferTo, Spends};
ghost use Rattle.path_nodes.specs.steps.Known.{MayGive};
ghost use Rattle.path_nodes.specs.steps.Leading.{StandFrom, in_paths};

use crate::evaluation::{Evaluation, Ground};
use crate::leading::after_steps;
use crate::marks::{Marks, mark_found};
use crate::walks::marked_from;
use crate::{HoleTest, Nodes};
use ft_base::Memory;
use ordered_tree::NodeRef;
use path_grammar::RelativePaths;

impl<'d, 't, 'k, T: HoleTest, G: Ground> Evaluation<'d, 't, 'k, T, G> {
    /// Whether one of the elements satisfies a selection, when what paths from an item lead to is taken out of it. That is looked for where
    /// there are elements at all.
    #[cycle(evaluate)]
    pub(crate) fn some_satisfies(
        &mut self,
        selection: usize,
        paths: &RelativePaths,
        number: usize,
        item: NodeRef,
        nodes: &Nodes,
    ) -> Result<bool, Memory>
        requires item { IsElement G.root item }
        requires nodes { All (IsElement G.root) nodes.now }
        requires asked { MayAsk G.root G.meaning selection }
        requires given { MayGive T.takes_holes (form.paths (map view.relative_path paths.now)) }
        requires numbered { StandFrom G.conditions number (in_paths (form.paths (map view.relative_path paths.now))) }
        ensures truth { IfOk result (λ truth. truth
            ≡ list_any (satisfied G.root G.meaning selection (meaning.ignored (satisfied G.root G.meaning) (elements (plain G.root))
            (form.paths (map view.relative_path paths.now)) (element_of G.root item))) (map (element_of G.root) nodes.now)) }
        ensures cost { Spends T.cost self.old.test self.new.test
            (price.ignored_price G.root G.meaning (form.paths (map view.relative_path paths.now)) (element_of G.root item)
            + price.price_of G.root G.meaning (each_tested selection (map (element_of G.root) nodes.now))) }
    {
        if nodes.is_empty() {
            return Ok(false);
        }
        let holes = self.ignored(paths, number, item)?;
        let truth = self.some_contains(selection, &holes, nodes)?;
        Ok(truth)
    }

    /// What is ignored of an item: the elements to which one of the paths leads from it, in document order, each once.
    #[cycle(evaluate)]
    fn ignored(
        &mut self,
        paths: &RelativePaths,
        number: usize,
        item: NodeRef,
    ) -> Result<Nodes, Memory>
        requires item { IsElement G.root item }
        requires numbered { StandFrom G.conditions number (in_paths (form.paths (map view.relative_path paths.now))) }
        ensures elements { IfOk result (ReferTo G.root (meaning.ignored (satisfied G.root G.meaning) (elements (plain G.root))
            (form.paths (map view.relative_path paths.now)) (element_of G.root item))) }
        ensures cost { Spends T.cost self.old.test self.new.test
            (price.ignored_price G.root G.meaning (form.paths (map view.relative_path paths.now)) (element_of G.root item)) }
    {
        if paths.is_empty() {
            return Ok(Nodes::new(self.alloc));
        }
        let mut marks = Marks::new(self.alloc);
        let mut ways = Marks::new(self.alloc);
        let mut first = number;
        for path in paths.as_slice() {
            let after = after_steps(first, &path.steps)?;
            let found = self.led_from(&path.steps, first, item)?;
            mark_found(self.tree, &found, &mut marks, &mut ways)?;
            first = after;
        }
        let nodes = marked_from(self.alloc, self.tree, item, &marks, &ways)?;
        Ok(nodes)
    }

    /// Whether an element itself satisfies a selection.
    pub(crate) fn itself_contains(
        &mut self,
        selection: usize,
        item: NodeRef,
    ) -> Result<bool, Memory>
        requires item { IsElement G.root item }
        requires asked { MayAsk G.root G.meaning selection }
        ensures truth { IfOk result (λ truth. truth ≡ satisfied G.root G.meaning selection [] (element_of G.root item)) }
        ensures cost { Spends T.cost self.old.test self.new.test
            (price.price_of G.root G.meaning (each_tested selection (element_of G.root item ∷ []))) }
    {
        self.test.contains(selection, item)
    }

    /// Whether an element satisfies a selection when what the holes have is taken out of it.
    fn contains_without(
        &mut self,
        selection: usize,
        holes: &Nodes,
        item: NodeRef,
    ) -> Result<bool, Memory>
        requires item { IsElement G.root item }
        requires holes { All (IsElement G.root) holes.now }
        requires asked { MayAsk G.root G.meaning selection }
        requires given { holes.now ≢ [] → T.takes_holes ≡ true }
        ensures truth { IfOk result (λ truth. truth
            ≡ satisfied G.root G.meaning selection (map (element_of G.root) holes.now) (element_of G.root item)) }
        ensures cost { Spends T.cost self.old.test self.new.test
            (price.price_of G.root G.meaning (each_tested selection (element_of G.root item ∷ []))) }
    {
        if holes.is_empty() {
            return self.itself_contains(selection, item);
        }
        self.test.contains_without(selection, item, holes)
    }

    /// Whether one of the elements satisfies a selection when what the holes have is taken out of it; those after it aren't asked for.
    fn some_contains(
        &mut self,
        selection: usize,
        holes: &Nodes,
        nodes: &Nodes,
    ) -> Result<bool, Memory>
        requires nodes { All (IsElement G.root) nodes.now }
        requires holes { All (IsElement G.root) holes.now }
        requires asked { MayAsk G.root G.meaning selection }
        requires given { holes.now ≢ [] → T.takes_holes ≡ true }
        ensures truth { IfOk result (λ truth. truth
            ≡ list_any (satisfied G.root G.meaning selection (map (element_of G.root) holes.now)) (map (element_of G.root) nodes.now)) }
        ensures cost { Spends T.cost self.old.test self.new.test
            (price.price_of G.root G.meaning (each_tested selection (map (element_of G.root) nodes.now))) }
    {
        for node in nodes.as_slice() {
            if self.contains_without(selection, holes, *node)? {
                return Ok(true);
            }
        }
        Ok(false)
    }
}
