use crate::{HoleTest, Nodes, TextTest};
use ft_base::Memory;
use ordered_tree::NodeRef;

/// A test as one that takes no holes: paths that ask for no text without content never give it any.
#[derive(Drop)]
pub(crate) struct WithoutHoles<'t, T: TextTest> {
    pub(crate) test: &'t mut T,
}

impl<'t, T: TextTest> TextTest for WithoutHoles<'t, T> {
    ghost use Rattle.path_nodes.specs.steps.Lent.{lent_too};

    ghost meaning = { λ alone. lent_too alone.test.ghost_name (T.meaning alone.test.now) };

    ghost cost = { λ alone. T.cost alone.test.now };

    fn contains(&mut self, selection: usize, node: NodeRef) -> Result<bool, Memory> {
        self.test.contains(selection, node)
    }

    fn skip_to(&self, selection: usize, from: u32) -> u32 {
        self.test.skip_to(selection, from)
    }
}

impl<'t, T: TextTest> HoleTest for WithoutHoles<'t, T> {
    ghost use Rattle.std.specs.Prelude.{false};

    ghost takes_holes = { false };

    fn contains_without(
        &mut self,
        selection: usize,
        node: NodeRef,
        holes: &Nodes,
    ) -> Result<bool, Memory> {
        if !holes.is_empty() {
            unreachable!();
        }
        self.test.contains(selection, node)
    }
}
