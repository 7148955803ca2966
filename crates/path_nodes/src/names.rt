ghost use Rattle.std.specs.Prelude.{◌≡◌, ℕ, All, IfOk, List, filter, map};
ghost use Rattle.path_grammar.specs.declared.path.NameTest.TheVariants as tests;
ghost use Rattle.path_meaning.specs.Meaning as meaning;
ghost use Rattle.path_nodes.specs.References.{IsElement, element_of};
ghost use Rattle.path_nodes.specs.steps.Found.{ReferTo};

use crate::Nodes;
use crate::kept::push_if;
use ft_base::Memory;
use ordered_tree::{DocTree, ElementName, NodeRef};
use path_grammar::NameTest;
use std::alloc::Global;
use std::marker::Model;

/// A test of names, made ready for many elements.
#[derive(Drop)]
pub(crate) struct ReadyTest<'a> {
    test: &'a NameTest,
    /// The name that is asked for, if it is one
    name: ElementName<'a>,
    ghost same: { (wanted : List ℕ) → test.now ≡ tests.Name wanted → name.name.now ≡ wanted },
}

impl<'a> Model for ReadyTest<'a> {
    ghost use Rattle.path_grammar.specs.declared.path.NameTest.{NameTest};

    ghost Value = { NameTest };

    ghost view = { λ ready. ready.test.now };
}

impl<'a> ReadyTest<'a> {
    /// The test, made ready.
    pub(crate) fn of(test: &'a NameTest) -> ReadyTest<'a>
        ensures { result ≡ test.now }
    {
        let name = match test {
            NameTest::Any => "",
            NameTest::Name(wanted) => wanted.as_str(),
        };
        ReadyTest {
            test,
            name: ElementName::new(name),
        }
    }
}

/// Whether the element passes the test of names.
pub(crate) fn is_named(tree: &DocTree, test: &ReadyTest<'_>, node: NodeRef) -> bool
    requires { IsElement tree.now.root node }
    ensures { result ≡ meaning.is_named test.now (element_of tree.now.root node).node }
{
    match test.test {
        NameTest::Any => true,
        NameTest::Name(_) => tree.is_named(node, &test.name),
    }
}

/// The elements that pass the test of names.
pub(crate) fn named(
    alloc: Global,
    tree: &DocTree,
    test: &ReadyTest<'_>,
    items: &Nodes,
) -> Result<Nodes, Memory>
    requires { All (IsElement tree.now.root) items.now }
    ensures { IfOk result (ReferTo tree.now.root (filter (λ e. meaning.is_named test.now e.node) (map (element_of tree.now.root) items.now))) }
{
    let mut kept = Nodes::new(alloc);
    for item in items.as_slice() {
        push_if(is_named(tree, test, *item), *item, &mut kept)?;
    }
    Ok(kept)
}
