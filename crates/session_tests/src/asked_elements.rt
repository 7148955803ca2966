// How often a test of text is asked on the way to elements, and where it isn't asked since all of them may be skipped.
ghost use Rattle.std.specs.Prelude.{◌≡◌, All, IfOk, true};
ghost use Rattle.ordered_tree.specs.Numbered.{is_element};
ghost use Rattle.path_nodes.specs.References.{IsElement};

use crate::elements::{LETTERS, NESTED};
use doc_profile::read_doc;
use ft_base::Memory;
use ordered_tree::{DocTree, NodeRef, load_doc};
use path_nodes::{HoleTest, Nodes, TextTest, nodes, nodes_without};
use path_subset::{ReadPath, read_path};
use session_state::node_laws::node_law;
use std::alloc::Global;
use std::process::Abort;
use std::test::Fail;
use word_lists::KeySet;

/// A test of the nodes of a document that is true of those of these numbers, except for the selections that no node satisfies, for which
/// all may be skipped, and except for nodes that are ignored themselves. It counts how often it is asked; each time costs 1.
#[derive(Drop)]
pub(crate) struct Judge<'t> {
    pub(crate) tree: &'t DocTree,
    pub(crate) nodes: &'static [u32],
    pub(crate) unsatisfied: &'static [usize],
    pub(crate) asked: usize,
}

impl<'t> TextTest for Judge<'t> {
    ghost use Rattle.std.specs.Prelude.{◌==◌, ◌&&◌, not, [], true};
    ghost use Rattle.std.specs.List.{list_any};
    ghost use Rattle.session_state.specs.SelectionTests.{span_at};

    ghost meaning = { λ test. record {
      may_ask = λ selection r. true;
      says = λ selection ignored r. not (list_any (λ hole. hole.0 == r.0) ignored)
          && (not (list_any (λ n. n == selection) test.unsatisfied.now) && list_any (λ n. n == r.0) test.nodes.now);
      price = λ selection r. 1;
      span = span_at test.tree.now.root;
      lent = [];
    } };

    ghost cost = { λ test. test.asked };

    fn contains(&mut self, selection: usize, node: NodeRef) -> Result<bool, Memory> {
        self.asked = self.asked.saturating_add(1);
        Ok(!self.unsatisfied.contains(&selection) && self.nodes.contains(&node.0))
    }

    fn skip_to(&self, selection: usize, _from: u32) -> u32 {
        if self.unsatisfied.contains(&selection) {
            u32::MAX
        } else {
            0
        }
    }
}

impl<'t> HoleTest for Judge<'t> {
    ghost use Rattle.std.specs.Prelude.{true};

    ghost takes_holes = { true };

    fn contains_without(
        &mut self,
        selection: usize,
        node: NodeRef,
        holes: &Nodes,
    ) -> Result<bool, Memory> {
        let is = self.contains(selection, node)?;
        Ok(!holes.as_slice().contains(&node) && is)
    }
}

/// The tree of the document that the text spells.
pub(crate) fn tree_of(alloc: Global, text: &str) -> Result<DocTree, Fail>
    ensures { IfOk result (λ tree. is_element tree.root ≡ true) }
{
    let Ok(doc) = read_doc(alloc, text.as_bytes()) else {
        return Err(Fail::from("no document"));
    };
    let _root = doc.root();
    let Ok(read) = load_doc(alloc, doc, &KeySet::empty(alloc)) else {
        return Err(Fail::from("too many tokens"));
    };
    Ok(read.tree)
}

/// The elements of the test's document to which the steps of a path lead, whatever it begins with.
pub(crate) fn led(alloc: Global, path: &str, test: &mut Judge<'_>) -> Result<Vec<NodeRef>, Fail>
    requires { is_element test.old.tree.now.root ≡ true }
    ensures { IfOk result (λ found. All (IsElement test.old.tree.now.root) found.items) }
{
    match read_path(alloc, path) {
        Ok(path) => Ok(led_by(alloc, &path, test)?),
        Err(_) => Err(Fail::from("no path")),
    }
}

/// The same of a path that was read, by the call for paths of its kind.
fn led_by(alloc: Global, path: &ReadPath, test: &mut Judge<'_>) -> Result<Vec<NodeRef>, Memory>
    requires { is_element test.old.tree.now.root ≡ true }
    ensures { IfOk result (λ found. All (IsElement test.old.tree.now.root) found.items) }
{
    node_law();
    let tree = test.tree;
    let steps = path.steps();
    if path.has_without() {
        return nodes_without(alloc, steps, tree, test);
    }
    nodes(alloc, steps, tree, test)
}

/// A document, a path, the nodes of which the test of text is true, the nodes to which the path leads, and how often the test is asked.
type Judged = (
    &'static str,
    &'static str,
    &'static [u32],
    &'static [u32],
    usize,
);

/// The selections that no node satisfies, and the rest of the row.
type RuledOut = (&'static [usize], Judged);

fn expect_asked(rt: &impl Abort, alloc: Global, row: &RuledOut) -> Result<(), Fail> {
    let (unsatisfied, (document, path, true_of, wanted, asked)) = row;
    let tree = tree_of(alloc, document)?;
    let mut test = Judge {
        tree: &tree,
        nodes: *true_of,
        unsatisfied: *unsatisfied,
        asked: 0,
    };
    let found = led(alloc, path, &mut test)?;
    assert!(rt;
        found.iter().map(|node| node.0).eq(wanted.iter().copied()),
        "{path}"
    );
    assert!(rt; test.asked == *asked, "{path}");
    Ok(())
}

const THREE: &str = "<r><a><a><a><b/></a></a></a></r>";

const ASKED: [Judged; 6] = [
    (
        LETTERS,
        "collection()//b[. contains text \"s\"][2]",
        &[1, 6],
        &[],
        3,
    ),
    (
        LETTERS,
        "collection()//b[. contains text \"s\"][1]",
        &[3, 6],
        &[3, 6],
        3,
    ),
    (
        LETTERS,
        "collection()/a[b contains text \"s\" and not(@k)]",
        &[1, 3],
        &[0],
        1,
    ),
    (
        NESTED,
        "collection()//a//b[. contains text \"s\"]",
        &[4, 10],
        &[4, 10],
        5,
    ),
    // the predicate inside is asked once for the third `a`, which is below the first and the second
    (
        THREE,
        "collection()//a[.//a[.//b contains text \"s\"]]",
        &[],
        &[],
        2,
    ),
    (
        THREE,
        "collection()//a[.//a[.//b contains text \"s\"]]",
        &[4],
        &[1, 2],
        2,
    ),
];

#[test]
fn a_test_is_asked_once_and_until_the_truth_is_known(rt: HostRuntime) -> Result<(), Fail> {
    for row in ASKED {
        expect_asked(&rt, rt.alloc(), &(&[], row))?;
    }
    Ok(())
}

const RULED_OUT: [RuledOut; 14] = [
    (
        &[0],
        (
            LETTERS,
            "collection()//b[. contains text \"s\"]",
            &[1],
            &[],
            0,
        ),
    ),
    // another selection isn't ruled out
    (
        &[1],
        (
            LETTERS,
            "collection()//b[. contains text \"s\"]",
            &[1],
            &[1],
            3,
        ),
    ),
    // one of two is enough where `and` joins them, and isn't where `or` does
    (
        &[1],
        (
            LETTERS,
            "collection()//b[. contains text \"s\" and . contains text \"t\"]",
            &[1],
            &[],
            0,
        ),
    ),
    (
        &[0],
        (
            LETTERS,
            "collection()//b[. contains text \"s\" or . contains text \"t\"]",
            &[1],
            &[1],
            6,
        ),
    ),
    (
        &[0, 1],
        (
            LETTERS,
            "collection()//b[. contains text \"s\" or . contains text \"t\"]",
            &[1],
            &[],
            0,
        ),
    ),
    (
        &[0],
        (
            LETTERS,
            "collection()//b[. contains text \"s\" or @k]",
            &[1],
            &[],
            3,
        ),
    ),
    // what is false of each element is true where `not` turns it
    (
        &[0],
        (
            LETTERS,
            "collection()//b[not(. contains text \"s\")]",
            &[1],
            &[1, 3, 6],
            3,
        ),
    ),
    (
        &[0],
        (
            LETTERS,
            "collection()/a[not(b[. contains text \"s\"])]",
            &[1],
            &[0],
            0,
        ),
    ),
    // steps that aren't the last
    (
        &[0],
        (
            LETTERS,
            "collection()//c[. contains text \"s\"]/b",
            &[5],
            &[],
            0,
        ),
    ),
    // a predicate after others
    (
        &[0],
        (
            LETTERS,
            "collection()//b[1][. contains text \"s\"]",
            &[1],
            &[],
            0,
        ),
    ),
    // steps inside a predicate
    (
        &[0],
        (
            LETTERS,
            "collection()/a[c/b contains text \"s\"]",
            &[6],
            &[],
            0,
        ),
    ),
    (
        &[0],
        (
            LETTERS,
            "collection()/a[c/b[. contains text \"s\"]]",
            &[6],
            &[],
            0,
        ),
    ),
    (
        &[0],
        (
            LETTERS,
            "collection()/a[c[b contains text \"s\"]/b contains text \"t\"]",
            &[6],
            &[],
            0,
        ),
    ),
    // where the document has nothing for which the test could be asked
    (
        &[],
        (
            LETTERS,
            "collection()//nothing[. contains text \"s\"]",
            &[1],
            &[],
            0,
        ),
    ),
];

#[test]
fn nothing_is_asked_where_a_predicate_is_ruled_out(rt: HostRuntime) -> Result<(), Fail> {
    for row in RULED_OUT {
        expect_asked(&rt, rt.alloc(), &row)?;
    }
    Ok(())
}
