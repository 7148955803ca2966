// Documents as plain trees and as ordered trees: what stands round each node, its words and its place.
ghost use Rattle.std.specs.Prelude.{◌≡◌, Contains, IfOk, IfSome, true};
ghost use Rattle.ordered_tree.specs.Numbered.{is_element};
ghost use Rattle.ordered_tree.specs.Stands.{references};

use doc_profile::{print_doc, print_tree, read_doc};
use ft_base::Span;
use ordered_tree::{DocTree, LeafId, LeafWords, NodeRef, load_doc};
use plain_tree::{PlainDoc, Tree};
use std::alloc::Global;
use std::process::Abort;
use std::test::Fail;
use text_list::TextList;
use word_lists::KeySet;

/// Compares the root's name, and how many attributes and children it has.
fn expect_root(
    rt: &impl Abort,
    alloc: Global,
    document: &str,
    wanted: &str,
    attributes: usize,
    children: usize,
) -> Result<(), Fail> {
    let Ok(doc) = read_doc(alloc, document.as_bytes()) else {
        return Err(Fail::from("no document"));
    };
    match doc.root() {
        Tree::Elem { name, attrs, kids } => {
            assert!(rt; name.as_str() == wanted, "{document}");
            assert!(rt;
                attrs.len() == attributes && kids.len() == children,
                "{document}"
            );
        }
        Tree::Text { .. } => assert!(rt; false, "{document}"),
    }
    Ok(())
}

const ROOTS: [(&str, &str, usize, usize); 2] = [
    ("<a t=\"1\">x<b/></a>", "a", 1, 2),
    ("<!-- --><b></b>", "b", 0, 0),
];

#[test]
fn a_document_keeps_its_root(rt: HostRuntime) -> Result<(), Fail> {
    for (document, name, attributes, children) in ROOTS {
        expect_root(&rt, rt.alloc(), document, name, attributes, children)?;
    }
    Ok(())
}

/// The tree of the document that the text spells.
fn tree_of(alloc: Global, text: &str) -> Result<DocTree, Fail> {
    let Ok(doc) = read_doc(alloc, text.as_bytes()) else {
        return Err(Fail::from("no document"));
    };
    let Ok(read) = load_doc(alloc, doc, &KeySet::empty(alloc)) else {
        return Err(Fail::from("too many tokens"));
    };
    Ok(read.tree)
}

/// A node: its number; the name of an element; its parent, its first child and the sibling after it; the positions of its words;
/// its place; and what is printed of it.
struct Node {
    number: u32,
    name: Option<&'static str>,
    parent: Option<u32>,
    first_child: Option<u32>,
    next: Option<u32>,
    from: u32,
    to: u32,
    place: &'static [u32],
    printed: &'static str,
}

fn number(link: Option<NodeRef>) -> Option<u32> {
    match link {
        Some(node) => Some(node.0),
        None => None,
    }
}

/// Whether the node is an element of that name, or a text where there is none.
fn is_named(tree: &DocTree, node: NodeRef, name: Option<&str>) -> bool
    requires { Contains (references tree.now.root) node }
{
    match name {
        Some(name) => tree.is_element(node) && tree.name(node) == name,
        None => !tree.is_element(node),
    }
}

/// Whether what stands round the node, and its words, are these.
fn stands_so(tree: &DocTree, node: NodeRef, wanted: &Node) -> bool
    requires { Contains (references tree.now.root) node }
{
    node.0 == wanted.number
        && is_named(tree, node, wanted.name)
        && number(tree.parent(node)) == wanted.parent
        && number(tree.first_child(node)) == wanted.first_child
        && number(tree.next(node)) == wanted.next
        && tree.span_of(node)
            == Span {
                from: wanted.from,
                to: wanted.to,
            }
}

/// Whether the node's place is that, and what is printed of it.
fn is_placed(alloc: Global, tree: &DocTree, node: NodeRef, wanted: &Node) -> Result<bool, Fail>
    requires { Contains (references tree.now.root) node }
{
    let place = tree.place_of(node)?;
    let line = print_tree(alloc, &tree.to_tree(node)?)?;
    Ok(place.as_slice() == wanted.place && line.as_str() == wanted.printed)
}

/// The node after a node in document order.
fn following(tree: &DocTree, node: NodeRef) -> Option<NodeRef>
    requires { Contains (references tree.now.root) node }
    ensures { IfSome result (Contains (references tree.now.root)) }
{
    if let Some(child) = tree.first_child(node) {
        return Some(child);
    }
    let mut here = node;
    for level in 0..tree.node_count() {
        if let Some(next) = tree.next(here) {
            return Some(next);
        }
        match tree.parent(here) {
            Some(parent) => here = parent,
            None => return None,
        }
    }
    None
}

/// Whether the tree's nodes are these, in document order.
fn has_nodes(alloc: Global, tree: &DocTree, wanted: &[Node]) -> Result<bool, Fail> {
    let mut link = Some(tree.root());
    for row in wanted {
        match link {
            Some(node) => {
                if !stands_so(tree, node, row) || !is_placed(alloc, tree, node, row)? {
                    return Ok(false);
                }
                link = following(tree, node);
            }
            None => return Ok(false),
        }
    }
    Ok(link.is_none())
}

const SAMPLE: &str = "<a t=\"1\">x <a>y</a> z</a>";

const NODES: [(&str, &[Node]); 1] = [(
    SAMPLE,
    &[
        Node {
            number: 0,
            name: Some("a"),
            parent: None,
            first_child: Some(1),
            next: None,
            from: 1,
            to: 4,
            place: &[],
            printed: SAMPLE,
        },
        Node {
            number: 1,
            name: None,
            parent: Some(0),
            first_child: None,
            next: Some(2),
            from: 1,
            to: 2,
            place: &[1],
            printed: "x ",
        },
        Node {
            number: 2,
            name: Some("a"),
            parent: Some(0),
            first_child: Some(3),
            next: Some(4),
            from: 2,
            to: 3,
            place: &[2],
            printed: "<a>y</a>",
        },
        Node {
            number: 3,
            name: None,
            parent: Some(2),
            first_child: None,
            next: None,
            from: 2,
            to: 3,
            place: &[2, 1],
            printed: "y",
        },
        Node {
            number: 4,
            name: None,
            parent: Some(0),
            first_child: None,
            next: None,
            from: 3,
            to: 4,
            place: &[3],
            printed: " z",
        },
    ],
)];

#[test]
fn each_node_has_what_stands_round_it(rt: HostRuntime) -> Result<(), Fail> {
    for (document, wanted) in NODES {
        let tree = tree_of(rt.alloc(), document)?;
        assert!(rt; has_nodes(rt.alloc(), &tree, wanted)?, "{document}");
    }
    Ok(())
}

const ATTRIBUTES: [(&str, &str, Option<&str>); 2] = [(SAMPLE, "t", Some("1")), (SAMPLE, "u", None)];

#[test]
fn an_element_has_its_attributes(rt: HostRuntime) -> Result<(), Fail> {
    for (document, name, value) in ATTRIBUTES {
        let tree = tree_of(rt.alloc(), document)?;
        assert!(rt; tree.attr(tree.root(), name) == value, "{name}");
    }
    Ok(())
}

/// A text: its leaf, the leaf before it, and its words.
type Leaf = (u32, Option<u32>, &'static [&'static str]);

fn leaf_number(leaf: Option<LeafId>) -> Option<u32> {
    match leaf {
        Some(leaf) => Some(leaf.0),
        None => None,
    }
}

fn is_leaf(leaf: &LeafWords, wanted: &Leaf) -> bool {
    let (number, after, words) = wanted;
    leaf.leaf.0 == *number && leaf_number(leaf.after) == *after && are(&leaf.words, *words)
}

fn are(texts: &TextList, wanted: &[&str]) -> bool {
    if texts.len() != wanted.len() {
        return false;
    }
    for number in 0..texts.len() {
        if texts.get(number) != wanted[number] {
            return false;
        }
    }
    true
}

/// Compares a copy's numbers of nodes and levels, its leaves, and its printed form.
fn expect_copy(
    rt: &impl Abort,
    alloc: Global,
    document: &str,
    count: usize,
    depth: usize,
    wanted: &[Leaf],
) -> Result<(), Fail> {
    let copy = tree_of(alloc, document)?.copy()?;
    assert!(rt;
        copy.node_count() == count && copy.slot_count() == count,
        "{document}"
    );
    assert!(rt; copy.depth() == depth, "{document}");
    let leaves = copy.all_leaves()?;
    assert!(rt; leaves.len() == wanted.len(), "{document}");
    for (leaf, row) in leaves.as_slice().iter().zip(wanted) {
        assert!(rt; is_leaf(leaf, row), "{document}");
    }
    assert!(rt;
        print_doc(alloc, &copy.to_doc()?)?.as_str() == document,
        "{document}"
    );
    Ok(())
}

const COPIES: [(&str, usize, usize, &[Leaf]); 1] = [(
    SAMPLE,
    5,
    2,
    &[
        (1, None, &["x"]),
        (3, Some(1), &["y"]),
        (4, Some(3), &["z"]),
    ],
)];

#[test]
fn a_copy_has_the_same_nodes_and_leaves(rt: HostRuntime) -> Result<(), Fail> {
    for (document, count, depth, leaves) in COPIES {
        expect_copy(&rt, rt.alloc(), document, count, depth, leaves)?;
    }
    Ok(())
}
