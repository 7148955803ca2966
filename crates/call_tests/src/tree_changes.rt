// Edits of documents, as plain trees and as trees in slots: both give the same document, or refuse.
ghost use Rattle.std.specs.Prelude.{◌+◌, ◌<◌, ◌^◌, ◌≤◌, IfOk, map};
ghost use Rattle.doc_grammar.specs.Limits.{node_count, nodes_count};
ghost use Rattle.ft_base.specs.Limits.{max_nodes};
ghost use Rattle.ordered_tree.specs.Numbered.{plain};
ghost use Rattle.plain_tree.specs.Document.{nodes};
ghost use Rattle.plain_tree.specs.View.{node};

use doc_profile::{print_doc, read_doc, read_fragment};
use ft_base::{Line, MAX_NODES, Memory};
use ordered_tree::{DocTree, NodeRef, NodeRefs, Read, load_doc};
use plain_tree::{How, Kids, Place, PlaceFault, PlainDoc};
use std::alloc::Global;
use std::process::Abort;
use std::test::Fail;
use tree_edits::{TreeFault, insert, remove, replace};
use word_lists::KeySet;

/// What is done to an element: content comes into or beside it, or into its place, or it is taken out.
#[derive(Clone, Copy)]
enum Act {
    Insert(How),
    Replace,
    Remove,
}

/// How an edit ends: it is made; its element isn't there; it can't be of the root.
#[derive(Clone, Copy)]
enum End {
    Done,
    NoElement,
    Root,
}

/// A node: its document, its place and its reference.
type Target = (&'static str, &'static [u32], u32);

/// An edit: what is done to which node; the content; how it ends, and the document then.
type Row = (Target, Act, &'static str, End, &'static str);

fn document_of(alloc: Global, text: &str) -> Result<PlainDoc, Fail>
    ensures { IfOk result (λ doc. node_count doc ≤ max_nodes) }
{
    match read_doc(alloc, text.as_bytes()) {
        Ok(doc) => Ok(doc),
        Err(_) => Err(Fail::from("no document")),
    }
}

fn content_of(alloc: Global, text: &str) -> Result<Kids, Fail>
    ensures { IfOk result (λ content. nodes_count (nodes (map node content)) ≤ max_nodes) }
{
    match read_fragment(alloc, text.as_bytes()) {
        Ok(content) => Ok(content),
        Err(_) => Err(Fail::from("no fragment")),
    }
}

/// The tree in slots of a document.
fn tree_of(alloc: Global, doc: &PlainDoc) -> Result<DocTree, Fail>
    requires { node_count doc.now ≤ max_nodes }
    ensures { IfOk result (λ tree. node_count (plain tree.root) ≤ max_nodes) }
{
    let Ok(read) = load_doc(alloc, doc.copy(alloc)?, &KeySet::empty(alloc)) else {
        return Err(Fail::from("too many tokens"));
    };
    let Read {
        tree,
        leaves,
        breaks,
    } = read;
    drop((leaves, breaks));
    if tree.node_count() > MAX_NODES {
        drop(tree);
        return Err(Fail::from("too many nodes"));
    }
    Ok(tree)
}

/// Edits a plain document.
fn edit_plain(
    alloc: Global,
    doc: &mut PlainDoc,
    act: Act,
    place: &Place,
    content: Kids,
) -> Result<(), PlaceFault> {
    match act {
        Act::Insert(how) => doc.insert_at(alloc, place, how, content),
        Act::Replace => doc.replace_at(alloc, place, content),
        Act::Remove => {
            drop(content);
            doc.remove_at(alloc, place)
        }
    }
}

/// Edits a tree in slots.
fn edit_tree(
    alloc: Global,
    tree: &mut DocTree,
    act: Act,
    target: NodeRef,
    content: &Kids,
) -> Result<(), TreeFault>
    requires { node_count (plain tree.old.root) + nodes_count (nodes (map node content.now)) < 2 ^ 31 }
{
    let change = match act {
        Act::Insert(how) => insert(alloc, tree, target, how, content),
        Act::Replace => replace(alloc, tree, target, content),
        Act::Remove => remove(alloc, tree, &NodeRefs::from_slice(alloc, &[target])?),
    };
    drop(change?);
    Ok(())
}

/// Whether a plain document ends an edit so. It tells an element that isn't there and the root alike.
fn is_plain_end(done: Result<(), PlaceFault>, end: End) -> Result<bool, Memory> {
    match done {
        Ok(()) => Ok(matches!(end, End::Done)),
        Err(PlaceFault::NoSuchPlace) => Ok(!matches!(end, End::Done)),
        Err(PlaceFault::Memory) => Err(Memory),
    }
}

/// Whether a tree in slots ends an edit so.
fn is_tree_end(done: Result<(), TreeFault>, end: End) -> Result<bool, Memory> {
    match done {
        Ok(()) => Ok(matches!(end, End::Done)),
        Err(TreeFault::NoSuchNode) => Ok(matches!(end, End::NoElement)),
        Err(TreeFault::RootTarget) => Ok(matches!(end, End::Root)),
        Err(TreeFault::Memory) => Err(Memory),
    }
}

/// The plain document as it is printed after the edit, where that ends as it should.
fn plain_after(alloc: Global, row: &Row) -> Result<Line, Fail> {
    let ((document, place, _), act, content, end, _) = row;
    let place = Place::from_slice(alloc, place)?;
    let content = content_of(alloc, content)?;
    let mut doc = document_of(alloc, document)?;
    let done = edit_plain(alloc, &mut doc, *act, &place, content);
    let printed = print_doc(alloc, &doc);
    drop((doc, place));
    if !is_plain_end(done, *end)? {
        return Err(Fail::from("a plain document ends otherwise"));
    }
    Ok(printed?)
}

/// The same of the tree in slots.
fn tree_after(alloc: Global, row: &Row) -> Result<Line, Fail> {
    let ((document, _, number), act, content, end, _) = row;
    let content = content_of(alloc, content)?;
    let doc = document_of(alloc, document)?;
    let made = tree_of(alloc, &doc);
    drop(doc);
    let mut tree = made?;
    let done = edit_tree(alloc, &mut tree, *act, NodeRef(*number), &content);
    drop(content);
    let printed = printed_tree(alloc, &tree);
    drop(tree);
    if !is_tree_end(done, *end)? {
        return Err(Fail::from("a tree in slots ends otherwise"));
    }
    Ok(printed?)
}

/// The document of a tree in slots as it is printed.
fn printed_tree(alloc: Global, tree: &DocTree) -> Result<Line, Memory> {
    let doc = tree.to_doc()?;
    let printed = print_doc(alloc, &doc);
    drop(doc);
    printed
}

/// Makes the edit both ways, and compares what is printed.
fn expect_edit(rt: &impl Abort, alloc: Global, row: &Row) -> Result<(), Fail> {
    let (_, _, _, _, wanted) = row;
    let plain = plain_after(alloc, row)?;
    let in_slots = tree_after(alloc, row)?;
    assert!(rt; plain.as_str() == *wanted, "{wanted}");
    assert!(rt; in_slots.as_str() == *wanted, "{wanted}");
    Ok(())
}

const FIRST: Act = Act::Insert(How::First);

const LAST: Act = Act::Insert(How::Last);

const BEFORE: Act = Act::Insert(How::Before);

const AFTER: Act = Act::Insert(How::After);

// An element between two texts, and its document.
const LETTERS: &str = "<a>x<b>y</b>z</a>";

const BETWEEN: Target = (LETTERS, &[2], 2);

const LETTERS_ROOT: Target = (LETTERS, &[], 0);

// An element with one inside, another one after it, and their document.
const NESTED: &str = "<a><b><c/></b><c/></a>";

const OUTER: Target = (NESTED, &[1], 1);

const INNER: Target = (NESTED, &[1, 1], 2);

const OTHER: Target = (NESTED, &[2], 3);

const NESTED_ROOT: Target = (NESTED, &[], 0);

/// What is done to which element; the content, and the document then.
type Made = (Target, Act, &'static str, &'static str);

const MADE: [Made; 21] = [
    // content comes before the children of an element, after them, before the element or after it
    (BETWEEN, FIRST, "<c/>", "<a>x<b><c/>y</b>z</a>"),
    (BETWEEN, LAST, "<c/>", "<a>x<b>y<c/></b>z</a>"),
    (BETWEEN, BEFORE, "<c/>", "<a>x<c/><b>y</b>z</a>"),
    (BETWEEN, AFTER, "<c/>", "<a>x<b>y</b><c/>z</a>"),
    (LETTERS_ROOT, FIRST, "<c/>", "<a><c/>x<b>y</b>z</a>"),
    (LETTERS_ROOT, LAST, "<c/>", "<a>x<b>y</b>z<c/></a>"),
    (
        INNER,
        AFTER,
        "<d k=\"1\">v</d>w",
        "<a><b><c/><d k=\"1\">v</d>w</b><c/></a>",
    ),
    (OTHER, LAST, "v", "<a><b><c/></b><c>v</c></a>"),
    (OTHER, BEFORE, "", NESTED),
    // a text that comes beside a text is one text with it
    (BETWEEN, FIRST, "v", "<a>x<b>vy</b>z</a>"),
    (BETWEEN, LAST, "v", "<a>x<b>yv</b>z</a>"),
    (BETWEEN, BEFORE, "v", "<a>xv<b>y</b>z</a>"),
    (BETWEEN, AFTER, "v<c/>w", "<a>x<b>y</b>v<c/>wz</a>"),
    (BETWEEN, Act::Replace, "v", "<a>xvz</a>"),
    // content stands in the place of an element, or nothing does
    (BETWEEN, Act::Replace, "<c/>", "<a>x<c/>z</a>"),
    (BETWEEN, Act::Replace, "", "<a>xz</a>"),
    (OUTER, Act::Replace, "<d/>v<d/>", "<a><d/>v<d/><c/></a>"),
    (INNER, Act::Replace, "v", "<a><b>v</b><c/></a>"),
    (BETWEEN, Act::Remove, "", "<a>xz</a>"),
    (OUTER, Act::Remove, "", "<a><c/></a>"),
    (INNER, Act::Remove, "", "<a><b/><c/></a>"),
];

#[test]
fn edits_are_made_both_ways(rt: HostRuntime) -> Result<(), Fail> {
    for (target, act, content, wanted) in &MADE {
        let row = (*target, *act, *content, End::Done, *wanted);
        expect_edit(&rt, rt.alloc(), &row)?;
    }
    Ok(())
}

/// What is done to which node, and why it isn't.
type Refused = (Target, Act, End);

const REFUSED: [Refused; 12] = [
    // the node is a text, or there is none
    ((LETTERS, &[1], 1), FIRST, End::NoElement),
    ((LETTERS, &[4], 5), LAST, End::NoElement),
    ((LETTERS, &[0], 4), BEFORE, End::NoElement),
    ((LETTERS, &[2, 1], 3), AFTER, End::NoElement),
    ((LETTERS, &[3], 4), Act::Replace, End::NoElement),
    ((NESTED, &[2, 1], 4), Act::Replace, End::NoElement),
    ((LETTERS, &[1], 1), Act::Remove, End::NoElement),
    ((NESTED, &[3], 4), Act::Remove, End::NoElement),
    // nothing comes beside the root or into its place
    (LETTERS_ROOT, BEFORE, End::Root),
    (LETTERS_ROOT, AFTER, End::Root),
    (NESTED_ROOT, Act::Replace, End::Root),
    (NESTED_ROOT, Act::Remove, End::Root),
];

#[test]
fn edits_are_refused_both_ways(rt: HostRuntime) -> Result<(), Fail> {
    for (target, act, end) in &REFUSED {
        let (document, _, _) = target;
        let row = (*target, *act, "<d/>", *end, *document);
        expect_edit(&rt, rt.alloc(), &row)?;
    }
    Ok(())
}

/// A document, elements that go together, by their references, and the document then, or why none goes.
type Several = (&'static str, &'static [u32], End, &'static str);

// An element goes with all that is below it, also with others that were named; where one can't go, none does.
const SEVERAL: [Several; 6] = [
    (NESTED, &[2, 3], End::Done, "<a><b/></a>"),
    (NESTED, &[1, 2], End::Done, "<a><c/></a>"),
    (NESTED, &[3, 1], End::Done, "<a/>"),
    (NESTED, &[], End::Done, NESTED),
    (LETTERS, &[2, 1], End::NoElement, LETTERS),
    (NESTED, &[2, 0], End::Root, NESTED),
];

fn expect_removed(rt: &impl Abort, alloc: Global, row: &Several) -> Result<(), Fail> {
    let (document, nodes, end, wanted) = row;
    let doc = document_of(alloc, document)?;
    let made = tree_of(alloc, &doc);
    drop(doc);
    let mut tree = made?;
    let done = remove_all(alloc, &mut tree, nodes);
    let printed = printed_tree(alloc, &tree);
    drop(tree);
    assert!(rt; is_tree_end(done, *end)?, "{wanted}");
    assert!(rt; printed?.as_str() == *wanted, "{wanted}");
    Ok(())
}

/// Takes the elements of these references out at once.
fn remove_all(alloc: Global, tree: &mut DocTree, numbers: &[u32]) -> Result<(), TreeFault> {
    let mut chosen = NodeRefs::new(alloc);
    for number in numbers {
        chosen.push(NodeRef(*number))?;
    }
    drop(remove(alloc, tree, &chosen)?);
    Ok(())
}

#[test]
fn elements_are_removed_at_once(rt: HostRuntime) -> Result<(), Fail> {
    for row in &SEVERAL {
        expect_removed(&rt, rt.alloc(), row)?;
    }
    Ok(())
}
