// What no contract says: that memory suffices. `<a>Hello. Hello world</a>` is read, comes into an index and goes out of it, and so
// does its text alone. A period behind a title, as in `<a>Dr. Hill ran</a>`, ends no sentence once titles are abbreviations.
ghost use Rattle.std.specs.Prelude.{◌≡◌, ◌<◌, ◌^◌, [], false, map, IfOk};
ghost use Rattle.doc_grammar.specs.Limits.{node_count};
ghost use Rattle.ft_base.specs.Lists as list;
ghost use Rattle.ordered_tree.specs.Leaves.{leaves, texts};
ghost use Rattle.ordered_tree.specs.Numbering.{numbered};
ghost use Rattle.index_updates.specs.Follows.{Follows};

use ft_base::{Breaks, DocId, Line, Memory, Span, Steps};
use index_updates::{add_doc, apply_change, drop_doc, rebreak};
use index_versions::{Version, WordHints};
use ordered_tree::{DocTree, LeafIds, Leaves, Read, load_doc};
use plain_tree::{Attrs, Kids, PlainDoc, Tree};
use std::alloc::Global;
use std::marker::Brand;
use std::sync::ledger::{Blank, Ledger};
use tree_edits::Change;
use word_lists::KeySet;

const DOC: DocId = DocId(3);

// A document with its leaves and its breaks where nothing is an abbreviation.
fn read(alloc: Global, document: PlainDoc) -> Result<Read, Memory>
    requires { node_count document < 2 ^ 31 }
    ensures { IfOk result (λ read. read.tree.root ≡ numbered 0 document) }
{
    match load_doc(alloc, document, &KeySet::empty(alloc)) {
        Ok(read) => Ok(read),
        Err(_) => Err(Memory),
    }
}

// An element with one text in it.
#[tactic(auto, using(plain_tree::proofs::Views::views))]
fn full(alloc: Global, text: &str) -> Result<Read, Memory>
    requires { list.is_empty text.now ≡ false }
{
    let name = Line::read(alloc, "a")?;
    let text = Line::read(alloc, text)?;
    let mut kids = Kids::new(alloc);
    kids.push(Tree::Text { text })?;
    let attrs = Attrs::new(alloc);
    read(alloc, PlainDoc::from_tree(Tree::Elem { name, attrs, kids }))
}

// An element with nothing in it.
#[tactic(auto, using(plain_tree::proofs::Views::views))]
fn bare(alloc: Global) -> Result<Read, Memory>
    ensures { IfOk result (λ read. texts read.tree.root ≡ []) }
{
    let name = Line::read(alloc, "a")?;
    let kids = Kids::new(alloc);
    let attrs = Attrs::new(alloc);
    read(alloc, PlainDoc::from_tree(Tree::Elem { name, attrs, kids }))
}

// Whether two sentences start, at the first and at the second token, and one paragraph.
fn has_breaks(breaks: &Breaks) -> bool {
    breaks.sentences.as_slice() == [1, 2].as_slice()
        && breaks.paragraphs.as_slice() == [1].as_slice()
}

// Whether so many terms are there, with a key each, and these are the numbers of the terms with the key `hello`.
fn has_terms(version: &Version, terms: usize, found: Option<Span>) -> bool {
    version.term_count() == terms
        && version.key_count() == terms
        && version.find_term("hello") == found
}

// Whether the version has the document's three tokens, of which the second starts a sentence.
fn has_document(version: &Version) -> bool {
    if !version.has_doc(DOC) {
        return false;
    }
    if version.token_count(DOC) != 3 {
        return false;
    }
    let breaks = version.breaks(DOC);
    let sentences = breaks.sentence_of(1) == 1 && breaks.sentence_of(2) == 2;
    sentences && breaks.paragraph_of(3) == 1
}

// Whether the document is in the version, and nothing else.
fn is_full(version: &Version) -> bool {
    has_document(version) && has_terms(version, 2, Some(Span { from: 0, to: 1 }))
}

// Whether nothing is in the version.
fn is_empty(version: &Version) -> bool {
    !version.has_doc(DOC) && has_terms(version, 0, None)
}

// Takes the document out again; the version that it is in keeps it.
fn goes<L: Ledger>(version: &Version, rows: &mut Steps<L>) -> Result<bool, Memory> {
    if !version.has_doc(DOC) {
        return Ok(false);
    }
    let shown = is_full(version);
    let rest = drop_doc(version, DOC, rows)?;
    let gone = is_empty(&rest);
    drop(rest);
    Ok(shown && gone && is_full(version))
}

// Puts the document into an empty version, which stays empty, and takes it out.
fn comes_and_goes<L: Ledger>(
    alloc: Global,
    tree: &DocTree,
    rows: &mut Steps<L>,
) -> Result<bool, Memory> {
    let empty = Version::empty(alloc);
    let mut hints = WordHints::new(alloc);
    let added = add_doc(
        alloc,
        &empty,
        &mut hints,
        DOC,
        tree,
        &KeySet::empty(alloc),
        rows,
    );
    let kept = is_empty(&empty);
    drop((empty, hints));
    match added {
        Ok(version) => {
            let done = goes(&version, rows);
            drop(version);
            Ok(kept & done?)
        }
        Err(memory) => Err(memory),
    }
}

// The version in which the document has the texts of a tree, where it had none.
fn texts_come<L: Ledger>(
    alloc: Global,
    version: &Version,
    bare: &DocTree,
    full: &DocTree,
    none: &KeySet,
    rows: &mut Steps<L>,
) -> Result<Version, Memory>
    requires follows { Follows none.now version.now 3 bare.now.root }
    requires none { texts bare.now.root ≡ [] }
    ensures { IfOk result (λ new. Follows none.now new 3 full.now.root) }
{
    let (_bare, _full) = (bare.root(), full.root());
    let put = full.all_leaves()?;
    let change = Change {
        taken: LeafIds::new(alloc),
        put,
    };
    let made = apply_change(version, DOC, full, &change, none, rows);
    drop(change);
    made
}

// The one in which it has none, where it had those of a tree.
fn texts_go<L: Ledger>(
    alloc: Global,
    version: &Version,
    full: &DocTree,
    bare: &DocTree,
    none: &KeySet,
    rows: &mut Steps<L>,
) -> Result<Version, Memory>
    requires follows { Follows none.now version.now 3 full.now.root }
    requires none { texts bare.now.root ≡ [] }
    ensures { IfOk result (λ new. Follows none.now new 3 bare.now.root) }
{
    let (_full, _bare) = (full.root(), bare.root());
    let taken = leaf_ids(alloc, full)?;
    let change = Change {
        taken,
        put: Leaves::new(alloc),
    };
    let made = apply_change(version, DOC, bare, &change, none, rows);
    drop(change);
    made
}

// The leaves of a tree.
fn leaf_ids(alloc: Global, tree: &DocTree) -> Result<LeafIds, Memory>
    ensures { IfOk result (λ ids. ids ≡ map (λ leaf. leaf.leaf) (leaves tree.now.root)) }
{
    let mut ids = LeafIds::new(alloc);
    for leaf in tree.all_leaves()?.into_vec() {
        ids.push(leaf.leaf)?;
    }
    Ok(ids)
}

// Whether the document is in the version without a word.
fn is_bare(version: &Version) -> bool {
    if !version.has_doc(DOC) {
        return false;
    }
    version.token_count(DOC) == 0 && has_terms(version, 0, None)
}

// Takes the texts out again; the version that they are in keeps them.
fn stays_full<L: Ledger>(
    alloc: Global,
    version: &Version,
    full: &DocTree,
    bare: &DocTree,
    none: &KeySet,
    rows: &mut Steps<L>,
) -> Result<bool, Memory>
    requires follows { Follows none.now version.now 3 full.now.root }
    requires none { texts bare.now.root ≡ [] }
{
    let left = texts_go(alloc, version, full, bare, none, rows)?;
    let gone = is_bare(&left);
    drop(left);
    Ok(gone && is_full(version))
}

// Puts the texts into a version with the bare document, which stays bare, and takes them out.
fn changes<L: Ledger>(
    alloc: Global,
    version: &Version,
    bare: &DocTree,
    full: &DocTree,
    none: &KeySet,
    rows: &mut Steps<L>,
) -> Result<bool, Memory>
    requires follows { Follows none.now version.now 3 bare.now.root }
    requires none { texts bare.now.root ≡ [] }
{
    let filled = texts_come(alloc, version, bare, full, none, rows)?;
    let done = stays_full(alloc, &filled, full, bare, none, rows);
    drop(filled);
    Ok(done? && is_bare(version))
}

// The same over an index with the bare document alone.
fn texts_come_and_go<L: Ledger>(
    alloc: Global,
    bare: &DocTree,
    full: &DocTree,
    none: &KeySet,
    rows: &mut Steps<L>,
) -> Result<bool, Memory>
    requires none { texts bare.now.root ≡ [] }
{
    let empty = Version::empty(alloc);
    let mut hints = WordHints::new(alloc);
    let added = add_doc(alloc, &empty, &mut hints, DOC, bare, none, rows);
    drop((empty, hints));
    match added {
        Ok(version) => {
            let done = changes(alloc, &version, bare, full, none, rows);
            drop(version);
            done
        }
        Err(memory) => Err(memory),
    }
}

// Whether the version has the three words of the text with a title, and a sentence starts at the second where it says so.
fn is_titled(version: &Version, second_starts: bool) -> bool {
    if !version.has_doc(DOC) {
        return false;
    }
    if version.token_count(DOC) != 3 {
        return false;
    }
    let breaks = version.breaks(DOC);
    let last = if second_starts { 2 } else { 1 };
    let sentences = breaks.sentence_of(1) == 1 && breaks.sentence_of(2) == last;
    sentences && breaks.sentence_of(3) == last && version.term_count() == 3
}

// Whether the breaks of the document are others where titles are abbreviations, and are as before where nothing is.
fn turns(version: &Version, tree: &DocTree, none: &KeySet, titles: &KeySet) -> Result<bool, Memory>
    requires { Follows none.now version.now 3 tree.now.root }
{
    let spared = rebreak(version, DOC, tree, titles)?;
    let fewer = is_titled(&spared, false);
    let again = rebreak(&spared, DOC, tree, none);
    drop(spared);
    let again = again?;
    let as_before = is_titled(&again, true);
    drop(again);
    Ok(fewer && as_before && is_titled(version, true))
}

// The same over an index with the document alone, which is put in where nothing is an abbreviation.
fn breaks_turn<L: Ledger>(
    alloc: Global,
    tree: &DocTree,
    titles: &KeySet,
    rows: &mut Steps<L>,
) -> Result<bool, Memory> {
    let none = KeySet::empty(alloc);
    let empty = Version::empty(alloc);
    let mut hints = WordHints::new(alloc);
    let added = add_doc(alloc, &empty, &mut hints, DOC, tree, &none, rows);
    drop((empty, hints));
    let done = match added {
        Ok(version) => {
            let done = turns(&version, tree, &none, titles);
            drop(version);
            done
        }
        Err(memory) => Err(memory),
    };
    drop(none);
    done
}

// Whether the breaks of a document with a title turn.
fn titles_work<L: Ledger>(alloc: Global, rows: &mut Steps<L>) -> Result<bool, Memory> {
    let Ok(titles) = KeySet::read(alloc, b"Dr") else {
        return Err(Memory);
    };
    let read = full(alloc, "Dr. Hill ran")?;
    let done = breaks_turn(alloc, &read.tree, &titles, rows);
    drop((read, titles));
    done
}

// All of it.
fn all_work<L: Ledger>(alloc: Global, blank: Blank) -> Result<bool, Memory>
    requires name { blank.name ≡ L.name }
    requires parts { blank.parts ≡ L.parts }
    requires whole { 0 < blank.parts }
{
    let mut rows = Steps::<L>::new(blank);
    let none = KeySet::empty(alloc);
    let read = full(alloc, "Hello. Hello world")?;
    let found = has_breaks(&read.breaks);
    let done = comes_and_goes(alloc, &read.tree, &mut rows);
    let other = bare(alloc)?;
    let changed = texts_come_and_go(alloc, &other.tree, &read.tree, &none, &mut rows);
    drop((read, other, none));
    Ok(found & done? & changed? & titles_work(alloc, &mut rows)?)
}

#[test]
fn a_document_comes_and_goes(rt: HostRuntime) {
    assert!(rt; all_work::<Brand>(rt.alloc(), Blank::new(1)) == Ok(true));
}
