// What no contract says: that memory suffices. The token test: `Hello hello`, a text in two leaves, is two terms with
// one key.
ghost use Rattle.std.specs.Prelude.{◌≡◌, ◌<◌, ◌∷◌, [], IfOk};
ghost use Rattle.index_meaning.specs.Documents.{leaf_ids};

use ft_base::{Breaks, DocId, Hits, LeafId, Memory, Places, Span, Steps};
use index_versions::{TermCursor, TermSource, Version, WordHints, WordLeaf, WordLeaves};
use std::alloc::Global;
use std::marker::Brand;
use std::sync::ledger::{Blank, Ledger};
use text_list::TextList;

const FIRST: DocId = DocId(3);

const SECOND: DocId = DocId(7);

// A leaf of one word.
fn leaf(alloc: Global, number: u32, word: &str) -> Result<WordLeaf, Memory>
    ensures { IfOk result (λ made. made.id ≡ number) }
{
    let mut words = TextList::new(alloc);
    words.push(word)?;
    Ok(WordLeaf::new(LeafId(number), words))
}

// Two leaves, whose words have one key.
fn two_leaves(alloc: Global) -> Result<WordLeaves, Memory>
    ensures { IfOk result (λ leaves. leaf_ids leaves ≡ 5 ∷ 2 ∷ []) }
{
    let first = leaf(alloc, 5, "Hello")?;
    let second = leaf(alloc, 2, "hello")?;
    let mut leaves = WordLeaves::new(alloc);
    leaves.push(first)?;
    leaves.push(second)?;
    Ok(leaves)
}

// One sentence, and one paragraph.
fn breaks(alloc: Global) -> Result<Breaks, Memory> {
    let mut sentences = Places::new(alloc);
    sentences.push(1)?;
    let mut paragraphs = Places::new(alloc);
    paragraphs.push(1)?;
    Ok(Breaks {
        sentences,
        paragraphs,
    })
}

// Puts the two leaves in as a document, where it isn't there.
fn put<L: Ledger>(
    alloc: Global,
    version: &mut Version,
    doc: DocId,
    hints: &mut WordHints,
    rows: &mut Steps<L>,
) -> Result<(), Memory> {
    if version.has_doc(doc) {
        return Err(Memory);
    }
    let leaves = two_leaves(alloc)?;
    let breaks = breaks(alloc)?;
    version.put_document(doc, &leaves, breaks, hints, rows)
}

// Puts one leaf in as a document, where it isn't there.
fn put_one<L: Ledger>(
    alloc: Global,
    version: &mut Version,
    doc: DocId,
    word: &str,
    rows: &mut Steps<L>,
) -> Result<(), Memory> {
    if version.has_doc(doc) {
        return Err(Memory);
    }
    let mut words = TextList::new(alloc);
    words.push(word)?;
    version.put_leaf(doc, None, LeafId(4), &words, rows)?;
    let breaks = breaks(alloc)?;
    version.set_breaks(doc, breaks)
}

// Takes the first leaf of the document, where there is one.
fn take<L: Ledger>(version: &mut Version, doc: DocId, rows: &mut Steps<L>) -> Result<(), Memory> {
    if !version.has_doc(doc) {
        return Err(Memory);
    }
    if version.leaf_count(doc) == 0 {
        return Err(Memory);
    }
    let leaf = version.leaf(doc, 0);
    version.take_leaf(doc, leaf, rows)
}

// Takes the document, where it is there.
fn take_all<L: Ledger>(
    version: &mut Version,
    doc: DocId,
    rows: &mut Steps<L>,
) -> Result<(), Memory> {
    if !version.has_doc(doc) {
        return Err(Memory);
    }
    version.take_document(doc, rows)
}

// Forgets the document, where it has no leaf.
fn forget(version: &mut Version, doc: DocId) -> Result<(), Memory> {
    if !version.has_doc(doc) {
        return Err(Memory);
    }
    if version.leaf_count(doc) > 0 {
        return Err(Memory);
    }
    version.forget_doc(doc)
}

// Whether there are so many terms, so many keys, and these are the numbers of the terms with the key `hello`.
fn has_terms(version: &Version, terms: usize, keys: usize, found: Option<Span>) -> bool {
    if version.term_count() != terms {
        return false;
    }
    if version.key_count() != keys {
        return false;
    }
    version.find_term("hello") == found
}

// Whether the term of that number is the word, and so many documents have it.
fn is_term(version: &Version, number: usize, word: &str, documents: u32) -> bool {
    if number >= version.term_count() {
        return false;
    }
    if version.term(number).word != word {
        return false;
    }
    version.document_count(number) == documents
}

// Whether the term stands at that place of the document, and at no other.
fn stands_at<L: Ledger>(
    version: &Version,
    number: usize,
    doc: DocId,
    place: u32,
    steps: &mut Steps<L>,
) -> bool {
    if number >= version.term_count() {
        return false;
    }
    if !version.has_doc(doc) {
        return false;
    }
    let whole = Span { from: 1, to: 3 };
    let cursor = version.cursor(number, doc, whole, steps);
    let first = match cursor.here() {
        Some(hit) => hit.from,
        None => 0,
    };
    let after = Span { from: 3, to: 3 };
    let mut source = TermSource::new(version, number);
    let mut aimed = TermCursor::new();
    source.aim(&mut aimed, doc, whole, steps);
    if aimed.here().is_none() {
        return false;
    }
    source.aim(&mut aimed, doc, after, steps);
    if aimed.here().is_some() {
        return false;
    }
    if source.first_in(doc, whole) != Some(place) {
        return false;
    }
    if source.first_in(doc, after).is_some() {
        return false;
    }
    let mut asked = TermSource::new(version, number);
    asked.look_up(doc);
    if asked.first_in(doc, whole) != Some(place) {
        return false;
    }
    first == place
}

// Whether the version has both words, each of one document, where they stand.
fn has_both<L: Ledger>(version: &Version, doc: DocId, steps: &mut Steps<L>) -> bool {
    if !has_terms(version, 2, 1, Some(Span { from: 0, to: 2 })) {
        return false;
    }
    if !is_term(version, 0, "Hello", 1) {
        return false;
    }
    if !is_term(version, 1, "hello", 1) {
        return false;
    }
    stands_at(version, 0, doc, 1, steps) & stands_at(version, 1, doc, 2, steps)
}

// Takes both leaves out, one after the other, and then the document.
fn leaves_leave<L: Ledger>(version: &mut Version, steps: &mut Steps<L>) -> Result<bool, Memory> {
    take(version, SECOND, steps)?;
    let one = has_terms(version, 1, 1, Some(Span { from: 0, to: 1 }));
    let moved = is_term(version, 0, "hello", 1) & stands_at(version, 0, SECOND, 1, steps);
    take(version, SECOND, steps)?;
    let none = has_terms(version, 0, 0, None);
    forget(version, SECOND)?;
    Ok(one & moved & none & !version.has_doc(SECOND))
}

// A document comes, its leaves go, and a copy of the version keeps both.
fn leaves_go<L: Ledger>(
    alloc: Global,
    version: &mut Version,
    hints: &mut WordHints,
    steps: &mut Steps<L>,
) -> Result<bool, Memory> {
    put(alloc, version, SECOND, hints, steps)?;
    let kept = version.clone_version()?;
    let gone = leaves_leave(version, steps);
    let both = has_both(&kept, SECOND, steps);
    drop(kept);
    match gone {
        Ok(gone) => Ok(gone & both),
        Err(_) => Err(Memory),
    }
}

// Two documents share a word, which stays as long as one of them is there.
fn documents_go<L: Ledger>(
    alloc: Global,
    version: &mut Version,
    hints: &mut WordHints,
    steps: &mut Steps<L>,
) -> Result<bool, Memory> {
    put(alloc, version, SECOND, hints, steps)?;
    put_one(alloc, version, FIRST, "hello", steps)?;
    let shared = is_term(version, 0, "Hello", 1) & is_term(version, 1, "hello", 2);
    let first = stands_at(version, 1, FIRST, 1, steps) & stands_at(version, 1, SECOND, 2, steps);
    take_all(version, SECOND, steps)?;
    let one = has_terms(version, 1, 1, Some(Span { from: 0, to: 1 }));
    let left = is_term(version, 0, "hello", 1);
    take_all(version, FIRST, steps)?;
    Ok(shared & first & one & left & has_terms(version, 0, 0, None))
}

// Both of these, one after the other. The hints of the first are those of terms that are gone.
fn all_work<L: Ledger>(alloc: Global, blank: Blank) -> bool
    requires name { blank.name ≡ L.name }
    requires parts { blank.parts ≡ L.parts }
    requires whole { 0 < blank.parts }
{
    let mut steps = Steps::<L>::new(blank);
    let mut version = Version::empty(alloc);
    let mut hints = WordHints::new(alloc);
    let leaves = leaves_go(alloc, &mut version, &mut hints, &mut steps);
    let documents = documents_go(alloc, &mut version, &mut hints, &mut steps);
    drop((version, hints));
    (leaves == Ok(true)) & (documents == Ok(true))
}

#[test]
fn versions_change(rt: HostRuntime) {
    assert!(rt; all_work::<Brand>(rt.alloc(), Blank::new(1)));
}
