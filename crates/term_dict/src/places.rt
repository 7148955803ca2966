//! Where an entry stands, or would stand, among terms in order.
ghost use Rattle.std.specs.Prelude.{◌≡◌, ◌≤◌, ◌<◌, ◌+◌, ◌-◌, cond, length, true, IfSome};
ghost use Rattle.index_meaning.specs.Entries.{entry, is_sorted, stands_at};
ghost use Rattle.index_meaning.specs.Dictionaries.{entries, ids};
ghost use Rattle.shared_list.specs.Blocks.{IsRun};
ghost use Rattle.term_dict.specs.Places.{stands_before, count_before, IsWindow, has_key_at, brings_key};

use crate::entry_ref::EntryRef;
use crate::terms::Terms;

/// A place of an entry: its own; that of the first entry with its key; the one after the last entry with its key.
#[derive(Clone, Copy)]
pub enum Place {
    AtEntry,
    AtKey,
    AfterKey,
}

/// Whether the entry stands before the place.
fn stands_before(read: &EntryRef, place: Place, sought: &EntryRef) -> bool
    ensures { result ≡ stands_before place sought.now read.now }
{
    match place {
        Place::AtEntry => read.order_of(sought).is_gt(),
        Place::AtKey => read.key_order(sought).is_lt(),
        Place::AfterKey => read.key_order(sought).is_le(),
    }
}

/// Numbers of terms between which a place is, and numbers of blocks: from the first one up to the one after the last.
#[derive(Clone, Copy)]
struct Window {
    low: usize,
    high: usize,
    first: usize,
    end: usize,
}

/// How many terms stand before the place.
pub fn count_before(terms: &Terms, place: Place, key: &str, word: &str) -> usize
    requires { is_sorted (entries terms.now.terms) ≡ true }
    ensures count { result ≡ count_before place (entry key.now word.now) (entries terms.now.terms) }
    ensures within { result ≤ length terms.now.terms }
{
    let sought = EntryRef::new(key, word);
    let window = in_one_block(terms, place, &sought);
    let block = terms.block(window.first);
    let mut low = window.low;
    let mut high = window.high;
    while low < high {
        let (from, to) = narrowed(terms, block, place, &sought, low, high);
        low = from;
        high = to;
    }
    low
}

/// Numbers between which the place is, those of one block's terms; and the block.
fn in_one_block(terms: &Terms, place: Place, sought: &EntryRef) -> Window
    requires { is_sorted (entries terms.now.terms) ≡ true }
    ensures { IsWindow place sought.now (entries terms.now.terms) result.low result.high }
{
    let mut window = Window {
        low: 0,
        high: terms.len(),
        first: 0,
        end: terms.block_count(),
    };
    while window.end.saturating_sub(window.first) > 1 {
        window = halved(terms, place, sought, window);
    }
    window
}

/// The window with half of the blocks, by the first term of the middle one.
fn halved(terms: &Terms, place: Place, sought: &EntryRef, window: Window) -> Window
    requires sorted { is_sorted (entries terms.now.terms) ≡ true }
    requires some { window.first + 1 < window.end }
    requires window { IsWindow place sought.now (entries terms.now.terms) window.low window.high }
    ensures window { IsWindow place sought.now (entries terms.now.terms) result.low result.high }
    ensures smaller { result.end - result.first < window.end - window.first }
{
    let middle = window.first + (window.end - window.first) / 2;
    let Some((start, items)) = terms.block(middle) else {
        return Window {
            end: middle,
            ..window
        };
    };
    if items.len() == 0 {
        return Window {
            end: middle,
            ..window
        };
    }
    if stands_before(&terms.entry_in(Some((start, items)), start), place, sought) {
        return Window {
            low: start,
            first: middle,
            ..window
        };
    }
    Window {
        high: start,
        end: middle,
        ..window
    }
}

/// A smaller part of the numbers from `low` to `high`, in which the place is where it is in these.
fn narrowed(
    terms: &Terms,
    block: Option<(usize, &[u32])>,
    place: Place,
    sought: &EntryRef,
    low: usize,
    high: usize,
) -> (usize, usize)
    requires sorted { is_sorted (entries terms.now.terms) ≡ true }
    requires block { IfSome block (λ block. IsRun (ids terms.now.terms) block.0 block.1.now) }
    requires some { low < high }
    requires window { IsWindow place sought.now (entries terms.now.terms) low high }
    ensures window { IsWindow place sought.now (entries terms.now.terms) result.0 result.1 }
    ensures smaller { result.1 - result.0 < high - low }
{
    let middle = low + (high - low) / 2;
    if stands_before(&terms.entry_in(block, middle), place, sought) {
        return (middle + 1, high);
    }
    (low, middle)
}

/// Whether the term of that number is the entry's.
pub fn stands_at(terms: &Terms, number: usize, key: &str, word: &str) -> bool
    ensures { result ≡ stands_at (entry key.now word.now) number (entries terms.now.terms) }
{
    if number >= terms.len() {
        return false;
    }
    terms
        .entry(number)
        .order_of(&EntryRef::new(key, word))
        .is_eq()
}

/// Whether the term of that number has the key.
fn has_key_at(terms: &Terms, number: usize, key: &str) -> bool
    ensures { result ≡ has_key_at key.now number (entries terms.now.terms) }
{
    if number >= terms.len() {
        return false;
    }
    terms.entry(number).key().cmp(key).is_eq()
}

/// How many keys a term with this key brings that comes to that place: none where a neighbour has the same key.
pub fn brought_keys(terms: &Terms, number: usize, key: &str) -> usize
    ensures { result ≡ cond (brings_key key.now number (entries terms.now.terms)) 1 0 }
{
    if has_key_at(terms, number, key) {
        return 0;
    }
    if number == 0 {
        return 1;
    }
    if has_key_at(terms, number - 1, key) {
        return 0;
    }
    1
}
