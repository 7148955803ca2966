//! The least joined hit of phrases in a window of so many words, found by going through their hits.

ghost use Rattle.std.specs.Prelude.{◌≡◌, ◌<◌, ◌≤◌, ◌+◌, ◌-◌, map, nat_lt, true};
ghost use Rattle.std.specs.List.{list_all};
ghost use Rattle.best_hits.specs.Best.{spans_of};
ghost use Rattle.ft_operators.specs.Phrases.{first_hit};
ghost use Rattle.ft_operators.specs.Tuples.{walk_of};
ghost use Rattle.index_phrases.specs.Cursors.{state_of};
ghost use Rattle.match_marks.specs.steps.WindowRuns.{AreAtHits, all_aims, at_own_hits, begins_before, hits_from, hits_left, hits_there, joined_firsts, least_held, lists_left, phrase_may, places_of, sought, started, walks_of};
ghost use Rattle.match_marks.specs.steps.WindowRuns as spec;

use ft_base::{DocId, Hit, Span, Steps};
use ft_operators::Tuples;
use index_phrases::PhraseCursor;
use std::sync::ledger::Ledger;

/// The first and the last word of some hits.
#[derive(Clone, Copy, Debug, PartialEq, Eq)]
pub(crate) struct Joined {
    pub(crate) from: u32,
    pub(crate) to: u32,
}

/// The first hits of some phrases.
#[derive(Clone, Copy, Debug, PartialEq, Eq)]
struct FirstHits {
    /// Whether each phrase has one.
    each: bool,
    /// Those that there are, joined.
    joined: Option<Joined>,
}

/// The least joined hit of one hit of each phrase that a window of so many words holds, in the span of the document. No phrase goes
/// back, and none goes through a hit twice.
pub(crate) fn least_joined<'v, L: Ledger>(
    phrases: &mut Vec<Tuples<PhraseCursor<'v>>>,
    size: u32,
    doc: DocId,
    span: Span,
    steps: &mut Steps<L>,
) -> Option<Joined>
    requires may { list_all (phrase_may doc.0 span) (all_aims phrases.old.items) ≡ true }
    requires some { 0 < size }
    ensures found { places_of result ≡ spans_of (least_held size (map (hits_there doc.0 span) (all_aims phrases.old.items))) }
    ensures same { all_aims phrases.new.items ≡ all_aims phrases.old.items }
    ensures grown { steps.old ≤ steps.new }
{
    aim_each(phrases, doc, span, steps);
    first_in_window(phrases, size, steps)
}

/// Aims each phrase, and goes to its first hit.
fn aim_each<'v, L: Ledger>(
    phrases: &mut Vec<Tuples<PhraseCursor<'v>>>,
    doc: DocId,
    span: Span,
    steps: &mut Steps<L>,
)
    requires may { list_all (phrase_may doc.0 span) (all_aims phrases.old.items) ≡ true }
    ensures walks { walks_of phrases.new.items ≡ map (started doc.0 span) (walks_of phrases.old.items) }
    ensures grown { steps.old ≤ steps.new }
{
    for number in 0..phrases.len() {
        go_to_first(&mut phrases[number], doc, span, steps);
    }
}

fn go_to_first<'v, L: Ledger>(
    phrase: &mut Tuples<PhraseCursor<'v>>,
    doc: DocId,
    span: Span,
    steps: &mut Steps<L>,
)
    requires may { (walk_of state_of phrase.old).aims.may doc.0 span ≡ true }
    ensures walk { walk_of state_of phrase.new ≡ started doc.0 span (walk_of state_of phrase.old) }
    ensures grown { steps.old ≤ steps.new }
{
    phrase.aim(doc, span, steps);
    phrase.first(steps);
}

/// The least joined hit, of those hits that the phrases have left.
fn first_in_window<'v, L: Ledger>(
    phrases: &mut Vec<Tuples<PhraseCursor<'v>>>,
    size: u32,
    steps: &mut Steps<L>,
) -> Option<Joined>
    requires hits { AreAtHits phrases.old.items }
    requires some { 0 < size }
    ensures found { places_of result ≡ spans_of (least_held size (lists_left phrases.old.items)) }
    ensures same { all_aims phrases.new.items ≡ all_aims phrases.old.items }
    ensures grown { steps.old ≤ steps.new }
{
    let mut joined = join_from(phrases, 0, steps);
    while let Some(found) = joined {
        if is_within(found, size) {
            return joined;
        }
        joined = join_from(phrases, next_start(found, size), steps);
    }
    None
}

/// Whether a window of so many words holds it.
fn is_within(joined: Joined, size: u32) -> bool
    ensures { result ≡ nat_lt joined.to (joined.from + size) }
{
    u64::from(joined.to) < u64::from(joined.from) + u64::from(size)
}

/// The first word from which on a window of so many words holds its last one.
fn next_start(joined: Joined, size: u32) -> u32
    requires outside { joined.from + size ≤ joined.to }
    requires some { 0 < size }
    ensures { result ≡ joined.to - size + 1 }
{
    let before = joined.to - size;
    before + 1
}

/// Goes on in each phrase to the first hit that begins at the word or after it, and joins these hits, if each phrase has one.
fn join_from<'v, L: Ledger>(
    phrases: &mut Vec<Tuples<PhraseCursor<'v>>>,
    from: u32,
    steps: &mut Steps<L>,
) -> Option<Joined>
    requires hits { map at_own_hits (walks_of phrases.old.items) ≡ walks_of phrases.old.items }
    ensures walks { walks_of phrases.new.items ≡ map (sought from) (walks_of phrases.old.items) }
    ensures joined { result ≡ joined_firsts (map (hits_from from) (lists_left phrases.old.items)) }
    ensures grown { steps.old ≤ steps.new }
{
    let mut firsts = FirstHits {
        each: true,
        joined: None,
    };
    for number in 0..phrases.len() {
        let hit = seek(&mut phrases[number], from, steps);
        firsts = with_hit(firsts, hit);
    }
    if firsts.each { firsts.joined } else { None }
}

fn with_hit(firsts: FirstHits, hit: Option<Hit>) -> FirstHits
    ensures { result ≡ spec.with_hit firsts hit }
{
    match hit {
        Some(hit) => FirstHits {
            each: firsts.each,
            joined: Some(wider(firsts.joined, hit)),
        },
        None => FirstHits {
            each: false,
            joined: firsts.joined,
        },
    }
}

fn wider(joined: Option<Joined>, hit: Hit) -> Joined
    ensures { result ≡ spec.wider joined hit }
{
    match joined {
        Some(joined) => Joined {
            from: joined.from.min(hit.from),
            to: joined.to.max(hit.to),
        },
        None => Joined {
            from: hit.from,
            to: hit.to,
        },
    }
}

/// Goes on to the first hit that begins at the word or after it.
fn seek<'v, L: Ledger>(
    phrase: &mut Tuples<PhraseCursor<'v>>,
    from: u32,
    steps: &mut Steps<L>,
) -> Option<Hit>
    requires hits { at_own_hits (walk_of state_of phrase.old) ≡ walk_of state_of phrase.old }
    ensures walk { walk_of state_of phrase.new ≡ sought from (walk_of state_of phrase.old) }
    ensures hit { result ≡ first_hit (hits_from from (hits_left (walk_of state_of phrase.old))) }
    ensures grown { steps.old ≤ steps.new }
{
    while is_before(phrase, from) {
        phrase.next(steps);
    }
    hit_of(phrase)
}

/// Whether the phrase is at a hit that begins before the word.
fn is_before(phrase: &Tuples<PhraseCursor<'_>>, from: u32) -> bool
    requires { at_own_hits (walk_of state_of phrase.now) ≡ walk_of state_of phrase.now }
    ensures { result ≡ begins_before from (hits_left (walk_of state_of phrase.now)) }
{
    match hit_of(phrase) {
        Some(hit) => hit.from < from,
        None => false,
    }
}

/// The hit at which the phrase is.
fn hit_of(phrase: &Tuples<PhraseCursor<'_>>) -> Option<Hit>
    requires { at_own_hits (walk_of state_of phrase.now) ≡ walk_of state_of phrase.now }
    ensures { result ≡ first_hit (hits_left (walk_of state_of phrase.now)) }
{
    match phrase.here() {
        Some(includes) => first_of(includes.hits()),
        None => None,
    }
}

fn first_of(hits: &[Hit]) -> Option<Hit>
    ensures { result ≡ first_hit hits.now }
{
    match hits {
        [first, ..] => Some(*first),
        [] => None,
    }
}
