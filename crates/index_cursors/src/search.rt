ghost use Rattle.std.specs.Prelude.{◌≡◌, ◌≤◌, ◌<◌, ◌-◌, ◌^◌, ℕ, List, length, slice_get, IsTrue};
ghost use Rattle.std.specs.Option.{ForSome};
ghost use Rattle.ft_base.specs.Places.{is_ascending};
ghost use Rattle.index_cursors.specs.SpanHits.{below, places_up_to};

use index_document::TermPlaces;

/// How many places are compared one after the other before the steps of a search begin to double.
const FEW: usize = 4;

/// Where a search has ended.
#[derive(Clone, Copy)]
pub(crate) struct Reached {
    /// How many places are before.
    pub(crate) number: usize,
    /// The place of that number, and `None` after the last one.
    pub(crate) place: Option<u32>,
}

impl Reached {
    /// The place of that number, counted from 0.
    pub(crate) fn at(places: &TermPlaces<'_>, number: usize) -> Reached
        ensures number { result.number ≡ number }
        ensures place { result.place ≡ slice_get places.now number }
    {
        if number >= places.len() {
            return Reached {
                number,
                place: None,
            };
        }
        Reached {
            number,
            place: Some(places.get(number)),
        }
    }

    /// The place, if it is before the position.
    pub(crate) fn place_before(self, end: u32) -> Option<u32>
        ensures place { (places : List ℕ) → self.place ≡ slice_get places self.number → result ≡ slice_get (places_up_to end self.number places) 0 }
        ensures few { ForSome result (λ place. place < 2 ^ 32 - 1) }
    {
        let place = self.place?;
        if place >= end {
            return None;
        }
        Some(place)
    }
}

/// The first place from a position on. The search begins at the number `near`, which may be any, and goes on from there, or back.
pub(crate) fn first_from(places: &TermPlaces<'_>, near: usize, from: u32) -> Reached
    ensures number { result.number ≡ below from places.now }
    ensures place { result.place ≡ slice_get places.now result.number }
    ensures ascending { IsTrue (is_ascending places.now) }
{
    if near > places.len() {
        return first_place(places, from);
    }
    if near == 0 {
        return onward(places, 0, from);
    }
    if places.get(near - 1) < from {
        return onward(places, near, from);
    }
    Reached::at(places, backward(places, near - 1, from))
}

/// The same where at least so many are before the position. Spans come one after the other, so it is mostly one of the next few: these are
/// compared one by one, which costs less than steps that go past it and back. Only then do the steps double.
fn onward(places: &TermPlaces<'_>, start: usize, from: u32) -> Reached
    requires ascending { IsTrue (is_ascending places.now) }
    requires from { start ≤ below from places.now }
    ensures number { result.number ≡ below from places.now }
    ensures place { result.place ≡ slice_get places.now result.number }
{
    let len = places.len();
    let end = len.min(start.saturating_add(FEW));
    let mut at = start;
    while at < end {
        let place = places.get(at);
        if place >= from {
            return Reached {
                number: at,
                place: Some(place),
            };
        }
        at += 1;
    }
    Reached::at(places, forward(places, at, len, from))
}

/// The same where nothing is known of the number: the search begins where it would be if all places were equally far from
/// each other.
pub(crate) fn first_place(places: &TermPlaces<'_>, from: u32) -> Reached
    ensures number { result.number ≡ below from places.now }
    ensures place { result.place ≡ slice_get places.now result.number }
    ensures ascending { IsTrue (is_ascending places.now) }
{
    let len = places.len();
    if len == 0 {
        return Reached {
            number: 0,
            place: None,
        };
    }
    let first = places.get(0);
    if first >= from {
        return Reached {
            number: 0,
            place: Some(first),
        };
    }
    let last = places.get(len - 1);
    if last < from {
        return Reached {
            number: len,
            place: None,
        };
    }
    Reached::at(
        places,
        around(places, likely_number(len, last, from), len - 1, from),
    )
}

/// How many of so many places are before a position if they are equally far from each other up to the last one.
fn likely_number(len: usize, last: u32, from: u32) -> usize
    requires { 0 < len }
    ensures { result < len }
{
    let number = len.saturating_mul(from as usize) / (last as usize + 1);
    if number < len { number } else { len - 1 }
}

/// How many places are before a position, where they are at most so many. The search begins at a number up to that.
fn around(places: &TermPlaces<'_>, near: usize, end: usize, from: u32) -> usize
    requires ascending { IsTrue (is_ascending places.now) }
    requires near { near ≤ end }
    requires to { below from places.now ≤ end }
    requires within { end ≤ length places.now }
    ensures { result ≡ below from places.now }
{
    if near == 0 {
        return forward(places, 0, end, from);
    }
    if places.get(near - 1) < from {
        return forward(places, near, end, from);
    }
    backward(places, near - 1, from)
}

/// The same where at least and at most so many are before the position.
fn forward(places: &TermPlaces<'_>, start: usize, end: usize, from: u32) -> usize
    requires ascending { IsTrue (is_ascending places.now) }
    requires from { start ≤ below from places.now }
    requires to { below from places.now ≤ end }
    requires within { end ≤ length places.now }
    ensures { result ≡ below from places.now }
{
    let mut low = start;
    while low - start < end - low {
        let next = low + (low - start);
        if places.get(next) >= from {
            return between(places, low, next, from);
        }
        low = next + 1;
    }
    between(places, low, end, from)
}

/// The same where at most so many are before the position, and likely not many less.
fn backward(places: &TermPlaces<'_>, end: usize, from: u32) -> usize
    requires ascending { IsTrue (is_ascending places.now) }
    requires to { below from places.now ≤ end }
    requires within { end ≤ length places.now }
    ensures { result ≡ below from places.now }
{
    let mut high = end;
    while end - high < high {
        let next = high - (end - high) - 1;
        if places.get(next) < from {
            return between(places, next + 1, high, from);
        }
        high = next;
    }
    between(places, 0, high, from)
}

/// The same where the number is known to be one from `low` to `high`.
fn between(places: &TermPlaces<'_>, low: usize, high: usize, from: u32) -> usize
    requires ascending { IsTrue (is_ascending places.now) }
    requires from { low ≤ below from places.now }
    requires to { below from places.now ≤ high }
    requires within { high ≤ length places.now }
    ensures { result ≡ below from places.now }
{
    let mut low = low;
    let mut high = high;
    while low < high {
        let middle = low + (high - low) / 2;
        if places.get(middle) < from {
            low = middle + 1;
        } else {
            high = middle;
        }
    }
    low
}
