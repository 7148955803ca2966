//! Where sentences or paragraphs start among the places that are kept.
ghost use Rattle.std.specs.Prelude.{◌≡◌, ◌≤◌, ◌<◌, ◌+◌, ◌-◌, ◌^◌, ◌∷◌, ◌++◌, if◌then◌else◌, [], ℕ, List, length, map, IfOk, OnOk, None};
ghost use Rattle.std.specs.Option.{ForSome};
ghost use Rattle.ft_base.specs.Places.{last_place};
ghost use Rattle.all_matches.specs.Spans.{places_in};
ghost use Rattle.index_cursors.specs.SpanHits.{started};
ghost use Rattle.ignore_view.specs.steps.Kept.{changes, found_with, is_number, places_of};

use ft_base::{Memory, Places, Span};
use std::alloc::Global;

/// A walk over the places that are kept: what it found among them, counted anew from 1; the number of the last one; and how many
/// there were.
#[derive(Drop)]
pub struct Walk {
    pub found: Places,
    pub number: Option<usize>,
    pub passed: u32,
}

/// At which of the places of the parts, counted anew from 1, a sentence begins, where sentences start at these places of the text: at
/// those whose sentence isn't that of the place before. Of paragraphs the same.
pub(crate) fn kept_starts(
    alloc: Global,
    starts: &Places,
    parts: &Vec<Span>,
) -> Result<Places, Memory>
    requires { length (places_of parts.now.items) < 2 ^ 32 }
    ensures { IfOk result (λ found. found ≡ changes None 1 (map (started starts.now) (places_of parts.now.items))) }
{
    let mut walk = Walk {
        found: Places::new(alloc),
        number: None,
        passed: 0,
    };
    for part in parts {
        pass_part(&mut walk, starts, *part)?;
    }
    Ok(walk.found)
}

/// Passes the places of a part.
fn pass_part(walk: &mut Walk, starts: &Places, part: Span) -> Result<(), Memory>
    requires room { walk.old.passed + (part.to - part.from) < 2 ^ 32 }
    requires ahead { ForSome (last_place walk.old.found) (λ last. last ≤ walk.old.passed) }
    ensures found { OnOk result ((rest : List ℕ) → found_with walk.new rest ≡ found_with walk.old (map (started starts.now) (places_in part) ++ rest)) }
    ensures passed { OnOk result (walk.new.passed ≡ walk.old.passed + (part.to - part.from)) }
    ensures ahead { OnOk result (ForSome (last_place walk.new.found) (λ last. last ≤ walk.new.passed)) }
{
    let mut number = started_at(starts, part.from);
    for place in part.from..part.to {
        number = started_from(starts, number, place);
        pass(walk, number)?;
    }
    Ok(())
}

/// Passes a place of that number.
fn pass(walk: &mut Walk, number: usize) -> Result<(), Memory>
    requires room { walk.old.passed + 1 < 2 ^ 32 }
    requires ahead { ForSome (last_place walk.old.found) (λ last. last ≤ walk.old.passed) }
    ensures found { OnOk result ((rest : List ℕ) → found_with walk.new rest ≡ found_with walk.old (number ∷ rest)) }
    ensures passed { OnOk result (walk.new.passed ≡ walk.old.passed + 1) }
    ensures ahead { OnOk result (ForSome (last_place walk.new.found) (λ last. last ≤ walk.new.passed)) }
{
    let place = walk.passed + 1;
    push_new(&mut walk.found, is_number(walk.number, number), place)?;
    walk.number = Some(number);
    walk.passed = place;
    Ok(())
}

/// Puts the place after the others, unless its number is the same as before.
fn push_new(found: &mut Places, same: bool, place: u32) -> Result<(), Memory>
    requires { ForSome (last_place found.old) (λ last. last < place) }
    ensures found { OnOk result (found.new ≡ found.old ++ (if same then [] else place ∷ [])) }
    ensures ahead { OnOk result (ForSome (last_place found.new) (λ last. last ≤ place)) }
{
    if same {
        return Ok(());
    }
    found.push(place)?;
    Ok(())
}

/// Whether the number is that of the place before.
fn is_number(before: Option<usize>, number: usize) -> bool
    ensures { result ≡ is_number before number }
{
    match before {
        Some(other) => number == other,
        None => false,
    }
}

/// How many of the starts are at the place or before it, found by halves.
fn started_at(starts: &Places, place: u32) -> usize
    ensures { result ≡ started starts.now place }
{
    starts.as_slice().partition_point(|start| *start <= place)
}

/// The same, where it is known of so many.
fn started_from(starts: &Places, known: usize, place: u32) -> usize
    requires { known ≤ started starts.now place }
    ensures { result ≡ started starts.now place }
{
    let items = starts.as_slice();
    let mut number = known;
    while number < items.len() && items[number] <= place {
        number += 1;
    }
    number
}
