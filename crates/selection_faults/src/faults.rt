//! What is wrong with a selection that was read.

ghost use Rattle.std.specs.Prelude.{◌≡◌, IfOk};
ghost use Rattle.selection_grammar.specs.View.{tree};
ghost use Rattle.selection_faults.specs.Faults.{fault_of};
ghost use Rattle.selection_faults.specs.Kinds as kinds;
ghost use Rattle.selection_faults.specs.steps.Walk as walks;

use crate::least_places::{LeastPlaces, least_places};
use crate::placed_fault::PlacedFault;
use crate::strings::{StringWalk, pass};
use ft_base::{Memory, QueryFault};
use selection_grammar::Parsed;
use std::alloc::Global;

/// The fault of a selection that was read, if it has one: the one at the least place, and at one place the one whose kind stands first in
/// `QueryFault`.
pub fn first_fault(alloc: Global, parsed: &Parsed) -> Result<Option<QueryFault>, Memory>
    ensures { IfOk result (λ fault. fault ≡ fault_of (tree parsed.now)) }
{
    let mut strings = no_strings();
    pass(alloc, &mut strings, false, parsed)?;
    Ok(fault(strings, least_places(parsed)))
}

fn no_strings() -> StringWalk
    ensures { result ≡ walks.start }
{
    StringWalk {
        phrases: 0,
        past_at: None,
        bad_at: None,
    }
}

fn fault(strings: StringWalk, places: LeastPlaces) -> Option<QueryFault>
    ensures { result ≡ kinds.fault_at strings.past_at places.options_twice strings.bad_at places.mild_not_excludes places.inside_filters }
{
    let mut first = inside_filter(places.inside_filters);
    first = earlier(mild_not_exclude(places.mild_not_excludes), first);
    first = earlier(bad_wildcard(strings.bad_at), first);
    first = earlier(option_twice(places.options_twice), first);
    first = earlier(phrases(strings.past_at), first);
    first.map(|placed| placed.fault)
}

fn phrases(at: Option<usize>) -> Option<PlacedFault>
    ensures { result ≡ kinds.phrases at }
{
    at.map(|at| PlacedFault {
        at,
        fault: QueryFault::Phrases { at },
    })
}

fn option_twice(at: Option<usize>) -> Option<PlacedFault>
    ensures { result ≡ kinds.option_twice at }
{
    at.map(|at| PlacedFault {
        at,
        fault: QueryFault::OptionTwice { at },
    })
}

fn bad_wildcard(at: Option<usize>) -> Option<PlacedFault>
    ensures { result ≡ kinds.bad_wildcard at }
{
    at.map(|at| PlacedFault {
        at,
        fault: QueryFault::BadWildcard { at },
    })
}

fn mild_not_exclude(at: Option<usize>) -> Option<PlacedFault>
    ensures { result ≡ kinds.mild_not_exclude at }
{
    at.map(|at| PlacedFault {
        at,
        fault: QueryFault::MildNotExclude { at },
    })
}

fn inside_filter(at: Option<usize>) -> Option<PlacedFault>
    ensures { result ≡ kinds.inside_filter at }
{
    at.map(|at| PlacedFault {
        at,
        fault: QueryFault::InsideFilter { at },
    })
}

/// The fault at the lesser place; at one place the first.
fn earlier(first: Option<PlacedFault>, second: Option<PlacedFault>) -> Option<PlacedFault>
    ensures { result ≡ kinds.sooner first second }
{
    match (first, second) {
        (None, _) => second,
        (Some(_), None) => first,
        (Some(a), Some(b)) => Some(if a.at <= b.at { a } else { b }),
    }
}
