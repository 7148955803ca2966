//! The least places in a selection of what it may not hold everywhere.

ghost use Rattle.std.specs.Prelude.{◌≡◌, map, option_map};
ghost use Rattle.selection_grammar.specs.View.{tree};
ghost use Rattle.selection_faults.specs.LeastPlaces as spec;

use crate::counted::is_counted;
use crate::options::second_option;
use ft_base::Items;
use selection_grammar::{Parsed, ParsedWords, PlacedOption};

/// The least place in a selection, or in several, of each of these.
#[derive(Clone, Copy)]
pub(crate) struct LeastPlaces {
    /// `ftnot`
    pub nots: Option<usize>,
    /// `occurs`
    pub times: Option<usize>,
    /// an `ftnot` in the operand of another
    pub nested_nots: Option<usize>,
    /// the second option of one group on one selection
    pub options_twice: Option<usize>,
    /// an `ftnot` or `occurs` in an operand of `not in`
    pub mild_not_excludes: Option<usize>,
    /// a nested `ftnot` in a selection with a filter, or an `occurs` in one that is no counted shape
    pub inside_filters: Option<usize>,
}

/// The least places in a selection.
#[cycle(least)]
pub(crate) fn least_places(parsed: &Parsed) -> LeastPlaces
    ensures { result ≡ spec.least_places (tree parsed.now) }
{
    match parsed {
        Parsed::Words(words) => of_words(words),
        Parsed::Or(parts) => of_parts(parts),
        Parsed::And(parts) => of_parts(parts),
        Parsed::MildNot(left, right) => mild_not(least_places(left), least_places(right)),
        Parsed::Not(at, operand) => negated(*at, least_places(operand)),
        Parsed::Filtered(operand, filter) => {
            filtered(is_counted(operand, *filter), least_places(operand))
        }
        Parsed::With(operand, options) => with_options(least_places(operand), options),
    }
}

#[cycle(least)]
fn of_parts(parts: &Items<Parsed>) -> LeastPlaces
    ensures { result ≡ spec.least_places_of (map tree parts.now) }
{
    let mut least = none();
    for part in parts.as_slice() {
        least = both(least, least_places(part));
    }
    least
}

fn none() -> LeastPlaces
    ensures { result ≡ spec.no_places }
{
    LeastPlaces {
        nots: None,
        times: None,
        nested_nots: None,
        options_twice: None,
        mild_not_excludes: None,
        inside_filters: None,
    }
}

fn of_words(words: &ParsedWords) -> LeastPlaces
    ensures { result ≡ spec.of_words words.now }
{
    LeastPlaces {
        times: place_of_times(words),
        options_twice: second_option(words.options.as_slice()),
        ..none()
    }
}

fn place_of_times(words: &ParsedWords) -> Option<usize>
    ensures { result ≡ option_map (λ t. t.at) words.now.times }
{
    match words.times {
        None => None,
        Some(times) => Some(times.at),
    }
}

/// The least places in two selections.
fn both(first: LeastPlaces, second: LeastPlaces) -> LeastPlaces
    ensures { result ≡ spec.both first second }
{
    LeastPlaces {
        nots: sooner(first.nots, second.nots),
        times: sooner(first.times, second.times),
        nested_nots: sooner(first.nested_nots, second.nested_nots),
        options_twice: sooner(first.options_twice, second.options_twice),
        mild_not_excludes: sooner(first.mild_not_excludes, second.mild_not_excludes),
        inside_filters: sooner(first.inside_filters, second.inside_filters),
    }
}

/// The least places in `not in`, by those in its operands.
fn mild_not(left: LeastPlaces, right: LeastPlaces) -> LeastPlaces
    ensures { result ≡ spec.of_mild_not left right }
{
    let operands = both(left, right);
    LeastPlaces {
        mild_not_excludes: sooner(
            sooner(excludes(left), excludes(right)),
            operands.mild_not_excludes,
        ),
        ..operands
    }
}

/// The least place of an `ftnot` or an `occurs`.
fn excludes(places: LeastPlaces) -> Option<usize>
    ensures { result ≡ spec.excludes places }
{
    sooner(places.nots, places.times)
}

/// The least places in a negated selection, by those in its operand.
fn negated(at: usize, operand: LeastPlaces) -> LeastPlaces
    ensures { result ≡ spec.of_not at operand }
{
    LeastPlaces {
        nots: sooner(Some(at), operand.nots),
        nested_nots: sooner(operand.nots, operand.nested_nots),
        ..operand
    }
}

/// The least places in a selection with a filter, which is a counted shape or isn't one, by those in its operand.
fn filtered(counted: bool, operand: LeastPlaces) -> LeastPlaces
    ensures { result ≡ spec.of_filtered counted operand }
{
    let times = if counted { None } else { operand.times };
    LeastPlaces {
        inside_filters: sooner(sooner(operand.nested_nots, times), operand.inside_filters),
        ..operand
    }
}

/// The least places in a selection with options, by those in its operand.
fn with_options(operand: LeastPlaces, options: &Items<PlacedOption>) -> LeastPlaces
    ensures { result ≡ spec.of_with operand options.now }
{
    LeastPlaces {
        options_twice: sooner(second_option(options.as_slice()), operand.options_twice),
        ..operand
    }
}

/// The lesser one of two places that may be there.
pub(crate) fn sooner(first: Option<usize>, second: Option<usize>) -> Option<usize>
    ensures { result ≡ spec.sooner first second }
{
    match (first, second) {
        (None, _) => second,
        (Some(_), None) => first,
        (Some(a), Some(b)) => Some(a.min(b)),
    }
}
