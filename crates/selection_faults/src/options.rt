//! Options of one selection.

ghost use Rattle.std.specs.Prelude.{◌≡◌, []};
ghost use Rattle.selection_faults.specs.Options as spec;
ghost use Rattle.selection_faults.specs.Strings as strings;
ghost use Rattle.selection_faults.specs.steps.Walk as walks;

use selection_grammar::{MatchOption, PlacedOption};

/// Whether two options are of one group, so that only one of them may stand on a selection.
fn same_group(first: &MatchOption, second: &MatchOption) -> bool
    ensures { result ≡ spec.same_group first.now second.now }
{
    match (first, second) {
        (MatchOption::Case(_), MatchOption::Case(_)) => true,
        (MatchOption::Diacritics(_), MatchOption::Diacritics(_)) => true,
        (MatchOption::Stemming(_), MatchOption::Stemming(_)) => true,
        (MatchOption::Thesaurus(_), MatchOption::Thesaurus(_)) => true,
        (MatchOption::StopWords(_), MatchOption::StopWords(_)) => true,
        (MatchOption::Language(_), MatchOption::Language(_)) => true,
        (MatchOption::Wildcards(_), MatchOption::Wildcards(_)) => true,
        _ => false,
    }
}

/// Whether an option has one of its group among others.
fn is_second(before: &[PlacedOption], option: &PlacedOption) -> bool
    ensures { result ≡ spec.is_second before.now option.now }
{
    before
        .iter()
        .any(|other| same_group(&other.option, &option.option))
}

/// The place of the first option that has one of its group before it. There are seven groups, so one of the first eight has.
pub(crate) fn second_option(options: &[PlacedOption]) -> Option<usize>
    ensures { result ≡ spec.second_option options.now }
{
    for i in 0..options.len() {
        if is_second(&options[..i], &options[i]) {
            return Some(options[i].at);
        }
    }
    None
}

/// Whether wildcards are on inside options: an option that stands further in counts.
pub(crate) fn wildcards_inside(around: bool, options: &[PlacedOption]) -> bool
    ensures { result ≡ strings.wildcards_inside around options.now }
{
    let mut wildcards = around;
    for option in options {
        wildcards = wildcards_after(wildcards, &option.option);
    }
    wildcards
}

fn wildcards_after(wildcards: bool, option: &MatchOption) -> bool
    ensures { result ≡ walks.wildcards_after wildcards option.now }
{
    match option {
        MatchOption::Wildcards(on) => *on,
        _ => wildcards,
    }
}
