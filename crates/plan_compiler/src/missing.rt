//! Lists that a selection names and that aren't there.

ghost use Rattle.std.specs.Prelude.{◌≡◌, map, flat_map};
ghost use Rattle.std.specs.Option.{option_copied};
ghost use Rattle.ft_syntax.specs.View.{form, forms_of};
ghost use Rattle.plan_compiler.specs.Missing as spec;

use crate::lists::Lists;
use ft_base::{Options, StopChoice, StopSource, StopTerm, ThesaurusChoice, ThesaurusUse};
use ft_syntax::{Selection, Selections};

/// The name of the first stop list or thesaurus, in the order of the selection's printed form, that isn't there. An option that is
/// overridden further in counts too.
#[cycle(missing)]
pub(crate) fn missing_list<'a>(selection: &'a Selection, lists: &Lists) -> Option<&'a str>
    ensures { option_copied result ≡ spec.first_missing lists.now (form selection.now) }
{
    match selection {
        Selection::Words(words) => missing_in_options(&words.options, lists),
        Selection::Or(parts) => missing_in_parts(parts, lists),
        Selection::And(parts) => missing_in_parts(parts, lists),
        Selection::MildNot(left, right) => match missing_list(left, lists) {
            Some(name) => Some(name),
            None => missing_list(right, lists),
        },
        Selection::Not(operand) => missing_list(operand, lists),
        Selection::Filtered(operand, _filter) => missing_list(operand, lists),
        Selection::With(operand, options) => match missing_list(operand, lists) {
            Some(name) => Some(name),
            None => missing_in_options(options, lists),
        },
    }
}

#[cycle(missing)]
fn missing_in_parts<'a>(parts: &'a Selections, lists: &Lists) -> Option<&'a str>
    ensures { option_copied result ≡ spec.missing_among lists.now (spec.all_names (forms_of (map form parts.now))) }
{
    for part in parts.as_slice() {
        if let Some(name) = missing_list(part, lists) {
            return Some(name);
        }
    }
    None
}

fn missing_in_options<'a>(options: &'a Options, lists: &Lists) -> Option<&'a str>
    ensures { option_copied result ≡ spec.missing_among lists.now (spec.option_names options.now) }
{
    match missing_thesaurus(&options.thesaurus, lists) {
        Some(name) => Some(name),
        None => missing_stop_list(&options.stop_words, lists),
    }
}

fn missing_thesaurus<'a>(choice: &'a Option<ThesaurusChoice>, lists: &Lists) -> Option<&'a str>
    ensures { option_copied result ≡ spec.missing_among lists.now (spec.thesaurus_names choice.now) }
{
    match choice {
        None => None,
        Some(ThesaurusChoice::No) => None,
        Some(ThesaurusChoice::Uses(uses)) => missing_in_uses(uses.as_slice(), lists),
    }
}

fn missing_in_uses<'a>(uses: &'a [ThesaurusUse], lists: &Lists) -> Option<&'a str>
    ensures { option_copied result ≡ spec.missing_among lists.now (map (λ choice. spec.thesaurus choice.name) uses.now) }
{
    for choice in uses {
        if !lists.has_thesaurus(choice.name.as_str()) {
            return Some(choice.name.as_str());
        }
    }
    None
}

fn missing_stop_list<'a>(choice: &'a Option<StopChoice>, lists: &Lists) -> Option<&'a str>
    ensures { option_copied result ≡ spec.missing_among lists.now (spec.stop_names choice.now) }
{
    match choice {
        None => None,
        Some(StopChoice::No) => None,
        Some(StopChoice::Sets(terms)) => missing_in_terms(terms.as_slice(), lists),
    }
}

fn missing_in_terms<'a>(terms: &'a [StopTerm], lists: &Lists) -> Option<&'a str>
    ensures { option_copied result ≡ spec.missing_among lists.now (flat_map (λ term. spec.source_names term.source) terms.now) }
{
    for term in terms {
        if let Some(name) = missing_source(&term.source, lists) {
            return Some(name);
        }
    }
    None
}

fn missing_source<'a>(source: &'a StopSource, lists: &Lists) -> Option<&'a str>
    ensures { option_copied result ≡ spec.missing_among lists.now (spec.source_names source.now) }
{
    match source {
        StopSource::Written(_texts) => None,
        StopSource::At(name) => {
            if lists.has_stop(name.as_str()) {
                None
            } else {
                Some(name.as_str())
            }
        }
    }
}
