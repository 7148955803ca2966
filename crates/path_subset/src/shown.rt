//! Which selection says what the selected elements show.
#![tactic(auto, using(
// what a predicate stands for
path_grammar::proofs::Views::view_number, path_grammar::proofs::Views::view_holds))]

ghost use Rattle.std.specs.Prelude.{◌≡◌, cond, map, Some, None};
ghost use Rattle.path_grammar.specs.Form as form;
ghost use Rattle.path_grammar.specs.View.{condition, predicate, step};
ghost use Rattle.path_subset.specs.Paths.{found_form, read_form};
ghost use Rattle.path_subset.specs.Shown as spec;
ghost use Rattle.path_subset.specs.Shown.{shown_number, shown_selection};

use crate::ReadPath;
use crate::path::Found;
use ft_base::Items;
use path_grammar::{Condition, Predicate, Predicates, Steps};
use text_lines::skip_blanks;

impl ReadPath {
    /// The number of the selection in the last predicate of the last step, where that is `. contains text` with the selection and nothing
    /// else, not even parentheses round it or `without content` behind it: it says what the selected elements show. The text is the one from which the path was read.
    pub fn shown(&self, text: &str) -> Option<usize>
        ensures { result ≡ shown_number text.now (read_form self.now) }
    {
        match steps_selection(&self.path.steps) {
            Some(number) => bare_selection(&self.selections, number, text),
            None => None,
        }
    }
}

/// The number, where a bracket closes behind the selection of that number.
fn bare_selection(selections: &Items<Found>, number: usize, text: &str) -> Option<usize>
    ensures { result ≡ spec.bare_selection text.now (map found_form selections.now) (Some number) }
{
    match selections.as_slice().get(number) {
        Some(found) => number_if(is_before_bracket(text.as_bytes(), found.extent.to), number),
        None => None,
    }
}

fn number_if(counts: bool, number: usize) -> Option<usize>
    ensures { result ≡ cond counts (Some number) None }
{
    if counts { Some(number) } else { None }
}

/// Whether a text goes on with a closing bracket behind a place, which blanks may stand before.
fn is_before_bracket(text: &[u8], place: usize) -> bool
    ensures { result ≡ spec.is_before_bracket text.now place }
{
    if place > text.len() {
        return false;
    }
    let behind = &text[place..];
    behind[skip_blanks(behind)..].starts_with(b"]")
}

fn steps_selection(steps: &Steps) -> Option<usize>
    ensures { result ≡ shown_selection (form.steps (map step steps.now)) }
{
    match steps.as_slice().last() {
        Some(last) => predicates_selection(&last.predicates),
        None => None,
    }
}

fn predicates_selection(predicates: &Predicates) -> Option<usize>
    ensures { result ≡ spec.predicates_selection (form.predicates (map predicate predicates.now)) }
{
    match predicates.as_slice().last() {
        Some(last) => predicate_selection(last),
        None => None,
    }
}

fn predicate_selection(filter: &Predicate) -> Option<usize>
    ensures { result ≡ spec.predicate_selection (predicate filter.now) }
{
    match filter {
        Predicate::Number(_) => None,
        Predicate::Holds(holds) => condition_selection(holds),
    }
}

fn condition_selection(holds: &Condition) -> Option<usize>
    ensures { result ≡ spec.condition_selection (condition holds.now) }
{
    match holds {
        Condition::Contains {
            steps,
            selection,
            ignored,
        } => {
            if steps.is_empty() && ignored.is_empty() {
                Some(*selection)
            } else {
                None
            }
        }
        _ => None,
    }
}
