//! What plans look at.

ghost use Rattle.std.specs.Prelude.{◌≡◌, map};
ghost use Rattle.ft_syntax.specs.View.{form, forms_of};
ghost use Rattle.plan_compiler.specs.Served as spec;

use crate::looks::Looks;
use ft_base::Options;
use ft_syntax::{Selection, Selections};
use match_options::FormChoice;

/// Whether what is looked at of each word of a text serves the selection.
#[cycle(served)]
pub(crate) fn is_served(looks: Looks, selection: &Selection) -> bool
    ensures { result ≡ spec.is_served looks (form selection.now) }
{
    match selection {
        Selection::Words(words) => are_served(looks, &words.options),
        Selection::Or(parts) => all_served(looks, parts),
        Selection::And(parts) => all_served(looks, parts),
        Selection::MildNot(left, right) => is_served(looks, left) && is_served(looks, right),
        Selection::Not(operand) => is_served(looks, operand),
        Selection::Filtered(operand, _filter) => is_served(looks, operand),
        Selection::With(operand, options) => {
            are_served(looks, options) && is_served(looks, operand)
        }
    }
}

#[cycle(served)]
fn all_served(looks: Looks, parts: &Selections) -> bool
    ensures { result ≡ spec.all_served looks (forms_of (map form parts.now)) }
{
    for part in parts.as_slice() {
        if !is_served(looks, part) {
            return false;
        }
    }
    true
}

fn are_served(looks: Looks, options: &Options) -> bool
    ensures { result ≡ spec.are_served looks options.now }
{
    (looks.all_forms || FormChoice::of(options).is_by_key())
        && (looks.stems || !options.stemming.unwrap_or(false))
}
