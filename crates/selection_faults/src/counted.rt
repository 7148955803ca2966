//! Counted shapes among selections that were read.
#![tactic(auto, using(crate::proofs::TreeViews::views), unfolding(counted_shapes::specs::Shapes::is_shape, counted_shapes::specs::Shapes::is_bare, counted_shapes::specs::Held::needs_hit, selection_grammar::specs::Form::form_of))]

ghost use Rattle.std.specs.Prelude.{◌≡◌, ◌&&◌, map, option_map, Some};
ghost use Rattle.all_matches.specs.Allowed.{has_no_range};
ghost use Rattle.counted_shapes.specs.Accepted.{is_counted as is_counted_form};
ghost use Rattle.counted_shapes.specs.Held as held;
ghost use Rattle.counted_shapes.specs.Shapes as shapes;
ghost use Rattle.selection_grammar.specs.Form.{form_of, forms_of};
ghost use Rattle.selection_grammar.specs.Tree.{trees_of};
ghost use Rattle.selection_grammar.specs.View.{tree};

use counted_shapes::field_of;
use ft_base::{Filter, Items, Mode, Range};
use selection_grammar::{Parsed, ParsedWords, PlacedTimes};

/// Whether the filter round the selection counts in one window, sentence or paragraph how often words occur, so that `occurs` may stand there.
pub(crate) fn is_counted(operand: &Parsed, filter: Filter) -> bool
    ensures { result ≡ is_counted_form (form_of (tree operand.now)) filter }
{
    field_of(filter).is_some() && is_shape(operand) && needs_hit(operand)
}

/// Whether the selection is words of which one hit is taken, `ftnot` of such words, or `ftand` of these.
#[cycle(shape)]
fn is_shape(parsed: &Parsed) -> bool
    ensures { result ≡ shapes.is_shape (form_of (tree parsed.now)) }
{
    match parsed {
        Parsed::Words(words) => takes_one(words.mode),
        Parsed::Or(_parts) => false,
        Parsed::And(parts) => are_shapes(parts),
        Parsed::MildNot(_left, _right) => false,
        Parsed::Not(_at, operand) => is_bare(operand),
        Parsed::Filtered(_operand, _filter) => false,
        Parsed::With(operand, _options) => is_shape(operand),
    }
}

#[cycle(shape)]
fn are_shapes(parts: &Items<Parsed>) -> bool
    ensures { result ≡ shapes.are_shapes (forms_of (trees_of (map tree parts.now))) }
{
    for part in parts.as_slice() {
        if !is_shape(part) {
            return false;
        }
    }
    true
}

/// Whether the selection is words of which one hit is taken, without `occurs`.
fn is_bare(parsed: &Parsed) -> bool
    ensures { result ≡ shapes.is_bare (form_of (tree parsed.now)) }
{
    match parsed {
        Parsed::Words(words) => are_bare_words(words),
        Parsed::Or(_parts) => false,
        Parsed::And(_parts) => false,
        Parsed::MildNot(_left, _right) => false,
        Parsed::Not(_at, _operand) => false,
        Parsed::Filtered(_operand, _filter) => false,
        Parsed::With(operand, _options) => is_bare(operand),
    }
}

fn are_bare_words(words: &ParsedWords) -> bool
    ensures { result ≡ (held.takes_one words.now.mode && has_no_range (option_map (λ t. t.range) words.now.times)) }
{
    takes_one(words.mode) && has_no_times(words.times)
}

fn has_no_times(times: Option<PlacedTimes>) -> bool
    ensures { result ≡ has_no_range (option_map (λ t. t.range) times) }
{
    match times {
        None => true,
        Some(_times) => false,
    }
}

/// Whether one of the phrases of a value is found in each of its places, not all of them.
fn takes_one(mode: Mode) -> bool
    ensures { result ≡ held.takes_one mode }
{
    match mode {
        Mode::Any | Mode::AnyWord | Mode::Phrase => true,
        Mode::All | Mode::AllWords => false,
    }
}

/// Whether the selection asks for a hit.
#[cycle(hit)]
fn needs_hit(parsed: &Parsed) -> bool
    ensures { result ≡ held.needs_hit (form_of (tree parsed.now)) }
{
    match parsed {
        Parsed::Words(words) => words_need_hit(words),
        Parsed::Or(parts) => each_needs_hit(parts),
        Parsed::And(parts) => some_needs_hit(parts),
        Parsed::MildNot(_left, _right) => false,
        Parsed::Not(_at, _operand) => false,
        Parsed::Filtered(_operand, _filter) => false,
        Parsed::With(operand, _options) => needs_hit(operand),
    }
}

#[cycle(hit)]
fn each_needs_hit(parts: &Items<Parsed>) -> bool
    ensures { result ≡ held.each_needs_hit (forms_of (trees_of (map tree parts.now))) }
{
    for part in parts.as_slice() {
        if !needs_hit(part) {
            return false;
        }
    }
    true
}

#[cycle(hit)]
fn some_needs_hit(parts: &Items<Parsed>) -> bool
    ensures { result ≡ held.some_needs_hit (forms_of (trees_of (map tree parts.now))) }
{
    for part in parts.as_slice() {
        if needs_hit(part) {
            return true;
        }
    }
    false
}

fn words_need_hit(words: &ParsedWords) -> bool
    ensures { result ≡ (held.takes_one words.now.mode && held.needs_one (option_map (λ t. t.range) words.now.times)) }
{
    takes_one(words.mode) && needs_one(words.times)
}

/// Whether that number of times asks for a hit.
fn needs_one(times: Option<PlacedTimes>) -> bool
    ensures { result ≡ held.needs_one (option_map (λ t. t.range) times) }
{
    match times {
        None => true,
        Some(times) => asks_for_one(times.range),
    }
}

fn asks_for_one(range: Range) -> bool
    ensures { result ≡ held.needs_one (Some range) }
{
    match range {
        Range::Exactly(count) => count > 0,
        Range::AtLeast(least) => least > 0,
        Range::AtMost(_most) => false,
        Range::FromTo(least, _most) => least > 0,
    }
}
