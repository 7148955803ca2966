//! Counted shapes, compiled.

ghost use Rattle.std.specs.Prelude.{◌≡◌, [], false, true, map, IfOk, IsTrue, OnOk};
ghost use Rattle.ft_base.specs.Selection.{filtered, not_of};
ghost use Rattle.ft_base.specs.Selection as the;
ghost use Rattle.ft_syntax.specs.View.{form};
ghost use Rattle.all_matches.specs.Allowed.{without_times};
ghost use Rattle.counted_shapes.specs.Accepted.{is_counted};
ghost use Rattle.match_options.specs.Items.{item};
ghost use Rattle.plan_compiler.specs.ChosenOptions.{options_of};
ghost use Rattle.plan_compiler.specs.CompiledCounts.{BareCounts, EachItemCompilesTo, ItemsCompileTo, ValueCounts};
ghost use Rattle.plan_compiler.specs.CompiledOperators.{PhrasesCompileTo};
ghost use Rattle.plan_compiler.specs.CompiledSelection.{Compiles};
ghost use Rattle.plan_compiler.specs.Served.{are_served, is_served};
ghost use Rattle.plan_compiler.specs.declared.operator_plan.OperatorPlan.{Phrase};

use crate::chosen::{Chosen, inside};
use crate::compiling_phrases::numbered_phrase;
use crate::compiling_words::phrases_by;
use crate::counted_plan::{CountedPlan, CountedWords};
use crate::lists::Lists;
use crate::looks::Looks;
use crate::node::Node;
use crate::operator_plan::PhraseTests;
use crate::reading::{Reading, reading_of};
use crate::times::{least_times, most_times};
use counted_shapes::field_of;
use ft_base::{Filter, Items, Memory, Words};
use ft_syntax::{Selection, Selections};
use match_options::QueryItem;
use std::alloc::Global;
use std::mem::drop;

/// The compiled form of a counted shape under the filter, under the options that stand round it.
pub(crate) fn compile_counted(
    alloc: Global,
    lists: &Lists,
    looks: Looks,
    chosen: &Chosen<'_>,
    shape: &Selection,
    filter: Filter,
) -> Result<Node, Memory>
    requires counted { is_counted (form shape.now) filter ≡ true }
    requires times { without_times (form shape.now) ≡ false }
    requires options { IsTrue (are_served looks (options_of chosen.now)) }
    requires selection { IsTrue (is_served looks (form shape.now)) }
    ensures { IfOk result (λ node. Compiles looks lists.now (options_of chosen.now) node (filtered (form shape.now) filter)) }
{
    match field_of(filter) {
        Some(field) => {
            let items = counted_items(alloc, lists, chosen, shape)?;
            Ok(Node::Counted(CountedPlan { field, items }))
        }
        None => unreachable!(),
    }
}

/// The items of the shape.
fn counted_items(
    alloc: Global,
    lists: &Lists,
    chosen: &Chosen<'_>,
    shape: &Selection,
) -> Result<Items<CountedWords>, Memory>
    ensures { IfOk result (λ items. ItemsCompileTo lists.now (options_of chosen.now) [] items (form shape.now)) }
{
    let mut items = Items::new(alloc);
    match push_items(alloc, lists, chosen, shape, &mut items) {
        Ok(()) => Ok(items),
        Err(memory) => {
            drop(items);
            Err(memory)
        }
    }
}

/// Puts the items of the selection after the others.
#[cycle(items)]
fn push_items(
    alloc: Global,
    lists: &Lists,
    chosen: &Chosen<'_>,
    selection: &Selection,
    items: &mut Items<CountedWords>,
) -> Result<(), Memory>
    ensures { OnOk result (ItemsCompileTo lists.now (options_of chosen.now) items.old items.new (form selection.now)) }
{
    match selection {
        Selection::Words(words) => push_words(alloc, lists, chosen, words, items),
        Selection::Or(_parts) => Ok(()),
        Selection::And(parts) => push_parts(alloc, lists, chosen, parts, items),
        Selection::MildNot(_left, _right) => Ok(()),
        Selection::Not(operand) => push_negated(alloc, lists, chosen, operand, items),
        Selection::Filtered(_operand, _filter) => Ok(()),
        Selection::With(operand, options) => {
            push_items(alloc, lists, &inside(options, &*chosen), operand, items)
        }
    }
}

#[cycle(items)]
fn push_parts(
    alloc: Global,
    lists: &Lists,
    chosen: &Chosen<'_>,
    parts: &Selections,
    items: &mut Items<CountedWords>,
) -> Result<(), Memory>
    ensures { OnOk result (EachItemCompilesTo lists.now (options_of chosen.now) items.old items.new parts.now) }
{
    for part in parts.as_slice() {
        push_items(alloc, lists, chosen, part, items)?;
    }
    Ok(())
}

/// Words that have to occur as often as their range says.
fn push_words(
    alloc: Global,
    lists: &Lists,
    chosen: &Chosen<'_>,
    words: &Words,
    items: &mut Items<CountedWords>,
) -> Result<(), Memory>
    ensures { OnOk result (ItemsCompileTo lists.now (options_of chosen.now) items.old items.new (the.words words.now)) }
{
    let phrases = value_phrases(alloc, lists, &inside(&words.options, &*chosen), words)?;
    items.push(CountedWords {
        least: least_times(words.times),
        most: most_times(words.times),
        phrases,
    })
}

/// Words that must not occur.
fn push_negated(
    alloc: Global,
    lists: &Lists,
    chosen: &Chosen<'_>,
    operand: &Selection,
    items: &mut Items<CountedWords>,
) -> Result<(), Memory>
    ensures { OnOk result (ItemsCompileTo lists.now (options_of chosen.now) items.old items.new (not_of (form operand.now))) }
{
    let phrases = bare_phrases(alloc, lists, chosen, operand)?;
    items.push(CountedWords {
        least: 0,
        most: Some(0),
        phrases,
    })
}

/// The phrases of words with options round them or not.
#[cycle(bare)]
fn bare_phrases(
    alloc: Global,
    lists: &Lists,
    chosen: &Chosen<'_>,
    selection: &Selection,
) -> Result<Items<PhraseTests>, Memory>
    ensures { IfOk result (λ phrases. BareCounts lists.now (options_of chosen.now) phrases (form selection.now)) }
{
    match selection {
        Selection::Words(words) => {
            value_phrases(alloc, lists, &inside(&words.options, &*chosen), words)
        }
        Selection::Or(_parts) => Ok(Items::new(alloc)),
        Selection::And(_parts) => Ok(Items::new(alloc)),
        Selection::MildNot(_left, _right) => Ok(Items::new(alloc)),
        Selection::Not(_operand) => Ok(Items::new(alloc)),
        Selection::Filtered(_operand, _filter) => Ok(Items::new(alloc)),
        Selection::With(operand, options) => {
            bare_phrases(alloc, lists, &inside(options, &*chosen), operand)
        }
    }
}

/// The phrases of words under the options that hold for them, which are numbered from 1 on.
fn value_phrases(
    alloc: Global,
    lists: &Lists,
    chosen: &Chosen<'_>,
    words: &Words,
) -> Result<Items<PhraseTests>, Memory>
    ensures { IfOk result (λ phrases. ValueCounts lists.now (options_of chosen.now) phrases words.now) }
{
    let reading = reading_of(alloc, lists, chosen)?;
    let phrases = phrases_by(alloc, reading.wildcards, words.mode, &words.values)?;
    let mut next = 1;
    numbered_phrases(alloc, &reading, phrases.as_slice(), &mut next)
}

fn numbered_phrases(
    alloc: Global,
    reading: &Reading<'_>,
    phrases: &[Items<QueryItem>],
    next: &mut u32,
) -> Result<Items<PhraseTests>, Memory>
    ensures { IfOk result (λ found. PhrasesCompileTo reading.now next.old next.new (map Phrase found) (map (map item) phrases.now)) }
{
    let mut found = Items::new(alloc);
    for phrase in phrases {
        found.push(numbered_phrase(alloc, reading, phrase.as_slice(), next)?)?;
    }
    Ok(found)
}
