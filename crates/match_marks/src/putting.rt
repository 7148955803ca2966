//! The places of what is shown, put into one list.

ghost use Rattle.std.specs.Prelude.{◌≡◌, ◌≤◌, ◌++◌, [], ◌∷◌, suc, if◌then◌else◌, map, true, IfOk, OnOk};
ghost use Rattle.std.specs.List.{list_all};
ghost use Rattle.best_hits.specs.Best.{spans_of};
ghost use Rattle.ft_operators.specs.Tuples.{walk_of};
ghost use Rattle.ft_operators.specs.Standing.{includes_now};
ghost use Rattle.ft_operators.specs.Walk.{tuple_of};
ghost use Rattle.index_phrases.specs.Cursors.{state_of};
ghost use Rattle.plan_runs.specs.OpenedParts.{part_says};
ghost use Rattle.plan_runs.specs.steps.OpenedOperators.{aims_of};
ghost use Rattle.match_marks.specs.steps.ShownRuns.{MayChoose, MayShow, choice_of, choosing, each_of, first_of, in_window, least_of, showing, walk_may};
ghost use Rattle.match_marks.specs.steps.WindowRuns.{all_aims, phrase_may};

use crate::shown::{FirstRun, LeastRun, Shown, ShownRun, WindowRun};
use crate::window::least_joined;
use ft_base::{DocId, Hit, Memory, Span, Steps};
use ft_operators::Tuples;
use index_phrases::PhraseCursor;
use std::sync::ledger::Ledger;

/// Puts the places of what is shown in the span of the document to the end.
#[cycle(put)]
pub(crate) fn put_shown<'v, L: Ledger>(
    shown: &mut Shown<'v>,
    doc: DocId,
    span: Span,
    spans: &mut Vec<Span>,
    steps: &mut Steps<L>,
) -> Result<(), Memory>
    requires { MayShow doc.0 span (showing shown.old) }
    ensures spans { OnOk result (spans.new.items ≡ spans.old.items ++ (showing shown.old).spans doc.0 span) }
    ensures same { showing shown.new ≡ showing shown.old }
    ensures grown { steps.old ≤ steps.new }
{
    match shown {
        Shown::First(run) => put_first(run, doc, span, spans, steps),
        Shown::Or(parts) => put_choice(parts, doc, span, spans, steps),
        Shown::And(parts) => put_each(parts, doc, span, spans, steps),
        Shown::Nothing => Ok(()),
        Shown::Least(run) => put_least(run, doc, span, spans, steps),
        Shown::Window(run) => put_window(run, doc, span, spans, steps),
    }
}

#[cycle(put)]
fn put_each<'v, L: Ledger>(
    parts: &mut Vec<Shown<'v>>,
    doc: DocId,
    span: Span,
    spans: &mut Vec<Span>,
    steps: &mut Steps<L>,
) -> Result<(), Memory>
    requires { MayShow doc.0 span (each_of (map showing parts.old.items)) }
    ensures spans { OnOk result (spans.new.items ≡ spans.old.items ++ (each_of (map showing parts.old.items)).spans doc.0 span) }
    ensures same { map showing parts.new.items ≡ map showing parts.old.items }
    ensures grown { steps.old ≤ steps.new }
{
    for number in 0..parts.len() {
        put_shown(&mut parts[number], doc, span, spans, steps)?;
    }
    Ok(())
}

#[cycle(put)]
fn put_choice<'v, L: Ledger>(
    parts: &mut Vec<ShownRun<'v>>,
    doc: DocId,
    span: Span,
    spans: &mut Vec<Span>,
    steps: &mut Steps<L>,
) -> Result<(), Memory>
    requires { MayShow doc.0 span (choice_of (map choosing parts.old.items)) }
    ensures spans { OnOk result (spans.new.items ≡ spans.old.items ++ (choice_of (map choosing parts.old.items)).spans doc.0 span) }
    ensures same { map choosing parts.new.items ≡ map choosing parts.old.items }
    ensures grown { steps.old ≤ steps.new }
{
    for number in 0..parts.len() {
        if put_if_it_holds(&mut parts[number], doc, span, spans, steps)? {
            return Ok(());
        }
    }
    Ok(())
}

/// Puts what is shown of a part of a choice, if the part holds, and says whether it does.
#[cycle(put)]
fn put_if_it_holds<'v, L: Ledger>(
    run: &mut ShownRun<'v>,
    doc: DocId,
    span: Span,
    spans: &mut Vec<Span>,
    steps: &mut Steps<L>,
) -> Result<bool, Memory>
    requires { MayChoose doc.0 span (choosing run.old) }
    ensures holds { IfOk result (λ holds. holds ≡ part_says (choosing run.old).own doc.0 span) }
    ensures spans { IfOk result (λ holds. spans.new.items ≡ spans.old.items ++ (if holds then (choosing run.old).spans doc.0 span else [])) }
    ensures same { choosing run.new ≡ choosing run.old }
    ensures grown { steps.old ≤ steps.new }
{
    if !run.part.holds(doc, span, steps) {
        return Ok(false);
    }
    put_shown(&mut run.shown, doc, span, spans, steps)?;
    Ok(true)
}

fn put_first<'v, L: Ledger>(
    run: &mut FirstRun<'v>,
    doc: DocId,
    span: Span,
    spans: &mut Vec<Span>,
    steps: &mut Steps<L>,
) -> Result<(), Memory>
    requires { walk_may (aims_of run.old.tuples) doc.0 span ≡ true }
    ensures spans { OnOk result (spans.new.items ≡ spans.old.items ++ (first_of run.old.most (aims_of run.old.tuples)).spans doc.0 span) }
    ensures most { run.new.most ≡ run.old.most }
    ensures same { aims_of run.new.tuples ≡ aims_of run.old.tuples }
    ensures grown { steps.old ≤ steps.new }
{
    run.tuples.aim(doc, span, steps);
    let mut there = run.tuples.first(steps);
    for _number in 0..run.most {
        if !there {
            return Ok(());
        }
        put_present(&run.tuples, spans)?;
        there = run.tuples.next(steps);
    }
    Ok(())
}

/// Puts the places of the includes of the present way, if there is one.
fn put_present(tuples: &Tuples<PhraseCursor<'_>>, spans: &mut Vec<Span>) -> Result<(), Memory>
    requires { (walk_of state_of tuples.now).tuple ≡ tuple_of (walk_of state_of tuples.now).rest }
    ensures { OnOk result (spans.new.items ≡ spans.old.items ++ spans_of (includes_now (walk_of state_of tuples.now).rest)) }
{
    match tuples.here() {
        Some(includes) => put_hits(includes.hits(), spans),
        None => Ok(()),
    }
}

fn put_least<'v, L: Ledger>(
    run: &mut LeastRun<'v>,
    doc: DocId,
    span: Span,
    spans: &mut Vec<Span>,
    steps: &mut Steps<L>,
) -> Result<(), Memory>
    requires { walk_may (aims_of run.old.tuples) doc.0 span ≡ true }
    ensures spans { OnOk result (spans.new.items ≡ spans.old.items ++ (least_of (aims_of run.old.tuples)).spans doc.0 span) }
    ensures same { aims_of run.new.tuples ≡ aims_of run.old.tuples }
    ensures grown { steps.old ≤ steps.new }
{
    run.tuples
        .least_at(doc, span, &mut run.chain, &mut run.least, steps)?;
    put_hits(&run.least, spans)
}

fn put_window<'v, L: Ledger>(
    run: &mut WindowRun<'v>,
    doc: DocId,
    span: Span,
    spans: &mut Vec<Span>,
    steps: &mut Steps<L>,
) -> Result<(), Memory>
    requires { list_all (phrase_may doc.0 span) (all_aims run.old.phrases.items) ≡ true }
    ensures spans { OnOk result (spans.new.items ≡ spans.old.items ++ (in_window run.old.size (all_aims run.old.phrases.items)).spans doc.0 span) }
    ensures size { run.new.size ≡ run.old.size }
    ensures same { all_aims run.new.phrases.items ≡ all_aims run.old.phrases.items }
    ensures grown { steps.old ≤ steps.new }
{
    match least_joined(&mut run.phrases, run.size, doc, span, steps) {
        Some(joined) => put_places(joined.from, joined.to, spans),
        None => Ok(()),
    }
}

/// Puts the places of hits. Those of a document end below the greatest number of 32 bits; for a hit there, behind which nothing can be
/// told, no memory is found.
fn put_hits(hits: &[Hit], spans: &mut Vec<Span>) -> Result<(), Memory>
    ensures { OnOk result (spans.new.items ≡ spans.old.items ++ spans_of hits.now) }
{
    for hit in hits {
        put_places(hit.from, hit.to, spans)?;
    }
    Ok(())
}

/// Puts the places from the first word to the last one.
fn put_places(from: u32, last: u32, spans: &mut Vec<Span>) -> Result<(), Memory>
    ensures { OnOk result (spans.new.items ≡ spans.old.items ++ record { from = from; to = suc last } ∷ []) }
{
    let Some(to) = last.checked_add(1) else {
        return Err(Memory);
    };
    spans.push(Span { from, to })?;
    Ok(())
}
