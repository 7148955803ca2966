//! The best hits of a plan's selection over a version of the index.

ghost use Rattle.std.specs.Prelude.{◌≡◌, ◌≤◌, ◌<◌, ◌+◌, true, option_map, IfOk};
ghost use Rattle.best_hits.specs.Showable.{can_show};
ghost use Rattle.index_meaning.specs.Documents.{document_at, has_document, token_count};
ghost use Rattle.index_phrases.specs.Tokens.{span_tokens};
ghost use Rattle.plan_compiler.specs.PlanMeaning.{plan_form, plan_lists};
ghost use Rattle.plan_runs.specs.RunMeaning.{run_of};
ghost use Rattle.match_marks.specs.MarksMeaning.{marks};
ghost use Rattle.match_marks.specs.steps.ShownRuns.{IsShown, ShowsBest, showing};

use crate::opening::open_shown;
use crate::putting::put_shown;
use crate::shown::Shown;
use ft_base::{DocId, Memory, Span, Steps};
use index_versions::Version;
use plan_compiler::{Plan, ShownPlan, compile_shown};
use plan_runs::{Opening, Run};
use std::alloc::Global;
use std::marker::{Brand, Model};
use std::mem::drop;
use std::sync::ledger::{Blank, Ledger};

/// The best hits of a plan's selection, by which it is shown why a text satisfies it, over a version of the index. Contracts see what a
/// run is of: the selection and the lists of the plan, and the documents of the version.
#[derive(Drop)]
pub struct Marks<'v> {
    /// Whether a text satisfies it.
    run: Run<'v>,
    /// What is shown of a text that does.
    shown: Shown<'v>,
}

impl<'v> Model for Marks<'v> {
    ghost use Rattle.plan_runs.specs.RunMeaning.{RunMeaning};
    ghost use Rattle.plan_runs.specs.RunCode.{run_code};
    ghost use Rattle.match_marks.specs.steps.ShownRuns.{ShowsBest, showing};

    ghost Value = { RunMeaning };

    ghost coded = { run_code };

    ghost view = { λ inside. inside.run };

    ghost invariant = { λ inside. ShowsBest inside.run (showing inside.shown) };
}

impl<'v> Marks<'v> {
    /// Of the plan over a version of the index.
    pub fn open(alloc: Global, plan: &'v Plan, version: &'v Version) -> Result<Marks<'v>, Memory>
        requires { can_show (plan_form plan.now) ≡ true }
        ensures { IfOk result (λ marks. marks ≡ run_of (plan_form plan.now) (plan_lists plan.now) version.now) }
    {
        let shown = open_plan(alloc, plan, version)?;
        match Run::open(alloc, plan, version) {
            Ok(run) => Ok(Marks { run, shown }),
            Err(memory) => {
                drop(shown);
                Err(memory)
            }
        }
    }

    /// The places of the best hits in the span of the document, told in numbers of the span, hit after hit; `None` where its tokens don't
    /// satisfy the selection. It moves cursors forward, and takes no memory but that of the answer, and once that of the least hits.
    pub fn best(
        &mut self,
        alloc: Global,
        doc: DocId,
        span: Span,
    ) -> Result<Option<Vec<Span>>, Memory>
        requires there { has_document doc.0 self.old.version ≡ true }
        requires inside { (1 ≤ span.from) × (span.from ≤ span.to) × (span.to ≤ token_count (document_at doc.0 self.old.version) + 1) }
        ensures says { IfOk result (λ found. option_map (λ spans. spans.items) found
            ≡ marks self.old.lists self.old.form (span_tokens span (document_at doc.0 self.old.version))) }
        ensures same { self.new ≡ self.old }
    {
        best_places::<Brand>(
            alloc,
            &mut self.run,
            &mut self.shown,
            doc,
            span,
            Blank::new(1),
        )
    }
}

/// The places of the best hits, where the tokens satisfy the selection.
fn best_places<'v, L: Ledger>(
    alloc: Global,
    run: &mut Run<'v>,
    shown: &mut Shown<'v>,
    doc: DocId,
    span: Span,
    blank: Blank,
) -> Result<Option<Vec<Span>>, Memory>
    requires name { blank.name ≡ L.name }
    requires parts { blank.parts ≡ L.parts }
    requires whole { 0 < blank.parts }
    requires there { has_document doc.0 run.old.version ≡ true }
    requires inside { (1 ≤ span.from) × (span.from ≤ span.to) × (span.to ≤ token_count (document_at doc.0 run.old.version) + 1) }
    requires shows { ShowsBest run.old (showing shown.old) }
    ensures says { IfOk result (λ found. option_map (λ spans. spans.items) found
        ≡ marks run.old.lists run.old.form (span_tokens span (document_at doc.0 run.old.version))) }
    ensures same { run.new ≡ run.old }
    ensures shown { showing shown.new ≡ showing shown.old }
{
    let mut steps = Steps::<L>::new(blank);
    if !run.test(doc, span, &mut steps) {
        return Ok(None);
    }
    let mut spans = Vec::new(alloc);
    put_shown(shown, doc, span, &mut spans, &mut steps)?;
    Ok(Some(spans))
}

/// The selection of the plan, compiled to be shown and opened over the version.
fn open_plan<'v>(alloc: Global, plan: &'v Plan, version: &'v Version) -> Result<Shown<'v>, Memory>
    requires { can_show (plan_form plan.now) ≡ true }
    ensures { IfOk result (λ shown. ShowsBest (run_of (plan_form plan.now) (plan_lists plan.now) version.now) (showing shown)) }
{
    let compiled = compile_shown(alloc, plan)?;
    let shown = open_compiled(alloc, plan, version, &compiled);
    drop(compiled);
    shown
}

fn open_compiled<'v>(
    alloc: Global,
    plan: &'v Plan,
    version: &'v Version,
    compiled: &ShownPlan,
) -> Result<Shown<'v>, Memory>
    ensures { IfOk result (λ shown. IsShown compiled.now.looks (plan_lists plan.now).stems version.now (showing shown) compiled.now.root) }
{
    let opening = Opening {
        alloc,
        version,
        looks: compiled.looks,
        lists: &plan.lists,
    };
    open_shown(&opening, &compiled.root)
}
