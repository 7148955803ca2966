//! Paths with a plan for each of their selections, and the runs of these over a version of the index.

ghost use Rattle.std.specs.Prelude.{◌≡◌, ◌++◌, ◌∷◌, [], IfErr, IfOk, IsTrue, None, OnOk, map};
ghost use Rattle.std.specs.List.{list_all};
ghost use Rattle.counted_shapes.specs.Accepted.{is_accepted};
ghost use Rattle.path_subset.specs.Paths.{read_form};
ghost use Rattle.plan_compiler.specs.Missing.{IsMissing};
ghost use Rattle.session_state.specs.KeptTexts as texts;
ghost use Rattle.session_state.specs.Paths.{missing_list, selections_of};
ghost use Rattle.session_state.specs.PlannedPaths.{plans_under, run_over};

use ft_base::Memory;
use index_versions::Version;
use kept_plans::{KeptPlan, Prepared};
use path_grammar::{PathRoot, Steps};
use path_subset::{Extent, ReadPath};
use plan_compiler::{CompileFault, missing_law};
use plan_runs::Run;
use std::alloc::Global;

/// A path with a plan for each of its selections, by their numbers.
#[derive(Drop)]
pub(crate) struct PlannedPath<'a> {
    pub(crate) alloc: Global,
    pub(crate) root: &'a PathRoot,
    pub(crate) steps: &'a Steps,
    pub(crate) plans: &'a [KeptPlan],
}

/// A plan for each selection of a path that has that text: those that are kept, and else new ones. A list that the selections name and that
/// isn't there is a fault: the first one, in the order of the selections and of what each is printed as.
pub(crate) fn plan_selections(
    alloc: Global,
    path: &ReadPath,
    prepared: &Prepared,
    text: &[u8],
) -> Result<Vec<KeptPlan>, CompileFault>
    requires { IsTrue (list_all is_accepted (selections_of (read_form path.now))) }
    ensures plans { IfOk result (λ plans. plans.items ≡ plans_under prepared.now.lists text.now (read_form path.now)) }
    ensures there { IfOk result (λ _. missing_list prepared.now.lists (selections_of (read_form path.now)) ≡ None) }
    ensures missing { IfErr result (λ fault. IsMissing fault (missing_list prepared.now.lists (selections_of (read_form path.now)))) }
{
    missing_law();
    let mut plans = Vec::new(alloc);
    for number in 0..path.selection_count() {
        let extent = path.selection_extent(number);
        match prepared.plan(text_at(text, extent), path.selection(number)) {
            Ok(plan) => {
                let more = with_plan(plans, plan)?;
                plans = more;
            }
            Err(fault) => return Err(fault),
        }
    }
    Ok(plans)
}

/// What stands at an extent of a text.
fn text_at(text: &[u8], extent: Extent) -> &[u8]
    ensures { result.now ≡ texts.text_at text.now extent }
{
    let suffix = &text[extent.from.min(text.len())..];
    let count = extent.to.saturating_sub(extent.from);
    &suffix[..count.min(suffix.len())]
}

/// The plans with one more after them.
fn with_plan(plans: Vec<KeptPlan>, plan: KeptPlan) -> Result<Vec<KeptPlan>, Memory>
    ensures { IfOk result (λ all. all.items ≡ plans.items ++ plan ∷ []) }
{
    let mut all = plans;
    all.push(plan)?;
    Ok(all)
}

/// A run for each plan over the version.
pub(crate) fn open_runs<'v>(
    alloc: Global,
    plans: &'v [KeptPlan],
    version: &'v Version,
) -> Result<Vec<Run<'v>>, Memory>
    ensures { IfOk result (λ runs. runs.items ≡ map (run_over version.now) plans.now) }
{
    let mut runs = Vec::new(alloc);
    for plan in plans {
        push_run(alloc, plan, version, &mut runs)?;
    }
    Ok(runs)
}

/// Puts the run of a plan over the version after the others.
fn push_run<'v>(
    alloc: Global,
    plan: &'v KeptPlan,
    version: &'v Version,
    runs: &mut Vec<Run<'v>>,
) -> Result<(), Memory>
    ensures { OnOk result (runs.new.items ≡ runs.old.items ++ run_over version.now plan.now ∷ []) }
{
    runs.push(Run::open(alloc, plan.plan(), version)?)?;
    Ok(())
}
