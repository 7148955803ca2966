//! How steps and conditions are put together from what was read.
#![tactic(auto, using(
// what steps and `or` stand for
path_grammar::proofs::Views::view_step, path_grammar::proofs::Views::view_or,
// `and` and `not`
path_grammar::proofs::Views::view_and, path_grammar::proofs::Views::view_not,
// steps alone, `contains text`, and an ignored path
path_grammar::proofs::Views::view_exists, path_grammar::proofs::Views::view_contains, path_grammar::proofs::Views::view_relative_path))]

ghost use Rattle.std.specs.Prelude.{◌≡◌, [], ◌∷◌, ◌++◌, IfOk, map, option_map};
ghost use Rattle.path_grammar.specs.Form as form;
ghost use Rattle.path_grammar.specs.steps.Machine as m;
ghost use Rattle.path_grammar.specs.View.{condition, predicate};
ghost use Rattle.path_subset.specs.steps.State.{ignoring_of, joint_of, last_of, steps_of};

use crate::state::{Ignoring, Joint, LastStep};
use ft_base::{Items, Line, Memory};
use path_grammar::{Condition, NameTest, Predicate, RelativePath, Step};
use std::alloc::Global;

/// The steps before the last one, and that one.
pub(crate) fn all_steps(last: LastStep) -> Result<Vec<Step>, Memory>
    ensures { IfOk result (λ steps. steps_of steps.items ≡ m.all_steps (last_of last)) }
{
    let mut steps = last.before;
    steps.push(Step {
        deep: last.deep,
        test: last.test,
        predicates: Items::from_vec(last.filters),
    })?;
    Ok(steps)
}

/// A step without predicates, after others.
pub(crate) fn tested(alloc: Global, before: Vec<Step>, deep: bool, test: NameTest) -> LastStep
    ensures { last_of result ≡ m.tested (steps_of before.items) deep test }
{
    LastStep {
        before,
        deep,
        test,
        filters: Vec::new(alloc),
    }
}

/// The step to the children that are named `not`.
pub(crate) fn not_step(alloc: Global) -> Result<LastStep, Memory>
    ensures { IfOk result (λ last. last_of last ≡ m.not_step) }
{
    let name = Line::read(alloc, "not")?;
    Ok(tested(alloc, Vec::new(alloc), false, NameTest::Name(name)))
}

/// The step with one more predicate.
pub(crate) fn filtered(last: LastStep, filter: Predicate) -> Result<LastStep, Memory>
    ensures { IfOk result (λ there. last_of there ≡ m.filtered (last_of last) (predicate filter)) }
{
    let mut filters = last.filters;
    filters.push(filter)?;
    Ok(LastStep {
        before: last.before,
        deep: last.deep,
        test: last.test,
        filters,
    })
}

/// Nothing to the left.
pub(crate) fn no_joint(alloc: Global) -> Joint
    ensures { joint_of result ≡ m.no_joint }
{
    to_left(Vec::new(alloc), Vec::new(alloc))
}

/// To the left of a condition that begins.
pub(crate) fn to_left(ors: Vec<Condition>, ands: Vec<Condition>) -> Joint
    ensures { joint_of result ≡ m.to_left (map condition ors.items) (map condition ands.items) }
{
    Joint {
        ors,
        ands,
        ignoring: None,
    }
}

/// Conditions with `and` between them.
pub(crate) fn and_with(ands: Vec<Condition>, last: Condition) -> Result<Condition, Memory>
    ensures { IfOk result (λ c. condition c ≡ form.joined form.and_of (map condition ands.items ++ condition last ∷ [])) }
{
    if ands.is_empty() {
        return Ok(last);
    }
    let mut parts = ands;
    parts.push(last)?;
    Ok(Condition::And(Items::from_vec(parts)))
}

/// Conditions with `or` between them.
fn or_with(ors: Vec<Condition>, last: Condition) -> Result<Condition, Memory>
    ensures { IfOk result (λ c. condition c ≡ form.joined form.or_of (map condition ors.items ++ condition last ∷ [])) }
{
    if ors.is_empty() {
        return Ok(last);
    }
    let mut parts = ors;
    parts.push(last)?;
    Ok(Condition::Or(Items::from_vec(parts)))
}

/// The whole condition, with one to the right of what stands to the left.
pub(crate) fn condition_with(joint: Joint, last: Condition) -> Result<Condition, Memory>
    ensures { IfOk result (λ c. condition c ≡ m.condition_with (joint_of joint) (condition last)) }
{
    let and = and_with(joint.ands, last)?;
    or_with(joint.ors, and)
}

/// To the left of the condition after `and`.
pub(crate) fn after_and(joint: Joint, last: Condition) -> Result<Joint, Memory>
    ensures { IfOk result (λ there. joint_of there ≡ m.to_left (joint_of joint).ors (m.ands_with (joint_of joint) (condition last))) }
{
    let mut ands = joint.ands;
    ands.push(last)?;
    Ok(to_left(joint.ors, ands))
}

/// To the left of the condition after `or`.
pub(crate) fn after_or(alloc: Global, joint: Joint, last: Condition) -> Result<Joint, Memory>
    ensures { IfOk result (λ there. joint_of there ≡ m.to_left (m.ors_with (joint_of joint) (condition last)) []) }
{
    let and = and_with(joint.ands, last)?;
    let mut ors = joint.ors;
    ors.push(and)?;
    Ok(to_left(ors, Vec::new(alloc)))
}

pub(crate) fn negated(alloc: Global, operand: Condition) -> Result<Condition, Memory>
    ensures { IfOk result (λ c. condition c ≡ form.not_of (condition operand)) }
{
    Ok(Condition::Not(Box::new(alloc, operand)?))
}

/// With the steps of one more ignored path.
pub(crate) fn with_path(ignoring: Ignoring, last: Vec<Step>) -> Result<Ignoring, Memory>
    ensures { IfOk result (λ there. ignoring_of there ≡ m.with_path (ignoring_of ignoring) (steps_of last.items)) }
{
    let mut paths = ignoring.paths;
    paths.push(RelativePath {
        steps: Items::from_vec(last),
    })?;
    Ok(Ignoring {
        before: ignoring.before,
        selection: ignoring.selection,
        paths,
    })
}

/// To the left of an ignored path.
pub(crate) fn ignored(ors: Vec<Condition>, ands: Vec<Condition>, ignoring: Ignoring) -> Joint
    ensures { joint_of result ≡ m.ignored (map condition ors.items) (map condition ands.items) (ignoring_of ignoring) }
{
    Joint {
        ors,
        ands,
        ignoring: Some(ignoring),
    }
}

/// To the left of an ignored path after `content`.
pub(crate) fn after_content(
    alloc: Global,
    joint: Joint,
    before: Vec<Step>,
    selection: usize,
) -> Joint
    ensures { joint_of result
        ≡ m.ignored (joint_of joint).ors (joint_of joint).ands (record { before = steps_of before.items; selection = selection; paths = [] }) }
{
    let paths = Vec::new(alloc);
    ignored(
        joint.ors,
        joint.ands,
        Ignoring {
            before,
            selection,
            paths,
        },
    )
}

/// What steps are a condition of.
pub(crate) fn steps_condition(
    ignoring: Option<Ignoring>,
    last: Vec<Step>,
) -> Result<Condition, Memory>
    ensures { IfOk result (λ c. condition c ≡ m.steps_condition (option_map ignoring_of ignoring) (steps_of last.items)) }
{
    match ignoring {
        None => Ok(Condition::Exists(Items::from_vec(last))),
        Some(ignoring) => {
            let all = with_path(ignoring, last)?;
            Ok(Condition::Contains {
                steps: Items::from_vec(all.before),
                selection: all.selection,
                ignored: Items::from_vec(all.paths),
            })
        }
    }
}

/// `contains text` with a selection alone.
pub(crate) fn selected(alloc: Global, before: Vec<Step>, selection: usize) -> Condition
    ensures { condition result ≡ form.contains (form.steps (steps_of before.items)) selection form.no_paths }
{
    Condition::Contains {
        steps: Items::from_vec(before),
        selection,
        ignored: Items::new(alloc),
    }
}
