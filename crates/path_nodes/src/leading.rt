//! The numbers of the conditions of a path that lead somewhere: they count from 0, in the order of the path, and each condition
//! stands before those inside its steps, those of ignored paths first.

ghost use Rattle.std.specs.Prelude.{◌≡◌, ◌+◌, suc, IfOk, length, map};
ghost use Rattle.path_grammar.specs.Form as form;
ghost use Rattle.path_grammar.specs.View as view;
ghost use Rattle.path_nodes.specs.steps.Leading.{in_step, in_steps, in_predicate, in_condition, in_conditions, in_paths};

use ft_base::{Items, Memory};
use path_grammar::{Condition, Predicate, RelativePaths, Step};

/// The number after a number.
pub(crate) fn next(number: usize) -> Result<usize, Memory>
    ensures { IfOk result (λ next. next ≡ number + 1) }
{
    match number.checked_add(1) {
        Some(next) => Ok(next),
        None => Err(Memory),
    }
}

/// The number after those of a step, which begin with this one.
#[cycle(after)]
pub(crate) fn after_step(number: usize, step: &Step) -> Result<usize, Memory>
    ensures { IfOk result (λ after. after ≡ number + length (in_step (view.step step.now))) }
{
    let mut after = number;
    for predicate in step.predicates.as_slice() {
        after = after_predicate(after, predicate)?;
    }
    Ok(after)
}

/// The number after those of a predicate.
#[cycle(after)]
pub(crate) fn after_predicate(number: usize, predicate: &Predicate) -> Result<usize, Memory>
    ensures { IfOk result (λ after. after ≡ number + length (in_predicate (view.predicate predicate.now))) }
{
    match predicate {
        Predicate::Number(_) => Ok(number),
        Predicate::Holds(condition) => after_condition(number, condition),
    }
}

/// The number after those of a condition.
#[cycle(after)]
pub(crate) fn after_condition(number: usize, condition: &Condition) -> Result<usize, Memory>
    ensures { IfOk result (λ after. after ≡ number + length (in_condition (view.condition condition.now))) }
{
    match condition {
        Condition::Or(parts) => after_conditions(number, parts),
        Condition::And(parts) => after_conditions(number, parts),
        Condition::Not(operand) => after_condition(number, operand),
        Condition::Attribute { .. } => Ok(number),
        Condition::Exists(steps) => after_leading(number, steps),
        Condition::Contains { steps, ignored, .. } => {
            let inside = next(number)?;
            let between = after_paths(inside, ignored)?;
            after_steps(between, steps)
        }
    }
}

/// The number after a condition of this number, which leads somewhere by the steps, and those inside it.
#[cycle(after)]
fn after_leading(number: usize, steps: &Items<Step>) -> Result<usize, Memory>
    ensures { IfOk result (λ after. after ≡ number + suc (length (in_steps (form.steps (map view.step steps.now))))) }
{
    let inside = next(number)?;
    let after = after_steps(inside, steps)?;
    Ok(after)
}

/// The number after those of conditions.
#[cycle(after)]
fn after_conditions(number: usize, conditions: &Items<Condition>) -> Result<usize, Memory>
    ensures { IfOk result (λ after. after ≡ number + length (in_conditions (form.conditions (map view.condition conditions.now)))) }
{
    let mut after = number;
    for condition in conditions.as_slice() {
        after = after_condition(after, condition)?;
    }
    Ok(after)
}

/// The number after those of paths.
#[cycle(after)]
pub(crate) fn after_paths(number: usize, paths: &RelativePaths) -> Result<usize, Memory>
    ensures { IfOk result (λ after. after ≡ number + length (in_paths (form.paths (map view.relative_path paths.now)))) }
{
    let mut after = number;
    for path in paths.as_slice() {
        after = after_steps(after, &path.steps)?;
    }
    Ok(after)
}

/// The number after those of steps.
#[cycle(after)]
pub(crate) fn after_steps(number: usize, steps: &Items<Step>) -> Result<usize, Memory>
    ensures { IfOk result (λ after. after ≡ number + length (in_steps (form.steps (map view.step steps.now)))) }
{
    let mut after = number;
    for step in steps.as_slice() {
        after = after_step(after, step)?;
    }
    Ok(after)
}
