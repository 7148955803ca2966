//! Steps of the reader along the steps of a path or of a condition.
#![tactic(auto)]

ghost use Rattle.std.specs.Prelude.{[]};
ghost use Rattle.path_grammar.specs.steps.Machine as m;
ghost use Rattle.path_subset.specs.steps.State.{Leads, frames_of, joint_of, last_of, steps_of};
ghost use Rattle.path_subset.specs.steps.Turns.{contains_or_joint};

use crate::building::{all_steps, ignored, not_step, steps_condition, tested, to_left, with_path};
use crate::closing::{after_condition, opened, stand};
use crate::heads::is_word;
use crate::state::{Frame, Inner, Joint, LastStep, Stage};
use ft_base::{Line, Memory};
use path_grammar::{NameTest, Step};
use selection_grammar::Symbol;
use std::alloc::Global;

/// After steps, predicates aside.
pub(crate) fn after_steps(
    alloc: Global,
    frames: Vec<Frame>,
    joint: Joint,
    before: Vec<Step>,
    symbol: &Symbol,
) -> Result<Option<Inner>, Memory>
    ensures { Leads
        (m.otherwise (m.steps_next (frames_of frames.items) (joint_of joint) [] (steps_of before.items) symbol.now)
        (m.joint_next (frames_of frames.items) (joint_of joint) (m.steps_condition (joint_of joint).ignoring (steps_of before.items)) [] symbol.now))
        result }
{
    match symbol {
        Symbol::Slash => Ok(Some(stand(frames, joint, Stage::Slashes(before, false)))),
        Symbol::DoubleSlash => Ok(Some(stand(frames, joint, Stage::Slashes(before, true)))),
        Symbol::VerticalBar => barred(frames, joint, before),
        _ => contained(alloc, frames, joint, before, symbol),
    }
}

/// `|`, after the steps of an ignored path.
fn barred(frames: Vec<Frame>, joint: Joint, before: Vec<Step>) -> Result<Option<Inner>, Memory>
    ensures { Leads (m.bar_next (frames_of frames.items) (joint_of joint) [] (steps_of before.items) (joint_of joint).ignoring) result }
{
    let Joint {
        ors,
        ands,
        ignoring,
    } = joint;
    match ignoring {
        None => Ok(None),
        Some(ignoring) => {
            let more = with_path(ignoring, before)?;
            let joint = ignored(ors, ands, more);
            Ok(Some(stand(frames, joint, Stage::PathWanted)))
        }
    }
}

/// `contains`, where something is open and the steps are not those of an ignored path, or what may stand after a condition.
fn contained(
    alloc: Global,
    frames: Vec<Frame>,
    joint: Joint,
    before: Vec<Step>,
    symbol: &Symbol,
) -> Result<Option<Inner>, Memory>
    ensures { Leads (contains_or_joint (frames_of frames.items) (joint_of joint) (steps_of before.items) symbol.now) result }
{
    if !is_word(symbol, "contains") {
        return whole_steps(alloc, frames, joint, before, symbol);
    }
    if frames.is_empty() {
        return Ok(None);
    }
    match &joint.ignoring {
        Some(_) => Ok(None),
        None => Ok(Some(stand(frames, joint, Stage::Contains(before)))),
    }
}

/// What may stand after the condition that steps are.
fn whole_steps(
    alloc: Global,
    frames: Vec<Frame>,
    joint: Joint,
    before: Vec<Step>,
    symbol: &Symbol,
) -> Result<Option<Inner>, Memory>
    ensures { Leads (m.joint_next (frames_of frames.items) (joint_of joint) (m.steps_condition (joint_of joint).ignoring (steps_of before.items)) [] symbol.now) result }
{
    let Joint {
        ors,
        ands,
        ignoring,
    } = joint;
    let whole = steps_condition(ignoring, before)?;
    after_condition(alloc, frames, to_left(ors, ands), whole, symbol)
}

/// After a step, to which further predicates may belong.
pub(crate) fn stepped(
    alloc: Global,
    frames: Vec<Frame>,
    joint: Joint,
    last: LastStep,
    symbol: &Symbol,
) -> Result<Option<Inner>, Memory>
    ensures { Leads
        (m.otherwise (m.step_next (frames_of frames.items) (joint_of joint) [] (last_of last) symbol.now)
        (m.joint_next (frames_of frames.items) (joint_of joint) (m.steps_condition (joint_of joint).ignoring (m.all_steps (last_of last))) [] symbol.now))
        result }
{
    match symbol {
        Symbol::OpenBracket => opened(alloc, frames, Frame::Brackets(joint, last), true),
        _ => {
            let before = all_steps(last)?;
            after_steps(alloc, frames, joint, before, symbol)
        }
    }
}

/// After `not`, in the place of a condition.
pub(crate) fn not_name(
    alloc: Global,
    frames: Vec<Frame>,
    joint: Joint,
    symbol: &Symbol,
) -> Result<Option<Inner>, Memory>
    ensures { Leads
        (m.otherwise (m.not_next (frames_of frames.items) (joint_of joint) [] symbol.now)
        (m.joint_next (frames_of frames.items) (joint_of joint) (m.steps_condition (joint_of joint).ignoring (m.all_steps m.not_step)) [] symbol.now))
        result }
{
    match symbol {
        Symbol::OpenParenthesis => opened(alloc, frames, Frame::Negation(joint), false),
        _ => {
            let last = not_step(alloc)?;
            stepped(alloc, frames, joint, last, symbol)
        }
    }
}

/// A test of names after these steps.
pub(crate) fn test(
    alloc: Global,
    frames: Vec<Frame>,
    joint: Joint,
    before: Vec<Step>,
    deep: bool,
    symbol: &Symbol,
) -> Result<Option<Inner>, Memory>
    ensures { Leads (m.test_next (frames_of frames.items) (joint_of joint) [] (steps_of before.items) deep symbol.now) result }
{
    match symbol {
        Symbol::Name(name) => {
            let name = Line::read(alloc, name.as_str())?;
            let last = tested(alloc, before, deep, NameTest::Name(name));
            Ok(Some(stand(frames, joint, Stage::Stepped(last))))
        }
        Symbol::Star => {
            let last = tested(alloc, before, deep, NameTest::Any);
            Ok(Some(stand(frames, joint, Stage::Stepped(last))))
        }
        _ => Ok(None),
    }
}
