//! Steps of the reader after a whole condition: what closes, `and`, `or`.
#![tactic(auto, using(
// the frames that are left
ft_parser::proofs::Frames::pushed_first, crate::proofs::Turns::joint_next_by,
// what a predicate stands for
path_grammar::proofs::Views::view_number, path_grammar::proofs::Views::view_holds))]

ghost use Rattle.std.specs.Prelude.{◌≡◌, [], ◌∷◌, IfOk, Some};
ghost use Rattle.path_grammar.specs.Form as form;
ghost use Rattle.path_grammar.specs.steps.Machine as m;
ghost use Rattle.path_grammar.specs.View.{condition, predicate};
ghost use Rattle.path_subset.specs.steps.State.{Leads, frame_of, frames_of, inner_of, joint_of, stage_of, stands};
ghost use Rattle.path_subset.specs.steps.Turns.{joint_words};

use crate::building::{after_and, after_or, condition_with, filtered, negated, no_joint};
use crate::heads::is_word;
use crate::state::{Frame, Inner, Joint, LastStep, Stage};
use ft_base::Memory;
use path_grammar::{Condition, Predicate};
use selection_grammar::Symbol;
use std::alloc::Global;

pub(crate) fn stand(frames: Vec<Frame>, joint: Joint, stage: Stage) -> Inner
    ensures { inner_of result ≡ stands (frames_of frames.items) (joint_of joint) (stage_of stage) }
{
    Inner {
        frames,
        joint,
        stage,
    }
}

/// A bracket that closes after a predicate.
pub(crate) fn close_bracket(frames: Vec<Frame>, filter: Predicate) -> Result<Option<Inner>, Memory>
    ensures { Leads (m.close_bracket (frames_of frames.items) [] (predicate filter)) result }
{
    let mut outer = frames;
    match outer.pop() {
        None => {
            drop((outer, filter));
            Ok(None)
        }
        Some(frame) => unbracketed(outer, frame, filter),
    }
}

fn unbracketed(outer: Vec<Frame>, frame: Frame, filter: Predicate) -> Result<Option<Inner>, Memory>
    ensures { Leads (m.close_bracket (frame_of frame ∷ frames_of outer.items) [] (predicate filter)) result }
{
    match frame {
        Frame::Brackets(joint, last) => {
            let last = filtered(last, filter)?;
            Ok(Some(stand(outer, joint, Stage::Stepped(last))))
        }
        _ => {
            drop((outer, frame, filter));
            Ok(None)
        }
    }
}

/// A parenthesis that closes after conditions.
pub(crate) fn close_parenthesis(
    alloc: Global,
    frames: Vec<Frame>,
    inside: Condition,
) -> Result<Option<Inner>, Memory>
    ensures { Leads (m.close_parenthesis (frames_of frames.items) [] (condition inside)) result }
{
    let mut outer = frames;
    match outer.pop() {
        None => {
            drop((outer, inside));
            Ok(None)
        }
        Some(frame) => unparenthesised(alloc, outer, frame, inside),
    }
}

fn unparenthesised(
    alloc: Global,
    outer: Vec<Frame>,
    frame: Frame,
    inside: Condition,
) -> Result<Option<Inner>, Memory>
    ensures { Leads (m.close_parenthesis (frame_of frame ∷ frames_of outer.items) [] (condition inside)) result }
{
    match frame {
        Frame::Brackets(_, _) => {
            drop((outer, frame, inside));
            Ok(None)
        }
        Frame::Parentheses(joint) => Ok(Some(stand(outer, joint, Stage::Ended(inside)))),
        Frame::Negation(joint) => {
            let whole = negated(alloc, inside)?;
            Ok(Some(stand(outer, joint, Stage::Ended(whole))))
        }
    }
}

/// After a whole condition.
pub(crate) fn after_condition(
    alloc: Global,
    frames: Vec<Frame>,
    joint: Joint,
    whole: Condition,
    symbol: &Symbol,
) -> Result<Option<Inner>, Memory>
    ensures { Leads (m.joint_next (frames_of frames.items) (joint_of joint) (condition whole) [] symbol.now) result }
{
    match symbol {
        Symbol::CloseBracket => {
            let whole = condition_with(joint, whole)?;
            close_bracket(frames, Predicate::Holds(whole))
        }
        Symbol::CloseParenthesis => {
            let whole = condition_with(joint, whole)?;
            close_parenthesis(alloc, frames, whole)
        }
        _ => joined(alloc, frames, joint, whole, symbol),
    }
}

/// `and` or `or`, where something is open.
fn joined(
    alloc: Global,
    frames: Vec<Frame>,
    joint: Joint,
    whole: Condition,
    symbol: &Symbol,
) -> Result<Option<Inner>, Memory>
    ensures { Leads (joint_words (frames_of frames.items) (joint_of joint) (condition whole) symbol.now) result }
{
    if frames.is_empty() {
        drop((frames, joint, whole));
        return Ok(None);
    }
    if is_word(symbol, "and") {
        let joint = after_and(joint, whole)?;
        Ok(Some(stand(frames, joint, Stage::Wanted(false))))
    } else if is_word(symbol, "or") {
        let joint = after_or(alloc, joint, whole)?;
        Ok(Some(stand(frames, joint, Stage::Wanted(false))))
    } else {
        drop((frames, joint, whole));
        Ok(None)
    }
}

/// Inside one more bracket or parenthesis.
pub(crate) fn opened(
    alloc: Global,
    frames: Vec<Frame>,
    frame: Frame,
    first: bool,
) -> Result<Option<Inner>, Memory>
    ensures { Leads (Some (stands (frame_of frame ∷ frames_of frames.items) m.no_joint (m.wanted first))) result }
{
    let mut frames = frames;
    frames.push(frame)?;
    Ok(Some(stand(frames, no_joint(alloc), Stage::Wanted(first))))
}
