//! Steps of the reader at conditions that are no steps: where one is wanted, numbers, attributes.
#![tactic(auto)]

ghost use Rattle.std.specs.Prelude.{◌≡◌, [], None, option_map};
ghost use Rattle.path_grammar.specs.Form as form;
ghost use Rattle.path_grammar.specs.steps.Machine as m;
ghost use Rattle.path_subset.specs.steps.State.{Leads, frames_of, inner_of, joint_of};

use crate::closing::{after_condition, close_bracket, opened, stand};
use crate::heads::is_word;
use crate::state::{Frame, Inner, Joint, Stage};
use crate::stepping::test;
use ft_base::{Line, Memory};
use path_grammar::{Condition, Predicate};
use selection_grammar::Symbol;
use std::alloc::Global;

/// Where a condition is wanted, or also a number.
pub(crate) fn wanted(
    alloc: Global,
    frames: Vec<Frame>,
    joint: Joint,
    first: bool,
    symbol: &Symbol,
) -> Result<Option<Inner>, Memory>
    ensures { Leads (m.wanted_next (frames_of frames.items) (joint_of joint) [] first symbol.now) result }
{
    if is_word(symbol, "not") {
        return Ok(Some(stand(frames, joint, Stage::NotName)));
    }
    match symbol {
        Symbol::Number(number) => Ok(place(frames, joint, first, *number)),
        Symbol::OpenParenthesis => opened(alloc, frames, Frame::Parentheses(joint), false),
        Symbol::At => Ok(Some(stand(frames, joint, Stage::AtSign))),
        Symbol::Period => Ok(Some(stand(frames, joint, Stage::NoStep))),
        _ => test(alloc, frames, joint, Vec::new(alloc), false, symbol),
    }
}

/// The number of a place, where one may stand.
fn place(frames: Vec<Frame>, joint: Joint, first: bool, number: u32) -> Option<Inner>
    ensures { option_map inner_of result ≡ m.number_next (frames_of frames.items) (joint_of joint) [] first number }
{
    if !first {
        return None;
    }
    Some(stand(frames, joint, Stage::Number(number)))
}

/// After the number of a place.
pub(crate) fn numbered(
    frames: Vec<Frame>,
    number: u32,
    symbol: &Symbol,
) -> Result<Option<Inner>, Memory>
    ensures { Leads (m.number_ended (frames_of frames.items) [] number symbol.now) result }
{
    match symbol {
        Symbol::CloseBracket => close_bracket(frames, Predicate::Number(number)),
        _ => Ok(None),
    }
}

/// After `@`.
pub(crate) fn at_sign(
    alloc: Global,
    frames: Vec<Frame>,
    joint: Joint,
    symbol: &Symbol,
) -> Result<Option<Inner>, Memory>
    ensures { Leads (m.name_next (frames_of frames.items) (joint_of joint) [] symbol.now) result }
{
    match symbol {
        Symbol::Name(name) => {
            let name = Line::read(alloc, name.as_str())?;
            Ok(Some(stand(frames, joint, Stage::Attribute(name))))
        }
        _ => Ok(None),
    }
}

/// After the name of an attribute.
pub(crate) fn attribute(
    alloc: Global,
    frames: Vec<Frame>,
    joint: Joint,
    name: Line,
    symbol: &Symbol,
) -> Result<Option<Inner>, Memory>
    ensures { Leads
        (m.otherwise (m.attribute_next (frames_of frames.items) (joint_of joint) [] name symbol.now)
        (m.joint_next (frames_of frames.items) (joint_of joint) (form.attribute name None) [] symbol.now)) result }
{
    match symbol {
        Symbol::Equals => Ok(Some(stand(frames, joint, Stage::Equals(name)))),
        _ => {
            let whole = Condition::Attribute { name, value: None };
            after_condition(alloc, frames, joint, whole, symbol)
        }
    }
}

/// After the name of an attribute and `=`.
pub(crate) fn equals(
    alloc: Global,
    frames: Vec<Frame>,
    joint: Joint,
    name: Line,
    symbol: &Symbol,
) -> Result<Option<Inner>, Memory>
    ensures { Leads (m.value_next (frames_of frames.items) (joint_of joint) [] name symbol.now) result }
{
    match symbol {
        Symbol::Text(text) => {
            let value = Some(Line::read(alloc, text.as_str())?);
            let whole = Condition::Attribute { name, value };
            Ok(Some(stand(frames, joint, Stage::Ended(whole))))
        }
        _ => Ok(None),
    }
}
