//! One step of the reader: where a symbol leads.
#![tactic(auto)]

ghost use Rattle.std.specs.Prelude.{◌≡◌, [], IfOk, option_map};
ghost use Rattle.path_grammar.specs.Form as form;
ghost use Rattle.path_grammar.specs.steps.Machine as m;
ghost use Rattle.path_subset.specs.steps.State.{Leads, frames_of, inner_of, joint_of, root_stage_of, state_of, steps_of, way_of};
ghost use Rattle.path_subset.specs.steps.Turns.{closed_root, opened_root};

use crate::building::{after_content, no_joint, selected};
use crate::closing::{after_condition, stand};
use crate::conditions::{at_sign, attribute, equals, numbered, wanted};
use crate::heads::is_word;
use crate::state::{Frame, Inner, Joint, RootStage, Stage, State, Way};
use crate::stepping::{after_steps, not_name, stepped, test};
use ft_base::{Line, Memory};
use path_grammar::{PathRoot, Step};
use selection_grammar::{Placed, Symbol};
use std::alloc::Global;

/// Where a symbol leads after the root.
pub(crate) fn inner_turn(
    alloc: Global,
    inner: Inner,
    placed: &Placed,
) -> Result<Option<Way>, Memory>
    ensures { IfOk result (λ way. option_map way_of way ≡ m.advance_inner (inner_of inner) placed.now) }
{
    let Inner {
        frames,
        joint,
        stage,
    } = inner;
    let symbol = &placed.symbol;
    match stage {
        Stage::NoStep => Ok(on(after_steps(alloc, frames, joint, Vec::new(alloc), symbol)?)),
        Stage::Slashes(before, deep) => Ok(on(test(alloc, frames, joint, before, deep, symbol)?)),
        Stage::Stepped(last) => Ok(on(stepped(alloc, frames, joint, last, symbol)?)),
        Stage::Wanted(first) => Ok(on(wanted(alloc, frames, joint, first, symbol)?)),
        Stage::Number(number) => Ok(on(numbered(frames, number, symbol)?)),
        Stage::NotName => Ok(on(not_name(alloc, frames, joint, symbol)?)),
        Stage::AtSign => Ok(on(at_sign(alloc, frames, joint, symbol)?)),
        Stage::Attribute(name) => Ok(on(attribute(alloc, frames, joint, name, symbol)?)),
        Stage::Equals(name) => Ok(on(equals(alloc, frames, joint, name, symbol)?)),
        Stage::Ended(whole) => Ok(on(after_condition(alloc, frames, joint, whole, symbol)?)),
        Stage::Contains(before) => Ok(text(frames, joint, before, symbol)),
        Stage::Selected(before, number) => {
            Ok(on(after_selection(alloc, frames, joint, before, number, symbol)?))
        }
        Stage::Without(before, number) => {
            Ok(on(content(alloc, frames, joint, before, number, symbol)))
        }
        Stage::PathWanted => Ok(on(path(alloc, frames, joint, symbol)?)),
    }
}

fn on(there: Option<Inner>) -> Option<Way>
    ensures { option_map way_of result ≡ option_map inner_of there }
{
    match there {
        None => None,
        Some(inner) => Some(Way::On(inner)),
    }
}

/// `text`, after `contains`.
fn text(frames: Vec<Frame>, joint: Joint, before: Vec<Step>, symbol: &Symbol) -> Option<Way>
    ensures { option_map way_of result ≡ m.text_next (frames_of frames.items) (joint_of joint) [] (steps_of before.items) symbol.now }
{
    if !is_word(symbol, "text") {
        return None;
    }
    Some(Way::Selection(frames, joint, before))
}

/// `without` after a selection, or what may stand after the condition.
fn after_selection(
    alloc: Global,
    frames: Vec<Frame>,
    joint: Joint,
    before: Vec<Step>,
    number: usize,
    symbol: &Symbol,
) -> Result<Option<Inner>, Memory>
    ensures { Leads
        (m.otherwise (m.without_next (frames_of frames.items) (joint_of joint) [] (steps_of before.items) number symbol.now)
        (m.joint_next (frames_of frames.items) (joint_of joint) (form.contains (form.steps (steps_of before.items)) number form.no_paths) [] symbol.now))
        result }
{
    if is_word(symbol, "without") {
        return Ok(Some(stand(frames, joint, Stage::Without(before, number))));
    }
    let whole = selected(alloc, before, number);
    after_condition(alloc, frames, joint, whole, symbol)
}

/// `content`, after `without`.
fn content(
    alloc: Global,
    frames: Vec<Frame>,
    joint: Joint,
    before: Vec<Step>,
    number: usize,
    symbol: &Symbol,
) -> Option<Inner>
    ensures { option_map inner_of result ≡ m.content_next (frames_of frames.items) (joint_of joint) [] (steps_of before.items) number symbol.now }
{
    if !is_word(symbol, "content") {
        return None;
    }
    let joint = after_content(alloc, joint, before, number);
    Some(stand(frames, joint, Stage::PathWanted))
}

/// The first symbol of an ignored path.
fn path(
    alloc: Global,
    frames: Vec<Frame>,
    joint: Joint,
    symbol: &Symbol,
) -> Result<Option<Inner>, Memory>
    ensures { Leads (m.path_next (frames_of frames.items) (joint_of joint) [] symbol.now) result }
{
    match symbol {
        Symbol::Period => Ok(Some(stand(frames, joint, Stage::NoStep))),
        _ => test(alloc, frames, joint, Vec::new(alloc), false, symbol),
    }
}

/// Where a symbol leads in the root.
pub(crate) fn root_turn(
    alloc: Global,
    stage: RootStage,
    symbol: &Symbol,
) -> Result<Option<State>, Memory>
    ensures { IfOk result (λ there. option_map state_of there ≡ m.root_next (root_stage_of stage) symbol.now) }
{
    match stage {
        RootStage::Nothing => Ok(root_name(symbol)),
        RootStage::CollectionName => Ok(opens(symbol, RootStage::CollectionOpen)),
        RootStage::CollectionOpen => Ok(closes(alloc, symbol, PathRoot::Collection)),
        RootStage::DocName => Ok(opens(symbol, RootStage::DocOpen)),
        RootStage::DocOpen => document_name(alloc, symbol),
        RootStage::DocText(name) => Ok(closes(alloc, symbol, PathRoot::Doc(name))),
    }
}

fn root_name(symbol: &Symbol) -> Option<State>
    ensures { option_map state_of result ≡ m.root_words symbol.now }
{
    if is_word(symbol, "collection") {
        Some(State::AtRoot(RootStage::CollectionName))
    } else if is_word(symbol, "doc") {
        Some(State::AtRoot(RootStage::DocName))
    } else {
        None
    }
}

/// Inside the root's parenthesis, if the symbol opens it.
fn opens(symbol: &Symbol, inside: RootStage) -> Option<State>
    ensures { option_map state_of result ≡ opened_root symbol.now (root_stage_of inside) }
{
    match symbol {
        Symbol::OpenParenthesis => Some(State::AtRoot(inside)),
        _ => None,
    }
}

/// After the root, if the symbol closes its parenthesis.
fn closes(alloc: Global, symbol: &Symbol, root: PathRoot) -> Option<State>
    ensures { option_map state_of result ≡ closed_root symbol.now root }
{
    match symbol {
        Symbol::CloseParenthesis => {
            let inner = stand(Vec::new(alloc), no_joint(alloc), Stage::NoStep);
            Some(State::Along(root, inner))
        }
        _ => None,
    }
}

fn document_name(alloc: Global, symbol: &Symbol) -> Result<Option<State>, Memory>
    ensures { IfOk result (λ there. option_map state_of there ≡ m.root_next m.doc_open symbol.now) }
{
    match symbol {
        Symbol::Text(name) => {
            let name = Line::read(alloc, name.as_str())?;
            Ok(Some(State::AtRoot(RootStage::DocText(name))))
        }
        _ => Ok(None),
    }
}
