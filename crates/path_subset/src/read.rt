//! Reading whole paths.

ghost use Rattle.std.specs.Prelude.{◌≡◌, ◌≤◌, ℕ, List, [], ◌∷◌, ◌++◌, IfOk, Option, length, map, option_map};
ghost use Rattle.ft_parser.specs.Answer.{Answered};
ghost use Rattle.ft_parser.specs.Prefix.{run_read};
ghost use Rattle.path_grammar.specs.Grammar.{begins_at, ends_at};
ghost use Rattle.path_grammar.specs.steps.Machine as m;
ghost use Rattle.path_grammar.specs.View as view;
ghost use Rattle.path_subset.specs.Answer as spec;
ghost use Rattle.path_subset.specs.Paths.{extent_of, found_form, read_form};
ghost use Rattle.path_subset.specs.steps.Reading.{led_of, run_led, way_led};
ghost use Rattle.path_subset.specs.steps.State.{frames_of, inner_of, joint_of, last_of, root_stage_of, state_of, steps_of, way_of};
ghost use Rattle.selection_grammar.specs.declared.symbol.Placed.{Placed};

use crate::building::all_steps;
use crate::closing::stand;
use crate::limits::{exceeds, limit_fault, open_count};
use crate::path::{Extent, Found, ReadPath};
use crate::state::{Frame, Inner, Joint, LastStep, ReadSoFar, RootStage, Stage, State, Way};
use crate::turn::{inner_turn, root_turn};
use ft_base::{Items, Memory, QueryFault};
use ft_parser::{read_run, symbols};
use path_grammar::{Path, PathRoot, Step};
use selection_grammar::Placed;
use std::alloc::Global;

/// What is left of a text: its symbols, the place of the character after them all that begins no symbol, if there is one, and the bytes
/// of the whole text.
#[derive(Clone, Copy)]
struct Rest<'a> {
    symbols: &'a [Placed],
    bad: Option<usize>,
    size: usize,
}

/// Reads a text that is a path, and the selections in it. Each selection is as long as can be. A fault of a selection counts before
/// what stands after it; all places count bytes from the start of the text. It reads the text once.
#[tactic(auto, unfolding(crate::specs::Answer::path_read))]
pub fn read_path(alloc: Global, text: &str) -> Result<ReadPath, QueryFault>
    ensures { Answered read_form (spec.path_read text.now) result }
{
    match symbols(alloc, text) {
        Ok(found) => read_placed(alloc, found.placed.as_slice(), found.bad, text.len()),
        Err(_) => Err(QueryFault::Memory),
    }
}

/// Reads symbols in a text of so many bytes, which has a character after them that begins no symbol, or none.
fn read_placed(
    alloc: Global,
    placed: &[Placed],
    bad: Option<usize>,
    size: usize,
) -> Result<ReadPath, QueryFault>
    ensures { Answered read_form (spec.read_from (m.at_root m.nothing) [] 0 placed.now bad size) result }
{
    let mut reading = start(alloc);
    let mut next = 0;
    while next < placed.len() {
        let rest = Rest {
            symbols: &placed[next + 1..],
            bad,
            size,
        };
        match turn(alloc, &placed[next], &rest, reading) {
            Ok((there, count)) => {
                reading = there;
                next = next + 1 + count;
            }
            Err(fault) => return Err(fault),
        }
    }
    ended(bad, size, reading)
}

/// Before the first symbol.
fn start(alloc: Global) -> ReadSoFar
    ensures state { state_of result.state ≡ m.at_root m.nothing }
    ensures found { result.found ≡ [] }
{
    ReadSoFar {
        state: State::AtRoot(RootStage::Nothing),
        found: Items::new(alloc),
    }
}

/// Reads a symbol and, after `contains text`, the selection that follows it, and gives the number of symbols in the selection.
#[tactic(auto, unfolding(crate::specs::Answer::turned))]
fn turn(
    alloc: Global,
    placed: &Placed,
    rest: &Rest<'_>,
    reading: ReadSoFar,
) -> Result<(ReadSoFar, usize), QueryFault>
    ensures value { Answered led_of
        (spec.turned (state_of reading.state) (map found_form reading.found) placed.now rest.now.symbols.now rest.now.bad rest.now.size) result }
    ensures within { IfOk result (λ there. there.1 ≤ length rest.now.symbols.now) }
{
    let ReadSoFar { state, found } = reading;
    if exceeds(open_count(&state), &placed.symbol) {
        drop((state, found));
        return Err(limit_fault(placed));
    }
    match state {
        State::AtRoot(stage) => at_root(alloc, placed, stage, found),
        State::Along(root, inner) => along(alloc, placed, rest, root, inner, found),
    }
}

fn at_root(
    alloc: Global,
    placed: &Placed,
    stage: RootStage,
    found: Items<Found>,
) -> Result<(ReadSoFar, usize), QueryFault>
    ensures value { (rest : List Placed) (bad : Option ℕ) (size : ℕ)
        → Answered led_of (spec.led_by placed.now (m.root_next (root_stage_of stage) placed.now.symbol) (map found_form found) rest bad size) result }
    ensures within { IfOk result (λ there. there.1 ≡ 0) }
{
    match root_turn(alloc, stage, &placed.symbol) {
        Ok(Some(state)) => Ok((ReadSoFar { state, found }, 0)),
        Ok(None) => Err(QueryFault::Syntax { at: placed.from }),
        Err(_) => Err(QueryFault::Memory),
    }
}

fn along(
    alloc: Global,
    placed: &Placed,
    rest: &Rest<'_>,
    root: PathRoot,
    inner: Inner,
    found: Items<Found>,
) -> Result<(ReadSoFar, usize), QueryFault>
    ensures value { Answered led_of
        (spec.led_by placed.now (m.along_to root (m.advance_inner (inner_of inner) placed.now)) (map found_form found) rest.now.symbols.now
        rest.now.bad rest.now.size) result }
    ensures within { IfOk result (λ there. there.1 ≤ length rest.now.symbols.now) }
{
    match inner_turn(alloc, inner, placed) {
        Ok(Some(way)) => gone(alloc, rest, root, way, found),
        Ok(None) => {
            drop((root, found));
            Err(QueryFault::Syntax { at: placed.from })
        }
        Err(_) => {
            drop((root, found));
            Err(QueryFault::Memory)
        }
    }
}

/// On, and through a selection where one comes next.
fn gone(
    alloc: Global,
    rest: &Rest<'_>,
    root: PathRoot,
    way: Way,
    found: Items<Found>,
) -> Result<(ReadSoFar, usize), QueryFault>
    ensures value { Answered led_of (way_led root (way_of way) (map found_form found) rest.now.symbols.now rest.now.bad rest.now.size) result }
    ensures within { IfOk result (λ there. there.1 ≤ length rest.now.symbols.now) }
{
    match way {
        Way::On(inner) => {
            let state = State::Along(root, inner);
            Ok((ReadSoFar { state, found }, 0))
        }
        Way::Selection(frames, joint, before) => {
            selection(alloc, rest, root, frames, joint, before, found)
        }
    }
}

/// The selection with which symbols begin.
fn selection(
    alloc: Global,
    rest: &Rest<'_>,
    root: PathRoot,
    frames: Vec<Frame>,
    joint: Joint,
    before: Vec<Step>,
    found: Items<Found>,
) -> Result<(ReadSoFar, usize), QueryFault>
    ensures value { Answered led_of
        (run_led root (frames_of frames.items) (joint_of joint) (steps_of before.items) (map found_form found) rest.now.symbols.now
        (run_read rest.now.symbols.now rest.now.bad rest.now.size)) result }
    ensures within { IfOk result (λ there. there.1 ≤ length rest.now.symbols.now) }
{
    match read_run(alloc, rest.symbols, rest.bad, rest.size) {
        Ok((selection, count)) => {
            let extent = extent(&rest.symbols[..count]);
            let inner = stand(frames, joint, Stage::Selected(before, found.len()));
            let state = State::Along(root, inner);
            match with_found(found, Found { selection, extent }) {
                Ok(found) => Ok((ReadSoFar { state, found }, count)),
                Err(_) => {
                    drop(state);
                    Err(QueryFault::Memory)
                }
            }
        }
        Err(fault) => {
            drop((root, frames, joint, before, found));
            Err(fault)
        }
    }
}

fn with_found(found: Items<Found>, one: Found) -> Result<Items<Found>, Memory>
    ensures { IfOk result (λ all. all ≡ found ++ one ∷ []) }
{
    let mut all = found;
    all.push(one)?;
    Ok(all)
}

/// From the first of some symbols to the end of the last.
fn extent(symbols: &[Placed]) -> Extent
    ensures { result ≡ extent_of symbols.now }
{
    Extent {
        from: begin(symbols),
        to: end(symbols),
    }
}

fn begin(symbols: &[Placed]) -> usize
    ensures { result ≡ begins_at symbols.now }
{
    match symbols.first() {
        Some(placed) => placed.from,
        None => 0,
    }
}

fn end(symbols: &[Placed]) -> usize
    ensures { result ≡ ends_at symbols.now }
{
    match symbols.last() {
        Some(placed) => placed.to,
        None => 0,
    }
}

/// After all symbols: a character that begins none, or the end of the text.
fn ended(bad: Option<usize>, size: usize, reading: ReadSoFar) -> Result<ReadPath, QueryFault>
    ensures { Answered read_form (spec.ended_by bad size (map found_form reading.found) (spec.finished_path (state_of reading.state))) result }
{
    if let Some(at) = bad {
        drop(reading);
        return Err(QueryFault::Syntax { at });
    }
    let ReadSoFar { state, found } = reading;
    match whole(state) {
        Ok(Some(path)) => Ok(ReadPath {
            path,
            selections: found,
        }),
        Ok(None) => Err(QueryFault::Syntax { at: size }),
        Err(_) => Err(QueryFault::Memory),
    }
}

/// The path, if it may end here.
fn whole(state: State) -> Result<Option<Path>, Memory>
    ensures { IfOk result (λ path. option_map view.path path ≡ spec.finished_path (state_of state)) }
{
    match state {
        State::AtRoot(stage) => {
            drop(stage);
            Ok(None)
        }
        State::Along(root, inner) => whole_along(root, inner),
    }
}

fn whole_along(root: PathRoot, inner: Inner) -> Result<Option<Path>, Memory>
    ensures { IfOk result (λ path. option_map view.path path ≡ spec.finished_path (m.along root (inner_of inner))) }
{
    let Inner {
        frames,
        joint,
        stage,
    } = inner;
    drop(joint);
    match stage {
        Stage::Stepped(last) => whole_steps(root, frames, last),
        _ => {
            drop((frames, stage));
            Ok(None)
        }
    }
}

fn whole_steps(root: PathRoot, frames: Vec<Frame>, last: LastStep) -> Result<Option<Path>, Memory>
    ensures { IfOk result (λ path. option_map view.path path
        ≡ option_map (λ whole. whole.0) (m.finished_inner root (frames_of frames.items) [] (m.stepped (last_of last)))) }
{
    if !frames.is_empty() {
        drop((frames, last));
        return Ok(None);
    }
    let steps = Items::from_vec(all_steps(last)?);
    Ok(Some(Path { root, steps }))
}
