ghost use Rattle.std.specs.Prelude.{◌≡◌, ◌&&◌, ◌||◌, ◌∷◌, ◌++◌, [], ℕ, List, IfOk, OnOk, filter, is_some, nat_eq, not, true};
ghost use Rattle.std.specs.List.{IsDistinct};
ghost use Rattle.standing_queries.specs.Answers.{all_lines, answers_of, kept_under, stamps_of, turn_lines};
ghost use Rattle.standing_queries.specs.Changes.{behind, changes, is_among, not_among};
ghost use Rattle.standing_queries.specs.steps.Fronts.{begins_with, has_front};
ghost use Rattle.standing_queries.specs.steps.Staying.{changed_lines, has_line, is_in, stays};

use crate::line_fronts::front_with;
use crate::line_set::{LineSet, push_lines, put_lines, take_lines};
use crate::{SharedLines, Turn};
use ft_base::Memory;
use indexmap::IndexMap;
use std::alloc::Global;
use std::collections::HashSet;
use std::marker::Model;
use text_list::TextList;

/// What a query answered last, which contracts see as a list of stamps, each with its lines, in the order of the documents.
#[derive(Drop)]
pub struct Standing {
    answers: IndexMap<u64, SharedLines>,
}

impl Model for Standing {
    ghost use Rattle.std.specs.Prelude.{List, ℕ};

    ghost Value = { List (ℕ × List (List ℕ)) };

    ghost view = { λ standing. standing.answers.entries };
}

impl Standing {
    /// No answers.
    pub fn empty(alloc: Global) -> Standing
        ensures { result ≡ [] }
    {
        Standing {
            answers: IndexMap::new(alloc),
        }
    }

    /// The answers for which the turns stand. No two of them have one stamp, and each brings its lines; one that brings none has none.
    pub fn new(alloc: Global, answers: &[Turn]) -> Result<Standing, Memory>
        requires stamps { IsDistinct nat_eq (stamps_of answers.now) }
        ensures { IfOk result (λ standing. standing ≡ answers_of [] answers.now) }
    {
        let none = Standing::empty(alloc);
        none.after(alloc, answers)
    }

    /// Whether there is an answer of that stamp.
    pub fn knows(&self, stamp: u64) -> bool
        ensures { result ≡ is_some (kept_under stamp self.now) }
    {
        self.answers.contains_key(&stamp)
    }

    /// The answers of now, and what went and came: `- ` and each line that is kept and isn't there now, then `+ ` and each that is there
    /// now and isn't kept. No two turns have one stamp. One that brings no lines stands for those that are kept under its stamp, and for
    /// none where none are.
    pub fn turn(&self, alloc: Global, now: &[Turn]) -> Result<(Standing, TextList), Memory>
        requires stamps { IsDistinct nat_eq (stamps_of now.now) }
        ensures standing { IfOk result (λ turned. turned.0 ≡ answers_of self.now now.now) }
        ensures changes { IfOk result (λ turned. turned.1 ≡ changes (all_lines self.now) (all_lines (answers_of self.now now.now))) }
    {
        // No two of the answers have one stamp, as the clauses of `len` say.
        let _count = self.answers.len();
        let standing = self.after(alloc, now)?;
        let staying = staying_stamps(alloc, now)?;
        let mut lines = TextList::new(alloc);
        push_missing(alloc, "- ", &staying, self, &standing, &mut lines)?;
        push_missing(alloc, "+ ", &staying, &standing, self, &mut lines)?;
        Ok((standing, lines))
    }

    /// The answers for which the turns stand.
    fn after(&self, alloc: Global, now: &[Turn]) -> Result<Standing, Memory>
        requires stamps { IsDistinct nat_eq (stamps_of now.now) }
        ensures { IfOk result (λ standing. standing ≡ answers_of self.now now.now) }
    {
        let mut answers = IndexMap::new(alloc);
        for turn in now {
            let lines = self.lines_of(alloc, turn)?;
            answers.insert(turn.stamp, lines)?;
        }
        Ok(Standing { answers })
    }

    /// The lines for which a turn stands.
    fn lines_of(&self, alloc: Global, turn: &Turn) -> Result<SharedLines, Memory>
        ensures { IfOk result (λ lines. lines ≡ turn_lines self.now turn.now) }
    {
        if let Some(fresh) = &turn.fresh {
            return fresh.share();
        }
        match self.answers.get(&turn.stamp) {
            Some(lines) => lines.share(),
            None => SharedLines::new(alloc, TextList::new(alloc)),
        }
    }
}

/// The stamps of the turns that bring no lines.
fn staying_stamps(alloc: Global, now: &[Turn]) -> Result<HashSet<u64>, Memory>
    ensures { IfOk result (λ staying. (stamp : ℕ) → is_in staying stamp ≡ stays now.now stamp) }
{
    let mut staying = HashSet::new(alloc);
    for turn in now {
        put_staying(&mut staying, turn)?;
    }
    Ok(staying)
}

/// Puts the stamp of a turn into the set, if it brings no lines.
fn put_staying(staying: &mut HashSet<u64>, turn: &Turn) -> Result<(), Memory>
    ensures { OnOk result ((stamp : ℕ) → is_in staying.new stamp ≡ (stays (turn.now ∷ []) stamp || is_in staying.old stamp)) }
{
    if turn.fresh.is_some() {
        return Ok(());
    }
    staying.insert(turn.stamp)?;
    Ok(())
}

/// Puts each line of the answers that don't stay, which isn't among the lines of the others, to the end of the list, behind the mark.
fn push_missing(
    alloc: Global,
    mark: &str,
    staying: &HashSet<u64>,
    answers: &Standing,
    others: &Standing,
    out: &mut TextList,
) -> Result<(), Memory>
    ensures { OnOk result (out.new ≡ out.old ++ behind mark.now (not_among (all_lines others.now) (changed_lines (is_in staying.now) answers.now))) }
{
    let mut set = HashSet::new(alloc);
    put_changed(&mut set, staying, answers)?;
    take_all(&mut set, changed_front(staying, answers), others);
    push_changed(alloc, mark, &set, staying, answers, out)
}

/// Puts the lines of the answers that don't stay into the set.
fn put_changed<'a>(
    set: &mut LineSet<'a>,
    staying: &HashSet<u64>,
    answers: &'a Standing,
) -> Result<(), Memory>
    ensures { OnOk result ((line : List ℕ) → has_line set.new line ≡ (is_among (changed_lines (is_in staying.now) answers.now) line || has_line set.old line)) }
{
    for (stamp, lines) in answers.answers.iter() {
        put_answer(set, staying, *stamp, lines)?;
    }
    Ok(())
}

/// Puts the lines of an answer into the set, unless it stays.
fn put_answer<'a>(
    set: &mut LineSet<'a>,
    staying: &HashSet<u64>,
    stamp: u64,
    lines: &'a SharedLines,
) -> Result<(), Memory>
    ensures { OnOk result ((line : List ℕ) → has_line set.new line ≡ (is_among (changed_lines (is_in staying.now) ((stamp, lines.now) ∷ [])) line || has_line set.old line)) }
{
    if staying.contains(&stamp) {
        return Ok(());
    }
    put_lines(set, lines.lines())
}

/// What the lines of the answers that don't stay begin with. Those of one document begin with its name, so that no line of another
/// one has to be looked for among them.
fn changed_front<'a>(staying: &HashSet<u64>, answers: &'a Standing) -> Option<&'a [u8]>
    ensures { (line : List ℕ) → is_among (changed_lines (is_in staying.now) answers.now) line ≡ true → has_front result line ≡ true }
{
    let mut front = None;
    for (stamp, lines) in answers.answers.iter() {
        front = answer_front(front, staying, *stamp, lines);
    }
    front
}

/// The same with one answer.
fn answer_front<'a>(
    front: Option<&'a [u8]>,
    staying: &HashSet<u64>,
    stamp: u64,
    lines: &'a SharedLines,
) -> Option<&'a [u8]>
    ensures before { (line : List ℕ) → has_front front.entry line ≡ true → has_front result line ≡ true }
    ensures lines { (line : List ℕ) → is_among (changed_lines (is_in staying.now) ((stamp, lines.now) ∷ [])) line ≡ true → has_front result line ≡ true }
{
    if staying.contains(&stamp) {
        return front;
    }
    front_with(front, lines.lines())
}

/// Takes the lines of all answers out of the set, whose lines have the front.
fn take_all(set: &mut LineSet<'_>, front: Option<&[u8]>, answers: &Standing)
    requires { (line : List ℕ) → has_line set.old line ≡ true → has_front front line ≡ true }
    ensures { (line : List ℕ) → has_line set.new line ≡ (not (is_among (all_lines answers.now) line) && has_line set.old line) }
{
    match front {
        None => {}
        Some(front) => take_each(set, front, answers),
    }
}

fn take_each(set: &mut LineSet<'_>, front: &[u8], answers: &Standing)
    requires { (line : List ℕ) → has_line set.old line ≡ true → begins_with front.now line ≡ true }
    ensures { (line : List ℕ) → has_line set.new line ≡ (not (is_among (all_lines answers.now) line) && has_line set.old line) }
{
    for (_, lines) in answers.answers.iter() {
        take_lines(set, front, lines.lines());
    }
}

/// Puts the lines of the answers that don't stay, where they are in the set, to the end of the list, behind the mark.
fn push_changed(
    alloc: Global,
    mark: &str,
    set: &LineSet<'_>,
    staying: &HashSet<u64>,
    answers: &Standing,
    out: &mut TextList,
) -> Result<(), Memory>
    ensures { OnOk result (out.new ≡ out.old ++ behind mark.now (filter (has_line set.now) (changed_lines (is_in staying.now) answers.now))) }
{
    for (stamp, lines) in answers.answers.iter() {
        push_answer(alloc, mark, set, staying, *stamp, lines, out)?;
    }
    Ok(())
}

/// Puts the lines of an answer, where they are in the set, to the end of the list, behind the mark, unless the answer stays.
fn push_answer(
    alloc: Global,
    mark: &str,
    set: &LineSet<'_>,
    staying: &HashSet<u64>,
    stamp: u64,
    lines: &SharedLines,
    out: &mut TextList,
) -> Result<(), Memory>
    ensures { OnOk result (out.new ≡ out.old ++ behind mark.now (filter (has_line set.now) (changed_lines (is_in staying.now) ((stamp, lines.now) ∷ [])))) }
{
    if staying.contains(&stamp) {
        return Ok(());
    }
    push_lines(alloc, mark, set, lines.lines(), out)
}
