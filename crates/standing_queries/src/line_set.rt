//! Lines, each once, to be asked whether a line is among them.

ghost use Rattle.std.specs.Prelude.{◌≡◌, ◌&&◌, ◌||◌, ◌∷◌, ◌++◌, [], ℕ, List, OnOk, filter, not, true};
ghost use Rattle.standing_queries.specs.Changes.{behind, is_among};
ghost use Rattle.standing_queries.specs.steps.Fronts.{begins_with};
ghost use Rattle.standing_queries.specs.steps.Staying.{has_line};

use ft_base::Memory;
use std::alloc::Global;
use std::collections::HashSet;
use text_list::TextList;

/// Lines that stand elsewhere, each once.
pub(crate) type LineSet<'a> = HashSet<&'a str>;

/// Puts all lines of a list into the set.
pub(crate) fn put_lines<'a>(set: &mut LineSet<'a>, lines: &'a TextList) -> Result<(), Memory>
    ensures { OnOk result ((line : List ℕ) → has_line set.new line ≡ (is_among lines.now line || has_line set.old line)) }
{
    for number in 0..lines.len() {
        put_line(set, lines.get(number))?;
    }
    Ok(())
}

/// Puts one line into the set.
fn put_line<'a>(set: &mut LineSet<'a>, text: &'a str) -> Result<(), Memory>
    ensures { OnOk result ((line : List ℕ) → has_line set.new line ≡ (is_among (text.now ∷ []) line || has_line set.old line)) }
{
    set.insert(text)?;
    Ok(())
}

/// Takes all lines of a list out of the set, whose lines have the front.
pub(crate) fn take_lines(set: &mut LineSet<'_>, front: &[u8], lines: &TextList)
    requires { (line : List ℕ) → has_line set.old line ≡ true → begins_with front.now line ≡ true }
    ensures { (line : List ℕ) → has_line set.new line ≡ (not (is_among lines.now line) && has_line set.old line) }
{
    for number in 0..lines.len() {
        take_line(set, front, lines.get(number));
    }
}

/// Takes one line out of the set, whose lines have the front. One that hasn't isn't looked for.
fn take_line(set: &mut LineSet<'_>, front: &[u8], text: &str)
    requires { (line : List ℕ) → has_line set.old line ≡ true → begins_with front.now line ≡ true }
    ensures { (line : List ℕ) → has_line set.new line ≡ (not (is_among (text.now ∷ []) line) && has_line set.old line) }
{
    if !text.as_bytes().starts_with(front) {
        return;
    }
    set.remove(text);
}

/// Puts each line of a list that is in the set to the end of another list, behind the mark.
pub(crate) fn push_lines(
    alloc: Global,
    mark: &str,
    set: &LineSet<'_>,
    lines: &TextList,
    out: &mut TextList,
) -> Result<(), Memory>
    ensures { OnOk result (out.new ≡ out.old ++ behind mark.now (filter (has_line set.now) lines.now)) }
{
    for number in 0..lines.len() {
        push_line(alloc, mark, set, lines.get(number), out)?;
    }
    Ok(())
}

/// Puts one line to the end of a list, behind the mark, if it is in the set.
fn push_line(
    alloc: Global,
    mark: &str,
    set: &LineSet<'_>,
    text: &str,
    out: &mut TextList,
) -> Result<(), Memory>
    ensures { OnOk result (out.new ≡ out.old ++ behind mark.now (filter (has_line set.now) (text.now ∷ []))) }
{
    if !set.contains(text) {
        return Ok(());
    }
    let mut line = String::from_str(alloc, mark)?;
    line.push_str(text)?;
    out.push(line.as_str())?;
    Ok(())
}
