//! The strings of a selection: how many phrases they make, and whether their patterns are well formed.

ghost use Rattle.std.specs.Prelude.{◌≡◌, map, IfOk, OnOk};
ghost use Rattle.ft_base.specs.declared.words.Mode.{Mode};
ghost use Rattle.selection_grammar.specs.Tree.{trees_of};
ghost use Rattle.selection_grammar.specs.View.{tree};
ghost use Rattle.selection_faults.specs.Strings as spec;
ghost use Rattle.selection_faults.specs.steps.Walk as walks;

use crate::least_places::sooner;
use crate::options::wildcards_inside;
use ft_base::{Items, MAX_PHRASES, Memory, Mode};
use match_options::{has_bad_pattern, items_of};
use selection_grammar::{Parsed, ParsedWords, PlacedString};
use std::alloc::Global;

/// What is known of the strings of a selection that were passed.
#[derive(Clone, Copy)]
pub(crate) struct StringWalk {
    /// How many phrases they make, up to `MAX_PHRASES`.
    pub phrases: usize,
    /// The place of the string with which there were more.
    pub past_at: Option<usize>,
    /// The least place of a string with a badly formed pattern.
    pub bad_at: Option<usize>,
}

/// Passes the strings of a selection, where wildcards are on around it or off.
#[cycle(pass)]
pub(crate) fn pass(
    alloc: Global,
    walk: &mut StringWalk,
    wildcards: bool,
    parsed: &Parsed,
) -> Result<(), Memory>
    ensures { OnOk result (walk.new ≡ walks.after_all walk.old (spec.strings_inside wildcards (tree parsed.now))) }
{
    match parsed {
        Parsed::Words(words) => pass_words(alloc, walk, wildcards, words),
        Parsed::Or(parts) => pass_parts(alloc, walk, wildcards, parts),
        Parsed::And(parts) => pass_parts(alloc, walk, wildcards, parts),
        Parsed::MildNot(left, right) => {
            pass(alloc, walk, wildcards, left)?;
            pass(alloc, walk, wildcards, right)
        }
        Parsed::Not(_, operand) => pass(alloc, walk, wildcards, operand),
        Parsed::Filtered(operand, _) => pass(alloc, walk, wildcards, operand),
        Parsed::With(operand, options) => {
            let inside = wildcards_inside(wildcards, options.as_slice());
            pass(alloc, walk, inside, operand)
        }
    }
}

#[cycle(pass)]
fn pass_parts(
    alloc: Global,
    walk: &mut StringWalk,
    wildcards: bool,
    parts: &Items<Parsed>,
) -> Result<(), Memory>
    ensures { OnOk result (walk.new ≡ walks.after_all walk.old (spec.strings_inside_all wildcards (trees_of (map tree parts.now)))) }
{
    for part in parts.as_slice() {
        pass(alloc, walk, wildcards, part)?;
    }
    Ok(())
}

/// Passes the strings of a value.
fn pass_words(
    alloc: Global,
    walk: &mut StringWalk,
    around: bool,
    words: &ParsedWords,
) -> Result<(), Memory>
    ensures { OnOk result (walk.new ≡ walks.after_all walk.old (spec.strings_of_words around words.now)) }
{
    let wildcards = wildcards_inside(around, words.options.as_slice());
    for string in words.strings.as_slice() {
        *walk = after_string(alloc, *walk, string, words.mode, wildcards)?;
    }
    Ok(())
}

/// What is known after a string.
fn after_string(
    alloc: Global,
    walk: StringWalk,
    string: &PlacedString,
    mode: Mode,
    wildcards: bool,
) -> Result<StringWalk, Memory>
    ensures { IfOk result (λ after. after ≡ walks.after walk (spec.written mode wildcards string.now)) }
{
    let phrases = phrases_of(alloc, string, mode, wildcards)?;
    let is_bad = is_bad(alloc, string, wildcards)?;
    let counted = count(walk, phrases, string.at);
    Ok(StringWalk {
        bad_at: bad_after(walk.bad_at, is_bad, string.at),
        ..counted
    })
}

/// Counts the phrases of the string there, unless there were too many before.
fn count(walk: StringWalk, phrases: usize, at: usize) -> StringWalk
    ensures { result ≡ walks.counted walk phrases at }
{
    if walk.past_at.is_some() {
        return walk;
    }
    let phrases = walk.phrases.saturating_add(phrases);
    if MAX_PHRASES < phrases {
        StringWalk {
            past_at: Some(at),
            ..walk
        }
    } else {
        StringWalk { phrases, ..walk }
    }
}

/// The least place of a bad string, one string further.
fn bad_after(bad_at: Option<usize>, is_bad: bool, at: usize) -> Option<usize>
    ensures { result ≡ walks.bad_after bad_at is_bad at }
{
    if is_bad {
        sooner(bad_at, Some(at))
    } else {
        bad_at
    }
}

/// Whether the string holds a badly formed pattern, and wildcards are on for it.
fn is_bad(alloc: Global, string: &PlacedString, wildcards: bool) -> Result<bool, Memory>
    ensures { IfOk result (λ bad. (mode : Mode) → bad ≡ spec.is_bad (spec.written mode wildcards string.now)) }
{
    if wildcards {
        has_bad_pattern(alloc, string.text.as_str())
    } else {
        Ok(false)
    }
}

/// How many phrases a string makes.
fn phrases_of(
    alloc: Global,
    string: &PlacedString,
    mode: Mode,
    wildcards: bool,
) -> Result<usize, Memory>
    ensures { IfOk result (λ phrases. phrases ≡ spec.phrases_of (spec.written mode wildcards string.now)) }
{
    if !is_by_word(mode) {
        return Ok(1);
    }
    let items = items_of(alloc, wildcards, string.text.as_str())?;
    Ok(items.len().max(1))
}

/// Whether each word of a value is a phrase.
fn is_by_word(mode: Mode) -> bool
    ensures { result ≡ spec.is_by_word mode }
{
    match mode {
        Mode::AnyWord | Mode::AllWords => true,
        Mode::Any | Mode::All | Mode::Phrase => false,
    }
}
