//! The lines that show words, some of them marked.

ghost use Rattle.std.specs.Prelude.{◌≡◌, ◌∷◌, [], ◌++◌, OnErr, OnOk, map, string_bytes};
ghost use Rattle.element_lines.specs.Marked.{marked_line, shown_word};
ghost use Rattle.element_lines.specs.steps.LineWords.{space_before};

use crate::span_ends::put_span_ends;
use ft_base::{Memory, Span};
use std::alloc::Global;
use text_list::TextList;

/// The memory in which lines of words are made, one after the other.
#[derive(Drop)]
pub struct Marking {
    /// How far the spans reach that begin at a place.
    ends: Vec<u32>,
    line: String,
}

impl Marking {
    /// Without a line so far.
    pub fn new(alloc: Global) -> Marking {
        Marking {
            ends: Vec::new(alloc),
            line: String::new(alloc),
        }
    }

    /// Puts a line with these words to the end, with a space between each two. Those at the places of a span stand in brackets: places count
    /// the words, from 1. Where memory runs out, the lines stay as they were.
    pub fn push_line(
        &mut self,
        words: &[&str],
        spans: &[Span],
        lines: &mut TextList,
    ) -> Result<(), Memory>
        ensures ok { OnOk result (lines.new ≡ lines.old ++ marked_line spans.now (map (λ word. word.now) words.now) ∷ []) }
        ensures err { OnErr result (lines.new ≡ lines.old) }
    {
        self.line.clear();
        put_line(words, spans, &mut self.ends, &mut self.line)?;
        lines.push(self.line.as_str())
    }
}

/// Puts the line of some words to the end. A word is marked where a span that begins no later than it ends behind it.
fn put_line(
    words: &[&str],
    spans: &[Span],
    ends: &mut Vec<u32>,
    line: &mut String,
) -> Result<(), Memory>
    ensures { OnOk result (string_bytes line.new ≡ string_bytes line.old ++ marked_line spans.now (map (λ word. word.now) words.now)) }
{
    put_span_ends(spans, words.len() + 1, ends)?;
    let mut end = ends[0];
    for number in 0..words.len() {
        let place = number + 1;
        end = end.max(ends[place]);
        push_word(number, words[number], place < end as usize, line)?;
    }
    Ok(())
}

/// Puts the word of that number, from 0, to the end: after a space, where it isn't the first, and in brackets, where it is marked.
fn push_word(number: usize, word: &str, marked: bool, line: &mut String) -> Result<(), Memory>
    ensures { OnOk result (string_bytes line.new ≡ string_bytes line.old ++ space_before number ++ shown_word marked word.now) }
{
    if number > 0 {
        line.push(' ')?;
    }
    push_shown(word, marked, line)
}

/// Puts a word to the end, in brackets where it is marked.
fn push_shown(word: &str, marked: bool, line: &mut String) -> Result<(), Memory>
    ensures { OnOk result (string_bytes line.new ≡ string_bytes line.old ++ shown_word marked word.now) }
{
    if !marked {
        line.push_str(word)?;
        return Ok(());
    }
    line.push('[')?;
    line.push_str(word)?;
    line.push(']')?;
    Ok(())
}
