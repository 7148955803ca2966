ghost use Rattle.std.specs.Prelude.{◌≡◌, ◌∷◌, [], MatchOption, ◌<◌, ◌+◌, ◌^◌, length, drop};
ghost use Rattle.text_lines.specs.Lines.{lines, content_lines};
ghost use Rattle.text_lines.specs.View.{content_of};

use crate::line::{is_skipped, line_end, trim_line};
use std::marker::Model;

/// A line that isn't skipped: its number, counted from 1, and what it says.
#[derive(Clone, Copy, Debug)]
pub struct ContentLine<'a> {
    pub number: usize,
    pub text: &'a [u8],
}

/// The lines of a text that aren't skipped, which contracts see as the list of those that are still to come.
#[derive(Drop)]
pub struct ContentLines<'a> {
    rest: &'a [u8],
    passed: usize,
}

impl<'a> Model for ContentLines<'a> {
    ghost use Rattle.std.specs.Prelude.{List, ◌+◌, ◌<◌, ◌^◌, length};
    ghost use Rattle.text_lines.specs.Lines.{Content, lines, content_lines};

    ghost Value = { List Content };

    ghost view = { λ l. content_lines (l.passed + 1) (lines l.rest.now) };

    ghost invariant = { λ l. l.passed + length l.rest.now < 2 ^ 64 };
}

impl<'a> ContentLines<'a> {
    /// Before the first line of the text.
    pub fn of(text: &'a [u8]) -> ContentLines<'a>
        ensures { result ≡ content_lines 1 (lines text.now) }
    {
        ContentLines {
            rest: text,
            passed: 0,
        }
    }

    /// The next line that isn't skipped. After the last one there is none, and none comes later.
    pub fn next(&mut self) -> Option<ContentLine<'a>>
        ensures { MatchOption result ((self.old ≡ []) × (self.new ≡ [])) (λ line. self.old ≡ content_of line ∷ self.new) }
    {
        while !self.rest.is_empty() {
            let end = line_end(self.rest);
            let line = &self.rest[..end];
            self.rest = suffix(self.rest, end);
            self.passed += 1;
            if !is_skipped(line) {
                return Some(ContentLine {
                    number: self.passed,
                    text: trim_line(line),
                });
            }
        }
        None
    }
}

/// What stands after the place and one byte more.
fn suffix(bytes: &[u8], place: usize) -> &[u8]
    requires { place < 2 ^ 63 }
    ensures { result.now ≡ drop (place + 1) bytes.now }
{
    if place < bytes.len() {
        &bytes[place + 1..]
    } else {
        &[]
    }
}
