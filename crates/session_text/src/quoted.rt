//! Texts in quotation marks, in which two stand for one.

ghost use Rattle.std.specs.Prelude.{◌≡◌, ◌&&◌, ◌∷◌, ◌+◌, ◌≤◌, ◌<◌, [], Some, None, drop, length, false, true, IfNone, IfOk, IfSome, MatchOption};
ghost use Rattle.session_text.specs.Quoted.{is_quoted, prefixed, unquoted_on};

use ft_base::{Line, Memory};
use std::alloc::Global;

/// What stands behind the quotation mark with which the text begins.
fn behind_mark(text: &str) -> Option<&str>
    ensures some { IfSome result (λ rest. (is_quoted text.now ≡ true) × (rest.now ≡ drop 1 text.now) × (length rest.now < length text.now)) }
    ensures none { IfNone result (is_quoted text.now ≡ false) }
{
    text.strip_prefix("\"")
}

/// The same of a text that may begin with one only where such texts are read.
pub(crate) fn behind_quote(quotes: bool, text: &str) -> Option<&str>
    ensures some { IfSome result (λ rest. ((quotes && is_quoted text.now) ≡ true) × (rest.now ≡ drop 1 text.now)) }
    ensures none { IfNone result ((quotes && is_quoted text.now) ≡ false) }
{
    if !quotes {
        return None;
    }
    behind_mark(text)
}

/// What stands before the first quotation mark, and what stands behind it.
#[tactic(auto, using(crate::proofs::QuotedLemmas::never_closed, crate::proofs::QuotedLemmas::first_quote))]
fn split_at_mark(text: &str) -> Option<(&str, &str)>
    ensures said { MatchOption result (unquoted_on false text.now ≡ None)
        (λ parts. unquoted_on false text.now ≡ prefixed parts.0.now (unquoted_on true parts.1.now)) }
    ensures shorter { IfSome result (λ parts. length parts.1.now < length text.now) }
{
    text.split_once('"')
}

/// What a text says behind a quotation mark, up to the one that closes it, and what stands after that; none where none closes it.
pub(crate) fn read_quoted(alloc: Global, text: &str) -> Result<Option<(Line, &str)>, Memory>
    ensures { IfOk result (λ read. MatchOption read (unquoted_on false text.now ≡ None) (λ q. unquoted_on false text.now ≡ Some (q.0, q.1.now))) }
{
    let mut said = String::new(alloc);
    let mut rest = text;
    while let Some((before, after)) = split_at_mark(rest) {
        said.push_str(before)?;
        let Some(next) = behind_mark(after) else {
            return Ok(Some((Line::from_string(said), after)));
        };
        said.push('"')?;
        rest = next;
    }
    Ok(None)
}
