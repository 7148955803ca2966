ghost use Rattle.std.specs.Prelude.{◌≡◌, ◌≤◌, ◌++◌, encode_utf8, length, take, IfNone, IfOk, IfSome, IsTrue};
ghost use Rattle.std.specs.List.{list_all};
ghost use Rattle.std.specs.Str.{IsCharBoundary};
ghost use Rattle.doc_profile.specs.steps.Plain as plain;
ghost use Rattle.doc_profile.specs.steps.View.{state_of};

use crate::phase::Phase;
use crate::reader::Reader;
use ft_base::Memory;

/// The first character, and what stands after it.
pub fn split_first(text: &str) -> Option<(char, &str)>
    ensures some { IfSome result (λ parts. text.now ≡ encode_utf8 parts.0 ++ parts.1.now) }
    ensures none { IfNone result (length text.now ≡ 0) }
{
    let mut walk = text.chars();
    match walk.next() {
        Some(c) => Some((c, walk.as_str())),
        None => None,
    }
}

/// Whether the byte is a character that stands in content for itself. A line end is none, and neither is what isn't ASCII.
#[tactic(auto, using(std::proofs::lemmas::Bool::Decides::nat_tests))]
fn is_plain(b: u8) -> bool
    ensures { result ≡ plain.is_plain b }
{
    b >= 0x20 && b < 0x80 && b != b'<' && b != b'&'
}

/// How many such characters stand at the front.
fn plain_len(text: &str) -> usize
    ensures within { result ≤ length text.now }
    ensures boundary { IsCharBoundary text.now result }
    ensures plain { IsTrue (list_all plain.is_plain (take result text.now)) }
{
    let bytes = text.as_bytes();
    let mut at = 0;
    while at < bytes.len() && is_plain(bytes[at]) {
        at += 1;
    }
    at
}

impl Reader {
    /// Whether a text is under way.
    #[tactic(auto, using(std::proofs::lemmas::Bool::Decides::nat_tests, crate::proofs::Readers::empty_is))]
    fn is_in_text(&self) -> bool
        ensures { result ≡ plain.is_in_text (state_of self.now) }
    {
        match self.phase {
            Phase::Ready => self.is_content() && !self.text.is_empty(),
            _ => false,
        }
    }
}

/// Takes the plain characters at the front, if a text is under way; what is left stands after them.
pub fn pass_plain<'a>(
    reader: &mut Reader,
    after_return: bool,
    rest: &'a str,
) -> Result<&'a str, Memory>
    ensures { IfOk result (λ suffix. plain.Passed after_return (state_of reader.old) rest.now suffix.now (state_of reader.new)) }
{
    if after_return || !reader.is_in_text() {
        return Ok(rest);
    }
    let (run, suffix) = rest.split_at(plain_len(rest));
    reader.text.push_str(run)?;
    Ok(suffix)
}
