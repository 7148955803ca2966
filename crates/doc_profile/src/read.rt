ghost use Rattle.std.specs.Prelude.{◌≡◌, ◌+◌, ◌^◌, ◌<◌, ◌∷◌, [], false, length, map, None, Ok, Some, true, IfErr, IfOk, OnOk};
ghost use Rattle.std.specs.Str.{IsUtf8, chars};
ghost use Rattle.plain_tree.specs.Document.{nodes};
ghost use Rattle.plain_tree.specs.View.{node};
ghost use Rattle.doc_grammar.specs.Limits.{node_here, one_if, place_count};
ghost use Rattle.doc_grammar.specs.steps.Machine as m;
ghost use Rattle.doc_grammar.specs.Printed.{ArePrintable, IsPrintable};
ghost use Rattle.doc_grammar.specs.steps.Reading.{outer_of};
ghost use Rattle.doc_grammar.specs.Texts.{Kind, Spells, mark_len, without_mark};
ghost use Rattle.doc_profile.specs.Faults.{AreWithin, FaultOf, Fits, IsNotUtf8, IsWithin};
ghost use Rattle.doc_profile.specs.Readings as readings;
ghost use Rattle.doc_profile.specs.Readings.{Faults, document_of, fragment_of, passes, taken, walk};
ghost use Rattle.doc_profile.specs.steps.View.{Goes, Walks, kind_of, nodes_of, state_of};

use crate::fault::DocFault;
use crate::plain::{pass_plain, split_first};
use crate::reader::Reader;
use ft_base::{Items, MAX_DEPTH, MAX_NODES, Memory};
use plain_tree::{Kids, PlainDoc, Tree};
use std::alloc::Global;

/// The text that the bytes spell.
fn text_of(bytes: &[u8]) -> Result<&str, DocFault>
    ensures ok { IfOk result (λ text. (text.now ≡ bytes.now) × IsUtf8 bytes.now) }
    ensures err { IfErr result (IsNotUtf8 bytes.now) }
{
    match str::from_utf8(bytes) {
        Ok(text) => Ok(text),
        Err(error) => Err(DocFault::NotUtf8 {
            at: error.valid_up_to(),
        }),
    }
}

/// Takes one character of the text as it is written; says whether it may stand here.
fn take(reader: &mut Reader, after_return: bool, c: char) -> Result<bool, Memory>
    ensures { Goes result (taken (state_of reader.old) after_return c) (state_of reader.new) }
{
    if c == '\r' {
        reader.step('\n')
    } else if c == '\n' && after_return {
        Ok(true)
    } else {
        reader.step(c)
    }
}

/// Reads the text, whose places count from `from`; an `Err` is the first fault.
fn read_text(reader: &mut Reader, text: &str, from: usize) -> Result<(), DocFault>
    requires start { state_of reader.old ≡ m.start (outer_of (kind_of reader.old.fragment)) }
    requires fits { from + length text.now < 2 ^ 64 }
    ensures { Walks result (walk (chars text.now) (state_of reader.old) false from) (state_of reader.new) }
{
    let mut after_return = false;
    let mut nodes = 0;
    let mut rest = text;
    while let Some((c, suffix)) = split_first(rest) {
        let at = from + (text.len() - rest.len());
        nodes = match count(reader, nodes, at, after_return, c) {
            Ok(more) => more,
            Err(fault) => return Err(fault),
        };
        if !take(reader, after_return, c)? {
            return Err(DocFault::Syntax { at });
        }
        after_return = c == '\r';
        rest = pass_plain(reader, after_return, suffix)?;
    }
    Ok(())
}

/// Counts the node, if one begins with the character at the place; an `Err` is the limit that it passes.
#[tactic(auto, using(std::proofs::lemmas::Bool::Decides::nat_tests, crate::proofs::Readers::depth_is))]
fn count(
    reader: &Reader,
    nodes: usize,
    at: usize,
    after_return: bool,
    c: char,
) -> Result<usize, DocFault>
    requires { node_here (state_of reader.now) after_return c ≡ true → nodes ≡ place_count (state_of reader.now).place }
    ensures count { IfOk result (λ more. more ≡ nodes + one_if (node_here (state_of reader.now) after_return c)) }
    ensures ok { OnOk result (passes (state_of reader.now) after_return c at ≡ None) }
    ensures err { IfErr result (λ fault. passes (state_of reader.now) after_return c at ≡ Some fault) }
{
    if reader.begins_element(c) {
        if reader.levels.len() >= MAX_DEPTH {
            return Err(DocFault::Depth {
                at: at.saturating_sub(1),
            });
        }
        if nodes >= MAX_NODES {
            return Err(DocFault::Nodes {
                at: at.saturating_sub(1),
            });
        }
        return Ok(nodes + 1);
    }
    if !reader.begins_text(after_return, c) {
        return Ok(nodes);
    }
    if nodes >= MAX_NODES {
        return Err(DocFault::Nodes { at });
    }
    Ok(nodes + 1)
}

/// The text after a byte order mark, if one stands at the front, and the place where it begins.
fn after_mark(text: &str) -> (&str, usize)
    ensures rest { chars result.0.now ≡ without_mark (chars text.now) }
    ensures place { result.1 ≡ mark_len (chars text.now) }
    ensures room { result.1 + length result.0.now ≡ length text.now }
{
    let mut walk = text.chars();
    match walk.next() {
        Some('\u{FEFF}') => (walk.as_str(), 3),
        _ => (text, 0),
    }
}

/// The nodes that the text spells; its places count from `from`.
fn nodes_in(alloc: Global, fragment: bool, text: &str, from: usize) -> Result<Vec<Tree>, DocFault>
    requires { from + length text.now < 2 ^ 64 }
    ensures ok { IfOk result (λ kids. readings.nodes_in (kind_of fragment) (chars text.now) from (from + length text.now) ≡ Ok (nodes_of kids)) }
    ensures err { IfErr result (λ fault. Faults (readings.nodes_in (kind_of fragment) (chars text.now) from (from + length text.now)) fault) }
{
    let mut reader = Reader::new(alloc, fragment);
    read_text(&mut reader, text, from)?;
    if !reader.is_finished() {
        return Err(DocFault::Syntax {
            at: from + text.len(),
        });
    }
    Ok(reader.finish()?)
}

/// The document that the bytes spell, or the first fault. A byte order mark at the front is skipped.
pub fn read_doc(alloc: Global, bytes: &[u8]) -> Result<PlainDoc, DocFault>
    ensures answer_ok { IfOk result (λ doc. document_of bytes.now ≡ Ok doc) }
    ensures answer_err { IfErr result (λ fault. Faults (document_of bytes.now) fault) }
    ensures read { IfOk result (λ doc. IsUtf8 bytes.now × Spells Kind.document (without_mark (chars bytes.now)) (doc ∷ [])) }
    ensures fits { OnOk result (Fits Kind.document (without_mark (chars bytes.now))) }
    ensures within { IfOk result IsWithin }
    ensures printable { IfOk result IsPrintable }
    ensures faults { IfErr result (FaultOf Kind.document bytes.now (without_mark (chars bytes.now)) (mark_len (chars bytes.now))) }
{
    let root = root_of(alloc, bytes)?;
    Ok(PlainDoc::from_tree(root))
}

/// The root of the document that the bytes spell.
fn root_of(alloc: Global, bytes: &[u8]) -> Result<Tree, DocFault>
    ensures ok { IfOk result (λ root. document_of bytes.now ≡ Ok (node root)) }
    ensures err { IfErr result (λ fault. Faults (document_of bytes.now) fault) }
{
    let text = text_of(bytes)?;
    let (text, from) = after_mark(text);
    let mut kids = nodes_in(alloc, false, text, from)?;
    match kids.pop() {
        Some(root) => Ok(root),
        None => unreachable!(),
    }
}

/// The content that the bytes spell, or the first fault.
pub fn read_fragment(alloc: Global, bytes: &[u8]) -> Result<Kids, DocFault>
    ensures answer_ok { IfOk result (λ kids. fragment_of bytes.now ≡ Ok (map node kids)) }
    ensures answer_err { IfErr result (λ fault. Faults (fragment_of bytes.now) fault) }
    ensures read { IfOk result (λ kids. IsUtf8 bytes.now × Spells Kind.fragment (chars bytes.now) (map node kids)) }
    ensures fits { OnOk result (Fits Kind.fragment (chars bytes.now)) }
    ensures within { IfOk result (λ kids. AreWithin (nodes (map node kids))) }
    ensures printable { IfOk result (λ kids. ArePrintable (nodes (map node kids))) }
    ensures faults { IfErr result (FaultOf Kind.fragment bytes.now (chars bytes.now) 0) }
{
    let text = text_of(bytes)?;
    let kids = nodes_in(alloc, true, text, 0)?;
    Ok(Items::from_vec(kids))
}
