//! Printing documents on one line.

ghost use Rattle.std.specs.Prelude.{◌≡◌, ◌∷◌, ◌++◌, [], Ok, codes, encode_utf8_all, map, string_bytes, IfOk, OnOk};
ghost use Rattle.std.specs.Str.{IsUtf8, chars};
ghost use Rattle.plain_tree.specs.Document.{Node, element, nodes};
ghost use Rattle.plain_tree.specs.View.{node};
ghost use Rattle.doc_grammar.specs.Printed as printed;
ghost use Rattle.doc_grammar.specs.Printed.{IsPrintable};
ghost use Rattle.doc_grammar.specs.Texts.{Kind, Spells, without_mark};
ghost use Rattle.doc_profile.specs.Faults.{IsWithin};
ghost use Rattle.doc_profile.specs.Readings.{document_of};

use ft_base::{Line, Memory};
use plain_tree::{Attr, PlainDoc, Tree};
use std::alloc::Global;

/// The document as one line. What can be read back, is: the line spells that document and no other.
pub fn print_doc(alloc: Global, doc: &PlainDoc) -> Result<Line, Memory>
    ensures line { IfOk result (λ line. line ≡ encode_utf8_all (printed.printed doc.now)) }
    ensures spelled { IfOk result (λ line. IsPrintable doc.now → IsUtf8 line × Spells Kind.document (without_mark (chars line)) (doc.now ∷ [])) }
    ensures only { IfOk result (λ line. IsPrintable doc.now → (other : Node) → Spells Kind.document (without_mark (chars line)) (other ∷ [])
        → other ≡ doc.now) }
    ensures read_back { IfOk result (λ line. IsPrintable doc.now → IsWithin doc.now → document_of line ≡ Ok doc.now) }
{
    let line = print_tree(alloc, doc.root())?;
    Ok(line)
}

/// The tree as one line.
pub fn print_tree(alloc: Global, tree: &Tree) -> Result<Line, Memory>
    ensures line { IfOk result (λ line. line ≡ encode_utf8_all (printed.printed (node tree.now))) }
    ensures utf8 { IfOk result IsUtf8 }
{
    let mut out = String::new(alloc);
    put_tree(&mut out, tree)?;
    Ok(Line::from_string(out))
}

#[cycle(put_tree)]
#[tactic(auto, using(plain_tree::proofs::Views::views))]
fn put_tree(out: &mut String, tree: &Tree) -> Result<(), Memory>
    ensures { OnOk result (string_bytes out.new ≡ string_bytes out.old ++ encode_utf8_all (printed.printed (node tree.now))) }
{
    match tree {
        Tree::Text { text } => put_text(out, text.as_str()),
        Tree::Elem { name, attrs, kids } => put_element(
            out,
            name.as_str(),
            attrs.as_slice(),
            kids.as_slice(),
        ),
    }
}

/// An element: one tag where it has no children.
#[cycle(put_tree)]
fn put_element(out: &mut String, name: &str, attrs: &[Attr], kids: &[Tree]) -> Result<(), Memory>
    ensures { OnOk result (string_bytes out.new
        ≡ string_bytes out.old ++ encode_utf8_all (printed.printed (element name.now attrs.now (nodes (map node kids.now))))) }
{
    put_start(out, name, attrs)?;
    if kids.is_empty() {
        out.push_str("/>")?;
        return Ok(());
    }
    out.push('>')?;
    put_kids(out, kids)?;
    put_end(out, name)?;
    Ok(())
}

#[cycle(put_tree)]
fn put_kids(out: &mut String, kids: &[Tree]) -> Result<(), Memory>
    ensures { OnOk result (string_bytes out.new ≡ string_bytes out.old ++ encode_utf8_all (printed.printed_all (nodes (map node kids.now)))) }
{
    for kid in kids {
        put_tree(out, kid)?;
    }
    Ok(())
}

/// A start tag up to its end.
fn put_start(out: &mut String, name: &str, attrs: &[Attr]) -> Result<(), Memory>
    ensures { OnOk result (string_bytes out.new
        ≡ string_bytes out.old ++ encode_utf8_all ((codes "<" ++ chars name.now) ++ printed.printed_attributes attrs.now)) }
{
    out.push('<')?;
    out.push_str(name)?;
    for attr in attrs {
        put_attribute(out, attr)?;
    }
    Ok(())
}

fn put_end(out: &mut String, name: &str) -> Result<(), Memory>
    ensures { OnOk result (string_bytes out.new ≡ string_bytes out.old ++ encode_utf8_all ((codes "</" ++ chars name.now) ++ codes ">")) }
{
    out.push_str("</")?;
    out.push_str(name)?;
    out.push('>')?;
    Ok(())
}

fn put_attribute(out: &mut String, attr: &Attr) -> Result<(), Memory>
    ensures { OnOk result (string_bytes out.new ≡ string_bytes out.old ++ encode_utf8_all (printed.printed_attribute attr.now)) }
{
    out.push(' ')?;
    out.push_str(attr.name.as_str())?;
    out.push_str("=\"")?;
    put_value(out, attr.value.as_str())?;
    out.push('"')?;
    Ok(())
}

fn put_text(out: &mut String, text: &str) -> Result<(), Memory>
    ensures { OnOk result (string_bytes out.new ≡ string_bytes out.old ++ encode_utf8_all (printed.printed_text text.now)) }
{
    for c in text.chars() {
        put_text_char(out, c)?;
    }
    Ok(())
}

#[tactic(auto, using(std::proofs::lemmas::Bool::Decides::nat_tests))]
fn put_text_char(out: &mut String, c: char) -> Result<(), Memory>
    ensures { OnOk result (string_bytes out.new ≡ string_bytes out.old ++ encode_utf8_all (printed.escaped_in_text c)) }
{
    match c {
        '&' => out.push_str("&amp;")?,
        '<' => out.push_str("&lt;")?,
        '>' => out.push_str("&gt;")?,
        '\r' => out.push_str("&#13;")?,
        '\n' => out.push_str("&#10;")?,
        _ => out.push(c)?,
    }
    Ok(())
}

fn put_value(out: &mut String, value: &str) -> Result<(), Memory>
    ensures { OnOk result (string_bytes out.new ≡ string_bytes out.old ++ encode_utf8_all (printed.printed_value value.now)) }
{
    for c in value.chars() {
        put_value_char(out, c)?;
    }
    Ok(())
}

#[tactic(auto, using(std::proofs::lemmas::Bool::Decides::nat_tests))]
fn put_value_char(out: &mut String, c: char) -> Result<(), Memory>
    ensures { OnOk result (string_bytes out.new ≡ string_bytes out.old ++ encode_utf8_all (printed.escaped_in_value c)) }
{
    match c {
        '&' => out.push_str("&amp;")?,
        '<' => out.push_str("&lt;")?,
        '"' => out.push_str("&quot;")?,
        '\t' => out.push_str("&#9;")?,
        '\r' => out.push_str("&#13;")?,
        '\n' => out.push_str("&#10;")?,
        _ => out.push(c)?,
    }
    Ok(())
}
